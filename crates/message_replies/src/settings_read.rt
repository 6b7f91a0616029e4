//! Reading of offers of connection settings.

use crate::Server;
use message_codec::reader::columns::{take_blob, take_raw, take_text, take_unsigned};
use message_codec::reader::items::{Item, ReadFail};
use message_codec::reader::message::{Message, take_many, take_one};
use message_values::{ConnectionSettingsOffers, OpAMPConnectionSettings};
use plain_values::{Blob, Header, Headers, List, Text};
use std::alloc::Global;

impl Message<Server> for Header {
    ghost use Rattle.message_codec.specs.Tables as tables;
    ghost use Rattle.message_replies.specs.ReplyColumns.{header_columns};

    ghost name = { tables.Header };

    ghost columns = { header_columns };

    fn empty(alloc: Global) -> Header {
        Header {
            key: Text::new(alloc),
            value: Text::new(alloc),
        }
    }

    fn take(
        &mut self,
        alloc: Global,
        bytes: &[u8],
        item: &Item,
        _below: u32,
    ) -> Result<(), ReadFail> {
        match item.number {
            1 => take_text(alloc, &mut self.key, bytes, item)?,
            2 => take_text(alloc, &mut self.value, bytes, item)?,
            _ => {}
        }
        Ok(())
    }
}

impl Message<Server> for Headers {
    ghost use Rattle.message_codec.specs.Tables as tables;
    ghost use Rattle.message_replies.specs.ReplyColumns.{headers_columns};

    ghost name = { tables.Headers };

    ghost columns = { headers_columns };

    fn empty(alloc: Global) -> Headers {
        Headers {
            headers: List::new(alloc),
        }
    }

    fn take(
        &mut self,
        alloc: Global,
        bytes: &[u8],
        item: &Item,
        below: u32,
    ) -> Result<(), ReadFail> {
        match item.number {
            1 => take_many(alloc, &mut self.headers, bytes, item, below)?,
            _ => {}
        }
        Ok(())
    }
}

impl Message<Server> for OpAMPConnectionSettings {
    ghost use Rattle.message_codec.specs.Tables as tables;
    ghost use Rattle.message_replies.specs.ReplyColumns.{connection_settings_columns};

    ghost name = { tables.OpAMPConnectionSettings };

    ghost columns = { connection_settings_columns };

    fn empty(alloc: Global) -> OpAMPConnectionSettings {
        OpAMPConnectionSettings {
            destination_endpoint: Text::new(alloc),
            headers: None,
            certificate: None,
            heartbeat_interval_seconds: 0,
        }
    }

    fn take(
        &mut self,
        alloc: Global,
        bytes: &[u8],
        item: &Item,
        below: u32,
    ) -> Result<(), ReadFail> {
        match item.number {
            1 => take_text(alloc, &mut self.destination_endpoint, bytes, item)?,
            2 => take_one(alloc, &mut self.headers, bytes, item, below)?,
            3 => take_raw(alloc, &mut self.certificate, bytes, item)?,
            4 => take_unsigned(&mut self.heartbeat_interval_seconds, bytes, item),
            _ => {}
        }
        Ok(())
    }
}

impl Message<Server> for ConnectionSettingsOffers {
    ghost use Rattle.message_codec.specs.Tables as tables;
    ghost use Rattle.message_replies.specs.ReplyColumns.{connection_offers_columns};

    ghost name = { tables.ConnectionSettingsOffers };

    ghost columns = { connection_offers_columns };

    fn empty(alloc: Global) -> ConnectionSettingsOffers {
        ConnectionSettingsOffers {
            hash: Blob::new(alloc),
            opamp: None,
        }
    }

    fn take(
        &mut self,
        alloc: Global,
        bytes: &[u8],
        item: &Item,
        below: u32,
    ) -> Result<(), ReadFail> {
        match item.number {
            1 => take_blob(alloc, &mut self.hash, bytes, item)?,
            2 => take_one(alloc, &mut self.opamp, bytes, item, below)?,
            _ => {}
        }
        Ok(())
    }
}
