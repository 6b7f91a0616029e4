//! Offers of connection settings, in canonical form.

use crate::Server;
use message_codec::wire::Out;
use message_codec::writer::counting::{
    count_blob, count_many, count_one, count_raw, count_text, count_unsigned,
};
use message_codec::writer::levels::{depth_many, depth_one};
use message_codec::writer::putting::{
    put_blob, put_many, put_one, put_raw, put_text, put_unsigned,
};
use message_codec::writer::written::Written;
use message_values::{ConnectionSettingsOffers, OpAMPConnectionSettings};
use plain_values::{Header, Headers, NoMemory};

impl Written<Server> for Header {
    ghost use Rattle.message_codec.specs.Tables as tables;
    ghost use Rattle.message_replies.specs.ReplyColumns.{header_columns};

    ghost name = { tables.Header };

    ghost columns = { header_columns };

    #[tactic(auto, using(message_codec::proofs::Canonical::count_first, message_codec::proofs::Canonical::count_more))]
    fn len(&self) -> u64 {
        let total = count_text(0, 1, &self.key);
        count_text(total, 2, &self.value)
    }

    fn deepest(&self) -> u64 {
        0
    }

    fn put(&self, out: &mut Out) -> Result<(), NoMemory> {
        put_text(out, 1, &self.key)?;
        put_text(out, 2, &self.value)
    }
}

impl Written<Server> for Headers {
    ghost use Rattle.message_codec.specs.Tables as tables;
    ghost use Rattle.message_replies.specs.ReplyColumns.{headers_columns};

    ghost name = { tables.Headers };

    ghost columns = { headers_columns };

    #[tactic(auto, using(message_codec::proofs::Canonical::count_first, message_codec::proofs::Canonical::count_more))]
    fn len(&self) -> u64 {
        count_many(0, 1, &self.headers)
    }

    fn deepest(&self) -> u64 {
        depth_many(&self.headers)
    }

    fn put(&self, out: &mut Out) -> Result<(), NoMemory> {
        put_many(out, 1, &self.headers)
    }
}

impl Written<Server> for OpAMPConnectionSettings {
    ghost use Rattle.message_codec.specs.Tables as tables;
    ghost use Rattle.message_replies.specs.ReplyColumns.{connection_settings_columns};

    ghost name = { tables.OpAMPConnectionSettings };

    ghost columns = { connection_settings_columns };

    #[tactic(auto, using(message_codec::proofs::Canonical::count_first, message_codec::proofs::Canonical::count_more))]
    fn len(&self) -> u64 {
        let total = count_text(0, 1, &self.destination_endpoint);
        let total = count_one(total, 2, &self.headers);
        let total = count_raw(total, 3, &self.certificate);
        count_unsigned(total, 4, self.heartbeat_interval_seconds)
    }

    fn deepest(&self) -> u64 {
        depth_one(&self.headers)
    }

    fn put(&self, out: &mut Out) -> Result<(), NoMemory> {
        put_text(out, 1, &self.destination_endpoint)?;
        put_one(out, 2, &self.headers)?;
        put_raw(out, 3, &self.certificate)?;
        put_unsigned(out, 4, self.heartbeat_interval_seconds)
    }
}

impl Written<Server> for ConnectionSettingsOffers {
    ghost use Rattle.message_codec.specs.Tables as tables;
    ghost use Rattle.message_replies.specs.ReplyColumns.{connection_offers_columns};

    ghost name = { tables.ConnectionSettingsOffers };

    ghost columns = { connection_offers_columns };

    #[tactic(auto, using(message_codec::proofs::Canonical::count_first, message_codec::proofs::Canonical::count_more))]
    fn len(&self) -> u64 {
        let total = count_blob(0, 1, &self.hash);
        count_one(total, 2, &self.opamp)
    }

    fn deepest(&self) -> u64 {
        depth_one(&self.opamp)
    }

    fn put(&self, out: &mut Out) -> Result<(), NoMemory> {
        put_blob(out, 1, &self.hash)?;
        put_one(out, 2, &self.opamp)
    }
}
