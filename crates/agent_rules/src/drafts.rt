//! What is kept, and a change of it, while they are read.

use crate::Kept;
use message_attributes::parts::AgentConfigMapDraft;
use message_codec::reader::columns::{take_blob, take_raw, take_text, take_truth, take_unsigned};
use message_codec::reader::items::{Item, ReadFail};
use message_codec::reader::message::{Message, take_one};
use message_reports::packages::PackageStatusesDraft;
use message_values::RemoteConfigStatus;
use plain_values::{Blob, Headers, Text};
use std::alloc::Global;

/// The fields of a payload, as they came. A message is none where no field has it.
#[derive(Drop)]
pub struct SavedDraft {
    pub uid: Blob,
    pub limit: u64,
    pub uid_given: bool,
    pub endpoint: Text,
    pub headers: Option<Headers>,
    pub interval: u64,
    pub settings_hash: Blob,
    pub config: Option<AgentConfigMapDraft>,
    pub remote: Option<RemoteConfigStatus>,
    pub packages: Option<PackageStatusesDraft>,
    pub config_hash: Blob,
    pub components_hash: Blob,
}

/// The fields of a change, each as the payload that has it alone, or none where it stays.
pub struct ChangeDraft {
    pub uid: Option<Blob>,
    pub limit: Option<Blob>,
    pub uid_given: Option<Blob>,
    pub endpoint: Option<Blob>,
    pub headers: Option<Blob>,
    pub interval: Option<Blob>,
    pub settings_hash: Option<Blob>,
    pub config: Option<Blob>,
    pub remote: Option<Blob>,
    pub packages: Option<Blob>,
    pub config_hash: Option<Blob>,
    pub components_hash: Option<Blob>,
}

// By hand, so that it is a call where a value is dropped, and not laid out there.
impl Drop for ChangeDraft {
    fn drop(self) {
        let ChangeDraft {
            uid: _,
            limit: _,
            uid_given: _,
            endpoint: _,
            headers: _,
            interval: _,
            settings_hash: _,
            config: _,
            remote: _,
            packages: _,
            config_hash: _,
            components_hash: _,
        } = self;
    }
}

impl Message<Kept> for SavedDraft {
    ghost use Rattle.message_codec.specs.Tables as tables;
    ghost use Rattle.agent_rules.specs.Columns.{draft_columns};

    ghost name = { tables.SavedState };

    ghost columns = { draft_columns };

    fn empty(alloc: Global) -> SavedDraft {
        SavedDraft {
            uid: Blob::new(alloc),
            limit: 0,
            uid_given: false,
            endpoint: Text::new(alloc),
            headers: None,
            interval: 0,
            settings_hash: Blob::new(alloc),
            config: None,
            remote: None,
            packages: None,
            config_hash: Blob::new(alloc),
            components_hash: Blob::new(alloc),
        }
    }

    fn take(
        &mut self,
        alloc: Global,
        bytes: &[u8],
        item: &Item,
        below: u32,
    ) -> Result<(), ReadFail> {
        match item.number {
            1 => take_blob(alloc, &mut self.uid, bytes, item),
            2 => {
                take_unsigned(&mut self.limit, bytes, item);
                Ok(())
            }
            3 => {
                take_truth(&mut self.uid_given, bytes, item);
                Ok(())
            }
            4 => take_text(alloc, &mut self.endpoint, bytes, item),
            5 => take_one(alloc, &mut self.headers, bytes, item, below),
            6 => {
                take_unsigned(&mut self.interval, bytes, item);
                Ok(())
            }
            7 => take_blob(alloc, &mut self.settings_hash, bytes, item),
            8 => take_one(alloc, &mut self.config, bytes, item, below),
            9 => take_one(alloc, &mut self.remote, bytes, item, below),
            10 => take_one(alloc, &mut self.packages, bytes, item, below),
            11 => take_blob(alloc, &mut self.config_hash, bytes, item),
            12 => take_blob(alloc, &mut self.components_hash, bytes, item),
            _ => Ok(()),
        }
    }
}

impl Message<Kept> for ChangeDraft {
    ghost use Rattle.message_codec.specs.Tables as tables;
    ghost use Rattle.agent_rules.specs.Columns.{change_columns};

    ghost name = { tables.SavedChange };

    ghost columns = { change_columns };

    fn empty(_alloc: Global) -> ChangeDraft {
        ChangeDraft {
            uid: None,
            limit: None,
            uid_given: None,
            endpoint: None,
            headers: None,
            interval: None,
            settings_hash: None,
            config: None,
            remote: None,
            packages: None,
            config_hash: None,
            components_hash: None,
        }
    }

    fn take(
        &mut self,
        alloc: Global,
        bytes: &[u8],
        item: &Item,
        _below: u32,
    ) -> Result<(), ReadFail> {
        match item.number {
            1 => take_raw(alloc, &mut self.uid, bytes, item),
            2 => take_raw(alloc, &mut self.limit, bytes, item),
            3 => take_raw(alloc, &mut self.uid_given, bytes, item),
            4 => take_raw(alloc, &mut self.endpoint, bytes, item),
            5 => take_raw(alloc, &mut self.headers, bytes, item),
            6 => take_raw(alloc, &mut self.interval, bytes, item),
            7 => take_raw(alloc, &mut self.settings_hash, bytes, item),
            8 => take_raw(alloc, &mut self.config, bytes, item),
            9 => take_raw(alloc, &mut self.remote, bytes, item),
            10 => take_raw(alloc, &mut self.packages, bytes, item),
            11 => take_raw(alloc, &mut self.config_hash, bytes, item),
            12 => take_raw(alloc, &mut self.components_hash, bytes, item),
            _ => Ok(()),
        }
    }
}
