//! The configuration that an agent runs with, and how it fares with the server's.

ghost use Rattle.std.specs.Prelude.{◌≡◌, IfOk};
ghost use Rattle.message_reports.specs.Columns.{effective_config_columns, effective_config_draft_columns};

use crate::Agent;
use message_attributes::parts::AgentConfigMapDraft;
use message_codec::reader::columns::{take_blob, take_enum, take_text};
use message_codec::reader::items::{Item, ReadFail};
use message_codec::reader::message::{Message, take_one};
use message_values::{EffectiveConfig, RemoteConfigStatus};
use plain_values::{Blob, NoMemory, Text};
use std::alloc::Global;

impl Message<Agent> for RemoteConfigStatus {
    ghost use Rattle.message_codec.specs.Tables as tables;
    ghost use Rattle.message_reports.specs.Columns.{remote_config_status_columns};

    ghost name = { tables.RemoteConfigStatus };

    ghost columns = { remote_config_status_columns };

    fn empty(alloc: Global) -> RemoteConfigStatus {
        RemoteConfigStatus {
            last_remote_config_hash: Blob::of(Vec::new(alloc)),
            status: 0,
            error_message: Text::of(String::new(alloc)),
        }
    }

    fn take(
        &mut self,
        alloc: Global,
        bytes: &[u8],
        item: &Item,
        _below: u32,
    ) -> Result<(), ReadFail> {
        match item.number {
            1 => take_blob(alloc, &mut self.last_remote_config_hash, bytes, item)?,
            2 => take_enum(&mut self.status, bytes, item),
            3 => take_text(alloc, &mut self.error_message, bytes, item)?,
            _ => {}
        }
        Ok(())
    }
}

/// An EffectiveConfig while it is read.
#[derive(Drop)]
pub struct EffectiveConfigDraft {
    /// The files in use, as they came.
    pub config_map: Option<AgentConfigMapDraft>,
}

impl EffectiveConfigDraft {
    /// The message that was read.
    pub fn settle(self, alloc: Global) -> Result<EffectiveConfig, NoMemory>
        ensures columns { IfOk result (λ m. effective_config_columns m ≡ effective_config_draft_columns self) }
    {
        match self.config_map {
            None => Ok(EffectiveConfig { config_map: None }),
            Some(draft) => Ok(EffectiveConfig {
                config_map: Some(draft.settle(alloc)?),
            }),
        }
    }
}

impl Message<Agent> for EffectiveConfigDraft {
    ghost use Rattle.message_codec.specs.Tables as tables;
    ghost use Rattle.message_reports.specs.Columns.{effective_config_draft_columns};

    ghost name = { tables.EffectiveConfig };

    ghost columns = { effective_config_draft_columns };

    fn empty(_alloc: Global) -> EffectiveConfigDraft {
        EffectiveConfigDraft { config_map: None }
    }

    fn take(
        &mut self,
        alloc: Global,
        bytes: &[u8],
        item: &Item,
        below: u32,
    ) -> Result<(), ReadFail> {
        match item.number {
            1 => take_one(alloc, &mut self.config_map, bytes, item, below)?,
            _ => {}
        }
        Ok(())
    }
}
