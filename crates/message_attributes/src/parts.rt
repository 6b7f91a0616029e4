//! The parts that reports and replies share: configuration files and custom messages.

ghost use Rattle.std.specs.Prelude.{◌≡◌, IfOk};
ghost use Rattle.message_attributes.specs.PartColumns.{config_map_columns, config_map_draft_columns};

use crate::Shared;
use message_codec::reader::columns::{take_blob, take_text, take_texts};
use message_codec::reader::items::{Item, ReadFail};
use message_codec::reader::message::{Message, take_map};
use message_values::{CustomCapabilities, CustomMessage};
use plain_values::{AgentConfigFile, AgentConfigMap, Blob, List, Map, NoMemory, Pair, Text};
use std::alloc::Global;

impl Message<Shared> for AgentConfigFile {
    ghost use Rattle.message_codec.specs.Tables as tables;
    ghost use Rattle.message_attributes.specs.PartColumns.{config_file_columns};

    ghost name = { tables.AgentConfigFile };

    ghost columns = { config_file_columns };

    fn empty(alloc: Global) -> AgentConfigFile {
        AgentConfigFile {
            body: Blob::of(Vec::new(alloc)),
            content_type: Text::of(String::new(alloc)),
        }
    }

    fn take(
        &mut self,
        alloc: Global,
        bytes: &[u8],
        item: &Item,
        _below: u32,
    ) -> Result<(), ReadFail> {
        match item.number {
            1 => take_blob(alloc, &mut self.body, bytes, item)?,
            2 => take_text(alloc, &mut self.content_type, bytes, item)?,
            _ => {}
        }
        Ok(())
    }
}

/// An AgentConfigMap while it is read. Payloads of one message field merge, so its map is settled when all are read.
#[derive(Drop)]
pub struct AgentConfigMapDraft {
    /// The entries in the order in which they came.
    pub config_map: List<Pair<AgentConfigFile>>,
}

impl AgentConfigMapDraft {
    /// The message that was read, of each key the last entry. Takes time of n log n in the number of entries.
    pub fn settle(self, alloc: Global) -> Result<AgentConfigMap, NoMemory>
        ensures columns { IfOk result (λ m. config_map_columns m ≡ config_map_draft_columns self) }
    {
        Ok(AgentConfigMap {
            config_map: Map::of_entries(alloc, self.config_map.into_vec())?,
        })
    }
}

impl Message<Shared> for AgentConfigMapDraft {
    ghost use Rattle.message_codec.specs.Tables as tables;
    ghost use Rattle.message_attributes.specs.PartColumns.{config_map_draft_columns};

    ghost name = { tables.AgentConfigMap };

    ghost columns = { config_map_draft_columns };

    fn empty(alloc: Global) -> AgentConfigMapDraft {
        AgentConfigMapDraft {
            config_map: List::new(alloc),
        }
    }

    fn take(
        &mut self,
        alloc: Global,
        bytes: &[u8],
        item: &Item,
        below: u32,
    ) -> Result<(), ReadFail> {
        match item.number {
            1 => take_map(alloc, &mut self.config_map, bytes, item, below)?,
            _ => {}
        }
        Ok(())
    }
}

impl Message<Shared> for CustomCapabilities {
    ghost use Rattle.message_codec.specs.Tables as tables;
    ghost use Rattle.message_attributes.specs.PartColumns.{custom_capabilities_columns};

    ghost name = { tables.CustomCapabilities };

    ghost columns = { custom_capabilities_columns };

    fn empty(alloc: Global) -> CustomCapabilities {
        CustomCapabilities {
            capabilities: List::new(alloc),
        }
    }

    fn take(
        &mut self,
        alloc: Global,
        bytes: &[u8],
        item: &Item,
        _below: u32,
    ) -> Result<(), ReadFail> {
        match item.number {
            1 => take_texts(alloc, &mut self.capabilities, bytes, item)?,
            _ => {}
        }
        Ok(())
    }
}

impl Message<Shared> for CustomMessage {
    ghost use Rattle.message_codec.specs.Tables as tables;
    ghost use Rattle.message_attributes.specs.PartColumns.{custom_message_columns};

    ghost name = { tables.CustomMessage };

    ghost columns = { custom_message_columns };

    fn empty(alloc: Global) -> CustomMessage {
        CustomMessage {
            capability: Text::of(String::new(alloc)),
            kind: Text::of(String::new(alloc)),
            body: Blob::of(Vec::new(alloc)),
        }
    }

    fn take(
        &mut self,
        alloc: Global,
        bytes: &[u8],
        item: &Item,
        _below: u32,
    ) -> Result<(), ReadFail> {
        match item.number {
            1 => take_text(alloc, &mut self.capability, bytes, item)?,
            2 => take_text(alloc, &mut self.kind, bytes, item)?,
            3 => take_blob(alloc, &mut self.body, bytes, item)?,
            _ => {}
        }
        Ok(())
    }
}
