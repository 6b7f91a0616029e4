//! The parts that reports and replies share, in canonical form.

use crate::Shared;
use message_codec::wire::Out;
use message_codec::writer::counting::{count_blob, count_map, count_text, count_texts};
use message_codec::writer::levels::depth_map;
use message_codec::writer::putting::{put_blob, put_map, put_text, put_texts};
use message_codec::writer::written::Written;
use message_values::{CustomCapabilities, CustomMessage};
use plain_values::{AgentConfigFile, AgentConfigMap, NoMemory};

impl Written<Shared> for AgentConfigFile {
    ghost use Rattle.message_codec.specs.Tables as tables;
    ghost use Rattle.message_attributes.specs.PartColumns.{config_file_columns};

    ghost name = { tables.AgentConfigFile };

    ghost columns = { config_file_columns };

    #[tactic(auto, using(message_codec::proofs::Canonical::count_first, message_codec::proofs::Canonical::count_more))]
    fn len(&self) -> u64 {
        let total = count_blob(0, 1, &self.body);
        count_text(total, 2, &self.content_type)
    }

    fn deepest(&self) -> u64 {
        0
    }

    fn put(&self, out: &mut Out) -> Result<(), NoMemory> {
        put_blob(out, 1, &self.body)?;
        put_text(out, 2, &self.content_type)
    }
}

impl Written<Shared> for AgentConfigMap {
    ghost use Rattle.message_codec.specs.Tables as tables;
    ghost use Rattle.message_attributes.specs.PartColumns.{config_map_columns};

    ghost name = { tables.AgentConfigMap };

    ghost columns = { config_map_columns };

    #[tactic(auto, using(message_codec::proofs::Canonical::count_first, message_codec::proofs::Canonical::count_more))]
    fn len(&self) -> u64 {
        count_map(0, 1, &self.config_map)
    }

    fn deepest(&self) -> u64 {
        depth_map(&self.config_map)
    }

    fn put(&self, out: &mut Out) -> Result<(), NoMemory> {
        put_map(out, 1, &self.config_map)
    }
}

impl Written<Shared> for CustomCapabilities {
    ghost use Rattle.message_codec.specs.Tables as tables;
    ghost use Rattle.message_attributes.specs.PartColumns.{custom_capabilities_columns};

    ghost name = { tables.CustomCapabilities };

    ghost columns = { custom_capabilities_columns };

    #[tactic(auto, using(message_codec::proofs::Canonical::count_first, message_codec::proofs::Canonical::count_more))]
    fn len(&self) -> u64 {
        count_texts(0, 1, &self.capabilities)
    }

    fn deepest(&self) -> u64 {
        0
    }

    fn put(&self, out: &mut Out) -> Result<(), NoMemory> {
        put_texts(out, 1, &self.capabilities)
    }
}

impl Written<Shared> for CustomMessage {
    ghost use Rattle.message_codec.specs.Tables as tables;
    ghost use Rattle.message_attributes.specs.PartColumns.{custom_message_columns};

    ghost name = { tables.CustomMessage };

    ghost columns = { custom_message_columns };

    #[tactic(auto, using(message_codec::proofs::Canonical::count_first, message_codec::proofs::Canonical::count_more))]
    fn len(&self) -> u64 {
        let total = count_text(0, 1, &self.capability);
        let total = count_text(total, 2, &self.kind);
        count_blob(total, 3, &self.body)
    }

    fn deepest(&self) -> u64 {
        0
    }

    fn put(&self, out: &mut Out) -> Result<(), NoMemory> {
        put_text(out, 1, &self.capability)?;
        put_text(out, 2, &self.kind)?;
        put_blob(out, 3, &self.body)
    }
}
