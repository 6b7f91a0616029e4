//! The parts that reports and replies share.

use crate::columns::{show_blob, show_map, show_text, show_texts};
use crate::pages::Page;
use crate::shown::Shown;
use message_values::{CustomCapabilities, CustomMessage};
use plain_values::{AgentConfigFile, AgentConfigMap, NoMemory};

impl Shown for AgentConfigFile {
    ghost use Rattle.message_codec.specs.Tables as tables;
    ghost use Rattle.message_attributes.specs.PartColumns.{config_file_columns};

    ghost name = { tables.AgentConfigFile };

    ghost columns = { config_file_columns };

    #[tactic(auto, using(crate::proofs::Lines::by_columns))]
    fn show(&self, page: &mut Page, path: &str) -> Result<(), NoMemory> {
        show_blob(page, path, "body", &self.body)?;
        show_text(page, path, "content_type", &self.content_type)?;
        Ok(())
    }
}

impl Shown for AgentConfigMap {
    ghost use Rattle.message_codec.specs.Tables as tables;
    ghost use Rattle.message_attributes.specs.PartColumns.{config_map_columns};

    ghost name = { tables.AgentConfigMap };

    ghost columns = { config_map_columns };

    #[tactic(auto, using(crate::proofs::Lines::by_columns))]
    fn show(&self, page: &mut Page, path: &str) -> Result<(), NoMemory> {
        show_map(page, path, "config_map", &self.config_map)?;
        Ok(())
    }
}

impl Shown for CustomCapabilities {
    ghost use Rattle.message_codec.specs.Tables as tables;
    ghost use Rattle.message_attributes.specs.PartColumns.{custom_capabilities_columns};

    ghost name = { tables.CustomCapabilities };

    ghost columns = { custom_capabilities_columns };

    #[tactic(auto, using(crate::proofs::Lines::by_columns))]
    fn show(&self, page: &mut Page, path: &str) -> Result<(), NoMemory> {
        show_texts(page, path, "capabilities", &self.capabilities)?;
        Ok(())
    }
}

impl Shown for CustomMessage {
    ghost use Rattle.message_codec.specs.Tables as tables;
    ghost use Rattle.message_attributes.specs.PartColumns.{custom_message_columns};

    ghost name = { tables.CustomMessage };

    ghost columns = { custom_message_columns };

    #[tactic(auto, using(crate::proofs::Lines::by_columns))]
    fn show(&self, page: &mut Page, path: &str) -> Result<(), NoMemory> {
        show_text(page, path, "capability", &self.capability)?;
        show_text(page, path, "type", &self.kind)?;
        show_blob(page, path, "data", &self.body)?;
        Ok(())
    }
}
