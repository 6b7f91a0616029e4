//! Reports, and the parts of theirs that hold no such part again.

use crate::columns::{
    show_blob, show_enum, show_many, show_map, show_one, show_text, show_unsigned,
};
use crate::pages::Page;
use crate::shown::Shown;
use message_values::{
    AgentDescription, AgentDisconnect, AgentToServer, EffectiveConfig, PackageStatus,
    PackageStatuses, RemoteConfigStatus,
};
use plain_values::NoMemory;

impl Shown for EffectiveConfig {
    ghost use Rattle.message_codec.specs.Tables as tables;
    ghost use Rattle.message_reports.specs.Columns.{effective_config_columns};

    ghost name = { tables.EffectiveConfig };

    ghost columns = { effective_config_columns };

    #[tactic(auto, using(crate::proofs::Lines::by_columns))]
    fn show(&self, page: &mut Page, path: &str) -> Result<(), NoMemory> {
        show_one(page, path, "config_map", &self.config_map)?;
        Ok(())
    }
}

impl Shown for RemoteConfigStatus {
    ghost use Rattle.message_codec.specs.Tables as tables;
    ghost use Rattle.message_reports.specs.Columns.{remote_config_status_columns};

    ghost name = { tables.RemoteConfigStatus };

    ghost columns = { remote_config_status_columns };

    #[tactic(auto, using(crate::proofs::Lines::by_columns))]
    fn show(&self, page: &mut Page, path: &str) -> Result<(), NoMemory> {
        show_blob(
            page,
            path,
            "last_remote_config_hash",
            &self.last_remote_config_hash,
        )?;
        show_enum(page, path, "status", &self.status)?;
        show_text(page, path, "error_message", &self.error_message)?;
        Ok(())
    }
}

impl Shown for PackageStatus {
    ghost use Rattle.message_codec.specs.Tables as tables;
    ghost use Rattle.message_reports.specs.Columns.{package_status_columns};

    ghost name = { tables.PackageStatus };

    ghost columns = { package_status_columns };

    #[tactic(auto, using(crate::proofs::Lines::by_columns))]
    fn show(&self, page: &mut Page, path: &str) -> Result<(), NoMemory> {
        show_text(page, path, "name", &self.name)?;
        show_text(page, path, "agent_has_version", &self.agent_has_version)?;
        show_blob(page, path, "agent_has_hash", &self.agent_has_hash)?;
        show_text(
            page,
            path,
            "server_offered_version",
            &self.server_offered_version,
        )?;
        show_blob(page, path, "server_offered_hash", &self.server_offered_hash)?;
        show_enum(page, path, "status", &self.status)?;
        show_text(page, path, "error_message", &self.error_message)?;
        Ok(())
    }
}

impl Shown for PackageStatuses {
    ghost use Rattle.message_codec.specs.Tables as tables;
    ghost use Rattle.message_reports.specs.Columns.{package_statuses_columns};

    ghost name = { tables.PackageStatuses };

    ghost columns = { package_statuses_columns };

    #[tactic(auto, using(crate::proofs::Lines::by_columns))]
    fn show(&self, page: &mut Page, path: &str) -> Result<(), NoMemory> {
        show_map(page, path, "packages", &self.packages)?;
        show_blob(
            page,
            path,
            "server_provided_all_packages_hash",
            &self.server_provided_all_packages_hash,
        )?;
        show_text(page, path, "error_message", &self.error_message)?;
        Ok(())
    }
}

impl Shown for AgentDescription {
    ghost use Rattle.message_codec.specs.Tables as tables;
    ghost use Rattle.message_reports.specs.ReportColumns.{agent_description_columns};

    ghost name = { tables.AgentDescription };

    ghost columns = { agent_description_columns };

    #[tactic(auto, using(crate::proofs::Lines::by_columns))]
    fn show(&self, page: &mut Page, path: &str) -> Result<(), NoMemory> {
        show_many(
            page,
            path,
            "identifying_attributes",
            &self.identifying_attributes,
        )?;
        show_many(
            page,
            path,
            "non_identifying_attributes",
            &self.non_identifying_attributes,
        )?;
        Ok(())
    }
}

impl Shown for AgentDisconnect {
    ghost use Rattle.message_codec.specs.Tables as tables;
    ghost use Rattle.message_reports.specs.ReportColumns.{agent_disconnect_columns};

    ghost name = { tables.AgentDisconnect };

    ghost columns = { agent_disconnect_columns };

    #[tactic(auto, using(crate::proofs::Lines::by_columns))]
    fn show(&self, page: &mut Page, path: &str) -> Result<(), NoMemory> {
        Ok(())
    }
}

impl Shown for AgentToServer {
    ghost use Rattle.message_codec.specs.Tables as tables;
    ghost use Rattle.message_reports.specs.ReportColumns.{agent_to_server_columns};

    ghost name = { tables.AgentToServer };

    ghost columns = { agent_to_server_columns };

    #[tactic(auto, using(crate::proofs::Lines::by_columns))]
    fn show(&self, page: &mut Page, path: &str) -> Result<(), NoMemory> {
        show_blob(page, path, "instance_uid", &self.instance_uid)?;
        show_unsigned(page, path, "sequence_num", self.sequence_num)?;
        show_one(page, path, "agent_description", &self.agent_description)?;
        show_unsigned(page, path, "capabilities", self.capabilities)?;
        show_one(page, path, "health", &self.health)?;
        show_one(page, path, "effective_config", &self.effective_config)?;
        show_one(
            page,
            path,
            "remote_config_status",
            &self.remote_config_status,
        )?;
        show_one(page, path, "package_statuses", &self.package_statuses)?;
        show_one(page, path, "agent_disconnect", &self.agent_disconnect)?;
        show_unsigned(page, path, "flags", self.flags)?;
        show_one(page, path, "custom_capabilities", &self.custom_capabilities)?;
        show_one(page, path, "custom_message", &self.custom_message)?;
        show_one(
            page,
            path,
            "available_components",
            &self.available_components,
        )?;
        Ok(())
    }
}
