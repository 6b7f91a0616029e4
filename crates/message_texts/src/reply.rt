//! Replies and their parts.

use crate::columns::{
    show_blob, show_enum, show_many, show_map, show_one, show_raw, show_text, show_unsigned,
};
use crate::pages::Page;
use crate::shown::Shown;
use message_values::{
    AgentIdentification, AgentRemoteConfig, ConnectionSettingsOffers, DownloadableFile,
    OpAMPConnectionSettings, PackageAvailable, PackagesAvailable, RetryInfo, ServerErrorResponse,
    ServerToAgent, ServerToAgentCommand,
};
use plain_values::{Header, Headers, NoMemory};

impl Shown for Header {
    ghost use Rattle.message_codec.specs.Tables as tables;
    ghost use Rattle.message_replies.specs.ReplyColumns.{header_columns};

    ghost name = { tables.Header };

    ghost columns = { header_columns };

    #[tactic(auto, using(crate::proofs::Lines::by_columns))]
    fn show(&self, page: &mut Page, path: &str) -> Result<(), NoMemory> {
        show_text(page, path, "key", &self.key)?;
        show_text(page, path, "value", &self.value)?;
        Ok(())
    }
}

impl Shown for Headers {
    ghost use Rattle.message_codec.specs.Tables as tables;
    ghost use Rattle.message_replies.specs.ReplyColumns.{headers_columns};

    ghost name = { tables.Headers };

    ghost columns = { headers_columns };

    #[tactic(auto, using(crate::proofs::Lines::by_columns))]
    fn show(&self, page: &mut Page, path: &str) -> Result<(), NoMemory> {
        show_many(page, path, "headers", &self.headers)?;
        Ok(())
    }
}

impl Shown for OpAMPConnectionSettings {
    ghost use Rattle.message_codec.specs.Tables as tables;
    ghost use Rattle.message_replies.specs.ReplyColumns.{connection_settings_columns};

    ghost name = { tables.OpAMPConnectionSettings };

    ghost columns = { connection_settings_columns };

    #[tactic(auto, using(crate::proofs::Lines::by_columns))]
    fn show(&self, page: &mut Page, path: &str) -> Result<(), NoMemory> {
        show_text(
            page,
            path,
            "destination_endpoint",
            &self.destination_endpoint,
        )?;
        show_one(page, path, "headers", &self.headers)?;
        show_raw(page, path, "certificate", &self.certificate)?;
        show_unsigned(
            page,
            path,
            "heartbeat_interval_seconds",
            self.heartbeat_interval_seconds,
        )?;
        Ok(())
    }
}

impl Shown for ConnectionSettingsOffers {
    ghost use Rattle.message_codec.specs.Tables as tables;
    ghost use Rattle.message_replies.specs.ReplyColumns.{connection_offers_columns};

    ghost name = { tables.ConnectionSettingsOffers };

    ghost columns = { connection_offers_columns };

    #[tactic(auto, using(crate::proofs::Lines::by_columns))]
    fn show(&self, page: &mut Page, path: &str) -> Result<(), NoMemory> {
        show_blob(page, path, "hash", &self.hash)?;
        show_one(page, path, "opamp", &self.opamp)?;
        Ok(())
    }
}

impl Shown for DownloadableFile {
    ghost use Rattle.message_codec.specs.Tables as tables;
    ghost use Rattle.message_replies.specs.ReplyColumns.{downloadable_file_columns};

    ghost name = { tables.DownloadableFile };

    ghost columns = { downloadable_file_columns };

    #[tactic(auto, using(crate::proofs::Lines::by_columns))]
    fn show(&self, page: &mut Page, path: &str) -> Result<(), NoMemory> {
        show_text(page, path, "download_url", &self.download_url)?;
        show_blob(page, path, "content_hash", &self.content_hash)?;
        show_blob(page, path, "signature", &self.signature)?;
        Ok(())
    }
}

impl Shown for PackageAvailable {
    ghost use Rattle.message_codec.specs.Tables as tables;
    ghost use Rattle.message_replies.specs.ReplyColumns.{package_available_columns};

    ghost name = { tables.PackageAvailable };

    ghost columns = { package_available_columns };

    #[tactic(auto, using(crate::proofs::Lines::by_columns))]
    fn show(&self, page: &mut Page, path: &str) -> Result<(), NoMemory> {
        show_enum(page, path, "type", &self.kind)?;
        show_text(page, path, "version", &self.version)?;
        show_one(page, path, "file", &self.file)?;
        show_blob(page, path, "hash", &self.hash)?;
        Ok(())
    }
}

impl Shown for PackagesAvailable {
    ghost use Rattle.message_codec.specs.Tables as tables;
    ghost use Rattle.message_replies.specs.ReplyColumns.{packages_available_columns};

    ghost name = { tables.PackagesAvailable };

    ghost columns = { packages_available_columns };

    #[tactic(auto, using(crate::proofs::Lines::by_columns))]
    fn show(&self, page: &mut Page, path: &str) -> Result<(), NoMemory> {
        show_map(page, path, "packages", &self.packages)?;
        show_blob(page, path, "all_packages_hash", &self.all_packages_hash)?;
        Ok(())
    }
}

impl Shown for AgentRemoteConfig {
    ghost use Rattle.message_codec.specs.Tables as tables;
    ghost use Rattle.message_replies.specs.ReplyColumns.{remote_config_columns};

    ghost name = { tables.AgentRemoteConfig };

    ghost columns = { remote_config_columns };

    #[tactic(auto, using(crate::proofs::Lines::by_columns))]
    fn show(&self, page: &mut Page, path: &str) -> Result<(), NoMemory> {
        show_one(page, path, "config", &self.config)?;
        show_blob(page, path, "config_hash", &self.config_hash)?;
        Ok(())
    }
}

impl Shown for RetryInfo {
    ghost use Rattle.message_codec.specs.Tables as tables;
    ghost use Rattle.message_replies.specs.ReplyColumns.{retry_info_columns};

    ghost name = { tables.RetryInfo };

    ghost columns = { retry_info_columns };

    #[tactic(auto, using(crate::proofs::Lines::by_columns))]
    fn show(&self, page: &mut Page, path: &str) -> Result<(), NoMemory> {
        show_unsigned(
            page,
            path,
            "retry_after_nanoseconds",
            self.retry_after_nanoseconds,
        )?;
        Ok(())
    }
}

impl Shown for ServerErrorResponse {
    ghost use Rattle.message_codec.specs.Tables as tables;
    ghost use Rattle.message_replies.specs.ReplyColumns.{error_response_columns};

    ghost name = { tables.ServerErrorResponse };

    ghost columns = { error_response_columns };

    #[tactic(auto, using(crate::proofs::Lines::by_columns))]
    fn show(&self, page: &mut Page, path: &str) -> Result<(), NoMemory> {
        show_enum(page, path, "type", &self.kind)?;
        show_text(page, path, "error_message", &self.error_message)?;
        show_one(page, path, "retry_info", &self.retry_info)?;
        Ok(())
    }
}

impl Shown for AgentIdentification {
    ghost use Rattle.message_codec.specs.Tables as tables;
    ghost use Rattle.message_replies.specs.ReplyColumns.{identification_columns};

    ghost name = { tables.AgentIdentification };

    ghost columns = { identification_columns };

    #[tactic(auto, using(crate::proofs::Lines::by_columns))]
    fn show(&self, page: &mut Page, path: &str) -> Result<(), NoMemory> {
        show_blob(page, path, "new_instance_uid", &self.new_instance_uid)?;
        Ok(())
    }
}

impl Shown for ServerToAgentCommand {
    ghost use Rattle.message_codec.specs.Tables as tables;
    ghost use Rattle.message_replies.specs.ReplyColumns.{command_columns};

    ghost name = { tables.ServerToAgentCommand };

    ghost columns = { command_columns };

    #[tactic(auto, using(crate::proofs::Lines::by_columns))]
    fn show(&self, page: &mut Page, path: &str) -> Result<(), NoMemory> {
        show_enum(page, path, "type", &self.kind)?;
        Ok(())
    }
}

impl Shown for ServerToAgent {
    ghost use Rattle.message_codec.specs.Tables as tables;
    ghost use Rattle.message_replies.specs.ReplyColumns.{server_to_agent_columns};

    ghost name = { tables.ServerToAgent };

    ghost columns = { server_to_agent_columns };

    #[tactic(auto, using(crate::proofs::Lines::by_columns))]
    fn show(&self, page: &mut Page, path: &str) -> Result<(), NoMemory> {
        show_blob(page, path, "instance_uid", &self.instance_uid)?;
        show_one(page, path, "error_response", &self.error_response)?;
        show_one(page, path, "remote_config", &self.remote_config)?;
        show_one(page, path, "connection_settings", &self.connection_settings)?;
        show_one(page, path, "packages_available", &self.packages_available)?;
        show_unsigned(page, path, "flags", self.flags)?;
        show_unsigned(page, path, "capabilities", self.capabilities)?;
        show_one(
            page,
            path,
            "agent_identification",
            &self.agent_identification,
        )?;
        show_one(page, path, "command", &self.command)?;
        show_one(page, path, "custom_capabilities", &self.custom_capabilities)?;
        show_one(page, path, "custom_message", &self.custom_message)?;
        Ok(())
    }
}
