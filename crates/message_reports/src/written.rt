//! The parts of reports in canonical form.

use crate::Agent;
use message_codec::wire::Out;
use message_codec::writer::counting::{count_blob, count_enum, count_map, count_one, count_text};
use message_codec::writer::levels::{depth_map, depth_one};
use message_codec::writer::putting::{put_blob, put_enum, put_map, put_one, put_text};
use message_codec::writer::written::Written;
use message_values::{
    AgentDisconnect, EffectiveConfig, PackageStatus, PackageStatuses, RemoteConfigStatus,
};
use plain_values::NoMemory;

impl Written<Agent> for EffectiveConfig {
    ghost use Rattle.message_codec.specs.Tables as tables;
    ghost use Rattle.message_reports.specs.Columns.{effective_config_columns};

    ghost name = { tables.EffectiveConfig };

    ghost columns = { effective_config_columns };

    #[tactic(auto, using(message_codec::proofs::Canonical::count_first, message_codec::proofs::Canonical::count_more))]
    fn len(&self) -> u64 {
        count_one(0, 1, &self.config_map)
    }

    fn deepest(&self) -> u64 {
        depth_one(&self.config_map)
    }

    fn put(&self, out: &mut Out) -> Result<(), NoMemory> {
        put_one(out, 1, &self.config_map)
    }
}

impl Written<Agent> for RemoteConfigStatus {
    ghost use Rattle.message_codec.specs.Tables as tables;
    ghost use Rattle.message_reports.specs.Columns.{remote_config_status_columns};

    ghost name = { tables.RemoteConfigStatus };

    ghost columns = { remote_config_status_columns };

    #[tactic(auto, using(message_codec::proofs::Canonical::count_first, message_codec::proofs::Canonical::count_more))]
    fn len(&self) -> u64 {
        let total = count_blob(0, 1, &self.last_remote_config_hash);
        let total = count_enum(total, 2, self.status);
        count_text(total, 3, &self.error_message)
    }

    fn deepest(&self) -> u64 {
        0
    }

    fn put(&self, out: &mut Out) -> Result<(), NoMemory> {
        put_blob(out, 1, &self.last_remote_config_hash)?;
        put_enum(out, 2, self.status)?;
        put_text(out, 3, &self.error_message)
    }
}

impl Written<Agent> for PackageStatus {
    ghost use Rattle.message_codec.specs.Tables as tables;
    ghost use Rattle.message_reports.specs.Columns.{package_status_columns};

    ghost name = { tables.PackageStatus };

    ghost columns = { package_status_columns };

    #[tactic(auto, using(message_codec::proofs::Canonical::count_first, message_codec::proofs::Canonical::count_more))]
    fn len(&self) -> u64 {
        let total = count_text(0, 1, &self.name);
        let total = count_text(total, 2, &self.agent_has_version);
        let total = count_blob(total, 3, &self.agent_has_hash);
        let total = count_text(total, 4, &self.server_offered_version);
        let total = count_blob(total, 5, &self.server_offered_hash);
        let total = count_enum(total, 6, self.status);
        count_text(total, 7, &self.error_message)
    }

    fn deepest(&self) -> u64 {
        0
    }

    fn put(&self, out: &mut Out) -> Result<(), NoMemory> {
        put_text(out, 1, &self.name)?;
        put_text(out, 2, &self.agent_has_version)?;
        put_blob(out, 3, &self.agent_has_hash)?;
        put_text(out, 4, &self.server_offered_version)?;
        put_blob(out, 5, &self.server_offered_hash)?;
        put_enum(out, 6, self.status)?;
        put_text(out, 7, &self.error_message)
    }
}

impl Written<Agent> for PackageStatuses {
    ghost use Rattle.message_codec.specs.Tables as tables;
    ghost use Rattle.message_reports.specs.Columns.{package_statuses_columns};

    ghost name = { tables.PackageStatuses };

    ghost columns = { package_statuses_columns };

    #[tactic(auto, using(message_codec::proofs::Canonical::count_first, message_codec::proofs::Canonical::count_more))]
    fn len(&self) -> u64 {
        let total = count_map(0, 1, &self.packages);
        let total = count_blob(total, 2, &self.server_provided_all_packages_hash);
        count_text(total, 3, &self.error_message)
    }

    fn deepest(&self) -> u64 {
        depth_map(&self.packages)
    }

    fn put(&self, out: &mut Out) -> Result<(), NoMemory> {
        put_map(out, 1, &self.packages)?;
        put_blob(out, 2, &self.server_provided_all_packages_hash)?;
        put_text(out, 3, &self.error_message)
    }
}

impl Written<Agent> for AgentDisconnect {
    ghost use Rattle.message_codec.specs.Tables as tables;
    ghost use Rattle.message_reports.specs.ReportColumns.{agent_disconnect_columns};

    ghost name = { tables.AgentDisconnect };

    ghost columns = { agent_disconnect_columns };

    #[tactic(auto, unfolding(message_codec::specs::Canonical::capped))]
    fn len(&self) -> u64 {
        0
    }

    fn deepest(&self) -> u64 {
        0
    }

    fn put(&self, _out: &mut Out) -> Result<(), NoMemory> {
        Ok(())
    }
}
