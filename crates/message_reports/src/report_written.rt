//! Reports in canonical form (OpAMP specification, "AgentToServer Message").

ghost use Rattle.std.specs.Prelude.{◌≡◌, ◌<◌, ◌^◌, OnOk, OnErr};
ghost use Rattle.message_codec.specs.Canonical.{needed, put_onto};
ghost use Rattle.message_reports.specs.ReportColumns.{later_rows, later_columns};

use crate::Agent;
use crate::health_written::put_health;
use message_codec::wire::Out;
use message_codec::writer::counting::{count_blob, count_many, count_one, count_unsigned};
use message_codec::writer::levels::{depth_many, depth_one};
use message_codec::writer::putting::{put_blob, put_many, put_one, put_unsigned};
use message_codec::writer::written::Written;
use message_values::{AgentDescription, AgentToServer};
use plain_values::NoMemory;

impl Written<Agent> for AgentDescription {
    ghost use Rattle.message_codec.specs.Tables as tables;
    ghost use Rattle.message_reports.specs.ReportColumns.{agent_description_columns};

    ghost name = { tables.AgentDescription };

    ghost columns = { agent_description_columns };

    #[tactic(auto, using(message_codec::proofs::Canonical::count_first, message_codec::proofs::Canonical::count_more))]
    fn len(&self) -> u64 {
        let total = count_many(0, 1, &self.identifying_attributes);
        count_many(total, 2, &self.non_identifying_attributes)
    }

    fn deepest(&self) -> u64 {
        let most = depth_many(&self.identifying_attributes);
        most.max(depth_many(&self.non_identifying_attributes))
    }

    fn put(&self, out: &mut Out) -> Result<(), NoMemory> {
        put_many(out, 1, &self.identifying_attributes)?;
        put_many(out, 2, &self.non_identifying_attributes)
    }
}

impl Written<Agent> for AgentToServer {
    ghost use Rattle.message_codec.specs.Tables as tables;
    ghost use Rattle.message_reports.specs.ReportColumns.{agent_to_server_columns};

    ghost name = { tables.AgentToServer };

    ghost columns = { agent_to_server_columns };

    #[tactic(auto, using(message_codec::proofs::Canonical::count_first, message_codec::proofs::Canonical::count_more))]
    fn len(&self) -> u64 {
        let total = count_blob(0, 1, &self.instance_uid);
        let total = count_unsigned(total, 2, self.sequence_num);
        let total = count_one(total, 3, &self.agent_description);
        let total = count_unsigned(total, 4, self.capabilities);
        let total = count_one(total, 5, &self.health);
        let total = count_one(total, 6, &self.effective_config);
        let total = count_one(total, 7, &self.remote_config_status);
        let total = count_one(total, 8, &self.package_statuses);
        let total = count_one(total, 9, &self.agent_disconnect);
        let total = count_unsigned(total, 10, self.flags);
        let total = count_one(total, 12, &self.custom_capabilities);
        let total = count_one(total, 13, &self.custom_message);
        count_one(total, 14, &self.available_components)
    }

    fn deepest(&self) -> u64 {
        let most = depth_one(&self.agent_description);
        let most = most.max(depth_one(&self.health));
        let most = most.max(depth_one(&self.effective_config));
        let most = most.max(depth_one(&self.remote_config_status));
        let most = most.max(depth_one(&self.package_statuses));
        let most = most.max(depth_one(&self.agent_disconnect));
        let most = most.max(depth_one(&self.custom_capabilities));
        let most = most.max(depth_one(&self.custom_message));
        most.max(depth_one(&self.available_components))
    }

    fn put(&self, out: &mut Out) -> Result<(), NoMemory> {
        put_blob(out, 1, &self.instance_uid)?;
        put_unsigned(out, 2, self.sequence_num)?;
        put_one(out, 3, &self.agent_description)?;
        put_unsigned(out, 4, self.capabilities)?;
        put_health(out, 5, &self.health)?;
        put_one(out, 6, &self.effective_config)?;
        put_one(out, 7, &self.remote_config_status)?;
        put_later(out, self)
    }
}

// Appends the fields from the package statuses on.
fn put_later(out: &mut Out, report: &AgentToServer) -> Result<(), NoMemory>
    requires few { needed later_rows (later_columns report.now) < 2 ^ 62 }
    ensures ok { OnOk result (out.new ≡ put_onto out.old later_rows (later_columns report.now)) }
    ensures short { OnErr result (out.old.spare < needed later_rows (later_columns report.now)) }
{
    put_one(out, 8, &report.package_statuses)?;
    put_one(out, 9, &report.agent_disconnect)?;
    put_unsigned(out, 10, report.flags)?;
    put_one(out, 12, &report.custom_capabilities)?;
    put_one(out, 13, &report.custom_message)?;
    put_one(out, 14, &report.available_components)
}
