//! What a report lacks to be full, field by field.

ghost use Rattle.std.specs.Prelude.{◌≡◌};
ghost use Rattle.message_values.specs.declared.report.AgentToServer.{AgentToServer as Report};
ghost use Rattle.message_deltas.specs.Obligations.{is_full, misses_nothing, missing_fields};

use crate::obligations::{is_met, obliged};
use message_values::AgentToServer;

/// Which fields of an AgentToServer are missing of a full report, by their names in the standard's messages (OpAMP specification, "AgentToServer
/// Message").
#[derive(Clone, Copy, Debug, PartialEq, Eq)]
pub struct Missing {
    /// The description, which each full report has.
    pub agent_description: bool,
    /// The health.
    pub health: bool,
    /// The effective configuration.
    pub effective_config: bool,
    /// The status of the remote configuration.
    pub remote_config_status: bool,
    /// The statuses of the packages.
    pub package_statuses: bool,
    /// The components, by their hash at least.
    pub available_components: bool,
}

/// What the report lacks to be full for the capabilities that it carries. Takes no memory.
pub fn missing_fields(report: &AgentToServer) -> Missing
    ensures missing { result ≡ missing_fields report.now }
{
    let owes = obliged(report.capabilities);
    Missing {
        agent_description: report.agent_description.is_none(),
        health: !is_met(owes.health, report.health.is_some()),
        effective_config: !is_met(owes.effective, report.effective_config.is_some()),
        remote_config_status: !is_met(owes.remote, report.remote_config_status.is_some()),
        package_statuses: !is_met(owes.packages, report.package_statuses.is_some()),
        available_components: !is_met(owes.components, report.available_components.is_some()),
    }
}

/// Law: a report is full exactly where it misses nothing.
pub fn full_reports_miss_nothing()
    ensures same { (report : Report) → is_full report ≡ misses_nothing (missing_fields report) }
{}
