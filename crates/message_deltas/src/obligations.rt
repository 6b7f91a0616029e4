ghost use Rattle.std.specs.Prelude.{◌≡◌};
ghost use Rattle.message_deltas.specs.Obligations.{is_full, is_met, obliged};

use crate::fields::Obliged;
use message_values::AgentToServer;
use message_values::profile::{
    REPORTS_AVAILABLE_COMPONENTS, REPORTS_EFFECTIVE_CONFIG, REPORTS_HEALTH,
    REPORTS_PACKAGE_STATUSES, REPORTS_REMOTE_CONFIG,
};

/// What the capabilities, a set of bits, oblige an agent to report beside its description. Takes no memory.
pub fn obliged(capabilities: u64) -> Obliged
    ensures flags { result ≡ obliged capabilities }
{
    Obliged {
        health: capabilities & REPORTS_HEALTH != 0,
        effective: capabilities & REPORTS_EFFECTIVE_CONFIG != 0,
        remote: capabilities & REPORTS_REMOTE_CONFIG != 0,
        packages: capabilities & REPORTS_PACKAGE_STATUSES != 0,
        components: capabilities & REPORTS_AVAILABLE_COMPONENTS != 0,
    }
}

/// Whether the report carries the description and each part that its own capabilities oblige to. Takes no memory.
pub fn is_full(report: &AgentToServer) -> bool
    ensures full { result ≡ is_full report.now }
{
    let owes = obliged(report.capabilities);
    report.agent_description.is_some()
        && is_met(owes.health, report.health.is_some())
        && is_met(owes.effective, report.effective_config.is_some())
        && is_met(owes.remote, report.remote_config_status.is_some())
        && is_met(owes.packages, report.package_statuses.is_some())
        && is_met(owes.components, report.available_components.is_some())
}

// Whether the part is there where it is obliged.
pub(crate) fn is_met(is_obliged: bool, is_there: bool) -> bool
    ensures { result ≡ is_met is_obliged is_there }
{
    !is_obliged || is_there
}
