//! What became of the offer at an agent.

ghost use Rattle.std.specs.Prelude.{◌≡◌, ℕ, List};
ghost use Rattle.std.specs.Option.{option_copied};
ghost use Rattle.server_waves.specs.Verdicts.{is_applied, is_failed};
ghost use Rattle.server_waves.specs.Waves.{has_applied, has_failed, is_eligible, is_status, passes};

use crate::judges::Judge;
use message_deltas::REPORTS_REMOTE_CONFIG;
use message_values::RemoteConfigStatus;
use plain_values::Blob;
use server_core::{ACCEPTS_REMOTE_CONFIG, Record};

/// The agent applied the configuration (OpAMP specification, "RemoteConfigStatus.status").
pub const APPLIED: i32 = 1;

/// The agent failed to apply the configuration.
pub const FAILED: i32 = 3;

/// What became of the offer at an agent.
#[derive(Clone, Copy, Debug, PartialEq, Eq)]
pub(crate) enum Verdict {
    /// Nothing is known yet.
    Open,
    /// The agent applied it and is fine.
    Applied,
    /// The agent failed, or applied it and isn't fine.
    Failed,
}

// Whether the status has this number and names the hash.
fn is_status(status: i32, hash: &Blob, reported: &RemoteConfigStatus) -> bool
    ensures status { result ≡ is_status status hash.now (Some reported.now) }
{
    reported.last_remote_config_hash.as_slice() == hash.as_slice() && reported.status == status
}

/// What became of the offer of the configuration of this hash at an agent of which this is kept.
pub(crate) fn verdict_of<J: Judge>(judge: &J, hash: &Blob, kept: Option<&Record>) -> Verdict
    ensures applied { is_applied result ≡ passes (has_applied (J.finds_fine judge.now) hash.now) (option_copied kept.entry) }
    ensures failed { is_failed result ≡ passes (has_failed (J.finds_fine judge.now) hash.now) (option_copied kept.entry) }
{
    let Some(agent) = kept else {
        return Verdict::Open;
    };
    let Some(told) = &agent.state.remote else {
        return Verdict::Open;
    };
    if is_status(FAILED, hash, told) {
        return Verdict::Failed;
    }
    if !is_status(APPLIED, hash, told) {
        return Verdict::Open;
    }
    if judge.fine(agent) {
        Verdict::Applied
    } else {
        Verdict::Failed
    }
}

/// Whether the agent is there, takes configurations and tells what became of them. Takes no memory.
pub(crate) fn is_eligible(agent: &Record) -> bool
    ensures eligible { result ≡ is_eligible agent.now }
{
    !agent.left
        && agent.state.capabilities & ACCEPTS_REMOTE_CONFIG != 0
        && agent.state.capabilities & REPORTS_REMOTE_CONFIG != 0
}
