//! The wait at the end of a round.

ghost use Rattle.std.specs.Prelude.{◌≡◌, ◌≤◌, IsErrOf, IfErr};
ghost use Rattle.edge_devices.specs.Faults.{HasRisen};
ghost use Rattle.agent_rounds.specs.Moments.{with_clock};
ghost use Rattle.agent_rounds.specs.Replies.{EndsWith};
ghost use Rattle.agent_rounds.specs.Stages.{Stage};

use crate::ends::{AgentEnd, Pause};
use edge_devices::Clock;

/// Ends the round with its wait, if it has one, and says whether a restart was commanded.
pub(crate) fn end_round<C: Clock>(clock: &mut C, pause: Pause) -> Result<bool, AgentEnd>
    ensures does { (s : Stage) → EndsWith pause (with_clock (C.state clock.old) s) (with_clock (C.state clock.new) s) result }
    ensures counts { (C.state clock.old).faults ≤ (C.state clock.new).faults }
    ensures end { IfErr result (λ end. end ≡ AgentEnd.ClockFault) }
    ensures fault { IsErrOf result AgentEnd.ClockFault → HasRisen (C.state clock.old).faults (C.state clock.new).faults }
{
    match pause.nanos {
        None => Ok(pause.restart),
        Some(nanos) => match clock.wait(nanos) {
            Ok(()) => Ok(pause.restart),
            Err(_) => Err(AgentEnd::ClockFault),
        },
    }
}
