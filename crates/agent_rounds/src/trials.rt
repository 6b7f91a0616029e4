//! How a trial of connection settings ends, and how one begins.

ghost use Rattle.std.specs.Prelude.{◌≡◌, true, false, None, OnOk, IfErr, Ok};
ghost use Rattle.agent_rules.specs.Half.{kept_part};
ghost use Rattle.agent_rules.specs.Offers.{trial_calls};
ghost use Rattle.agent_state.specs.View.{FitsDisk};
ghost use Rattle.agent_rounds.specs.Dealing.{CanBeTried};
ghost use Rattle.agent_rounds.specs.Moments.{IsCallEnd, RunsPart, with_agent};
ghost use Rattle.agent_rounds.specs.Replies.{BeginsTrial};
ghost use Rattle.agent_rounds.specs.Stages.{MakesCalls, Stage};

use crate::ends::{AgentEnd, end_of};
use agent_rules::AgentFail;
use agent_state::Agent;
use edge_devices::Disk;
use message_values::Settings;

/// Ends a trial, if there is one: settings that have their proof are kept where there is room for them, and else they are abandoned.
pub(crate) fn end_trial<D: Disk>(
    agent: &mut Agent,
    disk: &mut D,
    proved: bool,
) -> Result<(), AgentEnd>
    requires fits { FitsDisk (D.state disk.old) agent.old.store (kept_part agent.old.half) }
    requires idle { agent.old.half.awaits ≡ false }
    requires proved { agent.old.half.proved ≡ proved }
    ensures does { (s : Stage) → RunsPart (λ t. MakesCalls (trial_calls t.half) t) (D.state disk.old) (D.state disk.new) (with_agent agent.old s) (with_agent agent.new s) result }
    ensures fits { OnOk result (FitsDisk (D.state disk.new) agent.new.store (kept_part agent.new.half)) }
    ensures idle { OnOk result (agent.new.half.awaits ≡ false) }
    ensures settled { OnOk result (agent.new.half.trial ≡ None) }
    ensures end { IfErr result IsCallEnd }
{
    if !agent.trying() {
        return Ok(());
    }
    if !proved {
        agent.abandon_try();
        return Ok(());
    }
    match agent.commit_try(disk) {
        Ok(()) => Ok(()),
        Err(fail) => match fail {
            AgentFail::TooLarge => {
                agent.abandon_try();
                Ok(())
            }
            other => Err(end_of(other)),
        },
    }
}

/// Begins a trial of these settings, if there are any.
pub(crate) fn begin_trial(agent: &mut Agent, next: Option<Settings>)
    requires idle { agent.old.half.awaits ≡ false }
    requires settled { agent.old.half.trial ≡ None }
    requires endpoint { CanBeTried next }
    ensures does { (s : Stage) → BeginsTrial next (with_agent agent.old s) (with_agent agent.new s) (Ok tt) }
    ensures store { agent.new.store ≡ agent.old.store }
    ensures saved { agent.new.half.saved ≡ agent.old.half.saved }
    ensures part { kept_part agent.new.half ≡ kept_part agent.old.half }
    ensures idle { agent.new.half.awaits ≡ false }
{
    if let Some(settings) = next {
        agent.begin_try(settings);
    }
}
