//! A report that is given up.

ghost use Rattle.std.specs.Prelude.{◌≡◌, ℕ, true, false, None, Ok};
ghost use Rattle.agent_rules.specs.Events.{leaving_calls};
ghost use Rattle.agent_rules.specs.Half.{kept_part};
ghost use Rattle.agent_rounds.specs.Moments.{held_view, with_agent, with_held};
ghost use Rattle.agent_rounds.specs.Replies.{GivesUpRound};
ghost use Rattle.agent_rounds.specs.Stages.{MakesCalls, Stage};

use crate::ends::Pause;
use crate::held::Held;
use crate::pauses::pause_of;
use agent_state::Agent;

// Abandons a trial, if there is one.
fn leave_trial(agent: &mut Agent)
    requires idle { agent.old.half.awaits ≡ false }
    ensures does { (s : Stage) → MakesCalls (leaving_calls agent.old.half) (with_agent agent.old s) (with_agent agent.new s) (Ok tt) }
    ensures store { agent.new.store ≡ agent.old.store }
    ensures saved { agent.new.half.saved ≡ agent.old.half.saved }
    ensures part { kept_part agent.new.half ≡ kept_part agent.old.half }
    ensures idle { agent.new.half.awaits ≡ false }
{
    if !agent.trying() {
        return;
    }
    agent.abandon_try();
}

/// Gives the awaited report up: the link is dropped, and a trial is abandoned.
pub(crate) fn give_up_round<L: Drop>(agent: &mut Agent, held: &mut Held<L>) -> Pause
    requires awaiting { agent.old.half.awaits ≡ true }
    ensures does { (number : L → ℕ) (s : Stage) → GivesUpRound
        (with_agent agent.old (with_held (held_view number held.old) s))
        (with_agent agent.new (with_held (held_view number held.new) s)) (Ok result) }
    ensures store { agent.new.store ≡ agent.old.store }
    ensures part { kept_part agent.new.half ≡ kept_part agent.old.half }
    ensures idle { agent.new.half.awaits ≡ false }
{
    held.link = None;
    agent.give_up();
    leave_trial(agent);
    Pause {
        restart: false,
        nanos: Some(pause_of(agent.saved().settings.interval, &None)),
    }
}
