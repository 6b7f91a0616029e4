//! A custom message, handed to its handler.

ghost use Rattle.std.specs.Prelude.{◌≡◌, IfErr};
ghost use Rattle.agent_rules.specs.Half.{kept_part};
ghost use Rattle.message_handlers.specs.Asking.{MayAnswer};
ghost use Rattle.agent_rounds.specs.Moments.{with_agent};
ghost use Rattle.agent_rounds.specs.Replies.{Handles};
ghost use Rattle.agent_rounds.specs.Stages.{Stage};

use crate::ends::AgentEnd;
use agent_state::Agent;
use message_handlers::{Handler, Handlers};
use message_values::CustomMessage;
use plain_values::NoMemory;
use std::alloc::Global;

/// Hands a custom message to its handler, if there are both; an answer rides on the next report.
pub(crate) fn handle(
    alloc: Global,
    agent: &mut Agent,
    handlers: &Handlers,
    message: &Option<CustomMessage>,
) -> Result<(), AgentEnd>
    ensures does { (s : Stage) → Handles (MayAnswer answers handlers.now) message.now (with_agent agent.old s) (with_agent agent.new s) result }
    ensures store { agent.new.store ≡ agent.old.store }
    ensures part { kept_part agent.new.half ≡ kept_part agent.old.half }
    ensures awaits { agent.new.half.awaits ≡ agent.old.half.awaits }
    ensures trial { agent.new.half.trial ≡ agent.old.half.trial }
    ensures end { IfErr result (λ end. end ≡ AgentEnd.NoMemory) }
{
    let Some(message) = message else {
        return Ok(());
    };
    match handlers.handle(alloc, message) {
        Ok(Some(answer)) => {
            agent.say(answer);
            Ok(())
        }
        Ok(None) => Ok(()),
        Err(NoMemory) => Err(AgentEnd::NoMemory),
    }
}
