//! What an operator orders.

ghost use Rattle.std.specs.Prelude.{◌≡◌};
ghost use Rattle.server_lines.specs.Orders.{agent_of, is_sent, is_stop};

use plain_values::{AgentConfigMap, Text, Uid};
use server_core::Offer;
use server_waves::Finder;

/// What an operator orders by one line. Its kind is asked here alone: a question, an action for one agent, what is done with a
/// rollout, that all agents that have left are forgotten, or the end of the run.
#[derive(Drop)]
pub enum Order {
    /// Something is to be told, and nothing changes.
    Ask(Question),
    /// Something is done for an agent.
    Act {
        /// The agent.
        uid: Uid,
        /// What is done.
        action: Action,
    },
    /// A rollout is begun, halted, resumed or finished.
    Steer {
        /// The rollout's name: 1 to 64 letters, digits, `-` and `_`.
        id: Text,
        /// What is done with it.
        steering: Steering,
    },
    /// Each agent that has left is to be forgotten, and what waits for it.
    ForgetLeft,
    /// The server's run is to end.
    Stop,
}

/// What an operator asks.
#[derive(Drop)]
pub enum Question {
    /// All agents are to be told.
    List,
    /// The state that an agent reported is to be told.
    Show { uid: Uid },
    /// What waits for an agent is to be told.
    Waits { uid: Uid },
    /// All rollouts are to be told.
    Rollouts,
    /// The agents that joined a rollout are to be told.
    Members { id: Text },
    /// The seconds since the last reports of agents, and how these came, are to be told.
    Ages,
    /// How many agents, connections, reports, orders and rollouts there are is to be told.
    Count,
}

/// What is done for an agent.
#[derive(Drop)]
pub enum Action {
    /// Something is offered to it.
    Offer(Offer),
    /// It is to restart.
    Restart,
    /// Nothing is to wait for it any more.
    Withdraw,
    /// It is to be forgotten, and what waits for it.
    Forget,
}

/// What is done with a rollout.
#[derive(Drop)]
pub enum Steering {
    /// It begins.
    Begin {
        /// How many agents at a time have its offer without having applied it, at most.
        width: u64,
        /// How many of those may fail before it is halted; below the width.
        allowed: u64,
        /// Which agents join; all where there is none.
        finder: Option<Finder>,
        /// The configuration that is offered.
        files: AgentConfigMap,
    },
    /// It makes no further offers.
    Halt,
    /// It makes offers again, and failures count anew.
    Resume,
    /// It is taken away; what it offered stands.
    Finish,
}

impl Order {
    /// The agent to which something is due by the order: an offer or a restart. Takes no memory.
    pub fn agent(&self) -> Option<Uid>
        ensures agent { result ≡ agent_of self.now }
    {
        match self {
            Order::Act { uid, action } => { if is_sent(action) { Some(*uid) } else { None } }
            Order::Ask(_) | Order::Steer { .. } | Order::ForgetLeft | Order::Stop => None,
        }
    }

    /// Whether the run ends behind the order. Takes no memory.
    pub fn is_stop(&self) -> bool
        ensures stop { result ≡ is_stop self.now }
    {
        match self {
            Order::Stop => true,
            _ => false,
        }
    }
}

// Whether something is due to the agent by the action.
fn is_sent(action: &Action) -> bool
    ensures sent { result ≡ is_sent action.now }
{
    match action {
        Action::Offer(_) | Action::Restart => true,
        Action::Withdraw | Action::Forget => false,
    }
}
