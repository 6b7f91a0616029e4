//! One line of a script, as a value.

ghost use Rattle.std.specs.Prelude.{◌≡◌, ◌<◌, ℕ};

use edge_devices::Mode;
use plain_values::Text;
use std::marker::Model;

/// One of the ten servers, which contracts see as its number, from 0 to 9.
#[derive(Clone, Copy, Debug, PartialEq, Eq)]
pub struct ServerNumber {
    number: u8,
}

impl Model for ServerNumber {
    ghost Value = { ℕ };

    ghost view = { λ s. s.number };

    ghost invariant = { λ s. s.number < 10 };

    ghost inverse = { λ n. record { number = n } };
}

impl ServerNumber {
    /// The server of this number. Takes no memory.
    pub fn of(number: u8) -> ServerNumber
        requires { number < 10 }
        ensures value { result ≡ number }
    {
        ServerNumber { number }
    }

    /// Its number, below ten. Takes no memory.
    pub fn number(self) -> u8
        ensures value { result ≡ self }
        ensures below { result < 10 }
    {
        self.number
    }
}

/// What one line of a script says.
#[derive(Debug, Drop)]
pub enum Line {
    /// `caps HEX`: the agent's capabilities are these bits (OpAMP specification, "AgentToServer.capabilities").
    Caps {
        bits: u64,
    },
    /// `attr KEY TEXT`: the agent's identifying attribute of this key is this text.
    Attr {
        key: Text,
        text: Text,
    },
    /// `health ok`: the agent is healthy.
    HealthOk,
    /// `health bad TEXT`: the agent is not healthy, and this is its last error.
    HealthBad {
        text: Text,
    },
    /// `effective NAME TEXT`: the file of this name in the agent's effective configuration has this text.
    Effective {
        name: Text,
        text: Text,
    },
    /// `custom NAME`: the agent has one custom capability more.
    Custom {
        name: Text,
    },
    /// `send`: the agent reports.
    Send,
    /// `deliver K`: report K, counted from 1, reaches its server, for the first time or again.
    Deliver {
        report: u64,
    },
    /// `reply`: the reply to the awaited report reaches the agent.
    Reply,
    /// `giveup`: the agent gives up waiting for a reply.
    GiveUp,
    /// `restart`: the agent starts again from its disk.
    Restart,
    /// `server-restart S`: this server forgets all agents.
    ServerRestart {
        server: ServerNumber,
    },
    /// `offer-config S NAME TEXT`: this server offers the agent one configuration file of this name and text.
    OfferConfig {
        server: ServerNumber,
        name: Text,
        text: Text,
    },
    /// `offer-connection S URL`: this server offers the agent this endpoint, which is that of one of the ten servers.
    OfferConnection {
        server: ServerNumber,
        url: Text,
    },
    /// `component NAME`: the agent has this component, without details of its own.
    Component {
        name: Text,
    },
    /// `stop J MODE`: of the next `send`, `reply` or `restart` the device call of this number, counted from 1, is stopped, and a crash leaves this of the bytes
    /// that were not synced.
    Stop {
        call: u64,
        mode: Mode,
    },
    /// `record S`: what this server holds of the agent is asked for.
    Record {
        server: ServerNumber,
    },
    /// `push S`: what this server would push to the agent waits for it there.
    Push {
        server: ServerNumber,
    },
    /// `take-push`: the oldest push that waits at the server of the agent's target reaches the agent in place of the awaited reply.
    TakePush,
    /// `active`: the agent's settings and files in use are asked for.
    Active,
}
