//! What the supervisor holds.

ghost use Rattle.std.specs.Prelude.{◌≡◌, ℕ};
ghost use Rattle.agent_rounds.specs.Moments.{held_view, nothing_held};

use edge_devices::Idle;
use message_values::AgentToServer;
use plain_values::{Headers, Text, Uid};

/// Whether the area of configuration files is to be settled.
#[derive(Clone, Copy, Debug, PartialEq, Eq)]
pub enum Settling {
    /// It wasn't settled yet.
    First,
    /// It was left as no configuration has it.
    Again,
    /// It is settled.
    Settled,
}

/// A link that can be asked, with the agent's identifier and the settings' endpoint and headers with which it was dialled.
#[derive(Drop)]
pub struct Dialled<L> {
    pub(crate) link: Idle<L>,
    pub(crate) uid: Uid,
    pub(crate) endpoint: Text,
    pub(crate) headers: Headers,
}

/// What a supervisor holds from one round to the next: a link or none, whether the area of configuration files is to be settled, the status file that was
/// read last, or none, and within how many seconds the collector has to apply a configuration that is tried, or none where its files prove it. Contracts see
/// it by `held_view`, which takes how the dialer numbers its links.
pub struct Held<L> {
    pub(crate) link: Option<Dialled<L>>,
    pub(crate) settling: Settling,
    pub(crate) status: Option<AgentToServer>,
    pub(crate) prove: Option<u64>,
}

// By hand, so that it is a call where a value is dropped, and not laid out there.
impl<L: Drop> Drop for Held<L> {
    fn drop(self) {
        let Held {
            link,
            settling: _,
            status,
            prove: _,
        } = self;
        drop(link);
        drop(status);
    }
}

impl<L: Drop> Held<L> {
    /// Nothing is held: there is no link, the area wasn't settled yet, and no status file was read. The collector has so many seconds to apply a
    /// configuration that is tried; or none are told, and its files prove it. Takes no memory.
    pub fn new(prove: Option<u64>) -> Held<L>
        ensures nothing { (number : L → ℕ) → held_view number result ≡ nothing_held prove }
    {
        Held {
            link: None,
            settling: Settling::First,
            status: None,
            prove,
        }
    }
}
