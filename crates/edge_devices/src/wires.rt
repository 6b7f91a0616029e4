//! Connections with agents and operators, each with a number.

ghost use Rattle.std.specs.Prelude.{◌≡◌, ◌≤◌, Err, IfOk, OnErr, OnOk, ℕ, List, Option};
ghost use Rattle.edge_devices.specs.Faults.{HasRisen};
ghost use Rattle.edge_devices.specs.Wires.{Tells, TellsEnd};
ghost use Rattle.edge_devices.specs.declared.wires.WireCall.{WireCall as Call};
ghost use Rattle.edge_devices.specs.declared.wires.WireCall.TheVariants.{Closed, Gave, Listened, LostOn, Sent};

use plain_values::{Blob, NoMemory, Text};
use std::alloc::{AllocError, Global};
use thiserror::Error;

/// What a connection speaks.
#[derive(Clone, Copy, Debug, PartialEq, Eq)]
pub enum Kind {
    /// Requests of HTTP in one stream of bytes (OpAMP specification, "Plain HTTP Transport").
    Http,
    /// Binary messages of WebSocket (OpAMP specification, "WebSocket Transport"). A piece is the payload of one, and so
    /// is what is sent.
    Ws,
    /// Lines of an operator in one stream of bytes.
    Operator,
}

/// What happened on the wire.
#[derive(Drop)]
pub enum WireEvent {
    /// A connection of this kind was opened.
    Opened { conn: u64, kind: Kind },
    /// Bytes came on a connection.
    Piece { conn: u64, bytes: Blob },
    /// The other side closed a connection.
    Closed { conn: u64 },
}

/// An event with the time at which the wire gave it.
#[derive(Drop)]
pub struct Given {
    /// Whole seconds since a beginning that is the wire's own. No promise speaks of real time.
    pub at: u64,
    /// What happened.
    pub event: WireEvent,
}

/// A call on a wire with its result. A call that gave no event, and a listening that failed, leave nothing to tell.
#[derive(Drop)]
pub enum WireCall {
    /// Connections of the kind are taken at the address.
    Listened { kind: Kind, address: Text },
    /// An event was given, at this second.
    Gave { at: u64, event: WireEvent },
    /// Bytes were sent on a connection.
    Sent { conn: u64, bytes: Blob },
    /// A send was lost, and with it its connection.
    LostOn { conn: u64 },
    /// A connection was closed by this side.
    Closed { conn: u64 },
}

/// Why the wire can't take connections at an address.
#[derive(Clone, Copy, Debug, PartialEq, Eq, Error)]
pub enum WireFault {
    /// Something else listens there.
    #[error("in use")]
    InUse,
    /// The address isn't one of this machine.
    #[error("not an address of this machine")]
    NotHere,
    /// The process hasn't the right to it.
    #[error("not permitted")]
    NotPermitted,
    /// Another failure.
    #[error("failed")]
    Failed,
}

/// Why the wire gave no event.
#[derive(Clone, Copy, Debug, PartialEq, Eq, Error)]
pub enum WireFail {
    /// The wire failed.
    #[error("the wire failed")]
    Fault,
    /// There was no memory for the event.
    #[error("there was no memory")]
    NoMemory,
}

/// A send was lost, and its connection counts as closed.
#[derive(Clone, Copy, Debug, PartialEq, Eq, Error)]
#[error("the connection was lost")]
pub struct Lost;

impl From<NoMemory> for WireFail {
    ghost use Rattle.edge_devices.specs.declared.wires.WireFail.TheVariants.{NoMemory as NoMemoryFail};

    ghost from_gives = { λ _ fail. fail ≡ NoMemoryFail };

    fn from(_error: NoMemory) -> WireFail {
        WireFail::NoMemory
    }
}

impl From<AllocError> for WireFail {
    ghost use Rattle.edge_devices.specs.declared.wires.WireFail.TheVariants.{NoMemory as NoMemoryFail};

    ghost from_gives = { λ _ fail. fail ≡ NoMemoryFail };

    fn from(_error: AllocError) -> WireFail {
        WireFail::NoMemory
    }
}

/// Connections, each with a number. A connection is open from its `Opened` to its `Closed`, to a close, or to a send on
/// it that was lost.
pub trait Wire {
    // The calls with their results, in their order, where the wire tells them.
    ghost calls: { Self → Option (List Call) };

    // How many calls answered a fault. It never falls.
    ghost faults: { Self → ℕ };

    /// Takes connections of the kind at the address from now on.
    fn listen(&mut self, kind: Kind, address: &Text) -> Result<(), WireFault>
        ensures told { OnOk result (Tells (calls self.old) (calls self.new) (Listened kind address.now)) }
        ensures untold { OnErr result (calls self.new ≡ calls self.old) }
        ensures fault { OnErr result (HasRisen (faults self.old) (faults self.new)) }
        ensures count { faults self.old ≤ faults self.new };

    /// Waits for the next event.
    fn next(&mut self, alloc: Global) -> Result<Given, WireFail>
        ensures told { IfOk result (λ given. Tells (calls self.old) (calls self.new) (Gave given.at given.event)) }
        ensures untold { OnErr result (calls self.new ≡ calls self.old) }
        ensures fault { result ≡ Err WireFail.Fault → HasRisen (faults self.old) (faults self.new) }
        ensures count { faults self.old ≤ faults self.new };

    /// Sends bytes on a connection, on one of the kind `Ws` as one binary message. After a loss the connection counts
    /// as closed.
    fn send(&mut self, conn: u64, bytes: &[u8]) -> Result<(), Lost>
        ensures told { OnOk result (Tells (calls self.old) (calls self.new) (Sent conn bytes.now)) }
        ensures lost { OnErr result (TellsEnd (calls self.old) (calls self.new) conn (LostOn conn)) }
        ensures fault { OnErr result (HasRisen (faults self.old) (faults self.new)) }
        ensures count { faults self.old ≤ faults self.new };

    /// Closes a connection. One that isn't open stays as it is, and nothing is told.
    fn close(&mut self, conn: u64)
        ensures told { TellsEnd (calls self.old) (calls self.new) conn (Closed conn) }
        ensures count { faults self.old ≤ faults self.new };
}
