//! The calls on a wire, with room for the end of each connection that is open.

ghost use Rattle.std.specs.Prelude.{◌≡◌, ◌++◌, ◌∷◌, [], ℕ, OnOk, OnErr, if◌then◌else◌, true};
ghost use Rattle.edge_devices.specs.declared.wires.WireCall.TheVariants.{Gave};
ghost use Rattle.edge_devices.specs.declared.wires.WireEvent.TheVariants as event;
ghost use Rattle.edge_devices.specs.Wires.{is_open};
ghost use Rattle.edge_devices.specs.WireLogs.{LeavesOpen, EndsOne, others};

use crate::spare::put_last;
use crate::wires::{Kind, WireCall, WireEvent};
use plain_values::NoMemory;
use std::alloc::Global;
use std::marker::Model;

// The others stay.
fn leave(open_ones: &mut Vec<u64>, conn: u64)
    ensures { open_ones.new.items ≡ others conn open_ones.old.items }
{
    open_ones.retain(|c| *c != conn);
}

// The calls so far. Contracts see the list of them.
#[derive(Drop)]
pub(crate) struct CallLog {
    calls: Vec<WireCall>,
    open_ones: Vec<u64>,
}

impl Model for CallLog {
    ghost use Rattle.std.specs.Prelude.{List, ◌≤◌, ◌+◌, vec_len, vec_capacity};
    ghost use Rattle.edge_devices.specs.declared.wires.WireCall.{WireCall as Call};
    ghost use Rattle.edge_devices.specs.WireLogs.{AreTheOpen};

    ghost Value = { List Call };

    ghost view = { λ l. l.calls.items };

    ghost invariant = { λ l. (vec_len l.calls + vec_len l.open_ones ≤ vec_capacity l.calls) × AreTheOpen l.calls.items l.open_ones.items };
}

impl CallLog {
    // No call yet. Takes no memory.
    pub(crate) fn new(alloc: Global) -> CallLog
        ensures { result ≡ [] }
    {
        CallLog {
            calls: Vec::new(alloc),
            open_ones: Vec::new(alloc),
        }
    }

    // The calls. Takes no memory.
    pub(crate) fn as_slice(&self) -> &[WireCall]
        ensures { result.now ≡ self.now }
    {
        self.calls.as_slice()
    }

    // Notes a call that neither opens nor ends a connection. Want of memory changes nothing.
    pub(crate) fn note(&mut self, call: WireCall) -> Result<(), NoMemory>
        requires leaves { LeavesOpen call }
        ensures ok { OnOk result (self.new ≡ self.old ++ call ∷ []) }
        ensures err { OnErr result (self.new ≡ self.old) }
    {
        self.calls
            .try_reserve(self.open_ones.len().saturating_add(1))?;
        put_last(&mut self.calls, call);
        Ok(())
    }

    // Notes that a connection was opened, and takes the room for its end. Want of memory changes nothing.
    pub(crate) fn note_opened(&mut self, at: u64, conn: u64, kind: Kind) -> Result<(), NoMemory>
        ensures ok { OnOk result (self.new ≡ self.old ++ Gave at (event.Opened conn kind) ∷ []) }
        ensures err { OnErr result (self.new ≡ self.old) }
    {
        self.calls
            .try_reserve(self.open_ones.len().saturating_add(2))?;
        self.open_ones.push(conn)?;
        put_last(
            &mut self.calls,
            WireCall::Gave {
                at,
                event: WireEvent::Opened { conn, kind },
            },
        );
        Ok(())
    }

    // Notes that the other side closed a connection. Want of memory changes nothing.
    pub(crate) fn note_closed(&mut self, at: u64, conn: u64) -> Result<(), NoMemory>
        ensures ok { OnOk result (self.new ≡ self.old ++ Gave at (event.Closed conn) ∷ []) }
        ensures err { OnErr result (self.new ≡ self.old) }
    {
        self.calls
            .try_reserve(self.open_ones.len().saturating_add(1))?;
        leave(&mut self.open_ones, conn);
        put_last(
            &mut self.calls,
            WireCall::Gave {
                at,
                event: WireEvent::Closed { conn },
            },
        );
        Ok(())
    }

    // Notes the end of a connection that is open, in the room that was taken with its opening. Takes no memory.
    pub(crate) fn end(&mut self, conn: u64, call: WireCall)
        requires ends { EndsOne call conn }
        ensures { self.new ≡ self.old ++ (if is_open self.old conn then call ∷ [] else []) }
    {
        if !self.open_ones.contains(&conn) {
            return;
        }
        leave(&mut self.open_ones, conn);
        put_last(&mut self.calls, call);
    }
}
