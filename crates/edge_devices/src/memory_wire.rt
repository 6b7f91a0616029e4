//! A wire in memory.

ghost use Rattle.std.specs.Prelude.{◌≡◌, ◌≢◌, ◌≤◌, ◌++◌, ◌∷◌, [], Err, None, Some, false, IsErr, IfOk, IfSome, IfNone, OnOk, OnErr, drop, if◌then◌else◌};
ghost use Rattle.edge_devices.specs.declared.wires.WireCall.TheVariants.{Closed, Gave, Listened, LostOn, Sent};
ghost use Rattle.edge_devices.specs.Faults.{HasRisen};
ghost use Rattle.edge_devices.specs.MemoryWires.{HasNoEvent, events_left, first_event, wire_calls, wire_schedule};
ghost use Rattle.edge_devices.specs.Schedules.{HasFailed, IsListed, after_call, opening};
ghost use Rattle.edge_devices.specs.Wires.{Tells, TellsEnd, is_wire_fault};

use crate::call_log::CallLog;
use crate::schedule::Schedule;
use crate::wires::{Given, Kind, Lost, Wire, WireCall, WireEvent, WireFail, WireFault};
use plain_values::{Blob, NoMemory, Plain, Text};
use std::alloc::Global;
use std::marker::Model;

fn copy_event(alloc: Global, event: &WireEvent) -> Result<WireEvent, NoMemory>
    ensures copy { IfOk result (λ copy. copy ≡ event.now) }
{
    match event {
        WireEvent::Opened { conn, kind } => Ok(WireEvent::Opened {
            conn: *conn,
            kind: *kind,
        }),
        WireEvent::Piece { conn, bytes } => Ok(WireEvent::Piece {
            conn: *conn,
            bytes: bytes.copy(alloc)?,
        }),
        WireEvent::Closed { conn } => Ok(WireEvent::Closed { conn: *conn }),
    }
}

// Notes that the event was given at this second.
fn note_given(log: &mut CallLog, at: u64, event: WireEvent) -> Result<(), NoMemory>
    ensures noted { OnOk result (log.new ≡ log.old ++ Gave at event ∷ []) }
    ensures kept { OnErr result (log.new ≡ log.old) }
{
    match event {
        WireEvent::Opened { conn, kind } => log.note_opened(at, conn, kind),
        WireEvent::Closed { conn } => log.note_closed(at, conn),
        WireEvent::Piece { conn, bytes } => log.note(WireCall::Gave {
            at,
            event: WireEvent::Piece { conn, bytes },
        }),
    }
}

// Notes that the event is given. Want of memory changes nothing.
fn tell_given(alloc: Global, log: &mut CallLog, given: &Given) -> Result<(), NoMemory>
    ensures told { OnOk result (log.new ≡ log.old ++ Gave given.now.at given.now.event ∷ []) }
    ensures kept { OnErr result (log.new ≡ log.old) }
{
    let event = copy_event(alloc, &given.event)?;
    note_given(log, given.at, event)
}

// Notes that an address is listened to.
fn note_listened(
    log: &mut CallLog,
    alloc: Global,
    kind: Kind,
    address: &Text,
) -> Result<(), NoMemory>
    ensures noted { OnOk result (log.new ≡ log.old ++ Listened kind address.now ∷ []) }
    ensures kept { OnErr result (log.new ≡ log.old) }
{
    let address = address.copy(alloc)?;
    log.note(WireCall::Listened { kind, address })
}

// Notes that bytes were sent.
fn note_sent(log: &mut CallLog, alloc: Global, conn: u64, bytes: &[u8]) -> Result<(), NoMemory>
    ensures noted { OnOk result (log.new ≡ log.old ++ Sent conn bytes.now ∷ []) }
    ensures kept { OnErr result (log.new ≡ log.old) }
{
    let bytes = Blob::of(Vec::from_slice(alloc, bytes)?);
    log.note(WireCall::Sent { conn, bytes })
}

// Events that are given one after the other, with their seconds. Contracts see those that are left.
#[derive(Drop)]
struct Events {
    items: Vec<Given>,
    at: usize,
}

impl Model for Events {
    ghost use Rattle.std.specs.Prelude.{◌≤◌, List, drop, vec_len};
    ghost use Rattle.edge_devices.specs.declared.wires.Given.{Given as Event};

    ghost Value = { List Event };

    ghost view = { λ e. drop e.at e.items.items };

    ghost invariant = { λ e. e.at ≤ vec_len e.items };
}

impl Events {
    fn new(items: Vec<Given>) -> Events
        ensures made { result ≡ items.items }
    {
        Events { items, at: 0 }
    }

    // A copy of the first that is left.
    fn first(&self, alloc: Global) -> Result<Option<Given>, NoMemory>
        ensures first { IfOk result (λ event. event ≡ first_event self.now) }
    {
        if self.at >= self.items.len() {
            return Ok(None);
        }
        let given = &self.items[self.at];
        Ok(Some(Given {
            at: given.at,
            event: copy_event(alloc, &given.event)?,
        }))
    }

    // The first is given away.
    fn pass(&mut self)
        requires { self.old ≢ [] }
        ensures rest { self.new ≡ drop 1 self.old }
    {
        self.at += 1;
    }
}

// The next event, where there is one and the call isn't to fail, and notes that it is given. Want of memory changes
// nothing.
fn event_told(
    alloc: Global,
    log: &mut CallLog,
    events: &Events,
    fails: bool,
) -> Result<Option<Given>, NoMemory>
    ensures event { IfOk result (λ event. event ≡ (if fails then None else first_event events.now)) }
    ensures told { IfOk result (λ event. IfSome event (λ given. log.new ≡ log.old ++ Gave given.at given.event ∷ [])) }
    ensures untold { IfOk result (λ event. IfNone event (log.new ≡ log.old)) }
    ensures kept { OnErr result (log.new ≡ log.old) }
{
    if fails {
        return Ok(None);
    }
    let event = events.first(alloc)?;
    if let Some(given) = &event {
        tell_given(alloc, log, given)?;
    }
    Ok(event)
}

/// A wire in memory, which gives the events of its list in their order and at their seconds, and tells its calls. `listen` and `next` fail,
/// and a send is lost, at the calls whose numbers `failing` lists; `next` also fails where its list holds nothing more, and
/// `listen` and `send` where a growth is refused; and nowhere else. Calls are numbered from 0, closes among them.
pub struct MemoryWire {
    log: CallLog,
    events: Events,
    schedule: Schedule,
    alloc: Global,
}

// By hand, so that it is a call where a value is dropped, and not laid out there.
impl Drop for MemoryWire {
    fn drop(self) {
        let MemoryWire {
            log: _,
            events: _,
            schedule: _,
            alloc: _,
        } = self;
    }
}

impl MemoryWire {
    /// A wire of these events, with no call yet. Takes no memory.
    pub fn new(alloc: Global, events: Vec<Given>, failing: Vec<u64>) -> MemoryWire
        ensures events { events_left result ≡ events.items }
        ensures no_calls { wire_calls result ≡ [] }
        ensures made { wire_schedule result ≡ opening failing.items }
    {
        MemoryWire {
            log: CallLog::new(alloc),
            events: Events::new(events),
            schedule: Schedule::new(failing),
            alloc,
        }
    }

    /// The calls that were made, in their order, each with its result. Takes no memory.
    pub fn calls(&self) -> &[WireCall]
        ensures calls { result.now ≡ wire_calls self.now }
    {
        self.log.as_slice()
    }
}

impl Wire for MemoryWire {
    ghost use Rattle.std.specs.Prelude.{Some};
    ghost use Rattle.edge_devices.specs.MemoryWires.{wire_calls, wire_schedule};

    ghost calls = { λ wire. Some (wire_calls wire) };

    ghost faults = { λ wire. (wire_schedule wire).faults };

    fn listen(&mut self, kind: Kind, address: &Text) -> Result<(), WireFault>
        ensures told { OnOk result (Tells (Some (wire_calls self.old)) (Some (wire_calls self.new)) (Listened kind address.now)) }
        ensures untold { OnErr result (wire_calls self.new ≡ wire_calls self.old) }
        ensures fault { OnErr result (HasRisen (wire_schedule self.old).faults (wire_schedule self.new).faults) }
        ensures count { (wire_schedule self.old).faults ≤ (wire_schedule self.new).faults }

        // It fails where the call is listed, or a growth was refused, and nowhere else.
        ensures listed { IsListed (wire_schedule self.old) → IsErr result }
        ensures failed { OnErr result (HasFailed (IsListed (wire_schedule self.old)) (wire_schedule self.old) (wire_schedule self.new)) }
        ensures counts { OnOk result (wire_schedule self.new ≡ after_call (wire_schedule self.old) false) }
        ensures events { events_left self.new ≡ events_left self.old }
    {
        if self.schedule.begin() {
            self.schedule.fail();
            return Err(WireFault::Failed);
        }
        if note_listened(&mut self.log, self.alloc, kind, address).is_err() {
            self.schedule.refuse();
            return Err(WireFault::Failed);
        }
        Ok(())
    }

    fn next(&mut self, alloc: Global) -> Result<Given, WireFail>
        ensures told { IfOk result (λ given. Tells (Some (wire_calls self.old)) (Some (wire_calls self.new)) (Gave given.at given.event)) }
        ensures untold { OnErr result (wire_calls self.new ≡ wire_calls self.old) }
        ensures fault { result ≡ Err WireFail.Fault → HasRisen (wire_schedule self.old).faults (wire_schedule self.new).faults }
        ensures count { (wire_schedule self.old).faults ≤ (wire_schedule self.new).faults }

        // It fails where the call is listed or no event is left, and nowhere else; and so do the faults rise.
        ensures none { HasNoEvent self.old → IsErr result }
        ensures only { result ≡ Err WireFail.Fault → HasNoEvent self.old }
        ensures counts { wire_schedule self.new ≡ after_call (wire_schedule self.old) (is_wire_fault result) }
        ensures given { IfOk result (λ given. events_left self.old ≡ given ∷ events_left self.new) }
        ensures kept { OnErr result (events_left self.new ≡ events_left self.old) }
    {
        let fails = self.schedule.begin();
        match event_told(alloc, &mut self.log, &self.events, fails)? {
            Some(event) => {
                self.events.pass();
                Ok(event)
            }
            None => {
                self.schedule.fail();
                Err(WireFail::Fault)
            }
        }
    }

    fn send(&mut self, conn: u64, bytes: &[u8]) -> Result<(), Lost>
        ensures told { OnOk result (Tells (Some (wire_calls self.old)) (Some (wire_calls self.new)) (Sent conn bytes.now)) }
        ensures lost { OnErr result (TellsEnd (Some (wire_calls self.old)) (Some (wire_calls self.new)) conn (LostOn conn)) }
        ensures fault { OnErr result (HasRisen (wire_schedule self.old).faults (wire_schedule self.new).faults) }
        ensures count { (wire_schedule self.old).faults ≤ (wire_schedule self.new).faults }

        // It is lost where the call is listed, or a growth was refused, and nowhere else.
        ensures listed { IsListed (wire_schedule self.old) → IsErr result }
        ensures failed { OnErr result (HasFailed (IsListed (wire_schedule self.old)) (wire_schedule self.old) (wire_schedule self.new)) }
        ensures counts { OnOk result (wire_schedule self.new ≡ after_call (wire_schedule self.old) false) }
        ensures events { events_left self.new ≡ events_left self.old }
    {
        if self.schedule.begin() {
            self.schedule.fail();
            self.log.end(conn, WireCall::LostOn { conn });
            return Err(Lost);
        }
        if note_sent(&mut self.log, self.alloc, conn, bytes).is_err() {
            self.schedule.refuse();
            self.log.end(conn, WireCall::LostOn { conn });
            return Err(Lost);
        }
        Ok(())
    }

    fn close(&mut self, conn: u64)
        ensures told { TellsEnd (Some (wire_calls self.old)) (Some (wire_calls self.new)) conn (Closed conn) }
        ensures count { (wire_schedule self.old).faults ≤ (wire_schedule self.new).faults }
        ensures counts { wire_schedule self.new ≡ after_call (wire_schedule self.old) false }
        ensures events { events_left self.new ≡ events_left self.old }
    {
        let _ = self.schedule.begin();
        self.log.end(conn, WireCall::Closed { conn });
    }
}
