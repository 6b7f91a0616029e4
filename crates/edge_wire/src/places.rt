//! The places of the connections, and which of them are to have a step.
//!
//! A connection's number is 131,072 times the count of connections so far, and its place. So no number is used again, and
//! what the system tells late of a number that is over meets nobody. Memory is taken as places are needed, and a free
//! place is used before a new one.

ghost use Rattle.std.specs.Prelude.{◌≡◌, ◌++◌, ◌∷◌, [], length, ◌+◌, ◌-◌, ◌^◌, ◌≢◌, ℕ, min, IsTrue, true, false, Some, None, IfSome, IfNone, OnOk, slice_get, vec_capacity, vec_len};
ghost use Rattle.edge_wire.specs.Places.{ChangesOnly, Ends, Grows, IsFreed, is_served, number_of, place_of, serves};
ghost use Rattle.edge_wire.specs.Steps.{IsOf};

use crate::PLACES_LIMIT;
use crate::connection::{Connection, Step};
use crate::counts::raised;
use crate::silence::second_from;
use crate::timers::Timers;
use edge_devices::Kind;
use std::alloc::{AllocError, Global};
use std::collections::VecDeque;

/// Numbers below it are the listeners'; a number's rest by it is its place.
const STRIDE: u64 = 131_072;

/// The place that a number names.
fn place_of(conn: u64) -> usize
    ensures { result ≡ place_of conn }
{
    (conn % STRIDE) as usize
}

/// The number of a connection at the place.
fn number_of(opened: u64, place: usize) -> u64
    ensures { result ≡ number_of opened place }
{
    opened.saturating_mul(STRIDE).saturating_add(place as u64)
}

// The connections at their places.
#[derive(Drop)]
pub(crate) struct Places {
    slots: Vec<Option<Connection>>,
    free: Vec<usize>,
    // The places whose connections are to have a step, in turn.
    queue: VecDeque<usize>,
    // When the places are looked at because of the time.
    timers: Timers,
    // How many connections there were so far.
    opened: u64,
    // How many places there may be.
    limit: usize,
}

impl Places {
    // No place, of at most so many. Takes no memory.
    pub(crate) fn new(alloc: Global, limit: usize) -> Places {
        Places {
            slots: Vec::new(alloc),
            free: Vec::new(alloc),
            queue: VecDeque::new(alloc),
            timers: Timers::new(alloc),
            opened: 0,
            limit: limit.min(PLACES_LIMIT),
        }
    }

    // Makes what places are looked at by, from this time on.
    pub(crate) fn make(&mut self, now: u64) -> Result<(), AllocError> {
        self.timers.make()?;
        self.sweep(now);
        Ok(())
    }

    // Whether a place is free, or there may be one more.
    pub(crate) fn has_room(&self) -> bool {
        !self.free.is_empty() || self.slots.len() < self.limit
    }

    // Whether a connection has a place.
    pub(crate) fn is_used(&self) -> bool {
        self.free.len() < self.slots.len()
    }

    // Whether a connection is to have a step.
    pub(crate) fn has_work(&self) -> bool {
        !self.queue.is_empty()
    }

    // A new place behind the others, where there may be one more, and there is memory for it and for its turns.
    fn grow(&mut self) -> Option<usize>
        ensures grown { IfSome result (λ _. self.new.slots.items ≡ self.old.slots.items ++ None ∷ []) }
        ensures place { IfSome result (λ place. place ≡ length self.old.slots.items) }
        ensures kept { IfNone result (self.new.slots.items ≡ self.old.slots.items) }
        ensures opened { self.new.opened ≡ self.old.opened }
    {
        let place = self.slots.len();
        if place >= self.limit {
            return None;
        }
        self.free.try_reserve(place + 1).ok()?;
        self.queue.try_reserve(place + 1).ok()?;
        self.timers.grow().ok()?;
        self.slots.push(None).ok()?;
        Some(place)
    }

    // A free place, or a new one.
    fn free_place(&mut self) -> Option<usize>
        ensures slots { Grows self.old.slots.items self.new.slots.items }
        ensures opened { self.new.opened ≡ self.old.opened }
    {
        match self.free.pop() {
            Some(place) => Some(place),
            None => self.grow(),
        }
    }

    // Takes a free place, or a new one, with the number of the connection that will stand there.
    pub(crate) fn reserve(&mut self) -> Option<(usize, u64)>
        ensures free { IfSome result (λ taken. slice_get self.new.slots.items taken.0 ≡ Some None) }
        ensures slots { Grows self.old.slots.items self.new.slots.items }
        ensures counted { IfSome result (λ _. self.new.opened ≡ min (self.old.opened + 1) (2 ^ 64 - 1)) }
        ensures number { IfSome result (λ taken. taken.1 ≡ number_of self.new.opened taken.0) }
    {
        let place = self.free_place()?;
        match self.slots.get(place) {
            Some(None) => {}
            _ => return None,
        }
        self.opened = raised(self.opened);
        Some((place, number_of(self.opened, place)))
    }

    // A connection comes to a free place.
    pub(crate) fn settle(&mut self, place: usize, connection: Connection)
        requires free { slice_get self.old.slots.items place ≡ Some None }
        ensures here { slice_get self.new.slots.items place ≡ Some (Some connection) }
        ensures only { ChangesOnly self.old.slots.items self.new.slots.items place }
    {
        arm(&mut self.timers, &connection, place);
        if let Some(slot) = self.slots.get_mut(place) {
            *slot = Some(connection);
        }
    }

    // A place that was taken is free again.
    pub(crate) fn give_back(&mut self, place: usize)
        ensures slots { self.new.slots ≡ self.old.slots }
        ensures freed { IsFreed self.old.free self.new.free place }
    {
        let _ = self.free.push(place);
    }

    // The connection at the place is dropped, and its socket closed.
    pub(crate) fn forget(&mut self, place: usize)
        ensures gone { (conn : ℕ) → place ≡ place_of conn → is_served self.new.slots.items conn ≡ false }
        ensures only { ChangesOnly self.old.slots.items self.new.slots.items place }
        ensures freed { (held : Connection) → slice_get self.old.slots.items place ≡ Some (Some held) → IsFreed self.old.free self.new.free place }
        ensures empty { (held : Connection) → slice_get self.old.slots.items place ≡ Some (Some held) → slice_get self.new.slots.items place ≡ Some None }
    {
        if let Some(slot) = self.slots.get_mut(place) {
            let held = slot.take();
            if held.is_some() {
                let _ = self.free.push(place);
            }
        }
    }

    // The place of an open connection.
    fn served_place(&self, conn: u64) -> Option<usize>
        ensures place { IfSome result (λ place. place ≡ place_of conn) }
        ensures some { IfSome result (λ _. is_served self.now.slots.items conn ≡ true) }
        ensures none { IfNone result (is_served self.now.slots.items conn ≡ false) }
    {
        let place = place_of(conn);
        match self.slots.get(place) {
            Some(Some(connection)) if connection.number == conn && connection.is_known() => {
                Some(place)
            }
            _ => None,
        }
    }

    // Sends the bytes on a connection. False where it is lost: then it isn't open any more.
    pub(crate) fn send(&mut self, conn: u64, bytes: &[u8]) -> bool
        ensures sent { IsTrue result → is_served self.old.slots.items conn ≡ true }
        ensures lost { result ≡ false → is_served self.new.slots.items conn ≡ false }
        ensures only { ChangesOnly self.old.slots.items self.new.slots.items (place_of conn) }
    {
        let Some(place) = self.served_place(conn) else {
            return false;
        };
        let sent = match self.slots.get_mut(place) {
            Some(Some(connection)) => connection.send(bytes),
            _ => false,
        };
        if !sent {
            self.forget(place);
        }
        sent
    }

    // Begins to end a connection, if it is open.
    pub(crate) fn close(&mut self, conn: u64, now: u64)
        ensures over { is_served self.new.slots.items conn ≡ false }
        ensures only { ChangesOnly self.old.slots.items self.new.slots.items (place_of conn) }
        ensures ends { is_served self.old.slots.items conn ≡ true → Ends now (slice_get self.old.slots.items (place_of conn)) (slice_get self.new.slots.items (place_of conn)) }
        ensures stays { is_served self.old.slots.items conn ≡ false → self.new.slots ≡ self.old.slots }
    {
        if let Some(place) = self.served_place(conn) {
            self.end(place, now);
        }
    }

    // Begins to end the connection at the place.
    pub(crate) fn end(&mut self, place: usize, now: u64)
        ensures over { (conn : ℕ) → place ≡ place_of conn → is_served self.new.slots.items conn ≡ false }
        ensures only { ChangesOnly self.old.slots.items self.new.slots.items place }
        ensures ends { Ends now (slice_get self.old.slots.items place) (slice_get self.new.slots.items place) }
    {
        if let Some(slot) = self.slots.get_mut(place) {
            end_slot(slot, &mut self.queue, &mut self.timers, place, now);
        }
    }

    // The connection at the place is to have a step.
    pub(crate) fn wake(&mut self, place: usize) {
        if let Some(Some(connection)) = self.slots.get_mut(place) {
            enqueue(&mut self.queue, connection, place);
        }
    }

    // The socket of the connection with the number changed.
    pub(crate) fn note_ready(&mut self, number: u64, readable: bool) {
        let place = place_of(number);
        if let Some(Some(connection)) = self.slots.get_mut(place) {
            if connection.number == number {
                if readable {
                    connection.set_readable();
                }
                enqueue(&mut self.queue, connection, place);
            }
        }
    }

    // Each connection to which something is due because of the time is to have a step. What it costs is a look at
    // those whose second came.
    pub(crate) fn sweep(&mut self, now: u64) {
        for _ in 0..u64::MAX {
            let Some(place) = self.timers.take(now / 1_000) else {
                return;
            };
            self.look_at(place, now);
        }
    }

    // The second of the place came: where nothing is due it is looked at when something is.
    fn look_at(&mut self, place: usize, now: u64) {
        if let Some(Some(connection)) = self.slots.get_mut(place) {
            if connection.is_due(now) {
                enqueue(&mut self.queue, connection, place);
                self.timers.set(place, now / 1_000 + 1);
            } else {
                arm(&mut self.timers, connection, place);
            }
        }
    }

    // The next place whose connection is to have a step.
    pub(crate) fn next_place(&mut self) -> Option<usize> {
        self.queue.pop_front()
    }

    // One step of the connection at the place, with its number and its kind.
    pub(crate) fn step(
        &mut self,
        place: usize,
        alloc: Global,
        buffer: &mut [u8],
        now: u64,
    ) -> Option<(u64, Kind, Step)>
        ensures names { IfSome result (λ made. IsOf made.0 made.2) }
        ensures only { ChangesOnly self.old.slots.items self.new.slots.items place }
    {
        match self.slots.get_mut(place) {
            Some(slot) => step_slot(slot, &mut self.timers, place, alloc, buffer, now),
            None => None,
        }
    }
}

// One step of the connection of a place, which is looked at when something may be due to it behind that.
fn step_slot(
    slot: &mut Option<Connection>,
    timers: &mut Timers,
    place: usize,
    alloc: Global,
    buffer: &mut [u8],
    now: u64,
) -> Option<(u64, Kind, Step)>
    ensures names { IfSome result (λ made. IsOf made.0 made.2) }
{
    let Some(connection) = slot else {
        return None;
    };
    connection.queued = false;
    let step = connection.step(alloc, buffer, now);
    arm(timers, connection, place);
    Some((connection.number, connection.kind(), step))
}

// Begins to end the connection of a place, which is to have a step.
fn end_slot(
    slot: &mut Option<Connection>,
    queue: &mut VecDeque<usize>,
    timers: &mut Timers,
    place: usize,
    now: u64,
)
    ensures over { (conn : ℕ) → serves conn (Some slot.new) ≡ false }
    ensures ends { Ends now (Some slot.old) (Some slot.new) }
{
    if let Some(connection) = slot {
        connection.end(now);
        arm(timers, connection, place);
        enqueue(queue, connection, place);
    }
}

// The connection at the place is looked at in the second from which on something may be due to it.
fn arm(timers: &mut Timers, connection: &Connection, place: usize) {
    if let Some(due) = connection.due_from() {
        timers.set(place, second_from(due));
    }
}

// Puts the connection at the place into the queue, where it doesn't stand there.
fn enqueue(queue: &mut VecDeque<usize>, connection: &mut Connection, place: usize)
    ensures { connection.new ≡ record connection.old { queued = connection.new.queued } }
{
    if !connection.queued && queue.push_back(place).is_ok() {
        connection.queued = true;
    }
}
