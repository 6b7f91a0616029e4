//! The sockets of a wire: which are ready, which connection is taken and which has a step.

ghost use Rattle.std.specs.Prelude.{◌≡◌, ◌/◌, ℕ, IsTrue, true, false, Some, None, IfSome, IfOk, slice_get};
ghost use Rattle.edge_wire.specs.Places.{ChangesOnly, Ends, IsFreed, is_served, place_of};
ghost use Rattle.edge_wire.specs.Steps.{IsOf, TellsOf, told_by};

use crate::connection::{Connection, Step};
use crate::listeners::Listeners;
use crate::places::Places;
use crate::{PIECE_LIMIT, RETRY_MILLIS, SWEEP_MILLIS, TURNS};
use edge_devices::{Given, Kind, WireEvent};
use mio::net::TcpStream;
use mio::{Events, Interest, Poll, Token};
use std::alloc::Global;
use std::io;
use std::io::ErrorKind;
use std::net::Net;
use std::time::{Clock, Duration};

// The most events that one wait gives.
const EVENTS: usize = 1_024;

// What tells which sockets are ready.
#[derive(Drop)]
struct Poller {
    poll: Poll,
    events: Events,
}

// The sockets of a wire, with what they are made by.
#[derive(Drop)]
pub(crate) struct Board<R> {
    runtime: R,
    alloc: Global,
    poller: Option<Poller>,
    listeners: Listeners,
    places: Places,
    // Where a read of a socket puts its bytes.
    buffer: Vec<u8>,
    turns: u32,
    // The time, in milliseconds.
    now: u64,
}

impl<R: Net + Clock + Drop> Board<R> {
    // No socket, and so many places at most. Takes no memory, and touches nothing outside.
    pub(crate) fn new(alloc: Global, runtime: R, places: usize) -> Board<R> {
        Board {
            runtime,
            alloc,
            poller: None,
            listeners: Listeners::new(alloc),
            places: Places::new(alloc, places),
            buffer: Vec::new(alloc),
            turns: 0,
            now: 0,
        }
    }

    // Takes connections of the kind at the address.
    pub(crate) fn listen(&mut self, kind: Kind, address: &str) -> io::Result<()> {
        self.read_clock();
        self.places.make(self.now)?;
        self.buffer.resize(PIECE_LIMIT, 0)?;
        if self.poller.is_none() {
            self.poller = Some(Poller {
                poll: Poll::new(&self.runtime)?,
                events: Events::with_capacity(self.alloc, EVENTS)?,
            });
        }
        match &self.poller {
            Some(poller) => {
                self.listeners
                    .add(&self.runtime, poller.poll.registry(), kind, address)
            }
            None => Err(io::Error::from(ErrorKind::NotConnected)),
        }
    }

    // The next event, with the second of the clock as it was read last. It fails where the wait for sockets fails, or
    // nothing is listened to.
    pub(crate) fn next(&mut self, alloc: Global) -> io::Result<Given>
        ensures second { IfOk result (λ given. given.at ≡ self.new.now / 1000) }
    {
        for _ in 0..u64::MAX {
            if let Some(event) = self.turn(alloc)? {
                return Ok(Given {
                    at: self.now / 1_000,
                    event,
                });
            }
        }
        Err(io::Error::from(ErrorKind::TimedOut))
    }

    // Sends the bytes on a connection. False where it is lost: then it isn't open any more.
    pub(crate) fn send(&mut self, conn: u64, bytes: &[u8]) -> bool
        ensures sent { IsTrue result → is_served self.old.places.slots.items conn ≡ true }
        ensures lost { result ≡ false → is_served self.new.places.slots.items conn ≡ false }
        ensures only { ChangesOnly self.old.places.slots.items self.new.places.slots.items (place_of conn) }
    {
        self.places.send(conn, bytes)
    }

    // Begins to end a connection, if it is open.
    pub(crate) fn close(&mut self, conn: u64)
        ensures over { is_served self.new.places.slots.items conn ≡ false }
        ensures only { ChangesOnly self.old.places.slots.items self.new.places.slots.items (place_of conn) }
        ensures ends { is_served self.old.places.slots.items conn ≡ true → Ends self.old.now (slice_get self.old.places.slots.items (place_of conn)) (slice_get self.new.places.slots.items (place_of conn)) }
    {
        self.places.close(conn, self.now);
    }

    // One turn: one connection is taken, or one connection has a step.
    fn turn(&mut self, alloc: Global) -> io::Result<Option<WireEvent>> {
        self.read_clock();
        self.turns = self.turns.saturating_add(1);
        if self.turns > TURNS || !(self.places.has_work() || self.may_accept()) {
            self.look()?;
        }
        if let Some(event) = self.take_connection() {
            return Ok(Some(event));
        }
        Ok(self.step_connection(alloc))
    }

    // Reads the clock. Where it can't be read the time stands still.
    fn read_clock(&mut self) {
        if let Ok(time) = self.runtime.monotonic() {
            self.now = millis(time);
        }
    }

    // Whether a connection may wait that can be taken now.
    fn may_accept(&self) -> bool {
        self.places.has_room() && self.listeners.may_accept(self.now)
    }

    // How long the sockets may be waited for: not at all where there is something to do.
    fn longest_wait(&self) -> Option<Duration> {
        if self.places.has_work() || self.may_accept() {
            Some(Duration::from_millis(0))
        } else if self.places.has_room() && self.listeners.waits(self.now) {
            Some(Duration::from_millis(RETRY_MILLIS))
        } else if self.places.is_used() {
            Some(Duration::from_millis(SWEEP_MILLIS))
        } else {
            None
        }
    }

    // Looks which sockets are ready, and what is due because of the time.
    fn look(&mut self) -> io::Result<()> {
        self.turns = 0;
        let wait = self.longest_wait();
        let Some(poller) = &mut self.poller else {
            return Err(io::Error::from(ErrorKind::NotConnected));
        };
        poller.poll.poll(&mut poller.events, wait)?;
        note_events(&poller.events, &mut self.listeners, &mut self.places);
        self.read_clock();
        self.places.sweep(self.now);
        Ok(())
    }

    // Takes a connection that waits, if there is a place. Where there is no memory for its place it is dropped.
    fn take_connection(&mut self) -> Option<WireEvent> {
        if !self.may_accept() {
            return None;
        }
        let (kind, stream) = self.listeners.accept(self.now)?;
        let (place, number) = self.places.reserve()?;
        self.settle(place, number, kind, stream)
    }

    // A connection comes to a place that was reserved. Where its socket can't be waited for it is dropped.
    fn settle(
        &mut self,
        place: usize,
        number: u64,
        kind: Kind,
        mut stream: TcpStream,
    ) -> Option<WireEvent>
        requires free { slice_get self.old.places.slots.items place ≡ Some None }
        ensures only { ChangesOnly self.old.places.slots.items self.new.places.slots.items place }
        ensures freed { slice_get self.new.places.slots.items place ≡ Some None → IsFreed self.old.places.free self.new.places.free place }
    {
        let _ = stream.set_nodelay(true);
        if !is_registered(&self.poller, &mut stream, number) {
            self.places.give_back(place);
            return None;
        }
        let connection = Connection::new(self.alloc, number, kind, stream, self.now);
        let known = connection.is_known();
        self.places.settle(place, connection);
        if known {
            Some(WireEvent::Opened { conn: number, kind })
        } else {
            None
        }
    }

    // One step of the first connection of the queue.
    fn step_connection(&mut self, alloc: Global) -> Option<WireEvent> {
        let place = self.places.next_place()?;
        let (conn, kind, step) = self.places.step(place, alloc, &mut self.buffer, self.now)?;
        self.after_step(place, conn, kind, step)
    }

    // What the step of a connection asks for.
    fn after_step(&mut self, place: usize, conn: u64, kind: Kind, step: Step) -> Option<WireEvent>
        requires names { IsOf conn step }
        ensures names { IfSome result (TellsOf conn) }
        ensures tells { result ≡ told_by conn kind step }
        ensures freed { step ≡ Step.Gone → (held : Connection) → slice_get self.old.places.slots.items place ≡ Some (Some held) → IsFreed self.old.places.free self.new.places.free place }
        ensures gone { step ≡ Step.Gone → (held : Connection) → slice_get self.old.places.slots.items place ≡ Some (Some held) → slice_get self.new.places.slots.items place ≡ Some None }
        ensures over { step ≡ Step.Closed → (number : ℕ) → place ≡ place_of number → is_served self.new.places.slots.items number ≡ false }
        ensures ends { step ≡ Step.Closed → Ends self.old.now (slice_get self.old.places.slots.items place) (slice_get self.new.places.slots.items place) }
    {
        match step {
            Step::Event(event) => {
                self.places.wake(place);
                Some(event)
            }
            Step::Greeted => {
                self.places.wake(place);
                Some(WireEvent::Opened { conn, kind })
            }
            Step::Again => {
                self.places.wake(place);
                None
            }
            Step::Wait => None,
            Step::Closed => {
                self.places.end(place, self.now);
                Some(WireEvent::Closed { conn })
            }
            Step::Gone => {
                self.places.forget(place);
                None
            }
        }
    }
}

// Whether the stream is waited for from now on.
fn is_registered(poller: &Option<Poller>, stream: &mut TcpStream, number: u64) -> bool {
    let both = Interest::READABLE | Interest::WRITABLE;
    match poller {
        Some(poller) => poller
            .poll
            .registry()
            .register(stream, Token(number as usize), both)
            .is_ok(),
        None => false,
    }
}

// Notes which sockets are ready.
fn note_events(events: &Events, listeners: &mut Listeners, places: &mut Places) {
    for event in events {
        let token = event.token().0;
        if !listeners.note_ready(token) {
            let readable = event.is_readable() || event.is_read_closed() || event.is_error();
            places.note_ready(token as u64, readable);
        }
    }
}

// A time in milliseconds.
fn millis(time: Duration) -> u64 {
    time.as_secs()
        .saturating_mul(1_000)
        .saturating_add(time.subsec_millis() as u64)
}
