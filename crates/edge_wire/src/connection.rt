//! One connection of a wire.

ghost use Rattle.std.specs.Prelude.{◌≡◌, ◌≢◌, ◌⊎◌, ◌++◌, [], ◌+◌, ◌<◌, ◌≤◌, ◌↔◌, ℕ, IsTrue, IfSome, IfNone, true, false, length};
ghost use Rattle.edge_wire.specs.Draining.{drain_step, drained_by};
ghost use Rattle.edge_wire.specs.Reading.{TakesRead, got_of};
ghost use Rattle.edge_wire.specs.Stages.{after_end, after_sent, is_known, is_late, is_over};
ghost use Rattle.edge_wire.specs.Waiting.{GrowsBehind, IsRestOf};
ghost use Rattle.edge_wire.specs.Dues.{IsUndue, due_of};
ghost use Rattle.edge_wire.specs.Resting.{IsResting, holds_nothing};
ghost use Rattle.edge_wire.specs.Steps.{Comes, IsIn, IsOf, IsPiece};

use crate::silence::{Due, due_after, due_from};
use crate::stage::{Phase, Stage};
use crate::{BAD_REQUEST, UNSENT_LIMIT};
use edge_devices::{Kind, WireEvent};
use edge_websocket::{Greeting, Received, Unsent, WsSocket, greet};
use mio::net::TcpStream;
use plain_values::Blob;
use std::alloc::Global;
use std::io;
use std::io::{ErrorKind, Read, Write};
use std::net::Shutdown;

/// How the bytes of a connection are read and written.
#[derive(Drop)]
enum Channel {
    /// As they are.
    Plain,
    /// The head of a handshake, as far as it came.
    Greeting(Vec<u8>),
    /// As messages of WebSocket.
    Framed(WsSocket),
}

impl Channel {
    // Whether the protocol holds nothing of the peer that could be read.
    fn holds_nothing(&self) -> bool
        ensures { result ≡ holds_nothing self.now }
    {
        match self {
            Channel::Framed(socket) => socket.is_drained(),
            Channel::Plain | Channel::Greeting(_) => true,
        }
    }
}

/// What a step of a connection came to.
#[derive(Drop)]
pub(crate) enum Step {
    /// An event. There may be more.
    Event(WireEvent),
    /// The handshake is done. There may be more.
    Greeted,
    /// Nothing for the caller. There may be more.
    Again,
    /// Nothing until the socket changes.
    Wait,
    /// The connection, which events know, is over.
    Closed,
    /// Nothing is left to be done: the socket can be dropped.
    Gone,
}

/// What a read of the socket gave.
enum Got {
    Bytes(usize),
    Nothing,
    Again,
    End,
}

/// A connection.
pub(crate) struct Connection {
    pub(crate) number: u64,
    kind: Kind,
    stream: TcpStream,
    channel: Channel,
    unsent: Unsent,
    stage: Stage,
    // The socket may have bytes.
    readable: bool,
    // Whether it stands in the wire's queue.
    pub(crate) queued: bool,
    // When something came last, or something that waited went out, in milliseconds.
    heard: u64,
    // Whether it was pinged since.
    pinged: bool,
}

impl Drop for Connection {
    fn drop(self) {
        let Connection {
            number: _,
            kind: _,
            stream: _,
            channel: _,
            unsent: _,
            stage: _,
            readable: _,
            queued: _,
            heard: _,
            pinged: _,
        } = self;
    }
}

impl Connection {
    // A new connection. One of the kind Ws begins with a handshake.
    pub(crate) fn new(
        alloc: Global,
        number: u64,
        kind: Kind,
        stream: TcpStream,
        now: u64,
    ) -> Connection
        ensures number { result.number ≡ number }
        ensures heard { result.heard ≡ now }
        ensures unpinged { result.pinged ≡ false }
    {
        let (channel, stage) = match kind {
            Kind::Ws => (Channel::Greeting(Vec::new(alloc)), Stage::greeting(now)),
            Kind::Http | Kind::Operator => (Channel::Plain, Stage::opened()),
        };
        Connection {
            number,
            kind,
            stream,
            channel,
            unsent: Unsent::new(alloc),
            stage,
            readable: false,
            queued: false,
            heard: now,
            pinged: false,
        }
    }

    pub(crate) fn kind(&self) -> Kind
        ensures { result ≡ self.now.kind }
    {
        self.kind
    }

    // Whether the wire's events know it.
    pub(crate) fn is_known(&self) -> bool
        ensures { result ≡ is_known self.now.stage }
    {
        self.stage.is_known()
    }

    // The socket may have bytes, or an end.
    pub(crate) fn set_readable(&mut self)
        ensures { self.new ≡ record self.old { readable = true } }
    {
        self.readable = true;
    }

    // What its silence asks for.
    fn due(&self, now: u64) -> Due
        ensures { result ≡ due_of self.now now }
    {
        if self.is_known() {
            due_after(self.kind, now.saturating_sub(self.heard), self.pinged)
        } else {
            Due::Nothing
        }
    }

    // Whether it wants a step because of the time.
    pub(crate) fn is_due(&self, now: u64) -> bool
        ensures late { IsTrue (is_late self.now.stage now) → IsTrue result }
        ensures due { due_of self.now now ≢ Due.Nothing → IsTrue result }
    {
        self.stage.is_late(now) || self.due(now) != Due::Nothing
    }

    // Before which time it wants no step because of the time; none where it never does.
    pub(crate) fn due_from(&self) -> Option<u64>
        ensures before { IfSome result (λ due. (now : ℕ) → now < due → IsUndue self.now now) }
        ensures never { IfNone result ((now : ℕ) → IsUndue self.now now) }
    {
        match self.stage.late_from() {
            Some(until) => Some(until),
            None => due_from(self.kind, self.heard, self.pinged),
        }
    }

    // One step. It waits for the socket only where there is nothing left to be looked at.
    pub(crate) fn step(&mut self, alloc: Global, buffer: &mut [u8], now: u64) -> Step
        ensures number { self.new.number ≡ self.old.number }
        ensures names { IsOf self.old.number result }
        ensures stays { IsIn self.old.stage.phase result }
        ensures late { IsTrue (is_late self.old.stage now) → result ≡ Step.Gone }
        ensures onward { IsTrue (is_over self.old.stage) → IsTrue (is_over self.new.stage) }
        ensures looks { result ≡ Step.Wait → (self.new.unsent ≢ []) ⊎ (self.new.readable ≡ false) }
        ensures rests { self.old.stage.phase ≡ Phase.Open → result ≡ Step.Wait → IsResting self.new }
        ensures ends { due_of self.old now ≡ Due.End → self.old.unsent ≡ [] → result ≢ Step.Wait }
        ensures goes_out { due_of self.old now ≡ Due.End → result ≡ Step.Wait → self.new.heard ≡ now }
        ensures pings { due_of self.old now ≡ Due.Ping → self.old.unsent ≡ [] → result ≡ Step.Wait → self.new.pinged ≡ true }
        ensures silent { self.old.stage.phase ≡ Phase.Open → self.old.unsent ≡ [] → result ≡ Step.Wait → self.new.heard ≡ self.old.heard }
    {
        if self.stage.is_late(now) {
            return Step::Gone;
        }
        if !self.flush_waiting(now) {
            return self.broken();
        }
        match self.stage.phase() {
            Phase::Greeting => self.greeting_step(alloc, buffer, now),
            Phase::Open => self.open_step(alloc, buffer, now),
            Phase::Ending => self.ending_step(),
            Phase::Draining => self.drain(buffer),
        }
    }

    // The socket failed.
    fn broken(&self) -> Step
        ensures names { (conn : ℕ) → IsOf conn result }
        ensures stays { IsIn self.now.stage.phase result }
        ensures goes_on { result ≢ Step.Wait }
    {
        match self.stage.phase() {
            Phase::Open => Step::Closed,
            Phase::Greeting | Phase::Ending | Phase::Draining => Step::Gone,
        }
    }

    // A step of a handshake, which is read until its head is whole.
    fn greeting_step(&mut self, alloc: Global, buffer: &mut [u8], now: u64) -> Step
        ensures number { self.new.number ≡ self.old.number }
        ensures names { IsOf self.old.number result }
        ensures stays { IsIn Phase.Greeting result }
        ensures looks { result ≡ Step.Wait → self.new.readable ≡ false }
    {
        match self.read(buffer) {
            Got::Bytes(count) => match buffer.get(..count) {
                Some(bytes) => self.greet(alloc, bytes, now),
                None => Step::Again,
            },
            Got::Nothing => Step::Wait,
            Got::Again => Step::Again,
            Got::End => Step::Gone,
        }
    }

    // The handshake, once its head is whole. Its response goes out at once.
    fn greet(&mut self, alloc: Global, bytes: &[u8], now: u64) -> Step
        ensures number { self.new.number ≡ self.old.number }
        ensures names { IsOf self.old.number result }
        ensures stays { IsIn Phase.Greeting result }
        ensures goes_on { result ≢ Step.Wait }
    {
        let Channel::Greeting(head) = &mut self.channel else {
            return Step::Gone;
        };
        if head.extend_from_slice(bytes).is_err() {
            return Step::Gone;
        }
        match greet(alloc, head.as_slice(), &mut self.unsent) {
            Greeting::Partial => Step::Again,
            Greeting::Refused => self.refuse(now),
            Greeting::Done(socket) => {
                self.channel = Channel::Framed(socket);
                self.stage.greet();
                self.heard = now;
                if self.flush() {
                    Step::Greeted
                } else {
                    Step::Gone
                }
            }
            Greeting::NoMemory => Step::Gone,
        }
    }

    // What came is no handshake: the peer is told so.
    fn refuse(&mut self, now: u64) -> Step
        ensures number { self.new.number ≡ self.old.number }
        ensures answer { result ≡ Step.Again }
        ensures stage { self.new.stage ≡ after_end self.old.stage now }
        ensures told { (self.new.unsent ≡ self.old.unsent ++ BAD_REQUEST) ⊎ (self.new.unsent ≡ self.old.unsent) }
    {
        let _ = self.unsent.append(&BAD_REQUEST);
        self.stage.end(now);
        Step::Again
    }

    // A step of a connection that is open. While something waits to be sent nothing is read.
    fn open_step(&mut self, alloc: Global, buffer: &mut [u8], now: u64) -> Step
        ensures number { self.new.number ≡ self.old.number }
        ensures names { IsOf self.old.number result }
        ensures stays { IsIn Phase.Open result }
        ensures rests { result ≡ Step.Wait → IsResting self.new }
        ensures ends { due_of self.old now ≡ Due.End → result ≢ Step.Wait }
        ensures pings { due_of self.old now ≡ Due.Ping → result ≡ Step.Wait → self.new.pinged ≡ true }
        ensures silent { result ≡ Step.Wait → self.new.heard ≡ self.old.heard }
    {
        if !self.unsent.is_empty() {
            return self.idle_step(now);
        }
        match self.read_step(alloc, buffer, now) {
            Some(step) => step,
            None => self.idle_step(now),
        }
    }

    // Nothing is read. A reply of the protocol that came to wait is sent before the socket is waited for, and where that
    // made room for what came there is more to do.
    fn idle_step(&mut self, now: u64) -> Step
        ensures number { self.new.number ≡ self.old.number }
        ensures names { IsOf self.old.number result }
        ensures stays { IsIn Phase.Open result }
        ensures rests { result ≡ Step.Wait → IsResting self.new }
        ensures ends { due_of self.old now ≡ Due.End → result ≡ Step.Closed }
        ensures pings { due_of self.old now ≡ Due.Ping → self.new.pinged ≡ true }
        ensures silent { self.new.heard ≡ self.old.heard }
    {
        match self.due(now) {
            Due::End => return Step::Closed,
            Due::Ping => self.ping(),
            Due::Nothing => {}
        }
        if !self.flush() {
            return Step::Closed;
        }
        if self.is_resting() {
            Step::Wait
        } else {
            Step::Again
        }
    }

    // Whether there is nothing to do until the socket changes.
    fn is_resting(&self) -> bool
        ensures { IsTrue result → IsResting self.now }
    {
        !self.unsent.is_empty() || (!self.readable && self.channel.holds_nothing())
    }

    // All that waits is sent, then the peer is told that no more comes.
    fn ending_step(&mut self) -> Step
        ensures number { self.new.number ≡ self.old.number }
        ensures names { IsOf self.old.number result }
        ensures stays { IsIn Phase.Ending result }
        ensures sends { result ≢ Step.Gone }
        ensures drains { result ≡ Step.Again → self.new.stage ≡ after_sent self.old.stage }
        ensures onward { IsTrue (is_over self.old.stage) → IsTrue (is_over self.new.stage) }
        ensures waits { self.old.unsent ≢ [] → result ≡ Step.Wait }
        ensures looks { result ≡ Step.Wait → self.new.unsent ≢ [] }
    {
        if !self.unsent.is_empty() {
            return Step::Wait;
        }
        let _ = self.stream.shutdown(Shutdown::Write);
        self.stage.sent_all();
        Step::Again
    }

    // What the peer still sends is dropped, until its end or the limit.
    fn drain(&mut self, buffer: &mut [u8]) -> Step
        ensures number { self.new.number ≡ self.old.number }
        ensures names { IsOf self.old.number result }
        ensures stays { IsIn Phase.Draining result }
        ensures onward { IsTrue (is_over self.old.stage) → IsTrue (is_over self.new.stage) }
        ensures looks { result ≡ Step.Wait → self.new.readable ≡ false }
    {
        let got = self.read(buffer);
        pass_over(&mut self.stage, got)
    }

    // Sends the bytes, as a message on a framed connection. False where the connection is lost.
    pub(crate) fn send(&mut self, bytes: &[u8]) -> bool
        ensures number { self.new.number ≡ self.old.number }
        ensures known { IsTrue result → IsTrue (is_known self.old.stage) }
        ensures stage { self.new.stage ≡ self.old.stage }
        ensures bounded { IsTrue result → length self.new.unsent ≤ 67108864 }
        ensures once { IsTrue result → self.old.channel ≡ Channel.Plain → IsRestOf (self.old.unsent ++ bytes.now) self.new.unsent }
    {
        if !self.is_known() || !has_room(self.unsent.len(), bytes.len()) {
            return false;
        }
        let taken = send_on(&mut self.channel, &self.stream, &mut self.unsent, bytes);
        taken && self.unsent.len() <= UNSENT_LIMIT && self.flush()
    }

    // Begins to end: what waits is still sent, and no event comes any more.
    pub(crate) fn end(&mut self, now: u64)
        ensures number { self.new.number ≡ self.old.number }
        ensures stage { self.new.stage ≡ after_end self.old.stage now }
        ensures over { is_known self.new.stage ≡ false }
        ensures waits { GrowsBehind self.old.unsent self.new.unsent }
    {
        say_close(&mut self.channel, &mut self.unsent);
        self.stage.end(now);
    }

    // A ping goes out; that it can't is found when it is sent.
    fn ping(&mut self)
        ensures number { self.new.number ≡ self.old.number }
        ensures pinged { self.new.pinged ≡ true }
        ensures silent { self.new.heard ≡ self.old.heard }
    {
        self.pinged = true;
        if let Channel::Framed(socket) = &mut self.channel {
            let _ = socket.ping();
            let _ = socket.take_going(&mut self.unsent);
        }
    }

    // Writes what waits, as far as the socket takes it. False where the socket failed.
    fn flush(&mut self) -> bool
        ensures only { self.new ≡ record self.old { unsent = self.new.unsent } }
        ensures rest { IsRestOf self.old.unsent self.new.unsent }
    {
        write_waiting(&self.stream, &mut self.unsent)
    }

    // The same, of what waited since an earlier step: that some of it goes out is a sign of life.
    fn flush_waiting(&mut self, now: u64) -> bool
        ensures only { self.new ≡ record self.old { unsent = self.new.unsent; heard = self.new.heard } }
        ensures rest { IsRestOf self.old.unsent self.new.unsent }
        ensures heard { length self.new.unsent < length self.old.unsent → self.new.heard ≡ now }
        ensures silent { length self.old.unsent ≤ length self.new.unsent → self.new.heard ≡ self.old.heard }
    {
        let waiting = self.unsent.len();
        let works = self.flush();
        if self.unsent.len() < waiting {
            self.heard = now;
        }
        works
    }

    // Reads the socket.
    fn read(&mut self, buffer: &mut [u8]) -> Got
        ensures only { self.new ≡ record self.old { readable = self.new.readable } }
        ensures looked { result ≡ Got.Nothing → self.new.readable ≡ false }
    {
        if !self.readable {
            return Got::Nothing;
        }
        let mut stream = &self.stream;
        match got_of(&stream.read(buffer)) {
            Got::Nothing => {
                self.readable = false;
                Got::Nothing
            }
            got => got,
        }
    }

    // What was read before is looked at first, then the socket; none where there is nothing to be read.
    fn read_step(&mut self, alloc: Global, buffer: &mut [u8], now: u64) -> Option<Step>
        ensures number { self.new.number ≡ self.old.number }
        ensures names { IfSome result (IsOf self.old.number) }
        ensures stays { IfSome result (IsIn Phase.Open) }
        ensures goes_on { IfSome result (λ step. step ≢ Step.Wait) }
        ensures silent { IfNone result (self.new ≡ record self.old { channel = self.new.channel; unsent = self.new.unsent; readable = self.new.readable }) }
    {
        if let Some(step) = self.message_step(alloc) {
            return Some(step);
        }
        let got = self.read(buffer);
        self.take_read(alloc, got, buffer, now)
    }

    // What a read of the socket comes to; none where there was nothing to be read.
    fn take_read(&mut self, alloc: Global, got: Got, buffer: &[u8], now: u64) -> Option<Step>
        ensures number { self.new.number ≡ self.old.number }
        ensures names { IfSome result (IsOf self.old.number) }
        ensures stays { IfSome result (IsIn Phase.Open) }
        ensures goes_on { IfSome result (λ step. step ≢ Step.Wait) }
        ensures silent { IfNone result (self.new ≡ self.old) }
        ensures plain { self.old.channel ≡ Channel.Plain → TakesRead self.old.number buffer.now got result }
    {
        match got {
            Got::Bytes(count) => match buffer.get(..count) {
                Some(bytes) => Some(self.take_bytes(alloc, bytes, now)),
                None => Some(Step::Again),
            },
            Got::Nothing => None,
            Got::Again => Some(Step::Again),
            Got::End => Some(Step::Closed),
        }
    }

    // The next message of a framed connection; none where the socket has to be read.
    fn message_step(&mut self, alloc: Global) -> Option<Step>
        ensures only { self.new ≡ record self.old { channel = self.new.channel; unsent = self.new.unsent } }
        ensures names { IfSome result (IsOf self.old.number) }
        ensures stays { IfSome result (IsIn Phase.Open) }
        ensures goes_on { IfSome result (λ step. step ≢ Step.Wait) }
    {
        let Channel::Framed(socket) = &mut self.channel else {
            return None;
        };
        socket.open_next();
        let received = socket.receive();
        if socket.take_going(&mut self.unsent).is_err() {
            return Some(Step::Closed);
        }
        step_of(alloc, self.number, received)
    }

    // Bytes came. Those of a framed connection are read in the next step.
    fn take_bytes(&mut self, alloc: Global, bytes: &[u8], now: u64) -> Step
        ensures number { self.new.number ≡ self.old.number }
        ensures names { IsOf self.old.number result }
        ensures stays { IsIn Phase.Open result }
        ensures goes_on { result ≢ Step.Wait }
        ensures heard { self.new.heard ≡ now }
        ensures unpinged { self.new.pinged ≡ false }
        ensures plain { self.old.channel ≡ Channel.Plain → IsPiece self.old.number bytes.now result }
    {
        self.heard = now;
        self.pinged = false;
        match &mut self.channel {
            Channel::Plain => piece(alloc, self.number, bytes),
            Channel::Framed(socket) => match socket.feed(bytes) {
                Ok(()) => Step::Again,
                Err(_) => Step::Closed,
            },
            Channel::Greeting(_) => Step::Closed,
        }
    }
}

// What a read of a socket gave. That no bytes came is its end.
fn got_of(read: &io::Result<usize>) -> Got
    ensures { result ≡ got_of read.now }
{
    match read {
        Ok(0) => Got::End,
        Ok(count) => Got::Bytes(*count),
        Err(error) => match error.kind() {
            ErrorKind::WouldBlock => Got::Nothing,
            ErrorKind::Interrupted => Got::Again,
            _ => Got::End,
        },
    }
}

// What the bytes that came while a connection drains come to: they are counted, and the limit ends it.
fn pass_over(stage: &mut Stage, got: Got) -> Step
    ensures stage { stage.new ≡ drained_by got stage.old }
    ensures step { result ≡ drain_step got stage.new }
{
    match got {
        Got::Bytes(count) => {
            if stage.drop_bytes(count as u64) {
                Step::Again
            } else {
                Step::Gone
            }
        }
        Got::Again => Step::Again,
        Got::Nothing => Step::Wait,
        Got::End => Step::Gone,
    }
}

// A close of WebSocket, which goes out behind what waits; nothing on another connection.
fn say_close(channel: &mut Channel, unsent: &mut Unsent)
    ensures behind { GrowsBehind unsent.old unsent.new }
{
    if let Channel::Framed(socket) = channel {
        let _ = socket.close();
        let _ = socket.take_going(unsent);
    }
}

// Bytes that are sent, as a message on a framed connection. False where the connection is lost.
fn send_on(channel: &mut Channel, stream: &TcpStream, unsent: &mut Unsent, bytes: &[u8]) -> bool
    ensures plain { IsTrue result → channel.old ≡ Channel.Plain → IsRestOf (unsent.old ++ bytes.now) unsent.new }
{
    match channel {
        Channel::Plain => send_plain(stream, unsent, bytes),
        Channel::Framed(socket) => socket.send(bytes) && socket.take_going(unsent).is_ok(),
        Channel::Greeting(_) => false,
    }
}

// What a framed connection gave comes to; none where the socket has to be read.
fn step_of(alloc: Global, conn: u64, received: Received) -> Option<Step>
    ensures comes { Comes conn received result }
    ensures names { IfSome result (IsOf conn) }
    ensures stays { IfSome result (IsIn Phase.Open) }
    ensures goes_on { IfSome result (λ step. step ≢ Step.Wait) }
{
    match received {
        Received::Message(bytes) => Some(piece(alloc, conn, bytes.as_slice())),
        Received::Other => Some(Step::Again),
        Received::Nothing => None,
        Received::Ended | Received::NoMemory => Some(Step::Closed),
    }
}

// A piece of a connection. Where there is no memory for it the connection is over.
fn piece(alloc: Global, conn: u64, bytes: &[u8]) -> Step
    ensures piece { IsPiece conn bytes.now result }
    ensures names { IsOf conn result }
    ensures stays { IsIn Phase.Open result }
    ensures goes_on { result ≢ Step.Wait }
{
    match Vec::from_slice(alloc, bytes) {
        Ok(bytes) => Step::Event(WireEvent::Piece {
            conn,
            bytes: Blob::of(bytes),
        }),
        Err(_) => Step::Closed,
    }
}

/// Whether so many more bytes may wait.
fn has_room(waiting: usize, more: usize) -> bool
    ensures { IsTrue result ↔ (waiting + more ≤ 67108864) }
{
    waiting <= UNSENT_LIMIT && more <= UNSENT_LIMIT - waiting
}

// Writes what waits, as far as the socket takes it. False where the socket failed.
fn write_waiting(mut stream: &TcpStream, unsent: &mut Unsent) -> bool
    ensures rest { IsRestOf unsent.old unsent.new }
{
    for _ in 0..usize::MAX {
        if unsent.is_empty() {
            return true;
        }
        match stream.write(unsent.as_slice()) {
            Ok(0) => return false,
            Ok(count) => unsent.pass(count),
            Err(e) if e.kind() == ErrorKind::WouldBlock => return true,
            Err(e) if e.kind() == ErrorKind::Interrupted => {}
            Err(_) => return false,
        }
    }
    true
}

// Where nothing waits the bytes go to the socket itself, and only what it doesn't take waits. False where the socket
// failed, or memory is wanting.
fn send_plain(stream: &TcpStream, unsent: &mut Unsent, bytes: &[u8]) -> bool
    ensures rest { IsTrue result → IsRestOf (unsent.old ++ bytes.now) unsent.new }
{
    if !unsent.is_empty() {
        return unsent.append(bytes).is_ok();
    }
    match write_now(stream, bytes) {
        Some(taken) => unsent.append(&bytes[taken..]).is_ok(),
        None => false,
    }
}

// How many of the bytes the socket takes at once; none where it failed.
fn write_now(mut stream: &TcpStream, bytes: &[u8]) -> Option<usize>
    ensures within { IfSome result (λ taken. taken ≤ length bytes.now) }
{
    match stream.write(bytes) {
        Ok(count) => Some(count),
        Err(e) if e.kind() == ErrorKind::WouldBlock => Some(0),
        Err(e) if e.kind() == ErrorKind::Interrupted => Some(0),
        Err(_) => None,
    }
}
