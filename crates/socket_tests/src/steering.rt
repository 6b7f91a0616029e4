//! A wire whose time stands still until the test moves it, with two operators by whom the test has it work.

use crate::texts::text;
use crate::watching::{check, opened, says};
use edge_devices::{Kind, Wire, WireEvent};
use edge_wire::NetWire;
use std::io;
use std::net::{Net, SocketAddr, TcpStream};
use std::process::Abort;
use std::sync::atomic::{AtomicU64, Ordering};
use std::time::{Clock, Duration};

// How often the operators say something until something else happened.
const PASSES: usize = 10;
// The most events that one byte of an operator waits for.
const EVENTS: usize = 1_000;
// How long an answer is awaited, in seconds.
const PATIENCE: u64 = 5;

/// The network of a runtime, and a time in milliseconds that a test sets.
#[derive(Drop)]
pub struct Steered<'a, R> {
    pub net: &'a R,
    pub millis: &'a AtomicU64,
}

impl<'a, R: Net> Net for Steered<'a, R> {
    type Stream = R::Stream;

    type Listener = R::Listener;

    fn bind(&self, addr: SocketAddr) -> io::Result<R::Listener> {
        self.net.bind(addr)
    }

    fn connect(&self, addr: SocketAddr) -> io::Result<R::Stream> {
        self.net.connect(addr)
    }
}

impl<'a, R> Clock for Steered<'a, R> {
    fn monotonic(&self) -> io::Result<Duration> {
        Ok(Duration::from_millis(self.millis.load(Ordering::SeqCst)))
    }

    fn since_1970(&self) -> io::Result<Duration> {
        self.monotonic()
    }
}

/// A wire over the sockets of the runtime, whose time is that of `millis`.
pub fn steered_wire<'a>(
    rt: &'a HostRuntime,
    millis: &'a AtomicU64,
) -> NetWire<Steered<'a, HostRuntime>> {
    let steered = Steered { net: rt, millis };
    NetWire::new(rt.alloc(), steered)
}

/// Listens for connections of the kind.
pub fn listens<W: Wire>(rt: &(impl Abort + AllocGlobal), wire: &mut W, kind: Kind, at: &str) {
    check(rt, wire.listen(kind, &text(rt, at)).is_ok(), "no listener");
}

/// A connection to the address, whose reads end behind the time that an answer is awaited for. `net` is the runtime under its own type, by which a
/// connection is a `TcpStream`.
pub fn connected(rt: &impl Abort, net: &HostRuntime, at: &str) -> TcpStream {
    let stream = TcpStream::connect(net, at).expect(rt, "a connection");
    let limit = Some(Duration::from_secs(PATIENCE));
    check(rt, stream.set_read_timeout(limit).is_ok(), "no limit");
    check(rt, stream.set_nodelay(true).is_ok(), "no haste");
    stream
}

// An operator's connection, with its number.
#[derive(Drop)]
struct Operator {
    stream: TcpStream,
    conn: u64,
}

impl Operator {
    fn new<W: Wire>(
        rt: &(impl Abort + AllocGlobal),
        net: &HostRuntime,
        wire: &mut W,
        at: &str,
    ) -> Operator {
        let stream = connected(rt, net, at);
        let conn = opened(rt.alloc(), wire, Kind::Operator).expect(rt, "an operator");
        Operator { stream, conn }
    }

    // The operator says a byte, and the wire works until it gives it. Gives what else it gave, one event at most.
    fn pass<W: Wire>(&self, rt: &(impl Abort + AllocGlobal), wire: &mut W) -> Option<WireEvent> {
        check(rt, says(&self.stream, b"x"), "the operator isn't heard");
        let mut other = None;
        for _ in 0..EVENTS {
            match wire.next(rt.alloc()).expect(rt, "an event").event {
                WireEvent::Piece { conn, bytes: _ } if conn == self.conn => return other,
                event => other = one_of(rt, other, Some(event)),
            }
        }
        panic!(rt; "the operator isn't given");
    }
}

// The one of the two that is there.
fn one_of(rt: &impl Abort, one: Option<WireEvent>, other: Option<WireEvent>) -> Option<WireEvent> {
    match (one, other) {
        (None, event) => event,
        (event, None) => event,
        (Some(_), Some(_)) => panic!(rt; "two events"),
    }
}

/// Two operators, who speak in turn: where the one is silent the wire looks at all its sockets before it hears the other.
#[derive(Drop)]
pub struct Steering {
    first: Operator,
    second: Operator,
}

impl Steering {
    /// The wire, which has no connection yet, listens for operators at the address, and two of them connect to it.
    pub fn new<W: Wire>(
        rt: &(impl Abort + AllocGlobal),
        net: &HostRuntime,
        wire: &mut W,
        at: &str,
    ) -> Steering {
        listens(rt, wire, Kind::Operator, at);
        let first = Operator::new(rt, net, wire, at);
        let second = Operator::new(rt, net, wire, at);
        Steering { first, second }
    }

    /// The number of the connection by which `says` is heard.
    pub fn number(&self) -> u64 {
        self.first.conn
    }

    /// Whether an operator says a byte.
    pub fn says(&self) -> bool {
        says(&self.first.stream, b"x")
    }

    // Both operators say something. Gives what else the wire gave, one event at most.
    fn pass<W: Wire>(&self, rt: &(impl Abort + AllocGlobal), wire: &mut W) -> Option<WireEvent> {
        let first = self.first.pass(rt, wire);
        let second = self.second.pass(rt, wire);
        one_of(rt, first, second)
    }

    /// The next event of another connection. The test ends where none comes.
    pub fn brings<W: Wire>(&self, rt: &(impl Abort + AllocGlobal), wire: &mut W) -> WireEvent {
        for _ in 0..PASSES {
            if let Some(event) = self.pass(rt, wire) {
                return event;
            }
        }
        panic!(rt; "no event");
    }

    /// Has the wire do all that there is to do, which gives no event of another connection.
    pub fn brings_nothing<W: Wire>(&self, rt: &(impl Abort + AllocGlobal), wire: &mut W) {
        for _ in 0..PASSES {
            check(rt, self.pass(rt, wire).is_none(), "an event");
        }
    }

    /// The number of the connection, which is of the kind, where the next event opens one.
    pub fn opens<W: Wire>(&self, rt: &(impl Abort + AllocGlobal), wire: &mut W, kind: Kind) -> u64 {
        match self.brings(rt, wire) {
            WireEvent::Opened { conn, kind: came } if came == kind => conn,
            _ => panic!(rt; "no connection opens"),
        }
    }

    /// Whether the next event is a piece of the connection, and is these bytes.
    pub fn hears<W: Wire>(
        &self,
        rt: &(impl Abort + AllocGlobal),
        wire: &mut W,
        on: u64,
        bytes: &[u8],
    ) -> bool {
        match self.brings(rt, wire) {
            WireEvent::Piece { conn, bytes: came } => conn == on && came.as_slice() == bytes,
            _ => false,
        }
    }

    /// Whether the next event is the end of the connection.
    pub fn closes<W: Wire>(&self, rt: &(impl Abort + AllocGlobal), wire: &mut W, on: u64) -> bool {
        match self.brings(rt, wire) {
            WireEvent::Closed { conn } => conn == on,
            _ => false,
        }
    }
}
