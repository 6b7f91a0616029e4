// A run over a wire in memory, and what it tells.
use edge_devices::{Given, Kind, MemoryEntropy, MemoryWire, WireCall, WireEvent};
use message_handlers::Handlers;
use message_values::CustomCapabilities;
use plain_values::{Blob, List};
use server_core::{AGENT_LIMIT, Limits, Server};
use server_deliveries::serve_pushing;
use server_sessions::{ServeEnd, serve};
use server_waves::{Rollouts, ServerDesk};
use std::alloc::Global;
use std::process::Abort;

// The first report of a healthy agent.
pub const REPORT: &[u8] =
    b"\x0a\x10\x00\x01\x02\x03\x04\x05\x06\x07\x08\x09\x0a\x0b\x0c\x0d\x0e\x0f\x10\x01\x1a\x00\x20\x81\x10\x2a\x02\x08\x01";

// The server's reply to it.
pub const REPLY: &[u8] =
    b"\x0a\x10\x00\x01\x02\x03\x04\x05\x06\x07\x08\x09\x0a\x0b\x0c\x0d\x0e\x0f\x38\x3f";

// Events of a wire, one after the other, each given at the second that was set before it, which is 0 at first.
#[derive(Drop)]
pub struct Script {
    events: Vec<Given>,
    second: u64,
}

impl Script {
    pub fn new(alloc: Global) -> Script {
        Script {
            events: Vec::new(alloc),
            second: 0,
        }
    }

    // The events that follow are given at this second.
    pub fn at(&mut self, second: u64) {
        self.second = second;
    }

    pub fn len(&self) -> u64 {
        self.events.len() as u64
    }

    pub fn open(&mut self, rt: &impl Abort, conn: u64, kind: Kind) {
        self.add(rt, WireEvent::Opened { conn, kind });
    }

    pub fn piece(&mut self, rt: &(impl Abort + AllocGlobal), conn: u64, bytes: &[u8]) {
        let bytes = Blob::of(Vec::from_slice(rt.alloc(), bytes).expect(rt, "memory"));
        self.add(rt, WireEvent::Piece { conn, bytes });
    }

    pub fn close(&mut self, rt: &impl Abort, conn: u64) {
        self.add(rt, WireEvent::Closed { conn });
    }

    fn add(&mut self, rt: &impl Abort, event: WireEvent) {
        self.events
            .push(Given {
                at: self.second,
                event,
            })
            .expect(rt, "memory");
    }

    // A wire that gives these events, of which each call goes well.
    pub fn wire(self, rt: &(impl Abort + AllocGlobal)) -> MemoryWire {
        let Script { events, second: _ } = self;
        MemoryWire::new(rt.alloc(), events, Vec::new(rt.alloc()))
    }

    // What a server of no agent does for the events, of which each is a turn. The calls with these numbers fail.
    pub fn play(
        self,
        rt: &(impl Abort + AllocGlobal),
        failing: &[u64],
        draws: &[[u8; 16]],
    ) -> Vec<u8> {
        let mut desk = desk(rt.alloc());
        let handlers = Handlers::new(rt.alloc());
        let told = self.play_on(rt, &mut desk, &handlers, failing, draws);
        drop(handlers);
        drop(desk);
        told
    }

    // The same with this desk and these handlers.
    pub fn play_on(
        self,
        rt: &(impl Abort + AllocGlobal),
        desk: &mut ServerDesk,
        handlers: &Handlers,
        failing: &[u64],
        draws: &[[u8; 16]],
    ) -> Vec<u8> {
        let Script { events, second: _ } = self;
        let turns = events.len() as u64;
        let failing = Vec::from_slice(rt.alloc(), failing).expect(rt, "memory");
        let mut wire = MemoryWire::new(rt.alloc(), events, failing);
        let end = end_of(rt, desk, handlers, &mut wire, draws, turns);
        told_by(rt, wire, &end)
    }

    // What a server of no agent that pushes does for the events, of which each is a turn. The calls with these numbers fail.
    pub fn play_pushing(self, rt: &(impl Abort + AllocGlobal), failing: &[u64]) -> Vec<u8> {
        let Script { events, second: _ } = self;
        let turns = events.len() as u64;
        let failing = Vec::from_slice(rt.alloc(), failing).expect(rt, "memory");
        let mut wire = MemoryWire::new(rt.alloc(), events, failing);
        let end = pushing_end(rt.alloc(), &mut wire, turns);
        told_by(rt, wire, &end)
    }
}

// A server of the capabilities 63 and of no custom ones.
pub fn server(alloc: Global) -> Server {
    let custom = CustomCapabilities {
        capabilities: List::new(alloc),
    };
    Server::new(alloc, 63, custom)
}

// The same with no rollouts.
pub fn desk(alloc: Global) -> ServerDesk {
    ServerDesk {
        server: server(alloc),
        rollouts: Rollouts::new(alloc),
    }
}

// The same, which knows so many connections at most.
pub fn desk_within(alloc: Global, connections: usize) -> ServerDesk {
    let custom = CustomCapabilities {
        capabilities: List::new(alloc),
    };
    let limits = Limits {
        agents: AGENT_LIMIT,
        connections,
    };
    ServerDesk {
        server: Server::with_limits(alloc, limits, 63, custom),
        rollouts: Rollouts::new(alloc),
    }
}

// How a run over the wire ends, in which identifiers are made of these draws.
fn end_of(
    rt: &(impl Abort + AllocGlobal),
    desk: &mut ServerDesk,
    handlers: &Handlers,
    wire: &mut MemoryWire,
    draws: &[[u8; 16]],
    turns: u64,
) -> Result<u64, ServeEnd> {
    let draws = Vec::from_slice(rt.alloc(), draws).expect(rt, "memory");
    let mut entropy = MemoryEntropy::new(rt.alloc(), draws, Vec::new(rt.alloc()));
    let end = serve(rt.alloc(), desk, handlers, wire, &mut entropy, turns);
    drop(entropy);
    end
}

// How a run with pushes over the wire ends.
fn pushing_end(alloc: Global, wire: &mut MemoryWire, turns: u64) -> Result<u64, ServeEnd> {
    let mut desk = desk(alloc);
    let handlers = Handlers::new(alloc);
    let mut entropy = MemoryEntropy::new(alloc, Vec::new(alloc), Vec::new(alloc));
    let end = serve_pushing(alloc, &mut desk, &handlers, wire, &mut entropy, turns);
    drop(entropy);
    drop(handlers);
    drop(desk);
    end
}

// What the calls of the wire and the end of the run tell.
fn told_by(
    rt: &(impl Abort + AllocGlobal),
    wire: MemoryWire,
    end: &Result<u64, ServeEnd>,
) -> Vec<u8> {
    let mut told = Vec::new(rt.alloc());
    tell(rt, &mut told, wire.calls());
    drop(wire);
    put(rt, &mut told, word_of(end));
    told
}

// How a run ended.
fn word_of(end: &Result<u64, ServeEnd>) -> &'static [u8] {
    match end {
        Ok(_) => b"stopped",
        Err(ServeEnd::TurnsSpent) => b"spent",
        Err(ServeEnd::WireFault) => b"failed",
        Err(ServeEnd::NoMemory) => b"no memory",
    }
}

// What went out on a connection: its number, and then what was sent, or what became of it.
fn tell_on(rt: &impl Abort, told: &mut Vec<u8>, conn: u64, word: &[u8], bytes: &[u8]) {
    let digit = (conn % 10) as u8;
    told.push(b'0' + digit).expect(rt, "memory");
    put(rt, told, word);
    put(rt, told, bytes);
    put(rt, told, b"|");
}

pub fn tell(rt: &impl Abort, told: &mut Vec<u8>, calls: &[WireCall]) {
    for call in calls {
        match call {
            WireCall::Sent { conn, bytes } => tell_on(rt, told, *conn, b":", bytes.as_slice()),
            WireCall::LostOn { conn } => tell_on(rt, told, *conn, b" lost", b""),
            WireCall::Closed { conn } => tell_on(rt, told, *conn, b" closed", b""),
            WireCall::Gave { .. } => {}
            WireCall::Listened { .. } => {}
        }
    }
}

// Adds these bytes.
pub fn put(rt: &impl Abort, all: &mut Vec<u8>, bytes: &[u8]) {
    all.extend_from_slice(bytes).expect(rt, "memory");
}

// Adds so many of this byte.
pub fn fill(rt: &impl Abort, all: &mut Vec<u8>, byte: u8, count: u64) {
    for _ in 0..count {
        all.push(byte).expect(rt, "memory");
    }
}

// The pieces joined.
pub fn joined(rt: &(impl Abort + AllocGlobal), parts: &[&[u8]]) -> Vec<u8> {
    let mut all = Vec::new(rt.alloc());
    for part in parts {
        put(rt, &mut all, part);
    }
    all
}
