// Runs of `serve` with a rollout, with what they wrote and their status.
ghost use Rattle.std.specs.Prelude.{⊤, true};

use crate::comparing::expect_same;
use crate::playing::tell;
use crate::serve_runs::{opened, options, text};
use command_serve::run_rollout;
use command_words::RolloutOptions;
use edge_devices::{Kind, MemoryEntropy, MemorySink, MemoryWire};
use message_handlers::Handlers;
use plain_values::Blob;
use server_core::Record;
use server_waves::{FnJudge, Judging};
use std::process::Abort;

// Finds every agent fine.
#[derive(Drop)]
struct Mild;

impl Judging for Mild {
    ghost use Rattle.std.specs.Prelude.{⊤, true};

    ghost ready = { λ _. ⊤ };

    ghost finds = { λ _ agent. true };

    fn judge(&self, _agent: &Record) -> bool {
        true
    }
}

fn rollout(rt: &(impl Abort + AllocGlobal), body: &[u8]) -> RolloutOptions {
    RolloutOptions {
        width: 1,
        allowed: 0,
        name: text(rt, "x"),
        body: Blob::of(Vec::from_slice(rt.alloc(), body).expect(rt, "memory")),
    }
}

// The first, full and healthy report of an agent with the capabilities 0x1803, on WebSocket.
const REPORT: &[u8] =
    b"\x00\x0a\x10\x00\x01\x02\x03\x04\x05\x06\x07\x08\x09\x0a\x0b\x0c\x0d\x0e\x0f\x10\x01\x1a\x00\x20\x83\x30\x2a\x02\x08\x01\x3a\x00";

// The status of a run over this wire, which writes into the sink.
fn status_of(
    rt: &(impl Abort + AllocGlobal),
    body: &[u8],
    turns: u64,
    push: bool,
    wire: &mut MemoryWire,
    sink: &mut MemorySink,
) -> u8 {
    let options = options(rt, turns, push);
    let rollout = rollout(rt, body);
    let judge = FnJudge::new(Mild);
    let handlers = Handlers::new(rt.alloc());
    let mut entropy = MemoryEntropy::new(rt.alloc(), Vec::new(rt.alloc()), Vec::new(rt.alloc()));
    let mut notes = MemorySink::new(rt.alloc(), 0, Vec::new(rt.alloc()));
    let status = run_rollout(
        rt.alloc(),
        &options,
        &rollout,
        judge,
        sink,
        &mut notes,
        &handlers,
        wire,
        &mut entropy,
    );
    drop(notes);
    drop(entropy);
    drop(handlers);
    drop(rollout);
    drop(options);
    status.code()
}

// What was written, and a byte that is the status.
fn told(rt: &(impl Abort + AllocGlobal), body: &[u8], turns: u64) -> Vec<u8> {
    let events = opened(rt, Kind::Ws, REPORT);
    let mut wire = MemoryWire::new(rt.alloc(), events, Vec::new(rt.alloc()));
    let mut sink = MemorySink::new(rt.alloc(), 3, Vec::new(rt.alloc()));
    let status = status_of(rt, body, turns, false, &mut wire, &mut sink);
    drop(wire);
    let mut told = Vec::from_slice(rt.alloc(), sink.bytes()).expect(rt, "memory");
    drop(sink);
    told.push(status).expect(rt, "memory");
    told
}

// Two turns with a rollout of this body are told so.
fn expect_told(rt: &(impl Abort + AllocGlobal), body: &[u8], want: &[u8]) {
    let told = told(rt, body, 2);
    expect_same(rt, &told.as_slice(), &want);
}

#[test]
fn rollouts_are_told(rt: HostRuntime) {
    expect_told(
        &rt,
        b"hi",
        b"events 2\nrollout waiting 0 offered 1 applied 0 failed 0\n\x09",
    );
    let large = vec![in rt.alloc(); 0u8; 1_048_576].expect(&rt, "memory");
    expect_told(&rt, large.as_slice(), b"\x0b");
}

// The reply to it, and the message of the offer: the file `x` with the body `hi`, under the hash of these bytes' message.
const PUSHED: &[u8] =
    b"1:\x00\x0a\x10\x00\x01\x02\x03\x04\x05\x06\x07\x08\x09\x0a\x0b\x0c\x0d\x0e\x0f\x38\x3f|1:\x00\x0a\x10\x00\x01\x02\x03\x04\x05\x06\x07\x08\x09\x0a\x0b\x0c\x0d\x0e\x0f\x1a\x2f\x0a\x0b\x0a\x09\x0a\x01\x78\x12\x04\x0a\x02\x68\x69\x12\x20\x8c\xfc\xbc\x11\x26\xb7\x06\x1e\x6a\x84\xe5\x90\x99\xf4\x2a\xdf\xc7\x13\x82\x3d\xd1\xae\x0a\x1a\x73\x5b\xfe\x6e\x6e\x39\xed\xa3\x38\x3f|\x09";

// With pushes the offer goes out behind the agent's first full report, on its connection, before its next report.
#[test]
fn rollouts_are_pushed(rt: HostRuntime) {
    let events = opened(&rt, Kind::Ws, REPORT);
    let mut wire = MemoryWire::new(rt.alloc(), events, Vec::new(rt.alloc()));
    let mut sink = MemorySink::new(rt.alloc(), 3, Vec::new(rt.alloc()));
    let status = status_of(&rt, b"hi", 2, true, &mut wire, &mut sink);
    drop(sink);
    let mut told = Vec::new(rt.alloc());
    tell(&rt, &mut told, wire.calls());
    drop(wire);
    told.push(status).expect(&rt, "memory");
    expect_same(&rt, &told.as_slice(), &PUSHED);
}
