// Runs of `serve`, with what they wrote and their status.
use crate::comparing::expect_same;
use crate::healthy::Healthy;
use command_serve::run_serve;
use command_words::ServeOptions;
use edge_devices::{Given, Kind, MemoryEntropy, MemorySink, MemoryWire, WireCall, WireEvent};
use message_handlers::Handlers;
use plain_values::{Blob, Text};
use server_waves::FnJudge;
use std::process::Abort;

pub fn text(rt: &(impl Abort + AllocGlobal), text: &str) -> Text {
    Text::of(String::from_str(rt.alloc(), text).expect(rt, "memory"))
}

// Options whose addresses are one letter each.
pub fn options(rt: &(impl Abort + AllocGlobal), turns: u64, push: bool) -> ServeOptions {
    ServeOptions {
        ws: text(rt, "w"),
        http: text(rt, "h"),
        operator: text(rt, "o"),
        turns,
        agents: 16_384,
        connections: 1_024,
        push,
        journal: false,
    }
}

// A connection with the number 1 of this kind, on which these bytes come.
pub fn opened(rt: &(impl Abort + AllocGlobal), kind: Kind, bytes: &[u8]) -> Vec<Given> {
    let mut events = Vec::new(rt.alloc());
    let event = WireEvent::Opened { conn: 1, kind };
    events.push(Given { at: 0, event }).expect(rt, "memory");
    add_piece(rt, &mut events, bytes);
    events
}

// These bytes come on it.
fn add_piece(rt: &(impl Abort + AllocGlobal), events: &mut Vec<Given>, bytes: &[u8]) {
    let bytes = Blob::of(Vec::from_slice(rt.alloc(), bytes).expect(rt, "memory"));
    let event = WireEvent::Piece { conn: 1, bytes };
    events.push(Given { at: 0, event }).expect(rt, "memory");
}

// The addresses that were listened to, one letter each.
fn tell(rt: &impl Abort, told: &mut Vec<u8>, calls: &[WireCall]) {
    for call in calls {
        if let WireCall::Listened { address, .. } = call {
            told.extend_from_slice(address.as_str().as_bytes())
                .expect(rt, "memory");
        }
    }
}

// The status of a run over this wire, which writes into the sink.
fn status_of(
    rt: &(impl Abort + AllocGlobal),
    turns: u64,
    push: bool,
    wire: &mut MemoryWire,
    sink: &mut MemorySink,
) -> u8 {
    let options = options(rt, turns, push);
    let handlers = Handlers::new(rt.alloc());
    let mut entropy = MemoryEntropy::new(rt.alloc(), Vec::new(rt.alloc()), Vec::new(rt.alloc()));
    let judge = FnJudge::new(Healthy);
    let mut notes = MemorySink::new(rt.alloc(), 0, Vec::new(rt.alloc()));
    let status = run_serve(
        rt.alloc(),
        &options,
        judge,
        sink,
        &mut notes,
        &handlers,
        wire,
        &mut entropy,
    );
    drop(notes);
    drop(entropy);
    drop(handlers);
    drop(options);
    status.code()
}

// The addresses that were listened to, a blank, what was written, and a byte that is the status. The calls of the wire and of the
// sink with these numbers fail.
fn told(
    rt: &(impl Abort + AllocGlobal),
    line: &[u8],
    turns: u64,
    push: bool,
    failing: &[u64],
    failing_puts: &[u64],
) -> Vec<u8> {
    let events = opened(rt, Kind::Operator, line);
    told_of(rt, events, turns, push, failing, failing_puts)
}

// The same of these events.
fn told_of(
    rt: &(impl Abort + AllocGlobal),
    events: Vec<Given>,
    turns: u64,
    push: bool,
    failing: &[u64],
    failing_puts: &[u64],
) -> Vec<u8> {
    let failing = Vec::from_slice(rt.alloc(), failing).expect(rt, "memory");
    let mut wire = MemoryWire::new(rt.alloc(), events, failing);
    let failing = Vec::from_slice(rt.alloc(), failing_puts).expect(rt, "memory");
    let mut sink = MemorySink::new(rt.alloc(), 3, failing);
    let status = status_of(rt, turns, push, &mut wire, &mut sink);
    let mut told = Vec::new(rt.alloc());
    tell(rt, &mut told, wire.calls());
    drop(wire);
    told.push(b' ').expect(rt, "memory");
    told.extend_from_slice(sink.bytes()).expect(rt, "memory");
    drop(sink);
    told.push(status).expect(rt, "memory");
    told
}

#[test]
fn runs_end(rt: HostRuntime) {
    let cases: [(&[u8], u64, &[u64], &[u64], &[u8]); 9] = [
        (b"stop\n", 9, &[], &[], b"hwo events 2\n\x00"),
        (b"stop\n", 2, &[], &[], b"hwo events 2\n\x00"),
        (b"stop\n", 1, &[], &[], b"hwo events 1\n\x09"),
        // No event is left.
        (b"st", 9, &[], &[], b"hwo \x08"),
        // The first address fails, the second one, the wait for the first event.
        (b"stop\n", 9, &[0], &[], b" \x08"),
        (b"stop\n", 9, &[1], &[], b"h \x08"),
        (b"stop\n", 9, &[3], &[], b"hwo \x08"),
        // The answer to `stop` is lost, which ends the run all the same.
        (b"stop\n", 9, &[5], &[], b"hwo events 2\n\x00"),
        // The sink fails.
        (b"stop\n", 9, &[], &[0], b"hwo eve\x04"),
    ];
    for (line, turns, failing, failing_puts, want) in cases {
        let told = told(&rt, line, turns, false, failing, failing_puts);
        expect_same(&rt, &told.as_slice(), &want);
    }
}

// The wait for a fourth event fails: calls 0 to 2 listen, 3, 4 and 6 give events, and 5 and 7 send answers.
#[test]
fn a_later_wait_fails(rt: HostRuntime) {
    let mut events = opened(&rt, Kind::Operator, b"list\n");
    add_piece(&rt, &mut events, b"list\n");
    let told = told_of(&rt, events, 9, false, &[8], &[]);
    expect_same(&rt, &told.as_slice(), &b"hwo \x08".as_slice());
}

// With pushes a run ends as it does without them.
#[test]
fn pushing_runs_end(rt: HostRuntime) {
    let cases: [(&[u8], u64, &[u8]); 3] = [
        (b"stop\n", 9, b"hwo events 2\n\x00"),
        (b"stop\n", 1, b"hwo events 1\n\x09"),
        (b"st", 9, b"hwo \x08"),
    ];
    for (line, turns, want) in cases {
        let told = told(&rt, line, turns, true, &[], &[]);
        expect_same(&rt, &told.as_slice(), &want);
    }
}
