// The command `serve` by its words, over a wire in memory.
use crate::comparing::expect_same;
use crate::lent::{Lent, run_over};
use crate::runs::words_of;
use edge_devices::{Given, Kind, MemorySink, MemorySource, MemoryWire, WireCall, WireEvent};
use plain_values::{Blob, Text};
use std::marker::Sync;
use std::process::Abort;
use std::sync::Wait;
use std::thread::Threads;

// The report that an agent with the identifier 00 to 0f sends first, by POST.
const POST: &[u8] =
    b"POST /v1/opamp HTTP/1.1\r\nHost: h\r\nContent-Type: application/x-protobuf\r\nContent-Length: 29\r\n\r\n\x0a\x10\x00\x01\x02\x03\x04\x05\x06\x07\x08\x09\x0a\x0b\x0c\x0d\x0e\x0f\x10\x01\x1a\x00\x20\x81\x10\x2a\x02\x08\x01";

const ANSWER: &[u8] =
    b"HTTP/1.1 200 OK\r\nContent-Type: application/x-protobuf\r\nContent-Length: 20\r\n\r\n\x0a\x10\x00\x01\x02\x03\x04\x05\x06\x07\x08\x09\x0a\x0b\x0c\x0d\x0e\x0f\x38\x3f";

// These bytes come on a connection.
pub fn add_piece(
    rt: &(impl Abort + AllocGlobal),
    events: &mut Vec<Given>,
    conn: u64,
    bytes: &[u8],
) {
    let bytes = Blob::of(Vec::from_slice(rt.alloc(), bytes).expect(rt, "memory"));
    events
        .push(Given {
            at: 0,
            event: WireEvent::Piece { conn, bytes },
        })
        .expect(rt, "memory");
}

// A connection of this kind, on which these bytes come.
pub fn add(
    rt: &(impl Abort + AllocGlobal),
    events: &mut Vec<Given>,
    conn: u64,
    kind: Kind,
    bytes: &[u8],
) {
    events
        .push(Given {
            at: 0,
            event: WireEvent::Opened { conn, kind },
        })
        .expect(rt, "memory");
    add_piece(rt, events, conn, bytes);
}

// An agent that reports over HTTP, and an operator who says `stop`.
fn report_and_stop(rt: &(impl Abort + AllocGlobal)) -> Vec<Given> {
    let mut events = Vec::new(rt.alloc());
    add(rt, &mut events, 1, Kind::Http, POST);
    add(rt, &mut events, 2, Kind::Operator, b"stop\n");
    events
}

pub fn put(rt: &impl Abort, told: &mut Vec<u8>, bytes: &[u8]) {
    told.extend_from_slice(bytes).expect(rt, "memory");
}

// Each address that is listened to, and what is sent, each behind a bar.
fn tell(rt: &impl Abort, told: &mut Vec<u8>, calls: &[WireCall]) {
    for call in calls {
        match call {
            WireCall::Listened { address, .. } => {
                put(rt, told, address.as_str().as_bytes());
                put(rt, told, b"|");
            }
            WireCall::Sent { bytes, .. } => {
                put(rt, told, bytes.as_slice());
                put(rt, told, b"|");
            }
            _ => {}
        }
    }
}

// What the words made of the wire, what they wrote, and a byte that is the status.
pub fn told(
    rt: &(impl Abort + AllocGlobal + Threads + Wait + Sync),
    line: &str,
    events: Vec<Given>,
) -> Vec<u8> {
    let words = words_of(rt.alloc(), line).expect(rt, "memory");
    told_of(rt, &words, events)
}

// The same of words that are there.
pub fn told_of(
    rt: &(impl Abort + AllocGlobal + Threads + Wait + Sync),
    words: &[Text],
    events: Vec<Given>,
) -> Vec<u8> {
    let alloc = rt.alloc();
    let mut lent = Lent::of(
        alloc,
        MemorySource::new(Vec::new(alloc), 1, Vec::new(alloc)),
        MemorySink::new(alloc, 3, Vec::new(alloc)),
        MemoryWire::new(alloc, events, Vec::new(alloc)),
    );
    let status = run_over(rt, words, &mut lent);
    let mut told = Vec::new(alloc);
    tell(rt, &mut told, lent.wire.calls());
    put(rt, &mut told, lent.sink.bytes());
    put(rt, &mut told, &[status]);
    drop(lent);
    told
}

#[test]
fn report_is_answered(rt: HostRuntime) {
    let told = told(&rt, "serve --http h", report_and_stop(&rt));
    let mut want = Vec::new(rt.alloc());
    put(&rt, &mut want, b"h|127.0.0.1:4320|127.0.0.1:4322|");
    put(&rt, &mut want, ANSWER);
    put(&rt, &mut want, b"|ok\n|events 4\n\x00");
    expect_same(&rt, &told.as_slice(), &want.as_slice());
}

// The operator's connection is one too many: it is closed at once, and nobody hears `stop`.
#[test]
fn one_connection_at_most(rt: HostRuntime) {
    let told = told(
        &rt,
        "serve --http h --turns 4 --connections 1",
        report_and_stop(&rt),
    );
    let mut want = Vec::new(rt.alloc());
    put(&rt, &mut want, b"h|127.0.0.1:4320|127.0.0.1:4322|");
    put(&rt, &mut want, ANSWER);
    put(&rt, &mut want, b"|events 4\n\x09");
    expect_same(&rt, &told.as_slice(), &want.as_slice());
}

// Words, and what comes of them where an agent reports and an operator says `stop`.
const CASES: [(&str, &[u8]); 15] = [
    (
        "serve --turns 0",
        b"127.0.0.1:4321|127.0.0.1:4320|127.0.0.1:4322|events 0\n\x09",
    ),
    (
        "serve --ws w --http h --operator=o --turns 1",
        b"h|w|o|events 1\n\x09",
    ),
    ("serve --turns +7", b"\x02"),
    ("serve --turns 18446744073709551616", b"\x02"),
    (
        "serve --turns 1 --agents 1",
        b"127.0.0.1:4321|127.0.0.1:4320|127.0.0.1:4322|events 1\n\x09",
    ),
    ("serve --agents 0", b"\x02"),
    ("serve --agents 1048577", b"\x02"),
    (
        "serve --turns 1 --connections 65536",
        b"127.0.0.1:4321|127.0.0.1:4320|127.0.0.1:4322|events 1\n\x09",
    ),
    (
        "serve --turns 1 --journal",
        b"127.0.0.1:4321|127.0.0.1:4320|127.0.0.1:4322|events 1\n\x09",
    ),
    ("serve --journal=yes", b"\x02"),
    ("serve --connections 0", b"\x02"),
    ("serve --connections 65537", b"\x02"),
    ("serve --ws", b"\x02"),
    ("serve now", b"\x02"),
    ("--serve", b"\x02"),
];

#[test]
fn words_of_serve(rt: HostRuntime) {
    for (line, want) in &CASES {
        let told = told(&rt, line, report_and_stop(&rt));
        expect_same(&rt, &(*line, told.as_slice()), &(*line, *want));
    }
}
