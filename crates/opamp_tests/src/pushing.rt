// The command `serve --push` by its words, over a wire in memory.
use crate::comparing::expect_same;
use crate::frames::{bytes_of, joined};
use crate::serve::{add, add_piece, put, told};
use edge_devices::{Given, Kind};
use std::process::Abort;

// The first report of the agent with the identifier 00 to 0f, behind the header of WebSocket, and the reply to it, which is also what is pushed to an agent
// that takes no offers.
const REPORT: &str = "00 0a10 U 1001 1a00 208110 2a020801";

const REPLY: &str = "00 0a10 U 383f";

// The line by which an operator has the agent connect to http://h.
const CONNECT: &[u8] = b"connect 00010203-0405-0607-0809-0a0b0c0d0e0f http://h\n";

const CONNECT_AND_STOP: &[u8] = b"connect 00010203-0405-0607-0809-0a0b0c0d0e0f http://h\nstop\n";

// The agent reports on connection 1, and an operator orders and ends the run on connection 2, in two pieces or in one.
fn ordered(rt: &(impl Abort + AllocGlobal), apart: bool) -> Vec<Given> {
    let mut events = Vec::new(rt.alloc());
    let report = bytes_of(rt.alloc(), REPORT).expect(rt, "memory");
    add(rt, &mut events, 1, Kind::Ws, report.as_slice());
    if apart {
        add(rt, &mut events, 2, Kind::Operator, CONNECT);
        add_piece(rt, &mut events, 2, b"stop\n");
    } else {
        add(rt, &mut events, 2, Kind::Operator, CONNECT_AND_STOP);
    }
    events
}

// What goes out, behind the three addresses. An empty part stands for the reply.
fn sent(rt: &(impl Abort + AllocGlobal), reply: &[u8], parts: &[&[u8]], end: &[u8]) -> Vec<u8> {
    let mut all = Vec::new(rt.alloc());
    put(
        rt,
        &mut all,
        b"127.0.0.1:4321|127.0.0.1:4320|127.0.0.1:4322|",
    );
    for part in parts {
        put(rt, &mut all, if part.is_empty() { reply } else { part });
        put(rt, &mut all, b"|");
    }
    put(rt, &mut all, end);
    all
}

// The words, whether the order and `stop` come apart, what goes out and what is written, with the status.
const CASES: [(&str, bool, &[&[u8]], &[u8]); 4] = [
    (
        "serve --push",
        true,
        &[b"", b"ok\n", b"", b"ok\n"],
        b"events 5\n\x00",
    ),
    (
        "serve --push",
        false,
        &[b"", b"ok\n", b"ok\n", b""],
        b"events 4\n\x00",
    ),
    ("serve", true, &[b"", b"ok\n", b"ok\n"], b"events 5\n\x00"),
    ("serve", false, &[b"", b"ok\n", b"ok\n"], b"events 4\n\x00"),
];

// An order is pushed behind its event, behind `stop` too, and nothing is pushed without the flag.
#[test]
fn orders_are_pushed(rt: HostRuntime) {
    let reply = joined(rt.alloc(), &[REPLY]).expect(&rt, "memory");
    for (line, apart, parts, end) in &CASES {
        let told = told(&rt, line, ordered(&rt, *apart));
        let want = sent(&rt, reply.as_slice(), parts, end);
        expect_same(&rt, &told.as_slice(), &want.as_slice());
    }
}
