//! What is noted beside the output: the usage, what was refused or failed, and the addresses of a server.
use crate::comparing::expect_same;
use crate::frames::copy_of;
use crate::lent::{Lent, run_over};
use crate::runs::words_of;
use crate::serve::add;
use edge_devices::{Given, Kind, MemorySink, MemorySource, MemoryWire};
use std::marker::Sync;
use std::process::Abort;
use std::sync::Wait;
use std::thread::Threads;

/// Each command with its options.
pub const USAGE: &str = "usage:\n\
    opamp answer\n\
    opamp canon report|reply\n\
    opamp show report|reply\n\
    opamp check\n\
    opamp simulate\n\
    opamp storm START COUNT\n\
    opamp fleet DESKS\n\
    opamp serve [--ws ADDRESS] [--http ADDRESS] [--operator ADDRESS] [--turns N] [--agents N] [--connections N] [--push] [--journal] [--rollout WIDTH/ALLOWED/NAME/HEX]\n\
    opamp agent [--server ENDPOINT] [--rounds N] [--request-uid] [--push] [--prove SECONDS]\n";

// Words, an input, the calls that fail, and what is noted, with the status. On the wire an operator says `stop`.
#[derive(Clone, Copy)]
struct Example {
    words: &'static str,
    input: &'static [u8],
    takes: &'static [u64],
    puts: &'static [u64],
    wire: &'static [u64],
    notes: &'static [u64],
    noted: &'static str,
    status: u8,
}

// Nothing is read and nothing fails.
const PLAIN: Example = Example {
    words: "serve",
    input: &[],
    takes: &[],
    puts: &[],
    wire: &[],
    notes: &[],
    noted: "",
    status: 0,
};

// A frame whose message is a group.
const GROUP: &[u8] = b"\x00\x00\x00\x01\x0b";

const WORDS: [&str; 8] = [
    "",
    "--help",
    "help",
    "frobnicate",
    "canon",
    "serve now",
    "serve --ws",
    "storm 7 0",
];

const INPUTS: [Example; 8] = [
    Example {
        words: "canon report",
        ..PLAIN
    },
    Example {
        words: "canon report",
        input: GROUP,
        noted: "input: refused\n",
        status: 1,
        ..PLAIN
    },
    Example {
        words: "check",
        input: GROUP,
        noted: "input: refused\n",
        status: 1,
        ..PLAIN
    },
    Example {
        words: "fleet 1",
        input: GROUP,
        noted: "input: refused\n",
        status: 1,
        ..PLAIN
    },
    Example {
        words: "simulate",
        input: b"frobnicate\n",
        noted: "input: refused\n",
        status: 1,
        ..PLAIN
    },
    Example {
        words: "answer",
        takes: &[0],
        noted: "standard input: can't be read\n",
        status: 3,
        ..PLAIN
    },
    Example {
        words: "storm 7 1",
        puts: &[0],
        noted: "standard output: can't be written\n",
        status: 4,
        ..PLAIN
    },
    Example {
        words: "storm 7 1",
        ..PLAIN
    },
];

const SERVERS: [Example; 8] = [
    Example {
        noted: "listening http 127.0.0.1:4321 websocket 127.0.0.1:4320 operators 127.0.0.1:4322\n",
        ..PLAIN
    },
    Example {
        words: "serve --http h --ws w --operator o --turns 1",
        noted: "listening http h websocket w operators o\nturns: all taken\n",
        status: 9,
        ..PLAIN
    },
    Example {
        words: "serve --http h --ws w --operator o --rollout 1/0/x/6869",
        puts: &[0],
        noted: "listening http h websocket w operators o\nstandard output: can't be written\n",
        status: 4,
        ..PLAIN
    },
    Example {
        wire: &[0],
        noted: "address 127.0.0.1:4321: failed\n",
        status: 8,
        ..PLAIN
    },
    Example {
        words: "serve --ws w",
        wire: &[1],
        noted: "address w: failed\n",
        status: 8,
        ..PLAIN
    },
    Example {
        words: "serve --operator o --rollout 1/0/x/6869",
        wire: &[2],
        noted: "address o: failed\n",
        status: 8,
        ..PLAIN
    },
    Example {
        words: "serve --http h --ws w --operator o",
        wire: &[3],
        noted: "listening http h websocket w operators o\nsockets: failed\n",
        status: 8,
        ..PLAIN
    },
    // A note that can't be written changes nothing else.
    Example {
        words: "serve --turns 0",
        notes: &[0],
        noted: "listurns: all taken\n",
        status: 9,
        ..PLAIN
    },
];

// An operator who says `stop`.
fn stopping(rt: &(impl Abort + AllocGlobal)) -> Vec<Given> {
    let mut events = Vec::new(rt.alloc());
    add(rt, &mut events, 1, Kind::Operator, b"stop\n");
    events
}

fn list_of(rt: &(impl Abort + AllocGlobal), items: &[u64]) -> Vec<u64> {
    copy_of(rt.alloc(), items).expect(rt, "memory")
}

fn lent_to(rt: &(impl Abort + AllocGlobal), example: &Example) -> Lent {
    let alloc = rt.alloc();
    let input = copy_of(alloc, example.input).expect(rt, "memory");
    let mut lent = Lent::of(
        alloc,
        MemorySource::new(input, 4_096, list_of(rt, example.takes)),
        MemorySink::new(alloc, 3, list_of(rt, example.puts)),
        MemoryWire::new(alloc, stopping(rt), list_of(rt, example.wire)),
    );
    lent.notes = MemorySink::new(alloc, 3, list_of(rt, example.notes));
    lent
}

fn expect_noted(rt: &(impl Abort + AllocGlobal + Threads + Wait + Sync), example: &Example) {
    let words = words_of(rt.alloc(), example.words).expect(rt, "memory");
    let mut lent = lent_to(rt, example);
    let status = run_over(rt, &words, &mut lent);
    let noted = copy_of(rt.alloc(), lent.notes.bytes()).expect(rt, "memory");
    drop(lent);
    let found = (example.words, noted.as_slice(), status);
    let want = (example.words, example.noted.as_bytes(), example.status);
    expect_same(rt, &found, &want);
}

#[test]
fn words_that_are_not_taken(rt: HostRuntime) {
    for words in WORDS {
        let example = Example {
            words,
            noted: USAGE,
            status: 2,
            ..PLAIN
        };
        expect_noted(&rt, &example);
    }
}

#[test]
fn inputs_are_noted(rt: HostRuntime) {
    for example in &INPUTS {
        expect_noted(&rt, example);
    }
}

#[test]
fn servers_are_noted(rt: HostRuntime) {
    for example in &SERVERS {
        expect_noted(&rt, example);
    }
}
