//! An agent that is offered a configuration while it waits for its next report.

use crate::files::{holds, tell};
use crate::operator::Operator;
use crate::runs::{KNOWN, run_rounds};
use crate::servers::{Addresses, serve_offers};
use edge_devices::{Area, MemDisk, MemoryFolder, MemorySink};
use std::net::Net;
use std::process::Abort;
use std::random::RandomSource;
use std::thread::join;
use std::time::Clock;

const AT: Addresses = Addresses {
    ws: "127.0.0.1:24346",
    http: "127.0.0.1:24347",
    operator: "127.0.0.1:24348",
};

const SECOND: u64 = 1_000_000_000;

const CONFIG: &[u8] = b"config ffffffff-ffff-4fff-bfff-ffffffffffff x - 6869";

const RESTART: &[u8] = b"restart ffffffff-ffff-4fff-bfff-ffffffffffff";

// Whether both ends have the flag, what an operator says in the waits, and how long they are together, at least and at most.
#[derive(Clone, Copy)]
struct Course {
    push: bool,
    lines: &'static [&'static [u8]],
    least: u64,
    most: u64,
}

// Waits go in seconds. The push of the first line ends its wait, within three of them, and the second report has the offer with its answer: one that came later
// would find the order to restart in its place. The push of that order brings the third report, which says what became of the offer, within six seconds in all.
const PUSHED: Course = Course {
    push: true,
    lines: &[CONFIG, b"", b"", RESTART],
    least: 0,
    most: 6 * SECOND,
};

// Each wait is one of the whole interval.
const PLAIN: Course = Course {
    push: false,
    lines: &[CONFIG, RESTART],
    least: 60 * SECOND,
    most: 60 * SECOND,
};

// Runs the agent beside an operator, looks at what the server knows of it, and gives how many nanoseconds were to be waited.
fn operate<R: Abort + AllocGlobal + Net + Clock + RandomSource + Copy + Drop>(
    rt: R,
    course: Course,
    disk: &mut MemDisk,
    folder: &mut MemoryFolder,
    sink: &mut MemorySink,
) -> u64 {
    let mut operator = Operator::new(rt, AT.operator, course.lines, 1, SECOND);
    run_rounds(
        rt,
        "ws://127.0.0.1:24346/v1/opamp",
        course.push,
        disk,
        folder,
        &mut operator,
        sink,
    );
    let known = operator.is_told(&rt, b"show ffffffff-ffff-4fff-bfff-ffffffffffff\n", KNOWN);
    let waited = operator.waited();
    let ended = operator.ends();
    drop(operator);
    assert!(rt; ended, "a line was refused");
    assert!(rt; known, "the server doesn't know it");
    waited
}

// Runs the agent over these files, and looks at what it wrote and at how long it took.
fn run_over<R: Abort + AllocGlobal + Net + Clock + RandomSource + Copy + Drop>(
    rt: R,
    course: Course,
    folder: &mut MemoryFolder,
) {
    let mut disk = MemDisk::new(rt.alloc(), Vec::new(rt.alloc()));
    let mut sink = MemorySink::new(rt.alloc(), 0, Vec::new(rt.alloc()));
    let waited = operate(rt, course, &mut disk, folder, &mut sink);
    drop(disk);
    assert!(rt; sink.bytes() == b"restart 3\n".as_slice(), "another round");
    drop(sink);
    assert!(rt;
        course.least <= waited && waited <= course.most,
        "another time"
    );
}

// Runs the agent, and looks at what it left.
fn run<R: Abort + AllocGlobal + Net + Clock + RandomSource + Copy + Drop>(rt: R, course: Course) {
    let mut folder = MemoryFolder::new(rt.alloc(), Vec::new(rt.alloc()));
    tell(&rt, &mut folder);
    run_over(rt, course, &mut folder);
    assert!(rt;
        holds(&rt, &mut folder, Area::Config, "x", b"hi"),
        "no configuration"
    );
    drop(folder);
}

// An offer is there long before the interval of 30 seconds is over where both ends have the flag, and behind it where they haven't.
#[test]
fn offers_are_pushed(rt: HostRuntime) {
    for course in [PUSHED, PLAIN] {
        join(
            &rt,
            || serve_offers(&rt, AT, course.push),
            || run(&rt, course),
        );
    }
}
