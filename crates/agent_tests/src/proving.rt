// What becomes of an offered configuration by the collector's word, by two rounds: in the first one the status file tells what the agent can do, and the
// second one's reply has the offer. The bytes follow by hand from the Protocol Buffers encoding guide.

ghost use Rattle.std.specs.Prelude.{◌≡◌, false, IsTrue};
ghost use Rattle.agent_rules.specs.Half.{kept_part};
ghost use Rattle.agent_state.specs.View.{FitsDisk};
ghost use Rattle.edge_devices.specs.MemoryDisks.{memory_disk};

use crate::comparing::expect_same;
use crate::steps::{Start, starts};
use crate::values::{HEALTHY, UID};
use agent_rounds::{Held, QUARTER, round};
use agent_state::Agent;
use agent_store::Layout;
use edge_devices::{
    Area, Folder, MemDisk, MemoryClock, MemoryDialer, MemoryFolder, MemoryLink, name_good,
};
use message_handlers::Handlers;
use plain_values::{Blob, Text};
use std::alloc::Global;
use std::process::Abort;

const START: Start = Start {
    layout: Layout {
        room: 4096,
        log: 2048,
    },
    look: HEALTHY,
    asks_uid: false,
};

// An agent that accepts configurations: the capabilities 0x3.
const ACCEPTS: &[u8] = b"\x20\x03";

// The same with a remote_config_status on the trial `2 68`: APPLIED, FAILED with `no`, and APPLYING; APPLIED on other trials; and bytes that are no report.
const TAKEN: &[u8] = b"\x20\x03\x3a\x08\x0a\x042 68\x10\x01";

const FAILING: &[u8] = b"\x20\x03\x3a\x0c\x0a\x042 68\x10\x03\x1a\x02no";

const SILENT: &[u8] = b"\x20\x03\x3a\x08\x0a\x042 68\x10\x02";

const OTHER_NUMBER: &[u8] = b"\x20\x03\x3a\x08\x0a\x041 68\x10\x01";

const OTHER_HASH: &[u8] = b"\x20\x03\x3a\x08\x0a\x042 69\x10\x01";

const NO_HASH: &[u8] = b"\x20\x03\x3a\x07\x0a\x032 -\x10\x01";

const NO_REPORT: &[u8] = b"\xff";

// The offers of a file `a` with the body `hi` and the hash `h`, and of one without a hash.
const OFFER: &[u8] = b"\x1a\x10\x0a\x0b\x0a\x09\x0a\x01a\x12\x04\x0a\x02hi\x12\x01h";

const UNHASHED: &[u8] = b"\x1a\x0d\x0a\x0b\x0a\x09\x0a\x01a\x12\x04\x0a\x02hi";

// The offer of a file with a name that isn't good, `/`.
const BAD_NAME: &[u8] = b"\x1a\x10\x0a\x0b\x0a\x09\x0a\x01/\x12\x04\x0a\x02hi\x12\x01h";

// How the offer is proved, the status file in its round, if one is there, and the calls of folder and clock that fail, by their numbers from 0. Then the
// status of the offer and its text, how many files are kept and in the area, how many quarters of a second were waited, and how many calls the folder had.
//
// The folder's calls are: 0 the first status file is written; 1 the area is listed and 2 the file is read in the first round; 3 the file is written again or
// removed; 4 it is read in the second round. With a trial its name is 5, the files are 6 and 7, and 8 the first reading; bringing back is two calls.
#[derive(Clone, Copy)]
struct Example {
    name: &'static str,
    prove: Option<u64>,
    offer: &'static [u8],
    status: Option<&'static [u8]>,
    folder: &'static [u64],
    clock: &'static [u64],
    ended: i32,
    told: &'static str,
    files: u64,
    waits: usize,
    calls: usize,
}

const TRIED: Example = Example {
    name: "applied at the first reading",
    prove: Some(1),
    offer: OFFER,
    status: Some(TAKEN),
    folder: &[],
    clock: &[],
    ended: 1,
    told: "",
    files: 1,
    waits: 0,
    calls: 9,
};

const UNTAKEN: Example = Example {
    name: "applying",
    status: Some(SILENT),
    ended: 3,
    told: "not taken",
    files: 0,
    waits: 4,
    calls: 15,
    ..TRIED
};

const EXAMPLES: [Example; 15] = [
    TRIED,
    Example {
        name: "two readings fail",
        folder: &[8, 9],
        waits: 2,
        calls: 11,
        ..TRIED
    },
    Example {
        name: "no hash",
        offer: UNHASHED,
        status: Some(NO_HASH),
        ..TRIED
    },
    Example {
        name: "failed",
        status: Some(FAILING),
        told: "refused: no",
        waits: 0,
        calls: 11,
        ..UNTAKEN
    },
    UNTAKEN,
    Example {
        name: "no file",
        status: None,
        ..UNTAKEN
    },
    Example {
        name: "another number",
        status: Some(OTHER_NUMBER),
        ..UNTAKEN
    },
    Example {
        name: "another hash",
        status: Some(OTHER_HASH),
        ..UNTAKEN
    },
    Example {
        name: "not a report, for two seconds",
        prove: Some(2),
        status: Some(NO_REPORT),
        waits: 8,
        calls: 19,
        ..UNTAKEN
    },
    Example {
        name: "the clock fails at the second wait",
        clock: &[2],
        waits: 1,
        calls: 12,
        ..UNTAKEN
    },
    Example {
        name: "the name can't be written",
        status: Some(TAKEN),
        folder: &[5],
        told: "folder fault",
        waits: 0,
        calls: 6,
        ..UNTAKEN
    },
    Example {
        name: "a bad name",
        offer: BAD_NAME,
        status: Some(TAKEN),
        told: "bad name",
        waits: 0,
        calls: 5,
        ..UNTAKEN
    },
    Example {
        name: "an area that can't be listed",
        status: Some(TAKEN),
        folder: &[6],
        told: "folder fault",
        waits: 0,
        calls: 8,
        ..UNTAKEN
    },
    Example {
        name: "no word is asked for",
        prove: None,
        status: Some(FAILING),
        calls: 7,
        ..TRIED
    },
    Example {
        name: "no word is asked for, and there is none",
        prove: None,
        status: None,
        calls: 7,
        ..TRIED
    },
];

fn text(rt: &(impl Abort + AllocGlobal), text: &str) -> Text {
    Text::from_str(rt.alloc(), text).expect(rt, "memory")
}

// A reply of a server with all capabilities, with this offer.
fn reply(rt: &(impl Abort + AllocGlobal), offer: &[u8]) -> Blob {
    let mut bytes = Vec::from_slice(rt.alloc(), b"\x0a\x10").expect(rt, "memory");
    for byte in UID.as_slice() {
        bytes.push(*byte).expect(rt, "memory");
    }
    for byte in offer {
        bytes.push(*byte).expect(rt, "memory");
    }
    bytes.push(0x38).expect(rt, "memory");
    bytes.push(0x3f).expect(rt, "memory");
    Blob::of(bytes)
}

fn dialer(rt: &(impl Abort + AllocGlobal), first: &[u8], second: &[u8]) -> MemoryDialer {
    let mut answers = Vec::new(rt.alloc());
    answers.push(reply(rt, first)).expect(rt, "memory");
    answers.push(reply(rt, second)).expect(rt, "memory");
    MemoryDialer::new(
        rt.alloc(),
        answers,
        Vec::new(rt.alloc()),
        Vec::new(rt.alloc()),
    )
}

// The status file is this one, or isn't there.
fn tell_status(rt: &(impl Abort + AllocGlobal), folder: &mut MemoryFolder, status: Option<&[u8]>) {
    let name = text(rt, "status.pb");
    assert!(rt; name_good(name.as_str()));
    match status {
        Some(status) => {
            let body = Blob::from_slice(rt.alloc(), status).expect(rt, "memory");
            folder
                .write(rt.alloc(), Area::Status, &name, &body)
                .expect(rt, "a folder");
        }
        None => folder
            .remove(rt.alloc(), Area::Status, &name)
            .expect(rt, "a folder"),
    }
}

// Whether a round goes on.
fn goes_on(
    alloc: Global,
    agent: &mut Agent,
    held: &mut Held<MemoryLink>,
    disk: &mut MemDisk,
    dialer: &mut MemoryDialer,
    folder: &mut MemoryFolder,
    clock: &mut MemoryClock,
) -> bool
    requires idle { agent.old.half.awaits ≡ false }
    requires fits { FitsDisk (memory_disk disk.old) agent.old.store (kept_part agent.old.half) }
    ensures idle { IsTrue result → agent.new.half.awaits ≡ false }
    ensures fits { IsTrue result → FitsDisk (memory_disk disk.new) agent.new.store (kept_part agent.new.half) }
{
    let handlers = Handlers::new(alloc);
    let ended = round(alloc, agent, held, &handlers, disk, dialer, folder, clock);
    drop(handlers);
    match ended {
        Ok(false) => true,
        _ => false,
    }
}

// Two rounds of a fresh agent, in whose second one the status file is this one.
fn two_rounds(
    rt: &(impl Abort + AllocGlobal),
    held: &mut Held<MemoryLink>,
    dialer: &mut MemoryDialer,
    folder: &mut MemoryFolder,
    clock: &mut MemoryClock,
    status: Option<&[u8]>,
) -> Agent {
    let mut disk = MemDisk::new(rt.alloc(), Vec::new(rt.alloc()));
    let mut agent = starts(rt, &mut disk, START);
    assert!(rt; !agent.awaits());
    tell_status(rt, folder, Some(ACCEPTS));
    let first = goes_on(
        rt.alloc(),
        &mut agent,
        held,
        &mut disk,
        dialer,
        folder,
        clock,
    );
    assert!(rt; first, "the first round ended");
    tell_status(rt, folder, status);
    let second = goes_on(
        rt.alloc(),
        &mut agent,
        held,
        &mut disk,
        dialer,
        folder,
        clock,
    );
    assert!(rt; second, "the second round ended");
    drop(disk);
    agent
}

// How many of the waits were of a quarter of a second.
fn quarters(waits: &[u64]) -> usize {
    let mut count = 0usize;
    for wait in waits {
        if *wait == QUARTER {
            count = count.saturating_add(1);
        }
    }
    count
}

fn expect_kept(rt: &impl Abort, agent: &Agent, example: &Example) {
    let saved = agent.saved();
    let name = example.name;
    expect_same(rt, &(name, saved.remote.status), &(name, example.ended));
    let told = saved.remote.error_message.as_str();
    expect_same(rt, &(name, told), &(name, example.told));
    let files = saved.config.config_map.len();
    expect_same(rt, &(name, files), &(name, example.files));
}

fn expect_folder(rt: &(impl Abort + AllocGlobal), folder: &mut MemoryFolder, example: &Example) {
    let name = example.name;
    let calls = folder.calls().len();
    expect_same(rt, &(name, calls), &(name, example.calls));
    let names = folder
        .names(rt.alloc(), Area::Config)
        .expect(rt, "the names");
    let files = names.as_slice().len() as u64;
    expect_same(rt, &(name, files), &(name, example.files));
    drop(names);
}

fn expect(rt: &(impl Abort + AllocGlobal), example: &Example) {
    let failing = Vec::from_slice(rt.alloc(), example.folder).expect(rt, "memory");
    let mut folder = MemoryFolder::new(rt.alloc(), failing);
    let stopped = Vec::from_slice(rt.alloc(), example.clock).expect(rt, "memory");
    let mut clock = MemoryClock::new(rt.alloc(), stopped);
    let mut dialer = dialer(rt, b"", example.offer);
    let mut held = Held::new(example.prove);
    let agent = two_rounds(
        rt,
        &mut held,
        &mut dialer,
        &mut folder,
        &mut clock,
        example.status,
    );
    expect_kept(rt, &agent, example);
    let waits = quarters(clock.waits());
    expect_same(rt, &(example.name, waits), &(example.name, example.waits));
    expect_folder(rt, &mut folder, example);
    drop(agent);
    drop(held);
    drop(dialer);
    drop(clock);
    drop(folder);
}

#[test]
fn offers_are_proved(rt: HostRuntime) {
    for example in &EXAMPLES {
        expect(&rt, example);
    }
}
