//! Reports: whole ones and those of the changes, over restarts, and what is told of components.
// The expected bytes follow by hand from the rules of reports and from the Protocol Buffers encoding guide; the hashes are from Python's hashlib.

use crate::steps::{
    LAYOUT, Start, Told, changes, from, gives_up, has_to_say, hears, reports, reports_as, starts,
    tells_at_start,
};
use crate::values::{Answer, HEALTHY, Look, PLAIN, UID, UNWELL, local};
use edge_devices::{Disk, MemDisk};
use std::process::Abort;

// It asks for an identifier.
const ASKS: Start = Start {
    layout: LAYOUT,
    look: HEALTHY,
    asks_uid: true,
};

// An empty description, the capabilities 0x801, that it is healthy, and no custom capabilities.
const FIRST: Told = Told {
    number: 1,
    whole: true,
    rest: b"\x10\x01\x1a\x00\x20\x81\x10\x2a\x02\x08\x01\x62\x00",
};

// The capabilities, that it is not healthy, and the error `no`.
const FAILED: Told = Told {
    number: 2,
    whole: false,
    rest: b"\x10\x02\x20\x81\x10\x2a\x04\x1a\x02\x6e\x6f",
};

const NOTHING_NEW: Told = Told {
    number: 2,
    whole: false,
    rest: b"\x10\x02\x20\x81\x10",
};

const WHOLE_AGAIN: Told = Told {
    number: 2,
    whole: true,
    rest: b"\x10\x02\x1a\x00\x20\x81\x10\x2a\x02\x08\x01\x62\x00",
};

const AFTER_RESTART: Told = Told {
    number: 1025,
    whole: true,
    rest: b"\x10\x81\x08\x1a\x00\x20\x81\x10\x2a\x04\x1a\x02\x6e\x6f\x62\x00",
};

// With the flag RequestInstanceUid.
const ASKING: Told = Told {
    number: 1,
    whole: true,
    rest: b"\x10\x01\x1a\x00\x20\x81\x10\x2a\x02\x08\x01\x50\x01\x62\x00",
};

const RENAMED_AFTER_RESTART: Told = Told {
    number: 1025,
    whole: true,
    rest: b"\x10\x81\x08\x1a\x00\x20\x81\x10\x2a\x02\x08\x01\x62\x00",
};

// With the custom message of the capability `c`, the type `t` and the data `d`.
const SAYING: Told = Told {
    number: 1,
    whole: true,
    rest: b"\x10\x01\x1a\x00\x20\x81\x10\x2a\x02\x08\x01\x62\x00\x6a\x09\x0a\x01\x63\x12\x01\x74\x1a\x01\x64",
};

const NEW_UID: [u8; 16] = [0xff; 16];

fn loses_a_delta(rt: &(impl Abort + AllocGlobal), disk: &mut MemDisk) {
    let mut agent = starts(rt, disk, from(HEALTHY));
    reports(rt, disk, &mut agent, FIRST);
    hears(rt, disk, &mut agent, PLAIN, "");
    changes(&mut agent, local(rt, UNWELL));
    reports(rt, disk, &mut agent, FAILED);
    gives_up(rt, &mut agent);
    drop(agent);
}

fn tells_all_again(rt: &(impl Abort + AllocGlobal), disk: &mut MemDisk) {
    let mut agent = starts(rt, disk, from(UNWELL));
    reports(rt, disk, &mut agent, AFTER_RESTART);
    hears(rt, disk, &mut agent, PLAIN, "");
    drop(agent);
}

#[test]
fn delta_lost_then_restart(rt: HostRuntime) {
    let mut disk = MemDisk::new(rt.alloc(), Vec::new(rt.alloc()));
    loses_a_delta(&rt, &mut disk);
    tells_all_again(&rt, &mut disk);
}

const ASKS_FULL: Answer = Answer { flags: 1, ..PLAIN };

const REFUSES: Answer = Answer {
    error: Some("later"),
    ..PLAIN
};

const RESTARTS: Answer = Answer {
    command: Some(0),
    flags: 1,
    ..PLAIN
};

const OTHER_COMMAND: Answer = Answer {
    command: Some(1),
    ..PLAIN
};

// An answer, what it asks for, and the report after it.
const ANSWERS: [(&Answer, &str, &Told); 5] = [
    (&PLAIN, "", &NOTHING_NEW),
    (&ASKS_FULL, "full", &WHOLE_AGAIN),
    (&REFUSES, "error", &WHOLE_AGAIN),
    (&RESTARTS, "restart", &NOTHING_NEW),
    (&OTHER_COMMAND, "", &NOTHING_NEW),
];

// The first report of a healthy agent, its answer, and whether the report after it is this one.
fn tells_after(rt: &(impl Abort + AllocGlobal), answer: &Answer, words: &str, told: &Told) -> bool {
    let mut disk = MemDisk::new(rt.alloc(), Vec::new(rt.alloc()));
    let mut agent = starts(rt, &mut disk, from(HEALTHY));
    reports(rt, &mut disk, &mut agent, FIRST);
    hears(rt, &mut disk, &mut agent, *answer, words);
    let is_so = reports_as(rt, &mut disk, &mut agent, UID, *told);
    drop(agent);
    is_so
}

#[test]
fn answers_and_the_report_after_them(rt: HostRuntime) {
    for (answer, words, told) in &ANSWERS {
        assert!(rt; tells_after(&rt, answer, words, told), "{words}");
    }
}

fn is_renamed(rt: &(impl Abort + AllocGlobal), disk: &mut MemDisk) {
    let named = Answer {
        new_uid: Some(NEW_UID),
        ..PLAIN
    };
    let mut agent = starts(rt, disk, ASKS);
    reports(rt, disk, &mut agent, ASKING);
    hears(rt, disk, &mut agent, named, "");
    let is_so = reports_as(rt, disk, &mut agent, NEW_UID, WHOLE_AGAIN);
    drop(agent);
    assert!(rt; is_so);
}

#[test]
fn identifier_is_asked_for_and_kept(rt: HostRuntime) {
    let mut disk = MemDisk::new(rt.alloc(), Vec::new(rt.alloc()));
    is_renamed(&rt, &mut disk);
    assert!(rt; tells_at_start(&rt, &mut disk, ASKS, NEW_UID, RENAMED_AFTER_RESTART));
}

#[test]
fn message_is_sent_once(rt: HostRuntime) {
    let mut disk = MemDisk::new(rt.alloc(), Vec::new(rt.alloc()));
    let mut agent = starts(&rt, &mut disk, from(HEALTHY));
    has_to_say(&rt, &mut agent);
    reports(&rt, &mut disk, &mut agent, SAYING);
    hears(&rt, &mut disk, &mut agent, PLAIN, "");
    reports(&rt, &mut disk, &mut agent, NOTHING_NEW);
    drop(agent);
}

// It is obliged to tell its components, and has none: the empty hash is told.
const NO_COMPONENTS: Look = Look {
    capabilities: 0x4801,
    ..HEALTHY
};

const EMPTY_HASH: Told = Told {
    number: 1,
    whole: true,
    rest: b"\x10\x01\x1a\x00\x20\x81\x90\x01\x2a\x02\x08\x01\x62\x00\x72\x00",
};

#[test]
fn no_components(rt: HostRuntime) {
    let mut disk = MemDisk::new(rt.alloc(), Vec::new(rt.alloc()));
    assert!(rt; tells_at_start(&rt, &mut disk, from(NO_COMPONENTS), UID, EMPTY_HASH));
}

const ONE_COMPONENT: Look = Look {
    capabilities: 0x4801,
    error: "",
    components: &["x"],
    components_hash: b"\x35\xd7\x6e\xdd\x44\x71\x94\x3d\xd9\xa9\xd7\x07\x9e\x5d\x11\xb3\x21\x42\x86\xe4\xc8\x4c\x85\xd2\xb2\x93\x2f\x8c\xd3\x15\x77\x63",
};

const TWO_COMPONENTS: Look = Look {
    components: &["x", "y"],
    components_hash: b"\x9b\x27\x07\x96\x2c\xd6\x87\x06\x8d\xba\xb0\xaf\x71\x66\x61\x8c\xd2\x37\x38\x15\xf0\xa5\xb9\x50\x53\xad\x3a\xcb\xf9\x9f\xda\x88",
    ..ONE_COMPONENT
};

const HASH_ALONE: Told = Told {
    number: 1,
    whole: true,
    rest: b"\x10\x01\x1a\x00\x20\x81\x90\x01\x2a\x02\x08\x01\x62\x00\x72\x22\x12\x20\x35\xd7\x6e\xdd\x44\x71\x94\x3d\xd9\xa9\xd7\x07\x9e\x5d\x11\xb3\x21\x42\x86\xe4\xc8\x4c\x85\xd2\xb2\x93\x2f\x8c\xd3\x15\x77\x63",
};

const DETAILS: Told = Told {
    number: 2,
    whole: false,
    rest: b"\x10\x02\x20\x81\x90\x01\x72\x29\x0a\x05\x0a\x01\x78\x12\x00\x12\x20\x35\xd7\x6e\xdd\x44\x71\x94\x3d\xd9\xa9\xd7\x07\x9e\x5d\x11\xb3\x21\x42\x86\xe4\xc8\x4c\x85\xd2\xb2\x93\x2f\x8c\xd3\x15\x77\x63",
};

const NO_DETAILS: Told = Told {
    number: 3,
    whole: false,
    rest: b"\x10\x03\x20\x81\x90\x01",
};

const NEW_DETAILS: Told = Told {
    number: 1025,
    whole: true,
    rest: b"\x10\x81\x08\x1a\x00\x20\x81\x90\x01\x2a\x02\x08\x01\x62\x00\x72\x30\x0a\x05\x0a\x01\x78\x12\x00\x0a\x05\x0a\x01\x79\x12\x00\x12\x20\x9b\x27\x07\x96\x2c\xd6\x87\x06\x8d\xba\xb0\xaf\x71\x66\x61\x8c\xd2\x37\x38\x15\xf0\xa5\xb9\x50\x53\xad\x3a\xcb\xf9\x9f\xda\x88",
};

fn tells_component_once(rt: &(impl Abort + AllocGlobal), disk: &mut MemDisk) {
    let asks_details = Answer { flags: 2, ..PLAIN };
    let mut agent = starts(rt, disk, from(ONE_COMPONENT));
    reports(rt, disk, &mut agent, HASH_ALONE);
    hears(rt, disk, &mut agent, asks_details, "");
    reports(rt, disk, &mut agent, DETAILS);
    hears(rt, disk, &mut agent, PLAIN, "");
    reports(rt, disk, &mut agent, NO_DETAILS);
    drop(agent);
}

#[test]
fn component_is_told_once(rt: HostRuntime) {
    let mut disk = MemDisk::new(rt.alloc(), Vec::new(rt.alloc()));
    tells_component_once(&rt, &mut disk);
}

// Other components than those whose details were answered last are told with details after a start.
#[test]
fn components_after_a_restart(rt: HostRuntime) {
    let mut disk = MemDisk::new(rt.alloc(), Vec::new(rt.alloc()));
    tells_component_once(&rt, &mut disk);
    assert!(rt; tells_at_start(&rt, &mut disk, from(TWO_COMPONENTS), UID, NEW_DETAILS));
}

// The slot of the first save: generation 1, 40 bytes, form 2; the identifier, the limit 1,025, the endpoint `http://s0` and four empty messages.
const FIRST_SLOT: &[u8; 56] =
    b"\x01\x01\x00\x00\x00\x00\x00\x00\x00\x28\x00\x00\x00\x02\x00\x00\x0a\x10\x00\x01\x02\x03\x04\x05\x06\x07\x08\x09\x0a\x0b\x0c\x0d\x0e\x0f\x10\x81\x08\x22\x09\x68\x74\x74\x70\x3a\x2f\x2f\x73\x30\x2a\x00\x42\x00\x4a\x00\x52\x00";

fn has_slot(disk: &mut MemDisk) -> bool {
    let mut read = [0u8; 56];
    disk.read(0, &mut read).is_ok() && read.as_slice() == FIRST_SLOT.as_slice()
}

#[test]
fn numbers_are_kept_before_the_first_report(rt: HostRuntime) {
    let mut disk = MemDisk::new(rt.alloc(), Vec::new(rt.alloc()));
    assert!(rt; tells_at_start(&rt, &mut disk, from(HEALTHY), UID, FIRST));
    assert!(rt; has_slot(&mut disk));
}
