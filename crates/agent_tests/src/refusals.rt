//! Calls that are refused, each with its cause, and what they leave.
// The images follow by hand from docs/AGENT-RULES.md, "The store".

ghost use Rattle.std.specs.Prelude.{◌<◌, ◌^◌, length};

use crate::comparing::expect_same;
use crate::steps::{
    Start, Told, changes, from, hears, lesson_has_no_room, packages_end, reply_is_to_another,
    report_is_too_large, reported, reports, starts, tells_at_start,
};
use crate::values::{Answer, HEALTHY, PLAIN, UID, local};
use agent_rules::{AgentFail, LocalState};
use agent_store::Layout;
use edge_devices::{Disk, MemDisk, Mode};
use plain_values::Text;
use std::process::Abort;

const FIRST: Told = Told {
    number: 1,
    whole: true,
    rest: b"\x10\x01\x1a\x00\x20\x81\x10\x2a\x02\x08\x01\x62\x00",
};

const NOTHING_NEW: Told = Told {
    number: 2,
    whole: false,
    rest: b"\x10\x02\x20\x81\x10",
};

const FROM_IMAGE: Told = Told {
    number: 18446744073709550591,
    whole: true,
    rest: b"\x10\xff\xf7\xff\xff\xff\xff\xff\xff\xff\x01\x1a\x00\x20\x81\x10\x2a\x02\x08\x01\x62\x00",
};

const FROM_OLD_STORE: Told = Told {
    number: 1025,
    whole: true,
    rest: b"\x10\x81\x08\x1a\x00\x20\x81\x10\x2a\x02\x08\x01\x62\x00",
};

// A last error of 4,194,304 letters.
fn long_error(rt: &(impl Abort + AllocGlobal)) -> Text {
    let mut letters = Vec::new(rt.alloc());
    letters.resize(4_194_304, b'a').expect(rt, "memory");
    Text::of(String::from_utf8(letters).expect(rt, "a text"))
}

// What a healthy agent knows of itself, with that error.
fn long_state(rt: &(impl Abort + AllocGlobal)) -> LocalState {
    let mut long = local(rt, HEALTHY);
    long.health.last_error = long_error(rt);
    long
}

#[test]
fn too_large_report_takes_no_number(rt: HostRuntime) {
    let mut disk = MemDisk::new(rt.alloc(), Vec::new(rt.alloc()));
    let mut agent = starts(&rt, &mut disk, from(HEALTHY));
    changes(&mut agent, long_state(&rt));
    report_is_too_large(&rt, &mut disk, &mut agent);
    changes(&mut agent, local(&rt, HEALTHY));
    reports(&rt, &mut disk, &mut agent, FIRST);
    drop(agent);
}

#[test]
fn reply_to_another_agent(rt: HostRuntime) {
    let to_another = Answer {
        to: [7; 16],
        flags: 1,
        ..PLAIN
    };
    let mut disk = MemDisk::new(rt.alloc(), Vec::new(rt.alloc()));
    let mut agent = starts(&rt, &mut disk, from(HEALTHY));
    reports(&rt, &mut disk, &mut agent, FIRST);
    reply_is_to_another(&rt, &mut disk, &mut agent, to_another);
    hears(&rt, &mut disk, &mut agent, PLAIN, "");
    reports(&rt, &mut disk, &mut agent, NOTHING_NEW);
    drop(agent);
}

// There is room for the first part, of 40 bytes, and for no longer one.
const SMALL: Start = Start {
    layout: Layout { room: 40, log: 30 },
    look: HEALTHY,
    asks_uid: false,
};

#[test]
fn more_than_there_is_room_for(rt: HostRuntime) {
    let named = Answer {
        new_uid: Some([0xff; 16]),
        ..PLAIN
    };
    let mut disk = MemDisk::new(rt.alloc(), Vec::new(rt.alloc()));
    let mut agent = starts(&rt, &mut disk, SMALL);
    reports(&rt, &mut disk, &mut agent, FIRST);
    lesson_has_no_room(&rt, &mut disk, &mut agent, named);
    packages_end(&rt, &mut disk, &mut agent, b"h", Err(AgentFail::TooLarge));
    hears(&rt, &mut disk, &mut agent, PLAIN, "");
    reports(&rt, &mut disk, &mut agent, NOTHING_NEW);
    drop(agent);
}

// The first device call of the report's save is stopped.
fn stops_report(rt: &(impl Abort + AllocGlobal), disk: &mut MemDisk) {
    let mut agent = starts(rt, disk, from(HEALTHY));
    disk.arm(1);
    let refused = reported(rt, disk, &mut agent).err();
    let is_so = !agent.awaits() && agent.broken() && disk.stopped();
    drop(agent);
    expect_same(rt, &refused, &Some(AgentFail::StoreFault));
    assert!(rt; is_so);
}

#[test]
fn first_send_stopped(rt: HostRuntime) {
    let mut disk = MemDisk::new(rt.alloc(), Vec::new(rt.alloc()));
    stops_report(&rt, &mut disk);
    disk.crash(Mode::Torn);
    assert!(rt; tells_at_start(&rt, &mut disk, from(HEALTHY), UID, FIRST));
}

// The limit 2^64 - 1; the limit 1,025 in the older form, with the last generation and with another one; the last limit at which a
// block can be reserved.
const NO_NUMBER: &[u8] =
    b"\x01\x01\x00\x00\x00\x00\x00\x00\x00\x30\x00\x00\x00\x02\x00\x00\x0a\x10\x00\x01\x02\x03\x04\x05\x06\x07\x08\x09\x0a\x0b\x0c\x0d\x0e\x0f\x10\xff\xff\xff\xff\xff\xff\xff\xff\xff\x01\x22\x09\x68\x74\x74\x70\x3a\x2f\x2f\x73\x30\x2a\x00\x42\x00\x4a\x00\x52\x00";

const NO_GENERATION: &[u8] =
    b"\x01\xff\xff\xff\xff\xff\xff\xff\xff\x28\x00\x00\x00\x01\x00\x00\x0a\x10\x00\x01\x02\x03\x04\x05\x06\x07\x08\x09\x0a\x0b\x0c\x0d\x0e\x0f\x10\x81\x08\x22\x09\x68\x74\x74\x70\x3a\x2f\x2f\x73\x30\x2a\x00\x42\x00\x4a\x00\x52\x00";

const OLD_STORE: &[u8] =
    b"\x01\x01\x00\x00\x00\x00\x00\x00\x00\x28\x00\x00\x00\x01\x00\x00\x0a\x10\x00\x01\x02\x03\x04\x05\x06\x07\x08\x09\x0a\x0b\x0c\x0d\x0e\x0f\x10\x81\x08\x22\x09\x68\x74\x74\x70\x3a\x2f\x2f\x73\x30\x2a\x00\x42\x00\x4a\x00\x52\x00";

const LAST_BLOCK: &[u8] =
    b"\x01\x01\x00\x00\x00\x00\x00\x00\x00\x30\x00\x00\x00\x02\x00\x00\x0a\x10\x00\x01\x02\x03\x04\x05\x06\x07\x08\x09\x0a\x0b\x0c\x0d\x0e\x0f\x10\xff\xf7\xff\xff\xff\xff\xff\xff\xff\x01\x22\x09\x68\x74\x74\x70\x3a\x2f\x2f\x73\x30\x2a\x00\x42\x00\x4a\x00\x52\x00";

fn disk_of(rt: &(impl Abort + AllocGlobal), image: &[u8]) -> MemDisk
    requires { length image.now < 2 ^ 32 }
{
    let mut disk = MemDisk::new(rt.alloc(), Vec::new(rt.alloc()));
    disk.write_at(0, image).expect(rt, "a write");
    disk
}

// No number is left for the report of an agent that starts from this disk.
fn has_no_number(rt: &(impl Abort + AllocGlobal), mut disk: MemDisk) {
    let mut agent = starts(rt, &mut disk, from(HEALTHY));
    let refused = reported(rt, &mut disk, &mut agent).err();
    let awaits = agent.awaits();
    drop(agent);
    expect_same(rt, &refused, &Some(AgentFail::NumbersSpent));
    assert!(rt; !awaits);
}

// An agent that starts from this disk makes this report.
fn goes_on(rt: &(impl Abort + AllocGlobal), mut disk: MemDisk, told: Told) {
    assert!(rt; tells_at_start(rt, &mut disk, from(HEALTHY), UID, told));
}

#[test]
fn numbers_are_spent(rt: HostRuntime) {
    has_no_number(&rt, disk_of(&rt, NO_NUMBER));
    has_no_number(&rt, disk_of(&rt, NO_GENERATION));
    goes_on(&rt, disk_of(&rt, OLD_STORE), FROM_OLD_STORE);
    goes_on(&rt, disk_of(&rt, LAST_BLOCK), FROM_IMAGE);
}
