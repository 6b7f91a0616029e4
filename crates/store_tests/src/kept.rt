//! Worked examples of the supervisor's store: what its saves write, byte by byte, and what its loads answer.
// The expected bytes follow by hand from docs/AGENT-RULES.md, "The store", and from the Protocol Buffers encoding guide.

ghost use Rattle.std.specs.Prelude.{IsTrue};
ghost use Rattle.agent_rules.specs.Right.{is_right};

use agent_rules::{Saved, put_saved, read_saved};
use agent_store::{Disk, Layout, MemDisk, Opened, Payload, Store, StoreFail};
use message_codec::wire::Out;
use std::process::Abort;

// The layout of the lab's agent: slots at 0 and 2,097,168, logs at 4,194,336 and 4,259,872.
pub(crate) const LARGE: Layout = Layout {
    room: 2_097_152,
    log: 65_536,
};

// Slots at 0 and 56, logs at 112 and 142. A slot has just the room for the payload below.
const SMALL: Layout = Layout { room: 40, log: 30 };

// The identifier, the limit 1,025, the endpoint `http://s0` and four empty messages: 40 bytes.
pub(crate) const FIRST: &[u8] =
    b"\x0a\x10\x00\x01\x02\x03\x04\x05\x06\x07\x08\x09\x0a\x0b\x0c\x0d\x0e\x0f\x10\x81\x08\x22\x09http://s0\x2a\x00\x42\x00\x4a\x00\x52\x00";

// The same with the limit 2,049.
pub(crate) const NEXT: &[u8] =
    b"\x0a\x10\x00\x01\x02\x03\x04\x05\x06\x07\x08\x09\x0a\x0b\x0c\x0d\x0e\x0f\x10\x81\x10\x22\x09http://s0\x2a\x00\x42\x00\x4a\x00\x52\x00";

// The same as the first with the endpoint `http://s00`, of one byte more.
pub(crate) const LONGER: &[u8] =
    b"\x0a\x10\x00\x01\x02\x03\x04\x05\x06\x07\x08\x09\x0a\x0b\x0c\x0d\x0e\x0f\x10\x81\x08\x22\x0ahttp://s00\x2a\x00\x42\x00\x4a\x00\x52\x00";

// The slot of the first payload, of generation 1, and the same in the older form, which has no log.
pub(crate) const SLOT: &[u8; 56] =
    b"\x01\x01\0\0\0\0\0\0\0\x28\0\0\0\x02\0\0\x0a\x10\x00\x01\x02\x03\x04\x05\x06\x07\x08\x09\x0a\x0b\x0c\x0d\x0e\x0f\x10\x81\x08\x22\x09http://s0\x2a\x00\x42\x00\x4a\x00\x52\x00";

const OLD_SLOT: &[u8] =
    b"\x01\x01\0\0\0\0\0\0\0\x28\0\0\0\x01\0\0\x0a\x10\x00\x01\x02\x03\x04\x05\x06\x07\x08\x09\x0a\x0b\x0c\x0d\x0e\x0f\x10\x81\x08\x22\x09http://s0\x2a\x00\x42\x00\x4a\x00\x52\x00";

// The older form, of the last generation.
const LAST_SLOT: &[u8] =
    b"\x01\xff\xff\xff\xff\xff\xff\xff\xff\x28\0\0\0\x01\0\0\x0a\x10\x00\x01\x02\x03\x04\x05\x06\x07\x08\x09\x0a\x0b\x0c\x0d\x0e\x0f\x10\x81\x08\x22\x09http://s0\x2a\x00\x42\x00\x4a\x00\x52\x00";

// The slot of the second payload, of generation 2.
const NEXT_SLOT: &[u8] =
    b"\x01\x02\0\0\0\0\0\0\0\x28\0\0\0\x02\0\0\x0a\x10\x00\x01\x02\x03\x04\x05\x06\x07\x08\x09\x0a\x0b\x0c\x0d\x0e\x0f\x10\x81\x10\x22\x09http://s0\x2a\x00\x42\x00\x4a\x00\x52\x00";

pub(crate) fn value_of(rt: &(impl Abort + AllocGlobal), payload: &[u8]) -> Saved
    ensures right { IsTrue (is_right result) }
{
    let Ok(Some(saved)) = read_saved(rt.alloc(), payload) else {
        panic!(rt; "no value");
    };
    saved
}

// Loads, and saves the value of these bytes.
fn save(
    rt: &(impl Abort + AllocGlobal),
    disk: &mut MemDisk,
    layout: Layout,
    payload: &[u8],
) -> Result<(), StoreFail> {
    let next = value_of(rt, payload);
    let (mut store, opened) = Store::load::<Saved, MemDisk>(rt.alloc(), disk, layout).expect(
        rt, "a load",
    );
    drop(opened);
    store.save(disk, &next)
}

// Whether the disk has these bytes there.
fn is_at(rt: &(impl Abort + AllocGlobal), disk: &mut MemDisk, at: u32, bytes: &[u8]) -> bool {
    assert!(rt; bytes.len() <= 100);
    let mut read = vec![in rt.alloc(); 0; bytes.len()].expect(rt, "memory");
    disk.read(u64::from(at), &mut read).expect(rt, "a read");
    read.as_slice() == bytes
}

fn write(rt: &impl Abort, disk: &mut MemDisk, at: u32, bytes: &[u8]) {
    assert!(rt; bytes.len() <= 100);
    disk.write_at(u64::from(at), bytes).expect(rt, "a write");
}

pub(crate) fn is_written_as(
    rt: &(impl Abort + AllocGlobal),
    saved: &Saved,
    payload: &[u8],
) -> bool {
    if saved.len() > 100 {
        return false;
    }
    let mut out = Out::new(rt.alloc());
    put_saved(&mut out, saved).expect(rt, "memory");
    out.as_slice() == payload
}

// Whether this is the value of these bytes, or nothing where there are none.
pub(crate) fn is_opened_as(
    rt: &(impl Abort + AllocGlobal),
    opened: &Opened<Saved>,
    payload: &[u8],
) -> bool {
    match opened {
        Opened::Fresh => payload.is_empty(),
        Opened::Kept(saved) => is_written_as(rt, saved, payload),
    }
}

// Whether a load gives the value of these bytes, nothing where there are none, or that this slot is damaged.
fn opens_as(
    rt: &(impl Abort + AllocGlobal),
    disk: &mut MemDisk,
    layout: Layout,
    expected: Result<&[u8], u32>,
) -> bool {
    match Store::load::<Saved, MemDisk>(rt.alloc(), disk, layout) {
        Ok((_, opened)) => {
            let is_so = match expected {
                Ok(payload) => is_opened_as(rt, &opened, payload),
                Err(_) => false,
            };
            drop(opened);
            is_so
        }
        Err(StoreFail::Damaged { slot }) => expected == Err(slot),
        Err(fail) => panic!(rt; "{fail:?}"),
    }
}

#[test]
fn first_save_in_bytes(rt: HostRuntime) {
    let mut disk = MemDisk::new(rt.alloc(), Vec::new(rt.alloc()));
    assert!(rt; opens_as(&rt, &mut disk, LARGE, Ok(b"")));
    assert!(rt; save(&rt, &mut disk, LARGE, FIRST).is_ok());
    assert!(rt; is_at(&rt, &mut disk, 0, SLOT));
    assert!(rt; is_at(&rt, &mut disk, 4_194_336, b"\0"));
    assert!(rt; is_at(&rt, &mut disk, 2_097_168, b"\0"));
    assert!(rt; opens_as(&rt, &mut disk, LARGE, Ok(FIRST)));
}

#[test]
fn second_save_is_an_entry(rt: HostRuntime) {
    let mut disk = MemDisk::new(rt.alloc(), Vec::new(rt.alloc()));
    write(&rt, &mut disk, 0, SLOT);
    assert!(rt; save(&rt, &mut disk, LARGE, NEXT).is_ok());
    assert!(rt; is_at(&rt, &mut disk, 0, SLOT));
    assert!(rt;
        is_at(
            &rt,
            &mut disk,
            4_194_336,
            b"\x01\x05\0\0\0\x12\x03\x10\x81\x10\0"
        )
    );
    assert!(rt; is_at(&rt, &mut disk, 2_097_168, b"\0"));
    assert!(rt; opens_as(&rt, &mut disk, LARGE, Ok(NEXT)));
}

// A log of 30 bytes has room for two entries of 10 bytes and a further byte, and for no third.
#[test]
fn full_log_makes_a_checkpoint(rt: HostRuntime) {
    let mut disk = MemDisk::new(rt.alloc(), Vec::new(rt.alloc()));
    for payload in [FIRST, NEXT, FIRST, NEXT] {
        assert!(rt; save(&rt, &mut disk, SMALL, payload).is_ok());
    }
    assert!(rt; is_at(&rt, &mut disk, 0, SLOT));
    assert!(rt;
        is_at(
            &rt,
            &mut disk,
            112,
            b"\x01\x05\0\0\0\x12\x03\x10\x81\x10\x01\x05\0\0\0\x12\x03\x10\x81\x08\0"
        )
    );
    assert!(rt; is_at(&rt, &mut disk, 56, NEXT_SLOT));
    assert!(rt; is_at(&rt, &mut disk, 142, b"\0"));
}

#[test]
fn old_form_is_kept(rt: HostRuntime) {
    let mut disk = MemDisk::new(rt.alloc(), Vec::new(rt.alloc()));
    write(&rt, &mut disk, 0, OLD_SLOT);
    assert!(rt; opens_as(&rt, &mut disk, LARGE, Ok(FIRST)));
    assert!(rt; save(&rt, &mut disk, LARGE, NEXT).is_ok());
    assert!(rt; is_at(&rt, &mut disk, 0, OLD_SLOT));
    assert!(rt; is_at(&rt, &mut disk, 2_097_168, NEXT_SLOT));
    assert!(rt; is_at(&rt, &mut disk, 4_259_872, b"\0"));
}

#[test]
fn generation_spent(rt: HostRuntime) {
    let mut disk = MemDisk::new(rt.alloc(), Vec::new(rt.alloc()));
    write(&rt, &mut disk, 0, LAST_SLOT);
    assert!(rt; opens_as(&rt, &mut disk, LARGE, Ok(FIRST)));
    let saved = save(&rt, &mut disk, LARGE, NEXT);
    assert!(rt; matches!(saved, Err(StoreFail::Spent)));
    assert!(rt; is_at(&rt, &mut disk, 0, LAST_SLOT));
    assert!(rt; opens_as(&rt, &mut disk, LARGE, Ok(FIRST)));
}

#[test]
fn too_big_changes_nothing(rt: HostRuntime) {
    let mut disk = MemDisk::new(rt.alloc(), Vec::new(rt.alloc()));
    assert!(rt; save(&rt, &mut disk, SMALL, FIRST).is_ok());
    let saved = save(&rt, &mut disk, SMALL, LONGER);
    assert!(rt; matches!(saved, Err(StoreFail::TooBig)));
    assert!(rt; is_at(&rt, &mut disk, 0, SLOT));
    assert!(rt; opens_as(&rt, &mut disk, SMALL, Ok(FIRST)));
}

#[test]
fn twins_are_damaged(rt: HostRuntime) {
    let mut disk = MemDisk::new(rt.alloc(), Vec::new(rt.alloc()));
    write(&rt, &mut disk, 0, LAST_SLOT);
    write(&rt, &mut disk, 2_097_168, LAST_SLOT);
    assert!(rt; opens_as(&rt, &mut disk, LARGE, Err(0)));
}

// Bytes that are written over a disk with the first slot, where, and what a load then gives: the value of these bytes, or that a slot is damaged.
const IMAGES: [(u32, &[u8], Result<&[u8], u32>); 17] = [
    // a gate that isn't 1
    (0, b"\x02", Ok(b"")),
    // a form that isn't known, a length above the room, a cut payload, the limit 0, another endpoint
    (13, b"\x03", Err(0)),
    (13, b"\0", Err(0)),
    (9, b"\x29", Err(0)),
    (9, b"\x27", Err(0)),
    (35, b"\x80\0", Err(0)),
    (39, b"ftpp", Err(0)),
    // an entry, and such behind a closed gate
    (112, b"\x01\x05\0\0\0\x12\x03\x10\x81\x10\0", Ok(NEXT)),
    (112, b"\0\x05\0\0\0\x12\x03\x10\x81\x10\0", Ok(FIRST)),
    (112, b"\xff\x05\0\0\0\x12\x03\x10\x81\x10\0", Ok(FIRST)),
    // an entry that passes the log's end, a cut one, one that leaves no limit
    (112, b"\x01\x1c\0\0\0\x12\x03\x10\x81\x10\0", Err(0)),
    (112, b"\x01\x04\0\0\0\x12\x03\x10\x81\x10\0", Err(0)),
    (112, b"\x01\x02\0\0\0\x12\0\0", Err(0)),
    // a slot of a greater generation counts, in both forms; it isn't right, though the former one is
    (56, NEXT_SLOT, Ok(NEXT)),
    (
        56,
        b"\x01\x02\0\0\0\0\0\0\0\x28\0\0\0\x01\0\0\x0a\x10\x00\x01\x02\x03\x04\x05\x06\x07\x08\x09\x0a\x0b\x0c\x0d\x0e\x0f\x10\x81\x10\x22\x09http://s0\x2a\x00\x42\x00\x4a\x00\x52\x00",
        Ok(NEXT),
    ),
    (56, b"\x01\x02\0\0\0\0\0\0\0\0\0\0\0\x02", Err(1)),
    // one of a smaller generation isn't read
    (56, b"\x01\0\0\0\0\0\0\0\0\0\0\0\0\x09", Ok(FIRST)),
];

fn is_read(
    rt: &(impl Abort + AllocGlobal),
    at: u32,
    bytes: &[u8],
    expected: Result<&[u8], u32>,
) -> bool {
    let mut disk = MemDisk::new(rt.alloc(), Vec::new(rt.alloc()));
    write(rt, &mut disk, 0, SLOT);
    write(rt, &mut disk, at, bytes);
    opens_as(rt, &mut disk, SMALL, expected)
}

#[test]
fn images_are_read(rt: HostRuntime) {
    for (at, bytes, expected) in &IMAGES {
        assert!(rt; is_read(&rt, *at, bytes, *expected), "at {at}");
    }
}
