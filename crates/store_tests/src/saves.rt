//! Worked examples: what saves write, and what is loaded.

ghost use Rattle.std.specs.Prelude.{◌+◌, ◌<◌, ◌^◌, length, IsTrue};
ghost use Rattle.store_tests.specs.Notes.{is_note};

use crate::notes::Note;
use agent_store::{Disk, Layout, MemDisk, Opened, Payload, Store, StoreFail};
use std::process::Abort;

/// Slots at 0 and 64, logs at 128 and 192.
const LAYOUT: Layout = Layout { room: 48, log: 64 };

// A payload of 40 bytes as an agent saves it first.
const PAYLOAD: &[u8] =
    b"\x0a\x10\x00\x01\x02\x03\x04\x05\x06\x07\x08\x09\x0a\x0b\x0c\x0d\x0e\x0f\x10\x81\x08\x22\x09http://s0\x2a\x00\x42\x00\x4a\x00\x52\x00";

// The slot that it makes in the older form, of generation 1.
const OLD_SLOT: &[u8] =
    b"\x01\x01\0\0\0\0\0\0\0\x28\0\0\0\x01\0\0\x0a\x10\x00\x01\x02\x03\x04\x05\x06\x07\x08\x09\x0a\x0b\x0c\x0d\x0e\x0f\x10\x81\x08\x22\x09http://s0\x2a\x00\x42\x00\x4a\x00\x52\x00";

// And in the form with a log.
const NEW_SLOT: &[u8] =
    b"\x01\x01\0\0\0\0\0\0\0\x28\0\0\0\x02\0\0\x0a\x10\x00\x01\x02\x03\x04\x05\x06\x07\x08\x09\x0a\x0b\x0c\x0d\x0e\x0f\x10\x81\x08\x22\x09http://s0\x2a\x00\x42\x00\x4a\x00\x52\x00";

// The older form, of the last generation.
const LAST_SLOT: &[u8] = b"\x01\xff\xff\xff\xff\xff\xff\xff\xff\x01\0\0\0\x01\0\0\x05";

pub(crate) fn note(rt: &(impl Abort + AllocGlobal), bytes: &[u8]) -> Note
    ensures right { IsTrue (is_note result) }
{
    let note = Note::of(Vec::from_slice(rt.alloc(), bytes).expect(rt, "memory"));
    assert!(rt; note.is_right());
    note
}

// Loads, and saves these bytes.
fn save(
    rt: &(impl Abort + AllocGlobal),
    disk: &mut MemDisk,
    bytes: &[u8],
) -> Result<(), StoreFail> {
    let next = note(rt, bytes);
    let (mut store, _) = Store::load::<Note, MemDisk>(rt.alloc(), disk, LAYOUT).expect(
        rt, "a load",
    );
    store.save(disk, &next)
}

fn is_at(rt: &(impl Abort + AllocGlobal), disk: &mut MemDisk, at: u32, bytes: &[u8]) -> bool
    requires { length bytes.now < 2 ^ 32 }
{
    let mut read = vec![in rt.alloc(); 0; bytes.len()].expect(rt, "memory");
    disk.read(u64::from(at), &mut read).expect(rt, "a read");
    read.as_slice() == bytes
}

fn is_kept(rt: &(impl Abort + AllocGlobal), disk: &mut MemDisk, bytes: &[u8]) -> bool {
    let (_, opened) = Store::load::<Note, MemDisk>(rt.alloc(), disk, LAYOUT).expect(rt, "a load");
    match opened {
        Opened::Fresh => false,
        Opened::Kept(note) => note.as_slice() == bytes,
    }
}

fn disk_of(rt: &(impl Abort + AllocGlobal), at: u32, bytes: &[u8]) -> MemDisk
    requires { length bytes.now < 2 ^ 32 }
{
    let mut disk = MemDisk::new(rt.alloc(), Vec::new(rt.alloc()));
    disk.write_at(u64::from(at), bytes).expect(rt, "a write");
    disk
}

#[test]
fn fresh_disk(rt: HostRuntime) {
    let alloc = rt.alloc();
    let mut disk = MemDisk::new(alloc, Vec::new(alloc));
    let (_, opened) = Store::load::<Note, MemDisk>(alloc, &mut disk, LAYOUT).expect(&rt, "a load");
    assert!(rt; matches!(opened, Opened::Fresh));
}

#[test]
fn first_save_in_bytes(rt: HostRuntime) {
    let mut disk = MemDisk::new(rt.alloc(), Vec::new(rt.alloc()));
    let saved = save(&rt, &mut disk, PAYLOAD);
    assert!(rt; saved.is_ok());
    assert!(rt; is_at(&rt, &mut disk, 0, NEW_SLOT));
    assert!(rt; is_at(&rt, &mut disk, 128, &[0]));
}

#[test]
fn second_save_is_an_entry(rt: HostRuntime) {
    let mut disk = disk_of(&rt, 0, NEW_SLOT);
    let saved = save(&rt, &mut disk, &[7, 8, 9]);
    assert!(rt; saved.is_ok());
    assert!(rt; is_at(&rt, &mut disk, 0, NEW_SLOT));
    assert!(rt; is_at(&rt, &mut disk, 128, &[1, 3, 0, 0, 0, 7, 8, 9, 0]));
    assert!(rt; is_kept(&rt, &mut disk, &[7, 8, 9]));
}

// The slot of generation 2 in which the payload 5 stands alone.
const SECOND_SLOT: &[u8] = b"\x01\x02\0\0\0\0\0\0\0\x01\0\0\0\x02\0\0\x05";

#[test]
fn old_form_is_kept(rt: HostRuntime) {
    let mut disk = disk_of(&rt, 0, OLD_SLOT);
    assert!(rt; is_kept(&rt, &mut disk, PAYLOAD));
    let saved = save(&rt, &mut disk, &[5]);
    assert!(rt; saved.is_ok());
    assert!(rt; is_at(&rt, &mut disk, 0, OLD_SLOT));
    assert!(rt; is_at(&rt, &mut disk, 64, SECOND_SLOT));
}

#[test]
fn generation_spent(rt: HostRuntime) {
    let mut disk = disk_of(&rt, 0, LAST_SLOT);
    assert!(rt; is_kept(&rt, &mut disk, &[5]));
    let saved = save(&rt, &mut disk, &[6]);
    assert!(rt; matches!(saved, Err(StoreFail::Spent)));
}

#[test]
fn too_big_changes_nothing(rt: HostRuntime) {
    let mut disk = disk_of(&rt, 0, NEW_SLOT);
    let saved = save(&rt, &mut disk, &[1; 49]);
    assert!(rt; matches!(saved, Err(StoreFail::TooBig)));
    assert!(rt; is_at(&rt, &mut disk, 0, NEW_SLOT));
    assert!(rt; is_kept(&rt, &mut disk, PAYLOAD));
    let saved = save(&rt, &mut disk, &[1; 48]);
    assert!(rt; saved.is_ok());
}

#[test]
fn twins_are_damaged(rt: HostRuntime) {
    let mut disk = disk_of(&rt, 0, OLD_SLOT);
    disk.write_at(64, OLD_SLOT).expect(&rt, "a write");
    let loaded = Store::load::<Note, MemDisk>(rt.alloc(), &mut disk, LAYOUT);
    assert!(rt; matches!(loaded, Err(StoreFail::Damaged { slot: 0 })));
}
