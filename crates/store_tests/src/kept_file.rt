//! The supervisor's store on a real file.

use crate::kept::{FIRST, LARGE, NEXT, SLOT, is_opened_as, value_of};
use agent_rules::Saved;
use agent_store::{Disk, Store};
use edge_devices::FileDisk;
use std::fs;
use std::process::Abort;
use std::rt::Files;

// Whether the disk keeps the value of these bytes, or nothing where there are none.
fn is_kept<D: Disk + Drop>(rt: &(impl Abort + AllocGlobal), mut disk: D, payload: &[u8]) -> bool {
    let (_, opened) = Store::load::<Saved, D>(rt.alloc(), &mut disk, LARGE).expect(rt, "a load");
    let is_so = is_opened_as(rt, &opened, payload);
    drop(opened);
    is_so
}

fn save<D: Disk + Drop>(rt: &(impl Abort + AllocGlobal), mut disk: D, payload: &[u8]) -> bool {
    let next = value_of(rt, payload);
    let (mut store, opened) = Store::load::<Saved, D>(rt.alloc(), &mut disk, LARGE).expect(
        rt, "a load",
    );
    drop(opened);
    store.save(&mut disk, &next).is_ok()
}

// Whether the disk has these bytes at its front, and zeros behind its end.
fn begins_with<D: Disk + Drop>(rt: &impl Abort, mut disk: D, bytes: &[u8; 56]) -> bool {
    let mut front = [1; 56];
    disk.read(0, &mut front).expect(rt, "a read");
    let mut end = [1; 2];
    disk.read(1 << 40, &mut end).expect(rt, "a read");
    front == *bytes && end == [0, 0]
}

// Whether the file has these bytes at its front, by the system's own read of the whole.
fn is_in_file(rt: &(impl Abort + AllocGlobal + Files), bytes: &[u8; 56]) -> bool {
    let file = fs::read(rt, "opamp.store").expect(rt, "a file");
    file.as_slice().get(..56) == Some(bytes.as_slice())
}

// The file is opened anew for each step.
#[test]
fn real_file(rt: HostRuntime) {
    let _ = fs::remove_file(&rt, "opamp.store");
    assert!(rt; is_kept(&rt, FileDisk::new(rt), b""));
    assert!(rt; save(&rt, FileDisk::new(rt), FIRST));
    assert!(rt; is_kept(&rt, FileDisk::new(rt), FIRST));
    assert!(rt; save(&rt, FileDisk::new(rt), NEXT));
    assert!(rt; is_kept(&rt, FileDisk::new(rt), NEXT));
    assert!(rt; begins_with(&rt, FileDisk::new(rt), SLOT));
    assert!(rt; is_in_file(&rt, SLOT));
    fs::remove_file(&rt, "opamp.store").expect(&rt, "a file");
}
