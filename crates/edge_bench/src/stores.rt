//! Saves and loads of what a supervisor keeps.

ghost use Rattle.agent_store.specs.Store.{Fits};

use agent_rules::{Saved, read_saved};
use agent_store::{Disk, Layout, Opened, Payload, Store, StoreFail};
use std::alloc::Global;

/// The store of the `agent`.
pub const WITH_LOG: Layout = Layout {
    room: 8_388_608,
    log: 1_048_576,
};

/// The same without a log, so that each save writes a slot.
pub const WITHOUT_LOG: Layout = Layout {
    room: 8_388_608,
    log: 0,
};

// What an agent keeps at first: its identifier, the limit 1,025, its endpoint and four empty messages; and the same with the limit 2,049.
const FIRST: &[u8] =
    b"\x0a\x10\x00\x01\x02\x03\x04\x05\x06\x07\x08\x09\x0a\x0b\x0c\x0d\x0e\x0f\x10\x81\x08\x22\x09http://s0\x2a\x00\x42\x00\x4a\x00\x52\x00";

const NEXT: &[u8] =
    b"\x0a\x10\x00\x01\x02\x03\x04\x05\x06\x07\x08\x09\x0a\x0b\x0c\x0d\x0e\x0f\x10\x81\x10\x22\x09http://s0\x2a\x00\x42\x00\x4a\x00\x52\x00";

// Saves one value and the other in turn, so often.
fn save_in_turn<P: Payload, D: Disk>(
    store: &mut Store,
    disk: &mut D,
    one: &P,
    other: &P,
    count: u64,
) -> Result<(), StoreFail>
    requires fits { Fits P.codec (D.state disk.old) store.old }
    requires one { P.right one.now }
    requires other { P.right other.now }
{
    for number in 0..count {
        let next = if number % 2 == 0 { one } else { other };
        match store.save(disk, next) {
            Ok(()) => {}
            Err(fail) => return Err(fail),
        }
    }
    Ok(())
}

/// Loads, and saves so often. Gives whether it could.
pub fn save_all<D: Disk>(alloc: Global, disk: &mut D, layout: Layout, count: u64) -> bool {
    let Ok(Some(one)) = read_saved(alloc, FIRST) else {
        return false;
    };
    let Ok(Some(other)) = read_saved(alloc, NEXT) else {
        return false;
    };
    let Ok((mut store, _)) = Store::load::<Saved, D>(alloc, disk, layout) else {
        return false;
    };
    save_in_turn(&mut store, disk, &one, &other, count).is_ok()
}

/// Loads so often. Gives the limit that was loaded last, or none where it couldn't.
pub fn load_all<D: Disk>(alloc: Global, disk: &mut D, count: u64) -> Option<u64> {
    let mut limit = 0;
    for _ in 0..count {
        let Ok((_, opened)) = Store::load::<Saved, D>(alloc, disk, WITH_LOG) else {
            return None;
        };
        limit = match opened {
            Opened::Fresh => 0,
            Opened::Kept(saved) => saved.limit,
        };
    }
    Some(limit)
}
