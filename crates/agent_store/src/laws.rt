//! What a store gives its caller: what was saved is loaded, and what a crash leaves of a save that failed. And what the disk's bytes tell of a store.

ghost use Rattle.std.specs.Prelude.{◌≡◌, ◌<◌, ◌≤◌, ◌+◌, ◌-◌, ◌^◌, ◌⊎◌, ◌↔◌, ◌++◌, ℕ, List, length, Some, IfOk, OnOk, IsTrue, IsErrOf};
ghost use Rattle.edge_devices.specs.Disks.{DiskState, DeviceCall, disk_bytes, medium, IsSettled};
ghost use Rattle.edge_devices.specs.DiskCalls.{EndsAmid};
ghost use Rattle.edge_devices.specs.DiskStops.{bytes_of, stopped_image};
ghost use Rattle.edge_devices.specs.Faults.{HasRisen};
ghost use Rattle.edge_devices.specs.MemoryDisks.{memory_disk, disk_countdown};
ghost use Rattle.edge_devices.specs.declared.disk_calls.Mode.{Mode as CrashMode};
ghost use Rattle.edge_devices.specs.declared.memory_disk.MemDisk.{MemDisk as MemoryDisk};
ghost use Rattle.agent_store.specs.Codecs.{Codec};
ghost use Rattle.agent_store.specs.Loads.{store_of, image_after};
ghost use Rattle.agent_store.specs.Plans.{planned};
ghost use Rattle.agent_store.specs.Stops.{IsStop, CanSave, stopped_reading};
ghost use Rattle.agent_store.specs.Slots.{reading, StandsFor};
ghost use Rattle.agent_store.specs.Store.{StoreState, Fits};
ghost use Rattle.agent_store.specs.declared.opened.Opened;

use crate::fail::StoreFail;
use crate::opened::Opened;
use crate::payload::Payload;
use crate::slots::Layout;
use crate::store::Store;
use edge_devices::{Disk, MemDisk, Mode};
use std::alloc::Global;

/// What was saved is loaded.
pub fn save_and_load<P: Payload, D: Disk>(
    alloc: Global,
    disk: &mut D,
    layout: Layout,
    store: Store,
    next: &P,
) -> Result<Opened<P>, StoreFail>
    requires fits { Fits P.codec (D.state disk.old) store }
    requires layout { store.layout ≡ layout }
    requires right { P.right next.now }
    ensures loaded { IfOk result (λ opened. IsTrue (D.state disk.old).told → opened ≡ Opened.Kept next.now) }
    ensures fault { IsErrOf result StoreFail.DiskFault → HasRisen (D.state disk.old).faults (D.state disk.new).faults }
    ensures too_big { IsErrOf result StoreFail.TooBig → layout.room < length (P.canonical next.now) }
    ensures spent { IsErrOf result StoreFail.Spent → store.generation ≡ 2 ^ 64 - 1 }
    ensures no_damage { (slot : ℕ) → IsErrOf result (StoreFail.Damaged slot) → IsTrue (D.state disk.old).told → ⊥ }
{
    let mut store = store;
    store.save(disk, next)?;
    let (_, opened) = Store::load(alloc, disk, layout)?;
    Ok(opened)
}

/// A disk that was never written is fresh.
pub fn load_new<P: Payload, D: Disk>(
    alloc: Global,
    disk: &mut D,
    layout: Layout,
) -> Result<Opened<P>, StoreFail>
    requires blank { (place : ℕ) → disk_bytes (D.state disk.old) place ≡ 0 }
    ensures fresh { IfOk result (λ opened. IsTrue (D.state disk.old).told → opened ≡ Opened.Fresh) }
    ensures fault { IsErrOf result StoreFail.DiskFault → HasRisen (D.state disk.old).faults (D.state disk.new).faults }
    ensures no_damage { (slot : ℕ) → IsErrOf result (StoreFail.Damaged slot) → IsTrue (D.state disk.old).told → ⊥ }
    ensures not_too_big { IsErrOf result StoreFail.TooBig → ⊥ }
    ensures not_spent { IsErrOf result StoreFail.Spent → ⊥ }
{
    match Store::load(alloc, disk, layout) {
        Ok((_, opened)) => Ok(opened),
        Err(fail) => Err(fail),
    }
}

/// A save, a stop at a device call of it, and a crash. A save that isn't stopped makes its plan before that call.
/// Where one is stopped, and no device call failed otherwise, the crash leaves the next part if the written bytes stay
/// and the stop is at the last gate's write or at the sync after it; else it leaves the former part.
pub fn stop_and_crash<P: Payload>(
    disk: &mut MemDisk,
    store: &mut Store,
    next: &P,
    stop: u64,
    mode: Mode,
) -> Result<(), StoreFail>
    requires fits { Fits P.codec (memory_disk disk.old) store.old }
    requires right { P.right next.now }
    ensures stopped { IsErrOf result StoreFail.DiskFault → HasRisen (disk_countdown disk.old).others (disk_countdown disk.new).others
        ⊎ (reading P.codec store.old.layout (disk_bytes (memory_disk disk.new)) ≡ stopped_reading P.codec mode store.old (disk_bytes (memory_disk disk.old)) (P.canonical next.now) stop) }
    ensures done { OnOk result ((stop ≡ 0) ⊎ (length (planned P.codec store.old (P.canonical next.now)) < stop)) }
    ensures saved { OnOk result (StandsFor P.codec store.old.layout (disk_bytes (memory_disk disk.new)) (Some (P.canonical next.now))) }
    ensures too_big { IsErrOf result StoreFail.TooBig ↔ (store.old.layout.room < length (P.canonical next.now)) }
    ensures spent { IsErrOf result StoreFail.Spent → store.old.generation ≡ 2 ^ 64 - 1 }
    ensures no_memory { IsErrOf result StoreFail.NoMemory → ⊥ }
    ensures no_damage { (slot : ℕ) → IsErrOf result (StoreFail.Damaged slot) → ⊥ }
{
    disk.arm(stop);
    let saved = store.save(disk, next);
    disk.crash(mode);
    saved
}

/// Law: a store that fits its disk is the one that a load of the disk's bytes gives, and the bytes of a disk in memory follow from its calls.
pub fn bytes_tell_store()
    ensures store { (codec : Codec) (disk : DiskState) (store : StoreState) → Fits codec disk store → IsTrue disk.told
        → store_of codec store.layout (disk_bytes disk) ≡ store }
    ensures bytes { (old new : MemoryDisk) (calls : List DeviceCall) → IsSettled (medium (memory_disk old))
        → (memory_disk new).calls ≡ (memory_disk old).calls ++ calls
        → disk_bytes (memory_disk new) ≡ image_after (disk_bytes (memory_disk old)) calls }
{}

/// Law: of a save that failed on a disk in memory, where no device call failed but the one that is stopped, this one is among the save's, and a crash in
/// each mode leaves the bytes that the calls before it lead to, with its own as the mode says. So the disk then reads as the stop says.
pub fn stopped_save_leaves()
    ensures stop { (codec : Codec) (old new : MemoryDisk) (store : StoreState) (next : List ℕ) → Fits codec (memory_disk old) store
        → EndsAmid (planned codec store next) (memory_disk old) (memory_disk new) (disk_countdown old) (disk_countdown new)
        → (HasRisen (disk_countdown old).others (disk_countdown new).others → ⊥)
        → IsStop (disk_countdown old).left (planned codec store next) }
    ensures image { (codec : Codec) (old new : MemoryDisk) (store : StoreState) (next : List ℕ) → Fits codec (memory_disk old) store
        → EndsAmid (planned codec store next) (memory_disk old) (memory_disk new) (disk_countdown old) (disk_countdown new)
        → (HasRisen (disk_countdown old).others (disk_countdown new).others → ⊥)
        → (mode : CrashMode)
        → (bytes_of (memory_disk new).calls).left mode ≡ stopped_image mode (disk_bytes (memory_disk old)) (planned codec store next) (disk_countdown old).left }
    ensures reads { (codec : Codec) (old new : MemoryDisk) (store : StoreState) (next : List ℕ) → Fits codec (memory_disk old) store
        → EndsAmid (planned codec store next) (memory_disk old) (memory_disk new) (disk_countdown old) (disk_countdown new)
        → (HasRisen (disk_countdown old).others (disk_countdown new).others → ⊥)
        → (mode : CrashMode) → CanSave codec store next
        → reading codec store.layout ((bytes_of (memory_disk new).calls).left mode)
        ≡ stopped_reading codec mode store (disk_bytes (memory_disk old)) next (disk_countdown old).left }

    // No generation is skipped.
    ensures generation { (codec : Codec) (old new : MemoryDisk) (store : StoreState) (next : List ℕ) → Fits codec (memory_disk old) store
        → EndsAmid (planned codec store next) (memory_disk old) (memory_disk new) (disk_countdown old) (disk_countdown new)
        → (HasRisen (disk_countdown old).others (disk_countdown new).others → ⊥)
        → (mode : CrashMode) → CanSave codec store next
        → (store_of codec store.layout ((bytes_of (memory_disk new).calls).left mode)).generation ≤ store.generation + 1 }
{}
