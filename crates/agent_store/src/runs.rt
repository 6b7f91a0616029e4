//! Lists of loads, saves and crashes, from a disk that was never written: none leaves a damaged image.

ghost use Rattle.std.specs.Prelude.{◌≡◌, ◌≤◌, ℕ, IfOk, IsTrue, IsErrOf};
ghost use Rattle.edge_devices.specs.Disks.{LeftSince, MayLeave};
ghost use Rattle.edge_devices.specs.MemoryDisks.{memory_disk};
ghost use Rattle.agent_store.specs.Runs.{IsUndamaged};
ghost use Rattle.agent_store.specs.Slots.{NotDamaged};
ghost use Rattle.agent_store.specs.Store.{Fits};

use crate::fail::StoreFail;
use crate::payload::Payload;
use crate::slots::Layout;
use crate::store::Store;
use edge_devices::{Disk, MemDisk, Mode};
use std::alloc::Global;

/// Saves after a load, a stop at one of their device calls, and what the crash then leaves.
pub struct Run<P> {
    /// The parts that are saved, in their order.
    pub saves: Vec<P>,
    /// The device call that is stopped, counted from 1; 0 stops none.
    pub stop: u64,
    /// What the crash leaves of the bytes that were written since the last sync.
    pub mode: Mode,
}

// By hand, so that it is a call where a value is dropped, and not laid out there.
impl<P: Drop> Drop for Run<P> {
    fn drop(self) {
        let Run {
            saves: _,
            stop: _,
            mode: _,
        } = self;
    }
}

/// Saves parts, up to the first fault of the disk.
fn save_all<P: Payload, D: Disk>(store: &mut Store, disk: &mut D, saves: &[P])
    requires fits { Fits P.codec (D.state disk.old) store.old }
    ensures never { IsTrue (D.state disk.old).told → LeftSince (D.state disk.old) (D.state disk.new) (NotDamaged P.codec store.old.layout) }
{
    for next in saves {
        if !next.is_right() {
            continue;
        }
        let _ = store.save(disk, next);
        if store.broken() {
            return;
        }
    }
}

/// A load and the saves after it.
fn load_and_save<P: Payload, D: Disk>(
    alloc: Global,
    disk: &mut D,
    layout: Layout,
    saves: &[P],
) -> Result<(), StoreFail>
    requires whole { IsTrue (D.state disk.old).told → IsUndamaged P.codec layout (D.state disk.old) }
    ensures never { IsTrue (D.state disk.old).told → LeftSince (D.state disk.old) (D.state disk.new) (NotDamaged P.codec layout) }
    ensures damaged { (slot : ℕ) → IsErrOf result (StoreFail.Damaged slot) → IsTrue (D.state disk.old).told → ⊥ }
    ensures not_too_big { IsErrOf result StoreFail.TooBig → ⊥ }
    ensures not_spent { IsErrOf result StoreFail.Spent → ⊥ }
{
    let (mut store, _) = Store::load::<P, D>(alloc, disk, layout)?;
    save_all(&mut store, disk, saves);
    Ok(())
}

/// One run, from a load to a crash.
fn run_once<P: Payload>(
    alloc: Global,
    disk: &mut MemDisk,
    layout: Layout,
    run: &Run<P>,
) -> Result<(), StoreFail>
    requires whole { IsUndamaged P.codec layout (memory_disk disk.old) }
    ensures never { LeftSince (memory_disk disk.old) (memory_disk disk.new) (NotDamaged P.codec layout) }
    ensures damaged { (slot : ℕ) → IsErrOf result (StoreFail.Damaged slot) → ⊥ }
    ensures no_fault { IsErrOf result StoreFail.DiskFault → ⊥ }
    ensures not_too_big { IsErrOf result StoreFail.TooBig → ⊥ }
    ensures not_spent { IsErrOf result StoreFail.Spent → ⊥ }
{
    disk.arm(run.stop);
    match load_and_save(alloc, disk, layout, &run.saves) {
        Ok(()) => {}
        Err(StoreFail::DiskFault) => {}
        Err(fail) => return Err(fail),
    }
    disk.crash(run.mode);
    Ok(())
}

/// An image that saves and crashes made is never damaged, at no moment of any list of runs. No error but want of memory is
/// answered: a fault of the disk ends its run alone.
pub fn play<P: Payload>(
    alloc: Global,
    disk: &mut MemDisk,
    layout: Layout,
    runs: &[Run<P>],
) -> Result<(), StoreFail>
    requires whole { IsUndamaged P.codec layout (memory_disk disk.old) }
    ensures never { LeftSince (memory_disk disk.old) (memory_disk disk.new) (NotDamaged P.codec layout) }
    ensures damaged { (slot : ℕ) → IsErrOf result (StoreFail.Damaged slot) → ⊥ }
    ensures no_fault { IsErrOf result StoreFail.DiskFault → ⊥ }
    ensures not_too_big { IsErrOf result StoreFail.TooBig → ⊥ }
    ensures not_spent { IsErrOf result StoreFail.Spent → ⊥ }
{
    for run in runs {
        run_once(alloc, disk, layout, run)?;
    }
    Ok(())
}

/// So of a disk never written.
pub fn play_new<P: Payload>(
    alloc: Global,
    layout: Layout,
    runs: &[Run<P>],
) -> Result<MemDisk, StoreFail>
    ensures never { IfOk result (λ disk. (t : ℕ) (image : ℕ → ℕ) → t ≤ (memory_disk disk).moment → MayLeave ((memory_disk disk).history t) image → NotDamaged P.codec layout image) }
    ensures damaged { (slot : ℕ) → IsErrOf result (StoreFail.Damaged slot) → ⊥ }
    ensures no_fault { IsErrOf result StoreFail.DiskFault → ⊥ }
    ensures not_too_big { IsErrOf result StoreFail.TooBig → ⊥ }
    ensures not_spent { IsErrOf result StoreFail.Spent → ⊥ }
{
    let mut disk = MemDisk::new(alloc, Vec::new(alloc));
    play(alloc, &mut disk, layout, runs)?;
    Ok(disk)
}
