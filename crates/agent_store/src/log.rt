//! What a slot with its log stands for.

ghost use Rattle.std.specs.Prelude.{◌≡◌, ◌+◌, ◌≤◌, ◌<◌, ◌^◌, ◌⊎◌, ℕ, List, length, IfSome, IfNone, IfOk, IfErr, IsErrOf, IsTrue, vec_capacity};
ghost use Rattle.edge_devices.specs.Disks.{disk_bytes, HasBytes, Reads};
ghost use Rattle.edge_devices.specs.Faults.{HasRisen};
ghost use Rattle.agent_store.specs.Slots.{slot_start, log_start, log_stop, by_form, standing};
ghost use Rattle.agent_store.specs.Log.{replay as replayed, entry_stop, IsChange};
ghost use Rattle.agent_store.specs.Headers.{TellsHeader};
ghost use Rattle.agent_store.specs.Found.{standing_of, EndsWithin, HasPart};

use crate::fail::StoreFail;
use crate::header::Header;
use crate::payload::Payload;
use crate::slots::{Layout, Side};
use edge_devices::Disk;
use plain_values::NoMemory;
use std::alloc::Global;

/// A part, and the place of the next entry of its log.
#[derive(Drop)]
pub struct Found<P> {
    pub part: P,
    pub tail: u64,
}

/// The change of the open entry at this place, or none where it passes the log's end.
fn change_of(log: &[u8], at: usize) -> Option<&[u8]>
    requires room { at + 6 ≤ length log.now }
    ensures within { IfSome result (λ fields. at + 5 + length fields.now ≤ length log.now) }
    ensures some { IfSome result (λ fields. (image : ℕ → ℕ) (start : ℕ) → HasBytes image start log.now → IsChange image (start + at) fields.now) }
    ensures none { IfNone result ((image : ℕ → ℕ) (start : ℕ) → HasBytes image start log.now → start + length log.now < entry_stop image (start + at)) }
{
    let mut size = [0; 4];
    size.copy_from_slice(&log[at + 1..at + 5]);
    let size = u32::from_le_bytes(size) as usize;
    if size > log.len() - at - 5 {
        return None;
    }
    Some(&log[at + 5..at + 5 + size])
}

/// The part with the entries of a log applied, or nothing where one isn't right.
pub fn replay<P: Payload>(
    alloc: Global,
    log: &[u8],
    start: u64,
    part: P,
) -> Result<Option<Found<P>>, NoMemory>
    requires range { start + length log.now < 2 ^ 62 }
    requires right { P.right part }
    requires typed { P.typed part }
    ensures within { IfOk result (EndsWithin start (start + length log.now)) }
    ensures right { IfOk result (HasPart P.right) }
    ensures typed { IfOk result (HasPart P.typed) }
    ensures found { IfOk result (λ found. (image : ℕ → ℕ) → HasBytes image start log.now → standing_of P.canonical found ≡ replayed P.codec image (start + length log.now) (length log.now) start (P.canonical part)) }
{
    let mut part = part;
    let mut at = 0;
    while log.len() - at >= 6 && log[at] == 1 {
        let Some(fields) = change_of(log, at) else {
            return Ok(None);
        };
        match part.changed(alloc, fields)? {
            Some(next) => part = next,
            None => return Ok(None),
        }
        at += 5 + fields.len();
    }
    Ok(Some(Found {
        part,
        tail: start + at as u64,
    }))
}

/// The part of a slot of this form with its log. A slot of form 1 has an empty log without room.
fn read_log<P: Payload, D: Disk>(
    alloc: Global,
    disk: &mut D,
    layout: Layout,
    side: Side,
    form: u8,
    part: P,
) -> Result<Option<Found<P>>, StoreFail>
    requires right { P.right part }
    requires typed { P.typed part }
    ensures within { IfOk result (EndsWithin (log_start layout side) (log_stop layout side)) }
    ensures right { IfOk result (HasPart P.right) }
    ensures typed { IfOk result (HasPart P.typed) }
    ensures found { IfOk result (λ found. IsTrue (D.state disk.old).told → standing_of P.canonical found ≡ by_form P.codec layout (disk_bytes (D.state disk.old)) side form (P.canonical part)) }
    ensures reads { Reads (D.state disk.old) (D.state disk.new) }
    ensures counts { IsTrue (D.state disk.old).told → D.countdown disk.new ≡ D.countdown disk.old }
    ensures faults { (D.state disk.old).faults ≤ (D.state disk.new).faults }
    ensures fault { IsErrOf result StoreFail.DiskFault → HasRisen (D.state disk.old).faults (D.state disk.new).faults }
    ensures memory { IfErr result (λ e. (e ≡ StoreFail.DiskFault) ⊎ (e ≡ StoreFail.NoMemory)) }
{
    let start = layout.log_start(side);
    if form == 1 {
        return Ok(Some(Found {
            part,
            tail: layout.log_stop(side),
        }));
    }
    if form != 2 {
        return Ok(None);
    }
    let mut log = vec![in alloc; 0; layout.log as usize]?;
    disk.read(start, &mut log)?;
    let found = replay(alloc, &log, start, part)?;
    Ok(found)
}

/// What an open slot stands for with its log, or nothing where it isn't right.
pub fn read_slot<P: Payload, D: Disk>(
    alloc: Global,
    disk: &mut D,
    layout: Layout,
    side: Side,
    header: Header,
) -> Result<Option<Found<P>>, StoreFail>
    requires { IsTrue (D.state disk.old).told → TellsHeader (disk_bytes (D.state disk.old)) (slot_start layout side) header }
    ensures within { IfOk result (EndsWithin (log_start layout side) (log_stop layout side)) }
    ensures right { IfOk result (HasPart P.right) }
    ensures typed { IfOk result (HasPart P.typed) }
    ensures found { IfOk result (λ found. IsTrue (D.state disk.old).told → standing_of P.canonical found ≡ standing P.codec layout (disk_bytes (D.state disk.old)) side) }
    ensures reads { Reads (D.state disk.old) (D.state disk.new) }
    ensures counts { IsTrue (D.state disk.old).told → D.countdown disk.new ≡ D.countdown disk.old }
    ensures faults { (D.state disk.old).faults ≤ (D.state disk.new).faults }
    ensures fault { IsErrOf result StoreFail.DiskFault → HasRisen (D.state disk.old).faults (D.state disk.new).faults }
    ensures memory { IfErr result (λ e. (e ≡ StoreFail.DiskFault) ⊎ (e ≡ StoreFail.NoMemory)) }
{
    if header.length > layout.room {
        return Ok(None);
    }
    let mut payload = vec![in alloc; 0; header.length as usize]?;
    disk.read(layout.slot_start(side) + 16, &mut payload)?;
    match P::read(alloc, &payload)? {
        None => Ok(None),
        Some(part) => {
            let found = read_log(alloc, disk, layout, side, header.form, part)?;
            Ok(found)
        }
    }
}
