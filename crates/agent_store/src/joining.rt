//! The write of an entry at the end of a log.

ghost use Rattle.std.specs.Prelude.{◌≡◌, ◌≢◌, ◌&&◌, ◌+◌, ◌≤◌, ◌<◌, ◌^◌, true, length, Some, OnOk, IfOk, IsTrue, nat_le};
ghost use Rattle.edge_devices.specs.Disks.{medium, disk_bytes, IsSettled, HasCause, LeftSince};
ghost use Rattle.edge_devices.specs.DiskCalls.{Makes};
ghost use Rattle.agent_store.specs.Codecs.{IsRight};
ghost use Rattle.agent_store.specs.Log.{entry_bytes};
ghost use Rattle.agent_store.specs.Rooms.{room_of};
ghost use Rattle.agent_store.specs.Plans.{entry_plan};
ghost use Rattle.agent_store.specs.Images.{IsJoined, IsJoining};
ghost use Rattle.agent_store.specs.Slots.{other, log_stop};

use crate::filling::fill_entry;
use crate::payload::Payload;
use crate::slots::{Layout, Side, put};
use edge_devices::{Disk, DiskFault};
use message_codec::wire::Out;

/// Whether the entry of a change and one further byte fit before the log's end.
pub fn entry_fits<P: Payload>(former: &[u8], next: &[u8], tail: u64, stop: u64) -> bool
    requires range { tail ≤ stop }
    requires near { stop < 2 ^ 62 }
    requires former_few { length former.now < 2 ^ 62 }
    requires next_few { length next.now < 2 ^ 62 }
    requires former { IsRight P.codec former.now }
    requires next { IsRight P.codec next.now }
    ensures fits { result ≡ nat_le (tail + 5 + length (P.codec.change former.now next.now) + 1) stop }
{
    let left = stop - tail;
    left >= 6 && P::change_len(former, next) <= left - 6
}

/// Whether a part is kept, and the entry that leads from it to the next one fits in its log with one further byte.
pub fn has_place<P: Payload>(
    layout: Layout,
    target: Side,
    kept: bool,
    tail: u64,
    former: &Out,
    next: &Out,
) -> bool
    requires to { kept ≡ true → tail ≤ log_stop layout (other target) }
    requires former_few { length former.now.bytes < 2 ^ 62 }
    requires next_few { length next.now.bytes < 2 ^ 62 }
    requires former { kept ≡ true → IsRight P.codec former.now.bytes }
    requires next { IsRight P.codec next.now.bytes }
    ensures place { result ≡ (kept && nat_le (tail + 5 + length (P.codec.change former.now.bytes next.now.bytes) + 1) (log_stop layout (other target))) }
{
    if !kept {
        return false;
    }
    let stop = layout.log_stop(target.other());
    let former = former.as_slice();
    let next = next.as_slice();
    entry_fits::<P>(former, next, tail, stop)
}

/// Adds an entry at the end of a log: writes its bytes, and then opens its gate.
pub fn append<D: Disk>(disk: &mut D, tail: u64, entry: &[u8]) -> Result<(), DiskFault>
    requires range { tail + 1 + length entry.now < 2 ^ 62 }
    requires settled { IsSettled (medium (D.state disk.old)) }
    requires gate { IsTrue (D.state disk.old).told → disk_bytes (D.state disk.old) tail ≢ 1 }
    ensures settled { OnOk result (IsSettled (medium (D.state disk.new))) }
    ensures joined { OnOk result (IsTrue (D.state disk.old).told → IsJoined tail entry.now (disk_bytes (D.state disk.old)) (disk_bytes (D.state disk.new))) }
    ensures any_moment { IsTrue (D.state disk.old).told → LeftSince (D.state disk.old) (D.state disk.new) (IsJoining tail entry.now (disk_bytes (D.state disk.old))) }
    ensures made { IsTrue (D.state disk.old).told → Makes (entry_plan tail entry.now) (D.state disk.old) (D.state disk.new) (D.countdown disk.old) (D.countdown disk.new) result }
    ensures told { (D.state disk.new).told ≡ (D.state disk.old).told }
    ensures cause { HasCause (D.state disk.old) (D.state disk.new) result }
{
    put(disk, tail + 1, entry)?;
    put(disk, tail, &[1])?;
    Ok(())
}

/// Adds the entry of a change at the end of a log, and answers how long it is with its gate. It is made in a row that
/// has the room for it.
pub fn join<P: Payload, D: Disk>(
    disk: &mut D,
    tail: u64,
    former: &[u8],
    next: &[u8],
    row: &mut Out,
) -> Result<u64, DiskFault>
    requires former_few { length former.now < 2 ^ 62 }
    requires next_few { length next.now < 2 ^ 62 }
    requires former { IsRight P.codec former.now }
    requires next { IsRight P.codec next.now }
    requires few { length (P.codec.change former.now next.now) < 2 ^ 32 }
    requires room { 5 + length (P.codec.change former.now next.now) ≤ room_of row.old }
    requires range { tail + 6 + length (P.codec.change former.now next.now) < 2 ^ 62 }
    requires settled { IsSettled (medium (D.state disk.old)) }
    requires gate { IsTrue (D.state disk.old).told → disk_bytes (D.state disk.old) tail ≢ 1 }
    ensures len { IfOk result (λ len. len ≡ 5 + length (P.codec.change former.now next.now)) }
    ensures leads { P.codec.changed former.now (P.codec.change former.now next.now) ≡ Some next.now }
    ensures larger { room_of row.old ≤ room_of row.new }
    ensures settled { OnOk result (IsSettled (medium (D.state disk.new))) }
    ensures joined { OnOk result (IsTrue (D.state disk.old).told → IsJoined tail (entry_bytes (P.codec.change former.now next.now)) (disk_bytes (D.state disk.old)) (disk_bytes (D.state disk.new))) }
    ensures any_moment { IsTrue (D.state disk.old).told → LeftSince (D.state disk.old) (D.state disk.new) (IsJoining tail (entry_bytes (P.codec.change former.now next.now)) (disk_bytes (D.state disk.old))) }
    ensures made { IsTrue (D.state disk.old).told → Makes (entry_plan tail (entry_bytes (P.codec.change former.now next.now))) (D.state disk.old) (D.state disk.new) (D.countdown disk.old) (D.countdown disk.new) result }
    ensures told { (D.state disk.new).told ≡ (D.state disk.old).told }
    ensures cause { HasCause (D.state disk.old) (D.state disk.new) result }
{
    if fill_entry::<P>(row, former, next).is_err() {
        unreachable!()
    }
    let entry = row.as_slice();
    append(disk, tail, entry)?;
    Ok(entry.len() as u64)
}
