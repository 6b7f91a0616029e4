//! The write of a slot as a whole.

ghost use Rattle.std.specs.Prelude.{◌≡◌, ◌+◌, ◌≤◌, ◌<◌, ◌^◌, length, OnOk, IsTrue};
ghost use Rattle.edge_devices.specs.Disks.{medium, disk_bytes, IsSettled, HasCause, LeftSince};
ghost use Rattle.agent_store.specs.Slots.{is_open as is_open_in, body_bytes};
ghost use Rattle.edge_devices.specs.DiskCalls.{Makes};
ghost use Rattle.agent_store.specs.Rooms.{room_of};
ghost use Rattle.agent_store.specs.Plans.{slot_plan};
ghost use Rattle.agent_store.specs.Images.{IsWritten, IsWriting};

use crate::filling::fill_body;
use crate::slots::{Layout, Side, close, put, put_both};
use edge_devices::{Disk, DiskFault};
use message_codec::wire::Out;

/// Writes a slot anew and empties its log: closes its gate, writes both, and opens it.
pub fn write_slot<D: Disk>(
    disk: &mut D,
    layout: Layout,
    side: Side,
    is_open: bool,
    body: &[u8],
) -> Result<(), DiskFault>
    requires short { length body.now ≤ layout.room + 15 }
    requires settled { IsSettled (medium (D.state disk.old)) }
    requires gate { IsTrue (D.state disk.old).told → is_open ≡ is_open_in layout (disk_bytes (D.state disk.old)) side }
    ensures settled { OnOk result (IsSettled (medium (D.state disk.new))) }
    ensures written { OnOk result (IsTrue (D.state disk.old).told → IsWritten layout side body.now (disk_bytes (D.state disk.old)) (disk_bytes (D.state disk.new))) }
    ensures any_moment { IsTrue (D.state disk.old).told → LeftSince (D.state disk.old) (D.state disk.new) (IsWriting layout side body.now (disk_bytes (D.state disk.old))) }
    ensures made { IsTrue (D.state disk.old).told → Makes (slot_plan layout side is_open body.now) (D.state disk.old) (D.state disk.new) (D.countdown disk.old) (D.countdown disk.new) result }
    ensures told { (D.state disk.new).told ≡ (D.state disk.old).told }
    ensures cause { HasCause (D.state disk.old) (D.state disk.new) result }
{
    let at = layout.slot_start(side);
    close(disk, at, is_open)?;
    put_both(disk, at + 1, body, layout.log_start(side), &[0])?;
    put(disk, at, &[1])?;
    Ok(())
}

/// Writes a slot with this generation and payload. It is made in a row that has the room for it.
pub fn checkpoint<D: Disk>(
    disk: &mut D,
    layout: Layout,
    side: Side,
    is_open: bool,
    generation: u64,
    payload: &[u8],
    row: &mut Out,
) -> Result<(), DiskFault>
    requires short { length payload.now ≤ layout.room }
    requires room { 15 + length payload.now ≤ room_of row.old }
    requires settled { IsSettled (medium (D.state disk.old)) }
    requires gate { IsTrue (D.state disk.old).told → is_open ≡ is_open_in layout (disk_bytes (D.state disk.old)) side }
    ensures bytes { row.new.bytes ≡ body_bytes generation payload.now }
    ensures larger { room_of row.old ≤ room_of row.new }
    ensures settled { OnOk result (IsSettled (medium (D.state disk.new))) }
    ensures written { OnOk result (IsTrue (D.state disk.old).told → IsWritten layout side (body_bytes generation payload.now) (disk_bytes (D.state disk.old)) (disk_bytes (D.state disk.new))) }
    ensures any_moment { IsTrue (D.state disk.old).told → LeftSince (D.state disk.old) (D.state disk.new) (IsWriting layout side (body_bytes generation payload.now) (disk_bytes (D.state disk.old))) }
    ensures made { IsTrue (D.state disk.old).told → Makes (slot_plan layout side is_open (body_bytes generation payload.now)) (D.state disk.old) (D.state disk.new) (D.countdown disk.old) (D.countdown disk.new) result }
    ensures told { (D.state disk.new).told ≡ (D.state disk.old).told }
    ensures cause { HasCause (D.state disk.old) (D.state disk.new) result }
{
    if fill_body(row, generation, payload).is_err() {
        unreachable!()
    }
    write_slot(disk, layout, side, is_open, row.as_slice())
}
