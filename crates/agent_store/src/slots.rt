//! Two slots, a log behind both for each, and the steps in which they are written.

ghost use Rattle.std.specs.Prelude.{◌≡◌, ◌≢◌, ◌==◌, ◌+◌, ◌*◌, ◌≤◌, ◌<◌, ◌^◌, [], ◌∷◌, length, OnOk, IsTrue};
ghost use Rattle.edge_devices.specs.DiskCalls.{Makes};
ghost use Rattle.agent_store.specs.Plans.{put_plan, close_plan};
ghost use Rattle.edge_devices.specs.Disks.{Writes, Syncs, medium, disk_bytes, HasBytes, IsSettled, IsTorn, IsTornBoth, IsClosing, HasCause, LeftSince};

use edge_devices::{Disk, DiskFault};

/// The layout of a disk: two slots, and behind both a log for each.
#[derive(Clone, Copy, Debug, PartialEq, Eq)]
pub struct Layout {
    /// How many bytes of a payload a slot has room for.
    pub room: u32,
    /// How many bytes a log has.
    pub log: u32,
}

/// One of the two slots, with its log.
#[derive(Clone, Copy, Debug, PartialEq, Eq)]
pub enum Side {
    /// Slot 0.
    First,
    /// Slot 1.
    Second,
}

/// Which slot counts.
#[derive(Clone, Copy, Debug, PartialEq, Eq)]
pub enum Choice {
    /// None is open.
    Neither,
    /// Both are open, with the same generation.
    Twins,
    /// The open one of greatest generation.
    Slot(Side),
}

impl Side {
    ghost use Rattle.agent_store.specs.Slots.{other, slot_number};

    /// The number by which a damaged slot is told.
    pub(crate) fn number(self) -> u32
        ensures { result ≡ slot_number self }
    {
        match self {
            Side::First => 0,
            Side::Second => 1,
        }
    }

    pub(crate) fn other(self) -> Side
        ensures { result ≡ other self }
    {
        match self {
            Side::First => Side::Second,
            Side::Second => Side::First,
        }
    }
}

impl Layout {
    ghost use Rattle.agent_store.specs.Slots.{slot_start, log_start, log_stop};

    /// Where a slot begins.
    pub(crate) fn slot_start(self, side: Side) -> u64
        ensures { result ≡ slot_start self side }
    {
        match side {
            Side::First => 0,
            Side::Second => u64::from(self.room) + 16,
        }
    }

    /// Where a log begins.
    pub(crate) fn log_start(self, side: Side) -> u64
        ensures { result ≡ log_start self side }
    {
        let logs = 2 * (u64::from(self.room) + 16);
        match side {
            Side::First => logs,
            Side::Second => logs + u64::from(self.log),
        }
    }

    /// Where a log ends.
    pub(crate) fn log_stop(self, side: Side) -> u64
        ensures { result ≡ log_stop self side }
    {
        self.log_start(side) + u64::from(self.log)
    }
}

/// Writes and syncs. Until it is done, a crash may leave anything in the range.
pub fn put<D: Disk>(disk: &mut D, at: u64, bytes: &[u8]) -> Result<(), DiskFault>
    requires range { at + length bytes.now < 2 ^ 62 }
    requires settled { IsSettled (medium (D.state disk.old)) }
    ensures settled { OnOk result (IsSettled (medium (D.state disk.new))) }
    ensures written { OnOk result (IsTrue (D.state disk.old).told → HasBytes (disk_bytes (D.state disk.new)) at bytes.now) }
    ensures elsewhere { IsTorn at (length bytes.now) (disk_bytes (D.state disk.old)) (disk_bytes (D.state disk.new)) }
    ensures any_moment { LeftSince (D.state disk.old) (D.state disk.new) (IsTorn at (length bytes.now) (disk_bytes (D.state disk.old))) }
    ensures made { IsTrue (D.state disk.old).told → Makes (put_plan at bytes.now) (D.state disk.old) (D.state disk.new) (D.countdown disk.old) (D.countdown disk.new) result }
    ensures cause { HasCause (D.state disk.old) (D.state disk.new) result }
{
    disk.write_at(at, bytes)?;
    disk.sync()
}

/// Two writes and one sync. Until it is done, a crash may leave anything in both ranges.
pub fn put_both<D: Disk>(
    disk: &mut D,
    at: u64,
    bytes: &[u8],
    other_at: u64,
    other_bytes: &[u8],
) -> Result<(), DiskFault>
    requires range { at + length bytes.now < 2 ^ 62 }
    requires other_range { other_at + length other_bytes.now < 2 ^ 62 }
    requires apart { at + length bytes.now ≤ other_at }
    requires settled { IsSettled (medium (D.state disk.old)) }
    ensures settled { OnOk result (IsSettled (medium (D.state disk.new))) }
    ensures written { OnOk result (IsTrue (D.state disk.old).told → HasBytes (disk_bytes (D.state disk.new)) at bytes.now) }
    ensures other_written { OnOk result (IsTrue (D.state disk.old).told → HasBytes (disk_bytes (D.state disk.new)) other_at other_bytes.now) }
    ensures elsewhere { IsTornBoth at (length bytes.now) other_at (length other_bytes.now) (disk_bytes (D.state disk.old)) (disk_bytes (D.state disk.new)) }
    ensures any_moment { LeftSince (D.state disk.old) (D.state disk.new) (IsTornBoth at (length bytes.now) other_at (length other_bytes.now) (disk_bytes (D.state disk.old))) }
    ensures made { IsTrue (D.state disk.old).told → Makes (Writes at bytes.now ∷ Writes other_at other_bytes.now ∷ Syncs ∷ []) (D.state disk.old) (D.state disk.new) (D.countdown disk.old) (D.countdown disk.new) result }
    ensures cause { HasCause (D.state disk.old) (D.state disk.new) result }
{
    disk.write_at(at, bytes)?;
    disk.write_at(other_at, other_bytes)?;
    disk.sync()?;
    Ok(())
}

/// Closes a gate that is open. A crash leaves it as it was, or closed.
pub fn close<D: Disk>(disk: &mut D, at: u64, is_open: bool) -> Result<(), DiskFault>
    requires range { at + 1 < 2 ^ 62 }
    requires settled { IsSettled (medium (D.state disk.old)) }
    requires gate { IsTrue (D.state disk.old).told → is_open ≡ (disk_bytes (D.state disk.old) at == 1) }
    ensures settled { OnOk result (IsSettled (medium (D.state disk.new))) }
    ensures shut { OnOk result (IsTrue (D.state disk.old).told → disk_bytes (D.state disk.new) at ≢ 1) }
    ensures elsewhere { IsTorn at 1 (disk_bytes (D.state disk.old)) (disk_bytes (D.state disk.new)) }
    ensures told { (D.state disk.new).told ≡ (D.state disk.old).told }
    ensures any_moment { IsTrue (D.state disk.old).told → LeftSince (D.state disk.old) (D.state disk.new) (IsClosing at (disk_bytes (D.state disk.old))) }
    ensures made { IsTrue (D.state disk.old).told → Makes (close_plan at is_open) (D.state disk.old) (D.state disk.new) (D.countdown disk.old) (D.countdown disk.new) result }
    ensures cause { HasCause (D.state disk.old) (D.state disk.new) result }
{
    if is_open { put(disk, at, &[0]) } else { Ok(()) }
}
