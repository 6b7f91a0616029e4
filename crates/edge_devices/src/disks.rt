//! A disk as its user sees it: what a read gives, and what a crash may leave.

ghost use Rattle.std.specs.Prelude.{◌≡◌, ◌+◌, ◌<◌, ◌^◌, ℕ, length, OnOk, IsTrue};
ghost use Rattle.edge_devices.specs.Disks.{DiskState, Countdown, Counts, medium, disk_bytes, HasBytes, IsCovered, IsSettled, SameOutside, StaysSettled, Elapses, HasCause, JoinsWrite, JoinsSync};

use thiserror::Error;

/// The disk failed.
#[derive(Clone, Copy, Debug, PartialEq, Eq, Error)]
#[error("the disk failed")]
pub struct DiskFault;

/// A row of bytes, 0 where never written. It has a clock of moments, so that a contract can speak of what a crash at
/// any moment of a call might leave: after a successful sync that is what a read gives; until then each byte that a
/// write covered since, also one that failed, may hold any value, and each other byte keeps its own.
pub trait Disk {
    // All that contracts see of the disk.
    ghost state: { Self → DiskState };

    // How far the device call is that is to be stopped. Device calls are writes and syncs.
    ghost countdown: { Self → Countdown };

    /// Fills `into` with the bytes from `at` on.
    fn read(&mut self, at: u64, into: &mut [u8]) -> Result<(), DiskFault>
        requires range { at + length into.old < 2 ^ 62 }
        ensures gives { OnOk result (IsTrue (state self.old).told → HasBytes (disk_bytes (state self.old)) at into.new) }
        ensures same { medium (state self.new) ≡ medium (state self.old) }
        ensures calls { (state self.new).calls ≡ (state self.old).calls }
        ensures counts { IsTrue (state self.old).told → countdown self.new ≡ countdown self.old }
        ensures time { Elapses (state self.old) (state self.new) }
        ensures cause { HasCause (state self.old) (state self.new) result };

    /// Writes over what is there. Until a sync, a crash may leave anything in the range.
    fn write_at(&mut self, at: u64, bytes: &[u8]) -> Result<(), DiskFault>
        requires range { at + length bytes.now < 2 ^ 62 }
        ensures written { OnOk result (IsTrue (state self.old).told → HasBytes (disk_bytes (state self.new)) at bytes.now) }
        ensures covered { OnOk result (IsTrue (state self.old).told → IsCovered at (length bytes.now) (medium (state self.new))) }
        ensures elsewhere { SameOutside at (length bytes.now) (medium (state self.old)) (medium (state self.new)) }
        ensures calls { IsTrue (state self.old).told → JoinsWrite at bytes.now (state self.old) (state self.new) (countdown self.old) (countdown self.new) result }
        ensures counts { IsTrue (state self.old).told → Counts (countdown self.old) (countdown self.new) result }
        ensures time { Elapses (state self.old) (state self.new) }
        ensures cause { HasCause (state self.old) (state self.new) result };

    /// After it, a crash leaves what a read gives.
    fn sync(&mut self) -> Result<(), DiskFault>
        ensures settled { OnOk result (IsSettled (medium (state self.new))) }
        ensures same { disk_bytes (state self.new) ≡ disk_bytes (state self.old) }
        ensures kept { StaysSettled (medium (state self.old)) (medium (state self.new)) }
        ensures calls { IsTrue (state self.old).told → JoinsSync (state self.old) (state self.new) result }
        ensures counts { IsTrue (state self.old).told → Counts (countdown self.old) (countdown self.new) result }
        ensures time { Elapses (state self.old) (state self.new) }
        ensures cause { HasCause (state self.old) (state self.new) result };
}
