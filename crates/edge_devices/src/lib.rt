//! The outside of the programs: where bytes come from and where they go to. Each object counts its
//! faults, and contracts see the count: a call answers a fault only where the count rose in it. An
//! object in memory tells its contents; a real file or terminal does not, and clauses on contents
//! hold where they are told.
#![tactic(auto)]

mod call_log;
mod clocks;
mod counts;
mod dialers;
mod disk_calls;
mod disks;
mod endpoint_text;
mod endpoints;
mod file_disk;
mod file_folder;
mod folders;
mod links;
mod memory;
mod memory_clocks;
mod memory_dialer;
mod memory_disk;
mod memory_folder;
mod memory_wire;
mod names;
mod real;
mod schedule;
mod shelves;
mod spare;
mod system;
mod wires;

ghost use Rattle.std.specs.Prelude.{◌≤◌, List, ℕ, Option, length, IfOk, OnErr};
ghost use Rattle.std.specs.Io.KnownBytes.{ReadConsumes};
ghost use Rattle.edge_devices.specs.Faults.{HasRisen, PutAppends};

pub use clocks::{Clock, ClockFault, Entropy, EntropyFault};
pub use dialers::{DialFail, Dialer, DialerCall, LinkFail, PushDialer};
pub use disk_calls::Mode;
pub use disks::{Disk, DiskFault};
pub use endpoint_text::{endpoint_ok, read_endpoint};
pub use endpoints::Endpoint;
pub use file_disk::FileDisk;
pub use file_folder::FileFolder;
pub use folders::{Area, Folder, FolderCall, FolderFail};
pub use links::{Dead, DeadCause, Idle};
pub use memory::{MemorySink, MemorySource};
pub use memory_clocks::{MemoryClock, MemoryEntropy};
pub use memory_dialer::{MemoryDialer, MemoryLink};
pub use memory_disk::MemDisk;
pub use memory_folder::MemoryFolder;
pub use memory_wire::MemoryWire;
pub use names::{name_good, name_good_among, name_ok};
pub use real::{Reading, Writing};
pub use system::{SystemClock, SystemEntropy};
use thiserror::Error;
pub use wires::{Given, Kind, Lost, Wire, WireCall, WireEvent, WireFail, WireFault};

/// The source could not be read.
#[derive(Clone, Copy, Debug, PartialEq, Eq, Error)]
#[error("the source can't be read")]
pub struct ReadFault;

/// The sink could not be written.
#[derive(Clone, Copy, Debug, PartialEq, Eq, Error)]
#[error("the sink can't be written")]
pub struct WriteFault;

/// Where bytes come from.
pub trait Source {
    // The bytes that are left, where the source tells them.
    ghost left: { Self → Option (List ℕ) };

    // How many calls answered a fault. It never falls.
    ghost faults: { Self → ℕ };

    /// Moves some of the bytes that are left to the front of the buffer, and gives their number. 0
    /// for a buffer that isn't empty is the end. A fault takes none of the bytes.
    fn take(&mut self, into: &mut [u8]) -> Result<usize, ReadFault>
        ensures within { IfOk result (λ n. n ≤ length into.new) }
        ensures bytes { ReadConsumes (left self.old) (left self.new) result into.new }
        ensures fault { OnErr result (HasRisen (faults self.old) (faults self.new)) }
        ensures count { faults self.old ≤ faults self.new };
}

/// Where bytes go to.
pub trait Sink {
    // The bytes that were taken, where the sink tells them.
    ghost taken: { Self → Option (List ℕ) };

    // How many calls answered a fault. It never falls.
    ghost faults: { Self → ℕ };

    /// Takes all the bytes. After a fault it took a prefix of them.
    fn put(&mut self, bytes: &[u8]) -> Result<(), WriteFault>
        ensures bytes { PutAppends (taken self.old) (taken self.new) result bytes.now }
        ensures fault { OnErr result (HasRisen (faults self.old) (faults self.new)) }
        ensures count { faults self.old ≤ faults self.new };
}
