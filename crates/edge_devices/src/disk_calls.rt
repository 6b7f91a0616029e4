//! The calls that a disk in memory has had, and the faults that it counts.

ghost use Rattle.std.specs.Prelude.{◌≡◌, false, ◌==◌, ◌||◌, ◌-◌, ◌≤◌};
ghost use Rattle.edge_devices.specs.Faults.{HasRisen};
ghost use Rattle.edge_devices.specs.Schedules.{one_more};

use crate::counts::raised;
use crate::disks::DiskFault;

/// A call of which the disk keeps a record.
#[derive(Drop)]
pub enum Call {
    /// A write that was done.
    Wrote { at: u64, bytes: Vec<u8> },
    /// A write that was stopped.
    Cut { at: u64, bytes: Vec<u8> },
    /// A sync that was done.
    Synced,
    /// A crash, and what it left.
    Crashed(Mode),
}

/// What a crash leaves of the bytes written since the last sync, those of a write that was stopped included.
#[derive(Clone, Copy, Debug, PartialEq, Eq)]
pub enum Mode {
    /// Their former values.
    Old,
    /// The written values.
    New,
    /// The byte 0xaa in each place.
    Torn,
}

/// One byte of the row.
#[derive(Clone, Copy, Debug, PartialEq, Eq)]
pub struct Cell {
    /// What a crash left or a sync kept.
    pub kept: u8,
    /// What a read gives.
    pub seen: u8,
    /// What was written last, also by a call that was stopped.
    pub newest: u8,
    /// Whether a write covered it since the last sync.
    pub pending: bool,
}

// Counts down to a call that is stopped.
#[derive(Drop)]
pub struct Stop {
    left: u64,
    stopped: bool,
}

impl Stop {
    pub fn never() -> Self
        ensures left { result.left ≡ 0 }
        ensures stopped { result.stopped ≡ false }
    {
        Stop {
            left: 0,
            stopped: false,
        }
    }

    pub fn at(calls: u64) -> Self
        ensures left { result.left ≡ calls }
        ensures stopped { result.stopped ≡ false }
    {
        Stop {
            left: calls,
            stopped: false,
        }
    }

    pub fn stopped(&self) -> bool
        ensures { result ≡ self.now.stopped }
    {
        self.stopped
    }

    // Whether this call is the one.
    pub fn hits(&mut self) -> bool
        ensures left { self.new.left ≡ self.old.left - 1 }
        ensures hit { result ≡ (self.old.left == 1) }
        ensures stopped { self.new.stopped ≡ (self.old.stopped || self.old.left == 1) }
    {
        if self.left == 0 {
            return false;
        }
        self.left -= 1;
        if self.left == 0 {
            self.stopped = true;
            return true;
        }
        false
    }
}

// How many calls failed, how many of them for a cause that is neither a stop nor a read's, and in how many a growth was
// refused.
#[derive(Drop)]
pub struct Tally {
    faults: u64,
    others: u64,
    short: u64,
    ghost among_faults: { others ≤ faults },
    ghost among_others: { short ≤ others },
}

impl Tally {
    pub fn new() -> Self
        ensures faults { result.faults ≡ 0 }
        ensures others { result.others ≡ 0 }
        ensures short { result.short ≡ 0 }
    {
        Tally {
            faults: 0,
            others: 0,
            short: 0,
        }
    }

    pub fn others(&self) -> u64
        ensures { result ≡ self.now.others }
    {
        self.others
    }

    // Counts a fault that was a stop's, or a read's.
    pub fn fail(&mut self) -> DiskFault
        ensures faults { self.new.faults ≡ one_more self.old.faults }
        ensures rose { HasRisen self.old.faults self.new.faults }
        ensures later { self.old.faults ≤ self.new.faults }
        ensures others { self.new.others ≡ self.old.others }
        ensures short { self.new.short ≡ self.old.short }
    {
        self.faults = raised(self.faults);
        DiskFault
    }

    // Counts a fault of a write or sync that no stop made.
    pub fn fail_unstopped(&mut self) -> DiskFault
        ensures faults { self.new.faults ≡ one_more self.old.faults }
        ensures rose { HasRisen self.old.faults self.new.faults }
        ensures later { self.old.faults ≤ self.new.faults }
        ensures others { HasRisen self.old.others self.new.others }
        ensures others_later { self.old.others ≤ self.new.others }
        ensures short { self.new.short ≡ self.old.short }
    {
        self.faults = raised(self.faults);
        self.others = raised(self.others);
        DiskFault
    }

    // Counts a fault that came since a growth was refused.
    pub fn refuse(&mut self) -> DiskFault
        ensures faults { self.new.faults ≡ one_more self.old.faults }
        ensures rose { HasRisen self.old.faults self.new.faults }
        ensures later { self.old.faults ≤ self.new.faults }
        ensures others { HasRisen self.old.others self.new.others }
        ensures others_later { self.old.others ≤ self.new.others }
        ensures short { self.new.short ≡ one_more self.old.short }
    {
        self.faults = raised(self.faults);
        self.others = raised(self.others);
        self.short = raised(self.short);
        DiskFault
    }
}
