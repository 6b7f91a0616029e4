//! Which calls of an object in memory fail, and how many did.

ghost use Rattle.std.specs.Prelude.{◌≡◌, ◌↔◌, ◌≤◌, IsTrue, false};
ghost use Rattle.edge_devices.specs.Faults.{HasRisen};
ghost use Rattle.edge_devices.specs.Schedules.{IsListed, after_call, one_more, opening};

use crate::counts::raised;
use std::marker::Model;

// The numbers of the calls that are to fail, and the counts. Calls are numbered from 0.
#[derive(Drop)]
pub(crate) struct Schedule {
    failing: Vec<u64>,
    next: u64,
    faults: u64,
    short: u64,
}

impl Model for Schedule {
    ghost use Rattle.edge_devices.specs.Faults.{HasRisen};
    ghost use Rattle.edge_devices.specs.Schedules.{ScheduleState};

    ghost Value = { ScheduleState };

    ghost view = { λ s. record {
      failing = s.failing.items;
      next = s.next;
      faults = s.faults;
      short = s.short;
    } };
}

impl Schedule {
    // No call yet.
    pub(crate) fn new(failing: Vec<u64>) -> Schedule
        ensures made { result ≡ opening failing.items }
    {
        Schedule {
            failing,
            next: 0,
            faults: 0,
            short: 0,
        }
    }

    // Counts a call, and says whether it is to fail.
    pub(crate) fn begin(&mut self) -> bool
        ensures counted { self.new ≡ after_call self.old false }
        ensures listed { IsTrue result ↔ IsListed self.old }
    {
        let call = self.next;
        self.next = raised(call);
        self.failing.contains(&call)
    }

    // Counts a fault.
    pub(crate) fn fail(&mut self)
        ensures counted { self.new ≡ record self.old { faults = one_more self.old.faults } }
        ensures risen { HasRisen self.old.faults self.new.faults }
        ensures count { self.old.faults ≤ self.new.faults }
    {
        self.faults = raised(self.faults);
    }

    // Counts a fault that came since a growth was refused.
    pub(crate) fn refuse(&mut self)
        ensures counted { self.new ≡ record self.old { faults = one_more self.old.faults; short = one_more self.old.short } }
        ensures risen { HasRisen self.old.faults self.new.faults }
        ensures count { self.old.faults ≤ self.new.faults }
    {
        self.faults = raised(self.faults);
        self.short = raised(self.short);
    }
}
