//! Which calls of a shelf in memory fail, and how many did; counts that stand still at the end of their range.

ghost use Rattle.std.specs.Prelude.{◌≡◌, ◌↔◌, ◌≤◌, IsTrue, true, false};
ghost use Rattle.edge_devices.specs.Faults.{HasRisen};
ghost use Rattle.edge_devices.specs.Schedules.{one_more};
ghost use Rattle.edge_shelf.specs.Counts.{IsListed, IsToFail, after_answer, after_change, after_look, opening};

use edge_devices::FolderFail;
use std::marker::Model;

// The count, raised by one.
pub(crate) fn raised(count: u64) -> u64
    ensures next { result ≡ one_more count }
    ensures risen { HasRisen count result }
    ensures later { count ≤ result }
{
    count.saturating_add(1)
}

// The numbers of the calls that are to fail, and the counts. Calls are numbered from 0.
#[derive(Drop)]
pub(crate) struct Counts {
    failing: Vec<u64>,
    next: u64,
    stop: u64,
    stopped: bool,
    faults: u64,
}

impl Model for Counts {
    ghost use Rattle.edge_shelf.specs.Counts.{CountState};

    ghost Value = { CountState };

    ghost view = { λ c. record {
      failing = c.failing.items;
      next = c.next;
      stop = c.stop;
      stopped = c.stopped;
      faults = c.faults;
    } };
}

impl Counts {
    // No call yet, and none that is to be stopped.
    pub(crate) fn new(failing: Vec<u64>) -> Counts
        ensures made { result ≡ opening failing.items }
    {
        Counts {
            failing,
            next: 0,
            stop: 0,
            stopped: false,
            faults: 0,
        }
    }

    // Stops the change of this number, counted from 1 from now on; 0 stops none.
    pub(crate) fn arm(&mut self, changes: u64)
        ensures armed { self.new ≡ record self.old { stop = changes; stopped = false } }
    {
        self.stop = changes;
        self.stopped = false;
    }

    // Whether a change was stopped since the last `arm`.
    pub(crate) fn stopped(&self) -> bool
        ensures stopped { result ≡ self.now.stopped }
    {
        self.stopped
    }

    // Counts a call that only looks, and says whether it is to fail.
    pub(crate) fn begin(&mut self) -> bool
        ensures counted { self.new ≡ after_look self.old false }
        ensures listed { IsTrue result ↔ IsListed self.old }
    {
        let call = self.next;
        self.next = raised(call);
        self.failing.contains(&call)
    }

    // Counts a change, and says whether it is to fail.
    pub(crate) fn begin_change(&mut self) -> bool
        ensures counted { self.new ≡ after_change self.old false }
        ensures fails { IsTrue result ↔ IsToFail self.old }
    {
        let listed = self.begin();
        let stops = self.stop == 1;
        self.stop = self.stop.saturating_sub(1);
        self.stopped = self.stopped || stops;
        listed || stops
    }

    // Counts a fault.
    pub(crate) fn fail(&mut self) -> FolderFail
        ensures fault { result ≡ FolderFail.Fault }
        ensures counted { self.new ≡ after_answer self.old true }
        ensures risen { HasRisen self.old.faults self.new.faults }
        ensures later { self.old.faults ≤ self.new.faults }
    {
        self.faults = raised(self.faults);
        FolderFail::Fault
    }
}
