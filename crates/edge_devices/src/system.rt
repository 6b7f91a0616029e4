//! The clock and the source of random bytes of the system: a part of the edge of the program that its
//! proofs trust. They tell neither waits nor bytes.

ghost use Rattle.std.specs.Prelude.{◌≡◌};

use crate::clocks::{Clock, ClockFault, Entropy, EntropyFault};
use crate::counts::raised;
use std::random::RandomSource;
use std::thread;
use std::time::{Clock as SystemTime, Duration};

/// The clock of the system. Its waits never fail.
#[derive(Drop)]
pub struct SystemClock<R> {
    rt: R,
    faults: u64,
}

impl<R> SystemClock<R> {
    /// No wait yet.
    pub fn new(rt: R) -> SystemClock<R> {
        SystemClock { rt, faults: 0 }
    }
}

impl<R: SystemTime> Clock for SystemClock<R> {
    ghost use Rattle.edge_devices.specs.Silent.{silent_clock};

    ghost state = { λ clock. silent_clock clock.faults };

    fn wait(&mut self, nanos: u64) -> Result<(), ClockFault> {
        thread::sleep(&self.rt, Duration::from_nanos(nanos));
        Ok(())
    }
}

/// The system's source of random bytes.
#[derive(Drop)]
pub struct SystemEntropy<R> {
    rt: R,
    faults: u64,
}

impl<R> SystemEntropy<R> {
    /// No fault yet.
    pub fn new(rt: R) -> SystemEntropy<R> {
        SystemEntropy { rt, faults: 0 }
    }
}

impl<R: RandomSource> Entropy for SystemEntropy<R> {
    ghost use Rattle.edge_devices.specs.Silent.{silent_entropy};

    ghost state = { λ source. silent_entropy source.faults };

    fn fill(&mut self, into: &mut [u8; 16]) -> Result<(), EntropyFault> {
        match self.rt.fill_bytes(into.as_mut_slice()) {
            Ok(()) => Ok(()),
            Err(_) => {
                self.faults = raised(self.faults);
                Err(EntropyFault)
            }
        }
    }
}
