//! What waits, and where random bytes come from.

ghost use Rattle.edge_devices.specs.Clocks.{ClockState, EntropyState, Fills, Waits};

use thiserror::Error;

/// The clock could not wait.
#[derive(Clone, Copy, Debug, PartialEq, Eq, Error)]
#[error("the clock failed")]
pub struct ClockFault;

/// There were no random bytes.
#[derive(Clone, Copy, Debug, PartialEq, Eq, Error)]
#[error("no random bytes were drawn")]
pub struct EntropyFault;

/// What waits.
pub trait Clock {
    // The waits, and the count of faults.
    ghost state: { Self → ClockState };

    /// Waits so many nanoseconds. After a fault nothing is said of how long it waited.
    fn wait(&mut self, nanos: u64) -> Result<(), ClockFault>
        ensures waits { Waits (state self.old) (state self.new) nanos result };
}

/// A source of random bytes.
pub trait Entropy {
    // The bytes to come, the calls with their answers, and the count of faults.
    ghost state: { Self → EntropyState };

    /// Sixteen random bytes. After a fault nothing is said of `into`.
    fn fill(&mut self, into: &mut [u8; 16]) -> Result<(), EntropyFault>
        ensures fills { Fills (state self.old) (state self.new) into.new result };
}
