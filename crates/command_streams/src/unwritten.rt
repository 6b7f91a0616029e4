// The sink of a command that writes nothing.
ghost use Rattle.std.specs.Prelude.{None};

use edge_devices::{Sink, WriteFault};

/// What is put into it goes nowhere, and nothing of it is told. It never fails.
#[derive(Drop)]
pub struct Unwritten;

impl Sink for Unwritten {
    ghost taken = { λ _. None };

    ghost faults = { λ _. 0 };

    fn put(&mut self, _bytes: &[u8]) -> Result<(), WriteFault> {
        Ok(())
    }
}
