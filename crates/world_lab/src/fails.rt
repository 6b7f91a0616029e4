//! How calls of an agent on its host end.

use plain_values::NoMemory;
use thiserror::Error;

/// Why the calls of an agent on its host weren't all made.
#[derive(Clone, Copy, Debug, PartialEq, Eq, Error)]
pub enum HostFail {
    /// A device call was stopped.
    #[error("a call of a device was stopped")]
    Stopped,
    /// Memory ran out.
    #[error("there was no memory")]
    NoMemory,
}

impl From<NoMemory> for HostFail {
    ghost use Rattle.std.specs.Prelude.{◌≡◌};
    ghost use Rattle.world_lab.specs.declared.fails.HostFail.TheVariants as fails;

    ghost from_gives = { λ _ result. result ≡ fails.NoMemory };

    fn from(_: NoMemory) -> HostFail {
        HostFail::NoMemory
    }
}
