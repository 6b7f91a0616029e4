//! Why a call of the store fails.

use edge_devices::DiskFault;
use plain_values::NoMemory;
use std::alloc::AllocError;
use thiserror::Error;

/// Why a call of the store fails.
#[derive(Clone, Copy, Debug, PartialEq, Eq, Error)]
pub enum StoreFail {
    /// The disk failed. After a save that failed so, the store is broken, and the disk is loaded again.
    #[error("the disk failed")]
    DiskFault,
    /// The slot that counts isn't right. Two open slots of the same generation are told as slot 0.
    #[error("slot {slot} is damaged")]
    Damaged { slot: u32 },
    /// The part's canonical bytes are more than a slot has room for.
    #[error("the part doesn't fit in a slot")]
    TooBig,
    /// There is no memory for what is read.
    #[error("there was no memory")]
    NoMemory,
    /// A new slot is needed, and no generation is left.
    #[error("no generation is left")]
    Spent,
}

impl From<NoMemory> for StoreFail {
    ghost use Rattle.std.specs.Prelude.{◌≡◌};
    ghost use Rattle.agent_store.specs.declared.fail.StoreFail.TheVariants as fails;

    ghost from_gives = { λ _ e. e ≡ fails.NoMemory };

    fn from(_: NoMemory) -> Self {
        StoreFail::NoMemory
    }
}

impl From<AllocError> for StoreFail {
    ghost use Rattle.std.specs.Prelude.{◌≡◌};
    ghost use Rattle.agent_store.specs.declared.fail.StoreFail.TheVariants as fails;

    ghost from_gives = { λ _ e. e ≡ fails.NoMemory };

    fn from(_: AllocError) -> Self {
        StoreFail::NoMemory
    }
}

impl From<DiskFault> for StoreFail {
    ghost use Rattle.std.specs.Prelude.{◌≡◌};
    ghost use Rattle.agent_store.specs.declared.fail.StoreFail.TheVariants as fails;

    ghost from_gives = { λ _ e. e ≡ fails.DiskFault };

    fn from(_: DiskFault) -> Self {
        StoreFail::DiskFault
    }
}
