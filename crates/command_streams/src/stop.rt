// How a run over a framed stream ends.
ghost use Rattle.std.specs.Prelude.{◌≡◌};
ghost use Rattle.command_streams.specs.declared.stop.RunFail.TheVariants.{NoMemory as NoMemoryEnd, ReadFault as ReadFaultEnd, WriteFault as WriteFaultEnd};

use edge_devices::{ReadFault, WriteFault};
use message_codec::wire::Why;
use plain_values::NoMemory;
use thiserror::Error;

/// Where reading stopped, though the source could be read.
#[derive(Clone, Copy, Debug, PartialEq, Eq)]
pub enum Stop {
    /// At the end of the input, behind its last frame.
    Ended,
    /// At a fault of the input. `at` counts bytes from the input's first one.
    Refused { at: u64, why: Why },
    /// At a message for which too much would be written.
    TooLong,
    /// Where the budget of bytes was taken without the end of the input.
    Spent,
}

/// What a command writes.
#[derive(Clone, Copy, Debug, PartialEq, Eq)]
pub enum OutputForm {
    /// Frames, so that a note on a refused input stands behind four bytes `ff`, with which no frame begins.
    Frames,
    /// Lines of text, so that a note is one more line.
    Lines,
}

/// What ended a run before reading stopped.
#[derive(Clone, Copy, Debug, PartialEq, Eq, Error)]
pub enum RunFail {
    /// The source answered its fault.
    #[error("the source can't be read")]
    ReadFault,
    /// The sink answered its fault.
    #[error("the sink can't be written")]
    WriteFault,
    /// There was no memory.
    #[error("there was no memory")]
    NoMemory,
}

impl From<NoMemory> for RunFail {
    ghost from_gives = { λ _ e. e ≡ NoMemoryEnd };

    fn from(_error: NoMemory) -> RunFail {
        RunFail::NoMemory
    }
}

impl From<ReadFault> for RunFail {
    ghost from_gives = { λ _ e. e ≡ ReadFaultEnd };

    fn from(_error: ReadFault) -> RunFail {
        RunFail::ReadFault
    }
}

impl From<WriteFault> for RunFail {
    ghost from_gives = { λ _ e. e ≡ WriteFaultEnd };

    fn from(_error: WriteFault) -> RunFail {
        RunFail::WriteFault
    }
}
