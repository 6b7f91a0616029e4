//! How rounds end.

ghost use Rattle.std.specs.Prelude.{◌≡◌};
ghost use Rattle.agent_rounds.specs.Moments.{IsCallEnd, IsEndOf};

use agent_rules::AgentFail;
use thiserror::Error;

/// Why a round ended the run.
#[derive(Clone, Copy, Debug, PartialEq, Eq, Error)]
pub enum AgentEnd {
    /// The disk failed. The agent is broken, and starts again with what its store reads.
    #[error("the disk failed")]
    StoreFault,
    /// The folder failed at the first settling.
    #[error("the folder failed")]
    FolderFault,
    /// The clock failed.
    #[error("the clock failed")]
    ClockFault,
    /// All rounds were done.
    #[error("all rounds were done")]
    RoundsSpent,
    /// No more numbers can be reserved, or nothing more can be kept.
    #[error("no more numbers can be reserved")]
    NumbersSpent,
    /// The report is too large, or what is to be kept is more than there is room for.
    #[error("the report, or what is to be kept, is too large")]
    TooLarge,
    /// Memory ran out.
    #[error("there was no memory")]
    NoMemory,
}

/// What follows a round: a restart or not, and a wait of so many nanoseconds, or none.
#[derive(Clone, Copy, Debug, PartialEq, Eq)]
pub struct Pause {
    /// Whether the server commanded a restart.
    pub restart: bool,
    /// The wait in nanoseconds.
    pub nanos: Option<u64>,
}

/// The end of a round for a call of the agent that failed. The reply that an agent is handed is one to it.
pub(crate) fn end_of(fail: AgentFail) -> AgentEnd
    requires { fail ≡ AgentFail.WrongUid → ⊥ }
    ensures end { IsEndOf fail result }
    ensures call { IsCallEnd result }
{
    match fail {
        AgentFail::StoreFault => AgentEnd::StoreFault,
        AgentFail::NumbersSpent => AgentEnd::NumbersSpent,
        AgentFail::WrongUid => unreachable!(),
        AgentFail::TooLarge => AgentEnd::TooLarge,
        AgentFail::NoMemory => AgentEnd::NoMemory,
    }
}
