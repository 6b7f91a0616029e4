//! How a run ends, before it is told.

ghost use Rattle.std.specs.Prelude.{◌≡◌};
ghost use Rattle.command_agent.specs.Endings.{line_of, status_for};

use crate::lines::Line;
use crate::status::AgentStatus;

/// How a run ends.
#[derive(Clone, Copy, Debug, PartialEq, Eq)]
pub enum Ending {
    /// A restart was commanded in the round of this number.
    Restarted(u64),
    /// All rounds were done.
    RoundsSpent,
    /// The store is damaged in this slot.
    Damaged(u32),
    /// The disk answered its fault.
    StoreFault,
    /// The folder, the clock or the source of random bytes answered its fault.
    OutsideFault,
    /// No more numbers can be reserved, or nothing more can be kept.
    NumbersSpent,
    /// A report was too large, or something that was to be kept.
    TooLarge,
    /// There was no memory.
    NoMemory,
}

impl Ending {
    /// The line that tells it, if there is one, of a run of so many rounds at most.
    pub(crate) fn line(self, rounds: u64) -> Option<Line>
        ensures line { result ≡ line_of rounds self }
    {
        match self {
            Ending::Restarted(round) => Some(Line::Restart(round)),
            Ending::RoundsSpent => Some(Line::Rounds(rounds)),
            Ending::Damaged(slot) => Some(Line::Damaged(slot)),
            _ => None,
        }
    }

    /// Its status.
    pub(crate) fn status(self) -> AgentStatus
        ensures status { result ≡ status_for self }
    {
        match self {
            Ending::Restarted(_) => AgentStatus::Restarted,
            Ending::RoundsSpent => AgentStatus::RoundsSpent,
            Ending::Damaged(_) => AgentStatus::Damaged,
            Ending::StoreFault => AgentStatus::StoreFault,
            Ending::OutsideFault => AgentStatus::OutsideFault,
            Ending::NumbersSpent => AgentStatus::NumbersSpent,
            Ending::TooLarge => AgentStatus::TooLarge,
            Ending::NoMemory => AgentStatus::NoMemory,
        }
    }
}
