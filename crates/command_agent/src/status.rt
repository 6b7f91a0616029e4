//! How `agent` ends.

ghost use Rattle.std.specs.Prelude.{◌≡◌};
ghost use Rattle.command_agent.specs.Statuses.{IsAgentStatus, status_of};

/// How `agent` ended.
#[derive(Clone, Copy, Debug, PartialEq, Eq)]
pub enum AgentStatus {
    /// A server commanded a restart.
    Restarted,
    /// The sink answered its fault.
    WriteFault,
    /// There was no memory.
    NoMemory,
    /// The disk answered its fault where the store was loaded, or where something was to be kept.
    StoreFault,
    /// The store that was loaded is damaged.
    Damaged,
    /// The folder answered its fault where the area was settled first, the clock where it was to wait, or the source of random bytes where the
    /// identifier of a fresh store was drawn.
    OutsideFault,
    /// So many rounds were done as may be.
    RoundsSpent,
    /// A report needed a number and no more can be reserved, or something was to be kept and nothing more can be.
    NumbersSpent,
    /// A report was too large, or something that was to be kept.
    TooLarge,
}

impl AgentStatus {
    /// The exit status: 0 restarted, 4 write fault, 5 want of memory, 6 store fault, 7 damaged, 8 outside fault, 9 rounds spent, 10 numbers spent, 11 too
    /// large.
    pub fn code(self) -> u8
        ensures code { result ≡ status_of self }
        ensures statuses { IsAgentStatus result }
    {
        match self {
            AgentStatus::Restarted => 0,
            AgentStatus::WriteFault => 4,
            AgentStatus::NoMemory => 5,
            AgentStatus::StoreFault => 6,
            AgentStatus::Damaged => 7,
            AgentStatus::OutsideFault => 8,
            AgentStatus::RoundsSpent => 9,
            AgentStatus::NumbersSpent => 10,
            AgentStatus::TooLarge => 11,
        }
    }
}
