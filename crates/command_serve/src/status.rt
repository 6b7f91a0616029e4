//! How `serve` ends.

ghost use Rattle.std.specs.Prelude.{◌≡◌};
ghost use Rattle.command_serve.specs.Statuses.{IsServeStatus, rollout_status_of, status_of};

/// How `serve` ended.
#[derive(Clone, Copy, Debug, PartialEq, Eq)]
pub enum ServeStatus {
    /// An operator's line `stop` came.
    Stopped,
    /// The sink answered its fault.
    WriteFault,
    /// There was no memory.
    NoMemory,
    /// The wire took no connections at an address, or failed where it was asked for the next event.
    WireFault,
    /// So many events were taken as may be.
    TurnsSpent,
}

impl ServeStatus {
    /// The exit status: 0 stopped, 4 write fault, 5 want of memory, 8 wire fault, 9 turns spent.
    pub fn code(self) -> u8
        ensures code { result ≡ status_of self }
        ensures statuses { IsServeStatus result }
    {
        match self {
            ServeStatus::Stopped => 0,
            ServeStatus::WriteFault => 4,
            ServeStatus::NoMemory => 5,
            ServeStatus::WireFault => 8,
            ServeStatus::TurnsSpent => 9,
        }
    }
}

/// How `serve` with a rollout ended.
#[derive(Clone, Copy, Debug, PartialEq, Eq)]
pub enum RolloutStatus {
    /// As `serve` without one ends.
    Served(ServeStatus),
    /// The offer of the configuration is too large.
    TooLarge,
}

impl RolloutStatus {
    /// The exit status: that of `serve`, or 11 for an offer that is too large.
    pub fn code(self) -> u8
        ensures code { result ≡ rollout_status_of self }
    {
        match self {
            RolloutStatus::Served(status) => status.code(),
            RolloutStatus::TooLarge => 11,
        }
    }
}
