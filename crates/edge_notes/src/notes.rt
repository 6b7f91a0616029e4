//! What a run that doesn't end well notes.

ghost use Rattle.std.specs.Prelude.{◌≡◌};
ghost use Rattle.edge_notes.specs.Texts.{text_of};

/// What was refused or failed, and where.
#[derive(Clone, Copy)]
pub enum Note {
    /// The input has a fault, which stands at the output's end.
    InputRefused,
    /// The input couldn't be read.
    InputUnread,
    /// The output couldn't be written.
    OutputUnwritten,
    /// Memory was wanting.
    NoMemory,
    /// The store couldn't be read or written.
    StoreFault,
    /// The store is damaged.
    StoreDamaged,
    /// The folder, the clock or the random bytes of an agent failed.
    OutsideFault,
    /// The sockets of a server failed.
    SocketsFault,
    /// The input is longer than a run reads.
    InputTooLong,
    /// As many events were served as there were to be.
    TurnsSpent,
    /// As many rounds were done as there were to be.
    RoundsSpent,
    /// No number is left for a report, or none for what is to be kept.
    NumbersSpent,
    /// What would be written of a message is too large.
    MessageTooLarge,
    /// A report is too large, or what is to be kept.
    ReportTooLarge,
    /// The offer of a rollout is too large.
    RolloutTooLarge,
}

impl Note {
    /// Its line.
    pub fn text(self) -> &'static str
        ensures text { result.now ≡ text_of self }
    {
        match self {
            Note::InputRefused => "input: refused\n",
            Note::InputUnread => "standard input: can't be read\n",
            Note::OutputUnwritten => "standard output: can't be written\n",
            Note::NoMemory => "memory: wanting\n",
            Note::StoreFault => "store: can't be read or written\n",
            Note::StoreDamaged => "store: damaged\n",
            Note::OutsideFault => "folder, clock or random bytes: failed\n",
            Note::SocketsFault => "sockets: failed\n",
            Note::InputTooLong => "input: too long\n",
            Note::TurnsSpent => "turns: all taken\n",
            Note::RoundsSpent => "rounds: all done\n",
            Note::NumbersSpent => "numbers: spent\n",
            Note::MessageTooLarge => "output: a message is too large\n",
            Note::ReportTooLarge => "report or store: too large\n",
            Note::RolloutTooLarge => "rollout: too large\n",
        }
    }
}
