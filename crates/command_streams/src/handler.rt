// What a command does with each message of a framed input.
ghost use Rattle.std.specs.Prelude.{◌≡◌, ◌+◌, ◌<◌, ◌≤◌, ◌^◌, ℕ, List, length, IfOk, OnErr};
ghost use Rattle.command_streams.specs.Made.{Made, Writes, Gives, HandledAs, FaultsWithin};

use message_codec::wire::{Out, Why};
use plain_values::NoMemory;
use std::alloc::Global;

/// What a command made of a message.
#[derive(Clone, Copy, Debug, PartialEq, Eq)]
pub enum Handled {
    /// What is written for it was added to the output.
    Written,
    /// The message has a fault. `at` counts bytes from the message's first one.
    Refused { at: u64, why: Why },
    /// Too much would be written.
    TooLong,
}

/// A command over framed messages. It goes from state to state, a message at a time.
pub trait Handler {
    // What may be made of a message in a state, and the state after it.
    ghost gives: { Self → List ℕ → Made → Self → Type 0 };

    // How far it has counted the messages: 0 for a handler that doesn't count.
    ghost counted: { Self → ℕ };

    /// Handles one message, and adds what is written for it behind the output of the messages before it. Where the message is refused, or too much would
    /// be written for it, the output stays as it was. So it does after `NoMemory`, and then the handler isn't used again. A run lends it so few messages
    /// that its count can rise.
    fn handle(
        &mut self,
        alloc: Global,
        message: &[u8],
        output: &mut Out,
    ) -> Result<Handled, NoMemory>
        requires few { counted self.old < 2 ^ 62 }
        ensures gives { IfOk result (HandledAs gives self.old message.now self.new output.old.bytes output.new.bytes) }
        ensures kept { OnErr result (output.new.bytes ≡ output.old.bytes) }
        ensures place { IfOk result (FaultsWithin (length message.now)) };

    // It counts one for a message at most.
    ghost counts: { (before after : Self) (message output : List ℕ) → gives before message (Writes output) after → counted after ≤ counted before + 1 };
}

/// A command told in states of its own: those that its contracts name, where the handler may keep others.
pub trait Told: Handler {
    ghost State: { Type 0 };

    // What may be made of a message in such a state, and the state after it.
    ghost makes: { Gives State };

    // The handler is as the state tells.
    ghost tells: { Self → State → Type 0 };
}
