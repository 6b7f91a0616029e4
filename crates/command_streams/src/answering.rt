// What a command does with the bytes that are held.
ghost use Rattle.std.specs.Prelude.{◌≡◌, ◌+◌, ◌^◌, ◌<◌, ◌≤◌, length, IfErr, IsErrOf};
ghost use Rattle.edge_devices.specs.Faults.{HasRisen};
ghost use Rattle.command_streams.specs.Held.{taken_of};
ghost use Rattle.command_streams.specs.Blocks.{AnswersHeld, AnswersBlock};

use crate::front::{Front, HEADER, front_of};
use crate::handler::{Handled, Handler};
use crate::held::HeldBytes;
use crate::stop::{RunFail, Stop};
use edge_devices::Sink;
use message_codec::wire::{Out, Why};
use plain_values::NoMemory;
use std::alloc::Global;

/// Why no further frame of those that are held is answered.
#[derive(Clone, Copy, Debug, PartialEq, Eq)]
pub enum Halt {
    /// The next frame isn't whole. As far as the bytes that are held tell it takes so many.
    Wants(usize),
    /// Reading stops.
    Stops(Stop),
}

// Where reading stops, if a message has a fault and its frame's first byte is here.
fn refused_in_frame(at: u64, offset: u64, why: Why) -> Stop
    requires fits { at + 4 + offset < 2 ^ 64 }
    ensures stop { result ≡ Stop.Refused (at + 4 + offset) why }
{
    Stop::Refused {
        at: at + 4 + offset,
        why,
    }
}

// Answers each whole frame that is held, and adds its output to those that are still to be written.
pub(crate) fn answer_frames<H: Handler>(
    alloc: Global,
    held: &mut HeldBytes,
    handler: &mut H,
    pending: &mut Out,
) -> Result<Halt, NoMemory>
    requires fits { taken_of held.old < 2 ^ 62 }
    requires few { H.counted handler.old + length held.old.bytes < 2 ^ 62 }
    ensures answers { AnswersHeld H.gives handler.old handler.new held.old held.new pending.old.bytes pending.new.bytes result }
{
    'frames: loop {
        let len = match front_of(held.bytes()) {
            Front::Frame(len) => len,
            Front::Part(need) => return Ok(Halt::Wants(need)),
            Front::Large => {
                return Ok(Halt::Stops(Stop::Refused {
                    at: held.at(),
                    why: Why::TooLarge,
                }));
            }
        };
        let whole = HEADER + len;
        match handler.handle(alloc, &held.bytes()[HEADER..whole], pending)? {
            Handled::Written => held.pass(whole),
            Handled::Refused { at: offset, why } => {
                return Ok(Halt::Stops(refused_in_frame(held.at(), offset, why)));
            }
            Handled::TooLong => return Ok(Halt::Stops(Stop::TooLong)),
        }
    }
}

/// Answers each whole frame that is held, and gives all their output to the sink in one call, also where there was no memory for a further one.
/// `pending` is only memory for the output, which is used again from block to block.
pub fn answer_block<K: Sink, H: Handler>(
    alloc: Global,
    held: &mut HeldBytes,
    sink: &mut K,
    handler: &mut H,
    pending: &mut Out,
) -> Result<Halt, RunFail>
    requires fits { taken_of held.old < 2 ^ 62 }
    requires few { H.counted handler.old + length held.old.bytes < 2 ^ 62 }
    ensures answers { AnswersBlock H.gives handler.old handler.new held.old held.new (K.taken sink.old) (K.taken sink.new) result }
    ensures write_fault { IsErrOf result RunFail.WriteFault → HasRisen (K.faults sink.old) (K.faults sink.new) }
    ensures sink_count { K.faults sink.old ≤ K.faults sink.new }
{
    pending.clear();
    let answered = answer_frames(alloc, held, handler, pending);
    let output = pending.as_slice();
    if !output.is_empty() {
        sink.put(output)?;
    }
    Ok(answered?)
}
