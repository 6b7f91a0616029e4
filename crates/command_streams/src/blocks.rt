// A stream block by block, for a caller that has the frames of a block handled in its own way.
ghost use Rattle.std.specs.Prelude.{◌≡◌, ◌≢◌, ◌+◌, ◌<◌, ◌≤◌, ◌^◌, [], length, IfOk, IfErr, OnOk, IsErrOf};
ghost use Rattle.std.specs.Io.KnownBytes.{Keeps};
ghost use Rattle.edge_devices.specs.Faults.{HasRisen};
ghost use Rattle.command_streams.specs.Held.{taken_of};
ghost use Rattle.command_streams.specs.Blocks.{HandlesHeld};
ghost use Rattle.command_streams.specs.Supplies.{Fills, TakesWithin};

use crate::MESSAGE_LIMIT;
use crate::answering::{Halt, answer_frames};
use crate::front::HEADER;
use crate::handler::Handler;
use crate::held::{HeldBytes, Supply};
use crate::stop::RunFail;
use edge_devices::Source;
use message_codec::wire::Out;
use plain_values::NoMemory;
use std::alloc::Global;

/// How many bytes a block has at least, but for the last one: those of four of the longest frames. A block is shared by threads, and what it takes to begin
/// them has to be little beside what they do.
pub const BLOCK_BYTES: usize = 4 * (HEADER + MESSAGE_LIMIT as usize);

/// Takes from the source until a block is held, the input ends or the budget is taken. `More` says that a block is held.
pub fn fill<S: Source>(held: &mut HeldBytes, source: &mut S, budget: u64) -> Result<Supply, RunFail>
    requires within { (taken_of held.old ≤ budget) × (budget < 2 ^ 62) }
    ensures filled { IfOk result (Fills budget held.old held.new (S.left source.old) (S.left source.new)) }
    ensures within { TakesWithin budget held.old (S.left source.old) (S.left source.new) }
    ensures read_fault { IsErrOf result RunFail.ReadFault → HasRisen (S.faults source.old) (S.faults source.new) }
    ensures no_write { IfErr result (λ fail. fail ≢ RunFail.WriteFault) }
    ensures count { S.faults source.old ≤ S.faults source.new }
{
    'fills: while held.bytes().len() < BLOCK_BYTES {
        match held.take_more(source, BLOCK_BYTES, budget)? {
            Supply::More => {}
            Supply::End => return Ok(Supply::End),
            Supply::Spent => return Ok(Supply::Spent),
        }
    }
    Ok(Supply::More)
}

/// Has a command handle each whole frame that is held. What the command would write is left out.
pub fn handle_held<H: Handler>(
    alloc: Global,
    held: &mut HeldBytes,
    handler: &mut H,
) -> Result<Halt, NoMemory>
    requires fits { taken_of held.old < 2 ^ 62 }
    requires few { H.counted handler.old + length held.old.bytes < 2 ^ 62 }
    ensures handles { HandlesHeld H.gives handler.old handler.new held.old held.new result }
{
    let mut unwritten = Out::new(alloc);
    answer_frames(alloc, held, handler, &mut unwritten)
}
