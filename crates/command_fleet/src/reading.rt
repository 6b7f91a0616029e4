//! The reports that the command `fleet` reads.

ghost use Rattle.std.specs.Prelude.{◌≡◌, ◌≢◌, ◌≤◌, ◌<◌, ◌^◌, [], ℕ, List, Option, IfOk, IsErrOf};
ghost use Rattle.edge_devices.specs.Faults.{HasRisen};
ghost use Rattle.command_streams.specs.Held.{taken_of};
ghost use Rattle.command_streams.specs.Replies.{TakesAll};
ghost use Rattle.command_fleet.specs.Blocks.{IsReadOn, TakesFewBehind};
ghost use Rattle.command_fleet.specs.Reading.{Collects, ReadsReports};

use crate::blockwise::{Next, handle_block, read_on};
use crate::decoding::decode_block;
use crate::reports::Reports;
use command_streams::{
    Halt, HeldBytes, RunFail, Stop, Supply, blocks_are_one_input, blocks_are_read, fill,
    frames_pass, stop_at_end, take_all,
};
use edge_devices::Source;
use plain_values::NoMemory;
use std::alloc::Global;
use std::marker::Sync;
use std::thread::Threads;

/// Reads the framed reports of the source, within a budget of bytes, and says where reading stopped. The reports before a fault of the input are kept.
///
/// The source's fault and want of memory end the reading.
pub(crate) fn read_reports<S: Source>(
    alloc: Global,
    source: &mut S,
    reports: &mut Reports,
    budget: u64,
) -> Result<Stop, RunFail>
    requires empty { reports.old ≡ [] }
    requires budget { budget < 2 ^ 62 }
    ensures reads { IfOk result (ReadsReports budget (S.left source.old) reports.new) }
    ensures read_fault { IsErrOf result RunFail.ReadFault → HasRisen (S.faults source.old) (S.faults source.new) }
    ensures no_write_fault { IsErrOf result RunFail.WriteFault → ⊥ }
    ensures few { TakesFewBehind budget (S.left source.old) (S.left source.new) }
{
    take_all(alloc, source, reports, budget)
}

/// The same by so many desks: where there are several, the source is read in blocks of 16 MiB and more, and the messages of a block are decoded by all of them
/// while the next one is read. So the source may have been asked for one block more before a fault of the input stops the reading.
pub(crate) fn read_by_desks<R: Threads + Sync, S: Source>(
    rt: &R,
    alloc: Global,
    source: &mut S,
    reports: &mut Reports,
    desks: u64,
    budget: u64,
) -> Result<Stop, RunFail>
    requires desks { 1 ≤ desks }
    requires empty { reports.old ≡ [] }
    requires budget { budget < 2 ^ 62 }
    ensures reads { IfOk result (ReadsReports budget (S.left source.old) reports.new) }
    ensures read_fault { IsErrOf result RunFail.ReadFault → HasRisen (S.faults source.old) (S.faults source.new) }
    ensures no_write_fault { IsErrOf result RunFail.WriteFault → ⊥ }
    ensures few { TakesFewBehind budget (S.left source.old) (S.left source.new) }
{
    if desks == 1 {
        return read_reports(alloc, source, reports, budget);
    }
    read_blocks(rt, alloc, source, reports, desks, budget)
}

// Reads block by block. The next block is read while one is decoded; what the desks leave of it, a message with a fault or less than a frame, is handled
// behind that.
fn read_blocks<R: Threads + Sync, S: Source>(
    rt: &R,
    alloc: Global,
    source: &mut S,
    reports: &mut Reports,
    desks: u64,
    budget: u64,
) -> Result<Stop, RunFail>
    requires desks { 1 ≤ desks }
    requires empty { reports.old ≡ [] }
    requires budget { budget < 2 ^ 62 }
    ensures reads { IfOk result (ReadsReports budget (S.left source.old) reports.new) }
    ensures read_fault { IsErrOf result RunFail.ReadFault → HasRisen (S.faults source.old) (S.faults source.new) }
    ensures no_write_fault { IsErrOf result RunFail.WriteFault → ⊥ }
    ensures few { TakesFewBehind budget (S.left source.old) (S.left source.new) }
{
    blocks_are_read::<Reports>();
    let mut held = HeldBytes::new(alloc);
    let mut ahead = HeldBytes::new(alloc);
    let mut supply = fill(&mut held, source, budget)?;
    'blocks: loop {
        match supply {
            Supply::More => {}
            Supply::End | Supply::Spent => {
                return Ok(read_last(rt, alloc, &mut held, reports, desks, supply)?);
            }
        }
        match read_on(
            rt, alloc, &mut held, &mut ahead, source, reports, desks, budget,
        )? {
            Next::Holds(next) => supply = next,
            Next::Stops(stop) => return Ok(stop),
        }
    }
}

// Handles the messages of the last block, behind which the input or the budget ends, and says where reading stopped.
fn read_last<R: Threads + Sync>(
    rt: &R,
    alloc: Global,
    held: &mut HeldBytes,
    reports: &mut Reports,
    desks: u64,
    supply: Supply,
) -> Result<Stop, NoMemory>
    requires desks { 1 ≤ desks }
    requires fits { taken_of held.old < 2 ^ 62 }
    requires last { supply ≢ Supply.More }
    ensures stop { IfOk result (λ stop. (budget : ℕ) (input left : Option (List ℕ)) → IsReadOn budget held.old reports.old input left supply → TakesAll Collects [] reports.new budget input stop) }
{
    frames_pass::<Reports>();
    blocks_are_read::<Reports>();
    blocks_are_one_input::<Reports>();
    let parts = decode_block(rt, alloc, held.bytes(), desks)?;
    match handle_block(alloc, held, reports, parts)? {
        Halt::Stops(stop) => Ok(stop),
        Halt::Wants(_) => Ok(match supply {
            Supply::End => stop_at_end(held),
            Supply::More | Supply::Spent => Stop::Spent,
        }),
    }
}
