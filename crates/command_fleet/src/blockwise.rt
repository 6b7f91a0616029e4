//! A reading block by block, in which the next block is read while one is decoded.

ghost use Rattle.std.specs.Prelude.{◌≡◌, ◌≢◌, ◌≤◌, ◌<◌, ◌^◌, [], Option, List, ℕ, length, IfOk, IfErr, IsErrOf, OnOk};
ghost use Rattle.std.specs.Thread.{IsSync};
ghost use Rattle.edge_devices.specs.Faults.{HasRisen};
ghost use Rattle.command_streams.specs.Held.{taken_of};
ghost use Rattle.command_streams.specs.Progress.{IsReadTo, Passes};
ghost use Rattle.command_streams.specs.Supplies.{Fills, TakesWithin};
ghost use Rattle.command_fleet.specs.Blocks.{GoesOn, HaltsAt, TakesOn};
ghost use Rattle.command_fleet.specs.Reading.{Collects};
ghost use Rattle.command_fleet.specs.Decoding.{AreDecodedIn};

use crate::decoding::{Decoded, decode_block};
use crate::reports::Reports;
use command_streams::{
    Halt, HeldBytes, RunFail, Stop, Supply, blocks_are_one_input, blocks_are_read, fill,
    frames_pass, handle_held,
};
use edge_devices::Source;
use plain_values::NoMemory;
use std::alloc::Global;
use std::marker::Sync;
use std::mem;
use std::thread::{Threads, join_mut};

/// What comes behind a block.
#[derive(Clone, Copy, Debug, PartialEq, Eq)]
pub(crate) enum Next {
    /// The next one is held, and so it was filled.
    Holds(Supply),
    /// Reading stops.
    Stops(Stop),
}

// Takes the parts that follow one another from the front of what is held.
fn take_parts(
    held: &mut HeldBytes,
    reports: &mut Reports,
    parts: Vec<Result<Decoded, NoMemory>>,
) -> Result<(), NoMemory>
    requires fits { taken_of held.old < 2 ^ 62 }
    requires decoded { AreDecodedIn held.old.bytes parts.items }
    ensures passes { OnOk result (Passes Collects reports.old reports.new held.old held.new) }
{
    frames_pass::<Reports>();
    let mut parts = parts;
    let mut passed = 0;
    'parts: while !parts.is_empty() {
        let part = parts.remove(0)?;
        if part.from != passed {
            return Ok(());
        }
        held.pass(part.len);
        passed += part.len;
        reports.append(part.into_reports())?;
    }
    Ok(())
}

/// Handles the messages of a block: the parts that were decoded from its front, and behind them a message with a fault or less than a frame.
pub(crate) fn handle_block(
    alloc: Global,
    held: &mut HeldBytes,
    reports: &mut Reports,
    parts: Vec<Result<Decoded, NoMemory>>,
) -> Result<Halt, NoMemory>
    requires fits { taken_of held.old < 2 ^ 62 }
    requires decoded { AreDecodedIn held.old.bytes parts.items }
    ensures halts { IfOk result (HaltsAt reports.old reports.new held.old held.new) }
{
    frames_pass::<Reports>();
    take_parts(held, reports, parts)?;
    handle_held(alloc, held, reports)
}

// Has a block decoded while the next one is taken from the source, in this thread.
fn decode_and_fill<R: Threads + Sync, S: Source>(
    rt: &R,
    alloc: Global,
    block: &[u8],
    desks: u64,
    ahead: &mut HeldBytes,
    source: &mut S,
    budget: u64,
) -> (
    Result<Vec<Result<Decoded, NoMemory>>, NoMemory>,
    Result<Supply, RunFail>,
)
    requires desks { 1 ≤ desks }
    requires within { (taken_of ahead.old ≤ budget) × (budget < 2 ^ 62) }
    ensures decoded { IfOk result.0 (λ parts. AreDecodedIn block.now parts.items) }
    ensures filled { IfOk result.1 (Fills budget ahead.old ahead.new (S.left source.old) (S.left source.new)) }
    ensures read_fault { IsErrOf result.1 RunFail.ReadFault → HasRisen (S.faults source.old) (S.faults source.new) }
    ensures no_write { IfErr result.1 (λ fail. fail ≢ RunFail.WriteFault) }
    ensures few { TakesWithin budget ahead.old (S.left source.old) (S.left source.new) }
    ensures count { S.faults source.old ≤ S.faults source.new }
{
    let mut decode = || -> Result<Vec<Result<Decoded, NoMemory>>, NoMemory>
        requires { IsSync R.row × (1 ≤ desks) }
        ensures { IfOk result (λ parts. AreDecodedIn block.entry.now parts.items) }
    { decode_block(rt, alloc, block, desks) };
    join_mut(rt, &mut decode, &mut || fill(ahead, source, budget))
}

/// Handles the messages of the block that is held, while the next one is read, which is held then. `ahead` is only memory for it.
pub(crate) fn read_on<R: Threads + Sync, S: Source>(
    rt: &R,
    alloc: Global,
    held: &mut HeldBytes,
    ahead: &mut HeldBytes,
    source: &mut S,
    reports: &mut Reports,
    desks: u64,
    budget: u64,
) -> Result<Next, RunFail>
    requires desks { 1 ≤ desks }
    requires within { (taken_of held.old ≤ budget) × (budget < 2 ^ 62) }
    ensures next { IfOk result (λ next. (input : Option (List ℕ)) → IsReadTo Collects [] budget held.old reports.old input (S.left source.old)
        → GoesOn budget held.new reports.new input (S.left source.new) next) }
    ensures on { IfOk result (TakesOn held.old held.new) }
    ensures read_fault { IsErrOf result RunFail.ReadFault → HasRisen (S.faults source.old) (S.faults source.new) }
    ensures no_write_fault { IsErrOf result RunFail.WriteFault → ⊥ }
    ensures few { TakesWithin budget held.old (S.left source.old) (S.left source.new) }
    ensures count { S.faults source.old ≤ S.faults source.new }
{
    frames_pass::<Reports>();
    blocks_are_read::<Reports>();
    blocks_are_one_input::<Reports>();
    let at = held.at() + held.bytes().len() as u64;
    ahead.begin_at(at)?;
    let (parts, filled) = decode_and_fill(rt, alloc, held.bytes(), desks, ahead, source, budget);
    match handle_block(alloc, held, reports, parts?)? {
        Halt::Wants(_) => {}
        Halt::Stops(stop) => return Ok(Next::Stops(stop)),
    }
    let supply = filled?;
    ahead.put_front(held.bytes())?;
    mem::swap(held, ahead);
    Ok(Next::Holds(supply))
}
