//! The reports of a fleet, handled by desks in threads of their own.

ghost use Rattle.std.specs.Prelude.{◌≡◌, ◌<◌, ◌≤◌, ℕ, All, IfErr, IfOk, Ok, Result, length, map, slice_index_or};
ghost use Rattle.shard_journals.specs.Fleets.{AreJournalsOf};
ghost use Rattle.shard_servers.specs.Desks.{AreFresh, AtDesk};
ghost use Rattle.plain_values.specs.declared.memory.NoMemory.{NoMemory};
ghost use Rattle.shard_servers.specs.Runs.{FailsToRun};
ghost use Rattle.shard_servers.specs.Work.{AreWorked, HasWorked};

use crate::checks::CloseFail;
use crate::desks::Desk;
use crate::shards::{DESK_LIMIT, Shards};
use crate::working::{Gate, work};
use message_values::AgentToServer;
use plain_values::{List, NoMemory};
use shard_journals::{FLEET_CAPABILITIES, Row, handle_in_order, journals_cross_threads};
use std::alloc::{AllocError, Global};
use std::marker::{Brand, Send, Sync};
use std::sync::Wait;
use std::sync::ledger::{Blank, Ledger};
use std::thread;
use std::thread::Threads;

/// Lets `desks` desks handle the reports, each in a thread of its own where one can be made. The answer has the journals
/// of the shards. Where what was told to the desks isn't what was kept, the reports are handled anew in one thread.
pub fn run_fleet<'a, R: Threads + Wait + Sync, G: Gate>(
    rt: &R,
    alloc: Global,
    items: &'a [AgentToServer],
    desks: u64,
    gate: &G,
) -> Result<List<List<Row<'a>>>, NoMemory>
    requires desks { (1 ≤ desks) × (desks ≤ 64) }
    ensures journals { IfOk result (λ journals. AreJournalsOf items.now desks journals) }
{
    match run_desks(rt, alloc, items, desks, gate) {
        Ok(journals) => Ok(journals),
        Err(fail) => match &fail {
            CloseFail::NoMemory => Err(NoMemory),
            _ => handle_in_order(alloc, items, desks),
        },
    }
}

/// Has the reports handled by so many desks, each in a thread of its own where one can be made, and closes the shards. It
/// fails where memory is wanting, or where what was told to the desks isn't what the shards kept.
pub fn run_desks<'a, R: Threads + Wait + Sync, G: Gate>(
    rt: &R,
    alloc: Global,
    items: &'a [AgentToServer],
    desks: u64,
    gate: &G,
) -> Result<List<List<Row<'a>>>, CloseFail<'a>>
    requires desks { (1 ≤ desks) × (desks ≤ 64) }
    ensures journals { IfOk result (λ journals. AreJournalsOf items.now desks journals) }
    ensures err { IfErr result (λ fail. FailsToRun items.now desks fail) }
{
    run_shared::<Brand, Brand, Brand, Brand, R, G>(
        rt,
        alloc,
        Blank::new(DESK_LIMIT),
        Blank::new(DESK_LIMIT),
        Blank::new(DESK_LIMIT),
        Blank::new(DESK_LIMIT),
        items,
        desks,
        gate,
    )
}

// The same with the ledgers of these blanks.
fn run_shared<
    'a,
    A: Ledger + Send + Sync,
    B: Ledger + Send + Sync,
    C: Ledger + Send + Sync,
    D: Ledger + Send + Sync,
    R: Threads + Wait + Sync,
    G: Gate,
>(
    rt: &R,
    alloc: Global,
    first: Blank,
    second: Blank,
    third: Blank,
    fourth: Blank,
    items: &'a [AgentToServer],
    desks: u64,
    gate: &G,
) -> Result<List<List<Row<'a>>>, CloseFail<'a>>
    requires desks { (1 ≤ desks) × (desks ≤ 64) }
    requires first { (first.name ≡ A.name) × (first.parts ≡ A.parts) × (first.parts ≡ 64) }
    requires second { (second.name ≡ B.name) × (second.parts ≡ B.parts) × (second.parts ≡ 64) }
    requires third { (third.name ≡ C.name) × (third.parts ≡ C.parts) × (third.parts ≡ 64) }
    requires fourth { (fourth.name ≡ D.name) × (fourth.parts ≡ D.parts) × (fourth.parts ≡ 64) }
    ensures journals { IfOk result (λ journals. AreJournalsOf items.now desks journals) }
    ensures err { IfErr result (λ fail. FailsToRun items.now desks fail) }
{
    let (shards, fresh) = Shards::<A, B, C, D>::new(
        alloc,
        FLEET_CAPABILITIES,
        desks,
        first,
        second,
        third,
        fourth,
    )?;
    let done = work_all(rt, alloc, &shards, fresh, items, desks, gate)?;
    shards.close_by_desks(rt, done)
}

// Each desk works in a thread of its own.
fn work_all<
    'a,
    A: Ledger + Send + Sync,
    B: Ledger + Send + Sync,
    C: Ledger + Send + Sync,
    D: Ledger + Send + Sync,
    R: Threads + Wait + Sync,
    G: Gate,
>(
    rt: &R,
    alloc: Global,
    shards: &Shards<'a, A, B, C, D>,
    fresh: List<Desk<'a, A, B, C, D>>,
    items: &'a [AgentToServer],
    desks: u64,
    gate: &G,
) -> Result<List<Desk<'a, A, B, C, D>>, NoMemory>
    requires fresh { AreFresh fresh × (length fresh ≡ desks) }
    ensures worked { IfOk result (λ done. AreWorked items.now desks fresh.entry done) }
{
    let results = work_each(rt, shards, fresh.into_vec(), items, desks, gate)?;
    gather_results(alloc, results)
}

// What comes of the work of each desk.
fn work_each<
    'a,
    A: Ledger + Send + Sync,
    B: Ledger + Send + Sync,
    C: Ledger + Send + Sync,
    D: Ledger + Send + Sync,
    R: Threads + Wait + Sync,
    G: Gate,
>(
    rt: &R,
    shards: &Shards<'a, A, B, C, D>,
    fresh: Vec<Desk<'a, A, B, C, D>>,
    items: &'a [AgentToServer],
    desks: u64,
    gate: &G,
) -> Result<Vec<Result<Desk<'a, A, B, C, D>, NoMemory>>, AllocError>
    requires below { All (λ d. d.number < desks) fresh.items }
    ensures count { IfOk result (λ results. length results.items ≡ length fresh.entry.items) }
    ensures each { IfOk result (λ results. (i : ℕ) (d : AtDesk) (r : Result AtDesk NoMemory) → i < length fresh.entry.items
        → IfOk (slice_index_or results.items i r) (λ done. HasWorked items.now desks (slice_index_or fresh.entry.items i d) done)) }
{
    journals_cross_threads();
    let one = |desk| -> Result<_, NoMemory>
        requires { desk.number < desks }
        ensures { IfOk result (λ done. HasWorked items.entry.now desks desk.entry done) }
    { work(rt, shards, desk, items, desks, gate) };
    thread::map_vec(rt, fresh, &one)
}

// The desks, where each is there.
fn gather_results<T: Drop>(
    alloc: Global,
    results: Vec<Result<T, NoMemory>>,
) -> Result<List<T>, NoMemory>
    ensures all { IfOk result (λ all. results.items ≡ map (λ x. Ok x) all) }
{
    let mut all = List::new(alloc);
    for result in results {
        all.push(result?)?;
    }
    Ok(all)
}
