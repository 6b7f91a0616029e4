//! Whether the journals of the shards have the rows that were told to the desks.

ghost use denote.Ref.{Bor};
ghost use Rattle.std.specs.Prelude.{◌≡◌, ◌↔◌, ◌<◌, ℕ, Bool, IsTrue, IfErr, IfNone, IfOk, IfSome, List, OnOk, Some, length, map, slice_get, slice_index_or};
ghost use Rattle.std.specs.List.{AllByRecursion};
ghost use Rattle.std.specs.Option.{option_copied};
ghost use Rattle.shard_servers.specs.Agreement.{AllRise, AllStand, DiffersFirst, DiffersSomewhere, Disagrees, FallsFirst, FirstFails, IsRising, OfEach, OutOfOrderFirst, OutOfOrderSomewhere, PlacesRise, Stands, kept_at};
ghost use Rattle.shard_servers.specs.declared.desks.Told.{Told};
ghost use Rattle.shard_servers.specs.Desks.{AreOwn, places_in};

use crate::desks::{Desk, Told};
use plain_values::{List, NoMemory, Plain};
use shard_journals::{Row, SHARDS, journals_cross_threads};
use std::alloc::{AllocError, Global};
use std::marker::Sync;
use std::sync::ledger::Ledger;
use std::thread;
use std::thread::Threads;

/// Why the journals aren't closed.
pub enum CloseFail<'a> {
    /// A row that was told isn't the kept one.
    Differs {
        /// The shard.
        shard: u64,
        /// The place in its journal.
        place: u64,
        /// The row that is kept there, if one is.
        kept: Option<Row<'a>>,
        /// The row that was told.
        told: Row<'a>,
    },
    /// A row of a desk doesn't stand behind the row that was told before it by the same shard.
    OutOfOrder {
        /// The desk's number.
        desk: u64,
        /// The place of the row that was told before.
        earlier: u64,
        /// The place of the row that was told later.
        later: u64,
    },
    /// There was no memory for it.
    NoMemory,
}

// By hand, so that it is a call where a value is dropped, and not laid out there.
impl<'a> Drop for CloseFail<'a> {
    fn drop(self) {
        match self {
            CloseFail::Differs {
                shard: _,
                place: _,
                kept: _,
                told: _,
            } => {}
            CloseFail::OutOfOrder {
                desk: _,
                earlier: _,
                later: _,
            } => {}
            CloseFail::NoMemory => {}
        }
    }
}

impl<'a> From<NoMemory> for CloseFail<'a> {
    ghost use Rattle.std.specs.Prelude.{◌≡◌};
    ghost use Rattle.shard_servers.specs.declared.checks.CloseFail.TheVariants.{NoMemory as Wanting};

    ghost from_gives = { λ _ e. e ≡ Wanting };

    fn from(_: NoMemory) -> CloseFail<'a> {
        CloseFail::NoMemory
    }
}

/// Compares what was told to desks with what journals keep. First each told row is to be the kept one, then the rows of each
/// desk are to stand in the order in which they were told.
pub fn compare<'a, A: Ledger, B: Ledger, C: Ledger, D: Ledger>(
    alloc: Global,
    journals: &[List<Row<'a>>],
    desks: &[Desk<'a, A, B, C, D>],
) -> Result<(), CloseFail<'a>>
    ensures own { OnOk result (OfEach (λ d. AreOwn d.number d.told) desks.now) }
    ensures stand { OnOk result (AllStand journals.now desks.now) }
    ensures rise { OnOk result (AllRise desks.now) }
    ensures err { IfErr result (λ fail. Disagrees journals.now desks.now fail) }
{
    compare_all_told(alloc, journals, desks)?;
    compare_all_orders(desks)
}

/// The same, where what was told to a desk is compared in a thread of its own if one can be made.
pub fn compare_by_desks<'a, A: Ledger, B: Ledger, C: Ledger, D: Ledger, R: Threads + Sync>(
    rt: &R,
    alloc: Global,
    journals: &[List<Row<'a>>],
    desks: &[Desk<'a, A, B, C, D>],
) -> Result<(), CloseFail<'a>>
    ensures own { OnOk result (OfEach (λ d. AreOwn d.number d.told) desks.now) }
    ensures stand { OnOk result (AllStand journals.now desks.now) }
    ensures rise { OnOk result (AllRise desks.now) }
    ensures err { IfErr result (λ fail. Disagrees journals.now desks.now fail) }
{
    if all_stand(rt, alloc, journals, desks) {
        return compare_all_orders(desks);
    }
    compare(alloc, journals, desks)
}

// Whether all that was told stands, as far as there was memory to find out by threads.
fn all_stand<'a, A: Ledger, B: Ledger, C: Ledger, D: Ledger, R: Threads + Sync>(
    rt: &R,
    alloc: Global,
    journals: &[List<Row<'a>>],
    desks: &[Desk<'a, A, B, C, D>],
) -> bool
    ensures stand { IsTrue result → AllStand journals.now desks.now }
{
    match lists_of(alloc, desks) {
        Ok(lists) => lists_stand(rt, journals, lists),
        Err(_) => false,
    }
}

// What was told to each desk.
fn lists_of<'d, 'a, A: Ledger, B: Ledger, C: Ledger, D: Ledger>(
    alloc: Global,
    desks: &'d [Desk<'a, A, B, C, D>],
) -> Result<Vec<&'d [Told<'a>]>, NoMemory>
    ensures lists { IfOk result (λ lists. map (λ told. told.now) lists.items ≡ map (λ d. d.told) desks.now) }
{
    let mut lists = Vec::new(alloc);
    for at in 0..desks.len() {
        let desk = &desks[at];
        lists.push(desk.told())?;
    }
    Ok(lists)
}

// Whether all that these lists have stands, as far as there was memory for threads.
fn lists_stand<'a, R: Threads + Sync>(
    rt: &R,
    journals: &[List<Row<'a>>],
    lists: Vec<&[Told<'a>]>,
) -> bool
    ensures stand { IsTrue result → (place : ℕ) (told : List Told) → slice_get (map (λ it. it.now) lists.entry.items) place ≡ Some told → AllByRecursion (Stands journals.now) told }
{
    match stand_each(rt, journals, lists) {
        Ok(standing) => all_true(standing.as_slice()),
        Err(_) => false,
    }
}

// Of each list, whether what it has stands.
fn stand_each<'a, R: Threads + Sync>(
    rt: &R,
    journals: &[List<Row<'a>>],
    lists: Vec<&[Told<'a>]>,
) -> Result<Vec<bool>, AllocError>
    ensures count { IfOk result (λ standing. length standing.items ≡ length lists.entry.items) }
    ensures each { IfOk result (λ standing. (place : ℕ) (flag : Bool) (told : Bor (List Told)) → place < length lists.entry.items → IsTrue (slice_index_or standing.items place flag)
        → AllByRecursion (Stands journals.now) (slice_index_or lists.entry.items place told).now) }
{
    journals_cross_threads();
    let one = |told: &[Told<'_>]| -> bool
        ensures { IsTrue result → AllByRecursion (Stands journals.entry.now) told.now }
    { first_other(journals, told).is_none() };
    thread::map_vec(rt, lists, &one)
}

// Whether no flag is false.
fn all_true(flags: &[bool]) -> bool
    ensures all { IsTrue result → (place : ℕ) (flag : Bool) → slice_get flags.now place ≡ Some flag → IsTrue flag }
{
    for at in 0..flags.len() {
        if !flags[at] {
            return false;
        }
    }
    true
}

// Whether each row that was told to a desk is the kept one.
fn compare_all_told<'a, A: Ledger, B: Ledger, C: Ledger, D: Ledger>(
    alloc: Global,
    journals: &[List<Row<'a>>],
    desks: &[Desk<'a, A, B, C, D>],
) -> Result<(), CloseFail<'a>>
    ensures stand { OnOk result (AllStand journals.now desks.now) }
    ensures err { IfErr result (λ fail. DiffersSomewhere journals.now desks.now fail) }
{
    for at in 0..desks.len() {
        let desk = &desks[at];
        compare_told(alloc, journals, desk.told())?;
    }
    Ok(())
}

// Whether the rows of each desk, which are its own, stand in the order in which they were told.
fn compare_all_orders<'a, A: Ledger, B: Ledger, C: Ledger, D: Ledger>(
    desks: &[Desk<'a, A, B, C, D>],
) -> Result<(), CloseFail<'a>>
    ensures own { OnOk result (OfEach (λ d. AreOwn d.number d.told) desks.now) }
    ensures rise { OnOk result (AllRise desks.now) }
    ensures err { IfErr result (λ fail. OutOfOrderSomewhere desks.now fail) }
{
    for at in 0..desks.len() {
        let desk = &desks[at];
        compare_order(desk.number(), desk.told())?;
    }
    Ok(())
}

/// Compares the rows that were told to a desk with the kept ones. The answer has the first that differs.
pub fn compare_told<'a>(
    alloc: Global,
    journals: &[List<Row<'a>>],
    told: &[Told<'a>],
) -> Result<(), CloseFail<'a>>
    ensures stand { OnOk result (AllByRecursion (Stands journals.now) told.now) }
    ensures err { IfErr result (λ fail. DiffersFirst journals.now told.now fail) }
{
    match first_other(journals, told) {
        None => Ok(()),
        Some(other) => Err(difference(alloc, journals, other)?),
    }
}

// How a told row differs from the kept one.
fn difference<'a>(
    alloc: Global,
    journals: &[List<Row<'a>>],
    other: &Told<'a>,
) -> Result<CloseFail<'a>, NoMemory>
    ensures fail { IfOk result (λ fail. fail ≡ CloseFail.Differs other.now.shard other.now.place (kept_at journals.now other.now.shard other.now.place) other.now.row) }
{
    let kept = copy_kept(alloc, journals, other.shard, other.place)?;
    let told = other.row.copy(alloc)?;
    Ok(CloseFail::Differs {
        shard: other.shard,
        place: other.place,
        kept,
        told,
    })
}

fn copy_kept<'a>(
    alloc: Global,
    journals: &[List<Row<'a>>],
    shard: u64,
    place: u64,
) -> Result<Option<Row<'a>>, NoMemory>
    ensures kept { IfOk result (λ kept. kept ≡ kept_at journals.now shard place) }
{
    match kept_at(journals, shard, place) {
        Some(row) => Ok(Some(row.copy(alloc)?)),
        None => Ok(None),
    }
}

// The first told row that isn't the kept one.
fn first_other<'t, 'a>(journals: &[List<Row<'a>>], told: &'t [Told<'a>]) -> Option<&'t Told<'a>>
    ensures none { IfNone result (AllByRecursion (Stands journals.now) told.now) }
    ensures some { IfSome result (λ other. FirstFails (Stands journals.now) told.now other.now) }
{
    for at in 0..told.len() {
        let one = &told[at];
        if !told_row_stands(journals, one) {
            return Some(one);
        }
    }
    None
}

fn told_row_stands<'a>(journals: &[List<Row<'a>>], told: &Told<'a>) -> bool
    ensures stands { IsTrue result ↔ Stands journals.now told.now }
{
    match kept_at(journals, told.shard, told.place) {
        Some(row) => row.same(&told.row),
        None => false,
    }
}

fn kept_at<'j, 'a>(journals: &'j [List<Row<'a>>], shard: u64, place: u64) -> Option<&'j Row<'a>>
    ensures kept { option_copied result ≡ kept_at journals.now shard place }
{
    match journals.get(shard as usize) {
        Some(rows) => rows.get(place),
        None => None,
    }
}

/// Compares the order in which rows were told to a desk with the places at which they stand. The answer has the first two
/// places that do not rise. Takes no memory.
pub fn compare_order<'a>(desk: u64, told: &[Told<'a>]) -> Result<(), CloseFail<'a>>
    ensures rise { OnOk result (PlacesRise told.now) }
    ensures err { IfErr result (λ fail. OutOfOrderFirst desk told.now fail) }
{
    for shard in 0..SHARDS {
        if let Some((earlier, later)) = first_fall(told, shard) {
            return Err(CloseFail::OutOfOrder {
                desk,
                earlier,
                later,
            });
        }
    }
    Ok(())
}

// The first two places in a shard of which the later isn't above the one before it.
fn first_fall(told: &[Told<'_>], shard: u64) -> Option<(u64, u64)>
    ensures none { IfNone result (IsRising (places_in shard told.now)) }
    ensures some { IfSome result (λ fall. FallsFirst (places_in shard told.now) fall.0 fall.1) }
{
    let mut last = None;
    for at in 0..told.len() {
        let one = &told[at];
        if one.shard != shard {
            continue;
        }
        match last {
            Some(earlier) => {
                if one.place <= earlier {
                    return Some((earlier, one.place));
                }
            }
            None => {}
        }
        last = Some(one.place);
    }
    None
}
