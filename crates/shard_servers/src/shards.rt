//! The four shards under their locks, and the reports that desks bring them.

ghost use Rattle.std.specs.Prelude.{◌≡◌, ◌+◌, ◌≤◌, ◌<◌, ◌==◌, IfOk, OnOk, OnErr, length};
ghost use Rattle.shard_journals.specs.Sharding.{shard_of};
ghost use Rattle.shard_servers.specs.Desks.{AreFresh, IsToldNext, one_if, parts_of};
ghost use Rattle.shard_servers.specs.Locked.{IsAnswer};
ghost use Rattle.shard_servers.specs.Shares.{AreAll};

use crate::desks::{Desk, Told};
use crate::shard::{Shard, handle_locked};
use crate::tallies::Tallies;
use message_values::{AgentToServer, ServerToAgent};
use plain_values::{List, NoMemory, Plain};
use shard_journals::{Row, make_room, put_last, shard_of};
use std::alloc::Global;
use std::sync::ledger::{Blank, Ledger, Share};
use std::sync::{Mutex, Wait};

/// The number of desks that there may be, which is the number of parts of each ledger.
pub const DESK_LIMIT: u64 = 64;

/// The four shards, each under its lock.
pub struct Shards<'a, A: Ledger, B: Ledger, C: Ledger, D: Ledger> {
    pub(crate) alloc: Global,
    pub(crate) first: Mutex<Shard<'a, A>>,
    pub(crate) second: Mutex<Shard<'a, B>>,
    pub(crate) third: Mutex<Shard<'a, C>>,
    pub(crate) fourth: Mutex<Shard<'a, D>>,
}

// By hand, so that it is a call where a value is dropped, and not laid out there.
impl<'a, A: Ledger, B: Ledger, C: Ledger, D: Ledger> Drop for Shards<'a, A, B, C, D> {
    fn drop(self) {
        let Shards {
            alloc: _,
            first: _,
            second: _,
            third: _,
            fourth: _,
        } = self;
    }
}

impl<'a, A: Ledger, B: Ledger, C: Ledger, D: Ledger> Shards<'a, A, B, C, D> {
    /// Four shards with empty journals, and `desks` desks, which share the parts of the ledgers. The ledgers' blanks are
    /// of 64 parts each.
    pub fn new(
        alloc: Global,
        capabilities: u64,
        desks: u64,
        first: Blank,
        second: Blank,
        third: Blank,
        fourth: Blank,
    ) -> Result<(Shards<'a, A, B, C, D>, List<Desk<'a, A, B, C, D>>), NoMemory>
        requires capabilities { capabilities ≡ 5 }
        requires desks { (1 ≤ desks) × (desks ≤ 64) }
        requires first { (first.name ≡ A.name) × (first.parts ≡ A.parts) × (first.parts ≡ 64) }
        requires second { (second.name ≡ B.name) × (second.parts ≡ B.parts) × (second.parts ≡ 64) }
        requires third { (third.name ≡ C.name) × (third.parts ≡ C.parts) × (third.parts ≡ 64) }
        requires fourth { (fourth.name ≡ D.name) × (fourth.parts ≡ D.parts) × (fourth.parts ≡ 64) }
        ensures count { IfOk result (λ made. length made.1 ≡ desks) }
        ensures fresh { IfOk result (λ made. AreFresh made.1) }
        ensures first { IfOk result (λ made. parts_of (λ p. p.first) made.1 ≡ A.parts) }
        ensures second { IfOk result (λ made. parts_of (λ p. p.second) made.1 ≡ B.parts) }
        ensures third { IfOk result (λ made. parts_of (λ p. p.third) made.1 ≡ C.parts) }
        ensures fourth { IfOk result (λ made. parts_of (λ p. p.fourth) made.1 ≡ D.parts) }
    {
        let (shards, mut shares) = open_shards::<A, B, C, D>(alloc, first, second, third, fourth);
        let made = shares.deal(alloc, desks)?;
        Ok((shards, made))
    }
    /// Lets the shard of its agent handle a report of a desk. May wait for the shard's lock.
    ///
    /// The desk's list grows by the row, with its shard and its place there, and the answer is the row's reply. Want of
    /// memory leaves the desk as it was.
    pub fn handle<R: Wait>(
        &self,
        rt: &R,
        desk: &mut Desk<'a, A, B, C, D>,
        item: u64,
        report: &'a AgentToServer,
    ) -> Result<ServerToAgent, NoMemory>
        ensures told { IfOk result (λ reply. IsToldNext desk.old desk.new item report.now reply) }
        ensures err { OnErr result (desk.new ≡ desk.old) }
    {
        let shard = shard_of(report.instance_uid.as_slice());
        make_room(&mut desk.told)?;
        let copy = report.copy(self.alloc)?;
        let (place, row, reply) = self.answer(
            rt,
            shard,
            desk.number,
            item,
            report,
            copy,
            &mut desk.first,
            &mut desk.second,
            &mut desk.third,
            &mut desk.fourth,
        )?;
        put_last(&mut desk.told, Told { shard, place, row });
        Ok(reply)
    }

    // The shards without their locks.
    pub(crate) fn into_shards(self) -> (Shard<'a, A>, Shard<'a, B>, Shard<'a, C>, Shard<'a, D>) {
        let Shards {
            alloc: _,
            first,
            second,
            third,
            fourth,
        } = self;
        (
            first.into_inner(),
            second.into_inner(),
            third.into_inner(),
            fourth.into_inner(),
        )
    }

    // Handles a report, of which there is a copy, under the lock of this shard. The share of its ledger counts the row.
    fn answer<R: Wait>(
        &self,
        rt: &R,
        shard: u64,
        desk: u64,
        item: u64,
        report: &'a AgentToServer,
        copy: AgentToServer,
        first: &mut Share<A>,
        second: &mut Share<B>,
        third: &mut Share<C>,
        fourth: &mut Share<D>,
    ) -> Result<(u64, Row<'a>, ServerToAgent), NoMemory>
        requires copied { copy ≡ report.now }
        requires shard { shard < 4 }
        requires parts { (0 < first.old.parts) × (0 < second.old.parts) × (0 < third.old.parts) × (0 < fourth.old.parts) }
        ensures answer { IfOk result (λ answer. IsAnswer desk item report.now answer.0 answer.1) }
        ensures reply { IfOk result (λ answer. answer.2 ≡ answer.1.reply) }
        ensures first { OnOk result (first.new.amount ≡ first.old.amount + one_if (shard == 0)) }
        ensures second { OnOk result (second.new.amount ≡ second.old.amount + one_if (shard == 1)) }
        ensures third { OnOk result (third.new.amount ≡ third.old.amount + one_if (shard == 2)) }
        ensures fourth { OnOk result (fourth.new.amount ≡ fourth.old.amount + one_if (shard == 3)) }
        ensures parts { (first.new.parts ≡ first.old.parts) × (second.new.parts ≡ second.old.parts) × (third.new.parts ≡ third.old.parts) × (fourth.new.parts ≡ fourth.old.parts) }
        ensures err { OnErr result ((first.new ≡ first.old) × (second.new ≡ second.old) × (third.new ≡ third.old) × (fourth.new ≡ fourth.old)) }
    {
        match shard {
            0 => handle_locked(rt, &self.first, first, desk, item, report, copy),
            1 => handle_locked(rt, &self.second, second, desk, item, report, copy),
            2 => handle_locked(rt, &self.third, third, desk, item, report, copy),
            _ => handle_locked(rt, &self.fourth, fourth, desk, item, report, copy),
        }
    }
}

// The shards with empty journals, and the shares that have every part of their ledgers.
fn open_shards<'a, A: Ledger, B: Ledger, C: Ledger, D: Ledger>(
    alloc: Global,
    first: Blank,
    second: Blank,
    third: Blank,
    fourth: Blank,
) -> (Shards<'a, A, B, C, D>, Tallies<A, B, C, D>)
    requires first { (first.name ≡ A.name) × (first.parts ≡ A.parts) }
    requires second { (second.name ≡ B.name) × (second.parts ≡ B.parts) }
    requires third { (third.name ≡ C.name) × (third.parts ≡ C.parts) }
    requires fourth { (fourth.name ≡ D.name) × (fourth.parts ≡ D.parts) }
    requires parts { AreAll 64 first.parts second.parts third.parts fourth.parts }
    ensures parts { AreAll 64 result.1.first.parts result.1.second.parts result.1.third.parts result.1.fourth.parts }
    ensures amounts { AreAll 0 result.1.first.amount result.1.second.amount result.1.third.amount result.1.fourth.amount }
{
    let (first, share_of_first) = open_shard::<A>(alloc, first);
    let (second, share_of_second) = open_shard::<B>(alloc, second);
    let (third, share_of_third) = open_shard::<C>(alloc, third);
    let (fourth, share_of_fourth) = open_shard::<D>(alloc, fourth);
    let shards = Shards {
        alloc,
        first,
        second,
        third,
        fourth,
    };
    let shares = Tallies {
        first: share_of_first,
        second: share_of_second,
        third: share_of_third,
        fourth: share_of_fourth,
    };
    (shards, shares)
}

// A shard with an empty journal under its lock, and the share that has every part of its ledger.
fn open_shard<'a, L: Ledger>(alloc: Global, blank: Blank) -> (Mutex<Shard<'a, L>>, Share<L>)
    requires name { blank.name ≡ L.name }
    requires parts { blank.parts ≡ L.parts }
    ensures parts { result.1.parts ≡ L.parts }
    ensures amount { result.1.amount ≡ 0 }
{
    let (book, mut all) = blank.open::<L>();
    let idle = all.empty();
    (Mutex::new(Shard::new(alloc, book, idle)), all)
}
