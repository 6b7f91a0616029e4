//! A desk, and the rows that were told to it.

ghost use Rattle.std.specs.Prelude.{◌≡◌, ◌<◌, [], List};
ghost use Rattle.shard_servers.specs.Desks.{AreOwn, counts, four};

use shard_journals::Row;
use std::alloc::Global;
use std::marker::Model;
use std::sync::ledger::{Ledger, Share};

/// A row that was told to a desk, with its shard and its place in the journal there.
pub struct Told<'a> {
    /// The shard that handled the report.
    pub shard: u64,
    /// The row's place in the shard's journal, which counts from 0.
    pub place: u64,
    /// The row.
    pub row: Row<'a>,
}

// By hand, so that it is a call where a value is dropped, and not laid out there.
impl<'a> Drop for Told<'a> {
    fn drop(self) {
        let Told {
            shard: _,
            place: _,
            row: _,
        } = self;
    }
}

/// A desk, which has reports handled. It has a share of each shard's ledger, and the rows that were told to it, in order.
///
/// Each share has a part at least, and as its amount the number of the rows that were told by that shard. Each row names the
/// desk, and its shard is that of its report's agent.
pub struct Desk<'a, A: Ledger, B: Ledger, C: Ledger, D: Ledger> {
    pub(crate) number: u64,
    pub(crate) told: Vec<Told<'a>>,
    pub(crate) first: Share<A>,
    pub(crate) second: Share<B>,
    pub(crate) third: Share<C>,
    pub(crate) fourth: Share<D>,
}

// By hand, so that it is a call where a value is dropped, and not laid out there.
impl<'a, A: Ledger, B: Ledger, C: Ledger, D: Ledger> Drop for Desk<'a, A, B, C, D> {
    fn drop(self) {
        let Desk {
            number: _,
            told: _,
            first: _,
            second: _,
            third: _,
            fourth: _,
        } = self;
    }
}

impl<'a, A: Ledger, B: Ledger, C: Ledger, D: Ledger> Model for Desk<'a, A, B, C, D> {
    ghost use Rattle.std.specs.Coded.{codes};
    ghost use Rattle.message_values.specs.contracts.report.AgentToServer as report_;
    ghost use Rattle.message_values.specs.contracts.reply.ServerToAgent as reply_;
    ghost use Rattle.shard_servers.specs.Desks.{AtDesk, IsInOrder, four};

    ghost Value = { AtDesk };

    ghost coded = { Prim.hlevel (codes, report_.the_row.coded, reply_.the_row.coded) };

    ghost view = { λ d. record { number = d.number; told = d.told.items; parts = four d.first.parts d.second.parts d.third.parts d.fourth.parts } };

    ghost invariant = { λ d. IsInOrder d.number d.told.items (four d.first.parts d.second.parts d.third.parts d.fourth.parts) (four d.first.amount d.second.amount d.third.amount d.fourth.amount) };
}

impl<'a, A: Ledger, B: Ledger, C: Ledger, D: Ledger> Desk<'a, A, B, C, D> {
    /// A desk to which nothing was told, with shares that have a part at least and no amount. Takes no memory.
    pub fn new(
        alloc: Global,
        number: u64,
        first: Share<A>,
        second: Share<B>,
        third: Share<C>,
        fourth: Share<D>,
    ) -> Desk<'a, A, B, C, D>
        requires parts { (0 < first.parts) × (0 < second.parts) × (0 < third.parts) × (0 < fourth.parts) }
        requires amounts { (first.amount ≡ 0) × (second.amount ≡ 0) × (third.amount ≡ 0) × (fourth.amount ≡ 0) }
        ensures new { result ≡ record { number = number; told = []; parts = four first.parts second.parts third.parts fourth.parts } }
    {
        Desk {
            number,
            told: Vec::new(alloc),
            first,
            second,
            third,
            fourth,
        }
    }

    /// The desk's number. Takes no memory.
    pub fn number(&self) -> u64
        ensures number { result ≡ self.now.number }
    {
        self.number
    }

    /// The rows that were told to the desk, in order. Takes no memory.
    pub fn told(&self) -> &[Told<'a>]
        ensures told { result.now ≡ self.now.told }
        ensures own { AreOwn self.now.number self.now.told }
    {
        let told = &self.told;
        told.as_slice()
    }

    // The desk's shares.
    pub(crate) fn into_shares(self) -> (Share<A>, Share<B>, Share<C>, Share<D>)
        ensures parts { four result.0.parts result.1.parts result.2.parts result.3.parts ≡ self.entry.parts }
        ensures amounts { four result.0.amount result.1.amount result.2.amount result.3.amount ≡ counts self.entry.told }
    {
        let Desk {
            number: _,
            told: _,
            first,
            second,
            third,
            fourth,
        } = self;
        (first, second, third, fourth)
    }
}
