//! Shares of the four ledgers, and their books.

ghost use Rattle.std.specs.Prelude.{◌≡◌, ◌+◌, length};
ghost use Rattle.shard_servers.specs.Desks.{all_places, parts_of, told_in};

use crate::desks::Desk;
use plain_values::List;
use std::sync::ledger::{Book, Ledger, Share};

/// Shares of the four ledgers.
pub(crate) struct Tallies<A: Ledger, B: Ledger, C: Ledger, D: Ledger> {
    pub(crate) first: Share<A>,
    pub(crate) second: Share<B>,
    pub(crate) third: Share<C>,
    pub(crate) fourth: Share<D>,
}

// By hand, so that it is a call where a value is dropped, and not laid out there.
impl<A: Ledger, B: Ledger, C: Ledger, D: Ledger> Drop for Tallies<A, B, C, D> {
    fn drop(self) {
        let Tallies {
            first: _,
            second: _,
            third: _,
            fourth: _,
        } = self;
    }
}

impl<A: Ledger, B: Ledger, C: Ledger, D: Ledger> Tallies<A, B, C, D> {
    /// Takes in the shares of the desks.
    pub(crate) fn take_all(&mut self, desks: List<Desk<'_, A, B, C, D>>)
        ensures first_parts { self.new.first.parts ≡ self.old.first.parts + parts_of (λ p. p.first) desks.entry }
        ensures second_parts { self.new.second.parts ≡ self.old.second.parts + parts_of (λ p. p.second) desks.entry }
        ensures third_parts { self.new.third.parts ≡ self.old.third.parts + parts_of (λ p. p.third) desks.entry }
        ensures fourth_parts { self.new.fourth.parts ≡ self.old.fourth.parts + parts_of (λ p. p.fourth) desks.entry }
        ensures first { self.new.first.amount ≡ self.old.first.amount + length (all_places 0 desks.entry) }
        ensures second { self.new.second.amount ≡ self.old.second.amount + length (all_places 1 desks.entry) }
        ensures third { self.new.third.amount ≡ self.old.third.amount + length (all_places 2 desks.entry) }
        ensures fourth { self.new.fourth.amount ≡ self.old.fourth.amount + length (all_places 3 desks.entry) }
    {
        let mut rest = desks.into_vec();
        while let Some(desk) = rest.pop() {
            self.take(desk);
        }
    }

    // Takes in the shares of one desk.
    fn take(&mut self, desk: Desk<'_, A, B, C, D>)
        ensures first_parts { self.new.first.parts ≡ self.old.first.parts + desk.entry.parts.first }
        ensures second_parts { self.new.second.parts ≡ self.old.second.parts + desk.entry.parts.second }
        ensures third_parts { self.new.third.parts ≡ self.old.third.parts + desk.entry.parts.third }
        ensures fourth_parts { self.new.fourth.parts ≡ self.old.fourth.parts + desk.entry.parts.fourth }
        ensures first { self.new.first.amount ≡ self.old.first.amount + told_in 0 desk.entry.told }
        ensures second { self.new.second.amount ≡ self.old.second.amount + told_in 1 desk.entry.told }
        ensures third { self.new.third.amount ≡ self.old.third.amount + told_in 2 desk.entry.told }
        ensures fourth { self.new.fourth.amount ≡ self.old.fourth.amount + told_in 3 desk.entry.told }
    {
        let (first, second, third, fourth) = desk.into_shares();
        self.first.merge(first);
        self.second.merge(second);
        self.third.merge(third);
        self.fourth.merge(fourth);
    }
}

/// The books of the four ledgers, each with a share of it that has no part.
pub(crate) struct Books<A: Ledger, B: Ledger, C: Ledger, D: Ledger> {
    pub(crate) first: Book<A>,
    pub(crate) second: Book<B>,
    pub(crate) third: Book<C>,
    pub(crate) fourth: Book<D>,
    pub(crate) idle: Tallies<A, B, C, D>,
}

// By hand, so that it is a call where a value is dropped, and not laid out there.
impl<A: Ledger, B: Ledger, C: Ledger, D: Ledger> Drop for Books<A, B, C, D> {
    fn drop(self) {
        let Books {
            first: _,
            second: _,
            third: _,
            fourth: _,
            idle: _,
        } = self;
    }
}

impl<A: Ledger, B: Ledger, C: Ledger, D: Ledger> Books<A, B, C, D> {
    /// Takes the desks back with every part of each ledger: the total of a book is then the number of the rows that its shard
    /// told to them.
    pub(crate) fn audit(&mut self, desks: List<Desk<'_, A, B, C, D>>)
        requires idle_parts { (self.old.idle.first.parts ≡ 0) × (self.old.idle.second.parts ≡ 0) × (self.old.idle.third.parts ≡ 0) × (self.old.idle.fourth.parts ≡ 0) }
        requires idle_amounts { (self.old.idle.first.amount ≡ 0) × (self.old.idle.second.amount ≡ 0) × (self.old.idle.third.amount ≡ 0) × (self.old.idle.fourth.amount ≡ 0) }
        requires first { parts_of (λ p. p.first) desks ≡ A.parts }
        requires second { parts_of (λ p. p.second) desks ≡ B.parts }
        requires third { parts_of (λ p. p.third) desks ≡ C.parts }
        requires fourth { parts_of (λ p. p.fourth) desks ≡ D.parts }
        ensures first { self.old.first.total ≡ length (all_places 0 desks.entry) }
        ensures second { self.old.second.total ≡ length (all_places 1 desks.entry) }
        ensures third { self.old.third.total ≡ length (all_places 2 desks.entry) }
        ensures fourth { self.old.fourth.total ≡ length (all_places 3 desks.entry) }
    {
        self.idle.take_all(desks);
        self.first.audit(&mut self.idle.first);
        self.second.audit(&mut self.idle.second);
        self.third.audit(&mut self.idle.third);
        self.fourth.audit(&mut self.idle.fourth);
    }
}
