//! How the parts of the ledgers are dealt out to the desks.

ghost use Rattle.std.specs.Prelude.{◌≡◌, ◌+◌, ◌-◌, ◌<◌, ◌≤◌, [], IfOk, length};
ghost use Rattle.shard_servers.specs.Desks.{AreFresh, four, parts_of};
ghost use Rattle.shard_servers.specs.Shares.{AreAll};

use crate::desks::Desk;
use crate::shards::DESK_LIMIT;
use crate::tallies::Tallies;
use plain_values::{List, NoMemory};
use std::alloc::Global;
use std::sync::ledger::Ledger;

// How many of the parts that are left go to the desk of this number: the last one gets them all, each other one gets one.
fn next_parts(number: u64, desks: u64, left: u64) -> u64
    requires below { number < desks }
    requires left { 0 < left }
    ensures some { (0 < result) × (result ≤ left) }
    ensures one { number + 1 < desks → result ≡ 1 }
    ensures last { number + 1 ≡ desks → result ≡ left }
{
    if desks - number == 1 { left } else { 1 }
}

impl<A: Ledger, B: Ledger, C: Ledger, D: Ledger> Tallies<A, B, C, D> {
    // The desk of this number, with this number of the parts that are left of each share.
    fn deal_one<'a>(
        &mut self,
        alloc: Global,
        number: u64,
        left: u64,
        parts: u64,
    ) -> Desk<'a, A, B, C, D>
        requires some { (0 < parts) × (parts ≤ left) }
        requires parts { AreAll left self.old.first.parts self.old.second.parts self.old.third.parts self.old.fourth.parts }
        requires amounts { AreAll 0 self.old.first.amount self.old.second.amount self.old.third.amount self.old.fourth.amount }
        ensures desk { result ≡ record { number = number; told = []; parts = four parts parts parts parts } }
        ensures parts { AreAll (left - parts) self.new.first.parts self.new.second.parts self.new.third.parts self.new.fourth.parts }
        ensures amounts { AreAll 0 self.new.first.amount self.new.second.amount self.new.third.amount self.new.fourth.amount }
    {
        Desk::new(
            alloc,
            number,
            self.first.split_off(parts, 0),
            self.second.split_off(parts, 0),
            self.third.split_off(parts, 0),
            self.fourth.split_off(parts, 0),
        )
    }

    /// `desks` desks, which share the 64 parts of each ledger.
    pub(crate) fn deal<'a>(
        &mut self,
        alloc: Global,
        desks: u64,
    ) -> Result<List<Desk<'a, A, B, C, D>>, NoMemory>
        requires desks { (1 ≤ desks) × (desks ≤ 64) }
        requires parts { AreAll 64 self.old.first.parts self.old.second.parts self.old.third.parts self.old.fourth.parts }
        requires amounts { AreAll 0 self.old.first.amount self.old.second.amount self.old.third.amount self.old.fourth.amount }
        ensures count { IfOk result (λ made. length made ≡ desks) }
        ensures fresh { IfOk result (λ made. AreFresh made) }
        ensures dealt { IfOk result (λ made. AreAll 64 (parts_of (λ p. p.first) made) (parts_of (λ p. p.second) made) (parts_of (λ p. p.third) made) (parts_of (λ p. p.fourth) made)) }
    {
        let mut made = List::new(alloc);
        let mut left = DESK_LIMIT;
        for number in 0..desks {
            let parts = next_parts(number, desks, left);
            made.push(self.deal_one(alloc, number, left, parts))?;
            left -= parts;
        }
        Ok(made)
    }
}
