//! What a desk does: its share of the reports, one after another.

ghost use Rattle.std.specs.Prelude.{◌<◌, IfOk};
ghost use Rattle.shard_servers.specs.Work.{HasWorked};

use crate::desks::Desk;
use crate::shards::Shards;
use message_values::AgentToServer;
use plain_values::NoMemory;
use std::marker::Sync;
use std::sync::Wait;
use std::sync::ledger::Ledger;

/// What is called round each call of a desk. A desk's calls count from 0.
pub trait Gate: Sync {
    /// The desk is about to have a report handled.
    fn before(&self, desk: u64, call: u64);

    /// It has got the reply.
    fn after(&self, desk: u64, call: u64);
}

/// Brings the desk's share of the items to the shards, in order: those whose place modulo the number of desks is the desk's number.
pub fn work<'a, A: Ledger, B: Ledger, C: Ledger, D: Ledger, R: Wait, G: Gate>(
    rt: &R,
    shards: &Shards<'a, A, B, C, D>,
    desk: Desk<'a, A, B, C, D>,
    items: &'a [AgentToServer],
    desks: u64,
    gate: &G,
) -> Result<Desk<'a, A, B, C, D>, NoMemory>
    requires below { desk.number < desks }
    ensures worked { IfOk result (λ done. HasWorked items.now desks desk.entry done) }
{
    let mut desk = desk;
    let number = desk.number();
    let mut call = 0;
    for at in 0..items.len() {
        if at as u64 % desks == number {
            gate.before(number, call);
            shards.handle(rt, &mut desk, at as u64, &items[at])?;
            gate.after(number, call);
            call += 1;
        }
    }
    Ok(desk)
}
