//! A shard, as it stands under its lock.

ghost use Rattle.std.specs.Prelude.{◌≡◌, ◌+◌, ◌<◌, ◌++◌, ◌∷◌, [], IfOk, OnOk, OnErr, length};
ghost use Rattle.shard_journals.specs.Histories.{IsHistory, due_after};
ghost use Rattle.shard_journals.specs.PlainReplies.{IsPlainTo};
ghost use Rattle.shard_servers.specs.Locked.{IsAnswer};

use message_values::{AgentToServer, ServerToAgent};
use plain_values::{List, NoMemory};
use server_core::Server;
use shard_journals::{Journal, Row};
use std::alloc::Global;
use std::marker::Model;
use std::sync::ledger::{Book, Ledger, Share};
use std::sync::{Mutex, Wait};

/// A shard, as it stands under its lock, which contracts see as the rows of its journal.
///
/// The journal is a history of one thread, whose reports its server took and nothing else. The ledger's total is the number
/// of its rows.
pub struct Shard<'a, L: Ledger> {
    journal: Journal<'a>,
    book: Book<L>,
    idle: Share<L>,
}

// By hand, so that it is a call where a value is dropped, and not laid out there.
impl<'a, L: Ledger> Drop for Shard<'a, L> {
    fn drop(self) {
        let Shard {
            journal: _,
            book: _,
            idle: _,
        } = self;
    }
}

impl<'a, L: Ledger> Model for Shard<'a, L> {
    ghost use Rattle.std.specs.Prelude.{◌≡◌, List, length};
    ghost use Rattle.std.specs.Coded.{codes, coded_list};
    ghost use Rattle.message_values.specs.contracts.report.AgentToServer as report_;
    ghost use Rattle.message_values.specs.contracts.reply.ServerToAgent as reply_;
    ghost use Rattle.shard_journals.specs.declared.rows.Row.{Row};

    ghost Value = { List Row };

    ghost coded = { coded_list (Prim.hlevel (codes, report_.the_row.coded, reply_.the_row.coded)) };

    ghost view = { λ s. s.journal };

    ghost invariant = { λ s. (s.book.total ≡ length s.journal) × (s.idle.parts ≡ 0) × (s.idle.amount ≡ 0) };
}

impl<'a, L: Ledger> Shard<'a, L> {
    /// A shard with an empty journal, of a book whose total is 0 and a share without parts. Takes no memory.
    pub fn new(alloc: Global, book: Book<L>, idle: Share<L>) -> Shard<'a, L>
        requires total { book.total ≡ 0 }
        requires idle { (idle.parts ≡ 0) × (idle.amount ≡ 0) }
        ensures empty { result ≡ [] }
    {
        Shard {
            journal: Journal::new(alloc),
            book,
            idle,
        }
    }

    /// How many rows there are. Takes no memory.
    pub fn len(&self) -> u64
        ensures len { result ≡ length self.now }
    {
        self.journal.len()
    }

    /// Handles a report for a desk, which lends its share. The row that this leaves at the end of the journal is the
    /// answer. Want of memory changes nothing.
    pub fn handle(
        &mut self,
        share: &mut Share<L>,
        desk: u64,
        item: u64,
        report: &'a AgentToServer,
    ) -> Result<Row<'a>, NoMemory>
        requires part { 0 < share.old.parts }
        ensures row { IfOk result (λ row. row ≡ record { desk = desk; item = item; report = report.now; reply = due_after self.old report.now }) }
        ensures kept { IfOk result (λ row. self.new ≡ self.old ++ row ∷ []) }
        ensures plain { IfOk result (λ row. IsPlainTo report.now row.reply) }
        ensures history { OnOk result (IsHistory self.old) }
        ensures amount { OnOk result (share.new.amount ≡ share.old.amount + 1) }
        ensures parts { share.new.parts ≡ share.old.parts }
        ensures err { OnErr result ((self.new ≡ self.old) × (share.new ≡ share.old)) }
    {
        let row = self.journal.handle(desk, item, report)?;
        self.book.add(share, 1);
        Ok(row)
    }

    /// The same with a copy of the report, which the server keeps. The answer has the reply beside the row.
    pub fn handle_copied(
        &mut self,
        share: &mut Share<L>,
        desk: u64,
        item: u64,
        report: &'a AgentToServer,
        copy: AgentToServer,
    ) -> Result<(Row<'a>, ServerToAgent), NoMemory>
        requires part { 0 < share.old.parts }
        requires copied { copy ≡ report.now }
        ensures row { IfOk result (λ answer. answer.0 ≡ record { desk = desk; item = item; report = report.now; reply = due_after self.old report.now }) }
        ensures reply { IfOk result (λ answer. answer.1 ≡ answer.0.reply) }
        ensures kept { IfOk result (λ answer. self.new ≡ self.old ++ answer.0 ∷ []) }
        ensures history { OnOk result (IsHistory self.old) }
        ensures amount { OnOk result (share.new.amount ≡ share.old.amount + 1) }
        ensures parts { share.new.parts ≡ share.old.parts }
        ensures err { OnErr result ((self.new ≡ self.old) × (share.new ≡ share.old)) }
    {
        let answer = self.journal.handle_copied(desk, item, report, copy)?;
        self.book.add(share, 1);
        Ok(answer)
    }

    // The rows of the journal, which are a history of one thread, with the book that has their number, the share without
    // parts, and the server, which may hold much. Takes no memory.
    pub(crate) fn into_parts(self) -> (List<Row<'a>>, Book<L>, Share<L>, Server)
        ensures rows { result.0 ≡ self.entry }
        ensures history { IsHistory result.0 }
        ensures total { result.1.total ≡ length result.0 }
        ensures idle { (result.2.parts ≡ 0) × (result.2.amount ≡ 0) }
    {
        let Shard {
            journal,
            book,
            idle,
        } = self;
        let (rows, server) = journal.into_rows_and_server();
        (rows, book, idle, server)
    }
}

/// Handles a report, of which there is a copy, under the lock of its shard. The answer is the row with its place in the
/// journal, and the reply.
pub(crate) fn handle_locked<'a, L: Ledger, R: Wait>(
    rt: &R,
    shard: &Mutex<Shard<'a, L>>,
    share: &mut Share<L>,
    desk: u64,
    item: u64,
    report: &'a AgentToServer,
    copy: AgentToServer,
) -> Result<(u64, Row<'a>, ServerToAgent), NoMemory>
    requires part { 0 < share.old.parts }
    requires copied { copy ≡ report.now }
    ensures answer { IfOk result (λ answer. IsAnswer desk item report.now answer.0 answer.1) }
    ensures reply { IfOk result (λ answer. answer.2 ≡ answer.1.reply) }
    ensures amount { OnOk result (share.new.amount ≡ share.old.amount + 1) }
    ensures parts { share.new.parts ≡ share.old.parts }
    ensures err { OnErr result (share.new ≡ share.old) }
{
    let mut guard = shard.lock(rt);
    handle_last(&mut *guard, share, desk, item, report, copy)
}

fn handle_last<'a, L: Ledger>(
    shard: &mut Shard<'a, L>,
    share: &mut Share<L>,
    desk: u64,
    item: u64,
    report: &'a AgentToServer,
    copy: AgentToServer,
) -> Result<(u64, Row<'a>, ServerToAgent), NoMemory>
    requires part { 0 < share.old.parts }
    requires copied { copy ≡ report.now }
    ensures answer { IfOk result (λ answer. IsAnswer desk item report.now answer.0 answer.1) }
    ensures reply { IfOk result (λ answer. answer.2 ≡ answer.1.reply) }
    ensures amount { OnOk result (share.new.amount ≡ share.old.amount + 1) }
    ensures parts { share.new.parts ≡ share.old.parts }
    ensures err { OnErr result (share.new ≡ share.old) }
{
    let place = shard.len();
    let (row, reply) = shard.handle_copied(share, desk, item, report, copy)?;
    Ok((place, row, reply))
}
