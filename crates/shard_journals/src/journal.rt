//! A server with the journal of what it handled.

ghost use Rattle.std.specs.Prelude.{◌≡◌, ◌++◌, ◌∷◌, [], IfOk, OnErr, OnOk, length};
ghost use Rattle.shard_journals.specs.Histories.{IsHistory, due_after};
ghost use Rattle.shard_journals.specs.PlainReplies.{IsPlainTo};

use crate::laws::due_replies_are_plain;
use crate::replies::PlainReply;
use crate::room::{make_room, put_last};
use crate::rows::Row;
use crate::sharding::FLEET_CAPABILITIES;
use message_values::{AgentToServer, CustomCapabilities, ServerToAgent};
use plain_values::{List, NoMemory, Plain};
use server_core::{Server, few_names_fit, table_follows_history};
use std::alloc::Global;
use std::marker::Model;

/// A server with the journal of what it handled, which contracts see as the journal's rows.
///
/// The server is one that took the reports of the rows, in their order, and nothing else. Each reply is the one that was due
/// after the rows before it. The rows borrow the reports.
pub struct Journal<'a> {
    alloc: Global,
    server: Server,
    rows: Vec<Row<'a>>,
}

// By hand, so that it is a call where a value is dropped, and not laid out there.
impl<'a> Drop for Journal<'a> {
    fn drop(self) {
        let Journal {
            alloc: _,
            server: _,
            rows: _,
        } = self;
    }
}

impl<'a> Model for Journal<'a> {
    ghost use Rattle.std.specs.Prelude.{List};
    ghost use Rattle.std.specs.Coded.{codes, coded_list};
    ghost use Rattle.message_values.specs.contracts.report.AgentToServer as report_;
    ghost use Rattle.message_values.specs.contracts.reply.ServerToAgent as reply_;
    ghost use Rattle.shard_journals.specs.declared.rows.Row.{Row};

    ghost Value = { List Row };

    ghost coded = { coded_list (Prim.hlevel (codes, report_.the_row.coded, reply_.the_row.coded)) };

    ghost use Rattle.shard_journals.specs.Histories.{IsKeptBy};

    ghost view = { λ j. j.rows.items };

    ghost invariant = { λ j. IsKeptBy j.server j.rows.items };
}

impl<'a> Journal<'a> {
    /// A new server with an empty journal. Takes no memory.
    pub fn new(alloc: Global) -> Journal<'a>
        ensures empty { result ≡ [] }
    {
        few_names_fit();
        let custom = CustomCapabilities {
            capabilities: List::new(alloc),
        };
        let server = Server::new(alloc, FLEET_CAPABILITIES, custom);
        Journal {
            alloc,
            server,
            rows: Vec::new(alloc),
        }
    }

    /// How many rows there are. Takes no memory.
    pub fn len(&self) -> u64
        ensures len { result ≡ length self.now }
    {
        self.rows.len() as u64
    }

    /// Lets the server handle a report. The row that this leaves at the end of the journal is the answer.
    ///
    /// All memory is taken first, so that want of it leaves the journal as it was.
    pub fn handle(
        &mut self,
        desk: u64,
        item: u64,
        report: &'a AgentToServer,
    ) -> Result<Row<'a>, NoMemory>
        ensures row { IfOk result (λ row. row ≡ record { desk = desk; item = item; report = report.now; reply = due_after self.old report.now }) }
        ensures kept { IfOk result (λ row. self.new ≡ self.old ++ row ∷ []) }
        ensures plain { IfOk result (λ row. IsPlainTo report.now row.reply) }
        ensures history { OnOk result (IsHistory self.old) }
        ensures err { OnErr result (self.new ≡ self.old) }
    {
        let copy = report.copy(self.alloc)?;
        let (row, _) = self.handle_copied(desk, item, report, copy)?;
        Ok(row)
    }

    /// The same with a copy of the report, which the server keeps. The answer has the reply beside the row.
    pub fn handle_copied(
        &mut self,
        desk: u64,
        item: u64,
        report: &'a AgentToServer,
        copy: AgentToServer,
    ) -> Result<(Row<'a>, ServerToAgent), NoMemory>
        requires copied { copy ≡ report.now }
        ensures row { IfOk result (λ answer. answer.0 ≡ record { desk = desk; item = item; report = report.now; reply = due_after self.old report.now }) }
        ensures reply { IfOk result (λ answer. answer.1 ≡ answer.0.reply) }
        ensures kept { IfOk result (λ answer. self.new ≡ self.old ++ answer.0 ∷ []) }
        ensures plain { IfOk result (λ answer. IsPlainTo report.now answer.1) }
        ensures history { OnOk result (IsHistory self.old) }
        ensures err { OnErr result (self.new ≡ self.old) }
    {
        table_follows_history();
        due_replies_are_plain();
        match make_room(&mut self.rows) {
            Ok(()) => {}
            Err(NoMemory) => {
                drop(copy);
                return Err(NoMemory);
            }
        }
        let reply = self.server.handle_owned(copy, None)?;
        let row = row_of(desk, item, report, &reply);
        put_last(&mut self.rows, row.again());
        Ok((row, reply))
    }

    /// The journal's rows, which are a history of one thread. Takes no memory.
    pub fn into_rows(self) -> List<Row<'a>>
        ensures rows { result ≡ self.entry }
        ensures history { IsHistory result }
    {
        let (rows, server) = self.into_rows_and_server();
        drop(server);
        rows
    }

    /// The journal's rows, which are a history of one thread, and its server, which may hold much: a caller may let another thread free it. Takes no memory.
    pub fn into_rows_and_server(self) -> (List<Row<'a>>, Server)
        ensures rows { result.0 ≡ self.entry }
        ensures history { IsHistory result.0 }
    {
        let Journal {
            alloc: _,
            server,
            rows,
        } = self;
        (List::of(rows), server)
    }
}

// The row of a report and a reply that offers nothing.
fn row_of<'a>(desk: u64, item: u64, report: &'a AgentToServer, reply: &ServerToAgent) -> Row<'a>
    requires plain { IsPlainTo report.now reply.now }
    ensures row { result ≡ record { desk = desk; item = item; report = report.now; reply = reply.now } }
{
    Row {
        desk,
        item,
        report,
        reply: PlainReply::of(report, reply),
    }
}
