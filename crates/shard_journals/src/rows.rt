//! The rows of a journal.

ghost use Rattle.std.specs.Prelude.{◌≡◌, ◌↔◌, IfOk, IsTrue};
ghost use Rattle.shard_journals.specs.Rows.{reply_of};

use crate::replies::PlainReply;
use message_values::{AgentToServer, ServerToAgent};
use plain_values::{NoMemory, Plain};
use std::alloc::Global;
use std::marker::Model;

/// What one handled report leaves in a journal. Contracts see the report itself, and the whole reply.
///
/// The report is borrowed, and the reply is kept by its parts, so that a row takes no memory of its own.
pub struct Row<'a> {
    /// The number of the desk that had the report handled.
    pub desk: u64,
    /// The report's place in the list that it comes from, which counts from 0.
    pub item: u64,
    /// The report.
    pub report: &'a AgentToServer,
    /// The parts of the reply to it.
    pub reply: PlainReply,
}

// By hand, so that it is a call where a value is dropped, and not laid out there.
impl<'a> Drop for Row<'a> {
    fn drop(self) {
        let Row {
            desk: _,
            item: _,
            report: _,
            reply: _,
        } = self;
    }
}

impl<'a> Model for Row<'a> {
    ghost use Rattle.std.specs.Coded.{codes};
    ghost use Rattle.message_values.specs.contracts.report.AgentToServer as report_;
    ghost use Rattle.message_values.specs.contracts.reply.ServerToAgent as reply_;
    ghost use Rattle.shard_journals.specs.Rows.{JournalRow, reply_of};

    ghost Value = { JournalRow };

    ghost coded = { Prim.hlevel (codes, report_.the_row.coded, reply_.the_row.coded) };

    ghost view = { λ r. record { desk = r.desk; item = r.item; report = r.report.now; reply = reply_of r.report.now r.reply } };
}

impl<'a> Row<'a> {
    /// An equal row. Takes no memory.
    pub fn again(&self) -> Row<'a>
        ensures same { result ≡ self.now }
    {
        Row {
            desk: self.desk,
            item: self.item,
            report: self.report,
            reply: self.reply,
        }
    }

    /// The reply.
    pub fn message(&self, alloc: Global) -> Result<ServerToAgent, NoMemory>
        ensures reply { IfOk result (λ reply. reply ≡ self.now.reply) }
    {
        self.reply.message(alloc, self.report)
    }
}

impl<'a> Plain for Row<'a> {
    fn copy(&self, _alloc: Global) -> Result<Row<'a>, NoMemory> {
        Ok(self.again())
    }

    fn same(&self, other: &Row<'a>) -> bool {
        self.desk == other.desk
            && self.item == other.item
            && self.report.same(other.report)
            && same_reply(self.report, self.reply, other.reply)
    }
}

// Whether these are parts of one reply to the report.
fn same_reply(report: &AgentToServer, parts: PlainReply, others: PlainReply) -> bool
    ensures same { IsTrue result ↔ (reply_of report.now parts ≡ reply_of report.now others) }
{
    let same_name = parts.named == others.named || report.instance_uid.as_slice().is_empty();
    same_name
        && parts.error == others.error
        && parts.flags == others.flags
        && parts.capabilities == others.capabilities
}
