//! Laws of the journals, and the numbers of shards. No function here does anything: each stands for its clauses.

ghost use denote.Param.Send.{IsSend, IsSync};
ghost use denote.Ref.{NamedLft};
ghost use Rattle.std.specs.Prelude.{◌≡◌, ◌==◌, ℕ, List, filter, map, slice_get, Some};
ghost use Rattle.plain_values.specs.contracts.lists.List as list_;
ghost use Rattle.message_values.specs.contracts.report.AgentToServer as report_;
ghost use Rattle.shard_journals.specs.contracts.journal.Journal as journal_;
ghost use Rattle.shard_journals.specs.contracts.rows.Row as row_;
ghost use Rattle.server_core.specs.contracts.server.Server as server_;
ghost use Rattle.message_values.specs.declared.report.AgentToServer.{AgentToServer};
ghost use Rattle.shard_journals.specs.declared.rows.Row.{Row};
ghost use Rattle.shard_journals.specs.Fleets.{IsJournalOf};
ghost use Rattle.shard_journals.specs.Histories.{due_after};
ghost use Rattle.shard_journals.specs.PlainReplies.{IsPlainTo};
ghost use Rattle.shard_journals.specs.Sharding.{shard_of};

use crate::sharding::{FLEET_CAPABILITIES, SHARDS};

/// Law: a reply that is due after reports alone offers and orders nothing.
pub fn due_replies_are_plain()
    ensures plain { (rows : List Row) (m : AgentToServer) → IsPlainTo m (due_after rows m) }
{}

/// Law: with one desk the journal of a shard is the reports of its agents in their order.
pub fn one_desk_keeps_order()
    ensures order { (items : List AgentToServer) (shard : ℕ) (rows : List Row) → IsJournalOf items 1 shard rows
        → map (λ r. r.report) rows ≡ filter (λ m. shard_of m.instance_uid == shard) items }
{}

/// Law: reports and rows may go from thread to thread and be shared by threads, as lists of rows may; a journal may go from
/// thread to thread, and so may a server.
pub fn journals_cross_threads()
    ensures reports_sent { IsSend report_.the_row }
    ensures reports_shared { IsSync report_.the_row }
    ensures rows_sent { (a : NamedLft) → IsSend (row_.the_row a) }
    ensures rows_shared { (a : NamedLft) → IsSync (row_.the_row a) }
    ensures lists_shared { (a : NamedLft) → IsSync (list_.the_row (row_.the_row a)) }
    ensures journals_sent { (a : NamedLft) → IsSend (journal_.the_row a) }
    ensures servers_sent { IsSend server_.the_row }
{}

/// Law: there are four shards, and their servers have these capabilities.
pub fn fleet_numbers()
    ensures shards { SHARDS ≡ 4 }
    ensures capabilities { FLEET_CAPABILITIES ≡ 5 }
{}
