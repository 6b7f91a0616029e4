//! The reports of a fleet, handled in their order in one thread.

ghost use Rattle.std.specs.Prelude.{◌≡◌, ◌<◌, ◌≤◌, IfOk};
ghost use Rattle.shard_journals.specs.Fleets.{AreJournalsOf, IsJournalOf};

use crate::journal::Journal;
use crate::rows::Row;
use crate::sharding::{SHARDS, shard_of};
use message_values::AgentToServer;
use plain_values::{List, NoMemory};
use std::alloc::Global;

/// Handles the reports in their order, in one thread, as `desks` desks would share them. The answer has the journals of the
/// shards.
pub fn handle_in_order<'a>(
    alloc: Global,
    items: &'a [AgentToServer],
    desks: u64,
) -> Result<List<List<Row<'a>>>, NoMemory>
    requires desks { 1 ≤ desks }
    ensures journals { IfOk result (λ journals. AreJournalsOf items.now desks journals) }
{
    let mut journals = List::new(alloc);
    for shard in 0..SHARDS {
        journals.push(journal_of(alloc, items, desks, shard)?)?;
    }
    Ok(journals)
}

// The journal of one shard.
fn journal_of<'a>(
    alloc: Global,
    items: &'a [AgentToServer],
    desks: u64,
    shard: u64,
) -> Result<List<Row<'a>>, NoMemory>
    requires desks { 1 ≤ desks }
    ensures journal { IfOk result (λ rows. IsJournalOf items.now desks shard rows) }
{
    let mut journal = Journal::new(alloc);
    for at in 0..items.len() {
        let report = &items[at];
        if shard_of(report.instance_uid.as_slice()) == shard {
            journal.handle(at as u64 % desks, at as u64, report)?;
        }
    }
    Ok(journal.into_rows())
}
