//! Orders of an operator.

ghost use Rattle.std.specs.Prelude.{◌≡◌, ◌⊎◌, ℕ, IfOk, OnErr, OnOk};
ghost use Rattle.server_lines.specs.Answers.{RunsOrder, fleet_of};
ghost use Rattle.server_lines.specs.Orders.{agent_of};
ghost use Rattle.server_lines.specs.Sights.{numbers_in, sight_of};
ghost use Rattle.server_lines.specs.Journal.{journal_words};
ghost use Rattle.server_sessions.specs.Answers.{note_entry, note_ordered};
ghost use Rattle.std.specs.Prelude.{List as Items};

use crate::answers::stepped::Entry;
use plain_values::{List, NoMemory, Plain, Text, Uid};
use server_lines::{Order, Sightings, journal_words, run_order};
use server_waves::ServerDesk;
use std::alloc::Global;
use std::collections::BTreeMap;

// Notes the order's agent, where the text is `ok`.
fn note_ordered(ordered: &mut List<Uid>, agent: Option<Uid>, text: &[u8]) -> Result<(), NoMemory>
    ensures ok { OnOk result (ordered.new ≡ note_ordered agent text.now ordered.old) }
    ensures err { OnErr result (ordered.new ≡ ordered.old) }
{
    if let Some(uid) = agent
        && text == b"ok\n".as_slice()
    {
        ordered.push(uid)?;
    }
    Ok(())
}

// Notes what a journal tells of an order, where it has words there.
fn note_entry(
    alloc: Global,
    entries: &mut List<Entry>,
    conn: u64,
    words: Option<Text>,
    answer: &Text,
) -> Result<(), NoMemory>
    ensures ok { OnOk result (entries.new ≡ note_entry conn words answer.now entries.old) }
    ensures err { OnErr result (entries.new ≡ entries.old) }
{
    if let Some(words) = words {
        let answer = answer.copy(alloc)?;
        entries.push(Entry {
            conn,
            words,
            answer,
        })?;
    }
    Ok(())
}

/// Carries an order out, notes what a journal tells of it, and its agent where it is answered by `ok`, and gives the text of its answer.
///
/// Where memory is wanting no agent is noted; the order was carried out or not, and what a journal tells of it was noted or not.
pub fn run_noting<V>(
    alloc: Global,
    desk: &mut ServerDesk,
    seen: &Sightings,
    known: &BTreeMap<u64, V>,
    ordered: &mut List<Uid>,
    entries: &mut List<Entry>,
    conn: u64,
    order: Order,
) -> Result<Text, NoMemory>
    ensures runs { IfOk result (λ text. RunsOrder (sight_of seen.now (numbers_in known.now.entries)) (fleet_of desk.old.server.table desk.old.rollouts) order text (fleet_of desk.new.server.table desk.new.rollouts)) }
    ensures noted { IfOk result (λ text. ordered.new ≡ note_ordered (agent_of order) text ordered.old) }
    ensures told { IfOk result (λ text. entries.new ≡ note_entry conn (journal_words order) text entries.old) }
    ensures err { OnErr result ((fleet_of desk.new.server.table desk.new.rollouts ≡ fleet_of desk.old.server.table desk.old.rollouts)
        ⊎ ((text : Items ℕ) × RunsOrder (sight_of seen.now (numbers_in known.now.entries)) (fleet_of desk.old.server.table desk.old.rollouts) order text (fleet_of desk.new.server.table desk.new.rollouts))) }
    ensures ordered { OnErr result (ordered.new ≡ ordered.old) }
    ensures half_told { OnErr result ((entries.new ≡ entries.old)
        ⊎ ((text : Items ℕ) × RunsOrder (sight_of seen.now (numbers_in known.now.entries)) (fleet_of desk.old.server.table desk.old.rollouts) order text (fleet_of desk.new.server.table desk.new.rollouts)
        × (entries.new ≡ note_entry conn (journal_words order) text entries.old))) }
    ensures profile { desk.new.server.profile ≡ desk.old.server.profile }
{
    let agent = order.agent();
    let words = journal_words(alloc, &order)?;
    let text = run_order(alloc, desk, seen, known, order)?;
    note_entry(alloc, entries, conn, words, &text)?;
    note_ordered(ordered, agent, text.as_str().as_bytes())?;
    Ok(text)
}
