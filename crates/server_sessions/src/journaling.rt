//! The journal of a session.

ghost use Rattle.std.specs.Prelude.{◌≡◌, ◌++◌, codes, false};
ghost use Rattle.edge_notes.specs.Noted.{IsNoted};
ghost use Rattle.server_sessions.specs.Journaling.{Journals, NotesEntries, entry_line};

use crate::answers::Entry;
use edge_devices::Sink;
use edge_notes::put_parts;
use itoa::Buffer;

// One lifetime for all, since they stand in one array.
fn put_line<'a, N: Sink>(
    notes: &mut N,
    number: &'a str,
    conn: &'a str,
    words: &'a str,
    answer: &'a str,
)
    ensures noted { IsNoted (codes "order " ++ (number.now ++ (codes " " ++ (conn.now ++ (codes " " ++ (words.now ++ (codes ": " ++ answer.now)))))))
        (record { taken = N.taken notes.old; faults = N.faults notes.old }) (record { taken = N.taken notes.new; faults = N.faults notes.new }) }
{
    put_parts(
        notes,
        &["order ", number, " ", conn, " ", words, ": ", answer],
    );
}

// Notes the line of an order, whose event has this number.
fn put_entry<N: Sink>(notes: &mut N, number: u64, entry: &Entry)
    ensures noted { IsNoted (entry_line number entry.now) (record { taken = N.taken notes.old; faults = N.faults notes.old }) (record { taken = N.taken notes.new; faults = N.faults notes.new }) }
{
    let mut number_digits = Buffer::new();
    let mut conn_digits = Buffer::new();
    put_line(
        notes,
        number_digits.format(number),
        conn_digits.format(entry.conn),
        entry.words.as_str(),
        entry.answer.as_str(),
    );
}

fn put_entries<N: Sink>(notes: &mut N, number: u64, entries: &[Entry])
    ensures noted { NotesEntries number entries.now (record { taken = N.taken notes.old; faults = N.faults notes.old }) (record { taken = N.taken notes.new; faults = N.faults notes.new }) }
{
    for entry in entries {
        put_entry(notes, number, entry);
    }
}

/// Notes the lines of an event's orders under its number, one after the other, where a journal is kept. A line that the sink doesn't
/// take whole changes nothing else. Takes no memory.
pub fn put_journal<N: Sink>(notes: &mut N, journal: bool, number: u64, entries: &[Entry])
    ensures journals { Journals journal number entries.now (record { taken = N.taken notes.old; faults = N.faults notes.old }) (record { taken = N.taken notes.new; faults = N.faults notes.new }) }
    ensures silent { journal ≡ false → notes.new ≡ notes.old }
{
    if journal {
        put_entries(notes, number, entries);
    }
}
