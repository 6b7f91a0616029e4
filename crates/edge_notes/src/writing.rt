//! How notes are written.

ghost use Rattle.std.specs.List.{flat_map};
ghost use Rattle.edge_notes.specs.Noted.{IsNoted, NotedIf};

use crate::notes::Note;
use edge_devices::Sink;

/// Writes a note of these parts, as far as the sink takes it.
pub fn put_parts<N: Sink>(notes: &mut N, parts: &[&str])
    ensures noted { IsNoted (flat_map (λ part. part.now) parts.now) (record { taken = N.taken notes.old; faults = N.faults notes.old }) (record { taken = N.taken notes.new; faults = N.faults notes.new }) }
{
    for part in parts {
        match notes.put(part.as_bytes()) {
            Ok(()) => {}
            Err(_) => return,
        }
    }
}

// Writes a note, as far as the sink takes it.
fn put_text<N: Sink>(notes: &mut N, text: &str)
    ensures noted { IsNoted text.now (record { taken = N.taken notes.old; faults = N.faults notes.old }) (record { taken = N.taken notes.new; faults = N.faults notes.new }) }
{
    match notes.put(text.as_bytes()) {
        Ok(()) => {}
        Err(_) => {}
    }
}

/// Writes the note, if there is one, as far as the sink takes it.
pub fn put_note<N: Sink>(notes: &mut N, note: Option<Note>)
    ensures noted { NotedIf note (record { taken = N.taken notes.old; faults = N.faults notes.old }) (record { taken = N.taken notes.new; faults = N.faults notes.new }) }
{
    match note {
        None => {}
        Some(note) => put_text(notes, note.text()),
    }
}
