//! Notes: what the program says beside its output. Where a note can't be written, nothing else changes.
#![tactic(auto)]

mod notes;
mod writing;

pub use notes::Note;
pub use writing::{put_note, put_parts};
