//! What an agent keeps on its disk, and the rules by which it keeps it, reports and takes replies.
//!
//! What it keeps is the payload of a store: its canonical bytes, their reading, and the change from one value to the next by fields. These messages
//! are this project's own; their tables stand beside those of OpAMP. The rules are its half of the world: what each of its calls leaves and keeps,
//! and what happens to it as the calls that are made of it.
//!
//! An agent reports its whole state first, and from then on only what has changed since its last report, as long as its server answers (OpAMP
//! specification, "Agent Status Compression"). It tries offered connection settings beside its own (OpAMP specification, "Connection Settings
//! Management"), and keeps on its disk what it must not lose. The definitions stand in specs/.
#![tactic(auto)]

mod applying;
mod changing;
mod drafts;
mod fields;
pub mod laws;
mod parts;
mod payload;
mod reading;
mod rules;
mod saved;
mod written;

pub use applying::change_saved;
pub use changing::{change_len, put_change};
pub use message_values::profile::{
    ACCEPTS_CONNECTION_SETTINGS, ACCEPTS_PACKAGES, ACCEPTS_REMOTE_CONFIG, APPLIED, FAILED,
    REPORT_AVAILABLE_COMPONENTS, REPORT_FULL_STATE, REQUEST_INSTANCE_UID, RESTART,
};
pub use plain_values::NoMemory;
pub use reading::read_saved;
pub use rules::{
    AgentFail, Heard, LAST_LIMIT, LocalState, Next, Prepared, RESERVED_BLOCK,
    awaited_reports_are_unanswered, block_numbers, files_wait_until_applied,
    identifiers_are_not_offered, numbers_stay_reserved, settings_wait_for_their_proof,
};
pub use saved::{Saved, is_right};
pub use written::{LENGTH_LIMIT, put_saved, saved_len};

/// Marks the messages that this crate reads and writes.
pub struct Kept;
