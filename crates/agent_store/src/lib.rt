//! A store of one part on a disk that may stop at any moment: two slots, and a log of changes behind each. A crash in a
//! save leaves the former part or the next one, and nothing else.
//!
//! The store is generic over what it keeps, a `Payload`.
#![tactic(auto)]

mod fail;
mod filling;
mod header;
mod joining;
mod laws;
mod log;
mod opened;
mod payload;
mod runs;
mod slots;
mod store;
mod writing;

pub use edge_devices::{Disk, MemDisk, Mode};
pub use fail::StoreFail;
pub use laws::{bytes_tell_store, load_new, save_and_load, stop_and_crash, stopped_save_leaves};
pub use opened::Opened;
pub use payload::Payload;
pub use runs::{Run, play, play_new};
pub use slots::{Layout, Side};
pub use store::Store;
