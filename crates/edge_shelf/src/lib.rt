//! The shelf on which a server keeps its word: a folder of whole files, in memory and real. A stop of the machine in any
//! of its calls leaves each file as it was before or as the call was to make it, never a part of either.
#![tactic(auto)]

mod counts;
mod file_shelf;
mod memory_shelf;
mod shelf;
mod slots;

pub use edge_devices::FolderFail;
pub use file_shelf::FileShelf;
pub use memory_shelf::{MemoryShelf, Mode};
pub use shelf::Shelf;
