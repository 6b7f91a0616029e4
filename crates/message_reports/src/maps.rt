//! Maps of the entries that were read.

ghost use Rattle.std.specs.Prelude.{◌≡◌, IsTrue, IfOk};
ghost use Rattle.plain_values.specs.Pairs.{IsAscending, put_all};

use plain_values::{List, Map, NoMemory, Pair};
use std::alloc::Global;
use std::cmp::Ordering;

// Whether each key is below the next one, and so below all later ones. It goes from the last pair to the first.
fn ascends<T>(entries: &[Pair<T>]) -> bool
    ensures order { IsTrue result → IsAscending entries.now }
{
    let mut at = entries.len();
    while at > 1 {
        let first = at - 2;
        let next = at - 1;
        let pair = &entries[first];
        let later = &entries[next];
        match pair.key.as_str().cmp(later.key.as_str()) {
            Ordering::Less => at = next,
            _ => return false,
        }
    }
    true
}

/// The map that the entries make when they are put one after the other (Protocol Buffers encoding guide, "Maps"). Entries that come in ascending
/// order of their keys, as most writers have them, are that map already, and stay where they are. Others take time of n log n.
pub(crate) fn map_of<T: Drop>(alloc: Global, entries: List<Pair<T>>) -> Result<Map<T>, NoMemory>
    ensures value { IfOk result (λ map. map ≡ put_all entries) }
{
    if ascends(entries.as_slice()) {
        Ok(Map::from_ascending(entries.into_vec()))
    } else {
        Map::of_entries(alloc, entries.into_vec())
    }
}
