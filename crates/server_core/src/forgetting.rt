//! Which rows stay where the agents that have left are forgotten.

ghost use Rattle.std.specs.Prelude.{◌≡◌, ◌+◌, filter, length, not, take};
ghost use Rattle.server_core.specs.Beside.{rows_here};

use crate::rows::{Record, Row};

/// Leaves the records of agents that haven't left, in their order, and the rows beside them, and tells how many are gone.
pub(crate) fn drop_left(records: &mut Vec<Record>, rows: &mut Vec<Row>) -> usize
    requires even { length rows.old.items ≡ length records.old.items }
    ensures records { records.new.items ≡ filter (λ r. not r.left) records.old.items }
    ensures rows { rows.new.items ≡ rows_here records.old.items rows.old.items }
    ensures count { result ≡ length (filter (λ r. r.left) records.old.items) }
{
    let before = records.len();
    let here = gather_here(records.as_mut_slice(), rows.as_mut_slice());
    records.truncate(here);
    rows.truncate(here);
    before - here
}

// Brings the records of agents that haven't left to the front, in their order, with the rows beside them, and tells how many
// these are.
fn gather_here(records: &mut [Record], rows: &mut [Row]) -> usize
    requires even { length rows.old ≡ length records.old }
    ensures records { take result records.new ≡ filter (λ r. not r.left) records.old }
    ensures rows { take result rows.new ≡ rows_here records.old rows.old }
    ensures count { result + length (filter (λ r. r.left) records.old) ≡ length records.old }
{
    let mut here = 0;
    for at in 0..records.len() {
        if !records[at].left {
            records.swap(here, at);
            rows.swap(here, at);
            here += 1;
        }
    }
    here
}
