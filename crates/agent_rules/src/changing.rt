//! The change from one row of canonical bytes to the next, written field by field. Nothing here takes memory but what the row lacks.

ghost use Rattle.std.specs.Prelude.{◌≡◌, ◌+◌, ◌-◌, ◌<◌, ◌≤◌, ◌^◌, length, take, drop};
ghost use Rattle.message_codec.specs.Row.{Appends};
ghost use Rattle.message_codec.specs.Tables.{Raw};
ghost use Rattle.message_codec.specs.Canonical.{capped, column_bytes, plus_length, Puts};
ghost use Rattle.agent_rules.specs.Spelled.{change, change_from, difference, piece, rest_after};

use message_codec::wire::{Out, read_field};
use message_codec::writer::counting::count_content;
use message_codec::writer::putting::put_content;
use plain_values::NoMemory;

/// The greatest number of a field.
const LAST_FIELD: u32 = 12;

// How many bytes the field of this number has at the front: none where another one stands there.
fn field_len(bytes: &[u8], number: u32) -> usize
    ensures within { result ≤ length bytes.now }
    ensures piece { take result bytes.now ≡ piece number bytes.now }
    ensures rest { drop result bytes.now ≡ rest_after number bytes.now }
{
    if bytes.is_empty() {
        return 0;
    }
    match read_field(bytes, 0, bytes.len() as u64) {
        Ok(field) => {
            if field.number == number {
                field.next as usize
            } else {
                0
            }
        }
        Err(_) => 0,
    }
}

// Adds the length of what a change has of a field: nothing where it is the same.
#[tactic(auto, unfolding(crate::specs::Spelled::difference, message_codec::specs::Canonical::plus_length), using(message_codec::proofs::Canonical::length_alone))]
fn count_difference(total: u64, number: u32, former: &[u8], next: &[u8]) -> u64
    requires total { total ≤ 2 ^ 62 }
    ensures bound { result ≤ 2 ^ 62 }
    ensures counts { result ≡ plus_length total (column_bytes number Raw (difference former.now next.now)) }
{
    if former == next {
        total
    } else {
        count_content(total, number, next)
    }
}

// Appends what a change has of a field.
#[tactic(auto, unfolding(crate::specs::Spelled::difference), using(message_codec::proofs::Canonical::length_alone, message_codec::proofs::Canonical::appended_after))]
fn put_difference(out: &mut Out, number: u32, former: &[u8], next: &[u8]) -> Result<(), NoMemory>
    ensures puts { Puts out.old out.new (column_bytes number Raw (difference former.now next.now)) result }
{
    if former != next {
        put_content(out, number, next)?;
    }
    Ok(())
}

// Adds the length of the fields that differ, from this number on.
fn count_from(total: u64, number: u32, former: &[u8], next: &[u8]) -> u64
    requires total { total ≤ 2 ^ 62 }
    requires number { number ≤ 13 }
    ensures bound { result ≤ 2 ^ 62 }
    ensures counts { result ≡ plus_length total (change_from (13 - number) number former.now next.now) }
{
    if number > LAST_FIELD {
        return total;
    }
    let (old, former) = former.split_at(field_len(former, number));
    let (new, next) = next.split_at(field_len(next, number));
    let total = count_difference(total, number, old, new);
    count_from(total, number + 1, former, next)
}

// Appends the fields that differ, from this number on.
fn put_from(out: &mut Out, number: u32, former: &[u8], next: &[u8]) -> Result<(), NoMemory>
    requires number { number ≤ 13 }
    ensures puts { Puts out.old out.new (change_from (13 - number) number former.now next.now) result }
{
    if number > LAST_FIELD {
        return Ok(());
    }
    let (old, former) = former.split_at(field_len(former, number));
    let (new, next) = next.split_at(field_len(next, number));
    put_difference(out, number, old, new)?;
    put_from(out, number + 1, former, next)
}

/// How many bytes the change from one row of canonical bytes to the next has, or 2^62 where they are more. It takes no memory.
pub fn change_len(former: &[u8], next: &[u8]) -> u64
    ensures counts { result ≡ capped (change former.now next.now) }
{
    count_from(0, 1, former, next)
}

/// Appends that change, of fewer than 2^62 bytes, as `change_len` tells. Up to the row's spare it takes no memory and succeeds; where memory
/// runs out the row stays as it was.
pub fn put_change(out: &mut Out, former: &[u8], next: &[u8]) -> Result<(), NoMemory>
    requires few { length (change former.now next.now) < 2 ^ 62 }
    ensures appends { Appends out.old out.new (change former.now next.now) result }
{
    out.reserve(change_len(former, next))?;
    put_from(out, 1, former, next)
}
