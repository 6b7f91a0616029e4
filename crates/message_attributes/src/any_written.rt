//! Attributes and their values in canonical form.

ghost use Rattle.std.specs.Prelude.{◌≡◌, ◌<◌, ◌^◌, length, min};
ghost use Rattle.message_codec.specs.Filling.{HasPlace, Fills};
ghost use Rattle.message_codec.specs.Tables as tables;
ghost use Rattle.message_codec.specs.Canonical.{canonical, capped, Puts};
ghost use Rattle.message_codec.specs.Fits.{FitsMessage};
ghost use Rattle.message_codec.specs.Levels.{deepest};
ghost use Rattle.message_attributes.specs.AnyColumns.{any_columns, pair_columns, list_columns};

use crate::Shared;
use message_codec::wire::Out;
use message_codec::writer::counting::{
    count_content, count_eight, count_number, count_part, count_text,
};
use message_codec::writer::filling::{fill_content, fill_eight, fill_head, fill_number, fill_text};
use message_codec::writer::written::Written;
use message_values::{AnyValue, KeyValue};
use plain_values::NoMemory;

// A recursion may not go through a trait's method, so each message of the cycle has plain functions: its length, its levels, its bytes. The
// member that is set is written also at its default (Protocol Buffers language guide, "Oneof Features").
#[cycle(counting)]
fn any_len(value: &AnyValue) -> u64
    ensures counts { result ≡ capped (canonical tables.AnyValue (any_columns value.now)) }
    ensures fits { FitsMessage tables.AnyValue (any_columns value.now) }
{
    match value {
        AnyValue::Nothing => 0,
        AnyValue::Str(text) => count_content(0, 1, text.as_str().as_bytes()),
        AnyValue::Bool(flag) => count_number(0, 2, u64::from(*flag)),
        AnyValue::Int(number) => count_number(0, 3, number.cast_unsigned()),
        AnyValue::Double(bits) => {
            // Read for its range.
            let _bits = *bits;
            count_eight(0, 4)
        }
        AnyValue::Array(values) => count_part(0, 5, array_len(values.as_slice())),
        AnyValue::Pairs(pairs) => count_part(0, 6, kvlist_len(pairs.as_slice())),
        AnyValue::Bytes(bytes) => count_content(0, 7, bytes.as_slice()),
    }
}

#[cycle(counting)]
fn array_len(values: &[AnyValue]) -> u64
    ensures counts { result ≡ capped (canonical tables.ArrayValue (list_columns any_columns values.now)) }
    ensures fits { FitsMessage tables.ArrayValue (list_columns any_columns values.now) }
{
    let mut total = 0;
    for value in values {
        total = count_part(total, 1, any_len(value));
    }
    total
}

#[cycle(counting)]
fn kvlist_len(pairs: &[KeyValue]) -> u64
    ensures counts { result ≡ capped (canonical tables.KeyValueList (list_columns pair_columns pairs.now)) }
    ensures fits { FitsMessage tables.KeyValueList (list_columns pair_columns pairs.now) }
{
    let mut total = 0;
    for pair in pairs {
        total = count_part(total, 1, pair_len(pair));
    }
    total
}

#[cycle(counting)]
fn pair_len(pair: &KeyValue) -> u64
    ensures counts { result ≡ capped (canonical tables.KeyValue (pair_columns pair.now)) }
    ensures fits { FitsMessage tables.KeyValue (pair_columns pair.now) }
{
    let total = count_text(0, 1, &pair.key);
    match &pair.value {
        None => total,
        Some(any) => count_part(total, 2, any_len(any)),
    }
}

#[cycle(depth)]
fn any_deepest(value: &AnyValue) -> u64
    ensures levels { result ≡ min (deepest (any_columns value.now)) 100 }
{
    match value {
        AnyValue::Array(values) => (1 + array_deepest(values.as_slice())).min(100),
        AnyValue::Pairs(pairs) => (1 + kvlist_deepest(pairs.as_slice())).min(100),
        AnyValue::Nothing => 0,
        AnyValue::Str(_) => 0,
        AnyValue::Bool(_) => 0,
        AnyValue::Int(_) => 0,
        AnyValue::Double(_) => 0,
        AnyValue::Bytes(_) => 0,
    }
}

#[cycle(depth)]
fn array_deepest(values: &[AnyValue]) -> u64
    ensures levels { result ≡ min (deepest (list_columns any_columns values.now)) 100 }
{
    let mut most = 0u64;
    for value in values {
        most = most.max((1 + any_deepest(value)).min(100));
    }
    most
}

#[cycle(depth)]
fn kvlist_deepest(pairs: &[KeyValue]) -> u64
    ensures levels { result ≡ min (deepest (list_columns pair_columns pairs.now)) 100 }
{
    let mut most = 0u64;
    for pair in pairs {
        most = most.max((1 + pair_deepest(pair)).min(100));
    }
    most
}

#[cycle(depth)]
fn pair_deepest(pair: &KeyValue) -> u64
    ensures levels { result ≡ min (deepest (pair_columns pair.now)) 100 }
{
    match &pair.value {
        None => 0,
        Some(any) => (1 + any_deepest(any)).min(100),
    }
}

// Each is written from its end to its front, over the place that was made for the whole, so that the length of a part is never measured again.
// That the place is there is a premise of each clause, and no `requires`, which would be part of the goal that the recursion ends. Each answers
// where its bytes begin.
#[cycle(filling)]
fn fill_any(out: &mut Out, end: u64, value: &AnyValue) -> u64
    ensures fills { HasPlace out.old end (canonical tables.AnyValue (any_columns value.now)) → Fills out.old out.new end (canonical tables.AnyValue (any_columns value.now)) result }
{
    match value {
        AnyValue::Nothing => end,
        AnyValue::Str(text) => fill_content(out, end, 1, text.as_str().as_bytes()),
        AnyValue::Bool(flag) => fill_number(out, end, 2, u64::from(*flag)),
        AnyValue::Int(number) => fill_number(out, end, 3, number.cast_unsigned()),
        AnyValue::Double(bits) => fill_eight(out, end, 4, *bits),
        AnyValue::Array(values) => {
            let start = fill_array(out, end, values.as_slice());
            fill_head(out, start, end, 5)
        }
        AnyValue::Pairs(pairs) => {
            let start = fill_kvlist(out, end, pairs.as_slice());
            fill_head(out, start, end, 6)
        }
        AnyValue::Bytes(bytes) => fill_content(out, end, 7, bytes.as_slice()),
    }
}

#[cycle(filling)]
fn fill_array(out: &mut Out, end: u64, values: &[AnyValue]) -> u64
    ensures fills { HasPlace out.old end (canonical tables.ArrayValue (list_columns any_columns values.now)) → Fills out.old out.new end (canonical tables.ArrayValue (list_columns any_columns values.now)) result }
{
    let mut at = end;
    let mut left = values.len();
    while left > 0 {
        left -= 1;
        let start = fill_any(out, at, &values[left]);
        at = fill_head(out, start, at, 1);
    }
    at
}

#[cycle(filling)]
fn fill_kvlist(out: &mut Out, end: u64, pairs: &[KeyValue]) -> u64
    ensures fills { HasPlace out.old end (canonical tables.KeyValueList (list_columns pair_columns pairs.now)) → Fills out.old out.new end (canonical tables.KeyValueList (list_columns pair_columns pairs.now)) result }
{
    let mut at = end;
    let mut left = pairs.len();
    while left > 0 {
        left -= 1;
        let start = fill_pair(out, at, &pairs[left]);
        at = fill_head(out, start, at, 1);
    }
    at
}

#[cycle(filling)]
fn fill_pair(out: &mut Out, end: u64, pair: &KeyValue) -> u64
    ensures fills { HasPlace out.old end (canonical tables.KeyValue (pair_columns pair.now)) → Fills out.old out.new end (canonical tables.KeyValue (pair_columns pair.now)) result }
{
    match &pair.value {
        Some(any) => {
            let start = fill_any(out, end, any);
            let value = fill_head(out, start, end, 2);
            fill_text(out, value, 1, &pair.key)
        }
        None => fill_text(out, end, 1, &pair.key),
    }
}

// Makes the place of a value, and writes it there.
fn put_any(out: &mut Out, value: &AnyValue) -> Result<(), NoMemory>
    requires few { length (canonical tables.AnyValue (any_columns value.now)) < 2 ^ 62 }
    ensures puts { Puts out.old out.new (canonical tables.AnyValue (any_columns value.now)) result }
{
    out.append_zeros(any_len(value))?;
    let end = out.as_slice().len() as u64;
    fill_any(out, end, value);
    Ok(())
}

// Makes the place of an attribute, and writes it there.
fn put_pair(out: &mut Out, pair: &KeyValue) -> Result<(), NoMemory>
    requires few { length (canonical tables.KeyValue (pair_columns pair.now)) < 2 ^ 62 }
    ensures puts { Puts out.old out.new (canonical tables.KeyValue (pair_columns pair.now)) result }
{
    out.append_zeros(pair_len(pair))?;
    let end = out.as_slice().len() as u64;
    fill_pair(out, end, pair);
    Ok(())
}

impl Written<Shared> for AnyValue {
    ghost name = { tables.AnyValue };

    ghost columns = { any_columns };

    fn len(&self) -> u64 {
        any_len(self)
    }

    fn deepest(&self) -> u64 {
        any_deepest(self)
    }

    fn put(&self, out: &mut Out) -> Result<(), NoMemory> {
        put_any(out, self)
    }
}

impl Written<Shared> for KeyValue {
    ghost name = { tables.KeyValue };

    ghost columns = { pair_columns };

    fn len(&self) -> u64 {
        pair_len(self)
    }

    fn deepest(&self) -> u64 {
        pair_deepest(self)
    }

    fn put(&self, out: &mut Out) -> Result<(), NoMemory> {
        put_pair(out, self)
    }
}
