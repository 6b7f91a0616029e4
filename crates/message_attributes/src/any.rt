//! Attributes, and values of any kind, which may be lists of such values or of attributes (OpenTelemetry, "common.proto").

ghost use Rattle.std.specs.Prelude.{◌≡◌, ℕ, suc, ◌-◌, ◌<◌, [], ◌∷◌, ◌++◌, OnOk, IsOk, Err, Some, slice_range};
ghost use Rattle.message_codec.specs.Fields.{payload_in};
ghost use Rattle.message_codec.specs.declared.wire.field.FieldValue.TheVariants as values;
ghost use Rattle.message_codec.specs.declared.wire.field.Refused.{Refused as Fault};
ghost use Rattle.message_codec.specs.declared.reader.items.ReadFail.TheVariants as fails;
ghost use Rattle.message_codec.specs.Tables as tables;
ghost use Rattle.message_codec.specs.Tables.{Many, One, rows_of};
ghost use Rattle.message_codec.specs.Values.{Several};
ghost use Rattle.message_codec.specs.Means.{empty_of};
ghost use Rattle.message_attributes.specs.AnyColumns.{any_columns, pair_columns, list_columns, member_of, BeginsMember};
ghost use Rattle.message_codec.specs.Reads.{Reads, Takes, TakesIn, Began};
ghost use Rattle.message_codec.specs.Faults.{FirstFault};
ghost use Rattle.message_codec.specs.Read.{IsItem, field_of, FailsWith, FieldFails, PartFails, one_of, each_of};

use crate::Shared;
use message_codec::reader::columns::{take_text, text_in};
use message_codec::reader::items::{Item, ReadFail};
use message_codec::reader::message::{Message, Named, in_message, next_item, shifted, too_deep};
use message_codec::wire::FieldValue;
use message_values::{AnyValue, KeyValue};
use plain_values::{Blob, List, Text};
use std::alloc::Global;
use std::mem;

struct AnyTable;

impl Named for AnyTable {
    ghost name = { tables.AnyValue };
}

struct ArrayTable;

impl Named for ArrayTable {
    ghost name = { tables.ArrayValue };
}

struct KvlistTable;

impl Named for KvlistTable {
    ghost name = { tables.KeyValueList };
}

struct PairTable;

impl Named for PairTable {
    ghost name = { tables.KeyValue };
}

pub(crate) fn nothing() -> AnyValue
    ensures empty { any_columns result ≡ empty_of tables.AnyValue }
{
    AnyValue::Nothing
}

pub(crate) fn empty_pair(alloc: Global) -> KeyValue
    ensures empty { pair_columns result ≡ empty_of tables.KeyValue }
{
    KeyValue {
        key: Text::of(String::new(alloc)),
        value: None,
    }
}

pub(crate) fn begun_array(alloc: Global, any: &mut AnyValue) -> List<AnyValue>
    ensures { BeginsMember tables.ArrayValue 5 (member_of (any_columns any.old)) (list_columns any_columns result) }
{
    match mem::replace(any, AnyValue::Nothing) {
        AnyValue::Array(values) => values,
        AnyValue::Nothing => List::new(alloc),
        AnyValue::Str(_) => List::new(alloc),
        AnyValue::Bool(_) => List::new(alloc),
        AnyValue::Int(_) => List::new(alloc),
        AnyValue::Double(_) => List::new(alloc),
        AnyValue::Pairs(_) => List::new(alloc),
        AnyValue::Bytes(_) => List::new(alloc),
    }
}

pub(crate) fn begun_pairs(alloc: Global, any: &mut AnyValue) -> List<KeyValue>
    ensures { BeginsMember tables.KeyValueList 6 (member_of (any_columns any.old)) (list_columns pair_columns result) }
{
    match mem::replace(any, AnyValue::Nothing) {
        AnyValue::Pairs(pairs) => pairs,
        AnyValue::Nothing => List::new(alloc),
        AnyValue::Str(_) => List::new(alloc),
        AnyValue::Bool(_) => List::new(alloc),
        AnyValue::Int(_) => List::new(alloc),
        AnyValue::Double(_) => List::new(alloc),
        AnyValue::Array(_) => List::new(alloc),
        AnyValue::Bytes(_) => List::new(alloc),
    }
}

pub(crate) fn begun_value(value: &mut Option<AnyValue>) -> AnyValue
    ensures { Began tables.AnyValue (one_of any_columns value.old) (any_columns result) }
{
    match value.take() {
        Some(any) => any,
        None => nothing(),
    }
}

// By a call, so that the drop of what stood there is not laid out in each caller.
fn set(any: &mut AnyValue, value: AnyValue)
    ensures { any.new ≡ value }
{
    drop(mem::replace(any, value));
}

fn set_value(value: &mut Option<AnyValue>, any: AnyValue)
    ensures { value.new ≡ Some any }
{
    drop(mem::replace(value, Some(any)));
}

// The members that are no messages.
#[inline(always)]
fn take_plain(alloc: Global, any: &mut AnyValue, bytes: &[u8], item: &Item) -> Result<(), ReadFail>
    requires item { IsItem bytes.now item.now }
    requires no_array { item.now.number ≡ 5 → ⊥ }
    requires no_pairs { item.now.number ≡ 6 → ⊥ }
    ensures ok { OnOk result ((below : ℕ) → TakesIn below tables.AnyValue (field_of bytes.now item.now) (any_columns any.old) (any_columns any.new)) }
    ensures refused { FailsWith result (λ at why. (below : ℕ) → FieldFails below (rows_of tables.AnyValue) bytes.now item.now at why) }
{
    match (item.number, item.value) {
        (1, FieldValue::Bytes { from, to }) => {
            let text = text_in(alloc, bytes, item, from, to)?;
            set(any, AnyValue::Str(text));
        }
        (2, FieldValue::Varint(x)) => set(any, AnyValue::Bool(x != 0)),
        (3, FieldValue::Varint(x)) => set(any, AnyValue::Int(x.cast_signed())),
        (4, FieldValue::Eight(x)) => set(any, AnyValue::Double(x)),
        (7, FieldValue::Bytes { from, to }) => {
            let blob = Vec::from_slice(alloc, &bytes[from as usize..to as usize])?;
            set(any, AnyValue::Bytes(Blob::of(blob)));
        }
        _ => {}
    }
    Ok(())
}

// What reading a payload comes to in the message around it: the place of a fault counts from the message's first byte.
#[inline(always)]
fn in_field<N: Named>(
    read: Result<(), ReadFail>,
    bytes: &[u8],
    item: &Item,
    from: u64,
    to: u64,
    below: u32,
) -> Result<(), ReadFail>
    requires levels { 0 < below }
    requires item { IsItem bytes.now item.now }
    requires lies { item.now.value ≡ values.Bytes from to }
    requires fails { FailsWith read (FirstFault (suc (below - 1)) N.name (slice_range bytes.now from to)) }
    ensures ok { OnOk result (IsOk read) }
    ensures refused { FailsWith result (PartFails below N.name bytes.now item.now) }
{
    match read {
        Ok(()) => Ok(()),
        Err(fail) => Err(shifted::<N>(fail, bytes, item, from, to, below)),
    }
}

// Puts the message behind the others, if it was read.
#[inline(always)]
fn push_read<T: Drop>(
    column: &mut List<T>,
    message: T,
    read: Result<(), ReadFail>,
) -> Result<(), ReadFail>
    ensures ok { OnOk result (IsOk read × (column.new ≡ column.old ++ message ∷ [])) }
    ensures fails { (e : Fault) → result ≡ Err (fails.Refused e) → read ≡ Err (fails.Refused e) }
{
    match read {
        Ok(()) => Ok(column.push(message)?),
        Err(fail) => Err(fail),
    }
}

// A recursion may not go through a trait's method, so each message of the cycle has a loop, its fields and its columns as plain functions.
// The bytes are read into the value, where `below` levels may stand below it.
#[cycle(reading)]
fn read_any_into(
    alloc: Global,
    any: &mut AnyValue,
    bytes: &[u8],
    below: u32,
) -> Result<(), ReadFail>
    ensures ok { OnOk result (Reads (suc below) tables.AnyValue bytes.now (any_columns any.old) (any_columns any.new)) }
    ensures refused { FailsWith result (FirstFault (suc below) tables.AnyValue bytes.now) }
{
    let mut at = 0;
    while at < bytes.len() as u64 {
        let item = next_item::<AnyTable>(bytes, at, below)?;
        let taken = take_any(alloc, any, bytes, &item, below);
        in_message::<AnyTable>(taken, bytes, &item, below)?;
        at = item.next;
    }
    Ok(())
}

#[cycle(reading)]
pub(crate) fn take_any(
    alloc: Global,
    any: &mut AnyValue,
    bytes: &[u8],
    item: &Item,
    below: u32,
) -> Result<(), ReadFail>
    requires { IsItem bytes.now item.now }
    ensures ok { OnOk result (TakesIn below tables.AnyValue (field_of bytes.now item.now) (any_columns any.old) (any_columns any.new)) }
    ensures refused { FailsWith result (FieldFails below (rows_of tables.AnyValue) bytes.now item.now) }
{
    match item.number {
        5 => take_array(alloc, any, bytes, item, below),
        6 => take_kvlist(alloc, any, bytes, item, below),
        _ => take_plain(alloc, any, bytes, item),
    }
}

#[cycle(reading)]
fn take_array(
    alloc: Global,
    any: &mut AnyValue,
    bytes: &[u8],
    item: &Item,
    below: u32,
) -> Result<(), ReadFail>
    requires item { IsItem bytes.now item.now }
    requires number { item.now.number ≡ 5 }
    ensures ok { OnOk result (TakesIn below tables.AnyValue (field_of bytes.now item.now) (any_columns any.old) (any_columns any.new)) }
    ensures refused { FailsWith result (PartFails below tables.ArrayValue bytes.now item.now) }
{
    if let FieldValue::Bytes { from, to } = item.value {
        if below == 0 {
            return Err(too_deep::<ArrayTable>(bytes, item, from, to));
        }
        let mut values = begun_array(alloc, any);
        let read = read_array_into(
            alloc,
            &mut values,
            &bytes[from as usize..to as usize],
            below - 1,
        );
        set(any, AnyValue::Array(values));
        in_field::<ArrayTable>(read, bytes, item, from, to, below)?;
    }
    Ok(())
}

#[cycle(reading)]
fn read_array_into(
    alloc: Global,
    values: &mut List<AnyValue>,
    bytes: &[u8],
    below: u32,
) -> Result<(), ReadFail>
    ensures ok { OnOk result (Reads (suc below) tables.ArrayValue bytes.now (list_columns any_columns values.old) (list_columns any_columns values.new)) }
    ensures refused { FailsWith result (FirstFault (suc below) tables.ArrayValue bytes.now) }
{
    let mut at = 0;
    while at < bytes.len() as u64 {
        let item = next_item::<ArrayTable>(bytes, at, below)?;
        let taken = take_in_array(alloc, values, bytes, &item, below);
        in_message::<ArrayTable>(taken, bytes, &item, below)?;
        at = item.next;
    }
    Ok(())
}

#[cycle(reading)]
pub(crate) fn take_in_array(
    alloc: Global,
    values: &mut List<AnyValue>,
    bytes: &[u8],
    item: &Item,
    below: u32,
) -> Result<(), ReadFail>
    requires { IsItem bytes.now item.now }
    ensures ok { OnOk result (TakesIn below tables.ArrayValue (field_of bytes.now item.now) (list_columns any_columns values.old) (list_columns any_columns values.new)) }
    ensures refused { FailsWith result (FieldFails below (rows_of tables.ArrayValue) bytes.now item.now) }
{
    match item.number {
        1 => take_value(alloc, values, bytes, item, below)?,
        _ => {}
    }
    Ok(())
}

#[cycle(reading)]
fn take_value(
    alloc: Global,
    values: &mut List<AnyValue>,
    bytes: &[u8],
    item: &Item,
    below: u32,
) -> Result<(), ReadFail>
    requires { IsItem bytes.now item.now }
    ensures ok { OnOk result (Takes below (Many tables.AnyValue) (payload_in bytes.now item.now.value) (Several (each_of any_columns values.old)) (Several (each_of any_columns values.new))) }
    ensures refused { FailsWith result (PartFails below tables.AnyValue bytes.now item.now) }
{
    if let FieldValue::Bytes { from, to } = item.value {
        if below == 0 {
            return Err(too_deep::<AnyTable>(bytes, item, from, to));
        }
        let mut value = nothing();
        let read = read_any_into(
            alloc,
            &mut value,
            &bytes[from as usize..to as usize],
            below - 1,
        );
        let read = in_field::<AnyTable>(read, bytes, item, from, to, below);
        push_read(values, value, read)?;
    }
    Ok(())
}

#[cycle(reading)]
fn take_kvlist(
    alloc: Global,
    any: &mut AnyValue,
    bytes: &[u8],
    item: &Item,
    below: u32,
) -> Result<(), ReadFail>
    requires item { IsItem bytes.now item.now }
    requires number { item.now.number ≡ 6 }
    ensures ok { OnOk result (TakesIn below tables.AnyValue (field_of bytes.now item.now) (any_columns any.old) (any_columns any.new)) }
    ensures refused { FailsWith result (PartFails below tables.KeyValueList bytes.now item.now) }
{
    if let FieldValue::Bytes { from, to } = item.value {
        if below == 0 {
            return Err(too_deep::<KvlistTable>(bytes, item, from, to));
        }
        let mut pairs = begun_pairs(alloc, any);
        let read = read_kvlist_into(
            alloc,
            &mut pairs,
            &bytes[from as usize..to as usize],
            below - 1,
        );
        set(any, AnyValue::Pairs(pairs));
        in_field::<KvlistTable>(read, bytes, item, from, to, below)?;
    }
    Ok(())
}

#[cycle(reading)]
fn read_kvlist_into(
    alloc: Global,
    pairs: &mut List<KeyValue>,
    bytes: &[u8],
    below: u32,
) -> Result<(), ReadFail>
    ensures ok { OnOk result (Reads (suc below) tables.KeyValueList bytes.now (list_columns pair_columns pairs.old) (list_columns pair_columns pairs.new)) }
    ensures refused { FailsWith result (FirstFault (suc below) tables.KeyValueList bytes.now) }
{
    let mut at = 0;
    while at < bytes.len() as u64 {
        let item = next_item::<KvlistTable>(bytes, at, below)?;
        let taken = take_in_kvlist(alloc, pairs, bytes, &item, below);
        in_message::<KvlistTable>(taken, bytes, &item, below)?;
        at = item.next;
    }
    Ok(())
}

#[cycle(reading)]
pub(crate) fn take_in_kvlist(
    alloc: Global,
    pairs: &mut List<KeyValue>,
    bytes: &[u8],
    item: &Item,
    below: u32,
) -> Result<(), ReadFail>
    requires { IsItem bytes.now item.now }
    ensures ok { OnOk result (TakesIn below tables.KeyValueList (field_of bytes.now item.now) (list_columns pair_columns pairs.old) (list_columns pair_columns pairs.new)) }
    ensures refused { FailsWith result (FieldFails below (rows_of tables.KeyValueList) bytes.now item.now) }
{
    match item.number {
        1 => take_pair(alloc, pairs, bytes, item, below)?,
        _ => {}
    }
    Ok(())
}

#[cycle(reading)]
fn take_pair(
    alloc: Global,
    pairs: &mut List<KeyValue>,
    bytes: &[u8],
    item: &Item,
    below: u32,
) -> Result<(), ReadFail>
    requires { IsItem bytes.now item.now }
    ensures ok { OnOk result (Takes below (Many tables.KeyValue) (payload_in bytes.now item.now.value) (Several (each_of pair_columns pairs.old)) (Several (each_of pair_columns pairs.new))) }
    ensures refused { FailsWith result (PartFails below tables.KeyValue bytes.now item.now) }
{
    if let FieldValue::Bytes { from, to } = item.value {
        if below == 0 {
            return Err(too_deep::<PairTable>(bytes, item, from, to));
        }
        let mut pair = empty_pair(alloc);
        let read = read_pair_into(
            alloc,
            &mut pair,
            &bytes[from as usize..to as usize],
            below - 1,
        );
        let read = in_field::<PairTable>(read, bytes, item, from, to, below);
        push_read(pairs, pair, read)?;
    }
    Ok(())
}

#[cycle(reading)]
fn read_pair_into(
    alloc: Global,
    pair: &mut KeyValue,
    bytes: &[u8],
    below: u32,
) -> Result<(), ReadFail>
    ensures ok { OnOk result (Reads (suc below) tables.KeyValue bytes.now (pair_columns pair.old) (pair_columns pair.new)) }
    ensures refused { FailsWith result (FirstFault (suc below) tables.KeyValue bytes.now) }
{
    let mut at = 0;
    while at < bytes.len() as u64 {
        let item = next_item::<PairTable>(bytes, at, below)?;
        let taken = take_in_pair(alloc, pair, bytes, &item, below);
        in_message::<PairTable>(taken, bytes, &item, below)?;
        at = item.next;
    }
    Ok(())
}

#[cycle(reading)]
pub(crate) fn take_in_pair(
    alloc: Global,
    pair: &mut KeyValue,
    bytes: &[u8],
    item: &Item,
    below: u32,
) -> Result<(), ReadFail>
    requires { IsItem bytes.now item.now }
    ensures ok { OnOk result (TakesIn below tables.KeyValue (field_of bytes.now item.now) (pair_columns pair.old) (pair_columns pair.new)) }
    ensures refused { FailsWith result (FieldFails below (rows_of tables.KeyValue) bytes.now item.now) }
{
    match item.number {
        1 => take_text(alloc, &mut pair.key, bytes, item)?,
        2 => take_pair_value(alloc, &mut pair.value, bytes, item, below)?,
        _ => {}
    }
    Ok(())
}

#[cycle(reading)]
fn take_pair_value(
    alloc: Global,
    value: &mut Option<AnyValue>,
    bytes: &[u8],
    item: &Item,
    below: u32,
) -> Result<(), ReadFail>
    requires { IsItem bytes.now item.now }
    ensures ok { OnOk result (Takes below (One tables.AnyValue) (payload_in bytes.now item.now.value) (one_of any_columns value.old) (one_of any_columns value.new)) }
    ensures refused { FailsWith result (PartFails below tables.AnyValue bytes.now item.now) }
{
    if let FieldValue::Bytes { from, to } = item.value {
        if below == 0 {
            return Err(too_deep::<AnyTable>(bytes, item, from, to));
        }
        let mut any = begun_value(value);
        let read = read_any_into(
            alloc,
            &mut any,
            &bytes[from as usize..to as usize],
            below - 1,
        );
        set_value(value, any);
        in_field::<AnyTable>(read, bytes, item, from, to, below)?;
    }
    Ok(())
}

impl Message<Shared> for AnyValue {
    ghost name = { tables.AnyValue };

    ghost columns = { any_columns };

    fn empty(_alloc: Global) -> AnyValue {
        nothing()
    }

    fn take(
        &mut self,
        alloc: Global,
        bytes: &[u8],
        item: &Item,
        below: u32,
    ) -> Result<(), ReadFail> {
        take_any(alloc, self, bytes, item, below)
    }
}

impl Message<Shared> for KeyValue {
    ghost name = { tables.KeyValue };

    ghost columns = { pair_columns };

    fn empty(alloc: Global) -> KeyValue {
        empty_pair(alloc)
    }

    fn take(
        &mut self,
        alloc: Global,
        bytes: &[u8],
        item: &Item,
        below: u32,
    ) -> Result<(), ReadFail> {
        take_in_pair(alloc, self, bytes, item, below)
    }
}
