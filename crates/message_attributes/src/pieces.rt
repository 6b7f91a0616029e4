//! Attributes and their values that are left open while a part of theirs is read (OpenTelemetry, "common.proto").

ghost use Rattle.std.specs.Prelude.{◌≡◌, OnOk};
ghost use Rattle.message_codec.specs.Tables as tables;
ghost use Rattle.message_codec.specs.Tables.{rows_of, kind_at};
ghost use Rattle.message_codec.specs.Means.{empty_of};
ghost use Rattle.message_attributes.specs.AnyColumns.{any_columns, pair_columns, list_columns};
ghost use Rattle.message_attributes.specs.Pieces.{part_name, part_columns};
ghost use Rattle.message_codec.specs.Openings.{Enters, IsPartOf, ClosesIn};

use crate::Shared;
use crate::any::{
    begun_array, begun_pairs, begun_value, empty_pair, nothing, take_any, take_in_array,
    take_in_kvlist, take_in_pair,
};
use message_codec::pieces::columns::close_many;
use message_codec::pieces::open_message::{Entered, OpenMessage};
use message_codec::reader::items::{Item, ReadFail};
use message_values::{AnyValue, KeyValue};
use plain_values::{List, NoMemory};
use std::alloc::Global;

/// An attribute, a value or a list of such that is open.
#[derive(Drop)]
pub enum AttributePart {
    Any(AnyValue),
    Array(List<AnyValue>),
    Pairs(List<KeyValue>),
    Pair(KeyValue),
}

impl AttributePart {
    /// An attribute with nothing in it.
    pub fn pair(alloc: Global) -> AttributePart
        ensures name { part_name result ≡ tables.KeyValue }
        ensures empty { part_columns result ≡ empty_of tables.KeyValue }
    {
        AttributePart::Pair(empty_pair(alloc))
    }
}

fn open_any(alloc: Global, any: &mut AnyValue, number: u32) -> Entered<AttributePart>
    ensures enters { Enters part_name part_columns number (AttributePart.Any any.old) (AttributePart.Any any.new) result }
{
    match number {
        1 => Entered::Leaf,
        5 => Entered::Part(AttributePart::Array(begun_array(alloc, any))),
        6 => Entered::Part(AttributePart::Pairs(begun_pairs(alloc, any))),
        7 => Entered::Leaf,
        _ => Entered::Skipped,
    }
}

fn close_any(any: &mut AnyValue, number: u32, part: AttributePart)
    requires part { IsPartOf (kind_at number (rows_of tables.AnyValue)) (part_name part) }
    ensures closes { ClosesIn tables.AnyValue number (any_columns any.old) (part_columns part) (any_columns any.new) }
{
    match part {
        AttributePart::Array(values) => *any = AnyValue::Array(values),
        AttributePart::Pairs(pairs) => *any = AnyValue::Pairs(pairs),
        AttributePart::Any(_) => {}
        AttributePart::Pair(_) => {}
    }
}

fn close_array(
    values: &mut List<AnyValue>,
    number: u32,
    part: AttributePart,
) -> Result<(), NoMemory>
    requires part { IsPartOf (kind_at number (rows_of tables.ArrayValue)) (part_name part) }
    ensures closes { OnOk result (ClosesIn tables.ArrayValue number (list_columns any_columns values.old) (part_columns part) (list_columns any_columns values.new)) }
{
    match part {
        AttributePart::Any(any) => close_many::<Shared, AnyValue>(values, any),
        AttributePart::Array(_) => Ok(()),
        AttributePart::Pairs(_) => Ok(()),
        AttributePart::Pair(_) => Ok(()),
    }
}

fn close_pairs(pairs: &mut List<KeyValue>, number: u32, part: AttributePart) -> Result<(), NoMemory>
    requires part { IsPartOf (kind_at number (rows_of tables.KeyValueList)) (part_name part) }
    ensures closes { OnOk result (ClosesIn tables.KeyValueList number (list_columns pair_columns pairs.old) (part_columns part) (list_columns pair_columns pairs.new)) }
{
    match part {
        AttributePart::Pair(pair) => close_many::<Shared, KeyValue>(pairs, pair),
        AttributePart::Any(_) => Ok(()),
        AttributePart::Array(_) => Ok(()),
        AttributePart::Pairs(_) => Ok(()),
    }
}

fn close_pair(pair: &mut KeyValue, number: u32, part: AttributePart)
    requires part { IsPartOf (kind_at number (rows_of tables.KeyValue)) (part_name part) }
    ensures closes { ClosesIn tables.KeyValue number (pair_columns pair.old) (part_columns part) (pair_columns pair.new) }
{
    match part {
        AttributePart::Any(any) => pair.value = Some(any),
        AttributePart::Array(_) => {}
        AttributePart::Pairs(_) => {}
        AttributePart::Pair(_) => {}
    }
}

impl OpenMessage for AttributePart {
    ghost name = { part_name };

    ghost columns = { part_columns };

    fn take(
        &mut self,
        alloc: Global,
        bytes: &[u8],
        item: &Item,
        below: u32,
    ) -> Result<(), ReadFail> {
        match self {
            AttributePart::Any(any) => take_any(alloc, any, bytes, item, below),
            AttributePart::Array(values) => take_in_array(alloc, values, bytes, item, below),
            AttributePart::Pairs(pairs) => take_in_kvlist(alloc, pairs, bytes, item, below),
            AttributePart::Pair(pair) => take_in_pair(alloc, pair, bytes, item, below),
        }
    }

    fn open(&mut self, alloc: Global, number: u32) -> Entered<AttributePart> {
        match self {
            AttributePart::Any(any) => open_any(alloc, any, number),
            AttributePart::Array(_) => match number {
                1 => Entered::Part(AttributePart::Any(nothing())),
                _ => Entered::Skipped,
            },
            AttributePart::Pairs(_) => match number {
                1 => Entered::Part(AttributePart::Pair(empty_pair(alloc))),
                _ => Entered::Skipped,
            },
            AttributePart::Pair(pair) => match number {
                1 => Entered::Leaf,
                2 => Entered::Part(AttributePart::Any(begun_value(&mut pair.value))),
                _ => Entered::Skipped,
            },
        }
    }

    fn close(&mut self, _alloc: Global, number: u32, part: AttributePart) -> Result<(), NoMemory> {
        match self {
            AttributePart::Any(any) => close_any(any, number, part),
            AttributePart::Array(values) => close_array(values, number, part)?,
            AttributePart::Pairs(pairs) => close_pairs(pairs, number, part)?,
            AttributePart::Pair(pair) => close_pair(pair, number, part),
        }
        Ok(())
    }
}
