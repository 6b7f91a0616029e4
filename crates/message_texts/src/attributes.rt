//! Attributes and their values.

ghost use Rattle.std.specs.Prelude.{◌≡◌, ◌++◌, OnOk, codes, length};
ghost use Rattle.message_codec.specs.Tables as tables;
ghost use Rattle.message_attributes.specs.AnyColumns.{any_columns, pair_columns, list_columns};
ghost use Rattle.message_texts.specs.Words.{under};
ghost use Rattle.message_texts.specs.Texts.{part_text, shown};

use crate::columns::{
    put_bytes_under, put_double_under, put_integer_under, put_text_under, put_truth_under,
    show_text,
};
use crate::pages::Page;
use crate::places::Place;
use crate::shown::Shown;
use message_values::{AnyValue, KeyValue};
use plain_values::NoMemory;

// A recursion may not go through a trait's method, so each message of the cycle has plain functions. The member that is set is shown also at its
// default (Protocol Buffers language guide, "Oneof Features").
#[cycle(showing)]
fn show_any(page: &mut Page, path: &str, value: &AnyValue) -> Result<(), NoMemory>
    ensures ok { OnOk result (page.new ≡ shown page.old path.now tables.AnyValue (any_columns value.now)) }
{
    match value {
        AnyValue::Nothing => Ok(()),
        AnyValue::Str(text) => put_text_under(page, path, "string_value", text),
        AnyValue::Bool(flag) => put_truth_under(page, path, "bool_value", *flag),
        AnyValue::Int(number) => put_integer_under(page, path, "int_value", number),
        AnyValue::Double(bits) => put_double_under(page, path, "double_value", *bits),
        AnyValue::Array(values) => show_array(page, path, values.as_slice()),
        AnyValue::Pairs(pairs) => show_kvlist(page, path, pairs.as_slice()),
        AnyValue::Bytes(bytes) => put_bytes_under(page, path, "bytes_value", bytes),
    }
}

// Shows a value within another message, also an empty one.
#[cycle(showing)]
fn show_value(page: &mut Page, place: Place, value: &AnyValue) -> Result<(), NoMemory>
    requires before { place.before ≡ length page.old }
    ensures ok { OnOk result (page.new ≡ page.old ++ part_text place.path tables.AnyValue (any_columns value.now)) }
{
    let shown = show_any(page, place.path(), value);
    place.close(page, shown)
}

#[cycle(showing)]
fn show_array(page: &mut Page, path: &str, values: &[AnyValue]) -> Result<(), NoMemory>
    ensures ok { OnOk result (page.new ≡ page.old ++ part_text (under path.now (codes "array_value")) tables.ArrayValue (list_columns any_columns values.now)) }
{
    let place = Place::under(page, path, "array_value")?;
    let shown = show_values(page, place.path(), values);
    place.close(page, shown)
}

#[cycle(showing)]
fn show_values(page: &mut Page, path: &str, values: &[AnyValue]) -> Result<(), NoMemory>
    ensures ok { OnOk result (page.new ≡ shown page.old path.now tables.ArrayValue (list_columns any_columns values.now)) }
{
    let field = Place::under(page, path, "values")?;
    for i in 0..values.len() {
        let item = Place::item(page, field.path(), i)?;
        show_value(page, item, &values[i])?;
    }
    Ok(())
}

#[cycle(showing)]
fn show_kvlist(page: &mut Page, path: &str, pairs: &[KeyValue]) -> Result<(), NoMemory>
    ensures ok { OnOk result (page.new ≡ page.old ++ part_text (under path.now (codes "kvlist_value")) tables.KeyValueList (list_columns pair_columns pairs.now)) }
{
    let place = Place::under(page, path, "kvlist_value")?;
    let shown = show_pairs(page, place.path(), pairs);
    place.close(page, shown)
}

#[cycle(showing)]
fn show_pairs(page: &mut Page, path: &str, pairs: &[KeyValue]) -> Result<(), NoMemory>
    ensures ok { OnOk result (page.new ≡ shown page.old path.now tables.KeyValueList (list_columns pair_columns pairs.now)) }
{
    let field = Place::under(page, path, "values")?;
    for i in 0..pairs.len() {
        let item = Place::item(page, field.path(), i)?;
        show_item(page, item, &pairs[i])?;
    }
    Ok(())
}

#[cycle(showing)]
fn show_item(page: &mut Page, place: Place, pair: &KeyValue) -> Result<(), NoMemory>
    requires before { place.before ≡ length page.old }
    ensures ok { OnOk result (page.new ≡ page.old ++ part_text place.path tables.KeyValue (pair_columns pair.now)) }
{
    let shown = show_pair(page, place.path(), pair);
    place.close(page, shown)
}

#[cycle(showing)]
fn show_pair(page: &mut Page, path: &str, pair: &KeyValue) -> Result<(), NoMemory>
    ensures ok { OnOk result (page.new ≡ shown page.old path.now tables.KeyValue (pair_columns pair.now)) }
{
    show_text(page, path, "key", &pair.key)?;
    match &pair.value {
        Some(value) => {
            let place = Place::under(page, path, "value")?;
            show_value(page, place, value)
        }
        None => Ok(()),
    }
}

impl Shown for AnyValue {
    ghost name = { tables.AnyValue };

    ghost columns = { any_columns };

    fn show(&self, page: &mut Page, path: &str) -> Result<(), NoMemory> {
        show_any(page, path, self)
    }
}

impl Shown for KeyValue {
    ghost name = { tables.KeyValue };

    ghost columns = { pair_columns };

    fn show(&self, page: &mut Page, path: &str) -> Result<(), NoMemory> {
        show_pair(page, path, self)
    }
}
