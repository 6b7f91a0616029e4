//! Columns of messages as lines. Where memory runs out, some of a column's lines may stand at the page's end.

ghost use Rattle.std.specs.Prelude.{◌≡◌, ◌++◌, OnOk, cond, codes};
ghost use Rattle.std.specs.Fmt.{signed_decimal};
ghost use Rattle.message_codec.specs.Tables as kinds;
ghost use Rattle.message_codec.specs.Values.{Number, Integer, Flag, Content, Contents, Several};
ghost use Rattle.message_codec.specs.Means.{entries_of};
ghost use Rattle.message_codec.specs.Read.{one_of, each_of, raw_of};
ghost use Rattle.message_texts.specs.Words.{line, under, quoted, hexadecimal};
ghost use Rattle.message_texts.specs.Texts.{bits, column_lines, part_text};

use crate::pages::Page;
use crate::places::Place;
use crate::quoting::{bit_words, hex_words, quote};
use crate::shown::Shown;
use plain_values::{Blob, List, Map, NoMemory, Text};

/// Shows an unsigned number, which 0 leaves out.
pub fn show_unsigned(page: &mut Page, path: &str, name: &str, value: u64) -> Result<(), NoMemory>
    ensures ok { OnOk result (page.new ≡ page.old ++ column_lines path.now name.now kinds.Unsigned (Number value)) }
{
    if value != 0 {
        let path = page.under(path, name)?;
        page.number(path.as_str(), value)?;
    }
    Ok(())
}

/// Shows a `fixed64`, which 0 leaves out.
pub fn show_fixed(page: &mut Page, path: &str, name: &str, value: u64) -> Result<(), NoMemory>
    ensures ok { OnOk result (page.new ≡ page.old ++ column_lines path.now name.now kinds.Fixed (Number value)) }
{
    if value != 0 {
        let path = page.under(path, name)?;
        page.number(path.as_str(), value)?;
    }
    Ok(())
}

/// Shows an enum by its number, which 0 leaves out.
pub fn show_enum(page: &mut Page, path: &str, name: &str, value: &i32) -> Result<(), NoMemory>
    ensures ok { OnOk result (page.new ≡ page.old ++ column_lines path.now name.now kinds.Enum (Integer value.now)) }
{
    let value = i64::from(*value);
    if value.cast_unsigned() != 0 {
        put_integer_under(page, path, name, &value)
    } else {
        Ok(())
    }
}

/// Shows a truth value, which false leaves out.
pub fn show_truth(page: &mut Page, path: &str, name: &str, value: bool) -> Result<(), NoMemory>
    ensures ok { OnOk result (page.new ≡ page.old ++ column_lines path.now name.now kinds.Truth (Flag value)) }
{
    if value {
        put_truth_under(page, path, name, value)
    } else {
        Ok(())
    }
}

/// Shows a truth value at this path, also where it is false.
pub fn put_truth(page: &mut Page, path: &str, value: bool) -> Result<(), NoMemory>
    ensures ok { OnOk result (page.new ≡ page.old ++ line path.now (cond value (codes "true") (codes "false"))) }
{
    if value {
        page.line(path, "true")
    } else {
        page.line(path, "false")
    }
}

/// Shows the bits of a double at this path, also where they are 0.
pub fn put_double(page: &mut Page, path: &str, value: u64) -> Result<(), NoMemory>
    ensures ok { OnOk result (page.new ≡ page.old ++ line path.now (bits value)) }
{
    let words = bit_words(page.alloc(), value)?;
    page.line(path, words.as_str())
}

/// Shows a text at this path, also where it is empty.
pub fn put_text(page: &mut Page, path: &str, value: &Text) -> Result<(), NoMemory>
    ensures ok { OnOk result (page.new ≡ page.old ++ line path.now (quoted value.now)) }
{
    let quoted = quote(page.alloc(), value.as_str())?;
    page.line(path, quoted.as_str())
}

/// Shows bytes at this path, also where they are none.
pub fn put_bytes(page: &mut Page, path: &str, value: &Blob) -> Result<(), NoMemory>
    ensures ok { OnOk result (page.new ≡ page.old ++ line path.now (hexadecimal value.now)) }
{
    let words = hex_words(page.alloc(), value.as_slice())?;
    page.line(path, words.as_str())
}

/// Shows a truth value of this name below the path, also where it is false.
pub(crate) fn put_truth_under(
    page: &mut Page,
    path: &str,
    name: &str,
    value: bool,
) -> Result<(), NoMemory>
    ensures ok { OnOk result (page.new ≡ page.old ++ line (under path.now name.now) (cond value (codes "true") (codes "false"))) }
{
    let path = page.under(path, name)?;
    put_truth(page, path.as_str(), value)
}

/// Shows a signed number of this name below the path, also where it is 0.
pub(crate) fn put_integer_under(
    page: &mut Page,
    path: &str,
    name: &str,
    value: &i64,
) -> Result<(), NoMemory>
    ensures ok { OnOk result (page.new ≡ page.old ++ line (under path.now name.now) (signed_decimal value.now)) }
{
    let path = page.under(path, name)?;
    page.integer(path.as_str(), value)
}

/// Shows the bits of a double of this name below the path, also where they are 0.
pub(crate) fn put_double_under(
    page: &mut Page,
    path: &str,
    name: &str,
    value: u64,
) -> Result<(), NoMemory>
    ensures ok { OnOk result (page.new ≡ page.old ++ line (under path.now name.now) (bits value)) }
{
    let path = page.under(path, name)?;
    put_double(page, path.as_str(), value)
}

/// Shows a text of this name below the path, also where it is empty.
pub(crate) fn put_text_under(
    page: &mut Page,
    path: &str,
    name: &str,
    value: &Text,
) -> Result<(), NoMemory>
    ensures ok { OnOk result (page.new ≡ page.old ++ line (under path.now name.now) (quoted value.now)) }
{
    let path = page.under(path, name)?;
    put_text(page, path.as_str(), value)
}

/// Shows bytes of this name below the path, also where they are none.
pub(crate) fn put_bytes_under(
    page: &mut Page,
    path: &str,
    name: &str,
    value: &Blob,
) -> Result<(), NoMemory>
    ensures ok { OnOk result (page.new ≡ page.old ++ line (under path.now name.now) (hexadecimal value.now)) }
{
    let path = page.under(path, name)?;
    put_bytes(page, path.as_str(), value)
}

/// Shows a text, which the empty one leaves out.
pub fn show_text(page: &mut Page, path: &str, name: &str, value: &Text) -> Result<(), NoMemory>
    ensures ok { OnOk result (page.new ≡ page.old ++ column_lines path.now name.now kinds.Text (Content value.now)) }
{
    if value.as_str().is_empty() {
        Ok(())
    } else {
        put_text_under(page, path, name, value)
    }
}

/// Shows bytes, which none leave out.
pub fn show_blob(page: &mut Page, path: &str, name: &str, value: &Blob) -> Result<(), NoMemory>
    ensures ok { OnOk result (page.new ≡ page.old ++ column_lines path.now name.now kinds.Blob (Content value.now)) }
{
    if value.as_slice().is_empty() {
        Ok(())
    } else {
        put_bytes_under(page, path, name, value)
    }
}

/// Shows a message that is kept as its bytes, also where they are none; only an absent one is left out.
pub fn show_raw(
    page: &mut Page,
    path: &str,
    name: &str,
    value: &Option<Blob>,
) -> Result<(), NoMemory>
    ensures ok { OnOk result (page.new ≡ page.old ++ column_lines path.now name.now kinds.Raw (raw_of value.now)) }
{
    match value {
        Some(blob) => put_bytes_under(page, path, name, blob),
        None => Ok(()),
    }
}

/// Shows all texts in their order, also empty ones.
pub fn show_texts(
    page: &mut Page,
    path: &str,
    name: &str,
    values: &List<Text>,
) -> Result<(), NoMemory>
    ensures ok { OnOk result (page.new ≡ page.old ++ column_lines path.now name.now kinds.Texts (Contents values.now)) }
{
    let field = Place::under(page, path, name)?;
    let texts = values.as_slice();
    for i in 0..texts.len() {
        let item = Place::item(page, field.path(), i)?;
        put_text(page, item.path(), &texts[i])?;
    }
    Ok(())
}

/// Shows a message within another, whose path is given, also an empty one.
#[tactic(auto, using(crate::proofs::Lines::closed_part))]
pub fn show_part<M: Shown>(page: &mut Page, path: &str, message: &M) -> Result<(), NoMemory>
    ensures ok { OnOk result (page.new ≡ page.old ++ part_text path.now M.name (M.columns message.now)) }
{
    let before = page.len();
    message.show(page, path)?;
    page.close(path, before)
}

/// Shows a message that is present, also an empty one; an absent one is left out.
#[tactic(auto, unfolding(crate::specs::Texts::part_text))]
pub fn show_one<M: Shown>(
    page: &mut Page,
    path: &str,
    name: &str,
    value: &Option<M>,
) -> Result<(), NoMemory>
    ensures ok { OnOk result (page.new ≡ page.old ++ column_lines path.now name.now (kinds.One M.name) (one_of M.columns value.now)) }
{
    if let Some(message) = value {
        let path = page.under(path, name)?;
        show_part(page, path.as_str(), message)?;
    }
    Ok(())
}

/// Shows all messages in their order.
pub fn show_many<M: Shown>(
    page: &mut Page,
    path: &str,
    name: &str,
    values: &List<M>,
) -> Result<(), NoMemory>
    ensures ok { OnOk result (page.new ≡ page.old ++ column_lines path.now name.now (kinds.Many M.name) (Several (each_of M.columns values.now))) }
{
    let field = Place::under(page, path, name)?;
    let messages = values.as_slice();
    for i in 0..messages.len() {
        let item = Place::item(page, field.path(), i)?;
        show_part(page, item.path(), &messages[i])?;
    }
    Ok(())
}

/// Shows the values of a map in ascending byte order of their keys.
pub fn show_map<M: Shown>(
    page: &mut Page,
    path: &str,
    name: &str,
    values: &Map<M>,
) -> Result<(), NoMemory>
    ensures ok { OnOk result (page.new ≡ page.old ++ column_lines path.now name.now (kinds.Keyed M.name) (Several (entries_of M.columns values.now))) }
{
    let field = Place::under(page, path, name)?;
    for pair in values.as_slice() {
        let item = Place::keyed(page, field.path(), &pair.key)?;
        show_part(page, item.path(), &pair.value)?;
    }
    Ok(())
}
