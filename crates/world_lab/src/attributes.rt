//! Attributes.

ghost use Rattle.std.specs.Prelude.{◌≡◌, ◌<◌, vec_len, slice_set, IfOk, Some};
ghost use Rattle.std.specs.List.{position};
ghost use Rattle.std.specs.Str.{bytes_eq};
ghost use Rattle.world_lab.specs.Playing.{put_attribute};

use message_values::{AnyValue, KeyValue};
use plain_values::{List, NoMemory, Plain, Text};
use std::alloc::Global;

fn text_attribute(alloc: Global, key: &Text, text: &Text) -> Result<KeyValue, NoMemory>
    ensures { IfOk result (λ a. a ≡ record { key = key.now; value = Some (AnyValue.Str text.now) }) }
{
    Ok(KeyValue {
        key: key.copy(alloc)?,
        value: Some(AnyValue::Str(text.copy(alloc)?)),
    })
}

fn place_of(attributes: &[KeyValue], key: &Text) -> Option<usize>
    ensures place { result ≡ position (λ a. bytes_eq a.key key.now) attributes.now }
{
    attributes
        .iter()
        .position(|attribute| attribute.key.as_str() == key.as_str())
}

fn write_over(attributes: &mut Vec<KeyValue>, at: usize, attribute: KeyValue)
    requires { at < vec_len attributes.old }
    ensures { attributes.new.items ≡ slice_set attributes.old.items at attribute }
{
    attributes[at] = attribute;
}

/// The attributes with this one, in its place or at the end.
pub fn put_attribute(
    alloc: Global,
    attributes: &List<KeyValue>,
    key: &Text,
    text: &Text,
) -> Result<List<KeyValue>, NoMemory>
    ensures attributes { IfOk result (λ now. now ≡ put_attribute attributes.now key.now text.now) }
{
    let attribute = text_attribute(alloc, key, text)?;
    let place = place_of(attributes.as_slice(), key);
    let mut items = attributes.copy(alloc)?.into_vec();
    match place {
        Some(at) => write_over(&mut items, at, attribute),
        None => items.push(attribute)?,
    }
    Ok(List::of(items))
}
