//! Which agents a rollout is for.

ghost use Rattle.std.specs.Prelude.{◌≡◌, List};
ghost use Rattle.std.specs.List.{list_any};
ghost use Rattle.std.specs.Option.{option_copied};
ghost use Rattle.server_waves.specs.Register.{finds_in, has_text, is_found, is_sought, is_text};

use message_values::{AgentDescription, AnyValue, KeyValue};
use plain_values::Text;
use server_core::Record;

/// An attribute by which agents are found: those whose description has one, identifying or not, with this key and this text as its value.
#[derive(Drop)]
pub struct Finder {
    /// The attribute's name.
    pub key: Text,
    /// Its value.
    pub value: Text,
}

/// Whether the agent is found; where nothing is sought it is. Takes no memory.
pub(crate) fn is_found(sought: Option<&Finder>, agent: &Record) -> bool
    ensures found { result ≡ is_found (option_copied sought.entry) agent.now }
{
    match sought {
        None => true,
        Some(finder) => finds(finder, &agent.state.description),
    }
}

// Whether the description has the attribute.
fn finds(finder: &Finder, description: &AgentDescription) -> bool
    ensures found { result ≡ finds_in finder.now description.now }
{
    has_sought(finder, description.identifying_attributes.as_slice())
        || has_sought(finder, description.non_identifying_attributes.as_slice())
}

// Whether one of these is the attribute.
fn has_sought(finder: &Finder, pairs: &[KeyValue]) -> bool
    ensures found { result ≡ list_any (is_sought finder.now) pairs.now }
{
    pairs.iter().any(|pair| is_sought(finder, pair))
}

// Whether it has this key and this text as its value.
fn is_sought(finder: &Finder, pair: &KeyValue) -> bool
    ensures sought { result ≡ is_sought finder.now pair.now }
{
    pair.key.as_str() == finder.key.as_str() && has_text(&finder.value, pair.value.as_ref())
}

// Whether the value is there and is this text.
fn has_text(text: &Text, value: Option<&AnyValue>) -> bool
    ensures text { result ≡ has_text text.now (option_copied value.entry) }
{
    match value {
        Some(value) => is_text(text, value),
        None => false,
    }
}

// Whether the value is this text.
fn is_text(text: &Text, value: &AnyValue) -> bool
    ensures text { result ≡ is_text text.now value.now }
{
    match value {
        AnyValue::Str(string) => string.as_str() == text.as_str(),
        AnyValue::Nothing
        | AnyValue::Bool(_)
        | AnyValue::Int(_)
        | AnyValue::Double(_)
        | AnyValue::Array(_)
        | AnyValue::Pairs(_)
        | AnyValue::Bytes(_) => false,
    }
}
