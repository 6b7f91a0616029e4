//! Handlers by their capabilities.

ghost use Rattle.std.specs.Prelude.{◌≡◌, ◌≤◌, ◌<◌, ◌++◌, ◌∷◌, [], ℕ, List, Option, None, length, vec_len, vec_capacity, position, IfOk, OnOk, OnErr, IfSome, Err, true, false, is_some, map, Some, if◌then◌else◌};
ghost use Rattle.std.specs.Str.{bytes_eq};
ghost use Rattle.plain_values.specs.Pairs.{put_pair, value_at};
ghost use Rattle.message_handlers.specs.Asking.{MayAnswer};
ghost use Rattle.message_handlers.specs.Handling.{is_held, IsAnswered};
ghost use Rattle.message_handlers.specs.Lengths.{AreShort};
ghost use Rattle.message_handlers.specs.Names.{names_of, IsOrdered};

use crate::handler::{CustomAnswer, Handler};
use crate::stored::Handlers;
use message_values::{CustomCapabilities, CustomMessage};
use plain_values::{List, Map, NoMemory, Pair, Plain, Text};
use std::alloc::Global;
use thiserror::Error;

/// Why a handler was not registered. The handlers are then as they were.
#[derive(Clone, Copy, Debug, PartialEq, Eq, Error)]
pub enum RegisterFail {
    /// The capability has a handler.
    #[error("the capability has a handler")]
    Taken,
    /// 64 other capabilities have handlers.
    #[error("64 other capabilities have handlers")]
    Full,
    /// There was no memory for it.
    #[error("there was no memory")]
    NoMemory,
}

impl Handlers {
    /// No handlers. Takes no memory.
    pub fn new(alloc: Global) -> Handlers
        ensures empty { names_of result ≡ [] }
    {
        Handlers {
            names: Vec::new(alloc),
            handlers: Vec::new(alloc),
        }
    }

    /// Has the handler answer the messages of the capability, whose name has at most 255 bytes.
    ///
    /// # Errors
    ///
    /// `Taken` exactly where the capability has a handler, `Full` exactly where it has none and 64 others have one, and
    /// `NoMemory`. The handler is then dropped.
    pub fn register(
        &mut self,
        capability: Text,
        handler: Box<dyn Handler>,
    ) -> Result<(), RegisterFail>
        requires short { length capability ≤ 255 }
        ensures name { OnOk result (names_of self.new ≡ names_of self.old ++ capability ∷ []) }
        ensures handler { OnOk result (self.new.handlers.items ≡ self.old.handlers.items ++ handler ∷ []) }
        ensures err_names { OnErr result (names_of self.new ≡ names_of self.old) }
        ensures err_handlers { OnErr result (self.new.handlers.items ≡ self.old.handlers.items) }
        ensures taken { is_held (names_of self.old) capability ≡ true → result ≡ Err RegisterFail.Taken }
        ensures taken_only { result ≡ Err RegisterFail.Taken → is_held (names_of self.old) capability ≡ true }
        ensures full { is_held (names_of self.old) capability ≡ false → length (names_of self.old) ≡ 64 → result ≡ Err RegisterFail.Full }
        ensures full_only { result ≡ Err RegisterFail.Full → length (names_of self.old) ≡ 64 }
    {
        if has_name(self.names.as_slice(), &capability) {
            return Err(RegisterFail::Taken);
        }
        if self.names.len() >= 64 {
            return Err(RegisterFail::Full);
        }
        if self.names.reserve(1).is_err() || self.handlers.reserve(1).is_err() {
            return Err(RegisterFail::NoMemory);
        }
        put_last(&mut self.names, capability);
        put_last(&mut self.handlers, handler);
        Ok(())
    }

    /// What the capability's handler answers to the message, as a message of the capability. None exactly where no
    /// handler has the capability, the message's body has more than 65,536 bytes, or the handler answers none. An
    /// answer's body has at most 65,536 bytes.
    pub fn handle(
        &self,
        alloc: Global,
        message: &CustomMessage,
    ) -> Result<Option<CustomMessage>, NoMemory>
        ensures answered { IfOk result (MayAnswer (λ handler. (⟦<dyn Handler as Handler>⟧ handler.0).answers handler.1) self.now message.now) }
    {
        let Some(at) = place_of(self.names.as_slice(), &message.capability) else {
            return Ok(None);
        };
        if message.body.as_slice().len() > 65536 {
            return Ok(None);
        }
        ask(alloc, &self.handlers[at], message)
    }

    /// The capabilities that have handlers, each once, in ascending byte order.
    pub fn names(&self, alloc: Global) -> Result<CustomCapabilities, NoMemory>
        ensures names { IfOk result (λ names. IsOrdered (names_of self.now) names.capabilities) }
        ensures few { IfOk result (λ names. length names.capabilities ≤ 64) }
        ensures short { IfOk result (λ names. AreShort names.capabilities) }
    {
        let set = set_of(alloc, self.names.as_slice())?;
        Ok(CustomCapabilities {
            capabilities: keys_of(alloc, set.as_slice())?,
        })
    }
}

// The names as a set.
fn set_of(alloc: Global, names: &[Text]) -> Result<Map<bool>, NoMemory>
    requires short { AreShort names.now }
    ensures held { IfOk result (λ set. (name : List ℕ) → is_some (value_at set name) ≡ is_held names.now name) }
    ensures few { IfOk result (λ set. length set ≤ length names.now) }
    ensures short { IfOk result (λ set. AreShort (map (λ pair. pair.key) set)) }
{
    let mut set = Map::new(alloc);
    for name in names {
        add(alloc, &mut set, name)?;
    }
    Ok(set)
}

// Adds a name to the set.
fn add(alloc: Global, set: &mut Map<bool>, name: &Text) -> Result<(), NoMemory>
    ensures set { OnOk result (set.new ≡ put_pair set.old name.now true) }
    ensures found { OnOk result ((q : List ℕ) → value_at set.new q ≡ (if bytes_eq name.now q then Some true else value_at set.old q)) }
{
    set.put(name.copy(alloc)?, true)
}

// The names of the set.
fn keys_of(alloc: Global, pairs: &[Pair<bool>]) -> Result<List<Text>, NoMemory>
    ensures keys { IfOk result (λ keys. keys ≡ map (λ pair. pair.key) pairs.now) }
{
    let mut keys = List::new(alloc);
    for pair in pairs {
        keys.push(pair.key.copy(alloc)?)?;
    }
    Ok(keys)
}

// Adds an item to a list that has room for it.
fn put_last<T: Drop>(items: &mut Vec<T>, item: T)
    requires room { vec_len items.old < vec_capacity items.old }
    ensures grown { items.new.items ≡ items.old.items ++ item ∷ [] }
{
    if items.push(item).is_err() {
        unreachable!()
    }
}

// Whether the two names are one.
fn is_same(name: &Text, other: &Text) -> bool
    ensures same { result ≡ bytes_eq name.now other.now }
{
    name.as_str() == other.as_str()
}

// Whether the name is one of the names.
fn has_name(names: &[Text], capability: &Text) -> bool
    ensures held { result ≡ is_held names.now capability.now }
{
    names.iter().any(|name| is_same(name, capability))
}

// The index of the name.
fn place_of(names: &[Text], capability: &Text) -> Option<usize>
    ensures place { result ≡ position (λ name. bytes_eq name capability.now) names.now }
    ensures within { IfSome result (λ at. at < length names.now) }
{
    names.iter().position(|name| is_same(name, capability))
}

// Asks the handler.
fn ask(
    alloc: Global,
    handler: &Box<dyn Handler>,
    message: &CustomMessage,
) -> Result<Option<CustomMessage>, NoMemory>
    requires short { length message.now.body ≤ 65536 }
    ensures answered { IfOk result (IsAnswered answers handler.now message.now) }
{
    let Some(answer) = handler.answer(alloc, &message.kind, &message.body)? else {
        return Ok(None);
    };
    let CustomAnswer { kind, body } = answer;
    Ok(Some(CustomMessage {
        capability: message.capability.copy(alloc)?,
        kind,
        body,
    }))
}
