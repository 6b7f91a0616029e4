//! The words of a line, and what each of them says.

ghost use Rattle.std.specs.Prelude.{◌≡◌, ◌∷◌, [], IfOk, Option, Some, map};
ghost use Rattle.std.specs.List.{list_all};
ghost use Rattle.uuid.specs.Text.{parsed};
ghost use Rattle.server_lines.specs.Words.{bytes_in, id_in, is_id, is_id_byte, text_in};

use hex::FromHexError;
use plain_values::{Blob, NoMemory, Text, Uid};
use std::alloc::Global;
use uuid::Uuid;

/// The identifier that the word is; none exactly where it has none of the forms of an identifier.
pub fn uid_of(word: &str) -> Option<Uid>
    ensures uid { result ≡ parsed word.now }
{
    match Uuid::parse_str(word) {
        Ok(uuid) => Some(Uid::of(uuid.into_bytes())),
        Err(_) => None,
    }
}

/// The word as a text of its own.
pub fn text_of(alloc: Global, word: &str) -> Result<Text, NoMemory>
    ensures text { IfOk result (λ text. text ≡ word.now) }
{
    Text::from_str(alloc, word)
}

/// The text that the word is, for which `-` is the empty one.
#[tactic(auto, unfolding(crate::specs::Words::text_in))]
pub fn word_or_empty(alloc: Global, word: &str) -> Result<Text, NoMemory>
    ensures text { IfOk result (λ text. text ≡ text_in word.now) }
{
    if word == "-" {
        text_of(alloc, "")
    } else {
        text_of(alloc, word)
    }
}

/// The bytes that the word is, for which `-` is none of them; none exactly where it isn't hexadecimal.
#[tactic(auto, unfolding(crate::specs::Words::bytes_in))]
pub fn bytes_of(alloc: Global, word: &str) -> Result<Option<Blob>, NoMemory>
    ensures bytes { IfOk result (λ bytes. bytes ≡ bytes_in word.now) }
{
    if word == "-" {
        return Ok(Some(Blob::new(alloc)));
    }
    match hex::decode(alloc, word) {
        Ok(bytes) => Ok(Some(Blob::of(bytes))),
        Err(FromHexError::OutOfMemory) => Err(NoMemory),
        Err(_) => Ok(None),
    }
}

fn is_id_byte(byte: u8) -> bool
    ensures part { result ≡ is_id_byte byte }
{
    byte.is_ascii_alphanumeric() || byte == b'-' || byte == b'_'
}

fn are_id_bytes(word: &[u8]) -> bool
    ensures parts { result ≡ list_all is_id_byte word.now }
{
    word.iter().all(|byte| is_id_byte(*byte))
}

fn is_id(word: &[u8]) -> bool
    ensures id { result ≡ is_id word.now }
{
    !word.is_empty() && word.len() <= 64 && are_id_bytes(word)
}

/// The name of a rollout that the word is; none exactly where it isn't 1 to 64 letters, digits, `-` and `_`.
#[tactic(auto, unfolding(crate::specs::Words::id_in))]
pub fn id_of(alloc: Global, word: &str) -> Result<Option<Text>, NoMemory>
    ensures id { IfOk result (λ id. id ≡ id_in word.now) }
{
    if is_id(word.as_bytes()) {
        Ok(Some(text_of(alloc, word)?))
    } else {
        Ok(None)
    }
}
