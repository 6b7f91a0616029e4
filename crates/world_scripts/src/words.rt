//! The words of a line.

ghost use Rattle.std.specs.Prelude.{◌≡◌, ◌&&◌, IfOk};
ghost use Rattle.std.specs.Bool.{then_some};
ghost use Rattle.std.specs.Char.{is_ascii_graphic};
ghost use Rattle.std.specs.List.{list_all};
ghost use Rattle.std.specs.Str.{bytes_eq};
ghost use Rattle.world_scripts.specs.Words.{is_before_digit, is_url, is_word, mode_named};

use crate::numbers::server_of;
use edge_devices::Mode;
use plain_values::{NoMemory, Text};
use std::alloc::Global;

/// Whether the word is this name.
pub fn is(word: &[u8], name: &str) -> bool
    ensures same { result ≡ bytes_eq word.now name.now }
{
    word == name.as_bytes()
}

fn is_visible(word: &[u8]) -> bool
    ensures { result ≡ list_all is_ascii_graphic word.now }
{
    word.iter().all(|byte| byte.is_ascii_graphic())
}

// Whether the word may stand for a text: one byte or more, each visible in ASCII.
fn is_word(word: &[u8]) -> bool
    ensures { result ≡ is_word word.now }
{
    !word.is_empty() && is_visible(word)
}

/// The word as a text; none exactly where it may not stand for one.
pub fn text_of(alloc: Global, word: &[u8]) -> Result<Option<Text>, NoMemory>
    ensures text { IfOk result (λ text. text ≡ then_some (is_word word.now) word.now) }
{
    if !is_word(word) {
        return Ok(None);
    }
    match str::from_utf8(word) {
        Ok(text) => Ok(Some(Text::of(String::from_str(alloc, text)?))),
        Err(_) => unreachable!(),
    }
}

/// Two words as texts; none exactly where one of them may not stand for one.
pub fn two_texts(
    alloc: Global,
    first: &[u8],
    second: &[u8],
) -> Result<Option<(Text, Text)>, NoMemory>
    ensures texts { IfOk result (λ texts. texts ≡ then_some (is_word first.now && is_word second.now) (first.now, second.now)) }
{
    match (text_of(alloc, first)?, text_of(alloc, second)?) {
        (Some(first), Some(second)) => Ok(Some((first, second))),
        _ => Ok(None),
    }
}

// Whether the word is this and one digit behind it.
fn is_before_digit(front: &str, word: &[u8]) -> bool
    ensures { result ≡ is_before_digit front.now word.now }
{
    let front = front.as_bytes();
    word.starts_with(front) && server_of(&word[front.len()..]).is_some()
}

/// Whether the word is the endpoint of one of the ten servers. Takes no memory.
pub fn is_url(word: &[u8]) -> bool
    ensures url { result ≡ is_url word.now }
{
    is_before_digit("http://s", word) || is_before_digit("wss://s", word)
}

/// The word as an endpoint of one of the ten servers; none exactly where it is none.
#[tactic(auto, using(crate::proofs::WordLemmas::url_is_word))]
pub fn url_of(alloc: Global, word: &[u8]) -> Result<Option<Text>, NoMemory>
    ensures url { IfOk result (λ url. url ≡ then_some (is_url word.now) word.now) }
{
    if is_url(word) {
        text_of(alloc, word)
    } else {
        Ok(None)
    }
}

/// What MODE names; none exactly where the word is none of the three names.
#[tactic(auto, unfolding(crate::specs::Words::mode_named))]
pub fn mode_of(word: &[u8]) -> Option<Mode>
    ensures mode { result ≡ mode_named word.now }
{
    if is(word, "old") {
        Some(Mode::Old)
    } else if is(word, "new") {
        Some(Mode::New)
    } else if is(word, "torn") {
        Some(Mode::Torn)
    } else {
        None
    }
}
