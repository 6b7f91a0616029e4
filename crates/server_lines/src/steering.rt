//! Words of rollouts.

ghost use Rattle.std.specs.Prelude.{◌≡◌, IfOk, Option, map};
ghost use Rattle.std.specs.Option.{option_map};
ghost use Rattle.server_lines.specs.Words.{below_width, files_of, finder_in, parts_at, terms_in};
ghost use Rattle.server_lines.specs.Reading.{begin_behind, begin_of, begin_where, begin_with, is_steering, steer_of, steering_with};

use crate::fields::files_of;
use crate::lines::alone;
use crate::numbers::number_in;
use crate::orders::{Order, Steering};
use crate::words::{id_of, text_of};
use plain_values::NoMemory;
use server_waves::Finder;
use std::alloc::Global;

// What stands before the first slash of a word, and what stands behind it.
fn parts_at_slash(word: &str) -> Option<(&str, &str)>
    ensures parts { option_map (λ p. (p.0.now, p.1.now)) result ≡ parts_at 47 word.now }
{
    word.split_once('/')
}

// What stands before the first `=` of a word, and what stands behind it.
fn parts_at_equals(word: &str) -> Option<(&str, &str)>
    ensures parts { option_map (λ p. (p.0.now, p.1.now)) result ≡ parts_at 61 word.now }
{
    word.split_once('=')
}

fn below_width(width: u64, allowed: u64) -> Option<(u64, u64)>
    ensures terms { result ≡ below_width width allowed }
{
    if allowed < width {
        Some((width, allowed))
    } else {
        None
    }
}

/// The width and the failures allowed; none exactly where the word isn't two numbers with a slash between, the second below the first.
#[tactic(auto, unfolding(crate::specs::Words::terms_in))]
fn terms_in(word: &str) -> Option<(u64, u64)>
    ensures terms { result ≡ terms_in word.now }
{
    let (width, allowed) = parts_at_slash(word)?;
    let width = number_in(width)?;
    let allowed = number_in(allowed)?;
    below_width(width, allowed)
}

/// The key and the text by which agents are found; none exactly where nothing stands before an `=`.
#[tactic(auto, unfolding(crate::specs::Words::finder_in))]
fn finder_in(alloc: Global, word: &str) -> Result<Option<Finder>, NoMemory>
    ensures finder { IfOk result (λ found. found ≡ finder_in word.now) }
{
    let Some((key, value)) = parts_at_equals(word) else {
        return Ok(None);
    };
    if key.is_empty() {
        return Ok(None);
    }
    let key = text_of(alloc, key)?;
    let value = text_of(alloc, value)?;
    Ok(Some(Finder { key, value }))
}

fn begin_with(
    alloc: Global,
    width: u64,
    allowed: u64,
    finder: Option<Finder>,
    named: &[&str],
) -> Result<Option<Steering>, NoMemory>
    ensures read { IfOk result (λ read. read ≡ begin_with width allowed finder (map (λ word. word.now) named.now)) }
{
    let Some(files) = files_of(alloc, named)? else {
        return Ok(None);
    };
    Ok(Some(Steering::Begin {
        width,
        allowed,
        finder,
        files,
    }))
}

fn begin_where(
    alloc: Global,
    width: u64,
    allowed: u64,
    pair: &str,
    named: &[&str],
) -> Result<Option<Steering>, NoMemory>
    ensures read { IfOk result (λ read. read ≡ begin_where width allowed pair.now (map (λ word. word.now) named.now)) }
{
    match finder_in(alloc, pair)? {
        Some(finder) => begin_with(alloc, width, allowed, Some(finder), named),
        None => Ok(None),
    }
}

fn begin_behind(
    alloc: Global,
    width: u64,
    allowed: u64,
    words: &[&str],
) -> Result<Option<Steering>, NoMemory>
    ensures read { IfOk result (λ read. read ≡ begin_behind width allowed (map (λ word. word.now) words.now)) }
{
    let [word, pair, named @ ..] = words else {
        return begin_with(alloc, width, allowed, None, words);
    };
    if *word == "where" {
        begin_where(alloc, width, allowed, pair, named)
    } else {
        begin_with(alloc, width, allowed, None, words)
    }
}

fn begin_of(alloc: Global, words: &[&str]) -> Result<Option<Steering>, NoMemory>
    ensures read { IfOk result (λ read. read ≡ begin_of (map (λ word. word.now) words.now)) }
{
    let [terms, behind @ ..] = words else {
        return Ok(None);
    };
    match terms_in(terms) {
        Some((width, allowed)) => begin_behind(alloc, width, allowed, behind),
        None => Ok(None),
    }
}

#[tactic(auto, unfolding(crate::specs::Reading::steering_with))]
fn steering_with(alloc: Global, verb: &str, words: &[&str]) -> Result<Option<Steering>, NoMemory>
    ensures read { IfOk result (λ read. read ≡ steering_with verb.now (map (λ word. word.now) words.now)) }
{
    match verb {
        "rollout" => begin_of(alloc, words),
        "halt" => Ok(alone(Steering::Halt, words)),
        "resume" => Ok(alone(Steering::Resume, words)),
        "finish" => Ok(alone(Steering::Finish, words)),
        _ => Ok(None),
    }
}

/// The order of this verb for the rollout that is the first argument.
pub fn steer_of(alloc: Global, verb: &str, arguments: &[&str]) -> Result<Option<Order>, NoMemory>
    ensures read { IfOk result (λ read. read ≡ steer_of verb.now (map (λ word. word.now) arguments.now)) }
{
    let [id, words @ ..] = arguments else {
        return Ok(None);
    };
    let Some(id) = id_of(alloc, id)? else {
        return Ok(None);
    };
    let Some(steering) = steering_with(alloc, verb, words)? else {
        return Ok(None);
    };
    Ok(Some(Order::Steer { id, steering }))
}

/// Whether lines of this verb begin or steer a rollout.
pub fn is_steering(verb: &str) -> bool
    ensures steers { result ≡ is_steering verb.now }
{
    verb == "rollout" || verb == "halt" || verb == "resume" || verb == "finish"
}
