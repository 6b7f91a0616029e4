//! Lines, read as orders.

ghost use Rattle.std.specs.Prelude.{◌≡◌, [], IfOk, MatchOption, Option, map};
ghost use Rattle.std.specs.List.{list_all};
ghost use Rattle.std.specs.Option.{option_map};
ghost use Rattle.server_lines.specs.declared.orders.Order.TheVariants as order;
ghost use Rattle.server_lines.specs.declared.orders.Question.TheVariants as question;
ghost use Rattle.server_lines.specs.Words.{endpoint_alone, headers_of, settings_with, words_in, is_word};
ghost use Rattle.server_lines.specs.Lines.{MeansOrder, IsNoOrder};
ghost use Rattle.server_lines.specs.Reading.{act_of, action_with, alone, change_with, config_of, connect_of, is_left, only_id, only_uid, order_of, order_with, packages_of, settings_of};

use crate::fields::{files_of, headers_in, packages_in};
use crate::numbers::number_in;
use crate::orders::{Action, Order, Question};
use crate::steering::{is_steering, steer_of};
use crate::words::{id_of, text_of, uid_of, word_or_empty};
use message_values::OpAMPConnectionSettings;
use plain_values::{Header, Headers, List, Map, NoMemory, Text, Uid};
use server_core::Offer;
use std::alloc::Global;

/// What stands alone; none where there are words.
pub fn alone<T: Drop>(meant: T, words: &[&str]) -> Option<T>
    ensures read { result ≡ alone meant (map (λ word. word.now) words.now) }
{
    if words.is_empty() { Some(meant) } else { None }
}

fn only_uid(arguments: &[&str]) -> Option<Uid>
    ensures read { result ≡ only_uid (map (λ word. word.now) arguments.now) }
{
    match arguments {
        [uid] => uid_of(uid),
        _ => None,
    }
}

fn config_of(alloc: Global, words: &[&str]) -> Result<Option<Action>, NoMemory>
    ensures read { IfOk result (λ read. read ≡ config_of (map (λ word. word.now) words.now)) }
{
    match files_of(alloc, words)? {
        Some(files) => Ok(Some(Action::Offer(Offer::Config(files)))),
        None => Ok(None),
    }
}

fn packages_of(alloc: Global, words: &[&str]) -> Result<Option<Action>, NoMemory>
    ensures read { IfOk result (λ read. read ≡ packages_of (map (λ word. word.now) words.now)) }
{
    if words.is_empty() {
        return Ok(None);
    }
    let Some(entries) = packages_in(alloc, words)? else {
        return Ok(None);
    };
    let packages = Map::of_entries(alloc, entries)?;
    Ok(Some(Action::Offer(Offer::Packages(packages))))
}

// The headers, where there is one.
fn headers_of(headers: Vec<Header>) -> Option<Headers>
    ensures headers { result ≡ headers_of headers.items }
{
    if headers.is_empty() {
        return None;
    }
    Some(Headers {
        headers: List::of(headers),
    })
}

fn settings_with(url: Text, seconds: u64, headers: Vec<Header>) -> OpAMPConnectionSettings
    ensures settings { result ≡ settings_with url seconds headers.items }
{
    OpAMPConnectionSettings {
        destination_endpoint: url,
        headers: headers_of(headers),
        certificate: None,
        heartbeat_interval_seconds: seconds,
    }
}

fn endpoint_alone(url: Text) -> OpAMPConnectionSettings
    ensures settings { result ≡ endpoint_alone url }
{
    OpAMPConnectionSettings {
        destination_endpoint: url,
        headers: None,
        certificate: None,
        heartbeat_interval_seconds: 0,
    }
}

fn connect_of(alloc: Global, words: &[&str]) -> Result<Option<Action>, NoMemory>
    ensures read { IfOk result (λ read. read ≡ connect_of (map (λ word. word.now) words.now)) }
{
    let [url] = words else {
        return Ok(None);
    };
    let url = text_of(alloc, url)?;
    Ok(Some(Action::Offer(Offer::Connection(endpoint_alone(url)))))
}

fn settings_of(alloc: Global, words: &[&str]) -> Result<Option<Action>, NoMemory>
    ensures read { IfOk result (λ read. read ≡ settings_of (map (λ word. word.now) words.now)) }
{
    let [url, seconds, named @ ..] = words else {
        return Ok(None);
    };
    let Some(seconds) = number_in(seconds) else {
        return Ok(None);
    };
    let Some(headers) = headers_in(alloc, named)? else {
        return Ok(None);
    };
    let url = word_or_empty(alloc, url)?;
    Ok(Some(Action::Offer(Offer::Connection(settings_with(url, seconds, headers)))))
}

#[tactic(auto, unfolding(crate::specs::Reading::action_with))]
fn action_with(alloc: Global, verb: &str, words: &[&str]) -> Result<Option<Action>, NoMemory>
    ensures read { IfOk result (λ read. read ≡ action_with verb.now (map (λ word. word.now) words.now)) }
{
    match verb {
        "config" => config_of(alloc, words),
        "connect" => connect_of(alloc, words),
        "settings" => settings_of(alloc, words),
        "packages" => packages_of(alloc, words),
        "restart" => Ok(alone(Action::Restart, words)),
        "withdraw" => Ok(alone(Action::Withdraw, words)),
        "forget" => Ok(alone(Action::Forget, words)),
        _ => Ok(None),
    }
}

fn act_of(alloc: Global, verb: &str, arguments: &[&str]) -> Result<Option<Order>, NoMemory>
    ensures read { IfOk result (λ read. read ≡ act_of verb.now (map (λ word. word.now) arguments.now)) }
{
    let [uid, words @ ..] = arguments else {
        return Ok(None);
    };
    let Some(uid) = uid_of(uid) else {
        return Ok(None);
    };
    let Some(action) = action_with(alloc, verb, words)? else {
        return Ok(None);
    };
    Ok(Some(Order::Act { uid, action }))
}

fn members_of(alloc: Global, arguments: &[&str]) -> Result<Option<Order>, NoMemory>
    ensures read { IfOk result (λ read. read ≡ option_map (λ id. order.Ask (question.Members id)) (only_id (map (λ word. word.now) arguments.now))) }
{
    let [id] = arguments else {
        return Ok(None);
    };
    match id_of(alloc, id)? {
        Some(id) => Ok(Some(Order::Ask(Question::Members { id }))),
        None => Ok(None),
    }
}

// Whether the only argument is `left`.
fn is_left(arguments: &[&str]) -> bool
    ensures left { result ≡ is_left (map (λ word. word.now) arguments.now) }
{
    match arguments {
        [word] => *word == "left",
        _ => false,
    }
}

#[tactic(auto, unfolding(crate::specs::Reading::change_with))]
fn change_with(alloc: Global, verb: &str, arguments: &[&str]) -> Result<Option<Order>, NoMemory>
    ensures read { IfOk result (λ read. read ≡ change_with verb.now (map (λ word. word.now) arguments.now)) }
{
    if is_steering(verb) {
        steer_of(alloc, verb, arguments)
    } else if verb == "forget" && is_left(arguments) {
        Ok(Some(Order::ForgetLeft))
    } else {
        act_of(alloc, verb, arguments)
    }
}

#[tactic(auto, unfolding(crate::specs::Reading::order_with))]
fn order_with(alloc: Global, verb: &str, arguments: &[&str]) -> Result<Option<Order>, NoMemory>
    ensures read { IfOk result (λ read. read ≡ order_with verb.now (map (λ word. word.now) arguments.now)) }
{
    match verb {
        "list" => Ok(alone(Order::Ask(Question::List), arguments)),
        "show" => Ok(only_uid(arguments).map(|uid| Order::Ask(Question::Show { uid }))),
        "waits" => Ok(only_uid(arguments).map(|uid| Order::Ask(Question::Waits { uid }))),
        "rollouts" => Ok(alone(Order::Ask(Question::Rollouts), arguments)),
        "members" => members_of(alloc, arguments),
        "ages" => Ok(alone(Order::Ask(Question::Ages), arguments)),
        "count" => Ok(alone(Order::Ask(Question::Count), arguments)),
        "stop" => Ok(alone(Order::Stop, arguments)),
        _ => change_with(alloc, verb, arguments),
    }
}

#[tactic(auto, unfolding(crate::specs::Reading::order_of))]
fn order_of(alloc: Global, words: &[&str]) -> Result<Option<Order>, NoMemory>
    ensures read { IfOk result (λ read. read ≡ order_of (map (λ word. word.now) words.now)) }
{
    match words {
        [verb, arguments @ ..] => order_with(alloc, verb, arguments),
        [] => Ok(None),
    }
}

fn words_of(alloc: Global, line: &str) -> Result<Vec<&str>, NoMemory>
    ensures words { IfOk result (λ words. map (λ word. word.now) words.items ≡ words_in line.now) }
{
    Ok(line.split(' ').collect(alloc)?)
}

fn are_filled(words: &[&str]) -> bool
    ensures filled { result ≡ list_all (λ word. is_word word.now) words.now }
{
    words.iter().all(|word| !word.is_empty())
}

/// The order that a line means, which is given without its line feed; none exactly where it means none.
///
/// It fails only where memory runs out, of which it takes an amount in proportion to the line.
pub fn read_line(alloc: Global, line: &[u8]) -> Result<Option<Order>, NoMemory>
    ensures order { IfOk result (λ read. MatchOption read (IsNoOrder line.now) (MeansOrder line.now)) }
{
    let Ok(text) = str::from_utf8(line) else {
        return Ok(None);
    };
    let words = words_of(alloc, text)?;
    if are_filled(words.as_slice()) {
        order_of(alloc, words.as_slice())
    } else {
        Ok(None)
    }
}
