//! The grammar of one line.

ghost use Rattle.std.specs.Prelude.{◌≡◌, IfOk};
ghost use Rattle.world_scripts.specs.Lines.{line_of_one, line_of_two, line_of_three, line_of_four, line_in, connection_offered, config_offered, stop_armed};

use crate::cuts::cut;
use crate::lines::Line;
use crate::numbers::{capabilities_of, decimal_number, server_of};
use crate::words::{is, mode_of, text_of, two_texts, url_of};
use plain_values::NoMemory;
use std::alloc::Global;

#[tactic(auto, unfolding(crate::specs::Lines::line_of_one))]
fn line_of_one(verb: &[u8]) -> Option<Line>
    ensures { result ≡ line_of_one verb.now }
{
    if is(verb, "send") {
        Some(Line::Send)
    } else if is(verb, "reply") {
        Some(Line::Reply)
    } else if is(verb, "giveup") {
        Some(Line::GiveUp)
    } else if is(verb, "restart") {
        Some(Line::Restart)
    } else if is(verb, "active") {
        Some(Line::Active)
    } else if is(verb, "take-push") {
        Some(Line::TakePush)
    } else {
        None
    }
}

#[tactic(auto, unfolding(crate::specs::Lines::line_of_two))]
fn line_of_two(alloc: Global, verb: &[u8], word: &[u8]) -> Result<Option<Line>, NoMemory>
    ensures { IfOk result (λ line. line ≡ line_of_two verb.now word.now) }
{
    if is(verb, "caps") {
        Ok(capabilities_of(word).map(|bits| Line::Caps { bits }))
    } else if is(verb, "health") {
        Ok(is(word, "ok").then_some(Line::HealthOk))
    } else if is(verb, "custom") {
        let name = text_of(alloc, word)?;
        Ok(name.map(|name| Line::Custom { name }))
    } else if is(verb, "component") {
        let name = text_of(alloc, word)?;
        Ok(name.map(|name| Line::Component { name }))
    } else if is(verb, "deliver") {
        Ok(decimal_number(word).map(|report| Line::Deliver { report }))
    } else if is(verb, "server-restart") {
        Ok(server_of(word).map(|server| Line::ServerRestart { server }))
    } else if is(verb, "record") {
        Ok(server_of(word).map(|server| Line::Record { server }))
    } else if is(verb, "push") {
        Ok(server_of(word).map(|server| Line::Push { server }))
    } else {
        Ok(None)
    }
}

fn connection_offered(alloc: Global, server: &[u8], url: &[u8]) -> Result<Option<Line>, NoMemory>
    ensures { IfOk result (λ line. line ≡ connection_offered server.now url.now) }
{
    let Some(server) = server_of(server) else {
        return Ok(None);
    };
    let url = url_of(alloc, url)?;
    Ok(url.map(|url| Line::OfferConnection { server, url }))
}

fn config_offered(
    alloc: Global,
    server: &[u8],
    name: &[u8],
    text: &[u8],
) -> Result<Option<Line>, NoMemory>
    ensures { IfOk result (λ line. line ≡ config_offered server.now name.now text.now) }
{
    let Some(server) = server_of(server) else {
        return Ok(None);
    };
    let texts = two_texts(alloc, name, text)?;
    Ok(texts.map(|(name, text)| Line::OfferConfig { server, name, text }))
}

fn stop_armed(call: &[u8], mode: &[u8]) -> Option<Line>
    ensures { result ≡ stop_armed call.now mode.now }
{
    let call = decimal_number(call)?;
    let mode = mode_of(mode)?;
    Some(Line::Stop { call, mode })
}

#[tactic(auto, unfolding(crate::specs::Lines::line_of_three))]
fn line_of_three(
    alloc: Global,
    verb: &[u8],
    first: &[u8],
    second: &[u8],
) -> Result<Option<Line>, NoMemory>
    ensures { IfOk result (λ line. line ≡ line_of_three verb.now first.now second.now) }
{
    if is(verb, "attr") {
        let texts = two_texts(alloc, first, second)?;
        Ok(texts.map(|(key, text)| Line::Attr { key, text }))
    } else if is(verb, "effective") {
        let texts = two_texts(alloc, first, second)?;
        Ok(texts.map(|(name, text)| Line::Effective { name, text }))
    } else if is(verb, "health") && is(first, "bad") {
        let text = text_of(alloc, second)?;
        Ok(text.map(|text| Line::HealthBad { text }))
    } else if is(verb, "offer-connection") {
        connection_offered(alloc, first, second)
    } else if is(verb, "stop") {
        Ok(stop_armed(first, second))
    } else {
        Ok(None)
    }
}

#[tactic(auto, unfolding(crate::specs::Lines::line_of_four))]
fn line_of_four(
    alloc: Global,
    verb: &[u8],
    first: &[u8],
    second: &[u8],
    third: &[u8],
) -> Result<Option<Line>, NoMemory>
    ensures { IfOk result (λ line. line ≡ line_of_four verb.now first.now second.now third.now) }
{
    if is(verb, "offer-config") {
        config_offered(alloc, first, second, third)
    } else {
        Ok(None)
    }
}

/// The line that the bytes are; none exactly where they are outside the grammar.
pub fn line_of(alloc: Global, line: &[u8]) -> Result<Option<Line>, NoMemory>
    ensures read { IfOk result (λ read. read ≡ line_in line.now) }
{
    let Some((verb, rest)) = cut(line, b' ') else {
        return Ok(line_of_one(line));
    };
    let Some((first, second)) = cut(rest, b' ') else {
        return line_of_two(alloc, verb, rest);
    };
    let Some((second, third)) = cut(second, b' ') else {
        return line_of_three(alloc, verb, first, second);
    };
    match cut(third, b' ') {
        None => line_of_four(alloc, verb, first, second, third),
        Some(_) => Ok(None),
    }
}
