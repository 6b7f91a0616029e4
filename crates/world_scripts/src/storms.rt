//! The script of a storm: a row of lines that a generator of numbers draws.

ghost use Rattle.std.specs.Prelude.{◌≡◌, ◌<◌, IfOk};
ghost use Rattle.world_scripts.specs.Storms.{next_state, next_line, line_drawn, line_chosen, last_delivered, one_delivered, health_drawn, attribute_drawn, rare_line};

use crate::lines::{Line, ServerNumber};
use plain_values::{NoMemory, Text};
use std::alloc::Global;
use std::marker::Model;

/// The lines of a storm, drawn one after the other, which contracts see as the state of their generator, a number below 2^64.
///
/// What a line is depends on how many reports were sent before it, which only the run knows.
#[derive(Clone, Copy, Debug, PartialEq, Eq)]
pub struct StormSource {
    state: u64,
}

impl Model for StormSource {
    ghost use Rattle.std.specs.Prelude.{ℕ, ◌<◌, ◌^◌};

    ghost Value = { ℕ };

    ghost view = { λ s. s.state };

    ghost invariant = { λ s. s.state < 2 ^ 64 };

    ghost inverse = { λ n. record { state = n } };
}

impl StormSource {
    /// The lines that begin from this number. Takes no memory.
    pub fn of(start: u64) -> StormSource
        ensures value { result ≡ start }
    {
        StormSource { state: start }
    }

    /// The next line, where so many reports were sent so far. Only want of memory can refuse it; the generator goes on all the same.
    pub fn next_line(&mut self, alloc: Global, sent: u64) -> Result<Line, NoMemory>
        ensures line { IfOk result (λ line. line ≡ next_line self.old sent) }
        ensures state { self.new ≡ next_state self.old }
    {
        self.state = next_state(self.state);
        line_drawn(alloc, self.state >> 33, sent)
    }
}

#[tactic(auto, unfolding(crate::specs::Storms::next_state))]
fn next_state(state: u64) -> u64
    ensures { result ≡ next_state state }
{
    state
        .wrapping_mul(6_364_136_223_846_793_005)
        .wrapping_add(1_442_695_040_888_963_407)
}

// The line of what is drawn.
#[tactic(auto, unfolding(crate::specs::Storms::line_chosen))]
fn line_drawn(alloc: Global, draw: u64, sent: u64) -> Result<Line, NoMemory>
    ensures { IfOk result (λ line. line ≡ line_drawn draw sent) }
{
    let rest = draw / 16;
    match draw % 16 {
        0..=4 => Ok(Line::Send),
        5..=8 => Ok(last_delivered(sent)),
        9..=11 => Ok(Line::Reply),
        12 => Ok(one_delivered(rest, sent)),
        13 => health_drawn(alloc, rest),
        14 => Ok(Line::GiveUp),
        _ => rare_line(alloc, rest),
    }
}

fn last_delivered(sent: u64) -> Line
    ensures { result ≡ last_delivered sent }
{
    if sent == 0 {
        Line::Send
    } else {
        Line::Deliver { report: sent }
    }
}

fn one_delivered(rest: u64, sent: u64) -> Line
    ensures { result ≡ one_delivered rest sent }
{
    if sent == 0 {
        return Line::Send;
    }
    Line::Deliver {
        report: 1 + rest % sent,
    }
}

fn health_drawn(alloc: Global, rest: u64) -> Result<Line, NoMemory>
    ensures { IfOk result (λ line. line ≡ health_drawn rest) }
{
    if rest % 2 == 0 {
        return Ok(Line::HealthOk);
    }
    let text = Text::of(String::from_str(alloc, "e")?);
    Ok(Line::HealthBad { text })
}

fn attribute_drawn(alloc: Global, rest: u64) -> Result<Line, NoMemory>
    ensures { IfOk result (λ line. line ≡ attribute_drawn rest) }
{
    let key = rest % 8;
    let value = rest % 64;
    Ok(Line::Attr {
        key: Text::of(format!(in alloc; "k{key}")?),
        text: Text::of(format!(in alloc; "v{value}")?),
    })
}

#[tactic(auto, unfolding(crate::specs::Storms::rare_line))]
fn rare_line(alloc: Global, rest: u64) -> Result<Line, NoMemory>
    ensures { IfOk result (λ line. line ≡ rare_line rest) }
{
    match rest % 4 {
        0 => Ok(Line::Restart),
        1 => Ok(Line::ServerRestart {
            server: ServerNumber::of(0),
        }),
        2 => attribute_drawn(alloc, rest),
        _ => Ok(Line::Record {
            server: ServerNumber::of(0),
        }),
    }
}
