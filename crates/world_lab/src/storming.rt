//! Playing a generated script.

ghost use Rattle.std.specs.Prelude.{◌≡◌, ◌≤◌, ◌+◌, ◌<◌, ◌^◌, ◌++◌, ◌∷◌, List, [], length, IfOk, OnOk, if◌then◌else◌};
ghost use Rattle.world_lab.specs.declared.written.Written.{Written as WrittenLine};
ghost use Rattle.world_lab.specs.Labs.{lab_state, unplayed, played};
ghost use Rattle.world_lab.specs.Mirrors.{HasGenerations, IsMirror, Mirrors, Plays};
ghost use Rattle.world_lab.specs.Playing.{Progress, first_progress, script_progress, world_of};
ghost use Rattle.world_lab.specs.Transcripts.{lines_written};
ghost use Rattle.world_lab.specs.Storming.{counts_of, first_number, is_asked, is_delta, is_full, is_plain, is_sent, is_taken, storm_script, summary_of};

use crate::lab::Lab;
use crate::playing::play_line;
use crate::plays::Play;
use crate::simulating::{begin, end};
use crate::written::Written;
use plain_values::NoMemory;
use server_core::Server;
use world_scripts::{Line, StormSource};

/// The most events of a storm.
pub const STORM_LIMIT: u64 = 100_000;

/// What is counted of a storm.
#[derive(Clone, Copy, Debug, PartialEq, Eq)]
pub struct Summary {
    /// Its events, which are its lines.
    pub events: u64,
    /// Reports that were sent.
    pub sent: u64,
    /// Those that told the changes alone.
    pub deltas: u64,
    /// Deliveries that a server took.
    pub takes: u64,
    /// Deliveries at which a server asked for the full state.
    pub asks: u64,
    /// Replies that reached the agent and didn't ask for the full state.
    pub plain: u64,
    /// Replies that reached the agent and asked for it.
    pub full: u64,
    /// The number of what server 0 holds of the agent; 0 where it holds nothing.
    pub number: u64,
}

/// Plays the script of so many lines that is generated from `start`, and gives the counts of its transcript. The lab is left as by a simulation of that
/// script. After want of memory it isn't used again.
pub fn storm(lab: &mut Lab, start: u64, count: u64) -> Result<Summary, NoMemory>
    requires unplayed { lab_state lab.old ≡ unplayed }
    requires few { count ≤ STORM_LIMIT }
    ensures summary { IfOk result (λ summary. summary ≡ summary_of (storm_script start count)) }
    ensures played { OnOk result (lab_state lab.new ≡ played (storm_script start count)) }
{
    let mut play = match begin(lab) {
        Ok(play) => play,
        Err(fail) => return Err(fail),
    };
    match play_counted(&mut play, &mut lab.servers, start, count) {
        Ok(summary) => {
            end(lab, play);
            Ok(summary)
        }
        Err(fail) => Err(fail),
    }
}

// Plays all lines of a storm, and gives its counts with the number of what server 0 holds then.
fn play_counted(
    play: &mut Play,
    servers: &mut [Server],
    start: u64,
    count: u64,
) -> Result<Summary, NoMemory>
    requires opened { Mirrors first_progress play.old servers.old }
    requires few { count ≤ STORM_LIMIT }
    ensures summary { IfOk result (λ summary. summary ≡ summary_of (storm_script start count)) }
    ensures mirrors { OnOk result (Mirrors (script_progress (storm_script start count)) play.new servers.new) }
{
    match play_storm(play, servers, start, count) {
        Ok(counts) => {
            let mut summary = counts;
            summary.number = first_number(play, servers);
            Ok(summary)
        }
        Err(fail) => Err(fail),
    }
}

// Plays all lines of a storm, and counts what is written of them.
fn play_storm(
    play: &mut Play,
    servers: &mut [Server],
    start: u64,
    count: u64,
) -> Result<Summary, NoMemory>
    requires opened { Mirrors first_progress play.old servers.old }
    requires few { count ≤ STORM_LIMIT }
    ensures counts { IfOk result (λ summary. summary ≡ counts_of (lines_written (storm_script start count)) 0) }
    ensures mirrors { OnOk result (Mirrors (script_progress (storm_script start count)) play.new servers.new) }
{
    let mut source = StormSource::of(start);
    let mut summary = Summary {
        events: 0,
        sent: 0,
        deltas: 0,
        takes: 0,
        asks: 0,
        plain: 0,
        full: 0,
        number: 0,
    };
    while summary.events < count {
        let line = source.next_line(play.alloc, play.sent.len() as u64)?;
        let written = play_owned(play, servers, line)?;
        summary = with_owned(summary, written);
    }
    Ok(summary)
}

// Plays a line that isn't used again. Dropped in a loop, it would make as many ways on as there are kinds of lines.
fn play_owned(play: &mut Play, servers: &mut [Server], line: Line) -> Result<Written, NoMemory>
    requires mirror { IsMirror play.old servers.old }
    requires generations { HasGenerations 4 play.old.host }
    ensures played { IfOk result (Plays line play.old servers.old play.new servers.new) }
{
    play_line(play, servers, &line)
}

// The counts with one line more.
fn with_line(summary: Summary, line: &Written) -> Summary
    requires few { (lines : List WrittenLine) × (length lines < 2 ^ 60) × (summary ≡ counts_of lines 0) }
    ensures counts { (lines : List WrittenLine) → summary ≡ counts_of lines 0 → result ≡ counts_of (lines ++ line.now ∷ []) 0 }
{
    let events = more(summary.events, true);
    let sent = more(summary.sent, is_sent(line));
    let deltas = more(summary.deltas, is_delta(line));
    let takes = more(summary.takes, is_taken(line));
    let asks = more(summary.asks, is_asked(line));
    let plain = more(summary.plain, is_plain(line));
    let full = more(summary.full, is_full(line));
    Summary {
        events,
        sent,
        deltas,
        takes,
        asks,
        plain,
        full,
        number: 0,
    }
}

// The same of a line that isn't used again.
fn with_owned(summary: Summary, line: Written) -> Summary
    requires few { (lines : List WrittenLine) × (length lines < 2 ^ 60) × (summary ≡ counts_of lines 0) }
    ensures counts { (lines : List WrittenLine) → summary ≡ counts_of lines 0 → result ≡ counts_of (lines ++ line ∷ []) 0 }
{
    with_line(summary, &line)
}

// One more, where the line is of this kind; the greatest count stays.
fn more(count: u64, is: bool) -> u64
    ensures more { count < 2 ^ 60 → result ≡ count + (if is then 1 else 0) }
{
    if is { count.saturating_add(1) } else { count }
}

fn is_sent(line: &Written) -> bool
    ensures sent { result ≡ is_sent line.now }
{
    matches!(line, Written::SentReport { .. })
}

fn is_delta(line: &Written) -> bool
    ensures delta { result ≡ is_delta line.now }
{
    match line {
        Written::SentReport { is_whole, .. } => !*is_whole,
        _ => false,
    }
}

fn is_taken(line: &Written) -> bool
    ensures taken { result ≡ is_taken line.now }
{
    matches!(line, Written::Takes { .. })
}

fn is_asked(line: &Written) -> bool
    ensures asked { result ≡ is_asked line.now }
{
    matches!(line, Written::Asks { .. })
}

fn is_plain(line: &Written) -> bool
    ensures plain { result ≡ is_plain line.now }
{
    match line {
        Written::Heard { full, .. } => !*full,
        _ => false,
    }
}

fn is_full(line: &Written) -> bool
    ensures full { result ≡ is_full line.now }
{
    match line {
        Written::Heard { full, .. } => *full,
        _ => false,
    }
}

// The number of what server 0 holds of the agent; 0 where it holds nothing.
fn first_number(play: &Play, servers: &[Server]) -> u64
    requires all { length servers.now ≡ 10 }
    ensures number { (p : Progress) → Mirrors p play.now servers.now → result ≡ first_number (world_of p) }
{
    world_model::one_agent_has_room();
    world_model::records_are_entries();
    match servers[0].find(&play.host.agent.saved().uid) {
        Some(kept) => kept.number,
        None => 0,
    }
}
