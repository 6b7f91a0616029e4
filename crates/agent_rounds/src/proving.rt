//! A configuration that is tried: the trial's name is written, and the status file is read until it has the collector's word on it.

ghost use Rattle.std.specs.Prelude.{◌≡◌, ◌≤◌, Ok, Some, IfErr, IfOk, IsTrue, OnOk, codes, is_some};
ghost use Rattle.edge_devices.specs.Folders.{Calls, SameOthers};
ghost use Rattle.edge_devices.specs.declared.folders.Area.TheVariants.{Status as StatusArea};
ghost use Rattle.std.specs.String.{string_bytes};
ghost use Rattle.agent_config.specs.Config.{as_offer};
ghost use Rattle.agent_rules.specs.Half.{no_config};
ghost use Rattle.agent_rounds.specs.Moments.{with_clock, with_folder};
ghost use Rattle.agent_rounds.specs.Proving.{NamesTrial, ReadsWord, Tells, Watches, hash_word, name_of, trial_line, quarters, refused_text};
ghost use Rattle.agent_rounds.specs.Stages.{Stage};

use crate::ends::AgentEnd;
use crate::status_file::read_file;
use agent_config::{Said, said_of};
use agent_state::Agent;
use edge_devices::{Area, Clock, Folder, FolderCall, FolderFail};
use message_codec::reader::items::ReadFail;
use message_reports::decoding::decode_report;
use plain_values::{Blob, NoMemory, Text};
use std::alloc::Global;

/// How long the collector's word on a trial is watched for, and the trial's name.
#[derive(Drop)]
pub struct Trial {
    pub(crate) seconds: u64,
    pub(crate) name: Blob,
}

/// A quarter of a second, in nanoseconds.
pub const QUARTER: u64 = 250_000_000;

/// The most bytes of a collector's error message that are told.
pub const MOST_TOLD: usize = 1000;

// What a status file says on the trial of this name.
fn told_of(alloc: Global, name: &Blob, file: &[u8]) -> Result<Said, NoMemory>
    ensures { IfOk result (Tells name.now (Ok (Some file.now))) }
{
    let status = match decode_report(alloc, file) {
        Ok(status) => status,
        Err(ReadFail::NoMemory) => return Err(NoMemory),
        Err(ReadFail::Refused(_)) => return Ok(Said::Nothing),
    };
    let said = said_of(alloc, name, &status);
    drop(status);
    said
}

// Reads the status file for its word on the trial.
fn read_word<F: Folder>(alloc: Global, folder: &mut F, name: &Blob) -> Result<Said, AgentEnd>
    ensures reads { (s : Stage) → ReadsWord name.now (with_folder (F.state folder.old) s) (with_folder (F.state folder.new) s) result }
    ensures counts { (F.state folder.old).faults ≤ (F.state folder.new).faults }
    ensures end { IfErr result (λ end. end ≡ AgentEnd.NoMemory) }
{
    let file = match read_file(alloc, folder) {
        Ok(Some(file)) => file,
        Ok(None) => return Ok(Said::Nothing),
        Err(FolderFail::Fault) => return Ok(Said::Nothing),
        Err(FolderFail::NoMemory) => return Err(AgentEnd::NoMemory),
    };
    match told_of(alloc, name, file.as_slice()) {
        Ok(said) => Ok(said),
        Err(NoMemory) => Err(AgentEnd::NoMemory),
    }
}

// Reads the status file until it has a word on the trial, with so many waits at most.
fn watch<F: Folder, C: Clock>(
    alloc: Global,
    folder: &mut F,
    clock: &mut C,
    name: &Blob,
    waits: u64,
) -> Result<Said, AgentEnd>
    ensures watches { (s : Stage) → Watches waits name.now (with_folder (F.state folder.old) (with_clock (C.state clock.old) s))
        (with_folder (F.state folder.new) (with_clock (C.state clock.new) s)) result }
    ensures folder_count { (F.state folder.old).faults ≤ (F.state folder.new).faults }
    ensures clock_count { (C.state clock.old).faults ≤ (C.state clock.new).faults }
    ensures end { IfErr result (λ end. end ≡ AgentEnd.NoMemory) }
{
    for _ in 0..waits {
        match read_word(alloc, folder, name) {
            Ok(Said::Nothing) => {}
            Ok(Said::Taken) => return Ok(Said::Taken),
            Ok(Said::Refused(error)) => return Ok(Said::Refused(error)),
            Err(end) => return Err(end),
        }
        match clock.wait(QUARTER) {
            Ok(()) => {}
            Err(_) => return Ok(Said::Nothing),
        }
    }
    read_word(alloc, folder, name)
}

/// Watches for the collector's word on the trial, for so many seconds at most.
pub(crate) fn watch_for<F: Folder, C: Clock>(
    alloc: Global,
    folder: &mut F,
    clock: &mut C,
    name: &Blob,
    seconds: u64,
) -> Result<Said, AgentEnd>
    ensures watches { (s : Stage) → Watches (quarters seconds) name.now (with_folder (F.state folder.old) (with_clock (C.state clock.old) s))
        (with_folder (F.state folder.new) (with_clock (C.state clock.new) s)) result }
    ensures folder_count { (F.state folder.old).faults ≤ (F.state folder.new).faults }
    ensures clock_count { (C.state clock.old).faults ≤ (C.state clock.new).faults }
    ensures end { IfErr result (λ end. end ≡ AgentEnd.NoMemory) }
{
    watch(alloc, folder, clock, name, seconds.saturating_mul(4))
}

// The hash in hexadecimal digits, or a sign for an empty one.
fn hash_word(alloc: Global, hash: &Blob) -> Result<String, NoMemory>
    ensures { IfOk result (λ word. string_bytes word ≡ hash_word hash.now) }
{
    let bytes = hash.as_slice();
    if bytes.len() == 0 {
        return Ok(String::from_str(alloc, "-")?);
    }
    Ok(hex::encode(alloc, bytes)?)
}

/// The name of an agent's trial of an offer of this hash.
pub(crate) fn name_of(alloc: Global, agent: &Agent, hash: &Blob) -> Result<Blob, NoMemory>
    ensures { IfOk result (λ name. name ≡ name_of agent.now.half (as_offer no_config hash.now)) }
{
    let number = agent.number().saturating_sub(1);
    let hash = hash_word(alloc, hash)?;
    let mut name = String::new(alloc);
    write!(name, "{number} {hash}")?;
    Ok(Blob::of(name.into_bytes()))
}

// The name as the one line of a file.
fn trial_line(alloc: Global, name: &Blob) -> Result<Blob, NoMemory>
    ensures { IfOk result (λ line. line ≡ trial_line name.now) }
{
    let mut line = Vec::from_slice(alloc, name.as_slice())?;
    line.push(10)?;
    Ok(Blob::of(line))
}

/// Writes the trial's name as the file `trial`. Where that fails there is no trial.
pub(crate) fn write_name<F: Folder>(
    alloc: Global,
    folder: &mut F,
    name: &Blob,
) -> Result<bool, AgentEnd>
    ensures names { (s : Stage) → NamesTrial name.now (with_folder (F.state folder.old) s) (with_folder (F.state folder.new) s) result }
    ensures counts { (F.state folder.old).faults ≤ (F.state folder.new).faults }
    ensures end { IfErr result (λ end. end ≡ AgentEnd.NoMemory) }
{
    match write_line(alloc, folder, name) {
        Ok(()) => Ok(true),
        Err(FolderFail::Fault) => Ok(false),
        Err(FolderFail::NoMemory) => Err(AgentEnd::NoMemory),
    }
}

// Writes the file `trial`.
fn write_line<F: Folder>(alloc: Global, folder: &mut F, name: &Blob) -> Result<(), FolderFail>
    ensures written { OnOk result (IsTrue (F.state folder.new).told → (F.state folder.new).files StatusArea (codes "trial") ≡ Some (trial_line name.now)) }
    ensures same { SameOthers StatusArea (codes "trial") (F.state folder.old).files (F.state folder.new).files }
    ensures call { Calls (F.state folder.old) (F.state folder.new) (λ done. FolderCall.Write StatusArea (codes "trial") (trial_line name.now) (is_some done)) result }
{
    let file = match trial_file(alloc) {
        Ok(file) => file,
        Err(NoMemory) => return Err(FolderFail::NoMemory),
    };
    let line = match trial_line(alloc, name) {
        Ok(line) => line,
        Err(NoMemory) => return Err(FolderFail::NoMemory),
    };
    folder.write(alloc, Area::Status, &file, &line)
}

fn trial_file(alloc: Global) -> Result<Text, NoMemory>
    ensures { IfOk result (λ name. name ≡ codes "trial") }
{
    Ok(Text::of(String::from_str(alloc, "trial")?))
}

/// The text of a failure that the collector told; a long error message is left out.
pub(crate) fn refused_text(alloc: Global, error: &Text) -> Result<String, NoMemory>
    ensures { IfOk result (λ text. string_bytes text ≡ refused_text error.now) }
{
    let error = error.as_str();
    if error.len() > MOST_TOLD {
        return Ok(String::from_str(alloc, "refused")?);
    }
    let mut text = String::from_str(alloc, "refused: ")?;
    text.push_str(error)?;
    Ok(text)
}

/// The numbers of a trial's watching.
pub fn trial_numbers()
    ensures quarter { QUARTER ≡ 250000000 }
    ensures most_told { MOST_TOLD ≡ 1000 }
{}
