//! The command `simulate`: a script in, its transcript out.

ghost use Rattle.std.specs.Prelude.{◌≡◌, ◌+◌, ◌<◌, ◌≤◌, length, vec_len, string_bytes, IfOk, IfErr, IsErrOf, OnOk, OnErr};
ghost use Rattle.std.specs.Io.KnownBytes.{IsAtEnd};
ghost use Rattle.edge_devices.specs.Faults.{HasRisen};
ghost use Rattle.world_lab.specs.Labs.{lab_state, unplayed};
ghost use Rattle.command_scripts.specs.Simulating.{ScriptReading, Plays, Fails, ReadsScript, fault_name, script_note, EndsScript, Simulates, status_of_run};
ghost use Rattle.command_scripts.specs.Outcomes.{SimulateOutcome};
ghost use Rattle.command_scripts.specs.TakingScripts.{TakesAtMost, TakesBlock, TakesScript, IsTakeFail, IsPutFail, most_taken};
ghost use Rattle.command_scripts.specs.declared.simulate.PlayFail.TheVariants as play_fail;

use crate::laws::one_script_reading;
use edge_devices::{ReadFault, Sink, Source, WriteFault};
use plain_values::NoMemory;
use std::alloc::{AllocError, Global};
use world_lab::{Lab, SimFail, simulate};
use world_scripts::{SCRIPT_LIMIT, Script, ScriptFail};

/// How many bytes the source is asked for at once.
pub(crate) const BLOCK: usize = 65_536;

/// Why bytes are no script.
#[derive(Clone, Copy, Debug, PartialEq, Eq)]
pub enum ScriptFault {
    /// A line is outside the grammar.
    BadLine,
    /// There are more than `SCRIPT_LIMIT` bytes.
    TooLarge,
}

/// Why a script wasn't played to its end.
#[derive(Clone, Copy, Debug, PartialEq, Eq)]
pub enum PlayFail {
    /// The input is no script, and a note says so.
    Refused,
    /// The source answered its fault.
    ReadFault,
    /// The sink answered its fault.
    WriteFault,
    /// There was no memory.
    NoMemory,
}

impl From<NoMemory> for PlayFail {
    ghost from_gives = { λ _ e. e ≡ play_fail.NoMemory };

    fn from(_error: NoMemory) -> PlayFail {
        PlayFail::NoMemory
    }
}

impl From<AllocError> for PlayFail {
    ghost from_gives = { λ _ e. e ≡ play_fail.NoMemory };

    fn from(_error: AllocError) -> PlayFail {
        PlayFail::NoMemory
    }
}

impl From<ReadFault> for PlayFail {
    ghost from_gives = { λ _ e. e ≡ play_fail.ReadFault };

    fn from(_error: ReadFault) -> PlayFail {
        PlayFail::ReadFault
    }
}

impl From<WriteFault> for PlayFail {
    ghost from_gives = { λ _ e. e ≡ play_fail.WriteFault };

    fn from(_error: WriteFault) -> PlayFail {
        PlayFail::WriteFault
    }
}

// Takes one block from the source behind the bytes that were taken, and gives its length. 0 is the end.
fn take_block<S: Source>(
    source: &mut S,
    block: &mut [u8],
    bytes: &mut Vec<u8>,
) -> Result<usize, PlayFail>
    requires room { 0 < length block.old }
    ensures taken { OnOk result (TakesBlock (S.left source.old) (S.left source.new) bytes.old.items bytes.new.items) }
    ensures length { IfOk result (λ len. vec_len bytes.new ≡ vec_len bytes.old + len) }
    ensures at_end { IfOk result (λ len. len ≡ 0 → IsAtEnd (S.left source.new)) }
    ensures failed { IfErr result (IsTakeFail (HasRisen (S.faults source.old) (S.faults source.new))) }
    ensures count { S.faults source.old ≤ S.faults source.new }
    ensures few { TakesAtMost (length block.old) (S.left source.old) (S.left source.new) }
{
    let len = source.take(block)?;
    bytes.extend_from_slice(&block[..len])?;
    Ok(len)
}

// Takes the source's bytes to their end, or until they are more than a script may have, and then no more. A call may bring a part of a block.
fn take_script<S: Source>(alloc: Global, source: &mut S) -> Result<Vec<u8>, PlayFail>
    ensures taken { IfOk result (λ bytes. TakesScript (S.left source.old) (S.left source.new) bytes.items) }
    ensures failed { IfErr result (IsTakeFail (HasRisen (S.faults source.old) (S.faults source.new))) }
    ensures few { TakesAtMost most_taken (S.left source.old) (S.left source.new) }
{
    let mut bytes = Vec::new(alloc);
    let mut block = Vec::new(alloc);
    block.resize(BLOCK, 0)?;
    'takes: loop {
        let len = take_block(source, &mut block, &mut bytes)?;
        if len == 0 || bytes.len() > SCRIPT_LIMIT {
            return Ok(bytes);
        }
    }
}

fn name(why: ScriptFault) -> &'static str
    ensures name { result.now ≡ fault_name why }
{
    match why {
        ScriptFault::BadLine => "BadLine",
        ScriptFault::TooLarge => "TooLarge",
    }
}

// The line that says what is wrong with a script.
#[tactic(auto, unfolding(crate::specs::Simulating::script_note))]
fn note_of(alloc: Global, at: u64, why: ScriptFault) -> Result<String, NoMemory>
    ensures note { IfOk result (λ text. string_bytes text ≡ script_note at why) }
{
    let name = name(why);
    let note = format!(in alloc; "refused at {at}: {name}\n")?;
    Ok(note)
}

// Writes what is wrong with a script.
fn refuse<K: Sink>(alloc: Global, sink: &mut K, at: u64, why: ScriptFault) -> Result<(), PlayFail>
    ensures ends { EndsScript (Fails at why) (K.taken sink.old) (K.taken sink.new) unplayed (status_of_run result) }
    ensures failed { IfErr result (IsPutFail (HasRisen (K.faults sink.old) (K.faults sink.new))) }
{
    let note = note_of(alloc, at, why)?;
    sink.put(note.as_bytes())?;
    Err(PlayFail::Refused)
}

// Plays a script.
fn play_lines<K: Sink>(script: &Script, sink: &mut K, lab: &mut Lab) -> Result<(), PlayFail>
    requires unplayed { lab_state lab.old ≡ unplayed }
    ensures ends { EndsScript (Plays script.now) (K.taken sink.old) (K.taken sink.new) (lab_state lab.new) (status_of_run result) }
    ensures failed { IfErr result (IsPutFail (HasRisen (K.faults sink.old) (K.faults sink.new))) }
{
    match simulate(lab, script, sink) {
        Ok(()) => Ok(()),
        Err(SimFail::WriteFault) => Err(PlayFail::WriteFault),
        Err(SimFail::NoMemory) => Err(PlayFail::NoMemory),
    }
}

// Plays the script that the bytes are, or writes what is wrong with them.
fn play<K: Sink>(alloc: Global, bytes: &[u8], sink: &mut K, lab: &mut Lab) -> Result<(), PlayFail>
    requires unplayed { lab_state lab.old ≡ unplayed }
    ensures ends { (reading : ScriptReading) → ReadsScript bytes.now reading → EndsScript reading (K.taken sink.old) (K.taken sink.new) (lab_state lab.new) (status_of_run result) }
    ensures failed { IfErr result (IsPutFail (HasRisen (K.faults sink.old) (K.faults sink.new))) }
{
    one_script_reading();
    match Script::read(alloc, bytes) {
        Ok(script) => play_lines(&script, sink, lab),
        Err(ScriptFail::BadLine { at }) => refuse(alloc, sink, at, ScriptFault::BadLine),
        Err(ScriptFail::TooLarge) => {
            refuse(alloc, sink, SCRIPT_LIMIT as u64, ScriptFault::TooLarge)
        }
        Err(ScriptFail::NoMemory) => Err(PlayFail::NoMemory),
    }
}

// Reads a script from the source, plays it in the lab and writes its transcript, or a note on what is wrong with it.
fn run_script<S: Source, K: Sink>(
    alloc: Global,
    source: &mut S,
    sink: &mut K,
    lab: &mut Lab,
) -> Result<(), PlayFail>
    requires unplayed { lab_state lab.old ≡ unplayed }
    ensures simulates { Simulates (S.left source.old) (K.taken sink.old) (K.taken sink.new) (lab_state lab.new) (status_of_run result) }
    ensures read_fault { IsErrOf result PlayFail.ReadFault → HasRisen (S.faults source.old) (S.faults source.new) }
    ensures read_fault_leaves { IsErrOf result PlayFail.ReadFault → lab.new ≡ lab.old }
    ensures write_fault { IsErrOf result PlayFail.WriteFault → HasRisen (K.faults sink.old) (K.faults sink.new) }
    ensures few { TakesAtMost most_taken (S.left source.old) (S.left source.new) }
{
    one_script_reading();
    let bytes = take_script(alloc, source)?;
    play(alloc, &bytes, sink, lab)
}

// The exit status of a run over a script.
fn script_status(ending: Result<(), PlayFail>) -> u8
    ensures status { result ≡ status_of_run ending }
{
    match ending {
        Ok(()) => 0,
        Err(PlayFail::Refused) => 1,
        Err(PlayFail::ReadFault) => 3,
        Err(PlayFail::WriteFault) => 4,
        Err(PlayFail::NoMemory) => 5,
    }
}

// The same with the status.
fn play_script<S: Source, K: Sink>(alloc: Global, source: &mut S, sink: &mut K, lab: &mut Lab) -> u8
    requires unplayed { lab_state lab.old ≡ unplayed }
    ensures simulates { Simulates (S.left source.old) (K.taken sink.old) (K.taken sink.new) (lab_state lab.new) result }
    ensures no_wrong_words { result ≡ 2 → ⊥ }
    ensures no_store_fault { result ≡ 6 → ⊥ }
    ensures no_outside_fault { result ≡ 8 → ⊥ }
    ensures read_fault { result ≡ 3 → HasRisen (S.faults source.old) (S.faults source.new) }
    ensures read_fault_leaves { result ≡ 3 → lab.new ≡ lab.old }
    ensures write_fault { result ≡ 4 → HasRisen (K.faults sink.old) (K.faults sink.new) }
    ensures few { TakesAtMost most_taken (S.left source.old) (S.left source.new) }
{
    script_status(run_script(alloc, source, sink, lab))
}

/// Reads a script from the source, plays it in the lab and writes its transcript, or a note on what is wrong with it, and gives the program's status: 0
/// done, 1 input refused, 3 read fault, 4 write fault, 5 want of memory.
///
/// The script is taken whole before anything is played, and more than `SCRIPT_LIMIT` bytes only by a part of a block. After a failure of the source the lab is
/// as it was. After a failure of the sink, or want of memory, it isn't used again.
pub fn run_simulate_command<S: Source, K: Sink>(
    alloc: Global,
    source: &mut S,
    sink: &mut K,
    lab: &mut Lab,
) -> u8
    requires unplayed { lab_state lab.old ≡ unplayed }
    ensures outcome { SimulateOutcome
        (record { source = record { left = S.left source.old; faults = S.faults source.old }; sink = record { taken = K.taken sink.old; faults = K.faults sink.old }; lab = lab_state lab.old })
        (record { source = record { left = S.left source.new; faults = S.faults source.new }; sink = record { taken = K.taken sink.new; faults = K.faults sink.new }; lab = lab_state lab.new }) result }

    // 3 comes only where the source failed, and the lab is then as it was; 4 comes only where the sink failed; 2, 6 and 8 never come.
    ensures read_fault { result ≡ 3 → HasRisen (S.faults source.old) (S.faults source.new) }
    ensures read_fault_leaves { result ≡ 3 → lab.new ≡ lab.old }
    ensures write_fault { result ≡ 4 → HasRisen (K.faults sink.old) (K.faults sink.new) }
    ensures no_wrong_words { result ≡ 2 → ⊥ }
    ensures no_store_fault { result ≡ 6 → ⊥ }
    ensures no_outside_fault { result ≡ 8 → ⊥ }
{
    one_script_reading();
    play_script(alloc, source, sink, lab)
}
