//! The command `storm`: a script that is drawn, played in the lab, and its summary out.

ghost use Rattle.std.specs.Prelude.{◌≡◌, ◌≤◌, ◌⊎◌, string_bytes, IfOk, OnOk, OnErr, IsErrOf};
ghost use Rattle.std.specs.Io.KnownBytes.{Appends};
ghost use Rattle.edge_devices.specs.Faults.{HasRisen};
ghost use Rattle.world_lab.specs.Labs.{AppendsFrontOf, lab_state, played, unplayed};
ghost use Rattle.world_lab.specs.Storming.{storm_script};
ghost use Rattle.command_scripts.specs.Outcomes.{StormOutcome};
ghost use Rattle.command_scripts.specs.Storming.{IsStormStatus, replies_counted, reports_counted, storm_output, summary_line};

use edge_devices::Sink;
use plain_values::NoMemory;
use std::alloc::Global;
use world_lab::{Lab, Summary, storm};

// Why a summary wasn't written.
#[derive(Clone, Copy, Debug, PartialEq, Eq)]
enum SummaryFail {
    // The sink answered its fault.
    WriteFault,
    // There was no memory.
    NoMemory,
}

// The counts of what was sent and taken.
#[tactic(auto, unfolding(crate::specs::Storming::reports_counted))]
fn reports_counted(alloc: Global, summary: &Summary) -> Result<String, NoMemory>
    ensures counts { IfOk result (λ text. string_bytes text ≡ reports_counted summary.now) }
{
    let text = format!(in alloc;
        "events {} sent {} deltas {} takes {}",
        summary.events, summary.sent, summary.deltas, summary.takes
    )?;
    Ok(text)
}

// The counts of what was asked and heard, and the number.
#[tactic(auto, unfolding(crate::specs::Storming::replies_counted))]
fn replies_counted(alloc: Global, summary: &Summary) -> Result<String, NoMemory>
    ensures counts { IfOk result (λ text. string_bytes text ≡ replies_counted summary.now) }
{
    let text = format!(in alloc;
        " asks {} plain {} full {} number {}\n",
        summary.asks, summary.plain, summary.full, summary.number
    )?;
    Ok(text)
}

// The summary's line.
fn line_of(alloc: Global, summary: &Summary) -> Result<String, NoMemory>
    ensures line { IfOk result (λ line. string_bytes line ≡ summary_line summary.now) }
{
    let mut line = reports_counted(alloc, summary)?;
    let replies = replies_counted(alloc, summary)?;
    line.push_str(&replies)?;
    Ok(line)
}

// Writes the summary's line. Where memory is wanting nothing is written.
fn write_summary<K: Sink>(alloc: Global, sink: &mut K, summary: &Summary) -> Result<(), SummaryFail>
    ensures written { OnOk result (Appends (K.taken sink.old) (K.taken sink.new) (summary_line summary.now)) }
    ensures cut { OnErr result (AppendsFrontOf (K.taken sink.old) (K.taken sink.new) (summary_line summary.now)) }
    ensures write_fault { IsErrOf result SummaryFail.WriteFault → HasRisen (K.faults sink.old) (K.faults sink.new) }
    ensures silent { IsErrOf result SummaryFail.NoMemory → sink.new ≡ sink.old }
{
    let Ok(line) = line_of(alloc, summary) else {
        return Err(SummaryFail::NoMemory);
    };
    match sink.put(line.as_bytes()) {
        Ok(()) => Ok(()),
        Err(_) => Err(SummaryFail::WriteFault),
    }
}

// Plays the script of so many lines that is drawn from `start`, writes its summary, and gives the status.
fn run_storm<K: Sink>(alloc: Global, start: u64, count: u64, sink: &mut K, lab: &mut Lab) -> u8
    requires unplayed { lab_state lab.old ≡ unplayed }
    requires few { count ≤ 100000 }

    // The summary was written.
    ensures done { result ≡ 0 → Appends (K.taken sink.old) (K.taken sink.new) (storm_output start count) }

    // The sink took a front of its line only.
    ensures cut { result ≡ 4 → AppendsFrontOf (K.taken sink.old) (K.taken sink.new) (storm_output start count) }
    ensures write_fault { result ≡ 4 → HasRisen (K.faults sink.old) (K.faults sink.new) }

    // In both cases the lab is as that script leaves it.
    ensures played { (result ≡ 0) ⊎ (result ≡ 4) → lab_state lab.new ≡ played (storm_script start count) }

    // Nothing else is ever written, and no other status comes.
    ensures silent { result ≡ 5 → sink.new ≡ sink.old }
    ensures statuses { IsStormStatus result }
{
    let Ok(summary) = storm(lab, start, count) else {
        return 5;
    };
    match write_summary(alloc, sink, &summary) {
        Ok(()) => 0,
        Err(SummaryFail::WriteFault) => 4,
        Err(SummaryFail::NoMemory) => 5,
    }
}

/// Plays the script of so many lines, 100,000 at most, that is drawn from `start`, writes its summary, and gives the program's status: 0 done, 4 write fault,
/// 5 want of memory.
pub fn run_storm_command<K: Sink>(
    alloc: Global,
    start: u64,
    count: u64,
    sink: &mut K,
    lab: &mut Lab,
) -> u8
    requires unplayed { lab_state lab.old ≡ unplayed }
    requires few { count ≤ 100000 }
    ensures outcome { StormOutcome start count
        (record { sink = record { taken = K.taken sink.old; faults = K.faults sink.old }; lab = lab_state lab.old })
        (record { sink = record { taken = K.taken sink.new; faults = K.faults sink.new }; lab = lab_state lab.new }) result }

    // For want of memory nothing was written.
    ensures silent { result ≡ 5 → sink.new ≡ sink.old }
{
    run_storm(alloc, start, count, sink, lab)
}
