//! The line that says how a run ended.

ghost use Rattle.std.specs.Prelude.{◌≡◌, ℕ, string_bytes, take, IfOk, OnOk, IsErrOf};
ghost use Rattle.std.specs.Io.KnownBytes.{Appends};
ghost use Rattle.edge_devices.specs.Faults.{HasRisen};
ghost use Rattle.command_agent.specs.Endings.{IsSilent, Tells};
ghost use Rattle.command_agent.specs.Lines.{text_of};

use crate::endings::Ending;
use crate::lines::Line;
use crate::status::AgentStatus;
use edge_devices::Sink;
use plain_values::NoMemory;
use std::alloc::Global;
use thiserror::Error;

/// Why a line wasn't written.
#[derive(Clone, Copy, Debug, PartialEq, Eq, Error)]
pub enum LineFail {
    /// The sink answered its fault.
    #[error("the sink can't be written")]
    WriteFault,
    /// There was no memory.
    #[error("there was no memory")]
    NoMemory,
}

// The text of the line.
#[tactic(auto, unfolding(crate::specs::Lines::text_of))]
fn text_of(alloc: Global, line: Line) -> Result<String, NoMemory>
    ensures text { IfOk result (λ text. string_bytes text ≡ text_of line) }
{
    let text = match line {
        Line::Restart(round) => format!(in alloc; "restart {round}\n")?,
        Line::Rounds(rounds) => format!(in alloc; "rounds {rounds}\n")?,
        Line::Damaged(slot) => format!(in alloc; "store damaged in slot {slot}\n")?,
    };
    Ok(text)
}

/// Writes the line. Where memory is wanting nothing is written.
pub fn write_line<K: Sink>(alloc: Global, sink: &mut K, line: Line) -> Result<(), LineFail>
    ensures written { OnOk result (Appends (K.taken sink.old) (K.taken sink.new) (text_of line)) }
    ensures cut { IsErrOf result LineFail.WriteFault → (k : ℕ) × Appends (K.taken sink.old) (K.taken sink.new) (take k (text_of line)) }
    ensures write_fault { IsErrOf result LineFail.WriteFault → HasRisen (K.faults sink.old) (K.faults sink.new) }
    ensures silent { IsErrOf result LineFail.NoMemory → sink.new ≡ sink.old }
{
    let Ok(text) = text_of(alloc, line) else {
        return Err(LineFail::NoMemory);
    };
    match sink.put(text.as_bytes()) {
        Ok(()) => Ok(()),
        Err(_) => Err(LineFail::WriteFault),
    }
}

/// Writes the line that tells the ending of a run of so many rounds at most, if there is one, and gives the status.
pub fn tell<K: Sink>(alloc: Global, sink: &mut K, ending: Ending, rounds: u64) -> AgentStatus
    ensures tells { Tells rounds ending (K.taken sink.old) (K.taken sink.new) result }
    ensures write_fault { result ≡ AgentStatus.WriteFault → HasRisen (K.faults sink.old) (K.faults sink.new) }
    ensures silent { IsSilent result → sink.new ≡ sink.old }
{
    let Some(line) = ending.line(rounds) else {
        return ending.status();
    };
    match write_line(alloc, sink, line) {
        Ok(()) => ending.status(),
        Err(LineFail::WriteFault) => AgentStatus::WriteFault,
        Err(LineFail::NoMemory) => AgentStatus::NoMemory,
    }
}
