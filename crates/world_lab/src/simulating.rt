//! Playing a script.

ghost use Rattle.std.specs.Prelude.{◌≡◌, ◌<◌, ◌^◌, length, IfOk, OnOk, OnErr, IsErrOf};
ghost use Rattle.std.specs.Io.KnownBytes.{Appends};
ghost use Rattle.std.specs.String.{string_bytes};
ghost use Rattle.edge_devices.specs.Faults.{HasRisen};
ghost use Rattle.world_model.specs.Servers.{arrivals};
ghost use Rattle.world_lab.specs.Labs.{AppendsFrontOf, lab_state, left_by, unplayed, played};
ghost use Rattle.world_lab.specs.Mirrors.{HasGenerations, IsMirror, Mirrors};
ghost use Rattle.world_lab.specs.Playing.{Progress, after_line, first_progress, script_progress, script_start, world_of};
ghost use Rattle.world_lab.specs.Transcripts.{line_written, text_of, transcript_of};

use crate::lab::Lab;
use crate::playing::play_line;
use crate::plays::{Play, opening};
use crate::text::put_written;
use edge_devices::{Sink, WriteFault};
use plain_values::NoMemory;
use server_core::Server;
use thiserror::Error;
use world_scripts::{Line, Script};

/// Why a script was not played to its end. The lab isn't used again then.
#[derive(Clone, Copy, Debug, PartialEq, Eq, Error)]
pub enum SimFail {
    /// The sink answered its fault.
    #[error("the sink can't be written")]
    WriteFault,
    /// Memory ran out.
    #[error("there was no memory")]
    NoMemory,
}

impl From<NoMemory> for SimFail {
    ghost use Rattle.std.specs.Prelude.{◌≡◌};
    ghost use Rattle.world_lab.specs.declared.simulating.SimFail.TheVariants as fails;

    ghost from_gives = { λ _ result. result ≡ fails.NoMemory };

    fn from(_: NoMemory) -> SimFail {
        SimFail::NoMemory
    }
}

impl From<WriteFault> for SimFail {
    ghost use Rattle.std.specs.Prelude.{◌≡◌};
    ghost use Rattle.world_lab.specs.declared.simulating.SimFail.TheVariants as fails;

    ghost from_gives = { λ _ result. result ≡ fails.WriteFault };

    fn from(_: WriteFault) -> SimFail {
        SimFail::WriteFault
    }
}

/// Plays a script in a lab, and writes its transcript.
///
/// Each line is played by calls of the lab's agent and servers, and its line of the transcript goes out before the next one is played. After a refusal the sink
/// took a prefix of the transcript, and the lab isn't used again.
pub fn simulate<K: Sink>(lab: &mut Lab, script: &Script, sink: &mut K) -> Result<(), SimFail>
    requires unplayed { lab_state lab.old ≡ unplayed }
    ensures transcript { OnOk result (Appends (K.taken sink.old) (K.taken sink.new) (transcript_of script.now)) }
    ensures played { OnOk result (lab_state lab.new ≡ played script.now) }
    ensures prefix { OnErr result (AppendsFrontOf (K.taken sink.old) (K.taken sink.new) (transcript_of script.now)) }
    ensures write_fault { IsErrOf result SimFail.WriteFault → HasRisen (K.faults sink.old) (K.faults sink.new) }
{
    let lines = script.lines();
    let mut play = begin(lab)?;
    match play_lines(&mut play, &mut lab.servers, lines, sink) {
        Ok(()) => {
            end(lab, play);
            Ok(())
        }
        Err(fail) => Err(fail),
    }
}

/// The play of the lab's first script.
pub fn begin(lab: &Lab) -> Result<Play, NoMemory>
    requires unplayed { lab_state lab.now ≡ unplayed }
    ensures opened { IfOk result (λ play. Mirrors first_progress play lab.now.servers) }
{
    opening(lab.alloc)
}

/// The lab as a play leaves it.
pub fn end(lab: &mut Lab, play: Play)
    ensures left { (p : Progress) → Mirrors p play lab.old.servers → lab_state lab.new ≡ left_by (world_of p).agent (arrivals script_start p.events) }
{
    let host = play.host;
    lab.agent = Some(host.agent);
    lab.disk = host.disk;
    lab.folder = host.folder;
}

// Plays all lines, from the first on.
fn play_lines<K: Sink>(
    play: &mut Play,
    servers: &mut [Server],
    lines: &[Line],
    sink: &mut K,
) -> Result<(), SimFail>
    requires opened { Mirrors first_progress play.old servers.old }
    requires few { length lines.now < 2 ^ 60 }
    ensures transcript { OnOk result (Appends (K.taken sink.old) (K.taken sink.new) (transcript_of lines.now)) }
    ensures mirrors { OnOk result (Mirrors (script_progress lines.now) play.new servers.new) }
    ensures prefix { OnErr result (AppendsFrontOf (K.taken sink.old) (K.taken sink.new) (transcript_of lines.now)) }
    ensures write_fault { IsErrOf result SimFail.WriteFault → HasRisen (K.faults sink.old) (K.faults sink.new) }
{
    let mut text = String::new(play.alloc);
    for line in lines {
        show_line(play, servers, line, &mut text)?;
        sink.put(text.as_bytes())?;
    }
    Ok(())
}

// Plays a line, whose line of the transcript is then all of `text`. That line is dropped here and not in a loop, where it would make as many ways on as there
// are kinds of it.
fn show_line(
    play: &mut Play,
    servers: &mut [Server],
    line: &Line,
    text: &mut String,
) -> Result<(), NoMemory>
    requires mirror { IsMirror play.old servers.old }
    requires generations { HasGenerations 4 play.old.host }
    ensures mirrors { OnOk result ((p : Progress) → Mirrors p play.old servers.old → Mirrors (after_line p line.now) play.new servers.new) }
    ensures text { OnOk result ((p : Progress) → Mirrors p play.old servers.old → string_bytes text.new ≡ text_of (line_written p line.now)) }
{
    text.clear();
    let alloc = play.alloc;
    let written = play_line(play, servers, line)?;
    let shown = put_written(alloc, text, &written);
    drop(written);
    shown
}
