//! What `serve` notes.

ghost use Rattle.std.specs.Prelude.{◌≡◌, ◌∷◌, ◌++◌, [], codes};
ghost use Rattle.edge_notes.specs.Noted.{IsNoted, NotedIf};
ghost use Rattle.command_serve.specs.Notes.{address_line, cause_of, end_note, listening_line, rollout_note, sockets_note};

use crate::status::{RolloutStatus, ServeStatus};
use command_words::ServeOptions;
use edge_devices::{Sink, WireFault};
use edge_notes::{Note, put_note, put_parts};
use plain_values::Text;
use server_sessions::ServeEnd;

/// Notes the three addresses.
pub fn note_listening<N: Sink>(notes: &mut N, options: &ServeOptions)
    ensures noted { IsNoted (listening_line options.now) (record { taken = N.taken notes.old; faults = N.faults notes.old }) (record { taken = N.taken notes.new; faults = N.faults notes.new }) }
{
    let http = options.http.as_str();
    let ws = options.ws.as_str();
    let operator = options.operator.as_str();
    put_parts(
        notes,
        &[
            "listening http ",
            http,
            " websocket ",
            ws,
            " operators ",
            operator,
            "\n",
        ],
    );
}

fn cause_of(fault: WireFault) -> &'static str
    ensures cause { result.now ≡ cause_of fault }
{
    match fault {
        WireFault::InUse => "in use",
        WireFault::NotHere => "not an address of this machine",
        WireFault::NotPermitted => "not permitted",
        WireFault::Failed => "failed",
    }
}

// One lifetime for both, since they stand in one array.
fn put_address<'a, N: Sink>(notes: &mut N, address: &'a str, cause: &'a str)
    ensures noted { IsNoted (codes "address " ++ (address.now ++ (codes ": " ++ (cause.now ++ 10 ∷ [])))) (record { taken = N.taken notes.old; faults = N.faults notes.old }) (record { taken = N.taken notes.new; faults = N.faults notes.new }) }
{
    put_parts(notes, &["address ", address, ": ", cause, "\n"]);
}

/// Notes an address at which no connections can be taken, and why.
pub fn note_address<N: Sink>(notes: &mut N, address: &Text, fault: WireFault)
    ensures noted { IsNoted (address_line address.now fault) (record { taken = N.taken notes.old; faults = N.faults notes.old }) (record { taken = N.taken notes.new; faults = N.faults notes.new }) }
{
    put_address(notes, address.as_str(), cause_of(fault));
}

fn sockets_note(ending: Result<u64, ServeEnd>) -> Option<Note>
    ensures note { result ≡ sockets_note ending }
{
    match ending {
        Ok(_) => None,
        Err(ServeEnd::TurnsSpent) => None,
        Err(ServeEnd::WireFault) => Some(Note::SocketsFault),
        Err(ServeEnd::NoMemory) => None,
    }
}

/// Notes that the sockets failed, where they ended the run of events.
pub fn note_sockets<N: Sink>(notes: &mut N, ending: Result<u64, ServeEnd>)
    ensures noted { NotedIf (sockets_note ending) (record { taken = N.taken notes.old; faults = N.faults notes.old }) (record { taken = N.taken notes.new; faults = N.faults notes.new }) }
{
    put_note(notes, sockets_note(ending));
}

fn end_note(status: ServeStatus) -> Option<Note>
    ensures note { result ≡ end_note status }
{
    match status {
        ServeStatus::Stopped => None,
        ServeStatus::WriteFault => Some(Note::OutputUnwritten),
        ServeStatus::NoMemory => Some(Note::NoMemory),
        ServeStatus::WireFault => None,
        ServeStatus::TurnsSpent => Some(Note::TurnsSpent),
    }
}

/// Notes what the status says, but for what was noted where it came: that an address or the sockets failed.
pub fn note_end<N: Sink>(notes: &mut N, status: ServeStatus)
    ensures noted { NotedIf (end_note status) (record { taken = N.taken notes.old; faults = N.faults notes.old }) (record { taken = N.taken notes.new; faults = N.faults notes.new }) }
{
    put_note(notes, end_note(status));
}

fn rollout_note(status: RolloutStatus) -> Option<Note>
    ensures note { result ≡ rollout_note status }
{
    match status {
        RolloutStatus::Served(status) => end_note(status),
        RolloutStatus::TooLarge => Some(Note::RolloutTooLarge),
    }
}

/// The same of a run with a rollout.
pub fn note_rollout_end<N: Sink>(notes: &mut N, status: RolloutStatus)
    ensures noted { NotedIf (rollout_note status) (record { taken = N.taken notes.old; faults = N.faults notes.old }) (record { taken = N.taken notes.new; faults = N.faults notes.new }) }
{
    put_note(notes, rollout_note(status));
}
