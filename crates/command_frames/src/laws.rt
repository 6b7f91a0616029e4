//! Laws over what the commands make of their input, and their numbers. No function here does anything: each stands for its clauses, and calls the laws of
//! other crates that it rests on.

ghost use Rattle.std.specs.Prelude.{◌≡◌, ◌↔◌, ℕ, List, Option, Some};
ghost use Rattle.message_codec.specs.Fields.{AreBytes};
ghost use Rattle.command_streams.specs.declared.stop.Stop.{Stop};
ghost use Rattle.command_streams.specs.Made.{IsSingleValued};
ghost use Rattle.command_streams.specs.Reading.{Step};
ghost use Rattle.command_streams.specs.Output.{EndsBy};
ghost use Rattle.command_streams.specs.Telling.{IsTotal};
ghost use Rattle.command_frames.specs.declared.commands.StreamCommand.{StreamCommand};
ghost use Rattle.command_frames.specs.declared.running.TheConstants.{BUDGET};
ghost use Rattle.command_frames.specs.declared.answer.TheConstants.{ANSWERING_CAPABILITIES};
ghost use Rattle.command_frames.specs.declared.canon.TheConstants.{MOST_LEVELS};
ghost use Rattle.command_frames.specs.Outcomes.{StreamEnds, StreamOutcome};
ghost use Rattle.command_frames.specs.Commands.{StateOf, makes, form_of, RunsStream, ReadsAs, HasNoFault, IsValidInput};

use crate::answer::Answer;
use crate::canon::Canon;
use crate::check::Check;
use crate::show::Show;
use message_replies::laws::{one_reply, reply_fault, reply_or_fault};
use message_reports::laws::{one_report, report_fault, report_or_fault};
use message_values::{AgentToServer, ServerToAgent};

/// Law: how many bytes of the source are taken at most, the capabilities of the server that answers, and the most levels of a message that is rewritten.
pub fn stream_limits()
    ensures budget { BUDGET ≡ 1099511627776 }
    ensures capabilities { ANSWERING_CAPABILITIES ≡ 5 }
    ensures levels { MOST_LEVELS ≡ 100 }
{}

/// Law: of a message in a state each command makes one thing, and one state comes after it.
pub fn one_thing_is_made()
    ensures once { (command : StreamCommand) → IsSingleValued (makes command) }
{
    one_report();
    report_fault();
    one_reply();
    reply_fault();
}

/// Law: of each message in each state each command makes something.
pub fn something_is_made()
    ensures total { (command : StreamCommand) → IsTotal (makes command) }
{
    report_or_fault();
    reply_or_fault();
}

/// Law: by each command each list of bytes has one reading, with one stop.
pub fn one_reading()
    ensures some { (command : StreamCommand) (budget : ℕ) (bytes : List ℕ) → AreBytes bytes
        → (steps : List (Step (StateOf command))) × (stop : Stop) × ReadsAs command budget bytes steps stop }
    ensures one { (command : StreamCommand) (budget : ℕ) (bytes : List ℕ) (a b : List (Step (StateOf command))) (stop_a stop_b : Stop)
        → ReadsAs command budget bytes a stop_a → ReadsAs command budget bytes b stop_b → (a ≡ b) × (stop_a ≡ stop_b) }
{
    one_thing_is_made();
    something_is_made();
    command_streams::some_reading::<Answer>();
    command_streams::some_reading::<Canon<AgentToServer>>();
    command_streams::some_reading::<Canon<ServerToAgent>>();
    command_streams::some_reading::<Show<AgentToServer>>();
    command_streams::some_reading::<Show<ServerToAgent>>();
    command_streams::some_reading::<Check>();
    command_streams::one_reading::<Answer>();
    command_streams::one_reading::<Canon<AgentToServer>>();
    command_streams::one_reading::<Canon<ServerToAgent>>();
    command_streams::one_reading::<Show<AgentToServer>>();
    command_streams::one_reading::<Show<ServerToAgent>>();
    command_streams::one_reading::<Check>();
}

/// Law: a run of a command over an input that is told ends by the input's one reading, or by a fault of the source, a fault of the sink or want of memory.
pub fn one_ending()
    ensures ending { (command : StreamCommand) (budget : ℕ) (bytes : List ℕ) (steps : List (Step (StateOf command))) (stop : Stop) (old new : Option (List ℕ)) (status : ℕ)
        → ReadsAs command budget bytes steps stop → RunsStream command budget (Some bytes) old new status → EndsBy (form_of command) steps stop old new status }
{
    one_thing_is_made();
    command_streams::one_ending::<Answer>();
    command_streams::one_ending::<Canon<AgentToServer>>();
    command_streams::one_ending::<Canon<ServerToAgent>>();
    command_streams::one_ending::<Show<AgentToServer>>();
    command_streams::one_ending::<Show<ServerToAgent>>();
    command_streams::one_ending::<Check>();
}

/// Law: the bytes are frames of messages that the command takes, fewer than the budget, exactly where they are fewer than the budget and have no fault.
pub fn valid_inputs()
    ensures same { (command : StreamCommand) (budget : ℕ) (bytes : List ℕ) → AreBytes bytes
        → (IsValidInput command budget bytes ↔ HasNoFault command budget bytes) }
{
    one_reading();
}

/// Law: want of memory before anything is read or written is an ending of each command.
pub fn nothing_is_read()
    ensures outcome { (command : StreamCommand) (ends : StreamEnds) → StreamOutcome command ends ends 5 }
{}
