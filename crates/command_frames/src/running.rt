//! The commands over framed messages, with the program's status.

ghost use Rattle.std.specs.Prelude.{◌≡◌, []};
ghost use Rattle.edge_devices.specs.Faults.{HasRisen};
ghost use Rattle.command_streams.specs.Output.{Framed};
ghost use Rattle.command_streams.specs.Replies.{WritesAllTaken, WritesBeforeLast};
ghost use Rattle.command_frames.specs.declared.commands.StreamCommand.{StreamCommand};
ghost use Rattle.command_frames.specs.Commands.{makes, opening, RunsStream, AnswersStream, CanonicalStream, CheckedStream, ShownStream};
ghost use Rattle.command_frames.specs.Answering.{Replies};
ghost use Rattle.command_frames.specs.Outcomes.{StreamOutcome};
ghost use Rattle.command_frames.specs.Rewriting.{Rewrites};
ghost use Rattle.command_frames.specs.Showing.{Shows};
ghost use Rattle.command_frames.specs.Checking.{Checks};

use crate::answer::Answer;
use crate::canon::Canon;
use crate::check::Check;
use crate::commands::StreamCommand;
use crate::families::Outermost;
use crate::laws::one_ending;
use crate::show::Show;
use command_streams::{Handler, OutputForm, run, run_is_told, status};
use edge_devices::{Sink, Source};
use message_values::{AgentToServer, ServerToAgent};
use server_core::table_follows_history;
use std::alloc::Global;

/// How many bytes of the source are taken at most.
pub const BUDGET: u64 = 1_099_511_627_776;

// Runs a command by its handler.
fn run_by<S: Source, K: Sink, H: Handler>(
    alloc: Global,
    source: &mut S,
    sink: &mut K,
    handler: &mut H,
    form: OutputForm,
) -> u8
    requires fresh { H.counted handler.old ≡ 0 }
    ensures framed { Framed form H.gives handler.old BUDGET (S.left source.old) (K.taken sink.old) (K.taken sink.new) result }
    ensures no_wrong_words { result ≡ 2 → ⊥ }
    ensures no_store_fault { result ≡ 6 → ⊥ }
    ensures no_outside_fault { result ≡ 8 → ⊥ }
    ensures read_fault { result ≡ 3 → HasRisen (S.faults source.old) (S.faults source.new) }
    ensures before_read_fault { result ≡ 3 → WritesAllTaken H.gives handler.old (S.left source.old) (S.left source.new) (K.taken sink.old) (K.taken sink.new) }
    ensures taken { WritesBeforeLast H.gives handler.old BUDGET (S.left source.old) (S.left source.new) (K.taken sink.old) (K.taken sink.new) }
    ensures write_fault { result ≡ 4 → HasRisen (K.faults sink.old) (K.faults sink.new) }
{
    status(run(alloc, source, sink, handler, form, BUDGET))
}

// Answers each report.
fn run_answer<S: Source, K: Sink>(alloc: Global, source: &mut S, sink: &mut K) -> u8
    ensures answers { AnswersStream BUDGET (S.left source.old) (K.taken sink.old) (K.taken sink.new) result }
    ensures no_wrong_words { result ≡ 2 → ⊥ }
    ensures no_store_fault { result ≡ 6 → ⊥ }
    ensures no_outside_fault { result ≡ 8 → ⊥ }
    ensures read_fault { result ≡ 3 → HasRisen (S.faults source.old) (S.faults source.new) }
    ensures before_read_fault { result ≡ 3 → WritesAllTaken Replies [] (S.left source.old) (S.left source.new) (K.taken sink.old) (K.taken sink.new) }
    ensures taken { WritesBeforeLast Replies [] BUDGET (S.left source.old) (S.left source.new) (K.taken sink.old) (K.taken sink.new) }
    ensures write_fault { result ≡ 4 → HasRisen (K.faults sink.old) (K.faults sink.new) }
{
    run_is_told::<Answer>();
    table_follows_history();
    let mut answer = Answer::new(alloc);
    run_by(alloc, source, sink, &mut answer, OutputForm::Frames)
}

// Rewrites each message.
fn run_canon<S: Source, K: Sink, M: Outermost>(alloc: Global, source: &mut S, sink: &mut K) -> u8
    ensures canonical { CanonicalStream M.family BUDGET (S.left source.old) (K.taken sink.old) (K.taken sink.new) result }
    ensures no_wrong_words { result ≡ 2 → ⊥ }
    ensures no_store_fault { result ≡ 6 → ⊥ }
    ensures no_outside_fault { result ≡ 8 → ⊥ }
    ensures read_fault { result ≡ 3 → HasRisen (S.faults source.old) (S.faults source.new) }
    ensures before_read_fault { result ≡ 3 → WritesAllTaken {State = Unit {0}} (Rewrites M.family) tt (S.left source.old) (S.left source.new) (K.taken sink.old) (K.taken sink.new) }
    ensures taken { WritesBeforeLast {State = Unit {0}} (Rewrites M.family) tt BUDGET (S.left source.old) (S.left source.new) (K.taken sink.old) (K.taken sink.new) }
    ensures write_fault { result ≡ 4 → HasRisen (K.faults sink.old) (K.faults sink.new) }
{
    run_is_told::<Canon<M>>();
    let mut canon = Canon::<M>::new();
    run_by(alloc, source, sink, &mut canon, OutputForm::Frames)
}

// Shows each message.
fn run_show<S: Source, K: Sink, M: Outermost>(alloc: Global, source: &mut S, sink: &mut K) -> u8
    ensures shown { ShownStream M.family BUDGET (S.left source.old) (K.taken sink.old) (K.taken sink.new) result }
    ensures no_wrong_words { result ≡ 2 → ⊥ }
    ensures no_store_fault { result ≡ 6 → ⊥ }
    ensures no_outside_fault { result ≡ 8 → ⊥ }
    ensures read_fault { result ≡ 3 → HasRisen (S.faults source.old) (S.faults source.new) }
    ensures before_read_fault { result ≡ 3 → WritesAllTaken (Shows M.family) 0 (S.left source.old) (S.left source.new) (K.taken sink.old) (K.taken sink.new) }
    ensures taken { WritesBeforeLast (Shows M.family) 0 BUDGET (S.left source.old) (S.left source.new) (K.taken sink.old) (K.taken sink.new) }
    ensures write_fault { result ≡ 4 → HasRisen (K.faults sink.old) (K.faults sink.new) }
{
    run_is_told::<Show<M>>();
    let mut show = Show::<M>::new();
    run_by(alloc, source, sink, &mut show, OutputForm::Lines)
}

// Checks each report.
fn run_check<S: Source, K: Sink>(alloc: Global, source: &mut S, sink: &mut K) -> u8
    ensures checked { CheckedStream BUDGET (S.left source.old) (K.taken sink.old) (K.taken sink.new) result }
    ensures no_wrong_words { result ≡ 2 → ⊥ }
    ensures no_store_fault { result ≡ 6 → ⊥ }
    ensures no_outside_fault { result ≡ 8 → ⊥ }
    ensures read_fault { result ≡ 3 → HasRisen (S.faults source.old) (S.faults source.new) }
    ensures before_read_fault { result ≡ 3 → WritesAllTaken Checks 0 (S.left source.old) (S.left source.new) (K.taken sink.old) (K.taken sink.new) }
    ensures taken { WritesBeforeLast Checks 0 BUDGET (S.left source.old) (S.left source.new) (K.taken sink.old) (K.taken sink.new) }
    ensures write_fault { result ≡ 4 → HasRisen (K.faults sink.old) (K.faults sink.new) }
{
    run_is_told::<Check>();
    let mut check = Check::new();
    run_by(alloc, source, sink, &mut check, OutputForm::Lines)
}

// Runs the command over framed messages.
fn run_stream<S: Source, K: Sink>(
    alloc: Global,
    command: StreamCommand,
    source: &mut S,
    sink: &mut K,
) -> u8
    ensures framed { RunsStream command BUDGET (S.left source.old) (K.taken sink.old) (K.taken sink.new) result }
    ensures no_wrong_words { result ≡ 2 → ⊥ }
    ensures no_store_fault { result ≡ 6 → ⊥ }
    ensures no_outside_fault { result ≡ 8 → ⊥ }
    ensures read_fault { result ≡ 3 → HasRisen (S.faults source.old) (S.faults source.new) }
    ensures before_read_fault { result ≡ 3 → WritesAllTaken (makes command) (opening command) (S.left source.old) (S.left source.new) (K.taken sink.old) (K.taken sink.new) }
    ensures taken { WritesBeforeLast (makes command) (opening command) BUDGET (S.left source.old) (S.left source.new) (K.taken sink.old) (K.taken sink.new) }
    ensures write_fault { result ≡ 4 → HasRisen (K.faults sink.old) (K.faults sink.new) }
{
    match command {
        StreamCommand::Answer => run_answer(alloc, source, sink),
        StreamCommand::CanonReport => run_canon::<S, K, AgentToServer>(alloc, source, sink),
        StreamCommand::CanonReply => run_canon::<S, K, ServerToAgent>(alloc, source, sink),
        StreamCommand::ShowReport => run_show::<S, K, AgentToServer>(alloc, source, sink),
        StreamCommand::ShowReply => run_show::<S, K, ServerToAgent>(alloc, source, sink),
        StreamCommand::Check => run_check(alloc, source, sink),
    }
}

/// Runs a command over the framed messages that the source gives, and gives the program's status: 0 done, 1 input refused, 3 read fault, 4 write fault, 5
/// want of memory, 9 budget spent, 11 a canonical form too large or too deep.
pub fn run_stream_command<S: Source, K: Sink>(
    alloc: Global,
    command: StreamCommand,
    source: &mut S,
    sink: &mut K,
) -> u8
    ensures outcome { StreamOutcome command
        (record { source = record { left = S.left source.old; faults = S.faults source.old }; sink = record { taken = K.taken sink.old; faults = K.faults sink.old } })
        (record { source = record { left = S.left source.new; faults = S.faults source.new }; sink = record { taken = K.taken sink.new; faults = K.faults sink.new } }) result }

    // 3 comes only where the source failed, and 4 where the sink did; 2, 6 and 8 never come.
    ensures read_fault { result ≡ 3 → HasRisen (S.faults source.old) (S.faults source.new) }
    ensures write_fault { result ≡ 4 → HasRisen (K.faults sink.old) (K.faults sink.new) }
    ensures no_wrong_words { result ≡ 2 → ⊥ }
    ensures no_store_fault { result ≡ 6 → ⊥ }
    ensures no_outside_fault { result ≡ 8 → ⊥ }
{
    one_ending();
    run_stream(alloc, command, source, sink)
}
