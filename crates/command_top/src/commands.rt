//! What the words ask for.

ghost use Rattle.std.specs.Prelude.{◌≡◌, IfOk, IsErrOf};
ghost use Rattle.command_words.specs.Meaning.{AreWords, NameNone};
ghost use Rattle.command_words.specs.declared.reading.WordsFail.TheVariants as WordsWhy;
ghost use Rattle.command_top.specs.Words.{CanBegin, asked_by};

use command_frames::StreamCommand;
use command_words::{
    AgentOptions, Command, Family, RolloutOptions, ServeOptions, WordsFail, named_values,
    read_words,
};
use plain_values::Text;
use std::alloc::Global;

/// What one thread is to do.
#[derive(Drop)]
pub enum Task {
    /// A command over framed messages.
    Stream(StreamCommand),
    /// `simulate`: the transcript of a script.
    Simulate,
    /// `storm`: the summary of a script that is drawn.
    Storm {
        /// Where the generator of its lines begins.
        start: u64,
        /// How many lines it has.
        count: u64,
    },
    /// `serve`: a server for agents and operators.
    Serve(ServeOptions),
    /// `serve --rollout`: the same with a rollout.
    Rollout(ServeOptions, RolloutOptions),
    /// `agent`: an agent that reports to a server.
    Agent(AgentOptions),
}

/// What the words ask for.
#[derive(Drop)]
pub enum Job {
    /// `fleet`: the journals of framed reports, which `desks` desks have handled, each in a thread of its own.
    Fleet {
        /// How many desks there are.
        desks: u64,
    },
    /// Every other command.
    Task(Task),
}

// What the command is.
fn job_of(command: Command) -> Job
    ensures job { asked_by result ≡ command }
{
    match command {
        Command::Answer => Job::Task(Task::Stream(StreamCommand::Answer)),
        Command::Canon(Family::Report) => Job::Task(Task::Stream(StreamCommand::CanonReport)),
        Command::Canon(Family::Reply) => Job::Task(Task::Stream(StreamCommand::CanonReply)),
        Command::Show(Family::Report) => Job::Task(Task::Stream(StreamCommand::ShowReport)),
        Command::Show(Family::Reply) => Job::Task(Task::Stream(StreamCommand::ShowReply)),
        Command::Check => Job::Task(Task::Stream(StreamCommand::Check)),
        Command::Simulate => Job::Task(Task::Simulate),
        Command::Storm { start, count } => Job::Task(Task::Storm { start, count }),
        Command::Serve(options) => Job::Task(Task::Serve(options)),
        Command::Rollout(options, told) => Job::Task(Task::Rollout(options, told)),
        Command::Agent(options) => Job::Task(Task::Agent(options)),
        Command::Fleet { desks } => Job::Fleet { desks },
    }
}

/// What the words ask for: Refused exactly where they name no command.
pub fn read_job(alloc: Global, words: &[Text]) -> Result<Job, WordsFail>
    ensures read { IfOk result (λ job. AreWords words.now (asked_by job)) }
    ensures can_begin { IfOk result CanBegin }
    ensures refused { IsErrOf result WordsWhy.Refused → NameNone words.now }
{
    named_values();
    match read_words(alloc, words) {
        Ok(command) => Ok(job_of(command)),
        Err(fail) => Err(fail),
    }
}
