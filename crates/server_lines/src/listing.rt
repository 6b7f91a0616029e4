//! What is told of agents.

ghost use Rattle.std.specs.Prelude.{◌≡◌, ◌++◌, IfOk, OnOk};
ghost use Rattle.std.specs.Option.{option_copied};
ghost use Rattle.std.specs.String.{string_bytes};
ghost use Rattle.message_deltas.specs.Deltas.{whole_report};
ghost use Rattle.message_texts.specs.Texts.{text_of_report};
ghost use Rattle.server_lines.specs.Answers.{presence, fares, record_line, text_of_list, text_of_record};

use message_deltas::full;
use message_texts::show_report;
use message_values::ComponentHealth;
use plain_values::{NoMemory, Text, Uid};
use server_core::Record;
use std::alloc::Global;
use uuid::Uuid;

fn presence(left: bool) -> &'static str
    ensures { result.now ≡ presence left }
{
    if left { "left" } else { "here" }
}

fn fares(health: &Option<ComponentHealth>) -> &'static str
    ensures { result.now ≡ fares health.now }
{
    match health {
        Some(health) if health.healthy => "healthy",
        Some(_) => "unhealthy",
        None => "unknown",
    }
}

/// The identifier as `uuid` prints it.
pub fn uuid_of(uid: &Uid) -> Uuid
    ensures { result ≡ uid.now }
{
    let mut bytes = [0; 16];
    bytes.copy_from_slice(uid.as_slice());
    Uuid::from_bytes(bytes)
}

#[tactic(auto, unfolding(crate::specs::Answers::record_line))]
fn put_line(text: &mut String, agent: &Record) -> Result<(), NoMemory>
    ensures ok { OnOk result (string_bytes text.new ≡ string_bytes text.old ++ record_line agent.now) }
{
    let uid = uuid_of(&agent.uid);
    let number = agent.number;
    let presence = presence(agent.left);
    let fares = fares(&agent.state.health);
    write!(text, "{uid} {number} {presence} {fares}\n")?;
    Ok(())
}

/// The lines of all agents, and `end`.
#[tactic(auto, unfolding(crate::specs::Answers::text_of_list))]
pub fn list_text(alloc: Global, agents: &[Record]) -> Result<Text, NoMemory>
    ensures text { IfOk result (λ text. text ≡ text_of_list agents.now) }
{
    let mut text = String::new(alloc);
    for agent in agents {
        put_line(&mut text, agent)?;
    }
    text.push_str("end\n")?;
    Ok(Text::of(text))
}

// The text of the whole report of what is kept of an agent.
fn report_text(alloc: Global, agent: &Record) -> Result<Text, NoMemory>
    ensures text { IfOk result (λ text. text ≡ text_of_report (whole_report agent.now.uid agent.now.number agent.now.state None)) }
{
    let report = full(alloc, &agent.uid, agent.number, &agent.state, None)?;
    show_report(alloc, &report)
}

/// The state that the agent reported, as the text of a whole report, and `end`; or that the agent is unknown.
#[tactic(auto, unfolding(crate::specs::Answers::text_of_record))]
pub fn record_text(alloc: Global, agent: Option<&Record>) -> Result<Text, NoMemory>
    ensures text { IfOk result (λ text. text ≡ text_of_record (option_copied agent.entry)) }
{
    let Some(agent) = agent else {
        return Text::from_str(alloc, "refused: unknown agent\n");
    };
    let shown = report_text(alloc, agent)?;
    let shown = shown.as_str();
    Ok(Text::of(format!(in alloc; "{shown}end\n")?))
}
