//! What is done with rollouts, carried out and answered.

ghost use Rattle.std.specs.Prelude.{◌≡◌, IfOk, OnErr, IsErr, Ok};
ghost use Rattle.server_lines.specs.declared.orders.Order.TheVariants as order;
ghost use Rattle.server_lines.specs.declared.orders.Steering.TheVariants as steering;
ghost use Rattle.server_lines.specs.Answers.{RunsOrder, answer_where_there, fleet_of, ok_line, words_of_begin};
ghost use Rattle.server_lines.specs.Sights.{Sight};

use crate::answers::text_of;
use crate::orders::Steering;
use plain_values::{AgentConfigMap, NoMemory, Text};
use server_waves::{BeginFail, Finder, Rollouts, ServerDesk};
use std::alloc::Global;

// The answer that tells what became of a rollout's begin. That of Ok was made beforehand.
#[tactic(auto, unfolding(crate::specs::Answers::words_of_begin))]
fn outcome_of_begin(alloc: Global, ok: Text, done: Result<(), BeginFail>) -> Result<Text, NoMemory>
    requires ok { ok ≡ ok_line }
    ensures words { IfOk result (λ text. text ≡ words_of_begin done) }
    ensures err { OnErr result (IsErr done) }
{
    match done {
        Ok(()) => Ok(ok),
        Err(BeginFail::There) => text_of(alloc, "refused: rollout there\n"),
        Err(BeginFail::TooMany) => text_of(alloc, "refused: too many rollouts\n"),
        Err(BeginFail::TooLarge) => text_of(alloc, "refused: too large\n"),
        Err(BeginFail::NoMemory) => text_of(alloc, "refused: no memory\n"),
    }
}

// Begins the rollout, and tells what became of it.
fn begin(
    alloc: Global,
    desk: &mut ServerDesk,
    id: Text,
    width: u64,
    allowed: u64,
    finder: Option<Finder>,
    files: AgentConfigMap,
) -> Result<Text, NoMemory>
    ensures run { (sight : Sight) → IfOk result (λ text. RunsOrder sight (fleet_of desk.old.server.table desk.old.rollouts) (order.Steer id (steering.Begin width allowed finder files)) text (fleet_of desk.new.server.table desk.new.rollouts)) }
    ensures profile { desk.new.server.profile ≡ desk.old.server.profile }
    ensures err { OnErr result (fleet_of desk.new.server.table desk.new.rollouts ≡ fleet_of desk.old.server.table desk.old.rollouts) }
{
    let ok = text_of(alloc, "ok\n")?;
    let done = desk
        .rollouts
        .begin(alloc, &desk.server, id, finder, files, width, allowed);
    outcome_of_begin(alloc, ok, done)
}

// Whether a rollout of this name is there, in words. It is told beforehand, since what is done then takes no memory.
#[tactic(auto, unfolding(crate::specs::Answers::answer_where_there))]
fn where_there(alloc: Global, rollouts: &Rollouts, id: &Text) -> Result<Text, NoMemory>
    ensures text { IfOk result (λ text. text ≡ answer_where_there rollouts.now id.now) }
{
    if rollouts.find(id).is_some() {
        text_of(alloc, "ok\n")
    } else {
        text_of(alloc, "refused: no rollout\n")
    }
}

#[tactic(auto, unfolding(crate::specs::Answers::RunsOrder))]
fn halt(alloc: Global, desk: &mut ServerDesk, id: Text) -> Result<Text, NoMemory>
    ensures run { (sight : Sight) → IfOk result (λ text. RunsOrder sight (fleet_of desk.old.server.table desk.old.rollouts) (order.Steer id steering.Halt) text (fleet_of desk.new.server.table desk.new.rollouts)) }
    ensures profile { desk.new.server.profile ≡ desk.old.server.profile }
    ensures err { OnErr result (fleet_of desk.new.server.table desk.new.rollouts ≡ fleet_of desk.old.server.table desk.old.rollouts) }
{
    let text = where_there(alloc, &desk.rollouts, &id)?;
    desk.rollouts.halt(&id);
    Ok(text)
}

#[tactic(auto, unfolding(crate::specs::Answers::RunsOrder))]
fn resume(alloc: Global, desk: &mut ServerDesk, id: Text) -> Result<Text, NoMemory>
    ensures run { (sight : Sight) → IfOk result (λ text. RunsOrder sight (fleet_of desk.old.server.table desk.old.rollouts) (order.Steer id steering.Resume) text (fleet_of desk.new.server.table desk.new.rollouts)) }
    ensures profile { desk.new.server.profile ≡ desk.old.server.profile }
    ensures err { OnErr result (fleet_of desk.new.server.table desk.new.rollouts ≡ fleet_of desk.old.server.table desk.old.rollouts) }
{
    let text = where_there(alloc, &desk.rollouts, &id)?;
    desk.rollouts.resume(&id);
    Ok(text)
}

#[tactic(auto, unfolding(crate::specs::Answers::RunsOrder))]
fn finish(alloc: Global, desk: &mut ServerDesk, id: Text) -> Result<Text, NoMemory>
    ensures run { (sight : Sight) → IfOk result (λ text. RunsOrder sight (fleet_of desk.old.server.table desk.old.rollouts) (order.Steer id steering.Finish) text (fleet_of desk.new.server.table desk.new.rollouts)) }
    ensures profile { desk.new.server.profile ≡ desk.old.server.profile }
    ensures err { OnErr result (fleet_of desk.new.server.table desk.new.rollouts ≡ fleet_of desk.old.server.table desk.old.rollouts) }
{
    let text = where_there(alloc, &desk.rollouts, &id)?;
    desk.rollouts.finish(&id);
    Ok(text)
}

/// Does something with the rollout of this name, and tells what became of it.
pub fn steer(
    alloc: Global,
    desk: &mut ServerDesk,
    id: Text,
    steering: Steering,
) -> Result<Text, NoMemory>
    ensures run { (sight : Sight) → IfOk result (λ text. RunsOrder sight (fleet_of desk.old.server.table desk.old.rollouts) (order.Steer id steering) text (fleet_of desk.new.server.table desk.new.rollouts)) }
    ensures profile { desk.new.server.profile ≡ desk.old.server.profile }
    ensures err { OnErr result (fleet_of desk.new.server.table desk.new.rollouts ≡ fleet_of desk.old.server.table desk.old.rollouts) }
{
    match steering {
        Steering::Begin {
            width,
            allowed,
            finder,
            files,
        } => begin(alloc, desk, id, width, allowed, finder, files),
        Steering::Halt => halt(alloc, desk, id),
        Steering::Resume => resume(alloc, desk, id),
        Steering::Finish => finish(alloc, desk, id),
    }
}
