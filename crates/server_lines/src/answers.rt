//! Orders, carried out and answered.

ghost use Rattle.std.specs.Prelude.{◌≡◌, IfOk, OnErr, IsErr, Ok, filter, fold, if◌then◌else◌, map};
ghost use Rattle.server_waves.specs.Register.{all_without};
ghost use Rattle.server_lines.specs.declared.orders.Action.TheVariants as action;
ghost use Rattle.server_lines.specs.declared.orders.Order.TheVariants as order;
ghost use Rattle.server_lines.specs.Answers.{RunsOrder, answer_to_question, answer_where_held, fleet_of, ok_line, without_left, words_of};
ghost use Rattle.server_lines.specs.Sights.{Sight, numbers_in, sight_of};

use crate::ageing::ages_text;
use crate::counting::{totals_of, totals_text};
use crate::listing::{list_text, record_text};
use crate::orders::{Action, Order, Question};
use crate::sights::Sightings;
use crate::steered::steer;
use crate::telling::{members_text, rollouts_text};
use crate::waits::waits_text;
use plain_values::{NoMemory, Text, Uid};
use server_core::{Offer, OfferFail, Record, Server};
use server_waves::{Rollouts, ServerDesk};
use std::alloc::Global;
use std::collections::BTreeMap;

/// The text as one of its own.
pub fn text_of(alloc: Global, text: &str) -> Result<Text, NoMemory>
    ensures text { IfOk result (λ made. made ≡ text.now) }
{
    Text::from_str(alloc, text)
}

// The answer that tells what became of an offer or a restart. That of Ok was made beforehand, so that memory can't be
// wanting after something was done.
#[tactic(auto, unfolding(crate::specs::Answers::words_of))]
fn outcome(alloc: Global, ok: Text, done: Result<(), OfferFail>) -> Result<Text, NoMemory>
    requires ok { ok ≡ ok_line }
    ensures words { IfOk result (λ text. text ≡ words_of done) }
    ensures err { OnErr result (IsErr done) }
{
    match done {
        Ok(()) => Ok(ok),
        Err(OfferFail::UnknownAgent) => text_of(alloc, "refused: unknown agent\n"),
        Err(OfferFail::TooLarge) => text_of(alloc, "refused: too large\n"),
        Err(OfferFail::NoMemory) => text_of(alloc, "refused: no memory\n"),
    }
}

// Makes the offer, and tells what became of it.
fn offer(alloc: Global, desk: &mut ServerDesk, uid: Uid, offer: Offer) -> Result<Text, NoMemory>
    ensures run { (sight : Sight) → IfOk result (λ text. RunsOrder sight (fleet_of desk.old.server.table desk.old.rollouts) (order.Act uid (action.Offer offer)) text (fleet_of desk.new.server.table desk.new.rollouts)) }
    ensures profile { desk.new.server.profile ≡ desk.old.server.profile }
    ensures err { OnErr result (fleet_of desk.new.server.table desk.new.rollouts ≡ fleet_of desk.old.server.table desk.old.rollouts) }
{
    let ok = text_of(alloc, "ok\n")?;
    let done = desk.server.offer(&uid, offer);
    outcome(alloc, ok, done)
}

fn restart(alloc: Global, desk: &mut ServerDesk, uid: Uid) -> Result<Text, NoMemory>
    ensures run { (sight : Sight) → IfOk result (λ text. RunsOrder sight (fleet_of desk.old.server.table desk.old.rollouts) (order.Act uid action.Restart) text (fleet_of desk.new.server.table desk.new.rollouts)) }
    ensures profile { desk.new.server.profile ≡ desk.old.server.profile }
    ensures err { OnErr result (fleet_of desk.new.server.table desk.new.rollouts ≡ fleet_of desk.old.server.table desk.old.rollouts) }
{
    let ok = text_of(alloc, "ok\n")?;
    let done = desk.server.order_restart(&uid);
    outcome(alloc, ok, done)
}

fn withdraw(alloc: Global, desk: &mut ServerDesk, uid: Uid) -> Result<Text, NoMemory>
    ensures run { (sight : Sight) → IfOk result (λ text. RunsOrder sight (fleet_of desk.old.server.table desk.old.rollouts) (order.Act uid action.Withdraw) text (fleet_of desk.new.server.table desk.new.rollouts)) }
    ensures profile { desk.new.server.profile ≡ desk.old.server.profile }
    ensures err { OnErr result (fleet_of desk.new.server.table desk.new.rollouts ≡ fleet_of desk.old.server.table desk.old.rollouts) }
{
    let ok = text_of(alloc, "ok\n")?;
    let done = desk.server.withdraw(&uid);
    outcome(alloc, ok, done)
}

// Whether the agent is held, in words.
#[tactic(auto, unfolding(crate::specs::Answers::answer_where_held))]
fn where_held(alloc: Global, server: &Server, uid: &Uid) -> Result<Text, NoMemory>
    ensures text { IfOk result (λ text. text ≡ answer_where_held server.now.table uid.now) }
{
    if server.find(uid).is_some() {
        text_of(alloc, "ok\n")
    } else {
        text_of(alloc, "refused: unknown agent\n")
    }
}

// The agent leaves all rollouts, if it was held.
fn take_out_where(rollouts: &mut Rollouts, uid: &Uid, held: bool)
    ensures out { rollouts.new ≡ if held then all_without uid.now rollouts.old else rollouts.old }
{
    if held {
        rollouts.take_out(uid);
    }
}

// Forgets the agent, which leaves all rollouts. The answer is made beforehand, as that of each order whose doing takes no memory.
fn forget(alloc: Global, desk: &mut ServerDesk, uid: Uid) -> Result<Text, NoMemory>
    ensures run { (sight : Sight) → IfOk result (λ text. RunsOrder sight (fleet_of desk.old.server.table desk.old.rollouts) (order.Act uid action.Forget) text (fleet_of desk.new.server.table desk.new.rollouts)) }
    ensures profile { desk.new.server.profile ≡ desk.old.server.profile }
    ensures err { OnErr result (fleet_of desk.new.server.table desk.new.rollouts ≡ fleet_of desk.old.server.table desk.old.rollouts) }
{
    let text = where_held(alloc, &desk.server, &uid)?;
    let held = desk.server.forget(&uid);
    take_out_where(&mut desk.rollouts, &uid, held);
    Ok(text)
}

// The agent leaves all rollouts, where it has left.
fn take_out_where_left(agent: &Record, rollouts: &mut Rollouts)
    ensures left { rollouts.new ≡ without_left agent.now rollouts.old }
{
    if agent.left {
        rollouts.take_out(&agent.uid);
    }
}

// Those of the agents that have left leave all rollouts.
fn take_out_left(agents: &[Record], rollouts: &mut Rollouts)
    ensures left { rollouts.new ≡ fold (λ seen uid. all_without uid seen) rollouts.old (map (λ r. r.uid) (filter (λ r. r.left) agents.now)) }
{
    for agent in agents {
        take_out_where_left(agent, rollouts);
    }
}

// Forgets each agent that has left.
fn forget_left(alloc: Global, desk: &mut ServerDesk) -> Result<Text, NoMemory>
    ensures run { (sight : Sight) → IfOk result (λ text. RunsOrder sight (fleet_of desk.old.server.table desk.old.rollouts) order.ForgetLeft text (fleet_of desk.new.server.table desk.new.rollouts)) }
    ensures profile { desk.new.server.profile ≡ desk.old.server.profile }
    ensures err { OnErr result (fleet_of desk.new.server.table desk.new.rollouts ≡ fleet_of desk.old.server.table desk.old.rollouts) }
{
    let ok = text_of(alloc, "ok\n")?;
    take_out_left(desk.server.list(), &mut desk.rollouts);
    desk.server.forget_left();
    Ok(ok)
}

// The answer to a question.
#[tactic(auto, unfolding(crate::specs::Answers::answer_to_question))]
fn answer_to<V>(
    alloc: Global,
    desk: &ServerDesk,
    seen: &Sightings,
    known: &BTreeMap<u64, V>,
    question: Question,
) -> Result<Text, NoMemory>
    ensures text { IfOk result (λ text. text ≡ answer_to_question (sight_of seen.now (numbers_in known.now.entries)) (fleet_of desk.now.server.table desk.now.rollouts) question) }
{
    match question {
        Question::List => list_text(alloc, desk.server.list()),
        Question::Show { uid } => record_text(alloc, desk.server.find(&uid)),
        Question::Waits { uid } => {
            let restart = desk.server.restart_waits(&uid);
            waits_text(
                alloc,
                desk.server.find(&uid),
                desk.server.standing(&uid),
                restart,
            )
        }
        Question::Rollouts => rollouts_text(alloc, desk.rollouts.list()),
        Question::Members { id } => members_text(alloc, desk.rollouts.find(&id)),
        Question::Ages => ages_text(alloc, desk.server.list(), seen, known),
        Question::Count => {
            let totals = totals_of(desk, seen.reports(), known.len() as u64);
            totals_text(alloc, &totals)
        }
    }
}

// Does something for an agent, and tells what became of it.
fn act(alloc: Global, desk: &mut ServerDesk, uid: Uid, action: Action) -> Result<Text, NoMemory>
    ensures run { (sight : Sight) → IfOk result (λ text. RunsOrder sight (fleet_of desk.old.server.table desk.old.rollouts) (order.Act uid action) text (fleet_of desk.new.server.table desk.new.rollouts)) }
    ensures profile { desk.new.server.profile ≡ desk.old.server.profile }
    ensures err { OnErr result (fleet_of desk.new.server.table desk.new.rollouts ≡ fleet_of desk.old.server.table desk.old.rollouts) }
{
    match action {
        Action::Offer(made) => offer(alloc, desk, uid, made),
        Action::Restart => restart(alloc, desk, uid),
        Action::Withdraw => withdraw(alloc, desk, uid),
        Action::Forget => forget(alloc, desk, uid),
    }
}

/// Carries an order out, and gives the text of its answer. A question is asked over the server, its rollouts, what is seen of agents
/// and the known connections, which have these numbers.
///
/// Where memory is wanting the server and its rollouts are as they were: for an offer, in which the server takes it, and for a
/// rollout that begins, the text says so, and otherwise the call fails.
#[tactic(auto, unfolding(crate::specs::Answers::RunsOrder))]
pub fn run_order<V>(
    alloc: Global,
    desk: &mut ServerDesk,
    seen: &Sightings,
    known: &BTreeMap<u64, V>,
    order: Order,
) -> Result<Text, NoMemory>
    ensures run { IfOk result (λ text. RunsOrder (sight_of seen.now (numbers_in known.now.entries)) (fleet_of desk.old.server.table desk.old.rollouts) order text (fleet_of desk.new.server.table desk.new.rollouts)) }
    ensures profile { desk.new.server.profile ≡ desk.old.server.profile }
    ensures err { OnErr result (fleet_of desk.new.server.table desk.new.rollouts ≡ fleet_of desk.old.server.table desk.old.rollouts) }
{
    match order {
        Order::Ask(question) => answer_to(alloc, desk, seen, known, question),
        Order::Act { uid, action } => act(alloc, desk, uid, action),
        Order::Steer { id, steering } => steer(alloc, desk, id, steering),
        Order::ForgetLeft => forget_left(alloc, desk),
        Order::Stop => text_of(alloc, "ok\n"),
    }
}
