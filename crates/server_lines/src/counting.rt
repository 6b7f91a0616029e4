//! How many there are, told.

ghost use Rattle.std.specs.Prelude.{◌≡◌, ◌++◌, IfOk, OnOk, unwrap_or};
ghost use Rattle.std.specs.Option.{option_copied};
ghost use Rattle.std.specs.String.{string_bytes};
ghost use Rattle.server_core.specs.Offers.{no_offers};
ghost use Rattle.server_lines.specs.Answers.{agents_told, fleet_of, is_healthy, is_unhealthy, kinds_in, others_told, text_of_totals, totals_of};

use message_values::ComponentHealth;
use plain_values::{NoMemory, Text};
use server_core::Offers;
use server_waves::ServerDesk;
use std::alloc::Global;

/// How many there are of each.
#[derive(Clone, Copy, Debug, PartialEq, Eq)]
pub struct Totals {
    /// The agents that are held.
    pub agents: u64,
    /// Those that haven't left.
    pub here: u64,
    /// Those whose last health is a good one.
    pub healthy: u64,
    /// Those whose last health isn't.
    pub unhealthy: u64,
    /// The connections that are known.
    pub connections: u64,
    /// The reports that were taken.
    pub reports: u64,
    /// The offers that stand.
    pub orders: u64,
    /// The rollouts.
    pub rollouts: u64,
}

fn is_healthy(health: &Option<ComponentHealth>) -> bool
    ensures healthy { result ≡ is_healthy health.now }
{
    match health {
        Some(health) => health.healthy,
        None => false,
    }
}

fn is_unhealthy(health: &Option<ComponentHealth>) -> bool
    ensures unhealthy { result ≡ is_unhealthy health.now }
{
    match health {
        Some(health) => !health.healthy,
        None => false,
    }
}

// The kinds of which there is an offer.
fn kinds_in(offers: &Offers) -> u64
    ensures kinds { result ≡ kinds_in offers.now }
{
    u64::from(offers.config.is_some())
        + u64::from(offers.packages.is_some())
        + u64::from(offers.connection.is_some())
}

// The same of the offers that stand for an agent, of which there may be none.
fn kinds_standing(standing: Option<&Offers>) -> u64
    ensures kinds { result ≡ kinds_in (unwrap_or (option_copied standing.entry) no_offers) }
{
    match standing {
        Some(offers) => kinds_in(offers),
        None => 0,
    }
}

/// How many there are of each, where so many reports were taken and so many connections are known. Takes no memory.
pub fn totals_of(desk: &ServerDesk, reports: u64, connections: u64) -> Totals
    ensures totals { result ≡ totals_of (fleet_of desk.now.server.table desk.now.rollouts) reports connections }
{
    let agents = desk.server.list();
    let mut here = 0;
    let mut healthy = 0;
    let mut unhealthy = 0;
    let mut orders = 0;
    for agent in agents {
        here += u64::from(!agent.left);
        healthy += u64::from(is_healthy(&agent.state.health));
        unhealthy += u64::from(is_unhealthy(&agent.state.health));
        orders += kinds_standing(desk.server.standing(&agent.uid));
    }
    Totals {
        agents: agents.len() as u64,
        here,
        healthy,
        unhealthy,
        connections,
        reports,
        orders,
        rollouts: desk.rollouts.list().len() as u64,
    }
}

#[tactic(auto, unfolding(crate::specs::Answers::agents_told))]
fn put_agents(text: &mut String, totals: &Totals) -> Result<(), NoMemory>
    ensures ok { OnOk result (string_bytes text.new ≡ string_bytes text.old ++ agents_told totals.now) }
{
    let agents = totals.agents;
    let here = totals.here;
    let healthy = totals.healthy;
    let unhealthy = totals.unhealthy;
    write!(
        text,
        "agents {agents}\nhere {here}\nhealthy {healthy}\nunhealthy {unhealthy}\n"
    )?;
    Ok(())
}

#[tactic(auto, unfolding(crate::specs::Answers::others_told))]
fn put_others(text: &mut String, totals: &Totals) -> Result<(), NoMemory>
    ensures ok { OnOk result (string_bytes text.new ≡ string_bytes text.old ++ others_told totals.now) }
{
    let connections = totals.connections;
    let reports = totals.reports;
    let orders = totals.orders;
    let rollouts = totals.rollouts;
    write!(
        text,
        "connections {connections}\nreports {reports}\norders {orders}\nrollouts {rollouts}\n"
    )?;
    Ok(())
}

/// The numbers, a line each, and `end`.
#[tactic(auto, unfolding(crate::specs::Answers::text_of_totals))]
pub fn totals_text(alloc: Global, totals: &Totals) -> Result<Text, NoMemory>
    ensures text { IfOk result (λ text. text ≡ text_of_totals totals.now) }
{
    let mut text = String::new(alloc);
    put_agents(&mut text, totals)?;
    put_others(&mut text, totals)?;
    text.push_str("end\n")?;
    Ok(Text::of(text))
}
