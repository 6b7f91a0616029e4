//! What waits for an agent, told.

ghost use Rattle.std.specs.Prelude.{◌≡◌, ◌++◌, IfOk, OnOk, unwrap_or};
ghost use Rattle.std.specs.Option.{option_copied};
ghost use Rattle.std.specs.String.{string_bytes};
ghost use Rattle.server_core.specs.Offers.{names, no_offers};
ghost use Rattle.server_lines.specs.Answers.{config_waits, connection_waits, hash_line, offers_wait, packages_wait, text_of_waits};

use message_values::{
    AgentRemoteConfig, ConnectionSettingsOffers, PackageStatuses, PackagesAvailable,
    RemoteConfigStatus,
};
use plain_values::{Blob, NoMemory, Text};
use server_core::{Offers, Record};
use std::alloc::Global;

#[tactic(auto, unfolding(crate::specs::Answers::hash_line))]
fn put_hash(alloc: Global, text: &mut String, kind: &str, hash: &Blob) -> Result<(), NoMemory>
    ensures ok { OnOk result (string_bytes text.new ≡ string_bytes text.old ++ hash_line kind.now hash.now) }
{
    let digits = hex::encode(alloc, hash.as_slice())?;
    write!(text, "{kind} {digits}\n")?;
    Ok(())
}

fn is_named(told: Option<&Blob>, hash: &Blob) -> bool
    ensures named { result ≡ names (option_copied told.entry) hash.now }
{
    match told {
        Some(named) => named.as_slice() == hash.as_slice(),
        None => false,
    }
}

fn put_config(
    alloc: Global,
    text: &mut String,
    status: &Option<RemoteConfigStatus>,
    standing: &Option<AgentRemoteConfig>,
) -> Result<(), NoMemory>
    ensures ok { OnOk result (string_bytes text.new ≡ string_bytes text.old ++ config_waits status.now standing.now) }
{
    let Some(offer) = standing else {
        return Ok(());
    };
    let told = match status {
        Some(status) => Some(&status.last_remote_config_hash),
        None => None,
    };
    if is_named(told, &offer.config_hash) {
        return Ok(());
    }
    put_hash(alloc, text, "config", &offer.config_hash)
}

fn put_packages(
    alloc: Global,
    text: &mut String,
    status: &Option<PackageStatuses>,
    standing: &Option<PackagesAvailable>,
) -> Result<(), NoMemory>
    ensures ok { OnOk result (string_bytes text.new ≡ string_bytes text.old ++ packages_wait status.now standing.now) }
{
    let Some(offer) = standing else {
        return Ok(());
    };
    let told = match status {
        Some(status) => Some(&status.server_provided_all_packages_hash),
        None => None,
    };
    if is_named(told, &offer.all_packages_hash) {
        return Ok(());
    }
    put_hash(alloc, text, "packages", &offer.all_packages_hash)
}

fn put_connection(
    alloc: Global,
    text: &mut String,
    standing: &Option<ConnectionSettingsOffers>,
) -> Result<(), NoMemory>
    ensures ok { OnOk result (string_bytes text.new ≡ string_bytes text.old ++ connection_waits standing.now) }
{
    match standing {
        Some(offer) => put_hash(alloc, text, "connection", &offer.hash),
        None => Ok(()),
    }
}

fn put_offers(
    alloc: Global,
    text: &mut String,
    agent: &Record,
    offers: &Offers,
) -> Result<(), NoMemory>
    ensures ok { OnOk result (string_bytes text.new ≡ string_bytes text.old ++ offers_wait agent.now offers.now) }
{
    put_config(alloc, text, &agent.state.remote, &offers.config)?;
    put_packages(alloc, text, &agent.state.packages, &offers.packages)?;
    put_connection(alloc, text, &offers.connection)
}

// The offers that stand, of which there may be none.
fn put_standing(
    alloc: Global,
    text: &mut String,
    agent: &Record,
    standing: Option<&Offers>,
) -> Result<(), NoMemory>
    ensures ok { OnOk result (string_bytes text.new ≡ string_bytes text.old ++ offers_wait agent.now (unwrap_or (option_copied standing.entry) no_offers)) }
{
    match standing {
        Some(offers) => put_offers(alloc, text, agent, offers),
        None => Ok(()),
    }
}

/// What waits for the agent, of the offers that stand for it and whether a restart waits, and `end`; or that the agent is unknown.
#[tactic(auto, unfolding(crate::specs::Answers::text_of_waits))]
pub fn waits_text(
    alloc: Global,
    agent: Option<&Record>,
    standing: Option<&Offers>,
    restart: bool,
) -> Result<Text, NoMemory>
    ensures text { IfOk result (λ text. text ≡ text_of_waits (option_copied agent.entry) (unwrap_or (option_copied standing.entry) no_offers) restart) }
{
    let Some(agent) = agent else {
        return Text::from_str(alloc, "refused: unknown agent\n");
    };
    let mut text = String::new(alloc);
    put_standing(alloc, &mut text, agent, standing)?;
    text.push_str(if restart { "restart\nend\n" } else { "end\n" })?;
    Ok(Text::of(text))
}
