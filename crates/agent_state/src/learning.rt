//! What a reply teaches an agent, and what it asks.

ghost use Rattle.std.specs.Prelude.{◌≡◌, IfOk, bytes_eq};
ghost use Rattle.std.specs.Option.{option_and_then, option_copied};
ghost use Rattle.agent_rules.specs.Half.{AgentHalf};
ghost use Rattle.agent_rules.specs.Keeping.{new_uid, teaches_nothing};
ghost use Rattle.agent_rules.specs.Offers.{asked_by, config_due, offered_hash, offered_to, packages_due, refused_due, settings_due};

use crate::offers::{config_due, connection_due, packages_due, refused_due, settings_due};
use agent_rules::{LocalState, Next, Saved};
use message_values::{AgentRemoteConfig, PackagesAvailable, ServerToAgent, Settings};
use plain_values::{Blob, NoMemory, Plain, Text, Uid};
use std::alloc::Global;

/// The new identifier that a reply gives; one that hasn't 16 bytes is ignored. Takes no memory.
#[tactic(auto, using(crate::proofs::ReplyLemmas::sixteen))]
pub(crate) fn new_uid(reply: &ServerToAgent) -> Option<Uid>
    ensures uid { result ≡ new_uid reply.now }
{
    let given = reply.agent_identification.as_ref()?;
    Uid::from_slice(given.new_instance_uid.as_slice())
}

/// The reply is to an agent of the identifier that is in use. Takes no memory.
pub(crate) fn is_to(reply: &ServerToAgent, saved: &Saved) -> bool
    ensures to_it { result ≡ bytes_eq reply.now.instance_uid saved.now.uid }
{
    reply.instance_uid.as_slice() == saved.uid.as_slice()
}

/// What is kept is of this identifier, as it was given, and of this hash of components. Takes no memory.
pub(crate) fn teaches_nothing(
    saved: &Saved,
    uid: Uid,
    uid_given: bool,
    components_hash: &[u8],
) -> bool
    ensures nothing { result ≡ teaches_nothing saved.now (record (saved.now) { uid = uid; uid_given = uid_given; components_hash = components_hash.now }) }
{
    saved.uid.as_slice() == uid.as_slice()
        && (saved.uid_given || !uid_given)
        && saved.components_hash.as_slice() == components_hash
}

/// What an answer asks of an agent that knows and keeps this, has these settings once its trial has ended, and abandoned those last.
pub(crate) fn next_by(
    alloc: Global,
    local: &LocalState,
    saved: &Saved,
    reply: &ServerToAgent,
    active: &Settings,
    abandoned: Option<&Blob>,
    full: bool,
    proved: bool,
) -> Result<Next, NoMemory>
    ensures next { IfOk result (λ next. (a : AgentHalf) → a.local ≡ local.now → a.saved ≡ saved.now → a.proved ≡ proved
        → next ≡ asked_by reply.now full a active.now (option_copied abandoned.entry)) }
{
    let capabilities = local.capabilities;
    let message = reply.custom_message.copy(alloc)?;
    let (connection, refused) = connections_due(alloc, capabilities, active, abandoned, reply)?;
    let (config, packages) = offers_due(alloc, capabilities, saved, reply)?;
    Ok(Next {
        full,
        error: None,
        restart: false,
        proved,
        config,
        packages,
        connection,
        refused,
        message,
    })
}

// The settings that are offered, where they may be tried, and else their endpoint.
fn connections_due(
    alloc: Global,
    capabilities: u64,
    active: &Settings,
    abandoned: Option<&Blob>,
    reply: &ServerToAgent,
) -> Result<(Option<Settings>, Option<Text>), NoMemory>
    ensures connection { IfOk result (λ due. due.0 ≡ option_and_then (settings_due active.now (offered_hash reply.now)) (offered_to capabilities active.now (option_copied abandoned.entry) reply.now)) }
    ensures refused { IfOk result (λ due. due.1 ≡ option_and_then refused_due (offered_to capabilities active.now (option_copied abandoned.entry) reply.now)) }
{
    let offered = connection_due(
        capabilities,
        &active.hash,
        abandoned,
        &reply.connection_settings,
    );
    let refused = refused_due(alloc, offered)?;
    let connection = match &reply.connection_settings {
        Some(offer) => settings_due(alloc, active, &offer.hash, offered)?,
        None => None,
    };
    Ok((connection, refused))
}

// The configuration and the packages that are offered, where they aren't those that are held.
fn offers_due(
    alloc: Global,
    capabilities: u64,
    saved: &Saved,
    reply: &ServerToAgent,
) -> Result<(Option<AgentRemoteConfig>, Option<PackagesAvailable>), NoMemory>
    ensures config { IfOk result (λ due. due.0 ≡ option_and_then (config_due capabilities saved.now.remote.last_remote_config_hash) reply.now.remote_config) }
    ensures packages { IfOk result (λ due. due.1 ≡ option_and_then (packages_due capabilities saved.now.packages.server_provided_all_packages_hash) reply.now.packages_available) }
{
    let config = config_due(
        alloc,
        capabilities,
        &saved.remote.last_remote_config_hash,
        &reply.remote_config,
    )?;
    let packages = packages_due(
        alloc,
        capabilities,
        &saved.packages.server_provided_all_packages_hash,
        &reply.packages_available,
    )?;
    Ok((config, packages))
}
