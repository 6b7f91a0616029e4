//! What a reply asks of the agent's caller.

ghost use Rattle.std.specs.Prelude.{◌≡◌, ◌↔◌, IsTrue, IfOk};
ghost use Rattle.std.specs.Option.{option_and_then, option_copied};
ghost use Rattle.std.specs.List.{list_all};
ghost use Rattle.agent_rules.specs.Keeping.{heard_in};
ghost use Rattle.agent_rules.specs.Offers.{config_due, packages_due, is_known, connection_due, is_acceptable, offered_settings, settings_due, refused_due, is_restart, no_next, tells_hash};

use crate::headers::are_offered;
use agent_rules::{
    ACCEPTS_CONNECTION_SETTINGS, ACCEPTS_PACKAGES, ACCEPTS_REMOTE_CONFIG, Heard, Next,
    REPORT_FULL_STATE, RESTART,
};
use edge_devices::endpoint_ok;
use message_values::{
    AgentRemoteConfig, ConnectionSettingsOffers, OpAMPConnectionSettings, PackagesAvailable,
    ServerErrorResponse, ServerToAgent, ServerToAgentCommand, Settings,
};
use plain_values::{Blob, NoMemory, Plain, Text};
use std::alloc::Global;

/// What the reply says to the agent itself. Takes no memory.
pub(crate) fn heard_in(reply: &ServerToAgent) -> Heard
    ensures heard { result ≡ heard_in reply.now }
{
    if reply.command.is_some() {
        Heard::Commanded
    } else if reply.error_response.is_some() {
        Heard::Failed
    } else if reply.flags & REPORT_FULL_STATE != 0 {
        Heard::Asked
    } else {
        Heard::Plain
    }
}

/// Nothing is asked but this. Takes no memory.
pub(crate) fn next_alone(error: Option<ServerErrorResponse>, restart: bool) -> Next
    ensures alone { result ≡ record no_next { error = error; restart = restart } }
{
    Next {
        full: false,
        error,
        restart,
        proved: false,
        config: None,
        packages: None,
        connection: None,
        refused: None,
        message: None,
    }
}

pub(crate) fn is_restart(command: &Option<ServerToAgentCommand>) -> bool
    ensures restart { result ≡ is_restart command.now }
{
    match command {
        Some(command) => command.kind == RESTART,
        None => false,
    }
}

// The offer tells the hash of what is held. An empty hash tells nothing.
fn tells_hash(offered: &Blob, held: &Blob) -> bool
    ensures tells { result ≡ tells_hash offered.now held.now }
{
    !offered.as_slice().is_empty() && offered.as_slice() == held.as_slice()
}

pub(crate) fn config_due(
    alloc: Global,
    capabilities: u64,
    held: &Blob,
    offer: &Option<AgentRemoteConfig>,
) -> Result<Option<AgentRemoteConfig>, NoMemory>
    ensures due { IfOk result (λ due. due ≡ option_and_then (config_due capabilities held.now) offer.now) }
{
    match offer {
        Some(offer) => {
            if capabilities & ACCEPTS_REMOTE_CONFIG != 0 && !tells_hash(&offer.config_hash, held) {
                Ok(Some(offer.copy(alloc)?))
            } else {
                Ok(None)
            }
        }
        None => Ok(None),
    }
}

pub(crate) fn packages_due(
    alloc: Global,
    capabilities: u64,
    held: &Blob,
    offer: &Option<PackagesAvailable>,
) -> Result<Option<PackagesAvailable>, NoMemory>
    ensures due { IfOk result (λ due. due ≡ option_and_then (packages_due capabilities held.now) offer.now) }
{
    match offer {
        Some(offer) => {
            if capabilities & ACCEPTS_PACKAGES != 0 && !tells_hash(&offer.all_packages_hash, held) {
                Ok(Some(offer.copy(alloc)?))
            } else {
                Ok(None)
            }
        }
        None => Ok(None),
    }
}

// The offered settings are the active ones, or those abandoned last.
fn is_known(active: &Blob, abandoned: Option<&Blob>, hash: &Blob) -> bool
    ensures known { result ≡ is_known active.now (option_copied abandoned.entry) hash.now }
{
    tells_hash(hash, active)
        || match abandoned {
            Some(abandoned) => tells_hash(hash, abandoned),
            None => false,
        }
}

pub(crate) fn connection_due<'a>(
    capabilities: u64,
    active: &Blob,
    abandoned: Option<&Blob>,
    offer: &'a Option<ConnectionSettingsOffers>,
) -> Option<&'a OpAMPConnectionSettings>
    ensures due { option_copied result ≡ option_and_then (connection_due capabilities active.now (option_copied abandoned.entry)) offer.now }
{
    match offer {
        Some(offer) => {
            if capabilities & ACCEPTS_CONNECTION_SETTINGS != 0
                && !is_known(active, abandoned, &offer.hash)
            {
                offer.opamp.as_ref()
            } else {
                None
            }
        }
        None => None,
    }
}

// Whether the offered settings may be tried.
fn is_acceptable(offer: &OpAMPConnectionSettings) -> bool
    ensures acceptable { result ≡ is_acceptable offer.now }
{
    offer.certificate.is_none()
        && (offer.destination_endpoint.as_str().is_empty()
            || endpoint_ok(offer.destination_endpoint.as_str()))
        && match &offer.headers {
            Some(headers) => are_offered(headers),
            None => true,
        }
}

// The offered settings: what they leave out is as in the active ones.
fn offered_settings(
    alloc: Global,
    active: &Settings,
    hash: &Blob,
    offer: &OpAMPConnectionSettings,
) -> Result<Settings, NoMemory>
    ensures settings { IfOk result (λ settings. settings ≡ offered_settings active.now hash.now offer.now) }
{
    let endpoint = if offer.destination_endpoint.as_str().is_empty() {
        active.endpoint.copy(alloc)?
    } else {
        offer.destination_endpoint.copy(alloc)?
    };
    let headers = match &offer.headers {
        Some(headers) => headers.copy(alloc)?,
        None => active.headers.copy(alloc)?,
    };
    Ok(Settings {
        endpoint,
        headers,
        interval: offer.heartbeat_interval_seconds,
        hash: hash.copy(alloc)?,
    })
}

/// The settings to be tried, if the offered ones are acceptable.
pub(crate) fn settings_due(
    alloc: Global,
    active: &Settings,
    hash: &Blob,
    offer: Option<&OpAMPConnectionSettings>,
) -> Result<Option<Settings>, NoMemory>
    ensures due { IfOk result (λ due. due ≡ option_and_then (settings_due active.now hash.now) (option_copied offer.entry)) }
{
    match offer {
        Some(offer) => {
            if is_acceptable(offer) {
                Ok(Some(offered_settings(alloc, active, hash, offer)?))
            } else {
                Ok(None)
            }
        }
        None => Ok(None),
    }
}

/// The endpoint of offered settings that aren't acceptable.
pub(crate) fn refused_due(
    alloc: Global,
    offer: Option<&OpAMPConnectionSettings>,
) -> Result<Option<Text>, NoMemory>
    ensures due { IfOk result (λ due. due ≡ option_and_then refused_due (option_copied offer.entry)) }
{
    match offer {
        Some(offer) => {
            if is_acceptable(offer) {
                Ok(None)
            } else {
                Ok(Some(offer.destination_endpoint.copy(alloc)?))
            }
        }
        None => Ok(None),
    }
}
