//! What an agent knows of itself by its status file.

ghost use Rattle.std.specs.Prelude.{◌≡◌, [], IfOk, Some, None, unwrap_or};
ghost use Rattle.std.specs.Option.{option_map_or};
ghost use Rattle.agent_rounds.specs.Status.{local_by, no_components, no_description, no_health, with_hash};

use agent_rules::LocalState;
use message_reports::encoding::components_hash;
use message_values::{
    AgentDescription, AgentToServer, AvailableComponents, ComponentHealth, CustomCapabilities,
    EffectiveConfig,
};
use plain_values::{AgentConfigMap, Blob, List, Map, NoMemory, Plain, Text};
use std::alloc::Global;

/// The capabilities that are taken of a status file: the bits that this project's agents have (OpAMP specification,
/// "AgentToServer.capabilities").
pub const KNOWN_CAPABILITIES: u64 = 0x7d1f;
/// The capabilities without a status file: the agent reports its status and its health.
pub const FIRST_CAPABILITIES: u64 = 0x801;

fn empty_text(alloc: Global) -> Text
    ensures { result ≡ [] }
{
    Text::of(String::new(alloc))
}

fn no_description(alloc: Global) -> AgentDescription
    ensures { result ≡ no_description }
{
    AgentDescription {
        identifying_attributes: List::new(alloc),
        non_identifying_attributes: List::new(alloc),
    }
}

fn no_health(alloc: Global) -> ComponentHealth
    ensures { result ≡ no_health }
{
    ComponentHealth {
        healthy: false,
        start_time_unix_nano: 0,
        last_error: empty_text(alloc),
        status: empty_text(alloc),
        status_time_unix_nano: 0,
        component_health_map: Map::new(alloc),
    }
}

fn no_components(alloc: Global) -> AvailableComponents
    ensures { result ≡ no_components }
{
    AvailableComponents {
        components: Map::new(alloc),
        hash: Blob::of(Vec::new(alloc)),
    }
}

fn description_of(
    alloc: Global,
    told: &Option<AgentDescription>,
) -> Result<AgentDescription, NoMemory>
    ensures { IfOk result (λ d. d ≡ unwrap_or told.now no_description) }
{
    match told {
        Some(description) => description.copy(alloc),
        None => Ok(no_description(alloc)),
    }
}

fn health_of(alloc: Global, told: &Option<ComponentHealth>) -> Result<ComponentHealth, NoMemory>
    ensures { IfOk result (λ h. h ≡ unwrap_or told.now no_health) }
{
    match told {
        Some(health) => health.copy(alloc),
        None => Ok(no_health(alloc)),
    }
}

fn active_config(alloc: Global, active: &AgentConfigMap) -> Result<EffectiveConfig, NoMemory>
    ensures { IfOk result (λ c. c ≡ record { config_map = Some active.now }) }
{
    Ok(EffectiveConfig {
        config_map: Some(active.copy(alloc)?),
    })
}

fn effective_of(
    alloc: Global,
    told: &Option<EffectiveConfig>,
    active: &AgentConfigMap,
) -> Result<EffectiveConfig, NoMemory>
    ensures { IfOk result (λ c. c ≡ unwrap_or told.now (record { config_map = Some active.now })) }
{
    match told {
        Some(effective) => effective.copy(alloc),
        None => active_config(alloc, active),
    }
}

fn components_of(
    alloc: Global,
    told: &Option<AvailableComponents>,
) -> Result<AvailableComponents, NoMemory>
    ensures { IfOk result (λ c. c ≡ option_map_or with_hash told.now no_components) }
{
    match told {
        Some(told) => Ok(AvailableComponents {
            components: told.components.copy(alloc)?,
            hash: components_hash(alloc, &told.components)?,
        }),
        None => Ok(no_components(alloc)),
    }
}

fn told_by(
    alloc: Global,
    status: &AgentToServer,
    active: &AgentConfigMap,
    names: &CustomCapabilities,
) -> Result<LocalState, NoMemory>
    ensures { IfOk result (λ local. local ≡ local_by (Some status.now) active.now names.now) }
{
    Ok(LocalState {
        description: description_of(alloc, &status.agent_description)?,
        capabilities: status.capabilities & KNOWN_CAPABILITIES,
        health: health_of(alloc, &status.health)?,
        effective: effective_of(alloc, &status.effective_config, active)?,
        components: components_of(alloc, &status.available_components)?,
        custom: names.copy(alloc)?,
    })
}

fn untold(
    alloc: Global,
    active: &AgentConfigMap,
    names: &CustomCapabilities,
) -> Result<LocalState, NoMemory>
    ensures { IfOk result (λ local. local ≡ local_by None active.now names.now) }
{
    Ok(LocalState {
        description: no_description(alloc),
        capabilities: FIRST_CAPABILITIES,
        health: no_health(alloc),
        effective: active_config(alloc, active)?,
        components: no_components(alloc),
        custom: names.copy(alloc)?,
    })
}

/// What an agent knows of itself, by the status file that was read last, with these files as its active configuration and these names of its handlers.
/// What the file leaves out is empty, but for the effective configuration, which is the active one. Only want of memory refuses it.
pub fn local_state(
    alloc: Global,
    status: &Option<AgentToServer>,
    active: &AgentConfigMap,
    names: &CustomCapabilities,
) -> Result<LocalState, NoMemory>
    ensures local { IfOk result (λ local. local ≡ local_by status.now active.now names.now) }
{
    match status {
        Some(status) => told_by(alloc, status, active, names),
        None => untold(alloc, active, names),
    }
}

/// The capabilities that are known, and those without a status file.
pub fn capability_bits()
    ensures known { KNOWN_CAPABILITIES ≡ 32031 }
    ensures first { FIRST_CAPABILITIES ≡ 2049 }
{}
