//! What the agent is told of itself.

ghost use Rattle.std.specs.Prelude.{◌≡◌, [], ◌∷◌, IfOk, OnOk, List};
ghost use Rattle.server_core.specs.Served.{Served};
ghost use Rattle.world_model.specs.World.{Changed};
ghost use Rattle.world_scripts.specs.declared.lines.Line.TheVariants as lines;
ghost use Rattle.world_lab.specs.declared.written.Written.TheVariants.{Changed as ChangedLine};
ghost use Rattle.world_lab.specs.Playing.{Progress, effective_files, happens, hashed_components, health_of, healthy, no_details, put_component, put_file, text_file};
ghost use Rattle.world_lab.specs.Mirrors.{Mirrors, Plays};

use crate::attributes::put_attribute;
use crate::plays::Play;
use crate::written::Written;
use agent_rules::LocalState;
use message_reports::encoding::components_hash;
use message_values::{AvailableComponents, ComponentDetails, ComponentHealth, EffectiveConfig};
use plain_values::{AgentConfigFile, AgentConfigMap, Blob, List, Map, NoMemory, Plain, Text};
use std::alloc::Global;

/// A healthy agent that tells nothing else. Takes no memory.
pub fn healthy(alloc: Global) -> ComponentHealth
    ensures health { result ≡ healthy }
{
    health_of(alloc, true, Text::of(String::new(alloc)))
}

fn health_of(alloc: Global, is_healthy: bool, last_error: Text) -> ComponentHealth
    ensures { result ≡ health_of is_healthy last_error }
{
    ComponentHealth {
        healthy: is_healthy,
        start_time_unix_nano: 0,
        last_error,
        status: Text::of(String::new(alloc)),
        status_time_unix_nano: 0,
        component_health_map: Map::new(alloc),
    }
}

/// Other capabilities.
pub fn set_capabilities(play: &mut Play, bits: u64) -> Result<Written, NoMemory>
    ensures played { IfOk result (λ written. (servers : List Served) → Plays (lines.Caps bits) play.old servers play.new servers written) }
{
    let mut now = play.local.copy(play.alloc)?;
    now.capabilities = bits;
    change(play, now)
}

/// An identifying attribute, in its place or at the end.
pub fn set_attribute(play: &mut Play, key: &Text, value: &Text) -> Result<Written, NoMemory>
    ensures played { IfOk result (λ written. (servers : List Served) → Plays (lines.Attr key.now value.now) play.old servers play.new servers written) }
{
    let alloc = play.alloc;
    let mut now = play.local.copy(alloc)?;
    let attributes = &play.local.description.identifying_attributes;
    now.description.identifying_attributes = put_attribute(alloc, attributes, key, value)?;
    change(play, now)
}

/// The agent is healthy.
pub fn set_healthy(play: &mut Play) -> Result<Written, NoMemory>
    ensures played { IfOk result (λ written. (servers : List Served) → Plays lines.HealthOk play.old servers play.new servers written) }
{
    let alloc = play.alloc;
    let mut now = play.local.copy(alloc)?;
    now.health = healthy(alloc);
    change(play, now)
}

/// The agent is not healthy, with this last error.
pub fn set_unhealthy(play: &mut Play, error: &Text) -> Result<Written, NoMemory>
    ensures played { IfOk result (λ written. (servers : List Served) → Plays (lines.HealthBad error.now) play.old servers play.new servers written) }
{
    let alloc = play.alloc;
    let mut now = play.local.copy(alloc)?;
    now.health = health_of(alloc, false, error.copy(alloc)?);
    change(play, now)
}

/// A file of the effective configuration.
pub fn set_file(play: &mut Play, name: &Text, body: &Text) -> Result<Written, NoMemory>
    ensures played { IfOk result (λ written. (servers : List Served) → Plays (lines.Effective name.now body.now) play.old servers play.new servers written) }
{
    let alloc = play.alloc;
    let mut now = play.local.copy(alloc)?;
    now.effective = with_file(alloc, &play.local.effective, name, body)?;
    change(play, now)
}

/// A custom capability more.
pub fn add_custom(play: &mut Play, name: &Text) -> Result<Written, NoMemory>
    ensures played { IfOk result (λ written. (servers : List Served) → Plays (lines.Custom name.now) play.old servers play.new servers written) }
{
    let alloc = play.alloc;
    let mut now = play.local.copy(alloc)?;
    now.custom.capabilities.push(name.copy(alloc)?)?;
    change(play, now)
}

/// A component of which nothing is told, where there is none of its name.
pub fn add_component(play: &mut Play, name: &Text) -> Result<Written, NoMemory>
    ensures played { IfOk result (λ written. (servers : List Served) → Plays (lines.Component name.now) play.old servers play.new servers written) }
{
    let alloc = play.alloc;
    let mut now = play.local.copy(alloc)?;
    now.components = with_component(alloc, &play.local.components.components, name)?;
    change(play, now)
}

fn files_of(alloc: Global, effective: &EffectiveConfig) -> Result<Map<AgentConfigFile>, NoMemory>
    ensures { IfOk result (λ files. files ≡ effective_files effective.now) }
{
    match &effective.config_map {
        Some(files) => files.config_map.copy(alloc),
        None => Ok(Map::new(alloc)),
    }
}

/// A file of this text, whose content type is empty.
pub fn text_file(alloc: Global, text: &Text) -> Result<AgentConfigFile, NoMemory>
    ensures file { IfOk result (λ file. file ≡ text_file text.now) }
{
    Ok(AgentConfigFile {
        body: Blob::of(Vec::from_slice(alloc, text.as_str().as_bytes())?),
        content_type: Text::of(String::new(alloc)),
    })
}

// The configuration with this file.
fn with_file(
    alloc: Global,
    effective: &EffectiveConfig,
    name: &Text,
    body: &Text,
) -> Result<EffectiveConfig, NoMemory>
    ensures { IfOk result (λ now. now ≡ put_file effective.now name.now body.now) }
{
    let file = text_file(alloc, body)?;
    let mut config_map = files_of(alloc, effective)?;
    config_map.put(name.copy(alloc)?, file)?;
    Ok(EffectiveConfig {
        config_map: Some(AgentConfigMap { config_map }),
    })
}

// A component of which nothing is told. Takes no memory.
fn no_details(alloc: Global) -> ComponentDetails
    ensures { result ≡ no_details }
{
    ComponentDetails {
        metadata: List::new(alloc),
        sub_component_map: Map::new(alloc),
    }
}

// The components with this one, which is left as it is where it is there, under their hash.
fn with_component(
    alloc: Global,
    components: &Map<ComponentDetails>,
    name: &Text,
) -> Result<AvailableComponents, NoMemory>
    ensures { IfOk result (λ now. now ≡ hashed_components (put_component components.now name.now)) }
{
    let mut now = components.copy(alloc)?;
    if now.get(name).is_none() {
        now.put(name.copy(alloc)?, no_details(alloc))?;
    }
    let hash = components_hash(alloc, &now)?;
    Ok(AvailableComponents {
        components: now,
        hash,
    })
}

// The agent knows this of itself now.
fn change(play: &mut Play, now: LocalState) -> Result<Written, NoMemory>
    ensures mirrors { OnOk result ((p : Progress) (servers : List Served) → Mirrors p play.old servers → Mirrors (happens p (Changed now ∷ [])) play.new servers) }
    ensures written { IfOk result (λ written. written ≡ ChangedLine) }
{
    world_model::runs_go_on();
    play.host.agent.change(now.copy(play.alloc)?);
    play.local = now;
    Ok(Written::Changed)
}
