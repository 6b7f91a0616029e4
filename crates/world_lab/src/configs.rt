//! What becomes of the configurations that replies offer.

ghost use Rattle.std.specs.Prelude.{◌≡◌, ◌∷◌, [], None, Some, false, codes, unwrap_or, IfOk, OnOk, IsErrOf, IsTrue};
ghost use Rattle.std.specs.Option.{option_map};
ghost use Rattle.plain_values.specs.declared.files.AgentConfigMap.{AgentConfigMap};
ghost use Rattle.edge_devices.specs.Names.{are_good_names};
ghost use Rattle.agent_rules.specs.Half.{no_config};
ghost use Rattle.agent_rules.specs.Keeping.{ConfigDone, fits};
ghost use Rattle.agent_rules.specs.Offers.{config_call, failed_call, failed_with, status_of};
ghost use Rattle.world_lab.specs.Transcripts.{is_applied};
ghost use Rattle.agent_config.specs.Config.{as_offer};
ghost use Rattle.world_lab.specs.Hearing.{all_fit, config_calls};
ghost use Rattle.world_lab.specs.Hosts.{GoesOn, HasFiles, HasGenerations, HasNoOthers, IsHosted, IsSeated, StopsIn};

use crate::fails::HostFail;
use crate::plays::Host;
use agent_config::{Outcome, apply, settle};
use agent_offers::Trying;
use agent_rules::{APPLIED, AgentFail, FAILED};
use message_values::{AgentRemoteConfig, RemoteConfigStatus};
use plain_values::{AgentConfigMap, Blob, Map, NoMemory, Plain, Text};
use std::alloc::Global;

/// What became of a configuration.
#[derive(Drop)]
pub struct Configured {
    /// Whether it was applied, if one was offered.
    pub applied: Option<bool>,
    /// Whether there was room for what became of it.
    pub kept: bool,
}

/// The configuration is applied, if one is offered, and what became of it is kept.
pub fn configure(
    alloc: Global,
    host: &mut Host,
    due: Option<AgentRemoteConfig>,
) -> Result<Configured, HostFail>
    requires hosted { IsHosted host.old }
    requires generations { HasGenerations 1 host.old }
    ensures goes { OnOk result (GoesOn host.old host.new (config_calls host.old.agent.half due) 1) }
    ensures applied { IfOk result (λ c. c.applied ≡ option_map (is_applied host.old.agent.half) due) }
    ensures kept { IfOk result (λ c. c.kept ≡ all_fit host.old.agent.half (config_calls host.old.agent.half due)) }
    ensures stopped { IsErrOf result HostFail.Stopped → StopsIn host.old host.new (config_calls host.old.agent.half due) 1 }
{
    match due {
        Some(offer) => take_offer(alloc, host, offer),
        None => Ok(Configured {
            applied: None,
            kept: true,
        }),
    }
}

/// The offered files are applied, where their names are good.
pub fn take_offer(
    alloc: Global,
    host: &mut Host,
    offer: AgentRemoteConfig,
) -> Result<Configured, HostFail>
    requires hosted { IsHosted host.old }
    requires generations { HasGenerations 1 host.old }
    ensures goes { OnOk result (GoesOn host.old host.new (config_call host.old.agent.half None offer ∷ []) 1) }
    ensures applied { IfOk result (λ c. c.applied ≡ Some (is_applied host.old.agent.half offer)) }
    ensures kept { IfOk result (λ c. c.kept ≡ fits host.old.agent.half (config_call host.old.agent.half None offer)) }
    ensures stopped { IsErrOf result HostFail.Stopped → StopsIn host.old host.new (config_call host.old.agent.half None offer ∷ []) 1 }
{
    let AgentRemoteConfig {
        config,
        config_hash,
    } = offer;
    let files = offered_files(alloc, config);
    match host.agent.config_trial(files) {
        Ok(trial) => try_files(alloc, host, trial, config_hash),
        Err(NoMemory) => Err(HostFail::NoMemory),
    }
}

// The files under trial are brought to the folder, where their names are good. They go by a call where they aren't kept.
fn try_files(
    alloc: Global,
    host: &mut Host,
    trial: Trying<AgentConfigMap>,
    hash: Blob,
) -> Result<Configured, HostFail>
    requires hosted { IsHosted host.old }
    requires former { trial.former ≡ host.old.agent.half.saved.config }
    requires generations { HasGenerations 1 host.old }
    ensures goes { OnOk result (GoesOn host.old host.new (config_call host.old.agent.half None (as_offer trial.tried hash) ∷ []) 1) }
    ensures applied { IfOk result (λ c. c.applied ≡ Some (is_applied host.old.agent.half (as_offer trial.tried hash))) }
    ensures kept { IfOk result (λ c. c.kept ≡ fits host.old.agent.half (config_call host.old.agent.half None (as_offer trial.tried hash))) }
    ensures stopped { IsErrOf result HostFail.Stopped → StopsIn host.old host.new (config_call host.old.agent.half None (as_offer trial.tried hash) ∷ []) 1 }
{
    match apply(alloc, &mut host.folder, &trial) {
        Ok(Outcome::Applied) => keep_applied(alloc, host, trial, hash),
        Ok(Outcome::BadName(name)) => {
            drop(name);
            drop(trial);
            keep_bad_name(alloc, host, hash)
        }
        // A folder in memory that was told of no call to fail fails for want of memory alone.
        Ok(Outcome::FolderFault { settled: _ }) => {
            drop(trial);
            Err(HostFail::NoMemory)
        }
        Err(NoMemory) => {
            drop(trial);
            Err(HostFail::NoMemory)
        }
    }
}

// A configuration of this hash has a name that isn't good, which is kept as its status.
fn keep_bad_name(alloc: Global, host: &mut Host, hash: Blob) -> Result<Configured, HostFail>
    requires hosted { IsHosted host.old }
    requires generations { HasGenerations 1 host.old }
    ensures goes { OnOk result (GoesOn host.old host.new (failed_call (as_offer no_config hash) (codes "bad name") ∷ []) 1) }
    ensures applied { IfOk result (λ c. c.applied ≡ Some false) }
    ensures kept { IfOk result (λ c. c.kept ≡ fits host.old.agent.half (failed_call (as_offer no_config hash) (codes "bad name"))) }
    ensures stopped { IsErrOf result HostFail.Stopped → StopsIn host.old host.new (failed_call (as_offer no_config hash) (codes "bad name") ∷ []) 1 }
{
    let status = failed_status(alloc, hash, "bad name")?;
    keep_failed(host, status)
}

// The files of an offer. Takes no memory.
fn offered_files(alloc: Global, config: Option<AgentConfigMap>) -> AgentConfigMap
    ensures files { result ≡ unwrap_or config no_config }
{
    match config {
        Some(files) => files,
        None => AgentConfigMap {
            config_map: Map::new(alloc),
        },
    }
}

/// The files are in the folder. Where there is room for them they are the agent's own now, else the folder is brought back.
pub fn keep_applied(
    alloc: Global,
    host: &mut Host,
    trial: Trying<AgentConfigMap>,
    hash: Blob,
) -> Result<Configured, HostFail>
    requires seated { IsSeated host.old }
    requires files { HasFiles host.old trial.tried }
    requires former { trial.former ≡ host.old.agent.half.saved.config }
    requires names { IsTrue (are_good_names trial.tried.config_map) }
    requires generations { HasGenerations 1 host.old }
    ensures goes { OnOk result (GoesOn host.old host.new (config_call host.old.agent.half None (as_offer trial.tried hash) ∷ []) 1) }
    ensures applied { IfOk result (λ c. c.applied ≡ Some (is_applied host.old.agent.half (as_offer trial.tried hash))) }
    ensures kept { IfOk result (λ c. c.kept ≡ fits host.old.agent.half (config_call host.old.agent.half None (as_offer trial.tried hash))) }
    ensures stopped { IsErrOf result HostFail.Stopped → StopsIn host.old host.new (config_call host.old.agent.half None (as_offer trial.tried hash) ∷ []) 1 }
{
    let status = applied_status(alloc, &hash)?;
    match agent_stopped::config_done(&mut host.agent, &mut host.disk, Some(trial), status) {
        Ok(()) => Ok(Configured {
            applied: Some(true),
            kept: true,
        }),
        Err(AgentFail::TooLarge) => keep_large(alloc, host, hash),
        Err(AgentFail::StoreFault) => Err(HostFail::Stopped),
        Err(AgentFail::NoMemory) => Err(HostFail::NoMemory),
        Err(AgentFail::NumbersSpent) => unreachable!(),
        Err(AgentFail::WrongUid) => unreachable!(),
    }
}

/// There was no room for the files: the folder is brought back, and that is kept as the status of the configuration of this hash.
pub fn keep_large(alloc: Global, host: &mut Host, hash: Blob) -> Result<Configured, HostFail>
    requires seated { IsSeated host.old }
    requires others { HasNoOthers host.old }
    requires generations { HasGenerations 1 host.old }
    ensures goes { OnOk result (GoesOn host.old host.new (failed_call (as_offer no_config hash) (codes "too large") ∷ []) 1) }
    ensures applied { IfOk result (λ c. c.applied ≡ Some false) }
    ensures kept { IfOk result (λ c. c.kept ≡ fits host.old.agent.half (failed_call (as_offer no_config hash) (codes "too large"))) }
    ensures stopped { IsErrOf result HostFail.Stopped → StopsIn host.old host.new (failed_call (as_offer no_config hash) (codes "too large") ∷ []) 1 }
{
    bring_back(alloc, host)?;
    let status = failed_status(alloc, hash, "too large")?;
    keep_failed(host, status)
}

/// The folder holds the configuration in use again.
pub fn bring_back(alloc: Global, host: &mut Host) -> Result<(), NoMemory>
    requires seated { IsSeated host.old }
    requires others { HasNoOthers host.old }
    ensures agent { host.new.agent ≡ host.old.agent }
    ensures disk { host.new.disk ≡ host.old.disk }
    ensures hosted { OnOk result (IsHosted host.new) }
{
    match settle(alloc, &mut host.folder, &host.agent.saved().config) {
        Ok(()) => Ok(()),
        Err(_) => Err(NoMemory),
    }
}

/// The status of the configuration of this hash, which was applied.
pub fn applied_status(alloc: Global, hash: &Blob) -> Result<RemoteConfigStatus, NoMemory>
    ensures status { IfOk result (λ status. (files : AgentConfigMap) → status ≡ status_of (as_offer files hash.now)) }
{
    Ok(RemoteConfigStatus {
        last_remote_config_hash: hash.copy(alloc)?,
        status: APPLIED,
        error_message: Text::of(String::new(alloc)),
    })
}

/// The status of the configuration of this hash, which wasn't applied for this reason.
pub fn failed_status(
    alloc: Global,
    hash: Blob,
    reason: &str,
) -> Result<RemoteConfigStatus, NoMemory>
    ensures status { IfOk result (λ status. (files : AgentConfigMap) → status ≡ failed_with (as_offer files hash) reason.now) }
{
    let text = String::from_str(alloc, reason)?;
    Ok(RemoteConfigStatus {
        last_remote_config_hash: hash,
        status: FAILED,
        error_message: Text::of(text),
    })
}

/// A configuration isn't applied, which is kept as its status where there is room for it.
pub fn keep_failed(host: &mut Host, status: RemoteConfigStatus) -> Result<Configured, HostFail>
    requires hosted { IsHosted host.old }
    requires generations { HasGenerations 1 host.old }
    ensures goes { OnOk result (GoesOn host.old host.new (ConfigDone None status ∷ []) 1) }
    ensures applied { IfOk result (λ c. c.applied ≡ Some false) }
    ensures kept { IfOk result (λ c. c.kept ≡ fits host.old.agent.half (ConfigDone None status)) }
    ensures stopped { IsErrOf result HostFail.Stopped → StopsIn host.old host.new (ConfigDone None status ∷ []) 1 }
{
    match agent_stopped::config_done(&mut host.agent, &mut host.disk, None, status) {
        Ok(()) => Ok(Configured {
            applied: Some(false),
            kept: true,
        }),
        Err(AgentFail::TooLarge) => Ok(Configured {
            applied: Some(false),
            kept: false,
        }),
        Err(AgentFail::StoreFault) => Err(HostFail::Stopped),
        Err(AgentFail::NoMemory) => Err(HostFail::NoMemory),
        Err(AgentFail::NumbersSpent) => unreachable!(),
        Err(AgentFail::WrongUid) => unreachable!(),
    }
}
