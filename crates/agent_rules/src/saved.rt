//! The value that is kept.

ghost use Rattle.std.specs.Prelude.{◌≡◌, IfOk};
ghost use Rattle.agent_rules.specs.Columns.{parts_columns, saved_columns};
ghost use Rattle.agent_rules.specs.Right.{is_right};

use crate::parts::SavedParts;
use edge_devices::{endpoint_ok, name_ok};
use message_values::{PackageStatuses, RemoteConfigStatus, Settings};
use plain_values::{AgentConfigMap, Blob, NoMemory, Plain, Uid, copy_four};
use std::alloc::Global;

/// What a supervisor must not lose.
pub struct Saved {
    /// The agent's identifier (OpAMP specification, "AgentToServer Message", `instance_uid`).
    pub uid: Uid,
    /// The first number that is not reserved for reports. A right value has one above 0.
    pub limit: u64,
    /// Whether a server gave the identifier (OpAMP specification, "AgentIdentification").
    pub uid_given: bool,
    /// The connection settings in use (OpAMP specification, "Connection Settings Management").
    pub settings: Settings,
    /// The configuration in use (OpAMP specification, "AgentConfigMap Message").
    pub config: AgentConfigMap,
    /// The server's hash of that configuration; empty where no server gave it.
    pub config_hash: Blob,
    /// How the agent fared with the last remote configuration (OpAMP specification, "RemoteConfigStatus Message").
    pub remote: RemoteConfigStatus,
    /// How the agent fares with its packages (OpAMP specification, "PackageStatuses Message").
    pub packages: PackageStatuses,
    /// The hash of the components of which a server has the details; empty where none has (OpAMP specification, "AvailableComponents Message").
    pub components_hash: Blob,
}

// By hand, so that it is a call where a value is dropped, and not laid out there.
impl Drop for Saved {
    fn drop(self) {
        let Saved {
            uid: _,
            limit: _,
            uid_given: _,
            settings: _,
            config: _,
            config_hash: _,
            remote: _,
            packages: _,
            components_hash: _,
        } = self;
    }
}

impl Saved {
    // The fields of the value.
    pub(crate) fn into_parts(self, alloc: Global) -> Result<SavedParts, NoMemory>
        ensures columns { IfOk result (λ parts. parts_columns parts ≡ saved_columns self) }
    {
        let Saved {
            uid,
            limit,
            uid_given,
            settings,
            config,
            config_hash,
            remote,
            packages,
            components_hash,
        } = self;
        Ok(SavedParts {
            uid: Blob::from_slice(alloc, uid.as_slice())?,
            limit,
            uid_given,
            endpoint: settings.endpoint,
            headers: settings.headers,
            interval: settings.interval,
            settings_hash: settings.hash,
            config,
            remote,
            packages,
            config_hash,
            components_hash,
        })
    }
}

/// Whether the value may be kept: its limit is not 0, its endpoint is of the grammar of endpoints, and the names of its configuration are good.
/// Takes no memory.
pub fn is_right(saved: &Saved) -> bool
    ensures right { result ≡ is_right saved.now }
{
    saved.limit != 0 && endpoint_ok(saved.settings.endpoint.as_str()) && name_ok(&saved.config)
}

impl Plain for Saved {
    fn copy(&self, alloc: Global) -> Result<Saved, NoMemory> {
        let parts = copy_four(
            alloc,
            &self.settings,
            &self.config,
            &self.remote,
            &self.packages,
        )?;
        let config_hash = self.config_hash.copy(alloc)?;
        let components_hash = self.components_hash.copy(alloc)?;
        let (settings, config, remote, packages) = parts.into_parts();
        Ok(Saved {
            uid: self.uid.copy(),
            limit: self.limit,
            uid_given: self.uid_given,
            settings,
            config,
            config_hash,
            remote,
            packages,
            components_hash,
        })
    }

    fn same(&self, other: &Saved) -> bool {
        self.uid.same(&other.uid)
            && self.limit == other.limit
            && self.uid_given == other.uid_given
            && self.settings.same(&other.settings)
            && self.config.same(&other.config)
            && self.config_hash.same(&other.config_hash)
            && self.remote.same(&other.remote)
            && self.packages.same(&other.packages)
            && self.components_hash.same(&other.components_hash)
    }
}
