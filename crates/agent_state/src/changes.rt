//! What calls put in place of parts of what is kept.

ghost use Rattle.std.specs.Prelude.{◌≡◌};
ghost use Rattle.agent_state.specs.Changes.{with_change, former_of};

use agent_rules::Saved;
use message_values::{PackageStatuses, RemoteConfigStatus};
use plain_values::{AgentConfigMap, Blob};
use std::mem::swap;

/// What a call puts in place of parts of what is kept; afterwards, what stood there.
#[derive(Drop)]
pub(crate) enum Change {
    /// The report numbers below this one are reserved.
    Limit(u64),
    /// What became of a configuration that wasn't applied.
    Status(RemoteConfigStatus),
    /// A configuration that was applied.
    Files {
        /// Its files.
        files: AgentConfigMap,
        /// The hash of its offer.
        hash: Blob,
        /// What became of it.
        status: RemoteConfigStatus,
    },
    /// What became of the agent's packages.
    Packages(PackageStatuses),
    /// All that is kept.
    Whole(Saved),
}

impl Change {
    /// Puts the change in place of what it replaces, and takes that. Done twice it changes nothing. Takes no memory.
    pub(crate) fn exchange(&mut self, saved: &mut Saved)
        ensures put { saved.new ≡ with_change self.old saved.old }
        ensures taken { self.new ≡ former_of self.old saved.old }
    {
        match self {
            Change::Limit(limit) => swap(limit, &mut saved.limit),
            Change::Status(status) => swap(status, &mut saved.remote),
            Change::Files {
                files,
                hash,
                status,
            } => {
                swap(files, &mut saved.config);
                swap(hash, &mut saved.config_hash);
                swap(status, &mut saved.remote);
            }
            Change::Packages(statuses) => swap(statuses, &mut saved.packages),
            Change::Whole(next) => swap(next, saved),
        }
    }
}
