//! What an agent starts with.

ghost use Rattle.std.specs.Prelude.{◌≡◌};
ghost use Rattle.agent_rules.specs.Half.{first_saved};

use agent_rules::Saved;
use message_values::{PackageStatuses, RemoteConfigStatus, Settings};
use plain_values::{AgentConfigMap, Blob, Map, Text, Uid};
use std::alloc::Global;

/// What is in use while nothing is kept. Takes no memory.
pub(crate) fn first_saved(alloc: Global, uid: Uid, first: Settings) -> Saved
    ensures { result ≡ first_saved uid first }
{
    Saved {
        uid,
        limit: 1,
        uid_given: false,
        settings: first,
        config: AgentConfigMap {
            config_map: Map::new(alloc),
        },
        config_hash: Blob::new(alloc),
        remote: RemoteConfigStatus {
            last_remote_config_hash: Blob::new(alloc),
            status: 0,
            error_message: Text::new(alloc),
        },
        packages: PackageStatuses {
            packages: Map::new(alloc),
            server_provided_all_packages_hash: Blob::new(alloc),
            error_message: Text::new(alloc),
        },
        components_hash: Blob::new(alloc),
    }
}
