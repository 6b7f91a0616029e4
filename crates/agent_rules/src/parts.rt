//! The fields of a payload, with each message there.

ghost use Rattle.std.specs.Prelude.{◌≡◌, IfOk};
ghost use Rattle.message_codec.specs.Tables as tables;
ghost use Rattle.message_codec.specs.Tables.{One, rows_of};
ghost use Rattle.message_codec.specs.Values.{Present};
ghost use Rattle.message_codec.specs.Read.{one_of};
ghost use Rattle.message_attributes.specs.PartColumns.{config_map_columns, config_map_draft_columns};
ghost use Rattle.message_reports.specs.Columns.{remote_config_status_columns, package_statuses_columns, package_statuses_draft_columns};
ghost use Rattle.message_replies.specs.ReplyColumns.{headers_columns};
ghost use Rattle.agent_rules.specs.Columns.{parts_columns, draft_columns, saved_columns};
ghost use Rattle.agent_rules.specs.Payloads.{filled, all_filled};

use crate::drafts::SavedDraft;
use crate::saved::Saved;
use message_attributes::parts::AgentConfigMapDraft;
use message_reports::packages::PackageStatusesDraft;
use message_values::{PackageStatuses, RemoteConfigStatus, Settings};
use plain_values::{AgentConfigMap, Blob, Headers, List, Map, NoMemory, Text, Uid};
use std::alloc::Global;

/// The fields of a payload. A message that was absent is the empty one. Nothing is known of what is right.
#[derive(Drop)]
pub struct SavedParts {
    pub uid: Blob,
    pub limit: u64,
    pub uid_given: bool,
    pub endpoint: Text,
    pub headers: Headers,
    pub interval: u64,
    pub settings_hash: Blob,
    pub config: AgentConfigMap,
    pub remote: RemoteConfigStatus,
    pub packages: PackageStatuses,
    pub config_hash: Blob,
    pub components_hash: Blob,
}

fn headers_or_none(alloc: Global, headers: Option<Headers>) -> Headers
    ensures filled { Present (headers_columns result) ≡ filled (One tables.Headers) (one_of headers_columns headers) }
{
    match headers {
        Some(headers) => headers,
        None => Headers {
            headers: List::new(alloc),
        },
    }
}

fn config_or_none(
    alloc: Global,
    config: Option<AgentConfigMapDraft>,
) -> Result<AgentConfigMap, NoMemory>
    ensures filled { IfOk result (λ m. Present (config_map_columns m) ≡ filled (One tables.AgentConfigMap) (one_of config_map_draft_columns config)) }
{
    match config {
        Some(draft) => Ok(draft.settle(alloc)?),
        None => Ok(AgentConfigMap {
            config_map: Map::new(alloc),
        }),
    }
}

fn remote_or_none(alloc: Global, remote: Option<RemoteConfigStatus>) -> RemoteConfigStatus
    ensures filled { Present (remote_config_status_columns result) ≡ filled (One tables.RemoteConfigStatus) (one_of remote_config_status_columns remote) }
{
    match remote {
        Some(remote) => remote,
        None => RemoteConfigStatus {
            last_remote_config_hash: Blob::new(alloc),
            status: 0,
            error_message: Text::new(alloc),
        },
    }
}

fn packages_or_none(
    alloc: Global,
    packages: Option<PackageStatusesDraft>,
) -> Result<PackageStatuses, NoMemory>
    ensures filled { IfOk result (λ m. Present (package_statuses_columns m) ≡ filled (One tables.PackageStatuses) (one_of package_statuses_draft_columns packages)) }
{
    match packages {
        Some(draft) => Ok(draft.settle(alloc)?),
        None => Ok(PackageStatuses {
            packages: Map::new(alloc),
            server_provided_all_packages_hash: Blob::new(alloc),
            error_message: Text::new(alloc),
        }),
    }
}

/// The fields that were read, with the empty message for each that is absent.
pub fn fill(alloc: Global, draft: SavedDraft) -> Result<SavedParts, NoMemory>
    ensures filled { IfOk result (λ parts. parts_columns parts ≡ all_filled (rows_of tables.SavedState) (draft_columns draft)) }
{
    Ok(SavedParts {
        uid: draft.uid,
        limit: draft.limit,
        uid_given: draft.uid_given,
        endpoint: draft.endpoint,
        headers: headers_or_none(alloc, draft.headers),
        interval: draft.interval,
        settings_hash: draft.settings_hash,
        config: config_or_none(alloc, draft.config)?,
        remote: remote_or_none(alloc, draft.remote),
        packages: packages_or_none(alloc, draft.packages)?,
        config_hash: draft.config_hash,
        components_hash: draft.components_hash,
    })
}

// The value of these fields with this identifier.
pub fn saved_of(uid: Uid, parts: SavedParts) -> Saved
    requires uid { uid ≡ parts.uid }
    ensures columns { saved_columns result ≡ parts_columns parts }
{
    Saved {
        uid,
        limit: parts.limit,
        uid_given: parts.uid_given,
        settings: Settings {
            endpoint: parts.endpoint,
            headers: parts.headers,
            interval: parts.interval,
            hash: parts.settings_hash,
        },
        config: parts.config,
        config_hash: parts.config_hash,
        remote: parts.remote,
        packages: parts.packages,
        components_hash: parts.components_hash,
    }
}
