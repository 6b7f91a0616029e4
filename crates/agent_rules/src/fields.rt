//! The fields of what is kept, each under its place.

ghost use Rattle.std.specs.Prelude.{◌≡◌, ℕ};
ghost use Rattle.message_codec.specs.Values.{Value, Number, Flag, Content, Present};
ghost use Rattle.message_attributes.specs.PartColumns.{config_map_columns};
ghost use Rattle.message_reports.specs.Columns.{remote_config_status_columns, package_statuses_columns};
ghost use Rattle.message_replies.specs.ReplyColumns.{headers_columns};
ghost use Rattle.agent_rules.specs.Columns.{parts_columns, column_at};

use crate::parts::SavedParts;
use message_values::{PackageStatuses, RemoteConfigStatus};
use plain_values::{AgentConfigMap, Blob, Headers, Text};

/// A field of what is kept.
pub trait Field<T: Drop> {
    ghost place: { ℕ };

    ghost value: { T → Value };

    /// The field, of all of them.
    fn of(parts: SavedParts) -> T
        ensures value { value result ≡ column_at place (parts_columns parts) };
}

pub struct UidField;

pub struct LimitField;

pub struct GivenField;

pub struct EndpointField;

pub struct HeadersField;

pub struct IntervalField;

pub struct SettingsHashField;

pub struct ConfigField;

pub struct RemoteField;

pub struct PackagesField;

pub struct ConfigHashField;

pub struct ComponentsHashField;

impl Field<Blob> for UidField {
    ghost place = { 0 };

    ghost value = { λ b. Content b };

    fn of(parts: SavedParts) -> Blob {
        parts.uid
    }
}

impl Field<u64> for LimitField {
    ghost place = { 1 };

    ghost value = { λ n. Number n };

    fn of(parts: SavedParts) -> u64 {
        parts.limit
    }
}

impl Field<bool> for GivenField {
    ghost place = { 2 };

    ghost value = { λ b. Flag b };

    fn of(parts: SavedParts) -> bool {
        parts.uid_given
    }
}

impl Field<Text> for EndpointField {
    ghost place = { 3 };

    ghost value = { λ t. Content t };

    fn of(parts: SavedParts) -> Text {
        parts.endpoint
    }
}

impl Field<Headers> for HeadersField {
    ghost place = { 4 };

    ghost value = { λ m. Present (headers_columns m) };

    fn of(parts: SavedParts) -> Headers {
        parts.headers
    }
}

impl Field<u64> for IntervalField {
    ghost place = { 5 };

    ghost value = { λ n. Number n };

    fn of(parts: SavedParts) -> u64 {
        parts.interval
    }
}

impl Field<Blob> for SettingsHashField {
    ghost place = { 6 };

    ghost value = { λ b. Content b };

    fn of(parts: SavedParts) -> Blob {
        parts.settings_hash
    }
}

impl Field<AgentConfigMap> for ConfigField {
    ghost place = { 7 };

    ghost value = { λ m. Present (config_map_columns m) };

    fn of(parts: SavedParts) -> AgentConfigMap {
        parts.config
    }
}

impl Field<RemoteConfigStatus> for RemoteField {
    ghost place = { 8 };

    ghost value = { λ m. Present (remote_config_status_columns m) };

    fn of(parts: SavedParts) -> RemoteConfigStatus {
        parts.remote
    }
}

impl Field<PackageStatuses> for PackagesField {
    ghost place = { 9 };

    ghost value = { λ m. Present (package_statuses_columns m) };

    fn of(parts: SavedParts) -> PackageStatuses {
        parts.packages
    }
}

impl Field<Blob> for ConfigHashField {
    ghost place = { 10 };

    ghost value = { λ b. Content b };

    fn of(parts: SavedParts) -> Blob {
        parts.config_hash
    }
}

impl Field<Blob> for ComponentsHashField {
    ghost place = { 11 };

    ghost value = { λ b. Content b };

    fn of(parts: SavedParts) -> Blob {
        parts.components_hash
    }
}
