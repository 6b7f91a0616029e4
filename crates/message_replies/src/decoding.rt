//! Replies as they come from outside, and parts of them.

ghost use Rattle.std.specs.Prelude.{◌≤◌, suc, ◌-◌, IfOk, length, slice_range};
ghost use Rattle.message_codec.specs.Tables as tables;
ghost use Rattle.message_codec.specs.Means.{Means};
ghost use Rattle.message_codec.specs.Faults.{FaultFrom};
ghost use Rattle.message_codec.specs.Read.{FailsWith};
ghost use Rattle.message_replies.specs.ReplyColumns.{connection_offers_columns, headers_columns, package_available_columns, packages_available_columns, remote_config_columns};
ghost use Rattle.message_replies.specs.Replies.{MeansReply, ReplyFault};

use crate::Server;
use crate::packages_read::PackagesAvailableDraft;
use crate::replies_read::{AgentRemoteConfigDraft, ServerToAgentDraft};
use message_codec::reader::decoding::{decode, read_part};
use message_codec::reader::items::ReadFail;
use message_values::{
    AgentRemoteConfig, ConnectionSettingsOffers, PackageAvailable, PackagesAvailable, ServerToAgent,
};
use plain_values::Headers;
use std::alloc::Global;

/// Reads a ServerToAgent (OpAMP specification, "ServerToAgent Message").
///
/// At most 4,194,304 bytes are taken, and messages nest at most 100 deep. Fields that the message does not have, and those of another wire
/// type, are skipped. An offered certificate is kept as its bytes and is not read.
pub fn decode_reply(alloc: Global, bytes: &[u8]) -> Result<ServerToAgent, ReadFail>
    ensures means { IfOk result (MeansReply bytes.now) }
    ensures refused { FailsWith result (ReplyFault bytes.now) }
{
    let draft = decode::<Server, ServerToAgentDraft>(alloc, bytes)?;
    Ok(draft.settle(alloc)?)
}

/// Reads the bytes from `from` to `to` as a Headers that is nested `level` deep, the outermost message being level 1. The place of a fault counts
/// from the first byte of `bytes`.
pub fn read_headers(
    alloc: Global,
    bytes: &[u8],
    from: u64,
    to: u64,
    level: u32,
) -> Result<Headers, ReadFail>
    requires range { from ≤ to }
    requires within { to ≤ length bytes.now }
    requires level { (1 ≤ level) × (level ≤ 100) }
    ensures means { IfOk result (λ m. Means (suc (100 - level)) tables.Headers (slice_range bytes.now from to) (headers_columns m)) }
    ensures refused { FailsWith result (FaultFrom from (suc (100 - level)) tables.Headers (slice_range bytes.now from to)) }
{
    read_part::<Server, Headers>(alloc, bytes, from, to, level)
}

/// Reads a part of `bytes` as an AgentRemoteConfig, as `read_headers` does.
pub fn read_agent_remote_config(
    alloc: Global,
    bytes: &[u8],
    from: u64,
    to: u64,
    level: u32,
) -> Result<AgentRemoteConfig, ReadFail>
    requires range { from ≤ to }
    requires within { to ≤ length bytes.now }
    requires level { (1 ≤ level) × (level ≤ 100) }
    ensures means { IfOk result (λ m. Means (suc (100 - level)) tables.AgentRemoteConfig (slice_range bytes.now from to) (remote_config_columns m)) }
    ensures refused { FailsWith result (FaultFrom from (suc (100 - level)) tables.AgentRemoteConfig (slice_range bytes.now from to)) }
{
    let draft = read_part::<Server, AgentRemoteConfigDraft>(alloc, bytes, from, to, level)?;
    Ok(draft.settle(alloc)?)
}

/// Reads a part of `bytes` as a PackageAvailable, as `read_headers` does.
pub fn read_package_available(
    alloc: Global,
    bytes: &[u8],
    from: u64,
    to: u64,
    level: u32,
) -> Result<PackageAvailable, ReadFail>
    requires range { from ≤ to }
    requires within { to ≤ length bytes.now }
    requires level { (1 ≤ level) × (level ≤ 100) }
    ensures means { IfOk result (λ m. Means (suc (100 - level)) tables.PackageAvailable (slice_range bytes.now from to) (package_available_columns m)) }
    ensures refused { FailsWith result (FaultFrom from (suc (100 - level)) tables.PackageAvailable (slice_range bytes.now from to)) }
{
    read_part::<Server, PackageAvailable>(alloc, bytes, from, to, level)
}

/// Reads a part of `bytes` as a PackagesAvailable, as `read_headers` does.
pub fn read_packages_available(
    alloc: Global,
    bytes: &[u8],
    from: u64,
    to: u64,
    level: u32,
) -> Result<PackagesAvailable, ReadFail>
    requires range { from ≤ to }
    requires within { to ≤ length bytes.now }
    requires level { (1 ≤ level) × (level ≤ 100) }
    ensures means { IfOk result (λ m. Means (suc (100 - level)) tables.PackagesAvailable (slice_range bytes.now from to) (packages_available_columns m)) }
    ensures refused { FailsWith result (FaultFrom from (suc (100 - level)) tables.PackagesAvailable (slice_range bytes.now from to)) }
{
    let draft = read_part::<Server, PackagesAvailableDraft>(alloc, bytes, from, to, level)?;
    Ok(draft.settle(alloc)?)
}

/// Reads a part of `bytes` as a ConnectionSettingsOffers, as `read_headers` does.
pub fn read_connection_settings_offers(
    alloc: Global,
    bytes: &[u8],
    from: u64,
    to: u64,
    level: u32,
) -> Result<ConnectionSettingsOffers, ReadFail>
    requires range { from ≤ to }
    requires within { to ≤ length bytes.now }
    requires level { (1 ≤ level) × (level ≤ 100) }
    ensures means { IfOk result (λ m. Means (suc (100 - level)) tables.ConnectionSettingsOffers (slice_range bytes.now from to) (connection_offers_columns m)) }
    ensures refused { FailsWith result (FaultFrom from (suc (100 - level)) tables.ConnectionSettingsOffers (slice_range bytes.now from to)) }
{
    read_part::<Server, ConnectionSettingsOffers>(alloc, bytes, from, to, level)
}
