//! Whole replies as canonical bytes, and parts of them.

ghost use Rattle.std.specs.Prelude.{◌≡◌, ◌<◌, ◌^◌, length, IfOk, IfErr};
ghost use Rattle.message_codec.specs.Row.{Appends};
ghost use Rattle.message_codec.specs.Tables as tables;
ghost use Rattle.message_codec.specs.Canonical.{capped};
ghost use Rattle.message_codec.specs.Fits.{FitsMessage};
ghost use Rattle.message_replies.specs.Canonical.{canonical_agent_remote_config, canonical_connection_settings_offers, canonical_headers, canonical_package_available, canonical_packages_available, canonical_reply, IsWrittenReply, ReplyFails};
ghost use Rattle.message_replies.specs.Replies.{MeansReply};
ghost use Rattle.message_replies.specs.ReplyColumns.{connection_offers_columns, headers_columns, package_available_columns, packages_available_columns, remote_config_columns, server_to_agent_columns};

use message_codec::wire::Out;
use message_codec::writer::encoding::{WriteFail, append_message, encode};
use message_codec::writer::written::Written;
use message_values::{
    AgentRemoteConfig, ConnectionSettingsOffers, PackageAvailable, PackagesAvailable, ServerToAgent,
};
use plain_values::{Blob, Headers, NoMemory};
use std::alloc::Global;

/// The canonical bytes of a reply, which mean the reply. It is `TooLarge` exactly where they are more than 4,194,304, and never `TooDeep`.
#[tactic(auto, unfolding(crate::specs::Canonical::canonical_reply))]
pub fn encode_reply(alloc: Global, message: &ServerToAgent) -> Result<Blob, WriteFail>
    ensures written { IfOk result (IsWrittenReply message.now) }
    ensures read_again { IfOk result (λ bytes. MeansReply bytes message.now) }
    ensures failed { IfErr result (ReplyFails message.now) }
{
    encode(alloc, message)
}

/// How many canonical bytes a reply has, or 2^62 where they are more. It takes no memory.
#[tactic(auto, unfolding(crate::specs::Canonical::canonical_reply))]
pub fn reply_len(message: &ServerToAgent) -> u64
    ensures counts { result ≡ capped (canonical_reply message.now) }
    ensures fits { FitsMessage tables.ServerToAgent (server_to_agent_columns message.now) }
{
    message.len()
}

/// Appends the canonical bytes of a reply, which are fewer than 2^62, as `reply_len` tells. Up to the row's spare it
/// succeeds; where memory runs out the row stays as it was.
#[tactic(auto, unfolding(crate::specs::Canonical::canonical_reply))]
pub fn put_reply(out: &mut Out, message: &ServerToAgent) -> Result<(), NoMemory>
    requires few { length (canonical_reply message.now) < 2 ^ 62 }
    ensures appends { Appends out.old out.new (canonical_reply message.now) result }
{
    append_message(out, message)
}

/// How many canonical bytes a Headers has, or 2^62 where they are more. It takes no memory.
#[tactic(auto, unfolding(crate::specs::Canonical::canonical_headers))]
pub fn headers_len(message: &Headers) -> u64
    ensures counts { result ≡ capped (canonical_headers message.now) }
    ensures fits { FitsMessage tables.Headers (headers_columns message.now) }
{
    message.len()
}

/// Appends the canonical bytes of a Headers, as `put_reply` does.
#[tactic(auto, unfolding(crate::specs::Canonical::canonical_headers))]
pub fn put_headers(out: &mut Out, message: &Headers) -> Result<(), NoMemory>
    requires few { length (canonical_headers message.now) < 2 ^ 62 }
    ensures appends { Appends out.old out.new (canonical_headers message.now) result }
{
    append_message(out, message)
}

/// How many canonical bytes an AgentRemoteConfig has, or 2^62 where they are more. It takes no memory.
#[tactic(auto, unfolding(crate::specs::Canonical::canonical_agent_remote_config))]
pub fn agent_remote_config_len(message: &AgentRemoteConfig) -> u64
    ensures counts { result ≡ capped (canonical_agent_remote_config message.now) }
    ensures fits { FitsMessage tables.AgentRemoteConfig (remote_config_columns message.now) }
{
    message.len()
}

/// Appends the canonical bytes of an AgentRemoteConfig, as `put_reply` does.
#[tactic(auto, unfolding(crate::specs::Canonical::canonical_agent_remote_config))]
pub fn put_agent_remote_config(out: &mut Out, message: &AgentRemoteConfig) -> Result<(), NoMemory>
    requires few { length (canonical_agent_remote_config message.now) < 2 ^ 62 }
    ensures appends { Appends out.old out.new (canonical_agent_remote_config message.now) result }
{
    append_message(out, message)
}

/// How many canonical bytes a PackageAvailable has, or 2^62 where they are more. It takes no memory.
#[tactic(auto, unfolding(crate::specs::Canonical::canonical_package_available))]
pub fn package_available_len(message: &PackageAvailable) -> u64
    ensures counts { result ≡ capped (canonical_package_available message.now) }
    ensures fits { FitsMessage tables.PackageAvailable (package_available_columns message.now) }
{
    message.len()
}

/// Appends the canonical bytes of a PackageAvailable, as `put_reply` does.
#[tactic(auto, unfolding(crate::specs::Canonical::canonical_package_available))]
pub fn put_package_available(out: &mut Out, message: &PackageAvailable) -> Result<(), NoMemory>
    requires few { length (canonical_package_available message.now) < 2 ^ 62 }
    ensures appends { Appends out.old out.new (canonical_package_available message.now) result }
{
    append_message(out, message)
}

/// How many canonical bytes a PackagesAvailable has, or 2^62 where they are more. It takes no memory.
#[tactic(auto, unfolding(crate::specs::Canonical::canonical_packages_available))]
pub fn packages_available_len(message: &PackagesAvailable) -> u64
    ensures counts { result ≡ capped (canonical_packages_available message.now) }
    ensures fits { FitsMessage tables.PackagesAvailable (packages_available_columns message.now) }
{
    message.len()
}

/// Appends the canonical bytes of a PackagesAvailable, as `put_reply` does.
#[tactic(auto, unfolding(crate::specs::Canonical::canonical_packages_available))]
pub fn put_packages_available(out: &mut Out, message: &PackagesAvailable) -> Result<(), NoMemory>
    requires few { length (canonical_packages_available message.now) < 2 ^ 62 }
    ensures appends { Appends out.old out.new (canonical_packages_available message.now) result }
{
    append_message(out, message)
}

/// How many canonical bytes a ConnectionSettingsOffers has, or 2^62 where they are more. It takes no memory.
#[tactic(auto, unfolding(crate::specs::Canonical::canonical_connection_settings_offers))]
pub fn connection_settings_offers_len(message: &ConnectionSettingsOffers) -> u64
    ensures counts { result ≡ capped (canonical_connection_settings_offers message.now) }
    ensures fits { FitsMessage tables.ConnectionSettingsOffers (connection_offers_columns message.now) }
{
    message.len()
}

/// Appends the canonical bytes of a ConnectionSettingsOffers, as `put_reply` does.
#[tactic(auto, unfolding(crate::specs::Canonical::canonical_connection_settings_offers))]
pub fn put_connection_settings_offers(
    out: &mut Out,
    message: &ConnectionSettingsOffers,
) -> Result<(), NoMemory>
    requires few { length (canonical_connection_settings_offers message.now) < 2 ^ 62 }
    ensures appends { Appends out.old out.new (canonical_connection_settings_offers message.now) result }
{
    append_message(out, message)
}
