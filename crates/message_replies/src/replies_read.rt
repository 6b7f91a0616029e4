//! Reading of replies and their other parts.

ghost use Rattle.std.specs.Prelude.{◌≡◌, IfOk};
ghost use Rattle.message_codec.specs.Read.{one_of};
ghost use Rattle.message_replies.specs.ReplyColumns.{packages_available_columns, remote_config_columns, server_to_agent_columns};
ghost use Rattle.message_replies.specs.DraftColumns.{packages_available_draft_columns, remote_config_draft_columns, server_to_agent_draft_columns};

use crate::Server;
use crate::packages_read::PackagesAvailableDraft;
use message_attributes::parts::AgentConfigMapDraft;
use message_codec::reader::columns::{take_blob, take_enum, take_text, take_unsigned};
use message_codec::reader::items::{Item, ReadFail};
use message_codec::reader::message::{Message, take_one};
use message_values::{
    AgentIdentification, AgentRemoteConfig, ConnectionSettingsOffers, CustomCapabilities,
    CustomMessage, PackagesAvailable, RetryInfo, ServerErrorResponse, ServerToAgent,
    ServerToAgentCommand,
};
use plain_values::{Blob, NoMemory, Text};
use std::alloc::Global;

/// An AgentRemoteConfig while it is read.
#[derive(Drop)]
pub struct AgentRemoteConfigDraft {
    /// The files offered, as they came.
    pub config: Option<AgentConfigMapDraft>,
    pub config_hash: Blob,
}

impl AgentRemoteConfigDraft {
    /// The message that was read.
    pub fn settle(self, alloc: Global) -> Result<AgentRemoteConfig, NoMemory>
        ensures columns { IfOk result (λ m. remote_config_columns m ≡ remote_config_draft_columns self) }
    {
        let AgentRemoteConfigDraft {
            config,
            config_hash,
        } = self;
        match config {
            None => Ok(AgentRemoteConfig {
                config: None,
                config_hash,
            }),
            Some(draft) => Ok(AgentRemoteConfig {
                config: Some(draft.settle(alloc)?),
                config_hash,
            }),
        }
    }
}

impl Message<Server> for AgentRemoteConfigDraft {
    ghost use Rattle.message_codec.specs.Tables as tables;
    ghost use Rattle.message_replies.specs.DraftColumns.{remote_config_draft_columns};

    ghost name = { tables.AgentRemoteConfig };

    ghost columns = { remote_config_draft_columns };

    fn empty(alloc: Global) -> AgentRemoteConfigDraft {
        AgentRemoteConfigDraft {
            config: None,
            config_hash: Blob::new(alloc),
        }
    }

    fn take(
        &mut self,
        alloc: Global,
        bytes: &[u8],
        item: &Item,
        below: u32,
    ) -> Result<(), ReadFail> {
        match item.number {
            1 => take_one(alloc, &mut self.config, bytes, item, below)?,
            2 => take_blob(alloc, &mut self.config_hash, bytes, item)?,
            _ => {}
        }
        Ok(())
    }
}

impl Message<Server> for RetryInfo {
    ghost use Rattle.message_codec.specs.Tables as tables;
    ghost use Rattle.message_replies.specs.ReplyColumns.{retry_info_columns};

    ghost name = { tables.RetryInfo };

    ghost columns = { retry_info_columns };

    fn empty(_alloc: Global) -> RetryInfo {
        RetryInfo {
            retry_after_nanoseconds: 0,
        }
    }

    fn take(
        &mut self,
        _alloc: Global,
        bytes: &[u8],
        item: &Item,
        _below: u32,
    ) -> Result<(), ReadFail> {
        match item.number {
            1 => take_unsigned(&mut self.retry_after_nanoseconds, bytes, item),
            _ => {}
        }
        Ok(())
    }
}

impl Message<Server> for ServerErrorResponse {
    ghost use Rattle.message_codec.specs.Tables as tables;
    ghost use Rattle.message_replies.specs.ReplyColumns.{error_response_columns};

    ghost name = { tables.ServerErrorResponse };

    ghost columns = { error_response_columns };

    fn empty(alloc: Global) -> ServerErrorResponse {
        ServerErrorResponse {
            kind: 0,
            error_message: Text::new(alloc),
            retry_info: None,
        }
    }

    fn take(
        &mut self,
        alloc: Global,
        bytes: &[u8],
        item: &Item,
        below: u32,
    ) -> Result<(), ReadFail> {
        match item.number {
            1 => take_enum(&mut self.kind, bytes, item),
            2 => take_text(alloc, &mut self.error_message, bytes, item)?,
            3 => take_one(alloc, &mut self.retry_info, bytes, item, below)?,
            _ => {}
        }
        Ok(())
    }
}

impl Message<Server> for AgentIdentification {
    ghost use Rattle.message_codec.specs.Tables as tables;
    ghost use Rattle.message_replies.specs.ReplyColumns.{identification_columns};

    ghost name = { tables.AgentIdentification };

    ghost columns = { identification_columns };

    fn empty(alloc: Global) -> AgentIdentification {
        AgentIdentification {
            new_instance_uid: Blob::new(alloc),
        }
    }

    fn take(
        &mut self,
        alloc: Global,
        bytes: &[u8],
        item: &Item,
        _below: u32,
    ) -> Result<(), ReadFail> {
        match item.number {
            1 => take_blob(alloc, &mut self.new_instance_uid, bytes, item)?,
            _ => {}
        }
        Ok(())
    }
}

impl Message<Server> for ServerToAgentCommand {
    ghost use Rattle.message_codec.specs.Tables as tables;
    ghost use Rattle.message_replies.specs.ReplyColumns.{command_columns};

    ghost name = { tables.ServerToAgentCommand };

    ghost columns = { command_columns };

    fn empty(_alloc: Global) -> ServerToAgentCommand {
        ServerToAgentCommand { kind: 0 }
    }

    fn take(
        &mut self,
        _alloc: Global,
        bytes: &[u8],
        item: &Item,
        _below: u32,
    ) -> Result<(), ReadFail> {
        match item.number {
            1 => take_enum(&mut self.kind, bytes, item),
            _ => {}
        }
        Ok(())
    }
}

/// A ServerToAgent while it is read: its fields, of which those that hold maps are not settled yet.
#[derive(Drop)]
pub struct ServerToAgentDraft {
    pub instance_uid: Blob,
    pub error_response: Option<ServerErrorResponse>,
    pub remote_config: Option<AgentRemoteConfigDraft>,
    pub connection_settings: Option<ConnectionSettingsOffers>,
    pub packages_available: Option<PackagesAvailableDraft>,
    pub flags: u64,
    pub capabilities: u64,
    pub agent_identification: Option<AgentIdentification>,
    pub command: Option<ServerToAgentCommand>,
    pub custom_capabilities: Option<CustomCapabilities>,
    pub custom_message: Option<CustomMessage>,
}

fn settle_config(
    alloc: Global,
    draft: Option<AgentRemoteConfigDraft>,
) -> Result<Option<AgentRemoteConfig>, NoMemory>
    ensures columns { IfOk result (λ m. one_of remote_config_columns m ≡ one_of remote_config_draft_columns draft) }
{
    match draft {
        None => Ok(None),
        Some(draft) => Ok(Some(draft.settle(alloc)?)),
    }
}

fn settle_packages(
    alloc: Global,
    draft: Option<PackagesAvailableDraft>,
) -> Result<Option<PackagesAvailable>, NoMemory>
    ensures columns { IfOk result (λ m. one_of packages_available_columns m ≡ one_of packages_available_draft_columns draft) }
{
    match draft {
        None => Ok(None),
        Some(draft) => Ok(Some(draft.settle(alloc)?)),
    }
}

// What of a reply holds maps.
#[derive(Drop)]
struct SettledMaps {
    remote_config: Option<AgentRemoteConfig>,
    packages_available: Option<PackagesAvailable>,
}

// Settles what holds maps. It borrows what it settles, so that nothing else has to be let go where memory runs out.
fn settle_maps(
    alloc: Global,
    config: &mut Option<AgentRemoteConfigDraft>,
    packages: &mut Option<PackagesAvailableDraft>,
) -> Result<SettledMaps, NoMemory>
    ensures config { IfOk result (λ m. one_of remote_config_columns m.remote_config ≡ one_of remote_config_draft_columns config.old) }
    ensures packages { IfOk result (λ m. one_of packages_available_columns m.packages_available ≡ one_of packages_available_draft_columns packages.old) }
{
    let remote_config = settle_config(alloc, config.take())?;
    Ok(SettledMaps {
        remote_config,
        packages_available: settle_packages(alloc, packages.take())?,
    })
}

// The reply of a draft whose maps were settled.
fn reply_of(draft: ServerToAgentDraft, settled: SettledMaps) -> ServerToAgent
    ensures reply { result ≡ record { instance_uid = draft.instance_uid; error_response = draft.error_response; remote_config = settled.remote_config; connection_settings = draft.connection_settings; packages_available = settled.packages_available; flags = draft.flags; capabilities = draft.capabilities; agent_identification = draft.agent_identification; command = draft.command; custom_capabilities = draft.custom_capabilities; custom_message = draft.custom_message } }
{
    drop(draft.remote_config);
    drop(draft.packages_available);
    ServerToAgent {
        instance_uid: draft.instance_uid,
        error_response: draft.error_response,
        remote_config: settled.remote_config,
        connection_settings: draft.connection_settings,
        packages_available: settled.packages_available,
        flags: draft.flags,
        capabilities: draft.capabilities,
        agent_identification: draft.agent_identification,
        command: draft.command,
        custom_capabilities: draft.custom_capabilities,
        custom_message: draft.custom_message,
    }
}

impl ServerToAgentDraft {
    /// The message that was read.
    pub fn settle(mut self, alloc: Global) -> Result<ServerToAgent, NoMemory>
        ensures columns { IfOk result (λ m. server_to_agent_columns m ≡ server_to_agent_draft_columns self) }
    {
        match settle_maps(alloc, &mut self.remote_config, &mut self.packages_available) {
            Ok(settled) => Ok(reply_of(self, settled)),
            Err(fail) => {
                drop(self);
                Err(fail)
            }
        }
    }
}

impl Message<Server> for ServerToAgentDraft {
    ghost use Rattle.message_codec.specs.Tables as tables;
    ghost use Rattle.message_replies.specs.DraftColumns.{server_to_agent_draft_columns};

    ghost name = { tables.ServerToAgent };

    ghost columns = { server_to_agent_draft_columns };

    fn empty(alloc: Global) -> ServerToAgentDraft {
        ServerToAgentDraft {
            instance_uid: Blob::new(alloc),
            error_response: None,
            remote_config: None,
            connection_settings: None,
            packages_available: None,
            flags: 0,
            capabilities: 0,
            agent_identification: None,
            command: None,
            custom_capabilities: None,
            custom_message: None,
        }
    }

    fn take(
        &mut self,
        alloc: Global,
        bytes: &[u8],
        item: &Item,
        below: u32,
    ) -> Result<(), ReadFail> {
        match item.number {
            1 => take_blob(alloc, &mut self.instance_uid, bytes, item),
            2 => take_one(alloc, &mut self.error_response, bytes, item, below),
            3 => take_one(alloc, &mut self.remote_config, bytes, item, below),
            4 => take_one(alloc, &mut self.connection_settings, bytes, item, below),
            5 => take_one(alloc, &mut self.packages_available, bytes, item, below),
            6 => {
                take_unsigned(&mut self.flags, bytes, item);
                Ok(())
            }
            7 => {
                take_unsigned(&mut self.capabilities, bytes, item);
                Ok(())
            }
            8 => take_one(alloc, &mut self.agent_identification, bytes, item, below),
            9 => take_one(alloc, &mut self.command, bytes, item, below),
            10 => take_one(alloc, &mut self.custom_capabilities, bytes, item, below),
            11 => take_one(alloc, &mut self.custom_message, bytes, item, below),
            _ => Ok(()),
        }
    }
}
