//! Replies and their other parts, in canonical form.

ghost use Rattle.std.specs.Prelude.{◌≡◌, ◌<◌, ◌^◌, OnOk, OnErr};
ghost use Rattle.message_codec.specs.Canonical.{needed, put_onto};
ghost use Rattle.message_replies.specs.ReplyColumns.{later_rows, later_columns};

use crate::Server;
use message_codec::wire::Out;
use message_codec::writer::counting::{
    count_blob, count_enum, count_one, count_text, count_unsigned,
};
use message_codec::writer::levels::depth_one;
use message_codec::writer::putting::{put_blob, put_enum, put_one, put_text, put_unsigned};
use message_codec::writer::written::Written;
use message_values::{
    AgentIdentification, AgentRemoteConfig, RetryInfo, ServerErrorResponse, ServerToAgent,
    ServerToAgentCommand,
};
use plain_values::NoMemory;

impl Written<Server> for AgentRemoteConfig {
    ghost use Rattle.message_codec.specs.Tables as tables;
    ghost use Rattle.message_replies.specs.ReplyColumns.{remote_config_columns};

    ghost name = { tables.AgentRemoteConfig };

    ghost columns = { remote_config_columns };

    #[tactic(auto, using(message_codec::proofs::Canonical::count_first, message_codec::proofs::Canonical::count_more))]
    fn len(&self) -> u64 {
        let total = count_one(0, 1, &self.config);
        count_blob(total, 2, &self.config_hash)
    }

    fn deepest(&self) -> u64 {
        depth_one(&self.config)
    }

    fn put(&self, out: &mut Out) -> Result<(), NoMemory> {
        put_one(out, 1, &self.config)?;
        put_blob(out, 2, &self.config_hash)
    }
}

impl Written<Server> for RetryInfo {
    ghost use Rattle.message_codec.specs.Tables as tables;
    ghost use Rattle.message_replies.specs.ReplyColumns.{retry_info_columns};

    ghost name = { tables.RetryInfo };

    ghost columns = { retry_info_columns };

    #[tactic(auto, using(message_codec::proofs::Canonical::count_first, message_codec::proofs::Canonical::count_more))]
    fn len(&self) -> u64 {
        count_unsigned(0, 1, self.retry_after_nanoseconds)
    }

    fn deepest(&self) -> u64 {
        0
    }

    fn put(&self, out: &mut Out) -> Result<(), NoMemory> {
        put_unsigned(out, 1, self.retry_after_nanoseconds)
    }
}

impl Written<Server> for ServerErrorResponse {
    ghost use Rattle.message_codec.specs.Tables as tables;
    ghost use Rattle.message_replies.specs.ReplyColumns.{error_response_columns};

    ghost name = { tables.ServerErrorResponse };

    ghost columns = { error_response_columns };

    #[tactic(auto, using(message_codec::proofs::Canonical::count_first, message_codec::proofs::Canonical::count_more))]
    fn len(&self) -> u64 {
        let total = count_enum(0, 1, self.kind);
        let total = count_text(total, 2, &self.error_message);
        count_one(total, 3, &self.retry_info)
    }

    fn deepest(&self) -> u64 {
        depth_one(&self.retry_info)
    }

    fn put(&self, out: &mut Out) -> Result<(), NoMemory> {
        put_enum(out, 1, self.kind)?;
        put_text(out, 2, &self.error_message)?;
        put_one(out, 3, &self.retry_info)
    }
}

impl Written<Server> for AgentIdentification {
    ghost use Rattle.message_codec.specs.Tables as tables;
    ghost use Rattle.message_replies.specs.ReplyColumns.{identification_columns};

    ghost name = { tables.AgentIdentification };

    ghost columns = { identification_columns };

    #[tactic(auto, using(message_codec::proofs::Canonical::count_first, message_codec::proofs::Canonical::count_more))]
    fn len(&self) -> u64 {
        count_blob(0, 1, &self.new_instance_uid)
    }

    fn deepest(&self) -> u64 {
        0
    }

    fn put(&self, out: &mut Out) -> Result<(), NoMemory> {
        put_blob(out, 1, &self.new_instance_uid)
    }
}

impl Written<Server> for ServerToAgentCommand {
    ghost use Rattle.message_codec.specs.Tables as tables;
    ghost use Rattle.message_replies.specs.ReplyColumns.{command_columns};

    ghost name = { tables.ServerToAgentCommand };

    ghost columns = { command_columns };

    #[tactic(auto, using(message_codec::proofs::Canonical::count_first, message_codec::proofs::Canonical::count_more))]
    fn len(&self) -> u64 {
        count_enum(0, 1, self.kind)
    }

    fn deepest(&self) -> u64 {
        0
    }

    fn put(&self, out: &mut Out) -> Result<(), NoMemory> {
        put_enum(out, 1, self.kind)
    }
}

impl Written<Server> for ServerToAgent {
    ghost use Rattle.message_codec.specs.Tables as tables;
    ghost use Rattle.message_replies.specs.ReplyColumns.{server_to_agent_columns};

    ghost name = { tables.ServerToAgent };

    ghost columns = { server_to_agent_columns };

    #[tactic(auto, using(message_codec::proofs::Canonical::count_first, message_codec::proofs::Canonical::count_more))]
    fn len(&self) -> u64 {
        let total = count_blob(0, 1, &self.instance_uid);
        let total = count_one(total, 2, &self.error_response);
        let total = count_one(total, 3, &self.remote_config);
        let total = count_one(total, 4, &self.connection_settings);
        let total = count_one(total, 5, &self.packages_available);
        let total = count_unsigned(total, 6, self.flags);
        let total = count_unsigned(total, 7, self.capabilities);
        let total = count_one(total, 8, &self.agent_identification);
        let total = count_one(total, 9, &self.command);
        let total = count_one(total, 10, &self.custom_capabilities);
        count_one(total, 11, &self.custom_message)
    }

    fn deepest(&self) -> u64 {
        let most = depth_one(&self.error_response);
        let most = most.max(depth_one(&self.remote_config));
        let most = most.max(depth_one(&self.connection_settings));
        let most = most.max(depth_one(&self.packages_available));
        let most = most.max(depth_one(&self.agent_identification));
        let most = most.max(depth_one(&self.command));
        let most = most.max(depth_one(&self.custom_capabilities));
        most.max(depth_one(&self.custom_message))
    }

    fn put(&self, out: &mut Out) -> Result<(), NoMemory> {
        put_blob(out, 1, &self.instance_uid)?;
        put_one(out, 2, &self.error_response)?;
        put_one(out, 3, &self.remote_config)?;
        put_one(out, 4, &self.connection_settings)?;
        put_one(out, 5, &self.packages_available)?;
        put_later(out, self)
    }
}

// Appends the fields from the flags on.
fn put_later(out: &mut Out, reply: &ServerToAgent) -> Result<(), NoMemory>
    requires few { needed later_rows (later_columns reply.now) < 2 ^ 62 }
    ensures ok { OnOk result (out.new ≡ put_onto out.old later_rows (later_columns reply.now)) }
    ensures short { OnErr result (out.old.spare < needed later_rows (later_columns reply.now)) }
{
    put_unsigned(out, 6, reply.flags)?;
    put_unsigned(out, 7, reply.capabilities)?;
    put_one(out, 8, &reply.agent_identification)?;
    put_one(out, 9, &reply.command)?;
    put_one(out, 10, &reply.custom_capabilities)?;
    put_one(out, 11, &reply.custom_message)
}
