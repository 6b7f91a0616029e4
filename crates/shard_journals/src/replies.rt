//! The replies that are due after reports alone, by their parts.

ghost use Rattle.std.specs.Prelude.{◌≡◌, ◌⊎◌, [], IfOk, IfSome, None, Some, if◌then◌else◌};
ghost use Rattle.std.specs.Option.{option_map};
ghost use Rattle.shard_journals.specs.PlainReplies.{IsPlainTo, error_text};
ghost use Rattle.shard_journals.specs.Rows.{error_of, reply_of};

use message_values::{AgentToServer, RetryInfo, ServerErrorResponse, ServerToAgent};
use plain_values::{Blob, NoMemory, Plain, Text};
use std::alloc::Global;

/// The error of a reply, without its text, which follows from the report (OpAMP specification, "ServerErrorResponse
/// Message").
#[derive(Clone, Copy, PartialEq, Eq)]
pub struct PlainError {
    /// The field `type`: 1 is a bad request and 2 an unavailable server.
    pub kind: i32,
    /// How long the client is to wait, in nanoseconds, where it may try again.
    pub retry_after_nanoseconds: Option<u64>,
}

/// The parts of a reply that offers and orders nothing. With the report that it answers they are the whole reply, which so
/// takes no memory of its own.
#[derive(Clone, Copy, PartialEq, Eq)]
pub struct PlainReply {
    /// Whether the reply names the report's agent; else it names none.
    pub named: bool,
    /// Why the report was not taken.
    pub error: Option<PlainError>,
    /// The bits of `ServerToAgentFlags`.
    pub flags: u64,
    /// What the server can do, as the bits of `ServerCapabilities`.
    pub capabilities: u64,
}

impl PlainReply {
    /// The parts of a reply to this report. Takes no memory.
    pub fn of(report: &AgentToServer, reply: &ServerToAgent) -> PlainReply
        requires plain { IsPlainTo report.now reply.now }
        ensures reply { reply_of report.now result ≡ reply.now }
    {
        PlainReply {
            named: is_named(report, reply),
            error: error_in(report, reply),
            flags: reply.flags,
            capabilities: reply.capabilities,
        }
    }

    /// The reply to this report that has these parts.
    pub fn message(self, alloc: Global, report: &AgentToServer) -> Result<ServerToAgent, NoMemory>
        ensures reply { IfOk result (λ reply. reply ≡ reply_of report.now self) }
    {
        let error_response = error_of(alloc, report, self.error)?;
        let instance_uid = identifier_of(alloc, report, self.named)?;
        Ok(ServerToAgent {
            instance_uid,
            error_response,
            remote_config: None,
            connection_settings: None,
            packages_available: None,
            flags: self.flags,
            capabilities: self.capabilities,
            agent_identification: None,
            command: None,
            custom_capabilities: None,
            custom_message: None,
        })
    }
}

// Whether the reply names the report's agent.
fn is_named(report: &AgentToServer, reply: &ServerToAgent) -> bool
    requires one { (reply.now.instance_uid ≡ report.now.instance_uid) ⊎ (reply.now.instance_uid ≡ []) }
    ensures named { (if result then report.now.instance_uid else []) ≡ reply.now.instance_uid }
{
    !reply.instance_uid.as_slice().is_empty()
}

fn error_in(report: &AgentToServer, reply: &ServerToAgent) -> Option<PlainError>
    requires text { IfSome reply.now.error_response (λ e. e.error_message ≡ error_text report.now) }
    ensures error { option_map (error_of report.now) result ≡ reply.now.error_response }
{
    match &reply.error_response {
        None => None,
        Some(error) => Some(PlainError {
            kind: error.kind,
            retry_after_nanoseconds: retry_in(error),
        }),
    }
}

fn retry_in(error: &ServerErrorResponse) -> Option<u64>
    ensures retry { option_map (λ n. record { retry_after_nanoseconds = n }) result ≡ error.now.retry_info }
{
    match &error.retry_info {
        None => None,
        Some(retry) => Some(retry.retry_after_nanoseconds),
    }
}

fn identifier_of(alloc: Global, report: &AgentToServer, named: bool) -> Result<Blob, NoMemory>
    ensures identifier { IfOk result (λ uid. uid ≡ (if named then report.now.instance_uid else [])) }
{
    if named {
        report.instance_uid.copy(alloc)
    } else {
        Ok(Blob::of(Vec::new(alloc)))
    }
}

fn error_of(
    alloc: Global,
    report: &AgentToServer,
    error: Option<PlainError>,
) -> Result<Option<ServerErrorResponse>, NoMemory>
    ensures error { IfOk result (λ made. made ≡ option_map (error_of report.now) error) }
{
    match error {
        None => Ok(None),
        Some(error) => {
            let error_message = Text::of(String::from_str(alloc, error_text(report))?);
            Ok(Some(ServerErrorResponse {
                kind: error.kind,
                error_message,
                retry_info: retry_of(error.retry_after_nanoseconds),
            }))
        }
    }
}

fn retry_of(nanoseconds: Option<u64>) -> Option<RetryInfo>
    ensures retry { result ≡ option_map (λ n. record { retry_after_nanoseconds = n }) nanoseconds }
{
    match nanoseconds {
        None => None,
        Some(retry_after_nanoseconds) => Some(RetryInfo {
            retry_after_nanoseconds,
        }),
    }
}

fn error_text(report: &AgentToServer) -> &'static str
    ensures text { result.now ≡ error_text report.now }
{
    if report.instance_uid.as_slice().len() == 16 {
        "too many agents"
    } else {
        "bad instance_uid"
    }
}
