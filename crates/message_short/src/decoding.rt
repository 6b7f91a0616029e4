//! Reports as they are read, most of them at a glance.

ghost use Rattle.std.specs.Prelude.{◌≡◌, IfOk, IfErr, option_map};
ghost use Rattle.message_codec.specs.Read.{FailsWith};
ghost use Rattle.message_codec.specs.declared.reader.items.ReadFail.TheVariants.{NoMemory};
ghost use Rattle.message_reports.specs.Reports.{MeansReport, ReportFault};
ghost use Rattle.message_short.specs.Short.{health_of, report_of};

use crate::reading::{ShortReport, short_report};
use message_codec::reader::items::ReadFail;
use message_reports::decoding::decode_report as decode_any;
use message_values::{AgentToServer, ComponentHealth};
use plain_values::{Blob, Map, Text};
use std::alloc::Global;

// A health that tells but whether the agent is healthy. Takes no memory.
fn health_of(alloc: Global, healthy: bool) -> ComponentHealth
    ensures health { result ≡ health_of healthy }
{
    ComponentHealth {
        healthy,
        start_time_unix_nano: 0,
        last_error: Text::of(String::new(alloc)),
        status: Text::of(String::new(alloc)),
        status_time_unix_nano: 0,
        component_health_map: Map::new(alloc),
    }
}

// The health, if the report has one. Takes no memory.
fn health_told(alloc: Global, healthy: Option<bool>) -> Option<ComponentHealth>
    ensures health { result ≡ option_map health_of healthy }
{
    match healthy {
        Some(healthy) => Some(health_of(alloc, healthy)),
        None => None,
    }
}

// The report that tells what the short one does, and nothing else.
fn report_of(alloc: Global, short: &ShortReport) -> Result<AgentToServer, ReadFail>
    ensures report { IfOk result (λ report. report ≡ report_of short.now) }
    ensures only_memory { IfErr result (λ fail. fail ≡ NoMemory) }
{
    let uid = Vec::from_slice(alloc, short.instance_uid.as_slice())?;
    Ok(AgentToServer {
        instance_uid: Blob::of(uid),
        sequence_num: short.sequence_num,
        agent_description: None,
        capabilities: short.capabilities,
        health: health_told(alloc, short.healthy),
        effective_config: None,
        remote_config_status: None,
        package_statuses: None,
        agent_disconnect: None,
        flags: 0,
        custom_capabilities: None,
        custom_message: None,
        available_components: None,
    })
}

// Reads any report. Apart, since few aren't short and it has some hundreds of bytes of locals.
#[inline(never)]
fn read_any(alloc: Global, bytes: &[u8]) -> Result<AgentToServer, ReadFail>
    ensures means { IfOk result (MeansReport bytes.now) }
    ensures refused { FailsWith result (ReportFault bytes.now) }
{
    decode_any(alloc, bytes)
}

/// Reads an AgentToServer (OpAMP specification, "AgentToServer Message") as `message_reports::decoding::decode_report` does, and a short one at a
/// glance.
pub fn decode_report(alloc: Global, bytes: &[u8]) -> Result<AgentToServer, ReadFail>
    ensures means { IfOk result (MeansReport bytes.now) }
    ensures refused { FailsWith result (ReportFault bytes.now) }
{
    match short_report(bytes) {
        Some(short) => report_of(alloc, &short),
        None => read_any(alloc, bytes),
    }
}
