//! Whole reports as canonical bytes, and parts of them.

ghost use Rattle.std.specs.Prelude.{◌≡◌, ◌<◌, ◌^◌, ◌++◌, length, min, OnOk, IfOk, IfErr};
ghost use Rattle.message_codec.specs.Row.{Appends};
ghost use Rattle.sha2.specs.Sha256.{sha256};
ghost use Rattle.message_codec.specs.Tables as tables;
ghost use Rattle.message_codec.specs.Canonical.{canonical, capped};
ghost use Rattle.message_codec.specs.Fits.{FitsMessage};
ghost use Rattle.message_reports.specs.Components.{canonical_components, components_hash};
ghost use Rattle.message_reports.specs.Columns.{package_statuses_columns, remote_config_status_columns};
ghost use Rattle.message_reports.specs.ReportColumns.{agent_to_server_columns};
ghost use Rattle.message_reports.specs.Reports.{canonical_report, report_levels, IsWrittenReport, MeansReport, ReportFails};

use crate::components_written::LENGTH_LIMIT;
use crate::decoding::decode_report;
use message_codec::reader::items::ReadFail;
use message_codec::wire::Out;
use message_codec::writer::counting::count_map;
use message_codec::writer::encoding::{WriteFail, append_message, encode};
use message_codec::writer::putting::put_map;
use message_codec::writer::written::Written;
use message_values::{AgentToServer, ComponentDetails, PackageStatuses, RemoteConfigStatus};
use plain_values::{Blob, Map, NoMemory};
use sha2::{Digest, Sha256};
use std::alloc::Global;

/// The canonical bytes of a report, which mean the report. It is `TooLarge` exactly where they are more than 4,194,304, and `TooDeep` exactly
/// where they are not, and messages nest more than 100 levels deep.
#[tactic(auto, unfolding(crate::specs::Reports::canonical_report))]
pub fn encode_report(alloc: Global, message: &AgentToServer) -> Result<Blob, WriteFail>
    ensures written { IfOk result (IsWrittenReport message.now) }
    ensures read_again { IfOk result (λ bytes. MeansReport bytes message.now) }
    ensures failed { IfErr result (ReportFails message.now) }
{
    encode(alloc, message)
}

/// How many canonical bytes a report has, or 2^62 where they are more. It takes no memory.
#[tactic(auto, unfolding(crate::specs::Reports::canonical_report))]
pub fn report_len(message: &AgentToServer) -> u64
    ensures counts { result ≡ capped (canonical_report message.now) }
    ensures fits { FitsMessage tables.AgentToServer (agent_to_server_columns message.now) }
{
    message.len()
}

/// How many levels of messages a report has, itself included, or 101 where there are more. It takes no memory.
pub fn report_levels(message: &AgentToServer) -> u64
    ensures counts { result ≡ min (report_levels message.now) 101 }
{
    1 + message.deepest()
}

/// Appends the canonical bytes of a report, which are fewer than 2^62, as `report_len` tells. Up to the row's spare it succeeds; where memory
/// runs out the row stays as it was.
#[tactic(auto, unfolding(crate::specs::Reports::canonical_report))]
pub fn put_report(out: &mut Out, message: &AgentToServer) -> Result<(), NoMemory>
    requires few { length (canonical_report message.now) < 2 ^ 62 }
    ensures appends { Appends out.old out.new (canonical_report message.now) result }
{
    append_message(out, message)
}

/// Appends the canonical bytes of a report, of which there are `len`, fewer than 2^62. It is `put_report` for a caller that has measured the report,
/// which isn't gone over once more.
#[tactic(auto, unfolding(crate::specs::Reports::canonical_report))]
pub fn put_measured_report(out: &mut Out, message: &AgentToServer, len: u64) -> Result<(), NoMemory>
    requires few { length (canonical_report message.now) < 2 ^ 62 }
    requires measured { len ≡ length (canonical_report message.now) }
    ensures appends { Appends out.old out.new (canonical_report message.now) result }
{
    out.reserve(len)?;
    message.put(out)
}

/// How many canonical bytes a RemoteConfigStatus has, or 2^62 where they are more. It takes no memory.
pub fn remote_config_status_len(message: &RemoteConfigStatus) -> u64
    ensures counts { result ≡ capped (canonical tables.RemoteConfigStatus (remote_config_status_columns message.now)) }
    ensures fits { FitsMessage tables.RemoteConfigStatus (remote_config_status_columns message.now) }
{
    message.len()
}

/// Appends the canonical bytes of a RemoteConfigStatus, as `put_report` does.
pub fn put_remote_config_status(out: &mut Out, message: &RemoteConfigStatus) -> Result<(), NoMemory>
    requires few { length (canonical tables.RemoteConfigStatus (remote_config_status_columns message.now)) < 2 ^ 62 }
    ensures appends { Appends out.old out.new (canonical tables.RemoteConfigStatus (remote_config_status_columns message.now)) result }
{
    append_message(out, message)
}

/// How many canonical bytes a PackageStatuses has, or 2^62 where they are more. It takes no memory.
pub fn package_statuses_len(message: &PackageStatuses) -> u64
    ensures counts { result ≡ capped (canonical tables.PackageStatuses (package_statuses_columns message.now)) }
    ensures fits { FitsMessage tables.PackageStatuses (package_statuses_columns message.now) }
{
    message.len()
}

/// Appends the canonical bytes of a PackageStatuses, as `put_report` does.
pub fn put_package_statuses(out: &mut Out, message: &PackageStatuses) -> Result<(), NoMemory>
    requires few { length (canonical tables.PackageStatuses (package_statuses_columns message.now)) < 2 ^ 62 }
    ensures appends { Appends out.old out.new (canonical tables.PackageStatuses (package_statuses_columns message.now)) result }
{
    append_message(out, message)
}

// Appends the canonical bytes of the AvailableComponents with these components and no hash.
#[tactic(auto, unfolding(message_codec::specs::Canonical::plus_length))]
fn put_components(out: &mut Out, components: &Map<ComponentDetails>) -> Result<(), NoMemory>
    ensures puts { OnOk result (out.new.bytes ≡ out.old.bytes ++ canonical_components components.now) }
{
    let len = count_map(0, 1, components);
    if len >= LENGTH_LIMIT {
        return Err(NoMemory);
    }
    out.reserve(len)?;
    put_map(out, 1, components)
}

/// The hash by which an agent tells these components (OpAMP specification, "AvailableComponents.hash"): empty for no components, else the SHA-256
/// (FIPS 180-4) of the canonical bytes of the AvailableComponents that has them and no hash.
pub fn components_hash(alloc: Global, components: &Map<ComponentDetails>) -> Result<Blob, NoMemory>
    ensures hash { IfOk result (λ hash. hash ≡ components_hash components.now) }
{
    if components.is_empty() {
        return Ok(Blob::of(Vec::new(alloc)));
    }
    let mut out = Out::new(alloc);
    put_components(&mut out, components)?;
    hash_of(alloc, &out)
}

// The SHA-256 of the row's bytes.
fn hash_of(alloc: Global, out: &Out) -> Result<Blob, NoMemory>
    ensures hash { IfOk result (λ hash. hash ≡ sha256 out.now.bytes) }
{
    let digest = Sha256::digest(out.as_slice());
    Ok(Blob::of(Vec::from_slice(alloc, &digest)?))
}

/// Encodes a report and decodes it again. What was encoded is never refused, and it is the same report.
pub fn read_back(alloc: Global, message: &AgentToServer) -> Result<AgentToServer, WriteFail>
    ensures same { IfOk result (λ again. again ≡ message.now) }
    ensures failed { IfErr result (ReportFails message.now) }
{
    let bytes = encode_report(alloc, message)?;
    match decode_report(alloc, bytes.as_slice()) {
        Ok(again) => Ok(again),
        Err(ReadFail::NoMemory) => Err(WriteFail::NoMemory),
        Err(ReadFail::Refused(_)) => unreachable!(),
    }
}
