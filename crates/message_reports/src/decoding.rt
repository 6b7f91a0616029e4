//! Reports as they come from outside, and parts of them.

ghost use Rattle.std.specs.Prelude.{◌≡◌, ◌≤◌, suc, ◌-◌, IfOk, OnOk, length, slice_range};
ghost use Rattle.message_codec.specs.Tables as tables;
ghost use Rattle.message_codec.specs.Means.{Means, empty_of};
ghost use Rattle.message_codec.specs.Faults.{FaultFrom};
ghost use Rattle.message_codec.specs.Read.{FailsWith};
ghost use Rattle.message_reports.specs.Columns.{remote_config_status_columns, package_statuses_columns};
ghost use Rattle.message_reports.specs.ReportColumns.{agent_to_server_draft_columns};
ghost use Rattle.message_reports.specs.Reports.{MeansReport, ReportFault};

use crate::Agent;
use crate::packages::PackageStatusesDraft;
use crate::report::AgentToServerDraft;
use message_codec::reader::decoding::{MOST_BYTES, MOST_LEVELS, read_part};
use message_codec::reader::items::ReadFail;
use message_codec::reader::message::{Message, read_into};
use message_codec::wire::{Refused, Why};
use message_values::{AgentToServer, PackageStatuses, RemoteConfigStatus};
use std::alloc::Global;

// Reads the report into the draft, and settles it. It stands apart so that the report is moved in one place.
fn read_report(alloc: Global, draft: &mut AgentToServerDraft, bytes: &[u8]) -> Result<(), ReadFail>
    requires empty { agent_to_server_draft_columns draft.old ≡ empty_of tables.AgentToServer }
    ensures means { OnOk result (MeansReport bytes.now draft.new.report) }
    ensures refused { FailsWith result (ReportFault bytes.now) }
{
    if bytes.len() as u64 > MOST_BYTES {
        return Err(ReadFail::Refused(Refused {
            at: 0,
            why: Why::TooLarge,
        }));
    }
    read_into::<Agent, AgentToServerDraft>(alloc, draft, bytes, MOST_LEVELS - 1)?;
    draft.settle(alloc)?;
    Ok(())
}

// The report of a draft that is settled.
fn report_in(draft: AgentToServerDraft) -> AgentToServer
    ensures report { result ≡ draft.report }
{
    draft.report
}

/// Reads an AgentToServer (OpAMP specification, "AgentToServer Message").
///
/// At most 4,194,304 bytes are taken, and messages nest at most 100 deep. Fields that the message does not have, and those of another wire
/// type, are skipped.
pub fn decode_report(alloc: Global, bytes: &[u8]) -> Result<AgentToServer, ReadFail>
    ensures means { IfOk result (MeansReport bytes.now) }
    ensures refused { FailsWith result (ReportFault bytes.now) }
{
    let mut draft: AgentToServerDraft = Message::<Agent>::empty(alloc);
    match read_report(alloc, &mut draft, bytes) {
        Ok(()) => Ok(report_in(draft)),
        Err(fail) => {
            drop(draft);
            Err(fail)
        }
    }
}

/// Reads the bytes from `from` to `to` as a RemoteConfigStatus that is nested `level` deep, the outermost message being level 1. The place of
/// a fault counts from the first byte of `bytes`.
pub fn read_remote_config_status(
    alloc: Global,
    bytes: &[u8],
    from: u64,
    to: u64,
    level: u32,
) -> Result<RemoteConfigStatus, ReadFail>
    requires range { from ≤ to }
    requires within { to ≤ length bytes.now }
    requires level { (1 ≤ level) × (level ≤ 100) }
    ensures means { IfOk result (λ m. Means (suc (100 - level)) tables.RemoteConfigStatus (slice_range bytes.now from to) (remote_config_status_columns m)) }
    ensures refused { FailsWith result (FaultFrom from (suc (100 - level)) tables.RemoteConfigStatus (slice_range bytes.now from to)) }
{
    read_part::<Agent, RemoteConfigStatus>(alloc, bytes, from, to, level)
}

/// Reads a part of `bytes` as a PackageStatuses, as `read_remote_config_status` does.
pub fn read_package_statuses(
    alloc: Global,
    bytes: &[u8],
    from: u64,
    to: u64,
    level: u32,
) -> Result<PackageStatuses, ReadFail>
    requires range { from ≤ to }
    requires within { to ≤ length bytes.now }
    requires level { (1 ≤ level) × (level ≤ 100) }
    ensures means { IfOk result (λ m. Means (suc (100 - level)) tables.PackageStatuses (slice_range bytes.now from to) (package_statuses_columns m)) }
    ensures refused { FailsWith result (FaultFrom from (suc (100 - level)) tables.PackageStatuses (slice_range bytes.now from to)) }
{
    let draft = read_part::<Agent, PackageStatusesDraft>(alloc, bytes, from, to, level)?;
    Ok(draft.settle(alloc)?)
}
