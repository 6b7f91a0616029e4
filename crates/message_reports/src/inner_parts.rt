//! Fields of the parts of a report's parts.

ghost use Rattle.std.specs.Prelude.{◌≡◌, false, OnOk};
ghost use Rattle.message_codec.specs.Tables.{rows_of};
ghost use Rattle.message_codec.specs.Reads.{TakesIn};
ghost use Rattle.message_codec.specs.Read.{IsItem, field_of, FailsWith, FieldFails};
ghost use Rattle.message_reports.specs.Pieces.{part_name, part_columns};
ghost use Rattle.message_reports.specs.InnerParts.{stands_in_report};

use crate::Agent;
use crate::components::{take_details, take_details_entry};
use crate::health::take_health_entry;
use crate::report_parts::ReportPart;
use message_attributes::Shared;
use message_codec::pieces::open_message::OpenMessage;
use message_codec::reader::items::{Item, ReadFail};
use message_codec::reader::message::Message;
use std::alloc::Global;

/// Adds a field to a part that is no field of the report itself. It stands apart from the others' so that each function has half of the parts.
pub(crate) fn take_inner(
    part: &mut ReportPart,
    alloc: Global,
    bytes: &[u8],
    item: &Item,
    below: u32,
) -> Result<(), ReadFail>
    requires item { IsItem bytes.now item.now }
    requires inner { stands_in_report part.old ≡ false }
    ensures name { part_name part.new ≡ part_name part.old }
    ensures ok { OnOk result (TakesIn below (part_name part.old) (field_of bytes.now item.now) (part_columns part.old) (part_columns part.new)) }
    ensures refused { FailsWith result (FieldFails below (rows_of (part_name part.old)) bytes.now item.now) }
{
    match part {
        ReportPart::HealthEntry(m) => take_health_entry(alloc, m, bytes, item, below),
        ReportPart::ConfigMap(m) => Message::<Shared>::take(m, alloc, bytes, item, below),
        ReportPart::ConfigEntry(m) => Message::<Shared>::take(m, alloc, bytes, item, below),
        ReportPart::ConfigFile(m) => Message::<Shared>::take(m, alloc, bytes, item, below),
        ReportPart::PackageEntry(m) => Message::<Agent>::take(m, alloc, bytes, item, below),
        ReportPart::Package(m) => Message::<Agent>::take(m, alloc, bytes, item, below),
        ReportPart::Details(m) => take_details(alloc, m, bytes, item, below),
        ReportPart::DetailsEntry(m) => take_details_entry(alloc, m, bytes, item, below),
        ReportPart::Attribute(m) => m.take(alloc, bytes, item, below),
        _ => unreachable!(),
    }
}
