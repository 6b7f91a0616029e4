//! How an agent fares with its packages (OpAMP specification, "PackageStatuses Message").

ghost use Rattle.std.specs.Prelude.{◌≡◌, IfOk};
ghost use Rattle.message_reports.specs.Columns.{package_statuses_columns, package_statuses_draft_columns};

use crate::Agent;
use crate::maps::map_of;
use message_codec::reader::columns::{take_blob, take_enum, take_text};
use message_codec::reader::items::{Item, ReadFail};
use message_codec::reader::message::{Message, take_map};
use message_values::{PackageStatus, PackageStatuses};
use plain_values::{Blob, List, NoMemory, Pair, Text};
use std::alloc::Global;

impl Message<Agent> for PackageStatus {
    ghost use Rattle.message_codec.specs.Tables as tables;
    ghost use Rattle.message_reports.specs.Columns.{package_status_columns};

    ghost name = { tables.PackageStatus };

    ghost columns = { package_status_columns };

    fn empty(alloc: Global) -> PackageStatus {
        PackageStatus {
            name: Text::of(String::new(alloc)),
            agent_has_version: Text::of(String::new(alloc)),
            agent_has_hash: Blob::of(Vec::new(alloc)),
            server_offered_version: Text::of(String::new(alloc)),
            server_offered_hash: Blob::of(Vec::new(alloc)),
            status: 0,
            error_message: Text::of(String::new(alloc)),
        }
    }

    fn take(
        &mut self,
        alloc: Global,
        bytes: &[u8],
        item: &Item,
        _below: u32,
    ) -> Result<(), ReadFail> {
        match item.number {
            1 => take_text(alloc, &mut self.name, bytes, item)?,
            2 => take_text(alloc, &mut self.agent_has_version, bytes, item)?,
            3 => take_blob(alloc, &mut self.agent_has_hash, bytes, item)?,
            4 => take_text(alloc, &mut self.server_offered_version, bytes, item)?,
            5 => take_blob(alloc, &mut self.server_offered_hash, bytes, item)?,
            6 => take_enum(&mut self.status, bytes, item),
            7 => take_text(alloc, &mut self.error_message, bytes, item)?,
            _ => {}
        }
        Ok(())
    }
}

/// A PackageStatuses while it is read: its fields, but for the map.
#[derive(Drop)]
pub struct PackageStatusesDraft {
    /// The entries in the order in which they came.
    pub packages: List<Pair<PackageStatus>>,
    pub server_provided_all_packages_hash: Blob,
    pub error_message: Text,
}

impl PackageStatusesDraft {
    /// The message that was read, of each key the last entry. Takes time of n log n in the number of entries.
    pub fn settle(self, alloc: Global) -> Result<PackageStatuses, NoMemory>
        ensures columns { IfOk result (λ m. package_statuses_columns m ≡ package_statuses_draft_columns self) }
    {
        Ok(PackageStatuses {
            packages: map_of(alloc, self.packages)?,
            server_provided_all_packages_hash: self.server_provided_all_packages_hash,
            error_message: self.error_message,
        })
    }
}

impl Message<Agent> for PackageStatusesDraft {
    ghost use Rattle.message_codec.specs.Tables as tables;
    ghost use Rattle.message_reports.specs.Columns.{package_statuses_draft_columns};

    ghost name = { tables.PackageStatuses };

    ghost columns = { package_statuses_draft_columns };

    fn empty(alloc: Global) -> PackageStatusesDraft {
        PackageStatusesDraft {
            packages: List::new(alloc),
            server_provided_all_packages_hash: Blob::of(Vec::new(alloc)),
            error_message: Text::of(String::new(alloc)),
        }
    }

    fn take(
        &mut self,
        alloc: Global,
        bytes: &[u8],
        item: &Item,
        below: u32,
    ) -> Result<(), ReadFail> {
        match item.number {
            1 => take_map(alloc, &mut self.packages, bytes, item, below)?,
            2 => take_blob(
                alloc,
                &mut self.server_provided_all_packages_hash,
                bytes,
                item,
            )?,
            3 => take_text(alloc, &mut self.error_message, bytes, item)?,
            _ => {}
        }
        Ok(())
    }
}
