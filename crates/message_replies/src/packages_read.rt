//! Reading of offers of packages.

ghost use Rattle.std.specs.Prelude.{◌≡◌, IfOk};
ghost use Rattle.message_replies.specs.ReplyColumns.{packages_available_columns};
ghost use Rattle.message_replies.specs.DraftColumns.{packages_available_draft_columns};

use crate::Server;
use message_codec::reader::columns::{take_blob, take_enum, take_text};
use message_codec::reader::items::{Item, ReadFail};
use message_codec::reader::message::{Message, take_map, take_one};
use message_values::{DownloadableFile, PackageAvailable, PackagesAvailable};
use plain_values::{Blob, List, Map, NoMemory, Pair, Text};
use std::alloc::Global;

impl Message<Server> for DownloadableFile {
    ghost use Rattle.message_codec.specs.Tables as tables;
    ghost use Rattle.message_replies.specs.ReplyColumns.{downloadable_file_columns};

    ghost name = { tables.DownloadableFile };

    ghost columns = { downloadable_file_columns };

    fn empty(alloc: Global) -> DownloadableFile {
        DownloadableFile {
            download_url: Text::new(alloc),
            content_hash: Blob::new(alloc),
            signature: Blob::new(alloc),
        }
    }

    fn take(
        &mut self,
        alloc: Global,
        bytes: &[u8],
        item: &Item,
        _below: u32,
    ) -> Result<(), ReadFail> {
        match item.number {
            1 => take_text(alloc, &mut self.download_url, bytes, item)?,
            2 => take_blob(alloc, &mut self.content_hash, bytes, item)?,
            3 => take_blob(alloc, &mut self.signature, bytes, item)?,
            _ => {}
        }
        Ok(())
    }
}

impl Message<Server> for PackageAvailable {
    ghost use Rattle.message_codec.specs.Tables as tables;
    ghost use Rattle.message_replies.specs.ReplyColumns.{package_available_columns};

    ghost name = { tables.PackageAvailable };

    ghost columns = { package_available_columns };

    fn empty(alloc: Global) -> PackageAvailable {
        PackageAvailable {
            kind: 0,
            version: Text::new(alloc),
            file: None,
            hash: Blob::new(alloc),
        }
    }

    fn take(
        &mut self,
        alloc: Global,
        bytes: &[u8],
        item: &Item,
        below: u32,
    ) -> Result<(), ReadFail> {
        match item.number {
            1 => take_enum(&mut self.kind, bytes, item),
            2 => take_text(alloc, &mut self.version, bytes, item)?,
            3 => take_one(alloc, &mut self.file, bytes, item, below)?,
            4 => take_blob(alloc, &mut self.hash, bytes, item)?,
            _ => {}
        }
        Ok(())
    }
}

/// A PackagesAvailable while it is read: its fields, but for the map.
#[derive(Drop)]
pub struct PackagesAvailableDraft {
    /// The entries in the order in which they came.
    pub packages: List<Pair<PackageAvailable>>,
    pub all_packages_hash: Blob,
}

impl PackagesAvailableDraft {
    /// The message that was read, of each key the last entry. Takes time of n log n in the number of entries.
    pub fn settle(self, alloc: Global) -> Result<PackagesAvailable, NoMemory>
        ensures columns { IfOk result (λ m. packages_available_columns m ≡ packages_available_draft_columns self) }
    {
        Ok(PackagesAvailable {
            packages: Map::of_entries(alloc, self.packages.into_vec())?,
            all_packages_hash: self.all_packages_hash,
        })
    }
}

impl Message<Server> for PackagesAvailableDraft {
    ghost use Rattle.message_codec.specs.Tables as tables;
    ghost use Rattle.message_replies.specs.DraftColumns.{packages_available_draft_columns};

    ghost name = { tables.PackagesAvailable };

    ghost columns = { packages_available_draft_columns };

    fn empty(alloc: Global) -> PackagesAvailableDraft {
        PackagesAvailableDraft {
            packages: List::new(alloc),
            all_packages_hash: Blob::new(alloc),
        }
    }

    fn take(
        &mut self,
        alloc: Global,
        bytes: &[u8],
        item: &Item,
        below: u32,
    ) -> Result<(), ReadFail> {
        match item.number {
            1 => take_map(alloc, &mut self.packages, bytes, item, below)?,
            2 => take_blob(alloc, &mut self.all_packages_hash, bytes, item)?,
            _ => {}
        }
        Ok(())
    }
}
