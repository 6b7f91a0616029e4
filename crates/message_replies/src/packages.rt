//! Offers of packages, in canonical form.

use crate::Server;
use message_codec::wire::Out;
use message_codec::writer::counting::{count_blob, count_enum, count_map, count_one, count_text};
use message_codec::writer::levels::{depth_map, depth_one};
use message_codec::writer::putting::{put_blob, put_enum, put_map, put_one, put_text};
use message_codec::writer::written::Written;
use message_values::{DownloadableFile, PackageAvailable, PackagesAvailable};
use plain_values::NoMemory;

impl Written<Server> for DownloadableFile {
    ghost use Rattle.message_codec.specs.Tables as tables;
    ghost use Rattle.message_replies.specs.ReplyColumns.{downloadable_file_columns};

    ghost name = { tables.DownloadableFile };

    ghost columns = { downloadable_file_columns };

    #[tactic(auto, using(message_codec::proofs::Canonical::count_first, message_codec::proofs::Canonical::count_more))]
    fn len(&self) -> u64 {
        let total = count_text(0, 1, &self.download_url);
        let total = count_blob(total, 2, &self.content_hash);
        count_blob(total, 3, &self.signature)
    }

    fn deepest(&self) -> u64 {
        0
    }

    fn put(&self, out: &mut Out) -> Result<(), NoMemory> {
        put_text(out, 1, &self.download_url)?;
        put_blob(out, 2, &self.content_hash)?;
        put_blob(out, 3, &self.signature)
    }
}

impl Written<Server> for PackageAvailable {
    ghost use Rattle.message_codec.specs.Tables as tables;
    ghost use Rattle.message_replies.specs.ReplyColumns.{package_available_columns};

    ghost name = { tables.PackageAvailable };

    ghost columns = { package_available_columns };

    #[tactic(auto, using(message_codec::proofs::Canonical::count_first, message_codec::proofs::Canonical::count_more))]
    fn len(&self) -> u64 {
        let total = count_enum(0, 1, self.kind);
        let total = count_text(total, 2, &self.version);
        let total = count_one(total, 3, &self.file);
        count_blob(total, 4, &self.hash)
    }

    fn deepest(&self) -> u64 {
        depth_one(&self.file)
    }

    fn put(&self, out: &mut Out) -> Result<(), NoMemory> {
        put_enum(out, 1, self.kind)?;
        put_text(out, 2, &self.version)?;
        put_one(out, 3, &self.file)?;
        put_blob(out, 4, &self.hash)
    }
}

impl Written<Server> for PackagesAvailable {
    ghost use Rattle.message_codec.specs.Tables as tables;
    ghost use Rattle.message_replies.specs.ReplyColumns.{packages_available_columns};

    ghost name = { tables.PackagesAvailable };

    ghost columns = { packages_available_columns };

    #[tactic(auto, using(message_codec::proofs::Canonical::count_first, message_codec::proofs::Canonical::count_more))]
    fn len(&self) -> u64 {
        let total = count_map(0, 1, &self.packages);
        count_blob(total, 2, &self.all_packages_hash)
    }

    fn deepest(&self) -> u64 {
        depth_map(&self.packages)
    }

    fn put(&self, out: &mut Out) -> Result<(), NoMemory> {
        put_map(out, 1, &self.packages)?;
        put_blob(out, 2, &self.all_packages_hash)
    }
}
