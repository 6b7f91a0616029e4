//! One package that is to be fetched.

ghost use Rattle.std.specs.Prelude.{◌≡◌, IfOk};
ghost use Rattle.std.specs.Str.{bytes_eq};
ghost use Rattle.sha2.specs.Sha256.{sha256};
ghost use Rattle.edge_devices.specs.declared.folders.Area.TheVariants.{Packages};
ghost use Rattle.edge_devices.specs.Folders.{SameAreas};
ghost use Rattle.agent_packages.specs.Due.{AsksOnly, IsFetchOf, IsWriteOf, MakesOnly};
ghost use Rattle.agent_packages.specs.Touched.{KeepsOthers};
ghost use Rattle.agent_packages.specs.Visits.{Installs};

use edge_devices::{Area, DialFail, Dialer, Folder, FolderFail, name_good};
use message_values::PackageAvailable;
use plain_values::{Blob, NoMemory, Text};
use sha2::{Digest, Sha256};
use std::alloc::Global;

/// How a package to fetch ended, the first of these that holds but for `Installed`.
#[derive(Clone, Copy, Debug, PartialEq, Eq)]
pub enum Ended {
    /// Its file is in the folder.
    Installed,
    /// Its name is not good for a file.
    BadName,
    /// No file is offered.
    NoFile,
    /// Its fetch failed.
    FetchFault,
    /// What was fetched has another hash.
    HashDiffers,
    /// The folder failed to write it.
    FolderFault,
}

// Whether the content has this hash.
fn has_hash(content: &Blob, hash: &Blob) -> bool
    ensures { result ≡ bytes_eq (sha256 content.now) hash.now }
{
    let mut hasher = Sha256::new();
    hasher.update(content.as_slice());
    let digest = hasher.finalize();
    digest.as_slice() == hash.as_slice()
}

// Fetches a package, and writes its file where the content has the offered hash.
pub(crate) fn install<G: Dialer, F: Folder>(
    alloc: Global,
    dialer: &mut G,
    folder: &mut F,
    name: &Text,
    item: &PackageAvailable,
) -> Result<Ended, NoMemory>
    ensures installs { IfOk result (Installs (G.state dialer.old) (G.state dialer.new) (F.state folder.old) (F.state folder.new) name.now item.now) }
    ensures others { SameAreas Packages (F.state folder.old).files (F.state folder.new).files }
    ensures kept { KeepsOthers (bytes_eq name.now) (F.state folder.old) (F.state folder.new) }
    ensures only { MakesOnly (IsWriteOf name.now item.now) (F.state folder.old) (F.state folder.new) }
    ensures fetches { AsksOnly (IsFetchOf item.now) (G.state dialer.old) (G.state dialer.new) }
{
    if !name_good(name.as_str()) {
        return Ok(Ended::BadName);
    }
    let Some(file) = &item.file else {
        return Ok(Ended::NoFile);
    };
    let content = match dialer.fetch(alloc, &file.download_url) {
        Ok(content) => content,
        Err(DialFail::Fault) => return Ok(Ended::FetchFault),
        Err(DialFail::NoMemory) => return Err(NoMemory),
    };
    if !has_hash(&content, &file.content_hash) {
        return Ok(Ended::HashDiffers);
    }
    match folder.write(alloc, Area::Packages, name, &content) {
        Ok(()) => Ok(Ended::Installed),
        Err(FolderFail::Fault) => Ok(Ended::FolderFault),
        Err(FolderFail::NoMemory) => Err(NoMemory),
    }
}
