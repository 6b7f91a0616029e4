//! The statuses of packages after an offer (OpAMP specification, "PackageStatus").

ghost use Rattle.std.specs.Prelude.{◌≡◌, IfOk};
ghost use Rattle.std.specs.Option.{option_copied};
ghost use Rattle.agent_packages.specs.Statuses.{hash_had, message_of, status_after, status_installed, status_left, version_had};

use crate::install::Ended;
use message_values::{PackageAvailable, PackageStatus};
use plain_values::{Blob, NoMemory, Plain, Text};
use std::alloc::Global;

// What went wrong.
fn message(ended: Ended) -> &'static str
    ensures { result.now ≡ message_of ended }
{
    match ended {
        Ended::Installed => "",
        Ended::BadName => "bad name",
        Ended::NoFile => "no file",
        Ended::FetchFault => "fetch fault",
        Ended::HashDiffers => "content hash differs",
        Ended::FolderFault => "folder fault",
    }
}

fn text_of(alloc: Global, text: &str) -> Result<Text, NoMemory>
    ensures { IfOk result (λ made. made ≡ text.now) }
{
    Ok(Text::of(String::from_str(alloc, text)?))
}

// A version of a package with its hash.
#[derive(Drop)]
struct Release {
    version: Text,
    hash: Blob,
}

fn release_of(alloc: Global, version: &Text, hash: &Blob) -> Result<Release, NoMemory>
    ensures version { IfOk result (λ release. release.version ≡ version.now) }
    ensures hash { IfOk result (λ release. release.hash ≡ hash.now) }
{
    Ok(Release {
        version: version.copy(alloc)?,
        hash: hash.copy(alloc)?,
    })
}

// What the agent has of a package; both are empty where it has none.
fn release_had(alloc: Global, had: Option<&PackageStatus>) -> Result<Release, NoMemory>
    ensures version { IfOk result (λ release. release.version ≡ version_had (option_copied had.entry)) }
    ensures hash { IfOk result (λ release. release.hash ≡ hash_had (option_copied had.entry)) }
{
    match had {
        Some(status) => release_of(alloc, &status.agent_has_version, &status.agent_has_hash),
        None => Ok(Release {
            version: Text::of(String::new(alloc)),
            hash: Blob::of(Vec::new(alloc)),
        }),
    }
}

// A status of these parts.
fn status_with(
    alloc: Global,
    name: &Text,
    has: Release,
    offered: Release,
    status: i32,
    error_message: Text,
) -> Result<PackageStatus, NoMemory>
    ensures { IfOk result (λ made. made ≡ record {
      name = name.now;
      agent_has_version = has.version;
      agent_has_hash = has.hash;
      server_offered_version = offered.version;
      server_offered_hash = offered.hash;
      status = status;
      error_message = error_message;
    }) }
{
    Ok(PackageStatus {
        name: name.copy(alloc)?,
        agent_has_version: has.version,
        agent_has_hash: has.hash,
        server_offered_version: offered.version,
        server_offered_hash: offered.hash,
        status,
        error_message,
    })
}

// The status of a package that was to be fetched.
pub(crate) fn status_of(
    alloc: Global,
    name: &Text,
    item: &PackageAvailable,
    had: Option<&PackageStatus>,
    ended: Ended,
) -> Result<PackageStatus, NoMemory>
    ensures { IfOk result (λ status. status ≡ status_after name.now item.now (option_copied had.entry) ended) }
{
    if let Ended::Installed = ended {
        return installed(alloc, name, item);
    }
    let error_message = text_of(alloc, message(ended))?;
    let has = release_had(alloc, had)?;
    let offered = release_of(alloc, &item.version, &item.hash)?;
    status_with(alloc, name, has, offered, 3, error_message)
}

fn installed(alloc: Global, name: &Text, item: &PackageAvailable) -> Result<PackageStatus, NoMemory>
    ensures { IfOk result (λ status. status ≡ status_installed name.now item.now) }
{
    let has = release_of(alloc, &item.version, &item.hash)?;
    let offered = release_of(alloc, &item.version, &item.hash)?;
    let no_message = Text::of(String::new(alloc));
    status_with(alloc, name, has, offered, 0, no_message)
}

// The status of a package that is not offered any more, and whose file could not be removed.
pub(crate) fn still_there(alloc: Global, held: &PackageStatus) -> Result<PackageStatus, NoMemory>
    ensures { IfOk result (λ status. status ≡ status_left held.now) }
{
    let mut status = held.copy(alloc)?;
    status.status = 3;
    status.error_message = text_of(alloc, "folder fault")?;
    Ok(status)
}
