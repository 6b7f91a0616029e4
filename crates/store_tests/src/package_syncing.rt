//! Syncs reach the system. The null device takes what is written and can't be synced (POSIX, `fsync`, EINVAL), so a call that syncs it fails.

use crate::redirected::{Instead, NULL, Redirected};
use crate::values::{blob, name};
use edge_devices::{Area, Disk, FileDisk, FileFolder, Folder, FolderFail};
use std::fs;
use std::io::ErrorKind;
use std::os::unix::fs::symlink;
use std::process::Abort;
use std::rt::Files;
use std::test::Fail;

#[test]
fn a_disk_syncs(rt: HostRuntime) -> Result<(), Fail> {
    let _ = fs::remove_file(&rt, "opamp.store");
    symlink(&rt, NULL, "opamp.store")?;
    let mut disk = FileDisk::new(rt.clone()?);
    assert!(rt; disk.write_at(0, &[1]).is_ok());
    assert!(rt; disk.sync().is_err());
    fs::remove_file(&rt, "opamp.store")?;
    Ok(())
}

// Whether a file is written.
fn writes<F: Folder>(rt: &(impl Abort + AllocGlobal), folder: &mut F) -> bool {
    let file = name(rt, "a");
    let body = blob(rt, b"one");
    folder.write(rt.alloc(), Area::Config, &file, &body).is_ok()
}

// The new file is synced before it gets its name.
#[test]
fn a_folder_syncs_what_it_writes(rt: HostRuntime) -> Result<(), Fail> {
    fs::create_dir_all(&rt, "opamp.d/config")?;
    let _ = fs::remove_file(&rt, "opamp.d/config/.new");
    symlink(&rt, NULL, "opamp.d/config/.new")?;
    let written = writes(&rt, &mut FileFolder::new(rt.clone()?));
    assert!(rt; !written);
    fs::remove_file(&rt, "opamp.d/config/.new")?;
    Ok(())
}

// The system's files, but that opening this path comes to something else.
fn redirected<R>(rt: R, path: &'static str, instead: Instead) -> Redirected<R> {
    Redirected { rt, path, instead }
}

// Whether the first call of a disk fails where the current folder can't be synced, as the disk's file was just made there.
fn fails_first<R: Files<File = fs::File> + Drop>(rt: R) -> bool {
    let mut disk = FileDisk::new(rt);
    disk.read(0, &mut [0; 1]).is_err()
}

// The folder is synced behind the making of the file, so that a stop doesn't lose it.
#[test]
fn a_disk_syncs_its_folder(rt: HostRuntime) {
    assert!(rt; fails_first(&redirected(&rt, ".", Instead::Null)));
    assert!(rt; !fails_first(&redirected(&rt, "opamp.d", Instead::Null)));
    let _ = fs::remove_file(&rt, "opamp.store");
}

// What a write and a remove answer, one after the other.
fn answers<R: Files + AllocGlobal + Clone + Drop>(
    rt: &(impl Abort + AllocGlobal),
    files: R,
) -> (Result<(), FolderFail>, Result<(), FolderFail>) {
    let mut folder = FileFolder::new(files);
    let file = name(rt, "a");
    let body = blob(rt, b"one");
    let written = folder.write(rt.alloc(), Area::Status, &file, &body);
    let removed = folder.remove(rt.alloc(), Area::Status, &file);
    (written, removed)
}

// The area's folder is synced behind the rename and behind the remove, so that a stop doesn't undo them. Want of memory is no fault.
#[test]
fn a_folder_syncs_its_names(rt: HostRuntime) {
    let fault = Err(FolderFail::Fault);
    let wanting = Err(FolderFail::NoMemory);
    let null = redirected(&rt, "opamp.d/status", Instead::Null);
    assert!(rt; answers(&rt, &null) == (fault, fault));
    let other = redirected(&rt, "opamp.d/config", Instead::Null);
    assert!(rt; answers(&rt, &other) == (Ok(()), Ok(())));
    let short = redirected(
        &rt,
        "opamp.d/status",
        Instead::Fails(ErrorKind::OutOfMemory),
    );
    assert!(rt; answers(&rt, &short) == (wanting, wanting));
    let closed = redirected(
        &rt,
        "opamp.d/status",
        Instead::Fails(ErrorKind::PermissionDenied),
    );
    assert!(rt; answers(&rt, &closed) == (fault, fault));
}
