//! The shelf of the system: a part of the edge of the program that its proofs trust. It doesn't tell what it holds.

ghost use Rattle.std.specs.Prelude.{◌≡◌, ◌≤◌, IfOk, IsTrue};
ghost use Rattle.edge_devices.specs.Faults.{HasRisen};
ghost use Rattle.edge_devices.specs.Folders.{AreGood};
ghost use Rattle.edge_devices.specs.Names.{is_good_name};

use crate::counts::raised;
use crate::shelf::Shelf;
use edge_devices::{FolderFail, name_good};
use plain_values::{Blob, List, Text};
use std::alloc::Global;
use std::fs::{File, OpenFile, OpenOptions};
use std::io::{ErrorKind, Write};
use std::os::unix::fs::OpenOptionsExt;
use std::rt::Files;
use std::{fs, io};

// A file that is being written. No file of the shelf has this name, since it begins with `.`.
const NEW: &str = ".new";

/// A folder of the system. It has to be there, and is never made: else an operator's slip of the pen, or a disk that isn't
/// mounted, would be taken for a folder without files.
///
/// A write makes a new file beside the old one, syncs it, gives it the name, and syncs the folder. A removal syncs the folder
/// too, also where the file is gone already: a former removal may have failed before its sync. So a reader and a stop find the
/// former file or the new one, whole. Files are for their owner alone (mode 600), since an offer may have a secret in it. Only
/// one shelf at a time may be of a folder: all write the same file `.new`.
///
/// | What goes wrong | What comes |
/// |---|---|
/// | the folder isn't there, is no folder, or its path is empty or can't be one | a fault; the path is never taken for another's |
/// | there is no right to list, to read or to write | a fault |
/// | the disk is full, or took some of the bytes alone | a fault; the former file stands, and what was written isn't a file of the shelf |
/// | a sync fails | a fault; a stop may leave the former file or the new one |
/// | a file isn't there when it is read, since it went behind the listing, say | none; a fault where the folder went |
/// | a file can't be read, or is a folder | a fault |
/// | a name isn't good, or isn't UTF-8 | it is none of the shelf's: neither listed nor touched |
/// | memory is wanting | `NoMemory`, and no fault counts |
#[derive(Drop)]
pub struct FileShelf<R> {
    rt: R,
    path: Text,
    faults: u64,
}

impl<R> FileShelf<R> {
    /// The folder of this path. Nothing is touched before the first call.
    pub fn new(rt: R, path: Text) -> FileShelf<R> {
        FileShelf {
            rt,
            path,
            faults: 0,
        }
    }

    // Counts a fault, but for want of memory.
    fn failed(&mut self, kind: ErrorKind) -> FolderFail
        ensures later { self.old.faults ≤ self.new.faults }
        ensures fault { result ≡ FolderFail.Fault → HasRisen self.old.faults self.new.faults }
    {
        if kind == ErrorKind::OutOfMemory {
            return FolderFail::NoMemory;
        }
        self.faults = raised(self.faults);
        FolderFail::Fault
    }
}

// The path of the file of that name. The empty path is no folder's, and would lead to the root.
fn path_of(alloc: Global, folder: &str, name: &str) -> io::Result<String> {
    if folder.is_empty() {
        return Err(ErrorKind::NotFound.into());
    }
    Ok(format!(in alloc; "{}/{}", folder, name)?)
}

// What names the folder holds is on the disk.
fn sync_folder<R: Files>(rt: &R, folder: &str) -> io::Result<()> {
    File::open(rt, folder)?.sync_all()
}

// A new file at this path, which its owner alone may read and write.
fn new_file<R: Files>(rt: &R, path: &str) -> io::Result<R::File> {
    OpenOptions::new()
        .write(true)
        .create(true)
        .truncate(true)
        .mode(0o600)
        .open(rt, path)
}

// The file at this path has these bytes, and they are on the disk.
fn put_down<R: Files>(rt: &R, path: &str, bytes: &[u8]) -> io::Result<()> {
    let mut file = new_file(rt, path)?;
    file.write_all(bytes)?;
    file.sync_all()
}

// Makes a new file with these bytes beside the old one, and then gives it the name.
fn store<R: Files + AllocGlobal>(rt: &R, folder: &str, name: &str, body: &[u8]) -> io::Result<()> {
    let new = path_of(rt.alloc(), folder, NEW)?;
    let path = path_of(rt.alloc(), folder, name)?;
    put_down(rt, new.as_str(), body)?;
    fs::rename(rt, new.as_str(), path.as_str())?;
    sync_folder(rt, folder)
}

// The bytes of the file, where it is there. That there is none is said only where the folder is there.
fn load<R: Files + AllocGlobal>(rt: &R, folder: &str, name: &str) -> io::Result<Option<Blob>> {
    let path = path_of(rt.alloc(), folder, name)?;
    match fs::read(rt, path.as_str()) {
        Ok(bytes) => Ok(Some(Blob::of(bytes))),
        Err(error) if error.kind() == ErrorKind::NotFound => {
            fs::metadata(rt, folder)?;
            Ok(None)
        }
        Err(error) => Err(error),
    }
}

// Takes the file away, where it is there.
fn delete<R: Files + AllocGlobal>(rt: &R, folder: &str, name: &str) -> io::Result<()> {
    let path = path_of(rt.alloc(), folder, name)?;
    match fs::remove_file(rt, path.as_str()) {
        Ok(()) => {}
        Err(error) if error.kind() == ErrorKind::NotFound => {}
        Err(error) => return Err(error),
    }
    sync_folder(rt, folder)
}

// Adds the name to good names, where it is good.
fn add_good(names: &mut List<Text>, name: Text) -> io::Result<()>
    requires { AreGood names.old }
    ensures good { AreGood names.new }
{
    if !name_good(name.as_str()) {
        return Ok(());
    }
    push_good(names, name)
}

#[tactic(auto, using(crate::proofs::Naming::good_more))]
fn push_good(names: &mut List<Text>, name: Text) -> io::Result<()>
    requires names { AreGood names.old }
    requires name { IsTrue (is_good_name name) }
    ensures good { AreGood names.new }
{
    match names.push(name) {
        Ok(()) => Ok(()),
        Err(_) => Err(ErrorKind::OutOfMemory.into()),
    }
}

// The good names of what the folder holds. A name that isn't UTF-8 is not one.
fn list<R: Files + AllocGlobal + Clone + Drop>(rt: &R, folder: &str) -> io::Result<List<Text>>
    ensures good { IfOk result AreGood }
{
    let mut names = List::new(rt.alloc());
    for entry in fs::read_dir(rt, folder)? {
        match entry {
            Ok(entry) => add_good(
                &mut names,
                Text::of(String::from_str(rt.alloc(), entry.file_name())?),
            )?,
            Err(error) if error.kind() == ErrorKind::InvalidFilename => {}
            Err(error) => return Err(error),
        }
    }
    Ok(names)
}

impl<R: Files + AllocGlobal + Clone + Drop> Shelf for FileShelf<R> {
    ghost use Rattle.edge_shelf.specs.Shelves.{silent_shelf};

    ghost state = { λ shelf. silent_shelf shelf.faults };

    fn names(&mut self, _alloc: Global) -> Result<List<Text>, FolderFail> {
        match list(&self.rt, self.path.as_str()) {
            Ok(names) => Ok(names),
            Err(error) => Err(self.failed(error.kind())),
        }
    }

    fn read(&mut self, _alloc: Global, name: &Text) -> Result<Option<Blob>, FolderFail> {
        match load(&self.rt, self.path.as_str(), name.as_str()) {
            Ok(body) => Ok(body),
            Err(error) => Err(self.failed(error.kind())),
        }
    }

    fn write(&mut self, _alloc: Global, name: &Text, body: &Blob) -> Result<(), FolderFail> {
        match store(&self.rt, self.path.as_str(), name.as_str(), body.as_slice()) {
            Ok(()) => Ok(()),
            Err(error) => Err(self.failed(error.kind())),
        }
    }

    fn remove(&mut self, _alloc: Global, name: &Text) -> Result<(), FolderFail> {
        match delete(&self.rt, self.path.as_str(), name.as_str()) {
            Ok(()) => Ok(()),
            Err(error) => Err(self.failed(error.kind())),
        }
    }
}
