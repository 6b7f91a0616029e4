//! The folder of the system: a part of the edge of the program that its proofs trust. It tells neither
//! files nor calls.

ghost use Rattle.std.specs.Prelude.{◌≡◌, ◌≤◌, IfOk, IsTrue};
ghost use Rattle.edge_devices.specs.Faults.{HasRisen};
ghost use Rattle.edge_devices.specs.Folders.{AreGood};
ghost use Rattle.edge_devices.specs.Names.{is_good_name};

use crate::counts::raised;
use crate::folders::{Area, Folder, FolderFail};
use crate::names::name_good;
use plain_values::{Blob, List, Text};
use std::alloc::{AllocError, Global};
use std::fs::{File, OpenFile};
use std::io::{ErrorKind, Write};
use std::rt::Files;
use std::{fs, io};

/// The folder `opamp.d` in the current folder, with one folder for each area: `config`, `packages` and
/// `status`. An area whose folder isn't there has no files. A write makes a new file beside the old one,
/// syncs it, gives it the name, and syncs the area's folder, so that a reader and a stop find the former
/// file or the new one, whole. A file whose name isn't good is none of the area's: it is neither listed
/// nor touched. Each error of the system but want of memory is a fault; so is a name in the folder that
/// isn't UTF-8.
#[derive(Drop)]
pub struct FileFolder<R> {
    rt: R,
    faults: u64,
}

impl<R> FileFolder<R> {
    /// The folder `opamp.d`. Nothing is touched before the first call.
    pub fn new(rt: R) -> FileFolder<R> {
        FileFolder { rt, faults: 0 }
    }

    // Counts a fault, but for want of memory.
    fn failed(&mut self, kind: ErrorKind) -> FolderFail
        ensures count { self.old.faults ≤ self.new.faults }
        ensures fault { result ≡ FolderFail.Fault → HasRisen self.old.faults self.new.faults }
    {
        if kind == ErrorKind::OutOfMemory {
            return FolderFail::NoMemory;
        }
        self.faults = raised(self.faults);
        FolderFail::Fault
    }
}

// The area's folder.
fn folder_of(area: Area) -> &'static str {
    match area {
        Area::Config => "opamp.d/config",
        Area::Packages => "opamp.d/packages",
        Area::Status => "opamp.d/status",
    }
}

// The path of the file of that name.
fn path_of(alloc: Global, area: Area, name: &str) -> Result<String, AllocError> {
    format!(in alloc; "{}/{}", folder_of(area), name)
}

// Makes a new file with these bytes beside the old one, and then gives it the name. A file that begins with `.` is
// never one of the area's.
fn store<R: Files + AllocGlobal>(rt: &R, area: Area, name: &Text, body: &Blob) -> io::Result<()> {
    let new = path_of(rt.alloc(), area, ".new")?;
    let path = path_of(rt.alloc(), area, name.as_str())?;
    fs::create_dir_all(rt, folder_of(area))?;
    let mut file = File::create(rt, new.as_str())?;
    file.write_all(body.as_slice())?;
    file.sync_all()?;
    fs::rename(rt, new.as_str(), path.as_str())?;
    sync_folder(rt, area)
}

// What names the area's folder holds is on the disk.
fn sync_folder<R: Files>(rt: &R, area: Area) -> io::Result<()> {
    File::open(rt, folder_of(area))?.sync_all()
}

// The bytes of the file, where it is there.
fn load<R: Files + AllocGlobal>(rt: &R, area: Area, name: &Text) -> io::Result<Option<Blob>> {
    let path = path_of(rt.alloc(), area, name.as_str())?;
    match fs::read(rt, path.as_str()) {
        Ok(bytes) => Ok(Some(Blob::of(bytes))),
        Err(error) if error.kind() == ErrorKind::NotFound => Ok(None),
        Err(error) => Err(error),
    }
}

// Adds the name to good names, where it is good.
fn add_good(names: &mut List<Text>, name: Text) -> io::Result<()>
    requires { AreGood names.old }
    ensures good { AreGood names.new }
{
    if !name_good(name.as_str()) {
        return Ok(());
    }
    push_good(names, name)
}

#[tactic(auto, using(crate::proofs::Naming::good_more))]
fn push_good(names: &mut List<Text>, name: Text) -> io::Result<()>
    requires names { AreGood names.old }
    requires name { IsTrue (is_good_name name) }
    ensures good { AreGood names.new }
{
    match names.push(name) {
        Ok(()) => Ok(()),
        Err(_) => Err(ErrorKind::OutOfMemory.into()),
    }
}

// The good names of the files of the folder.
fn list<R: Files + AllocGlobal + Clone + Drop>(rt: &R, area: Area) -> io::Result<List<Text>>
    ensures good { IfOk result AreGood }
{
    let mut names = List::new(rt.alloc());
    let entries = match fs::read_dir(rt, folder_of(area)) {
        Ok(entries) => entries,
        Err(error) if error.kind() == ErrorKind::NotFound => return Ok(names),
        Err(error) => return Err(error),
    };
    for entry in entries {
        let entry = entry?;
        add_good(
            &mut names,
            Text::of(String::from_str(rt.alloc(), entry.file_name())?),
        )?;
    }
    Ok(names)
}

// Takes the file away, where it is there.
fn delete<R: Files + AllocGlobal>(rt: &R, area: Area, name: &Text) -> io::Result<()> {
    let path = path_of(rt.alloc(), area, name.as_str())?;
    match fs::remove_file(rt, path.as_str()) {
        Ok(()) => sync_folder(rt, area),
        Err(error) if error.kind() == ErrorKind::NotFound => Ok(()),
        Err(error) => Err(error),
    }
}

impl<R: Files + AllocGlobal + Clone + Drop> Folder for FileFolder<R> {
    ghost use Rattle.edge_devices.specs.Silent.{silent_folder};

    ghost state = { λ folder. silent_folder folder.faults };

    fn names(&mut self, _alloc: Global, area: Area) -> Result<List<Text>, FolderFail> {
        match list(&self.rt, area) {
            Ok(names) => Ok(names),
            Err(error) => Err(self.failed(error.kind())),
        }
    }

    fn read(
        &mut self,
        _alloc: Global,
        area: Area,
        name: &Text,
    ) -> Result<Option<Blob>, FolderFail> {
        match load(&self.rt, area, name) {
            Ok(body) => Ok(body),
            Err(error) => Err(self.failed(error.kind())),
        }
    }

    fn write(
        &mut self,
        _alloc: Global,
        area: Area,
        name: &Text,
        body: &Blob,
    ) -> Result<(), FolderFail> {
        match store(&self.rt, area, name, body) {
            Ok(()) => Ok(()),
            Err(error) => Err(self.failed(error.kind())),
        }
    }

    fn remove(&mut self, _alloc: Global, area: Area, name: &Text) -> Result<(), FolderFail> {
        match delete(&self.rt, area, name) {
            Ok(()) => Ok(()),
            Err(error) => Err(self.failed(error.kind())),
        }
    }
}
