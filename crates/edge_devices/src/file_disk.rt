//! The disk of the system: a part of the edge of the program that its proofs trust. It tells nothing of its contents:
//! that the file keeps what the trait says is a premise.

ghost use Rattle.std.specs.Prelude.{◌≤◌, OnErr};
ghost use Rattle.edge_devices.specs.Faults.{HasRisen};

use crate::counts::raised;
use crate::disks::{Disk, DiskFault};
use std::fs::{File, OpenOptions};
use std::io;
use std::os::unix::fs::FileExt;
use std::rt::Files;

/// The file `opamp.store` in the current folder, as a row of bytes. It is opened at the first call, and made where it
/// isn't there; the folder is then synced, so that a stop doesn't lose the file itself. Nothing is kept in a buffer: a
/// write goes to the file, and a sync is the system's of the file's bytes and size. Each error of the system is a fault.
#[derive(Drop)]
pub struct FileDisk<R> {
    rt: R,
    file: Option<File>,
    faults: u64,
}

impl<R> FileDisk<R> {
    /// The file `opamp.store`. Nothing is touched before the first call.
    pub fn new(rt: R) -> FileDisk<R> {
        FileDisk {
            rt,
            file: None,
            faults: 0,
        }
    }

    // Counts a fault where the call failed.
    fn answer(&mut self, done: bool) -> Result<(), DiskFault>
        ensures later { self.old.faults ≤ self.new.faults }
        ensures fault { OnErr result (HasRisen self.old.faults self.new.faults) }
    {
        if done {
            return Ok(());
        }
        self.faults = raised(self.faults);
        Err(DiskFault)
    }
}

// The file, and its folder synced.
fn open<R: Files<File = File>>(rt: &R) -> io::Result<File> {
    let file = OpenOptions::new()
        .read(true)
        .write(true)
        .create(true)
        .open(rt, "opamp.store")?;
    File::open(rt, ".")?.sync_all()?;
    Ok(file)
}

// Opens the file where that wasn't done yet.
fn open_once<R: Files<File = File>>(rt: &R, file: &mut Option<File>) {
    if file.is_none() {
        *file = open(rt).ok();
    }
}

// Reads up to the file's end; past it there are zeros.
fn read_all(file: &File, at: u64, into: &mut [u8]) -> bool {
    let mut filled = 0;
    while filled < into.len() {
        match file.read_at(&mut into[filled..], at.wrapping_add(filled as u64)) {
            Ok(0) => break,
            Ok(n) => filled += n,
            Err(_) => return false,
        }
    }
    for byte in into[filled..].iter_mut() {
        *byte = 0;
    }
    true
}

impl<R: Files<File = File> + Drop> Disk for FileDisk<R> {
    ghost use Rattle.edge_devices.specs.Silent.{silent_disk, silent_countdown};

    ghost state = { λ disk. silent_disk disk.faults };

    ghost countdown = { λ _. silent_countdown };

    fn read(&mut self, at: u64, into: &mut [u8]) -> Result<(), DiskFault> {
        open_once(&self.rt, &mut self.file);
        let done = match &self.file {
            Some(file) => read_all(file, at, into),
            None => false,
        };
        self.answer(done)
    }

    fn write_at(&mut self, at: u64, bytes: &[u8]) -> Result<(), DiskFault> {
        open_once(&self.rt, &mut self.file);
        let done = match &self.file {
            Some(file) => file.write_all_at(bytes, at).is_ok(),
            None => false,
        };
        self.answer(done)
    }

    fn sync(&mut self) -> Result<(), DiskFault> {
        open_once(&self.rt, &mut self.file);
        let done = match &self.file {
            Some(file) => file.sync_all().is_ok(),
            None => false,
        };
        self.answer(done)
    }
}
