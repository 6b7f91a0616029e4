//! A file system that stands in for the system's at one path: it opens the null device there, which can't be synced (POSIX, `fsync`, EINVAL), or fails as is wanted.
//! So a call that syncs the folder at that path fails, and tells whether it did.

use std::alloc::{Alloc, Allocator};
use std::fs::{Metadata, OpenOptions};
use std::io::{self, ErrorKind};
use std::rt::Files;

pub(crate) const NULL: &str = "/dev/null";

/// What opening the path comes to.
#[derive(Clone, Copy)]
pub(crate) enum Instead {
    /// The null device is opened.
    Null,
    /// It fails so.
    Fails(ErrorKind),
}

/// The system's files but for one path.
#[derive(Drop)]
pub(crate) struct Redirected<R> {
    pub(crate) rt: R,
    pub(crate) path: &'static str,
    pub(crate) instead: Instead,
}

impl<R: Alloc> Alloc for Redirected<R> {
    type A = R::A;

    fn alloc(&self) -> R::A {
        self.rt.alloc()
    }
}

impl<R: Files> Files for Redirected<R> {
    type File = R::File;

    type Dir = R::Dir;

    fn open_file(&self, how: &OpenOptions, path: &str) -> io::Result<R::File> {
        if path != self.path {
            return self.rt.open_file(how, path);
        }
        match self.instead {
            Instead::Null => self.rt.open_file(how, NULL),
            Instead::Fails(kind) => Err(kind.into()),
        }
    }

    fn open_dir(&self, path: &str) -> io::Result<R::Dir> {
        self.rt.open_dir(path)
    }

    fn metadata(&self, path: &str) -> io::Result<Metadata> {
        self.rt.metadata(path)
    }

    fn symlink_metadata(&self, path: &str) -> io::Result<Metadata> {
        self.rt.symlink_metadata(path)
    }

    fn copy(&self, from: &str, to: &str) -> io::Result<u64> {
        self.rt.copy(from, to)
    }

    fn rename(&self, from: &str, to: &str) -> io::Result<()> {
        self.rt.rename(from, to)
    }

    fn remove_file(&self, path: &str) -> io::Result<()> {
        self.rt.remove_file(path)
    }

    fn create_dir(&self, path: &str) -> io::Result<()> {
        self.rt.create_dir(path)
    }

    fn remove_dir(&self, path: &str) -> io::Result<()> {
        self.rt.remove_dir(path)
    }

    fn remove_dir_all<B: Allocator>(&self, alloc: B, path: &str) -> io::Result<()> {
        self.rt.remove_dir_all(alloc, path)
    }
}
