//! The files that an agent keeps.

ghost use Rattle.std.specs.Prelude.{◌≡◌, IsTrue, IfOk, OnOk, Some, None, is_some};
ghost use Rattle.edge_devices.specs.Names.{is_good_name};
ghost use Rattle.edge_devices.specs.Folders.{FolderState, AreGood, AreNames, SameFiles, SameOthers, Calls};

use plain_values::{Blob, List, NoMemory, Text};
use std::alloc::{AllocError, Global};
use thiserror::Error;

/// A part of the agent's folder.
#[derive(Clone, Copy, Debug, PartialEq, Eq)]
pub enum Area {
    /// The configuration files that a server offered (OpAMP specification, "Configuration Files").
    Config,
    /// The files of packages that a server offered (OpAMP specification, "Packages").
    Packages,
    /// What the agent says of itself.
    Status,
}

/// Why a folder's call failed.
#[derive(Clone, Copy, Debug, PartialEq, Eq, Error)]
pub enum FolderFail {
    /// The folder failed.
    #[error("the folder failed")]
    Fault,
    /// There was no memory for the call.
    #[error("there was no memory")]
    NoMemory,
}

impl From<NoMemory> for FolderFail {
    ghost use Rattle.edge_devices.specs.declared.folders.FolderFail.TheVariants.{NoMemory as NoMemoryFail};

    ghost from_gives = { λ _ fail. fail ≡ NoMemoryFail };

    fn from(_error: NoMemory) -> FolderFail {
        FolderFail::NoMemory
    }
}

impl From<AllocError> for FolderFail {
    ghost use Rattle.edge_devices.specs.declared.folders.FolderFail.TheVariants.{NoMemory as NoMemoryFail};

    ghost from_gives = { λ _ fail. fail ≡ NoMemoryFail };

    fn from(_error: AllocError) -> FolderFail {
        FolderFail::NoMemory
    }
}

/// A call of a folder with its answer. Where the folder failed there is none.
#[derive(Drop)]
pub enum FolderCall {
    /// The names of an area's files.
    Names(Area, Option<List<Text>>),
    /// What a file holds, where there is one.
    Read(Area, Text, Option<Option<Blob>>),
    /// A file was written, or not.
    Write(Area, Text, Blob, bool),
    /// A file was removed, or not.
    Remove(Area, Text, bool),
}

/// The files that an agent keeps, in three areas. The name of a file is good (`name_good`), so that it never leaves its
/// area; a folder has no file of another name. A call that answers want of memory isn't told, nor is it counted.
pub trait Folder {
    // The files, the calls with their answers, and the count of faults.
    ghost state: { Self → FolderState };

    /// The names of the files of the area.
    fn names(&mut self, alloc: Global, area: Area) -> Result<List<Text>, FolderFail>
        ensures names { IfOk result (λ names. IsTrue (state self.new).told → AreNames ((state self.old).files area) names) }
        ensures good { IfOk result AreGood }
        ensures same { SameFiles (state self.old).files (state self.new).files }
        ensures call { Calls (state self.old) (state self.new) (FolderCall.Names area) result };

    /// What the file of that name holds; none where the area has no such file.
    fn read(&mut self, alloc: Global, area: Area, name: &Text) -> Result<Option<Blob>, FolderFail>
        requires good { IsTrue (is_good_name name.now) }
        ensures body { IfOk result (λ body. IsTrue (state self.new).told → body ≡ (state self.old).files area name.now) }
        ensures same { SameFiles (state self.old).files (state self.new).files }
        ensures call { Calls (state self.old) (state self.new) (FolderCall.Read area name.now) result };

    /// The file of that name holds these bytes, whether it was there or not. After a failure nothing is said of this
    /// file; all others are as they were.
    fn write(
        &mut self,
        alloc: Global,
        area: Area,
        name: &Text,
        body: &Blob,
    ) -> Result<(), FolderFail>
        requires good { IsTrue (is_good_name name.now) }
        ensures written { OnOk result (IsTrue (state self.new).told → (state self.new).files area name.now ≡ Some body.now) }
        ensures same { SameOthers area name.now (state self.old).files (state self.new).files }
        ensures call { Calls (state self.old) (state self.new) (λ done. FolderCall.Write area name.now body.now (is_some done)) result };

    /// There is no file of that name, whether it was there or not. After a failure nothing is said of this file; all
    /// others are as they were.
    fn remove(&mut self, alloc: Global, area: Area, name: &Text) -> Result<(), FolderFail>
        requires good { IsTrue (is_good_name name.now) }
        ensures removed { OnOk result (IsTrue (state self.new).told → (state self.new).files area name.now ≡ None) }
        ensures same { SameOthers area name.now (state self.old).files (state self.new).files }
        ensures call { Calls (state self.old) (state self.new) (λ done. FolderCall.Remove area name.now (is_some done)) result };
}
