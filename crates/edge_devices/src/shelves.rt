//! The files of a folder in memory.

ghost use Rattle.std.specs.Prelude.{◌≡◌, Err, is_some, IfOk, OnOk, OnErr, IsTrue, None, Some};
ghost use Rattle.edge_devices.specs.Folders.{AreGood, AreNames, SameFiles};
ghost use Rattle.edge_devices.specs.Names.{is_good_name};
ghost use Rattle.edge_devices.specs.MemoryFolders.{shelf_files, pairs_of, files_held, Puts};

use crate::folders::{Area, FolderFail};
use crate::names::name_good;
use plain_values::{Blob, List, Map, Plain, Text};
use std::alloc::Global;

// The files of each area. One that was removed has no body.
#[derive(Drop)]
pub(crate) struct Shelves {
    config: Map<Option<Blob>>,
    packages: Map<Option<Blob>>,
    status: Map<Option<Blob>>,
}

impl Shelves {
    // No files.
    pub(crate) fn new(alloc: Global) -> Shelves
        ensures empty { SameFiles (λ area name. None) (shelf_files result) }
    {
        Shelves {
            config: Map::new(alloc),
            packages: Map::new(alloc),
            status: Map::new(alloc),
        }
    }

    fn pairs(&self, area: Area) -> &Map<Option<Blob>>
        ensures { result.now ≡ pairs_of self.now area }
    {
        match area {
            Area::Config => &self.config,
            Area::Packages => &self.packages,
            Area::Status => &self.status,
        }
    }

    // The file of that name has this body.
    pub(crate) fn write(
        &mut self,
        alloc: Global,
        area: Area,
        name: &Text,
        body: &Blob,
    ) -> Result<(), FolderFail>
        requires { IsTrue (is_good_name name.now) }
        ensures ok { OnOk result (Puts (shelf_files self.old) (shelf_files self.new) area name.now (Some body.now)) }
        ensures err { OnErr result (self.new ≡ self.old) }
        ensures fail { OnErr result (result ≡ Err FolderFail.NoMemory) }
    {
        let name = name.copy(alloc)?;
        let body = body.copy(alloc)?;
        self.put(area, name, Some(body))
    }

    // The file of that name is gone.
    pub(crate) fn remove(
        &mut self,
        alloc: Global,
        area: Area,
        name: &Text,
    ) -> Result<(), FolderFail>
        requires { IsTrue (is_good_name name.now) }
        ensures ok { OnOk result (Puts (shelf_files self.old) (shelf_files self.new) area name.now None) }
        ensures err { OnErr result (self.new ≡ self.old) }
        ensures fail { OnErr result (result ≡ Err FolderFail.NoMemory) }
    {
        let name = name.copy(alloc)?;
        self.put(area, name, None)
    }

    // The file of that name has this body, or is gone.
    fn put(&mut self, area: Area, name: Text, body: Option<Blob>) -> Result<(), FolderFail>
        requires { IsTrue (is_good_name name) }
        ensures ok { OnOk result (Puts (shelf_files self.old) (shelf_files self.new) area name body) }
        ensures err { OnErr result (self.new ≡ self.old) }
        ensures fail { OnErr result (result ≡ Err FolderFail.NoMemory) }
    {
        match area {
            Area::Config => Ok(self.config.put(name, body)?),
            Area::Packages => Ok(self.packages.put(name, body)?),
            Area::Status => Ok(self.status.put(name, body)?),
        }
    }

    // What the file of that name holds, where it is there.
    #[tactic(auto, unfolding(crate::specs::MemoryFolders::shelf_files))]
    pub(crate) fn body(
        &self,
        alloc: Global,
        area: Area,
        name: &Text,
    ) -> Result<Option<Blob>, FolderFail>
        requires { IsTrue (is_good_name name.now) }
        ensures body { IfOk result (λ body. body ≡ shelf_files self.now area name.now) }
        ensures fail { OnErr result (result ≡ Err FolderFail.NoMemory) }
    {
        match self.pairs(area).get(name) {
            Some(body) => Ok(body.copy(alloc)?),
            None => Ok(None),
        }
    }

    // The names of the area's files.
    #[tactic(auto, unfolding(crate::specs::MemoryFolders::shelf_files))]
    pub(crate) fn names(&self, alloc: Global, area: Area) -> Result<List<Text>, FolderFail>
        ensures names { IfOk result (AreNames (shelf_files self.now area)) }
        ensures good { IfOk result AreGood }
        ensures fail { OnErr result (result ≡ Err FolderFail.NoMemory) }
    {
        names_of(alloc, self.pairs(area))
    }
}

// The names of the files that are there.
fn names_of(alloc: Global, files: &Map<Option<Blob>>) -> Result<List<Text>, FolderFail>
    ensures names { IfOk result (AreNames (files_held files.now)) }
    ensures good { IfOk result AreGood }
    ensures fail { OnErr result (result ≡ Err FolderFail.NoMemory) }
{
    let mut names = List::new(alloc);
    for pair in files.as_slice() {
        if is_there(files, &pair.key) {
            names.push(pair.key.copy(alloc)?)?;
        }
    }
    Ok(names)
}

fn is_there(files: &Map<Option<Blob>>, name: &Text) -> bool
    ensures { result ≡ is_some (files_held files.now name.now) }
{
    if !name_good(name.as_str()) {
        return false;
    }
    match files.get(name) {
        Some(Some(_)) => true,
        _ => false,
    }
}
