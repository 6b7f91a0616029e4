//! A folder in memory.

ghost use Rattle.std.specs.Prelude.{◌≡◌, ◌<◌, ◌++◌, ◌∷◌, [], None, Some, Err, IsErr, IfOk, IfSome, OnOk, OnErr, IsTrue, is_none, is_some, not, false, true, if◌then◌else◌, vec_len, vec_capacity};
ghost use Rattle.edge_devices.specs.declared.folders.FolderCall.TheVariants.{Names, Read, Write, Remove};
ghost use Rattle.edge_devices.specs.Folders.{AreGood, AreNames, Calls, SameFiles, SameOthers, is_folder_fault};
ghost use Rattle.edge_devices.specs.MemoryFolders.{Puts, folder_schedule, memory_folder, shelf_files};
ghost use Rattle.edge_devices.specs.Names.{is_good_name};
ghost use Rattle.edge_devices.specs.Schedules.{IsListed, after_call, opening};

use crate::folders::{Area, Folder, FolderCall, FolderFail};
use crate::schedule::Schedule;
use crate::shelves::Shelves;
use crate::spare::put_last;
use plain_values::{Blob, List, NoMemory, Plain, Text};
use std::alloc::Global;

/// A folder in memory. It tells its files and its calls. The calls whose numbers `failing` lists fail, and no others
/// do; a call that fails leaves the files as they were. Calls are numbered from 0.
pub struct MemoryFolder {
    files: Shelves,
    calls: Vec<FolderCall>,
    schedule: Schedule,
}

// By hand, so that it is a call where a value is dropped, and not laid out there.
impl Drop for MemoryFolder {
    fn drop(self) {
        let MemoryFolder {
            files: _,
            calls: _,
            schedule: _,
        } = self;
    }
}

impl MemoryFolder {
    /// An empty folder, with no call yet.
    pub fn new(alloc: Global, failing: Vec<u64>) -> MemoryFolder
        ensures told { IsTrue (memory_folder result).told }
        ensures empty { SameFiles (λ area name. None) (memory_folder result).files }
        ensures no_calls { (memory_folder result).calls ≡ [] }
        ensures made { folder_schedule result ≡ opening failing.items }
    {
        MemoryFolder {
            files: Shelves::new(alloc),
            calls: Vec::new(alloc),
            schedule: Schedule::new(failing),
        }
    }

    /// The calls that were made, in their order, each with its answer. One that answered want of memory is not
    /// among them.
    pub fn calls(&self) -> &[FolderCall]
        ensures calls { result.now ≡ (memory_folder self.now).calls }
    {
        self.calls.as_slice()
    }
}

// Tells a call of `names` with its answer. Want of memory changes nothing.
fn tell_names(
    alloc: Global,
    calls: &mut Vec<FolderCall>,
    area: Area,
    names: &Option<List<Text>>,
) -> Result<(), NoMemory>
    ensures told { OnOk result (calls.new.items ≡ calls.old.items ++ Names area names.now ∷ []) }
    ensures kept { OnErr result (calls.new.items ≡ calls.old.items) }
{
    let names = names.copy(alloc)?;
    calls.push(FolderCall::Names(area, names))?;
    Ok(())
}

// The names of the area's files, where the call isn't to fail, and tells them. Want of memory changes nothing.
fn names_told(
    alloc: Global,
    calls: &mut Vec<FolderCall>,
    files: &Shelves,
    area: Area,
    fails: bool,
) -> Result<Option<List<Text>>, FolderFail>
    ensures none { IfOk result (λ names. is_none names ≡ fails) }
    ensures names { IfOk result (λ names. IfSome names (AreNames (shelf_files files.now area))) }
    ensures good { IfOk result (λ names. IfSome names AreGood) }
    ensures told { IfOk result (λ names. calls.new.items ≡ calls.old.items ++ Names area names ∷ []) }
    ensures kept { OnErr result (calls.new.items ≡ calls.old.items) }
    ensures fail { OnErr result (result ≡ Err FolderFail.NoMemory) }
{
    let names = if fails {
        None
    } else {
        Some(files.names(alloc, area)?)
    };
    tell_names(alloc, calls, area, &names)?;
    Ok(names)
}

// Tells a call of `read` with its answer. Want of memory changes nothing.
fn tell_read(
    alloc: Global,
    calls: &mut Vec<FolderCall>,
    area: Area,
    name: &Text,
    body: &Option<Option<Blob>>,
) -> Result<(), NoMemory>
    ensures told { OnOk result (calls.new.items ≡ calls.old.items ++ Read area name.now body.now ∷ []) }
    ensures kept { OnErr result (calls.new.items ≡ calls.old.items) }
{
    let name = name.copy(alloc)?;
    let body = body.copy(alloc)?;
    calls.push(FolderCall::Read(area, name, body))?;
    Ok(())
}

// What the file holds, where the call isn't to fail, and tells it. Want of memory changes nothing.
fn body_told(
    alloc: Global,
    calls: &mut Vec<FolderCall>,
    files: &Shelves,
    area: Area,
    name: &Text,
    fails: bool,
) -> Result<Option<Option<Blob>>, FolderFail>
    requires good { IsTrue (is_good_name name.now) }
    ensures body { IfOk result (λ body. body ≡ (if fails then None else Some (shelf_files files.now area name.now))) }
    ensures told { IfOk result (λ body. calls.new.items ≡ calls.old.items ++ Read area name.now body ∷ []) }
    ensures kept { OnErr result (calls.new.items ≡ calls.old.items) }
    ensures fail { OnErr result (result ≡ Err FolderFail.NoMemory) }
{
    let body = if fails {
        None
    } else {
        Some(files.body(alloc, area, name)?)
    };
    tell_read(alloc, calls, area, name, &body)?;
    Ok(body)
}

// A call of `write` as it is told, and room for it among the calls.
fn write_call(
    alloc: Global,
    calls: &mut Vec<FolderCall>,
    area: Area,
    name: &Text,
    body: &Blob,
    done: bool,
) -> Result<FolderCall, NoMemory>
    ensures call { IfOk result (λ call. call ≡ Write area name.now body.now done) }
    ensures room { OnOk result (vec_len calls.new < vec_capacity calls.new) }
    ensures same { calls.new.items ≡ calls.old.items }
{
    calls.reserve(1)?;
    let name = name.copy(alloc)?;
    let body = body.copy(alloc)?;
    Ok(FolderCall::Write(area, name, body, done))
}

// Writes the file, where the call isn't to fail, and tells it. Want of memory changes nothing.
fn write_told(
    alloc: Global,
    calls: &mut Vec<FolderCall>,
    files: &mut Shelves,
    area: Area,
    name: &Text,
    body: &Blob,
    fails: bool,
) -> Result<(), FolderFail>
    requires good { IsTrue (is_good_name name.now) }
    ensures told { OnOk result (calls.new.items ≡ calls.old.items ++ Write area name.now body.now (not fails) ∷ []) }
    ensures kept { OnErr result (calls.new.items ≡ calls.old.items) }
    ensures written { OnOk result (fails ≡ false → Puts (shelf_files files.old) (shelf_files files.new) area name.now (Some body.now)) }
    ensures failed { fails ≡ true → files.new ≡ files.old }
    ensures same { OnErr result (files.new ≡ files.old) }
    ensures fail { OnErr result (result ≡ Err FolderFail.NoMemory) }
{
    let call = write_call(alloc, calls, area, name, body, !fails)?;
    if !fails {
        files.write(alloc, area, name, body)?;
    }
    put_last(calls, call);
    Ok(())
}

// A call of `remove` as it is told, and room for it among the calls.
fn remove_call(
    alloc: Global,
    calls: &mut Vec<FolderCall>,
    area: Area,
    name: &Text,
    done: bool,
) -> Result<FolderCall, NoMemory>
    ensures call { IfOk result (λ call. call ≡ Remove area name.now done) }
    ensures room { OnOk result (vec_len calls.new < vec_capacity calls.new) }
    ensures same { calls.new.items ≡ calls.old.items }
{
    calls.reserve(1)?;
    let name = name.copy(alloc)?;
    Ok(FolderCall::Remove(area, name, done))
}

// Removes the file, where the call isn't to fail, and tells it. Want of memory changes nothing.
fn remove_told(
    alloc: Global,
    calls: &mut Vec<FolderCall>,
    files: &mut Shelves,
    area: Area,
    name: &Text,
    fails: bool,
) -> Result<(), FolderFail>
    requires good { IsTrue (is_good_name name.now) }
    ensures told { OnOk result (calls.new.items ≡ calls.old.items ++ Remove area name.now (not fails) ∷ []) }
    ensures kept { OnErr result (calls.new.items ≡ calls.old.items) }
    ensures removed { OnOk result (fails ≡ false → Puts (shelf_files files.old) (shelf_files files.new) area name.now None) }
    ensures failed { fails ≡ true → files.new ≡ files.old }
    ensures same { OnErr result (files.new ≡ files.old) }
    ensures fail { OnErr result (result ≡ Err FolderFail.NoMemory) }
{
    let call = remove_call(alloc, calls, area, name, !fails)?;
    if !fails {
        files.remove(alloc, area, name)?;
    }
    put_last(calls, call);
    Ok(())
}

impl Folder for MemoryFolder {
    ghost use Rattle.edge_devices.specs.MemoryFolders.{memory_folder};

    ghost state = { memory_folder };

    fn names(&mut self, alloc: Global, area: Area) -> Result<List<Text>, FolderFail>
        ensures names { IfOk result (λ names. IsTrue (memory_folder self.new).told → AreNames ((memory_folder self.old).files area) names) }
        ensures good { IfOk result AreGood }
        ensures same { SameFiles (memory_folder self.old).files (memory_folder self.new).files }
        ensures call { Calls (memory_folder self.old) (memory_folder self.new) (FolderCall.Names area) result }

        // It fails where the call is listed, and nowhere else; and so do the faults rise.
        ensures listed { IsListed (folder_schedule self.old) → IsErr result }
        ensures only { result ≡ Err FolderFail.Fault → IsListed (folder_schedule self.old) }
        ensures counts { folder_schedule self.new ≡ after_call (folder_schedule self.old) (is_folder_fault result) }
    {
        let fails = self.schedule.begin();
        match names_told(alloc, &mut self.calls, &self.files, area, fails)? {
            Some(names) => Ok(names),
            None => {
                self.schedule.fail();
                Err(FolderFail::Fault)
            }
        }
    }

    fn read(&mut self, alloc: Global, area: Area, name: &Text) -> Result<Option<Blob>, FolderFail>
        requires good { IsTrue (is_good_name name.now) }
        ensures body { IfOk result (λ body. IsTrue (memory_folder self.new).told → body ≡ (memory_folder self.old).files area name.now) }
        ensures same { SameFiles (memory_folder self.old).files (memory_folder self.new).files }
        ensures call { Calls (memory_folder self.old) (memory_folder self.new) (FolderCall.Read area name.now) result }
        ensures listed { IsListed (folder_schedule self.old) → IsErr result }
        ensures only { result ≡ Err FolderFail.Fault → IsListed (folder_schedule self.old) }
        ensures counts { folder_schedule self.new ≡ after_call (folder_schedule self.old) (is_folder_fault result) }
    {
        let fails = self.schedule.begin();
        match body_told(alloc, &mut self.calls, &self.files, area, name, fails)? {
            Some(body) => Ok(body),
            None => {
                self.schedule.fail();
                Err(FolderFail::Fault)
            }
        }
    }

    fn write(
        &mut self,
        alloc: Global,
        area: Area,
        name: &Text,
        body: &Blob,
    ) -> Result<(), FolderFail>
        requires good { IsTrue (is_good_name name.now) }
        ensures written { OnOk result (IsTrue (memory_folder self.new).told → (memory_folder self.new).files area name.now ≡ Some body.now) }
        ensures same { SameOthers area name.now (memory_folder self.old).files (memory_folder self.new).files }
        ensures call { Calls (memory_folder self.old) (memory_folder self.new) (λ done. FolderCall.Write area name.now body.now (is_some done)) result }
        ensures failed { OnErr result (SameFiles (memory_folder self.old).files (memory_folder self.new).files) }
        ensures listed { IsListed (folder_schedule self.old) → IsErr result }
        ensures only { result ≡ Err FolderFail.Fault → IsListed (folder_schedule self.old) }
        ensures counts { folder_schedule self.new ≡ after_call (folder_schedule self.old) (is_folder_fault result) }
    {
        let fails = self.schedule.begin();
        write_told(
            alloc,
            &mut self.calls,
            &mut self.files,
            area,
            name,
            body,
            fails,
        )?;
        if fails {
            self.schedule.fail();
            return Err(FolderFail::Fault);
        }
        Ok(())
    }

    fn remove(&mut self, alloc: Global, area: Area, name: &Text) -> Result<(), FolderFail>
        requires good { IsTrue (is_good_name name.now) }
        ensures removed { OnOk result (IsTrue (memory_folder self.new).told → (memory_folder self.new).files area name.now ≡ None) }
        ensures same { SameOthers area name.now (memory_folder self.old).files (memory_folder self.new).files }
        ensures call { Calls (memory_folder self.old) (memory_folder self.new) (λ done. FolderCall.Remove area name.now (is_some done)) result }
        ensures failed { OnErr result (SameFiles (memory_folder self.old).files (memory_folder self.new).files) }
        ensures listed { IsListed (folder_schedule self.old) → IsErr result }
        ensures only { result ≡ Err FolderFail.Fault → IsListed (folder_schedule self.old) }
        ensures counts { folder_schedule self.new ≡ after_call (folder_schedule self.old) (is_folder_fault result) }
    {
        let fails = self.schedule.begin();
        remove_told(alloc, &mut self.calls, &mut self.files, area, name, fails)?;
        if fails {
            self.schedule.fail();
            return Err(FolderFail::Fault);
        }
        Ok(())
    }
}
