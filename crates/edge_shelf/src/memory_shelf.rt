//! A shelf in memory.

ghost use Rattle.std.specs.Prelude.{◌≡◌, ℕ, List, IsTrue, IsErr, IfOk, OnOk, OnErr, Err, Some, None, false};
ghost use Rattle.edge_devices.specs.Folders.{AreGood, AreNames, is_folder_fault};
ghost use Rattle.edge_devices.specs.Names.{is_good_name};
ghost use Rattle.edge_shelf.specs.Counts.{IsListed, IsToFail, after_answer, after_change, after_look, opening};
ghost use Rattle.edge_shelf.specs.MemoryShelves.{memory_shelf, shelf_counts};
ghost use Rattle.edge_shelf.specs.Shelves.{Changes, IsSettled, Looks, MayLeave};

use crate::counts::Counts;
use crate::shelf::Shelf;
use crate::slots::{Slot, kept, names, put, settle};
use edge_devices::FolderFail;
use plain_values::{Blob, List as Items, Map, NoMemory, Plain, Text};
use std::alloc::Global;

/// What a stop leaves of files whose last write or removal wasn't done.
#[derive(Clone, Copy, Debug, PartialEq, Eq)]
pub enum Mode {
    /// The former files.
    Former,
    /// The new ones.
    New,
}

/// A shelf in memory. It tells its files. The calls whose numbers `failing` lists fail, and the write or removal that is stopped,
/// and no others do, but for want of memory. Calls are numbered from 0. A write or a removal that fails leaves what a read gives
/// as it was.
#[derive(Drop)]
pub struct MemoryShelf {
    slots: Map<Slot>,
    counts: Counts,
}

impl MemoryShelf {
    /// An empty shelf, with no call yet.
    pub fn new(alloc: Global, failing: Vec<u64>) -> MemoryShelf
        ensures told { IsTrue (memory_shelf result).told }
        ensures empty { (name : List ℕ) → (memory_shelf result).files name ≡ None }
        ensures settled { IsSettled (memory_shelf result) }
        ensures counts { shelf_counts result ≡ opening failing.items }
    {
        MemoryShelf {
            slots: Map::new(alloc),
            counts: Counts::new(failing),
        }
    }

    /// Stops the write or removal of this number, counted from 1 from now on; 0 stops none. A later call takes its place.
    pub fn arm(&mut self, changes: u64)
        ensures same { memory_shelf self.new ≡ memory_shelf self.old }
        ensures armed { shelf_counts self.new ≡ record (shelf_counts self.old) { stop = changes; stopped = false } }
    {
        self.counts.arm(changes);
    }

    /// Whether a write or removal was stopped since the last `arm`.
    pub fn stopped(&self) -> bool
        ensures stopped { result ≡ (shelf_counts self.now).stopped }
    {
        self.counts.stopped()
    }

    /// Stops the machine and starts it: each file whose last change wasn't done is as the mode says. Want of memory changes
    /// nothing.
    pub fn crash(&mut self, alloc: Global, mode: Mode) -> Result<(), NoMemory>
        ensures left { OnOk result (MayLeave (memory_shelf self.old) (memory_shelf self.new).files) }
        ensures settled { OnOk result (IsSettled (memory_shelf self.new)) }
        ensures told { (memory_shelf self.new).told ≡ (memory_shelf self.old).told }
        ensures same { OnErr result (self.new ≡ self.old) }
        ensures counts { shelf_counts self.new ≡ shelf_counts self.old }
    {
        self.slots = settle(alloc, &self.slots, mode)?;
        Ok(())
    }

    // The file is to hold this body, which fails or is done.
    fn change(
        &mut self,
        alloc: Global,
        name: &Text,
        body: Option<Blob>,
        fails: bool,
    ) -> Result<(), FolderFail>
        requires good { IsTrue (is_good_name name.now) }
        ensures changes { Changes name.now body (memory_shelf self.old) (memory_shelf self.new) result }
        ensures fails { IsTrue fails → IsErr result }
        ensures only { result ≡ Err FolderFail.Fault → IsTrue fails }
        ensures former { OnErr result ((q : List ℕ) → (memory_shelf self.new).files q ≡ (memory_shelf self.old).files q) }
        ensures counts { shelf_counts self.new ≡ after_answer (shelf_counts self.old) (is_folder_fault result) }
    {
        put(alloc, &mut self.slots, name, body, fails)?;
        if fails {
            return Err(self.counts.fail());
        }
        Ok(())
    }
}

impl Shelf for MemoryShelf {
    ghost use Rattle.edge_shelf.specs.MemoryShelves.{memory_shelf};

    ghost state = { memory_shelf };

    #[tactic(auto, using(crate::proofs::Changing::read_left))]
    fn names(&mut self, alloc: Global) -> Result<Items<Text>, FolderFail>
        ensures now { IsTrue (memory_shelf self.old).told → MayLeave (memory_shelf self.old) (memory_shelf self.old).files }
        ensures names { IfOk result (λ names. IsTrue (memory_shelf self.old).told → AreNames (memory_shelf self.old).files names) }
        ensures good { IfOk result AreGood }
        ensures looks { Looks (memory_shelf self.old) (memory_shelf self.new) result }

        // It fails where the call is listed, and nowhere else; and so do the faults rise.
        ensures listed { IsListed (shelf_counts self.old) → IsErr result }
        ensures only { result ≡ Err FolderFail.Fault → IsListed (shelf_counts self.old) }
        ensures counts { shelf_counts self.new ≡ after_look (shelf_counts self.old) (is_folder_fault result) }
    {
        if self.counts.begin() {
            return Err(self.counts.fail());
        }
        Ok(names(alloc, &self.slots)?)
    }

    fn read(&mut self, alloc: Global, name: &Text) -> Result<Option<Blob>, FolderFail>
        requires good { IsTrue (is_good_name name.now) }
        ensures body { IfOk result (λ body. IsTrue (memory_shelf self.old).told → body ≡ (memory_shelf self.old).files name.now) }
        ensures looks { Looks (memory_shelf self.old) (memory_shelf self.new) result }
        ensures listed { IsListed (shelf_counts self.old) → IsErr result }
        ensures only { result ≡ Err FolderFail.Fault → IsListed (shelf_counts self.old) }
        ensures counts { shelf_counts self.new ≡ after_look (shelf_counts self.old) (is_folder_fault result) }
    {
        if self.counts.begin() {
            return Err(self.counts.fail());
        }
        Ok(kept(alloc, &self.slots, name)?)
    }

    fn write(&mut self, alloc: Global, name: &Text, body: &Blob) -> Result<(), FolderFail>
        requires good { IsTrue (is_good_name name.now) }
        ensures changes { Changes name.now (Some body.now) (memory_shelf self.old) (memory_shelf self.new) result }

        // It fails where the call is listed or stopped, and nowhere else; and so do the faults rise.
        ensures fails { IsToFail (shelf_counts self.old) → IsErr result }
        ensures only { result ≡ Err FolderFail.Fault → IsToFail (shelf_counts self.old) }
        ensures former { OnErr result ((q : List ℕ) → (memory_shelf self.new).files q ≡ (memory_shelf self.old).files q) }
        ensures counts { shelf_counts self.new ≡ after_change (shelf_counts self.old) (is_folder_fault result) }
    {
        let fails = self.counts.begin_change();
        let body = body.copy(alloc)?;
        self.change(alloc, name, Some(body), fails)
    }

    fn remove(&mut self, alloc: Global, name: &Text) -> Result<(), FolderFail>
        requires good { IsTrue (is_good_name name.now) }
        ensures changes { Changes name.now None (memory_shelf self.old) (memory_shelf self.new) result }
        ensures fails { IsToFail (shelf_counts self.old) → IsErr result }
        ensures only { result ≡ Err FolderFail.Fault → IsToFail (shelf_counts self.old) }
        ensures former { OnErr result ((q : List ℕ) → (memory_shelf self.new).files q ≡ (memory_shelf self.old).files q) }
        ensures counts { shelf_counts self.new ≡ after_change (shelf_counts self.old) (is_folder_fault result) }
    {
        let fails = self.counts.begin_change();
        self.change(alloc, name, None, fails)
    }
}
