//! A folder of whole files.

ghost use Rattle.std.specs.Prelude.{◌≡◌, IsTrue, IfOk, None, Some};
ghost use Rattle.edge_devices.specs.Folders.{AreGood, AreNames};
ghost use Rattle.edge_devices.specs.Names.{is_good_name};
ghost use Rattle.edge_shelf.specs.Shelves.{ShelfState, Changes, Looks, MayLeave};

use edge_devices::FolderFail;
use plain_values::{Blob, List, Text};
use std::alloc::Global;

/// Files in one folder, each of which is written or removed whole. Contracts see what a read gives of each name, and beside it
/// what a stop of the machine may leave: behind a write or a removal that is done that alone, and behind one that isn't, the new
/// file or what might have been left before, and every other file as it was. A stop amid a call leaves what a failure of that
/// call leaves, since no call comes behind it.
///
/// The name of a file is good (`edge_devices::name_good`); a shelf has no file of another name.
pub trait Shelf {
    // What a read gives and a stop may leave, and the count of faults.
    ghost state: { Self → ShelfState };

    /// The names of the files. What a read gives is among what a stop may leave.
    fn names(&mut self, alloc: Global) -> Result<List<Text>, FolderFail>
        ensures now { IsTrue (state self.old).told → MayLeave (state self.old) (state self.old).files }
        ensures names { IfOk result (λ names. IsTrue (state self.old).told → AreNames (state self.old).files names) }
        ensures good { IfOk result AreGood }
        ensures looks { Looks (state self.old) (state self.new) result };

    /// What the file of that name holds; none where there is no such file.
    fn read(&mut self, alloc: Global, name: &Text) -> Result<Option<Blob>, FolderFail>
        requires good { IsTrue (is_good_name name.now) }
        ensures body { IfOk result (λ body. IsTrue (state self.old).told → body ≡ (state self.old).files name.now) }
        ensures looks { Looks (state self.old) (state self.new) result };

    /// The file of that name holds these bytes, whether it was there or not.
    fn write(&mut self, alloc: Global, name: &Text, body: &Blob) -> Result<(), FolderFail>
        requires good { IsTrue (is_good_name name.now) }
        ensures changes { Changes name.now (Some body.now) (state self.old) (state self.new) result };

    /// There is no file of that name, whether it was there or not.
    fn remove(&mut self, alloc: Global, name: &Text) -> Result<(), FolderFail>
        requires good { IsTrue (is_good_name name.now) }
        ensures changes { Changes name.now None (state self.old) (state self.new) result };
}
