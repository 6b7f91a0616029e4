//! Reading again what stands.

ghost use Rattle.std.specs.Prelude.{◌≡◌, ℕ, List, IsTrue, IfOk, IfErr, OnOk};
ghost use Rattle.edge_devices.specs.Faults.{HasRisen};
ghost use Rattle.edge_devices.specs.Names.{is_good_name};
ghost use Rattle.edge_shelf.specs.Shelves.{MayLeave};
ghost use Rattle.server_kept.specs.Opening.{Adds, OpenFails, Opened, SameShelf};

use crate::bodies::offers_in;
use crate::names::agent_of;
use edge_shelf::{FolderFail, Shelf};
use plain_values::{List as Items, NoMemory, Plain, Text, Uid};
use server_core::Offers;
use std::alloc::Global;
use thiserror::Error;

/// An agent and the offers that stand for it.
#[derive(Drop)]
pub struct KeptOffers {
    /// The agent.
    pub uid: Uid,
    /// What stands for it, at least one offer.
    pub offers: Offers,
}

/// Why a shelf isn't read.
#[derive(Debug, Drop, Error)]
pub enum OpenFail {
    /// The file of this name isn't right: it is an agent's, and its body isn't that of any offers to it.
    #[error("a file isn't that of any offers to its agent")]
    Wrong(Text),
    /// The shelf failed.
    #[error("the shelf can't be read")]
    Fault,
    /// There was no memory.
    #[error("there was no memory")]
    NoMemory,
}

impl From<NoMemory> for OpenFail {
    ghost use Rattle.server_kept.specs.declared.opening.OpenFail.TheVariants.{NoMemory};

    ghost from_gives = { λ _ e. e ≡ NoMemory };

    fn from(_e: NoMemory) -> OpenFail {
        OpenFail::NoMemory
    }
}

impl From<FolderFail> for OpenFail {
    ghost use Rattle.server_kept.specs.Opening.{open_fail};

    ghost from_gives = { λ fail e. e ≡ open_fail fail };

    fn from(fail: FolderFail) -> OpenFail {
        match fail {
            FolderFail::Fault => OpenFail::Fault,
            FolderFail::NoMemory => OpenFail::NoMemory,
        }
    }
}

// Adds what the file of this name keeps, where it is an agent's.
fn read_one<S: Shelf>(
    alloc: Global,
    shelf: &mut S,
    name: &Text,
    found: &mut Items<KeptOffers>,
) -> Result<(), OpenFail>
    requires good { IsTrue (is_good_name name.now) }
    ensures adds { OnOk result (IsTrue (S.state shelf.old).told → Adds (S.state shelf.old).files name.now found.old found.new) }
    ensures failed { IfErr result (OpenFails (S.state shelf.old) (S.state shelf.new)) }
    ensures same { SameShelf (S.state shelf.old) (S.state shelf.new) }
{
    let Some(uid) = agent_of(alloc, name)? else {
        return Ok(());
    };
    let Some(body) = shelf.read(alloc, name)? else {
        return Ok(());
    };
    match offers_in(alloc, &uid, &body)? {
        Some(offers) => {
            found.push(KeptOffers { uid, offers })?;
            Ok(())
        }
        None => Err(OpenFail::Wrong(name.copy(alloc)?)),
    }
}

/// Reads again what stands for each agent. A file that is no agent's is left alone.
///
/// # Errors
///
/// `Wrong` with the name of a file that is an agent's and not right, `Fault` where the shelf failed in this call, and `NoMemory`.
pub fn open<S: Shelf>(alloc: Global, shelf: &mut S) -> Result<Items<KeptOffers>, OpenFail>
    ensures opened { IfOk result (λ found. IsTrue (S.state shelf.old).told → Opened (S.state shelf.old).files found) }
    ensures now { IsTrue (S.state shelf.old).told → MayLeave (S.state shelf.old) (S.state shelf.old).files }
    ensures failed { IfErr result (OpenFails (S.state shelf.old) (S.state shelf.new)) }
    ensures same { SameShelf (S.state shelf.old) (S.state shelf.new) }
{
    let names = shelf.names(alloc)?;
    let mut found = Items::new(alloc);
    for name in names.as_slice() {
        match read_one(alloc, shelf, name, &mut found) {
            Ok(()) => {}
            Err(fail) => return Err(fail),
        }
    }
    Ok(found)
}
