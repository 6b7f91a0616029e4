//! Keeping what stands for an agent.

ghost use Rattle.std.specs.Prelude.{◌≡◌, ◌<◌, length, true, Err, is_ok, IsErrOf};
ghost use Rattle.message_codec.specs.Levels.{most_bytes};
ghost use Rattle.edge_devices.specs.Faults.{HasRisen};
ghost use Rattle.server_core.specs.Offers.{no_offers};
ghost use Rattle.message_replies.specs.Canonical.{canonical_reply};
ghost use Rattle.server_kept.specs.Files.{IsUid, has_offer, kept_reply};
ghost use Rattle.server_kept.specs.Keeping.{Keeps};

use crate::bodies::{body_of, has_offer};
use crate::names::name_of;
use edge_shelf::{FolderFail, Shelf};
use message_replies::WriteFail;
use plain_values::{NoMemory, Uid};
use server_core::Offers;
use std::alloc::Global;
use thiserror::Error;

/// Why an order isn't kept.
#[derive(Clone, Copy, Debug, PartialEq, Eq, Error)]
pub enum KeepFail {
    /// The shelf failed.
    #[error("it isn't kept")]
    NotKept,
    /// The file would have more than 4,194,304 bytes.
    #[error("the file would have more than 4,194,304 bytes")]
    TooLarge,
    /// There was no memory.
    #[error("there was no memory")]
    NoMemory,
}

impl From<NoMemory> for KeepFail {
    ghost use Rattle.server_kept.specs.declared.keeping.KeepFail.TheVariants.{NoMemory};

    ghost from_gives = { λ _ e. e ≡ NoMemory };

    fn from(_e: NoMemory) -> KeepFail {
        KeepFail::NoMemory
    }
}

impl From<WriteFail> for KeepFail {
    ghost use Rattle.server_kept.specs.Keeping.{write_fail};

    ghost from_gives = { λ fail e. e ≡ write_fail fail };

    fn from(fail: WriteFail) -> KeepFail {
        match fail {
            WriteFail::NoMemory => KeepFail::NoMemory,
            _ => KeepFail::TooLarge,
        }
    }
}

// What the shelf answered.
fn told(answer: Result<(), FolderFail>) -> Result<(), KeepFail>
    ensures ok { is_ok result ≡ is_ok answer }
    ensures fault { IsErrOf result KeepFail.NotKept → answer ≡ Err FolderFail.Fault }
    ensures not_too_large { IsErrOf result KeepFail.TooLarge → ⊥ }
{
    match answer {
        Ok(()) => Ok(()),
        Err(FolderFail::Fault) => Err(KeepFail::NotKept),
        Err(FolderFail::NoMemory) => Err(KeepFail::NoMemory),
    }
}

/// Keeps what stands for the agent: its file is that of these offers, and where none stands there is no file. After a failure a stop leaves what
/// it might have left before, or this; other agents' files are as they were.
pub fn keep<S: Shelf>(
    alloc: Global,
    shelf: &mut S,
    uid: &Uid,
    offers: &Offers,
) -> Result<(), KeepFail>
    ensures keeps { Keeps uid.now offers.now (is_ok result) (S.state shelf.old) (S.state shelf.new) }
    ensures agent { IsUid uid.now }
    ensures fault { IsErrOf result KeepFail.NotKept → HasRisen (S.state shelf.old).faults (S.state shelf.new).faults }
    ensures too_large { IsErrOf result KeepFail.TooLarge → (has_offer offers.now ≡ true) × (most_bytes < length (canonical_reply (kept_reply uid.now offers.now))) }
{
    let name = name_of(alloc, uid)?;
    if has_offer(offers) {
        let body = body_of(alloc, uid, offers)?;
        told(shelf.write(alloc, &name, &body))
    } else {
        told(shelf.remove(alloc, &name))
    }
}

/// Keeps that nothing stands for the agent.
pub fn forget<S: Shelf>(alloc: Global, shelf: &mut S, uid: &Uid) -> Result<(), KeepFail>
    ensures keeps { Keeps uid.now no_offers (is_ok result) (S.state shelf.old) (S.state shelf.new) }
    ensures agent { IsUid uid.now }
    ensures fault { IsErrOf result KeepFail.NotKept → HasRisen (S.state shelf.old).faults (S.state shelf.new).faults }
    ensures not_too_large { IsErrOf result KeepFail.TooLarge → ⊥ }
{
    let name = name_of(alloc, uid)?;
    told(shelf.remove(alloc, &name))
}
