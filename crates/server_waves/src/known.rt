//! The agents that joined a rollout.

ghost use Rattle.std.specs.Prelude.{◌≡◌, ◌||◌, false, if◌then◌else◌, ℕ, List, [], IfOk, OnOk, OnErr};
ghost use Rattle.std.specs.Str.{bytes_eq};
ghost use Rattle.server_core.specs.History.{is_among};

use plain_values::{NoMemory, Uid};
use std::alloc::Global;
use std::collections::BTreeSet;
use std::marker::Model;

/// Identifiers, of which each is found in as many steps as their number has binary digits. Contracts see them in byte order.
#[derive(Drop)]
pub(crate) struct Known {
    uids: BTreeSet<[u8; 16]>,
}

impl Model for Known {
    ghost use Rattle.std.specs.Prelude as prelude;

    ghost Value = { prelude.List (prelude.List prelude.ℕ) };

    ghost view = { λ known. known.uids.keys };
}

// The bytes of an identifier.
fn bytes_of(uid: &Uid) -> [u8; 16]
    ensures bytes { result ≡ uid.now }
{
    match <[u8; 16]>::try_from(uid.as_slice()) {
        Ok(bytes) => bytes,
        Err(_) => unreachable!(),
    }
}

impl Known {
    /// No identifiers. Takes no memory.
    pub(crate) fn new(alloc: Global) -> Known
        ensures empty { result ≡ [] }
    {
        Known {
            uids: BTreeSet::new(alloc),
        }
    }

    /// Whether the identifier is one of them. Takes no memory.
    pub(crate) fn contains(&self, uid: &Uid) -> bool
        ensures among { result ≡ is_among self.now uid.now }
    {
        self.uids.contains(&bytes_of(uid))
    }

    /// Adds an identifier.
    pub(crate) fn insert(&mut self, uid: &Uid) -> Result<(), NoMemory>
        ensures added { OnOk result ((u : List ℕ) → is_among self.new u ≡ (bytes_eq uid.now u || is_among self.old u)) }
        ensures err { OnErr result (self.new ≡ self.old) }
    {
        self.uids.insert(bytes_of(uid))?;
        Ok(())
    }

    /// Removes an identifier. Takes no memory.
    pub(crate) fn remove(&mut self, uid: &Uid)
        ensures removed { (u : List ℕ) → is_among self.new u ≡ (if bytes_eq uid.now u then false else is_among self.old u) }
    {
        self.uids.remove(&bytes_of(uid));
    }

    /// The identifiers of a list.
    pub(crate) fn of(alloc: Global, uids: &[Uid]) -> Result<Known, NoMemory>
        ensures among { IfOk result (λ known. (u : List ℕ) → is_among known u ≡ is_among uids.now u) }
    {
        let mut known = Known::new(alloc);
        for uid in uids {
            known.insert(uid)?;
        }
        Ok(known)
    }
}
