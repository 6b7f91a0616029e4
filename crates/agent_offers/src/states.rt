//! The states of an offer.

ghost use Rattle.std.specs.Prelude.{◌≡◌, ◌≤◌, ◌⊎◌, ◌↔◌, IfOk, OnOk, IsErrAnd, IfErr};
ghost use Rattle.agent_offers.specs.Offers.{HasRisen, IsOf};
ghost use Rattle.agent_offers.specs.Ends.{IsBroken, IsTooBig, IsSpent, KeepsOffer, KeepsFormer};

use crate::keep::{Keep, KeepFail};
use std::marker::Model;

/// A value that stands, and no offer on trial. Contracts see the value.
#[derive(Drop)]
pub struct Settled<T> {
    value: T,
}

impl<T> Model for Settled<T> {
    ghost Value = { T };

    ghost coded = { T.code };

    ghost view = { λ settled. settled.value };
}

/// A value that stands, and one that is tried. Contracts see both.
#[derive(Drop)]
pub struct Trying<T> {
    former: T,
    tried: T,
}

impl<T> Model for Trying<T> {
    ghost use Rattle.agent_offers.specs.Offers as offers;

    ghost Value = { offers.Offer T };

    ghost coded = { offers.offer_code T.code };

    ghost view = { λ trying. record { former = trying.former; tried = trying.tried } };
}

/// An offer whose device failed while the tried value was being kept: the device, read again, has to say which of the two
/// it holds. Contracts see both.
#[derive(Drop)]
pub struct Broken<T> {
    former: T,
    tried: T,
}

impl<T> Model for Broken<T> {
    ghost use Rattle.agent_offers.specs.Offers as offers;

    ghost Value = { offers.Offer T };

    ghost coded = { offers.offer_code T.code };

    ghost view = { λ broken. record { former = broken.former; tried = broken.tried } };
}

/// Why the tried value was not kept, with the offer as it now is.
#[derive(Drop)]
pub enum NotKept<T> {
    /// The device failed.
    Broken(Broken<T>),
    /// The tried value is too big.
    TooBig(Trying<T>),
    /// There was no memory.
    NoMemory(Trying<T>),
    /// Nothing more can be kept.
    Spent(Trying<T>),
}

impl<T: Drop> Settled<T> {
    /// A value that stands.
    pub fn new(value: T) -> Settled<T>
        ensures value { result ≡ value }
    {
        Settled { value }
    }

    /// The value that stands.
    pub fn active(&self) -> &T
        ensures value { result.now ≡ self.now }
    {
        &self.value
    }

    /// Tries another value.
    pub fn begin(self, next: T) -> Trying<T>
        ensures former { result.former ≡ self }
        ensures tried { result.tried ≡ next }
    {
        Trying {
            former: self.value,
            tried: next,
        }
    }
}

impl<T: Drop> Trying<T> {
    /// The value that stands, which is the one from before the offer.
    pub fn active(&self) -> &T
        ensures former { result.now ≡ self.now.former }
    {
        &self.former
    }

    /// The value that is tried.
    pub fn tried(&self) -> &T
        ensures tried { result.now ≡ self.now.tried }
    {
        &self.tried
    }

    /// The value that is tried, for a caller that keeps it by a call of its own. The former one is dropped.
    pub fn into_tried(self) -> T
        ensures tried { result ≡ self.tried }
    {
        let Trying { former: _, tried } = self;
        tried
    }

    /// The same offer, behind a fault of its device.
    fn into_broken(self) -> Broken<T>
        ensures offer { result ≡ self }
    {
        let Trying { former, tried } = self;
        Broken { former, tried }
    }

    /// The offer has failed: the former value stands.
    pub fn abandon(self) -> Settled<T>
        ensures former { result ≡ self.former }
    {
        let Trying { former, tried: _ } = self;
        Settled { value: former }
    }

    /// Keeps the tried value, which then stands.
    pub fn commit<D, K: Keep<T, D>>(
        self,
        keep: &mut K,
        device: &mut D,
    ) -> Result<Settled<T>, NotKept<T>>
        requires admits { K.admits keep.old device.old self.tried }
        requires former { K.keeps keep.old device.old self.former }
        ensures settled { IfOk result (λ settled. settled ≡ self.tried) }
        ensures kept { OnOk result (K.keeps keep.new device.new self.tried) }

        // Where the tried value was not kept, the offer is as it was; and the former value is kept, or after a fault that
        // or the tried one. No other value is held, whatever the answer, and after a crash at any moment of the call.
        ensures offer { IfErr result (KeepsOffer self) }
        ensures not_kept { IfErr result (KeepsFormer (K.keeps keep.new device.new self.former)) }
        ensures either { K.holds device.new self.former ⊎ K.holds device.new self.tried }
        ensures any_moment { (left : D) → K.crashes device.old device.new left → K.holds left self.former ⊎ K.holds left self.tried }
        ensures at_first { K.crashes device.old device.new device.old }
        ensures at_last { K.crashes device.old device.new device.new }

        ensures broken { IfErr result (λ end. IsBroken end → HasRisen (K.faults device.old) (K.faults device.new)) }
        ensures count { K.faults device.old ≤ K.faults device.new }
        ensures too_big { (IsErrAnd result IsTooBig) ↔ K.exceeds keep.old device.old self.tried }
        ensures spent { (IsErrAnd result IsSpent) ↔ K.exhausts keep.old device.old self.tried }
    {
        match keep.keep(device, &self.tried) {
            Ok(()) => Ok(Settled {
                value: self.into_tried(),
            }),
            Err(KeepFail::Fault) => Err(NotKept::Broken(self.into_broken())),
            Err(KeepFail::TooBig) => Err(NotKept::TooBig(self)),
            Err(KeepFail::NoMemory) => Err(NotKept::NoMemory(self)),
            Err(KeepFail::Spent) => Err(NotKept::Spent(self)),
        }
    }
}

impl<T: Drop> Broken<T> {
    /// The value from before the offer.
    pub fn former(&self) -> &T
        ensures former { result.now ≡ self.now.former }
    {
        &self.former
    }

    /// The value that was tried.
    pub fn tried(&self) -> &T
        ensures tried { result.now ≡ self.now.tried }
    {
        &self.tried
    }

    /// The device, read again, holds this value.
    pub fn reopen(self, active: T) -> Settled<T>
        requires { IsOf self active }
        ensures active { result ≡ active }
    {
        Settled { value: active }
    }
}
