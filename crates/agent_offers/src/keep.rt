//! Where values are kept.

ghost use Rattle.std.specs.Prelude.{◌≡◌, ◌≤◌, ◌⊎◌, ◌↔◌, ℕ, Err, OnOk, OnErr};
ghost use Rattle.agent_offers.specs.Offers.{HasRisen};

use thiserror::Error;

/// Why a value was not kept.
#[derive(Clone, Copy, Debug, PartialEq, Eq, Error)]
pub enum KeepFail {
    /// The device failed. The former value is kept, or the new one.
    #[error("the device failed")]
    Fault,
    /// The value is too big to be kept. The former one is.
    #[error("the value is too big")]
    TooBig,
    /// There was no memory. The former value is kept.
    #[error("there was no memory")]
    NoMemory,
    /// Nothing more can be kept. The former value is.
    #[error("nothing more can be kept")]
    Spent,
}

/// What keeps a value on a device. Whatever a call answers, and at whatever moment of it a crash comes, the device holds
/// the former value or the new one, and no other.
pub trait Keep<T, D> {
    // How many calls of the device answered a fault.
    ghost faults: { D → ℕ };

    // The value may be kept on the device.
    ghost admits: { Self → D → T → Type 0 };

    // This value is kept there, or it is the one to begin with where nothing is kept.
    ghost keeps: { Self → D → T → Type 0 };

    // Whoever reads the device again finds this value.
    ghost holds: { D → T → Type 0 };

    // The device tells what it holds.
    ghost tells: { D → Type 0 };

    // A crash at a moment from the first device on to the second may leave the third.
    ghost crashes: { D → D → D → Type 0 };

    // The value has no room there.
    ghost exceeds: { Self → D → T → Type 0 };

    // The device can't keep the value, since it kept too many.
    ghost exhausts: { Self → D → T → Type 0 };

    /// Keeps the value in place of the one that is kept.
    fn keep(&mut self, device: &mut D, value: &T) -> Result<(), KeepFail>
        requires admits { admits self.old device.old value.now }
        ensures kept { OnOk result (keeps self.new device.new value.now) }
        ensures former { (former : T) → keeps self.old device.old former → OnErr result ((result ≡ Err KeepFail.Fault → ⊥) → keeps self.new device.new former) }
        ensures either { (former : T) → keeps self.old device.old former → holds device.new former ⊎ holds device.new value.now }
        ensures any_moment { (former : T) → keeps self.old device.old former → (left : D) → crashes device.old device.new left → holds left former ⊎ holds left value.now }
        // A crash may come before the call has done anything, and when it has ended.
        ensures at_first { crashes device.old device.new device.old }
        ensures at_last { crashes device.old device.new device.new }
        ensures fault { result ≡ Err KeepFail.Fault → HasRisen (faults device.old) (faults device.new) }
        ensures count { faults device.old ≤ faults device.new }
        ensures too_big { (result ≡ Err KeepFail.TooBig) ↔ exceeds self.old device.old value.now }
        ensures spent { (result ≡ Err KeepFail.Spent) ↔ exhausts self.old device.old value.now };

    // What is kept is what the device holds.
    ghost keeps_what_it_holds: { (keeper : Self) (device : D) (value : T) → keeps keeper device value → holds device value };

    // A device that tells what it holds holds one value.
    ghost holds_one: { (device : D) (value other : T) → tells device → holds device value → holds device other → value ≡ other };
}
