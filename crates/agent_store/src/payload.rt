//! What a store asks of the payloads that it keeps: how they are spelled and read, and how a change leads from one to
//! the next. A store knows nothing else of them.

ghost use Rattle.std.specs.Prelude.{◌≡◌, ◌<◌, ◌^◌, ◌↔◌, ℕ, List, length, min, Some, IfOk, OnOk, IfSome, IsTrue};
ghost use Rattle.std.specs.Option.{option_map};
ghost use Rattle.message_codec.specs.Row.{Appends};
ghost use Rattle.agent_store.specs.Codecs.{Codec, IsRight};

use message_codec::wire::Out;
use plain_values::NoMemory;
use std::alloc::Global;

/// A value that a store keeps. It stands on the disk as its canonical bytes, and contracts tell values apart by these.
///
/// Only reading takes memory: what `put` and `put_change` append is within the spare of the row where the row has it.
pub trait Payload: Drop {
    // What bytes mean, and which change leads from one value to another.
    ghost codec: { Codec };

    // The canonical bytes of a value.
    ghost canonical: { Self → List ℕ };

    // A value that may be saved, which is what a caller of the store owes.
    ghost right: { Self → Type 0 };

    // What the types of a value's parts give: numbers are within their bits, texts are UTF-8. `len` says it of each
    // value, so no caller owes it.
    ghost typed: { Self → Type 0 };

    /// Whether the value may be saved. It takes no memory.
    fn is_right(&self) -> bool
        ensures right { IsTrue result ↔ right self.now };

    /// The length of the canonical bytes, or 2^62 where they are more. It takes no memory.
    fn len(&self) -> u64
        ensures len { result ≡ min (length (canonical self.now)) (2 ^ 62) }
        ensures typed { typed self.now };

    /// Appends the canonical bytes. Up to the row's spare it takes no memory and succeeds. Those of a right value mean
    /// themselves.
    fn put(&self, out: &mut Out) -> Result<(), NoMemory>
        requires few { length (canonical self.now) < 2 ^ 62 }
        ensures appends { Appends out.old out.new (canonical self.now) result }
        ensures right { OnOk result (right self.now → IsRight codec (canonical self.now)) };

    /// The value that a payload means, or none where it isn't right.
    fn read(alloc: Global, payload: &[u8]) -> Result<Option<Self>, NoMemory>
        ensures means { IfOk result (λ found. option_map canonical found ≡ codec.meaning payload.now) }
        ensures right { IfOk result (λ found. IfSome found right) }
        ensures typed { IfOk result (λ found. IfSome found typed) };

    /// The value after a change, which replaces some of its fields, or none where the change can't be read or leaves no
    /// right value.
    fn changed(self, alloc: Global, change: &[u8]) -> Result<Option<Self>, NoMemory>
        requires right { right self }
        requires typed { typed self }
        ensures means { IfOk result (λ found. option_map canonical found ≡ codec.changed (canonical self) change.now) }
        ensures right { IfOk result (λ found. IfSome found right) }
        ensures typed { IfOk result (λ found. IfSome found typed) };

    /// The length of the change that leads from one value to the next, or 2^62 where it is more. Both are given as
    /// their canonical bytes. It takes no memory.
    fn change_len(former: &[u8], next: &[u8]) -> u64
        requires few { length former.now < 2 ^ 62 }
        requires next_few { length next.now < 2 ^ 62 }
        requires former { IsRight codec former.now }
        requires next { IsRight codec next.now }
        ensures len { result ≡ min (length (codec.change former.now next.now)) (2 ^ 62) };

    /// Appends that change. Up to the row's spare it takes no memory and succeeds. The change leads to the next value.
    fn put_change(former: &[u8], next: &[u8], out: &mut Out) -> Result<(), NoMemory>
        requires few { length former.now < 2 ^ 62 }
        requires next_few { length next.now < 2 ^ 62 }
        requires former { IsRight codec former.now }
        requires next { IsRight codec next.now }
        requires change_few { length (codec.change former.now next.now) < 2 ^ 62 }
        ensures appends { Appends out.old out.new (codec.change former.now next.now) result }
        ensures leads { OnOk result (codec.changed former.now (codec.change former.now next.now) ≡ Some next.now) };

    // Values with the same canonical bytes are the same, where the bytes mean themselves.
    ghost one_value: { (a b : Self) → right a → typed a → right b → typed b → length (canonical a) < 2 ^ 62
        → IsRight codec (canonical a) → canonical a ≡ canonical b → a ≡ b };
}
