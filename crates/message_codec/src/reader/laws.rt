//! What holds of all bytes.

ghost use Rattle.std.specs.Prelude.{◌≡◌, ℕ, suc, ◌≤◌, ◌++◌, ◌⊎◌, List, length};
ghost use Rattle.message_codec.specs.declared.wire.field.Why.{Why};
ghost use Rattle.message_codec.specs.Fields.{AreBytes};
ghost use Rattle.message_codec.specs.Tables.{Name};
ghost use Rattle.message_codec.specs.Values.{Values};
ghost use Rattle.message_codec.specs.Means.{Means, Sound};
ghost use Rattle.message_codec.specs.Reads.{Reads};
ghost use Rattle.message_codec.specs.Merges.{MergesInto};
ghost use Rattle.message_codec.specs.Faults.{FirstFault, WholeFault, SameFault};

use crate::reader::decoding::{MOST_BYTES, MOST_LEVELS};
use crate::wire::Why;

/// The limits of a reader, in numbers.
pub fn limits()
    ensures bytes { MOST_BYTES ≡ 4194304 }
    ensures levels { MOST_LEVELS ≡ 100 }
{}

/// Bytes mean one message at most.
pub fn one_meaning()
    ensures unique { (levels : ℕ) (name : Name) (bytes : List ℕ) (v w : Values) → Means levels name bytes v → Means levels name bytes w → v ≡ w }
{}

/// Bytes with a meaning have no fault.
pub fn no_fault()
    ensures never { (levels : ℕ) (name : Name) (bytes : List ℕ) (at : ℕ) (why : Why) → Sound levels name bytes → FirstFault levels name bytes at why → ⊥ }
{}

/// Bytes have one fault at most.
pub fn one_fault()
    ensures unique { (levels : ℕ) (name : Name) (bytes : List ℕ) (i j : ℕ) (v w : Why) → FirstFault levels name bytes i v → FirstFault levels name bytes j w → SameFault i j v w }
{}

/// A fault lies within its bytes: at one of them, or just behind the last.
pub fn fault_within()
    ensures nested { (levels : ℕ) (name : Name) (bytes : List ℕ) (at : ℕ) (why : Why) → FirstFault levels name bytes at why → at ≤ length bytes }
    ensures whole { (name : Name) (bytes : List ℕ) (at : ℕ) (why : Why) → WholeFault name bytes at why → at ≤ length bytes }
{}

/// A whole message that bytes mean is one message, and such bytes have no fault; and of a whole message's faults there is one at most.
pub fn whole_message()
    ensures not_both { (name : Name) (bytes : List ℕ) (v : Values) (at : ℕ) (why : Why) → length bytes ≤ 4194304 → Means 100 name bytes v → WholeFault name bytes at why → ⊥ }
    ensures one_fault { (name : Name) (bytes : List ℕ) (i j : ℕ) (v w : Why) → WholeFault name bytes i v → WholeFault name bytes j w → SameFault i j v w }
    ensures decided { (name : Name) (bytes : List ℕ) → AreBytes bytes → ((length bytes ≤ 4194304) × (v : Values) × Means 100 name bytes v) ⊎ ((at : ℕ) × (why : Why) × WholeFault name bytes at why) }
{}

/// Bytes have a meaning or a fault, so with the other laws they have exactly one of both.
pub fn meaning_or_fault()
    ensures decided { (below : ℕ) (name : Name) (bytes : List ℕ) → AreBytes bytes → ((v : Values) × Means (suc below) name bytes v) ⊎ ((at : ℕ) × (why : Why) × FirstFault (suc below) name bytes at why) }
{}

/// Bytes that are a message can be read into whatever other bytes mean, and what comes of it is the meaning of both together: the first bytes
/// count by their meaning alone. Their fields merge into it: a scalar that occurs replaces, messages merge, lists append, and a map's entries
/// replace those of their keys.
///
/// So a message field that occurs several times means the messages of its payloads, merged in their order (Protocol Buffers encoding guide,
/// "Last One Wins").
pub fn concatenation_merges()
    ensures merges { (below : ℕ) (name : Name) (front bytes : List ℕ) (v : Values) → Means (suc below) name front v → Sound (suc below) name bytes → (w : Values) × Reads (suc below) name bytes v w × Means (suc below) name (front ++ bytes) w }
    ensures by_columns { (below : ℕ) (name : Name) (front bytes : List ℕ) (v w : Values) → Means (suc below) name front v → Means (suc below) name (front ++ bytes) w → MergesInto (suc below) name bytes v w }
{}
