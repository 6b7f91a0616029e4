//! What holds of payloads and changes. No function here does anything: each stands for its clauses.

ghost use Rattle.std.specs.Prelude.{◌≡◌, ◌<◌, ◌^◌, ℕ, List, Some, IsTrue, length};
ghost use Rattle.agent_rules.specs.declared.saved.Saved.{Saved};
ghost use Rattle.agent_rules.specs.Payloads.{MeansSaved, FitsTypes, canonical_saved};
ghost use Rattle.agent_rules.specs.Right.{is_right};
ghost use Rattle.agent_rules.specs.Spelled.{change};
ghost use Rattle.agent_rules.specs.Codec.{meaning, changed};

use crate::written::LENGTH_LIMIT;
use message_codec::reader::decoding::MOST_LEVELS;

/// The limits of what is kept, in numbers: of canonical bytes, and of the levels of messages in a payload.
pub fn limits()
    ensures bytes { LENGTH_LIMIT ≡ 4611686018427387904 }
    ensures levels { MOST_LEVELS ≡ 100 }
{}

/// Bytes mean one value at most that may be kept, and its canonical bytes are what a store sees of them.
pub fn one_payload()
    ensures one { (bytes : List ℕ) (s t : Saved) → MeansSaved bytes s → MeansSaved bytes t → s ≡ t }
    ensures seen { (bytes : List ℕ) (s : Saved) → MeansSaved bytes s → meaning bytes ≡ Some (canonical_saved s) }
{}

/// What is written means what was written.
pub fn saved_reads_back()
    ensures same { (s : Saved) → FitsTypes s → IsTrue (is_right s) → length (canonical_saved s) < 2 ^ 62 → MeansSaved (canonical_saved s) s }
    ensures seen { (s : Saved) → FitsTypes s → IsTrue (is_right s) → length (canonical_saved s) < 2 ^ 62 → meaning (canonical_saved s) ≡ Some (canonical_saved s) }
{}

/// The change from one value to the next leads there.
pub fn change_leads()
    ensures leads { (former next : List ℕ) → meaning former ≡ Some former → meaning next ≡ Some next → length former < 2 ^ 62 → length next < 2 ^ 62 → length (change former next) < 2 ^ 62 → changed former (change former next) ≡ Some next }
{}
