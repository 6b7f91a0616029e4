//! What is kept, in canonical form.

ghost use Rattle.std.specs.Prelude.{◌≡◌, ◌<◌, ◌≤◌, ◌^◌, IsTrue, OnErr, OnOk, Some, length};
ghost use Rattle.message_codec.specs.Row.{Appends};
ghost use Rattle.message_codec.specs.Tables as kinds;
ghost use Rattle.message_codec.specs.Values.{Content, Present};
ghost use Rattle.message_codec.specs.Canonical.{canonical, capped, column_bytes, needed, plus_length, put_onto, Puts};
ghost use Rattle.message_codec.specs.Fits.{FitsColumn};
ghost use Rattle.agent_rules.specs.Columns.{later_columns, later_rows};
ghost use Rattle.agent_rules.specs.Payloads.{canonical_saved, FitsTypes};
ghost use Rattle.agent_rules.specs.Right.{is_right};
ghost use Rattle.agent_rules.specs.Codec.{meaning};

use crate::Kept;
use crate::saved::Saved;
use message_codec::wire::Out;
use message_codec::writer::counting::{
    count_blob, count_content, count_part, count_text, count_truth, count_unsigned,
};
use message_codec::writer::putting::{
    put_blob, put_content, put_part, put_text, put_truth, put_unsigned,
};
use message_codec::writer::written::Written;
use plain_values::NoMemory;

/// Values whose canonical bytes are not fewer than this are not kept: no memory holds them.
pub const LENGTH_LIMIT: u64 = 1 << 62;

// The length of bytes, which none leave out.
#[tactic(auto, unfolding(message_codec::specs::Canonical::plus_length), using(message_codec::proofs::Canonical::length_both, message_codec::proofs::Canonical::length_alone))]
fn count_bytes(total: u64, number: u32, bytes: &[u8]) -> u64
    requires total { total ≤ 2 ^ 62 }
    ensures bound { result ≤ 2 ^ 62 }
    ensures counts { result ≡ plus_length total (column_bytes number kinds.Blob (Content bytes.now)) }
{
    if bytes.is_empty() {
        total
    } else {
        count_content(total, number, bytes)
    }
}

// Appends bytes, which none leave out.
fn put_bytes(out: &mut Out, number: u32, bytes: &[u8]) -> Result<(), NoMemory>
    ensures puts { Puts out.old out.new (column_bytes number kinds.Blob (Content bytes.now)) result }
{
    if !bytes.is_empty() {
        put_content(out, number, bytes)?;
    }
    Ok(())
}

// The length of a message, which is written even where it is empty.
#[tactic(auto, unfolding(message_codec::specs::Canonical::plus_length), using(message_codec::proofs::Canonical::length_both, message_codec::proofs::Canonical::length_alone))]
fn count_present<F, M: Written<F>>(total: u64, number: u32, message: &M) -> u64
    requires total { total ≤ 2 ^ 62 }
    ensures bound { result ≤ 2 ^ 62 }
    ensures counts { result ≡ plus_length total (column_bytes number (kinds.One M.name) (Present (M.columns message.now))) }
    ensures fits { FitsColumn (kinds.One M.name) (Present (M.columns message.now)) }
{
    count_part(total, number, message.len())
}

// Appends a message, also an empty one.
#[tactic(auto, using(message_codec::proofs::Canonical::length_alone, message_codec::proofs::Canonical::appended_after))]
fn put_present<F, M: Written<F>>(out: &mut Out, number: u32, message: &M) -> Result<(), NoMemory>
    requires few { length (column_bytes number (kinds.One M.name) (Present (M.columns message.now))) < 2 ^ 62 }
    ensures puts { Puts out.old out.new (column_bytes number (kinds.One M.name) (Present (M.columns message.now))) result }
{
    put_part(out, number, message)
}

impl Written<Kept> for Saved {
    ghost use Rattle.agent_rules.specs.Columns.{saved_columns};

    ghost name = { kinds.SavedState };

    ghost columns = { saved_columns };

    #[tactic(auto, using(message_codec::proofs::Canonical::count_first, message_codec::proofs::Canonical::count_more))]
    fn len(&self) -> u64 {
        let total = count_bytes(0, 1, self.uid.as_slice());
        let total = count_unsigned(total, 2, self.limit);
        let total = count_truth(total, 3, self.uid_given);
        let total = count_text(total, 4, &self.settings.endpoint);
        let total = count_present(total, 5, &self.settings.headers);
        let total = count_unsigned(total, 6, self.settings.interval);
        let total = count_blob(total, 7, &self.settings.hash);
        let total = count_present(total, 8, &self.config);
        let total = count_present(total, 9, &self.remote);
        let total = count_present(total, 10, &self.packages);
        let total = count_blob(total, 11, &self.config_hash);
        count_blob(total, 12, &self.components_hash)
    }

    fn deepest(&self) -> u64 {
        let most = 1 + self.settings.headers.deepest();
        let most = most.max(1 + self.config.deepest());
        let most = most.max(1 + self.remote.deepest());
        most.max(1 + self.packages.deepest()).min(100)
    }

    fn put(&self, out: &mut Out) -> Result<(), NoMemory> {
        put_bytes(out, 1, self.uid.as_slice())?;
        put_unsigned(out, 2, self.limit)?;
        put_truth(out, 3, self.uid_given)?;
        put_text(out, 4, &self.settings.endpoint)?;
        put_present(out, 5, &self.settings.headers)?;
        put_unsigned(out, 6, self.settings.interval)?;
        put_blob(out, 7, &self.settings.hash)?;
        put_later(out, self)
    }
}

// Appends the fields from the configuration on.
fn put_later(out: &mut Out, saved: &Saved) -> Result<(), NoMemory>
    requires few { needed later_rows (later_columns saved.now) < 2 ^ 62 }
    ensures ok { OnOk result (out.new ≡ put_onto out.old later_rows (later_columns saved.now)) }
    ensures short { OnErr result (out.old.spare < needed later_rows (later_columns saved.now)) }
{
    put_present(out, 8, &saved.config)?;
    put_present(out, 9, &saved.remote)?;
    put_present(out, 10, &saved.packages)?;
    put_blob(out, 11, &saved.config_hash)?;
    put_blob(out, 12, &saved.components_hash)
}

/// How many canonical bytes the value has, or 2^62 where they are more. It takes no memory.
#[tactic(auto, unfolding(crate::specs::Payloads::canonical_saved))]
pub fn saved_len(saved: &Saved) -> u64
    ensures counts { result ≡ capped (canonical_saved saved.now) }
    ensures typed { FitsTypes saved.now }
{
    let _uid = saved.uid.as_slice();
    saved.len()
}

// Appends the canonical bytes, of which there are `len`. It makes room for all of them at once.
fn append_counted<F, M: Written<F>>(out: &mut Out, message: &M, len: u64) -> Result<(), NoMemory>
    requires few { length (canonical M.name (M.columns message.now)) < 2 ^ 62 }
    requires counted { len ≡ length (canonical M.name (M.columns message.now)) }
    ensures appends { Appends out.old out.new (canonical M.name (M.columns message.now)) result }
{
    out.reserve(len)?;
    message.put(out)
}

/// Appends the canonical bytes, which are fewer than 2^62, as `saved_len` tells. Up to the row's spare it takes no memory and succeeds; where
/// memory runs out the row stays as it was. Those of a value that may be kept mean it.
pub fn put_saved(out: &mut Out, saved: &Saved) -> Result<(), NoMemory>
    requires few { length (canonical_saved saved.now) < 2 ^ 62 }
    ensures appends { Appends out.old out.new (canonical_saved saved.now) result }
    ensures reads_back { IsTrue (is_right saved.now) → meaning (canonical_saved saved.now) ≡ Some (canonical_saved saved.now) }
{
    append_counted(out, saved, saved_len(saved))
}
