// Laws of the definitions.
ghost use Rattle.std.specs.Prelude.{◌≡◌, ℕ, List};
ghost use Rattle.edge_heads.specs.declared.values.Side.{Side as SideOf};
ghost use Rattle.edge_heads.specs.Heads.{Head, head_part, ReadsHead, IsFittingHead, IsBegun, IsNoHead};

use crate::{HEAD_LIMIT, HEADER_LIMIT, LINE_LIMIT};

/// Of the head at the front of bytes one thing is told: it is there, or it is begun, or none can come.
pub fn one_head()
    ensures there { (side : SideOf) (bytes : List ℕ) (a b : Head) (r q : List ℕ) → ReadsHead side bytes a r → ReadsHead side bytes b q → (a ≡ b) × (r ≡ q) }
    ensures begun { (side : SideOf) (bytes : List ℕ) (h : Head) (rest : List ℕ) → IsFittingHead side bytes h rest → ¬ (IsBegun side (head_part bytes)) }
    ensures never { (side : SideOf) (bytes : List ℕ) (h : Head) (rest : List ℕ) → IsFittingHead side bytes h rest → ¬ (IsNoHead side (head_part bytes)) }
    ensures apart { (side : SideOf) (bytes : List ℕ) → IsBegun side bytes → ¬ (IsNoHead side bytes) }
{}

/// The limits of a head: its bytes, its header lines, and all its lines with the first and the empty one.
pub fn head_limits()
    ensures bytes { HEAD_LIMIT ≡ 16384 }
    ensures headers { HEADER_LIMIT ≡ 64 }
    ensures lines { LINE_LIMIT ≡ 66 }
{}
