//! Bytes, cut at their first mark.

ghost use Rattle.std.specs.Prelude.{◌≡◌, ◌+◌, ◌<◌, ◌∷◌, length, IfSome, IfNone};
ghost use Rattle.world_scripts.specs.Cuts.{IsCut, IsFree, lines_in};

/// What stands before the first such byte and what stands behind it; none exactly where there is no such byte.
pub fn cut(bytes: &[u8], mark: u8) -> Option<(&[u8], &[u8])>
    ensures found { IfSome result (λ parts. IsCut mark bytes.now parts.0.now parts.1.now) }
    ensures none { IfNone result (IsFree mark bytes.now) }
{
    let at = bytes.iter().position(|byte| *byte == mark)?;
    Some((&bytes[..at], &bytes[at + 1..]))
}

/// The first line without its line feed, and what stands behind that: nothing where the line lacks it.
pub fn first_line(bytes: &[u8]) -> (&[u8], &[u8])
    requires { 0 < length bytes.now }
    ensures lines { lines_in bytes.now ≡ result.0.now ∷ lines_in result.1.now }
    ensures shorter { length result.1.now < length bytes.now }
    ensures place { 0 < length result.1.now → length result.0.now + 1 + length result.1.now ≡ length bytes.now }
{
    match cut(bytes, b'\n') {
        Some(parts) => parts,
        None => (bytes, &[]),
    }
}
