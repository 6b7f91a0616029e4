//! Numbers in their shortest spelling. Nothing here takes memory.

ghost use Rattle.std.specs.Prelude.{◌≡◌, ℕ, ◌<◌, ◌^◌, ◌++◌, IfSome};
ghost use Rattle.message_short.specs.Numbers.{BeginsWith, number_field};

/// The number above 0 that stands at the front in one byte, and what stands behind it.
#[inline]
fn of_one_byte(bytes: &[u8]) -> Option<(u64, &[u8])>
    ensures found { (before : ℕ) → IfSome result (λ x. BeginsWith before bytes.now x.0 x.1.now) }
{
    match bytes {
        [last, rest @ ..] if *last > 0 && *last < 128 => Some((u64::from(*last), rest)),
        _ => None,
    }
}

/// The same in at most two bytes.
#[inline]
fn of_two_bytes(bytes: &[u8]) -> Option<(u64, &[u8])>
    ensures found { IfSome result (λ x. BeginsWith 1 bytes.now x.0 x.1.now) }
{
    match bytes {
        [low, behind @ ..] if *low >= 128 => {
            let (high, rest) = of_one_byte(behind)?;
            Some((u64::from(*low - 128) + 128 * high, rest))
        }
        _ => of_one_byte(bytes),
    }
}

/// The same in at most three bytes.
#[inline]
fn of_three_bytes(bytes: &[u8]) -> Option<(u64, &[u8])>
    ensures found { IfSome result (λ x. BeginsWith 2 bytes.now x.0 x.1.now) }
{
    match bytes {
        [low, behind @ ..] if *low >= 128 => {
            let (high, rest) = of_two_bytes(behind)?;
            Some((u64::from(*low - 128) + 128 * high, rest))
        }
        _ => of_one_byte(bytes),
    }
}

/// The same in at most four bytes.
#[inline]
fn of_four_bytes(bytes: &[u8]) -> Option<(u64, &[u8])>
    ensures found { IfSome result (λ x. BeginsWith 3 bytes.now x.0 x.1.now) }
{
    match bytes {
        [low, behind @ ..] if *low >= 128 => {
            let (high, rest) = of_three_bytes(behind)?;
            Some((u64::from(*low - 128) + 128 * high, rest))
        }
        _ => of_one_byte(bytes),
    }
}

/// The number in the field with this tag at the front, and what stands behind the field. It is 0, and all stands behind, where no such field
/// does, where its number isn't in its shortest spelling, and where it is 0 or takes more than four bytes.
#[inline]
pub fn number_behind(tag: u8, bytes: &[u8]) -> (u64, &[u8])
    ensures spelled { bytes.now ≡ number_field tag result.0 ++ result.1.now }
    ensures small { result.0 < 2 ^ 28 }
{
    match bytes {
        [first, behind @ ..] if *first == tag => match of_four_bytes(behind) {
            Some((number, rest)) => (number, rest),
            None => (0, bytes),
        },
        _ => (0, bytes),
    }
}
