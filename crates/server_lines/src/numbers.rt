//! Decimal numbers of words.

ghost use Rattle.std.specs.Prelude.{◌≡◌};
ghost use Rattle.std.specs.Char.{is_ascii_digit};
ghost use Rattle.std.specs.List.{list_all};
ghost use Rattle.server_lines.specs.Words.{is_numeral, number_in};

fn are_digits(word: &[u8]) -> bool
    ensures digits { result ≡ list_all is_ascii_digit word.now }
{
    word.iter().all(|byte| byte.is_ascii_digit())
}

fn is_numeral(word: &[u8]) -> bool
    ensures numeral { result ≡ is_numeral word.now }
{
    !word.is_empty() && word.len() <= 20 && are_digits(word)
}

/// The number that the digits write; none exactly where the word isn't 1 to 20 digits, or the number isn't below 2^64. `parse`
/// alone would take `+7` for one.
#[tactic(auto, unfolding(crate::specs::Words::number_in))]
pub fn number_in(word: &str) -> Option<u64>
    ensures number { result ≡ number_in word.now }
{
    if !is_numeral(word.as_bytes()) {
        return None;
    }
    match word.parse::<u64>() {
        Ok(number) => Some(number),
        Err(_) => None,
    }
}
