//! The numbers of a line.

ghost use Rattle.std.specs.Prelude.{◌≡◌, ◌^◌, ◌<◌, ◌≤◌, IsTrue};
ghost use Rattle.std.specs.Char.{digit_value, is_ascii_digit};
ghost use Rattle.std.specs.List.{list_all};
ghost use Rattle.std.specs.Str.Parse.{digits_value};
ghost use Rattle.world_scripts.specs.Words.{is_hex_digit, is_hex_numeral, hex_number, capabilities_in, is_decimal_numeral, decimal_number, digit_number};

use crate::lines::ServerNumber;

// The capabilities that the agent of a script may have: all but own traces, metrics and logs, and other connection settings
// (OpAMP specification, "AgentToServer.capabilities").
const CAPABILITIES: u64 = 0x7d1f;

fn is_hex_digit(byte: u8) -> bool
    ensures { result ≡ is_hex_digit byte }
{
    matches!(byte, b'0'..=b'9' | b'a'..=b'f')
}

fn digit_of(byte: u8) -> u8
    requires { IsTrue (is_hex_digit byte) }
    ensures { result ≡ digit_value byte }
{
    if byte <= b'9' {
        byte - b'0'
    } else {
        byte - b'a' + 10
    }
}

// The number that the digits write in this radix.
fn number_of(digits: &[u8], radix: u64) -> u64
    requires radix { 0 < radix }
    requires digits { IsTrue (list_all is_hex_digit digits.now) }
    requires fits { digits_value radix digits.now < 2 ^ 64 }
    ensures { result ≡ digits_value radix digits.now }
{
    let mut number = 0;
    for byte in digits {
        number = number * radix + u64::from(digit_of(*byte));
    }
    number
}

fn are_hex_digits(word: &[u8]) -> bool
    ensures { result ≡ list_all is_hex_digit word.now }
{
    word.iter().all(|byte| is_hex_digit(*byte))
}

fn is_hex_numeral(word: &[u8]) -> bool
    ensures { result ≡ is_hex_numeral word.now }
{
    !word.is_empty() && word.len() <= 16 && are_hex_digits(word)
}

#[tactic(auto, unfolding(crate::specs::Words::hex_number))]
fn hex_number(word: &[u8]) -> Option<u64>
    ensures { result ≡ hex_number word.now }
{
    if is_hex_numeral(word) {
        Some(number_of(word, 16))
    } else {
        None
    }
}

/// The capabilities that HEX writes; none exactly where the word is not of that form.
#[tactic(auto, unfolding(crate::specs::Words::capabilities_in))]
pub fn capabilities_of(word: &[u8]) -> Option<u64>
    ensures bits { result ≡ capabilities_in word.now }
{
    let bits = hex_number(word)?;
    if bits & CAPABILITIES == bits {
        Some(bits)
    } else {
        None
    }
}

fn are_decimal_digits(word: &[u8]) -> bool
    ensures { result ≡ list_all is_ascii_digit word.now }
{
    word.iter().all(|byte| byte.is_ascii_digit())
}

fn is_decimal_numeral(word: &[u8]) -> bool
    ensures { result ≡ is_decimal_numeral word.now }
{
    !word.is_empty() && word.len() <= 6 && word[0] != b'0' && are_decimal_digits(word)
}

/// The number that K writes; none exactly where the word is not of that form.
#[tactic(auto, unfolding(crate::specs::Words::decimal_number))]
pub fn decimal_number(word: &[u8]) -> Option<u64>
    ensures number { result ≡ decimal_number word.now }
{
    if is_decimal_numeral(word) {
        Some(number_of(word, 10))
    } else {
        None
    }
}

/// The server that S names; none exactly where the word is not of that form.
pub fn server_of(word: &[u8]) -> Option<ServerNumber>
    ensures server { result ≡ digit_number word.now }
{
    match word {
        [digit] if digit.is_ascii_digit() => Some(ServerNumber::of(digit - b'0')),
        _ => None,
    }
}
