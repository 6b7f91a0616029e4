//! Texts in quotation marks, and bytes in hexadecimal.

ghost use Rattle.std.specs.Prelude.{◌≡◌, ◌++◌, IfOk, OnOk};
ghost use Rattle.std.specs.Char.{encode_utf8};
ghost use Rattle.std.specs.String.{string_bytes};
ghost use Rattle.message_texts.specs.Words.{quoted, quoted_bytes, hexadecimal};
ghost use Rattle.message_texts.specs.Texts.{bits};

use plain_values::{NoMemory, Text};
use std::alloc::Global;

// Appends a character as it stands within quotation marks.
#[tactic(auto, using(crate::proofs::Quotes::quoted_plain, crate::proofs::Quotes::quoted_control))]
fn push_quoted(quoted: &mut String, c: char) -> Result<(), NoMemory>
    ensures ok { OnOk result (string_bytes quoted.new ≡ string_bytes quoted.old ++ quoted_bytes (encode_utf8 c)) }
{
    match c {
        '"' => quoted.push_str("\\\"")?,
        '\\' => quoted.push_str("\\\\")?,
        '\n' => quoted.push_str("\\n")?,
        '\x7f' => quoted.push_str("\\x7f")?,
        '\x00'..='\x1f' => {
            let byte = c as u8;
            write!(quoted, "\\x{byte:02x}")?;
        }
        _ => quoted.push(c)?,
    }
    Ok(())
}

/// A text in quotation marks.
#[tactic(auto, unfolding(crate::specs::Words::quoted))]
pub fn quote(alloc: Global, text: &str) -> Result<Text, NoMemory>
    ensures quoted { IfOk result (λ q. q ≡ quoted text.now) }
{
    let mut quoted = String::from_str(alloc, "\"")?;
    for c in text.chars() {
        push_quoted(&mut quoted, c)?;
    }
    quoted.push('"')?;
    Ok(Text::of(quoted))
}

/// Bytes in hexadecimal, behind `hex `.
#[tactic(auto, unfolding(crate::specs::Words::hexadecimal))]
pub fn hex_words(alloc: Global, bytes: &[u8]) -> Result<Text, NoMemory>
    ensures hexadecimal { IfOk result (λ words. words ≡ hexadecimal bytes.now) }
{
    let digits = hex::encode(alloc, bytes)?;
    let words = format!(in alloc; "hex {digits}")?;
    Ok(Text::of(words))
}

/// The bits of a double as sixteen hexadecimal digits, behind `bits `.
#[tactic(auto, unfolding(crate::specs::Texts::bits))]
pub fn bit_words(alloc: Global, number: u64) -> Result<Text, NoMemory>
    ensures bits { IfOk result (λ words. words ≡ bits number) }
{
    let digits = hex::encode(alloc, number.to_be_bytes())?;
    let words = format!(in alloc; "bits {digits}")?;
    Ok(Text::of(words))
}
