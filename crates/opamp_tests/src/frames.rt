//! Bytes of hexadecimal digits, and framed messages.

ghost use Rattle.std.specs.Prelude.{◌<◌, ◌^◌, length};

use plain_values::NoMemory;
use std::alloc::Global;

/// The report that an agent with the identifier `U` sends first.
pub const FULL: &str = "0000001d 0a10 U 1001 1a00 208110 2a020801";

/// The reply to it.
pub const ACCEPTED: &str = "00000014 0a10 U 3805";

/// A second report, without a description.
pub const NEXT: &str = "0000001d 0a10 U 1002 208110 2a041a026e6f";

/// One that skips a number.
pub const GAP: &str = "0000001b 0a10 U 1004 208110 2a020801";

/// The reply that asks for the full state.
pub const ASKED: &str = "00000016 0a10 U 3001 3805";

// The identifier that `U` stands for.
const UID: [u8; 16] = [0, 1, 2, 3, 4, 5, 6, 7, 8, 9, 10, 11, 12, 13, 14, 15];

fn digit_of(c: u8) -> Option<u8> {
    match c {
        b'0'..=b'9' => Some(c - b'0'),
        b'a'..=b'f' => Some(c - b'a' + 10),
        _ => None,
    }
}

/// The bytes of hexadecimal digits, two a byte. `U` stands for the bytes 0 to 15, and blanks for nothing.
pub fn bytes_of(alloc: Global, hex: &str) -> Result<Vec<u8>, NoMemory> {
    let mut bytes = Vec::new(alloc);
    let mut high = None;
    for c in hex.bytes() {
        if c == b'U' {
            bytes.extend_from_slice(&UID)?;
        }
        let Some(digit) = digit_of(c) else {
            continue;
        };
        high = match high {
            None => Some(digit),
            Some(first) => {
                bytes.push((first << 4) | digit)?;
                None
            }
        };
    }
    Ok(bytes)
}

/// A vector of these items.
pub fn copy_of<T: Copy>(alloc: Global, items: &[T]) -> Result<Vec<T>, NoMemory> {
    let mut copy = Vec::new(alloc);
    copy.extend_from_slice(items)?;
    Ok(copy)
}

/// The bytes of several frames in hexadecimal digits.
pub fn joined(alloc: Global, frames: &[&str]) -> Result<Vec<u8>, NoMemory> {
    let mut bytes = Vec::new(alloc);
    for frame in frames {
        bytes.extend_from_slice(&bytes_of(alloc, frame)?)?;
    }
    Ok(bytes)
}

/// The four bytes and the note that a fault adds.
pub fn noted(alloc: Global, note: &str) -> Result<Vec<u8>, NoMemory> {
    let mut bytes = Vec::new(alloc);
    bytes.extend_from_slice(&[255, 255, 255, 255])?;
    bytes.extend_from_slice(note.as_bytes())?;
    bytes.push(b'\n')?;
    Ok(bytes)
}

/// One frame of a message.
pub fn frame(alloc: Global, message: &[u8]) -> Result<Vec<u8>, NoMemory>
    requires { length message.now < 2 ^ 32 }
{
    let mut bytes = Vec::new(alloc);
    bytes.extend_from_slice(&(message.len() as u32).to_be_bytes())?;
    bytes.extend_from_slice(message)?;
    Ok(bytes)
}
