// What stands at the front of bytes of a stream.
ghost use Rattle.std.specs.Prelude.{◌≡◌};
ghost use Rattle.std.specs.Int.{w32, to_be_bytes};
ghost use Rattle.command_streams.specs.Fronts.{FrontIs};

use crate::MESSAGE_LIMIT;

/// How many bytes a frame has before its message.
pub const HEADER: usize = 4;

/// What stands at the front of bytes of a stream.
#[derive(Clone, Copy, Debug, PartialEq, Eq)]
pub enum Front {
    /// A frame with a message of so many bytes.
    Frame(usize),
    /// Less than a frame. As far as the bytes tell it takes so many: 4 before its length is whole, then as many as that says and those 4.
    Part(usize),
    /// A length above the limit.
    Large,
}

// The number that four bytes spell, most significant first.
fn number_of(bytes: &[u8; 4]) -> u32
    ensures number { to_be_bytes w32 result ≡ bytes.now }
{
    u32::from_be_bytes(*bytes)
}

/// What stands at the front of the bytes.
#[tactic(auto, unfolding(crate::specs::Framing::frame_of))]
pub fn front_of(bytes: &[u8]) -> Front
    ensures front { FrontIs bytes.now result }
{
    let Some((header, rest)) = bytes.split_first_chunk::<4>() else {
        return Front::Part(HEADER);
    };
    let len = number_of(header);
    if len > MESSAGE_LIMIT {
        return Front::Large;
    }
    let len = len as usize;
    if rest.len() < len {
        return Front::Part(HEADER + len);
    }
    Front::Frame(len)
}
