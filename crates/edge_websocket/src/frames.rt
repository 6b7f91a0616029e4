//! What the first bytes of a WebSocket frame say.

ghost use Rattle.std.specs.Prelude.{◌≡◌, ◌<◌, ◌^◌, IfSome};
ghost use Rattle.edge_websocket.specs.Frames.{frame_len, long_len, short_len, under_way};

/// How many bytes the frame has that the bytes begin with, its head and its payload together; none where the bytes
/// don't hold its length (RFC 6455, 5.2). A number that passes 64 bits is the largest of these.
pub fn frame_len(bytes: &[u8]) -> Option<u64>
    ensures len { result ≡ frame_len bytes.now }
{
    let [_, second, rest @ ..] = bytes else {
        return None;
    };
    let mask: u64 = if *second >= 128 { 4 } else { 0 };
    match *second % 128 {
        126 => Some(4 + mask + short_len(rest)?),
        127 => Some(long_len(rest)?.saturating_add(10 + mask)),
        len => Some(2 + mask + len as u64),
    }
}

// The payload's length in two bytes.
fn short_len(bytes: &[u8]) -> Option<u64>
    ensures len { result ≡ short_len bytes.now }
    ensures bound { IfSome result (λ len. len < 2 ^ 16) }
{
    match bytes {
        [a, b, ..] => Some(u16::from_be_bytes([*a, *b]) as u64),
        _ => None,
    }
}

// The payload's length in eight bytes.
fn long_len(bytes: &[u8]) -> Option<u64>
    ensures { result ≡ long_len bytes.now }
{
    match bytes {
        [a, b, c, d, e, f, g, h, ..] => {
            Some(u64::from_be_bytes([*a, *b, *c, *d, *e, *f, *g, *h]))
        }
        _ => None,
    }
}

/// Whether a message is under way behind a frame with this first byte, where one was so before, or not (RFC 6455, 5.4).
pub fn under_way(before: bool, first: u8) -> bool
    ensures message { result ≡ under_way before first }
{
    if first % 16 >= 8 { before } else { first < 128 }
}
