// What stands between the bytes of a chunked body.
ghost use Rattle.std.specs.Prelude.{◌≡◌, ◌<◌, ◌+◌, ◌*◌, length, take};
ghost use Rattle.edge_heads.specs.Finds.{LineIs, EndingIs, TrailerIs};

use crate::HEAD_LIMIT;
use httparse::spans::{EMPTY_HEADER_SPAN, HeaderSpan, parse_headers};
use httparse::{Status, parse_chunk_size};

// The header lines of the longest trailer: each takes three bytes at least.
const TRAILER_LINES: usize = 5_461;
// The lines that a short trailer has room for, so that the usual one, which is empty, needs no large table.
const SHORT_TRAILER_LINES: usize = 16;

/// What stands at the front where a chunk's size line is to come.
#[derive(Clone, Copy, Debug, PartialEq, Eq)]
pub enum LineFound {
    /// A size line of `len` bytes, for a chunk of `size` bytes.
    Whole { len: usize, size: u64 },
    /// Less than a size line.
    More,
    /// No size line of at most 16,384 bytes, whatever follows.
    Bad,
}

/// What stands at the front where a chunk's ending or a trailer is to come.
#[derive(Clone, Copy, Debug, PartialEq, Eq)]
pub enum Found {
    /// What was looked for, of so many bytes.
    Whole(usize),
    /// Less than that.
    More,
    /// It isn't there, whatever follows.
    Bad,
}

fn first_part(bytes: &[u8]) -> &[u8]
    ensures { result.now ≡ take HEAD_LIMIT bytes.now }
{
    if bytes.len() < HEAD_LIMIT {
        bytes
    } else {
        &bytes[..HEAD_LIMIT]
    }
}

/// Reads the size line of a chunk at the front, of at most 16,384 bytes (RFC 9112, section 7.1). Takes no memory.
pub fn size_line(bytes: &[u8]) -> LineFound
    ensures found { LineIs bytes.now result }
{
    match parse_chunk_size(first_part(bytes)) {
        Ok(Status::Complete(found)) => LineFound::Whole {
            len: found.0,
            size: found.1,
        },
        Ok(Status::Partial) => {
            if bytes.len() < HEAD_LIMIT {
                LineFound::More
            } else {
                LineFound::Bad
            }
        }
        Err(_) => LineFound::Bad,
    }
}

/// Reads the CR LF behind the bytes of a chunk (RFC 9112, section 7.1). Takes no memory.
pub fn ending(bytes: &[u8]) -> Found
    ensures found { EndingIs bytes.now result }
{
    match bytes {
        [] => Found::More,
        [b'\r'] => Found::More,
        [b'\r', b'\n', ..] => Found::Whole(2),
        _ => Found::Bad,
    }
}

// Reads the trailer into the spans, for which there is room: a header line takes three bytes at least.
fn trailer_in(bytes: &[u8], spans: &mut [HeaderSpan]) -> Found
    requires room { length (take HEAD_LIMIT bytes.now) < 3 * length spans.old + 3 }
    ensures { TrailerIs bytes.now result }
{
    match parse_headers(first_part(bytes), spans) {
        Ok(Status::Complete(found)) => Found::Whole(found.0),
        Ok(Status::Partial) => {
            if bytes.len() < HEAD_LIMIT {
                Found::More
            } else {
                Found::Bad
            }
        }
        Err(_) => Found::Bad,
    }
}

fn short_trailer(bytes: &[u8]) -> Found
    requires short { length bytes.now < 3 * SHORT_TRAILER_LINES }
    ensures { TrailerIs bytes.now result }
{
    let mut spans = [EMPTY_HEADER_SPAN; SHORT_TRAILER_LINES];
    trailer_in(bytes, &mut spans)
}

fn long_trailer(bytes: &[u8]) -> Found
    ensures { TrailerIs bytes.now result }
{
    let mut spans = [EMPTY_HEADER_SPAN; TRAILER_LINES];
    trailer_in(bytes, &mut spans)
}

/// Reads the trailer at the front, of at most 16,384 bytes: header lines, which are dropped, and an empty line (RFC 9112,
/// section 7.1.2). Takes no memory.
pub fn trailer(bytes: &[u8]) -> Found
    ensures found { TrailerIs bytes.now result }
{
    if bytes.len() < 3 * SHORT_TRAILER_LINES {
        return short_trailer(bytes);
    }
    long_trailer(bytes)
}
