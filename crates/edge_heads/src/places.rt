// How far bytes are known to begin a head.
ghost use Rattle.std.specs.Prelude.{◌≡◌, ◌<◌, length, slice_index, IfSome};
ghost use Rattle.std.specs.List.{list_any};
ghost use Rattle.httparse.specs.Ascii.{line_feed};
ghost use Rattle.edge_heads.specs.Heads.{IsHeadBegun};
ghost use Rattle.edge_heads.specs.Places.{IsKnown, IsLineStart, place_after as place_next, place_on as place_still, place_behind as place_of, is_no_newline};
ghost use Rattle.edge_heads.specs.declared.places.Place.TheVariants as place;

use crate::values::Side;
use httparse::{is_header_name_token, is_header_value_token};

/// Where the last of some bytes stands in a head.
#[derive(Clone, Copy, Debug, PartialEq, Eq)]
pub enum Place {
    /// In the empty lines before the first line, behind the end of one or before all.
    Blank,
    /// Behind the CR of such a line.
    Return,
    /// In a request's method.
    Method,
    /// In a request's target.
    Target,
    /// At the start of a header line.
    Line,
    /// In a header's name.
    Name,
    /// In a header's value.
    Value,
    /// Behind the CR of a header line.
    Ending,
}

fn after_blank(side: Side, byte: u8) -> Option<Place>
    ensures { result ≡ place_next side place.Blank byte }
{
    if byte == b'\n' {
        return Some(Place::Blank);
    }
    if byte == b'\r' {
        return Some(Place::Return);
    }
    match side {
        Side::Requests if is_header_name_token(byte) => Some(Place::Method),
        _ => None,
    }
}

fn after_method(side: Side, byte: u8) -> Option<Place>
    ensures { result ≡ place_next side place.Method byte }
{
    if is_header_name_token(byte) {
        return Some(Place::Method);
    }
    (byte == b' ').then_some(Place::Target)
}

fn after_name(side: Side, byte: u8) -> Option<Place>
    ensures { result ≡ place_next side place.Name byte }
{
    if is_header_name_token(byte) {
        return Some(Place::Name);
    }
    (byte == b':').then_some(Place::Value)
}

fn after_value(side: Side, byte: u8) -> Option<Place>
    ensures { result ≡ place_next side place.Value byte }
{
    if is_header_value_token(byte) {
        return Some(Place::Value);
    }
    (byte == b'\r').then_some(Place::Ending)
}

// Where one more byte stands, if that is clear without reading the head again.
fn place_after(side: Side, place: Place, byte: u8) -> Option<Place>
    ensures { result ≡ place_next side place byte }
{
    match place {
        Place::Blank => after_blank(side, byte),
        Place::Return => (byte == b'\n').then_some(Place::Blank),
        Place::Method => after_method(side, byte),
        Place::Target => (!(byte == b' ' || byte == b'\n')).then_some(Place::Target),
        Place::Line => is_header_name_token(byte).then_some(Place::Name),
        Place::Name => after_name(side, byte),
        Place::Value => after_value(side, byte),
        Place::Ending => None,
    }
}

fn place_on(side: Side, known: Option<Place>, byte: u8) -> Option<Place>
    ensures { result ≡ place_still side known byte }
{
    match known {
        Some(place) => place_after(side, place, byte),
        None => None,
    }
}

/// Where the last of some more bytes stands, if that is clear without reading the head again.
pub(crate) fn place_behind(side: Side, known: Option<Place>, bytes: &[u8]) -> Option<Place>
    ensures { result ≡ place_of side known bytes.now }
{
    let mut place = known;
    for byte in bytes {
        place = place_on(side, place, *byte);
    }
    place
}

fn last_feed(bytes: &[u8]) -> Option<usize>
    ensures { IfSome result (λ at. (at < length bytes.now) × (slice_index bytes.now at ≡ line_feed)) }
{
    for at in (0..bytes.len()).rev() {
        if bytes[at] == b'\n' {
            return Some(at);
        }
    }
    None
}

fn has_text(bytes: &[u8]) -> bool
    ensures { result ≡ list_any is_no_newline bytes.now }
{
    bytes.iter().any(|byte| !(*byte == b'\r' || *byte == b'\n'))
}

// Where the last line starts, if the first line of a head stands before it.
fn line_start(bytes: &[u8]) -> Option<usize>
    ensures { IfSome result (IsLineStart bytes.now) }
{
    let Some(at) = last_feed(bytes) else {
        return None;
    };
    if has_text(&bytes[..at]) {
        return Some(at + 1);
    }
    None
}

/// Where the last of bytes stands that begin a head, if that is clear.
pub(crate) fn place_in(side: Side, bytes: &[u8]) -> Option<Place>
    requires begun { IsHeadBegun side bytes.now }
    ensures { IsKnown side result bytes.now }
{
    match line_start(bytes) {
        Some(at) => place_behind(side, Some(Place::Line), &bytes[at..]),
        None => None,
    }
}
