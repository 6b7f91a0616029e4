//! Endpoints as texts: the URLs at which a server is reached, and what such a text says.
//!
//! OpAMP reaches a server by a WebSocket or a plain HTTP URL with the path `/v1/opamp` (OpAMP
//! specification, "WebSocket Transport" and "Plain HTTP Transport"). There is no TLS here, so `wss`
//! and `https` are no endpoints; nor are user names or addresses in brackets.

ghost use Rattle.std.specs.Prelude.{◌≡◌, ◌≤◌, ◌||◌, ◌&&◌, ◌<◌, ◌^◌, nat_le, length, take, take_while, drop, not, ◌==◌, true, IfOk, IsUtf8};
ghost use Rattle.std.specs.List.{list_all};
ghost use Rattle.edge_devices.specs.Endpoints.{is_digit, is_host_byte, is_path_byte, is_ws, is_http, host_of, port_text, path_text, number_of, is_port_number, is_port, is_authority, is_endpoint, port_of, path_of, endpoint_with, endpoint_of, reading_of};

use crate::Endpoint;
use plain_values::{NoMemory, Text};
use std::alloc::Global;

fn is_digit_byte(byte: u8) -> bool
    ensures { result ≡ is_digit byte }
{
    matches!(byte, b'0'..=b'9')
}

// A letter, a digit, `.` or `-`.
fn is_host_character(byte: u8) -> bool
    ensures { result ≡ is_host_byte byte }
{
    matches!(byte, b'a'..=b'z' | b'A'..=b'Z' | b'0'..=b'9' | b'.' | b'-')
}

fn is_path_character(byte: u8) -> bool
    ensures { result ≡ is_path_byte byte }
{
    matches!(byte, 0x21..=0x7e)
}

// How many bytes the host has.
fn host_len(rest: &[u8]) -> usize
    ensures len { result ≡ length (host_of rest.now) }
    ensures within { result ≤ length rest.now }
{
    rest.iter()
        .take_while(|byte| is_host_character(**byte))
        .count()
}

fn is_no_slash(byte: u8) -> bool
    ensures { result ≡ not (byte == 47) }
{
    byte != b'/'
}

// How many bytes stand before the first `/`.
fn port_len(tail: &[u8]) -> usize
    ensures len { result ≡ length (port_text tail.now) }
    ensures within { result ≤ length tail.now }
{
    tail.iter().take_while(|byte| is_no_slash(**byte)).count()
}

fn is_path(path: &[u8]) -> bool
    ensures { result ≡ list_all is_path_byte path.now }
{
    path.iter().all(|byte| is_path_character(*byte))
}

fn are_digits(digits: &[u8]) -> bool
    ensures { result ≡ list_all is_digit digits.now }
{
    digits.iter().all(|byte| is_digit_byte(*byte))
}

fn is_between(low: usize, length: usize, high: usize) -> bool
    ensures { result ≡ (nat_le low length && nat_le length high) }
{
    low <= length && length <= high
}

// The number that the digits spell.
fn number(digits: &[u8]) -> u32
    requires short { length digits.now ≤ 5 }
    requires digits { list_all is_digit digits.now ≡ true }
    ensures { result ≡ number_of digits.now }
{
    let mut number = 0u32;
    for digit in digits {
        number = 10 * number + u32::from(*digit - b'0');
    }
    number
}

fn are_port_digits(digits: &[u8]) -> bool
    ensures { result ≡ is_port_number digits.now }
{
    if !is_between(1, digits.len(), 5) {
        return false;
    }
    if !are_digits(digits) {
        return false;
    }
    let number = number(digits);
    1 <= number && number <= 65535
}

// Nothing, or `:` and a port.
fn is_port_part(part: &[u8]) -> bool
    ensures { result ≡ is_port part.now }
{
    match part.split_first() {
        Some((colon, digits)) => *colon == b':' && are_port_digits(digits),
        None => true,
    }
}

// The first bytes.
fn front(bytes: &[u8], len: usize) -> &[u8]
    requires { len ≤ length bytes.now }
    ensures { result.now ≡ take len bytes.now }
{
    &bytes[..len]
}

// A port or none, and then a path or none.
fn is_tail(tail: &[u8]) -> bool
    ensures { result ≡ (is_port (port_text tail.now) && list_all is_path_byte (path_text tail.now)) }
{
    let len = port_len(tail);
    let port = front(tail, len);
    if !is_port_part(port) {
        return false;
    }
    is_path(&tail[len..])
}

// A host, then a port or none, and then a path or none.
fn is_rest(rest: &[u8]) -> bool
    ensures { result ≡ is_authority rest.now }
{
    let len = host_len(rest);
    if !is_between(1, len, 253) {
        return false;
    }
    is_tail(&rest[len..])
}

fn has_ws(bytes: &[u8]) -> bool
    ensures scheme { result ≡ is_ws bytes.now }
    ensures room { result ≡ true → 5 ≤ length bytes.now }
{
    bytes.starts_with(b"ws://")
}

fn has_http(bytes: &[u8]) -> bool
    ensures scheme { result ≡ is_http bytes.now }
    ensures room { result ≡ true → 7 ≤ length bytes.now }
{
    bytes.starts_with(b"http://")
}

/// Whether the text is an endpoint: `ws://` or `http://`, a host of 1 to 253 letters, digits, `.` and
/// `-`, then `:` and a port from 1 to 65535 in at most five digits or none, and then a path that
/// begins with `/` and has visible ASCII characters alone or none. Takes no memory.
pub fn endpoint_ok(text: &str) -> bool
    ensures { result ≡ is_endpoint text.now }
{
    is_endpoint_text(text.as_bytes())
}

fn is_endpoint_text(text: &[u8]) -> bool
    ensures { result ≡ is_endpoint text.now }
{
    if has_ws(text) {
        return is_rest(&text[5..]);
    }
    if has_http(text) {
        return is_rest(&text[7..]);
    }
    false
}

// The port that the part says, and 80 without one.
fn port_number(part: &[u8]) -> u16
    requires { is_port part.now ≡ true }
    ensures { result ≡ port_of part.now }
{
    match part.split_first() {
        Some((_, digits)) => port_of_digits(digits),
        None => 80,
    }
}

fn port_of_digits(digits: &[u8]) -> u16
    requires { is_port_number digits.now ≡ true }
    ensures { result ≡ number_of digits.now }
{
    number(digits) as u16
}

// Bytes that are ASCII as a text.
fn text_of(alloc: Global, bytes: &[u8]) -> Result<Text, NoMemory>
    requires { IsUtf8 bytes.now }
    ensures { IfOk result (λ text. text ≡ bytes.now) }
{
    Ok(Text::of(String::from_utf8_lossy(alloc, bytes)?))
}

fn path_text_of(alloc: Global, path: &[u8]) -> Result<Text, NoMemory>
    requires { list_all is_path_byte path.now ≡ true }
    ensures { IfOk result (λ text. text ≡ path_of path.now) }
{
    if path.is_empty() {
        return Ok(Text::of(String::from_str(alloc, "/v1/opamp")?));
    }
    text_of(alloc, path)
}

fn host_text_of(alloc: Global, host: &[u8]) -> Result<Text, NoMemory>
    requires { list_all is_host_byte host.now ≡ true }
    ensures { IfOk result (λ text. text ≡ host.now) }
{
    text_of(alloc, host)
}

// The endpoint of what stands behind the scheme.
fn read_rest(alloc: Global, ws: bool, rest: &[u8]) -> Result<Endpoint, NoMemory>
    requires { is_authority rest.now ≡ true }
    ensures { IfOk result (λ endpoint. endpoint ≡ endpoint_with ws rest.now) }
{
    let host_end = host_len(rest);
    let host = host_text_of(alloc, front(rest, host_end))?;
    let tail = &rest[host_end..];
    let port_end = port_len(tail);
    let port = port_number(front(tail, port_end));
    let path = path_text_of(alloc, &tail[port_end..])?;
    Ok(Endpoint {
        ws,
        host,
        port,
        path,
    })
}

/// What an endpoint's text says; none exactly where the text is no endpoint. Without a port it is 80,
/// and without a path it is `/v1/opamp`.
pub fn read_endpoint(alloc: Global, text: &str) -> Result<Option<Endpoint>, NoMemory>
    ensures { IfOk result (λ endpoint. endpoint ≡ reading_of text.now) }
{
    if !endpoint_ok(text) {
        return Ok(None);
    }
    Ok(Some(read_text(alloc, text.as_bytes())?))
}

fn read_text(alloc: Global, text: &[u8]) -> Result<Endpoint, NoMemory>
    requires { is_endpoint text.now ≡ true }
    ensures { IfOk result (λ endpoint. endpoint ≡ endpoint_of text.now) }
{
    if has_ws(text) {
        return read_rest(alloc, true, &text[5..]);
    }
    if has_http(text) {
        return read_rest(alloc, false, &text[7..]);
    }
    unreachable!()
}
