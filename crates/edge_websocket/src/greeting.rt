//! The handshake of a WebSocket connection, the server's side (RFC 6455, 4.2).

ghost use Rattle.std.specs.Prelude.{◌≡◌, ◌≤◌, length};
ghost use Rattle.edge_websocket.specs.Greetings.{IsWithin, SaysHead, looked_at};

use crate::pipe::Pipe;
use crate::unsent::Unsent;
use crate::ws_socket::{Framed, WsSocket, ws_config};
use crate::{GREETING_LIMIT, GREETING_LINES};
use httparse::Status;
use httparse::spans::{EMPTY_HEADER_SPAN, parse_request};
use std::alloc::Global;
use tungstenite::handshake::server::{NoCallback, ServerError, start};
use tungstenite::{Error, HandshakeError};

/// Where the head of a handshake ends.
#[derive(Clone, Copy, Debug, PartialEq, Eq)]
pub enum HeadEnd {
    /// Behind so many bytes.
    At(usize),
    /// More bytes can end it.
    Partial,
    /// The bytes begin no head, or one of more than 16,384 bytes or 64 header lines.
    Bad,
}

/// What the bytes of a handshake come to.
#[derive(Drop)]
pub enum Greeting {
    /// The head isn't whole.
    Partial,
    /// It is no handshake of WebSocket.
    Refused,
    /// The handshake is done.
    Done(WsSocket),
    /// There was no memory.
    NoMemory,
}

// The bytes in which a head is looked for.
fn looked_at(bytes: &[u8]) -> &[u8]
    ensures front { result.now ≡ looked_at bytes.now }
    ensures short { length result.now ≤ 16384 }
    ensures within { length result.now ≤ length bytes.now }
    ensures full { 16384 ≤ length bytes.now → length result.now ≡ 16384 }
{
    if bytes.len() < GREETING_LIMIT {
        bytes
    } else {
        &bytes[..GREETING_LIMIT]
    }
}

/// Where the head of the request ends that the bytes begin with.
pub fn head_end(bytes: &[u8]) -> HeadEnd
    ensures within { IsWithin result bytes.now }
    ensures head { SaysHead result (looked_at bytes.now) }
{
    let mut spans = [EMPTY_HEADER_SPAN; GREETING_LINES];
    match parse_request(looked_at(bytes), &mut spans) {
        Ok(Status::Complete(found)) => HeadEnd::At(found.len),
        Ok(Status::Partial) if bytes.len() < GREETING_LIMIT => HeadEnd::Partial,
        Ok(Status::Partial) => HeadEnd::Bad,
        Err(_) => HeadEnd::Bad,
    }
}

/// The handshake by the bytes that came so far, which may go on with frames behind the head. Its response is put behind
/// what waits to be sent.
pub fn greet(alloc: Global, bytes: &[u8], unsent: &mut Unsent) -> Greeting {
    let end = match head_end(bytes) {
        HeadEnd::At(end) => end,
        HeadEnd::Partial => return Greeting::Partial,
        HeadEnd::Bad => return Greeting::Refused,
    };
    match shake_hands(alloc, &bytes[..end]) {
        Ok(framed) => begun(WsSocket::new(alloc, framed), &bytes[end..], unsent),
        Err(refusal) => refusal,
    }
}

// The protocol's handshake over the head alone.
fn shake_hands(alloc: Global, head: &[u8]) -> Result<Framed, Greeting> {
    let mut pipe = Pipe::new(alloc);
    match pipe.feed_open(head) {
        Ok(()) => accept(alloc, pipe),
        Err(_) => Err(Greeting::NoMemory),
    }
}

// The protocol's handshake over what the pipe holds.
fn accept(alloc: Global, pipe: Pipe) -> Result<Framed, Greeting> {
    match start(alloc, pipe, NoCallback, Some(ws_config())).handshake() {
        Ok(framed) => Ok(framed),
        Err(error) => Err(failure(&error)),
    }
}

// What a handshake that failed comes to.
fn failure(error: &ServerError<Pipe, NoCallback>) -> Greeting {
    match error {
        HandshakeError::Failure(Error::OutOfMemory) => Greeting::NoMemory,
        _ => Greeting::Refused,
    }
}

// The connection behind its handshake: the response goes out, and what follows the head is the peer's first frames.
fn begun(mut socket: WsSocket, rest: &[u8], unsent: &mut Unsent) -> Greeting {
    if socket.take_going(unsent).is_err() || socket.feed(rest).is_err() {
        return Greeting::NoMemory;
    }
    Greeting::Done(socket)
}
