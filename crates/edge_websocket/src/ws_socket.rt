//! A WebSocket connection over a stream in memory.

ghost use Rattle.std.specs.Prelude.{◌≡◌, ◌++◌, ℕ, List, [], Some, IsTrue, true, OnErr};
ghost use Rattle.tungstenite.specs.Failure.{IsIo, IsOutside};
ghost use Rattle.tungstenite.specs.Socket.{Writes};
ghost use Rattle.websocket.specs.Connection.{write_step};
ghost use Rattle.websocket.specs.Content.{binary, ping};
ghost use Rattle.edge_websocket.specs.Pipes.{going_of, is_drained};
ghost use Rattle.edge_websocket.specs.Received.{Receives, caused_by, received_of};

use crate::frames::under_way;
use crate::pipe::Pipe;
use crate::unsent::Unsent;
use crate::{PAYLOAD_LIMIT, READ_ROOM};
use bytes::Bytes;
use std::alloc::{AllocError, Global};
use std::io;
use std::io::ErrorKind;
use std::marker::Model;
use std::mem::replace;
use tungstenite::{Error, Message, NoMask, Role, WebSocket, WebSocketConfig};

// The protocol over a pipe.
pub(crate) type Framed = WebSocket<Pipe, NoMask>;

/// What a connection gave.
#[derive(Drop)]
pub enum Received {
    /// The payload of a binary message.
    Message(Bytes),
    /// Something else, which is dropped. There may be more.
    Other,
    /// Nothing until more bytes come.
    Nothing,
    /// The peer ended the connection, or broke the protocol.
    Ended,
    /// There was no memory.
    NoMemory,
}

/// A WebSocket connection whose handshake is done, the server's side. Contracts see its protocol over its stream.
#[derive(Drop)]
pub struct WsSocket {
    alloc: Global,
    framed: Framed,
    // Whether a message is under way behind the frames that were opened.
    under_way: bool,
    // Whether the protocol's buffers may hold room.
    used: bool,
}

impl Model for WsSocket {
    ghost use Rattle.tungstenite.specs.Socket.{Socket};
    ghost use Rattle.edge_websocket.specs.Pipes.{PipeState};

    ghost Value = { Socket PipeState };

    ghost view = { λ s. s.framed };
}

// The limits of the protocol.
pub(crate) fn ws_config() -> WebSocketConfig
    ensures message { result.max_message_size ≡ Some 4194305 }
    ensures frame { result.max_frame_size ≡ Some 4194305 }
    ensures read { result.read_buffer_size ≡ 4096 }
{
    WebSocketConfig::default()
        .read_buffer_size(READ_ROOM)
        .max_message_size(Some(PAYLOAD_LIMIT))
        .max_frame_size(Some(PAYLOAD_LIMIT))
}

impl WsSocket {
    // A connection whose handshake was done.
    pub(crate) fn new(alloc: Global, framed: Framed) -> WsSocket {
        WsSocket {
            alloc,
            framed,
            under_way: false,
            used: false,
        }
    }

    /// Bytes came from the peer. Want of memory changes nothing.
    pub fn feed(&mut self, bytes: &[u8]) -> Result<(), AllocError> {
        self.framed.get_mut().feed(bytes)
    }

    /// Lets the next frame be read, where the one before it was.
    pub fn open_next(&mut self) {
        if let Some((first, _)) = self.framed.get_mut().open_frame() {
            self.under_way = under_way(self.under_way, first);
            self.used = true;
        }
    }

    /// What one read of the protocol gives of the frame that was opened. It is Nothing only where nothing of the bytes
    /// that came can be read, so that a message is given as soon as its last byte came, however its frames were cut.
    /// There the protocol isn't asked, since it would take room for a read.
    pub fn receive(&mut self) -> Received
        ensures read { Receives self.old self.new result }
        ensures nothing { result ≡ Received.Nothing → is_drained self.new.stream ≡ true }
    {
        if self.is_drained() {
            let nothing = would_block();
            return cause(&nothing, true);
        }
        match self.framed.read() {
            Ok(message) => of_message(message),
            Err(error) => cause(&error, self.is_drained()),
        }
    }

    /// Whether nothing can be read of the bytes that came, until more come.
    pub fn is_drained(&self) -> bool
        ensures drained { result ≡ is_drained self.now.stream }
    {
        self.framed.get_ref().is_drained()
    }

    /// Sends the bytes as one binary message. False where that failed.
    pub fn send(&mut self, bytes: &[u8]) -> bool
        ensures sent { IsTrue result → Writes going_of self.old self.new (write_step self.old.conn (binary bytes.now)) }
        ensures whole { IsTrue result → self.new.output ≡ [] }
    {
        self.used = true;
        match Message::binary(self.alloc, bytes) {
            Ok(message) => self.framed.send(message).is_ok(),
            Err(_) => false,
        }
    }

    /// Sends a ping (RFC 6455, 5.5.2). False where that failed.
    pub fn ping(&mut self) -> bool
        ensures sent { IsTrue result → Writes going_of self.old self.new (write_step self.old.conn (ping [])) }
        ensures whole { IsTrue result → self.new.output ≡ [] }
    {
        self.used = true;
        self.framed.send(Message::Ping(Bytes::new())).is_ok()
    }

    /// Sends a close (RFC 6455, 5.5.1), or the answer to that of the peer. False where that failed.
    pub fn close(&mut self) -> bool {
        let _ = self.framed.close(None);
        self.framed.flush().is_ok()
    }

    /// Moves the bytes that are to go to the peer behind those that wait to be sent. Want of memory changes nothing
    /// there. Between two messages the protocol's buffers are given back.
    pub fn take_going(&mut self, unsent: &mut Unsent) -> Result<(), AllocError>
        ensures behind { (more : List ℕ) × (unsent.new ≡ unsent.old ++ more) }
        ensures err { OnErr result (unsent.new ≡ unsent.old) }
    {
        if self.framed.flush().is_err() {
            return Err(AllocError);
        }
        if self.used && self.is_quiet() {
            self.renew();
        }
        self.framed.get_mut().take_going(unsent)
    }

    // Whether the protocol, whose output was flushed, holds nothing: it is between two messages, no further frame can
    // be read, and no close was sent or came.
    fn is_quiet(&self) -> bool {
        !self.under_way
            && self.framed.get_ref().is_between()
            && self.is_drained()
            && self.framed.can_read()
            && self.framed.can_write()
    }

    // The pipe goes on under a new connection of the protocol, without its empty buffers.
    fn renew(&mut self) {
        let fresh = WebSocket::from_raw_socket(
            self.alloc,
            Pipe::new(self.alloc),
            NoMask,
            Role::Server,
            Some(ws_config()),
        );
        let used = replace(&mut self.framed, fresh);
        let mut pipe = used.into_inner();
        pipe.give_back();
        *self.framed.get_mut() = pipe;
        self.used = false;
    }
}

// What a read of the protocol fails with where nothing can be read.
fn would_block() -> Error
    ensures io { IsIo result }
    ensures fails { IsOutside result }
    ensures nothing { caused_by result true ≡ Received.Nothing }
{
    Error::Io(io::Error::from(ErrorKind::WouldBlock))
}

// What a message of the protocol is here. A text is dropped, since a message of OpAMP is binary (OpAMP specification,
// "WebSocket Message Format"); a ping and a pong are the protocol's own.
fn of_message(message: Message) -> Received
    ensures kind { result ≡ received_of message }
{
    match message {
        Message::Binary(bytes) => Received::Message(bytes),
        Message::Close(_) => Received::Ended,
        Message::Text(_) | Message::Ping(_) | Message::Pong(_) => Received::Other,
    }
}

// What an error of a read means, behind which the stream is drained, or not.
fn cause(error: &Error, drained: bool) -> Received
    ensures cause { result ≡ caused_by error.now drained }
    ensures nothing { result ≡ Received.Nothing → drained ≡ true }
{
    match error {
        Error::Io(error) if error.kind() == ErrorKind::WouldBlock => {
            if drained {
                Received::Nothing
            } else {
                Received::Other
            }
        }
        Error::Io(error) if error.kind() == ErrorKind::OutOfMemory => Received::NoMemory,
        Error::OutOfMemory => Received::NoMemory,
        _ => Received::Ended,
    }
}
