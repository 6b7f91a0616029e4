//! What a read of WebSocket messages gives.

ghost use Rattle.std.specs.Prelude.{◌≡◌, ◌≢◌, ◌*◌, Ok, Err, None, IfOk, IfSome, OnOk, false};
ghost use Rattle.std.specs.IoError.{error_kind};
ghost use Rattle.tungstenite.specs.Socket.{Reads, Writes};
ghost use Rattle.websocket.specs.Connection.{write_step};
ghost use Rattle.websocket.specs.Content.{binary};
ghost use Rattle.edge_dialer.specs.Failures.{IsWaiting};
ghost use Rattle.edge_dialer.specs.Messages.{Answers, FindsNone, IfBinary, IsNoClose, IsOther, PassesAll, TakesBinary, got_of, is_binary};

use crate::OTHER_LIMIT;
use crate::failures::protocol_fail;
use crate::timed::Allowed;
use bytes::Bytes;
use edge_devices::LinkFail;
use plain_values::Blob;
use std::alloc::Global;
use std::io;
use std::io::{ErrorKind, Read, Write};
use tungstenite::{Error, MaskKeys, Message, WebSocket};

/// What a read of messages gave.
#[derive(Drop)]
pub(crate) enum Got {
    /// The payload of a binary message.
    Binary(Bytes),
    /// A text, a ping or a pong.
    Other,
    /// Nothing that is there by now.
    Nothing,
    /// The server closed the connection, broke the protocol, or the socket failed.
    Ended,
    /// There was no memory.
    NoMemory,
}

// Reads one message, however its frames are cut.
pub(crate) fn read_message<S: Read + Write + Drop, K: MaskKeys + Drop>(
    socket: &mut WebSocket<S, K>,
) -> Got
    ensures binary { IfBinary result (λ payload. Reads S.remaining socket.old socket.new (Ok (Message.Binary payload))) }
    ensures other { result ≡ Got.Other → (message : Message) × Reads S.remaining socket.old socket.new (Ok message) × IsOther message }
    ensures nothing { result ≡ Got.Nothing → (error : Error) × Reads S.remaining socket.old socket.new (Err error) × IsWaiting error }
{
    match socket.read() {
        Ok(message) => of_message(message),
        Err(error) => cause(&error),
    }
}

// What a message of the protocol is here. A text is passed over, since a message of OpAMP is binary (OpAMP specification,
// "WebSocket Message Format"); a ping and a pong are the protocol's own.
fn of_message(message: Message) -> Got
    ensures kind { result ≡ got_of message }
{
    match message {
        Message::Binary(bytes) => Got::Binary(bytes),
        Message::Close(_) => Got::Ended,
        Message::Text(_) | Message::Ping(_) | Message::Pong(_) => Got::Other,
    }
}

// What an error of a read means.
fn cause(error: &Error) -> Got
    ensures no_message { is_binary result ≡ false }
    ensures no_other { result ≢ Got.Other }
    ensures nothing { result ≡ Got.Nothing → IsWaiting error.now }
{
    match error {
        Error::Io(error) => system_cause(error),
        Error::OutOfMemory => Got::NoMemory,
        _ => Got::Ended,
    }
}

// What an error of the system under it means.
fn system_cause(error: &io::Error) -> Got
    ensures no_message { is_binary result ≡ false }
    ensures no_other { result ≢ Got.Other }
    ensures nothing { result ≡ Got.Nothing → error_kind error.now ≡ ErrorKind.WouldBlock }
{
    match error.kind() {
        ErrorKind::WouldBlock => Got::Nothing,
        ErrorKind::OutOfMemory => Got::NoMemory,
        _ => Got::Ended,
    }
}

// An exchange over a connection, whose calls may take 10 s: sends the question as one binary message, and gives the payload
// of the next one that comes.
pub(crate) fn ask<S: Read + Write + Drop, K: MaskKeys + Drop>(
    alloc: Global,
    socket: &mut WebSocket<S, K>,
    _time: Allowed,
    question: &[u8],
) -> Result<Blob, LinkFail>
    requires time { _time.millis ≡ 10 * 1000 }
    ensures answered { IfOk result (Answers S.contents S.remaining socket.old socket.new question.now) }
{
    send_question(alloc, socket, question)?;
    next_binary(alloc, socket)
}

// Sends the question as one binary message.
fn send_question<S: Read + Write + Drop, K: MaskKeys + Drop>(
    alloc: Global,
    socket: &mut WebSocket<S, K>,
    question: &[u8],
) -> Result<(), LinkFail>
    ensures sent { OnOk result (Writes S.contents socket.old socket.new (write_step socket.old.conn (binary question.now))) }
{
    let message = Message::binary(alloc, question)?;
    match socket.send(message) {
        Ok(()) => Ok(()),
        Err(error) => Err(protocol_fail(&error)),
    }
}

// The next binary message.
fn next_binary<S: Read + Write + Drop, K: MaskKeys + Drop>(
    alloc: Global,
    socket: &mut WebSocket<S, K>,
) -> Result<Blob, LinkFail>
    ensures binary { IfOk result (TakesBinary S.remaining socket.old socket.new) }
{
    match first_copied(alloc, socket)? {
        Some(answer) => Ok(answer),
        None => Err(LinkFail::Fault),
    }
}

// A binary message that has come by now, if there is one. None is waited for.
pub(crate) fn arrived_binary<S: Read + Write + Drop, K: MaskKeys + Drop>(
    alloc: Global,
    socket: &mut WebSocket<S, K>,
    _time: Allowed,
) -> Result<Option<Blob>, LinkFail>
    requires no_wait { _time.millis ≡ 0 }
    ensures binary { IfOk result (λ came. IfSome came (TakesBinary S.remaining socket.old socket.new)) }
    ensures none { IfOk result (λ came. came ≡ None → FindsNone S.remaining socket.old socket.new) }
{
    first_copied(alloc, socket)
}

// The bytes of the next binary message that is there.
fn first_copied<S: Read + Write + Drop, K: MaskKeys + Drop>(
    alloc: Global,
    socket: &mut WebSocket<S, K>,
) -> Result<Option<Blob>, LinkFail>
    ensures binary { IfOk result (λ came. IfSome came (TakesBinary S.remaining socket.old socket.new)) }
    ensures none { IfOk result (λ came. came ≡ None → FindsNone S.remaining socket.old socket.new) }
{
    match first_binary(socket)? {
        Some(payload) => Ok(Some(copied(alloc, payload)?)),
        None => Ok(None),
    }
}

// The bytes of a payload.
fn copied(alloc: Global, payload: Bytes) -> Result<Blob, LinkFail>
    ensures same { IfOk result (λ copy. copy ≡ payload) }
{
    Ok(Blob::of(Vec::from_slice(alloc, payload.as_slice())?))
}

// The payload of the next binary message that is there. Others are passed over.
fn first_binary<S: Read + Write + Drop, K: MaskKeys + Drop>(
    socket: &mut WebSocket<S, K>,
) -> Result<Option<Bytes>, LinkFail>
    ensures binary { IfOk result (λ came. IfSome came (TakesBinary S.remaining socket.old socket.new)) }
    ensures none { IfOk result (λ came. came ≡ None → FindsNone S.remaining socket.old socket.new) }
{
    for _ in 0..OTHER_LIMIT {
        match read_message(socket) {
            Got::Binary(payload) => return Ok(Some(payload)),
            Got::Other => {}
            Got::Nothing => return Ok(None),
            Got::Ended => return Err(LinkFail::Fault),
            Got::NoMemory => return Err(LinkFail::NoMemory),
        }
    }
    Ok(None)
}

// Passes over all that has come by now. Nothing is waited for.
pub(crate) fn pass_over<S: Read + Write + Drop, K: MaskKeys + Drop>(
    socket: &mut WebSocket<S, K>,
    _time: Allowed,
) -> Result<(), LinkFail>
    requires no_wait { _time.millis ≡ 0 }
    ensures passed { OnOk result (PassesAll IsNoClose S.remaining socket.old socket.new) }
{
    for _ in 0..OTHER_LIMIT {
        match read_message(socket) {
            Got::Binary(_) | Got::Other => {}
            Got::Nothing => return Ok(()),
            Got::Ended => return Err(LinkFail::Fault),
            Got::NoMemory => return Err(LinkFail::NoMemory),
        }
    }
    Err(LinkFail::Fault)
}
