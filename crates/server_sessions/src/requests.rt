//! Connections of HTTP.

ghost use Rattle.std.specs.Prelude.{◌≡◌, ◌∷◌, [], Option, map, option_to_list, false, true};
ghost use Rattle.edge_devices.specs.Wires.{IsOpen};
ghost use Rattle.edge_devices.specs.declared.wires.Kind.TheVariants as kind;
ghost use Rattle.edge_http.specs.declared.messages.HttpMessage.{HttpMessage as MessageOf};
ghost use Rattle.server_lines.specs.Sights.{Sight};
ghost use Rattle.server_sessions.specs.Reports.{host_of};
ghost use Rattle.server_sessions.specs.Session.{Serves, ServesAll};
ghost use Rattle.server_sessions.specs.Streams.{Request};
ghost use Rattle.server_sessions.specs.Wiring.{view_of};
ghost use Rattle.server_sessions.specs.declared.connection.Connection.TheVariants as connection;
ghost use Rattle.server_sessions.specs.Failures.{AnswersFailure, AnswersRefusal, is_no_memory};
ghost use Rattle.server_sessions.specs.Connections.{KeepsOpen, ServesPart, ServesParts, ServesPiece, StopsIn, Takes, scene_at};
ghost use Rattle.server_sessions.specs.UnderWay.{IsRead, IsUnderWay};

use crate::answers::{
    BodyReader, HTTP_NO_MEMORY, Stepped, answer_body, failure_bytes, refusal_bytes,
};
use crate::bodies::{Progress, RequestReader, begin, read_on};
use crate::sending::send_answer;
use edge_devices::{Entropy, Wire};
use edge_http::{HttpFail, Part};
use message_handlers::{Handler, Handlers};
use plain_values::NoMemory;
use server_waves::ServerDesk;
use std::alloc::Global;
use std::mem;

// Answers a request whose body was read. It tells whether the connection stays.
fn serve_body<W: Wire, E: Entropy>(
    alloc: Global,
    body: BodyReader,
    desk: &mut ServerDesk,
    handlers: &Handlers,
    wire: &mut W,
    entropy: &mut E,
    noted: &mut Stepped,
    conn: u64,
    close: bool,
) -> bool
    requires open { IsOpen (W.calls wire.old) conn }
    ensures serves { (message : MessageOf) → IsRead message body close → Serves (host_of answers desk.old.server.profile handlers.now) kind.Http conn (Request message)
        (scene_at (view_of (W.calls wire.old) (W.faults wire.old)) (E.state entropy.old) desk.old.server.table desk.old.rollouts noted.old)
        (scene_at (view_of (W.calls wire.new) (W.faults wire.new)) (E.state entropy.new) desk.new.server.table desk.new.rollouts noted.new)
        (record { stays = result; stop = false }) }
    ensures open { KeepsOpen conn (W.calls wire.old) (W.calls wire.new) result }
    ensures noted { noted.new ≡ record noted.old { handled = noted.new.handled } }
    ensures profile { desk.new.server.profile ≡ desk.old.server.profile }
{
    match answer_body(
        alloc,
        &mut desk.server,
        handlers,
        entropy,
        &mut noted.handled,
        conn,
        body,
        close,
    ) {
        Ok(answer) => send_answer(wire, conn, answer.as_slice(), close),
        Err(NoMemory) => send_answer(wire, conn, &HTTP_NO_MEMORY, true),
    }
}

// Answers a request that its head refuses with this status. It tells whether the connection stays.
fn serve_refusal<W: Wire>(alloc: Global, wire: &mut W, conn: u64, status: u16, close: bool) -> bool
    requires open { IsOpen (W.calls wire.old) conn }
    ensures answers { AnswersRefusal conn status close (view_of (W.calls wire.old) (W.faults wire.old)) (view_of (W.calls wire.new) (W.faults wire.new)) result }
    ensures open { KeepsOpen conn (W.calls wire.old) (W.calls wire.new) result }
{
    match refusal_bytes(alloc, status, close) {
        Ok(answer) => send_answer(wire, conn, answer.as_slice(), close),
        Err(NoMemory) => send_answer(wire, conn, &HTTP_NO_MEMORY, true),
    }
}

// Answers the request that is whole. It tells whether the connection stays.
fn serve_request<W: Wire, E: Entropy>(
    alloc: Global,
    progress: Progress,
    desk: &mut ServerDesk,
    handlers: &Handlers,
    wire: &mut W,
    entropy: &mut E,
    noted: &mut Stepped,
    conn: u64,
) -> bool
    requires open { IsOpen (W.calls wire.old) conn }
    ensures serves { (under_way : Option MessageOf) → IsUnderWay progress under_way
        → ServesAll (host_of answers desk.old.server.profile handlers.now) kind.Http conn (map Request (option_to_list under_way))
        (scene_at (view_of (W.calls wire.old) (W.faults wire.old)) (E.state entropy.old) desk.old.server.table desk.old.rollouts noted.old)
        (scene_at (view_of (W.calls wire.new) (W.faults wire.new)) (E.state entropy.new) desk.new.server.table desk.new.rollouts noted.new)
        (record { stays = result; stop = false }) }
    ensures open { KeepsOpen conn (W.calls wire.old) (W.calls wire.new) result }
    ensures noted { noted.new ≡ record noted.old { handled = noted.new.handled } }
    ensures profile { desk.new.server.profile ≡ desk.old.server.profile }
{
    match progress {
        Progress::Waiting => true,
        Progress::PassingOver { status, close } => serve_refusal(alloc, wire, conn, status, close),
        Progress::Reading { body, close } => serve_body(
            alloc, body, desk, handlers, wire, entropy, noted, conn, close,
        ),
    }
}

// Whether memory was wanting.
fn is_no_memory(failure: HttpFail) -> bool
    ensures { result ≡ is_no_memory failure }
{
    match failure {
        HttpFail::NoMemory => true,
        _ => false,
    }
}

// Answers a reader's failure, and closes the connection.
fn answer_failure<W: Wire>(alloc: Global, wire: &mut W, conn: u64, failure: HttpFail)
    requires open { IsOpen (W.calls wire.old) conn }
    ensures answers { AnswersFailure conn failure (view_of (W.calls wire.old) (W.faults wire.old)) (view_of (W.calls wire.new) (W.faults wire.new)) }
    ensures open { KeepsOpen conn (W.calls wire.old) (W.calls wire.new) false }
{
    if is_no_memory(failure) {
        send_answer(wire, conn, &HTTP_NO_MEMORY, true);
        return;
    }
    match failure_bytes(alloc, failure) {
        Ok(answer) => {
            send_answer(wire, conn, answer.as_slice(), true);
        }
        Err(NoMemory) => {
            send_answer(wire, conn, &HTTP_NO_MEMORY, true);
        }
    }
}

// Handles a part: a head begins a request, its body is read on or passed over, and its end has it answered. It tells whether the
// connection stays.
fn serve_part<W: Wire, E: Entropy>(
    alloc: Global,
    progress: &mut Progress,
    part: Part,
    desk: &mut ServerDesk,
    handlers: &Handlers,
    wire: &mut W,
    entropy: &mut E,
    noted: &mut Stepped,
    conn: u64,
) -> bool
    requires open { IsOpen (W.calls wire.old) conn }
    ensures serves { ServesPart (host_of answers desk.old.server.profile handlers.now) conn part progress.old progress.new
        (scene_at (view_of (W.calls wire.old) (W.faults wire.old)) (E.state entropy.old) desk.old.server.table desk.old.rollouts noted.old)
        (scene_at (view_of (W.calls wire.new) (W.faults wire.new)) (E.state entropy.new) desk.new.server.table desk.new.rollouts noted.new)
        result }
    ensures open { KeepsOpen conn (W.calls wire.old) (W.calls wire.new) result }
    ensures noted { noted.new ≡ record noted.old { handled = noted.new.handled } }
    ensures profile { desk.new.server.profile ≡ desk.old.server.profile }
{
    match part {
        Part::Head(head) => {
            *progress = begin(alloc, &head);
            true
        }
        Part::Body(bytes) => match read_on(alloc, progress, bytes.as_slice()) {
            Ok(()) => true,
            Err(NoMemory) => send_answer(wire, conn, &HTTP_NO_MEMORY, true),
        },
        Part::Done => {
            let whole = mem::replace(progress, Progress::Waiting);
            serve_request(alloc, whole, desk, handlers, wire, entropy, noted, conn)
        }
    }
}

// Handles the parts that are ready, in their order. It tells whether the connection stays; then none is left.
fn serve_parts<W: Wire, E: Entropy>(
    alloc: Global,
    reader: &mut RequestReader,
    desk: &mut ServerDesk,
    handlers: &Handlers,
    wire: &mut W,
    entropy: &mut E,
    noted: &mut Stepped,
    conn: u64,
) -> bool
    requires open { IsOpen (W.calls wire.old) conn }
    ensures serves { result ≡ true → ServesParts (host_of answers desk.old.server.profile handlers.now) conn reader.old.parts.ready reader.old.progress reader.new.progress
        (scene_at (view_of (W.calls wire.old) (W.faults wire.old)) (E.state entropy.old) desk.old.server.table desk.old.rollouts noted.old)
        (scene_at (view_of (W.calls wire.new) (W.faults wire.new)) (E.state entropy.new) desk.new.server.table desk.new.rollouts noted.new) }
    ensures stops { result ≡ false → StopsIn (host_of answers desk.old.server.profile handlers.now) conn reader.old.parts.ready reader.old.progress
        (scene_at (view_of (W.calls wire.old) (W.faults wire.old)) (E.state entropy.old) desk.old.server.table desk.old.rollouts noted.old)
        (scene_at (view_of (W.calls wire.new) (W.faults wire.new)) (E.state entropy.new) desk.new.server.table desk.new.rollouts noted.new) }
    ensures taken { result ≡ true → Takes reader.old.parts reader.new.parts reader.old.parts.ready }
    ensures ready { result ≡ true → reader.new.parts.ready ≡ [] }
    ensures failure { result ≡ true → reader.new.parts.failure ≡ reader.old.parts.failure }
    ensures open { KeepsOpen conn (W.calls wire.old) (W.calls wire.new) result }
    ensures noted { noted.new ≡ record noted.old { handled = noted.new.handled } }
    ensures profile { desk.new.server.profile ≡ desk.old.server.profile }
{
    'parts: while let Some(part) = reader.parts.part() {
        if !serve_part(
            alloc,
            &mut reader.progress,
            part,
            desk,
            handlers,
            wire,
            entropy,
            noted,
            conn,
        ) {
            return false;
        }
    }
    true
}

/// Reads the requests on with these bytes, serves those that they make whole, and what their reading fails of. It tells whether the
/// connection stays.
pub fn serve_requests<W: Wire, E: Entropy>(
    alloc: Global,
    reader: &mut RequestReader,
    desk: &mut ServerDesk,
    handlers: &Handlers,
    wire: &mut W,
    entropy: &mut E,
    noted: &mut Stepped,
    conn: u64,
    bytes: &[u8],
) -> bool
    requires open { IsOpen (W.calls wire.old) conn }
    ensures serves { (sight : Sight) → ServesPiece (host_of answers desk.old.server.profile handlers.now) sight conn bytes.now (connection.Http reader.old) (connection.Http reader.new)
        (scene_at (view_of (W.calls wire.old) (W.faults wire.old)) (E.state entropy.old) desk.old.server.table desk.old.rollouts noted.old)
        (scene_at (view_of (W.calls wire.new) (W.faults wire.new)) (E.state entropy.new) desk.new.server.table desk.new.rollouts noted.new)
        (record { stays = result; stop = false }) }
    ensures open { KeepsOpen conn (W.calls wire.old) (W.calls wire.new) result }
    ensures noted { noted.new ≡ record noted.old { handled = noted.new.handled } }
    ensures profile { desk.new.server.profile ≡ desk.old.server.profile }
{
    let fed = reader.parts.feed(bytes);
    if !serve_parts(alloc, reader, desk, handlers, wire, entropy, noted, conn) {
        return false;
    }
    match fed {
        Ok(()) => true,
        Err(failure) => {
            answer_failure(alloc, wire, conn, failure);
            false
        }
    }
}
