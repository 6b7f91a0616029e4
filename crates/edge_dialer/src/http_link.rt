//! Requests and responses over a connection.

ghost use Rattle.std.specs.Prelude.{◌≡◌, ◌*◌, ◌≤◌, [], IfOk, length, take};
ghost use Rattle.std.specs.Io.KnownBytes.{Consumes};
ghost use Rattle.edge_http.specs.Polled.{HasPolled};
ghost use Rattle.edge_http.specs.Writing.{get_text, request_text};
ghost use Rattle.edge_dialer.specs.Answers.{AnswersSomewhere, AsksOver, ExchangesOver, FetchesOver, FetchesSomewhere, ReadsFirst};

use crate::answers::{answer_in, receive_piece, stays_open};
use crate::connecting::connect;
use crate::failures::system_fail;
use crate::headers::checked;
use crate::timed::{Allowed, Timed};
use crate::{EXCHANGE_MILLIS, FETCH_MILLIS, PIECE_LIMIT};
use edge_devices::{Endpoint, LinkFail};
use edge_http::{HttpMessage, PollReader, get_bytes, request_bytes};
use plain_values::{Blob, Headers, Plain};
use std::alloc::Global;
use std::io::{ErrorKind, Read, Write};
use std::net::Net;
use std::time::Clock;

/// A link that polls by HTTP. It keeps its connection from one exchange to the next.
#[derive(Drop)]
pub(crate) struct HttpLink<R: Net> {
    to: Endpoint,
    headers: Headers,
    held: Option<Timed<R>>,
}

// A response, and whether it came alone: nothing came behind it.
#[derive(Drop)]
struct Response {
    message: HttpMessage,
    alone: bool,
}

// What came of an exchange: the answer, and the connection where it can serve a further one.
#[derive(Drop)]
struct Exchanged<S> {
    answer: Result<Blob, LinkFail>,
    kept: Option<S>,
}

impl<R: Net + Clock + Copy + Drop> HttpLink<R> {
    // A link to the endpoint, whose connection is made.
    pub(crate) fn dial(
        alloc: Global,
        runtime: R,
        to: &Endpoint,
        headers: &Headers,
    ) -> Result<HttpLink<R>, LinkFail> {
        let to = to.copy(alloc)?;
        let headers = checked(alloc, headers)?;
        let stream = connect(runtime, to.host.as_str(), to.port)?;
        Ok(HttpLink {
            to,
            headers,
            held: Some(stream),
        })
    }

    // Posts the question, and gives the body of the response.
    pub(crate) fn exchange(
        &mut self,
        alloc: Global,
        runtime: R,
        question: &[u8],
    ) -> Result<Blob, LinkFail>
        ensures answered { IfOk result (λ answer. AnswersSomewhere ⟦<Timed<R> as Write>⟧.contents ⟦<Timed<R> as Read>⟧.remaining (request_text self.old.to self.old.headers.headers question.now) answer self.new.held) }
        ensures same_server { (self.new.to ≡ self.old.to) × (self.new.headers ≡ self.old.headers) }
    {
        let request = request_bytes(alloc, &self.to, &self.headers, question)?;
        let mut stream = self.connection(runtime)?;
        let time = allow(&mut stream, EXCHANGE_MILLIS)?;
        let done = exchange_over(alloc, stream, time, request.as_slice())?;
        self.held = done.kept;
        done.answer
    }

    // The connection, made anew where the server ended the one that was kept: nothing was sent on that one since.
    fn connection(&mut self, runtime: R) -> Result<Timed<R>, LinkFail>
        ensures same_server { (self.new.to ≡ self.old.to) × (self.new.headers ≡ self.old.headers) }
    {
        if let Some(mut stream) = self.held.take() {
            if !stream.is_stale() {
                return Ok(stream);
            }
        }
        connect(runtime, self.to.host.as_str(), self.to.port)
    }
}

// What the endpoint's path names, as a package's file.
pub(crate) fn fetch_file<R: Net + Clock + Copy + Drop>(
    alloc: Global,
    runtime: R,
    from: &Endpoint,
) -> Result<Blob, LinkFail>
    ensures fetched { IfOk result (FetchesSomewhere ⟦<Timed<R> as Write>⟧.contents ⟦<Timed<R> as Read>⟧.remaining (get_text from.now)) }
{
    let request = get_bytes(alloc, from)?;
    let mut stream = connect(runtime, from.host.as_str(), from.port)?;
    let time = allow(&mut stream, FETCH_MILLIS)?;
    fetch_over(alloc, &mut stream, time, request.as_slice())
}

// Writes and reads may wait for so many milliseconds from now on, all together.
fn allow<R: Net + Clock + Drop>(stream: &mut Timed<R>, millis: u64) -> Result<Allowed, LinkFail>
    ensures time { IfOk result (λ allowed. allowed.millis ≡ millis) }
{
    match stream.allow(millis) {
        Ok(allowed) => Ok(allowed),
        Err(error) => Err(system_fail(&error)),
    }
}

// An exchange over a connection, whose calls may take 10 s: the request is written, and the first response read.
fn exchange_over<S: Read + Write + Drop>(
    alloc: Global,
    mut stream: S,
    _time: Allowed,
    request: &[u8],
) -> Result<Exchanged<S>, LinkFail>
    requires time { _time.millis ≡ 10 * 1000 }
    ensures exchanged { IfOk result (λ done. ExchangesOver S.contents S.remaining stream request.now done.answer done.kept) }
{
    let mut responses = PollReader::responses(alloc);
    let response = ask(&mut stream, &mut responses, request)?;
    let kept = if stays_open(&response.message, response.alone) {
        Some(stream)
    } else {
        None
    };
    Ok(Exchanged {
        answer: answer_in(response.message),
        kept,
    })
}

// A fetch over a connection, whose calls may take 60 s: the request is written, and the file is the content of the first
// response.
fn fetch_over<S: Read + Write>(
    alloc: Global,
    stream: &mut S,
    _time: Allowed,
    request: &[u8],
) -> Result<Blob, LinkFail>
    requires time { _time.millis ≡ 60 * 1000 }
    ensures fetched { IfOk result (λ file. FetchesOver S.contents S.remaining stream.old stream.new request.now file) }
{
    let mut packages = PollReader::packages(alloc);
    let response = ask(stream, &mut packages, request)?;
    answer_in(response.message)
}

// Sends the request, and reads its response.
fn ask<S: Read + Write>(
    stream: &mut S,
    reader: &mut PollReader,
    request: &[u8],
) -> Result<Response, LinkFail>
    requires unused { HasPolled reader.old [] [] }
    requires fresh { reader.old.ready ≡ [] }
    ensures asked { IfOk result (λ response. AsksOver S.contents S.remaining reader.old.parts.side reader.old.parts.limit stream.old stream.new request.now response.message response.alone) }
{
    match stream.write_all(request) {
        Ok(()) => read_response(stream, reader),
        Err(error) => Err(system_fail(&error)),
    }
}

// Reads until the response is whole: it is the first one of the bytes that the stream gave, and alone where they end with
// it.
fn read_response<S: Read>(stream: &mut S, reader: &mut PollReader) -> Result<Response, LinkFail>
    requires unused { HasPolled reader.old [] [] }
    requires fresh { reader.old.ready ≡ [] }
    ensures first { IfOk result (λ response. ReadsFirst reader.old.parts.side reader.old.parts.limit (S.remaining stream.old) (S.remaining stream.new) response.message response.alone) }
{
    let mut buffer = [0u8; PIECE_LIMIT];
    for _ in 0..u64::MAX {
        let count = read_piece(stream, &mut buffer)?;
        match receive_piece(reader, &buffer[..count])? {
            None => {}
            Some(message) => {
                let alone = reader.holds_nothing();
                return Ok(Response { message, alone });
            }
        }
    }
    Err(LinkFail::Fault)
}

// Reads the next bytes of the stream to the front of the buffer. That it ended is a fault: a response isn't whole.
fn read_piece<S: Read>(stream: &mut S, buffer: &mut [u8]) -> Result<usize, LinkFail>
    ensures within { IfOk result (λ count. count ≤ length buffer.new) }
    ensures bytes { IfOk result (λ count. Consumes (S.remaining stream.old) (S.remaining stream.new) (take count buffer.new)) }
    ensures len { length buffer.new ≡ length buffer.old }
{
    for _ in 0..u64::MAX {
        match stream.read(buffer) {
            Ok(0) => return Err(LinkFail::Fault),
            Ok(count) => return Ok(count),
            Err(error) => {
                if error.kind() != ErrorKind::Interrupted {
                    return Err(system_fail(&error));
                }
            }
        }
    }
    Err(LinkFail::Fault)
}
