//! The handshake of a WebSocket connection, the client's side (RFC 6455, 4.1).

ghost use Rattle.std.specs.Prelude.{◌≡◌, ◌*◌, [], Some, IfOk, OnOk};
ghost use Rattle.http.specs.Request.{head_of};
ghost use Rattle.http_uri.specs.Uri.{Spells};
ghost use Rattle.edge_dialer.specs.Greetings.{AsksUpgrade, with_field, with_fields, ws_uri};

use crate::connecting::connect;
use crate::failures::{protocol_fail, system_fail};
use crate::headers::header_parts;
use crate::timed::{Allowed, Timed};
use crate::{GREETING_MILLIS, PIECE_LIMIT, WS_MESSAGE_LIMIT};
use edge_devices::{Endpoint, LinkFail};
use http::uri::UriError;
use http::{Request, Uri};
use plain_values::{Header, Headers};
use std::alloc::Global;
use std::mem;
use std::net::Net;
use std::random::RandomSource;
use std::time::Clock;
use tungstenite::handshake::MidHandshake;
use tungstenite::handshake::client::{ClientError, ClientHandshake, start};
use tungstenite::{HandshakeError, RandomKeys, WebSocket, WebSocketConfig};

// Messages over a connection, masked by keys of the system's random bytes (RFC 6455, 5.3).
pub(crate) type Framed<R> = WebSocket<Timed<R>, RandomKeys<R>>;

// The limits of the protocol.
fn client_config() -> WebSocketConfig
    ensures message { result.max_message_size ≡ Some 4194305 }
    ensures frame { result.max_frame_size ≡ Some 4194305 }
    ensures read { result.read_buffer_size ≡ 16384 }
{
    WebSocketConfig::default()
        .read_buffer_size(PIECE_LIMIT)
        .max_message_size(Some(WS_MESSAGE_LIMIT))
        .max_frame_size(Some(WS_MESSAGE_LIMIT))
}

// A connection to the endpoint whose handshake is done.
pub(crate) fn greet<R: Net + Clock + RandomSource + Copy + Drop>(
    alloc: Global,
    runtime: R,
    to: &Endpoint,
    headers: &Headers,
) -> Result<Framed<R>, LinkFail> {
    let nonce = draw_nonce(runtime)?;
    let request = upgrade_request(alloc, to, headers)?;
    let (stream, time) = connect_for_greeting(runtime, to)?;
    shake_hands(alloc, runtime, nonce, request, stream, time)
}

// Sixteen random bytes (RFC 6455, 4.1).
fn draw_nonce<R: RandomSource + Drop>(runtime: R) -> Result<[u8; 16], LinkFail> {
    let mut nonce = [0u8; 16];
    match runtime.fill_bytes(nonce.as_mut_slice()) {
        Ok(()) => Ok(nonce),
        Err(_) => Err(LinkFail::Fault),
    }
}

// A connection that may take as long as a handshake may.
fn connect_for_greeting<R: Net + Clock + Copy + Drop>(
    runtime: R,
    to: &Endpoint,
) -> Result<(Timed<R>, Allowed), LinkFail>
    ensures time { IfOk result (λ pair. pair.1.millis ≡ 10 * 1000) }
{
    let mut stream = connect(runtime, to.host.as_str(), to.port)?;
    match stream.allow(GREETING_MILLIS) {
        Ok(time) => Ok((stream, time)),
        Err(error) => Err(system_fail(&error)),
    }
}

// The handshake over the connection, whose calls may take 10 s.
fn shake_hands<R: Net + Clock + RandomSource + Copy + Drop>(
    alloc: Global,
    runtime: R,
    nonce: [u8; 16],
    request: Request<()>,
    stream: Timed<R>,
    _time: Allowed,
) -> Result<Framed<R>, LinkFail>
    requires time { _time.millis ≡ 10 * 1000 }
{
    let keys = RandomKeys::new(runtime);
    match start(alloc, nonce, keys, request, stream, Some(client_config())) {
        Ok(begun) => finish(begun),
        Err(error) => Err(protocol_fail(&error)),
    }
}

// The handshake once its request is made.
fn finish<R: Net + Clock + RandomSource + Copy + Drop>(
    begun: MidHandshake<ClientHandshake<Timed<R>, RandomKeys<R>>>,
) -> Result<Framed<R>, LinkFail> {
    match begun.handshake() {
        Ok((socket, _)) => Ok(socket),
        Err(error) => Err(handshake_fail(&error)),
    }
}

// What a failed handshake is to a link.
fn handshake_fail<R: Net + Clock + RandomSource + Copy + Drop>(
    error: &ClientError<Timed<R>, RandomKeys<R>>,
) -> LinkFail {
    match error {
        HandshakeError::Failure(error) => protocol_fail(error),
        _ => LinkFail::Fault,
    }
}

// What the handshake asks with.
fn upgrade_request(alloc: Global, to: &Endpoint, headers: &Headers) -> Result<Request<()>, LinkFail>
    ensures asks { IfOk result (λ request. AsksUpgrade to.now headers.now.headers (head_of request)) }
{
    let mut request = plain_request(alloc, to)?;
    add_headers(alloc, &mut request, headers)?;
    Ok(request)
}

// What each handshake with the endpoint asks with.
fn plain_request(alloc: Global, to: &Endpoint) -> Result<Request<()>, LinkFail>
    ensures asks { IfOk result (λ request. AsksUpgrade to.now [] (head_of request)) }
{
    let uri = uri_of(alloc, to)?;
    let mut request = Request::new(alloc, ());
    drop(mem::replace(request.uri_mut(), uri));
    Ok(request)
}

// The URI of the endpoint.
fn uri_of(alloc: Global, to: &Endpoint) -> Result<Uri, LinkFail>
    ensures spells { IfOk result (Spells (ws_uri to.now)) }
{
    let host = to.host.as_str();
    let path = to.path.as_str();
    let port = to.port;
    let text = format!(in alloc; "ws://{host}:{port}{path}")?;
    match Uri::from_str(alloc, text.as_str()) {
        Ok(uri) => Ok(uri),
        Err(UriError::OutOfMemory) => Err(LinkFail::NoMemory),
        Err(UriError::Invalid(_)) => Err(LinkFail::Fault),
    }
}

// The headers that the server wants too.
fn add_headers(alloc: Global, request: &mut Request<()>, headers: &Headers) -> Result<(), LinkFail>
    ensures added { OnOk result (head_of request.new ≡ with_fields (head_of request.old) headers.now.headers) }
{
    for header in headers.headers.as_slice() {
        add_header(alloc, request, header)?;
    }
    Ok(())
}

// One more header of the request.
fn add_header(alloc: Global, request: &mut Request<()>, header: &Header) -> Result<(), LinkFail>
    ensures added { OnOk result (head_of request.new ≡ with_field (head_of request.old) header.now) }
{
    let (name, value) = header_parts(alloc, header)?;
    match request.headers_mut().append(name, value) {
        Ok(_) => Ok(()),
        Err(_) => Err(LinkFail::NoMemory),
    }
}
