// Connections of HTTP.
use crate::comparing::expect_same;
use crate::playing::{REPLY, REPORT, Script, fill, joined, put};
use edge_devices::Kind;
use message_handlers::{Answering, CustomAnswer, FnHandler, Handlers};
use plain_values::{Blob, NoMemory, Plain, Text};
use server_core::{Server, fits_list};
use server_waves::{Rollouts, ServerDesk};
use std::alloc::Global;
use std::process::Abort;

pub const HEAD: &[u8] =
    b"POST /v1/opamp HTTP/1.1\r\nHost: 127.0.0.1:4321\r\nUser-Agent: Go-http-client/1.1\r\n";

pub const TYPE: &[u8] = b"Content-Type: application/x-protobuf\r\nAccept-Encoding: gzip\r\n\r\n";

pub const OK: &[u8] = b"HTTP/1.1 200 OK\r\nContent-Type: application/x-protobuf\r\n";

// What a connection of HTTP is answered where its bytes come in these two pieces.
fn told(rt: &(impl Abort + AllocGlobal), front: &[u8], back: &[u8]) -> Vec<u8> {
    let mut script = Script::new(rt.alloc());
    script.open(rt, 1, Kind::Http);
    script.piece(rt, 1, front);
    script.piece(rt, 1, back);
    script.play(rt, &[], &[])
}

// Whether the request is answered so, wherever it is cut.
pub fn is_answered(rt: &(impl Abort + AllocGlobal), request: &[u8], want: &[u8]) -> bool {
    let mut cut = 0usize;
    for _ in request {
        let (front, back) = request.split_at(cut.min(request.len()));
        if told(rt, front, back).as_slice() != want {
            return false;
        }
        cut = cut.saturating_add(1);
    }
    true
}

#[test]
fn post_is_answered(rt: HostRuntime) {
    let want = joined(
        &rt,
        &[b"1:", OK, b"Content-Length: 20\r\n\r\n", REPLY, b"|spent"],
    );
    let chunked = joined(
        &rt,
        &[
            HEAD,
            b"Transfer-Encoding: chunked\r\n",
            TYPE,
            b"1d\r\n",
            REPORT,
            b"\r\n0\r\n\r\n",
        ],
    );
    assert!(rt; is_answered(&rt, &chunked, &want));
    let sized = joined(&rt, &[HEAD, b"Content-Length: 29\r\n", TYPE, REPORT]);
    assert!(rt; is_answered(&rt, &sized, &want));
}

// A request whose report asks for an identifier.
fn asking(rt: &(impl Abort + AllocGlobal)) -> Vec<u8> {
    joined(
        rt,
        &[HEAD, b"Content-Length: 31\r\n", TYPE, REPORT, b"\x50\x01"],
    )
}

// What is answered where it comes twice, and one identifier can be drawn.
fn asked_twice(rt: &(impl Abort + AllocGlobal)) -> Vec<u8> {
    let asking = asking(rt);
    let mut script = Script::new(rt.alloc());
    script.open(rt, 1, Kind::Http);
    script.piece(rt, 1, &asking);
    script.piece(rt, 1, &asking);
    script.play(rt, &[], &[[255; 16]])
}

#[test]
fn fresh_identifier_is_drawn(rt: HostRuntime) {
    let told = asked_twice(&rt);
    let identification =
        b"\x42\x12\x0a\x10\xff\xff\xff\xff\xff\xff\x4f\xff\xbf\xff\xff\xff\xff\xff\xff\xff";

    // The second draw answers its fault, and the reply is then without an identification.
    let want = joined(
        &rt,
        &[
            b"1:",
            OK,
            b"Content-Length: 40\r\n\r\n",
            REPLY,
            identification,
            b"|1:",
            OK,
            b"Content-Length: 20\r\n\r\n",
            REPLY,
            b"|spent",
        ],
    );
    expect_same(&rt, &told.as_slice(), &want.as_slice());
}

// No random bytes are left, and the reply is without an identification.
#[test]
fn no_identifier_is_drawn(rt: HostRuntime) {
    let asking = asking(&rt);
    let want = joined(
        &rt,
        &[b"1:", OK, b"Content-Length: 20\r\n\r\n", REPLY, b"|spent"],
    );
    expect_same(&rt, &told(&rt, &asking, b"").as_slice(), &want.as_slice());
}

// A refusal leaves the connection open, and the report behind it is answered.
#[test]
fn refused_connection_goes_on(rt: HostRuntime) {
    let requests = joined(
        &rt,
        &[
            b"POST /x HTTP/1.1\r\n\r\n",
            HEAD,
            b"Content-Length: 29\r\n",
            TYPE,
            REPORT,
        ],
    );
    let want = joined(
        &rt,
        &[
            b"1:HTTP/1.1 404 Not Found\r\nContent-Length: 0\r\n\r\n|1:",
            OK,
            b"Content-Length: 20\r\n\r\n",
            REPLY,
            b"|spent",
        ],
    );
    assert!(rt; is_answered(&rt, &requests, &want));
}

// What goes out where a request is refused with this status line and these headers, and a report is behind it: it is answered
// too, unless the connection is then closed.
fn refusal(rt: &(impl Abort + AllocGlobal), status: &[u8], closed: bool) -> Vec<u8> {
    if closed {
        joined(
            rt,
            &[
                b"1:HTTP/1.1 ",
                status,
                b"\r\nContent-Length: 0\r\nConnection: close\r\n\r\n|1 closed|spent",
            ],
        )
    } else {
        joined(
            rt,
            &[
                b"1:HTTP/1.1 ",
                status,
                b"\r\nContent-Length: 0\r\n\r\n|1:",
                OK,
                b"Content-Length: 20\r\n\r\n",
                REPLY,
                b"|spent",
            ],
        )
    }
}

// Whether a request is refused so.
fn refused(rt: &(impl Abort + AllocGlobal), request: &[u8], status: &[u8], closed: bool) -> bool {
    let behind = joined(rt, &[HEAD, b"Content-Length: 29\r\n", TYPE, REPORT]);
    let want = refusal(rt, status, closed);
    let told = told(rt, request, &behind);
    told.as_slice() == want.as_slice()
}

// Requests, the status line and the headers with which each is refused, and whether the connection is then closed.
const REFUSALS: [(&[u8], &[u8], bool); 8] = [
    (b"POST /x HTTP/1.1\r\n\r\n", b"404 Not Found", false),
    (
        b"GET /v1/opamp HTTP/1.1\r\n\r\n",
        b"405 Method Not Allowed\r\nAllow: POST",
        false,
    ),
    (
        b"POST /v1/opamp HTTP/1.1\r\nContent-Type: text/plain\r\n\r\n",
        b"415 Unsupported Media Type",
        false,
    ),
    (
        b"POST /v1/opamp HTTP/1.1\r\nContent-Type: application/x-protobuf\r\nContent-Encoding: gzip\r\n\r\n",
        b"415 Unsupported Media Type",
        false,
    ),
    (
        b"POST /v1/opamp HTTP/1.1\r\nContent-Type: application/x-protobuf\r\nContent-Length: 1\r\n\r\n\x0b",
        b"400 Bad Request",
        false,
    ),
    (
        b"POST /v1/opamp HTTP/1.1\r\nContent-Length: 1\r\nContent-Length: 1\r\n\r\n",
        b"400 Bad Request",
        true,
    ),
    (
        b"POST /v1/opamp HTTP/1.1\r\nContent-Length: 4194305\r\n\r\n",
        b"413 Content Too Large",
        true,
    ),
    (
        b"POST /v1/opamp HTTP/1.1\r\nTransfer-Encoding: chunked\r\n\r\nzz",
        b"400 Bad Request",
        true,
    ),
];

#[test]
fn table_of_answers(rt: HostRuntime) {
    for (request, status, closed) in REFUSALS {
        assert!(rt; refused(&rt, request, status, closed));
    }
}

// A request line, and header lines with this name, or one with so many letters.
fn with_headers(rt: &(impl Abort + AllocGlobal), lines: u64, letters: u64) -> Vec<u8> {
    let mut request = joined(rt, &[b"POST /v1/opamp HTTP/1.1\r\n"]);
    for _ in 0..lines {
        put(rt, &mut request, b"a: b\r\n");
    }
    put(rt, &mut request, b"a: ");
    fill(rt, &mut request, b'b', letters);
    put(rt, &mut request, b"\r\n\r\n");
    request
}

#[test]
fn long_heads(rt: HostRuntime) {
    let status: &[u8] = b"431 Request Header Fields Too Large";
    let many = with_headers(&rt, 64, 1);
    assert!(rt; refused(&rt, &many, status, true));
    let long = with_headers(&rt, 0, 20_000);
    assert!(rt; refused(&rt, &long, status, true));
}

// Answers each question with its own kind and body, or with nothing.
#[derive(Drop)]
struct Echo {
    silent: bool,
}

impl Answering for Echo {
    ghost use Rattle.std.specs.Prelude.{⊤};

    ghost ready = { λ echo. ⊤ };

    ghost gives = { λ echo kind body answer. ⊤ };

    fn ask(
        &self,
        alloc: Global,
        kind: &Text,
        body: &Blob,
    ) -> Result<Option<CustomAnswer>, NoMemory> {
        if self.silent {
            return Ok(None);
        }
        Ok(Some(CustomAnswer {
            kind: kind.copy(alloc)?,
            body: body.copy(alloc)?,
        }))
    }
}

// Has one handler answer the messages of its capability.
fn register(rt: &(impl Abort + AllocGlobal), handlers: &mut Handlers, silent: bool) {
    let handler = Box::new(rt.alloc(), FnHandler::new(Echo { silent })).expect(rt, "memory");
    let name = Text::of(String::from_str(rt.alloc(), "com.example.echo").expect(rt, "memory"));
    assert!(rt; name.as_str().len() <= 255);
    let registered = handlers.register(name, handler);
    assert!(rt; registered.is_ok());
}

// A server that tells the handlers' capabilities, and no rollouts.
fn desk_of(rt: &(impl Abort + AllocGlobal), handlers: &Handlers) -> ServerDesk {
    let names = handlers.names(rt.alloc()).expect(rt, "memory");
    assert!(rt; fits_list(&names));
    ServerDesk {
        server: Server::new(rt.alloc(), 63, names),
        rollouts: Rollouts::new(rt.alloc()),
    }
}

// A request whose report has a custom message.
fn asking_echo(rt: &(impl Abort + AllocGlobal)) -> Script {
    let message = b"\x6a\x19\x0a\x10com.example.echo\x12\x01k\x1a\x02hi";
    let request = joined(
        rt,
        &[HEAD, b"Content-Length: 56\r\n", TYPE, REPORT, message],
    );
    let mut script = Script::new(rt.alloc());
    script.open(rt, 1, Kind::Http);
    script.piece(rt, 1, &request);
    script
}

// What it is answered by a server with one handler.
fn told_by(rt: &(impl Abort + AllocGlobal), silent: bool) -> Vec<u8> {
    let mut handlers = Handlers::new(rt.alloc());
    register(rt, &mut handlers, silent);
    let mut desk = desk_of(rt, &handlers);
    let script = asking_echo(rt);
    let told = script.play_on(rt, &mut desk, &handlers, &[], &[]);
    drop(desk);
    drop(handlers);
    told
}

#[test]
fn echo_answers(rt: HostRuntime) {
    let list = b"\x52\x12\x0a\x10com.example.echo";
    let answer = b"\x5a\x19\x0a\x10com.example.echo\x12\x01k\x1a\x02hi";
    let want = joined(
        &rt,
        &[
            b"1:",
            OK,
            b"Content-Length: 67\r\n\r\n",
            REPLY,
            list,
            answer,
            b"|spent",
        ],
    );
    expect_same(&rt, &told_by(&rt, false).as_slice(), &want.as_slice());
    let silent = joined(
        &rt,
        &[
            b"1:",
            OK,
            b"Content-Length: 40\r\n\r\n",
            REPLY,
            list,
            b"|spent",
        ],
    );
    expect_same(&rt, &told_by(&rt, true).as_slice(), &silent.as_slice());
}
