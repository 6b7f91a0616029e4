//! What the handshake of a WebSocket connection asks with.

use crate::answering::taken;
use crate::asking::is_refused;
use crate::watching::check;
use edge_dialer::NetDialer;
use std::io::Read;
use std::net::TcpListener;
use std::process::Abort;
use std::thread::join;

// The longest head that is read, in bytes.
const MOST: usize = 1_000;

// What begins the line of the handshake's key, which is 16 bytes as base64 (RFC 6455, 4.1 and 11.3.1).
const KEY: &'static [u8] = b"\r\nSec-WebSocket-Key: ";

const KEY_LEN: usize = 24;

// The first line, and each further one but the key's (RFC 6455, 4.1), with the header that the server wants.
const FIRST: &'static [u8] = b"GET /agents/v1 HTTP/1.1\r\n";

const LINES: [&'static [u8]; 5] = [
    b"\r\nHost: 127.0.0.1:24351\r\n",
    b"\r\nUpgrade: websocket\r\n",
    b"\r\nConnection: Upgrade\r\n",
    b"\r\nSec-WebSocket-Version: 13\r\n",
    b"\r\nX-Key: secret\r\n",
];

// The head that comes on the next connection, byte by byte up to its empty line. The connection ends behind it.
fn next_head(rt: &(impl Abort + AllocGlobal), listener: &TcpListener) -> Vec<u8> {
    let mut stream = &taken(rt, listener);
    let mut head = Vec::new(rt.alloc());
    let mut byte = [0u8; 1];
    for _ in 0..MOST {
        stream.read_exact(&mut byte).expect(rt, "one byte more");
        head.push(byte[0]).expect(rt, "memory");
        if head.ends_with(b"\r\n\r\n") {
            return head;
        }
    }
    panic!(rt; "no end of the head");
}

// What stands in the head behind the front, in any case of its letters.
fn behind<'a>(head: &'a [u8], front: &[u8]) -> Option<&'a [u8]> {
    for at in 0..head.len() {
        let rest = &head[at..];
        if let Some(begin) = rest.get(..front.len()) {
            if begin.eq_ignore_ascii_case(front) {
                return rest.get(front.len()..);
            }
        }
    }
    None
}

// The key of the head, which has to ask for the endpoint with the header and with no other line.
fn key_of<'a>(rt: &impl Abort, head: &'a [u8]) -> &'a [u8] {
    check(rt, head.starts_with(FIRST), "another first line");
    let mut len = FIRST.len() + KEY.len() + KEY_LEN + 2;
    for line in LINES {
        check(rt, behind(head, line).is_some(), "a line is missing");
        len = len.saturating_add(line.len() - 2);
    }
    check(rt, head.len() == len, "another line");
    behind(head, KEY)
        .expect(rt, "a key")
        .get(..KEY_LEN)
        .expect(rt, "a whole key")
}

// Two handshakes, each of which ends behind its head: their keys differ.
fn greet_twice(rt: &(impl Abort + AllocGlobal), listener: &TcpListener) {
    let first = next_head(rt, listener);
    let second = next_head(rt, listener);
    let differ = key_of(rt, first.as_slice()) != key_of(rt, second.as_slice());
    check(rt, differ, "the same key twice");
}

#[test]
fn handshakes_ask(rt: HostRuntime) {
    let listener = TcpListener::bind(&rt, "127.0.0.1:24351").expect(&rt, "a listener");
    let mut dialer = NetDialer::new(&rt);
    join(
        &rt,
        || greet_twice(&rt, &listener),
        || {
            let url = "ws://127.0.0.1:24351/agents/v1";
            check(&rt, is_refused(&rt, &mut dialer, url, "secret"), "a link");
            check(&rt, is_refused(&rt, &mut dialer, url, "secret"), "a link");
        },
    );
}
