//! What ends a connection from which nothing comes, and what it leaves: a handshake that stands still, silence, and a place that is free again.

use crate::frames::put_frame;
use crate::steering::{Steering, connected, listens, steered_wire};
use crate::watching::{check, ends, gives, passes_head, says};
use edge_devices::{Kind, Wire};
use std::net::TcpStream;
use std::process::Abort;
use std::sync::atomic::{AtomicU64, Ordering};

// An opening handshake (RFC 6455, 1.3) in two parts, and the beginning of its answer.
const FRONT: &'static [u8] = b"GET /v1/opamp HTTP/1.1\r\nHost: h\r\nUpgrade: websocket\r\n";

const REST: &'static [u8] =
    b"Connection: Upgrade\r\nSec-WebSocket-Key: dGhlIHNhbXBsZSBub25jZQ==\r\nSec-WebSocket-Version: 13\r\n\r\n";

const ACCEPTED: &'static [u8] = b"HTTP/1.1 101 Switching Protocols\r\n";

// How many connections come one after another: more than there are places.
const CONNECTIONS: usize = 1_300;

// Operators that come and go, each of whom needs the place of another.
fn come_and_go<W: Wire>(rt: &(impl Abort + AllocGlobal), net: &HostRuntime, wire: &mut W) {
    let steering = Steering::new(rt, net, wire, "127.0.0.1:24349");
    for _ in 0..CONNECTIONS {
        let stream = connected(rt, net, "127.0.0.1:24349");
        let conn = steering.opens(rt, wire, Kind::Operator);
        drop(stream);
        check(rt, steering.closes(rt, wire, conn), "no end");
    }
}

#[test]
fn places_are_free_again(rt: HostRuntime) {
    let millis = AtomicU64::new(0);
    let mut wire = steered_wire(&rt, &millis);
    come_and_go(&rt, &rt, &mut wire);
    drop(wire);
}

// Two handshakes stand still. One goes on a little before ten seconds are over, and is answered; the other is dropped a second later at most.
fn stand_still<W: Wire>(
    rt: &(impl Abort + AllocGlobal),
    wire: &mut W,
    steering: &Steering,
    millis: &AtomicU64,
    late: &TcpStream,
    still: &TcpStream,
) {
    check(rt, says(late, FRONT), "no front");
    check(rt, says(still, FRONT), "no front");
    steering.brings_nothing(rt, wire);
    millis.store(9_999, Ordering::SeqCst);
    steering.brings_nothing(rt, wire);
    check(rt, says(late, REST), "no rest");
    let conn = steering.opens(rt, wire, Kind::Ws);
    check(rt, passes_head(late, ACCEPTED), "no handshake");
    millis.store(11_000, Ordering::SeqCst);
    steering.brings_nothing(rt, wire);
    check(rt, ends(still), "a handshake that stands still goes on");
    check(rt, wire.send(conn, b"Hello").is_ok(), "nothing sent");
    check(rt, gives(late, b"\x82\x05Hello"), "no message");
}

// The two of them connect.
fn connect_two<W: Wire>(
    rt: &(impl Abort + AllocGlobal),
    net: &HostRuntime,
    wire: &mut W,
    millis: &AtomicU64,
) {
    let steering = Steering::new(rt, net, wire, "127.0.0.1:24350");
    listens(rt, wire, Kind::Ws, "127.0.0.1:24327");
    let late = connected(rt, net, "127.0.0.1:24327");
    let still = connected(rt, net, "127.0.0.1:24327");
    stand_still(rt, wire, &steering, millis, &late, &still);
}

#[test]
fn a_handshake_that_stands_still_is_dropped(rt: HostRuntime) {
    let millis = AtomicU64::new(0);
    let mut wire = steered_wire(&rt, &millis);
    connect_two(&rt, &rt, &mut wire, &millis);
    drop(wire);
}

// A masked binary message of two bytes, and an empty masked pong.
fn hello(rt: &(impl Abort + AllocGlobal)) -> Vec<u8> {
    let mut bytes = Vec::new(rt.alloc());
    put_frame(rt, &mut bytes, 130, b"Hi");
    bytes
}

const PONG: &'static [u8] = b"\x8a\x80\x37\xfa\x21\x3d";

// A connection of HTTP says something after 50 seconds, and ends 120 seconds later.
fn fall_silent<W: Wire>(
    rt: &(impl Abort + AllocGlobal),
    net: &HostRuntime,
    wire: &mut W,
    millis: &AtomicU64,
) {
    let steering = Steering::new(rt, net, wire, "127.0.0.1:24328");
    listens(rt, wire, Kind::Http, "127.0.0.1:24329");
    let stream = connected(rt, net, "127.0.0.1:24329");
    let conn = steering.opens(rt, wire, Kind::Http);
    millis.store(50_000, Ordering::SeqCst);
    check(rt, says(&stream, b"POST"), "nothing said");
    check(rt, steering.hears(rt, wire, conn, b"POST"), "nothing heard");
    millis.store(169_999, Ordering::SeqCst);
    steering.brings_nothing(rt, wire);
    millis.store(171_000, Ordering::SeqCst);
    check(rt, steering.closes(rt, wire, conn), "no end");
    steering.brings_nothing(rt, wire);
    check(rt, ends(&stream), "the connection goes on");
}

#[test]
fn a_silent_connection_of_http_ends(rt: HostRuntime) {
    let millis = AtomicU64::new(0);
    let mut wire = steered_wire(&rt, &millis);
    fall_silent(&rt, &rt, &mut wire, &millis);
    drop(wire);
}

// Whether the peer is given these bytes and then a message of the server, and so nothing else before it.
fn is_given<W: Wire>(wire: &mut W, conn: u64, stream: &TcpStream, bytes: &[u8]) -> bool {
    wire.send(conn, b"Hello").is_ok() && gives(stream, bytes) && gives(stream, b"\x82\x05Hello")
}

// An agent's times, in milliseconds, at each of which nothing comes from it, and what it is given there.
const TIMES: [(u64, &'static [u8]); 3] = [(109_999, b""), (111_000, b"\x89\x00"), (115_000, b"")];

const LATER: [(u64, &'static [u8]); 4] = [
    (174_999, b""),
    (176_000, b"\x89\x00"),
    (200_000, b""),
    (234_999, b""),
];

fn wait<W: Wire>(
    rt: &(impl Abort + AllocGlobal),
    wire: &mut W,
    steering: &Steering,
    millis: &AtomicU64,
    conn: u64,
    stream: &TcpStream,
    times: &[(u64, &'static [u8])],
) {
    for (time, bytes) in times {
        millis.store(*time, Ordering::SeqCst);
        steering.brings_nothing(rt, wire);
        check(rt, is_given(wire, conn, stream, bytes), "something else");
    }
}

// A connection of WebSocket says something after 50 seconds, is pinged 60 seconds later, answers after 115, is pinged once more, and ends 120 seconds after
// its answer.
fn be_pinged<W: Wire>(
    rt: &(impl Abort + AllocGlobal),
    wire: &mut W,
    steering: &Steering,
    millis: &AtomicU64,
    stream: &TcpStream,
) {
    check(
        rt,
        says(stream, FRONT) && says(stream, REST),
        "no handshake",
    );
    let conn = steering.opens(rt, wire, Kind::Ws);
    check(rt, passes_head(stream, ACCEPTED), "no handshake");
    millis.store(50_000, Ordering::SeqCst);
    let bytes = hello(rt);
    check(rt, says(stream, bytes.as_slice()), "nothing said");
    check(rt, steering.hears(rt, wire, conn, b"Hi"), "nothing heard");
    wait(rt, wire, steering, millis, conn, stream, &TIMES);
    check(rt, says(stream, PONG), "nothing said");
    steering.brings_nothing(rt, wire);
    wait(rt, wire, steering, millis, conn, stream, &LATER);
    millis.store(236_000, Ordering::SeqCst);
    check(rt, steering.closes(rt, wire, conn), "no end");
    steering.brings_nothing(rt, wire);
    check(rt, gives(stream, b"\x88\x00"), "no close");
    check(rt, ends(stream), "the connection goes on");
}

// It connects.
fn connect_one<W: Wire>(
    rt: &(impl Abort + AllocGlobal),
    net: &HostRuntime,
    wire: &mut W,
    millis: &AtomicU64,
) {
    let steering = Steering::new(rt, net, wire, "127.0.0.1:24330");
    listens(rt, wire, Kind::Ws, "127.0.0.1:24337");
    let stream = connected(rt, net, "127.0.0.1:24337");
    be_pinged(rt, wire, &steering, millis, &stream);
}

#[test]
fn a_silent_connection_of_websocket_is_pinged(rt: HostRuntime) {
    let millis = AtomicU64::new(0);
    let mut wire = steered_wire(&rt, &millis);
    connect_one(&rt, &rt, &mut wire, &millis);
    drop(wire);
}
