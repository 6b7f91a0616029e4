//! What an end by the server leaves: what waits is still sent, and what was closed stays closed. And that a piece is the bytes that came.

use crate::steering::{Steering, connected, steered_wire};
use crate::watching::{check, ends, gives, hears, says};
use edge_devices::{Kind, Wire, WireEvent};
use std::io::Read;
use std::net::TcpStream;
use std::process::Abort;
use std::sync::atomic::AtomicU64;
use std::thread::join;

// An answer that doesn't fit the buffers of two sockets is so many parts of so many bytes.
const ANSWER_PARTS: usize = 500;

const ROOM: usize = 16_000;
// How many bytes come between two looks of the wire, one more than it reads at once.
const PART: usize = 16_385;
// How many of these parts a peer says behind the end: four times what a wire drops.
const PARTS: usize = 256;

// So many bytes, of which each place has its own.
fn pattern(rt: &(impl Abort + AllocGlobal), count: usize) -> Vec<u8> {
    let mut bytes = Vec::new(rt.alloc());
    for at in 0..count {
        bytes.push((at % 251) as u8).expect(rt, "memory");
    }
    bytes
}

// The parts of the answer in one.
fn answer_of(rt: &(impl Abort + AllocGlobal), part: &[u8]) -> Vec<u8> {
    let mut answer = Vec::new(rt.alloc());
    for _ in 0..ANSWER_PARTS {
        answer.extend_from_slice(part).expect(rt, "memory");
    }
    answer
}

// Whether the stream gives exactly the parts of the answer, and then ends.
fn gives_all(mut stream: &TcpStream, part: &[u8]) -> bool {
    let mut came = [0u8; ROOM];
    for _ in 0..ANSWER_PARTS {
        if stream.read_exact(&mut came).is_err() || came.as_slice() != part {
            return false;
        }
    }
    ends(stream)
}

// The wire works until this operator says something, and nothing else comes.
fn work<W: Wire>(rt: &(impl Abort + AllocGlobal), wire: &mut W, on: u64) {
    match wire.next(rt.alloc()).map(|given| given.event) {
        Ok(WireEvent::Piece { conn, bytes: _ }) => check(rt, conn == on, "a piece of another"),
        _ => panic!(rt; "no piece"),
    }
}

#[test]
fn what_waits_is_sent_before_the_end(rt: HostRuntime) {
    let millis = AtomicU64::new(0);
    let mut wire = steered_wire(&rt, &millis);
    let steering = Steering::new(&rt, &rt, &mut wire, "127.0.0.1:24338");
    let stream = connected(&rt, &rt, "127.0.0.1:24338");
    let conn = steering.opens(&rt, &mut wire, Kind::Operator);
    let part = pattern(&rt, ROOM);
    let answer = answer_of(&rt, part.as_slice());
    check(&rt, wire.send(conn, answer.as_slice()).is_ok(), "not sent");
    wire.close(conn);
    check(&rt, wire.send(conn, b"more").is_err(), "sent behind it");
    join(
        &rt,
        || work(&rt, &mut wire, steering.number()),
        || {
            check(&rt, gives_all(&stream, part.as_slice()), "not whole");
            check(&rt, steering.says(), "the operator isn't heard");
        },
    );
    drop(steering);
    drop(wire);
}

// Behind an end by the server its peer is told of it, and goes on: nothing of that is given, and nothing is sent. What it says is dropped until it is too much.
fn go_on<W: Wire>(rt: &(impl Abort + AllocGlobal), net: &HostRuntime, wire: &mut W) {
    let steering = Steering::new(rt, net, wire, "127.0.0.1:24339");
    let stream = connected(rt, net, "127.0.0.1:24339");
    let conn = steering.opens(rt, wire, Kind::Operator);
    check(rt, wire.send(conn, b"end\n").is_ok(), "not sent");
    wire.close(conn);
    steering.brings_nothing(rt, wire);
    check(rt, gives(&stream, b"end\n") && ends(&stream), "no end");
    let bytes = pattern(rt, PART);
    let mut ended = false;
    for _ in 0..PARTS {
        if !says(&stream, bytes.as_slice()) {
            ended = true;
            break;
        }
        steering.brings_nothing(rt, wire);
        check(rt, wire.send(conn, b"more").is_err(), "sent behind it");
    }
    check(rt, ended, "the peer goes on for ever");
}

#[test]
fn what_was_closed_stays_closed(rt: HostRuntime) {
    let millis = AtomicU64::new(0);
    let mut wire = steered_wire(&rt, &millis);
    go_on(&rt, &rt, &mut wire);
    drop(wire);
}

// Bytes that come at once, one more than the wire reads at once, are given whole.
fn say_much<W: Wire>(rt: &(impl Abort + AllocGlobal), net: &HostRuntime, wire: &mut W) {
    let steering = Steering::new(rt, net, wire, "127.0.0.1:24340");
    let stream = connected(rt, net, "127.0.0.1:24340");
    let conn = steering.opens(rt, wire, Kind::Operator);
    let bytes = pattern(rt, PART);
    check(rt, says(&stream, bytes.as_slice()), "nothing said");
    let heard = hears(rt.alloc(), wire, conn, bytes.as_slice());
    check(rt, heard, "not what came");
}

#[test]
fn a_piece_is_the_bytes_that_came(rt: HostRuntime) {
    let millis = AtomicU64::new(0);
    let mut wire = steered_wire(&rt, &millis);
    say_much(&rt, &rt, &mut wire);
    drop(wire);
}
