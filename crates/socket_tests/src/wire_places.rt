//! How many connections a wire takes, what time its events have, and what a leap of time does to silent connections.

use crate::steering::{Steered, Steering, connected, listens};
use crate::watching::{check, ends, gives, hears, is_closed, opened, says};
use edge_devices::{Kind, Wire};
use edge_wire::NetWire;
use std::net::TcpStream;
use std::process::Abort;
use std::sync::atomic::{AtomicU64, Ordering};

// A wire of so many places, whose time is that of `millis`.
fn wire_of<'a>(
    rt: &'a HostRuntime,
    millis: &'a AtomicU64,
    places: usize,
) -> NetWire<Steered<'a, HostRuntime>> {
    NetWire::with_places(rt.alloc(), Steered { net: rt, millis }, places)
}

// Two operators hold two of three places, and a connection the third. The next one waits until that one ended.
fn take_turns<W: Wire>(rt: &(impl Abort + AllocGlobal), net: &HostRuntime, wire: &mut W) {
    let steering = Steering::new(rt, net, wire, "127.0.0.1:24354");
    listens(rt, wire, Kind::Http, "127.0.0.1:24355");
    let one = connected(rt, net, "127.0.0.1:24355");
    let first = steering.opens(rt, wire, Kind::Http);
    let two = connected(rt, net, "127.0.0.1:24355");
    check(rt, says(&two, b"POST"), "nothing said");
    steering.brings_nothing(rt, wire);
    drop(one);
    check(rt, is_closed(rt.alloc(), wire, first), "no end");
    let second = opened(rt.alloc(), wire, Kind::Http).expect(rt, "a connection");
    check(rt, second != first, "a number comes twice");
    check(rt, hears(rt.alloc(), wire, second, b"POST"), "not heard");
    check(rt, wire.send(second, b"200").is_ok(), "nothing sent");
    check(rt, gives(&two, b"200"), "nothing given");
}

#[test]
fn a_connection_waits_for_a_place(rt: HostRuntime) {
    let millis = AtomicU64::new(0);
    let mut wire = wire_of(&rt, &millis, 3);
    take_turns(&rt, &rt, &mut wire);
    drop(wire);
}

// One of two connections of HTTP says something every 50 seconds, and goes on; the other ends behind 120 seconds of silence.
fn speak_on<W: Wire>(
    rt: &(impl Abort + AllocGlobal),
    net: &HostRuntime,
    wire: &mut W,
    millis: &AtomicU64,
) {
    let steering = Steering::new(rt, net, wire, "127.0.0.1:24359");
    listens(rt, wire, Kind::Http, "127.0.0.1:24360");
    let silent = connected(rt, net, "127.0.0.1:24360");
    let still = steering.opens(rt, wire, Kind::Http);
    let speaking = connected(rt, net, "127.0.0.1:24360");
    let heard = steering.opens(rt, wire, Kind::Http);
    for time in [50_000u64, 100_000, 119_999] {
        millis.store(time, Ordering::SeqCst);
        check(rt, says(&speaking, b"POST"), "nothing said");
        check(rt, steering.hears(rt, wire, heard, b"POST"), "not heard");
    }
    millis.store(121_000, Ordering::SeqCst);
    check(rt, steering.closes(rt, wire, still), "no end");
    steering.brings_nothing(rt, wire);
    check(rt, ends(&silent), "the connection goes on");
    leap(rt, wire, &steering, millis, heard, &speaking);
}

// A leap of an hour ends the other too.
fn leap<W: Wire>(
    rt: &(impl Abort + AllocGlobal),
    wire: &mut W,
    steering: &Steering,
    millis: &AtomicU64,
    conn: u64,
    stream: &TcpStream,
) {
    millis.store(3_721_000, Ordering::SeqCst);
    check(rt, steering.closes(rt, wire, conn), "no end");
    steering.brings_nothing(rt, wire);
    check(rt, ends(stream), "the connection goes on");
}

#[test]
fn a_silent_connection_ends_though_others_speak(rt: HostRuntime) {
    let millis = AtomicU64::new(0);
    let mut wire = wire_of(&rt, &millis, 1_280);
    speak_on(&rt, &rt, &mut wire, &millis);
    drop(wire);
}

// A byte of an operator, at 5.999 seconds and at 6.
fn tell_seconds<W: Wire>(
    rt: &(impl Abort + AllocGlobal),
    net: &HostRuntime,
    wire: &mut W,
    millis: &AtomicU64,
) {
    listens(rt, wire, Kind::Operator, "127.0.0.1:24358");
    let stream = connected(rt, net, "127.0.0.1:24358");
    let opened = wire.next(rt.alloc()).expect(rt, "an event");
    check(rt, opened.at == 0, "the second of the beginning");
    for (time, second) in [(5_999u64, 5u64), (6_000, 6)] {
        millis.store(time, Ordering::SeqCst);
        check(rt, says(&stream, b"x"), "nothing said");
        let given = wire.next(rt.alloc()).expect(rt, "an event");
        check(rt, given.at == second, "another second");
    }
}

#[test]
fn events_have_their_second(rt: HostRuntime) {
    let millis = AtomicU64::new(0);
    let mut wire = wire_of(&rt, &millis, 1);
    tell_seconds(&rt, &rt, &mut wire, &millis);
    drop(wire);
}
