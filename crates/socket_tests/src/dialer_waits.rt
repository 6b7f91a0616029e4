//! How long the dialer waits for what is asked, how often it asks, and that it waits for nothing else.

use crate::answering::{answer, taken};
use crate::asking::{answers, dialed, endpoint, fails, header};
use crate::dialer_pieces::{greeted, hears_question};
use crate::watching::{check, ends, gives, says};
use edge_devices::{Clock, Dialer, PushDialer, SystemClock};
use edge_dialer::NetDialer;
use std::net::{Net, OpenListener, TcpListener, TcpStream};
use std::process::Abort;
use std::thread::join;
use std::time::{Clock as Time, Duration, Instant};

// How long the server pauses within a response, in nanoseconds.
const PAUSE: u64 = 100_000_000;

const QUESTION: &'static [u8] =
    b"POST /v1/opamp HTTP/1.1\r\nHost: 127.0.0.1:24352\r\nContent-Type: application/x-protobuf\r\nContent-Length: 2\r\nX-Key: secret\r\n\r\n\x0a\x00";

// A response, and where it is cut: in its first line, in a header, behind its head, and in its body.
const WHOLE: &'static [u8] = b"HTTP/1.1 200 OK\r\nContent-Length: 3\r\n\r\none";

const CUTS: [usize; 4] = [9, 30, 38, 40];

// No response.
const WRONG: &'static [u8] = b"\x16\x03\x01\x02\x00";

// Answers one question for each cut, in two pieces with a pause between them.
fn answer_in_pieces<C: Clock>(rt: &impl Abort, clock: &mut C, stream: &TcpStream) {
    stream.set_nodelay(true).expect(rt, "haste");
    for cut in CUTS {
        let front = WHOLE.get(..cut).expect(rt, "a front");
        let rest = WHOLE.get(cut..).expect(rt, "a rest");
        answer(rt, stream, QUESTION, front);
        clock.wait(PAUSE).expect(rt, "a wait");
        check(rt, says(stream, rest), "no rest");
    }
}

// Whether nobody connects within a pause.
fn nobody_comes<C: Clock>(clock: &mut C, listener: &TcpListener) -> bool {
    clock.wait(PAUSE).is_ok()
        && listener.set_nonblocking(true).is_ok()
        && listener.accept().is_err()
        && listener.set_nonblocking(false).is_ok()
}

// Answers in pieces, then wrongly, and then not at all: each time the connection ends with no further question on it, and
// no other one is made.
fn serve_once<C: Clock>(rt: &impl Abort, clock: &mut C, listener: &TcpListener) {
    let first = taken(rt, listener);
    answer_in_pieces(rt, clock, &first);
    check(rt, ends(&first), "a question that nobody asked");
    let wrong = taken(rt, listener);
    answer(rt, &wrong, QUESTION, WRONG);
    check(rt, ends(&wrong), "a question asked again");
    check(rt, nobody_comes(clock, listener), "a question asked anew");
    let silent = taken(rt, listener);
    check(rt, gives(&silent, QUESTION), "another question");
    drop(silent);
    check(rt, nobody_comes(clock, listener), "a question asked anew");
}
// An exchange for each cut, and one for each fault, on a link of its own, a while behind the one before.
fn ask_once<D: Dialer, C: Clock>(rt: &(impl Abort + AllocGlobal), dialer: &mut D, clock: &mut C) {
    let to = endpoint(rt, "http://127.0.0.1:24352");
    let headers = header(rt, "X-Key", "secret");
    let mut link = dialed(rt, dialer, "http://127.0.0.1:24352");
    for _ in CUTS {
        let whole = answers(rt.alloc(), dialer, &mut link, b"\x0a\x00", b"one");
        check(rt, whole, "an answer in pieces");
    }
    drop(link);
    check(
        rt,
        fails(rt.alloc(), dialer, &to, &headers),
        "a wrong answer",
    );
    clock.wait(3 * PAUSE).expect(rt, "a wait");
    check(rt, fails(rt.alloc(), dialer, &to, &headers), "no answer");
}

#[test]
fn questions_are_asked_once(rt: HostRuntime) {
    let listener = TcpListener::bind(&rt, "127.0.0.1:24352").expect(&rt, "a listener");
    let mut dialer = NetDialer::new(&rt);
    let mut clock = SystemClock::new(&rt);
    let mut other = SystemClock::new(&rt);
    join(
        &rt,
        || serve_once(&rt, &mut other, &listener),
        || ask_once(&rt, &mut dialer, &mut clock),
    );
}

// A masked binary message of two bytes is answered by one of five, and then nothing is sent until the connection ends.
fn serve_silence(rt: &(impl Abort + AllocGlobal), listener: &TcpListener) {
    let stream = greeted(rt, listener);
    check(rt, hears_question(&stream), "no question");
    check(rt, says(&stream, b"\x82\x05Hello"), "no answer");
    check(rt, ends(&stream), "something more");
}

// Looks ten times for what came unasked, behind an exchange that might have taken ten seconds. A look that waited would
// take nearly as long.
fn look<R: Abort + AllocGlobal + Time, D: PushDialer>(rt: &R, dialer: &mut D) {
    let mut link = dialed(rt, dialer, "ws://127.0.0.1:24353");
    let answered = answers(rt.alloc(), dialer, &mut link, b"Hi", b"Hello");
    check(rt, answered, "no answer");
    let start = Instant::now(rt).expect(rt, "a time");
    for _ in 0..10usize {
        let silent = matches!(dialer.arrived(rt.alloc(), &mut link), Ok(None));
        check(rt, silent, "a message");
    }
    let took = start.elapsed(rt).expect(rt, "a time");
    check(rt, took < Duration::from_secs(2), "a look that waits");
}

#[test]
fn looks_never_wait(rt: HostRuntime) {
    let listener = TcpListener::bind(&rt, "127.0.0.1:24353").expect(&rt, "a listener");
    let mut dialer = NetDialer::new(&rt);
    join(
        &rt,
        || serve_silence(&rt, &listener),
        || look(&rt, &mut dialer),
    );
}
