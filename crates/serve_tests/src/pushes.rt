// Pushes to agents on connections of WebSocket.
use crate::playing::{REPLY, REPORT, Script, joined};
use edge_devices::Kind;
use std::process::Abort;

// The line by which an operator has the agent connect to http://h.
const CONNECT: &[u8] = b"connect 00010203-0405-0607-0809-0a0b0c0d0e0f http://h\n";

// The agent's first report on a connection of WebSocket, with the header.
fn reports(rt: &(impl Abort + AllocGlobal), script: &mut Script, conn: u64) {
    let payload = joined(rt, &[b"\x00", REPORT]);
    script.piece(rt, conn, payload.as_slice());
}

// The agent reports on connections 1 and 2, the one with 2 ends where it is closed, and an operator orders on connection 3.
fn ordered(
    rt: &(impl Abort + AllocGlobal),
    conns: &[u64],
    closed: bool,
    failing: &[u64],
) -> Vec<u8> {
    let mut script = Script::new(rt.alloc());
    for conn in conns {
        script.open(rt, *conn, Kind::Ws);
        reports(rt, &mut script, *conn);
    }
    if closed {
        script.close(rt, 2);
    }
    script.open(rt, 3, Kind::Operator);
    script.piece(rt, 3, CONNECT);
    script.play_pushing(rt, failing)
}

// Whether these pieces, one after the other, are what goes out then.
fn is_told(
    rt: &(impl Abort + AllocGlobal),
    conns: &[u64],
    closed: bool,
    failing: &[u64],
    pieces: &[&[u8]],
) -> bool {
    let want = joined(rt, pieces);
    let told = ordered(rt, conns, closed, failing);
    told.as_slice() == want.as_slice()
}

// A name, the connections on which the agent reports, whether the one with 2 ends, and what goes out.
const ORDERS: [(&str, &[u64], bool, &[&[u8]]); 3] = [
    (
        "one connection",
        &[1],
        false,
        &[b"1:\x00", REPLY, b"|3:ok\n|1:\x00", REPLY, b"|spent"],
    ),
    (
        "the latest of two",
        &[1, 2],
        false,
        &[
            b"1:\x00",
            REPLY,
            b"|2:\x00",
            REPLY,
            b"|3:ok\n|2:\x00",
            REPLY,
            b"|spent",
        ],
    ),
    (
        "the one that is left",
        &[1, 2],
        true,
        &[
            b"1:\x00",
            REPLY,
            b"|2:\x00",
            REPLY,
            b"|3:ok\n|1:\x00",
            REPLY,
            b"|spent",
        ],
    ),
];

// A push to an agent whose capabilities lack the offers is the reply to its first report. It goes out on the connection with the latest report of the agent
// that is still known.
#[test]
fn orders_are_pushed(rt: HostRuntime) {
    for (name, conns, closed, pieces) in &ORDERS {
        assert!(rt; is_told(&rt, conns, *closed, &[], pieces), "{name}");
    }
}

// Where the push is lost its connection is known no more, and the run goes on.
#[test]
fn lost_push_ends_its_connection(rt: HostRuntime) {
    let pieces: [&[u8]; 3] = [b"1:\x00", REPLY, b"|3:ok\n|1 lost|spent"];
    assert!(rt; is_told(&rt, &[1], false, &[6], &pieces));
}

// An agent that reports over HTTP alone is reached by no push.
#[test]
fn nobody_is_reached_over_http(rt: HostRuntime) {
    let request = joined(
        &rt,
        &[
            b"POST /v1/opamp HTTP/1.1\r\nHost: h\r\nContent-Type: application/x-protobuf\r\nContent-Length: 29\r\n\r\n",
            REPORT,
        ],
    );
    let mut script = Script::new(rt.alloc());
    script.open(&rt, 1, Kind::Http);
    script.piece(&rt, 1, request.as_slice());
    script.open(&rt, 3, Kind::Operator);
    script.piece(&rt, 3, CONNECT);
    let told = script.play_pushing(&rt, &[]);
    assert!(rt; told.as_slice().ends_with(b"|3:ok\n|spent"));
}

// A push goes out behind the event that brought `stop` too.
#[test]
fn orders_before_the_end_are_pushed(rt: HostRuntime) {
    let mut script = Script::new(rt.alloc());
    script.open(&rt, 1, Kind::Ws);
    reports(&rt, &mut script, 1);
    script.open(&rt, 3, Kind::Operator);
    let lines = joined(&rt, &[CONNECT, b"stop\n"]);
    script.piece(&rt, 3, lines.as_slice());
    let told = script.play_pushing(&rt, &[]);
    let want = joined(
        &rt,
        &[
            b"1:\x00",
            REPLY,
            b"|3:ok\n|3:ok\n|1:\x00",
            REPLY,
            b"|stopped",
        ],
    );
    assert!(rt; told.as_slice() == want.as_slice());
}

// What is withdrawn is no push: behind `ok` nothing goes out to the agent.
#[test]
fn nothing_is_pushed_for_a_withdrawal(rt: HostRuntime) {
    let mut script = Script::new(rt.alloc());
    script.open(&rt, 1, Kind::Ws);
    reports(&rt, &mut script, 1);
    script.open(&rt, 3, Kind::Operator);
    script.piece(&rt, 3, b"withdraw 00010203-0405-0607-0809-0a0b0c0d0e0f\n");
    let told = script.play_pushing(&rt, &[]);
    let want = joined(&rt, &[b"1:\x00", REPLY, b"|3:ok\n|spent"]);
    assert!(rt; told.as_slice() == want.as_slice());
}
