// Connections of WebSocket and of operators.
use crate::comparing::expect_same;
use crate::playing::{REPLY, REPORT, Script, desk_within, joined};
use edge_devices::Kind;
use message_handlers::Handlers;

#[test]
fn bad_payloads(rt: HostRuntime) {
    let mut script = Script::new(rt.alloc());
    script.open(&rt, 1, Kind::Ws);
    script.piece(&rt, 1, b"");
    script.piece(&rt, 1, b"\x00\x0b");
    let told = script.play(&rt, &[], &[]);
    let want =
        b"1:\x00\x12\x14\x08\x01\x12\x10bad instance_uid|1:\x00\x12\x0f\x08\x01\x12\x0bbad message|spent";
    expect_same(&rt, &told.as_slice(), &want.as_slice());
}

#[test]
fn send_is_lost(rt: HostRuntime) {
    let mut script = Script::new(rt.alloc());
    script.open(&rt, 1, Kind::Ws);
    script.open(&rt, 2, Kind::Ws);
    script.piece(&rt, 1, REPORT);
    script.piece(&rt, 2, REPORT);
    script.piece(&rt, 1, REPORT);

    // Three events are given, and the send that follows is lost.
    let told = script.play(&rt, &[3], &[]);
    let want = joined(&rt, &[b"1 lost|2:\x00", REPLY, b"|spent"]);
    expect_same(&rt, &told.as_slice(), &want.as_slice());
}

#[test]
fn wire_fails(rt: HostRuntime) {
    let mut script = Script::new(rt.alloc());
    script.open(&rt, 1, Kind::Ws);
    script.open(&rt, 2, Kind::Ws);
    script.piece(&rt, 1, REPORT);
    script.piece(&rt, 2, REPORT);

    // Behind three events and a send the wire is asked a fourth time.
    let told = script.play(&rt, &[4], &[]);
    let want = joined(&rt, &[b"1:\x00", REPLY, b"|failed"]);
    expect_same(&rt, &told.as_slice(), &want.as_slice());
}

#[test]
fn lines_are_answered(rt: HostRuntime) {
    let mut script = Script::new(rt.alloc());
    script.open(&rt, 1, Kind::Ws);
    script.piece(&rt, 1, REPORT);
    script.open(&rt, 2, Kind::Operator);
    script.piece(&rt, 2, b"list\nrestart 00000000-0000-0000-0000-0000");
    script.piece(
        &rt,
        2,
        b"00000000\nhello\nconnect 00010203-0405-0607-0809-0a0b0c0d0e0f http://h\nst",
    );
    script.piece(&rt, 2, b"op\nlist\n");
    let told = script.play(&rt, &[], &[]);
    let want = joined(
        &rt,
        &[
            b"1:\x00",
            REPLY,
            b"|2:00010203-0405-0607-0809-0a0b0c0d0e0f 1 here healthy\nend\n|2:refused: unknown agent\n|2:refused: words\n|2:ok\n|2:ok\n|stopped",
        ],
    );
    expect_same(&rt, &told.as_slice(), &want.as_slice());
}

// A line is answered on its connection, whatever it asks or orders, and the table is what the lines before left of it.
#[test]
fn offers_are_ordered_and_withdrawn(rt: HostRuntime) {
    let mut script = Script::new(rt.alloc());
    script.open(&rt, 1, Kind::Ws);
    script.piece(&rt, 1, REPORT);
    script.open(&rt, 2, Kind::Operator);
    for line in [
        b"config 00010203-0405-0607-0809-0a0b0c0d0e0f ../x - 6869\n".as_slice(),
        b"settings 00010203-0405-0607-0809-0a0b0c0d0e0f http://s1 0\n",
        b"restart 00010203-0405-0607-0809-0a0b0c0d0e0f\n",
        b"waits 00010203-0405-0607-0809-0a0b0c0d0e0f\n",
        b"withdraw 00010203-0405-0607-0809-0a0b0c0d0e0f\nwaits 00010203-0405-0607-0809-0a0b0c0d0e0f\n",
        b"withdraw 00000000-0000-0000-0000-000000000000\nwaits\n",
    ] {
        script.piece(&rt, 2, line);
    }
    let told = script.play(&rt, &[], &[]);
    let want = joined(
        &rt,
        &[
            b"1:\x00",
            REPLY,
            b"|2:ok\n|2:ok\n|2:ok\n|2:config 931fcc8dc80ec224d1f1ec508b95cf1465b3810b4501420b00c00fcac141d576\nconnection 18c108042a31beae630f0931d5aabb7020a89d1eb783b61ef5fca03a8952a9ed\nrestart\nend\n|2:ok\n|2:end\n|2:refused: unknown agent\n|2:refused: words\n|spent",
        ],
    );
    expect_same(&rt, &told.as_slice(), &want.as_slice());
}

#[test]
fn unknown_connections(rt: HostRuntime) {
    let mut script = Script::new(rt.alloc());
    script.piece(&rt, 1, REPORT);
    script.open(&rt, 1, Kind::Ws);
    script.open(&rt, 1, Kind::Http);
    script.piece(&rt, 1, REPORT);
    let told = script.play(&rt, &[], &[]);
    let want = joined(&rt, &[b"1:\x00", REPLY, b"|spent"]);
    expect_same(&rt, &told.as_slice(), &want.as_slice());
}

// Where two connections are known at most a third one is closed at once. The two are served on, also the one that is opened again, and behind the end of
// one there is room for another.
#[test]
fn connections_past_the_limit(rt: HostRuntime) {
    let mut script = Script::new(rt.alloc());
    for conn in [1u64, 2, 3, 2] {
        script.open(&rt, conn, Kind::Ws);
    }
    for conn in [3u64, 1, 2] {
        script.piece(&rt, conn, REPORT);
    }
    script.close(&rt, 1);
    script.open(&rt, 3, Kind::Ws);
    script.piece(&rt, 3, REPORT);
    let mut desk = desk_within(rt.alloc(), 2);
    let handlers = Handlers::new(rt.alloc());
    let told = script.play_on(&rt, &mut desk, &handlers, &[], &[]);
    drop(handlers);
    drop(desk);
    let want = joined(
        &rt,
        &[
            b"3 closed|1:\x00",
            REPLY,
            b"|2:\x00",
            REPLY,
            b"|3:\x00",
            REPLY,
            b"|spent",
        ],
    );
    expect_same(&rt, &told.as_slice(), &want.as_slice());
}
