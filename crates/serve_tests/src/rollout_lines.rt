// Rollouts that an operator begins, halts, resumes and finishes in a session over a wire in memory.
use crate::comparing::expect_same;
use crate::playing::{Script, desk, joined, put};
use crate::rollout_agents::{FULL, HASH, SAME, status, status_of};
use crate::rollout_sessions::{report, serve};
use edge_devices::{Kind, WireCall};
use server_sessions::ServeEnd;
use std::process::Abort;

// The connection of the operator.
const OPERATOR: u64 = 9;

// SHA-256 of `0a0b0a090a017912040a026869`, the hash of the file `y` with the body `hi`.
const OTHER_HASH: [u8; 32] =
    *b"\x7d\x92\xda\xca\xe2\xc2\x61\x5b\x35\x45\xf1\x4d\xe6\xd2\xad\x8f\xb3\x0e\x89\x4c\xbd\xba\xf7\xb2\x2d\xde\xcd\x75\x51\xb8\x32\x2c";

// A full report with the identifying attribute `zone` of the text `north`.
const NORTH: &[u8] =
    b"\x1a\x11\x0a\x0f\x0a\x04zone\x12\x07\x0a\x05north\x20\x83\x30\x2a\x02\x08\x01\x3a\x00";

// The same of the text `south`.
const SOUTH: &[u8] =
    b"\x1a\x11\x0a\x0f\x0a\x04zone\x12\x07\x0a\x05south\x20\x83\x30\x2a\x02\x08\x01\x3a\x00";

// Whether the hash stands in the bytes.
fn has(bytes: &[u8], hash: &[u8; 32]) -> bool {
    bytes
        .windows(hash.len())
        .any(|part| part == hash.as_slice())
}

// What went out on a connection: to the operator the bytes, and to an agent which configuration is in it.
fn tell_sent(rt: &impl Abort, told: &mut Vec<u8>, conn: u64, bytes: &[u8]) {
    if conn == OPERATOR {
        put(rt, told, bytes);
        return;
    }
    told.push(b'0' + (conn % 10) as u8).expect(rt, "memory");
    if has(bytes, &HASH) {
        put(rt, told, b" x");
    }
    if has(bytes, &OTHER_HASH) {
        put(rt, told, b" y");
    }
    put(rt, told, b"\n");
}

// What went out, one after the other.
fn tell(rt: &(impl Abort + AllocGlobal), calls: &[WireCall]) -> Vec<u8> {
    let mut told = Vec::new(rt.alloc());
    for call in calls {
        if let WireCall::Sent { conn, bytes } = call {
            tell_sent(rt, &mut told, *conn, bytes.as_slice());
        }
    }
    told
}

// What goes out in a session of these events, each of which is a turn, by a desk of no agents and no rollouts.
fn told(rt: &(impl Abort + AllocGlobal), script: Script, turns: u64, push: bool) -> Vec<u8> {
    let mut wire = script.wire(rt);
    let mut desk = desk(rt.alloc());
    let end = serve(rt.alloc(), &mut desk, &mut wire, turns, push);
    drop(desk);
    let told = tell(rt, wire.calls());
    drop(wire);
    assert!(rt; matches!(end, Err(ServeEnd::TurnsSpent)));
    told
}

// What is told is these pieces, one after the other.
fn expect_told(rt: &(impl Abort + AllocGlobal), told: &[u8], pieces: &[&[u8]]) {
    let want = joined(rt, pieces);
    expect_same(rt, &told, &want.as_slice());
}

// The agents 1, 2 and 3 and the operator open their connections: four turns.
fn opened(rt: &(impl Abort + AllocGlobal)) -> Script {
    let mut script = Script::new(rt.alloc());
    for conn in 1..4 {
        script.open(rt, conn, Kind::Ws);
    }
    script.open(rt, OPERATOR, Kind::Operator);
    script
}

// Two agents, to which a rollout of width 1 comes one after the other. The first one applies it, and the second one fails: twelve turns more.
fn add_failing(rt: &(impl Abort + AllocGlobal), script: &mut Script) {
    report(rt, script, 1, 1, FULL);
    report(rt, script, 2, 1, FULL);
    script.piece(rt, OPERATOR, b"rollout main 1/0 x - 6869\n");
    script.piece(rt, OPERATOR, b"rollouts\n");
    report(rt, script, 1, 2, SAME);
    report(rt, script, 1, 3, status(rt, 1).as_slice());
    script.piece(rt, OPERATOR, b"rollouts\n");
    report(rt, script, 2, 2, SAME);
    report(rt, script, 2, 3, status(rt, 3).as_slice());
    script.piece(rt, OPERATOR, b"rollouts\n");
    report(rt, script, 3, 1, FULL);
    report(rt, script, 3, 2, SAME);
}

// The operator goes on, and a third agent has it, which waited for it; then the rollout is halted and let go: nine turns more.
fn add_resuming(rt: &(impl Abort + AllocGlobal), script: &mut Script) {
    script.piece(rt, OPERATOR, b"resume main\n");
    script.piece(rt, OPERATOR, b"rollouts\n");
    report(rt, script, 3, 3, SAME);
    report(rt, script, 3, 4, status(rt, 1).as_slice());
    script.piece(rt, OPERATOR, b"members main\n");
    script.piece(rt, OPERATOR, b"halt main\n");
    script.piece(rt, OPERATOR, b"rollouts\n");
    script.piece(rt, OPERATOR, b"finish main\n");
    script.piece(rt, OPERATOR, b"rollouts\n");
}

fn steered(rt: &(impl Abort + AllocGlobal)) -> Script {
    let mut script = opened(rt);
    add_failing(rt, &mut script);
    add_resuming(rt, &mut script);
    script
}

// A failed agent halts the rollout, in which no further agent has the offer until it is resumed; then the failure counts no more.
#[test]
fn a_halted_rollout_goes_on_when_resumed(rt: HostRuntime) {
    let told = told(&rt, steered(&rt), 25, false);
    expect_told(
        &rt,
        told.as_slice(),
        &[
            b"1\n2\nok\n",
            b"main waiting 1 offered 1 applied 0 failed 0\nend\n",
            b"1 x\n1\n",
            b"main waiting 0 offered 1 applied 1 failed 0\nend\n",
            b"2 x\n2\n",
            b"main waiting 0 offered 0 applied 1 failed 1 halted\nend\n",
            b"3\n3\nok\n",
            b"main waiting 0 offered 1 applied 1 failed 1\nend\n",
            b"3 x\n3\n",
            b"00010203-0405-0607-0809-0a0b0c0d0e01 applied\n",
            b"00010203-0405-0607-0809-0a0b0c0d0e02 failed\n",
            b"00010203-0405-0607-0809-0a0b0c0d0e03 applied\nend\nok\n",
            b"main waiting 0 offered 0 applied 2 failed 1 halted\nend\n",
            b"ok\nend\n",
        ],
    );
}

// With pushes the offer goes out behind the line that begins or resumes the rollout, or behind the report that leaves room for the next agent; and again with
// the reply to an agent's next report, where that doesn't tell of it.
#[test]
fn lines_have_offers_pushed(rt: HostRuntime) {
    let told = told(&rt, steered(&rt), 25, true);
    expect_told(
        &rt,
        told.as_slice(),
        &[
            b"1\n2\nok\n1 x\n",
            b"main waiting 1 offered 1 applied 0 failed 0\nend\n",
            b"1 x\n1\n2 x\n",
            b"main waiting 0 offered 1 applied 1 failed 0\nend\n",
            b"2 x\n2\n",
            b"main waiting 0 offered 0 applied 1 failed 1 halted\nend\n",
            b"3\n3\nok\n3 x\n",
            b"main waiting 0 offered 1 applied 1 failed 1\nend\n",
            b"3 x\n3\n",
            b"00010203-0405-0607-0809-0a0b0c0d0e01 applied\n",
            b"00010203-0405-0607-0809-0a0b0c0d0e02 failed\n",
            b"00010203-0405-0607-0809-0a0b0c0d0e03 applied\nend\nok\n",
            b"main waiting 0 offered 0 applied 2 failed 1 halted\nend\n",
            b"ok\nend\n",
        ],
    );
}

// Two rollouts, which find one agent each, begun in one piece: sixteen turns.
fn beside(rt: &(impl Abort + AllocGlobal)) -> Script {
    let mut script = opened(rt);
    report(rt, &mut script, 1, 1, NORTH);
    report(rt, &mut script, 2, 1, SOUTH);
    report(rt, &mut script, 3, 1, FULL);
    script.piece(
        rt,
        OPERATOR,
        b"rollout north 1/0 where zone=north x - 6869\nrollout south 2/1 where zone=south y - 6869\n",
    );
    script.piece(rt, OPERATOR, b"rollouts\n");
    report(rt, &mut script, 1, 2, SAME);
    report(rt, &mut script, 2, 2, SAME);
    report(rt, &mut script, 3, 2, SAME);
    report(rt, &mut script, 1, 3, status(rt, 1).as_slice());
    report(
        rt,
        &mut script,
        2,
        3,
        status_of(rt, &OTHER_HASH, 3).as_slice(),
    );
    script.piece(rt, OPERATOR, b"rollouts\n");
    script.piece(rt, OPERATOR, b"finish north\nrollouts\n");
    script
}

// Each agent has the offer of the rollout that finds it, and one failure that is allowed halts none.
#[test]
fn rollouts_stand_beside_one_another(rt: HostRuntime) {
    let told = told(&rt, beside(&rt), 16, false);
    expect_told(
        &rt,
        told.as_slice(),
        &[
            b"1\n2\n3\nok\nok\n",
            b"north waiting 0 offered 1 applied 0 failed 0\n",
            b"south waiting 0 offered 1 applied 0 failed 0\nend\n",
            b"1 x\n2 y\n3\n1\n2\n",
            b"north waiting 0 offered 0 applied 1 failed 0\n",
            b"south waiting 0 offered 0 applied 0 failed 1\nend\n",
            b"ok\nsouth waiting 0 offered 0 applied 0 failed 1\nend\n",
        ],
    );
}

// With pushes the offers of both go out behind the lines, in the order of begin.
#[test]
fn rollouts_beside_one_another_are_pushed(rt: HostRuntime) {
    let told = told(&rt, beside(&rt), 8, true);
    expect_told(&rt, told.as_slice(), &[b"1\n2\n3\nok\nok\n1 x\n2 y\n"]);
}

// An agent that two rollouts find has the offer of the one that began later, and the other one learns nothing of it.
#[test]
fn the_later_rollout_has_the_agent(rt: HostRuntime) {
    let mut script = opened(&rt);
    report(&rt, &mut script, 1, 1, FULL);
    script.piece(
        &rt,
        OPERATOR,
        b"rollout a 1/0 x - 6869\nrollout b 1/0 y - 6869\n",
    );
    report(&rt, &mut script, 1, 2, SAME);
    report(&rt, &mut script, 1, 3, &status_of(&rt, &OTHER_HASH, 1));
    script.piece(&rt, OPERATOR, b"rollouts\n");
    let told = told(&rt, script, 9, false);
    expect_told(
        &rt,
        told.as_slice(),
        &[
            b"1\nok\nok\n1 y\n1\n",
            b"a waiting 0 offered 1 applied 0 failed 0\n",
            b"b waiting 0 offered 0 applied 1 failed 0\nend\n",
        ],
    );
}
