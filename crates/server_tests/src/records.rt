// What is kept of several agents.
use crate::comparing::expect_same;
use crate::exchanges::{expect, server, server_within};
use message_reports::decoding::decode_report;
use plain_values::Uid;
use server_core::Server;
use std::process::Abort;

// Has the server hear a report that stays the caller's.
fn hear(rt: &(impl Abort + AllocGlobal), server: &mut Server, report: &[u8]) {
    let report = decode_report(rt.alloc(), report).expect(rt, "a report");
    let _reply = server.handle(&report, None).expect(rt, "memory");
}

const REPORTS: [&[u8]; 5] = [
    b"\x0a\x10cccccccccccccccc\x10\x07\x1a\x00\x20\x01",
    b"\x0a\x10aaaaaaaaaaaaaaaa\x10\x01\x1a\x00\x20\x01",
    b"\x0a\x10bbbbbbbbbbbbbbbb\x10\x05\x1a\x00\x20\x01",
    b"\x0a\x10bbbbbbbbbbbbbbbb\x10\x06\x20\x01\x4a\x00",
    b"\x0a\x10dddddddddddddddd\x10\x06\x20\x01",
];

// The letter of the identifier, the number and whether it has left, of each agent that is listed after these reports.
const LISTED: [(u8, u64, bool); 3] = [(b'a', 1, false), (b'b', 6, true), (b'c', 7, false)];

fn hear_all(rt: &(impl Abort + AllocGlobal), server: &mut Server) {
    for report in REPORTS {
        hear(rt, server, report);
    }
}

// Whether this is the agent at a place in the list.
fn is_listed(server: &Server, at: usize, want: (u8, u64, bool)) -> bool {
    match server.list().get(at) {
        Some(record) => {
            let (letter, number, left) = want;
            record.uid == Uid::of([letter; 16]) && record.number == number && record.left == left
        }
        None => false,
    }
}

fn are_listed(server: &Server) -> bool {
    for (at, want) in LISTED.iter().enumerate() {
        if !is_listed(server, at, *want) {
            return false;
        }
    }
    server.list().len() == LISTED.len()
}

// The number of an agent's record.
fn number(server: &Server, letter: u8) -> Option<u64> {
    let record = server.find(&Uid::of([letter; 16]))?;
    Some(record.number)
}

// The records ascend by identifier, in whatever order the agents come.
#[test]
fn agents_are_listed(rt: HostRuntime) {
    let mut server = server(rt.alloc());
    hear_all(&rt, &mut server);
    let listed = are_listed(&server);
    let third = number(&server, b'c');
    let fourth = number(&server, b'd');
    drop(server);
    assert!(rt; listed);
    expect_same(&rt, &third, &Some(7));
    expect_same(&rt, &fourth, &None);
}

// Of three agents the one that has left is forgotten: its next report is asked for the full state, and those of the others
// are taken as before.
#[test]
fn left_agents_are_forgotten(rt: HostRuntime) {
    let mut server = server(rt.alloc());
    let of_none = server.forget_left();
    hear_all(&rt, &mut server);
    let of_three = server.forget_left();
    let again = server.forget_left();
    let listed = is_listed(&server, 0, (b'a', 1, false)) && is_listed(&server, 1, (b'c', 7, false));
    let count = server.list().len();
    expect(
        &rt,
        &mut server,
        &[
            (
                b"\x0a\x10bbbbbbbbbbbbbbbb\x10\x07\x20\x01",
                b"\x0a\x10bbbbbbbbbbbbbbbb\x30\x01\x38\x3f",
            ),
            (
                b"\x0a\x10aaaaaaaaaaaaaaaa\x10\x02\x20\x01",
                b"\x0a\x10aaaaaaaaaaaaaaaa\x38\x3f",
            ),
            (
                b"\x0a\x10cccccccccccccccc\x10\x08\x20\x01",
                b"\x0a\x10cccccccccccccccc\x38\x3f",
            ),
        ],
    );
    drop(server);
    expect_same(&rt, &[of_none, of_three, again, count], &[0, 1, 0, 2]);
    assert!(rt; listed);
}

// A message whose identifier begins with this number, of which the rest is given.
fn message(rt: &(impl Abort + AllocGlobal), agent: u16, rest: &[u8]) -> Vec<u8> {
    let mut bytes = Vec::from_slice(rt.alloc(), b"\x0a\x10").expect(rt, "memory");
    bytes
        .extend_from_slice(&agent.to_be_bytes())
        .expect(rt, "memory");
    bytes
        .extend_from_slice(b"aaaaaaaaaaaaaa")
        .expect(rt, "memory");
    bytes.extend_from_slice(rest).expect(rt, "memory");
    bytes
}

// Has the agent of this number report, and be told so.
fn expect_told(
    rt: &(impl Abort + AllocGlobal),
    server: &mut Server,
    agent: u16,
    report: &[u8],
    reply: &[u8],
) {
    let report = message(rt, agent, report);
    let reply = message(rt, agent, reply);
    expect(rt, server, &[(report.as_slice(), reply.as_slice())]);
}

const FULL: &[u8] = b"\x10\x01\x1a\x00\x20\x01";

const PLAIN: &[u8] = b"\x38\x3f";

const TOO_MANY: &[u8] = b"\x12\x1b\x08\x02\x12\x0ftoo many agents\x1a\x06\x08\x80\xd8\x8e\xe1\x6f";

// A new agent after 16,384 others is to try again in 30,000,000,000 nanoseconds; one of those is answered as before.
#[test]
fn too_many_agents(rt: HostRuntime) {
    let mut server = server(rt.alloc());
    for agent in 0..16_384u16 {
        expect_told(&rt, &mut server, agent, FULL, PLAIN);
    }
    expect_told(&rt, &mut server, 16_384, FULL, TOO_MANY);
    expect_told(&rt, &mut server, 16_383, b"\x10\x02\x20\x01", PLAIN);
    let listed = server.list().len();
    drop(server);
    expect_same(&rt, &listed, &16_384);
}

// The same at a server that is made for two.
#[test]
fn two_agents_at_most(rt: HostRuntime) {
    let mut server = server_within(rt.alloc(), 2);
    for agent in 0..2u16 {
        expect_told(&rt, &mut server, agent, FULL, PLAIN);
    }
    expect_told(&rt, &mut server, 2, FULL, TOO_MANY);
    expect_told(&rt, &mut server, 1, b"\x10\x02\x20\x01", PLAIN);
    let listed = server.list().len();
    drop(server);
    expect_same(&rt, &listed, &2);
}
