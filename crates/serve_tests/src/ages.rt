// What an operator is told of how long ago agents reported, and of how many there are, in a session over a wire in memory.
use crate::comparing::expect_same;
use crate::playing::{Script, desk, joined, put};
use crate::rollout_agents::{FULL, SAME, bytes_of};
use crate::rollout_sessions::{report, serve};
use edge_devices::{Kind, WireCall};
use server_sessions::ServeEnd;
use std::process::Abort;

// The connection of the operator.
const OPERATOR: u64 = 9;

// The head of a request whose body is a full report.
const HEAD: &[u8] =
    b"POST /v1/opamp HTTP/1.1\r\nContent-Type: application/x-protobuf\r\nContent-Length: 31\r\n\r\n";

// What the operator is told in a session of these events, each of which is a turn, by a desk of no agents.
fn told(rt: &(impl Abort + AllocGlobal), script: Script) -> Vec<u8> {
    let turns = script.len();
    let mut wire = script.wire(rt);
    let mut desk = desk(rt.alloc());
    let end = serve(rt.alloc(), &mut desk, &mut wire, turns, false);
    drop(desk);
    let mut told = Vec::new(rt.alloc());
    for call in wire.calls() {
        if let WireCall::Sent { conn, bytes } = call
            && *conn == OPERATOR
        {
            put(rt, &mut told, bytes.as_slice());
        }
    }
    drop(wire);
    assert!(rt; matches!(end, Err(ServeEnd::TurnsSpent)));
    told
}

// At second 100 all connect and the agent 1 reports, at 130 the agent 2, at 160 the agent 3 over HTTP, and at 170 the connection of the agent 2 ends.
fn reported(rt: &(impl Abort + AllocGlobal)) -> Script {
    let mut script = Script::new(rt.alloc());
    script.at(100);
    script.open(rt, 1, Kind::Ws);
    script.open(rt, 2, Kind::Ws);
    script.open(rt, 3, Kind::Http);
    script.open(rt, OPERATOR, Kind::Operator);
    report(rt, &mut script, 1, 1, FULL);
    script.at(130);
    report(rt, &mut script, 2, 1, FULL);
    script.at(160);
    let body = bytes_of(rt, 3, 1, FULL);
    let request = joined(rt, &[HEAD, body.as_slice()]);
    script.piece(rt, 3, request.as_slice());
    script.at(170);
    script.close(rt, 2);
    script
}

#[test]
fn ages_are_those_of_the_last_reports(rt: HostRuntime) {
    let mut script = reported(&rt);
    script.at(200);
    script.piece(&rt, OPERATOR, b"ages\n");
    let told = told(&rt, script);
    let want =
        b"00010203-0405-0607-0809-0a0b0c0d0e01 100 open\n00010203-0405-0607-0809-0a0b0c0d0e02 70 closed\n00010203-0405-0607-0809-0a0b0c0d0e03 40 http\nend\n";
    expect_same(&rt, &told.as_slice(), &want.as_slice());
}

// The agent 1 skips a number, so its report isn't taken: its age goes on. With the next one that is, it begins anew. A clock that goes back gives no age below 0.
#[test]
fn reports_that_are_not_taken_count_for_nothing(rt: HostRuntime) {
    let mut script = Script::new(rt.alloc());
    script.at(100);
    script.open(&rt, 1, Kind::Ws);
    script.open(&rt, OPERATOR, Kind::Operator);
    report(&rt, &mut script, 1, 1, FULL);
    script.at(110);
    report(&rt, &mut script, 1, 9, SAME);
    script.piece(&rt, OPERATOR, b"ages\n");
    script.at(120);
    report(&rt, &mut script, 1, 10, FULL);
    script.piece(&rt, OPERATOR, b"ages\n");
    script.at(90);
    script.piece(&rt, OPERATOR, b"ages\ncount\n");
    let told = told(&rt, script);
    let want =
        b"00010203-0405-0607-0809-0a0b0c0d0e01 10 open\nend\n00010203-0405-0607-0809-0a0b0c0d0e01 0 open\nend\n00010203-0405-0607-0809-0a0b0c0d0e01 0 open\nend\nagents 1\nhere 1\nhealthy 1\nunhealthy 0\nconnections 2\nreports 2\norders 0\nrollouts 0\nend\n";
    expect_same(&rt, &told.as_slice(), &want.as_slice());
}

// A forgotten agent has no age, and is counted no more; the reports are those that were taken since the start.
#[test]
fn forgotten_agents_have_no_age(rt: HostRuntime) {
    let mut script = reported(&rt);
    script.at(200);
    script.piece(
        &rt,
        OPERATOR,
        b"forget 000102030405060708090a0b0c0d0e01\nages\ncount\n",
    );
    let told = told(&rt, script);
    let want =
        b"ok\n00010203-0405-0607-0809-0a0b0c0d0e02 70 closed\n00010203-0405-0607-0809-0a0b0c0d0e03 40 http\nend\nagents 2\nhere 2\nhealthy 2\nunhealthy 0\nconnections 3\nreports 3\norders 0\nrollouts 0\nend\n";
    expect_same(&rt, &told.as_slice(), &want.as_slice());
}

// A rollout and the offer that it made are counted.
#[test]
fn offers_and_rollouts_are_counted(rt: HostRuntime) {
    let mut script = reported(&rt);
    script.piece(&rt, OPERATOR, b"rollout main 1/0 x - 6869\n");
    report(&rt, &mut script, 1, 2, SAME);
    script.piece(&rt, OPERATOR, b"count\n");
    let told = told(&rt, script);
    let want =
        b"ok\nagents 3\nhere 3\nhealthy 3\nunhealthy 0\nconnections 3\nreports 4\norders 1\nrollouts 1\nend\n";
    expect_same(&rt, &told.as_slice(), &want.as_slice());
}
