// A rollout over a server in memory, point by point.
use crate::comparing::expect_same;
use crate::healthy::Healthy;
use crate::playing::desk;
use crate::rollout_agents::{FULL, SAME, begin, bytes_of, progress, status, uid};
use message_reports::decoding::decode_report;
use server_core::Server;
use server_waves::{BeginFail, Candidates, FnJudge, ServerDesk};
use std::process::Abort;

// The report reaches the server. It tells whether the reply carries a configuration.
fn report(
    rt: &(impl Abort + AllocGlobal),
    server: &mut Server,
    last: u8,
    number: u8,
    rest: &[u8],
) -> bool {
    let bytes = bytes_of(rt, last, number, rest);
    let report = decode_report(rt.alloc(), bytes.as_slice()).expect(rt, "a report");
    let reply = server.handle_owned(report, None).expect(rt, "memory");
    let carries = reply.remote_config.is_some();
    drop(reply);
    carries
}

// The agent joins where it can, and there is a point.
fn point(rt: &(impl Abort + AllocGlobal), desk: &mut ServerDesk, last: u8) {
    let judge = FnJudge::new(Healthy);
    let mut candidates = Candidates::everyone(rt.alloc());
    let ServerDesk { server, rollouts } = desk;
    let newly = rollouts.come_to_points(rt.alloc(), server, &judge, &[uid(last)], &mut candidates);
    drop(newly.expect(rt, "memory"));
}

// The first agent has the offer, and the second one waits.
fn offer_to_first(rt: &(impl Abort + AllocGlobal), desk: &mut ServerDesk) {
    assert!(rt; !report(rt, &mut desk.server, 1, 1, FULL));
    point(rt, desk, 1);
    expect_same(rt, &progress(rt, desk), &(0, 1, 0, 0, false));
    assert!(rt; !report(rt, &mut desk.server, 2, 1, FULL));
    point(rt, desk, 2);
    expect_same(rt, &progress(rt, desk), &(1, 1, 0, 0, false));
    assert!(rt; report(rt, &mut desk.server, 1, 2, SAME));
    point(rt, desk, 1);
    expect_same(rt, &progress(rt, desk), &(1, 1, 0, 0, false));
}

// The first agent applied it, and the second one has it and fails.
fn fail_at_second(rt: &(impl Abort + AllocGlobal), desk: &mut ServerDesk) {
    assert!(rt; !report(rt, &mut desk.server, 1, 3, status(rt, 1).as_slice()));
    point(rt, desk, 1);
    expect_same(rt, &progress(rt, desk), &(0, 1, 1, 0, false));
    assert!(rt; report(rt, &mut desk.server, 2, 2, SAME));
    point(rt, desk, 2);
    assert!(rt; !report(rt, &mut desk.server, 2, 3, status(rt, 3).as_slice()));
    point(rt, desk, 2);
    expect_same(rt, &progress(rt, desk), &(0, 0, 1, 1, true));
}

// A rollout over both agents, which ends with the failure.
#[test]
fn halts_behind_a_failure(rt: HostRuntime) {
    let mut desk = desk(rt.alloc());
    begin(&rt, &mut desk, b"hi").expect(&rt, "a rollout");
    offer_to_first(&rt, &mut desk);
    fail_at_second(&rt, &mut desk);
    drop(desk);
}

#[test]
fn an_offer_too_large_begins_no_rollout(rt: HostRuntime) {
    let body = vec![in rt.alloc(); 0u8; 1_048_576].expect(&rt, "memory");
    let mut desk = desk(rt.alloc());
    let begun = begin(&rt, &mut desk, body.as_slice());
    let none = desk.rollouts.list().is_empty();
    drop(desk);
    assert!(rt; matches!(begun, Err(BeginFail::TooLarge)));
    assert!(rt; none);
}
