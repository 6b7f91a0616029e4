// What is told of when agents reported, and of how many there are. The texts follow from the table of lines by hand.
use crate::exchanges::desk;
use crate::operator_words::{HEALTHY, LEAVING, SILENT, hear};
use plain_values::Uid;
use server_lines::{Sightings, read_line, run_order};
use server_waves::ServerDesk;
use std::collections::BTreeMap;
use std::process::Abort;

// What a question is asked over.
#[derive(Drop)]
struct Watch {
    desk: ServerDesk,
    seen: Sightings,
    known: BTreeMap<u64, u64>,
}

// Nothing is there but these connections.
fn empty(rt: &(impl Abort + AllocGlobal), known: BTreeMap<u64, u64>) -> Watch {
    Watch {
        desk: desk(rt.alloc()),
        seen: Sightings::new(rt.alloc()),
        known,
    }
}

// The agents 1, which is healthy, 2, which isn't and has left, and 3, which tells no health, and the connections 7 and 9.
fn three(rt: &(impl Abort + AllocGlobal)) -> Watch {
    let known = BTreeMap::from_array(rt.alloc(), [(7, 0), (9, 0)]).expect(rt, "memory");
    let mut watch = empty(rt, known);
    hear(rt, &mut watch.desk.server, &[1; 16], HEALTHY);
    hear(rt, &mut watch.desk.server, &[2; 16], LEAVING);
    hear(rt, &mut watch.desk.server, &[3; 16], SILENT);
    watch
}

// A report of the agent is taken in this second.
fn note(
    rt: &(impl Abort + AllocGlobal),
    seen: &mut Sightings,
    second: u64,
    agent: u8,
    conn: u64,
    ws: bool,
) {
    seen.begin(second);
    seen.note(&Uid::of([agent; 16]), conn, ws)
        .expect(rt, "memory");
}

// Whether the line gets this answer.
fn answers(rt: &(impl Abort + AllocGlobal), watch: &mut Watch, line: &[u8], want: &str) -> bool {
    let order = read_line(rt.alloc(), line)
        .expect(rt, "memory")
        .expect(rt, "an order");
    let text = run_order(
        rt.alloc(),
        &mut watch.desk,
        &watch.seen,
        &watch.known,
        order,
    )
    .expect(rt, "memory");
    text.as_str() == want
}

// The last report counts, by whatever connection it came. The second of agent 4 is behind that of the question, and agent 5 has
// a record of an earlier run.
#[test]
fn ages(rt: HostRuntime) {
    let mut watch = three(&rt);
    hear(&rt, &mut watch.desk.server, &[5; 16], HEALTHY);
    hear(&rt, &mut watch.desk.server, &[4; 16], HEALTHY);
    assert!(rt; answers(&rt, &mut watch, b"ages", "end\n"));
    for (second, agent, conn, ws) in [
        (90, 1, 8, true),
        (100, 1, 7, true),
        (161, 4, 9, true),
        (130, 2, 8, true),
        (159, 3, 9, false),
    ] {
        note(&rt, &mut watch.seen, second, agent, conn, ws);
    }
    watch.seen.begin(160);
    let want =
        "01010101-0101-0101-0101-010101010101 60 open\n02020202-0202-0202-0202-020202020202 30 closed\n03030303-0303-0303-0303-030303030303 1 http\n04040404-0404-0404-0404-040404040404 0 open\nend\n";
    assert!(rt; answers(&rt, &mut watch, b"ages", want));
    drop(watch);
}

// An offer that takes another's place counts once, and a restart that waits doesn't count.
#[test]
fn counts(rt: HostRuntime) {
    let mut watch = three(&rt);
    for (second, agent, conn, ws) in [(90, 1, 7, true), (90, 1, 7, true), (100, 2, 8, false)] {
        note(&rt, &mut watch.seen, second, agent, conn, ws);
    }
    for (line, want) in [
        (
            b"count".as_slice(),
            "agents 3\nhere 2\nhealthy 1\nunhealthy 1\nconnections 2\nreports 3\norders 0\nrollouts 0\nend\n",
        ),
        (b"config 01010101-0101-0101-0101-010101010101 f - -", "ok\n"),
        (
            b"config 01010101-0101-0101-0101-010101010101 f - 31",
            "ok\n",
        ),
        (
            b"connect 01010101-0101-0101-0101-010101010101 http://h",
            "ok\n",
        ),
        (
            b"connect 02020202-0202-0202-0202-020202020202 http://h",
            "ok\n",
        ),
        (
            b"packages 03030303-0303-0303-0303-030303030303 p 1 http://h/p -",
            "ok\n",
        ),
        (b"restart 03030303-0303-0303-0303-030303030303", "ok\n"),
        (b"rollout main 1/0 x - 6869", "ok\n"),
        (
            b"count",
            "agents 3\nhere 2\nhealthy 1\nunhealthy 1\nconnections 2\nreports 3\norders 4\nrollouts 1\nend\n",
        ),
        (b"withdraw 01010101-0101-0101-0101-010101010101", "ok\n"),
        (b"forget left", "ok\n"),
        (b"finish main", "ok\n"),
        (
            b"count",
            "agents 2\nhere 2\nhealthy 1\nunhealthy 0\nconnections 2\nreports 3\norders 1\nrollouts 0\nend\n",
        ),
    ] {
        assert!(rt; answers(&rt, &mut watch, line, want));
    }
    drop(watch);
}

#[test]
fn count_of_nothing(rt: HostRuntime) {
    let mut watch = empty(&rt, BTreeMap::new(rt.alloc()));
    let want =
        "agents 0\nhere 0\nhealthy 0\nunhealthy 0\nconnections 0\nreports 0\norders 0\nrollouts 0\nend\n";
    assert!(rt; answers(&rt, &mut watch, b"count", want));
    drop(watch);
}

const FORGET: &[u8] = b"forget 02020202-0202-0202-0202-020202020202";

const ALL: &str =
    "01010101-0101-0101-0101-010101010101 1 open\n02020202-0202-0202-0202-020202020202 1 closed\n03030303-0303-0303-0303-030303030303 1 http\nend\n";

// A report of each of the three, a second before the one that goes on.
fn note_three(rt: &(impl Abort + AllocGlobal), seen: &mut Sightings) {
    note(rt, seen, 5, 1, 7, true);
    note(rt, seen, 5, 2, 8, true);
    note(rt, seen, 5, 3, 9, false);
    seen.begin(6);
}

// The mark of an agent that is forgotten goes, so that it has none where it comes back. Reports stay counted.
#[test]
fn mark_of_a_forgotten_agent(rt: HostRuntime) {
    let mut watch = three(&rt);
    note_three(&rt, &mut watch.seen);
    watch.seen.keep_held(&watch.desk.server);
    let all = answers(&rt, &mut watch, b"ages", ALL);
    let forgotten = answers(&rt, &mut watch, FORGET, "ok\n");
    watch.seen.keep_held(&watch.desk.server);
    hear(&rt, &mut watch.desk.server, &[2; 16], HEALTHY);
    let two =
        "01010101-0101-0101-0101-010101010101 1 open\n03030303-0303-0303-0303-030303030303 1 http\nend\n";
    let others = answers(&rt, &mut watch, b"ages", two);
    let counts =
        "agents 3\nhere 3\nhealthy 2\nunhealthy 0\nconnections 2\nreports 3\norders 0\nrollouts 0\nend\n";
    let counted = answers(&rt, &mut watch, b"count", counts);
    drop(watch);
    assert!(rt; all);
    assert!(rt; forgotten);
    assert!(rt; others);
    assert!(rt; counted);
}

// The mark stays where there are no more marks than records.
#[test]
fn mark_that_stays(rt: HostRuntime) {
    let mut watch = three(&rt);
    note_three(&rt, &mut watch.seen);
    let forgotten = answers(&rt, &mut watch, FORGET, "ok\n");
    hear(&rt, &mut watch.desk.server, &[4; 16], HEALTHY);
    watch.seen.keep_held(&watch.desk.server);
    hear(&rt, &mut watch.desk.server, &[2; 16], HEALTHY);
    let all = answers(&rt, &mut watch, b"ages", ALL);
    drop(watch);
    assert!(rt; forgotten);
    assert!(rt; all);
}
