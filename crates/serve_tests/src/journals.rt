// What `serve --journal` notes of the lines of operators. The hash is what Python's `hashlib.sha256` gives of `hi`.
use crate::comparing::expect_same;
use crate::healthy::Healthy;
use crate::playing::Script;
use crate::rollout_agents::FULL;
use crate::rollout_sessions::report;
use crate::serve_runs::options;
use command_serve::{FnJudge, ServeStatus, run_serve};
use edge_devices::{Kind, MemoryEntropy, MemorySink};
use message_handlers::Handlers;
use std::process::Abort;

// The connection of the operator.
const OPERATOR: u64 = 9;

// The note of the addresses, which are one letter each.
const LISTENING: &[u8] = b"listening http h websocket w operators o\n";

// Whether the events end by `stop`, and what was noted of them by a sink whose calls with these numbers fail and take two bytes.
fn noted(
    rt: &(impl Abort + AllocGlobal),
    script: Script,
    journal: bool,
    failing: &[u64],
) -> (bool, Vec<u8>) {
    let mut options = options(rt, script.len(), false);
    options.journal = journal;
    let mut wire = script.wire(rt);
    let handlers = Handlers::new(rt.alloc());
    let mut entropy = MemoryEntropy::new(rt.alloc(), Vec::new(rt.alloc()), Vec::new(rt.alloc()));
    let mut sink = MemorySink::new(rt.alloc(), 0, Vec::new(rt.alloc()));
    let failing = Vec::from_slice(rt.alloc(), failing).expect(rt, "memory");
    let mut notes = MemorySink::new(rt.alloc(), 2, failing);
    let status = run_serve(
        rt.alloc(),
        &options,
        FnJudge::new(Healthy),
        &mut sink,
        &mut notes,
        &handlers,
        &mut wire,
        &mut entropy,
    );
    let told = Vec::from_slice(rt.alloc(), notes.bytes()).expect(rt, "memory");
    drop(notes);
    drop(sink);
    drop(entropy);
    drop(handlers);
    drop(wire);
    drop(options);
    (matches!(status, ServeStatus::Stopped), told)
}

// Questions, words that are no line, orders that are refused and such as are done, until the run ends.
fn ordered(rt: &(impl Abort + AllocGlobal)) -> Script {
    let mut script = Script::new(rt.alloc());
    script.open(rt, 1, Kind::Ws);
    script.open(rt, OPERATOR, Kind::Operator);
    report(rt, &mut script, 1, 1, FULL);
    script.piece(
        rt,
        OPERATOR,
        b"list\nconfig 000102030405060708090a0b0c0d0e01 x - 6869\nre",
    );
    script.piece(
        rt,
        OPERATOR,
        b"start 000102030405060708090a0b0c0d0e02\nno line\ncount\nstop\n",
    );
    script
}

#[test]
fn orders_are_noted(rt: HostRuntime) {
    let (stopped, told) = noted(&rt, ordered(&rt), true, &[]);
    assert!(rt; stopped);
    let want =
        b"listening http h websocket w operators o\norder 4 9 config 00010203-0405-0607-0809-0a0b0c0d0e01 x - 8f434346648f6b96df89dda901c5176b10a6d83961dd3c1ac88b59b2dc327aa4: ok\norder 5 9 restart 00010203-0405-0607-0809-0a0b0c0d0e02: refused: unknown agent\norder 5 9 stop: ok\n";
    expect_same(&rt, &told.as_slice(), &want.as_slice());
}

#[test]
fn nothing_is_noted_where_no_journal_is_kept(rt: HostRuntime) {
    let (stopped, told) = noted(&rt, ordered(&rt), false, &[]);
    assert!(rt; stopped);
    expect_same(&rt, &told.as_slice(), &LISTENING);
}

// The sink takes the line of the addresses in seven calls, and two bytes of the first part of the first order: the other orders are noted, and the run goes on.
#[test]
fn a_line_that_is_cut_changes_nothing_else(rt: HostRuntime) {
    let (stopped, told) = noted(&rt, ordered(&rt), true, &[7]);
    assert!(rt; stopped);
    let want =
        b"listening http h websocket w operators o\nororder 5 9 restart 00010203-0405-0607-0809-0a0b0c0d0e02: refused: unknown agent\norder 5 9 stop: ok\n";
    expect_same(&rt, &told.as_slice(), &want.as_slice());
}
