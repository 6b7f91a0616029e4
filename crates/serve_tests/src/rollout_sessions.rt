// A rollout in a session over a wire in memory.
use crate::comparing::expect_same;
use crate::healthy::Healthy;
use crate::playing::{Script, desk, joined};
use crate::rollout_agents::{FULL, HASH, SAME, begin, bytes_of, progress, status};
use edge_devices::{Kind, MemoryEntropy, MemorySink, MemoryWire, WireCall};
use message_handlers::Handlers;
use server_deliveries::{Delivery, serve_delivering};
use server_sessions::ServeEnd;
use server_waves::{FnJudge, ServerDesk};
use std::alloc::Global;
use std::process::Abort;

// The agent reports on its connection of WebSocket, which has its number.
pub fn report(
    rt: &(impl Abort + AllocGlobal),
    script: &mut Script,
    last: u8,
    number: u8,
    rest: &[u8],
) {
    let report = bytes_of(rt, last, number, rest);
    let payload = joined(rt, &[b"\x00", report.as_slice()]);
    script.piece(rt, last as u64, payload.as_slice());
}

// Whether the hash stands in the bytes.
fn has_hash(bytes: &[u8]) -> bool {
    bytes
        .windows(HASH.len())
        .any(|part| part == HASH.as_slice())
}

// For each send, in order, its connection and whether the configuration is in it.
fn offers(rt: &(impl Abort + AllocGlobal), calls: &[WireCall]) -> Vec<(u64, bool)> {
    let mut offers = Vec::new(rt.alloc());
    for call in calls {
        if let WireCall::Sent { conn, bytes } = call {
            let offer = (*conn, has_hash(bytes.as_slice()));
            offers.push(offer).expect(rt, "memory");
        }
    }
    offers
}

fn two_agents(rt: &(impl Abort + AllocGlobal)) -> Script {
    let mut script = Script::new(rt.alloc());
    script.open(rt, 1, Kind::Ws);
    script.open(rt, 2, Kind::Ws);
    report(rt, &mut script, 1, 1, FULL);
    report(rt, &mut script, 2, 1, FULL);
    report(rt, &mut script, 1, 2, SAME);
    report(rt, &mut script, 1, 3, status(rt, 1).as_slice());
    report(rt, &mut script, 2, 2, SAME);
    report(rt, &mut script, 2, 3, status(rt, 3).as_slice());
    script
}

// How the session from this desk ends behind so many events of the wire at the latest, where agents without health and healthy ones are fine.
pub fn serve(
    alloc: Global,
    desk: &mut ServerDesk,
    wire: &mut MemoryWire,
    turns: u64,
    push: bool,
) -> Result<u64, ServeEnd> {
    let handlers = Handlers::new(alloc);
    let mut entropy = MemoryEntropy::new(alloc, Vec::new(alloc), Vec::new(alloc));
    let mut delivery = Delivery::new(alloc, FnJudge::new(Healthy), push);
    let mut notes = MemorySink::new(alloc, 0, Vec::new(alloc));
    let end = serve_delivering(
        alloc,
        desk,
        &handlers,
        wire,
        &mut entropy,
        turns,
        &mut delivery,
        &mut notes,
        false,
    );
    drop(notes);
    drop(delivery);
    drop(entropy);
    drop(handlers);
    end
}

// Whether all turns were taken, and how far a rollout of width 1 is then, which was there from the beginning on.
fn rolled(
    rt: &(impl Abort + AllocGlobal),
    wire: &mut MemoryWire,
    turns: u64,
    push: bool,
) -> (bool, (u64, u64, u64, u64, bool)) {
    let mut desk = desk(rt.alloc());
    begin(rt, &mut desk, b"hi").expect(rt, "a rollout");
    let end = serve(rt.alloc(), &mut desk, wire, turns, push);
    let progress = progress(rt, &desk);
    drop(desk);
    (matches!(end, Err(ServeEnd::TurnsSpent)), progress)
}

#[test]
fn second_replies_carry_the_offer(rt: HostRuntime) {
    let mut wire = two_agents(&rt).wire(&rt);
    let (spent, progress) = rolled(&rt, &mut wire, 8, false);
    let offers = offers(&rt, wire.calls());
    drop(wire);
    assert!(rt; spent);
    expect_same(&rt, &progress, &(0, 0, 1, 1, true));
    let want = [
        (1, false),
        (2, false),
        (1, true),
        (1, false),
        (2, true),
        (2, false),
    ];
    expect_same(&rt, &offers.as_slice(), &want.as_slice());
}

// With pushes each agent has the offer on its connection as soon as its turn comes, also behind another one's report; and again with the reply to its next
// report, where that doesn't tell of it.
#[test]
fn offers_are_pushed_as_turns_come(rt: HostRuntime) {
    let mut wire = two_agents(&rt).wire(&rt);
    let (spent, progress) = rolled(&rt, &mut wire, 8, true);
    let offers = offers(&rt, wire.calls());
    drop(wire);
    assert!(rt; spent);
    expect_same(&rt, &progress, &(0, 0, 1, 1, true));
    let want = [
        (1, false),
        (1, true),
        (2, false),
        (1, true),
        (1, false),
        (2, true),
        (2, true),
        (2, false),
    ];
    expect_same(&rt, &offers.as_slice(), &want.as_slice());
}

// Two agents, of which the second says that it applied the configuration before its turn comes, and then an event of nobody.
fn early_agent(rt: &(impl Abort + AllocGlobal)) -> Script {
    let early = joined(rt, &[b"\x1a\x00\x2a\x02\x08\x01", status(rt, 1).as_slice()]);
    let mut script = Script::new(rt.alloc());
    script.open(rt, 1, Kind::Ws);
    script.open(rt, 2, Kind::Ws);
    report(rt, &mut script, 1, 1, FULL);
    report(rt, &mut script, 2, 1, early.as_slice());
    report(rt, &mut script, 1, 2, status(rt, 1).as_slice());
    script.open(rt, 3, Kind::Ws);
    script
}

// How far a rollout of width 1 is behind so many events of these.
fn progress_behind(
    rt: &(impl Abort + AllocGlobal),
    script: Script,
    turns: u64,
) -> (u64, u64, u64, u64, bool) {
    let mut wire = script.wire(rt);
    let (_, progress) = rolled(rt, &mut wire, turns, false);
    drop(wire);
    progress
}

// An agent whose record says before its turn that it applied the configuration has the offer with its turn, and counts as applied behind the next event,
// whosever that is.
#[test]
fn the_next_event_decides_an_early_agent(rt: HostRuntime) {
    let waits = progress_behind(&rt, early_agent(&rt), 4);
    expect_same(&rt, &waits, &(1, 1, 0, 0, false));
    let offered = progress_behind(&rt, early_agent(&rt), 5);
    expect_same(&rt, &offered, &(0, 1, 1, 0, false));
    let applied = progress_behind(&rt, early_agent(&rt), 6);
    expect_same(&rt, &applied, &(0, 0, 2, 0, false));
}
