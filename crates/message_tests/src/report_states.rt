// What reports are full, and what they say.
use crate::comparing::expect_same;
use message_deltas::{carried_fields, empty_state, is_full, merge, replace, state_of};
use message_reports::decoding::decode_report;
use message_values::State;
use plain_values::Plain;
use std::process::Abort;

// The state that a full report says.
pub fn state(rt: &(impl Abort + AllocGlobal), report: &[u8]) -> State {
    let report = decode_report(rt.alloc(), report).expect(rt, "a report");
    assert!(rt; is_full(&report));
    state_of(rt.alloc(), &report).expect(rt, "memory")
}

fn is_full_report(rt: &(impl Abort + AllocGlobal), report: &[u8]) -> bool {
    let report = decode_report(rt.alloc(), report).expect(rt, "a report");
    is_full(&report)
}

// The bits of the capabilities are 0x4 for the effective configuration, 0x10 for the packages, 0x800 for the health, 0x1000
// for the remote configuration and 0x4000 for the components. 0x9 obliges to nothing: that packages are accepted, 0x8, is
// another bit than that their statuses are reported.
#[test]
fn obliged_parts(rt: HostRuntime) {
    for (report, whole) in [
        (b"\x1a\x00\x20\x09".as_slice(), true),
        (b"\x20\x09", false),
        (b"\x1a\x00\x20\x04", false),
        (b"\x1a\x00\x20\x04\x32\x00", true),
        (b"\x1a\x00\x20\x10", false),
        (b"\x1a\x00\x20\x10\x42\x00", true),
        (b"\x1a\x00\x20\x80\x10", false),
        (b"\x1a\x00\x20\x80\x10\x2a\x00", true),
        (b"\x1a\x00\x20\x80\x20", false),
        (b"\x1a\x00\x20\x80\x20\x3a\x00", true),
        (b"\x1a\x00\x20\x80\x80\x01", false),
        (b"\x1a\x00\x20\x80\x80\x01\x72\x00", true),
    ] {
        assert!(rt; is_full_report(&rt, report) == whole);
    }
}

// The state held, with the parts that the report carries in place of its own.
fn merged(rt: &(impl Abort + AllocGlobal), held: &[u8], report: &[u8]) -> State {
    let mut held = state(rt, held);
    let report = decode_report(rt.alloc(), report).expect(rt, "a report");
    merge(rt.alloc(), &mut held, &report).expect(rt, "memory");
    held
}

fn is_merged(rt: &(impl Abort + AllocGlobal), held: &[u8], report: &[u8], now: &[u8]) -> bool {
    let merged = merged(rt, held, report);
    let now = state(rt, now);
    merged.same(&now)
}

// A healthy agent without custom capabilities.
const HEALTHY: &[u8] = b"\x1a\x00\x20\x81\x10\x2a\x02\x08\x01";

#[test]
fn reports_are_merged(rt: HostRuntime) {
    for (report, now) in [
        // what isn't carried stays
        (b"\x20\x81\x10".as_slice(), HEALTHY),
        // a part is replaced as a whole
        (
            b"\x20\x81\x10\x2a\x04\x1a\x02no",
            b"\x1a\x00\x20\x81\x10\x2a\x04\x1a\x02no",
        ),
        // a part that isn't obliged comes too
        (
            b"\x20\x81\x10\x3a\x02\x10\x01\x62\x03\x0a\x01x",
            b"\x1a\x00\x20\x81\x10\x2a\x02\x08\x01\x3a\x02\x10\x01\x62\x03\x0a\x01x",
        ),
        // of components their hash alone
        (
            b"\x20\x81\x10\x72\x0a\x0a\x05\x0a\x01x\x12\x00\x12\x01a",
            b"\x1a\x00\x20\x81\x10\x2a\x02\x08\x01\x72\x03\x12\x01a",
        ),
    ] {
        assert!(rt; is_merged(&rt, HEALTHY, report, now));
    }
}

// The state of which a report's parts were told and no others.
fn told(rt: &(impl Abort + AllocGlobal), report: &[u8]) -> State {
    let report = decode_report(rt.alloc(), report).expect(rt, "a report");
    let fields = carried_fields(rt.alloc(), &report).expect(rt, "memory");
    let mut state = empty_state(rt.alloc());
    replace(&mut state, fields);
    state
}

#[test]
fn parts_are_told(rt: HostRuntime) {
    let told = told(&rt, HEALTHY);
    expect_same(&rt, &told.capabilities, &0x801);
    assert!(rt; told.health.is_some());
    assert!(rt; told.effective.is_none());
}
