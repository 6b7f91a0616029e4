// Reports of whole states and of what changed in them, in bytes, which follow from the rules by hand.
use crate::report_states::state;
use message_deltas::{delta, full, must_be_whole};
use message_reports::encoding::encode_report;
use message_values::{AgentToServer, ComponentDetails, State};
use plain_values::{List, Map, Text, Uid};
use std::process::Abort;

// The identifier of all reports here.
fn uid() -> Uid {
    Uid::of(*b"abcdefghijklmnop")
}

fn is_written(rt: &(impl Abort + AllocGlobal), report: &AgentToServer, bytes: &[u8]) -> bool {
    let written = encode_report(rt.alloc(), report).expect(rt, "memory");
    written.as_slice() == bytes
}

// Whether this is the whole report, with the number 300, of the state that a full report says.
fn is_whole(rt: &(impl Abort + AllocGlobal), said: &[u8], bytes: &[u8]) -> bool {
    let state = state(rt, said);
    let report = full(rt.alloc(), &uid(), 300, &state, None).expect(rt, "memory");
    drop(state);
    let written = is_written(rt, &report, bytes);
    drop(report);
    written
}

// Custom capabilities are in it even where there are none; of components there is the hash alone.
#[test]
fn whole_reports(rt: HostRuntime) {
    for (said, bytes) in [
        (
            b"\x1a\x00\x20\x81\x10\x2a\x02\x08\x01".as_slice(),
            b"\x0a\x10abcdefghijklmnop\x10\xac\x02\x1a\x00\x20\x81\x10\x2a\x02\x08\x01\x62\x00".as_slice(),
        ),
        (
            b"\x1a\x00\x20\x95\xa0\x01\x32\x00\x3a\x00\x42\x00\x62\x03\x0a\x01x\x72\x0a\x0a\x05\x0a\x01x\x12\x00\x12\x01a",
            b"\x0a\x10abcdefghijklmnop\x10\xac\x02\x1a\x00\x20\x95\xa0\x01\x32\x00\x3a\x00\x42\x00\x62\x03\x0a\x01x\x72\x03\x12\x01a",
        ),
    ] {
        assert!(rt; is_whole(&rt, said, bytes));
    }
}

// Whether the report of the changes, with the number 2, is this one; none where no delta can say them.
fn is_change(
    rt: &(impl Abort + AllocGlobal),
    before: &State,
    now: &State,
    bytes: Option<&[u8]>,
) -> bool {
    if must_be_whole(before, now, false) {
        return bytes.is_none();
    }
    let report = delta(rt.alloc(), &uid(), 2, before, now, None).expect(rt, "memory");
    let written = is_written(rt, &report, bytes.unwrap_or(b""));
    drop(report);
    written
}

// The same, where full reports say the two states.
fn tells_change(
    rt: &(impl Abort + AllocGlobal),
    before: &[u8],
    now: &[u8],
    bytes: Option<&[u8]>,
) -> bool {
    let before = state(rt, before);
    let now = state(rt, now);
    let told = is_change(rt, &before, &now, bytes);
    drop(before);
    drop(now);
    told
}

#[test]
fn changes(rt: HostRuntime) {
    let healthy = b"\x1a\x00\x20\x81\x10\x2a\x02\x08\x01".as_slice();
    for (now, bytes) in [
        // nothing
        (
            healthy,
            Some(b"\x0a\x10abcdefghijklmnop\x10\x02\x20\x81\x10".as_slice()),
        ),
        // the health, one of two obliged parts
        (
            b"\x1a\x00\x20\x81\x10\x2a\x04\x1a\x02no",
            Some(b"\x0a\x10abcdefghijklmnop\x10\x02\x20\x81\x10\x2a\x04\x1a\x02no"),
        ),
        // the description, the other one
        (
            b"\x1a\x07\x0a\x05\x0a\x03key\x20\x81\x10\x2a\x02\x08\x01",
            Some(b"\x0a\x10abcdefghijklmnop\x10\x02\x1a\x07\x0a\x05\x0a\x03key\x20\x81\x10"),
        ),
        // both
        (
            b"\x1a\x07\x0a\x05\x0a\x03key\x20\x81\x10\x2a\x04\x1a\x02no",
            None,
        ),
        // a part that isn't obliged
        (
            b"\x1a\x00\x20\x81\x10\x2a\x02\x08\x01\x62\x03\x0a\x01x",
            Some(b"\x0a\x10abcdefghijklmnop\x10\x02\x20\x81\x10\x62\x03\x0a\x01x"),
        ),
        // the capabilities
        (b"\x1a\x00\x20\x01\x2a\x02\x08\x01", None),
    ] {
        assert!(rt; tells_change(&rt, healthy, now, bytes));
    }
}

// Where the description is all that is obliged, a delta that has it would be full.
#[test]
fn description_alone(rt: HostRuntime) {
    let before = b"\x1a\x00\x20\x01".as_slice();
    let now = b"\x1a\x07\x0a\x05\x0a\x03key\x20\x01".as_slice();
    assert!(rt; tells_change(&rt, before, now, None));
}

// The one component `x`, without details of its own.
fn component(rt: &(impl Abort + AllocGlobal)) -> Map<ComponentDetails> {
    let mut components = Map::new(rt.alloc());
    let details = ComponentDetails {
        metadata: List::new(rt.alloc()),
        sub_component_map: Map::new(rt.alloc()),
    };
    let name = String::from_str(rt.alloc(), "x").expect(rt, "memory");
    components.put(Text::of(name), details).expect(rt, "memory");
    components
}

// Whether this is the whole report of a state with these components; the state has a hash of components.
fn is_whole_with(
    rt: &(impl Abort + AllocGlobal),
    now: &State,
    components: &Map<ComponentDetails>,
    bytes: &[u8],
) -> bool {
    if now.components.is_none() {
        return false;
    }
    let report = full(rt.alloc(), &uid(), 1, now, Some(components)).expect(rt, "memory");
    let written = is_written(rt, &report, bytes);
    drop(report);
    written
}

// The same of the report of the changes.
fn is_change_with(
    rt: &(impl Abort + AllocGlobal),
    before: &State,
    now: &State,
    components: &Map<ComponentDetails>,
    bytes: &[u8],
) -> bool {
    if now.components.is_none() {
        return false;
    }
    let report = delta(rt.alloc(), &uid(), 2, before, now, Some(components)).expect(rt, "memory");
    let written = is_written(rt, &report, bytes);
    drop(report);
    written
}

// The state that a full report says, under the hash `a` of its components.
const UNDER_HASH: &[u8] = b"\x1a\x00\x20\x81\x90\x01\x2a\x02\x08\x01\x72\x03\x12\x01a";

#[test]
fn components_in_a_whole_report(rt: HostRuntime) {
    let now = state(&rt, UNDER_HASH);
    let components = component(&rt);
    let bytes =
        b"\x0a\x10abcdefghijklmnop\x10\x01\x1a\x00\x20\x81\x90\x01\x2a\x02\x08\x01\x62\x00\x72\x0a\x0a\x05\x0a\x01x\x12\x00\x12\x01a";
    let told = is_whole_with(&rt, &now, &components, bytes);
    drop(components);
    drop(now);
    assert!(rt; told);
}

// They come though nothing differs.
#[test]
fn components_in_a_delta(rt: HostRuntime) {
    let now = state(&rt, UNDER_HASH);
    let components = component(&rt);
    let bytes =
        b"\x0a\x10abcdefghijklmnop\x10\x02\x20\x81\x90\x01\x72\x0a\x0a\x05\x0a\x01x\x12\x00\x12\x01a";
    let told = is_change_with(&rt, &now, &now, &components, bytes);
    drop(components);
    drop(now);
    assert!(rt; told);
}

fn is_due_whole(
    rt: &(impl Abort + AllocGlobal),
    before: &[u8],
    now: &[u8],
    detailed: bool,
) -> bool {
    let before = state(rt, before);
    let now = state(rt, now);
    let whole = must_be_whole(&before, &now, detailed);
    drop(before);
    drop(now);
    whole
}

// The description and the components are obliged. Components that are told count as differing, whatever their hash.
#[test]
fn components_count_as_differing(rt: HostRuntime) {
    let before = b"\x1a\x00\x20\x81\x80\x01\x72\x03\x12\x01a".as_slice();
    for (now, detailed, whole) in [
        (before, true, false),
        (
            b"\x1a\x07\x0a\x05\x0a\x03key\x20\x81\x80\x01\x72\x03\x12\x01a".as_slice(),
            false,
            false,
        ),
        (
            b"\x1a\x07\x0a\x05\x0a\x03key\x20\x81\x80\x01\x72\x03\x12\x01a",
            true,
            true,
        ),
        (
            b"\x1a\x07\x0a\x05\x0a\x03key\x20\x81\x80\x01\x72\x03\x12\x01b",
            false,
            true,
        ),
    ] {
        assert!(rt; is_due_whole(&rt, before, now, detailed) == whole);
    }
}
