// Lines, read and carried out by a server that holds one agent or three. The texts follow from the table of lines by hand.
use crate::exchanges::{answered, desk};
use message_reports::decoding::decode_report;
use plain_values::Text;
use server_core::Server;
use server_lines::read_line;
use server_waves::ServerDesk;
use std::process::Abort;

const UID: &[u8] = b"\x00\x01\x02\x03\x04\x05\x06\x07\x08\x09\x0a\x0b\x0c\x0d\x0e\x0f";

// A healthy agent's first report, behind its identifier.
pub const HEALTHY: &[u8] = b"\x10\x01\x1a\x00\x20\x81\x10\x2a\x02\x08\x01";

// The first report of one that isn't, and disconnects.
pub const LEAVING: &[u8] = b"\x10\x01\x1a\x00\x20\x81\x10\x2a\x00\x4a\x00";

// The report with the number 300 of one that tells no health.
pub const SILENT: &[u8] = b"\x10\xac\x02\x1a\x00\x20\x01";

// The first report of one that tells a component named x without details, under the hash 61.
const TELLING: &[u8] =
    b"\x10\x01\x1a\x00\x20\x81\x90\x01\x2a\x02\x08\x01\x72\x0a\x0a\x05\x0a\x01x\x12\x00\x12\x01a";

// Has the agent report.
pub fn hear(rt: &(impl Abort + AllocGlobal), server: &mut Server, uid: &[u8], report: &[u8]) {
    let mut bytes = Vec::from_slice(rt.alloc(), b"\x0a\x10").expect(rt, "memory");
    bytes.extend_from_slice(uid).expect(rt, "memory");
    bytes.extend_from_slice(report).expect(rt, "memory");
    let report = decode_report(rt.alloc(), &bytes).expect(rt, "a report");
    let reply = server.handle_owned(report, None).expect(rt, "memory");
    drop(reply);
}

// The answer to a line.
fn answer(rt: &(impl Abort + AllocGlobal), desk: &mut ServerDesk, line: &[u8]) -> Text {
    match read_line(rt.alloc(), line).expect(rt, "memory") {
        Some(order) => answered(rt, desk, order),
        None => Text::of(String::from_str(rt.alloc(), "refused: words\n").expect(rt, "memory")),
    }
}

pub fn is_answer(
    rt: &(impl Abort + AllocGlobal),
    desk: &mut ServerDesk,
    line: &[u8],
    want: &str,
) -> bool {
    let answer = answer(rt, desk, line);
    answer.as_str() == want
}

pub const WORDS: &str = "refused: words\n";

pub const UNKNOWN: &str = "refused: unknown agent\n";

#[test]
fn operator_words(rt: HostRuntime) {
    let mut desk = desk(rt.alloc());
    hear(&rt, &mut desk.server, UID, HEALTHY);
    for (line, want) in [
        (
            b"list".as_slice(),
            "00010203-0405-0607-0809-0a0b0c0d0e0f 1 here healthy\nend\n",
        ),
        (
            b"show 00010203-0405-0607-0809-0a0b0c0d0e0f",
            "instance_uid = hex 000102030405060708090a0b0c0d0e0f\nsequence_num = 1\nagent_description = {}\ncapabilities = 2049\nhealth.healthy = true\ncustom_capabilities = {}\nend\n",
        ),
        (
            b"config 00010203-0405-0607-0809-0a0b0c0d0e0f f text/plain 6869",
            "ok\n",
        ),
        (b"config 000102030405060708090A0B0C0D0E0F f - -", "ok\n"),
        (
            b"connect {00010203-0405-0607-0809-0a0b0c0d0e0f} http://h",
            "ok\n",
        ),
        (
            b"packages urn:uuid:00010203-0405-0607-0809-0a0b0c0d0e0f p 1 http://h/p 00fF q 2 http://h/q -",
            "ok\n",
        ),
        (
            b"settings 00010203-0405-0607-0809-0a0b0c0d0e0f http://h 18446744073709551615 A:2D",
            "ok\n",
        ),
        (b"restart 00010203-0405-0607-0809-0a0b0c0d0e0f", "ok\n"),
        (b"withdraw 00010203-0405-0607-0809-0a0b0c0d0e0f", "ok\n"),
        (b"waits 00010203-0405-0607-0809-0a0b0c0d0e0f", "end\n"),
        (b"stop", "ok\n"),
    ] {
        assert!(rt; is_answer(&rt, &mut desk, line, want));
    }
    drop(desk);
}

#[test]
fn unknown_agents(rt: HostRuntime) {
    let mut desk = desk(rt.alloc());
    hear(&rt, &mut desk.server, UID, HEALTHY);
    for line in [
        b"restart 00000000-0000-0000-0000-000000000000".as_slice(),
        b"show 00000000-0000-0000-0000-000000000000",
        b"config 00000000-0000-0000-0000-000000000000 f - -",
        b"connect 00000000-0000-0000-0000-000000000000 http://h",
        b"packages 00000000-0000-0000-0000-000000000000 p 1 http://h/p -",
        b"settings 00000000-0000-0000-0000-000000000000 - 0",
        b"waits 00000000-0000-0000-0000-000000000000",
        b"withdraw 00000000-0000-0000-0000-000000000000",
    ] {
        assert!(rt; is_answer(&rt, &mut desk, line, UNKNOWN));
    }
    drop(desk);
}

#[test]
fn lines_outside_the_grammar(rt: HostRuntime) {
    let mut desk = desk(rt.alloc());
    hear(&rt, &mut desk.server, UID, HEALTHY);
    for line in [
        b"hello".as_slice(),
        b"",
        b" ",
        b"List",
        b"list ",
        b" list",
        b"list all",
        b"stop now",
        b"ages x",
        b"ages ",
        b"count x",
        b"Count",
        b"list\n",
        b"list\r",
        b"show",
        b"show 00010203-0405-0607-0809-0a0b0c0d0e0",
        b"show 00010203-0405-0607-0809-0a0b0c0d0e0g",
        b"show  00010203-0405-0607-0809-0a0b0c0d0e0f",
        b"show 00010203-0405-0607-0809-0a0b0c0d0e0f all",
        b"restart 00010203-0405-0607-0809-0a0b0c0d0e0f ",
        b"config 00010203-0405-0607-0809-0a0b0c0d0e0f f - 686",
        b"config 00010203-0405-0607-0809-0a0b0c0d0e0f f - 6x",
        b"config 00010203-0405-0607-0809-0a0b0c0d0e0f f - --",
        b"config 00010203-0405-0607-0809-0a0b0c0d0e0f f - ",
        b"config 00010203-0405-0607-0809-0a0b0c0d0e0f f 6869",
        b"config 00010203-0405-0607-0809-0a0b0c0d0e0f \xff - -",
        b"config 00010203-0405-0607-0809-0a0b0c0d0e0f",
        b"config 00010203-0405-0607-0809-0a0b0c0d0e0f f - 68 g",
        b"config 00010203-0405-0607-0809-0a0b0c0d0e0f f - 68 g -",
        b"config 00010203-0405-0607-0809-0a0b0c0d0e0f f - 68 g - 6",
        b"connect 00010203-0405-0607-0809-0a0b0c0d0e0f",
        b"connect 00010203-0405-0607-0809-0a0b0c0d0e0f http://h 0",
        b"settings 00010203-0405-0607-0809-0a0b0c0d0e0f",
        b"settings 00010203-0405-0607-0809-0a0b0c0d0e0f http://h",
        b"settings 00010203-0405-0607-0809-0a0b0c0d0e0f http://h +1",
        b"settings 00010203-0405-0607-0809-0a0b0c0d0e0f http://h -",
        b"settings 00010203-0405-0607-0809-0a0b0c0d0e0f http://h 18446744073709551616",
        b"settings 00010203-0405-0607-0809-0a0b0c0d0e0f http://h 000000000000000000001",
        b"settings 00010203-0405-0607-0809-0a0b0c0d0e0f http://h 1 A",
        b"settings 00010203-0405-0607-0809-0a0b0c0d0e0f http://h 1 :41",
        b"settings 00010203-0405-0607-0809-0a0b0c0d0e0f http://h 1 A:4",
        b"settings 00010203-0405-0607-0809-0a0b0c0d0e0f http://h 1 A:41:",
        b"settings 00010203-0405-0607-0809-0a0b0c0d0e0f http://h 1 A:ff",
        b"waits",
        b"waits 00010203-0405-0607-0809-0a0b0c0d0e0f all",
        b"withdraw",
        b"withdraw 00010203-0405-0607-0809-0a0b0c0d0e0f all",
        b"packages 00010203-0405-0607-0809-0a0b0c0d0e0f",
        b"packages 00010203-0405-0607-0809-0a0b0c0d0e0f p 1 http://h/p",
        b"packages 00010203-0405-0607-0809-0a0b0c0d0e0f p 1 http://h/p 0",
        b"packages 00010203-0405-0607-0809-0a0b0c0d0e0f p 1 http://h/p - q",
        b"packages 00010203-0405-0607-0809-0a0b0c0d0e0f p 1 http://h/p - q 2 http://h/q x",
    ] {
        assert!(rt; is_answer(&rt, &mut desk, line, WORDS));
    }
    drop(desk);
}

#[test]
fn list_of_three(rt: HostRuntime) {
    let mut desk = desk(rt.alloc());
    assert!(rt; is_answer(&rt, &mut desk, b"list", "end\n"));
    hear(&rt, &mut desk.server, &[255; 16], SILENT);
    hear(&rt, &mut desk.server, UID, HEALTHY);
    hear(&rt, &mut desk.server, &[17; 16], LEAVING);
    let want =
        "00010203-0405-0607-0809-0a0b0c0d0e0f 1 here healthy\n11111111-1111-1111-1111-111111111111 1 left unhealthy\nffffffff-ffff-ffff-ffff-ffffffffffff 300 here unknown\nend\n";
    assert!(rt; is_answer(&rt, &mut desk, b"list", want));
    drop(desk);
}

// What the agent told of its components isn't in the text, but for their hash.
#[test]
fn components_have_their_hash(rt: HostRuntime) {
    let mut desk = desk(rt.alloc());
    hear(&rt, &mut desk.server, UID, TELLING);
    let want =
        "instance_uid = hex 000102030405060708090a0b0c0d0e0f\nsequence_num = 1\nagent_description = {}\ncapabilities = 18433\nhealth.healthy = true\ncustom_capabilities = {}\navailable_components.hash = hex 61\nend\n";
    let line = b"show 00010203-0405-0607-0809-0a0b0c0d0e0f";
    assert!(rt; is_answer(&rt, &mut desk, line, want));
    drop(desk);
}

// With a body of n bytes, of 1,048,523 or so, the offer has n + 53: 34 of its hash, 3 of the name, and 4 each of the tags and
// lengths of the body, the file, the entry and the map.
#[test]
fn offer_too_large(rt: HostRuntime) {
    let mut desk = desk(rt.alloc());
    hear(&rt, &mut desk.server, UID, HEALTHY);
    let mut line = Vec::from_slice(
        rt.alloc(),
        b"config 00010203-0405-0607-0809-0a0b0c0d0e0f f - ",
    )
    .expect(&rt, "memory");
    let front = line.len();
    line.resize(front + 2 * 1_048_524, b'0')
        .expect(&rt, "memory");
    assert!(rt; is_answer(&rt, &mut desk, &line, "refused: too large\n"));
    line.truncate(front + 2 * 1_048_523);
    assert!(rt; is_answer(&rt, &mut desk, &line, "ok\n"));
    drop(desk);
}
