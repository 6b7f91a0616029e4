// What lines offer, what they say that waits, and what they take back. The hashes are those that Python's `hashlib.sha256` gives
// of the bytes of the offer without its hash, which were written by hand.
use crate::exchanges::{answered, desk, uid};
use message_replies::encode_reply;
use message_reports::decoding::decode_report;
use server_core::Server;
use server_lines::read_line;
use server_waves::ServerDesk;
use std::process::Abort;

// The first report of an agent that takes offers of each kind and the command to restart, and is obliged to nothing.
const FIRST: &[u8] = b"\x0a\x10abcdefghijklmnop\x10\x01\x1a\x00\x20\x8b\x0a";

// Its second report, whose statuses name the configuration `../x` of `hi` and the package `p` of the version 1.
const NAMING: &[u8] =
    b"\x0a\x10abcdefghijklmnop\x10\x02\x20\x8b\x0a\x3a\x22\x0a\x20\x93\x1f\xcc\x8d\xc8\x0e\xc2\x24\xd1\xf1\xec\x50\x8b\x95\xcf\x14\x65\xb3\x81\x0b\x45\x01\x42\x0b\x00\xc0\x0f\xca\xc1\x41\xd5\x76\x42\x22\x12\x20\x7e\x50\xa5\x5e\x40\x62\x9b\xc6\x7e\xa0\x92\x8c\xbe\x45\x33\x56\xf3\xc0\xb1\xaf\xdb\xcc\x97\x67\x47\xa2\x89\xa5\x40\x5b\xef\xfb";

// The message with nothing but the server's capabilities.
const PLAIN: &[u8] = b"\x0a\x10abcdefghijklmnop\x38\x3f";

fn hear(rt: &(impl Abort + AllocGlobal), server: &mut Server, report: &[u8]) {
    let report = decode_report(rt.alloc(), report).expect(rt, "a report");
    let reply = server.handle_owned(report, None).expect(rt, "memory");
    drop(reply);
}

// Whether the line gets this answer.
fn answers(
    rt: &(impl Abort + AllocGlobal),
    desk: &mut ServerDesk,
    line: &[u8],
    want: &str,
) -> bool {
    let order = read_line(rt.alloc(), line)
        .expect(rt, "memory")
        .expect(rt, "an order");
    let text = answered(rt, desk, order);
    text.as_str() == want
}

// Whether the message that is pushed to the agent is this one.
fn is_pushed(rt: &(impl Abort + AllocGlobal), server: &Server, want: &[u8]) -> bool {
    let message = server
        .pushed(&uid())
        .expect(rt, "memory")
        .expect(rt, "an agent that is here");
    let bytes = encode_reply(rt.alloc(), &message).expect(rt, "memory");
    bytes.as_slice() == want
}

// The file without a name has the body `1` and the type `t`; the file `b` has the body `3` and the type `u`, given last.
#[test]
fn several_files(rt: HostRuntime) {
    let mut desk = desk(rt.alloc());
    hear(&rt, &mut desk.server, FIRST);
    let line = b"config 61626364-6566-6768-696a-6b6c6d6e6f70 b - 32 - t 31 b u 33";
    let answered = answers(&rt, &mut desk, line, "ok\n");
    let want =
        b"\x0a\x10abcdefghijklmnop\x1a;\x0a\x17\x0a\x08\x12\x06\x0a\x011\x12\x01t\x0a\x0b\x0a\x01b\x12\x06\x0a\x013\x12\x01u\x12\x20B[I8\xd1\x94w\xe9\xa9\xcc<\xfd\x10\xa4\xcd\x15\xbbTq\xb3\xf1\xf2\xbd\x1f\xd2B\x1f,D\x9a%\xc58?";
    let pushed = is_pushed(&rt, &desk.server, want);
    drop(desk);
    assert!(rt; answered);
    assert!(rt; pushed);
}

// The endpoint `http://h`, 30 seconds, and the headers `A: x y` and `B` with an empty value; and settings of nothing.
#[test]
fn settings(rt: HostRuntime) {
    let mut desk = desk(rt.alloc());
    hear(&rt, &mut desk.server, FIRST);
    let line = b"settings 61626364-6566-6768-696a-6b6c6d6e6f70 http://h 30 A:782079 B:-";
    let answered = answers(&rt, &mut desk, line, "ok\n");
    let want =
        b"\x0a\x10abcdefghijklmnop\x22A\x0a\x20W\xf2\xd1\x1e\x0e\x09\x8a\x13\x01k\xa9>\xdc\xd6x>\x13&\x96\x84L\x03\x09/\x18\x95\x80\x0e\x17[\xda\x1e\x12\x1d\x0a\x08http://h\x12\x0f\x0a\x08\x0a\x01A\x12\x03x\x20y\x0a\x03\x0a\x01B\x20\x1e8?";
    let pushed = is_pushed(&rt, &desk.server, want);
    assert!(rt; answered);
    assert!(rt; pushed);
    let line = b"settings 61626364-6566-6768-696a-6b6c6d6e6f70 - 0";
    let answered = answers(&rt, &mut desk, line, "ok\n");
    let want =
        b"\x0a\x10abcdefghijklmnop\x22$\x0a\x20\x08\xda|E\xcb\x20Cw\xe7\xe4\x22I\xcd\xa5q?\xa8e\x11m\xdb\xb4\xcbZ\x19I\xb2\xe5\xb48\xa6\xab\x12\x008?";
    let pushed = is_pushed(&rt, &desk.server, want);
    drop(desk);
    assert!(rt; answered);
    assert!(rt; pushed);
}

const WAITS: &[u8] = b"waits 61626364-6566-6768-696a-6b6c6d6e6f70";

// The file `../x` of `hi`, the package `p` of the version 1, the endpoint `http://s1`, and a restart.
fn order_all(rt: &(impl Abort + AllocGlobal), desk: &mut ServerDesk) -> bool {
    let mut done = true;
    for line in [
        b"config 61626364-6566-6768-696a-6b6c6d6e6f70 ../x - 6869".as_slice(),
        b"packages 61626364-6566-6768-696a-6b6c6d6e6f70 p 1 http://h/p 00ff",
        b"connect 61626364-6566-6768-696a-6b6c6d6e6f70 http://s1",
        b"restart 61626364-6566-6768-696a-6b6c6d6e6f70",
    ] {
        done = done && answers(rt, desk, line, "ok\n");
    }
    done
}

// What stands waits until a status names its hash; settings of the connection have no status.
#[test]
fn what_waits(rt: HostRuntime) {
    let mut desk = desk(rt.alloc());
    hear(&rt, &mut desk.server, FIRST);
    let first = answers(&rt, &mut desk, WAITS, "end\n");
    let ordered = order_all(&rt, &mut desk);
    let all =
        "config 931fcc8dc80ec224d1f1ec508b95cf1465b3810b4501420b00c00fcac141d576\npackages 7e50a55e40629bc67ea0928cbe453356f3c0b1afdbcc976747a289a5405beffb\nconnection 18c108042a31beae630f0931d5aabb7020a89d1eb783b61ef5fca03a8952a9ed\nrestart\nend\n";
    let second = answers(&rt, &mut desk, WAITS, all);
    hear(&rt, &mut desk.server, NAMING);
    let named =
        "connection 18c108042a31beae630f0931d5aabb7020a89d1eb783b61ef5fca03a8952a9ed\nend\n";
    let third = answers(&rt, &mut desk, WAITS, named);
    drop(desk);
    assert!(rt; first);
    assert!(rt; ordered);
    assert!(rt; second);
    assert!(rt; third);
}

// Nothing waits any more, nothing is due, and a later offer stands as ever.
#[test]
fn what_is_withdrawn(rt: HostRuntime) {
    let mut desk = desk(rt.alloc());
    hear(&rt, &mut desk.server, FIRST);
    let ordered = order_all(&rt, &mut desk);
    let line = b"withdraw 61626364-6566-6768-696a-6b6c6d6e6f70";
    let withdrawn = answers(&rt, &mut desk, line, "ok\n");
    let empty = answers(&rt, &mut desk, WAITS, "end\n");
    let silent = is_pushed(&rt, &desk.server, PLAIN);
    let again = answers(&rt, &mut desk, line, "ok\n");
    let line = b"connect 61626364-6566-6768-696a-6b6c6d6e6f70 http://s1";
    let offered = answers(&rt, &mut desk, line, "ok\n");
    let one = "connection 18c108042a31beae630f0931d5aabb7020a89d1eb783b61ef5fca03a8952a9ed\nend\n";
    let stands = answers(&rt, &mut desk, WAITS, one);
    drop(desk);
    assert!(rt; ordered);
    assert!(rt; withdrawn);
    assert!(rt; empty);
    assert!(rt; silent);
    assert!(rt; again);
    assert!(rt; offered);
    assert!(rt; stands);
}
