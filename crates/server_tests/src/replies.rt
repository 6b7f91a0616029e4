// What is replied to reports where nothing was offered or ordered.
use crate::comparing::expect_same;
use crate::exchanges::{expect, server, told, uid};
use message_values::CustomCapabilities;
use plain_values::{List, Text, Uid};
use server_core::{Server, fits_list};
use std::alloc::Global;
use std::process::Abort;

// A healthy agent's first report, and the reply to it.
const FIRST: &[u8] = b"\x0a\x10abcdefghijklmnop\x10\x01\x1a\x00\x20\x81\x10\x2a\x02\x08\x01";

const PLAIN: &[u8] = b"\x0a\x10abcdefghijklmnop\x38\x3f";

const ASKED: &[u8] = b"\x0a\x10abcdefghijklmnop\x30\x01\x38\x3f";

// The number of the agent's record, whether it is healthy, and its last error.
fn health(server: &Server) -> Option<(u64, bool, &str)> {
    let record = server.find(&uid())?;
    let health = record.state.health.as_ref()?;
    Some((record.number, health.healthy, health.last_error.as_str()))
}

// A gap in the numbers is asked for the full state, and so is a delta that comes again. Neither changes the record.
#[test]
fn delta_then_gap(rt: HostRuntime) {
    let mut server = server(rt.alloc());
    expect(
        &rt,
        &mut server,
        &[
            (b"\x0a\x10abcdefghijklmnop\x10\x03\x20\x81\x10", ASKED),
            (FIRST, PLAIN),
            (
                b"\x0a\x10abcdefghijklmnop\x10\x02\x20\x81\x10\x2a\x04\x1a\x02no",
                PLAIN,
            ),
            (
                b"\x0a\x10abcdefghijklmnop\x10\x04\x20\x81\x10\x2a\x02\x08\x01",
                ASKED,
            ),
            (
                b"\x0a\x10abcdefghijklmnop\x10\x02\x20\x81\x10\x2a\x04\x1a\x02no",
                ASKED,
            ),
        ],
    );
    expect_same(&rt, &health(&server), &Some((2, false, "no")));
}

// Whether the agent is told so, where the server has drawn an identifier of letters `z`.
fn is_told(
    rt: &(impl Abort + AllocGlobal),
    server: &mut Server,
    report: &[u8],
    fresh: bool,
    want: &[u8],
) -> bool {
    let fresh = if fresh {
        Some(Uid::of([b'z'; 16]))
    } else {
        None
    };
    let reply = told(rt, server, report, fresh);
    reply.as_slice() == want
}

// The flag 1 asks for an identifier; the flag 2 has no meaning.
#[test]
fn fresh_identifier(rt: HostRuntime) {
    let mut server = server(rt.alloc());
    for (report, fresh, want) in [
        (
            b"\x0a\x10abcdefghijklmnop\x10\x01\x1a\x00\x20\x81\x10\x2a\x02\x08\x01\x50\x01".as_slice(),
            true,
            b"\x0a\x10abcdefghijklmnop\x38\x3f\x42\x12\x0a\x10zzzzzzzzzzzzzzzz".as_slice(),
        ),
        (
            b"\x0a\x10abcdefghijklmnop\x10\x01\x1a\x00\x20\x81\x10\x2a\x02\x08\x01\x50\x01",
            false,
            PLAIN,
        ),
        (FIRST, true, PLAIN),
        (
            b"\x0a\x10abcdefghijklmnop\x10\x01\x1a\x00\x20\x81\x10\x2a\x02\x08\x01\x50\x02",
            true,
            PLAIN,
        ),
        // also where it is asked for the full state
        (
            b"\x0a\x10abcdefghijklmnop\x10\x03\x20\x81\x10\x50\x01",
            true,
            b"\x0a\x10abcdefghijklmnop\x30\x01\x38\x3f\x42\x12\x0a\x10zzzzzzzzzzzzzzzz",
        ),
    ] {
        assert!(rt; is_told(&rt, &mut server, report, fresh, want));
    }
}

// The one custom capability `com.example.echo`.
fn echo(rt: &(impl Abort + AllocGlobal)) -> CustomCapabilities {
    let name = Text::of(String::from_str(rt.alloc(), "com.example.echo").expect(rt, "memory"));
    CustomCapabilities {
        capabilities: List::of(vec![in rt.alloc(); name].expect(rt, "memory")),
    }
}

// A server with this list, where it isn't too long.
fn server_of(alloc: Global, custom: CustomCapabilities) -> Option<Server> {
    if fits_list(&custom) {
        Some(Server::new(alloc, 63, custom))
    } else {
        None
    }
}

// The first report has a custom message, of which the server makes nothing.
#[test]
fn custom_list_in_full_reports(rt: HostRuntime) {
    let custom = echo(&rt);
    let mut server = server_of(rt.alloc(), custom).expect(&rt, "a short list");
    expect(
        &rt,
        &mut server,
        &[
            (
                b"\x0a\x10abcdefghijklmnop\x10\x01\x1a\x00\x20\x81\x10\x2a\x02\x08\x01\x6a\x19\x0a\x10com.example.echo\x12\x01k\x1a\x02hi",
                b"\x0a\x10abcdefghijklmnop\x38\x3f\x52\x12\x0a\x10com.example.echo",
            ),
            (b"\x0a\x10abcdefghijklmnop\x10\x02\x20\x81\x10", PLAIN),
            (b"\x0a\x10abcdefghijklmnop\x10\x04\x20\x81\x10", ASKED),
        ],
    );
}

// The hash alone is asked for the components, until these were told under it. Those told last count again once their hash is
// told again.
#[test]
fn components_hash_is_asked_for_details(rt: HostRuntime) {
    let mut server = server(rt.alloc());
    let asked = b"\x0a\x10abcdefghijklmnop\x30\x02\x38\x3f".as_slice();
    expect(
        &rt,
        &mut server,
        &[
            (
                b"\x0a\x10abcdefghijklmnop\x10\x01\x1a\x00\x20\x81\x90\x01\x2a\x02\x08\x01\x72\x03\x12\x01a",
                asked,
            ),
            (b"\x0a\x10abcdefghijklmnop\x10\x02\x20\x81\x90\x01", asked),
            (
                b"\x0a\x10abcdefghijklmnop\x10\x03\x20\x81\x90\x01\x72\x0a\x0a\x05\x0a\x01x\x12\x00\x12\x01a",
                PLAIN,
            ),
            (
                b"\x0a\x10abcdefghijklmnop\x10\x04\x20\x81\x90\x01\x72\x03\x12\x01b",
                asked,
            ),
            (
                b"\x0a\x10abcdefghijklmnop\x10\x05\x20\x81\x90\x01\x72\x03\x12\x01a",
                PLAIN,
            ),
            // no components, which have the empty hash
            (
                b"\x0a\x10abcdefghijklmnop\x10\x06\x20\x81\x90\x01\x72\x00",
                PLAIN,
            ),
            // a hash of an agent that doesn't report its components
            (
                b"\x0a\x10abcdefghijklmnop\x10\x07\x20\x81\x10\x72\x03\x12\x01b",
                PLAIN,
            ),
        ],
    );
}
