//! How an agent tells its identifier, byte by byte: over HTTP with each request, and in the handshake of a WebSocket connection.
// The text of an identifier is that of RFC 9562, section 4; the reports and replies follow by hand from the Protocol Buffers encoding guide.

use crate::answering::{answer, taken};
use crate::comparing::expect_same;
use crate::texts::text;
use crate::watching::{check, gives};
use command_agent::{AgentStatus, run_agent};
use command_words::AgentOptions;
use edge_devices::{MemDisk, MemoryClock, MemoryEntropy, MemoryFolder, MemorySink, endpoint_ok};
use edge_dialer::NetDialer;
use message_handlers::Handlers;
use std::io::Read;
use std::net::{Net, TcpListener, TcpStream};
use std::process::Abort;
use std::random::RandomSource;
use std::thread::join;
use std::time::Clock;

// The first report of the agent whose identifier is made of sixteen bytes 255, and that of the one to which 00 to 0f was given.
const DRAWN: &[u8] =
    b"POST /v1/opamp HTTP/1.1\r\nHost: 127.0.0.1:24356\r\nContent-Type: application/x-protobuf\r\nContent-Length: 29\r\nOpAMP-Instance-UID: ffffffff-ffff-4fff-bfff-ffffffffffff\r\n\r\n\x0a\x10\xff\xff\xff\xff\xff\xff\x4f\xff\xbf\xff\xff\xff\xff\xff\xff\xff\x10\x01\x1a\x00\x20\x81\x10\x2a\x00\x62\x00";

const GIVEN: &[u8] =
    b"POST /v1/opamp HTTP/1.1\r\nHost: 127.0.0.1:24356\r\nContent-Type: application/x-protobuf\r\nContent-Length: 29\r\nOpAMP-Instance-UID: 00010203-0405-0607-0809-0a0b0c0d0e0f\r\n\r\n\x0a\x10\x00\x01\x02\x03\x04\x05\x06\x07\x08\x09\x0a\x0b\x0c\x0d\x0e\x0f\x10\x02\x1a\x00\x20\x81\x10\x2a\x00\x62\x00";

// A server with all capabilities gives an identifier, and then commands a restart.
const GIVES: &[u8] =
    b"HTTP/1.1 200 OK\r\nContent-Length: 40\r\n\r\n\x0a\x10\xff\xff\xff\xff\xff\xff\x4f\xff\xbf\xff\xff\xff\xff\xff\xff\xff\x38\x3f\x42\x12\x0a\x10\x00\x01\x02\x03\x04\x05\x06\x07\x08\x09\x0a\x0b\x0c\x0d\x0e\x0f";

const RESTARTS: &[u8] =
    b"HTTP/1.1 200 OK\r\nContent-Length: 22\r\n\r\n\x0a\x10\x00\x01\x02\x03\x04\x05\x06\x07\x08\x09\x0a\x0b\x0c\x0d\x0e\x0f\x38\x3f\x4a\x00";

// What stands in the head of the handshake before its key and behind it (RFC 6455, 4.1). Names of headers are the same in each case of their letters.
const BEFORE: &[u8] =
    b"GET /v1/opamp HTTP/1.1\r\nHost: 127.0.0.1:24357\r\nConnection: Upgrade\r\nUpgrade: websocket\r\nSec-WebSocket-Version: 13\r\nSec-WebSocket-Key: ";

const BEHIND: &[u8] = b"\r\nopamp-instance-uid: ffffffff-ffff-4fff-bfff-ffffffffffff\r\n\r\n";

fn options(rt: &(impl Abort + AllocGlobal), server: &str, rounds: u64) -> AgentOptions {
    AgentOptions {
        server: text(rt, server),
        rounds,
        request_uid: false,
        push: false,
        prove: None,
    }
}

// Runs an agent with its store and files in memory, whose waits take no time.
fn run<R: Abort + AllocGlobal + Net + Clock + RandomSource + Copy + Drop>(
    rt: R,
    options: &AgentOptions,
) -> AgentStatus {
    assert!(rt; endpoint_ok(options.server.as_str()), "no endpoint");
    let draws = Vec::from_slice(rt.alloc(), &[[255u8; 16]]).expect(&rt, "memory");
    let mut entropy = MemoryEntropy::new(rt.alloc(), draws, Vec::new(rt.alloc()));
    let mut sink = MemorySink::new(rt.alloc(), 0, Vec::new(rt.alloc()));
    let handlers = Handlers::new(rt.alloc());
    let mut disk = MemDisk::new(rt.alloc(), Vec::new(rt.alloc()));
    let mut folder = MemoryFolder::new(rt.alloc(), Vec::new(rt.alloc()));
    let mut clock = MemoryClock::new(rt.alloc(), Vec::new(rt.alloc()));
    let mut dialer = NetDialer::new(rt);
    let status = run_agent(
        rt.alloc(),
        options,
        &mut sink,
        &handlers,
        &mut disk,
        &mut dialer,
        &mut folder,
        &mut clock,
        &mut entropy,
    );
    drop(dialer);
    drop(clock);
    drop(folder);
    drop(disk);
    drop(handlers);
    drop(sink);
    drop(entropy);
    status
}

// How the run of an agent with these words ends.
fn ends<R: Abort + AllocGlobal + Net + Clock + RandomSource + Copy + Drop>(
    rt: R,
    server: &str,
    rounds: u64,
    wanted: AgentStatus,
) {
    let options = options(&rt, server, rounds);
    let status = run(rt, &options);
    drop(options);
    expect_same(&rt, &status, &wanted);
}

// The second request comes on a connection of its own, since the first one was dialled with another identifier.
fn serve(rt: &(impl Abort + AllocGlobal), listener: &TcpListener) {
    let first = taken(rt, listener);
    answer(rt, &first, DRAWN, GIVES);
    let second = taken(rt, listener);
    answer(rt, &second, GIVEN, RESTARTS);
}

#[test]
fn requests_tell_the_identifier_in_use(rt: HostRuntime) {
    let listener = TcpListener::bind(&rt, "127.0.0.1:24356").expect(&rt, "a listener");
    join(
        &rt,
        || serve(&rt, &listener),
        || ends(rt, "http://127.0.0.1:24356", 3, AgentStatus::Restarted),
    );
}

// Whether a key follows, which is 16 bytes as base64.
fn passes_key(mut stream: &TcpStream) -> bool {
    let mut key = [0u8; 24];
    stream.read_exact(&mut key).is_ok() && key.ends_with(b"==")
}

// Reads the head of a handshake, and ends the connection.
fn refuse(rt: &(impl Abort + AllocGlobal), listener: &TcpListener) {
    let stream = taken(rt, listener);
    check(rt, gives(&stream, BEFORE), "another head before the key");
    check(rt, passes_key(&stream), "no key");
    check(rt, gives(&stream, BEHIND), "another head behind the key");
}

#[test]
fn handshakes_tell_the_identifier(rt: HostRuntime) {
    let listener = TcpListener::bind(&rt, "127.0.0.1:24357").expect(&rt, "a listener");
    join(
        &rt,
        || refuse(&rt, &listener),
        || ends(rt, "ws://127.0.0.1:24357", 1, AgentStatus::RoundsSpent),
    );
}
