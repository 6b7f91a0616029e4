// The headers with which an agent dials: its identifier's, and then those of its settings. The answers follow by hand from the Protocol Buffers encoding
// guide; the text of an identifier is that of RFC 9562, section 4.
use crate::comparing::expect_same;
use command_agent::{AgentStatus, run_agent};
use command_words::AgentOptions;
use edge_devices::{
    Area, DialerCall, Folder, MemDisk, MemoryClock, MemoryDialer, MemoryEntropy, MemoryFolder,
    MemorySink, endpoint_ok, name_good,
};
use message_handlers::Handlers;
use plain_values::{Blob, Headers, Text};
use std::process::Abort;

// The status file of an agent that takes connection settings.
const STATUS: &[u8] = b"\x20\x81\x12";

// A server with all capabilities offers the endpoint `http://s1` with the header `X-Key: secret`; then it gives the identifier 00 to 0f; then it takes a
// report; then it commands a restart. The agent has the identifier that is made of sixteen bytes 255 before.
const ANSWERS: [&[u8]; 4] = [
    b"\x0a\x10\xff\xff\xff\xff\xff\xff\x4f\xff\xbf\xff\xff\xff\xff\xff\xff\xff\x22\x23\x0a\x011\x12\x1e\x0a\x09http://s1\x12\x11\x0a\x0f\x0a\x05X-Key\x12\x06secret\x38\x3f",
    b"\x0a\x10\xff\xff\xff\xff\xff\xff\x4f\xff\xbf\xff\xff\xff\xff\xff\xff\xff\x38\x3f\x42\x12\x0a\x10\x00\x01\x02\x03\x04\x05\x06\x07\x08\x09\x0a\x0b\x0c\x0d\x0e\x0f",
    b"\x0a\x10\x00\x01\x02\x03\x04\x05\x06\x07\x08\x09\x0a\x0b\x0c\x0d\x0e\x0f\x38\x3f",
    b"\x0a\x10\x00\x01\x02\x03\x04\x05\x06\x07\x08\x09\x0a\x0b\x0c\x0d\x0e\x0f\x38\x3f\x4a\x00",
];

// The first server is dialled with the identifier that was drawn, the second one with it and the offered header, and that one anew once the agent has the
// identifier that was given to it; the last report is asked through the link that is held.
const DIALLED: &str =
    "s0\nOpAMP-Instance-UID: ffffffff-ffff-4fff-bfff-ffffffffffff\ns1\nOpAMP-Instance-UID: ffffffff-ffff-4fff-bfff-ffffffffffff\nX-Key: secret\ns1\nOpAMP-Instance-UID: 00010203-0405-0607-0809-0a0b0c0d0e0f\nX-Key: secret\n";

fn options(rt: &(impl Abort + AllocGlobal)) -> AgentOptions {
    AgentOptions {
        server: Text::from_str(rt.alloc(), "http://s0").expect(rt, "memory"),
        rounds: 5,
        request_uid: false,
        push: false,
        prove: None,
    }
}

// A dialer that answers so.
fn dialer(rt: &(impl Abort + AllocGlobal)) -> MemoryDialer {
    let mut answers = Vec::new(rt.alloc());
    for bytes in ANSWERS {
        let answer = Blob::from_slice(rt.alloc(), bytes).expect(rt, "memory");
        answers.push(answer).expect(rt, "memory");
    }
    MemoryDialer::new(
        rt.alloc(),
        answers,
        Vec::new(rt.alloc()),
        Vec::new(rt.alloc()),
    )
}

// A folder with the status file.
fn folder(rt: &(impl Abort + AllocGlobal)) -> MemoryFolder {
    let name = Text::from_str(rt.alloc(), "status.pb").expect(rt, "memory");
    assert!(rt; name_good(name.as_str()));
    let status = Blob::from_slice(rt.alloc(), STATUS).expect(rt, "memory");
    let mut folder = MemoryFolder::new(rt.alloc(), Vec::new(rt.alloc()));
    folder
        .write(rt.alloc(), Area::Status, &name, &status)
        .expect(rt, "a status file");
    folder
}

// Runs the agent as far as the command to restart.
fn run(rt: &(impl Abort + AllocGlobal), dialer: &mut MemoryDialer) -> AgentStatus {
    let options = options(rt);
    assert!(rt; endpoint_ok(options.server.as_str()));
    let draws = Vec::from_slice(rt.alloc(), &[[255u8; 16]]).expect(rt, "memory");
    let mut entropy = MemoryEntropy::new(rt.alloc(), draws, Vec::new(rt.alloc()));
    let mut sink = MemorySink::new(rt.alloc(), 0, Vec::new(rt.alloc()));
    let handlers = Handlers::new(rt.alloc());
    let mut disk = MemDisk::new(rt.alloc(), Vec::new(rt.alloc()));
    let mut folder = folder(rt);
    let mut clock = MemoryClock::new(rt.alloc(), Vec::new(rt.alloc()));
    let status = run_agent(
        rt.alloc(),
        &options,
        &mut sink,
        &handlers,
        &mut disk,
        dialer,
        &mut folder,
        &mut clock,
        &mut entropy,
    );
    drop(clock);
    drop(folder);
    drop(disk);
    drop(handlers);
    drop(sink);
    drop(entropy);
    drop(options);
    status
}

// The host and the headers, a line each.
fn tell(rt: &(impl Abort + AllocGlobal), text: &mut String, host: &str, headers: &Headers) {
    write!(text, "{host}\n").expect(rt, "memory");
    for header in headers.headers.as_slice() {
        let name = header.key.as_str();
        let value = header.value.as_str();
        write!(text, "{name}: {value}\n").expect(rt, "memory");
    }
}

// What was dialled, in order.
fn dialled(rt: &(impl Abort + AllocGlobal), calls: &[DialerCall]) -> String {
    let mut text = String::new(rt.alloc());
    for call in calls {
        if let DialerCall::Dial(to, headers, _) = call {
            tell(rt, &mut text, to.host.as_str(), headers);
        }
    }
    text
}

#[test]
fn dials_tell_the_identifier_in_use(rt: HostRuntime) {
    let mut dialer = dialer(&rt);
    let status = run(&rt, &mut dialer);
    let text = dialled(&rt, dialer.calls());
    drop(dialer);
    expect_same(&rt, &status, &AgentStatus::Restarted);
    expect_same(&rt, &text.as_str(), &DIALLED);
}
