//! The questions of an agent's first two rounds, by two calls of `round`.
// The first exchange fails, so the second report is whole again. The bytes follow by hand from the Protocol Buffers encoding guide.

ghost use Rattle.std.specs.Prelude.{◌≡◌, false};
ghost use Rattle.agent_rules.specs.Half.{kept_part};
ghost use Rattle.agent_state.specs.View.{FitsDisk};
ghost use Rattle.edge_devices.specs.MemoryDisks.{memory_disk};

use crate::comparing::expect_same;
use agent_rounds::{Held, round};
use agent_state::Agent;
use command_agent::start;
use command_words::AgentOptions;
use edge_devices::{
    DialerCall, MemDisk, MemoryClock, MemoryDialer, MemoryEntropy, MemoryFolder, endpoint_ok,
};
use message_handlers::Handlers;
use plain_values::{Blob, Text};
use std::alloc::Global;
use std::process::Abort;

// The identifier that is made of sixteen bytes 255, the number, an empty description, the capabilities 0x801, an empty health and no custom capabilities.
const QUESTIONS: [&[u8]; 2] = [
    b"\x0a\x10\xff\xff\xff\xff\xff\xff\x4f\xff\xbf\xff\xff\xff\xff\xff\xff\xff\x10\x01\x1a\x00\x20\x81\x10\x2a\x00\x62\x00",
    b"\x0a\x10\xff\xff\xff\xff\xff\xff\x4f\xff\xbf\xff\xff\xff\xff\xff\xff\xff\x10\x02\x1a\x00\x20\x81\x10\x2a\x00\x62\x00",
];

// A server with all capabilities that accepts the report.
const ACCEPTED: &[u8] =
    b"\x0a\x10\xff\xff\xff\xff\xff\xff\x4f\xff\xbf\xff\xff\xff\xff\xff\xff\xff\x38\x3f";

// A dialer whose second call fails, which is the first exchange.
fn dialer(rt: &(impl Abort + AllocGlobal)) -> MemoryDialer {
    let answer = Blob::from_slice(rt.alloc(), ACCEPTED).expect(rt, "memory");
    let mut answers = Vec::new(rt.alloc());
    answers.push(answer).expect(rt, "memory");
    let failing = Vec::from_slice(rt.alloc(), &[1]).expect(rt, "memory");
    MemoryDialer::new(rt.alloc(), answers, Vec::new(rt.alloc()), failing)
}

fn options(rt: &(impl Abort + AllocGlobal)) -> AgentOptions {
    AgentOptions {
        server: Text::from_str(rt.alloc(), "http://s0").expect(rt, "memory"),
        rounds: 2,
        request_uid: false,
        push: false,
        prove: None,
    }
}

// Whether two rounds go on.
fn goes_on_twice(
    alloc: Global,
    agent: &mut Agent,
    disk: &mut MemDisk,
    dialer: &mut MemoryDialer,
) -> bool
    requires idle { agent.old.half.awaits ≡ false }
    requires fits { FitsDisk (memory_disk disk.old) agent.old.store (kept_part agent.old.half) }
{
    let handlers = Handlers::new(alloc);
    let mut held = Held::new(None);
    let mut folder = MemoryFolder::new(alloc, Vec::new(alloc));
    let mut clock = MemoryClock::new(alloc, Vec::new(alloc));
    let first = round(
        alloc,
        agent,
        &mut held,
        &handlers,
        disk,
        dialer,
        &mut folder,
        &mut clock,
    );
    let on = match first {
        Ok(false) => {
            let second = round(
                alloc,
                agent,
                &mut held,
                &handlers,
                disk,
                dialer,
                &mut folder,
                &mut clock,
            );
            matches!(second, Ok(false))
        }
        _ => false,
    };
    drop(clock);
    drop(folder);
    drop(held);
    drop(handlers);
    on
}

// Starts an agent on this disk.
fn started(rt: &(impl Abort + AllocGlobal), disk: &mut MemDisk) -> Agent
    ensures idle { result.half.awaits ≡ false }
    ensures fits { FitsDisk (memory_disk disk.new) result.store (kept_part result.half) }
{
    let options = options(rt);
    assert!(rt; endpoint_ok(options.server.as_str()));
    let draws = Vec::from_slice(rt.alloc(), &[[255u8; 16]]).expect(rt, "memory");
    let mut entropy = MemoryEntropy::new(rt.alloc(), draws, Vec::new(rt.alloc()));
    let handlers = Handlers::new(rt.alloc());
    let agent = start(rt.alloc(), &options, &handlers, disk, &mut entropy).expect(rt, "an agent");
    drop(handlers);
    drop(entropy);
    drop(options);
    agent
}

// Starts an agent on an empty disk, and does two rounds.
fn asks_twice(rt: &(impl Abort + AllocGlobal), dialer: &mut MemoryDialer) -> bool {
    let mut disk = MemDisk::new(rt.alloc(), Vec::new(rt.alloc()));
    let mut agent = started(rt, &mut disk);
    let on = goes_on_twice(rt.alloc(), &mut agent, &mut disk, dialer);
    drop(agent);
    drop(disk);
    on
}

// There were two exchanges, and each asked the question of its number.
fn expect_questions(rt: &impl Abort, calls: &[DialerCall]) {
    let mut number = 0usize;
    for call in calls {
        if let DialerCall::Exchange(_, question, _) = call {
            expect_same(rt, &Some(&question.as_slice()), &QUESTIONS.get(number));
            number = number.saturating_add(1);
        }
    }
    expect_same(rt, &number, &2);
}

#[test]
fn two_rounds_ask_two_questions(rt: HostRuntime) {
    let mut dialer = dialer(&rt);
    assert!(rt; asks_twice(&rt, &mut dialer));
    expect_questions(&rt, dialer.calls());
    drop(dialer);
}
