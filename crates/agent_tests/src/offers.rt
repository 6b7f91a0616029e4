//! Offers: settings that are tried, kept, given up and refused, configurations and packages.
// The expected bytes follow by hand from the rules of reports and from the Protocol Buffers encoding guide; the hashes are from Python's hashlib.

ghost use Rattle.std.specs.Prelude.{◌≡◌, true, is_some};
ghost use Rattle.agent_tests.specs.Wells.{IsWell};

use crate::steps::{
    Told, abandons, aims, config_ends, config_fails, from, gives_up, hears, hears_proof,
    packages_end, reports, starts, tries,
};
use crate::values::{Answer, Config, Connection, HEALTHY, Look, PLAIN};
use agent_rules::AgentFail;
use agent_state::Agent;
use edge_devices::{MemDisk, Mode};
use std::process::Abort;

// What the agent of the trials is.
const MOVABLE: Look = Look {
    capabilities: 0x901,
    ..HEALTHY
};

// The offer of an endpoint.
const fn to(url: &'static str, hash: &'static [u8]) -> Answer {
    Answer {
        connection: Some(Connection {
            url,
            hash,
            header: None,
        }),
        ..PLAIN
    }
}

// A whole report, and one without changes, of each number.
const fn whole(number: u64, rest: &'static [u8]) -> Told {
    Told {
        number,
        whole: true,
        rest,
    }
}

const fn delta(number: u64, rest: &'static [u8]) -> Told {
    Told {
        number,
        whole: false,
        rest,
    }
}

fn gives_a_trial_up(rt: &(impl Abort + AllocGlobal), disk: &mut MemDisk, agent: &mut Agent)
    requires well { IsWell disk.old agent.old }
    ensures well { IsWell disk.new agent.new }
{
    reports(
        rt,
        disk,
        agent,
        whole(1, b"\x10\x01\x1a\x00\x20\x81\x12\x2a\x02\x08\x01\x62\x00"),
    );
    hears(rt, disk, agent, PLAIN, "");
    reports(rt, disk, agent, delta(2, b"\x10\x02\x20\x81\x12"));
    tries(rt, disk, agent, to("http://s1", b"1"), "http://s1");
    reports(
        rt,
        disk,
        agent,
        whole(3, b"\x10\x03\x1a\x00\x20\x81\x12\x2a\x02\x08\x01\x62\x00"),
    );
    gives_up(rt, agent);
    abandons(rt, agent);
    assert!(rt; aims(agent, "http://s0"));
}

// The settings abandoned last are offered again, and then others, whose trial has its proof.
fn proves_a_trial(rt: &(impl Abort + AllocGlobal), disk: &mut MemDisk, agent: &mut Agent)
    requires well { IsWell disk.old agent.old }
    ensures well { IsWell disk.new agent.new }
    ensures proved { agent.new.half.proved ≡ true }
    ensures trying { is_some agent.new.half.trial ≡ true }
{
    reports(
        rt,
        disk,
        agent,
        whole(4, b"\x10\x04\x1a\x00\x20\x81\x12\x2a\x02\x08\x01\x62\x00"),
    );
    hears(rt, disk, agent, to("http://s1", b"1"), "");
    reports(rt, disk, agent, delta(5, b"\x10\x05\x20\x81\x12"));
    tries(rt, disk, agent, to("http://s2", b"2"), "http://s2");
    reports(
        rt,
        disk,
        agent,
        whole(6, b"\x10\x06\x1a\x00\x20\x81\x12\x2a\x02\x08\x01\x62\x00"),
    );
    hears_proof(rt, disk, agent, PLAIN);
}

// Whether an agent that starts from its disk goes to this endpoint, with a whole report.
fn starts_at(rt: &(impl Abort + AllocGlobal), disk: &mut MemDisk, url: &str) -> bool {
    let mut agent = starts(rt, disk, from(MOVABLE));
    let aimed = aims(&agent, url);
    reports(
        rt,
        disk,
        &mut agent,
        whole(
            1025,
            b"\x10\x81\x08\x1a\x00\x20\x81\x12\x2a\x02\x08\x01\x62\x00",
        ),
    );
    drop(agent);
    aimed
}

// Whether the trial is kept, or a device call of the save is stopped.
fn keeps_with_stop(
    rt: &(impl Abort + AllocGlobal),
    disk: &mut MemDisk,
    calls: u64,
    outcome: Result<(), AgentFail>,
) -> bool {
    let mut agent = starts(rt, disk, from(MOVABLE));
    gives_a_trial_up(rt, disk, &mut agent);
    proves_a_trial(rt, disk, &mut agent);
    let kept = keeps_stopped(disk, &mut agent, calls, outcome);
    drop(agent);
    kept
}

fn keeps_stopped(
    disk: &mut MemDisk,
    agent: &mut Agent,
    calls: u64,
    outcome: Result<(), AgentFail>,
) -> bool
    requires well { IsWell disk.old agent.old }
    requires proved { agent.old.half.proved ≡ true }
    requires trying { is_some agent.old.half.trial ≡ true }
{
    disk.arm(calls);
    let kept = agent.commit_try(disk);
    let stopped = disk.stopped();
    disk.arm(0);
    kept == outcome && agent.broken() == outcome.is_err() && stopped == outcome.is_err()
}

#[test]
fn trial_given_up_and_kept(rt: HostRuntime) {
    assert!(rt; ends_at(&rt, 0, Mode::Old, Ok(()), "http://s2"));
}

// A save of the kept settings is four device calls.
fn ends_at(
    rt: &(impl Abort + AllocGlobal),
    calls: u64,
    mode: Mode,
    outcome: Result<(), AgentFail>,
    url: &str,
) -> bool {
    let mut disk = MemDisk::new(rt.alloc(), Vec::new(rt.alloc()));
    let kept = keeps_with_stop(rt, &mut disk, calls, outcome);
    disk.crash(mode);
    kept && starts_at(rt, &mut disk, url)
}

// The device call of the save that is stopped, what it leaves, whether the save fails, and the endpoint after a start.
const STOPS: [(u64, Mode, bool, &str); 15] = [
    (1, Mode::Old, true, "http://s0"),
    (2, Mode::Old, true, "http://s0"),
    (3, Mode::Old, true, "http://s0"),
    (4, Mode::Old, true, "http://s0"),
    (1, Mode::Torn, true, "http://s0"),
    (2, Mode::Torn, true, "http://s0"),
    (3, Mode::Torn, true, "http://s0"),
    (4, Mode::Torn, true, "http://s0"),
    (1, Mode::New, true, "http://s0"),
    (2, Mode::New, true, "http://s0"),
    (3, Mode::New, true, "http://s2"),
    (4, Mode::New, true, "http://s2"),
    (5, Mode::Old, false, "http://s2"),
    (5, Mode::Torn, false, "http://s2"),
    (5, Mode::New, false, "http://s2"),
];

fn outcome_of(fails: bool) -> Result<(), AgentFail> {
    if fails {
        Err(AgentFail::StoreFault)
    } else {
        Ok(())
    }
}

#[test]
fn stops_while_storing(rt: HostRuntime) {
    for (calls, mode, fails, url) in &STOPS {
        let kept = ends_at(&rt, *calls, *mode, outcome_of(*fails), url);
        assert!(rt; kept, "{calls} {mode:?}");
    }
}

// An endpoint and a header that are offered, and what the reply is taken for.
const REFUSED: [(&str, Option<(&str, &str)>, &str); 7] = [
    ("wss://s1", None, "refused wss://s1"),
    ("http://", None, "refused http://"),
    ("http://s1", Some(("Host", "s0")), "refused http://s1"),
    (
        "http://s1",
        Some(("OpAMP-Instance-UID", "x")),
        "refused http://s1",
    ),
    (
        "http://s1",
        Some(("opamp-instance-uid", "x")),
        "refused http://s1",
    ),
    ("http://s1", Some(("a b", "c")), "refused http://s1"),
    ("http://s1", Some(("a", "c\nd")), "refused http://s1"),
];

fn with_header(url: &'static str, header: Option<(&'static str, &'static str)>) -> Answer {
    Answer {
        connection: Some(Connection {
            url,
            hash: b"1",
            header,
        }),
        ..PLAIN
    }
}

// The offer is refused twice, and the report after it is one of no changes. Whether the agent then goes to its former endpoint.
fn refuses(rt: &(impl Abort + AllocGlobal), answer: Answer, words: &str) -> bool {
    let mut disk = MemDisk::new(rt.alloc(), Vec::new(rt.alloc()));
    let mut agent = starts(rt, &mut disk, from(MOVABLE));
    reports(
        rt,
        &mut disk,
        &mut agent,
        whole(1, b"\x10\x01\x1a\x00\x20\x81\x12\x2a\x02\x08\x01\x62\x00"),
    );
    hears(rt, &mut disk, &mut agent, answer, words);
    reports(rt, &mut disk, &mut agent, delta(2, b"\x10\x02\x20\x81\x12"));
    hears(rt, &mut disk, &mut agent, answer, words);
    reports(rt, &mut disk, &mut agent, delta(3, b"\x10\x03\x20\x81\x12"));
    let aimed = aims(&agent, "http://s0");
    drop(agent);
    aimed
}

#[test]
fn trial_refused(rt: HostRuntime) {
    for (url, header, words) in &REFUSED {
        let answer = with_header(url, *header);
        assert!(rt; refuses(&rt, answer, words), "{words}");
    }
}

// It accepts configurations, and tells what becomes of them.
const CONFIGURED: Look = Look {
    capabilities: 0x1803,
    ..HEALTHY
};

const BAD_NAME: Config = Config {
    name: "../x",
    hash: b"\x93\x1f\xcc\x8d\xc8\x0e\xc2\x24\xd1\xf1\xec\x50\x8b\x95\xcf\x14\x65\xb3\x81\x0b\x45\x01\x42\x0b\x00\xc0\x0f\xca\xc1\x41\xd5\x76",
};

const GOOD_NAME: Config = Config {
    name: "x",
    hash: b"\x8c\xfc\xbc\x11\x26\xb7\x06\x1e\x6a\x84\xe5\x90\x99\xf4\x2a\xdf\xc7\x13\x82\x3d\xd1\xae\x0a\x1a\x73\x5b\xfe\x6e\x6e\x39\xed\xa3",
};

const fn offers(config: Config) -> Answer {
    Answer {
        config: Some(config),
        ..PLAIN
    }
}

// Two reports, and an answer to the second that offers the configuration.
fn is_offered(
    rt: &(impl Abort + AllocGlobal),
    disk: &mut MemDisk,
    agent: &mut Agent,
    config: Config,
)
    requires well { IsWell disk.old agent.old }
    ensures well { IsWell disk.new agent.new }
{
    reports(
        rt,
        disk,
        agent,
        whole(
            1,
            b"\x10\x01\x1a\x00\x20\x83\x30\x2a\x02\x08\x01\x3a\x00\x62\x00",
        ),
    );
    hears(rt, disk, agent, PLAIN, "");
    reports(rt, disk, agent, delta(2, b"\x10\x02\x20\x83\x30"));
    hears(rt, disk, agent, offers(config), "config");
}

// Whether the configuration in use has so many files.
fn has_files(agent: &Agent, count: u64) -> bool {
    agent.saved().config.config_map.len() == count
}

// That the configuration failed, and the words `bad name`.
const NOT_APPLIED: Told = Told {
    number: 3,
    whole: false,
    rest: b"\x10\x03\x20\x83\x30\x3a\x2e\x0a\x20\x93\x1f\xcc\x8d\xc8\x0e\xc2\x24\xd1\xf1\xec\x50\x8b\x95\xcf\x14\x65\xb3\x81\x0b\x45\x01\x42\x0b\x00\xc0\x0f\xca\xc1\x41\xd5\x76\x10\x03\x1a\x08\x62\x61\x64\x20\x6e\x61\x6d\x65",
};

#[test]
fn bad_name_fails(rt: HostRuntime) {
    let mut disk = MemDisk::new(rt.alloc(), Vec::new(rt.alloc()));
    let mut agent = starts(&rt, &mut disk, from(CONFIGURED));
    is_offered(&rt, &mut disk, &mut agent, BAD_NAME);
    config_fails(&rt, &mut disk, &mut agent, BAD_NAME.hash, "bad name");
    reports(&rt, &mut disk, &mut agent, NOT_APPLIED);
    hears(&rt, &mut disk, &mut agent, offers(BAD_NAME), "");
    let has_none = has_files(&agent, 0);
    drop(agent);
    assert!(rt; has_none);
}

// That the configuration is applied.
const IS_APPLIED: Told = Told {
    number: 3,
    whole: false,
    rest: b"\x10\x03\x20\x83\x30\x3a\x24\x0a\x20\x8c\xfc\xbc\x11\x26\xb7\x06\x1e\x6a\x84\xe5\x90\x99\xf4\x2a\xdf\xc7\x13\x82\x3d\xd1\xae\x0a\x1a\x73\x5b\xfe\x6e\x6e\x39\xed\xa3\x10\x01",
};

fn applies(rt: &(impl Abort + AllocGlobal), disk: &mut MemDisk) {
    let mut agent = starts(rt, disk, from(CONFIGURED));
    is_offered(rt, disk, &mut agent, GOOD_NAME);
    config_ends(rt, disk, &mut agent, GOOD_NAME, Ok(()));
    reports(rt, disk, &mut agent, IS_APPLIED);
    hears(rt, disk, &mut agent, offers(GOOD_NAME), "");
    let has_one = has_files(&agent, 1);
    drop(agent);
    assert!(rt; has_one);
}

// Whether the configuration in use has so many files after a start.
fn starts_with_files(rt: &(impl Abort + AllocGlobal), disk: &mut MemDisk, count: u64) -> bool {
    let agent = starts(rt, disk, from(CONFIGURED));
    let has_so_many = has_files(&agent, count);
    drop(agent);
    has_so_many
}

#[test]
fn config_is_applied_and_kept(rt: HostRuntime) {
    let mut disk = MemDisk::new(rt.alloc(), Vec::new(rt.alloc()));
    applies(&rt, &mut disk);
    assert!(rt; starts_with_files(&rt, &mut disk, 1));
}

// The first device call of the save that is to keep the configuration is stopped.
fn stops_before_it_is_kept(rt: &(impl Abort + AllocGlobal), disk: &mut MemDisk) {
    let mut agent = starts(rt, disk, from(CONFIGURED));
    is_offered(rt, disk, &mut agent, GOOD_NAME);
    disk.arm(1);
    config_ends(rt, disk, &mut agent, GOOD_NAME, Err(AgentFail::StoreFault));
    let stopped = agent.broken() && disk.stopped();
    drop(agent);
    assert!(rt; stopped);
}

// The first report after a start that found no configuration.
const CONFIGURED_AGAIN: Told = Told {
    number: 1025,
    whole: true,
    rest: b"\x10\x81\x08\x1a\x00\x20\x83\x30\x2a\x02\x08\x01\x3a\x00\x62\x00",
};

fn applies_after_a_stop(rt: &(impl Abort + AllocGlobal), disk: &mut MemDisk) {
    let mut agent = starts(rt, disk, from(CONFIGURED));
    let has_none = has_files(&agent, 0);
    reports(rt, disk, &mut agent, CONFIGURED_AGAIN);
    hears(rt, disk, &mut agent, offers(GOOD_NAME), "config");
    config_ends(rt, disk, &mut agent, GOOD_NAME, Ok(()));
    let has_one = has_files(&agent, 1);
    drop(agent);
    assert!(rt; has_none && has_one);
}

#[test]
fn stopped_before_it_was_kept(rt: HostRuntime) {
    let mut disk = MemDisk::new(rt.alloc(), Vec::new(rt.alloc()));
    stops_before_it_is_kept(&rt, &mut disk);
    disk.crash(Mode::Old);
    applies_after_a_stop(&rt, &mut disk);
}

// It accepts packages, and tells what becomes of them.
const INSTALLING: Look = Look {
    capabilities: 0x819,
    ..HEALTHY
};

const OFFERS_PACKAGES: Answer = Answer {
    packages: Some(b"h"),
    ..PLAIN
};

#[test]
fn packages_are_told(rt: HostRuntime) {
    let mut disk = MemDisk::new(rt.alloc(), Vec::new(rt.alloc()));
    let mut agent = starts(&rt, &mut disk, from(INSTALLING));
    reports(
        &rt,
        &mut disk,
        &mut agent,
        whole(
            1,
            b"\x10\x01\x1a\x00\x20\x99\x10\x2a\x02\x08\x01\x42\x00\x62\x00",
        ),
    );
    hears(&rt, &mut disk, &mut agent, OFFERS_PACKAGES, "packages");
    packages_end(&rt, &mut disk, &mut agent, b"h", Ok(()));
    reports(
        &rt,
        &mut disk,
        &mut agent,
        delta(2, b"\x10\x02\x20\x99\x10\x42\x03\x12\x01\x68"),
    );
    hears(&rt, &mut disk, &mut agent, OFFERS_PACKAGES, "");
    drop(agent);
}
