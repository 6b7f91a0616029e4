//! What the examples do, each step with the agent's disk behind it. A step that comes out otherwise than the example has it ends the test.

ghost use Rattle.std.specs.Prelude.{◌≡◌, ◌≢◌, true, IsTrue, IfSome, is_some};
ghost use Rattle.edge_devices.specs.Endpoints.{is_endpoint};
ghost use Rattle.agent_rules.specs.Half.{kept_part};
ghost use Rattle.agent_tests.specs.Wells.{IsWell};

use crate::comparing::expect_same;
use crate::values::{
    Answer, Config, Look, UID, files, local, message, packages, reply_of, settings, status,
};
use agent_rules::{APPLIED, AgentFail, FAILED, LocalState, Next, Prepared, Saved};
use agent_state::Agent;
use agent_store::{Layout, Store};
use edge_devices::{MemDisk, endpoint_ok, name_ok};
use message_values::{ServerToAgent, Settings};
use plain_values::{NoMemory, Uid};
use std::alloc::Global;
use std::process::Abort;

/// Room for what the agents here keep. A disk in memory goes over its calls at each read, so a short one is quicker than that of a script.
pub(crate) const LAYOUT: Layout = Layout {
    room: 256,
    log: 128,
};

/// How an agent is started.
#[derive(Clone, Copy)]
pub(crate) struct Start {
    pub(crate) layout: Layout,
    pub(crate) look: Look,
    pub(crate) asks_uid: bool,
}

pub(crate) const fn from(look: Look) -> Start {
    Start {
        layout: LAYOUT,
        look,
        asks_uid: false,
    }
}

// The settings of the server `http://s0`.
fn first_settings(rt: &(impl Abort + AllocGlobal)) -> Settings
    ensures endpoint { IsTrue (is_endpoint result.endpoint) }
{
    let first = settings(rt, "http://s0");
    assert!(rt; endpoint_ok(first.endpoint.as_str()));
    first
}

/// An agent starts from its disk; a fresh one gives it the identifier `UID` and the server `http://s0`.
pub(crate) fn starts(rt: &(impl Abort + AllocGlobal), disk: &mut MemDisk, start: Start) -> Agent
    ensures well { IsWell disk.new result }
{
    let local = local(rt, start.look);
    let first = first_settings(rt);
    match starts_with(rt.alloc(), disk, start.layout, local, first, start.asks_uid) {
        Some(agent) => agent,
        None => panic!(rt; "no start"),
    }
}

// None where the store isn't loaded.
fn starts_with(
    alloc: Global,
    disk: &mut MemDisk,
    layout: Layout,
    local: LocalState,
    first: Settings,
    asks_uid: bool,
) -> Option<Agent>
    requires endpoint { IsTrue (is_endpoint first.endpoint) }
    ensures well { IfSome result (λ agent. IsWell disk.new agent) }
{
    match Store::load::<Saved, MemDisk>(alloc, disk, layout) {
        Ok((store, opened)) => {
            let fresh = Uid::of(UID);
            Some(Agent::start(alloc, store, opened, local, fresh, first, asks_uid))
        }
        Err(_) => {
            drop(local);
            drop(first);
            None
        }
    }
}

/// A report that is expected: its number, whether it is whole, and its bytes behind the identifier.
#[derive(Clone, Copy)]
pub(crate) struct Told {
    pub(crate) number: u64,
    pub(crate) whole: bool,
    pub(crate) rest: &'static [u8],
}

// Whether this is the report that is expected of the identifier, which is its first field.
fn is_told(report: &Prepared, uid: [u8; 16], told: Told) -> bool {
    if report.number != told.number || report.whole != told.whole {
        return false;
    }
    let bytes = report.bytes.as_slice();
    match bytes.strip_prefix(b"\x0a\x10".as_slice()) {
        Some(bytes) => match bytes.strip_prefix(uid.as_slice()) {
            Some(bytes) => bytes == told.rest,
            None => false,
        },
        None => false,
    }
}

/// What comes of the next report.
pub(crate) fn reported(
    rt: &impl Abort,
    disk: &mut MemDisk,
    agent: &mut Agent,
) -> Result<Prepared, AgentFail>
    requires well { IsWell disk.old agent.old }
    ensures well { result ≢ Err AgentFail.StoreFault → IsWell disk.new agent.new }
{
    if agent.awaits() {
        panic!(rt; "a reply is awaited");
    }
    agent.report(disk)
}

/// Whether the agent makes this report, under this identifier.
pub(crate) fn reports_as(
    rt: &impl Abort,
    disk: &mut MemDisk,
    agent: &mut Agent,
    uid: [u8; 16],
    told: Told,
) -> bool
    requires well { IsWell disk.old agent.old }
    ensures well { IsWell disk.new agent.new }
{
    match reported(rt, disk, agent) {
        Ok(report) => {
            let is_so = is_told(&report, uid, told);
            drop(report);
            is_so && agent.awaits()
        }
        Err(_) => panic!(rt; "no report"),
    }
}

/// The agent makes this report.
pub(crate) fn reports(rt: &impl Abort, disk: &mut MemDisk, agent: &mut Agent, told: Told)
    requires well { IsWell disk.old agent.old }
    ensures well { IsWell disk.new agent.new }
{
    assert!(rt;
        reports_as(rt, disk, agent, UID, told),
        "report {}",
        told.number
    );
}

/// Whether an agent that starts from its disk makes this report, under this identifier.
pub(crate) fn tells_at_start(
    rt: &(impl Abort + AllocGlobal),
    disk: &mut MemDisk,
    start: Start,
    uid: [u8; 16],
    told: Told,
) -> bool {
    let mut agent = starts(rt, disk, start);
    let is_so = reports_as(rt, disk, &mut agent, uid, told);
    drop(agent);
    is_so
}

/// The report is too large.
pub(crate) fn report_is_too_large(rt: &impl Abort, disk: &mut MemDisk, agent: &mut Agent)
    requires well { IsWell disk.old agent.old }
    ensures well { IsWell disk.new agent.new }
{
    match reported(rt, disk, agent) {
        Err(AgentFail::TooLarge) => assert!(rt; !agent.awaits()),
        _ => panic!(rt; "the report isn't too large"),
    }
}

fn put(rt: &impl Abort, words: &mut String, holds: bool, word: &str) {
    if holds {
        if !words.is_empty() {
            words.push_str(" ").expect(rt, "memory");
        }
        words.push_str(word).expect(rt, "memory");
    }
}

// What a reply asks, in words.
fn words_of(rt: &(impl Abort + AllocGlobal), next: &Next) -> String {
    let mut words = String::new(rt.alloc());
    put(rt, &mut words, next.full, "full");
    put(rt, &mut words, next.error.is_some(), "error");
    put(rt, &mut words, next.restart, "restart");
    put(rt, &mut words, next.proved, "proved");
    put(rt, &mut words, next.config.is_some(), "config");
    put(rt, &mut words, next.packages.is_some(), "packages");
    if let Some(settings) = &next.connection {
        put(rt, &mut words, true, "try");
        put(rt, &mut words, true, settings.endpoint.as_str());
    }
    if let Some(url) = &next.refused {
        put(rt, &mut words, true, "refused");
        put(rt, &mut words, true, url.as_str());
    }
    words
}

// What the agent makes of the reply.
fn heeds(rt: &impl Abort, disk: &mut MemDisk, agent: &mut Agent, reply: &ServerToAgent) -> Next
    requires well { IsWell disk.old agent.old }
    ensures well { IsWell disk.new agent.new }
    ensures proved { result.proved ≡ true → agent.new.half.proved ≡ true }
    ensures trying { result.proved ≡ true → is_some agent.new.half.trial ≡ true }
{
    assert!(rt; agent.awaits());
    match agent.on_reply(disk, reply) {
        Ok(next) => next,
        Err(_) => panic!(rt; "the reply isn't taken"),
    }
}

// The same of a reply that is made here.
fn takes(
    rt: &(impl Abort + AllocGlobal),
    disk: &mut MemDisk,
    agent: &mut Agent,
    answer: Answer,
) -> Next
    requires well { IsWell disk.old agent.old }
    ensures well { IsWell disk.new agent.new }
    ensures proved { result.proved ≡ true → agent.new.half.proved ≡ true }
    ensures trying { result.proved ≡ true → is_some agent.new.half.trial ≡ true }
{
    let reply = reply_of(rt, answer);
    let next = heeds(rt, disk, agent, &reply);
    drop(reply);
    next
}

/// The agent takes the reply, which asks for what these words say.
pub(crate) fn hears(
    rt: &(impl Abort + AllocGlobal),
    disk: &mut MemDisk,
    agent: &mut Agent,
    answer: Answer,
    words: &str,
)
    requires well { IsWell disk.old agent.old }
    ensures well { IsWell disk.new agent.new }
{
    let next = takes(rt, disk, agent, answer);
    let said = words_of(rt, &next);
    drop(next);
    expect_same(rt, &said.as_str(), &words);
}

/// The reply is to another agent, and one to this agent is awaited still.
pub(crate) fn reply_is_to_another(
    rt: &(impl Abort + AllocGlobal),
    disk: &mut MemDisk,
    agent: &mut Agent,
    answer: Answer,
)
    requires well { IsWell disk.old agent.old }
    ensures well { IsWell disk.new agent.new }
{
    let reply = reply_of(rt, answer);
    refuses_other(rt, disk, agent, &reply);
    drop(reply);
}

fn refuses_other(rt: &impl Abort, disk: &mut MemDisk, agent: &mut Agent, reply: &ServerToAgent)
    requires well { IsWell disk.old agent.old }
    ensures well { IsWell disk.new agent.new }
{
    assert!(rt; agent.awaits());
    match agent.on_reply(disk, reply) {
        Err(AgentFail::WrongUid) => assert!(rt; agent.awaits()),
        _ => panic!(rt; "the reply isn't to another agent"),
    }
}

/// There is no room for what the reply teaches, and a reply is awaited still.
pub(crate) fn lesson_has_no_room(
    rt: &(impl Abort + AllocGlobal),
    disk: &mut MemDisk,
    agent: &mut Agent,
    answer: Answer,
)
    requires well { IsWell disk.old agent.old }
    ensures well { IsWell disk.new agent.new }
{
    let reply = reply_of(rt, answer);
    refuses_lesson(rt, disk, agent, &reply);
    drop(reply);
}

fn refuses_lesson(rt: &impl Abort, disk: &mut MemDisk, agent: &mut Agent, reply: &ServerToAgent)
    requires well { IsWell disk.old agent.old }
    ensures well { IsWell disk.new agent.new }
{
    assert!(rt; agent.awaits());
    match agent.on_reply(disk, reply) {
        Err(AgentFail::TooLarge) => assert!(rt; agent.awaits()),
        _ => panic!(rt; "there is room for the lesson"),
    }
}

/// The agent takes a reply that offers a connection, and tries it.
pub(crate) fn tries(
    rt: &(impl Abort + AllocGlobal),
    disk: &mut MemDisk,
    agent: &mut Agent,
    answer: Answer,
    url: &str,
)
    requires well { IsWell disk.old agent.old }
    ensures well { IsWell disk.new agent.new }
{
    let mut next = takes(rt, disk, agent, answer);
    let offered = next.connection.take();
    drop(next);
    begins(rt, agent, offered.expect(rt, "settings"));
    assert!(rt; aims(agent, url));
}

fn begins(rt: &impl Abort, agent: &mut Agent, settings: Settings)
    ensures store { agent.new.store ≡ agent.old.store }
    ensures part { kept_part agent.new.half ≡ kept_part agent.old.half }
{
    if agent.awaits() || agent.trying() || !endpoint_ok(settings.endpoint.as_str()) {
        panic!(rt; "the settings can't be tried");
    }
    agent.begin_try(settings);
    assert!(rt; agent.trying());
}

/// Whether the next report goes to this endpoint.
pub(crate) fn aims(agent: &Agent, url: &str) -> bool {
    agent.target().endpoint.as_str() == url
}

/// The agent takes a plain reply to a report of its trial, which proves it.
pub(crate) fn hears_proof(
    rt: &(impl Abort + AllocGlobal),
    disk: &mut MemDisk,
    agent: &mut Agent,
    answer: Answer,
)
    requires well { IsWell disk.old agent.old }
    ensures well { IsWell disk.new agent.new }
    ensures proved { agent.new.half.proved ≡ true }
    ensures trying { is_some agent.new.half.trial ≡ true }
{
    let next = takes(rt, disk, agent, answer);
    assert!(rt; next.proved);
    drop(next);
}

/// The agent abandons its trial.
pub(crate) fn abandons(rt: &impl Abort, agent: &mut Agent)
    ensures store { agent.new.store ≡ agent.old.store }
    ensures part { kept_part agent.new.half ≡ kept_part agent.old.half }
{
    if agent.awaits() || !agent.trying() {
        panic!(rt; "no trial can be abandoned");
    }
    agent.abandon_try();
    assert!(rt; !agent.trying());
}

/// The agent gives up waiting.
pub(crate) fn gives_up(rt: &impl Abort, agent: &mut Agent)
    ensures store { agent.new.store ≡ agent.old.store }
    ensures part { kept_part agent.new.half ≡ kept_part agent.old.half }
{
    assert!(rt; agent.awaits());
    agent.give_up();
    assert!(rt; !agent.awaits());
}

/// The agent knows this of itself from now on.
pub(crate) fn changes(agent: &mut Agent, local: LocalState)
    ensures store { agent.new.store ≡ agent.old.store }
    ensures part { kept_part agent.new.half ≡ kept_part agent.old.half }
{
    agent.change(local);
}

/// The agent has the custom message to say.
pub(crate) fn has_to_say(rt: &(impl Abort + AllocGlobal), agent: &mut Agent)
    ensures store { agent.new.store ≡ agent.old.store }
    ensures part { kept_part agent.new.half ≡ kept_part agent.old.half }
{
    agent.say(message(rt));
}

/// A configuration wasn't applied, for this reason.
pub(crate) fn config_fails(
    rt: &(impl Abort + AllocGlobal),
    disk: &mut MemDisk,
    agent: &mut Agent,
    hash: &[u8],
    why: &str,
)
    requires well { IsWell disk.old agent.old }
    ensures well { IsWell disk.new agent.new }
{
    let status = status(rt, hash, FAILED, why);
    let kept = agent.config_done(disk, None, status);
    assert!(rt; kept == Ok(()));
}

/// A configuration was applied, and is kept, or not for this reason.
pub(crate) fn config_ends(
    rt: &(impl Abort + AllocGlobal),
    disk: &mut MemDisk,
    agent: &mut Agent,
    config: Config,
    outcome: Result<(), AgentFail>,
)
    requires well { IsWell disk.old agent.old }
    ensures well { outcome ≢ Err AgentFail.StoreFault → IsWell disk.new agent.new }
{
    let files = files(rt, config.name);
    let status = status(rt, config.hash, APPLIED, "");
    assert!(rt; name_ok(&files));
    match agent.config_trial(files) {
        Ok(trial) => {
            let kept = agent.config_done(disk, Some(trial), status);
            assert!(rt; kept == outcome);
        }
        Err(NoMemory) => panic!(rt; "memory"),
    }
}

/// The statuses of the packages are kept, or not for this reason.
pub(crate) fn packages_end(
    rt: &(impl Abort + AllocGlobal),
    disk: &mut MemDisk,
    agent: &mut Agent,
    hash: &[u8],
    outcome: Result<(), AgentFail>,
)
    requires well { IsWell disk.old agent.old }
    ensures well { outcome ≢ Err AgentFail.StoreFault → IsWell disk.new agent.new }
{
    let statuses = packages(rt, hash);
    let kept = agent.packages_done(disk, statuses);
    assert!(rt; kept == outcome);
}
