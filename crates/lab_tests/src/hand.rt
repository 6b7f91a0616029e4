//! A script that is played by the agent's and the servers' own calls, and by no code of the lab. What is asked of each line is what is written of it; a line that
//! comes out otherwise than a script of these tests has it ends the test.

ghost use Rattle.std.specs.Prelude.{◌≡◌, IsTrue, true, false, is_some};
ghost use Rattle.edge_devices.specs.Endpoints.{is_endpoint};
ghost use Rattle.agent_rules.specs.Half.{kept_part};
ghost use Rattle.lab_tests.specs.Wells.{IsWell};

use agent_rules::{APPLIED, AgentFail, LocalState, Next, Prepared, Saved};
use agent_state::Agent;
use agent_store::{Layout, Store};
use edge_devices::{MemDisk, endpoint_ok, name_ok};
use message_deltas::full;
use message_reports::decoding::decode_report;
use message_reports::encoding::encode_report;
use message_values::{
    AgentDescription, AgentRemoteConfig, AgentToServer, AnyValue, AvailableComponents,
    ComponentHealth, CustomCapabilities, EffectiveConfig, KeyValue, OpAMPConnectionSettings,
    RemoteConfigStatus, ServerToAgent, Settings,
};
use plain_values::{AgentConfigFile, AgentConfigMap, Blob, Headers, List, Map, Plain, Text, Uid};
use server_core::{OfferFail, Record, Server};
use std::alloc::Global;
use std::mem::replace;
use std::process::Abort;
use world_scripts::Line;

const UID: [u8; 16] = [0, 1, 2, 3, 4, 5, 6, 7, 8, 9, 10, 11, 12, 13, 14, 15];

// The store of a script's agent, in bytes.
const LAYOUT: Layout = Layout {
    room: 2_097_152,
    log: 65_536,
};

// "ServerToAgentFlags_ReportFullState".
const FULL_STATE: u64 = 1;

// A report that was sent, and the reply to its latest delivery.
struct Sent {
    server: usize,
    message: AgentToServer,
    reply: Option<ServerToAgent>,
}

// By hand, so that it is a call where a value is dropped, and not laid out there.
impl Drop for Sent {
    fn drop(self) {
        let Sent {
            server: _,
            message: _,
            reply: _,
        } = self;
    }
}

// A message that a server pushed.
struct Push {
    server: usize,
    message: ServerToAgent,
}

// By hand, so that it is a call where a value is dropped, and not laid out there.
impl Drop for Push {
    fn drop(self) {
        let Push {
            server: _,
            message: _,
        } = self;
    }
}

impl Push {
    fn into_message(self) -> ServerToAgent {
        let Push { server: _, message } = self;
        message
    }
}

/// The servers, what was sent to them, and what they pushed.
pub(crate) struct Desk {
    servers: Vec<Server>,
    sent: Vec<Sent>,
    pushes: Vec<Push>,
    local: LocalState,
}

// By hand, so that it is a call where a value is dropped, and not laid out there.
impl Drop for Desk {
    fn drop(self) {
        let Desk {
            servers: _,
            sent: _,
            pushes: _,
            local: _,
        } = self;
    }
}

fn empty(alloc: Global) -> Text {
    Text::of(String::new(alloc))
}

fn health(alloc: Global, error: Option<Text>) -> ComponentHealth {
    let healthy = error.is_none();
    let last_error = match error {
        Some(error) => error,
        None => empty(alloc),
    };
    ComponentHealth {
        healthy,
        start_time_unix_nano: 0,
        last_error,
        status: empty(alloc),
        status_time_unix_nano: 0,
        component_health_map: Map::new(alloc),
    }
}

// What a script's agent knows of itself at first.
fn first_local(alloc: Global) -> LocalState {
    LocalState {
        description: AgentDescription {
            identifying_attributes: List::new(alloc),
            non_identifying_attributes: List::new(alloc),
        },
        capabilities: 0x801,
        health: health(alloc, None),
        effective: EffectiveConfig { config_map: None },
        components: AvailableComponents {
            components: Map::new(alloc),
            hash: Blob::of(Vec::new(alloc)),
        },
        custom: CustomCapabilities {
            capabilities: List::new(alloc),
        },
    }
}

fn server(alloc: Global) -> Server {
    let custom = CustomCapabilities {
        capabilities: List::new(alloc),
    };
    Server::new(alloc, 63, custom)
}

/// Ten servers that hold nothing, and an agent that knows nothing but that it is well.
pub(crate) fn set_up(rt: &(impl Abort + AllocGlobal)) -> Desk {
    let mut servers = Vec::new(rt.alloc());
    for _ in 0..10 {
        servers.push(server(rt.alloc())).expect(rt, "memory");
    }
    Desk {
        servers,
        sent: Vec::new(rt.alloc()),
        pushes: Vec::new(rt.alloc()),
        local: first_local(rt.alloc()),
    }
}

fn first_settings(rt: &(impl Abort + AllocGlobal)) -> Settings
    ensures endpoint { IsTrue (is_endpoint result.endpoint) }
{
    let first = Settings {
        endpoint: Text::of(String::from_str(rt.alloc(), "http://s0").expect(rt, "memory")),
        headers: Headers {
            headers: List::new(rt.alloc()),
        },
        interval: 0,
        hash: Blob::of(Vec::new(rt.alloc())),
    };
    assert!(rt; endpoint_ok(first.endpoint.as_str()), "an endpoint");
    first
}

// The agent starts from its disk, knowing this of itself.
fn starts(rt: &(impl Abort + AllocGlobal), disk: &mut MemDisk, local: LocalState) -> Agent
    ensures well { IsWell disk.new result }
{
    match Store::load::<Saved, MemDisk>(rt.alloc(), disk, LAYOUT) {
        Ok((store, opened)) => {
            let first = first_settings(rt);
            let uid = Uid::of(UID);
            Agent::start(rt.alloc(), store, opened, local, uid, first, false)
        }
        Err(fail) => panic!(rt; "{fail:?}"),
    }
}

/// The agent starts for the first time.
pub(crate) fn begins(rt: &(impl Abort + AllocGlobal), disk: &mut MemDisk) -> Agent
    ensures well { IsWell disk.new result }
{
    starts(rt, disk, first_local(rt.alloc()))
}

// The number of the server at an endpoint `http://sN`.
fn number_of(endpoint: &Text) -> usize {
    match endpoint.as_str().as_bytes().last() {
        Some(digit) => usize::from(digit.saturating_sub(b'0')),
        None => 10,
    }
}

fn one_line(rt: &(impl Abort + AllocGlobal), words: &str) -> String {
    let mut line = String::from_str(rt.alloc(), words).expect(rt, "memory");
    line.push('\n').expect(rt, "memory");
    line
}

fn hex(rt: &(impl Abort + AllocGlobal), bytes: &[u8]) -> String {
    let mut digits = String::new(rt.alloc());
    for byte in bytes {
        for half in [byte >> 4, byte & 15] {
            let digit = if half < 10 {
                b'0' + half
            } else {
                b'a' - 10 + half
            };
            digits.push(char::from(digit)).expect(rt, "memory");
        }
    }
    digits
}

fn sent_text(
    rt: &(impl Abort + AllocGlobal),
    report: usize,
    server: usize,
    made: &Prepared,
) -> String {
    let bytes = hex(rt, made.bytes.as_slice());
    let number = made.number;
    let form = if made.whole { "whole" } else { "delta" };
    format!(in rt.alloc(); "sent {report} {server} {number} {form} {bytes}\n").expect(rt, "memory")
}

// The agent reports.
fn sends(
    rt: &(impl Abort + AllocGlobal),
    desk: &mut Desk,
    disk: &mut MemDisk,
    agent: &mut Agent,
) -> String
    requires well { IsWell disk.old agent.old }
    ensures well { IsWell disk.new agent.new }
{
    if agent.awaits() {
        return one_line(rt, "nothing");
    }
    match agent.report(disk) {
        Ok(made) => {
            let line = keeps_sent(rt, desk, number_of(&agent.target().endpoint), &made);
            drop(made);
            line
        }
        Err(AgentFail::TooLarge) => one_line(rt, "nothing"),
        Err(AgentFail::NumbersSpent) => one_line(rt, "nothing"),
        Err(fail) => panic!(rt; "{fail:?}"),
    }
}

fn keeps_sent(
    rt: &(impl Abort + AllocGlobal),
    desk: &mut Desk,
    server: usize,
    made: &Prepared,
) -> String {
    let message = decode_report(rt.alloc(), made.bytes.as_slice()).expect(rt, "a report");
    let sent = Sent {
        server,
        message,
        reply: None,
    };
    desk.sent.push(sent).expect(rt, "memory");
    sent_text(rt, desk.sent.len(), server, made)
}

fn delivered_text(
    rt: &(impl Abort + AllocGlobal),
    full: bool,
    server: usize,
    number: u64,
) -> String {
    let text = if full {
        format!(in rt.alloc(); "asks {server}\n")
    } else {
        format!(in rt.alloc(); "takes {server} {number}\n")
    };
    text.expect(rt, "memory")
}

// A report reaches its server.
fn delivers(rt: &(impl Abort + AllocGlobal), desk: &mut Desk, report: u64) -> String {
    let place = report.saturating_sub(1) as usize;
    let Some(sent) = desk.sent.get_mut(place) else {
        return one_line(rt, "nothing");
    };
    let Some(server) = desk.servers.get_mut(sent.server) else {
        panic!(rt; "no server");
    };
    let reply = server.handle(&sent.message, None).expect(rt, "memory");
    let full = reply.flags & FULL_STATE != 0;
    drop(replace(&mut sent.reply, Some(reply)));
    delivered_text(rt, full, sent.server, sent.message.sequence_num)
}

// A word more, and a text behind it.
fn put(rt: &impl Abort, line: &mut String, word: &str, text: &str) {
    line.push_str(word).expect(rt, "memory");
    line.push_str(text).expect(rt, "memory");
}

// The agent goes back from the settings under trial.
fn abandons(rt: &impl Abort, agent: &mut Agent, line: &mut String)
    requires trying { is_some agent.old.half.trial ≡ true }
    requires idle { agent.old.half.awaits ≡ false }
    ensures store { agent.new.store ≡ agent.old.store }
    ensures part { kept_part agent.new.half ≡ kept_part agent.old.half }
{
    put(rt, line, " abandoned ", agent.target().endpoint.as_str());
    agent.abandon_try();
}

// The agent keeps the settings under trial.
fn commits(rt: &impl Abort, disk: &mut MemDisk, agent: &mut Agent, line: &mut String)
    requires well { IsWell disk.old agent.old }
    requires proved { agent.old.half.proved ≡ true }
    requires trying { is_some agent.old.half.trial ≡ true }
    ensures well { IsWell disk.new agent.new }
{
    put(rt, line, " kept ", agent.target().endpoint.as_str());
    match agent.commit_try(disk) {
        Ok(()) => {}
        Err(fail) => panic!(rt; "{fail:?}"),
    }
}

// A trial of settings ends: it is kept where it has its proof.
fn ends_trial(
    rt: &impl Abort,
    disk: &mut MemDisk,
    agent: &mut Agent,
    proved: bool,
    line: &mut String,
)
    requires well { IsWell disk.old agent.old }
    requires proved { proved ≡ true → agent.old.half.proved ≡ true }
    ensures well { IsWell disk.new agent.new }
{
    if agent.awaits() {
        panic!(rt; "a reply is awaited");
    }
    if !agent.trying() {
        return;
    }
    if proved {
        commits(rt, disk, agent, line)
    } else {
        abandons(rt, agent, line)
    }
}

fn applied(alloc: Global, hash: Blob) -> RemoteConfigStatus {
    RemoteConfigStatus {
        last_remote_config_hash: hash,
        status: APPLIED,
        error_message: empty(alloc),
    }
}

// A configuration with good names is applied.
fn configures(
    rt: &(impl Abort + AllocGlobal),
    disk: &mut MemDisk,
    agent: &mut Agent,
    offer: Option<AgentRemoteConfig>,
    line: &mut String,
)
    requires well { IsWell disk.old agent.old }
    ensures well { IsWell disk.new agent.new }
{
    let Some(offer) = offer else {
        return;
    };
    let AgentRemoteConfig {
        config,
        config_hash,
    } = offer;
    let files = config.expect(rt, "files");
    assert!(rt; name_ok(&files), "good names");
    let Ok(trial) = agent.config_trial(files) else {
        panic!(rt; "memory");
    };
    match agent.config_done(disk, Some(trial), applied(rt.alloc(), config_hash)) {
        Ok(()) => put(rt, line, " config", " applied"),
        Err(fail) => panic!(rt; "{fail:?}"),
    }
}

// Settings that are offered are tried.
fn tries(rt: &impl Abort, agent: &mut Agent, next: Option<Settings>, line: &mut String)
    ensures store { agent.new.store ≡ agent.old.store }
    ensures part { kept_part agent.new.half ≡ kept_part agent.old.half }
{
    let Some(settings) = next else {
        return;
    };
    if agent.awaits() || agent.trying() || !endpoint_ok(settings.endpoint.as_str()) {
        panic!(rt; "the settings can't be tried");
    }
    put(rt, line, " try ", settings.endpoint.as_str());
    agent.begin_try(settings);
}

// A reply that the agent takes, and what it asks of the agent's caller.
fn takes(rt: &impl Abort, disk: &mut MemDisk, agent: &mut Agent, reply: &ServerToAgent) -> Next
    requires well { IsWell disk.old agent.old }
    ensures well { IsWell disk.new agent.new }
    ensures proved { result.proved ≡ true → agent.new.half.proved ≡ true }
{
    if !agent.awaits() {
        panic!(rt; "no reply is awaited");
    }
    match agent.on_reply(disk, reply) {
        Ok(next) => next,
        Err(fail) => panic!(rt; "{fail:?}"),
    }
}

fn first_word(rt: &(impl Abort + AllocGlobal), full: bool) -> String {
    let word = if full { "full" } else { "plain" };
    String::from_str(rt.alloc(), word).expect(rt, "memory")
}

// A reply reaches the agent, which awaits it.
fn hears(
    rt: &(impl Abort + AllocGlobal),
    disk: &mut MemDisk,
    agent: &mut Agent,
    reply: &ServerToAgent,
) -> String
    requires well { IsWell disk.old agent.old }
    ensures well { IsWell disk.new agent.new }
{
    let mut next = takes(rt, disk, agent, reply);
    let mut line = first_word(rt, next.full);
    ends_trial(rt, disk, agent, next.proved, &mut line);
    configures(rt, disk, agent, next.config.take(), &mut line);
    tries(rt, agent, next.connection.take(), &mut line);
    drop(next);
    line.push('\n').expect(rt, "memory");
    line
}

// The reply to the last report reaches the agent.
fn replies(
    rt: &(impl Abort + AllocGlobal),
    desk: &Desk,
    disk: &mut MemDisk,
    agent: &mut Agent,
) -> String
    requires well { IsWell disk.old agent.old }
    ensures well { IsWell disk.new agent.new }
{
    if !agent.awaits() {
        return one_line(rt, "nothing");
    }
    let Some(sent) = desk.sent.as_slice().last() else {
        panic!(rt; "no report");
    };
    match &sent.reply {
        Some(reply) => hears(rt, disk, agent, reply),
        None => one_line(rt, "nothing"),
    }
}

// The agent gives up waiting.
fn gives_up(rt: &(impl Abort + AllocGlobal), desk: &mut Desk, agent: &mut Agent) -> String
    ensures store { agent.new.store ≡ agent.old.store }
    ensures part { kept_part agent.new.half ≡ kept_part agent.old.half }
{
    if !agent.awaits() {
        return one_line(rt, "nothing");
    }
    desk.pushes.clear();
    agent.give_up();
    if !agent.trying() || agent.awaits() {
        return one_line(rt, "gave-up");
    }
    let mut line = String::from_str(rt.alloc(), "gave-up").expect(rt, "memory");
    abandons(rt, agent, &mut line);
    line.push('\n').expect(rt, "memory");
    line
}

fn restarted_text(rt: &(impl Abort + AllocGlobal), agent: &Agent) -> String {
    let saved = agent.saved();
    let number = saved.limit;
    let endpoint = saved.settings.endpoint.as_str();
    format!(in rt.alloc(); "restarted {number} {endpoint}\n").expect(rt, "memory")
}

// The agent starts again.
fn restarts(
    rt: &(impl Abort + AllocGlobal),
    desk: &mut Desk,
    disk: &mut MemDisk,
    agent: &mut Agent,
) -> String
    ensures well { IsWell disk.new agent.new }
{
    desk.pushes.clear();
    let local = desk.local.copy(rt.alloc()).expect(rt, "memory");
    *agent = starts(rt, disk, local);
    restarted_text(rt, agent)
}

fn offered(rt: &(impl Abort + AllocGlobal), outcome: Result<(), OfferFail>) -> String {
    match outcome {
        Ok(()) => one_line(rt, "offered"),
        Err(OfferFail::NoMemory) => panic!(rt; "memory"),
        Err(_) => one_line(rt, "nothing"),
    }
}

// A server offers the agent an endpoint.
fn offers_connection(
    rt: &(impl Abort + AllocGlobal),
    desk: &mut Desk,
    agent: &Agent,
    at: usize,
    url: &Text,
) -> String {
    let Some(server) = desk.servers.get_mut(at) else {
        panic!(rt; "no server");
    };
    let settings = OpAMPConnectionSettings {
        destination_endpoint: url.copy(rt.alloc()).expect(rt, "memory"),
        headers: None,
        certificate: None,
        heartbeat_interval_seconds: 0,
    };
    offered(rt, server.offer_connection(&agent.saved().uid, settings))
}

fn one_file(rt: &(impl Abort + AllocGlobal), name: &Text, text: &Text) -> AgentConfigMap {
    let name = name.copy(rt.alloc()).expect(rt, "memory");
    let body = Vec::from_slice(rt.alloc(), text.as_str().as_bytes()).expect(rt, "memory");
    let file = AgentConfigFile {
        body: Blob::of(body),
        content_type: empty(rt.alloc()),
    };
    let mut config_map = Map::new(rt.alloc());
    config_map.put(name, file).expect(rt, "memory");
    AgentConfigMap { config_map }
}

// A server offers the agent one file.
fn offers_config(
    rt: &(impl Abort + AllocGlobal),
    desk: &mut Desk,
    agent: &Agent,
    at: usize,
    name: &Text,
    text: &Text,
) -> String {
    let Some(server) = desk.servers.get_mut(at) else {
        panic!(rt; "no server");
    };
    let config = one_file(rt, name, text);
    offered(rt, server.offer_config(&agent.saved().uid, config))
}

fn record_text(rt: &(impl Abort + AllocGlobal), at: usize, record: &Record) -> String {
    let number = record.number;
    let report = full(rt.alloc(), &record.uid, number, &record.state, None).expect(rt, "memory");
    let bytes = encode_report(rt.alloc(), &report).expect(rt, "a report");
    drop(report);
    let digits = hex(rt, bytes.as_slice());
    format!(in rt.alloc(); "record {at} {number} {digits}\n").expect(rt, "memory")
}

// What a server holds of the agent.
fn records(rt: &(impl Abort + AllocGlobal), desk: &Desk, agent: &Agent, at: usize) -> String {
    let Some(server) = desk.servers.get(at) else {
        panic!(rt; "no server");
    };
    match server.find(&agent.saved().uid) {
        Some(record) => record_text(rt, at, record),
        None => one_line(rt, "nothing"),
    }
}

// A server pushes what is due to the agent.
fn pushes(rt: &(impl Abort + AllocGlobal), desk: &mut Desk, agent: &Agent, at: usize) -> String {
    let Some(server) = desk.servers.get(at) else {
        panic!(rt; "no server");
    };
    match server.pushed(&agent.saved().uid).expect(rt, "memory") {
        Some(message) => {
            let push = Push {
                server: at,
                message,
            };
            desk.pushes.push(push).expect(rt, "memory");
            format!(in rt.alloc(); "pushed {at}\n").expect(rt, "memory")
        }
        None => one_line(rt, "nothing"),
    }
}

// The oldest push of the server.
fn oldest(desk: &mut Desk, at: usize) -> Option<ServerToAgent> {
    for place in 0..desk.pushes.len() {
        if desk.pushes[place].server == at {
            return Some(desk.pushes.remove(place).into_message());
        }
    }
    None
}

// A push of the target's server reaches the agent in place of the awaited reply.
fn takes_push(
    rt: &(impl Abort + AllocGlobal),
    desk: &mut Desk,
    disk: &mut MemDisk,
    agent: &mut Agent,
) -> String
    requires well { IsWell disk.old agent.old }
    ensures well { IsWell disk.new agent.new }
{
    if !agent.awaits() {
        return one_line(rt, "nothing");
    }
    match oldest(desk, number_of(&agent.target().endpoint)) {
        Some(message) => {
            let line = hears(rt, disk, agent, &message);
            drop(message);
            line
        }
        None => one_line(rt, "nothing"),
    }
}

// What the agent has in use: its endpoint, where it has no files.
fn in_use(rt: &(impl Abort + AllocGlobal), agent: &Agent) -> String {
    let saved = agent.saved();
    assert!(rt; saved.config.config_map.len() == 0, "no files");
    let endpoint = saved.settings.endpoint.as_str();
    format!(in rt.alloc(); "active {endpoint}\n").expect(rt, "memory")
}

// What the agent is told of itself, by a line that tells it.
fn tells(rt: &(impl Abort + AllocGlobal), local: &mut LocalState, line: &Line) {
    match line {
        Line::Caps { bits } => local.capabilities = *bits,
        Line::HealthBad { text } => {
            let error = text.copy(rt.alloc()).expect(rt, "memory");
            drop(replace(&mut local.health, health(rt.alloc(), Some(error))));
        }
        Line::Custom { name } => {
            let name = name.copy(rt.alloc()).expect(rt, "memory");
            local.custom.capabilities.push(name).expect(rt, "memory");
        }
        Line::Attr { key, text } => {
            let attribute = KeyValue {
                key: key.copy(rt.alloc()).expect(rt, "memory"),
                value: Some(AnyValue::Str(text.copy(rt.alloc()).expect(rt, "memory"))),
            };
            let attributes = &mut local.description.identifying_attributes;
            attributes.push(attribute).expect(rt, "memory");
        }
        _ => {}
    }
}

fn changes(
    rt: &(impl Abort + AllocGlobal),
    desk: &mut Desk,
    agent: &mut Agent,
    line: &Line,
) -> String
    ensures store { agent.new.store ≡ agent.old.store }
    ensures part { kept_part agent.new.half ≡ kept_part agent.old.half }
{
    tells(rt, &mut desk.local, line);
    agent.change(desk.local.copy(rt.alloc()).expect(rt, "memory"));
    one_line(rt, "changed")
}

/// A line is played, and this is written of it.
pub(crate) fn plays(
    rt: &(impl Abort + AllocGlobal),
    desk: &mut Desk,
    disk: &mut MemDisk,
    agent: &mut Agent,
    line: &Line,
) -> String
    requires well { IsWell disk.old agent.old }
    ensures well { IsWell disk.new agent.new }
{
    match line {
        Line::Send => sends(rt, desk, disk, agent),
        Line::Deliver { report } => delivers(rt, desk, *report),
        Line::Reply => replies(rt, desk, disk, agent),
        Line::GiveUp => gives_up(rt, desk, agent),
        Line::Restart => restarts(rt, desk, disk, agent),
        Line::OfferConnection { server, url } => {
            offers_connection(rt, desk, agent, usize::from(server.number()), url)
        }
        Line::OfferConfig { server, name, text } => {
            offers_config(rt, desk, agent, usize::from(server.number()), name, text)
        }
        Line::Record { server } => records(rt, desk, agent, usize::from(server.number())),
        Line::Push { server } => pushes(rt, desk, agent, usize::from(server.number())),
        Line::TakePush => takes_push(rt, desk, disk, agent),
        Line::Active => in_use(rt, agent),
        Line::Caps { .. } | Line::HealthBad { .. } | Line::Custom { .. } | Line::Attr { .. } => {
            changes(rt, desk, agent, line)
        }
        _ => panic!(rt; "no line of these scripts"),
    }
}
