// A rollout, the reports of its agents, and a configuration of one file.
use plain_values::{AgentConfigFile, AgentConfigMap, Blob, Map, Text, Uid};
use server_waves::{BeginFail, Progress, ServerDesk};
use std::process::Abort;

// The name of the rollout.
pub fn main_name(rt: &(impl Abort + AllocGlobal)) -> Text {
    Text::of(String::from_str(rt.alloc(), "main").expect(rt, "memory"))
}

// Begins a rollout of the file `x` with this body, of width 1, which halts at the first failure.
pub fn begin(
    rt: &(impl Abort + AllocGlobal),
    desk: &mut ServerDesk,
    body: &[u8],
) -> Result<(), BeginFail> {
    let files = config(rt, body);
    let ServerDesk { server, rollouts } = desk;
    rollouts.begin(rt.alloc(), server, main_name(rt), None, files, 1, 0)
}

// How far it is.
pub fn progress(rt: &(impl Abort + AllocGlobal), desk: &ServerDesk) -> (u64, u64, u64, u64, bool) {
    let name = main_name(rt);
    let rollout = desk.rollouts.find(&name).expect(rt, "a rollout");
    told(rollout.progress())
}

// The identifier whose last byte is this.
pub fn uid(last: u8) -> Uid {
    Uid::of([0, 1, 2, 3, 4, 5, 6, 7, 8, 9, 10, 11, 12, 13, 14, last])
}

// The file `x` with this body.
pub fn config(rt: &(impl Abort + AllocGlobal), body: &[u8]) -> AgentConfigMap {
    let file = AgentConfigFile {
        body: Blob::of(Vec::from_slice(rt.alloc(), body).expect(rt, "memory")),
        content_type: Text::of(String::new(rt.alloc())),
    };
    let name = Text::of(String::from_str(rt.alloc(), "x").expect(rt, "memory"));
    let mut files = Map::new(rt.alloc());
    files.put(name, file).expect(rt, "memory");
    AgentConfigMap { config_map: files }
}

// The report of that agent with this number, with these bytes behind the number.
pub fn bytes_of(rt: &(impl Abort + AllocGlobal), last: u8, number: u8, rest: &[u8]) -> Vec<u8> {
    let mut bytes = Vec::from_slice(rt.alloc(), b"\x0a\x10").expect(rt, "memory");
    bytes
        .extend_from_slice(uid(last).as_slice())
        .expect(rt, "memory");
    bytes
        .extend_from_slice(&[0x10, number])
        .expect(rt, "memory");
    bytes.extend_from_slice(rest).expect(rt, "memory");
    bytes
}

// A full and healthy report with the capabilities 0x1803, and no remote configuration yet.
pub const FULL: &[u8] = b"\x1a\x00\x20\x83\x30\x2a\x02\x08\x01\x3a\x00";

// The same agent later, of which nothing changed.
pub const SAME: &[u8] = b"\x20\x83\x30";

// How many agents wait, have the offer, applied it and failed, and whether the rollout is halted.
fn told(progress: Progress) -> (u64, u64, u64, u64, bool) {
    (
        progress.waiting,
        progress.offered,
        progress.applied,
        progress.failed,
        progress.halted,
    )
}

// SHA-256 of `0a0b0a090a017812040a026869`, the hash of the file `x` with the body `hi`.
pub const HASH: [u8; 32] =
    *b"\x8c\xfc\xbc\x11\x26\xb7\x06\x1e\x6a\x84\xe5\x90\x99\xf4\x2a\xdf\xc7\x13\x82\x3d\xd1\xae\x0a\x1a\x73\x5b\xfe\x6e\x6e\x39\xed\xa3";

// What an agent reports whose status has this number and names the hash.
pub fn status(rt: &(impl Abort + AllocGlobal), number: u8) -> Vec<u8> {
    status_of(rt, &HASH, number)
}

// The same with another hash.
pub fn status_of(rt: &(impl Abort + AllocGlobal), hash: &[u8; 32], number: u8) -> Vec<u8> {
    let mut bytes = Vec::from_slice(rt.alloc(), SAME).expect(rt, "memory");
    bytes
        .extend_from_slice(b"\x3a\x24\x0a\x20")
        .expect(rt, "memory");
    bytes.extend_from_slice(hash).expect(rt, "memory");
    bytes
        .extend_from_slice(&[0x10, number])
        .expect(rt, "memory");
    bytes
}
