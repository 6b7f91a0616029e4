//! When and how the reports of agents were taken.

ghost use Rattle.std.specs.Prelude.{◌≡◌, OnOk, OnErr, is_some};
ghost use Rattle.server_core.specs.Table.{find_record};
ghost use Rattle.server_lines.specs.Sights.{held_alone, held_marks, mark_at, nothing_seen, with_mark};

use plain_values::{NoMemory, Uid};
use server_core::Server;
use std::alloc::Global;
use std::collections::BTreeMap;
use std::marker::Model;

/// When and how the last report of an agent was taken.
#[derive(Clone, Copy, Debug, PartialEq, Eq)]
pub struct Mark {
    /// The second of the event that brought it.
    pub second: u64,
    /// The number of the connection on which it came.
    pub conn: u64,
    /// Whether that is one of WebSocket.
    pub ws: bool,
}

/// What is seen of agents beside their records: the second of the event that goes on, the mark of each agent's last report that was
/// taken, and how many were taken, up to 18,446,744,073,709,551,615. Contracts see it as `Seen`.
pub struct Sightings {
    second: u64,
    marks: BTreeMap<[u8; 16], Mark>,
    reports: u64,
}

// By hand, so that it is a call where a value is dropped, and not laid out there.
impl Drop for Sightings {
    fn drop(self) {
        let Sightings {
            second: _,
            marks: _,
            reports: _,
        } = self;
    }
}

impl Model for Sightings {
    ghost use Rattle.std.specs.Coded.{codes};
    ghost use Rattle.server_lines.specs.contracts.sights.Mark as mark;
    ghost use Rattle.server_lines.specs.Sights.{Seen};

    ghost Value = { Seen };

    ghost coded = { Prim.hlevel (codes, mark.the_row.coded) };

    ghost view = { λ s. record { second = s.second; marks = s.marks.entries; reports = s.reports } };
}

// The bytes of an identifier.
fn bytes_of(uid: &Uid) -> [u8; 16]
    ensures bytes { result ≡ uid.now }
{
    match <[u8; 16]>::try_from(uid.as_slice()) {
        Ok(bytes) => bytes,
        Err(_) => unreachable!(),
    }
}

// Whether the agent of these bytes is held.
fn is_held(server: &Server, uid: &[u8; 16]) -> bool
    ensures held { result ≡ is_some (find_record server.now.table.records uid.now) }
{
    server.find(&Uid::of(*uid)).is_some()
}

// The marks of agents that aren't held go.
fn drop_others(marks: &mut BTreeMap<[u8; 16], Mark>, server: &Server)
    ensures dropped { marks.new.entries ≡ held_marks server.now.table.records marks.old.entries }
{
    marks.retain(|uid, _mark| is_held(server, uid));
}

impl Sightings {
    /// Nothing is seen yet. Takes no memory.
    pub fn new(alloc: Global) -> Sightings
        ensures none { result ≡ nothing_seen }
    {
        Sightings {
            second: 0,
            marks: BTreeMap::new(alloc),
            reports: 0,
        }
    }

    /// An event of this second goes on. Takes no memory.
    pub fn begin(&mut self, second: u64)
        ensures begun { self.new ≡ record self.old { second = second } }
    {
        self.second = second;
    }

    /// A report of the agent was taken, on the connection of this number, which is one of WebSocket or isn't. Want of memory changes
    /// nothing.
    #[tactic(auto, unfolding(crate::specs::Sights::with_mark))]
    pub fn note(&mut self, uid: &Uid, conn: u64, ws: bool) -> Result<(), NoMemory>
        ensures ok { OnOk result (self.new ≡ with_mark uid.now conn ws self.old) }
        ensures err { OnErr result (self.new ≡ self.old) }
    {
        let mark = Mark {
            second: self.second,
            conn,
            ws,
        };
        self.marks.insert(bytes_of(uid), mark)?;
        self.reports = self.reports.saturating_add(1);
        Ok(())
    }

    /// Where there are more marks than agents are held, the marks of those that aren't held go. Takes no memory.
    #[tactic(auto, unfolding(crate::specs::Sights::held_alone))]
    pub fn keep_held(&mut self, server: &Server)
        ensures held { self.new ≡ held_alone server.now.table.records self.old }
    {
        if self.marks.len() > server.list().len() {
            drop_others(&mut self.marks, server);
        }
    }

    /// The second of the event that goes on. Takes no memory.
    pub(crate) fn second(&self) -> u64
        ensures second { result ≡ self.now.second }
    {
        self.second
    }

    /// How many reports were taken. Takes no memory.
    pub(crate) fn reports(&self) -> u64
        ensures reports { result ≡ self.now.reports }
    {
        self.reports
    }

    /// The mark of an agent's last report. Takes no memory.
    pub(crate) fn mark(&self, uid: &Uid) -> Option<Mark>
        ensures mark { result ≡ mark_at self.now uid.now }
    {
        self.marks.get(&bytes_of(uid)).copied()
    }
}
