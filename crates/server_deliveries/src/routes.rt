//! Which connection reaches an agent.

ghost use Rattle.std.specs.Prelude.{◌≡◌, ℕ, OnOk};
ghost use Rattle.std.specs.Prelude.{List as Items};
ghost use Rattle.server_deliveries.specs.Routes.{no_routes, route_to, routes_ended, routes_noted, routes_with, routes_without};
ghost use Rattle.std.specs.Prelude.{true};
ghost use Rattle.server_core.specs.History.{is_among};
ghost use Rattle.server_deliveries.specs.Lists.{AreOwned, agents_at, conns_at, has_conn};
ghost use Rattle.server_deliveries.specs.Views.{AreTied, reach_of};

use crate::lists::{add_agent, conns_of, drop_from, put_conn, reaches, take_agents};
use plain_values::{NoMemory, Uid};
use server_sessions::Handled;
use std::alloc::Global;
use std::collections::BTreeMap;
use std::marker::Model;

/// The connections of WebSocket that reach an agent, the one with its latest report first. Contracts see them agent by agent, by `reach_of`. An agent is found by its
/// identifier, and what a connection that ends reached is found by its number. An agent that no connection reaches takes no memory.
#[derive(Drop)]
pub struct Routes {
    alloc: Global,
    // The connections of each agent, the latest first.
    conns: BTreeMap<[u8; 16], Vec<u64>>,
    // The agents of each connection.
    agents: BTreeMap<u64, Vec<[u8; 16]>>,
}

impl Model for Routes {
    ghost use Rattle.server_deliveries.specs.Views.{AreKept as Kept, Entries, entries_in};

    ghost Value = { Entries };

    ghost view = { entries_in };

    ghost invariant = { λ r. Kept r.conns r.agents };
}

// The bytes of an identifier.
fn bytes_of(uid: &Uid) -> [u8; 16]
    ensures bytes { result ≡ uid.now }
{
    match <[u8; 16]>::try_from(uid.as_slice()) {
        Ok(bytes) => bytes,
        Err(_) => unreachable!(),
    }
}

// Has the agent among those of the connection, once. Want of memory changes nothing.
fn tie(
    alloc: Global,
    conns: &BTreeMap<[u8; 16], Vec<u64>>,
    agents: &mut BTreeMap<u64, Vec<[u8; 16]>>,
    uid: &[u8; 16],
    conn: u64,
) -> Result<(), NoMemory>
    ensures tied { AreTied conns.now agents.old → AreTied conns.now agents.new }
    ensures own { AreTied conns.now agents.old → OnOk result (is_among (agents_at agents.new conn) uid.now ≡ true) }
    ensures once { has_conn (conns_at conns.now uid.now) conn ≡ true → agents.new ≡ agents.old }
    ensures owned { AreOwned agents.old → AreOwned agents.new }
{
    if reaches(conns, uid, conn) {
        return Ok(());
    }
    add_agent(alloc, agents, conn, *uid)
}

impl Routes {
    /// Nobody is reached. Takes no memory.
    pub fn new(alloc: Global) -> Routes
        ensures none { (uid : Items ℕ) → reach_of result uid ≡ no_routes uid }
    {
        Routes {
            alloc,
            conns: BTreeMap::new(alloc),
            agents: BTreeMap::new(alloc),
        }
    }

    // A report was answered without error. After want of memory nothing is said of the routes.
    fn note_one(&mut self, handled: &Handled) -> Result<(), NoMemory>
        ensures noted { OnOk result ((uid : Items ℕ) → reach_of self.new uid ≡ routes_with handled.now (reach_of self.old) uid) }
    {
        if !handled.ws {
            return Ok(());
        }
        let uid = bytes_of(&handled.uid);
        tie(
            self.alloc,
            &self.conns,
            &mut self.agents,
            &uid,
            handled.conn,
        )?;
        put_conn(self.alloc, &mut self.conns, uid, handled.conn)
    }

    // Reports were answered without error, in this order. After want of memory nothing is said of the routes.
    fn note(&mut self, handled: &[Handled]) -> Result<(), NoMemory>
        ensures noted { OnOk result ((uid : Items ℕ) → reach_of self.new uid ≡ routes_noted handled.now (reach_of self.old) uid) }
    {
        for one in handled {
            self.note_one(one)?;
        }
        Ok(())
    }

    /// A connection isn't known any more. Takes no memory.
    pub fn forget(&mut self, conn: u64)
        ensures forgets { (uid : Items ℕ) → reach_of self.new uid ≡ routes_without conn (reach_of self.old) uid }
    {
        let uids = take_agents(self.alloc, &mut self.agents, conn);
        drop_from(&mut self.conns, &uids, conn);
    }

    // Connections aren't known any more. Takes no memory.
    fn forget_all(&mut self, ended: &[u64])
        ensures forgets { (uid : Items ℕ) → reach_of self.new uid ≡ routes_ended ended.now (reach_of self.old) uid }
    {
        for conn in ended {
            self.forget(*conn);
        }
    }

    /// Reports were answered without error, in this order, and then connections ended. After want of memory nothing is said of the routes.
    pub fn follow(&mut self, handled: &[Handled], ended: &[u64]) -> Result<(), NoMemory>
        ensures follows { OnOk result ((uid : Items ℕ) → reach_of self.new uid ≡ routes_ended ended.now (routes_noted handled.now (reach_of self.old)) uid) }
    {
        self.note(handled)?;
        self.forget_all(ended);
        Ok(())
    }

    /// The connection that last had a report of the agent, if one reaches it. Takes no memory.
    pub fn route(&self, uid: &Uid) -> Option<u64>
        ensures route { result ≡ route_to (reach_of self.now) uid.now }
    {
        conns_of(&self.conns, &bytes_of(uid)).first().copied()
    }
}
