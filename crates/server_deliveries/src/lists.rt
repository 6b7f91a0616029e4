//! Lists under keys: the connections of each agent, and the agents of each connection.

ghost use Rattle.std.specs.Prelude.{◌≡◌, [], ◌∷◌, ◌++◌, ◌==◌, ℕ, OnOk, OnErr, if◌then◌else◌};
ghost use Rattle.std.specs.Prelude.{List as Items};
ghost use Rattle.std.specs.Str.{bytes_eq};
ghost use Rattle.server_core.specs.History.{is_among};
ghost use Rattle.server_deliveries.specs.Lists.{AreFilled, AreOwned, agents_at, conns_at, has_conn};
ghost use Rattle.server_deliveries.specs.Routes.{without};

use plain_values::NoMemory;
use std::alloc::Global;
use std::collections::BTreeMap;

// The connections but this one. Takes no memory.
fn drop_conn(conns: &mut Vec<u64>, conn: u64)
    ensures dropped { conns.new.items ≡ without conn conns.old.items }
{
    conns.retain(|c| *c != conn);
}

// Puts the connection first. Where memory is wanting it isn't there.
fn put_first(conns: &mut Vec<u64>, conn: u64) -> Result<(), NoMemory>
    ensures first { OnOk result (conns.new.items ≡ conn ∷ without conn conns.old.items) }
    ensures err { OnErr result (conns.new.items ≡ without conn conns.old.items) }
{
    drop_conn(conns, conn);
    conns.insert(0, conn)?;
    Ok(())
}

/// Puts a connection first among those of an agent. Where memory is wanting, it may not be among them.
pub(crate) fn put_conn(
    alloc: Global,
    conns: &mut BTreeMap<[u8; 16], Vec<u64>>,
    uid: [u8; 16],
    conn: u64,
) -> Result<(), NoMemory>
    ensures first { OnOk result ((u : Items ℕ) → conns_at conns.new u ≡ (if bytes_eq uid u then conn ∷ without conn (conns_at conns.old u) else conns_at conns.old u)) }
    ensures err { OnErr result ((u : Items ℕ) → conns_at conns.new u ≡ (if bytes_eq uid u then without conn (conns_at conns.old u) else conns_at conns.old u)) }
    ensures filled { AreFilled conns.old → AreFilled conns.new }
{
    if let Some(list) = conns.get_mut(&uid) {
        let put = put_first(list, conn);
        if list.is_empty() {
            conns.remove(&uid);
        }
        return put;
    }
    let mut list = Vec::new(alloc);
    list.push(conn)?;
    conns.insert(uid, list)?;
    Ok(())
}

/// The connection is none of an agent any more. Takes no memory.
pub(crate) fn drop_at(conns: &mut BTreeMap<[u8; 16], Vec<u64>>, uid: &[u8; 16], conn: u64)
    ensures dropped { (u : Items ℕ) → conns_at conns.new u ≡ (if bytes_eq uid.now u then without conn (conns_at conns.old u) else conns_at conns.old u) }
    ensures filled { AreFilled conns.old → AreFilled conns.new }
{
    let Some(list) = conns.get_mut(uid) else {
        return;
    };
    drop_conn(list, conn);
    if list.is_empty() {
        conns.remove(uid);
    }
}

/// The connection is none of these agents any more. Takes no memory.
pub(crate) fn drop_from(conns: &mut BTreeMap<[u8; 16], Vec<u64>>, uids: &[[u8; 16]], conn: u64)
    ensures dropped { (u : Items ℕ) → conns_at conns.new u ≡ (if is_among uids.now u then without conn (conns_at conns.old u) else conns_at conns.old u) }
    ensures filled { AreFilled conns.old → AreFilled conns.new }
{
    for uid in uids {
        drop_at(conns, uid, conn);
    }
}

/// The connections of an agent, the latest first. Takes no memory.
pub(crate) fn conns_of<'a>(conns: &'a BTreeMap<[u8; 16], Vec<u64>>, uid: &[u8; 16]) -> &'a [u64]
    ensures conns { result.now ≡ conns_at conns.now uid.now }
{
    match conns.get(uid) {
        Some(list) => list.as_slice(),
        None => &[],
    }
}

/// Whether a connection is among those of an agent. Takes no memory.
pub(crate) fn reaches(conns: &BTreeMap<[u8; 16], Vec<u64>>, uid: &[u8; 16], conn: u64) -> bool
    ensures reaches { result ≡ has_conn (conns_at conns.now uid.now) conn }
{
    conns_of(conns, uid).iter().any(|c| *c == conn)
}

/// Adds an agent to those of a connection. Want of memory changes nothing.
pub(crate) fn add_agent(
    alloc: Global,
    agents: &mut BTreeMap<u64, Vec<[u8; 16]>>,
    conn: u64,
    uid: [u8; 16],
) -> Result<(), NoMemory>
    ensures added { OnOk result ((c : ℕ) → agents_at agents.new c ≡ (if conn == c then agents_at agents.old c ++ uid ∷ [] else agents_at agents.old c)) }
    ensures err { OnErr result ((c : ℕ) → agents_at agents.new c ≡ agents_at agents.old c) }
    ensures owned { AreOwned agents.old → AreOwned agents.new }
{
    if let Some(list) = agents.get_mut(&conn) {
        list.push(uid)?;
        return Ok(());
    }
    let mut list = Vec::new(alloc);
    list.push(uid)?;
    agents.insert(conn, list)?;
    Ok(())
}

/// Takes the agents of a connection away. Takes no memory.
pub(crate) fn take_agents(
    alloc: Global,
    agents: &mut BTreeMap<u64, Vec<[u8; 16]>>,
    conn: u64,
) -> Vec<[u8; 16]>
    ensures taken { result.items ≡ agents_at agents.old conn }
    ensures others { (c : ℕ) → agents_at agents.new c ≡ (if conn == c then [] else agents_at agents.old c) }
    ensures owned { AreOwned agents.old → AreOwned agents.new }
{
    match agents.remove(&conn) {
        Some(list) => list,
        None => Vec::new(alloc),
    }
}
