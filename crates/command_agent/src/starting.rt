//! How an agent starts.

ghost use Rattle.std.specs.Prelude.{◌≡◌, ◌≤◌, ℕ, List, None, false, IfOk, IfErr, OnOk, OnErr, IsErrOf, IsTrue, Err};
ghost use Rattle.message_handlers.specs.Names.{names_of};
ghost use Rattle.edge_devices.specs.Disks.{disk_bytes};
ghost use Rattle.edge_devices.specs.Endpoints.{is_endpoint};
ghost use Rattle.edge_devices.specs.Faults.{HasRisen};
ghost use Rattle.agent_store.specs.Found.{AllKept};
ghost use Rattle.agent_store.specs.Slots as slots;
ghost use Rattle.agent_rules.specs.Codec.{codec};
ghost use Rattle.agent_rules.specs.Right.{is_right};
ghost use Rattle.agent_rules.specs.Half.{kept_part};
ghost use Rattle.agent_state.specs.View.{FitsDisk};
ghost use Rattle.agent_rounds.specs.Status.{local_by};
ghost use Rattle.command_agent.specs.Starting.{FindsDamage, HasUid, IsUnwritten, LacksUid, Loads, Starts, active_at_first, first_half, opening_settings, store_layout, version_4};
ghost use Rattle.edge_devices.specs.Clocks.{Fills};

use agent_rounds::local_state;
use agent_rules::{LocalState, Saved};
use agent_state::Agent;
use agent_store::{Layout, Opened, Store, StoreFail};
use command_words::AgentOptions;
use edge_devices::{Disk, Entropy, EntropyFault};
use message_handlers::Handlers;
use message_values::{AgentToServer, CustomCapabilities, Settings};
use plain_values::{AgentConfigMap, Blob, Headers, List, Map, NoMemory, Plain, Text, Uid};
use std::alloc::Global;
use thiserror::Error;
use uuid::Builder;

/// How many bytes an agent may keep.
pub const STORE_ROOM: u32 = 8_388_608;

/// How many bytes of changes its store takes before it writes all anew.
pub const STORE_LOG: u32 = 1_048_576;

/// Why an agent doesn't start.
#[derive(Clone, Copy, Debug, PartialEq, Eq, Error)]
pub enum StartFail {
    /// The disk answered its fault.
    #[error("the disk failed")]
    StoreFault,
    /// The store is damaged in this slot.
    #[error("the store is damaged in slot {0}")]
    Damaged(u32),
    /// Nothing was kept, and there were no random bytes for an identifier.
    #[error("no random bytes were drawn")]
    EntropyFault,
    /// There was no memory.
    #[error("there was no memory")]
    NoMemory,
}

// Loads the store.
fn load<D: Disk>(alloc: Global, disk: &mut D) -> Result<(Store, Opened<Saved>), StartFail>
    ensures loads { IfOk result (λ pair. Loads (D.state disk.old) (D.state disk.new) pair.1 pair.0) }
    ensures right { IfOk result (λ pair. AllKept (λ s. IsTrue (is_right s)) pair.1) }
    ensures unwritten { IsUnwritten (D.state disk.old) (D.state disk.new) }
    ensures undamaged { (slot : ℕ) → slots.reading codec store_layout (disk_bytes (D.state disk.old)) ≡ slots.Damaged slot → OnOk result (IsTrue (D.state disk.old).told → ⊥) }
    ensures damaged { (slot : ℕ) → IsErrOf result (StartFail.Damaged slot) → FindsDamage (D.state disk.old) (D.state disk.new) slot }
    ensures fault { IsErrOf result StartFail.StoreFault → HasRisen (D.state disk.old).faults (D.state disk.new).faults }
    ensures counts { (D.state disk.old).faults ≤ (D.state disk.new).faults }
    ensures no_draw { IsErrOf result StartFail.EntropyFault → ⊥ }
{
    let layout = Layout {
        room: STORE_ROOM,
        log: STORE_LOG,
    };
    match Store::load(alloc, disk, layout) {
        Ok(loaded) => Ok(loaded),
        Err(StoreFail::DiskFault) => Err(StartFail::StoreFault),
        Err(StoreFail::Damaged { slot }) => Err(StartFail::Damaged(slot)),
        Err(StoreFail::NoMemory) => Err(StartFail::NoMemory),
        Err(StoreFail::TooBig) => unreachable!(),
        Err(StoreFail::Spent) => unreachable!(),
    }
}

// The identifier of version 4 that the bytes make.
fn fresh_uid(bytes: [u8; 16]) -> Uid
    ensures uid { result ≡ version_4 bytes }
{
    Uid::of(Builder::from_random_bytes(bytes).into_uuid().into_bytes())
}

// The identifier of an agent: its own, or a new one where nothing was kept.
fn uid_of<E: Entropy>(entropy: &mut E, opened: &Opened<Saved>) -> Result<Uid, EntropyFault>
    ensures uid { IfOk result (HasUid opened.now (E.state entropy.old) (E.state entropy.new)) }
    ensures fresh { OnErr result (opened.now ≡ Opened.Fresh) }
    ensures fails { IfErr result (λ fault. (bytes : List ℕ) × Fills (E.state entropy.old) (E.state entropy.new) bytes (Err fault)) }
{
    match opened {
        Opened::Kept(saved) => Ok(saved.uid.copy()),
        Opened::Fresh => {
            let mut bytes = [0u8; 16];
            match entropy.fill(&mut bytes) {
                Ok(()) => Ok(fresh_uid(bytes)),
                Err(fault) => Err(fault),
            }
        }
    }
}

// The settings of an agent that was given none.
fn opening_settings(alloc: Global, server: &Text) -> Result<Settings, NoMemory>
    ensures settings { IfOk result (λ settings. settings ≡ opening_settings server.now) }
{
    Ok(Settings {
        endpoint: server.copy(alloc)?,
        headers: Headers {
            headers: List::new(alloc),
        },
        interval: 0,
        hash: Blob::of(Vec::new(alloc)),
    })
}

// What an agent knows of itself before its status file was read.
fn first_local(
    alloc: Global,
    opened: &Opened<Saved>,
    names: &CustomCapabilities,
) -> Result<LocalState, NoMemory>
    ensures local { IfOk result (λ local. local ≡ local_by None (active_at_first opened.now) names.now) }
{
    let unread: Option<AgentToServer> = None;
    match opened {
        Opened::Kept(saved) => local_state(alloc, &unread, &saved.config, names),
        Opened::Fresh => {
            let none = AgentConfigMap {
                config_map: Map::new(alloc),
            };
            local_state(alloc, &unread, &none, names)
        }
    }
}

// The agent of a store that was loaded.
fn agent_of(
    alloc: Global,
    options: &AgentOptions,
    names: &CustomCapabilities,
    store: Store,
    opened: Opened<Saved>,
    uid: Uid,
) -> Result<Agent, NoMemory>
    requires right { AllKept (λ s. IsTrue (is_right s)) opened }
    requires endpoint { IsTrue (is_endpoint options.now.server) }
    requires layout { store.layout ≡ store_layout }
    ensures half { IfOk result (λ agent. agent.half ≡ first_half options.now names.now opened uid) }
    ensures store { IfOk result (λ agent. agent.store ≡ store) }
{
    let local = first_local(alloc, &opened, names)?;
    let first = opening_settings(alloc, &options.server)?;
    Ok(Agent::start(alloc, store, opened, local, uid, first, options.request_uid))
}

/// Starts an agent with what its store keeps. Where nothing was kept an identifier is drawn.
pub fn start<D: Disk, E: Entropy>(
    alloc: Global,
    options: &AgentOptions,
    handlers: &Handlers,
    disk: &mut D,
    entropy: &mut E,
) -> Result<Agent, StartFail>
    requires endpoint { IsTrue (is_endpoint options.now.server) }
    ensures starts { IfOk result (λ agent. Starts (names_of handlers.now) options.now (D.state disk.old) (D.state disk.new) (E.state entropy.old) (E.state entropy.new) agent) }
    ensures fits { IfOk result (λ agent. FitsDisk (D.state disk.new) agent.store (kept_part agent.half)) }
    ensures idle { IfOk result (λ agent. agent.half.awaits ≡ false) }
    ensures unwritten { IsUnwritten (D.state disk.old) (D.state disk.new) }

    // The store is told to be damaged exactly where it is, unless the disk fails or memory is wanting.
    ensures damaged { (slot : ℕ) → IsErrOf result (StartFail.Damaged slot) → FindsDamage (D.state disk.old) (D.state disk.new) slot × (entropy.new ≡ entropy.old) }
    ensures undamaged { (slot : ℕ) → slots.reading codec store_layout (disk_bytes (D.state disk.old)) ≡ slots.Damaged slot → OnOk result (IsTrue (D.state disk.old).told → ⊥) }
    ensures undrawn { (slot : ℕ) → slots.reading codec store_layout (disk_bytes (D.state disk.old)) ≡ slots.Damaged slot → IsErrOf result StartFail.EntropyFault → IsTrue (D.state disk.old).told → ⊥ }

    ensures fault { IsErrOf result StartFail.StoreFault → HasRisen (D.state disk.old).faults (D.state disk.new).faults }
    ensures counts { (D.state disk.old).faults ≤ (D.state disk.new).faults }
    ensures no_uid { IsErrOf result StartFail.EntropyFault → LacksUid (D.state disk.old) (D.state disk.new) (E.state entropy.old) (E.state entropy.new) }
{
    let names = match handlers.names(alloc) {
        Ok(names) => names,
        Err(NoMemory) => return Err(StartFail::NoMemory),
    };
    let (store, opened) = match load(alloc, disk) {
        Ok(loaded) => loaded,
        Err(fail) => return Err(fail),
    };
    let Ok(uid) = uid_of(entropy, &opened) else {
        return Err(StartFail::EntropyFault);
    };
    match agent_of(alloc, options, &names, store, opened, uid) {
        Ok(agent) => Ok(agent),
        Err(NoMemory) => Err(StartFail::NoMemory),
    }
}
