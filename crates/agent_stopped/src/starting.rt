//! How an agent starts on its disk: first, after a stop, and again.

ghost use Rattle.std.specs.Prelude.{◌≡◌, ℕ, IfOk, OnOk, IsTrue, IsErrOf, false};
ghost use Rattle.edge_devices.specs.Disks.{disk_bytes, medium, IsSettled};
ghost use Rattle.edge_devices.specs.DiskCalls.{MadeAll, EndsAmidOrAfter};
ghost use Rattle.edge_devices.specs.Endpoints.{is_endpoint};
ghost use Rattle.edge_devices.specs.MemoryDisks.{memory_disk, disk_countdown};
ghost use Rattle.agent_store.specs.Found.{AllKept};
ghost use Rattle.agent_store.specs.Loads.{store_of};
ghost use Rattle.agent_store.specs.Plans.{load_plan};
ghost use Rattle.agent_store.specs.Slots.{NotDamaged};
ghost use Rattle.agent_rules.specs.Codec.{codec};
ghost use Rattle.agent_rules.specs.Right.{is_right};
ghost use Rattle.agent_rules.specs.Half.{AgentHalf, first_saved, started};
ghost use Rattle.agent_state.specs.Starting.{started_with};
ghost use Rattle.agent_stopped.specs.Endings.{stops_in};
ghost use Rattle.agent_stopped.specs.Loading.{IsLoaded};
ghost use Rattle.agent_stopped.specs.Stages.{left_on};
ghost use Rattle.agent_stopped.specs.Starts.{IsAtRest, StartsAs};

use crate::opening::Opening;
use agent_rules::{LocalState, Saved};
use agent_state::Agent;
use agent_store::{Opened, Store, StoreFail, bytes_tell_store};
use edge_devices::{MemDisk, Mode};
use message_values::Settings;
use plain_values::{NoMemory, Plain};
use std::alloc::Global;

// The number of a load's one device call, counted from 1.
const LOAD_CALL: u64 = 1;

// Why a load of an undamaged disk fails.
#[derive(Drop)]
enum LoadFail {
    Fault,
    NoMemory,
}

// What a load gives, and the settings to start with where nothing is kept.
#[derive(Drop)]
struct Loaded {
    store: Store,
    opened: Opened<Saved>,
    settings: Settings,
}

/// An agent that starts for the first time, and its disk.
pub fn begin(
    alloc: Global,
    opening: &Opening,
    local: LocalState,
) -> Result<(Agent, MemDisk), NoMemory>
    requires endpoint { IsTrue (is_endpoint opening.now.settings.endpoint) }
    ensures started { IfOk result (λ pair. pair.0.half ≡ started local (first_saved opening.now.uid opening.now.settings) false opening.now.layout.room opening.now.asks_uid) }
    ensures at_rest { IfOk result (λ pair. IsAtRest opening.now pair.0 pair.1) }
    ensures blank { IfOk result (λ pair. (place : ℕ) → disk_bytes (memory_disk pair.1) place ≡ 0) }
    ensures unarmed { IfOk result (λ pair. (disk_countdown pair.1).left ≡ 0) }
    ensures first_generation { IfOk result (λ pair. pair.0.store.generation ≡ 0) }
{
    let mut disk = MemDisk::new(alloc, Vec::new(alloc));
    match open(alloc, &mut disk, opening, local) {
        Ok(agent) => Ok((agent, disk)),
        Err(NoMemory) => Err(NoMemory),
    }
}

/// An agent that starts with what its disk keeps. No device call is stopped from then on.
pub fn open(
    alloc: Global,
    disk: &mut MemDisk,
    opening: &Opening,
    local: LocalState,
) -> Result<Agent, NoMemory>
    requires endpoint { IsTrue (is_endpoint opening.now.settings.endpoint) }
    requires whole { (half : AgentHalf) × StartsAs opening.now local (disk_bytes (memory_disk disk.old)) half }
    ensures started { IfOk result (λ agent. (half : AgentHalf) → StartsAs opening.now local (disk_bytes (memory_disk disk.old)) half → agent.half ≡ half) }
    ensures at_rest { IfOk result (λ agent. IsAtRest opening.now agent disk.new) }
    ensures same { disk_bytes (memory_disk disk.new) ≡ disk_bytes (memory_disk disk.old) }
    ensures unarmed { OnOk result ((disk_countdown disk.new).left ≡ 0) }
    ensures generation { IfOk result (λ agent. agent.store.generation ≡ (store_of codec opening.now.layout (disk_bytes (memory_disk disk.old))).generation) }
{
    bytes_tell_store();
    disk.arm(0);
    match load(alloc, disk, opening) {
        Ok(loaded) => Ok(start(alloc, loaded, opening, local)),
        Err(_) => Err(NoMemory),
    }
}

/// A crash in this mode, and the agent that starts from what it leaves.
pub fn recover(
    alloc: Global,
    disk: &mut MemDisk,
    mode: Mode,
    opening: &Opening,
    local: LocalState,
) -> Result<Agent, NoMemory>
    requires endpoint { IsTrue (is_endpoint opening.now.settings.endpoint) }
    requires whole { (half : AgentHalf) × StartsAs opening.now local (left_on disk.old mode) half }
    ensures started { IfOk result (λ agent. (half : AgentHalf) → StartsAs opening.now local (left_on disk.old mode) half → agent.half ≡ half) }
    ensures at_rest { IfOk result (λ agent. IsAtRest opening.now agent disk.new) }
    ensures left { disk_bytes (memory_disk disk.new) ≡ left_on disk.old mode }
    ensures unarmed { OnOk result ((disk_countdown disk.new).left ≡ 0) }
    ensures generation { IfOk result (λ agent. agent.store.generation ≡ (store_of codec opening.now.layout (left_on disk.old mode)).generation) }
{
    disk.crash(mode);
    open(alloc, disk, opening, local)
}

/// The agent starts again, and once more where the load's device call is the one that is stopped, as the answer tells. No device call is stopped from
/// then on.
pub fn restart(
    alloc: Global,
    disk: &mut MemDisk,
    stop: u64,
    mode: Mode,
    opening: &Opening,
    local: LocalState,
) -> Result<(Agent, bool), NoMemory>
    requires endpoint { IsTrue (is_endpoint opening.now.settings.endpoint) }
    requires whole { (half : AgentHalf) × StartsAs opening.now local (disk_bytes (memory_disk disk.old)) half }
    requires settled { IsSettled (medium (memory_disk disk.old)) }
    ensures started { IfOk result (λ pair. (half : AgentHalf) → StartsAs opening.now local (disk_bytes (memory_disk disk.old)) half → pair.0.half ≡ half) }
    ensures stopped { IfOk result (λ pair. pair.1 ≡ stops_in stop load_plan) }
    ensures at_rest { IfOk result (λ pair. IsAtRest opening.now pair.0 disk.new) }
    ensures same { disk_bytes (memory_disk disk.new) ≡ disk_bytes (memory_disk disk.old) }
    ensures unarmed { OnOk result ((disk_countdown disk.new).left ≡ 0) }
    ensures generation { IfOk result (λ pair. pair.0.store.generation ≡ (store_of codec opening.now.layout (disk_bytes (memory_disk disk.old))).generation) }
{
    bytes_tell_store();
    disk.arm(stop);
    match load(alloc, disk, opening) {
        Ok(loaded) => {
            disk.arm(0);
            Ok((start(alloc, loaded, opening, local), false))
        }
        Err(LoadFail::Fault) => {
            if stop != LOAD_CALL {
                return Err(NoMemory);
            }
            match recover(alloc, disk, mode, opening, local) {
                Ok(agent) => Ok((agent, true)),
                Err(NoMemory) => Err(NoMemory),
            }
        }
        Err(LoadFail::NoMemory) => Err(NoMemory),
    }
}

// Reads what an undamaged disk keeps.
fn load(alloc: Global, disk: &mut MemDisk, opening: &Opening) -> Result<Loaded, LoadFail>
    requires whole { NotDamaged codec opening.now.layout (disk_bytes (memory_disk disk.old)) }
    ensures loaded { IfOk result (IsLoaded opening.now (disk_bytes (memory_disk disk.old)) disk.new) }
    ensures same { disk_bytes (memory_disk disk.new) ≡ disk_bytes (memory_disk disk.old) }
    ensures made { OnOk result (MadeAll load_plan (memory_disk disk.old) (memory_disk disk.new) (disk_countdown disk.old) (disk_countdown disk.new)) }
    ensures made_part { IsErrOf result LoadFail.Fault → EndsAmidOrAfter load_plan (memory_disk disk.old) (memory_disk disk.new) (disk_countdown disk.old) (disk_countdown disk.new) }
{
    let settings = match opening.settings.copy(alloc) {
        Ok(settings) => settings,
        Err(NoMemory) => return Err(LoadFail::NoMemory),
    };
    match Store::load::<Saved, MemDisk>(alloc, disk, opening.layout) {
        Ok((store, opened)) => Ok(Loaded {
            store,
            opened,
            settings,
        }),
        Err(fail) => {
            drop(settings);
            Err(fail_of(fail))
        }
    }
}

// Why a load of an undamaged disk failed, by what the store says.
fn fail_of(fail: StoreFail) -> LoadFail
    requires whole { (slot : ℕ) → fail ≡ StoreFail.Damaged slot → ⊥ }
    requires fitting { fail ≡ StoreFail.TooBig → ⊥ }
    requires unspent { fail ≡ StoreFail.Spent → ⊥ }
    ensures fault { result ≡ LoadFail.Fault → fail ≡ StoreFail.DiskFault }
{
    match fail {
        StoreFail::DiskFault => LoadFail::Fault,
        StoreFail::NoMemory => LoadFail::NoMemory,
        StoreFail::Damaged { slot: _ } => unreachable!(),
        StoreFail::TooBig => unreachable!(),
        StoreFail::Spent => unreachable!(),
    }
}

// The agent over a store that was loaded.
fn start(alloc: Global, loaded: Loaded, opening: &Opening, local: LocalState) -> Agent
    requires right { AllKept (λ s. IsTrue (is_right s)) loaded.opened }
    requires endpoint { IsTrue (is_endpoint loaded.settings.endpoint) }
    ensures started { result.half ≡ started_with loaded.opened local opening.now.uid loaded.settings loaded.store.layout.room opening.now.asks_uid }
    ensures store { result.store ≡ loaded.store }
{
    Agent::start(
        alloc,
        loaded.store,
        loaded.opened,
        local,
        opening.uid.copy(),
        loaded.settings,
        opening.asks_uid,
    )
}
