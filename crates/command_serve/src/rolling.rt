//! Serving at the three addresses with a rollout.

ghost use Rattle.std.specs.Prelude.{◌≡◌, [], ◌⊎◌, Some, IfOk, IfErr, OnOk, true, false};
ghost use Rattle.message_handlers.specs.Asking.{MayAnswer};
ghost use Rattle.message_handlers.specs.Names.{names_of};
ghost use Rattle.server_core.specs.declared.offers.Offer.TheVariants.{Config as ConfigOffer};
ghost use Rattle.server_core.specs.Offers.{fits_offer};
ghost use Rattle.server_core.specs.Table.{empty_within};
ghost use Rattle.server_sessions.specs.Wiring.{view_of};
ghost use Rattle.command_serve.specs.Notes.{RollingNotes};
ghost use Rattle.command_serve.specs.Outcomes.{RolloutOutcome};
ghost use Rattle.command_serve.specs.Rolling.{files_of, main_name, rollouts_of};
ghost use Rattle.command_serve.specs.Serving.{IsProfileWith};
ghost use Rattle.command_serve.specs.Statuses.{rollout_status_of};
ghost use Rattle.command_serve.specs.declared.status.ServeStatus.TheVariants as status;

use crate::serving::{desk_with, run_desk};
use crate::status::{RolloutStatus, ServeStatus};
use command_words::{RolloutOptions, ServeOptions};
use edge_devices::{Entropy, Sink, Wire};
use message_handlers::{Handler, Handlers};
use plain_values::{AgentConfigFile, AgentConfigMap, Map, NoMemory, Plain, Text};
use server_deliveries::Delivery;
use server_waves::{BeginFail, Judge, ServerDesk};
use std::alloc::Global;

// The one file that the options name, with no content type.
fn config_of(alloc: Global, rollout: &RolloutOptions) -> Result<AgentConfigMap, NoMemory>
    ensures files { IfOk result (λ config. config ≡ files_of rollout.now) }
{
    let file = AgentConfigFile {
        body: rollout.body.copy(alloc)?,
        content_type: Text::of(String::new(alloc)),
    };
    let mut config_map = Map::new(alloc);
    config_map.put(rollout.name.copy(alloc)?, file)?;
    Ok(AgentConfigMap { config_map })
}

// The name of the rollout that the options ask for.
#[tactic(auto, unfolding(crate::specs::Rolling::main_name))]
fn main_name(alloc: Global) -> Result<Text, NoMemory>
    ensures name { IfOk result (λ name. name ≡ main_name) }
{
    Text::from_str(alloc, "main")
}

// Begins the rollout that the options ask for at a desk of no agents and no rollouts.
fn begin(
    alloc: Global,
    desk: &mut ServerDesk,
    name: &Text,
    options: &RolloutOptions,
) -> Result<(), BeginFail>
    requires name { name.now ≡ main_name }
    requires agents { desk.old.server.table.records ≡ [] }
    requires rollouts { desk.old.rollouts ≡ [] }
    ensures begun { OnOk result (desk.new.rollouts ≡ rollouts_of (Some options.now)) }
    ensures fits { OnOk result (fits_offer (ConfigOffer (files_of options.now)) ≡ true) }
    ensures failed { IfErr result (λ fail. (fail ≡ BeginFail.NoMemory) ⊎ ((fail ≡ BeginFail.TooLarge) × (fits_offer (ConfigOffer (files_of options.now)) ≡ false))) }
    ensures server { desk.new.server ≡ desk.old.server }
{
    let (Ok(id), Ok(files)) = (name.copy(alloc), config_of(alloc, options)) else {
        return Err(BeginFail::NoMemory);
    };
    let ServerDesk { server, rollouts } = desk;
    rollouts.begin(
        alloc,
        server,
        id,
        None,
        files,
        options.width,
        options.allowed,
    )
}

// A desk of no agents, within the limits of what `serve` is told, with the capabilities of these handlers, at which the rollout
// that the options ask for has begun.
fn desk_rolling(
    alloc: Global,
    told: &ServeOptions,
    handlers: &Handlers,
    name: &Text,
    options: &RolloutOptions,
) -> Result<ServerDesk, BeginFail>
    requires name { name.now ≡ main_name }
    ensures profile { IfOk result (λ desk. IsProfileWith (names_of handlers.now) told.now.connections desk.server.profile) }
    ensures table { IfOk result (λ desk. desk.server.table ≡ empty_within told.now.agents) }
    ensures begun { IfOk result (λ desk. desk.rollouts ≡ rollouts_of (Some options.now)) }
    ensures fits { IfOk result (λ desk. fits_offer (ConfigOffer (files_of options.now)) ≡ true) }
    ensures failed { IfErr result (λ fail. (fail ≡ BeginFail.NoMemory) ⊎ ((fail ≡ BeginFail.TooLarge) × (fits_offer (ConfigOffer (files_of options.now)) ≡ false))) }
{
    let Ok(mut desk) = desk_with(alloc, told, handlers) else {
        return Err(BeginFail::NoMemory);
    };
    match begin(alloc, &mut desk, name, options) {
        Ok(()) => Ok(desk),
        Err(fail) => Err(fail),
    }
}

/// Serves as `run_serve` does, with a rollout named `main` of the one file that the options name, which is there from the beginning on, and
/// writes behind the line `events N` the line `rollout waiting A offered B applied C failed D`, with ` halted` at its end where the rollout
/// is halted; it is left out where no rollout of that name is there any more.
///
/// A configuration whose offer is too large is told before an address is listened to. Want of memory can end it at any time.
pub fn run_rollout<K: Sink, N: Sink, W: Wire, E: Entropy, J: Judge>(
    alloc: Global,
    options: &ServeOptions,
    rollout_options: &RolloutOptions,
    judge: J,
    sink: &mut K,
    notes: &mut N,
    handlers: &Handlers,
    wire: &mut W,
    entropy: &mut E,
) -> RolloutStatus
    ensures outcome { RolloutOutcome (names_of handlers.now) (MayAnswer answers handlers.now) (J.finds_fine judge) options.now rollout_options.now
        (record { sink = record { taken = K.taken sink.old; faults = K.faults sink.old }; wire = view_of (W.calls wire.old) (W.faults wire.old); entropy = E.state entropy.old })
        (record { sink = record { taken = K.taken sink.new; faults = K.faults sink.new }; wire = view_of (W.calls wire.new) (W.faults wire.new); entropy = E.state entropy.new }) (rollout_status_of result) }

    // Where the offer is too large nothing was done; where the wire failed or memory was wanting nothing was written.
    ensures untouched { result ≡ RolloutStatus.TooLarge → (sink.new ≡ sink.old) × (wire.new ≡ wire.old) × (entropy.new ≡ entropy.old) }
    ensures silent { (result ≡ RolloutStatus.Served status.WireFault) ⊎ (result ≡ RolloutStatus.Served status.NoMemory) → sink.new ≡ sink.old }

    // What was noted before the status is, as by `run_serve`; nothing where the offer is too large.
    ensures noted { RollingNotes (MayAnswer answers handlers.now) options.now (view_of (W.calls wire.old) (W.faults wire.old)) (view_of (W.calls wire.new) (W.faults wire.new)) result (record { taken = N.taken notes.old; faults = N.faults notes.old }) (record { taken = N.taken notes.new; faults = N.faults notes.new }) }
{
    let Ok(name) = main_name(alloc) else {
        return RolloutStatus::Served(ServeStatus::NoMemory);
    };
    let mut desk = match desk_rolling(alloc, options, handlers, &name, rollout_options) {
        Ok(desk) => desk,
        Err(BeginFail::TooLarge) => return RolloutStatus::TooLarge,
        Err(_) => return RolloutStatus::Served(ServeStatus::NoMemory),
    };
    let mut delivery = Delivery::new(alloc, judge, options.push);
    RolloutStatus::Served(run_desk(
        alloc,
        options,
        Some(&name),
        sink,
        notes,
        handlers,
        wire,
        entropy,
        &mut desk,
        &mut delivery,
    ))
}
