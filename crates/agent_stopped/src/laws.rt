//! How stages join, and what they say of an agent's events.

ghost use Rattle.std.specs.Prelude.{◌≡◌, ℕ, List, [], ◌∷◌, ◌++◌, Bool, if◌then◌else◌};
ghost use Rattle.edge_devices.specs.Disks.{disk_bytes};
ghost use Rattle.edge_devices.specs.MemoryDisks.{memory_disk};
ghost use Rattle.edge_devices.specs.declared.disk_calls.Mode.{Mode};
ghost use Rattle.edge_devices.specs.declared.memory_disk.MemDisk.{MemDisk};
ghost use Rattle.message_values.specs.declared.reply.ServerToAgent.{ServerToAgent};
ghost use Rattle.agent_store.specs.declared.slots.Layout.{Layout};
ghost use Rattle.agent_store.specs.Plans.{load_plan};
ghost use Rattle.agent_rules.specs.declared.rules.parts.LocalState.{LocalState};
ghost use Rattle.agent_rules.specs.Half.{AgentHalf, started, restarted};
ghost use Rattle.agent_rules.specs.Keeping.{Call};
ghost use Rattle.agent_rules.specs.Calls.{call_after, calls_after};
ghost use Rattle.agent_rules.specs.Offers.{Reactions};
ghost use Rattle.agent_rules.specs.Events.{AgentEvent, Reports, Hears, Restarts, Crashes, agent_after, calls_in};
ghost use Rattle.agent_state.specs.View.{AgentView};
ghost use Rattle.agent_stopped.specs.declared.opening.Opening.{Opening};
ghost use Rattle.agent_stopped.specs.Endings.{Ending, Passed, Stopped, event_ends, stops_in};
ghost use Rattle.agent_stopped.specs.Plays.{KeepsNothing};
ghost use Rattle.agent_stopped.specs.Stages.{Stage, stage_of, Done, Crashed, outcome, event_by, Leads, left_on};
ghost use Rattle.agent_stopped.specs.Starts.{StartsAs, IsAtRest, IsStopped};

/// Law: calls that lead on are joined, a stop in later calls is one in all of them, and calls that were all made come to the last stage.
pub fn stages_join()
    ensures none { (layout : Layout) (stage : Stage) → Leads layout stage [] stage }
    ensures both { (layout : Layout) (from mid to : Stage) (first second : List Call) → Leads layout from first mid → Leads layout mid second to
        → Leads layout from (first ++ second) to }
    ensures stopped { (opening : Opening) (from mid : Stage) (first second : List Call) (disk : MemDisk) → Leads opening.layout from first mid
        → IsStopped opening mid second disk → IsStopped opening from (first ++ second) disk }
    ensures stopped_before { (opening : Opening) (from : Stage) (first second : List Call) (disk : MemDisk) → IsStopped opening from first disk
        → IsStopped opening from (first ++ second) disk }
    ensures done { (layout : Layout) (mode : Mode) (from to : Stage) (calls : List Call) → Leads layout from calls to
        → outcome layout mode from calls ≡ Done to.half to.image }
    ensures crashed { (opening : Opening) (mode : Mode) (from : Stage) (calls : List Call) (disk : MemDisk) (stopped : IsStopped opening from calls disk)
        → outcome opening.layout mode from calls ≡ Crashed (stopped.half mode) (left_on disk mode) }
{}

/// Law: an agent at rest starts again with what it keeps.
pub fn rest_starts_again()
    ensures starts { (opening : Opening) (agent : AgentView) (disk : MemDisk) → IsAtRest opening agent disk
        → StartsAs opening agent.half.local (disk_bytes (memory_disk disk)) (restarted agent.half) }
{}

/// Law: a call that keeps nothing leads on without a device call, and leaves the agent at rest.
pub fn calls_beside_disk()
    ensures leads { (layout : Layout) (disk : MemDisk) (before after : AgentView) (call : Call) → KeepsNothing call
        → after.half ≡ call_after before.half call → Leads layout (stage_of before disk) (call ∷ []) (stage_of after disk) }
    ensures at_rest { (opening : Opening) (disk : MemDisk) (before after : AgentView) (call : Call) → KeepsNothing call → after.half ≡ call_after before.half call
        → after.store ≡ before.store → IsAtRest opening before disk → IsAtRest opening after disk }
{}

/// Law: what a report or a reply comes to is what its calls come to; and a start comes to the agent started again so, or, by a crash where its device call
/// is the one that is stopped, started again as it was.
pub fn events_are_their_calls()
    ensures reports { (layout : Layout) (mode : Mode) (stage : Stage)
        → event_by stage.half Reports (event_ends layout mode stage.left stage.image stage.half Reports) ≡ outcome layout mode stage (calls_in stage.half Reports) }
    ensures hears { (layout : Layout) (mode : Mode) (stage : Stage) (reply : ServerToAgent) (reactions : Reactions)
        → event_by stage.half (Hears reply reactions) (event_ends layout mode stage.left stage.image stage.half (Hears reply reactions))
        ≡ outcome layout mode stage (calls_in stage.half (Hears reply reactions)) }
    ensures restarts { (layout : Layout) (mode : Mode) (stage : Stage) (local : LocalState) (asks_uid : Bool)
        → event_by stage.half (Restarts local asks_uid) (event_ends layout mode stage.left stage.image stage.half (Restarts local asks_uid))
        ≡ (if stops_in stage.left load_plan then Crashed (restarted stage.half) stage.image
        else Done (started local stage.half.saved stage.half.is_kept stage.half.room asks_uid) stage.image) }
{}

/// Law: what an event comes to tells how it ended.
pub fn outcomes_tell_endings()
    ensures done { (a half : AgentHalf) (event : AgentEvent) (ending : Ending) (image : ℕ → ℕ) → event_by a event ending ≡ Done half image
        → (ending ≡ Passed image) × (agent_after a event ≡ half) }
    ensures crashed { (a half : AgentHalf) (event : AgentEvent) (ending : Ending) (image : ℕ → ℕ) → event_by a event ending ≡ Crashed half image
        → (saves : ℕ) × ((ending ≡ Stopped saves image) × (agent_after a (Crashes event saves) ≡ half)) }
{}

/// Law: a disk that isn't armed stops no call. Calls come to their last stage, an event passes, and of no calls one was stopped.
pub fn unarmed_stops_nothing()
    ensures calls { (layout : Layout) (mode : Mode) (stage : Stage) (calls : List Call) → stage.left ≡ 0
        → (image : ℕ → ℕ) × (outcome layout mode stage calls ≡ Done (calls_after stage.half calls) image) }
    ensures events { (layout : Layout) (mode : Mode) (image : ℕ → ℕ) (a : AgentHalf) (event : AgentEvent)
        → (after : ℕ → ℕ) × (event_ends layout mode 0 image a event ≡ Passed after) }
    ensures stopped { (opening : Opening) (from : Stage) (calls : List Call) (disk : MemDisk) → from.left ≡ 0 → IsStopped opening from calls disk → ⊥ }
{}
