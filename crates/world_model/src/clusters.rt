//! The laws of runs with several servers behind an endpoint.

ghost use Rattle.std.specs.Prelude.{◌≡◌, ◌≢◌, ◌⊎◌, ℕ, List, [], ◌∷◌, ◌++◌, length, true, false, not, None, Some, slice_get};
ghost use Rattle.std.specs.Option.{option_map};
ghost use Rattle.message_values.specs.declared.reply.ServerErrorResponse.{ServerErrorResponse};
ghost use Rattle.message_values.specs.declared.reply.ServerToAgent.{ServerToAgent};
ghost use Rattle.agent_rules.specs.declared.rules.parts.LocalState.{LocalState};
ghost use Rattle.agent_rules.specs.Reports.{Entry, message_of};
ghost use Rattle.server_core.specs.History.{due_reply};
ghost use Rattle.agent_rules.specs.Half.{entry_of};
ghost use Rattle.server_core.specs.declared.rows.Record.{Record};
ghost use Rattle.world_model.specs.World.{Event, Delivered, Given, Start, opening, world, stands, carrying, record_in_world, asks_full};
ghost use Rattle.world_model.specs.Servers.{arrivals, record_after_history};
ghost use Rattle.world_model.specs.Exchanges.{Meanwhile, changes};
ghost use Rattle.world_model.specs.Proofs.{settings_part, config_part};
ghost use Rattle.world_model.specs.Clusters.{ClusterStart, ClusterEvent, At, cluster, seen_by, after_at, all_at, start_for, events_for, reaches, HasRoomAt, NameNobodyAt, IsKnownAt, IsAnswered, and_exchange, and_error, MayReach, IsFormerOrEarnedAt, IsFirstOrEarnedAt, Turn, first_of, both_of, in_turn, TellsChanges, AllTellChanges, with_one_each, placed, IsWorld};

use crate::laws::{former_settings_stand, plain_reply_means_held, records_are_entries};

/// Law: what one of several servers has of a run is a run with one server, in which replies of the others come unasked.
pub fn each_server_has_a_world()
    ensures seen { (start : ClusterStart) (es : List ClusterEvent) (s : List ℕ) → seen_by s (cluster start es) ≡ world (start_for s start) (events_for s start es) }
    ensures reached { (start : ClusterStart) (es : List ClusterEvent) (s : List ℕ) → reaches start es s ≡ arrivals (start_for s start) (events_for s start es) s }
{}

/// Law: a run with one server behind each endpoint is the case in which each event happens at that server.
pub fn one_server_each_is_a_world()
    ensures same { (start : Start) (events : List Event) → IsWorld (cluster (with_one_each start) (placed (opening start) events)) (world start events) }
{}

/// Law: for every list of events in which each delivery reaches any server behind the report's endpoint, and each reply that is heard is one that any of these
/// gave: each server's record of an agent is the agent's whole state at one report that was sent to an endpoint before it; a reply without ReportFullState
/// is given by a server whose record is then the state just reported; of two undisturbed exchanges at least one is answered so, and the second always where
/// the first was asked, both went to one server, or the second to another endpoint; and an offer that failed or was interrupted leaves the former settings.
pub fn any_server_of_an_endpoint()
    ensures held { (start : ClusterStart) (es : List ClusterEvent) (s uid : List ℕ) → HasRoomAt start es s
        → record_after_history (reaches start es s) uid ≡ record_in_world (cluster start es).sent ((cluster start es).held s uid) }
    ensures one_report { (start : ClusterStart) (es : List ClusterEvent) (s uid : List ℕ) (known : Record) → HasRoomAt start es s
        → record_after_history (reaches start es s) uid ≡ Some known
        → (place : ℕ) × ((e : Entry) × ((slice_get (cluster start es).sent place ≡ Some e)
        × ((start.behind e.server s ≡ true) × ((e.uid ≡ uid) × ((known.state ≡ e.state) × (known.number ≡ e.number)))))) }
    ensures just_reported { (start : ClusterStart) (es : List ClusterEvent) (s : List ℕ) (place : ℕ) (given : Given) (e : Entry) (reply : ServerToAgent)
        → slice_get (cluster start es).sent place ≡ Some e
        → start.behind e.server s ≡ true
        → let all = es ++ At s (Delivered place given) ∷ [] in
        HasRoomAt start all s
        → (cluster start all).replies s place ≡ Some reply
        → asks_full reply ≡ false
        → IsKnownAt start all s e }

    // Each server replies as is due to what reached it, whatever reached the others.
    ensures due { (start : ClusterStart) (es : List ClusterEvent) (s : List ℕ) (place : ℕ) (given : Given) (e : Entry)
        → let c = cluster start es in
        slice_get c.sent place ≡ Some e
        → start.behind e.server s ≡ true
        → HasRoomAt start es s
        → (after_at c (At s (Delivered place given))).replies s place
        ≡ Some (carrying given.message (due_reply (start.profiles s) (reaches start es s) (message_of e) given.fresh)) }

    // It asks exactly where the entry is neither alone nor on the one that this server holds.
    ensures asks { (start : ClusterStart) (es : List ClusterEvent) (s : List ℕ) (place : ℕ) (given : Given) (e : Entry)
        → let c = cluster start es in
        slice_get c.sent place ≡ Some e
        → start.behind e.server s ≡ true
        → option_map asks_full ((after_at c (At s (Delivered place given))).replies s place) ≡ Some (not (stands (seen_by s c) place e)) }
    ensures one_of_two { (start : ClusterStart) (es : List ClusterEvent) (s t : List ℕ) (first second : Meanwhile) (between : List LocalState)
        → let once = and_exchange start es s first in
        let middle = once ++ all_at s (changes between) in
        MayReach start es s → MayReach start middle t
        → HasRoomAt start once s → HasRoomAt start (and_exchange start middle t second) t
        → IsAnswered start es s first ⊎ IsAnswered start middle t second }
    ensures after_asked { (start : ClusterStart) (es : List ClusterEvent) (s t : List ℕ) (first second : Meanwhile) (between : List LocalState) (reply : ServerToAgent)
        → let once = and_exchange start es s first in
        let middle = once ++ all_at s (changes between) in
        MayReach start es s → MayReach start middle t
        → HasRoomAt start (and_exchange start middle t second) t
        → (cluster start once).replies s (length (cluster start es).sent) ≡ Some reply → asks_full reply ≡ true
        → IsAnswered start middle t second }
    ensures one_server { (start : ClusterStart) (es : List ClusterEvent) (s : List ℕ) (first second : Meanwhile) (between : List LocalState)
        → let middle = and_exchange start es s first ++ all_at s (changes between) in
        MayReach start es s → MayReach start middle s
        → HasRoomAt start (and_exchange start middle s second) s
        → IsAnswered start middle s second }
    ensures other_endpoint { (start : ClusterStart) (es : List ClusterEvent) (s t : List ℕ) (first second : Meanwhile) (between : List LocalState)
        → let middle = and_exchange start es s first ++ all_at s (changes between) in
        MayReach start es s → MayReach start middle t
        → HasRoomAt start (and_exchange start middle t second) t
        → (entry_of (cluster start es).agent).server ≢ (entry_of (cluster start middle).agent).server
        → IsAnswered start middle t second }

    // A whole report is answered well by each server behind its endpoint.
    ensures whole { (start : ClusterStart) (es : List ClusterEvent) (s : List ℕ) (m : Meanwhile)
        → MayReach start es s → HasRoomAt start (and_exchange start es s m) s
        → (entry_of (cluster start es).agent).basis ≡ None
        → IsAnswered start es s m }
    ensures settings { (start : ClusterStart) (es : List ClusterEvent) (s : List ℕ) (e : Event) → IsFormerOrEarnedAt settings_part (cluster start es) s e }
    ensures configuration { (start : ClusterStart) (es : List ClusterEvent) (s : List ℕ) (e : Event) → IsFormerOrEarnedAt config_part (cluster start es) s e }
    ensures first_settings { (start : ClusterStart) (es : List ClusterEvent) → IsFirstOrEarnedAt settings_part start es }
    ensures first_configuration { (start : ClusterStart) (es : List ClusterEvent) → IsFirstOrEarnedAt config_part start es }
{
    records_are_entries();
    plain_reply_means_held();
    former_settings_stand();
}

/// Law: with two servers in strict turn the second one never comes to know the agent. Where the report behind an exchange with one server reaches another one
/// and tells changes alone, the other asks for the full state and holds what it held before, however often it is its turn. So who puts several servers behind an
/// endpoint holds an agent to a server, as long as that lives.
pub fn strict_turns_leave_one_behind()
    ensures asked { (start : ClusterStart) (es : List ClusterEvent) (s t : List ℕ) (turn : Turn) → s ≢ t → TellsChanges start es s t turn
        → option_map asks_full ((cluster start (both_of start es s t turn)).replies t (length (cluster start (first_of start es s turn)).sent)) ≡ Some true }
    ensures behind { (start : ClusterStart) (es : List ClusterEvent) (s t uid : List ℕ) (turns : List Turn) → s ≢ t → AllTellChanges start es s t turns
        → (cluster start (in_turn start es s t turns)).held t uid ≡ (cluster start es).held t uid }
{}

/// Law: also with several servers an agent comes to use at most two identifiers, so that one agent fills none of them, in any run in which no message that comes
/// unasked gives it another one.
pub fn one_agent_has_room_at_each()
    ensures room { (start : ClusterStart) (es : List ClusterEvent) (s : List ℕ) → NameNobodyAt es → HasRoomAt start es s }
{
    server_core::identifiers_ascend();
}

/// Law: also with several servers an error in place of a reply brings a whole report: each server behind the next report's endpoint answers it well.
pub fn errors_bring_whole_reports_to_each()
    ensures answered { (start : ClusterStart) (es : List ClusterEvent) (s t : List ℕ) (first second : Meanwhile) (error : ServerErrorResponse) (between : List LocalState)
        → NameNobodyAt es
        → let middle = and_error start es s first error ++ all_at s (changes between) in
        MayReach start es s → MayReach start middle t
        → IsAnswered start middle t second }
{
    any_server_of_an_endpoint();
    one_agent_has_room_at_each();
}

/// Law: any server behind an endpoint may answer. For every list of local changes, offers, lost, late and repeated reports, lost replies, reconnections, restarts
/// and crashes, in which each delivery reaches any server behind the report's endpoint, and each reply that is heard is one that any of these gave: each server's
/// record of an agent is the agent's whole state at one report sent to an endpoint before it; a reply without ReportFullState is given by a server whose record
/// is then the state just reported; of two undisturbed exchanges at least one is answered so, and the second always where the first was asked, both went to one
/// server, or the second to another endpoint; and an offer that failed or was interrupted leaves the former settings active. Messages that come unasked may be
/// among the events, where none of them gives the agent an identifier.
pub fn several_servers_know_their_agents()
    ensures one_report { (start : ClusterStart) (es : List ClusterEvent) (s uid : List ℕ) (known : Record) → NameNobodyAt es
        → record_after_history (reaches start es s) uid ≡ Some known
        → (place : ℕ) × ((e : Entry) × ((slice_get (cluster start es).sent place ≡ Some e)
        × ((start.behind e.server s ≡ true) × ((e.uid ≡ uid) × ((known.state ≡ e.state) × (known.number ≡ e.number)))))) }
    ensures just_reported { (start : ClusterStart) (es : List ClusterEvent) (s : List ℕ) (place : ℕ) (given : Given) (e : Entry) (reply : ServerToAgent)
        → NameNobodyAt es
        → slice_get (cluster start es).sent place ≡ Some e
        → start.behind e.server s ≡ true
        → let all = es ++ At s (Delivered place given) ∷ [] in
        (cluster start all).replies s place ≡ Some reply
        → asks_full reply ≡ false
        → IsKnownAt start all s e }
    ensures one_of_two { (start : ClusterStart) (es : List ClusterEvent) (s t : List ℕ) (first second : Meanwhile) (between : List LocalState) → NameNobodyAt es
        → let middle = and_exchange start es s first ++ all_at s (changes between) in
        MayReach start es s → MayReach start middle t
        → IsAnswered start es s first ⊎ IsAnswered start middle t second }
    ensures after_asked { (start : ClusterStart) (es : List ClusterEvent) (s t : List ℕ) (first second : Meanwhile) (between : List LocalState) (reply : ServerToAgent)
        → NameNobodyAt es
        → let once = and_exchange start es s first in
        let middle = once ++ all_at s (changes between) in
        MayReach start es s → MayReach start middle t
        → (cluster start once).replies s (length (cluster start es).sent) ≡ Some reply → asks_full reply ≡ true
        → IsAnswered start middle t second }
    ensures one_server { (start : ClusterStart) (es : List ClusterEvent) (s : List ℕ) (first second : Meanwhile) (between : List LocalState) → NameNobodyAt es
        → let middle = and_exchange start es s first ++ all_at s (changes between) in
        MayReach start es s → MayReach start middle s
        → IsAnswered start middle s second }
    ensures other_endpoint { (start : ClusterStart) (es : List ClusterEvent) (s t : List ℕ) (first second : Meanwhile) (between : List LocalState) → NameNobodyAt es
        → let middle = and_exchange start es s first ++ all_at s (changes between) in
        MayReach start es s → MayReach start middle t
        → (entry_of (cluster start es).agent).server ≢ (entry_of (cluster start middle).agent).server
        → IsAnswered start middle t second }
    ensures settings { (start : ClusterStart) (es : List ClusterEvent) (s : List ℕ) (e : Event) → IsFormerOrEarnedAt settings_part (cluster start es) s e }
    ensures configuration { (start : ClusterStart) (es : List ClusterEvent) (s : List ℕ) (e : Event) → IsFormerOrEarnedAt config_part (cluster start es) s e }
{
    any_server_of_an_endpoint();
    one_agent_has_room_at_each();
}
