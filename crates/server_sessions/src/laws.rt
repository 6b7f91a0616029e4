//! What holds of every session, and of the connections that are known. No function here does anything: each stands for its clauses.

ghost use Rattle.std.specs.Prelude.{◌≡◌, ◌⊎◌, ◌↔◌, ◌++◌, ◌∷◌, [], ℕ, List, Ok, Option, Result, Bool, IsErrOf, IsNone, IsSome, true, false};
ghost use Rattle.message_values.specs.declared.report.AgentToServer.{AgentToServer as Report};
ghost use Rattle.message_values.specs.declared.reply.ServerToAgent.{ServerToAgent as Reply};
ghost use Rattle.edge_devices.specs.declared.wires.Given.{Given as Come};
ghost use Rattle.edge_devices.specs.declared.wires.Kind.{Kind as Spoken};
ghost use Rattle.edge_devices.specs.declared.wires.WireCall.{WireCall as Call};
ghost use Rattle.edge_devices.specs.declared.wires.WireCall.TheVariants.{Closed, Gave, LostOn, Sent};
ghost use Rattle.edge_devices.specs.declared.wires.WireEvent.{WireEvent as Happening};
ghost use Rattle.edge_devices.specs.declared.wires.WireEvent.TheVariants as event;
ghost use Rattle.edge_devices.specs.Faults.{HasRisen};
ghost use Rattle.edge_devices.specs.Wires.{Tells};
ghost use Rattle.server_core.specs.History.{Event, IsAccepted, Reported, reply_within};
ghost use Rattle.server_core.specs.Table.{empty_within, table_within};
ghost use Rattle.server_sessions.specs.Reports.{Desk, Intake, Replies, carrying, host_of, noted_report};
ghost use Rattle.server_lines.specs.Sights.{Seen};
ghost use Rattle.server_sessions.specs.Session.{Ending, Scene, ServerSession, ServesAll, SessionState, Standing, Streams, without_stream};
ghost use Rattle.server_sessions.specs.Streams.{Item};
ghost use Rattle.server_sessions.specs.Wiring.{IsDone, IsLost, WireView};
ghost use Rattle.server_sessions.specs.Behind.{IsKeyed};
ghost use Rattle.server_sessions.specs.Histories.{history_in, items_in};
ghost use Rattle.server_sessions.specs.Connections.{AreOpen, AreOpenBut, Forgets, Known, StandsFor};
ghost use Rattle.server_sessions.specs.Runs.{FailsAfter, Gives, HalfDoes, IsLostLast, ServesEvents};
ghost use Rattle.server_sessions.specs.Sessions.{EndsBy, FailsBy, Place, ServesBy, SessionBy, Site, alone, history_by, state_in};
ghost use Rattle.server_sessions.specs.Sessions.{Nothing as NothingFollows};
ghost use Rattle.server_sessions.specs.declared.serving.ServeEnd.{ServeEnd as End};
ghost use Rattle.server_sessions.specs.declared.serving.ServeEnd.TheVariants as end;

use crate::behind::Behind;
use message_handlers::{Handler, Handlers};
use server_core::{Server, asks_where_not_accepted, table_follows_history};
use server_lines::laws::one_order_a_line;

/// Law: a session keeps the table of the history of its reports, offers and orders, and the reply to each report is the one that is
/// due after that history, on which a handler's answer may ride. An empty table is that of no history. So it is
/// for each number of agents that a server is made for.
pub fn sessions_are_histories(server: &Server, handlers: &Handlers)
    ensures session { (limit : ℕ) (history : List Event) (events : List Come) (old new : SessionState) (stop : Bool) → old.standing.desk.table ≡ table_within limit history
        → (session : ServerSession (host_of answers server.now.profile handlers.now) events old new stop)
        → new.standing.desk.table ≡ table_within limit (history ++ history_in (host_of answers server.now.profile handlers.now) events old new stop session) }
    ensures items { (limit : ℕ) (history : List Event) (kind : Spoken) (conn : ℕ) (items : List Item) (old new : Scene) (end : Ending) → old.sheet.desk.table ≡ table_within limit history
        → (served : ServesAll (host_of answers server.now.profile handlers.now) kind conn items old new end)
        → new.sheet.desk.table ≡ table_within limit (history ++ items_in (host_of answers server.now.profile handlers.now) conn kind items old new end served) }
    ensures replies { (limit : ℕ) (history : List Event) (m : Report) (old new : Intake) (reply : Reply) → old.table ≡ table_within limit history
        → (replies : Replies (host_of answers server.now.profile handlers.now) m old new reply)
        → (reply ≡ carrying (reply_within limit server.now.profile history m replies.fresh) replies.answer) × (new.table ≡ table_within limit (history ++ Reported m ∷ [])) }
    ensures first { (limit : ℕ) → empty_within limit ≡ table_within limit [] }
{
    table_follows_history();
}

/// Law: a report that was answered without error is noted as taken exactly where it was accepted after the history of the table.
pub fn taken_reports_are_accepted(server: &Server, handlers: &Handlers)
    ensures accepted { (limit : ℕ) (history : List Event) (m : Report) (old new : Intake) (reply : Reply) (conn : ℕ) (ws : Bool) (uid : List ℕ) → old.table ≡ table_within limit history
        → Replies (host_of answers server.now.profile handlers.now) m old new reply → IsNone reply.error_response
        → ((noted_report conn ws uid reply).taken ≡ true ↔ IsAccepted limit history m) }
{
    table_follows_history();
    asks_where_not_accepted();
}

/// Law: a session keeps the table of the history of its reports, offers and orders, whatever follows its events, where the offers that this
/// makes stand in the history, each behind its event.
pub fn all_sessions_are_histories<B: Behind>(server: &Server, handlers: &Handlers, behind: &B)
    ensures session { (limit : ℕ) (history : List Event) (events : List Come) (old new : Place B.Kept) (stop : Bool) → old.standing.desk.table ≡ table_within limit history
        → (session : SessionBy B.follows (host_of answers server.now.profile handlers.now) events old new stop)
        → new.standing.desk.table ≡ table_within limit (history ++ history_by B.follows B.offers (host_of answers server.now.profile handlers.now) events old new stop session) }
{
    table_follows_history();
}

/// Law: the sessions of a server behind whose events nothing follows are the case of `Nothing`.
pub fn server_sessions_are_cases(server: &Server, handlers: &Handlers)
    ensures case { (events : List Come) (old new : SessionState) (stop : Bool) → ServerSession (host_of answers server.now.profile handlers.now) events old new stop
        → SessionBy NothingFollows (host_of answers server.now.profile handlers.now) events (alone old) (alone new) stop }
    ensures only { (events : List Come) (old new : Place Unit) (stop : Bool) → SessionBy NothingFollows (host_of answers server.now.profile handlers.now) events old new stop
        → ServerSession (host_of answers server.now.profile handlers.now) events (state_in old) (state_in new) stop }
{}

/// Law: what an ending of a run tells. Of a wire that tells its calls, a run of all turns without `stop` ends so, but for want of memory, and but
/// for one that ended by `stop` at its last turn with the same calls; and one that ended by `stop` ends so, but for want of memory, and but for one of
/// as many events without `stop` that tells the same calls.
pub fn endings_are_told<B: Behind>(server: &Server, handlers: &Handlers, behind: &B)
    ensures fault { (n : ℕ) (old new : Site B.Kept) → FailsBy B.follows (host_of answers server.now.profile handlers.now) n old new → HasRisen old.wire.faults new.wire.faults }
    ensures spent { (turns : ℕ) (old new other : Site B.Kept) (result : Result ℕ End) → EndsBy B.follows B.part (host_of answers server.now.profile handlers.now) turns old new result
        → ServesBy B.follows (host_of answers server.now.profile handlers.now) turns old other false → other.wire.calls ≡ new.wire.calls → IsSome old.wire.calls
        → IsErrOf result end.TurnsSpent ⊎ (IsErrOf result end.NoMemory ⊎ ((result ≡ Ok turns) × ServesBy B.follows (host_of answers server.now.profile handlers.now) turns old new true)) }
    ensures stop { (turns n : ℕ) (old new : Site B.Kept) (result : Result ℕ End) → EndsBy B.follows B.part (host_of answers server.now.profile handlers.now) turns old new result
        → ServesBy B.follows (host_of answers server.now.profile handlers.now) n old new true → IsSome old.wire.calls
        → (result ≡ Ok n) ⊎ (IsErrOf result end.NoMemory ⊎ ((wire : WireView) × (wire.calls ≡ new.wire.calls) × ServesBy B.follows (host_of answers server.now.profile handlers.now) n old (record new { wire = wire }) false)) }
{}

/// Law: what calls of a wire make of the known connections.
pub fn known_connections_stay_open()
    ensures given { (old new : Option (List Call)) (at : ℕ) (e : Happening) (known : Known) → Tells old new (Gave at e) → AreOpen old known → AreOpenBut new e known }
    ensures sent { (old new : Option (List Call)) (conn : ℕ) (bytes : List ℕ) (known : Known) → Tells old new (Sent conn bytes) → AreOpen old known → AreOpen new known }
    ensures lost { (old new : Option (List Call)) (conn : ℕ) (known : Known) → Tells old new (LostOn conn) → AreOpen old known → AreOpenBut new (event.Closed conn) known }
    ensures forgotten { (calls : Option (List Call)) (conn : ℕ) (known known' : Known) → AreOpenBut calls (event.Closed conn) known → Forgets conn known known' → AreOpen calls known' }
{}

/// Law: known connections without one stand for the streams without it.
pub fn forgotten_streams_end()
    ensures stands { (conn : ℕ) (known known' : Known) (streams : Streams) → StandsFor known streams → Forgets conn known known' → StandsFor known' (without_stream streams conn) }
{}

/// Law: without a stream each number has one stream at most still.
pub fn streams_stay_keyed()
    ensures keyed { (conn : ℕ) (streams : Streams) → IsKeyed streams → IsKeyed (without_stream streams conn) }
{}

/// Law: what calls of a wire give, one after another.
pub fn calls_join()
    ensures none { (a : WireView) → Gives a a [] }
    ensures joined { (a b c : WireView) (xs ys : List Come) → Gives a b xs → Gives b c ys → Gives a c (xs ++ ys) }
    ensures given { (a b : WireView) (e : Come) → IsDone (Gave e.at e.event) a b → Gives a b (e ∷ []) }
    ensures sent { (a b : WireView) (conn : ℕ) (bytes : List ℕ) → IsDone (Sent conn bytes) a b → Gives a b [] }
    ensures lost { (a b : WireView) (conn : ℕ) → IsLost conn a b → Gives a b [] }
    ensures closed { (a b : WireView) (conn : ℕ) → IsDone (Closed conn) a b → Gives a b [] }
{}

/// Law: the events that the wire gave in a session are those that it is of, and what is done for an event gives none, also where
/// memory is wanting.
pub fn sessions_tell_their_events(server: &Server, handlers: &Handlers)
    ensures given { (events : List Come) (old new : SessionState) (stop : Bool)
        → ServerSession (host_of answers server.now.profile handlers.now) events old new stop → Gives old.standing.wire new.standing.wire events }
    ensures half { (seen : Seen) (e : Happening) (s : Standing) (wire : WireView) (desk : Desk)
        → HalfDoes (host_of answers server.now.profile handlers.now) seen e s wire desk → Gives s.wire wire [] }
{}

/// Law: one run has one ending. Of a wire that tells its calls two runs have the same number of events, and one stops and the other
/// doesn't only where the last call is a send that was lost: whether that was the answer to `stop`, or that for want of memory, isn't told.
pub fn runs_have_one_ending(server: &Server, handlers: &Handlers)
    ensures number { (n m : ℕ) (old new : WireView) (desk a b : Desk) (stop other : Bool) → IsSome old.calls
        → ServesEvents (host_of answers server.now.profile handlers.now) n old new desk a stop
        → ServesEvents (host_of answers server.now.profile handlers.now) m old new desk b other → n ≡ m }
    ensures stop { (n m : ℕ) (old new : WireView) (desk a b : Desk) → IsSome old.calls
        → ServesEvents (host_of answers server.now.profile handlers.now) n old new desk a true
        → ServesEvents (host_of answers server.now.profile handlers.now) m old new desk b false → IsLostLast new.calls }
    ensures failed { (n m : ℕ) (old new : WireView) (desk a b : Desk) (stop : Bool) → IsSome old.calls
        → FailsAfter (host_of answers server.now.profile handlers.now) n old new desk a
        → ServesEvents (host_of answers server.now.profile handlers.now) m old new desk b stop → n ≡ m }
{
    one_order_a_line();
}
