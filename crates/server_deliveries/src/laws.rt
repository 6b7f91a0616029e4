//! What holds of every session in which offers are delivered or pushed. No function here does anything: each stands for its clauses.

ghost use Rattle.std.specs.Prelude.{◌≡◌, ◌++◌, [], ℕ, ◌∷◌, List, Bool, None};
ghost use Rattle.edge_devices.specs.declared.wires.Given.{Given as Come};
ghost use Rattle.server_core.specs.declared.rows.Record.{Record as Agent};
ghost use Rattle.server_core.specs.declared.replies.Profile.{Profile};
ghost use Rattle.server_core.specs.History.{Event as Heard};
ghost use Rattle.server_core.specs.Table.{Table, table_within};
ghost use Rattle.server_waves.specs.Points.{rolled, with_heard};
ghost use Rattle.server_waves.specs.Register.{Rolling};
ghost use Rattle.server_waves.specs.Waves.{IsPoint};
ghost use Rattle.server_sessions.specs.Reports.{host_of};
ghost use Rattle.server_sessions.specs.Session.{Moment};
ghost use Rattle.server_sessions.specs.Sessions.{Place, SessionBy, history_by};
ghost use Rattle.server_sessions.specs.Sessions.{Nothing as NothingFollows};
ghost use Rattle.server_deliveries.specs.Pushing.{Pushes, PushingSession};
ghost use Rattle.server_deliveries.specs.Routes.{Reach};
ghost use Rattle.server_deliveries.specs.Deliveries.{Delivered, Delivers, EachKeepsWidth, NoRollouts, SessionsKeepWidth, delivered_offers, heard_in, with_fleet, with_none, with_pushes};

use crate::deliveries::Delivery;
use crate::routes::Routes;
use message_handlers::{Handler, Handlers};
use server_core::Server;
use server_sessions::all_sessions_are_histories;
use server_waves::{Judge, points_keep_width, rollouts_keep_width};

/// Law: the sessions in which offers are pushed are the case of `Routes` of the one session.
pub fn pushing_sessions_are_cases(server: &Server, handlers: &Handlers)
    ensures case { (events : List Come) (old new : Place Reach) (stop : Bool) → PushingSession (host_of answers server.now.profile handlers.now) events old new stop
        → SessionBy Pushes (host_of answers server.now.profile handlers.now) events old new stop }
    ensures only { (events : List Come) (old new : Place Reach) (stop : Bool)
        → SessionBy Pushes (host_of answers server.now.profile handlers.now) events old new stop
        → PushingSession (host_of answers server.now.profile handlers.now) events old new stop }
{}

/// Law: a session in which offers are pushed keeps the table of the history of its reports, offers and orders, to which pushes add nothing.
pub fn pushing_sessions_are_histories(server: &Server, handlers: &Handlers, routes: &Routes)
    ensures session { (limit : ℕ) (history : List Heard) (events : List Come) (old new : Place Reach) (stop : Bool) → old.standing.desk.table ≡ table_within limit history
        → (session : SessionBy Pushes (host_of answers server.now.profile handlers.now) events old new stop)
        → new.standing.desk.table ≡ table_within limit (history ++ history_by Pushes (λ end kept. []) (host_of answers server.now.profile handlers.now) events old new stop session) }
{
    all_sessions_are_histories(server, handlers, routes);
}

/// Law: of the sessions in which offers are delivered those with no rollout behind any event are, without pushes, the sessions of a server
/// behind whose events nothing follows, and with pushes those of one that pushes.
pub fn deliveries_have_cases(server: &Server, handlers: &Handlers)
    ensures nothing { (fine : Agent → Bool) (events : List Come) (old new : Place Unit) (stop : Bool)
        → SessionBy (NoRollouts NothingFollows) (host_of answers server.now.profile handlers.now) events old new stop
        → SessionBy (NoRollouts Delivers) (host_of answers server.now.profile handlers.now) events (with_none fine old) (with_none fine new) stop }
    ensures nothing_only { (fine : Agent → Bool) (events : List Come) (old : Place Unit) (new : Place Delivered) (stop : Bool)
        → SessionBy (NoRollouts Delivers) (host_of answers server.now.profile handlers.now) events (with_none fine old) new stop
        → (last : Place Unit) × (new ≡ with_none fine last) × SessionBy (NoRollouts NothingFollows) (host_of answers server.now.profile handlers.now) events old last stop }
    ensures pushes { (fine : Agent → Bool) (events : List Come) (old new : Place Reach) (stop : Bool)
        → SessionBy (NoRollouts Pushes) (host_of answers server.now.profile handlers.now) events old new stop
        → SessionBy (NoRollouts Delivers) (host_of answers server.now.profile handlers.now) events (with_pushes fine old) (with_pushes fine new) stop }
    ensures pushes_only { (fine : Agent → Bool) (events : List Come) (old : Place Reach) (new : Place Delivered) (stop : Bool)
        → SessionBy (NoRollouts Delivers) (host_of answers server.now.profile handlers.now) events (with_pushes fine old) new stop
        → (last : Place Reach) × (new ≡ with_pushes fine last) × SessionBy (NoRollouts Pushes) (host_of answers server.now.profile handlers.now) events old last stop }
{}

/// Law: where one rollout alone is there behind an event, and there are no pushes, what follows is its point, behind the joins of the agents that
/// were heard: it changes the table and the rollout, and nothing else.
pub fn one_rollout_is_a_case()
    ensures point { (profile : Profile) (ended : List ℕ) (fine : Agent → Bool) (end last : Moment) (kept : Delivered) (rolling : Rolling) → end.scene.sheet.desk.rollouts ≡ rolling ∷ []
        → Delivers profile ended end (record { fine = fine; routes = None }) last kept
        → IsPoint fine (with_heard end.scene.sheet.desk.table.records (heard_in end.scene.sheet.handled) rolling).terms
        (with_heard end.scene.sheet.desk.table.records (heard_in end.scene.sheet.handled) rolling).waves
        (rolled fine (heard_in end.scene.sheet.handled) end.scene.sheet.desk.table rolling).waves end.scene.sheet.desk.table last.scene.sheet.desk.table }
    ensures rest { (profile : Profile) (ended : List ℕ) (fine : Agent → Bool) (end last : Moment) (kept : Delivered) (rolling : Rolling) → end.scene.sheet.desk.rollouts ≡ rolling ∷ []
        → Delivers profile ended end (record { fine = fine; routes = None }) last kept
        → last ≡ with_fleet end last.scene.sheet.desk.table (rolled fine (heard_in end.scene.sheet.handled) end.scene.sheet.desk.table rolling ∷ []) }
{}

/// Law: in every session in which offers are delivered at most so many agents as a rollout's width have its offer and haven't applied it, but for those
/// that failed before it was last resumed: of each rollout from its begin to its finish, where it was so of those at the beginning. So it is at every
/// point of a run, which is one of a session that is the run's front.
pub fn sessions_keep_width(server: &Server, handlers: &Handlers)
    ensures width { SessionsKeepWidth (host_of answers server.now.profile handlers.now) }
{
    rollouts_keep_width();
}

/// Law: behind every event, for each rollout, at most so many agents as its width have its offer and neither applied it nor failed, or more than
/// that had it before, and then it is newly made to none; and to none is it newly made where the rollout was halted.
pub fn deliveries_keep_width()
    ensures width { (fine : Agent → Bool) (heard : List (List ℕ)) (rollouts : List Rolling) (table : Table) → EachKeepsWidth fine heard rollouts table }
{
    points_keep_width();
}

/// Law: a session in which offers are delivered keeps the table of the history of its reports, offers and orders, in which the offers of
/// the points stand behind the event that they follow; pushes add nothing.
pub fn deliveries_are_histories<J: Judge>(
    server: &Server,
    handlers: &Handlers,
    delivery: &Delivery<J>,
)
    ensures session { (limit : ℕ) (history : List Heard) (events : List Come) (old new : Place Delivered) (stop : Bool) → old.standing.desk.table ≡ table_within limit history
        → (session : SessionBy Delivers (host_of answers server.now.profile handlers.now) events old new stop)
        → new.standing.desk.table ≡ table_within limit (history ++ history_by Delivers delivered_offers (host_of answers server.now.profile handlers.now) events old new stop session) }
{
    all_sessions_are_histories(server, handlers, delivery);
}
