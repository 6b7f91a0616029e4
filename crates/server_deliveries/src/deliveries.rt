//! What delivers offers behind the events of a session: the points of the rollouts, and pushes.

ghost use Rattle.std.specs.Prelude.{◌≡◌, ◌⊎◌, [], ℕ, List, IfOk, OnErr, OnOk, false};
ghost use Rattle.std.specs.Option.{option_map};
ghost use Rattle.server_waves.specs.Candidates.{is_candidate};
ghost use Rattle.server_waves.specs.Points.{AreCurrentBut, ArePointedInPart, points};
ghost use Rattle.server_waves.specs.Register.{Rolling};
ghost use Rattle.server_sessions.specs.Reports.{desk_of, host_of};
ghost use Rattle.server_sessions.specs.Wiring.{view_of};
ghost use Rattle.server_sessions.specs.Behind.{IsBehind, LeadsBy, post_of};
ghost use Rattle.server_sessions.specs.Connections.{AreOpen, Known};
ghost use Rattle.server_sessions.specs.Journaling.{Journaling, journaled};
ghost use Rattle.server_sessions.specs.Runs.{Gives};
ghost use Rattle.server_sessions.specs.Sessions.{EndsBy, site_of};
ghost use Rattle.server_deliveries.specs.Routes.{no_routes};
ghost use Rattle.server_deliveries.specs.Views.{reach_of};
ghost use Rattle.server_deliveries.specs.Deliveries.{AreKnownWhere, Delivers, DeliversInPart, PushesInPartWhere, PushesWhere, WereKnownWhere, anew, delivered_of, heard_in, pushing};

use crate::{Routes, push_behind};
use edge_devices::{Entropy, Sink, Wire};
use message_handlers::{Handler, Handlers};
use plain_values::{List, NoMemory, Uid};
use server_core::Server;
use server_sessions::{Behind, Connections, Handled, ServeEnd, Stepped, calls_join, serve_noting};
use server_waves::{Candidates, Judge, ServerDesk};
use std::alloc::Global;
use std::mem;

/// What delivers offers behind the events of a session: the points of the desk's rollouts, by a judge, and pushes, where they are asked for.
pub struct Delivery<J> {
    pub(crate) judge: J,
    pub(crate) routes: Option<Routes>,
    // The agents of which it may be known what became of an offer.
    pub(crate) candidates: Candidates,
}

// By hand, so that it is a call where a value is dropped, and not laid out there.
impl<J: Drop> Drop for Delivery<J> {
    fn drop(self) {
        let Delivery {
            judge: _,
            routes: _,
            candidates: _,
        } = self;
    }
}

// No connection reaches an agent, where offers are pushed. Takes no memory.
fn routes_for(alloc: Global, push: bool) -> Option<Routes>
    ensures routes { option_map reach_of result ≡ pushing push }
{
    if push { Some(Routes::new(alloc)) } else { None }
}

// Has no connection reach an agent. Takes no memory.
fn reach_nobody(alloc: Global, routes: &mut Option<Routes>)
    ensures routes { option_map reach_of routes.new ≡ option_map (λ was. no_routes) (option_map reach_of routes.old) }
    ensures known { AreKnownWhere [] routes.new }
{
    if let Some(routes) = routes {
        drop(mem::replace(routes, Routes::new(alloc)));
    }
}

// The agents of these reports, in order.
fn heard_in(alloc: Global, handled: &[Handled]) -> Result<List<Uid>, NoMemory>
    ensures heard { IfOk result (λ heard. heard ≡ heard_in handled.now) }
{
    let mut heard = List::new(alloc);
    for report in handled {
        heard.push(report.uid)?;
    }
    Ok(heard)
}

// Has all agents be candidates where it isn't told of which one a record may have changed: memory may have been wanting for a message
// of a piece, and then its connection ended.
fn doubt(candidates: &mut Candidates, piece: bool, stepped: &Stepped)
    ensures kept { (uid : List ℕ) → is_candidate candidates.new uid ≡ false → (is_candidate candidates.old uid ≡ false) × ((piece ≡ false) ⊎ (stepped.now.ended ≡ [])) }
{
    if piece && !stepped.ended.is_empty() {
        candidates.add_everyone();
    }
}

// Each rollout comes to its point. It gives the agents to which an offer was newly made.
fn come_to_points<J: Judge>(
    judge: &J,
    candidates: &mut Candidates,
    alloc: Global,
    desk: &mut ServerDesk,
    piece: bool,
    stepped: &Stepped,
) -> Result<List<Uid>, NoMemory>
    requires behind { (known : Known) × IsBehind (λ known table rollouts. AreCurrentBut (is_candidate candidates.old) (J.finds_fine judge.now) table.records rollouts)
        piece known desk.old.server.table desk.old.rollouts stepped.now }
    ensures rollouts { OnOk result (desk.new.rollouts ≡ (points (J.finds_fine judge.now) (heard_in stepped.now.handled) desk.old.rollouts desk.old.server.table).rollouts) }
    ensures table { OnOk result (desk.new.server.table ≡ (points (J.finds_fine judge.now) (heard_in stepped.now.handled) desk.old.rollouts desk.old.server.table).table) }
    ensures newly { IfOk result (λ newly. newly ≡ (points (J.finds_fine judge.now) (heard_in stepped.now.handled) desk.old.rollouts desk.old.server.table).newly) }
    ensures part { OnErr result (ArePointedInPart (J.finds_fine judge.now) (heard_in stepped.now.handled) desk.old.rollouts desk.new.rollouts desk.old.server.table desk.new.server.table) }
    ensures current { OnOk result (AreCurrentBut (is_candidate candidates.new) (J.finds_fine judge.now) desk.new.server.table.records desk.new.rollouts) }
    ensures profile { desk.new.server.profile ≡ desk.old.server.profile }
{
    let heard = heard_in(alloc, stepped.handled.as_slice())?;
    doubt(candidates, piece, stepped);
    let ServerDesk { server, rollouts } = desk;
    rollouts.come_to_points(alloc, server, judge, heard.as_slice(), candidates)
}

// Sends the pushes that are due behind an event, if offers are pushed. After want of memory nothing is said of the routes.
fn push_where<W: Wire>(
    alloc: Global,
    connections: &mut Connections,
    routes: &mut Option<Routes>,
    server: &Server,
    wire: &mut W,
    stepped: &Stepped,
    newly: &[Uid],
) -> Result<(), NoMemory>
    requires open { AreOpen (W.calls wire.old) connections.old }
    requires known { WereKnownWhere connections.old stepped.now routes.old }
    ensures follows { OnOk result ((rollouts : List Rolling) → LeadsBy (PushesWhere newly.now) server.now.profile
        (post_of connections.old (view_of (W.calls wire.old) (W.faults wire.old)) server.now.table rollouts stepped.now (option_map reach_of routes.old))
        (post_of connections.new (view_of (W.calls wire.new) (W.faults wire.new)) server.now.table rollouts stepped.now (option_map reach_of routes.new))) }
    ensures part { OnErr result ((rollouts : List Rolling) → LeadsBy (PushesInPartWhere newly.now) server.now.profile
        (post_of connections.old (view_of (W.calls wire.old) (W.faults wire.old)) server.now.table rollouts stepped.now (option_map reach_of routes.old))
        (post_of connections.new (view_of (W.calls wire.new) (W.faults wire.new)) server.now.table rollouts stepped.now (option_map reach_of routes.new))) }
    ensures open { OnOk result (AreOpen (W.calls wire.new) connections.new) }
    ensures known { OnOk result (AreKnownWhere connections.new routes.new) }
    ensures calls { OnOk result (Gives (view_of (W.calls wire.old) (W.faults wire.old)) (view_of (W.calls wire.new) (W.faults wire.new)) []) }
{
    calls_join();
    match routes {
        None => Ok(()),
        Some(routes) => push_behind(alloc, connections, routes, server, wire, stepped, newly),
    }
}

impl<J: Judge> Delivery<J> {
    /// With this judge of rollouts, and with pushes where they are asked for. Takes no memory.
    pub fn new(alloc: Global, judge: J, push: bool) -> Delivery<J>
        ensures delivered { delivered_of J.finds_fine result ≡ record { fine = J.finds_fine judge; routes = pushing push } }
    {
        let routes = routes_for(alloc, push);
        Delivery {
            judge,
            routes,
            candidates: Candidates::everyone(alloc),
        }
    }
}

impl<J: Judge> Behind for Delivery<J> {
    ghost use Rattle.std.proofs.Common.{◌≡◌, ◌∙◌, refl};
    ghost use Rattle.server_deliveries.specs.Deliveries.{AreKnownWhere, Delivered, Delivers, DeliversInPart, IsCurrent, delivered_of, delivered_offers};
    ghost use Rattle.server_deliveries.specs.Delivering.{deliveries_made};

    ghost Kept = { Delivered };

    ghost kept = { λ delivery. delivered_of J.finds_fine delivery };

    ghost follows = { Delivers };

    ghost part = { DeliversInPart };

    ghost offers = { delivered_offers };

    ghost fits = { λ delivery known table rollouts. IsCurrent J.finds_fine delivery table rollouts × AreKnownWhere known delivery.routes };

    ghost keeps = { λ a b. b.judge ≡ a.judge };

    ghost changes = { deliveries_made };

    ghost keeps_none = { λ a. refl };

    ghost keeps_more = { λ a b c p q. q ∙ p };

    fn follow<W: Wire>(
        &mut self,
        alloc: Global,
        connections: &mut Connections,
        desk: &mut ServerDesk,
        wire: &mut W,
        piece: bool,
        stepped: &mut Stepped,
    ) -> Result<(), NoMemory> {
        let newly = come_to_points(
            &self.judge,
            &mut self.candidates,
            alloc,
            desk,
            piece,
            stepped,
        )?;
        push_where(
            alloc,
            connections,
            &mut self.routes,
            &desk.server,
            wire,
            stepped,
            newly.as_slice(),
        )
    }
}

/// Serves as `serve` of `server_sessions` does, and behind each event delivers offers: each rollout of the desk, in the order of begin, has the
/// agents join whose reports in the event were answered without error, where they can, and comes to its point; and then, where offers are
/// pushed, the messages of the offers that are due go out to the agents of the operator's lines that were answered by `ok`, and to those that
/// the points newly offered to and that aren't among them. No connection reaches an agent at first. A journal is kept as by `serve_noting`.
///
/// # Errors
///
/// Those of `serve`; `NoMemory` also where memory is wanting for an agent to join, for an offer or for a push.
pub fn serve_delivering<W: Wire, E: Entropy, J: Judge, N: Sink>(
    alloc: Global,
    desk: &mut ServerDesk,
    handlers: &Handlers,
    wire: &mut W,
    entropy: &mut E,
    turns: u64,
    delivery: &mut Delivery<J>,
    notes: &mut N,
    journal: bool,
) -> Result<u64, ServeEnd>
    ensures ends { EndsBy Delivers DeliversInPart (host_of answers desk.old.server.profile handlers.now) turns
        (site_of (view_of (W.calls wire.old) (W.faults wire.old)) (desk_of (E.state entropy.old) desk.old.server.table desk.old.rollouts) (anew (delivered_of J.finds_fine delivery.old)))
        (site_of (view_of (W.calls wire.new) (W.faults wire.new)) (desk_of (E.state entropy.new) desk.new.server.table desk.new.rollouts) (delivered_of J.finds_fine delivery.new)) result }

    // The same with the lines of the journal, of which there are none where none is kept.
    ensures journals { (count : ℕ) × EndsBy (Journaling journal Delivers) (Journaling journal DeliversInPart) (host_of answers desk.old.server.profile handlers.now) turns
        (site_of (view_of (W.calls wire.old) (W.faults wire.old)) (desk_of (E.state entropy.old) desk.old.server.table desk.old.rollouts) (journaled (anew (delivered_of J.finds_fine delivery.old)) 0 (record { taken = N.taken notes.old; faults = N.faults notes.old })))
        (site_of (view_of (W.calls wire.new) (W.faults wire.new)) (desk_of (E.state entropy.new) desk.new.server.table desk.new.rollouts) (journaled (delivered_of J.finds_fine delivery.new) count (record { taken = N.taken notes.new; faults = N.faults notes.new }))) result }
    ensures silent { journal ≡ false → notes.new ≡ notes.old }

    // At every end it has its judge.
    ensures judge { (delivered_of J.finds_fine delivery.new).fine ≡ (delivered_of J.finds_fine delivery.old).fine }
    ensures profile { desk.new.server.profile ≡ desk.old.server.profile }
{
    delivery.candidates.add_everyone();
    reach_nobody(alloc, &mut delivery.routes);
    serve_noting(
        alloc, desk, handlers, wire, entropy, turns, delivery, notes, journal,
    )
}
