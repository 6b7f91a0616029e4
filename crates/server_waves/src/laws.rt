//! What holds of every rollout. No function here does anything: each stands for its clauses.

ghost use Rattle.std.specs.Prelude.{◌≡◌, ◌≤◌, ◌<◌, ◌⊎◌, ◌++◌, [], ℕ, List, Option, Bool, length, pos, true};
ghost use Rattle.server_core.specs.declared.rows.Record.{Record as Agent};
ghost use Rattle.server_core.specs.Table.{Table};
ghost use Rattle.std.specs.List.{list_all};
ghost use Rattle.server_waves.specs.declared.finders.Finder.{Finder};
ghost use Rattle.server_waves.specs.Courses.{OffersNoMore, Step, StillWait, course, is_no_leave, is_no_resume, unsettled};
ghost use Rattle.server_waves.specs.Points.{AreWithin, OfferNoMore, points, rolled, rolled_newly};
ghost use Rattle.server_waves.specs.Register.{Rolling, all_without, changed, finished, with_rolling};
ghost use Rattle.server_waves.specs.Waves.{Terms, has_joined, has_place, offers_at, resumed, table_at, with_halt};

use crate::register::ROLLOUT_LIMIT;
use crate::verdicts::{APPLIED, FAILED};

/// Law: whatever happens to a rollout, at most as many agents as its width have the offer and haven't applied it, but for those that failed
/// before it was last resumed.
pub fn width_is_kept()
    ensures width { (fine : Agent → Bool) (terms : Terms) (steps : List Step) → unsettled (course fine terms steps) ≤ terms.width }
{}

/// Law: a rollout that was halted stays so until it is resumed, and the offer is made to no further agent: a point leaves the server's
/// table, and those that waited still wait, but for those that leave.
pub fn halt_is_final()
    ensures halted { (fine : Agent → Bool) (terms : Terms) (steps more : List Step) → (course fine terms steps).halted ≡ true → list_all is_no_resume more ≡ true
        → (course fine terms (steps ++ more)).halted ≡ true }
    ensures offered { (fine : Agent → Bool) (terms : Terms) (steps more : List Step) → (course fine terms steps).halted ≡ true → list_all is_no_resume more ≡ true
        → OffersNoMore (course fine terms steps) (course fine terms (steps ++ more)) }
    ensures waiting { (fine : Agent → Bool) (terms : Terms) (steps more : List Step) → (course fine terms steps).halted ≡ true → list_all is_no_resume more ≡ true
        → list_all is_no_leave more ≡ true → StillWait (course fine terms steps) (course fine terms (steps ++ more)) }
    ensures table { (fine : Agent → Bool) (terms : Terms) (steps : List Step) (table : Table) → (course fine terms steps).halted ≡ true
        → table_at fine terms table (course fine terms steps) (offers_at fine terms table (course fine terms steps)) ≡ table }
{}

/// Law: each agent that joined a rollout is in one of its lists.
pub fn members_have_places()
    ensures places { (fine : Agent → Bool) (terms : Terms) (steps : List Step) (uid : List ℕ) → has_place (course fine terms steps) uid ≡ has_joined (course fine terms steps) uid }
{}

/// Law: behind each point at most as many agents as the rollout's width have its offer and neither applied it nor failed, or more than that had it before, and
/// then it is newly made to none; and to none is it newly made where the rollout was halted.
pub fn points_keep_width()
    ensures width { (fine : Agent → Bool) (heard : List (List ℕ)) (table : Table) (rolling : Rolling)
        → (length (rolled fine heard table rolling).waves.offered ≤ rolling.terms.width)
        ⊎ ((rolling.terms.width < length rolling.waves.offered) × (rolled_newly fine heard table rolling ≡ [])) }
    ensures halt { (fine : Agent → Bool) (heard : List (List ℕ)) (table : Table) (rolling : Rolling) → rolling.waves.halted ≡ true
        → ((rolled fine heard table rolling).waves.halted ≡ true) × (rolled_newly fine heard table rolling ≡ []) }
{}

/// Law: from its begin to its finish at most as many agents as a rollout's width have its offer and haven't applied it, but for those that are excused: so it is
/// of each rollout behind each order of an operator, each agent that leaves and each point, where it was so before.
pub fn rollouts_keep_width()
    ensures none { AreWithin [] }
    ensures begun { (records : List Agent) (id : List ℕ) (sought : Option Finder) (terms : Terms) (rollouts : List Rolling) → AreWithin rollouts → AreWithin (with_rolling records id sought terms rollouts) }
    ensures halted { (id : List ℕ) (rollouts : List Rolling) → AreWithin rollouts → AreWithin (changed with_halt id rollouts) }
    ensures resumed { (id : List ℕ) (rollouts : List Rolling) → AreWithin rollouts → AreWithin (changed resumed id rollouts) }
    ensures finished { (id : List ℕ) (rollouts : List Rolling) → AreWithin rollouts → AreWithin (finished id rollouts) }
    ensures left { (uid : List ℕ) (rollouts : List Rolling) → AreWithin rollouts → AreWithin (all_without uid rollouts) }
    ensures points { (fine : Agent → Bool) (heard : List (List ℕ)) (rollouts : List Rolling) (table : Table) → AreWithin rollouts → AreWithin (points fine heard rollouts table).rollouts }
{}

/// Law: what an operator orders of rollouts, and an agent that leaves them, makes no offer: points alone do.
pub fn orders_offer_nothing()
    ensures begun { (records : List Agent) (id : List ℕ) (sought : Option Finder) (terms : Terms) (rollouts : List Rolling) → OfferNoMore rollouts (with_rolling records id sought terms rollouts) }
    ensures halted { (id : List ℕ) (rollouts : List Rolling) → OfferNoMore rollouts (changed with_halt id rollouts) }
    ensures resumed { (id : List ℕ) (rollouts : List Rolling) → OfferNoMore rollouts (changed resumed id rollouts) }
    ensures finished { (id : List ℕ) (rollouts : List Rolling) → OfferNoMore rollouts (finished id rollouts) }
    ensures left { (uid : List ℕ) (rollouts : List Rolling) → OfferNoMore rollouts (all_without uid rollouts) }
{}

/// Law: the statuses that agents tell of a configuration are these numbers (OpAMP specification, "RemoteConfigStatuses").
pub fn status_numbers()
    ensures applied { APPLIED ≡ pos 1 }
    ensures failed { FAILED ≡ pos 3 }
{}

/// Law: the number of rollouts that there are at one time at most.
pub fn limits()
    ensures rollouts { ROLLOUT_LIMIT ≡ 16 }
{}
