//! What joins a plan to the doing of an offer.

ghost use Rattle.std.specs.Prelude.{◌≡◌, List, Bool, false, not, is_some, map, filter};
ghost use Rattle.std.specs.List.{AllByRecursion};
ghost use Rattle.plain_values.specs.Pairs.{value_at};
ghost use Rattle.message_values.specs.declared.packages.PackageStatuses.{PackageStatuses};
ghost use Rattle.message_values.specs.declared.packages.PackagesAvailable.{PackagesAvailable};
ghost use Rattle.agent_packages.specs.Packages.{is_same_offer, to_fetch, to_keep, to_remove};
ghost use Rattle.agent_packages.specs.Visits.{Departure, IsVisit, Visit};

/// Law: of an offer that isn't the one that is held, the visits that fetch are those of the packages that the plan says to fetch, the others are those of
/// the packages that stay, and the departures are those of the packages that are gone, each in the plan's order.
pub fn visits_follow_the_plan()
    ensures fetch { (held : PackageStatuses) (offered : PackagesAvailable) (visits : List Visit) → is_same_offer held offered ≡ false
        → map (λ visit. visit.item) visits ≡ offered.packages → AllByRecursion (IsVisit held.packages) visits
        → map (λ visit. visit.item.key) (filter (λ visit. is_some visit.ended) visits) ≡ to_fetch held offered }
    ensures same { (held : PackageStatuses) (offered : PackagesAvailable) (visits : List Visit) → is_same_offer held offered ≡ false
        → map (λ visit. visit.item) visits ≡ offered.packages → AllByRecursion (IsVisit held.packages) visits
        → map (λ visit. visit.item.key) (filter (λ visit. not (is_some visit.ended)) visits) ≡ to_keep held offered }
    ensures gone { (held : PackageStatuses) (offered : PackagesAvailable) (departures : List Departure) → is_same_offer held offered ≡ false
        → map (λ departure. departure.item) departures ≡ filter (λ item. not (is_some (value_at offered.packages item.key))) held.packages
        → map (λ departure. departure.item.key) departures ≡ to_remove held offered }
{}
