//! Runs worked out.

ghost use Rattle.std.specs.Prelude.{◌≡◌, List, [], ◌∷◌, map, true, false, None, Some, is_some};
ghost use Rattle.std.specs.Option.{option_map};
ghost use Rattle.agent_rules.specs.Half.{entry_of};
ghost use Rattle.world_model.specs.World.{world, asks_full};
ghost use Rattle.world_model.specs.Servers.{arrivals, record_after_history};
ghost use Rattle.world_model.specs.Clusters.{cluster, reaches};
ghost use Rattle.world_model.specs.Example.{start, lost_table, stopped_report, one_server, other_server, start_with_two, in_strict_turn};

use crate::clusters::{any_server_of_an_endpoint, one_agent_has_room_at_each};
use crate::laws::{one_agent_has_room, records_are_entries};

/// Law: a report of changes after a server lost its table is asked for the full state, and the whole report after it is taken.
pub fn lost_table_is_told_again()
    ensures numbers { map (λ e. e.number) (world start lost_table).sent ≡ 1 ∷ 2 ∷ 3 ∷ [] }
    ensures changes { map (λ e. is_some e.basis) (world start lost_table).sent ≡ false ∷ true ∷ false ∷ [] }
    ensures asks { map (λ place. option_map asks_full ((world start lost_table).replies place)) (0 ∷ 1 ∷ 2 ∷ []) ≡ Some false ∷ Some true ∷ Some false ∷ [] }
    ensures kept { option_map (λ r. r.number) (record_after_history (arrivals start lost_table start.settings.endpoint) start.uid) ≡ Some 3 }
    ensures limit { (world start lost_table).agent.saved.limit ≡ 1025 }
{
    message_deltas::delta_carries_changes();
    message_deltas::must_be_whole_is_exact();
    records_are_entries();
    one_agent_has_room();
}

/// Law: an agent that stopped once its numbers were reserved goes on above them, and so does one that starts again: its reports are whole.
pub fn stopped_report_skips_numbers()
    ensures numbers { map (λ e. e.number) (world start stopped_report).sent ≡ 1025 ∷ 2049 ∷ [] }
    ensures changes { map (λ e. is_some e.basis) (world start stopped_report).sent ≡ false ∷ false ∷ [] }
    ensures limit { (world start stopped_report).agent.saved.limit ≡ 3073 }
{}

/// Law: of two servers in strict turn the first one gets a whole report each time, and is content; the second one gets the changes, asks for the full state, and
/// knows nobody.
pub fn strict_turn_reaches_one()
    ensures numbers { map (λ e. e.number) (cluster start_with_two in_strict_turn).sent ≡ 1 ∷ 2 ∷ 3 ∷ [] }
    ensures changes { map (λ e. is_some e.basis) (cluster start_with_two in_strict_turn).sent ≡ false ∷ true ∷ false ∷ [] }
    ensures one_asks { map (λ place. option_map asks_full ((cluster start_with_two in_strict_turn).replies one_server place)) (0 ∷ 1 ∷ 2 ∷ [])
        ≡ Some false ∷ None ∷ Some false ∷ [] }
    ensures other_asks { map (λ place. option_map asks_full ((cluster start_with_two in_strict_turn).replies other_server place)) (0 ∷ 1 ∷ 2 ∷ [])
        ≡ None ∷ Some true ∷ None ∷ [] }
    ensures known { option_map (λ r. r.number) (record_after_history (reaches start_with_two in_strict_turn one_server) start.uid) ≡ Some 3 }
    ensures unknown { record_after_history (reaches start_with_two in_strict_turn other_server) start.uid ≡ None }
    // The next report tells changes alone again, so that another turn leaves it so.
    ensures goes_on { is_some (entry_of (cluster start_with_two in_strict_turn).agent).basis ≡ true }
{
    message_deltas::delta_carries_changes();
    message_deltas::must_be_whole_is_exact();
    any_server_of_an_endpoint();
    one_agent_has_room_at_each();
}
