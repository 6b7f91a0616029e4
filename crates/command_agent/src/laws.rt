//! What holds of the numbers of `agent`. No function here does anything: each stands for its clauses.

ghost use Rattle.std.specs.Prelude.{◌≡◌};
ghost use Rattle.command_agent.specs.Statuses.{status_of};
ghost use Rattle.command_agent.specs.declared.status.AgentStatus.TheVariants.{Damaged, NoMemory, NumbersSpent, OutsideFault, Restarted, RoundsSpent, StoreFault, TooLarge, WriteFault};

use crate::starting::{STORE_LOG, STORE_ROOM};

/// Law: the store's room and log in bytes, and the exit statuses are these numbers.
pub fn agent_numbers()
    ensures room { STORE_ROOM ≡ 8388608 }
    ensures log { STORE_LOG ≡ 1048576 }
    ensures restarted { status_of Restarted ≡ 0 }
    ensures write_fault { status_of WriteFault ≡ 4 }
    ensures no_memory { status_of NoMemory ≡ 5 }
    ensures store_fault { status_of StoreFault ≡ 6 }
    ensures damaged { status_of Damaged ≡ 7 }
    ensures outside_fault { status_of OutsideFault ≡ 8 }
    ensures rounds_spent { status_of RoundsSpent ≡ 9 }
    ensures numbers_spent { status_of NumbersSpent ≡ 10 }
    ensures too_large { status_of TooLarge ≡ 11 }
{}
