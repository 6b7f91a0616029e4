//! What holds of the numbers of `serve`. No function here does anything: each stands for its clauses.

ghost use Rattle.std.specs.Prelude.{◌≡◌};
ghost use Rattle.command_serve.specs.Statuses.{rollout_status_of, status_of};
ghost use Rattle.command_serve.specs.declared.status.RolloutStatus.TheVariants.{TooLarge};
ghost use Rattle.command_serve.specs.declared.status.ServeStatus.TheVariants.{NoMemory, Stopped, TurnsSpent, WireFault, WriteFault};

use crate::serving::SERVER_CAPABILITIES;

/// Law: the server's capabilities (OpAMP specification, "ServerToAgent.capabilities") and the exit statuses are these numbers.
pub fn serve_numbers()
    ensures capabilities { SERVER_CAPABILITIES ≡ 63 }
    ensures stopped { status_of Stopped ≡ 0 }
    ensures write_fault { status_of WriteFault ≡ 4 }
    ensures no_memory { status_of NoMemory ≡ 5 }
    ensures wire_fault { status_of WireFault ≡ 8 }
    ensures turns_spent { status_of TurnsSpent ≡ 9 }
    ensures too_large { rollout_status_of TooLarge ≡ 11 }
{}
