//! The command `agent`, with the program's status.

ghost use Rattle.std.specs.Prelude.{◌≡◌, IsTrue};
ghost use Rattle.message_handlers.specs.Asking.{MayAnswer};
ghost use Rattle.message_handlers.specs.Names.{names_of};
ghost use Rattle.edge_devices.specs.Endpoints.{is_endpoint};
ghost use Rattle.command_agent.specs.Outcomes.{AgentOutcome};
ghost use Rattle.command_agent.specs.Statuses.{IsSilentStatus};

use crate::running::run_agent;
use command_words::AgentOptions;
use edge_devices::{Clock, Disk, Entropy, Folder, PushDialer, Sink};
use message_handlers::{Handler, Handlers};
use std::alloc::Global;

/// Runs an agent as `run_agent` does, and gives the program's status: 0 a restart was commanded, 4 write fault, 5 want of memory, 6 store fault, 7 store
/// damaged, 8 fault of the folder, the clock or the random bytes, 9 all rounds done, 10 numbers spent, 11 too large.
pub fn run_agent_command<K: Sink, D: Disk, G: PushDialer, F: Folder, C: Clock, E: Entropy>(
    alloc: Global,
    options: &AgentOptions,
    sink: &mut K,
    handlers: &Handlers,
    disk: &mut D,
    dialer: &mut G,
    folder: &mut F,
    clock: &mut C,
    entropy: &mut E,
) -> u8
    requires endpoint { IsTrue (is_endpoint options.now.server) }
    ensures outcome { AgentOutcome (names_of handlers.now) (MayAnswer answers handlers.now) options.now
        (record { sink = record { taken = K.taken sink.old; faults = K.faults sink.old }; around = record { disk = D.state disk.old; folder = F.state folder.old; dialer = G.state dialer.old; clock = C.state clock.old; entropy = E.state entropy.old } })
        (record { sink = record { taken = K.taken sink.new; faults = K.faults sink.new }; around = record { disk = D.state disk.new; folder = F.state folder.new; dialer = G.state dialer.new; clock = C.state clock.new; entropy = E.state entropy.new } }) result }

    // Beside the lines that tell a restart, all rounds done and a damaged store nothing is ever written.
    ensures silent { IsSilentStatus result → sink.new ≡ sink.old }
{
    let status = run_agent(
        alloc, options, sink, handlers, disk, dialer, folder, clock, entropy,
    );
    status.code()
}
