//! The usage: each command with its options, in a line.

ghost use Rattle.edge_notes.specs.Noted.{IsNoted};
ghost use Rattle.command_top.specs.Usage.{usage};

use edge_devices::Sink;
use edge_notes::put_parts;

const USAGE: [&str; 10] = [
    "usage:\n",
    "opamp answer\n",
    "opamp canon report|reply\n",
    "opamp show report|reply\n",
    "opamp check\n",
    "opamp simulate\n",
    "opamp storm START COUNT\n",
    "opamp fleet DESKS\n",
    "opamp serve [--ws ADDRESS] [--http ADDRESS] [--operator ADDRESS] [--turns N] [--agents N] [--connections N] [--push] [--journal] [--rollout WIDTH/ALLOWED/NAME/HEX]\n",
    "opamp agent [--server ENDPOINT] [--rounds N] [--request-uid] [--push] [--prove SECONDS]\n",
];

/// Notes the usage, as far as the sink takes it.
#[tactic(auto, unfolding(crate::specs::Usage::usage))]
pub fn put_usage<N: Sink>(notes: &mut N)
    ensures noted { IsNoted usage (record { taken = N.taken notes.old; faults = N.faults notes.old }) (record { taken = N.taken notes.new; faults = N.faults notes.new }) }
{
    put_parts(notes, &USAGE);
}
