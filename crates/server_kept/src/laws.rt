//! The word kept.

ghost use Rattle.server_kept.specs.Opening.{FindsAll};
ghost use Rattle.server_kept.specs.Standing.{KeepsWord, Settles, StaysRight};

use message_replies::laws::one_reply;

/// Law: whenever the machine stops, what stands again for an agent when the shelf is read is, of each kind of offer, the last
/// order that was done before, or a later one that wasn't. So no order that was answered by ok is lost, none comes back that a
/// later one replaced, and none stands that nobody gave. Where the last order to the agent was done, of whichever kind, just what
/// stood stands again. And each agent's file is right, so that a start never refuses what was kept.
pub fn word_kept()
    ensures config { KeepsWord (λ offers. offers.config) }
    ensures packages { KeepsWord (λ offers. offers.packages) }
    ensures connection { KeepsWord (λ offers. offers.connection) }
    ensures settled { Settles }
    ensures right { StaysRight }
{
    one_reply();
}

/// Law: what is read again stands for each agent, in the agent's file, so that a start goes on from it.
pub fn found_stands()
    ensures stands { FindsAll }
{}
