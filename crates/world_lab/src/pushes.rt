//! What servers push to the agent.

ghost use Rattle.std.specs.Prelude.{◌≡◌, ◌<◌, ◌==◌, IfOk, length, List};
ghost use Rattle.std.specs.List.{position};
ghost use Rattle.server_core.specs.Served.{Served};
ghost use Rattle.world_scripts.specs.declared.lines.Line.TheVariants as lines;
ghost use Rattle.world_lab.specs.Hosts.{HasGenerations};
ghost use Rattle.world_lab.specs.Mirrors.{IsMirror, Plays};
ghost use Rattle.world_lab.specs.Playing.{oldest, without_oldest};

use crate::fails::HostFail;
use crate::plays::{Play, WaitingPush, number_at};
use crate::replies::{hear_reply, keep_pushes};
use crate::written::Written;
use message_values::ServerToAgent;
use plain_values::NoMemory;
use server_core::Server;

/// What a server would push to the agent waits for it, if there is something.
pub fn push(play: &mut Play, servers: &[Server], server: u8) -> Result<Written, NoMemory>
    requires digit { server < 10 }
    requires all { length servers.now ≡ 10 }
    ensures played { IfOk result (Plays (lines.Push server) play.old servers.now play.new servers.now) }
{
    world_model::one_agent_has_room();
    world_model::pushes_are_due();
    world_model::records_are_entries();
    match servers[usize::from(server)].pushed(&play.host.agent.saved().uid)? {
        Some(message) => {
            play.pushes.push(WaitingPush { server, message })?;
            Ok(Written::Pushed { server })
        }
        None => Ok(Written::Nothing),
    }
}

/// The oldest push of the target's server reaches the agent in place of the awaited reply. A stop that is armed stays so.
pub fn take_push(play: &mut Play) -> Result<Written, NoMemory>
    requires mirror { (servers : List Served) × IsMirror play.old servers }
    requires generations { HasGenerations 4 play.old.host }
    ensures played { IfOk result (λ written. (servers : List Served) → Plays lines.TakePush play.old servers play.new servers written) }
{
    world_model::runs_go_on();
    agent_stopped::stages_join();
    agent_stopped::events_are_their_calls();
    agent_stopped::outcomes_tell_endings();
    if !play.host.agent.awaits() {
        return Ok(Written::Nothing);
    }
    let server = number_at(play.host.agent.target().endpoint.as_str());
    let Some(message) = take_oldest(&mut play.pushes, server) else {
        return Ok(Written::Nothing);
    };
    let tried = play.host.agent.trying();
    // what is left of a stop that an earlier line took
    agent_stopped::arm(&mut play.host.disk, 0);
    match hear_reply(play.alloc, &mut play.host, &message) {
        Ok(written) => {
            keep_pushes(&play.host.agent, &mut play.pushes, tried);
            Ok(written)
        }
        Err(HostFail::Stopped) => unreachable!(),
        Err(HostFail::NoMemory) => Err(NoMemory),
    }
}

// The oldest push of the server, which waits no more. Takes no memory.
fn take_oldest(pushes: &mut Vec<WaitingPush>, server: u8) -> Option<ServerToAgent>
    ensures oldest { result ≡ oldest server pushes.old.items }
    ensures left { pushes.new.items ≡ without_oldest server pushes.old.items }
{
    match place_of(pushes.as_slice(), server) {
        Some(at) => Some(pushes.remove(at).into_message()),
        None => None,
    }
}

fn place_of(pushes: &[WaitingPush], server: u8) -> Option<usize>
    ensures place { result ≡ position (λ push. push.server == server) pushes.now }
{
    pushes.iter().position(|push| push.server == server)
}
