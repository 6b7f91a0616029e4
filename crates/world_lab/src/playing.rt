//! The lines of a script, each by calls of the agent and the servers.

ghost use Rattle.std.specs.Prelude.{IfOk, List};
ghost use Rattle.server_core.specs.Served.{Served};
ghost use Rattle.world_scripts.specs.declared.lines.Line.TheVariants as lines;
ghost use Rattle.world_lab.specs.Mirrors.{HasGenerations, IsMirror, Plays};

use crate::agents::{give_up, send, show_active};
use crate::changes::{
    add_component, add_custom, set_attribute, set_capabilities, set_file, set_healthy,
    set_unhealthy,
};
use crate::plays::{ArmedStop, Play};
use crate::pushes::{push, take_push};
use crate::replies::hear;
use crate::servers::{deliver, offer_config, offer_connection, restart_server, show_record};
use crate::starting::restart;
use crate::written::Written;
use edge_devices::Mode;
use plain_values::NoMemory;
use server_core::Server;
use world_scripts::Line;

/// Plays a line, and gives its line of the transcript.
pub fn play_line(play: &mut Play, servers: &mut [Server], line: &Line) -> Result<Written, NoMemory>
    requires mirror { IsMirror play.old servers.old }
    requires generations { HasGenerations 4 play.old.host }
    ensures played { IfOk result (Plays line.now play.old servers.old play.new servers.new) }
{
    match line {
        Line::Caps { bits } => set_capabilities(play, *bits),
        Line::Attr { key, text } => set_attribute(play, key, text),
        Line::HealthOk => set_healthy(play),
        Line::HealthBad { text } => set_unhealthy(play, text),
        Line::Effective { name, text } => set_file(play, name, text),
        Line::Custom { name } => add_custom(play, name),
        Line::Component { name } => add_component(play, name),
        Line::Send => send(play),
        Line::Deliver { report } => deliver(play, servers, *report),
        Line::Reply => hear(play),
        Line::GiveUp => give_up(play),
        Line::Restart => restart(play),
        Line::ServerRestart { server } => restart_server(play.alloc, servers, server.number()),
        Line::OfferConfig { server, name, text } => {
            offer_config(play, servers, server.number(), name, text)
        }
        Line::OfferConnection { server, url } => {
            offer_connection(play, servers, server.number(), url)
        }
        Line::Stop { call, mode } => Ok(arm(play, *call, *mode)),
        Line::Record { server } => show_record(play, servers, server.number()),
        Line::Push { server } => push(play, servers, server.number()),
        Line::TakePush => take_push(play),
        Line::Active => show_active(play),
    }
}

// A stop is armed, in place of an earlier one. Takes no memory.
fn arm(play: &mut Play, call: u64, mode: Mode) -> Written
    ensures played { (servers : List Served) → Plays (lines.Stop call mode) play.old servers play.new servers result }
{
    play.stop = Some(ArmedStop { call, mode });
    Written::Armed
}
