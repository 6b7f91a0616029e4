//! The lines in which a server acts.

ghost use Rattle.std.specs.Prelude.{◌≡◌, ◌<◌, ℕ, List, Some, None, IfOk, OnOk, length, if◌then◌else◌};
ghost use Rattle.message_reports.specs.Reports.{canonical_report};
ghost use Rattle.message_deltas.specs.Deltas.{whole_report};
ghost use Rattle.server_core.specs.History.{Offered, Reported};
ghost use Rattle.server_core.specs.declared.offers.Offer.TheVariants.{Config as ConfigOffer, Connection as ConnectionOffer};
ghost use Rattle.server_core.specs.Table.{is_held, table_after, table_reply};
ghost use Rattle.world_scripts.specs.Words.{is_url};
ghost use Rattle.world_scripts.specs.declared.lines.Line.TheVariants as lines;
ghost use Rattle.world_lab.specs.declared.written.Written.TheVariants.{Held};
ghost use Rattle.world_lab.specs.Playing.{file_offer};
ghost use Rattle.world_lab.specs.Mirrors.{IsMirror, Plays};
ghost use Rattle.world_lab.specs.Serving.{delivery_line, offer_line};

use crate::changes::text_file;
use crate::lab::fresh_server;
use crate::plays::{Play, SentReport};
use crate::written::Written;
use agent_rules::REPORT_FULL_STATE;
use message_codec::wire::Out;
use message_deltas::full;
use message_reports::encoding::{put_report, report_len};
use message_values::{AgentToServer, OpAMPConnectionSettings};
use plain_values::{AgentConfigMap, Blob, Map, NoMemory, Plain, Text, Uid};
use server_core::{OfferFail, Record, Server};
use std::alloc::Global;
use world_scripts::is_url;

/// A report reaches its server, now or again, where there is one of that number.
pub fn deliver(play: &mut Play, servers: &mut [Server], report: u64) -> Result<Written, NoMemory>
    requires mirror { IsMirror play.old servers.old }
    ensures played { IfOk result (Plays (lines.Deliver report) play.old servers.old play.new servers.new) }
{
    world_model::runs_go_on();
    world_model::one_agent_has_room();
    world_model::plain_reply_means_held();
    server_core::table_follows_history();
    let place = report.saturating_sub(1) as usize;
    if place >= play.sent.len() {
        return Ok(Written::Nothing);
    }
    let sent = &mut play.sent[place];
    let server = &mut servers[usize::from(sent.server)];
    hand_over(sent, server)
}

fn hand_over(sent: &mut SentReport, server: &mut Server) -> Result<Written, NoMemory>
    ensures server { OnOk result (server.new ≡ record server.old { table = table_after server.old.table (Reported sent.old.message) }) }
    ensures sent { OnOk result (sent.new ≡ record sent.old { reply = Some (table_reply server.old.profile server.old.table sent.old.message None) }) }
    ensures written { IfOk result (λ written. written ≡ delivery_line sent.old (table_reply server.old.profile server.old.table sent.old.message None)) }
{
    let reply = server.handle(&sent.message, None)?;
    let asks = reply.flags & REPORT_FULL_STATE != 0;
    sent.reply = Some(reply);
    if asks {
        Ok(Written::Asks {
            server: sent.server,
        })
    } else {
        Ok(Written::Takes {
            server: sent.server,
            number: sent.message.sequence_num,
        })
    }
}

/// A server forgets all agents.
pub fn restart_server(
    alloc: Global,
    servers: &mut [Server],
    server: u8,
) -> Result<Written, NoMemory>
    requires digit { server < 10 }
    requires all { length servers.old ≡ 10 }
    ensures played { IfOk result (λ written. (play : Play) → Plays (lines.ServerRestart server) play servers.old play servers.new written) }
{
    world_model::runs_go_on();
    servers[usize::from(server)] = fresh_server(alloc);
    Ok(Written::Emptied { server })
}

/// A server offers the agent one configuration file.
pub fn offer_config(
    play: &Play,
    servers: &mut [Server],
    server: u8,
    name: &Text,
    text: &Text,
) -> Result<Written, NoMemory>
    requires digit { server < 10 }
    requires all { length servers.old ≡ 10 }
    ensures played { IfOk result (Plays (lines.OfferConfig server name.now text.now) play.now servers.old play.now servers.new) }
{
    world_model::runs_go_on();
    world_model::one_agent_has_room();
    world_model::records_are_entries();
    server_core::table_follows_history();
    let config = one_file(play.alloc, name, text)?;
    let uid = &play.host.agent.saved().uid;
    offer_file(&mut servers[usize::from(server)], uid, config)
}

fn one_file(alloc: Global, name: &Text, text: &Text) -> Result<AgentConfigMap, NoMemory>
    ensures { IfOk result (λ config. ConfigOffer config ≡ file_offer name.now text.now) }
{
    let mut config_map = Map::new(alloc);
    config_map.put(name.copy(alloc)?, text_file(alloc, text)?)?;
    Ok(AgentConfigMap { config_map })
}

fn offer_file(server: &mut Server, uid: &Uid, config: AgentConfigMap) -> Result<Written, NoMemory>
    ensures server { OnOk result (server.new ≡ record server.old { table = table_after server.old.table (Offered uid.now (ConfigOffer config)) }) }
    ensures written { IfOk result (λ written. written ≡ offer_line (is_held server.old.table uid.now) (ConfigOffer config)) }
{
    match server.offer_config(uid, config) {
        Ok(()) => Ok(Written::Offered),
        Err(OfferFail::UnknownAgent) => Ok(Written::Nothing),
        Err(OfferFail::TooLarge) => Ok(Written::Nothing),
        Err(OfferFail::NoMemory) => Err(NoMemory),
    }
}

/// A server offers the agent an endpoint.
pub fn offer_connection(
    play: &Play,
    servers: &mut [Server],
    server: u8,
    url: &Text,
) -> Result<Written, NoMemory>
    requires digit { server < 10 }
    requires all { length servers.old ≡ 10 }
    ensures played { IfOk result (Plays (lines.OfferConnection server url.now) play.now servers.old play.now servers.new) }
{
    world_model::runs_go_on();
    world_model::one_agent_has_room();
    world_model::records_are_entries();
    server_core::table_follows_history();
    if !is_url(url.as_str().as_bytes()) {
        return Ok(Written::Nothing);
    }
    let settings = OpAMPConnectionSettings {
        destination_endpoint: url.copy(play.alloc)?,
        headers: None,
        certificate: None,
        heartbeat_interval_seconds: 0,
    };
    let uid = &play.host.agent.saved().uid;
    offer_settings(&mut servers[usize::from(server)], uid, settings)
}

fn offer_settings(
    server: &mut Server,
    uid: &Uid,
    settings: OpAMPConnectionSettings,
) -> Result<Written, NoMemory>
    ensures server { OnOk result (server.new ≡ record server.old { table = table_after server.old.table (Offered uid.now (ConnectionOffer settings)) }) }
    ensures written { IfOk result (λ written. written ≡ offer_line (is_held server.old.table uid.now) (ConnectionOffer settings)) }
{
    match server.offer_connection(uid, settings) {
        Ok(()) => Ok(Written::Offered),
        Err(OfferFail::UnknownAgent) => Ok(Written::Nothing),
        Err(OfferFail::TooLarge) => Ok(Written::Nothing),
        Err(OfferFail::NoMemory) => Err(NoMemory),
    }
}

/// What a server keeps of the agent is written, as a whole report.
pub fn show_record(play: &Play, servers: &[Server], server: u8) -> Result<Written, NoMemory>
    requires digit { server < 10 }
    requires all { length servers.now ≡ 10 }
    ensures played { IfOk result (Plays (lines.Record server) play.now servers.now play.now servers.now) }
{
    world_model::one_agent_has_room();
    world_model::records_are_entries();
    match servers[usize::from(server)].find(&play.host.agent.saved().uid) {
        Some(kept) => whole_record(play.alloc, kept, server),
        None => Ok(Written::Nothing),
    }
}

fn whole_record(alloc: Global, kept: &Record, server: u8) -> Result<Written, NoMemory>
    ensures { IfOk result (λ line. line ≡ Held server kept.now.number (canonical_report (whole_report kept.now.uid kept.now.number kept.now.state None))) }
{
    let report = full(alloc, &kept.uid, kept.number, &kept.state, None)?;
    let bytes = canonical_bytes(alloc, &report);
    drop(report);
    Ok(Written::Held {
        server,
        number: kept.number,
        bytes: bytes?,
    })
}

// The bytes of a report in canonical form, however many. No memory holds 2^62.
fn canonical_bytes(alloc: Global, report: &AgentToServer) -> Result<Blob, NoMemory>
    ensures bytes { IfOk result (λ bytes. bytes ≡ canonical_report report.now) }
{
    if report_len(report) >= 1 << 62 {
        return Err(NoMemory);
    }
    let mut out = Out::new(alloc);
    put_report(&mut out, report)?;
    Ok(Blob::of(out.into_vec()))
}
