//! The command `answer`: framed reports in, framed replies out.

ghost use Rattle.std.specs.Prelude.{◌≡◌, List, IfOk, OnOk, OnErr};
ghost use Rattle.std.proofs.Common.{rules};
ghost use Rattle.server_core.specs.History.{Event};
ghost use Rattle.server_core.specs.Replies.{plain_reply};
ghost use Rattle.message_replies.specs.Canonical.{canonical_reply};
ghost use Rattle.command_streams.specs.Framing.{frame_of};
ghost use Rattle.command_streams.specs.declared.handler.Handled;
ghost use Rattle.command_frames.specs.Answering.{answering, empty_server, Replies};
ghost use Rattle.command_frames.specs.Serving.{server_after, ServerReplies, IsReachedBy, IsRepliedTo};

use crate::frames::add_frame;
use crate::refusing::refusal;
use command_streams::{Handled, Handler, Told};
use message_codec::wire::Out;
use message_replies::reply_len;
use message_reports::laws::report_fault;
use message_short::decode_report;
use message_values::{AgentToServer, CustomCapabilities};
use plain_values::{List, NoMemory, Uid};
use server_core::Server;
use std::alloc::Global;
use std::marker::Model;

/// The capabilities of the server that answers: AcceptsStatus and AcceptsEffectiveConfig (OpAMP specification,
/// "ServerToAgent.capabilities").
pub(crate) const ANSWERING_CAPABILITIES: u64 = 5;

/// A server that answers each report as it comes, and gives no fresh identifier.
#[derive(Drop)]
pub struct Answer {
    server: Server,
}

impl Model for Answer {
    ghost use Rattle.std.specs.Prelude.{◌≡◌};
    ghost use Rattle.std.specs.Coded.{codes};
    ghost use Rattle.server_core.specs.contracts.rows.Pending as pending;
    ghost use Rattle.server_core.specs.contracts.rows.Record as record_;
    ghost use Rattle.server_core.specs.Served.{Served};
    ghost use Rattle.command_frames.specs.Answering.{answering};

    ghost Value = { Served };

    ghost coded = { Prim.hlevel (codes, record_.the_row.coded, pending.the_row.coded) };

    ghost view = { λ a. a.server };

    ghost invariant = { λ a. a.server.profile ≡ answering };
}

impl Answer {
    /// A server that no report has reached. Takes no memory.
    pub fn new(alloc: Global) -> Answer
        ensures made { result ≡ empty_server }
    {
        let custom = CustomCapabilities {
            capabilities: List::new(alloc),
        };
        Answer {
            server: Server::new(alloc, ANSWERING_CAPABILITIES, custom),
        }
    }
}

// Adds the frame of the reply to a report, whose parts it takes. It says what was done with the report, so that its caller has one exit at which the
// report lives.
fn reply_to(
    server: &mut Server,
    report: &mut AgentToServer,
    output: &mut Out,
) -> Result<Handled, NoMemory>
    requires profile { server.old.profile ≡ answering }
    ensures written { IfOk result (λ handled. handled ≡ Handled.Written) }
    ensures replied { OnOk result (IsRepliedTo server.old report.old output.old.bytes output.new.bytes) }
    ensures taken { OnOk result (server.new ≡ server_after server.old report.old) }
    ensures profile { server.new.profile ≡ server.old.profile }
    ensures kept { OnErr result (output.new.bytes ≡ output.old.bytes) }
{
    match server.take_plainly(report) {
        Some(uid) => output.append(&plain_frame(&uid))?,
        None => put_whole_reply(server, report, output)?,
    }
    Ok(Handled::Written)
}

// Adds the frame of a reply that is put together. Apart, since few reports take it and it has some hundreds of bytes of locals.
#[inline(never)]
fn put_whole_reply(
    server: &mut Server,
    report: &mut AgentToServer,
    output: &mut Out,
) -> Result<(), NoMemory>
    ensures replied { OnOk result (IsRepliedTo server.old report.old output.old.bytes output.new.bytes) }
    ensures taken { OnOk result (server.new ≡ server_after server.old report.old) }
    ensures profile { server.new.profile ≡ server.old.profile }
    ensures kept { OnErr result (output.new.bytes ≡ output.old.bytes) }
{
    let reply = server.take(report, None)?;
    add_frame(output, &reply, reply_len(&reply))
}

// The frame of the plain reply: its length, the identifier as field 1, and the capabilities as field 7.
fn plain_frame(uid: &Uid) -> [u8; 24]
    ensures frame { result ≡ frame_of (canonical_reply (plain_reply answering uid.now)) }
{
    let mut frame = [
        0, 0, 0, 20, 10, 16, 0, 0, 0, 0, 0, 0, 0, 0, 0, 0, 0, 0, 0, 0, 0, 0, 56, 5,
    ];
    frame[6..22].copy_from_slice(uid.as_slice());
    frame
}

impl Handler for Answer {
    ghost gives = { ServerReplies };

    ghost counted = { λ answer. 0 };

    ghost counts = { λ before after message output given. Prim.search rules };

    fn handle(
        &mut self,
        alloc: Global,
        message: &[u8],
        output: &mut Out,
    ) -> Result<Handled, NoMemory> {
        report_fault();
        // A report has some hundreds of bytes, so it is answered where it was read.
        let mut read = decode_report(alloc, message);
        match &mut read {
            Ok(report) => reply_to(&mut self.server, report, output),
            Err(fail) => refusal(*fail),
        }
    }
}

// It is told by the reports that came.
impl Told for Answer {
    ghost State = { List Event };

    ghost makes = { Replies };

    ghost tells = { IsReachedBy };
}
