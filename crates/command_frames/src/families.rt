//! What the commands need of a family of whole messages.

ghost use Rattle.std.specs.Prelude.{◌≡◌, ◌<◌, ◌≤◌, ◌^◌, true, length, min, IfOk};
ghost use Rattle.message_codec.specs.Row.{Appends};
ghost use Rattle.message_codec.specs.Read.{FailsWith};
ghost use Rattle.message_codec.specs.Canonical.{capped};
ghost use Rattle.command_frames.specs.Families.{Family};
ghost use Rattle.command_frames.specs.Rewriting.{IsOwnForm};

use message_codec::reader::items::ReadFail;
use message_codec::wire::Out;
use message_codec::writer::written::Written;
use message_replies::laws::reply_fault;
use message_replies::{decode_reply, put_reply, reply_len};
use message_reports::decoding::decode_report;
use message_reports::encoding::{put_measured_report, report_len, report_levels};
use message_reports::laws::report_fault;
use message_short::short_report;
use message_texts::{show_reply, show_report};
use message_values::{AgentToServer, ServerToAgent};
use plain_values::{NoMemory, Text};
use std::alloc::Global;

/// A whole message: how its bytes are read, how it is written and shown.
pub trait Outermost: Drop {
    ghost family: { Family Self };

    /// The message that the bytes mean, or their first fault.
    fn read(alloc: Global, bytes: &[u8]) -> Result<Self, ReadFail>
        ensures means { IfOk result (family.means bytes.now) }
        ensures refused { FailsWith result (family.fault bytes.now) }
        ensures place { FailsWith result (λ at why. at ≤ length bytes.now) };

    /// Whether the bytes are seen at a glance to be the canonical form of a message that is written. Where it is false they may be so all the same. Takes
    /// no memory.
    fn is_plainly_canonical(bytes: &[u8]) -> bool
        ensures own_form { result ≡ true → IsOwnForm family bytes.now };

    /// How many canonical bytes it has, or 2^62 where they are more. Takes no memory.
    fn canonical_len(&self) -> u64
        ensures counts { result ≡ capped (family.canonical self.now) };

    /// How many levels of messages it has, itself included, or 101 where there are more. Takes no memory.
    fn levels(&self) -> u64
        ensures counts { result ≡ min (family.depth self.now) 101 };

    /// Appends the canonical bytes, of which there are `len`, so that they aren't counted once more.
    fn append_measured(&self, out: &mut Out, len: u64) -> Result<(), NoMemory>
        requires few { length (family.canonical self.now) < 2 ^ 62 }
        requires measured { len ≡ length (family.canonical self.now) }
        ensures appends { Appends out.old out.new (family.canonical self.now) result };

    /// Lets go of the part that takes most memory. Where a large block is freed while many small ones are free already, the C library joins all of them, and
    /// cuts each of them anew when it is wanted.
    fn shed(&mut self);

    /// Its text, a line for each leaf.
    fn text(&self, alloc: Global) -> Result<Text, NoMemory>
        ensures shown { IfOk result (λ text. text ≡ family.text self.now) };

    /// The word that its heading begins with.
    fn word() -> &'static str
        ensures word { result.now ≡ family.word };
}

impl Outermost for AgentToServer {
    ghost use Rattle.command_frames.specs.Families.{reports};

    ghost family = { reports };

    fn read(alloc: Global, bytes: &[u8]) -> Result<AgentToServer, ReadFail> {
        report_fault();
        decode_report(alloc, bytes)
    }

    fn is_plainly_canonical(bytes: &[u8]) -> bool {
        short_report(bytes).is_some()
    }

    fn canonical_len(&self) -> u64 {
        report_len(self)
    }

    fn levels(&self) -> u64 {
        report_levels(self)
    }

    fn append_measured(&self, out: &mut Out, len: u64) -> Result<(), NoMemory> {
        put_measured_report(out, self, len)
    }

    fn shed(&mut self) {
        self.effective_config = None;
    }

    fn text(&self, alloc: Global) -> Result<Text, NoMemory> {
        show_report(alloc, self)
    }

    fn word() -> &'static str {
        "report"
    }
}

impl Outermost for ServerToAgent {
    ghost use Rattle.command_frames.specs.Families.{replies};

    ghost family = { replies };

    fn read(alloc: Global, bytes: &[u8]) -> Result<ServerToAgent, ReadFail> {
        reply_fault();
        decode_reply(alloc, bytes)
    }

    fn is_plainly_canonical(_bytes: &[u8]) -> bool {
        false
    }

    fn canonical_len(&self) -> u64 {
        reply_len(self)
    }

    fn levels(&self) -> u64 {
        1 + self.deepest()
    }

    fn append_measured(&self, out: &mut Out, _len: u64) -> Result<(), NoMemory> {
        put_reply(out, self)
    }

    fn shed(&mut self) {
        self.remote_config = None;
    }

    fn text(&self, alloc: Global) -> Result<Text, NoMemory> {
        show_reply(alloc, self)
    }

    fn word() -> &'static str {
        "reply"
    }
}
