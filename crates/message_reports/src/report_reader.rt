//! Reports whose bytes come in pieces.

ghost use Rattle.std.specs.Prelude.{◌≡◌, ℕ, ◌<◌, ◌≤◌, List, [], ◌++◌, length, OnOk, IfOk, None};
ghost use Rattle.message_codec.specs.Tables as tables;
ghost use Rattle.message_codec.specs.Read.{FailsWith};
ghost use Rattle.message_codec.specs.Held.{EndsIn};
ghost use Rattle.message_codec.specs.Standing.{Fails};
ghost use Rattle.message_codec.specs.Whole.{HasFed};
ghost use Rattle.message_reports.specs.Pieces.{part_name, part_columns};
ghost use Rattle.message_reports.specs.ReportColumns.{agent_to_server_draft_columns};
ghost use Rattle.message_reports.specs.Reports.{MeansReport, ReportFault};
ghost use Rattle.message_reports.specs.ReportPieces.{WasFed, IsInUse, HoldsOf, HasOpen, IsPassing, HasFailed, MeansDraft, WasReadOn};

use crate::Agent;
use crate::report::AgentToServerDraft;
use crate::report_parts::ReportPart;
use message_codec::pieces::whole_fields::take_whole;
use message_codec::pieces::whole_reader::WholeReader;
use message_codec::reader::decoding::{MOST_BYTES, MOST_LEVELS};
use message_codec::reader::items::ReadFail;
use message_codec::reader::message::Message;
use message_codec::wire::Refused;
use message_values::AgentToServer;
use plain_values::NoMemory;
use std::alloc::Global;
use std::mem;

/// A reader of an AgentToServer (OpAMP specification, "AgentToServer Message") whose bytes come in pieces, however they are cut.
///
/// It keeps the report as far as it was read, and of the bytes no more than the field that isn't whole yet.
#[derive(Drop)]
pub struct ReportReader {
    alloc: Global,
    // The report, as long as each piece ends where a field does, and how many bytes were read.
    report: AgentToServerDraft,
    place: u64,
    // What goes on where a piece doesn't.
    pieces: Option<Box<WholeReader<ReportPart>>>,
}

// The report of which the parts are.
fn report_of(alloc: Global, part: ReportPart) -> AgentToServerDraft
    requires report { part_name part ≡ tables.AgentToServer }
    ensures columns { agent_to_server_draft_columns result ≡ part_columns part }
{
    match part {
        ReportPart::Report(report) => report,
        other => {
            drop(other);
            Message::<Agent>::empty(alloc)
        }
    }
}

// Puts the report that the pieces mean in the draft's place.
fn end_of_pieces(
    alloc: Global,
    draft: &mut AgentToServerDraft,
    reader: WholeReader<ReportPart>,
) -> Result<(), ReadFail>
    requires fed { WasReadOn reader }
    ensures means { OnOk result ((bytes : List ℕ) → HasFed part_name part_columns tables.AgentToServer reader bytes → MeansDraft bytes draft.new) }
    ensures refused { (bytes : List ℕ) → HasFed part_name part_columns tables.AgentToServer reader bytes → FailsWith result (ReportFault bytes) }
{
    let part = reader.end()?;
    let old = mem::replace(draft, report_of(alloc, part));
    drop(old);
    Ok(())
}

impl ReportReader {
    /// A reader that was fed nothing. Takes no memory.
    #[inline]
    pub fn new(alloc: Global) -> ReportReader
        ensures nothing { WasFed result [] }
    {
        ReportReader {
            alloc,
            report: Message::<Agent>::empty(alloc),
            place: 0,
            pieces: None,
        }
    }

    /// Appends a piece. After want of memory only dropping the reader is allowed.
    #[inline]
    pub fn feed(&mut self, piece: &[u8]) -> Result<(), NoMemory>
        requires in_use { IsInUse self.old }
        ensures fed { OnOk result ((bytes : List ℕ) → WasFed self.old bytes → WasFed self.new (bytes ++ piece.now)) }
    {
        match &mut self.pieces {
            Some(reader) => reader.feed(self.alloc, piece),
            None => self.feed_whole(piece),
        }
    }

    // Appends a piece where each before it ended where a field does.
    fn feed_whole(&mut self, piece: &[u8]) -> Result<(), NoMemory>
        requires in_use { IsInUse self.old }
        requires whole { self.old.pieces ≡ None }
        ensures fed { OnOk result ((bytes : List ℕ) → WasFed self.old bytes → WasFed self.new (bytes ++ piece.now)) }
    {
        let room = MOST_BYTES - self.place;
        if piece.len() as u64 > room {
            return self.go_on(piece);
        }
        match take_whole::<Agent, AgentToServerDraft>(
            self.alloc,
            &mut self.report,
            piece,
            MOST_LEVELS - 1,
        ) {
            Ok(count) => {
                self.place += count as u64;
                if count == piece.len() {
                    return Ok(());
                }
                self.go_on(&piece[count..])
            }
            Err(ReadFail::NoMemory) => Err(NoMemory),
            Err(ReadFail::Refused(refused)) => self.fail(
                self.place + piece.len() as u64,
                Refused {
                    at: self.place + refused.at,
                    why: refused.why,
                },
            ),
        }
    }

    // Appends bytes that aren't whole fields, or too many.
    fn go_on(&mut self, rest: &[u8]) -> Result<(), NoMemory>
        requires in_use { IsInUse self.old }
        requires whole { self.old.pieces ≡ None }
        ensures fed { OnOk result ((bytes : List ℕ) → WasFed self.old bytes → WasFed self.new (bytes ++ rest.now)) }
    {
        let report = mem::replace(&mut self.report, Message::<Agent>::empty(self.alloc));
        let mut reader = WholeReader::begun(self.alloc, ReportPart::Report(report), self.place);
        let fed = reader.feed(self.alloc, rest);
        let boxed = Box::new(self.alloc, reader)?;
        self.pieces = Some(boxed);
        fed
    }

    // Takes note that the bytes, so many, fail there, whatever follows.
    fn fail(&mut self, fed: u64, refused: Refused) -> Result<(), NoMemory>
        ensures failed { OnOk result ((bytes : List ℕ) → length bytes ≡ fed → length bytes ≤ 4194304 → Fails tables.AgentToServer 0 bytes refused.at refused.why → WasFed self.new bytes) }
    {
        let nothing = ReportPart::Report(Message::<Agent>::empty(self.alloc));
        let reader = WholeReader::failed(self.alloc, nothing, fed, refused);
        let boxed = Box::new(self.alloc, reader)?;
        self.pieces = Some(boxed);
        Ok(())
    }

    /// The report that the bytes mean which were fed, however they were cut, or their first fault.
    #[inline]
    pub fn end(mut self) -> Result<AgentToServer, ReadFail>
        requires in_use { IsInUse self }
        ensures means { IfOk result (λ m. (bytes : List ℕ) → WasFed self bytes → MeansReport bytes m) }
        ensures refused { (bytes : List ℕ) → WasFed self bytes → FailsWith result (ReportFault bytes) }
    {
        match self.settle() {
            Ok(()) => Ok(self.into_report()),
            Err(fail) => {
                drop(self);
                Err(fail)
            }
        }
    }

    // The report, once it is settled.
    fn into_report(self) -> AgentToServer
        ensures report { result ≡ self.report.report }
    {
        let draft = self.report;
        draft.report
    }

    // Puts the report that was read into its place, and settles it.
    fn settle(&mut self) -> Result<(), ReadFail>
        requires in_use { IsInUse self.old }
        ensures means { OnOk result ((bytes : List ℕ) → WasFed self.old bytes → MeansReport bytes self.new.report.report) }
        ensures refused { (bytes : List ℕ) → WasFed self.old bytes → FailsWith result (ReportFault bytes) }
    {
        self.gather()?;
        self.report.settle(self.alloc)?;
        Ok(())
    }

    // Puts the report of the pieces into its place.
    fn gather(&mut self) -> Result<(), ReadFail>
        requires in_use { IsInUse self.old }
        ensures means { OnOk result ((bytes : List ℕ) → WasFed self.old bytes → MeansDraft bytes self.new.report) }
        ensures refused { (bytes : List ℕ) → WasFed self.old bytes → FailsWith result (ReportFault bytes) }
    {
        match self.pieces.take() {
            Some(reader) => end_of_pieces(self.alloc, &mut self.report, Box::into_inner(reader)),
            None => Ok(()),
        }
    }

    /// How many of the bytes that were fed belong to the item that isn't whole yet, a tag, a number, a length, or a text or bytes: at most ten, or
    /// less than the length of the text or bytes field whose content is begun. None are held within a payload that is passed over, after a fault,
    /// and of more bytes than a report may have.
    pub fn held(&self) -> u64
        ensures counts { (bytes : List ℕ) → WasFed self.now bytes → HoldsOf self.now result }
        ensures ends { (bytes : List ℕ) → WasFed self.now bytes → EndsIn tables.AgentToServer bytes result }
        ensures passing { (bytes : List ℕ) → WasFed self.now bytes → IsPassing self.now → result ≡ 0 }
        ensures failed { (bytes : List ℕ) → WasFed self.now bytes → HasFailed self.now → result ≡ 0 }
        ensures too_many { (bytes : List ℕ) → WasFed self.now bytes → 4194304 < length bytes → result ≡ 0 }
    {
        match &self.pieces {
            Some(reader) => reader.held(),
            None => 0,
        }
    }

    /// The messages that are open, the report itself and each one in another: at most 100; none after a fault, and none of more bytes than a report
    /// may have.
    pub fn levels(&self) -> u64
        requires in_use { IsInUse self.now }
        ensures count { HasOpen self.now result }
        ensures most { result ≤ 100 }
        ensures failed { HasFailed self.now → result ≡ 0 }
        ensures too_many { (bytes : List ℕ) → WasFed self.now bytes → 4194304 < length bytes → result ≡ 0 }
    {
        match &self.pieces {
            Some(reader) => reader.levels(),
            None => 1,
        }
    }
}
