//! Bodies of requests.

ghost use Rattle.std.specs.Prelude.{◌++◌, [], ℕ, IfOk, MatchOption, OnErr, OnOk};
ghost use Rattle.std.specs.Prelude.{List as Items};
ghost use Rattle.message_codec.specs.Read.{FailsWith};
ghost use Rattle.message_reports.specs.ReportPieces.{WasFed};
ghost use Rattle.message_reports.specs.Reports.{MeansReport, ReportFault};
ghost use Rattle.server_sessions.specs.Bodies.{HasCome, IsReadOn, body_of};
ghost use Rattle.server_sessions.specs.Reports.{IsNoReport, IsReport};

use message_codec::reader::items::ReadFail;
use message_reports::report_reader::ReportReader;
use message_short::decode_report;
use message_values::AgentToServer;
use plain_values::NoMemory;
use std::alloc::Global;
use std::marker::Model;
use std::mem;

/// How many bytes of a body are kept until more come or it ends: as many as a report has that is told at a glance.
const FRONT_LIMIT: usize = 64;

/// The body of a request under way, of which the report is read as its bytes come.
///
/// Of the bytes no more is kept than what they mean and the field that isn't whole yet. A body of at most 64 bytes is kept until its end,
/// and then read at a glance.
pub struct BodyReader {
    alloc: Global,
    // The first bytes, as long as no more came.
    front: Vec<u8>,
    // What reads on once more came.
    reader: Option<ReportReader>,
}

// By hand, so that it is a call where a value is dropped, and not laid out there.
impl Drop for BodyReader {
    fn drop(self) {
        let BodyReader {
            alloc: _,
            front,
            reader,
        } = self;
        drop(front);
        drop(reader);
    }
}

impl Model for BodyReader {
    ghost use Rattle.message_reports.specs.contracts.report_reader.ReportReader as reading;
    ghost use Rattle.std.specs.Coded.{codes};
    ghost use Rattle.server_sessions.specs.Bodies.{Body, IsReadOn, body_of};

    ghost Value = { Body };

    ghost coded = { Prim.hlevel (codes, reading.the_row.coded) };

    ghost view = { λ b. body_of b.front.items b.reader };

    ghost invariant = { λ b. IsReadOn b.reader };
}

// Has a reader that was fed nothing read the first bytes and a piece behind them. After want of memory only dropping the reader is allowed.
fn read_both(reader: &mut ReportReader, front: &[u8], piece: &[u8]) -> Result<(), NoMemory>
    requires nothing { WasFed reader.old [] }
    ensures fed { OnOk result (WasFed reader.new (front.now ++ piece.now)) }
{
    reader.feed(front)?;
    reader.feed(piece)
}

// What reads on behind the first bytes, which was fed them and a piece.
fn begun(alloc: Global, front: &[u8], piece: &[u8]) -> Result<ReportReader, NoMemory>
    ensures fed { IfOk result (λ reader. WasFed reader (front.now ++ piece.now)) }
{
    let mut reader = ReportReader::new(alloc);
    match read_both(&mut reader, front, piece) {
        Ok(()) => Ok(reader),
        Err(NoMemory) => {
            drop(reader);
            Err(NoMemory)
        }
    }
}

// Keeps a piece behind the first bytes, or begins to read where these are too many with it.
#[tactic(auto, unfolding(crate::specs::Bodies::HasCome))]
fn keep_or_begin(
    alloc: Global,
    front: &mut Vec<u8>,
    piece: &[u8],
) -> Result<Option<ReportReader>, NoMemory>
    ensures came { IfOk result (λ reader. HasCome (body_of front.new.items reader) (front.old.items ++ piece.now)) }
    ensures in_use { IfOk result IsReadOn }
{
    if front.len().saturating_add(piece.len()) <= FRONT_LIMIT {
        front.extend_from_slice(piece)?;
        return Ok(None);
    }
    let reader = begun(alloc, front.as_slice(), piece)?;
    Ok(Some(reader))
}

// Reads on. After want of memory only dropping the reader is allowed.
#[tactic(auto, unfolding(crate::specs::Bodies::HasCome))]
fn read_on(
    alloc: Global,
    front: &mut Vec<u8>,
    reader: &mut Option<ReportReader>,
    piece: &[u8],
) -> Result<(), NoMemory>
    requires in_use { IsReadOn reader.old }
    ensures came { OnOk result ((bytes : Items ℕ) → HasCome (body_of front.old.items reader.old) bytes → HasCome (body_of front.new.items reader.new) (bytes ++ piece.now)) }
    ensures in_use { OnOk result (IsReadOn reader.new) }
{
    match reader {
        Some(reader) => reader.feed(piece),
        None => {
            let begun = keep_or_begin(alloc, front, piece)?;
            drop(mem::replace(reader, begun));
            Ok(())
        }
    }
}

// The report that the bytes mean which came, or their first fault.
#[tactic(auto, unfolding(crate::specs::Bodies::HasCome))]
fn read_whole(
    alloc: Global,
    front: &[u8],
    reader: Option<ReportReader>,
) -> Result<AgentToServer, ReadFail>
    requires in_use { IsReadOn reader }
    ensures means { IfOk result (λ m. (bytes : Items ℕ) → HasCome (body_of front.now reader) bytes → MeansReport bytes m) }
    ensures refused { (bytes : Items ℕ) → HasCome (body_of front.now reader) bytes → FailsWith result (ReportFault bytes) }
{
    match reader {
        Some(reader) => reader.end(),
        None => decode_report(alloc, front),
    }
}

impl BodyReader {
    /// A body of which nothing came yet. Takes no memory.
    #[tactic(auto, unfolding(crate::specs::Bodies::HasCome))]
    pub fn new(alloc: Global) -> BodyReader
        ensures nothing { HasCome result [] }
    {
        BodyReader {
            alloc,
            front: Vec::new(alloc),
            reader: None,
        }
    }

    /// Reads on. After want of memory it stands as if nothing came.
    #[tactic(auto, unfolding(crate::specs::Bodies::HasCome))]
    pub fn feed(&mut self, alloc: Global, piece: &[u8]) -> Result<(), NoMemory>
        ensures came { OnOk result ((bytes : Items ℕ) → HasCome self.old bytes → HasCome self.new (bytes ++ piece.now)) }
        ensures anew { OnErr result (HasCome self.new []) }
    {
        match read_on(alloc, &mut self.front, &mut self.reader, piece) {
            Ok(()) => Ok(()),
            Err(NoMemory) => {
                drop(mem::replace(&mut self.front, Vec::new(alloc)));
                drop(mem::replace(&mut self.reader, None));
                Err(NoMemory)
            }
        }
    }

    /// The report that the bytes mean which came, or none where they mean none.
    #[tactic(auto, unfolding(crate::specs::Reports::IsReport, crate::specs::Reports::IsNoReport))]
    pub fn end(self) -> Result<Option<AgentToServer>, NoMemory>
        ensures read { IfOk result (λ read. (bytes : Items ℕ) → HasCome self bytes → MatchOption read (IsNoReport bytes) (IsReport bytes)) }
    {
        let BodyReader {
            alloc,
            front,
            reader,
        } = self;
        match read_whole(alloc, front.as_slice(), reader) {
            Ok(report) => Ok(Some(report)),
            Err(ReadFail::Refused(_)) => Ok(None),
            Err(ReadFail::NoMemory) => Err(NoMemory),
        }
    }
}
