// The reader of parts.
ghost use Rattle.std.specs.Prelude.{◌≡◌, ℕ, ◌<◌, ◌≤◌, ◌+◌, ◌^◌, List, [], ◌∷◌, ◌++◌, length, take, drop, IfOk, IfErr, OnOk, MatchResult, IsTrue, Some, None, option_to_list, ◌⊎◌};
ghost use Rattle.edge_heads.specs.declared.values.Side.TheVariants.{Requests, Responses};
ghost use Rattle.edge_http.specs.declared.messages.Stage.TheVariants as stage;
ghost use Rattle.edge_heads.specs.declared.values.HttpFail.TheVariants.{NoMemory as WantsMemory};
ghost use Rattle.edge_heads.specs.declared.values.HttpFail.{HttpFail as FailOf};
ghost use Rattle.edge_http.specs.declared.messages.Part.{Part as PartOf};
ghost use Rattle.edge_http.specs.declared.messages.Part.TheVariants as part;
ghost use Rattle.edge_heads.specs.Parsing.{IsHeadFound};
ghost use Rattle.edge_http.specs.Steps.{StageFits, Makes, Gives, StepIs, ReadIs, with_piece};
ghost use Rattle.edge_http.specs.Readers.{HasRead, HoldsNothing, FailureIs};

use crate::messages::{Part, Stage};
use crate::{BODY_LIMIT, PACKAGE_LIMIT};
use edge_heads::{
    BodyForm, Found, HeadBuffer, HeadFound, HttpFail, HttpHead, LineFound, Side, ending, size_line,
    trailer,
};
use plain_values::Blob;
use std::alloc::Global;
use std::collections::VecDeque;
use std::marker::Model;

/// A reader of messages by their parts (RFC 9112, sections 2 to 7): of requests, of responses or of packages.
///
/// It is fed the bytes of a stream in pieces, however they are cut, and gives the parts of the messages as they come. A
/// head has at most 16,384 bytes and 64 header lines, a body at most 4,194,304 bytes, and of a package 16,777,216.
#[derive(Drop)]
pub struct PartReader {
    limit: u64,
    unused: HeadBuffer,
    stage: Stage,
    ready: VecDeque<Part>,
    failure: Option<HttpFail>,
    alloc: Global,
}

impl Model for PartReader {
    ghost use Rattle.std.specs.Prelude.{◌<◌, ◌^◌};
    ghost use Rattle.edge_http.specs.Readers.{ReaderState};
    ghost use Rattle.edge_http.specs.Steps.{StageFits};

    ghost Value = { ReaderState };

    ghost view = { λ r. record {
      side = r.unused.side;
      limit = r.limit;
      unused = r.unused.items;
      stage = r.stage;
      ready = r.ready.items;
      failure = r.failure;
    } };

    ghost invariant = { λ r. (r.limit < 2 ^ 63) × StageFits r.limit r.stage };
}

impl PartReader {
    fn with_limit(alloc: Global, side: Side, limit: u64) -> PartReader
        requires { limit < 2 ^ 63 }
        ensures { result ≡ record { side = side; limit = limit; unused = []; stage = stage.Head; ready = []; failure = None } }
    {
        PartReader {
            limit,
            unused: HeadBuffer::new(alloc, side),
            stage: Stage::Head,
            ready: VecDeque::new(alloc),
            failure: None,
            alloc,
        }
    }

    /// A reader of requests, which was fed nothing. Takes no memory.
    pub fn requests(alloc: Global) -> PartReader
        ensures kind { (result.side ≡ Requests) × (result.limit ≡ 4194304) }
        ensures nothing { HasRead result [] [] }
        ensures empty { result.ready ≡ [] }
        ensures unfailed { result.failure ≡ None }
    {
        PartReader::with_limit(alloc, Side::Requests, BODY_LIMIT)
    }

    /// A reader of responses, which was fed nothing. Takes no memory.
    pub fn responses(alloc: Global) -> PartReader
        ensures kind { (result.side ≡ Responses) × (result.limit ≡ 4194304) }
        ensures nothing { HasRead result [] [] }
        ensures empty { result.ready ≡ [] }
        ensures unfailed { result.failure ≡ None }
    {
        PartReader::with_limit(alloc, Side::Responses, BODY_LIMIT)
    }

    /// A reader of responses that bring packages, which was fed nothing. Takes no memory.
    pub fn packages(alloc: Global) -> PartReader
        ensures kind { (result.side ≡ Responses) × (result.limit ≡ 16777216) }
        ensures nothing { HasRead result [] [] }
        ensures empty { result.ready ≡ [] }
        ensures unfailed { result.failure ≡ None }
    {
        PartReader::with_limit(alloc, Side::Responses, PACKAGE_LIMIT)
    }

    /// Reads one more piece, and makes all parts that can be made of the bytes fed so far. It fails exactly where these bytes
    /// do, by the first failure of [`HttpFail`]'s list that they have, or where memory is wanting. A failure is answered
    /// again by each later call, which changes nothing; the parts that were made before it, want of memory included, can
    /// still be taken.
    pub fn feed(&mut self, piece: &[u8]) -> Result<(), HttpFail>
        ensures kind { (self.new.side ≡ self.old.side) × (self.new.limit ≡ self.old.limit) }
        ensures read { (bytes : List ℕ) (taken : List PartOf) → HasRead self.old bytes taken → HasRead self.new (bytes ++ piece.now) taken }
        ensures answer { MatchResult result (λ _. self.new.failure ≡ None) (λ why. self.new.failure ≡ Some why) }
        ensures exact { (bytes : List ℕ) (taken : List PartOf) → HasRead self.old bytes taken → FailureIs self.new.side self.new.limit (bytes ++ piece.now) self.new.failure }
        ensures again { (why : FailOf) → self.old.failure ≡ Some why → self.new ≡ self.old }
        ensures kept { (more : List PartOf) × (self.new.ready ≡ self.old.ready ++ more) }
    {
        if let Some(failure) = self.failure {
            return Err(failure);
        }
        match self.read(piece) {
            Ok(()) => Ok(()),
            Err(failure) => {
                self.failure = Some(failure);
                Err(failure)
            }
        }
    }

    /// The oldest part that wasn't taken yet; none exactly where there is none. Takes no memory.
    pub fn part(&mut self) -> Option<Part>
        ensures oldest { self.old.ready ≡ option_to_list result ++ self.new.ready }
        ensures read { (bytes : List ℕ) (taken : List PartOf) → HasRead self.old bytes taken → HasRead self.new bytes (taken ++ option_to_list result) }
        ensures none { result ≡ None → (self.old.ready ≡ []) × (self.new ≡ self.old) }
        ensures kind { (self.new.side ≡ self.old.side) × (self.new.limit ≡ self.old.limit) × (self.new.failure ≡ self.old.failure) }
    {
        self.ready.pop_front()
    }

    /// Why reading failed, if it did. Takes no memory.
    pub fn failure(&self) -> Option<HttpFail>
        ensures why { result ≡ self.now.failure }
    {
        self.failure
    }

    /// Whether nothing is left of the bytes fed: all that was made of them was taken, no message is under way, and reading
    /// didn't fail. Takes no memory.
    pub fn holds_nothing(&self) -> bool
        ensures nothing { IsTrue result → HoldsNothing self.now }
    {
        let unused = self.unused.as_slice();
        match self.stage {
            Stage::Head => unused.is_empty() && self.ready.is_empty() && self.failure.is_none(),
            _ => false,
        }
    }

    fn read(&mut self, piece: &[u8]) -> Result<(), HttpFail>
        ensures { ReadIs (with_piece self.old piece.now) self.new result }
    {
        match self.unused.extend_from_slice(piece) {
            Err(_) => Err(HttpFail::NoMemory),
            Ok(()) => self.run(),
        }
    }

    // Makes all steps that the unused bytes allow.
    fn run(&mut self) -> Result<(), HttpFail>
        ensures { ReadIs self.old self.new result }
    {
        'steps: loop {
            match self.step() {
                Err(why) => return Err(why),
                Ok(false) => return Ok(()),
                Ok(true) => {}
            }
        }
    }

    // Uses bytes for the next step of the message under way, and answers whether there were enough.
    fn step(&mut self) -> Result<bool, HttpFail>
        ensures { StepIs self.old self.new result }
    {
        match self.stage {
            Stage::Head => self.take_head(),
            Stage::Sized { left } => self.take_body(left),
            Stage::Size { sum } => self.take_size(sum),
            Stage::Data { left, sum } => self.take_data(left, sum),
            Stage::Ending { sum } => self.take_ending(sum),
            Stage::Trailer => self.take_trailer(),
        }
    }

    fn take_head(&mut self) -> Result<bool, HttpFail>
        requires at { self.old.stage ≡ stage.Head }
        ensures { StepIs self.old self.new result }
    {
        match self.unused.read_head(self.alloc) {
            Err(why) => Err(why),
            Ok(HeadFound::More) => Ok(false),
            Ok(HeadFound::Whole { head, form, len }) => self.begin_message(head, form, len),
        }
    }

    // A head stands at the front.
    fn begin_message(
        &mut self,
        head: HttpHead,
        form: BodyForm,
        len: usize,
    ) -> Result<bool, HttpFail>
        requires at { self.old.stage ≡ stage.Head }
        requires found { IsHeadFound self.old.side self.old.unused head form len }
        ensures { StepIs self.old self.new result }
    {
        match form {
            BodyForm::Wrong => Err(HttpFail::BadHead),
            BodyForm::Missing => Err(HttpFail::NoLength),
            BodyForm::Chunked => match self.begin(head, len, Stage::Size { sum: 0 }) {
                Err(why) => Err(why),
                Ok(()) => Ok(true),
            },
            BodyForm::Sized(size) => {
                if size > self.limit {
                    return Err(HttpFail::BodyTooLarge);
                }
                if size == 0 {
                    return match self.begin_empty(head, len) {
                        Err(why) => Err(why),
                        Ok(()) => Ok(true),
                    };
                }
                match self.begin(head, len, Stage::Sized { left: size }) {
                    Err(why) => Err(why),
                    Ok(()) => Ok(true),
                }
            }
        }
    }

    // The head becomes a part.
    fn begin(&mut self, head: HttpHead, len: usize, next: Stage) -> Result<(), HttpFail>
        requires within { len ≤ length self.old.unused }
        requires fits { StageFits self.old.limit next }
        ensures made { OnOk result (Makes self.old self.new (part.Head head ∷ []) × (self.new.unused ≡ drop len self.old.unused) × (self.new.stage ≡ next)) }
        ensures no_memory { IfErr result (λ why. (why ≡ WantsMemory) × (self.new ≡ self.old)) }
    {
        self.ready.push_back(Part::Head(head))?;
        self.unused.advance(len);
        self.stage = next;
        Ok(())
    }

    // The head becomes a part, and its message has no body.
    fn begin_empty(&mut self, head: HttpHead, len: usize) -> Result<(), HttpFail>
        requires within { len ≤ length self.old.unused }
        requires at { self.old.stage ≡ stage.Head }
        ensures made { OnOk result (Makes self.old self.new (part.Head head ∷ part.Done ∷ []) × (self.new.unused ≡ drop len self.old.unused) × (self.new.stage ≡ stage.Head)) }
        ensures no_memory { IfErr result (λ why. (why ≡ WantsMemory) × (Makes self.old self.new [] ⊎ Makes self.old self.new (part.Head head ∷ []))) }
    {
        self.ready.push_back(Part::Head(head))?;
        self.ready.push_back(Part::Done)?;
        self.unused.advance(len);
        Ok(())
    }

    // The message is whole, and the next one begins.
    fn finish(&mut self, len: usize) -> Result<(), HttpFail>
        requires within { len ≤ length self.old.unused }
        ensures made { OnOk result (Makes self.old self.new (part.Done ∷ []) × (self.new.unused ≡ drop len self.old.unused) × (self.new.stage ≡ stage.Head)) }
        ensures no_memory { IfErr result (λ why. (why ≡ WantsMemory) × (self.new ≡ self.old)) }
    {
        self.ready.push_back(Part::Done)?;
        self.unused.advance(len);
        self.stage = Stage::Head;
        Ok(())
    }

    // Hands out at most so many bytes of the body, and answers how many.
    fn give(&mut self, most: u64) -> Result<u64, HttpFail>
        ensures given { IfOk result (Gives self.old self.new most) }
        ensures no_memory { IfErr result (λ why. (why ≡ WantsMemory) × (self.new ≡ self.old)) }
    {
        let there = self.unused.len();
        let count = if most < there as u64 {
            most as usize
        } else {
            there
        };
        if count > 0 {
            let body = Vec::from_slice(self.alloc, &self.unused.as_slice()[..count])?;
            self.ready.push_back(Part::Body(Blob::of(body)))?;
            self.unused.advance(count);
        }
        Ok(count as u64)
    }

    fn take_body(&mut self, left: u64) -> Result<bool, HttpFail>
        requires at { self.old.stage ≡ stage.Sized left }
        ensures { StepIs self.old self.new result }
    {
        match self.give(left) {
            Err(why) => Err(why),
            Ok(count) => {
                if count < left {
                    self.stage = Stage::Sized { left: left - count };
                    return Ok(false);
                }
                match self.finish(0) {
                    Err(why) => Err(why),
                    Ok(()) => Ok(true),
                }
            }
        }
    }

    fn take_size(&mut self, sum: u64) -> Result<bool, HttpFail>
        requires at { self.old.stage ≡ stage.Size sum }
        ensures { StepIs self.old self.new result }
    {
        match size_line(self.unused.as_slice()) {
            LineFound::More => Ok(false),
            LineFound::Bad => Err(HttpFail::BadChunk),
            LineFound::Whole { len, size } => {
                if size > self.limit - sum {
                    return Err(HttpFail::BodyTooLarge);
                }
                self.unused.advance(len);
                self.stage = if size == 0 {
                    Stage::Trailer
                } else {
                    Stage::Data {
                        left: size,
                        sum: sum + size,
                    }
                };
                Ok(true)
            }
        }
    }

    fn take_data(&mut self, left: u64, sum: u64) -> Result<bool, HttpFail>
        requires at { self.old.stage ≡ stage.Data left sum }
        ensures { StepIs self.old self.new result }
    {
        match self.give(left) {
            Err(why) => Err(why),
            Ok(count) => {
                if count < left {
                    self.stage = Stage::Data {
                        left: left - count,
                        sum,
                    };
                    return Ok(false);
                }
                self.stage = Stage::Ending { sum };
                Ok(true)
            }
        }
    }

    fn take_ending(&mut self, sum: u64) -> Result<bool, HttpFail>
        requires at { self.old.stage ≡ stage.Ending sum }
        ensures { StepIs self.old self.new result }
    {
        match ending(self.unused.as_slice()) {
            Found::More => Ok(false),
            Found::Bad => Err(HttpFail::BadChunk),
            Found::Whole(len) => {
                self.unused.advance(len);
                self.stage = Stage::Size { sum };
                Ok(true)
            }
        }
    }

    fn take_trailer(&mut self) -> Result<bool, HttpFail>
        requires at { self.old.stage ≡ stage.Trailer }
        ensures { StepIs self.old self.new result }
    {
        match trailer(self.unused.as_slice()) {
            Found::More => Ok(false),
            Found::Bad => Err(HttpFail::BadChunk),
            Found::Whole(len) => match self.finish(len) {
                Err(why) => Err(why),
                Ok(()) => Ok(true),
            },
        }
    }
}
