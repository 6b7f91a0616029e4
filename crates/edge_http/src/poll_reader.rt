// The reader of whole messages.
ghost use Rattle.std.specs.Prelude.{◌≡◌, ◌≢◌, ◌⊎◌, ℕ, List, [], ◌∷◌, ◌++◌, Some, None, true, false, IsTrue, OnOk, IfErr, MatchResult, option_to_list};
ghost use Rattle.edge_heads.specs.declared.values.Side.TheVariants.{Requests, Responses};
ghost use Rattle.edge_heads.specs.declared.values.HttpFail.TheVariants.{NoMemory as WantsMemory};
ghost use Rattle.edge_http.specs.declared.messages.HttpMessage.{HttpMessage as MessageOf};
ghost use Rattle.edge_http.specs.Joined.{with_part};
ghost use Rattle.edge_http.specs.Streams.{Begins, with_body};
ghost use Rattle.edge_heads.specs.declared.values.HttpFail.{HttpFail as FailOf};
ghost use Rattle.edge_http.specs.Readers.{FailureIs};
ghost use Rattle.edge_http.specs.Polled.{poll_failure, HasPolled, PollTells, JoinedIs, held};

use crate::messages::{HttpMessage, Part};
use crate::part_reader::PartReader;
use edge_heads::{HttpFail, HttpHead};
use plain_values::Blob;
use std::alloc::Global;
use std::collections::VecDeque;
use std::marker::Model;

// A message under way.
#[derive(Drop)]
pub(crate) struct Opened {
    head: HttpHead,
    body: Vec<u8>,
}

impl Model for Opened {
    ghost use Rattle.edge_http.specs.declared.messages.HttpMessage.{HttpMessage as MessageValue};
    ghost use Rattle.edge_http.specs.Streams.{with_body};

    ghost Value = { MessageValue };

    ghost view = { λ o. with_body o.head o.body.items };
}

impl Opened {
    fn new(alloc: Global, head: HttpHead) -> Opened
        ensures { result ≡ with_body head [] }
    {
        Opened {
            head,
            body: Vec::new(alloc),
        }
    }

    fn add(&mut self, bytes: &[u8]) -> Result<(), HttpFail>
        ensures added { OnOk result (self.new ≡ record self.old { body = self.old.body ++ bytes.now }) }
        ensures no_memory { IfErr result (λ why. why ≡ WantsMemory) }
    {
        match self.body.extend_from_slice(bytes) {
            Err(_) => Err(HttpFail::NoMemory),
            Ok(()) => Ok(()),
        }
    }

    fn into_message(self) -> HttpMessage
        ensures { result ≡ self }
    {
        let Opened { head, body } = self;
        HttpMessage {
            method: head.method,
            target: head.target,
            status: head.status,
            protobuf: head.protobuf,
            coded: head.coded,
            close: head.close,
            body: Blob::of(body),
        }
    }
}

/// A reader of whole messages, over a [`PartReader`], whose parts it joins. The limits are that reader's.
#[derive(Drop)]
pub struct PollReader {
    parts: PartReader,
    opened: Option<Opened>,
    ready: VecDeque<HttpMessage>,
    failed: bool,
    alloc: Global,
}

impl Model for PollReader {
    ghost use Rattle.edge_http.specs.Polled.{PollState};

    ghost Value = { PollState };

    ghost view = { λ r. record { parts = r.parts; under_way = r.opened; ready = r.ready.items; failed = r.failed } };
}

impl PollReader {
    fn over(alloc: Global, parts: PartReader) -> PollReader
        ensures { result ≡ record { parts = parts; under_way = None; ready = []; failed = false } }
    {
        PollReader {
            parts,
            opened: None,
            ready: VecDeque::new(alloc),
            failed: false,
            alloc,
        }
    }

    /// A reader of requests, which was fed nothing. Takes no memory.
    pub fn requests(alloc: Global) -> PollReader
        ensures kind { (result.parts.side ≡ Requests) × (result.parts.limit ≡ 4194304) }
        ensures nothing { HasPolled result [] [] }
        ensures empty { result.ready ≡ [] }
        ensures unfailed { poll_failure result ≡ None }
        ensures tells { PollTells result [] [] None }
    {
        PollReader::over(alloc, PartReader::requests(alloc))
    }

    /// A reader of responses, which was fed nothing. Takes no memory.
    pub fn responses(alloc: Global) -> PollReader
        ensures kind { (result.parts.side ≡ Responses) × (result.parts.limit ≡ 4194304) }
        ensures nothing { HasPolled result [] [] }
        ensures empty { result.ready ≡ [] }
        ensures unfailed { poll_failure result ≡ None }
        ensures tells { PollTells result [] [] None }
    {
        PollReader::over(alloc, PartReader::responses(alloc))
    }

    /// A reader of responses that bring packages, which was fed nothing. Takes no memory.
    pub fn packages(alloc: Global) -> PollReader
        ensures kind { (result.parts.side ≡ Responses) × (result.parts.limit ≡ 16777216) }
        ensures nothing { HasPolled result [] [] }
        ensures empty { result.ready ≡ [] }
        ensures unfailed { poll_failure result ≡ None }
        ensures tells { PollTells result [] [] None }
    {
        PollReader::over(alloc, PartReader::packages(alloc))
    }

    /// Reads one more piece, and makes all messages that are whole in the bytes fed so far. It fails exactly where these bytes
    /// do, by the first failure of [`HttpFail`]'s list that they have, or where memory is wanting. A failure is answered
    /// again by each later call, which changes nothing; the messages that were whole before it, want of memory included, can
    /// still be taken.
    pub fn feed(&mut self, piece: &[u8]) -> Result<(), HttpFail>
        ensures kind { (self.new.parts.side ≡ self.old.parts.side) × (self.new.parts.limit ≡ self.old.parts.limit) }
        ensures read { (bytes : List ℕ) (taken : List MessageOf) → HasPolled self.old bytes taken → HasPolled self.new (bytes ++ piece.now) taken }
        ensures tells { (bytes : List ℕ) (taken : List MessageOf) → HasPolled self.old bytes taken
            → PollTells self.new (bytes ++ piece.now) (taken ++ self.new.ready) (poll_failure self.new) }
        ensures answer { MatchResult result (λ _. poll_failure self.new ≡ None) (λ why. poll_failure self.new ≡ Some why) }
        ensures exact { (bytes : List ℕ) (taken : List MessageOf) → HasPolled self.old bytes taken
            → FailureIs self.new.parts.side self.new.parts.limit (bytes ++ piece.now) (poll_failure self.new) }
        ensures again { (why : FailOf) → poll_failure self.old ≡ Some why → self.new ≡ self.old }
        ensures kept { (more : List MessageOf) × (self.new.ready ≡ self.old.ready ++ more) }
    {
        if self.failed {
            return Err(HttpFail::NoMemory);
        }
        if let Some(failure) = self.parts.failure() {
            return Err(failure);
        }
        let answer = self.parts.feed(piece);
        match self.join_parts() {
            Ok(()) => answer,
            Err(failure) => {
                self.failed = true;
                Err(failure)
            }
        }
    }

    /// The oldest whole message that wasn't taken yet; none exactly where there is none. A failure of the reader stays as it
    /// is. Takes no memory.
    pub fn take(&mut self) -> Option<HttpMessage>
        ensures kind { (self.new.parts.side ≡ self.old.parts.side) × (self.new.parts.limit ≡ self.old.parts.limit) }
        ensures failure { poll_failure self.new ≡ poll_failure self.old }
        ensures oldest { self.old.ready ≡ option_to_list result ++ self.new.ready }
        ensures read { (bytes : List ℕ) (taken : List MessageOf) → HasPolled self.old bytes taken → HasPolled self.new bytes (taken ++ option_to_list result) }
        ensures none { result ≡ None → (self.old.ready ≡ []) × (self.new ≡ self.old) }
    {
        self.ready.pop_front()
    }

    /// Whether nothing is left of the bytes fed: they are the messages that were taken, whole, with nothing behind the last
    /// one, and reading didn't fail. Takes no memory.
    pub fn holds_nothing(&self) -> bool
        ensures messages { IsTrue result → (bytes : List ℕ) (taken : List MessageOf) → HasPolled self.now bytes taken
            → Begins self.now.parts.side self.now.parts.limit bytes taken [] }
    {
        !self.failed && self.ready.is_empty() && self.parts.holds_nothing()
    }

    // Joins all parts that are ready.
    fn join_parts(&mut self) -> Result<(), HttpFail>
        ensures { JoinedIs self.old self.new result }
    {
        'parts: loop {
            match self.parts.part() {
                None => return Ok(()),
                Some(part) => match self.join(part) {
                    Err(why) => return Err(why),
                    Ok(()) => {}
                },
            }
        }
    }

    fn join(&mut self, part: Part) -> Result<(), HttpFail>
        ensures same { (self.new.parts ≡ self.old.parts) × (self.new.failed ≡ self.old.failed) }
        ensures joined { OnOk result (held self.new ≡ with_part (held self.old) part) }
        ensures no_memory { IfErr result (λ why. (why ≡ WantsMemory) × (self.new.ready ≡ self.old.ready)) }
    {
        match part {
            Part::Head(head) => {
                self.opened = Some(Opened::new(self.alloc, head));
                Ok(())
            }
            Part::Body(bytes) => match &mut self.opened {
                None => Ok(()),
                Some(opened) => opened.add(bytes.as_slice()),
            },
            Part::Done => match self.opened.take() {
                None => Ok(()),
                Some(opened) => match self.ready.push_back(opened.into_message()) {
                    Err(_) => Err(HttpFail::NoMemory),
                    Ok(()) => Ok(()),
                },
            },
        }
    }
}
