//! A dialer in memory.

ghost use Rattle.std.specs.Prelude.{◌≡◌, ◌∷◌, ◌++◌, ◌≢◌, [], Err, None, Some, IsErr, IfOk, OnOk, OnErr, IsTrue, is_some, drop, length, nat_le, if◌then◌else◌};
ghost use Rattle.edge_devices.specs.declared.dialers.DialerCall.TheVariants.{Dial, Exchange, Fetch, Arrived};
ghost use Rattle.edge_devices.specs.Dialers.{Dials, Exchanges, is_dial_fault, is_link_fault};
ghost use Rattle.edge_devices.specs.MemoryStates.{HasNoAnswer, HasNoFile, answers_left, arrivals_left, dialer_schedule, files_left, first_of, memory_dialer, next_fetched, next_of};
ghost use Rattle.edge_devices.specs.Schedules.{IsListed, after_call, opening};

use crate::counts::raised;
use crate::dialers::{DialFail, Dialer, DialerCall, LinkFail, PushDialer};
use crate::endpoints::Endpoint;
use crate::schedule::Schedule;
use plain_values::{Blob, Headers, NoMemory, Plain, Text};
use std::alloc::Global;
use std::marker::Model;

// Blobs that are given one after the other. Contracts see those that are left.
#[derive(Drop)]
struct Stock {
    blobs: Vec<Blob>,
    at: usize,
}

impl Model for Stock {
    ghost use Rattle.std.specs.Prelude.{◌≤◌, ℕ, List, drop, vec_len};

    ghost Value = { List (List ℕ) };

    ghost view = { λ s. drop s.at s.blobs.items };

    ghost invariant = { λ s. s.at ≤ vec_len s.blobs };
}

impl Stock {
    fn new(blobs: Vec<Blob>) -> Stock
        ensures made { result ≡ blobs.items }
    {
        Stock { blobs, at: 0 }
    }

    // A copy of the first that is left.
    fn first(&self, alloc: Global) -> Result<Option<Blob>, NoMemory>
        ensures first { IfOk result (λ blob. blob ≡ first_of self.now) }
    {
        if self.at >= self.blobs.len() {
            return Ok(None);
        }
        Ok(Some(self.blobs[self.at].copy(alloc)?))
    }

    // The first is given away.
    fn pass(&mut self)
        requires { self.old ≢ [] }
        ensures rest { self.new ≡ drop 1 self.old }
    {
        self.at += 1;
    }
}

// What comes unasked, call by call: a message, or none. Contracts see what is left; behind it nothing comes.
#[derive(Drop)]
struct Arrivals {
    messages: Vec<Option<Blob>>,
    at: usize,
}

impl Model for Arrivals {
    ghost use Rattle.std.specs.Prelude.{◌≤◌, ℕ, List, Option, drop, vec_len};

    ghost Value = { List (Option (List ℕ)) };

    ghost view = { λ a. drop a.at a.messages.items };

    ghost invariant = { λ a. a.at ≤ vec_len a.messages };
}

impl Arrivals {
    fn new(messages: Vec<Option<Blob>>) -> Arrivals
        ensures made { result ≡ messages.items }
    {
        Arrivals { messages, at: 0 }
    }

    // A copy of what comes next.
    fn next(&self, alloc: Global) -> Result<Option<Blob>, NoMemory>
        ensures next { IfOk result (λ message. message ≡ next_of self.now) }
    {
        if self.at >= self.messages.len() {
            return Ok(None);
        }
        self.messages[self.at].copy(alloc)
    }

    // The next call is over.
    fn pass(&mut self)
        ensures rest { self.new ≡ drop 1 self.old }
    {
        if self.at < self.messages.len() {
            self.at += 1;
        }
    }
}

/// A link of a dialer in memory.
#[derive(Drop)]
pub struct MemoryLink {
    number: u64,
}

/// A dialer in memory, which tells its calls. It gives the answers and the files of its lists in their order; a call
/// that fails takes nothing from them. It fails at the calls whose numbers `failing` lists, where its list holds nothing
/// more, at a file of more than 16,777,216 bytes, and nowhere else. Calls are numbered from 0. Unasked comes what it is
/// told to hear, call by call. It counts the calls that answered want of memory.
pub struct MemoryDialer {
    answers: Stock,
    files: Stock,
    arrivals: Arrivals,
    calls: Vec<DialerCall>,
    schedule: Schedule,
    wants: u64,
}

// By hand, so that it is a call where a value is dropped, and not laid out there.
impl Drop for MemoryDialer {
    fn drop(self) {
        let MemoryDialer {
            answers: _,
            files: _,
            arrivals: _,
            calls: _,
            schedule: _,
            wants: _,
        } = self;
    }
}

impl MemoryDialer {
    /// A dialer of these answers and files, with no call yet.
    pub fn new(
        alloc: Global,
        answers: Vec<Blob>,
        files: Vec<Blob>,
        failing: Vec<u64>,
    ) -> MemoryDialer
        ensures told { IsTrue (memory_dialer result).told }
        ensures answers { answers_left result ≡ answers.items }
        ensures files { files_left result ≡ files.items }
        ensures arrivals { arrivals_left result ≡ [] }
        ensures no_calls { (memory_dialer result).calls ≡ [] }
        ensures no_wants { (memory_dialer result).wants ≡ 0 }
        ensures made { dialer_schedule result ≡ opening failing.items }
    {
        MemoryDialer {
            answers: Stock::new(answers),
            files: Stock::new(files),
            arrivals: Arrivals::new(Vec::new(alloc)),
            calls: Vec::new(alloc),
            schedule: Schedule::new(failing),
            wants: 0,
        }
    }

    /// From now on these messages come unasked, one at each call that takes one, or none. Takes no memory.
    pub fn hear(&mut self, arrivals: Vec<Option<Blob>>)
        ensures arrivals { arrivals_left self.new ≡ arrivals.items }
        ensures calls { memory_dialer self.new ≡ memory_dialer self.old }
        ensures schedule { dialer_schedule self.new ≡ dialer_schedule self.old }
        ensures answers { answers_left self.new ≡ answers_left self.old }
        ensures files { files_left self.new ≡ files_left self.old }
    {
        self.arrivals = Arrivals::new(arrivals);
    }

    /// The calls that were made, in their order, each with its answer. One that answered want of memory is not among
    /// them.
    pub fn calls(&self) -> &[DialerCall]
        ensures calls { result.now ≡ (memory_dialer self.now).calls }
    {
        self.calls.as_slice()
    }
}

// Whether a file can be fetched: a package has at most 16,777,216 bytes.
fn is_fetchable(file: &Blob) -> bool
    ensures { result ≡ nat_le (length file.now) 16777216 }
{
    file.as_slice().len() <= 16_777_216
}

// The answer to the next question, where there is one and the call isn't to fail.
fn next_answer(alloc: Global, answers: &Stock, fails: bool) -> Result<Option<Blob>, NoMemory>
    ensures answer { IfOk result (λ answer. answer ≡ (if fails then None else first_of answers.now)) }
{
    if fails {
        return Ok(None);
    }
    answers.first(alloc)
}

// The next file, where it can be fetched and the call isn't to fail.
fn next_file(alloc: Global, files: &Stock, fails: bool) -> Result<Option<Blob>, NoMemory>
    ensures file { IfOk result (λ file. file ≡ (if fails then None else next_fetched files.now)) }
{
    if fails {
        return Ok(None);
    }
    match files.first(alloc)? {
        Some(file) if is_fetchable(&file) => Ok(Some(file)),
        _ => Ok(None),
    }
}

// Tells a dial with its answer. Want of memory changes nothing.
fn tell_dial(
    alloc: Global,
    calls: &mut Vec<DialerCall>,
    to: &Endpoint,
    headers: &Headers,
    done: bool,
) -> Result<(), NoMemory>
    ensures told { OnOk result (calls.new.items ≡ calls.old.items ++ Dial to.now headers.now done ∷ []) }
    ensures kept { OnErr result (calls.new.items ≡ calls.old.items) }
{
    let to = to.copy(alloc)?;
    let headers = headers.copy(alloc)?;
    calls.push(DialerCall::Dial(to, headers, done))?;
    Ok(())
}

// Tells an exchange with its answer. Want of memory changes nothing.
fn tell_exchange(
    alloc: Global,
    calls: &mut Vec<DialerCall>,
    number: u64,
    question: &[u8],
    answer: &Option<Blob>,
) -> Result<(), NoMemory>
    ensures told { OnOk result (calls.new.items ≡ calls.old.items ++ Exchange number question.now answer.now ∷ []) }
    ensures kept { OnErr result (calls.new.items ≡ calls.old.items) }
{
    let question = Blob::of(Vec::from_slice(alloc, question)?);
    let answer = answer.copy(alloc)?;
    calls.push(DialerCall::Exchange(number, question, answer))?;
    Ok(())
}

// Tells a fetch with its answer. Want of memory changes nothing.
fn tell_fetch(
    alloc: Global,
    calls: &mut Vec<DialerCall>,
    url: &Text,
    file: &Option<Blob>,
) -> Result<(), NoMemory>
    ensures told { OnOk result (calls.new.items ≡ calls.old.items ++ Fetch url.now file.now ∷ []) }
    ensures kept { OnErr result (calls.new.items ≡ calls.old.items) }
{
    let url = url.copy(alloc)?;
    let file = file.copy(alloc)?;
    calls.push(DialerCall::Fetch(url, file))?;
    Ok(())
}

// Tells a look at what came unasked, with its answer. Want of memory changes nothing.
fn tell_arrived(
    alloc: Global,
    calls: &mut Vec<DialerCall>,
    number: u64,
    message: &Option<Option<Blob>>,
) -> Result<(), NoMemory>
    ensures told { OnOk result (calls.new.items ≡ calls.old.items ++ Arrived number message.now ∷ []) }
    ensures kept { OnErr result (calls.new.items ≡ calls.old.items) }
{
    let message = message.copy(alloc)?;
    calls.push(DialerCall::Arrived(number, message))?;
    Ok(())
}

// Asks for the answer to a question, and tells the exchange. Want of memory changes nothing.
fn answer_told(
    alloc: Global,
    calls: &mut Vec<DialerCall>,
    answers: &Stock,
    number: u64,
    question: &[u8],
    fails: bool,
) -> Result<Option<Blob>, NoMemory>
    ensures answer { IfOk result (λ answer. answer ≡ (if fails then None else first_of answers.now)) }
    ensures told { IfOk result (λ answer. calls.new.items ≡ calls.old.items ++ Exchange number question.now answer ∷ []) }
    ensures kept { OnErr result (calls.new.items ≡ calls.old.items) }
{
    let answer = next_answer(alloc, answers, fails)?;
    tell_exchange(alloc, calls, number, question, &answer)?;
    Ok(answer)
}

// Asks for the next file, and tells the fetch. Want of memory changes nothing.
fn file_told(
    alloc: Global,
    calls: &mut Vec<DialerCall>,
    files: &Stock,
    url: &Text,
    fails: bool,
) -> Result<Option<Blob>, NoMemory>
    ensures file { IfOk result (λ file. file ≡ (if fails then None else next_fetched files.now)) }
    ensures told { IfOk result (λ file. calls.new.items ≡ calls.old.items ++ Fetch url.now file ∷ []) }
    ensures kept { OnErr result (calls.new.items ≡ calls.old.items) }
{
    let file = next_file(alloc, files, fails)?;
    tell_fetch(alloc, calls, url, &file)?;
    Ok(file)
}

// Looks what came unasked, where the call isn't to fail, and tells it. Want of memory changes nothing.
fn arrival_told(
    alloc: Global,
    calls: &mut Vec<DialerCall>,
    arrivals: &Arrivals,
    number: u64,
    fails: bool,
) -> Result<Option<Option<Blob>>, NoMemory>
    ensures message { IfOk result (λ message. message ≡ (if fails then None else Some (next_of arrivals.now))) }
    ensures told { IfOk result (λ message. calls.new.items ≡ calls.old.items ++ Arrived number message ∷ []) }
    ensures kept { OnErr result (calls.new.items ≡ calls.old.items) }
{
    let message = if fails {
        None
    } else {
        Some(arrivals.next(alloc)?)
    };
    tell_arrived(alloc, calls, number, &message)?;
    Ok(message)
}

impl Dialer for MemoryDialer {
    ghost use Rattle.edge_devices.specs.MemoryStates.{memory_dialer};

    type Link = MemoryLink;

    ghost state = { memory_dialer };

    ghost number = { λ link. link.number };

    fn dial(
        &mut self,
        alloc: Global,
        to: &Endpoint,
        headers: &Headers,
    ) -> Result<MemoryLink, DialFail>
        ensures number { IfOk result (λ link. IsTrue (memory_dialer self.new).told → link.number ≡ length (memory_dialer self.old).calls) }
        ensures call { Dials (memory_dialer self.old) (memory_dialer self.new) (λ link. DialerCall.Dial to.now headers.now (is_some link)) result }

        // It fails where the call is listed, and nowhere else; and so do the faults rise.
        ensures listed { IsListed (dialer_schedule self.old) → IsErr result }
        ensures only { result ≡ Err DialFail.Fault → IsListed (dialer_schedule self.old) }
        ensures counts { dialer_schedule self.new ≡ after_call (dialer_schedule self.old) (is_dial_fault result) }
        ensures answers { answers_left self.new ≡ answers_left self.old }
        ensures files { files_left self.new ≡ files_left self.old }
        ensures arrivals { arrivals_left self.new ≡ arrivals_left self.old }
    {
        let fails = self.schedule.begin();
        let number = self.calls.len() as u64;
        if tell_dial(alloc, &mut self.calls, to, headers, !fails).is_err() {
            self.wants = raised(self.wants);
            return Err(DialFail::NoMemory);
        }
        if fails {
            self.schedule.fail();
            return Err(DialFail::Fault);
        }
        Ok(MemoryLink { number })
    }

    fn exchange(
        &mut self,
        alloc: Global,
        link: &mut MemoryLink,
        question: &[u8],
    ) -> Result<Blob, LinkFail>
        ensures number { link.new.number ≡ link.old.number }
        ensures call { Exchanges (memory_dialer self.old) (memory_dialer self.new) (DialerCall.Exchange link.old.number question.now) result }

        // It fails where the call is listed or no answer is left, and nowhere else; and so do the faults rise.
        ensures none { HasNoAnswer self.old → IsErr result }
        ensures only { result ≡ Err LinkFail.Fault → HasNoAnswer self.old }
        ensures counts { dialer_schedule self.new ≡ after_call (dialer_schedule self.old) (is_link_fault result) }
        ensures answer { IfOk result (λ answer. answers_left self.old ≡ answer ∷ answers_left self.new) }
        ensures kept { OnErr result (answers_left self.new ≡ answers_left self.old) }
        ensures files { files_left self.new ≡ files_left self.old }
        ensures arrivals { arrivals_left self.new ≡ arrivals_left self.old }
    {
        let fails = self.schedule.begin();
        match answer_told(
            alloc,
            &mut self.calls,
            &self.answers,
            link.number,
            question,
            fails,
        ) {
            Ok(Some(answer)) => {
                self.answers.pass();
                Ok(answer)
            }
            Ok(None) => {
                self.schedule.fail();
                Err(LinkFail::Fault)
            }
            Err(_) => {
                self.wants = raised(self.wants);
                Err(LinkFail::NoMemory)
            }
        }
    }

    fn fetch(&mut self, alloc: Global, url: &Text) -> Result<Blob, DialFail>
        ensures call { Dials (memory_dialer self.old) (memory_dialer self.new) (DialerCall.Fetch url.now) result }

        // It fails where the call is listed, or where no file is left or the next one is too long, and nowhere else; and
        // so do the faults rise.
        ensures none { HasNoFile self.old → IsErr result }
        ensures only { result ≡ Err DialFail.Fault → HasNoFile self.old }
        ensures counts { dialer_schedule self.new ≡ after_call (dialer_schedule self.old) (is_dial_fault result) }
        ensures file { IfOk result (λ file. files_left self.old ≡ file ∷ files_left self.new) }
        ensures kept { OnErr result (files_left self.new ≡ files_left self.old) }
        ensures answers { answers_left self.new ≡ answers_left self.old }
        ensures arrivals { arrivals_left self.new ≡ arrivals_left self.old }
    {
        let fails = self.schedule.begin();
        match file_told(alloc, &mut self.calls, &self.files, url, fails) {
            Ok(Some(file)) => {
                self.files.pass();
                Ok(file)
            }
            Ok(None) => {
                self.schedule.fail();
                Err(DialFail::Fault)
            }
            Err(_) => {
                self.wants = raised(self.wants);
                Err(DialFail::NoMemory)
            }
        }
    }
}

impl PushDialer for MemoryDialer {
    ghost use Rattle.edge_devices.specs.MemoryStates.{arrivals_left, next_of};

    ghost oldest = { λ dialer link. next_of (arrivals_left dialer) };

    fn arrived(&mut self, alloc: Global, link: &mut MemoryLink) -> Result<Option<Blob>, LinkFail>
        ensures number { link.new.number ≡ link.old.number }
        ensures call { Exchanges (memory_dialer self.old) (memory_dialer self.new) (DialerCall.Arrived link.old.number) result }
        ensures oldest { IfOk result (λ message. IsTrue (memory_dialer self.new).told → message ≡ next_of (arrivals_left self.old)) }

        // It fails where the call is listed, and nowhere else; and so do the faults rise.
        ensures listed { IsListed (dialer_schedule self.old) → IsErr result }
        ensures only { result ≡ Err LinkFail.Fault → IsListed (dialer_schedule self.old) }
        ensures counts { dialer_schedule self.new ≡ after_call (dialer_schedule self.old) (is_link_fault result) }
        ensures arrivals { OnOk result (arrivals_left self.new ≡ drop 1 (arrivals_left self.old)) }
        ensures kept { OnErr result (arrivals_left self.new ≡ arrivals_left self.old) }
        ensures answers { answers_left self.new ≡ answers_left self.old }
        ensures files { files_left self.new ≡ files_left self.old }
    {
        let fails = self.schedule.begin();
        match arrival_told(alloc, &mut self.calls, &self.arrivals, link.number, fails) {
            Ok(Some(message)) => {
                self.arrivals.pass();
                Ok(message)
            }
            Ok(None) => {
                self.schedule.fail();
                Err(LinkFail::Fault)
            }
            Err(_) => {
                self.wants = raised(self.wants);
                Err(LinkFail::NoMemory)
            }
        }
    }
}
