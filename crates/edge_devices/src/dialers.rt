//! What reaches servers.

ghost use Rattle.std.specs.Prelude.{◌≡◌, ℕ, List, Option, IsTrue, IfOk, is_some, length};
ghost use Rattle.edge_devices.specs.Dialers.{DialerState, Dials, Exchanges};

use crate::endpoints::Endpoint;
use plain_values::{Blob, Headers, NoMemory, Text};
use std::alloc::{AllocError, Global};
use thiserror::Error;

/// Why a dial or a fetch failed.
#[derive(Clone, Copy, Debug, PartialEq, Eq, Error)]
pub enum DialFail {
    /// The dialer failed.
    #[error("the dialer failed")]
    Fault,
    /// There was no memory for the call.
    #[error("there was no memory")]
    NoMemory,
}

/// Why an exchange failed.
#[derive(Clone, Copy, Debug, PartialEq, Eq, Error)]
pub enum LinkFail {
    /// The link failed.
    #[error("the link failed")]
    Fault,
    /// There was no memory for the call.
    #[error("there was no memory")]
    NoMemory,
}

impl From<NoMemory> for DialFail {
    ghost use Rattle.edge_devices.specs.declared.dialers.DialFail.TheVariants.{NoMemory as NoMemoryFail};

    ghost from_gives = { λ _ fail. fail ≡ NoMemoryFail };

    fn from(_error: NoMemory) -> DialFail {
        DialFail::NoMemory
    }
}

impl From<AllocError> for DialFail {
    ghost use Rattle.edge_devices.specs.declared.dialers.DialFail.TheVariants.{NoMemory as NoMemoryFail};

    ghost from_gives = { λ _ fail. fail ≡ NoMemoryFail };

    fn from(_error: AllocError) -> DialFail {
        DialFail::NoMemory
    }
}

impl From<NoMemory> for LinkFail {
    ghost use Rattle.edge_devices.specs.declared.dialers.LinkFail.TheVariants.{NoMemory as NoMemoryFail};

    ghost from_gives = { λ _ fail. fail ≡ NoMemoryFail };

    fn from(_error: NoMemory) -> LinkFail {
        LinkFail::NoMemory
    }
}

impl From<AllocError> for LinkFail {
    ghost use Rattle.edge_devices.specs.declared.dialers.LinkFail.TheVariants.{NoMemory as NoMemoryFail};

    ghost from_gives = { λ _ fail. fail ≡ NoMemoryFail };

    fn from(_error: AllocError) -> LinkFail {
        LinkFail::NoMemory
    }
}

/// A call of a dialer with its answer. Where the dialer failed there is none.
#[derive(Drop)]
pub enum DialerCall {
    /// An endpoint was dialled with these headers, or not. The number of the link is the place of this call in the
    /// list of calls.
    Dial(Endpoint, Headers, bool),
    /// A question was asked through the link of that number.
    Exchange(u64, Blob, Option<Blob>),
    /// A file was fetched.
    Fetch(Text, Option<Blob>),
    /// A message that had come unasked on the link of that number was taken, or none where none had.
    Arrived(u64, Option<Option<Blob>>),
}

/// What reaches servers. A call that answers want of memory isn't told, but it is counted, so that none that was never
/// made can be told as one.
pub trait Dialer {
    /// A connection to a server.
    type Link: Drop;

    // The calls with their answers, and the counts of those that answered a fault and of those that answered want of memory.
    ghost state: { Self → DialerState };

    // The number of a link, by which its exchanges are told.
    ghost number: { Self.Link → ℕ };

    /// A link to that endpoint.
    fn dial(
        &mut self,
        alloc: Global,
        to: &Endpoint,
        headers: &Headers,
    ) -> Result<Self::Link, DialFail>
        ensures number { IfOk result (λ link. IsTrue (state self.new).told → number link ≡ length (state self.old).calls) }
        ensures call { Dials (state self.old) (state self.new) (λ link. DialerCall.Dial to.now headers.now (is_some link)) result };

    /// What the server answers to the question.
    fn exchange(
        &mut self,
        alloc: Global,
        link: &mut Self::Link,
        question: &[u8],
    ) -> Result<Blob, LinkFail>
        ensures number { number link.new ≡ number link.old }
        ensures call { Exchanges (state self.old) (state self.new) (DialerCall.Exchange (number link.old) question.now) result };

    /// The bytes of the file at that URL.
    fn fetch(&mut self, alloc: Global, url: &Text) -> Result<Blob, DialFail>
        ensures call { Dials (state self.old) (state self.new) (DialerCall.Fetch url.now) result };
}

/// What reaches servers that send unasked too.
pub trait PushDialer: Dialer {
    // The oldest message that has come unasked on the link by now, if there is one.
    ghost oldest: { Self → Self.Link → Option (List ℕ) };

    /// A message that came unasked on this link. None where none had come at that moment, exactly so where the dialer
    /// tells its contents.
    fn arrived(&mut self, alloc: Global, link: &mut Self::Link) -> Result<Option<Blob>, LinkFail>
        ensures number { Self.number link.new ≡ Self.number link.old }
        ensures call { Exchanges (Self.state self.old) (Self.state self.new) (DialerCall.Arrived (Self.number link.old)) result }
        ensures oldest { IfOk result (λ message. IsTrue (Self.state self.new).told → message ≡ oldest self.old link.old) };
}
