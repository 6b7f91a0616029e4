//! A dialer over sockets.

ghost use Rattle.std.specs.Prelude.{◌≡◌, ◌≤◌};
ghost use Rattle.edge_devices.specs.Faults.{HasRisen};

use crate::counts::raised;
use crate::failures::dial_fail;
use crate::http_link::{HttpLink, fetch_file};
use crate::targets::fetch_target;
use crate::ws_link::WsLink;
use edge_devices::{DialFail, Dialer, Endpoint, LinkFail, PushDialer};
use plain_values::{Blob, Headers, Text};
use std::alloc::Global;
use std::net::Net;
use std::random::RandomSource;
use std::time::Clock;

/// How a link speaks to its server.
#[derive(Drop)]
enum Channel<R: Net> {
    /// By requests and responses.
    Http(HttpLink<R>),
    /// By messages.
    Ws(WsLink<R>),
}

/// A link over a socket.
#[derive(Drop)]
pub struct NetLink<R: Net> {
    channel: Channel<R>,
}

/// A dialer over TCP sockets. It tells no calls.
///
/// A `dial` connects within 10 s for each address; on WebSocket it does the handshake too, within 10 s. An `exchange`
/// takes 10 s at most, a `fetch` 60 s beside its connect. Each failure but want of memory is a fault. A connection of HTTP
/// is kept for the next exchange only where the response lets it be and nothing at all came behind it.
#[derive(Drop)]
pub struct NetDialer<R> {
    runtime: R,
    // How many calls answered a fault, and how many want of memory.
    faults: u64,
    wants: u64,
}

impl<R> NetDialer<R> {
    /// No call yet. Takes no memory, and touches nothing outside.
    pub fn new(runtime: R) -> NetDialer<R>
        ensures no_faults { result.faults ≡ 0 }
        ensures no_wants { result.wants ≡ 0 }
    {
        NetDialer {
            runtime,
            faults: 0,
            wants: 0,
        }
    }

    // Counts a fault, or want of memory.
    fn failed(&mut self, fail: LinkFail) -> LinkFail
        ensures same { result ≡ fail }
        ensures count { self.old.faults ≤ self.new.faults }
        ensures fault { fail ≡ LinkFail.Fault → HasRisen self.old.faults self.new.faults }
        ensures no_fault { fail ≡ LinkFail.NoMemory → self.new.faults ≡ self.old.faults }
        ensures want_count { self.old.wants ≤ self.new.wants }
        ensures want { fail ≡ LinkFail.NoMemory → HasRisen self.old.wants self.new.wants }
        ensures no_want { fail ≡ LinkFail.Fault → self.new.wants ≡ self.old.wants }
    {
        match fail {
            LinkFail::Fault => self.faults = raised(self.faults),
            LinkFail::NoMemory => self.wants = raised(self.wants),
        }
        fail
    }
}

fn dial_on<R: Net + Clock + RandomSource + Copy + Drop>(
    alloc: Global,
    runtime: R,
    to: &Endpoint,
    headers: &Headers,
) -> Result<NetLink<R>, LinkFail> {
    let channel = if to.ws {
        Channel::Ws(WsLink::dial(alloc, runtime, to, headers)?)
    } else {
        Channel::Http(HttpLink::dial(alloc, runtime, to, headers)?)
    };
    Ok(NetLink { channel })
}

fn exchange_on<R: Net + Clock + RandomSource + Copy + Drop>(
    alloc: Global,
    runtime: R,
    link: &mut NetLink<R>,
    question: &[u8],
) -> Result<Blob, LinkFail> {
    match &mut link.channel {
        Channel::Http(http) => http.exchange(alloc, runtime, question),
        Channel::Ws(ws) => ws.exchange(alloc, question),
    }
}

// Over HTTP nothing comes unasked.
fn arrived_on<R: Net + Clock + RandomSource + Copy + Drop>(
    alloc: Global,
    link: &mut NetLink<R>,
) -> Result<Option<Blob>, LinkFail> {
    match &mut link.channel {
        Channel::Http(_) => Ok(None),
        Channel::Ws(ws) => ws.arrived(alloc),
    }
}

fn fetch_on<R: Net + Clock + Copy + Drop>(
    alloc: Global,
    runtime: R,
    url: &Text,
) -> Result<Blob, LinkFail> {
    let from = fetch_target(alloc, url.as_str())?;
    fetch_file(alloc, runtime, &from)
}

impl<R: Net + Clock + RandomSource + Copy + Drop> Dialer for NetDialer<R> {
    ghost use Rattle.edge_dialer.specs.Silent.{silent_dialer};

    type Link = NetLink<R>;

    ghost state = { λ dialer. silent_dialer dialer.faults dialer.wants };

    ghost number = { λ _. 0 };

    fn dial(
        &mut self,
        alloc: Global,
        to: &Endpoint,
        headers: &Headers,
    ) -> Result<NetLink<R>, DialFail> {
        match dial_on(alloc, self.runtime, to, headers) {
            Ok(link) => Ok(link),
            Err(fail) => Err(dial_fail(self.failed(fail))),
        }
    }

    fn exchange(
        &mut self,
        alloc: Global,
        link: &mut NetLink<R>,
        question: &[u8],
    ) -> Result<Blob, LinkFail> {
        match exchange_on(alloc, self.runtime, link, question) {
            Ok(answer) => Ok(answer),
            Err(fail) => Err(self.failed(fail)),
        }
    }

    fn fetch(&mut self, alloc: Global, url: &Text) -> Result<Blob, DialFail> {
        match fetch_on(alloc, self.runtime, url) {
            Ok(file) => Ok(file),
            Err(fail) => Err(dial_fail(self.failed(fail))),
        }
    }
}

impl<R: Net + Clock + RandomSource + Copy + Drop> PushDialer for NetDialer<R> {
    ghost use Rattle.std.specs.Prelude.{None};

    ghost oldest = { λ _ _. None };

    fn arrived(&mut self, alloc: Global, link: &mut NetLink<R>) -> Result<Option<Blob>, LinkFail> {
        match arrived_on(alloc, link) {
            Ok(message) => Ok(message),
            Err(fail) => Err(self.failed(fail)),
        }
    }
}
