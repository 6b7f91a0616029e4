//! Messages over a WebSocket connection.

ghost use Rattle.std.specs.Prelude.{◌≡◌, IfOk};

use crate::EXCHANGE_MILLIS;
use crate::failures::system_fail;
use crate::greeting::{Framed, greet};
use crate::messages::{arrived_binary, ask, pass_over};
use crate::timed::Allowed;
use edge_devices::{Endpoint, LinkFail};
use plain_values::{Blob, Headers};
use std::alloc::Global;
use std::net::Net;
use std::random::RandomSource;
use std::time::Clock;

/// A link over WebSocket.
#[derive(Drop)]
pub(crate) struct WsLink<R: Net> {
    socket: Framed<R>,
}

impl<R: Net + Clock + RandomSource + Copy + Drop> WsLink<R> {
    // A link to the endpoint, whose handshake is done.
    pub(crate) fn dial(
        alloc: Global,
        runtime: R,
        to: &Endpoint,
        headers: &Headers,
    ) -> Result<WsLink<R>, LinkFail> {
        Ok(WsLink {
            socket: greet(alloc, runtime, to, headers)?,
        })
    }

    // Sends the question as one binary message, and gives the next one that comes.
    pub(crate) fn exchange(&mut self, alloc: Global, question: &[u8]) -> Result<Blob, LinkFail> {
        let hurry = self.hurry()?;
        pass_over(&mut self.socket, hurry)?;
        match self.socket.get_mut().allow(EXCHANGE_MILLIS) {
            Ok(time) => ask(alloc, &mut self.socket, time, question),
            Err(error) => Err(system_fail(&error)),
        }
    }

    // A binary message that came unasked, if one had come by now. It never waits.
    pub(crate) fn arrived(&mut self, alloc: Global) -> Result<Option<Blob>, LinkFail> {
        let hurry = self.hurry()?;
        arrived_binary(alloc, &mut self.socket, hurry)
    }

    // Reads don't wait from now on.
    fn hurry(&mut self) -> Result<Allowed, LinkFail>
        ensures time { IfOk result (λ allowed. allowed.millis ≡ 0) }
    {
        match self.socket.get_mut().hurry() {
            Ok(allowed) => Ok(allowed),
            Err(error) => Err(system_fail(&error)),
        }
    }
}
