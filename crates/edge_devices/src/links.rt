//! Links by their states: one that can be asked, and one that is dead.

ghost use Rattle.std.specs.Prelude.{◌≡◌, IfOk, IfErr, IsTrue, Ok, Err};
ghost use Rattle.edge_devices.specs.Dialers.{Exchanges, exchange_of};
ghost use Rattle.edge_devices.specs.declared.dialers.DialerCall.TheVariants.{Arrived, Exchange};

use crate::dialers::{Dialer, LinkFail, PushDialer};
use plain_values::Blob;
use std::alloc::Global;
use std::marker::Model;

/// Why a link is dead.
#[derive(Clone, Copy, Debug, PartialEq, Eq)]
pub enum DeadCause {
    /// Its last exchange answered a fault.
    LinkFault,
    /// There was no memory for its last exchange.
    NoMemory,
}

/// A link that can be asked, which contracts see as the link.
#[derive(Drop)]
pub struct Idle<L> {
    link: L,
}

impl<L> Model for Idle<L> {
    ghost Value = { L };

    ghost coded = { L.code };

    ghost view = { λ idle. idle.link };
}

/// A link whose exchange failed, which contracts see as the cause. It has no call that asks, so that an answer that
/// comes late is never taken for that of another question.
// No must-fail edit shows it, since `self.ask()` in a method of `Dead` doesn't compile: "no method named `ask` found for
// type `Dead<L>`". An edit has to compile, so that it is the prover that refuses it.
#[derive(Drop)]
pub struct Dead<L> {
    link: L,
    cause: DeadCause,
}

impl<L> Model for Dead<L> {
    ghost use Rattle.edge_devices.specs.declared.links.DeadCause as causes;

    ghost Value = { causes.DeadCause };

    ghost view = { λ dead. dead.cause };
}

impl<L: Drop> Idle<L> {
    /// A link that was never asked. Takes no memory.
    pub fn new(link: L) -> Idle<L>
        ensures link { result ≡ link }
    {
        Idle { link }
    }

    /// Makes one exchange through the link and gives its answer. The link is dead exactly where that exchange
    /// failed. Takes no memory of its own.
    pub fn ask<G: Dialer<Link = L>>(
        self,
        alloc: Global,
        dialer: &mut G,
        question: &[u8],
    ) -> Result<(Idle<L>, Blob), Dead<L>>
        ensures link { IfOk result (λ asked. G.number asked.0 ≡ G.number self) }
        ensures exchange { Exchanges (G.state dialer.old) (G.state dialer.new) (Exchange (G.number self) question.now) (exchange_of result) }
    {
        let mut link = self.link;
        match dialer.exchange(alloc, &mut link, question) {
            Ok(answer) => Ok((Idle { link }, answer)),
            Err(LinkFail::Fault) => Err(Dead {
                link,
                cause: DeadCause::LinkFault,
            }),
            Err(LinkFail::NoMemory) => Err(Dead {
                link,
                cause: DeadCause::NoMemory,
            }),
        }
    }

    /// Takes one message that came unasked through the link, or none where none had come by then. The link is dead
    /// exactly where that call failed. Takes no memory of its own.
    pub fn arrived<G: PushDialer<Link = L>>(
        self,
        alloc: Global,
        dialer: &mut G,
    ) -> Result<(Idle<L>, Option<Blob>), Dead<L>>
        ensures link { IfOk result (λ heard. G.number heard.0 ≡ G.number self) }
        ensures exchange { Exchanges (G.state dialer.old) (G.state dialer.new) (Arrived (G.number self)) (exchange_of result) }
        ensures oldest { IfOk result (λ heard. IsTrue (G.state dialer.new).told → heard.1 ≡ G.oldest dialer.old self) }
    {
        let mut link = self.link;
        match dialer.arrived(alloc, &mut link) {
            Ok(message) => Ok((Idle { link }, message)),
            Err(LinkFail::Fault) => Err(Dead {
                link,
                cause: DeadCause::LinkFault,
            }),
            Err(LinkFail::NoMemory) => Err(Dead {
                link,
                cause: DeadCause::NoMemory,
            }),
        }
    }
}

impl<L> Dead<L> {
    /// Why the link is dead. Takes no memory.
    pub fn cause(&self) -> DeadCause
        ensures cause { result ≡ self.now }
    {
        self.cause
    }
}
