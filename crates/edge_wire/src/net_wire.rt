//! A wire over sockets.

ghost use Rattle.std.specs.Prelude.{◌≡◌, None};

use crate::PLACES;
use crate::board::Board;
use crate::counts::raised;
use crate::faults::fault_of;
use edge_devices::{Given, Kind, Lost, Wire, WireFail, WireFault};
use plain_values::Text;
use std::alloc::Global;
use std::net::Net;
use std::time::Clock;

/// A wire over TCP sockets, in one thread. It tells no calls.
///
/// `next` waits for the sockets; its only fault is that this wait fails, or that nothing is listened to. An event's second
/// is that of the runtime's monotonic clock, as it was read last before the event. `send` loses a connection that isn't open, whose socket failed, or on which more than 67,108,864 bytes would wait.
#[derive(Drop)]
pub struct NetWire<R> {
    board: Board<R>,
    faults: u64,
}

impl<R: Net + Clock + Drop> NetWire<R> {
    /// Nothing is listened to, and 1,280 connections have a place at most. Takes no memory, and touches nothing outside.
    pub fn new(alloc: Global, runtime: R) -> NetWire<R>
        ensures no_faults { result.faults ≡ 0 }
    {
        NetWire::with_places(alloc, runtime, PLACES)
    }

    /// Nothing is listened to, and so many connections have a place at most, or 131,072 where the number passes these.
    /// Others wait with the system until a place is free. Takes no memory, and touches nothing outside: memory for
    /// places is taken as connections come.
    pub fn with_places(alloc: Global, runtime: R, places: usize) -> NetWire<R>
        ensures no_faults { result.faults ≡ 0 }
    {
        NetWire {
            board: Board::new(alloc, runtime, places),
            faults: 0,
        }
    }
}

impl<R: Net + Clock + Drop> Wire for NetWire<R> {
    ghost calls = { λ _. None };

    ghost faults = { λ s. s.faults };

    fn listen(&mut self, kind: Kind, address: &Text) -> Result<(), WireFault> {
        match self.board.listen(kind, address.as_str()) {
            Ok(()) => Ok(()),
            Err(error) => {
                self.faults = raised(self.faults);
                Err(fault_of(&error))
            }
        }
    }

    fn next(&mut self, alloc: Global) -> Result<Given, WireFail> {
        match self.board.next(alloc) {
            Ok(given) => Ok(given),
            Err(_) => {
                self.faults = raised(self.faults);
                Err(WireFail::Fault)
            }
        }
    }

    fn send(&mut self, conn: u64, bytes: &[u8]) -> Result<(), Lost> {
        if self.board.send(conn, bytes) {
            Ok(())
        } else {
            self.faults = raised(self.faults);
            Err(Lost)
        }
    }

    fn close(&mut self, conn: u64) {
        self.board.close(conn);
    }
}
