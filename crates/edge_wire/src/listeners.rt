//! The sockets at which connections are taken.

use crate::RETRY_MILLIS;
use edge_devices::Kind;
use mio::net::{TcpListener, TcpStream};
use mio::{Interest, Registry, Token};
use std::alloc::Global;
use std::io;
use std::io::ErrorKind;
use std::net::{Net, ToSocketAddrs};

// A socket that takes connections.
#[derive(Drop)]
struct Listening {
    kind: Kind,
    listener: TcpListener,
    // Connections may wait.
    ready: bool,
    // Before this time no connection is taken, in milliseconds.
    retry: u64,
}

/// The sockets that take connections, each with the kind of its connections.
#[derive(Drop)]
pub(crate) struct Listeners {
    rows: Vec<Listening>,
}

impl Listeners {
    // None. Takes no memory.
    pub(crate) fn new(alloc: Global) -> Listeners {
        Listeners {
            rows: Vec::new(alloc),
        }
    }

    // Listens at the first address that the text names and that can be bound.
    pub(crate) fn add<R: Net>(
        &mut self,
        net: &R,
        registry: &Registry,
        kind: Kind,
        address: &str,
    ) -> io::Result<()> {
        let mut last = io::Error::from(ErrorKind::InvalidInput);
        for address in address.to_socket_addrs(net)? {
            match TcpListener::bind(net, address) {
                Ok(listener) => return self.push(registry, kind, listener),
                Err(error) => last = error,
            }
        }
        Err(last)
    }

    fn push(
        &mut self,
        registry: &Registry,
        kind: Kind,
        mut listener: TcpListener,
    ) -> io::Result<()> {
        let token = Token(self.rows.len());
        registry.register(&mut listener, token, Interest::READABLE)?;
        self.rows.push(Listening {
            kind,
            listener,
            ready: true,
            retry: 0,
        })?;
        Ok(())
    }

    // Whether a connection may wait that can be taken now.
    pub(crate) fn may_accept(&self, now: u64) -> bool {
        self.rows.iter().any(|row| row.ready && row.retry <= now)
    }

    // Whether a connection waits that can be taken later.
    pub(crate) fn waits(&self, now: u64) -> bool {
        self.rows.iter().any(|row| row.ready && row.retry > now)
    }

    // The socket with the token may have connections. False where there is none.
    pub(crate) fn note_ready(&mut self, token: usize) -> bool {
        match self.rows.get_mut(token) {
            Some(row) => {
                row.ready = true;
                true
            }
            None => false,
        }
    }

    // The next connection that waits. Where one can't be taken, as when the process has no descriptor left, its socket
    // is tried again a little later.
    pub(crate) fn accept(&mut self, now: u64) -> Option<(Kind, TcpStream)> {
        for row in self.rows.iter_mut() {
            if row.ready && row.retry <= now {
                match row.listener.accept() {
                    Ok((stream, _)) => return Some((row.kind, stream)),
                    Err(error) => row.set_back(error.kind(), now),
                }
            }
        }
        None
    }
}

impl Listening {
    // No connection could be taken. One that ended while it waited doesn't hold up the others.
    fn set_back(&mut self, kind: ErrorKind, now: u64) {
        match kind {
            ErrorKind::WouldBlock => self.ready = false,
            ErrorKind::Interrupted | ErrorKind::ConnectionAborted => {}
            _ => self.retry = now.saturating_add(RETRY_MILLIS),
        }
    }
}
