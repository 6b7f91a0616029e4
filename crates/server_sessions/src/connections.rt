//! The known connections of a wire, and what an event does to them.

ghost use Rattle.std.specs.Prelude.{◌≡◌, ◌++◌, [], ℕ, IsSome, IfOk, OnErr, OnOk, is_some, false};
ghost use Rattle.edge_devices.specs.Wires.{IsOpen};
ghost use Rattle.edge_devices.specs.declared.wires.WireEvent.TheVariants as event;
ghost use Rattle.edge_devices.specs.Clocks.{EntropyState};
ghost use Rattle.server_sessions.specs.Reports.{desk_of, host_of, silent};
ghost use Rattle.server_sessions.specs.Session.{Streams};
ghost use Rattle.server_sessions.specs.Wiring.{view_of};
ghost use Rattle.server_lines.specs.Sights.{numbers_in, sight_of};
ghost use Rattle.server_sessions.specs.declared.connection.Connection.TheVariants as connection;
ghost use Rattle.server_sessions.specs.Connections.{Admits, AreHeard, AreOpen, AreOpenBut, Forgets, IsFor, KeepsKnown, KeepsOpen, StandsFor, Steps, TakesLines, TakesPiece, ended_known, first_scene, known_at, scene_at, with_kept};
ghost use Rattle.server_sessions.specs.Pieces.{BeginsPiece, TakesFirst, is_staying};
ghost use Rattle.server_sessions.specs.Runs.{Gives, HalfDoes};

use crate::answers::Stepped;
use crate::bodies::RequestReader;
use crate::connection::{Connection, Front};
use crate::lines::serve_lines;
use crate::payloads::serve_payload;
use crate::requests::serve_requests;
use crate::sending::close_open;
use edge_devices::{Entropy, Kind, Wire, WireEvent};
use message_handlers::{Handler, Handlers};
use plain_values::{List, NoMemory};
use server_lines::Sightings;
use server_waves::ServerDesk;
use std::alloc::Global;
use std::collections::BTreeMap;
use std::marker::Model;
use std::mem;

/// The known connections of a wire: those that it opened and that haven't ended. Contracts see them in the order of their numbers,
/// each with what is kept of it.
#[derive(Drop)]
pub struct Connections {
    known: BTreeMap<u64, Connection>,
}

impl Model for Connections {
    ghost use Rattle.std.specs.Coded.{codes};
    ghost use Rattle.server_sessions.specs.contracts.connection.Connection as connection_;
    ghost use Rattle.server_sessions.specs.Connections.{Known};

    ghost Value = { Known };

    ghost coded = { Prim.hlevel (codes, connection_.the_row.coded) };

    ghost view = { λ l. l.known.entries };
}

// What becomes of bytes that came on a connection.
#[derive(Drop)]
enum Piece {
    // What they bring was served, and the connection stays or not.
    Served(bool),
    // They are an operator's, and the front of a line that was kept before them is lent.
    Lines(Front),
}

// Serves what the bytes bring on a connection, or lends the front of a line, where it is an operator's.
fn begin_piece<W: Wire, E: Entropy>(
    alloc: Global,
    connection: &mut Connection,
    desk: &mut ServerDesk,
    handlers: &Handlers,
    wire: &mut W,
    entropy: &mut E,
    noted: &mut Stepped,
    conn: u64,
    bytes: &[u8],
) -> Piece
    requires open { IsOpen (W.calls wire.old) conn }
    requires stop { noted.old.stop ≡ false }
    ensures begins { BeginsPiece (host_of answers desk.old.server.profile handlers.now) conn bytes.now result connection.old connection.new
        (scene_at (view_of (W.calls wire.old) (W.faults wire.old)) (E.state entropy.old) desk.old.server.table desk.old.rollouts noted.old)
        (scene_at (view_of (W.calls wire.new) (W.faults wire.new)) (E.state entropy.new) desk.new.server.table desk.new.rollouts noted.new) noted.new.stop }
    ensures open { KeepsOpen conn (W.calls wire.old) (W.calls wire.new) (is_staying result) }
    ensures ended { noted.new.ended ≡ noted.old.ended }
    ensures profile { desk.new.server.profile ≡ desk.old.server.profile }
{
    match connection {
        Connection::Http(reader) => Piece::Served(serve_requests(
            alloc, reader, desk, handlers, wire, entropy, noted, conn, bytes,
        )),
        Connection::Ws => Piece::Served(serve_payload(
            alloc, desk, handlers, wire, entropy, noted, conn, bytes,
        )),
        Connection::Operator(front) => Piece::Lines(mem::replace(front, Front::new(alloc))),
    }
}

// What is kept of a connection on which nothing came yet.
fn kept_for(alloc: Global, kind: Kind) -> Connection
    ensures { IsFor result (record { kind = kind; bytes = [] }) }
{
    match kind {
        Kind::Http => Connection::Http(RequestReader::new(alloc)),
        Kind::Ws => Connection::Ws,
        Kind::Operator => Connection::Operator(Front::new(alloc)),
    }
}

impl Connections {
    /// No connection is known. Takes no memory.
    pub fn new(alloc: Global) -> Connections
        ensures empty { result ≡ [] }
    {
        Connections {
            known: BTreeMap::new(alloc),
        }
    }

    // Knows a connection that was opened, or closes it where so many are known.
    fn admit<W: Wire>(
        &mut self,
        alloc: Global,
        limit: usize,
        wire: &mut W,
        conn: u64,
        kind: Kind,
    ) -> Result<(), NoMemory>
        requires own { IsOpen (W.calls wire.old) conn }
        requires open { AreOpen (W.calls wire.old) self.old }
        ensures admits { OnOk result (Admits limit conn kind self.old self.new (view_of (W.calls wire.old) (W.faults wire.old)) (view_of (W.calls wire.new) (W.faults wire.new))) }
        ensures open { OnOk result (AreOpen (W.calls wire.new) self.new) }
        ensures known { OnOk result ((other : ℕ) → IsSome (known_at self.old other) → IsSome (known_at self.new other)) }
        ensures err { OnErr result (wire.new ≡ wire.old) }
    {
        if self.known.contains_key(&conn) {
            return Ok(());
        }
        if self.known.len() >= limit {
            close_open(wire, conn);
            return Ok(());
        }
        self.known.insert(conn, kept_for(alloc, kind))?;
        Ok(())
    }

    // Keeps the front of a line of an operator's connection that is known.
    fn keep_front(&mut self, conn: u64, front: Front)
        requires known { IsSome (known_at self.old conn) }
        ensures kept { self.new ≡ with_kept self.old conn (connection.Operator front) }
    {
        if let Some(kept) = self.known.get_mut(&conn) {
            *kept = Connection::Operator(front);
        }
    }

    // Serves the lines that the bytes bring behind this front, which is lent, so that they are asked over all known connections. It tells
    // whether the connection stays.
    fn take_lines<W: Wire>(
        &mut self,
        alloc: Global,
        desk: &mut ServerDesk,
        seen: &Sightings,
        wire: &mut W,
        noted: &mut Stepped,
        conn: u64,
        mut front: Front,
        bytes: &[u8],
    ) -> bool
        requires known { IsSome (known_at self.old conn) }
        requires open { IsOpen (W.calls wire.old) conn }
        requires stop { noted.old.stop ≡ false }
        ensures takes { (drawn : EntropyState) → TakesLines (silent desk.old.server.profile) (sight_of seen.now (numbers_in self.old)) conn bytes.now front self.old self.new
            (scene_at (view_of (W.calls wire.old) (W.faults wire.old)) drawn desk.old.server.table desk.old.rollouts noted.old)
            (scene_at (view_of (W.calls wire.new) (W.faults wire.new)) drawn desk.new.server.table desk.new.rollouts noted.new)
            (record { stays = result; stop = noted.new.stop }) }
        ensures known { (other : ℕ) → IsSome (known_at self.new other) → IsSome (known_at self.old other) }
        ensures still { (other : ℕ) → IsSome (known_at self.old other) → IsSome (known_at self.new other) }
        ensures open { KeepsOpen conn (W.calls wire.old) (W.calls wire.new) result }
        ensures ended { noted.new.ended ≡ noted.old.ended }
        ensures profile { desk.new.server.profile ≡ desk.old.server.profile }
    {
        let stays = serve_lines(
            alloc,
            &mut front,
            desk,
            seen,
            &self.known,
            wire,
            noted,
            conn,
            bytes,
        );
        self.keep_front(conn, front);
        stays
    }

    // Serves what the bytes bring on a connection, if it is known, or lends the front of a line, where it is an operator's.
    fn take_first<W: Wire, E: Entropy>(
        &mut self,
        alloc: Global,
        desk: &mut ServerDesk,
        handlers: &Handlers,
        wire: &mut W,
        entropy: &mut E,
        noted: &mut Stepped,
        conn: u64,
        bytes: &[u8],
    ) -> Piece
        requires open { AreOpen (W.calls wire.old) self.old }
        requires stop { noted.old.stop ≡ false }
        ensures takes { TakesFirst (host_of answers desk.old.server.profile handlers.now) conn bytes.now result self.old self.new
            (scene_at (view_of (W.calls wire.old) (W.faults wire.old)) (E.state entropy.old) desk.old.server.table desk.old.rollouts noted.old)
            (scene_at (view_of (W.calls wire.new) (W.faults wire.new)) (E.state entropy.new) desk.new.server.table desk.new.rollouts noted.new) noted.new.stop }
        ensures known { (other : ℕ) → IsSome (known_at self.new other) → IsSome (known_at self.old other) }
        ensures still { (other : ℕ) → IsSome (known_at self.old other) → IsSome (known_at self.new other) }
        ensures open { IsSome (known_at self.old conn) → KeepsOpen conn (W.calls wire.old) (W.calls wire.new) (is_staying result) }
        ensures ended { noted.new.ended ≡ noted.old.ended }
        ensures profile { desk.new.server.profile ≡ desk.old.server.profile }
    {
        let Some(connection) = self.known.get_mut(&conn) else {
            return Piece::Served(true);
        };
        begin_piece(
            alloc, connection, desk, handlers, wire, entropy, noted, conn, bytes,
        )
    }

    // Serves what the bytes bring. It tells whether the connection stays, or is none that is known.
    fn take<W: Wire, E: Entropy>(
        &mut self,
        alloc: Global,
        desk: &mut ServerDesk,
        seen: &Sightings,
        handlers: &Handlers,
        wire: &mut W,
        entropy: &mut E,
        noted: &mut Stepped,
        conn: u64,
        bytes: &[u8],
    ) -> bool
        requires open { AreOpen (W.calls wire.old) self.old }
        requires stop { noted.old.stop ≡ false }
        ensures takes { TakesPiece (host_of answers desk.old.server.profile handlers.now) seen.now conn bytes.now self.old self.new
            (scene_at (view_of (W.calls wire.old) (W.faults wire.old)) (E.state entropy.old) desk.old.server.table desk.old.rollouts noted.old)
            (scene_at (view_of (W.calls wire.new) (W.faults wire.new)) (E.state entropy.new) desk.new.server.table desk.new.rollouts noted.new)
            (record { stays = result; stop = noted.new.stop }) }
        ensures known { (other : ℕ) → IsSome (known_at self.new other) → IsSome (known_at self.old other) }
        ensures still { (other : ℕ) → IsSome (known_at self.old other) → IsSome (known_at self.new other) }
        ensures open { IsSome (known_at self.old conn) → KeepsOpen conn (W.calls wire.old) (W.calls wire.new) result }
        ensures ended { noted.new.ended ≡ noted.old.ended }
        ensures profile { desk.new.server.profile ≡ desk.old.server.profile }
    {
        match self.take_first(alloc, desk, handlers, wire, entropy, noted, conn, bytes) {
            Piece::Served(stays) => stays,
            Piece::Lines(front) => {
                self.take_lines(alloc, desk, seen, wire, noted, conn, front, bytes)
            }
        }
    }

    /// Knows the connection no more, as behind a `Closed` of it, and tells whether it was known. Takes no memory.
    pub fn forget(&mut self, conn: u64) -> bool
        ensures forgets { Forgets conn self.old self.new }
        ensures known { result ≡ is_some (known_at self.old conn) }
    {
        self.known.remove(&conn).is_some()
    }

    // Knows the connection no more, and notes it where it was known.
    fn end(&mut self, conn: u64, ended: &mut List<u64>) -> Result<(), NoMemory>
        ensures forgets { Forgets conn self.old self.new }
        ensures ended { OnOk result (ended.new ≡ ended.old ++ ended_known conn self.old) }
    {
        if self.forget(conn) {
            ended.push(conn)?;
        }
        Ok(())
    }

    fn step_opened<W: Wire>(
        &mut self,
        alloc: Global,
        limit: usize,
        wire: &mut W,
        conn: u64,
        kind: Kind,
    ) -> Result<Stepped, NoMemory>
        requires open { AreOpenBut (W.calls wire.old) (event.Opened conn kind) self.old }
        ensures stepped { IfOk result (λ stepped. stepped ≡ record { stop = false; handled = []; ordered = []; entries = []; ended = [] }) }
        ensures admits { OnOk result (Admits limit conn kind self.old self.new (view_of (W.calls wire.old) (W.faults wire.old)) (view_of (W.calls wire.new) (W.faults wire.new))) }
        ensures open { OnOk result (AreOpen (W.calls wire.new) self.new) }
        ensures known { OnOk result ((other : ℕ) → IsSome (known_at self.old other) → IsSome (known_at self.new other)) }
        ensures err { OnErr result (wire.new ≡ wire.old) }
    {
        self.admit(alloc, limit, wire, conn, kind)?;
        Ok(Stepped::nothing(alloc))
    }

    fn step_closed(&mut self, alloc: Global, conn: u64) -> Result<Stepped, NoMemory>
        ensures forgets { Forgets conn self.old self.new }
        ensures stepped { IfOk result (λ stepped. stepped ≡ record { stop = false; handled = []; ordered = []; entries = []; ended = ended_known conn self.old }) }
    {
        let mut noted = Stepped::nothing(alloc);
        self.end(conn, &mut noted.ended)?;
        Ok(noted)
    }

    fn step_piece<W: Wire, E: Entropy>(
        &mut self,
        alloc: Global,
        desk: &mut ServerDesk,
        seen: &Sightings,
        handlers: &Handlers,
        wire: &mut W,
        entropy: &mut E,
        conn: u64,
        bytes: &[u8],
    ) -> Result<Stepped, NoMemory>
        requires open { AreOpen (W.calls wire.old) self.old }
        ensures steps { IfOk result (λ stepped. Steps (host_of answers desk.old.server.profile handlers.now) seen.now (event.Piece conn bytes.now) self.old self.new
            (first_scene (view_of (W.calls wire.old) (W.faults wire.old)) (E.state entropy.old) desk.old.server.table desk.old.rollouts)
            (scene_at (view_of (W.calls wire.new) (W.faults wire.new)) (E.state entropy.new) desk.new.server.table desk.new.rollouts stepped) stepped) }
        ensures wanting { OnErr result ((streams : Streams) → StandsFor self.old streams
            → HalfDoes (host_of answers desk.old.server.profile handlers.now) seen.now (event.Piece conn bytes.now)
            (record { streams = streams; wire = view_of (W.calls wire.old) (W.faults wire.old); desk = desk_of (E.state entropy.old) desk.old.server.table desk.old.rollouts })
            (view_of (W.calls wire.new) (W.faults wire.new)) (desk_of (E.state entropy.new) desk.new.server.table desk.new.rollouts)) }
        ensures open { OnOk result (AreOpen (W.calls wire.new) self.new) }
        ensures known { IfOk result (λ stepped. KeepsKnown self.old self.new stepped.ended) }
        ensures profile { desk.new.server.profile ≡ desk.old.server.profile }
    {
        let mut noted = Stepped::nothing(alloc);
        if self.take(
            alloc, desk, seen, handlers, wire, entropy, &mut noted, conn, bytes,
        ) {
            return Ok(noted);
        }
        self.end(conn, &mut noted.ended)?;
        Ok(noted)
    }

    /// Does what is due for an event of the wire: `specs/Session.antt` says what that is. The server says how many connections are
    /// known at most. The known connections are open at the wire, but for one that the event closes. Lines are asked over what is seen of the agents and over these
    /// connections.
    ///
    /// # Errors
    ///
    /// `NoMemory` alone, where memory is wanting for what is kept of a connection or for `Stepped`. Then nothing was done for the
    /// event, or all that is due. Want of memory for one message is no error: it gets the constant answer of its kind, and its
    /// connection is closed.
    pub fn step<W: Wire, E: Entropy>(
        &mut self,
        alloc: Global,
        desk: &mut ServerDesk,
        seen: &Sightings,
        handlers: &Handlers,
        wire: &mut W,
        entropy: &mut E,
        happening: WireEvent,
    ) -> Result<Stepped, NoMemory>
        requires open { AreOpenBut (W.calls wire.old) happening self.old }
        ensures steps { IfOk result (λ stepped. Steps (host_of answers desk.old.server.profile handlers.now) seen.now happening self.old self.new
            (first_scene (view_of (W.calls wire.old) (W.faults wire.old)) (E.state entropy.old) desk.old.server.table desk.old.rollouts)
            (scene_at (view_of (W.calls wire.new) (W.faults wire.new)) (E.state entropy.new) desk.new.server.table desk.new.rollouts stepped) stepped) }
        ensures wanting { OnErr result ((streams : Streams) → StandsFor self.old streams
            → HalfDoes (host_of answers desk.old.server.profile handlers.now) seen.now happening
            (record { streams = streams; wire = view_of (W.calls wire.old) (W.faults wire.old); desk = desk_of (E.state entropy.old) desk.old.server.table desk.old.rollouts })
            (view_of (W.calls wire.new) (W.faults wire.new)) (desk_of (E.state entropy.new) desk.new.server.table desk.new.rollouts)) }
        ensures open { OnOk result (AreOpen (W.calls wire.new) self.new) }

        // None of its calls gives an event.
        ensures calls { IfOk result (λ stepped. (streams : Streams) → StandsFor self.old streams
            → Gives (view_of (W.calls wire.old) (W.faults wire.old)) (view_of (W.calls wire.new) (W.faults wire.new)) []) }

        // The reports that were answered without error came on the connection of the event.
        ensures handled { IfOk result (λ stepped. (streams : Streams) → StandsFor self.old streams → AreHeard self.old happening stepped.handled) }
        ensures known { IfOk result (λ stepped. KeepsKnown self.old self.new stepped.ended) }

        // What the server says of itself stays.
        ensures profile { desk.new.server.profile ≡ desk.old.server.profile }
    {
        match happening {
            WireEvent::Opened { conn, kind } => {
                let limit = desk.server.connections();
                self.step_opened(alloc, limit, wire, conn, kind)
            }
            WireEvent::Piece { conn, bytes } => self.step_piece(
                alloc,
                desk,
                seen,
                handlers,
                wire,
                entropy,
                conn,
                bytes.as_slice(),
            ),
            WireEvent::Closed { conn } => self.step_closed(alloc, conn),
        }
    }
}
