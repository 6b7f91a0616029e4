// Bytes that came and weren't used yet.
ghost use Rattle.std.specs.Prelude.{◌≡◌, ◌≤◌, ◌++◌, [], length, drop, IfOk, IfErr, OnOk, OnErr};
ghost use Rattle.edge_heads.specs.Parsing.{FoundIs, HeadFails};
ghost use Rattle.edge_heads.specs.Places.{IsKnown};

use crate::HEAD_LIMIT;
use crate::heads::{HeadFound, read_head};
use crate::places::{Place, place_behind, place_in};
use crate::values::{HttpFail, Side};
use bytes::BytesMut;
use std::alloc::{AllocError, Global};
use std::marker::Model;

/// Bytes that came and weren't used yet, at whose front a head may begin.
///
/// It keeps how far they are known to begin one. So a head that comes in many small pieces is parsed once for each of its
/// lines, and a few times more within a first line, and not once for each piece.
#[derive(Drop)]
pub struct HeadBuffer {
    bytes: BytesMut,
    side: Side,
    known: usize,
    place: Option<Place>,
}

impl Model for HeadBuffer {
    ghost use Rattle.std.specs.Prelude.{◌≤◌, length, take};
    ghost use Rattle.edge_heads.specs.Places.{Unused, IsKnown};

    ghost Value = { Unused };

    ghost view = { λ b. record { side = b.side; items = b.bytes.items } };

    ghost invariant = { λ b. (b.known ≤ length b.bytes.items) × IsKnown b.side b.place (take b.known b.bytes.items) };
}

impl HeadBuffer {
    /// No bytes yet. Takes no memory.
    pub fn new(alloc: Global, side: Side) -> HeadBuffer
        ensures made { result ≡ record { side = side; items = [] } }
    {
        HeadBuffer {
            bytes: BytesMut::new(alloc),
            side,
            known: 0,
            place: Some(Place::Blank),
        }
    }

    /// How many bytes there are. Takes no memory.
    pub fn len(&self) -> usize
        ensures value { result ≡ length self.now.items }
    {
        self.bytes.len()
    }

    /// The bytes in their order. Takes no memory.
    pub fn as_slice(&self) -> &[u8]
        ensures value { result.now ≡ self.now.items }
    {
        self.bytes.as_slice()
    }

    /// Puts a piece behind the others. Where there is no memory for it, nothing is put there.
    pub fn extend_from_slice(&mut self, piece: &[u8]) -> Result<(), AllocError>
        ensures ok { OnOk result (self.new ≡ record self.old { items = self.old.items ++ piece.now }) }
        ensures err { OnErr result (self.new ≡ self.old) }
    {
        self.bytes.extend_from_slice(piece)
    }

    /// Drops so many bytes at the front, which were used. Takes no memory.
    pub fn advance(&mut self, count: usize)
        requires within { count ≤ length self.old.items }
        ensures items { self.new.items ≡ drop count self.old.items }
        ensures side { self.new.side ≡ self.old.side }
    {
        self.known = 0;
        self.place = Some(Place::Blank);
        self.bytes.advance(count);
    }

    /// Reads the head at the front: it is there, or it is begun, or it fails (RFC 9112, sections 2 to 5).
    pub fn read_head(&mut self, alloc: Global) -> Result<HeadFound, HttpFail>
        ensures same { self.new ≡ self.old }
        ensures found { IfOk result (FoundIs self.old.side self.old.items) }
        ensures fails { IfErr result (HeadFails self.old.side self.old.items) }
    {
        let place = self.place_now();
        if place.is_some() {
            self.place = place;
            self.known = self.bytes.len();
            return Ok(HeadFound::More);
        }
        match read_head(alloc, self.side, self.bytes.as_slice()) {
            Err(why) => Err(why),
            Ok(HeadFound::Whole { head, form, len }) => Ok(HeadFound::Whole { head, form, len }),
            Ok(HeadFound::More) => {
                self.place = place_in(self.side, self.bytes.as_slice());
                self.known = self.bytes.len();
                Ok(HeadFound::More)
            }
        }
    }

    // Where the last of the bytes stands, if that is clear without reading the head again.
    fn place_now(&self) -> Option<Place>
        ensures { IsKnown self.now.side result self.now.items }
    {
        let bytes = self.bytes.as_slice();
        if bytes.len() >= HEAD_LIMIT {
            return None;
        }
        place_behind(self.side, self.place, &bytes[self.known..])
    }
}
