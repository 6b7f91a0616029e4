//! A session of `serve` over reports that are read from standard input.

ghost use Rattle.std.specs.Prelude.{◌≡◌, ◌≤◌, ◌⊎◌, ◌^◌, ◌-◌, ◌<◌, ℕ};

use anyhow::anyhow;
use edge_devices::{
    Given, Kind, Lost, MemoryEntropy, Source, Wire, WireEvent, WireFail, WireFault,
};
use message_handlers::Handlers;
use message_values::CustomCapabilities;
use plain_values::{Blob, List, NoMemory, Text};
use server_core::Server;
use server_sessions::{ServeEnd, serve};
use server_waves::{Rollouts, ServerDesk};
use std::alloc::Global;

// The bytes that are taken from the source at once.
const BLOCK: usize = 65_536;

// The capabilities of `serve` (docs/PROTOCOL.md, "The server").
const CAPABILITIES: u64 = 0x3F;

/// What was sent.
#[derive(Clone, Copy)]
pub struct Sent {
    pub messages: u64,
    pub bytes: u64,
}

/// A wire with one connection, on which each frame is a piece: four bytes with its length, the highest first, and then the piece. At their end the wire
/// fails. It keeps nothing of what is sent but the counts, and tells no calls.
#[derive(Drop)]
pub struct FrameWire {
    kind: Kind,
    opened: bool,
    frames: Vec<u8>,
    at: usize,
    sent: Sent,
    faults: u64,
}

// The content of the frame at this place, where it is whole.
fn frame_at(frames: &[u8], at: usize) -> Option<&[u8]> {
    let (length, rest) = frames.get(at..)?.split_first_chunk::<4>()?;
    rest.get(..u32::from_be_bytes(*length) as usize)
}

impl Wire for FrameWire {
    ghost use Rattle.std.specs.Prelude.{None};

    ghost calls = { λ wire. None };

    ghost faults = { λ wire. wire.faults };

    fn listen(&mut self, _kind: Kind, _address: &Text) -> Result<(), WireFault> {
        Ok(())
    }

    fn next(&mut self, alloc: Global) -> Result<Given, WireFail> {
        if !self.opened {
            self.opened = true;
            let event = WireEvent::Opened {
                conn: 0,
                kind: self.kind,
            };
            return Ok(Given { at: 0, event });
        }
        let Some(piece) = frame_at(self.frames.as_slice(), self.at) else {
            self.faults = self.faults.saturating_add(1);
            return Err(WireFail::Fault);
        };
        let bytes = Blob::from_slice(alloc, piece)?;
        self.at = self.at.saturating_add(piece.len()).saturating_add(4);
        let event = WireEvent::Piece { conn: 0, bytes };
        Ok(Given { at: 0, event })
    }

    fn send(&mut self, _conn: u64, bytes: &[u8]) -> Result<(), Lost> {
        self.sent = Sent {
            messages: self.sent.messages.saturating_add(1),
            bytes: self.sent.bytes.saturating_add(bytes.len() as u64),
        };
        Ok(())
    }

    fn close(&mut self, _conn: u64) {}
}

// All bytes of the source.
fn read_whole<S: Source>(alloc: Global, source: &mut S) -> Result<Vec<u8>, anyhow::Error> {
    let mut block = vec![in alloc; 0u8; BLOCK]?;
    let mut whole = Vec::new(alloc);
    for _ in 0..u64::MAX {
        let Ok(count) = source.take(block.as_mut_slice()) else {
            return Err(anyhow!("the input can't be read"));
        };
        if count == 0 {
            break;
        }
        whole.extend_from_slice(&block.as_slice()[..count])?;
    }
    Ok(whole)
}

/// Serves the frames of the source as pieces of one connection of this kind, so many events at most, of which the first one opens the connection.
pub fn serve_frames<S: Source>(
    alloc: Global,
    source: &mut S,
    kind: Kind,
    turns: u64,
) -> Result<Sent, anyhow::Error> {
    let mut wire = FrameWire {
        kind,
        opened: false,
        frames: read_whole(alloc, source)?,
        at: 0,
        sent: Sent {
            messages: 0,
            bytes: 0,
        },
        faults: 0,
    };
    let custom = CustomCapabilities {
        capabilities: List::new(alloc),
    };
    let mut desk = ServerDesk {
        server: Server::new(alloc, CAPABILITIES, custom),
        rollouts: Rollouts::new(alloc),
    };
    let handlers = Handlers::new(alloc);
    let mut entropy = MemoryEntropy::new(alloc, Vec::new(alloc), Vec::new(alloc));
    match serve(alloc, &mut desk, &handlers, &mut wire, &mut entropy, turns) {
        Ok(_) | Err(ServeEnd::WireFault | ServeEnd::TurnsSpent) => Ok(wire.sent),
        Err(ServeEnd::NoMemory) => Err(anyhow!("there was no memory")),
    }
}
