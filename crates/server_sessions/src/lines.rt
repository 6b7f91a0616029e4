//! Connections of an operator.

ghost use Rattle.std.specs.Prelude.{◌≡◌, ◌++◌, [], ◌∷◌, ℕ, MatchOption, length, nat_le, true, false};
ghost use Rattle.std.specs.Prelude.{List as Items};
ghost use Rattle.edge_devices.specs.Clocks.{EntropyState};
ghost use Rattle.edge_devices.specs.Wires.{IsOpen};
ghost use Rattle.edge_devices.specs.declared.wires.Kind.TheVariants as kind;
ghost use Rattle.server_lines.specs.Lines.{MeansOrder};
ghost use Rattle.server_lines.specs.Sights.{numbers_in, sight_of};
ghost use Rattle.server_core.specs.declared.replies.Profile.{Profile};
ghost use Rattle.server_sessions.specs.Answers.{Sheet};
ghost use Rattle.server_sessions.specs.Reports.{silent};
ghost use Rattle.server_sessions.specs.Session.{Serves, ServesAll, scene_of};
ghost use Rattle.server_sessions.specs.Streams.{IsOneLine, Line, ended_line, line_item, rest_items};
ghost use Rattle.server_sessions.specs.Wiring.{view_of};
ghost use Rattle.server_sessions.specs.Connections.{KeepsOpen, ServesLines, scene_at};

use crate::answers::{BAD_WORDS, LINE_LIMIT, LINE_NO_MEMORY, Stepped, run_noting};
use crate::connection::{Connection, Front};
use crate::sending::{close_open, send_answer};
use edge_devices::Wire;
use plain_values::NoMemory;
use server_lines::{Order, Sightings, read_line};
use server_waves::ServerDesk;
use std::alloc::Global;
use std::collections::BTreeMap;

// Serves a line that is an order. It tells whether the connection stays.
fn serve_order<W: Wire>(
    alloc: Global,
    desk: &mut ServerDesk,
    seen: &Sightings,
    known: &BTreeMap<u64, Connection>,
    wire: &mut W,
    noted: &mut Stepped,
    conn: u64,
    order: Order,
) -> bool
    requires open { IsOpen (W.calls wire.old) conn }
    requires stop { noted.old.stop ≡ false }
    ensures serves { (drawn : EntropyState) (line : Items ℕ) → MeansOrder line order → Serves (silent desk.old.server.profile) kind.Operator conn (Line line (sight_of seen.now (numbers_in known.now.entries)))
        (scene_at (view_of (W.calls wire.old) (W.faults wire.old)) drawn desk.old.server.table desk.old.rollouts noted.old) (scene_at (view_of (W.calls wire.new) (W.faults wire.new)) drawn desk.new.server.table desk.new.rollouts noted.new)
        (record { stays = result; stop = noted.new.stop }) }
    ensures open { KeepsOpen conn (W.calls wire.old) (W.calls wire.new) result }
    ensures ended { noted.new.ended ≡ noted.old.ended }
    ensures profile { desk.new.server.profile ≡ desk.old.server.profile }
{
    let stop = order.is_stop();
    match run_noting(
        alloc,
        desk,
        seen,
        known,
        &mut noted.ordered,
        &mut noted.entries,
        conn,
        order,
    ) {
        Ok(text) => {
            noted.stop = stop;
            send_answer(wire, conn, text.as_str().as_bytes(), false)
        }
        Err(NoMemory) => send_answer(wire, conn, &LINE_NO_MEMORY, true),
    }
}

// Serves a line. It tells whether the connection stays.
fn serve_line<W: Wire>(
    alloc: Global,
    desk: &mut ServerDesk,
    seen: &Sightings,
    known: &BTreeMap<u64, Connection>,
    wire: &mut W,
    noted: &mut Stepped,
    conn: u64,
    line: &[u8],
) -> bool
    requires open { IsOpen (W.calls wire.old) conn }
    requires stop { noted.old.stop ≡ false }
    ensures serves { (drawn : EntropyState) → Serves (silent desk.old.server.profile) kind.Operator conn (Line line.now (sight_of seen.now (numbers_in known.now.entries)))
        (scene_at (view_of (W.calls wire.old) (W.faults wire.old)) drawn desk.old.server.table desk.old.rollouts noted.old) (scene_at (view_of (W.calls wire.new) (W.faults wire.new)) drawn desk.new.server.table desk.new.rollouts noted.new)
        (record { stays = result; stop = noted.new.stop }) }
    ensures open { KeepsOpen conn (W.calls wire.old) (W.calls wire.new) result }
    ensures ended { noted.new.ended ≡ noted.old.ended }
    ensures profile { desk.new.server.profile ≡ desk.old.server.profile }
{
    match read_line(alloc, line) {
        Ok(Some(order)) => serve_order(alloc, desk, seen, known, wire, noted, conn, order),
        Ok(None) => send_answer(wire, conn, &BAD_WORDS, false),
        Err(NoMemory) => send_answer(wire, conn, &LINE_NO_MEMORY, true),
    }
}

// Whether a line that has these bytes behind what is kept of it isn't too long.
fn fits_line(front: &Front, more: &[u8]) -> bool
    ensures { result ≡ nat_le (length (front.now ++ more.now)) LINE_LIMIT }
{
    front.as_slice().len().saturating_add(more.len()) <= LINE_LIMIT
}

// Serves a line that stands behind what is kept of its front. It tells whether the connection stays.
fn serve_next<W: Wire>(
    alloc: Global,
    front: &mut Front,
    desk: &mut ServerDesk,
    seen: &Sightings,
    known: &BTreeMap<u64, Connection>,
    wire: &mut W,
    noted: &mut Stepped,
    conn: u64,
    segment: &[u8],
) -> bool
    requires open { IsOpen (W.calls wire.old) conn }
    requires stop { noted.old.stop ≡ false }
    ensures serves { (drawn : EntropyState) → Serves (silent desk.old.server.profile) kind.Operator conn (line_item (sight_of seen.now (numbers_in known.now.entries)) (front.old ++ segment.now))
        (scene_at (view_of (W.calls wire.old) (W.faults wire.old)) drawn desk.old.server.table desk.old.rollouts noted.old) (scene_at (view_of (W.calls wire.new) (W.faults wire.new)) drawn desk.new.server.table desk.new.rollouts noted.new)
        (record { stays = result; stop = noted.new.stop }) }
    ensures front { result ≡ true → front.new ≡ [] }
    ensures open { KeepsOpen conn (W.calls wire.old) (W.calls wire.new) result }
    ensures ended { noted.new.ended ≡ noted.old.ended }
    ensures profile { desk.new.server.profile ≡ desk.old.server.profile }
{
    if !fits_line(front, segment) {
        close_open(wire, conn);
        return false;
    }
    if front.append(segment).is_err() {
        return send_answer(wire, conn, &LINE_NO_MEMORY, true);
    }
    let stays = serve_line(
        alloc,
        desk,
        seen,
        known,
        wire,
        noted,
        conn,
        front.as_slice(),
    );
    front.clear();
    stays
}

// Keeps the front of a line behind what is kept of it. It tells whether the connection stays.
fn keep_rest<W: Wire>(front: &mut Front, wire: &mut W, conn: u64, rest: &[u8]) -> bool
    requires open { IsOpen (W.calls wire.old) conn }
    ensures serves { (profile : Profile) (sheet : Sheet) → ServesAll (silent profile) kind.Operator conn (rest_items (front.old ++ rest.now))
        (scene_of (view_of (W.calls wire.old) (W.faults wire.old)) sheet) (scene_of (view_of (W.calls wire.new) (W.faults wire.new)) sheet)
        (record { stays = result; stop = false }) }
    ensures front { result ≡ true → front.new ≡ front.old ++ rest.now }
    ensures open { KeepsOpen conn (W.calls wire.old) (W.calls wire.new) result }
{
    if !fits_line(front, rest) {
        close_open(wire, conn);
        return false;
    }
    if rest.is_empty() {
        return true;
    }
    if front.append(rest).is_err() {
        return send_answer(wire, conn, &LINE_NO_MEMORY, true);
    }
    true
}

// The first line and what stands behind its line feed; none where no line is whole.
fn cut_line(bytes: &[u8]) -> Option<(&[u8], &[u8])>
    ensures { MatchOption result (IsOneLine bytes.now) (λ p. (bytes.now ≡ ended_line p.0.now ++ p.1.now) × IsOneLine p.0.now) }
{
    match bytes.iter().position(|byte| *byte == 10) {
        Some(end) => Some((&bytes[..end], &bytes[end + 1..])),
        None => None,
    }
}

/// Serves the lines that the bytes make whole, and keeps the front of the next. It tells whether the connection stays.
pub fn serve_lines<W: Wire>(
    alloc: Global,
    front: &mut Front,
    desk: &mut ServerDesk,
    seen: &Sightings,
    known: &BTreeMap<u64, Connection>,
    wire: &mut W,
    noted: &mut Stepped,
    conn: u64,
    bytes: &[u8],
) -> bool
    requires open { IsOpen (W.calls wire.old) conn }
    requires stop { noted.old.stop ≡ false }
    ensures serves { IsOneLine front.old → (drawn : EntropyState) → ServesLines (silent desk.old.server.profile) (sight_of seen.now (numbers_in known.now.entries)) conn front.old bytes.now front.new
        (scene_at (view_of (W.calls wire.old) (W.faults wire.old)) drawn desk.old.server.table desk.old.rollouts noted.old) (scene_at (view_of (W.calls wire.new) (W.faults wire.new)) drawn desk.new.server.table desk.new.rollouts noted.new)
        (record { stays = result; stop = noted.new.stop }) }
    ensures open { KeepsOpen conn (W.calls wire.old) (W.calls wire.new) result }
    ensures ended { noted.new.ended ≡ noted.old.ended }
    ensures profile { desk.new.server.profile ≡ desk.old.server.profile }
{
    let mut left = bytes;
    'lines: while let Some((line, rest)) = cut_line(left) {
        let stays = serve_next(alloc, front, desk, seen, known, wire, noted, conn, line);
        left = rest;
        if !stays {
            return false;
        }
        if noted.stop {
            return true;
        }
    }
    keep_rest(front, wire, conn, left)
}
