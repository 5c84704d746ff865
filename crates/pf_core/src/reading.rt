//! What is read of the tables.
ghost use Rattle.std.specs.Prelude.{◌≡◌, ◌==◌, Option};
ghost use Rattle.std.specs.Option.{option_map};
ghost use Rattle.pf_core_model.specs.Core.{held_by};
ghost use Rattle.pf_core_model.specs.Sharers.{copy_in as copy_of};
ghost use Rattle.pf_core.specs.Tables.{word_code, word_seen, node_at, seat_at, is_clear_seat, is_lead, is_this, holds};

use crate::tables::{Node, Seat};
use crate::word::Word;
use pf_core_model::Sharer;
use pf_rings::Star;

/// The word of a name: `Never` for a name outside.
pub fn word_at(nodes: &[Node], n: u32) -> Word
    ensures { result ≡ word_seen nodes.now n }
{
    match nodes.get(n as usize) {
        Some(node) => node.word,
        None => Word::Never,
    }
}

/// Whether the node is free.
pub fn is_free(nodes: &[Node], n: u32) -> bool
    ensures { result ≡ (word_code (word_seen nodes.now n) == 0) }
{
    match word_at(nodes, n) {
        Word::Free => true,
        _ => false,
    }
}

/// Whether the name's word is `Never`.
pub fn is_never(nodes: &[Node], n: u32) -> bool
    ensures { result ≡ (word_code (word_seen nodes.now n) == 2) }
{
    match word_at(nodes, n) {
        Word::Never => true,
        _ => false,
    }
}

/// Whether the node's word is the actor's.
pub fn is_held_by(nodes: &[Node], n: u32, a: u32) -> bool
    ensures { result ≡ (word_code (word_seen nodes.now n) == held_by a) }
{
    match word_at(nodes, n) {
        Word::Held { by } => by == a,
        _ => false,
    }
}

// The copy of a chunk among these.
fn copy_among(list: &[Sharer], chunk: u16) -> Option<&Star>
    ensures { option_map (λ r. r.now) result ≡ copy_of list.now chunk }
{
    for s in list {
        if s.chunk == chunk {
            return Some(&s.star);
        }
    }
    None
}

/// A chunk's copy of a node.
pub fn copy_in(nodes: &[Node], chunk: u16, n: u32) -> Option<&Star>
    ensures { option_map (λ r. r.now) result ≡ copy_of (node_at nodes.now n).list chunk }
{
    match nodes.get(n as usize) {
        Some(node) => copy_among(node.list.list(), chunk),
        None => None,
    }
}

/// Whether the number is that of an actor.
pub fn is_actor(seats: &[Seat], a: u32) -> bool
    ensures { result ≡ is_lead seats.now a }
{
    match seats.get(a as usize) {
        Some(seat) => seat.lead == a,
        None => false,
    }
}

/// Whether the actor owes nothing, holds no absence and no unborn node.
pub fn is_clear(seat: &Seat) -> bool
    ensures { result ≡ is_clear_seat seat.now }
{
    seat.owed.is_empty() && (seat.absent.is_none() && seat.unborn.is_none())
}

/// Whether the name is this one.
pub fn is_same(name: Option<u32>, n: u32) -> bool
    ensures { result ≡ is_this name n }
{
    match name {
        Some(k) => k == n,
        None => false,
    }
}

// Whether the name is that of the actor's unborn node.
fn is_unborn(seats: &[Seat], a: u32, n: u32) -> bool
    ensures { result ≡ is_this (seat_at seats.now a).unborn n }
{
    match seats.get(a as usize) {
        Some(seat) => is_same(seat.unborn, n),
        None => false,
    }
}

/// Whether the actor holds the node: by its word, or as its unborn node.
pub fn is_held(nodes: &[Node], seats: &[Seat], a: u32, n: u32) -> bool
    ensures { result ≡ holds nodes.now seats.now a n }
{
    is_held_by(nodes, n, a) || is_unborn(seats, a, n)
}
