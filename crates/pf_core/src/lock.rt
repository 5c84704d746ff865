//! Tries for a node.
ghost use Rattle.std.specs.Prelude.{◌≡◌, ◌<◌, ◌+◌, ◌^◌, IfOk, OnErr, length, slice_set, true};
ghost use Rattle.pf_core_model.specs.Sharers.{kept_in};
ghost use Rattle.pf_core_model.specs.declared.event.Event.{Event};
ghost use Rattle.pf_core.specs.Tables.{node_at, seat_at, is_lead, held_node, more_held};
ghost use Rattle.pf_core.specs.Gates.{can_lock, other_holder};
ghost use Rattle.pf_core.specs.Shown.{IsShownState, IsAct, Stays};

use crate::reading::{is_clear, is_free, word_at};
use crate::state::State;
use crate::tables::{Node, Seat};
use crate::word::Word;
use pf_core_model::{Sharer, Verdict};
use pf_geom::NoMemory;
use pf_rings::Star;
use std::alloc::Global;

// Whether a clear actor tries for a node that is free.
fn is_lockable(nodes: &[Node], seats: &[Seat], a: u32, n: u32) -> bool
    requires { a < length seats.now }
    ensures { result ≡ can_lock nodes.now seats.now a n }
{
    is_clear(&seats[a as usize]) && is_free(nodes, n)
}

// The first star of these copies once more.
fn first_star(alloc: Global, list: &[Sharer]) -> Result<Option<Star>, NoMemory>
    ensures { IfOk result (λ x. x ≡ kept_in list.now) }
{
    match list.first() {
        Some(s) => Ok(Some(s.star.copied(alloc)?)),
        None => Ok(None),
    }
}

// The keeper's copy of a node once more.
fn kept_star(alloc: Global, nodes: &[Node], n: u32) -> Result<Option<Star>, NoMemory>
    requires { n < length nodes.now }
    ensures { IfOk result (λ x. x ≡ kept_in (node_at nodes.now n).list) }
{
    let node = &nodes[n as usize];
    first_star(alloc, node.list.list())
}

// The actor holds the node, with this star.
fn hold(nodes: &mut Vec<Node>, n: u32, by: u32, star: Option<Star>)
    requires { n < length nodes.old.items }
    ensures { nodes.new.items ≡ slice_set nodes.old.items n (held_node by star (node_at nodes.old.items n)) }
{
    let node = &mut nodes[n as usize];
    node.word = Word::Held { by };
    node.star = star;
}

// The actor holds a node more.
fn count_one(seats: &mut Vec<Seat>, a: u32)
    requires near { a < length seats.old.items }
    requires room { (seat_at seats.old.items a).held + 1 < 2 ^ 32 }
    ensures { seats.new.items ≡ slice_set seats.old.items a (more_held (seat_at seats.old.items a)) }
{
    let seat = &mut seats[a as usize];
    seat.held += 1;
}

/// The actor `a` tries for the node `n`, which is to be free.
pub fn lock(alloc: Global, s: &mut State, a: u32, n: u32) -> Result<Verdict, NoMemory>
    requires sound { IsShownState s.old }
    requires actor { is_lead s.old.seats.items a ≡ true }
    ensures took { IfOk result (λ v. IsAct (Event.Lock a n) s.old v s.new) }
    ensures same { OnErr result (Stays s.old s.new) }
{
    if !is_lockable(&s.nodes, &s.seats, a, n) {
        return Ok(Verdict::Ignored);
    }
    let star = kept_star(alloc, &s.nodes, n)?;
    hold(&mut s.nodes, n, a, star);
    count_one(&mut s.seats, a);
    Ok(Verdict::Taken { value: None })
}

// The other actor that holds a node.
fn holder_of(nodes: &[Node], a: u32, n: u32) -> Option<u32>
    ensures { result ≡ other_holder nodes.now a n }
{
    match word_at(nodes, n) {
        Word::Held { by } => { if by == a { None } else { Some(by) } }
        _ => None,
    }
}

/// The actor `a` tries for the node `n`, which another is to hold.
pub fn lose(s: &State, a: u32, n: u32) -> Verdict
    ensures { IsAct (Event.Lost a n) s.now result s.now }
{
    match holder_of(&s.nodes, a, n) {
        Some(k) => Verdict::Taken { value: Some(k) },
        None => Verdict::Ignored,
    }
}
