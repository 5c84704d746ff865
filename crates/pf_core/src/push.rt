//! Copies that are put.
ghost use Rattle.std.specs.Prelude.{◌≡◌, ◌<◌, IfOk, OnOk, OnErr, length, slice_set, true};
ghost use Rattle.pf_core_model.specs.declared.event.Event.{Event};
ghost use Rattle.pf_core_model.specs.Sharers.{put_copy};
ghost use Rattle.pf_core_model.specs.State.{without_owed};
ghost use Rattle.pf_star_model.specs.Copies.{due_copy};
ghost use Rattle.pf_core.specs.Tables.{node_at, seat_at, is_lead, listed_node, paid_seat};
ghost use Rattle.pf_core.specs.Gates.{can_push};
ghost use Rattle.pf_core.specs.Shown.{IsShownState, IsAct, Stays};

use crate::state::State;
use crate::tables::{Node, Seat};
use pf_core_model::Verdict;
use pf_dues::{due_of, put_listed};
use pf_geom::NoMemory;
use pf_rings::Star;
use std::alloc::Global;

// Puts a copy, or none, for the chunk into the list of a node's copies.
fn put_in(
    alloc: Global,
    nodes: &mut Vec<Node>,
    n: u32,
    chunk: u16,
    copy: Option<Star>,
) -> Result<(), NoMemory>
    requires { n < length nodes.old.items }
    ensures put { OnOk result (nodes.new.items ≡ slice_set nodes.old.items n (listed_node (put_copy chunk copy (node_at nodes.old.items n).list) (node_at nodes.old.items n))) }
    ensures same { OnErr result (nodes.new.items ≡ nodes.old.items) }
{
    let node = &mut nodes[n as usize];
    put_listed(alloc, &mut node.list, chunk, copy)
}

// The actor has put this copy.
fn pay(seats: &mut Vec<Seat>, a: u32, chunk: u16, n: u32)
    requires { a < length seats.old.items }
    ensures { seats.new.items ≡ slice_set seats.old.items a (paid_seat (without_owed chunk n (seat_at seats.old.items a).owed) (seat_at seats.old.items a)) }
{
    let seat = &mut seats[a as usize];
    seat.owed.pay(chunk, n);
}

// Whether the actor owes this copy.
fn is_owed(seats: &[Seat], a: u32, chunk: u16, n: u32) -> bool
    requires { a < length seats.now }
    ensures { result ≡ can_push seats.now a chunk n }
{
    seats[a as usize].owed.has(chunk, n)
}

// The copy that is due to a chunk by the star that is held of a node.
fn due_at(alloc: Global, nodes: &[Node], n: u32, chunk: u16) -> Result<Option<Star>, NoMemory>
    requires { n < length nodes.now }
    ensures { IfOk result (λ x. x ≡ due_copy chunk (node_at nodes.now n).star) }
{
    let node = &nodes[n as usize];
    due_of(alloc, &node.star, chunk)
}

/// The actor `a` puts the chunk's copy of the node `n`, which it owes.
pub fn push(alloc: Global, s: &mut State, a: u32, chunk: u16, n: u32) -> Result<Verdict, NoMemory>
    requires sound { IsShownState s.old }
    requires actor { is_lead s.old.seats.items a ≡ true }
    ensures took { IfOk result (λ v. IsAct (Event.Push a chunk n) s.old v s.new) }
    ensures same { OnErr result (Stays s.old s.new) }
{
    if !is_owed(&s.seats, a, chunk, n) {
        return Ok(Verdict::Ignored);
    }
    let copy = due_at(alloc, &s.nodes, n, chunk)?;
    match put_in(alloc, &mut s.nodes, n, chunk, copy) {
        Ok(()) => {
            pay(&mut s.seats, a, chunk, n);
            Ok(Verdict::Taken { value: None })
        }
        Err(_) => Err(NoMemory),
    }
}
