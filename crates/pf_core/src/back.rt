//! Nodes that are put back, and new nodes that are held as any other from now on.
ghost use Rattle.std.specs.Prelude.{◌≡◌, ◌<◌, ◌&&◌, not, is_some, None, length, slice_set, true};
ghost use Rattle.pf_core_model.specs.State.{owes_of};
ghost use Rattle.pf_core_model.specs.declared.event.Event.{Event};
ghost use Rattle.pf_core.specs.Tables.{node_at, seat_at, is_lead, is_this, put_back_node, born_node, less_held, born_seat};
ghost use Rattle.pf_core.specs.Gates.{can_return, can_release, can_bury, can_birth};
ghost use Rattle.pf_core.specs.Shown.{IsShownState, IsAct};

use crate::reading::{is_held_by, is_same};
use crate::state::State;
use crate::tables::{Node, Seat};
use crate::word::Word;
use pf_core_model::Verdict;

// Whether the actor owes no copy of the node, and has no unborn one.
fn is_paid(seat: &Seat, n: u32) -> bool
    ensures { result ≡ (not (owes_of n seat.now.owed) && not (is_some seat.now.unborn)) }
{
    !seat.owed.owes(n) && seat.unborn.is_none()
}

// Whether the actor can put the node back.
fn is_returnable(nodes: &[Node], seats: &[Seat], a: u32, n: u32) -> bool
    requires { a < length seats.now }
    ensures { result ≡ can_return nodes.now seats.now a n }
{
    is_held_by(nodes, n, a) && is_paid(&seats[a as usize], n)
}

// Whether a star is held of the node.
fn has_star(nodes: &[Node], n: u32) -> bool
    ensures { result ≡ is_some (node_at nodes.now n).star }
{
    match nodes.get(n as usize) {
        Some(node) => node.star.is_some(),
        None => false,
    }
}

// Whether the actor can put the node back with its star.
fn is_releasable(nodes: &[Node], seats: &[Seat], a: u32, n: u32) -> bool
    requires { a < length seats.now }
    ensures { result ≡ can_release nodes.now seats.now a n }
{
    is_returnable(nodes, seats, a, n) && has_star(nodes, n)
}

// Whether the actor can put the node back, which has no star any more.
fn is_buriable(nodes: &[Node], seats: &[Seat], a: u32, n: u32) -> bool
    requires { a < length seats.now }
    ensures { result ≡ can_bury nodes.now seats.now a n }
{
    is_returnable(nodes, seats, a, n) && !has_star(nodes, n)
}

// Nobody holds the node any more: its word becomes this one.
fn free_node(nodes: &mut Vec<Node>, n: u32, word: Word)
    requires { n < length nodes.old.items }
    ensures { nodes.new.items ≡ slice_set nodes.old.items n (put_back_node word (node_at nodes.old.items n)) }
{
    let node = &mut nodes[n as usize];
    node.word = word;
    node.star = None;
}

// The actor holds a node less.
fn count_star(seats: &mut Vec<Seat>, a: u32)
    requires { a < length seats.old.items }
    ensures { seats.new.items ≡ slice_set seats.old.items a (less_held (seat_at seats.old.items a).absent (seat_at seats.old.items a)) }
{
    let seat = &mut seats[a as usize];
    seat.held = seat.held.saturating_sub(1);
}

// The actor holds a node less, and none as absent any more.
fn count_absence(seats: &mut Vec<Seat>, a: u32)
    requires { a < length seats.old.items }
    ensures { seats.new.items ≡ slice_set seats.old.items a (less_held None (seat_at seats.old.items a)) }
{
    let seat = &mut seats[a as usize];
    seat.held = seat.held.saturating_sub(1);
    seat.absent = None;
}

/// The actor `a` puts back the node `n`, which has a star.
pub fn release(s: &mut State, a: u32, n: u32) -> Verdict
    requires { is_lead s.old.seats.items a ≡ true }
    ensures { IsAct (Event.Release a n) s.old result s.new }
{
    if !is_releasable(&s.nodes, &s.seats, a, n) {
        return Verdict::Ignored;
    }
    free_node(&mut s.nodes, n, Word::Free);
    count_star(&mut s.seats, a);
    Verdict::Taken { value: None }
}

/// The actor `a` puts back the node `n`, which has no star any more.
pub fn bury(s: &mut State, a: u32, n: u32) -> Verdict
    requires { is_lead s.old.seats.items a ≡ true }
    ensures { IsAct (Event.Bury a n) s.old result s.new }
{
    if !is_buriable(&s.nodes, &s.seats, a, n) {
        return Verdict::Ignored;
    }
    free_node(&mut s.nodes, n, Word::Dead);
    count_absence(&mut s.seats, a);
    Verdict::Taken { value: None }
}

// Whether the node is the actor's unborn one, and its copies are put.
fn is_due(seats: &[Seat], a: u32, n: u32) -> bool
    requires { a < length seats.now }
    ensures { result ≡ can_birth seats.now a n }
{
    let seat = &seats[a as usize];
    is_same(seat.unborn, n) && !seat.owed.owes(n)
}

// The node is the actor's from now on.
fn bear_node(nodes: &mut Vec<Node>, n: u32, by: u32)
    requires { n < length nodes.old.items }
    ensures { nodes.new.items ≡ slice_set nodes.old.items n (born_node by (node_at nodes.old.items n)) }
{
    let node = &mut nodes[n as usize];
    node.word = Word::Held { by };
}

// The actor has no unborn node any more.
fn clear_unborn(seats: &mut Vec<Seat>, a: u32)
    requires { a < length seats.old.items }
    ensures { seats.new.items ≡ slice_set seats.old.items a (born_seat (seat_at seats.old.items a)) }
{
    let seat = &mut seats[a as usize];
    seat.unborn = None;
}

/// The new node `n` of the actor `a` is held as any other from now on.
pub fn bear(s: &mut State, a: u32, n: u32) -> Verdict
    requires sound { IsShownState s.old }
    requires actor { is_lead s.old.seats.items a ≡ true }
    ensures { IsAct (Event.Birth a n) s.old result s.new }
{
    if !is_due(&s.seats, a, n) {
        return Verdict::Ignored;
    }
    bear_node(&mut s.nodes, n, a);
    clear_unborn(&mut s.seats, a);
    Verdict::Taken { value: None }
}
