//! Operations that are made.
ghost use Rattle.std.specs.Prelude.{◌≡◌, ℕ, ◌<◌, ◌≤◌, ◌+◌, ◌^◌, ◌++◌, ◌∷◌, [], ◌&&◌, Contains, Option, OnOk, IfOk, OnErr, Some, length, map, slice_set, true};
ghost use Rattle.pf_model.specs.Mesh.{Undivided};
ghost use Rattle.pf_star_model.specs.Cavity.{cavity_of};
ghost use Rattle.pf_star_model.specs.Lent.{Held, IsShown};
ghost use Rattle.pf_star_model.specs.Laws.{CanApply, AreEndsShown};
ghost use Rattle.pf_star_model.specs.Patched.{patch_of};
ghost use Rattle.pf_core_model.specs.declared.event.Event.{Event};
ghost use Rattle.pf_core.specs.Tables.{node_at, seat_at, is_lead, star_seen};
ghost use Rattle.pf_core.specs.Gates.{can_commit, IsShownTo};
ghost use Rattle.pf_dues.specs.Owed.{owed_all};
ghost use Rattle.pf_core.specs.Making.{starred_node, starred, absent_by, born_by, count_by, committed_seat};
ghost use Rattle.pf_core.specs.Shown.{IsShownState as Sound, IsAct, Stays};

use crate::judging::is_makeable;
use crate::lent::Lent;
use crate::reading::is_clear;
use crate::state::State;
use crate::tables::{Node, Seat};
use pf_core_model::Verdict;
use pf_dues::{Debts, owed_after, rename_all};
use pf_geom::NoMemory;
use pf_model::{Band, Entry, Op};
use pf_patch::patch;
use pf_rings::NewStar;
use std::alloc::Global;

// Whether a clear actor with an allowance holds the cavity of an operation that passes.
fn is_committable(
    nodes: &[Node],
    seats: &[Seat],
    bands: &[Band],
    a: u32,
    chunk: u16,
    op: Op,
) -> bool
    requires { a < length seats.now }
    ensures { (m : Undivided) → IsShownTo nodes.now seats.now a op m → result ≡ can_commit nodes.now seats.now bands.now a chunk op }
{
    let seat = &seats[a as usize];
    is_clear(seat) && (seat.allowance > 0 && is_makeable(nodes, seats, bands, a, chunk, op))
}

// The new stars, by rising node, with this name for the new node.
fn fresh_stars(
    alloc: Global,
    nodes: &[Node],
    seats: &[Seat],
    a: u32,
    op: Op,
    name: u32,
) -> Result<Vec<NewStar>, NoMemory>
    ensures { IfOk result (λ v. (m : Undivided) (chunk ticket : ℕ) → CanApply m record { ticket = ticket; chunk = chunk; op = op } → AreEndsShown (star_seen nodes.now seats.now a) m op
        → ((n : ℕ) → Contains (cavity_of m chunk op) n → IsShown (star_seen nodes.now seats.now a) m n) → name ≡ m.first_new + ticket → m.first_new + ticket ≤ 4294967295
        → v.items ≡ patch_of (star_seen nodes.now seats.now a) name op) }
{
    let lent = Lent {
        nodes,
        seats,
        actor: a,
    };
    let pairs = patch(alloc, &lent, op)?;
    let fresh = rename_all(alloc, pairs, name)?;
    Ok(fresh)
}

// What is owed of these nodes by the actor that holds their stars.
fn debts_after(
    alloc: Global,
    nodes: &[Node],
    seats: &[Seat],
    a: u32,
    fresh: &[NewStar],
) -> Result<Debts, NoMemory>
    ensures { IfOk result (λ d. d ≡ owed_all (star_seen nodes.now seats.now a) fresh.now) }
{
    let lent = Lent {
        nodes,
        seats,
        actor: a,
    };
    let list = owed_after(alloc, &lent, fresh)?;
    Ok(Debts::of(list))
}

// Puts the star of a pair into the table.
fn put_star(nodes: &mut Vec<Node>, pair: NewStar)
    requires { pair.node < length nodes.old.items }
    ensures { nodes.new.items ≡ slice_set nodes.old.items pair.node (starred_node pair.star (node_at nodes.old.items pair.node)) }
{
    let NewStar { node, star } = pair;
    let place = &mut nodes[node as usize];
    place.star = star;
}

// The same of several, where the first of a node counts.
fn put_stars(nodes: &mut Vec<Node>, fresh: Vec<NewStar>)
    requires { (h : Held) → Contains fresh.items h → h.node < length nodes.old.items }
    ensures { nodes.new.items ≡ starred fresh.items nodes.old.items }
{
    let mut left = fresh;
    'stars: while let Some(pair) = left.pop() {
        put_star(nodes, pair);
    }
}

// The node that an operation leaves without a star.
fn absent_after(op: Op) -> Option<u32>
    ensures { result ≡ absent_by op }
{
    match op {
        Op::Contract { u, .. } => Some(u),
        _ => None,
    }
}

// The node that it makes, under this name.
fn born_after(op: Op, name: u32) -> Option<u32>
    ensures { result ≡ born_by op name }
{
    match op {
        Op::Bisect { .. } => Some(name),
        _ => None,
    }
}

// How many nodes it makes.
fn count_of(op: Op) -> u32
    ensures value { result ≡ count_by op }
    ensures few { result ≤ 1 }
{
    match op {
        Op::Bisect { .. } => 1,
        _ => 0,
    }
}

// The actor made the operation, and owes these copies.
fn count_operation(seats: &mut Vec<Seat>, a: u32, op: Op, name: u32, owed: Debts)
    requires near { a < length seats.old.items }
    requires room { (seat_at seats.old.items a).held + 1 < 2 ^ 32 }
    ensures { seats.new.items ≡ slice_set seats.old.items a (committed_seat op name owed (seat_at seats.old.items a)) }
{
    let more = count_of(op);
    let absent = absent_after(op);
    let unborn = born_after(op, name);
    let seat = &mut seats[a as usize];
    seat.allowance = seat.allowance.saturating_sub(1);
    seat.held += more;
    seat.absent = absent;
    seat.unborn = unborn;
    seat.owed = owed;
}

/// The actor `a` makes an operation for a chunk.
pub fn commit(alloc: Global, s: &mut State, a: u32, chunk: u16, op: Op) -> Result<Verdict, NoMemory>
    requires sound { Sound s.old }
    requires actor { is_lead s.old.seats.items a ≡ true }
    ensures took { IfOk result (λ v. IsAct (Event.Commit a chunk op) s.old v s.new) }
    ensures same { OnErr result (Stays s.old s.new) }
{
    if !is_committable(&s.nodes, &s.seats, &s.bands, a, chunk, op) {
        return Ok(Verdict::Ignored);
    }
    let ticket = s.log.len() as u32;
    let name = s.first_new + ticket;
    let fresh = fresh_stars(alloc, &s.nodes, &s.seats, a, op, name)?;
    let owed = debts_after(alloc, &s.nodes, &s.seats, a, &fresh)?;
    if s.log.reserve(1).is_err() {
        return Err(NoMemory);
    }
    put_stars(&mut s.nodes, fresh);
    count_operation(&mut s.seats, a, op, name, owed);
    s.log.push_reserved(Entry { ticket, chunk, op });
    Ok(Verdict::Taken {
        value: Some(ticket),
    })
}
