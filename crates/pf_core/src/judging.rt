//! What an actor judges from the stars that it holds.
ghost use Rattle.std.specs.Prelude.{◌≡◌, ◌&&◌, ◌||◌, Option, is_some, is_none, min, max};
ghost use Rattle.std.specs.Option.{option_map};
ghost use Rattle.pf_model.specs.Mesh.{Undivided};
ghost use Rattle.pf_model.specs.Conforming.{IsConforming};
ghost use Rattle.pf_model.specs.Conditions.{apex_or};
ghost use Rattle.pf_model.specs.Ends.{first_end, second_end};
ghost use Rattle.pf_star_model.specs.Lent.{IsShown};
ghost use Rattle.pf_star_model.specs.Judged.{judged, judged_ends, left_seen};
ghost use Rattle.pf_star_model.specs.Cavity.{needed};
ghost use Rattle.pf_rings.specs.Points.{left_side};
ghost use Rattle.pf_core.specs.Tables.{holds, star_seen};
ghost use Rattle.pf_core.specs.Gates.{is_apex_by, can_judge_at, can_make_by, IsShownTo};

use crate::lent::Lent;
use crate::reading::is_held;
use crate::tables::{Node, Seat};
use pf_cavity::{Need, need};
use pf_model::{Band, Cond, Op, Spoke};
use pf_rings::{Rings, spoke_to};

/// The first condition that an operation fails, by the stars that are lent.
pub fn judge<R: Rings>(r: &R, bands: &[Band], chunk: u16, op: Op) -> Option<Cond>
    ensures { (m : Undivided) → IsConforming m → IsShown (R.lent r.now) m (first_end op) → result ≡ judged (R.lent r.now) bands.now chunk op }
{
    match op {
        Op::Flip { a, b } => pf_flip::judge(r, chunk, a, b),
        Op::Bisect { a, b } => pf_bisect::judge(r, bands, chunk, a, b),
        Op::Contract { u, v } => pf_contract::judge(r, bands, chunk, u, v),
    }
}

// The left of a spoke, and 0 where there is none.
fn apex_of(spoke: Option<Spoke>) -> u32
    ensures { result ≡ apex_or (option_map left_side spoke) }
{
    match spoke {
        Some(s) => s.left,
        None => 0,
    }
}

// The apex of the triangle left of the edge from the lower end to the higher one.
fn left_apex<R: Rings>(r: &R, a: u32, b: u32) -> u32
    ensures { result ≡ apex_or (left_seen (R.lent r.now) (min a b) (max a b)) }
{
    match r.ring(a.min(b)) {
        Some(ring) => apex_of(spoke_to(ring.spokes(), a.max(b))),
        None => 0,
    }
}

// Whether the left apex of a flip whose other conditions pass is held.
fn has_apex(nodes: &[Node], seats: &[Seat], a: u32, chunk: u16, op: Op) -> bool
    ensures { result ≡ is_apex_by (holds nodes.now seats.now a) (star_seen nodes.now seats.now a) chunk op }
{
    let lent = Lent {
        nodes,
        seats,
        actor: a,
    };
    match op {
        Op::Flip { a: p, b: q } => {
            pf_flip::judge_ends(&lent, chunk, p, q).is_some()
                || is_held(nodes, seats, a, left_apex(&lent, p, q))
        }
        _ => true,
    }
}

// The end that is named first.
fn first_of(op: Op) -> u32
    ensures { result ≡ first_end op }
{
    match op {
        Op::Flip { a, .. } => a,
        Op::Bisect { a, .. } => a,
        Op::Contract { u, .. } => u,
    }
}

// The other end.
fn second_of(op: Op) -> u32
    ensures { result ≡ second_end op }
{
    match op {
        Op::Flip { b, .. } => b,
        Op::Bisect { b, .. } => b,
        Op::Contract { v, .. } => v,
    }
}

// Whether the operation can be judged from what the actor holds.
fn is_judgeable(nodes: &[Node], seats: &[Seat], a: u32, chunk: u16, op: Op) -> bool
    ensures { result ≡ can_judge_at nodes.now seats.now a chunk op }
{
    is_held(nodes, seats, a, first_of(op))
        && (is_held(nodes, seats, a, second_of(op)) && has_apex(nodes, seats, a, chunk, op))
}

// Whether the operation fails, by what the actor holds.
fn is_failing(nodes: &[Node], seats: &[Seat], bands: &[Band], a: u32, chunk: u16, op: Op) -> bool
    ensures { (m : Undivided) → IsConforming m → IsShown (star_seen nodes.now seats.now a) m (first_end op)
        → result ≡ is_some (judged (star_seen nodes.now seats.now a) bands.now chunk op) }
{
    let lent = Lent {
        nodes,
        seats,
        actor: a,
    };
    judge(&lent, bands, chunk, op).is_some()
}

/// Whether the actor can judge the operation, and it fails.
pub fn is_refused(
    nodes: &[Node],
    seats: &[Seat],
    bands: &[Band],
    a: u32,
    chunk: u16,
    op: Op,
) -> bool
    ensures { (m : Undivided) → IsShownTo nodes.now seats.now a op m
        → result ≡ (can_judge_at nodes.now seats.now a chunk op && is_some (judged (star_seen nodes.now seats.now a) bands.now chunk op)) }
{
    is_judgeable(nodes, seats, a, chunk, op) && is_failing(nodes, seats, bands, a, chunk, op)
}

// Whether each node of the cavity is lent.
fn is_whole<R: Rings>(r: &R, op: Op) -> bool
    ensures { result ≡ is_none (needed (R.lent r.now) op) }
{
    match need(r, op) {
        Need::Whole => true,
        Need::Hold { .. } => false,
    }
}

// The same of what the actor holds.
fn is_cavity_held(nodes: &[Node], seats: &[Seat], a: u32, op: Op) -> bool
    ensures { result ≡ is_none (needed (star_seen nodes.now seats.now a) op) }
{
    let lent = Lent {
        nodes,
        seats,
        actor: a,
    };
    is_whole(&lent, op)
}

/// Whether the actor holds the cavity with its stars, and the operation passes.
pub fn is_makeable(
    nodes: &[Node],
    seats: &[Seat],
    bands: &[Band],
    a: u32,
    chunk: u16,
    op: Op,
) -> bool
    ensures { (m : Undivided) → IsShownTo nodes.now seats.now a op m → result ≡ can_make_by (star_seen nodes.now seats.now a) bands.now chunk op }
{
    is_cavity_held(nodes, seats, a, op) && !is_failing(nodes, seats, bands, a, chunk, op)
}
