//! What an operation takes out of the held stars and puts into them.
ghost use Rattle.std.specs.Prelude.{◌≡◌, ℕ, ◌∷◌, [], ◌++◌, All, IfOk, IfSome, OnOk, Option, Some};
ghost use Rattle.pf_geom.specs.Plane.{IsInRange};
ghost use Rattle.pf_model.specs.declared.Op.TheVariants.{Flip, Bisect, Contract};
ghost use Rattle.pf_model.specs.Stars as model;
ghost use Rattle.pf_star_model.specs.Lent.{has_name};
ghost use Rattle.pf_spokes.specs.Spokes.{HasSpots};
ghost use Rattle.pf_patch.specs.Tris.{HasCorners, HasSpot};
ghost use Rattle.pf_patch.specs.Plans as spec;
ghost use Rattle.pf_patch.specs.Plans.{AreInRange, edge_by, cut_on, moved_of, flip_triangles_on, flip_triangles, moved, middle_or, end_at, halves, left_halves, right_halves};
ghost use Rattle.pf_patch.specs.Made.{IsPlan};

use crate::edge::{Edge, degree};
use crate::tris::{Corner, Gone, NewTri};
use pf_geom::{NoMemory, Point, middle};
use pf_model::{Op, Spoke};
use pf_rings::{Rings, Star, spoke_from, spoke_to};
use std::alloc::Global;

const ORIGIN: Point = Point { x: 0, y: 0 };

// The name of the new node in a patch. Each name of a held star is below it.
const LATER: u32 = u32::MAX;

/// What an operation does: which triangles are taken out, and which are put in, the node that goes, and the one
/// that comes.
#[derive(Debug, Drop)]
pub struct Plan {
    pub gone: Gone,
    pub added: Vec<NewTri>,
    pub dead: Option<u32>,
    pub born: Option<Corner>,
}

fn right_of(s: &Spoke) -> Corner
    ensures { result ≡ spec.right_of s.now }
{
    Corner {
        name: s.right,
        at: s.right_at,
    }
}

fn left_of(s: &Spoke) -> Corner
    ensures { result ≡ spec.left_of s.now }
{
    Corner {
        name: s.left,
        at: s.left_at,
    }
}

fn tri(p: Corner, q: Corner, z: Corner, owner: u16) -> NewTri
    ensures { result ≡ spec.tri p q z owner }
{
    NewTri { p, q, z, owner }
}

// Adds a triangle to the list.
fn push(list: &mut Vec<NewTri>, t: NewTri) -> Result<(), NoMemory>
    ensures { OnOk result (list.new.items ≡ list.old.items ++ t ∷ []) }
{
    list.push(t).map_err(|_| NoMemory)?;
    Ok(())
}

// Where the other end of the edge stands, whose triangles these are.
fn end_of(left: Option<Spoke>, right: Option<Spoke>) -> Point
    requires left { IfSome left HasSpots }
    requires right { IfSome right HasSpots }
    ensures value { result ≡ end_at left right }
    ensures in_range { IsInRange result }
{
    match left {
        Some(l) => l.right_at,
        None => match right {
            Some(r) => r.left_at,
            None => ORIGIN,
        },
    }
}

// The middle of two points, and the origin where it isn't whole.
fn middle_of(p: Point, q: Point) -> Point
    requires p { IsInRange p }
    requires q { IsInRange q }
    ensures value { result ≡ middle_or p q }
    ensures in_range { IsInRange result }
{
    match middle(p, q) {
        Some(at) => at,
        None => ORIGIN,
    }
}

// Adds what a flip puts in, where the triangles at the edge are these.
fn turn(
    list: &mut Vec<NewTri>,
    lo: Corner,
    left: Option<Spoke>,
    right: Option<Spoke>,
) -> Result<(), NoMemory>
    ensures { OnOk result (list.new.items ≡ list.old.items ++ flip_triangles lo left right) }
{
    let Some(l) = left else {
        return Ok(());
    };
    let Some(r) = right else {
        return Ok(());
    };
    push(list, tri(lo, right_of(&r), left_of(&l), l.owner))?;
    push(list, tri(right_of(&l), left_of(&l), right_of(&r), r.owner))?;
    Ok(())
}

// Adds the halves of a triangle.
fn halve(
    list: &mut Vec<NewTri>,
    n: Corner,
    p: Corner,
    q: Corner,
    apex: Corner,
    owner: u16,
) -> Result<(), NoMemory>
    ensures { OnOk result (list.new.items ≡ list.old.items ++ halves n p q apex owner) }
{
    push(list, tri(p, n, apex, owner))?;
    push(list, tri(n, q, apex, owner))?;
    Ok(())
}

// Adds the halves of the triangle on the left.
fn halve_left(
    list: &mut Vec<NewTri>,
    n: Corner,
    lo: Corner,
    hi: Corner,
    left: Option<Spoke>,
) -> Result<(), NoMemory>
    ensures { OnOk result (list.new.items ≡ list.old.items ++ left_halves n lo hi left) }
{
    if let Some(l) = left {
        halve(list, n, lo, hi, left_of(&l), l.owner)?;
    }
    Ok(())
}

// Adds the halves of the triangle on the right.
fn halve_right(
    list: &mut Vec<NewTri>,
    n: Corner,
    lo: Corner,
    hi: Corner,
    right: Option<Spoke>,
) -> Result<(), NoMemory>
    ensures { OnOk result (list.new.items ≡ list.old.items ++ right_halves n lo hi right) }
{
    if let Some(r) = right {
        halve(list, n, hi, lo, right_of(&r), r.owner)?;
    }
    Ok(())
}

// Whether the spoke has this node.
fn is_with(s: &Spoke, v: u32) -> bool
    ensures { result ≡ has_name v s.now }
{
    s.right == v || s.left == v
}

// Adds the triangles of the spokes without `v`, with `v` in the place of their node.
fn move_to(list: &mut Vec<NewTri>, v: Corner, spokes: &[Spoke]) -> Result<(), NoMemory>
    ensures { OnOk result (list.new.items ≡ list.old.items ++ moved v spokes.now) }
{
    for s in spokes {
        if !is_with(s, v.name) {
            push(list, tri(v, right_of(s), left_of(s), s.owner))?;
        }
    }
    Ok(())
}

// Adds what a flip puts in.
fn turn_edge(list: &mut Vec<NewTri>, edge: &Edge, lo: u32) -> Result<(), NoMemory>
    requires list { list.old.items ≡ [] }
    requires in_range { AreInRange edge.now }
    ensures tris { OnOk result (list.new.items ≡ flip_triangles_on lo (Some edge.now)) }
    ensures corners { OnOk result (All HasCorners list.new.items) }
{
    let at_lo = Corner {
        name: lo,
        at: edge.at,
    };
    turn(list, at_lo, edge.left, edge.right)?;
    Ok(())
}

// The node that a bisection makes.
fn born_on(edge: &Edge) -> Corner
    requires { AreInRange edge.now }
    ensures value { result ≡ spec.born_on (Some edge.now) }
    ensures in_range { HasSpot result }
{
    let at_hi = end_of(edge.left, edge.right);
    Corner {
        name: LATER,
        at: middle_of(edge.at, at_hi),
    }
}

// Adds what a bisection puts in.
fn cut_edge(
    list: &mut Vec<NewTri>,
    edge: &Edge,
    born: Corner,
    lo: u32,
    hi: u32,
) -> Result<(), NoMemory>
    requires list { list.old.items ≡ [] }
    requires edge { AreInRange edge.now }
    requires born { born ≡ spec.born_on (Some edge.now) }
    requires in_range { HasSpot born }
    ensures tris { OnOk result (list.new.items ≡ cut_on lo hi (Some edge.now)) }
    ensures corners { OnOk result (All HasCorners list.new.items) }
{
    let at_lo = Corner {
        name: lo,
        at: edge.at,
    };
    let at_hi = Corner {
        name: hi,
        at: end_of(edge.left, edge.right),
    };
    halve_left(list, born, at_lo, at_hi, edge.left)?;
    halve_right(list, born, at_lo, at_hi, edge.right)?;
    Ok(())
}

// Adds what a contraction puts in, by the star of the node that goes.
fn move_star(list: &mut Vec<NewTri>, star: &Star, v: u32) -> Result<(), NoMemory>
    requires { list.old.items ≡ [] }
    ensures tris { OnOk result (list.new.items ≡ moved_of v (Some star.now)) }
    ensures corners { OnOk result (All HasCorners list.new.items) }
{
    let left = spoke_to(star.spokes(), v);
    let right = spoke_from(star.spokes(), v);
    let at_v = Corner {
        name: v,
        at: end_of(left, right),
    };
    move_to(list, at_v, star.spokes())?;
    Ok(())
}

// What a flip does.
fn flip_plan(alloc: Global, edge: &Option<Edge>, a: u32, b: u32) -> Result<Plan, NoMemory>
    requires { IfSome edge.now AreInRange }
    ensures { IfOk result (λ p. (lent : ℕ → Option model.Star) → edge.now ≡ edge_by lent (Flip a b) → IsPlan lent (Flip a b) p) }
{
    let (lo, hi) = (a.min(b), a.max(b));
    let mut added = Vec::with_capacity(alloc, 2).map_err(|_| NoMemory)?;
    if let Some(e) = edge {
        turn_edge(&mut added, e, lo)?;
    }
    Ok(Plan {
        gone: Gone::AtEdge { p: lo, q: hi },
        added,
        dead: None,
        born: None,
    })
}

// What a bisection does.
fn bisect_plan(alloc: Global, edge: &Option<Edge>, a: u32, b: u32) -> Result<Plan, NoMemory>
    requires { IfSome edge.now AreInRange }
    ensures { IfOk result (λ p. (lent : ℕ → Option model.Star) → edge.now ≡ edge_by lent (Bisect a b) → IsPlan lent (Bisect a b) p) }
{
    let (lo, hi) = (a.min(b), a.max(b));
    let mut added = Vec::with_capacity(alloc, 4).map_err(|_| NoMemory)?;
    let mut born = Corner {
        name: LATER,
        at: ORIGIN,
    };
    if let Some(e) = edge {
        born = born_on(e);
        cut_edge(&mut added, e, born, lo, hi)?;
    }
    Ok(Plan {
        gone: Gone::AtEdge { p: lo, q: hi },
        added,
        dead: None,
        born: Some(born),
    })
}

// What a contraction does.
fn contract_plan<R: Rings>(alloc: Global, r: &R, u: u32, v: u32) -> Result<Plan, NoMemory>
    ensures { IfOk result (IsPlan (R.lent r.now) (Contract u v)) }
{
    let mut added = Vec::with_capacity(alloc, degree(r, u)).map_err(|_| NoMemory)?;
    if let Some(ring) = r.ring(u) {
        move_star(&mut added, ring.star(), v)?;
    }
    Ok(Plan {
        gone: Gone::AtNode { u },
        added,
        dead: Some(u),
        born: None,
    })
}

/// What the operation does, by the triangles at its edge, or by the star of the node that goes.
pub fn plan_of<R: Rings>(
    alloc: Global,
    r: &R,
    op: Op,
    edge: &Option<Edge>,
) -> Result<Plan, NoMemory>
    requires edge { edge.now ≡ edge_by (R.lent r.now) op }
    requires in_range { IfSome edge.now AreInRange }
    ensures { IfOk result (IsPlan (R.lent r.now) op) }
{
    match op {
        Op::Flip { a, b } => flip_plan(alloc, edge, a, b),
        Op::Bisect { a, b } => bisect_plan(alloc, edge, a, b),
        Op::Contract { u, v } => contract_plan(alloc, r, u, v),
    }
}
