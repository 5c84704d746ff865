//! The triangles at the edge of an operation, looked for once.
ghost use Rattle.std.specs.Prelude.{◌≡◌, IfSome, min, max};
ghost use Rattle.std.specs.Option.{option_map};
ghost use Rattle.pf_patch.specs.Plans as spec;
ghost use Rattle.pf_patch.specs.Plans.{AreInRange, edge_by};

use pf_geom::Point;
use pf_model::{Op, Spoke};
use pf_rings::{Rings, Star, spoke_from, spoke_to};

/// Where the lower end of an edge stands, and its triangles on the left and on the right of the edge.
#[derive(Clone, Copy, Debug)]
pub struct Edge {
    pub at: Point,
    pub left: Option<Spoke>,
    pub right: Option<Spoke>,
}

// The triangles at the edge of a star's node to `hi`.
fn edge_in(star: &Star, hi: u32) -> Edge
    ensures value { result ≡ spec.edge_in hi star.now }
    ensures in_range { AreInRange result }
{
    let left = spoke_to(star.spokes(), hi);
    let right = spoke_from(star.spokes(), hi);
    Edge {
        at: star.at(),
        left,
        right,
    }
}

// The triangles at an edge, by the star of its lower end, where that is lent.
fn edge_between<R: Rings>(r: &R, a: u32, b: u32) -> Option<Edge>
    ensures value { result ≡ option_map (spec.edge_in (max a b)) (R.lent r.now (min a b)) }
    ensures in_range { IfSome result AreInRange }
{
    match r.ring(a.min(b)) {
        Some(ring) => Some(edge_in(ring.star(), a.max(b))),
        None => None,
    }
}

/// The triangles at the edge of an operation, where the star of its lower end is lent. A contraction goes over
/// its fan.
pub fn edge_of<R: Rings>(r: &R, op: Op) -> Option<Edge>
    ensures value { result ≡ edge_by (R.lent r.now) op }
    ensures in_range { IfSome result AreInRange }
{
    match op {
        Op::Flip { a, b } => edge_between(r, a, b),
        Op::Bisect { a, b } => edge_between(r, a, b),
        Op::Contract { u: _, v: _ } => None,
    }
}

/// How many triangles the node has, where its star is lent.
pub fn degree<R: Rings>(r: &R, n: u32) -> usize {
    match r.ring(n) {
        Some(ring) => ring.spokes().len(),
        None => 0,
    }
}
