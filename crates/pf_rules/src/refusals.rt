//! The first condition that an operation fails, by values: the sides of its edge, points, spokes and bands. The
//! edge table and the list of edges fetch them and ask here.
ghost use Rattle.std.specs.Prelude.{◌≡◌, ℕ, All, List, Option};
ghost use Rattle.pf_geom.specs.Plane.{IsInRange};
ghost use Rattle.pf_model.specs.declared.Side.{Side};
ghost use Rattle.pf_model.specs.declared.Spoke.{Spoke};
ghost use Rattle.pf_model.specs.Clauses.{first_of};
ghost use Rattle.pf_model.specs.Mesh.{Undivided, place_of};
ghost use Rattle.pf_model.specs.Rows.{apex_or, edge_rows, flip_rows, there_row, not_longest, bisect_rows, is_link_node, least_that, neighbours};
ghost use Rattle.pf_rules.specs.Contract.{IsShape, shape_rows, far_row};
ghost use Rattle.pf_rules.specs.Lengths.{IsPlaced};
ghost use Rattle.pf_rules.specs.Star.{IsSpokePlaced};
ghost use Rattle.pf_spokes.specs.Spokes.{HasSpots};

use crate::bisect::is_too_short;
use crate::conditions::{is_counterclockwise, is_owned_by, is_shorter};
use crate::contract::{StarShape, first_inverted};
use crate::edge_sides::EdgeSides;
use crate::lengths::{Placed, longest_between};
use pf_geom::{Point, middle};
use pf_model::{Band, Cond, Side, Spoke};

/// The first condition of every operation at the edge `a`, `b` that fails.
pub fn edge_refusal(chunk: u16, a: u32, b: u32, edge_sides: EdgeSides) -> Option<Cond>
    ensures { result ≡ first_of (edge_rows chunk a b edge_sides.left edge_sides.right) }
{
    if a == b || !edge_sides.is_edge() {
        return Some(Cond::NoEdge);
    }
    if !(is_owned_by(edge_sides.left, chunk) || is_owned_by(edge_sides.right, chunk)) {
        return Some(Cond::Foreign);
    }
    None
}

/// The apex of a side, and 0 where there is none.
pub fn apex_of(side: Option<Side>) -> u32
    ensures { result ≡ apex_or side }
{
    match side {
        Some(side) => side.apex,
        None => 0,
    }
}

/// The first condition of a flip that fails, but for the last, which `there_refusal` has. The points are those of
/// the two apexes.
pub fn flip_refusal(
    lo: Placed,
    hi: Placed,
    edge_sides: EdgeSides,
    at_left: Point,
    at_right: Point,
) -> Option<Cond>
    requires lo { IsInRange lo.at }
    requires hi { IsInRange hi.at }
    requires left { IsInRange at_left }
    requires right { IsInRange at_right }
    ensures { (m : Undivided) → IsPlaced m lo → IsPlaced m hi → at_left ≡ place_of m (apex_or edge_sides.left) → at_right ≡ place_of m (apex_or edge_sides.right)
        → result ≡ first_of (flip_rows m lo.name hi.name edge_sides.left edge_sides.right) }
{
    if edge_sides.left.is_none() || edge_sides.right.is_none() {
        return Some(Cond::OnBoundary);
    }
    if !(is_counterclockwise(lo.at, at_right, at_left)
        && is_counterclockwise(hi.at, at_left, at_right))
    {
        return Some(Cond::NotConvex);
    }
    if !is_shorter(at_left, at_right, lo.at, hi.at) {
        return Some(Cond::NotShorter);
    }
    None
}

/// The last condition of a flip: that there is no edge between the two apexes yet.
pub fn there_refusal(edge_sides: EdgeSides, there: bool) -> Option<Cond>
    ensures { result ≡ there_row edge_sides.left edge_sides.right there }
{
    if !there {
        return None;
    }
    Some(Cond::EdgeThere {
        c: apex_of(edge_sides.left),
        d: apex_of(edge_sides.right),
    })
}

// That the triangle of a side of the edge, whose apex stands there, has a longer edge.
fn longer_beside(p: Placed, q: Placed, side: Option<Side>, at: Point) -> Option<Cond>
    requires p { IsInRange p.at }
    requires q { IsInRange q.at }
    requires at { IsInRange at }
    ensures { (m : Undivided) → IsPlaced m p → IsPlaced m q → at ≡ place_of m (apex_or side) → result ≡ not_longest m p.name q.name side }
{
    let Some(side) = side else {
        return None;
    };
    let longest = longest_between(
        p,
        q,
        Placed {
            name: side.apex,
            at,
        },
    );
    if longest.lo == p.name.min(q.name) && longest.hi == p.name.max(q.name) {
        return None;
    }
    Some(Cond::NotLongest {
        a: longest.lo,
        b: longest.hi,
    })
}

/// The first condition of a bisection that fails. The points are those of the two apexes.
pub fn bisect_refusal(
    bands: &[Band],
    lo: Placed,
    hi: Placed,
    edge_sides: EdgeSides,
    at_left: Point,
    at_right: Point,
) -> Option<Cond>
    requires lo { IsInRange lo.at }
    requires hi { IsInRange hi.at }
    requires left { IsInRange at_left }
    requires right { IsInRange at_right }
    ensures { (m : Undivided) → m.bands ≡ bands.now → IsPlaced m lo → IsPlaced m hi → at_left ≡ place_of m (apex_or edge_sides.left) → at_right ≡ place_of m (apex_or edge_sides.right)
        → result ≡ first_of (bisect_rows m lo.name hi.name edge_sides.left edge_sides.right) }
{
    if is_too_short(bands, lo, hi) {
        return Some(Cond::TooShort {
            a: lo.name,
            b: hi.name,
        });
    }
    if let Some(cond) = longer_beside(lo, hi, edge_sides.left, at_left) {
        return Some(cond);
    }
    if let Some(cond) = longer_beside(hi, lo, edge_sides.right, at_right) {
        return Some(cond);
    }
    if middle(lo.at, hi.at).is_none() {
        return Some(Cond::OddMidpoint);
    }
    None
}

/// The first condition on the star of the node that goes that fails, but for the last, which `far_refusal` has.
/// `v` is the node that stays, `shape` what the star says by itself, and `link` the least of the star's neighbours
/// that is one of `v` too, and no apex of the edge.
pub fn contract_refusal(
    v: Placed,
    shape: StarShape,
    link: Option<u32>,
    star: &[Spoke],
) -> Option<Cond>
    requires v { IsInRange v.at }
    requires spots { All HasSpots star.now }
    ensures { (m : Undivided) (u : ℕ) (l r : Option Side) (vs : List Spoke) → IsPlaced m v → All (IsSpokePlaced m) star.now → IsShape m u star.now shape
        → link ≡ least_that (is_link_node l r vs) (neighbours star.now) → result ≡ first_of (shape_rows m u v.name l r star.now vs) }
{
    if shape.bent {
        return Some(Cond::Corner);
    }
    if shape.is_off(v.name) {
        return Some(Cond::OffBoundary);
    }
    if let Some(x) = link {
        return Some(Cond::LinkNode { x });
    }
    first_inverted(v.name, v.at, star)
}

/// The last condition of a contraction onto `v`: that no new edge is too long. `far` is the least neighbour to which
/// one would be.
pub fn far_refusal(v: u32, far: Option<u32>) -> Option<Cond>
    ensures { result ≡ far_row v far }
{
    match far {
        Some(x) => Some(Cond::TooLong {
            a: v.min(x),
            b: v.max(x),
        }),
        None => None,
    }
}
