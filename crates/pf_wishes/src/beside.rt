//! The triangles on both sides of an edge, as spokes of the star of an end, and what they say of the edge.
ghost use Rattle.std.specs.Prelude.{◌≡◌, ◌||◌, IfSome, Some, is_some};
ghost use Rattle.std.specs.Option.{option_map};
ghost use Rattle.pf_geom.specs.Plane.{IsInRange};
ghost use Rattle.pf_model.specs.Stars.{is_neighbour};
ghost use Rattle.pf_model.specs.Wishes.{owner_of};
ghost use Rattle.pf_star_model.specs.Lent.{side_to, side_from};
ghost use Rattle.pf_rings.specs.Points.{first_from, first_to, left_side, right_side};
ghost use Rattle.pf_spokes.specs.Spokes.{HasSpots};
ghost use Rattle.pf_wishes.specs.Looks.{acting_shown, is_across_below, place_by};

use pf_geom::{Point, len2};
use pf_model::Spoke;
use pf_rings::{Star, spoke_from, spoke_to};

const ORIGIN: Point = Point { x: 0, y: 0 };

/// The two spokes at an edge: the first to its other end, and the first from there.
#[derive(Clone, Copy, Debug, PartialEq, Eq)]
pub struct Beside {
    pub to: Option<Spoke>,
    pub from: Option<Spoke>,
}

/// The spokes at the edge to `x`.
pub fn spokes_at(star: &Star, x: u32) -> Beside
    ensures to { result.to ≡ first_to x star.now.spokes }
    ensures from { result.from ≡ first_from x star.now.spokes }
    ensures to_in_range { IfSome result.to HasSpots }
    ensures from_in_range { IfSome result.from HasSpots }
    ensures left { option_map left_side result.to ≡ side_to x star.now.spokes }
    ensures right { option_map right_side result.from ≡ side_from x star.now.spokes }
    ensures near { (is_some result.to || is_some result.from) ≡ is_neighbour x star.now.spokes }
{
    Beside {
        to: spoke_to(star.spokes(), x),
        from: spoke_from(star.spokes(), x),
    }
}

/// Whether there is an edge between them.
pub fn is_edge(beside: Beside) -> bool
    ensures { result ≡ (is_some beside.to || is_some beside.from) }
{
    beside.to.is_some() || beside.from.is_some()
}

// The owner of the first of two triangles, where it is left of the edge's direction, or of the second one.
fn owner_to(to: Option<Spoke>, from: Option<Spoke>) -> u16
    ensures { result ≡ owner_of (option_map left_side to) (option_map right_side from) }
{
    match to {
        Some(to) => to.owner,
        None => match from {
            Some(from) => from.owner,
            None => 0,
        },
    }
}

// The same, where the edge's direction is to the star's node.
fn owner_from(to: Option<Spoke>, from: Option<Spoke>) -> u16
    ensures { result ≡ owner_of (option_map right_side from) (option_map left_side to) }
{
    match from {
        Some(from) => from.owner,
        None => match to {
            Some(to) => to.owner,
            None => 0,
        },
    }
}

/// The acting chunk of the edge to `x`: the owner of the triangle on the left as seen from the lower to the higher name,
/// or of the other one, or 0 where there is none.
pub fn acting_of(star: &Star, x: u32, beside: Beside) -> u16
    requires left { option_map left_side beside.to ≡ side_to x star.now.spokes }
    requires right { option_map right_side beside.from ≡ side_from x star.now.spokes }
    ensures { result ≡ acting_shown star.now x }
{
    if star.node() < x {
        owner_to(beside.to, beside.from)
    } else {
        owner_from(beside.to, beside.from)
    }
}

/// Where the other end of the edge stands.
pub fn place_of(beside: Beside) -> Point
    requires to { IfSome beside.to HasSpots }
    requires from { IfSome beside.from HasSpots }
    ensures value { result ≡ place_by beside.to beside.from }
    ensures in_range { IsInRange result }
{
    match beside.to {
        Some(to) => to.right_at,
        None => match beside.from {
            Some(from) => from.left_at,
            None => ORIGIN,
        },
    }
}

// Whether the apexes of two triangles are nearer to one another than this squared length.
fn is_nearer(to: Spoke, from: Spoke, limit: i64) -> bool
    requires to { HasSpots to }
    requires from { HasSpots from }
    ensures { result ≡ is_across_below (Some to) (Some from) limit }
{
    len2(to.left_at, from.right_at) < limit
}

/// Whether both triangles are there, and their apexes are nearer to one another than this squared length.
pub fn is_across_below(beside: Beside, len2: i64) -> bool
    requires to { IfSome beside.to HasSpots }
    requires from { IfSome beside.from HasSpots }
    ensures { result ≡ is_across_below beside.to beside.from len2 }
{
    match beside.to {
        Some(to) => match beside.from {
            Some(from) => is_nearer(to, from, len2),
            None => false,
        },
        None => false,
    }
}
