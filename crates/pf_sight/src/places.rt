//! Where the nodes stand that a star shows: its own and its neighbours.
ghost use Rattle.std.specs.Prelude.{◌≡◌, All, IfSome, List, Some, flat_map};
ghost use Rattle.pf_geom.specs.Plane.{IsInRange};
ghost use Rattle.pf_model.specs.declared.Band.{Band};
ghost use Rattle.pf_model.specs.Mesh.{place_of, point_of};
ghost use Rattle.pf_model.specs.Rows.{apex_or};
ghost use Rattle.pf_star_model.specs.Lent.{sight_of, sites_in, spoke_sites};
ghost use Rattle.pf_spokes.specs.Spokes.{HasSpots};
ghost use Rattle.pf_rules.specs.Lengths.{IsPlaced};

use pf_geom::Point;
use pf_model::{Side, Spoke};
use pf_rings::Star;
use pf_rules::lengths::Placed;
use pf_rules::refusals::apex_of;

const ORIGIN: Point = Point { x: 0, y: 0 };

// Where the first neighbour of this name stands.
fn spot_among(spokes: &[Spoke], n: u32) -> Option<Point>
    ensures value { result ≡ point_of (flat_map spoke_sites spokes.now) n }
    ensures in_range { All HasSpots spokes.now → IfSome result IsInRange }
{
    for s in spokes {
        if s.right == n {
            return Some(s.right_at);
        }
        if s.left == n {
            return Some(s.left_at);
        }
    }
    None
}

// Where the node of this name stands, where the star shows one.
fn spot_in(star: &Star, n: u32) -> Option<Point>
    ensures value { result ≡ point_of (sites_in (Some star.now)) n }
    ensures in_range { IfSome result IsInRange }
{
    if star.node() == n {
        return Some(star.at());
    }
    spot_among(star.spokes(), n)
}

/// Where the node of this name stands, and the origin where the star shows no such node.
pub fn place_in(star: &Star, n: u32) -> Point
    ensures value { (bands : List Band) → result ≡ place_of (sight_of bands (Some star.now)) n }
    ensures in_range { IsInRange result }
{
    match spot_in(star, n) {
        Some(at) => at,
        None => ORIGIN,
    }
}

/// The node, and where it stands: at the origin, where the star doesn't show it.
pub fn placed(star: &Star, n: u32) -> Placed
    ensures name { result.name ≡ n }
    ensures in_range { IsInRange result.at }
    ensures at { (bands : List Band) → IsPlaced (sight_of bands (Some star.now)) result }
{
    Placed {
        name: n,
        at: place_in(star, n),
    }
}

/// Where the apex of a side stands, and the node 0 where there is none.
pub fn apex_place(star: &Star, side: Option<Side>) -> Point
    ensures value { (bands : List Band) → result ≡ place_of (sight_of bands (Some star.now)) (apex_or side) }
    ensures in_range { IsInRange result }
{
    place_in(star, apex_of(side))
}
