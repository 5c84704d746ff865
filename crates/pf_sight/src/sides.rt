//! The triangles on both sides of an edge, as the star of an end shows them.
ghost use Rattle.std.specs.Prelude.{◌≡◌};
ghost use Rattle.std.specs.Option.{option_map};
ghost use Rattle.pf_model.specs.Rows as rows;
ghost use Rattle.pf_star_model.specs.Lent.{side_to, side_from, spokes_in};
ghost use Rattle.pf_rings.specs.Points.{left_side, right_side};

use pf_model::{Side, Spoke};
use pf_rings::{Rings, Star, spoke_from, spoke_to};
use pf_rules::edge_sides::EdgeSides;

// The triangle left of the edge to the spoke's right.
fn on_left(spoke: Option<Spoke>) -> Option<Side>
    ensures { result ≡ option_map left_side spoke }
{
    match spoke {
        Some(s) => Some(Side {
            apex: s.left,
            owner: s.owner,
        }),
        None => None,
    }
}

// The triangle left of the edge from the spoke's left.
fn on_right(spoke: Option<Spoke>) -> Option<Side>
    ensures { result ≡ option_map right_side spoke }
{
    match spoke {
        Some(s) => Some(Side {
            apex: s.right,
            owner: s.owner,
        }),
        None => None,
    }
}

/// The triangles on both sides of the edge from the star's node to `n`.
pub fn sides_at(star: &Star, n: u32) -> EdgeSides
    ensures left { result.left ≡ side_to n star.now.spokes }
    ensures right { result.right ≡ side_from n star.now.spokes }
{
    EdgeSides {
        left: on_left(spoke_to(star.spokes(), n)),
        right: on_right(spoke_from(star.spokes(), n)),
    }
}

/// Whether the node is the apex of the side.
pub fn is_apex(side: Option<Side>, x: u32) -> bool
    ensures { result ≡ rows.is_apex x side }
{
    match side {
        Some(side) => side.apex == x,
        None => false,
    }
}

/// The spokes that are lent of a node, and none where its star isn't lent.
pub fn spokes_lent<R: Rings>(r: &R, n: u32) -> &[Spoke]
    ensures { result.now ≡ spokes_in (R.lent r.now n) }
{
    match r.ring(n) {
        Some(ring) => ring.star().spokes(),
        None => &[],
    }
}
