//! Link nodes: neighbours of both ends of an edge that are no apexes of it.
ghost use Rattle.std.specs.Prelude.{◌≡◌, ◌∷◌, [], filter, fold, map};
ghost use Rattle.pf_model.specs.Rows.{is_link_node, least_that, lesser, neighbours};

use pf_model::Spoke;
use pf_rings::is_near;
use pf_rules::edge_sides::EdgeSides;
use pf_sight::is_apex;
use pf_spokes::lesser_of;

// Whether the node is a neighbour of the node with these spokes, and no apex of the edge.
fn is_link(sides: EdgeSides, around: &[Spoke], x: u32) -> bool
    ensures { result ≡ is_link_node sides.left sides.right around.now x }
{
    !(is_apex(sides.left, x) || is_apex(sides.right, x)) && is_near(around, x)
}

// The least link node so far, with one name more.
fn lesser_link(sides: EdgeSides, around: &[Spoke], least: Option<u32>, x: u32) -> Option<u32>
    ensures { result ≡ fold lesser least (filter (is_link_node sides.left sides.right around.now) (x ∷ [])) }
{
    if is_link(sides, around, x) {
        lesser_of(least, x)
    } else {
        least
    }
}

// The least of the rights of the spokes that is a link node.
fn least_right(sides: EdgeSides, around: &[Spoke], spokes: &[Spoke]) -> Option<u32>
    ensures { result ≡ least_that (is_link_node sides.left sides.right around.now) (map (λ s. s.right) spokes.now) }
{
    let mut least = None;
    for s in spokes {
        least = lesser_link(sides, around, least, s.right);
    }
    least
}

// The least so far, with the lefts of the spokes.
fn least_left(
    sides: EdgeSides,
    around: &[Spoke],
    least: Option<u32>,
    spokes: &[Spoke],
) -> Option<u32>
    ensures { result ≡ fold lesser least (filter (is_link_node sides.left sides.right around.now) (map (λ s. s.left) spokes.now)) }
{
    let mut found = least;
    for s in spokes {
        found = lesser_link(sides, around, found, s.left);
    }
    found
}

/// The least neighbour of the node with the spokes that is one of the node with those `around` too, and no apex of
/// the edge between the two, whose sides are at hand.
pub fn least_link(sides: EdgeSides, around: &[Spoke], spokes: &[Spoke]) -> Option<u32>
    ensures { result ≡ least_that (is_link_node sides.left sides.right around.now) (neighbours spokes.now) }
{
    let least = least_right(sides, around, spokes);
    least_left(sides, around, least, spokes)
}
