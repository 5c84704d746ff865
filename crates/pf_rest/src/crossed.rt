//! Whether two neighbours of a node share an edge outside its star, asked once for all contractions of the node.
ghost use Rattle.std.specs.Prelude.{◌≡◌, ◌≤◌, ◌&&◌, ℕ, List, false, length, not, true};
ghost use Rattle.pf_model.specs.declared.Spoke.{Spoke};
ghost use Rattle.pf_model.specs.Mesh.{Undivided};
ghost use Rattle.pf_model.specs.Conforming.{IsConforming};
ghost use Rattle.pf_model.specs.Rows.{least_that};
ghost use Rattle.pf_model.specs.Stars.{is_neighbour, spokes_of};
ghost use Rattle.pf_rules.specs.Contract.{AreAround, IsStar, is_link_at};
ghost use Rattle.pf_rest.specs.Crossed.{IsClear, IsMissing, IsUncrossed, is_name, is_link_edge};
ghost use Rattle.pf_rules.specs.EdgeSides.{AreEdgeSides};
ghost use Rattle.pf_edge_list.specs.Edges.{AreEdges};

use pf_edge_list::edges::{Edges, Sided};
use pf_model::Spoke;
use pf_rules::edge_sides::EdgeSides;

// The edges of a neighbour that is the lower end of more aren't read: it counts as crossed.
const MOST_EDGES: usize = 60;

// Whether this is one of the names.
fn is_among(names: &[u32], x: u32) -> bool
    ensures { result ≡ is_name x names.now }
{
    names.iter().any(|y| *y == x)
}

// Whether a spoke runs between these two, one way or the other.
fn is_in_link(star: &[Spoke], v: u32, w: u32) -> bool
    ensures { result ≡ is_link_edge v w star.now }
{
    star.iter().any(|s| (s.right == v && s.left == w) || (s.right == w && s.left == v))
}

// Whether an edge to this name would cross: it is one of the names, and no spoke runs to it.
fn is_crossing(star: &[Spoke], names: &[u32], v: u32, w: u32) -> bool
    ensures { result ≡ (is_name w names.now && not (is_link_edge v w star.now)) }
{
    is_among(names, w) && !is_in_link(star, v, w)
}

// Whether an edge of a block of the list runs from `v` to a higher name and crosses.
fn is_crossed_in(
    edges: &[Sided],
    from: usize,
    to: usize,
    v: u32,
    star: &[Spoke],
    names: &[u32],
) -> bool
    requires { to ≤ length edges.now }
    ensures { (w : ℕ) → is_name w names.now ≡ true → is_link_edge v w star.now ≡ false → result ≡ false → IsMissing edges.now v w from to }
{
    for place in from..to {
        let at = edges[place].span;
        if at.lo == v && is_crossing(star, names, v, at.hi) {
            return true;
        }
    }
    false
}

// Whether an edge from `v` to a higher name crosses, or `v` begins many edges.
fn is_crossed_at(edges: &Edges, v: u32, star: &[Spoke], names: &[u32]) -> bool
    ensures { (m : Undivided) → IsConforming m → AreEdges m edges.now → result ≡ false → IsClear m star.now names.now v }
{
    let lo = v as usize;
    let from = edges.start(lo);
    let to = edges.end(lo + 1).min(edges.list.len());
    if from < to && to - from > MOST_EDGES {
        return true;
    }
    is_crossed_in(&edges.list, from, to, v, star, names)
}

/// Whether two neighbours of the star's node share an edge and no triangle of the star. Where a neighbour begins
/// many edges, the answer is yes with no look at them.
pub fn is_crossed(edges: &Edges, star: &[Spoke], names: &[u32]) -> bool
    ensures { (m : Undivided) (u : ℕ) → IsConforming m → AreEdges m edges.now → IsStar m u star.now → AreAround star.now names.now → result ≡ false → IsUncrossed m u star.now }
{
    for v in names {
        if is_crossed_at(edges, *v, star, names) {
            return true;
        }
    }
    false
}

/// The least of these names that is a neighbour of `v`, and no apex of the edge to `v`. Where nothing crosses, there
/// is none.
pub fn crossing_link(
    edges: &Edges,
    crossed: bool,
    v: u32,
    edge_sides: EdgeSides,
    names: &[u32],
) -> Option<u32>
    ensures { (m : Undivided) (u : ℕ) (us : List Spoke) → IsConforming m → AreEdges m edges.now → AreEdgeSides m.tris u v edge_sides → (crossed ≡ false → IsUncrossed m u us)
        → is_neighbour v us ≡ true → AreAround us names.now → result ≡ least_that (is_link_at m u v (spokes_of m v)) names.now }
{
    if crossed {
        edges.least_link(v, edge_sides, names)
    } else {
        None
    }
}
