//! Neighbours by the list of edges.
ghost use Rattle.std.specs.Prelude.{◌≡◌, ℕ};
ghost use Rattle.pf_model.specs.Mesh.{Undivided, is_edge};
ghost use Rattle.pf_model.specs.Conforming.{IsConforming};
ghost use Rattle.pf_model.specs.Stars.{spokes_of, is_neighbour};
ghost use Rattle.pf_model.specs.Rows.{least_that};
ghost use Rattle.pf_rules.specs.Contract.{is_link_at};
ghost use Rattle.pf_rules.specs.EdgeSides.{AreEdgeSides};
ghost use Rattle.pf_edge_list.specs.Edges.{AreEdges};

use crate::edges::Edges;
use pf_rules::contract::is_an_apex;
use pf_rules::edge_sides::EdgeSides;
use pf_rules::lengths::span_of;
use pf_spokes::lesser_of;

impl Edges {
    /// Whether two nodes share an edge.
    pub fn has(&self, a: u32, b: u32) -> bool
        ensures { (m : Undivided) → IsConforming m → AreEdges m self.now → result ≡ is_edge m.tris a b }
    {
        self.find(span_of(a, b)).is_some()
    }

    // Whether the node is a neighbour of `v`.
    fn is_beside(&self, x: u32, v: u32) -> bool
        ensures { (m : Undivided) → IsConforming m → AreEdges m self.now → result ≡ is_neighbour x (spokes_of m v) }
    {
        x != v && self.has(v, x)
    }

    // Whether the node is a neighbour of `v`, and no apex of the edge to `v`, which takes no look-up.
    fn is_link(&self, v: u32, x: u32, edge_sides: EdgeSides) -> bool
        ensures { (m : Undivided) (u : ℕ) → IsConforming m → AreEdges m self.now → AreEdgeSides m.tris u v edge_sides
            → result ≡ is_link_at m u v (spokes_of m v) x }
    {
        !is_an_apex(edge_sides, x) && self.is_beside(x, v)
    }

    /// The least of these names that is a neighbour of `v`, and no apex of the edge to `v`.
    pub fn least_link(&self, v: u32, edge_sides: EdgeSides, names: &[u32]) -> Option<u32>
        ensures { (m : Undivided) (u : ℕ) → IsConforming m → AreEdges m self.now → AreEdgeSides m.tris u v edge_sides
            → result ≡ least_that (is_link_at m u v (spokes_of m v)) names.now }
    {
        let mut least = None;
        for x in names {
            if self.is_link(v, *x, edge_sides) {
                least = lesser_of(least, *x);
            }
        }
        least
    }
}
