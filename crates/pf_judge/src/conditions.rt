//! The first condition that a flip fails, by the edge table.
ghost use Rattle.std.specs.Prelude.{◌≡◌};
ghost use Rattle.pf_model.specs.Clauses.{first_of};
ghost use Rattle.pf_geom.specs.Plane.{IsInRange};
ghost use Rattle.pf_model.specs.Mesh.{Undivided, is_edge, place_of};
ghost use Rattle.pf_model.specs.Rows.{apex_or};
ghost use Rattle.pf_model.specs.Conditions.{flip_clauses, first_failing};
ghost use Rattle.pf_model.specs.declared.Op.TheVariants.{Flip};
ghost use Rattle.pf_rules.specs.EdgeSides.{AreEdgeSides};
ghost use Rattle.pf_edges.specs.Table.{ArePlacesInRange, Shows};

use pf_edges::table::EdgeTable;
use pf_geom::Point;
use pf_model::{Cond, Side};
use pf_rules::conditions::edge_condition;
use pf_rules::edge_sides::EdgeSides;
use pf_rules::lengths::Placed;
use pf_rules::refusals::{apex_of, flip_refusal, there_refusal};

/// Where the apex of a side stands, and the node 0 where there is none.
pub fn apex_point(table: &EdgeTable, side: Option<Side>) -> Point
    requires { ArePlacesInRange table.now.nodes.items }
    ensures in_range { IsInRange result }
    ensures value { (m : Undivided) → Shows table.now.sides table.now.nodes.items m → result ≡ place_of m (apex_or side) }
{
    table.point(apex_of(side))
}

// Whether there is an edge between the apexes of two sides.
fn is_there(table: &EdgeTable, edge_sides: EdgeSides) -> bool
    ensures { (m : Undivided) → Shows table.now.sides table.now.nodes.items m → result ≡ is_edge m.tris (apex_or edge_sides.left) (apex_or edge_sides.right) }
{
    table.is_edge(apex_of(edge_sides.left), apex_of(edge_sides.right))
}

/// The first condition of a flip alone that fails, where the triangles at the edge are at hand.
pub fn flip_alone(table: &EdgeTable, lo: u32, hi: u32, edge_sides: EdgeSides) -> Option<Cond>
    requires { ArePlacesInRange table.now.nodes.items }
    ensures { (m : Undivided) → Shows table.now.sides table.now.nodes.items m → AreEdgeSides m.tris lo hi edge_sides
        → result ≡ first_of (flip_clauses m lo hi) }
{
    let refused = flip_refusal(
        Placed {
            name: lo,
            at: table.point(lo),
        },
        Placed {
            name: hi,
            at: table.point(hi),
        },
        edge_sides,
        apex_point(table, edge_sides.left),
        apex_point(table, edge_sides.right),
    );
    match refused {
        Some(cond) => Some(cond),
        None => there_refusal(edge_sides, is_there(table, edge_sides)),
    }
}

/// The first condition that a flip fails, where the triangles at the edge are at hand.
pub fn flip_condition(
    table: &EdgeTable,
    chunk: u16,
    a: u32,
    b: u32,
    edge_sides: EdgeSides,
) -> Option<Cond>
    requires { ArePlacesInRange table.now.nodes.items }
    ensures { (m : Undivided) → Shows table.now.sides table.now.nodes.items m → AreEdgeSides m.tris a b edge_sides
        → result ≡ first_failing m chunk (Flip a b) }
{
    match edge_condition(chunk, a, b, edge_sides) {
        Some(cond) => Some(cond),
        None => flip_alone(table, a.min(b), a.max(b), edge_sides.rising(a, b)),
    }
}
