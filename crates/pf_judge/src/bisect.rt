//! A bisection that is judged and planned by the edge table.
ghost use Rattle.std.specs.Prelude.{◌≡◌, None, IfSome};
ghost use Rattle.pf_geom.specs.Plane.{IsInRange, middle_of};
ghost use Rattle.pf_model.specs.declared.Op.TheVariants.{Bisect};
ghost use Rattle.pf_model.specs.Clauses.{first_of};
ghost use Rattle.pf_model.specs.Mesh.{Undivided, place_of};
ghost use Rattle.pf_model.specs.Conditions.{bisect_clauses, first_failing};
ghost use Rattle.pf_rules.specs.EdgeSides.{AreEdgeSides};
ghost use Rattle.pf_edges.specs.Kept.{IsKept};
ghost use Rattle.pf_rules.specs.Change.{IsChange};
ghost use Rattle.pf_edges.specs.Table.{ArePlacesInRange, Shows};

use crate::conditions::apex_point;
use crate::edge_sides::edge_sides;
use pf_edges::table::EdgeTable;
use pf_geom::{Point, middle};
use pf_model::{Band, Cond};
use pf_rules::bisect::bisect_change;
use pf_rules::change::Tris;
use pf_rules::conditions::edge_condition;
use pf_rules::edge_sides::EdgeSides;
use pf_rules::lengths::Placed;
use pf_rules::refusals::bisect_refusal;

/// The middle of two names, where it is whole.
pub fn middle_between(table: &EdgeTable, a: u32, b: u32) -> Option<Point>
    requires { ArePlacesInRange table.now.nodes.items }
    ensures in_range { IfSome result IsInRange }
    ensures value { (m : Undivided) → Shows table.now.sides table.now.nodes.items m → result ≡ middle_of (place_of m a) (place_of m b) }
{
    middle(table.point(a), table.point(b))
}

// The first condition of a bisection alone that fails.
fn bisect_alone(
    table: &EdgeTable,
    bands: &[Band],
    lo: u32,
    hi: u32,
    edge_sides: EdgeSides,
) -> Option<Cond>
    requires { ArePlacesInRange table.now.nodes.items }
    ensures { (m : Undivided) → Shows table.now.sides table.now.nodes.items m → m.bands ≡ bands.now → AreEdgeSides m.tris lo hi edge_sides
        → result ≡ first_of (bisect_clauses m lo hi) }
{
    bisect_refusal(
        bands,
        Placed {
            name: lo,
            at: table.point(lo),
        },
        Placed {
            name: hi,
            at: table.point(hi),
        },
        edge_sides,
        apex_point(table, edge_sides.left),
        apex_point(table, edge_sides.right),
    )
}

/// The first condition that a bisection fails, where the triangles at the edge are at hand.
pub fn bisect_condition(
    table: &EdgeTable,
    bands: &[Band],
    chunk: u16,
    a: u32,
    b: u32,
    edge_sides: EdgeSides,
) -> Option<Cond>
    requires { ArePlacesInRange table.now.nodes.items }
    ensures { (m : Undivided) → Shows table.now.sides table.now.nodes.items m → m.bands ≡ bands.now → AreEdgeSides m.tris a b edge_sides
        → result ≡ first_failing m chunk (Bisect a b) }
{
    match edge_condition(chunk, a, b, edge_sides) {
        Some(cond) => Some(cond),
        None => bisect_alone(table, bands, a.min(b), a.max(b), edge_sides.rising(a, b)),
    }
}

/// The first condition that a bisection fails, or `None` where it passes. Then the lists have what it
/// makes of the triangles at its edge, by the new node `n`. What they held doesn't matter.
pub fn bisect_plan(
    table: &EdgeTable,
    bands: &[Band],
    chunk: u16,
    n: u32,
    a: u32,
    b: u32,
    removed: &mut Tris,
    new: &mut Tris,
) -> Option<Cond>
    requires { ArePlacesInRange table.now.nodes.items }
    ensures cond { (m : Undivided) → IsKept table.now.sides table.now.nodes.items m → m.bands ≡ bands.now → result ≡ first_failing m chunk (Bisect a b) }
    ensures change { (m : Undivided) → IsKept table.now.sides table.now.nodes.items m → result ≡ None
        → IsChange m n (Bisect a b) removed.new.items new.new.items }
{
    let edge_sides = edge_sides(table, a, b);
    if let Some(cond) = bisect_condition(table, bands, chunk, a, b, edge_sides) {
        return Some(cond);
    }
    bisect_change(n, a, b, edge_sides, removed, new);
    None
}
