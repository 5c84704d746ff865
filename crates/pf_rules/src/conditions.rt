//! The conditions of every operation at an edge, by the sides of the edge.
ghost use Rattle.std.specs.Prelude.{◌≡◌, int_lt};
ghost use Rattle.pf_geom.specs.Plane.{IsInRange, orient_of, len2_of};
ghost use Rattle.pf_model.specs.Clauses.{first_of};
ghost use Rattle.pf_model.specs.Mesh.{Undivided};
ghost use Rattle.pf_model.specs.Rows.{is_owned, is_positive};
ghost use Rattle.pf_model.specs.Conditions.{edge_clauses};
ghost use Rattle.pf_rules.specs.EdgeSides.{AreEdgeSides};

use crate::edge_sides::EdgeSides;
use crate::refusals::edge_refusal;
use pf_geom::{Point, len2, orient};
use pf_model::{Cond, Side};

/// Whether the side is there, with this owner.
pub fn is_owned_by(side: Option<Side>, chunk: u16) -> bool
    ensures { result ≡ is_owned chunk side }
{
    match side {
        Some(left) => left.owner == chunk,
        None => false,
    }
}

/// Whether the path turns left.
pub fn is_counterclockwise(a: Point, b: Point, c: Point) -> bool
    requires a { IsInRange a }
    requires b { IsInRange b }
    requires c { IsInRange c }
    ensures { result ≡ is_positive (orient_of a b c) }
{
    orient(a, b, c) > 0
}

/// Whether the first edge is shorter than the second.
pub fn is_shorter(a: Point, b: Point, c: Point, d: Point) -> bool
    requires a { IsInRange a }
    requires b { IsInRange b }
    requires c { IsInRange c }
    requires d { IsInRange d }
    ensures { result ≡ int_lt (len2_of a b) (len2_of c d) }
{
    len2(a, b) < len2(c, d)
}

/// The conditions of every operation at an edge.
pub fn edge_condition(chunk: u16, a: u32, b: u32, edge_sides: EdgeSides) -> Option<Cond>
    ensures { (m : Undivided) → AreEdgeSides m.tris a b edge_sides → result ≡ first_of (edge_clauses m chunk a b) }
{
    edge_refusal(chunk, a, b, edge_sides)
}
