//! Whether the neighbours of a node are so close to it that no edge between two of them can be too long.
ghost use Rattle.std.specs.Prelude.{◌≡◌, List, true};
ghost use Rattle.pf_geom.specs.Plane.{IsInRange};
ghost use Rattle.pf_model.specs.Mesh.{Undivided};
ghost use Rattle.pf_model.specs.declared.Spoke.{Spoke};
ghost use Rattle.pf_rules.specs.Contract.{AreAround, AreClose};
ghost use Rattle.pf_rest.specs.Rest.{IsLimit, is_reached};
ghost use Rattle.pf_edges.specs.Table.{ArePlacesInRange, Shows};

use pf_edges::table::EdgeTable;
use pf_geom::{Point, len2};
use pf_model::Band;

/// The least of the greatest squared lengths that the bands allow, and a number that no squared length reaches
/// where there are no bands.
pub fn strictest(bands: &[Band]) -> i64
    ensures { IsLimit bands.now result }
{
    let mut least: i64 = i64::MAX;
    for row in bands {
        least = least.min(row.max2);
    }
    least
}

// Whether four times the squared distance of two points is at most this.
fn is_within(a: Point, b: Point, limit: i64) -> bool
    requires a { IsInRange a }
    requires b { IsInRange b }
    ensures { result ≡ is_reached a b limit }
{
    4 * len2(a, b) <= limit
}

/// Whether four times the squared distance of `u` from each of these nodes is at most the limit. Then two of
/// them are no further apart than it allows, by the parallelogram law.
pub fn are_close(table: &EdgeTable, u: u32, names: &[u32], limit: i64) -> bool
    requires { ArePlacesInRange table.now.nodes.items }
    ensures { (m : Undivided) (us : List Spoke) → Shows table.now.sides table.now.nodes.items m → IsLimit m.bands limit → AreAround us names.now
        → result ≡ true → AreClose m us }
{
    let at = table.point(u);
    for x in names {
        if !is_within(at, table.point(*x), limit) {
            return false;
        }
    }
    true
}
