//! The lengths of edges, by the edge table.
ghost use Rattle.std.specs.Prelude.{◌≡◌};
ghost use Rattle.pf_geom.specs.Plane.{IsInRange};
ghost use Rattle.pf_model.specs.Mesh.{Undivided};
ghost use Rattle.pf_model.specs.Lengths.{min2_of, is_long, longest_of};
ghost use Rattle.pf_edges.specs.Table.{ArePlacesInRange, Shows};
ghost use Rattle.pf_rules.specs.Lengths.{IsPlaced, span_value};

use pf_edges::table::EdgeTable;
use pf_model::Band;
use pf_rules::lengths::{Placed, Span, is_long_between, least_between, longest_between};

/// A node, and where it stands: at the origin, where it isn't live.
pub fn placed(table: &EdgeTable, n: u32) -> Placed
    requires { ArePlacesInRange table.now.nodes.items }
    ensures name { result.name ≡ n }
    ensures in_range { IsInRange result.at }
    ensures at { (m : Undivided) → Shows table.now.sides table.now.nodes.items m → IsPlaced m result }
{
    Placed {
        name: n,
        at: table.point(n),
    }
}

/// The squared length that an edge is to have at least, and 0 where no band holds its middle.
pub fn least_length(table: &EdgeTable, bands: &[Band], a: u32, b: u32) -> i64
    requires { ArePlacesInRange table.now.nodes.items }
    ensures { (m : Undivided) → Shows table.now.sides table.now.nodes.items m → m.bands ≡ bands.now → result ≡ min2_of m a b }
{
    least_between(bands, table.point(a), table.point(b))
}

/// Whether an edge is longer than its band allows.
pub fn is_long(table: &EdgeTable, bands: &[Band], a: u32, b: u32) -> bool
    requires { ArePlacesInRange table.now.nodes.items }
    ensures { (m : Undivided) → Shows table.now.sides table.now.nodes.items m → m.bands ≡ bands.now → result ≡ is_long m a b }
{
    is_long_between(bands, table.point(a), table.point(b))
}

/// The longest edge of the triangle `p`, `q`, `z`.
pub fn longest(table: &EdgeTable, p: u32, q: u32, z: u32) -> Span
    requires { ArePlacesInRange table.now.nodes.items }
    ensures { (m : Undivided) → Shows table.now.sides table.now.nodes.items m → span_value result ≡ longest_of m p q z }
{
    longest_between(placed(table, p), placed(table, q), placed(table, z))
}
