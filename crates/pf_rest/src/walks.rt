//! The walk from an edge to longer edges (Rivara).
ghost use Rattle.std.specs.Prelude.{◌≡◌};
ghost use Rattle.std.specs.Option.{option_map};
ghost use Rattle.pf_model.specs.Mesh.{Undivided};
ghost use Rattle.pf_model.specs.Wishes.{longer_on, next_longer};
ghost use Rattle.pf_rules.specs.Lengths.{span_value};
ghost use Rattle.pf_edge_list.specs.Edges.{sided_edge, IsSided};
ghost use Rattle.pf_edges.specs.Table.{ArePlacesInRange, Shows};

use pf_edge_list::edges::Sided;
use pf_edges::table::EdgeTable;
use pf_judge::lengths::longest;
use pf_model::Side;
use pf_rules::lengths::Span;

// The longest edge of the triangle on a side of the edge, where it is another one than this edge.
fn other_longest(table: &EdgeTable, e: Span, side: Option<Side>) -> Option<Span>
    requires { ArePlacesInRange table.now.nodes.items }
    ensures { (m : Undivided) → Shows table.now.sides table.now.nodes.items m
        → option_map span_value result ≡ longer_on m (span_value e) (side) }
{
    let Some(left) = side else {
        return None;
    };
    let longest = longest(table, e.lo, e.hi, left.apex);
    if longest.lo == e.lo && longest.hi == e.hi {
        return None;
    }
    Some(longest)
}

/// Where the walk goes on: to the longest edge of the first triangle that has a longer one, the left one
/// looked at first.
pub fn next_longer(table: &EdgeTable, e: Sided) -> Option<Span>
    requires { ArePlacesInRange table.now.nodes.items }
    ensures { (m : Undivided) → Shows table.now.sides table.now.nodes.items m → IsSided table.now.sides e
        → option_map span_value result ≡ next_longer m (sided_edge e) }
{
    match other_longest(table, e.span, e.edge_sides.left) {
        Some(next) => Some(next),
        None => other_longest(table, e.span, e.edge_sides.right),
    }
}
