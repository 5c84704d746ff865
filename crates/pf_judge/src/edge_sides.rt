//! The triangles on both sides of an edge, looked up once.
ghost use Rattle.std.specs.Prelude.{◌≡◌};
ghost use Rattle.pf_model.specs.Mesh.{Undivided};
ghost use Rattle.pf_rules.specs.EdgeSides.{AreEdgeSides};
ghost use Rattle.pf_edges.specs.Table.{Shows, side_at};

use pf_edges::table::EdgeTable;
use pf_rules::edge_sides::EdgeSides;

/// The triangles on both sides of the edge from `p` to `q`.
pub fn edge_sides(table: &EdgeTable, p: u32, q: u32) -> EdgeSides
    ensures sides { (m : Undivided) → Shows table.now.sides table.now.nodes.items m → AreEdgeSides m.tris p q result }
    ensures left { result.left ≡ side_at table.now.sides p q }
{
    EdgeSides {
        left: table.side(p, q),
        right: table.side(q, p),
    }
}
