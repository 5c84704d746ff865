//! A flip that is judged and planned by the edge table.
ghost use Rattle.std.specs.Prelude.{◌≡◌, ℕ, None};
ghost use Rattle.pf_model.specs.declared.Op.TheVariants.{Flip};
ghost use Rattle.pf_model.specs.Mesh.{Undivided};
ghost use Rattle.pf_model.specs.Conditions.{first_failing};
ghost use Rattle.pf_edges.specs.Kept.{IsKept};
ghost use Rattle.pf_rules.specs.Change.{IsChange};
ghost use Rattle.pf_edges.specs.Table.{ArePlacesInRange};

use crate::conditions::flip_condition;
use crate::edge_sides::edge_sides;
use pf_edges::table::EdgeTable;
use pf_model::Cond;
use pf_rules::change::Tris;
use pf_rules::flip::flip_change;

/// The first condition that a flip fails, or `None` where it passes. Then the lists have what it makes of
/// the triangles at its edge. What they held doesn't matter.
pub fn flip_plan(
    table: &EdgeTable,
    chunk: u16,
    a: u32,
    b: u32,
    removed: &mut Tris,
    new: &mut Tris,
) -> Option<Cond>
    requires { ArePlacesInRange table.now.nodes.items }
    ensures cond { (m : Undivided) → IsKept table.now.sides table.now.nodes.items m → result ≡ first_failing m chunk (Flip a b) }
    ensures change { (m : Undivided) (n : ℕ) → IsKept table.now.sides table.now.nodes.items m → result ≡ None
        → IsChange m n (Flip a b) removed.new.items new.new.items }
{
    let edge_sides = edge_sides(table, a, b);
    if let Some(cond) = flip_condition(table, chunk, a, b, edge_sides) {
        return Some(cond);
    }
    flip_change(a, b, edge_sides, removed, new);
    None
}
