//! What a flip makes of the triangles at its edge.
ghost use Rattle.std.specs.Prelude.{ℕ};
ghost use Rattle.pf_model.specs.declared.Op.TheVariants.{Flip};
ghost use Rattle.pf_model.specs.Mesh.{Undivided};
ghost use Rattle.pf_model.specs.Conforming.{IsConforming};
ghost use Rattle.pf_rules.specs.EdgeSides.{AreEdgeSides};
ghost use Rattle.pf_rules.specs.Change.{IsChange};

use crate::change::{Tris, least_first};
use crate::edge_sides::EdgeSides;

/// What a flip that passes makes of the two triangles at its edge.
pub fn flip_change(a: u32, b: u32, edge_sides: EdgeSides, removed: &mut Tris, new: &mut Tris)
    ensures { (m : Undivided) (n : ℕ) → IsConforming m → AreEdgeSides m.tris a b edge_sides → IsChange m n (Flip a b) removed.new.items new.new.items }
{
    let (lo, hi) = (a.min(b), a.max(b));
    let rising = edge_sides.rising(a, b);
    removed.clear();
    new.clear();
    let Some(left) = rising.left else {
        return;
    };
    let Some(right) = rising.right else {
        return;
    };
    removed.push(least_first(lo, hi, left.apex, left.owner));
    removed.push(least_first(hi, lo, right.apex, right.owner));
    new.push(least_first(lo, right.apex, left.apex, left.owner));
    new.push(least_first(hi, left.apex, right.apex, right.owner));
}
