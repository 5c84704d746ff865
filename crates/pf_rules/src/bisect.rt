//! What a bisection makes of the triangles at its edge, and whether a half would be too short.
ghost use Rattle.std.specs.Prelude.{◌≡◌, pos, ◌*ℤ◌, ◌+◌, ◌<◌, ◌≤◌, ◌++◌, int_lt};
ghost use Rattle.arrayvec.specs.ArrayVec.{array_vec_len};
ghost use Rattle.pf_geom.specs.Plane.{IsInRange, len2_of};
ghost use Rattle.pf_model.specs.declared.Op.TheVariants.{Bisect};
ghost use Rattle.pf_model.specs.Mesh.{Undivided, len2_at};
ghost use Rattle.pf_model.specs.Lengths.{min2_of};
ghost use Rattle.pf_model.specs.Conforming.{IsConforming};
ghost use Rattle.pf_model.specs.Applied.{halves_of};
ghost use Rattle.pf_model.specs.Exchange.{whole_of};
ghost use Rattle.pf_model.specs.Limits.{most_spokes};
ghost use Rattle.pf_rules.specs.EdgeSides.{AreEdgeSides};
ghost use Rattle.pf_rules.specs.Lengths.{IsPlaced};
ghost use Rattle.pf_rules.specs.Change.{IsChange};

use crate::change::{Tris, least_first};
use crate::edge_sides::EdgeSides;
use crate::lengths::{Placed, least_between};
use pf_geom::{Point, len2};
use pf_model::{Band, Side};

// Whether the squared distance of two points is below four times the least squared length.
fn is_below_four(a: Point, b: Point, least: i64) -> bool
    requires a { IsInRange a }
    requires b { IsInRange b }
    ensures { result ≡ int_lt (len2_of a b) (pos 4 *ℤ least) }
{
    i128::from(len2(a, b)) < 4 * i128::from(least)
}

/// Whether a half of the edge would be shorter than its band allows.
pub fn is_too_short(bands: &[Band], lo: Placed, hi: Placed) -> bool
    requires lo { IsInRange lo.at }
    requires hi { IsInRange hi.at }
    ensures { (m : Undivided) → m.bands ≡ bands.now → IsPlaced m lo → IsPlaced m hi
        → result ≡ int_lt (len2_at m lo.name hi.name) (pos 4 *ℤ min2_of m lo.name hi.name) }
{
    let least = least_between(bands, lo.at, hi.at);
    is_below_four(lo.at, hi.at, least)
}

// The triangle of the side left of the edge from `p` to `q`, and its halves, cut at `n`.
fn halve(removed: &mut Tris, new: &mut Tris, n: u32, p: u32, q: u32, side: Option<Side>)
    requires removed { array_vec_len removed.old < most_spokes }
    requires new { array_vec_len new.old < 59 }
    ensures removed { removed.new.items ≡ removed.old.items ++ whole_of p q (side) }
    ensures new { new.new.items ≡ new.old.items ++ halves_of n p q (side) }
    ensures removed_len { array_vec_len removed.new ≤ array_vec_len removed.old + 1 }
    ensures new_len { array_vec_len new.new ≤ array_vec_len new.old + 2 }
{
    if let Some(left) = side {
        removed.push(least_first(p, q, left.apex, left.owner));
        new.push(least_first(p, n, left.apex, left.owner));
        new.push(least_first(n, q, left.apex, left.owner));
    }
}

/// What a bisection that passes, by the new node `n`, makes of the triangles at its edge.
pub fn bisect_change(
    n: u32,
    a: u32,
    b: u32,
    edge_sides: EdgeSides,
    removed: &mut Tris,
    new: &mut Tris,
)
    ensures { (m : Undivided) → IsConforming m → AreEdgeSides m.tris a b edge_sides → IsChange m n (Bisect a b) removed.new.items new.new.items }
{
    let (lo, hi) = (a.min(b), a.max(b));
    let rising = edge_sides.rising(a, b);
    removed.clear();
    new.clear();
    halve(removed, new, n, lo, hi, rising.left);
    halve(removed, new, n, hi, lo, rising.right);
}
