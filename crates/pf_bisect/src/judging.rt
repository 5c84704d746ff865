//! The first condition that a bisection fails, from the stars of its ends.
ghost use Rattle.std.specs.Prelude.{◌≡◌, ◌++◌, Some, min, max};
ghost use Rattle.pf_model.specs.declared.Op.TheVariants.{Bisect};
ghost use Rattle.pf_model.specs.Clauses.{first_of};
ghost use Rattle.pf_model.specs.Mesh.{Undivided};
ghost use Rattle.pf_model.specs.Conforming.{IsConforming};
ghost use Rattle.pf_model.specs.Rows.{edge_rows, bisect_rows};
ghost use Rattle.pf_model.specs.Conditions.{first_failing};
ghost use Rattle.pf_star_model.specs.Lent.{sight_of};
ghost use Rattle.pf_star_model.specs.Judged.{judged};
ghost use Rattle.pf_star_model.specs.Laws.{AreEndsShown};

use pf_model::{Band, Cond};
use pf_rings::{Rings, Star};
use pf_rules::edge_sides::EdgeSides;
use pf_rules::refusals::{bisect_refusal, edge_refusal};
use pf_sight::{apex_place, placed, sides_at};

// The first condition that fails, by the star of the lower end and the triangles at the edge.
fn star_refusal(
    star: &Star,
    bands: &[Band],
    chunk: u16,
    a: u32,
    b: u32,
    sides: EdgeSides,
) -> Option<Cond>
    ensures { result ≡ first_of (edge_rows chunk a b sides.left sides.right ++ bisect_rows (sight_of bands.now (Some star.now)) (min a b) (max a b) sides.left sides.right) }
{
    match edge_refusal(chunk, a, b, sides) {
        Some(cond) => Some(cond),
        None => bisect_refusal(
            bands,
            placed(star, a.min(b)),
            placed(star, a.max(b)),
            sides,
            apex_place(star, sides.left),
            apex_place(star, sides.right),
        ),
    }
}

/// The first condition that the bisection of the edge `a`, `b` fails, and `None` where it passes. `chunk` is to
/// own a triangle at the edge. It is read from the stars of the ends: so it is the mesh's on each conforming mesh
/// that has these stars and bands. Takes no memory.
pub fn judge<R: Rings>(r: &R, bands: &[Band], chunk: u16, a: u32, b: u32) -> Option<Cond>
    ensures value { result ≡ judged (R.lent r.now) bands.now chunk (Bisect a b) }
    ensures on_mesh { (m : Undivided) → IsConforming m → bands.now ≡ m.bands → AreEndsShown (R.lent r.now) m (Bisect a b)
        → result ≡ first_failing m chunk (Bisect a b) }
{
    match r.ring(a.min(b)) {
        Some(ring) => {
            let star = ring.star();
            star_refusal(star, bands, chunk, a, b, sides_at(star, a.max(b)))
        }
        None => Some(Cond::NoEdge),
    }
}
