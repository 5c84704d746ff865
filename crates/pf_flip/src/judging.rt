//! The first condition that a flip fails, from the stars of its ends and of its left apex.
ghost use Rattle.std.specs.Prelude.{◌≡◌, ◌++◌, [], List, Some, min, max};
ghost use Rattle.pf_model.specs.declared.Band.{Band};
ghost use Rattle.pf_model.specs.declared.Op.TheVariants.{Flip};
ghost use Rattle.pf_model.specs.Clauses.{first_of};
ghost use Rattle.pf_model.specs.Mesh.{Undivided};
ghost use Rattle.pf_model.specs.Conforming.{IsConforming};
ghost use Rattle.pf_model.specs.Rows.{apex_or, edge_rows, flip_rows};
ghost use Rattle.pf_model.specs.Stars.{is_neighbour};
ghost use Rattle.pf_model.specs.Conditions.{first_failing};
ghost use Rattle.pf_star_model.specs.Lent.{IsShown, sight_of, spokes_in};
ghost use Rattle.pf_star_model.specs.Judged.{judged, judged_ends, ends_failing, IsApexShown};
ghost use Rattle.pf_star_model.specs.Laws.{AreEndsShown};

use pf_model::Cond;
use pf_rings::{Rings, Star};
use pf_rules::edge_sides::EdgeSides;
use pf_rules::refusals::{apex_of, edge_refusal, flip_refusal, there_refusal};
use pf_sight::{apex_place, placed, sides_at};

// The first condition that fails, but for the last, by the star of the lower end and the triangles at the edge.
fn ends_refusal(star: &Star, chunk: u16, a: u32, b: u32, sides: EdgeSides) -> Option<Cond>
    ensures { result ≡ first_of (edge_rows chunk a b sides.left sides.right ++ flip_rows (sight_of [] (Some star.now)) (min a b) (max a b) sides.left sides.right) }
{
    match edge_refusal(chunk, a, b, sides) {
        Some(cond) => Some(cond),
        None => flip_refusal(
            placed(star, a.min(b)),
            placed(star, a.max(b)),
            sides,
            apex_place(star, sides.left),
            apex_place(star, sides.right),
        ),
    }
}

// Whether there is an edge between the two apexes, by the star of the left one.
fn is_there<R: Rings>(r: &R, sides: EdgeSides) -> bool
    ensures { result ≡ is_neighbour (apex_or sides.right) (spokes_in (R.lent r.now (apex_or sides.left))) }
{
    match r.ring(apex_of(sides.left)) {
        Some(ring) => ring.is_neighbour(apex_of(sides.right)),
        None => false,
    }
}

/// The first condition that the flip of the edge `a`, `b` fails, but for the last, that there is no edge between
/// the two apexes yet; `None` where these pass. `chunk` is to own a triangle at the edge. It is read from the
/// stars of the ends: so it is the mesh's on each conforming mesh that has these stars. Takes no memory.
pub fn judge_ends<R: Rings>(r: &R, chunk: u16, a: u32, b: u32) -> Option<Cond>
    ensures value { result ≡ judged_ends (R.lent r.now) chunk a b }
    ensures on_mesh { (m : Undivided) → IsConforming m → IsShown (R.lent r.now) m a → IsShown (R.lent r.now) m b → result ≡ ends_failing m chunk a b }
{
    match r.ring(a.min(b)) {
        Some(ring) => {
            let star = ring.star();
            ends_refusal(star, chunk, a, b, sides_at(star, a.max(b)))
        }
        None => Some(Cond::NoEdge),
    }
}

/// The first condition that the flip of the edge `a`, `b` fails, and `None` where it passes. `chunk` is to own a
/// triangle at the edge. It is read from the stars of the ends, and from that of the left apex where `judge_ends`
/// gives `None`: so it is the mesh's on each conforming mesh that has these stars. Takes no memory.
pub fn judge<R: Rings>(r: &R, chunk: u16, a: u32, b: u32) -> Option<Cond>
    ensures value { (bands : List Band) → result ≡ judged (R.lent r.now) bands chunk (Flip a b) }
    ensures on_mesh { (m : Undivided) → IsConforming m → AreEndsShown (R.lent r.now) m (Flip a b) → IsApexShown (R.lent r.now) m chunk (Flip a b)
        → result ≡ first_failing m chunk (Flip a b) }
{
    let Some(ring) = r.ring(a.min(b)) else {
        return Some(Cond::NoEdge);
    };
    let star = ring.star();
    let sides = sides_at(star, a.max(b));
    match ends_refusal(star, chunk, a, b, sides) {
        Some(cond) => Some(cond),
        None => there_refusal(sides, is_there(r, sides)),
    }
}
