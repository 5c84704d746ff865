//! The first condition that a contraction fails, from the stars of its ends.
ghost use Rattle.std.specs.Prelude.{◌≡◌, All, Some};
ghost use Rattle.pf_model.specs.declared.Op.TheVariants.{Contract};
ghost use Rattle.pf_model.specs.Clauses.{first_of};
ghost use Rattle.pf_model.specs.Mesh.{Undivided};
ghost use Rattle.pf_model.specs.Conforming.{IsConforming};
ghost use Rattle.pf_model.specs.Rows.{contract_rows, star_rows};
ghost use Rattle.pf_model.specs.Stars.{star_of};
ghost use Rattle.pf_model.specs.Conditions.{first_failing};
ghost use Rattle.pf_star_model.specs.Lent.{IsShown, sight_of};
ghost use Rattle.pf_star_model.specs.Judged.{judged};
ghost use Rattle.pf_star_model.specs.Laws.{AreEndsShown};
ghost use Rattle.pf_rules.specs.Star.{IsSpokePlaced};

use crate::far::least_far;
use crate::links::least_link;
use crate::shape::shape_of;
use pf_model::{Band, Cond, Spoke};
use pf_rings::{Rings, Star, is_fan};
use pf_rules::edge_sides::EdgeSides;
use pf_rules::refusals::{contract_refusal, edge_refusal, far_refusal};
use pf_sight::{placed, sides_at, spokes_lent};

// A node with more triangles isn't contracted.
const MOST_TRIANGLES: usize = 60;

// The first condition on the star of `u`, once its triangles are few and one fan. `around` are the spokes of `v`.
fn star_refusal(
    star: &Star,
    bands: &[Band],
    u: u32,
    v: u32,
    sides: EdgeSides,
    around: &[Spoke],
) -> Option<Cond>
    ensures { All (IsSpokePlaced (sight_of bands.now (Some star.now))) star.now.spokes
        → result ≡ first_of (star_rows (sight_of bands.now (Some star.now)) u v sides.left sides.right star.now.spokes around.now) }
{
    let spokes = star.spokes();
    let stays = placed(star, v);
    let link = least_link(sides, around, spokes);
    match contract_refusal(stays, shape_of(star, u), link, spokes) {
        Some(cond) => Some(cond),
        None => far_refusal(v, least_far(bands, stays, around, spokes)),
    }
}

// The first condition of a contraction alone, by the star of `u`. `around` are the spokes of `v`.
fn alone_refusal(
    star: &Star,
    bands: &[Band],
    u: u32,
    v: u32,
    sides: EdgeSides,
    around: &[Spoke],
) -> Option<Cond>
    ensures { (m : Undivided) → IsConforming m → star_of m u ≡ Some star.now
        → result ≡ first_of (contract_rows (sight_of bands.now (Some star.now)) u v sides.left sides.right star.now.spokes around.now) }
{
    if star.spokes().len() > MOST_TRIANGLES {
        return Some(Cond::TooWide);
    }
    if !is_fan(star.spokes()) {
        return Some(Cond::Pinched);
    }
    star_refusal(star, bands, u, v, sides, around)
}

/// The first condition that the contraction of `u` onto `v` fails, and `None` where it passes. `chunk` is to own a
/// triangle at the edge. It is read from the stars of `u` and `v`, where that of `u` is one of a conforming mesh:
/// so it is the mesh's on each conforming mesh that has these stars and bands. Takes no memory.
pub fn judge<R: Rings>(r: &R, bands: &[Band], chunk: u16, u: u32, v: u32) -> Option<Cond>
    ensures value { (m : Undivided) → IsConforming m → IsShown (R.lent r.now) m u → result ≡ judged (R.lent r.now) bands.now chunk (Contract u v) }
    ensures on_mesh { (m : Undivided) → IsConforming m → bands.now ≡ m.bands → AreEndsShown (R.lent r.now) m (Contract u v)
        → result ≡ first_failing m chunk (Contract u v) }
{
    let Some(ring) = r.ring(u) else {
        return Some(Cond::NoEdge);
    };
    let star = ring.star();
    let sides = sides_at(star, v);
    match edge_refusal(chunk, u, v, sides) {
        Some(cond) => Some(cond),
        None => alone_refusal(star, bands, u, v, sides, spokes_lent(r, v)),
    }
}
