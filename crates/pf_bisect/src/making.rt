//! What a bisection makes of the held stars.
ghost use Rattle.std.specs.Prelude.{◌≡◌, ℕ, ◌+◌, ◌≤◌, IfOk};
ghost use Rattle.pf_model.specs.declared.Op.TheVariants.{Bisect};
ghost use Rattle.pf_model.specs.Mesh.{Undivided};
ghost use Rattle.pf_star_model.specs.Patched.{patch_of};
ghost use Rattle.pf_star_model.specs.Laws.{CanApply, AreEndsShown};

use pf_geom::NoMemory;
use pf_model::Op;
use pf_rings::{NewStar, Rings};
use std::alloc::Global;

/// The new stars of the ends and of the apexes of the edge `a`, `b`, by rising node, and that of the node in its
/// middle, which is named 4,294,967,295 until it gets its name. The bisection passes, and these stars are held.
/// Want of memory is its only failure.
pub fn patch<R: Rings>(alloc: Global, r: &R, a: u32, b: u32) -> Result<Vec<NewStar>, NoMemory>
    ensures { IfOk result (λ v. (m : Undivided) (chunk ticket : ℕ) → CanApply m record { ticket = ticket; chunk = chunk; op = Bisect a b } → AreEndsShown (R.lent r.now) m (Bisect a b)
        → m.first_new + ticket ≤ 4294967295 → v.items ≡ patch_of (R.lent r.now) 4294967295 (Bisect a b)) }
{
    pf_patch::patch(alloc, r, Op::Bisect { a, b })
}
