//! What a contraction makes of the held stars.
ghost use Rattle.std.specs.Prelude.{◌≡◌, ℕ, ◌+◌, ◌≤◌, IfOk};
ghost use Rattle.pf_model.specs.declared.Op.TheVariants.{Contract};
ghost use Rattle.pf_model.specs.Mesh.{Undivided};
ghost use Rattle.pf_star_model.specs.Patched.{patch_of};
ghost use Rattle.pf_star_model.specs.Laws.{CanApply, AreEndsShown};

use pf_geom::NoMemory;
use pf_model::Op;
use pf_rings::{NewStar, Rings};
use std::alloc::Global;

/// The new stars of `v` and of the other neighbours of `u`, by rising node, among them that `u` has none. The
/// contraction of `u` onto `v` passes, and these stars are held. Want of memory is its only failure.
pub fn patch<R: Rings>(alloc: Global, r: &R, u: u32, v: u32) -> Result<Vec<NewStar>, NoMemory>
    ensures { IfOk result (λ x. (m : Undivided) (chunk ticket : ℕ) → CanApply m record { ticket = ticket; chunk = chunk; op = Contract u v } → AreEndsShown (R.lent r.now) m (Contract u v)
        → m.first_new + ticket ≤ 4294967295 → x.items ≡ patch_of (R.lent r.now) 4294967295 (Contract u v)) }
{
    pf_patch::patch(alloc, r, Op::Contract { u, v })
}
