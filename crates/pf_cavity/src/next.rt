//! The least node of a cavity that isn't held.
ghost use Rattle.std.specs.Prelude.{◌≡◌, ℕ, Contains, true, is_some};
ghost use Rattle.pf_model.specs.Mesh.{Undivided};
ghost use Rattle.pf_model.specs.Conforming.{IsConforming};
ghost use Rattle.pf_star_model.specs.Cavity.{cavity_of, needed, PassesAtEnds};
ghost use Rattle.pf_star_model.specs.Laws.{AreEndsShown, IsLeastMissing};
ghost use Rattle.pf_cavity.specs.Need.{need_of};

use crate::answer::Need;
use crate::gather::least_need;
use pf_model::Op;
use pf_rings::Rings;

/// The least node of the operation's cavity that isn't held, or `Whole` where each is. It is read from the
/// stars of the ends: so it is the cavity's on each conforming mesh that has these stars, where each condition
/// passes that is judged from them. Takes no memory.
pub fn need<R: Rings>(r: &R, op: Op) -> Need
    ensures value { result ≡ need_of (needed (R.lent r.now) op) }
    ensures whole { (m : Undivided) (chunk : ℕ) → IsConforming m → AreEndsShown (R.lent r.now) m op → PassesAtEnds m chunk op
        → result ≡ Need.Whole → (n : ℕ) → Contains (cavity_of m chunk op) n → is_some (R.lent r.now n) ≡ true }
    ensures least { (m : Undivided) (chunk : ℕ) → IsConforming m → AreEndsShown (R.lent r.now) m op → PassesAtEnds m chunk op
        → (n : ℕ) → result ≡ Need.Hold n → IsLeastMissing (λ k. is_some (R.lent r.now k)) (cavity_of m chunk op) n }
{
    match least_need(r, op) {
        Some(node) => Need::Hold { node },
        None => Need::Whole,
    }
}
