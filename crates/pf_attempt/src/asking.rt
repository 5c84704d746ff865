//! Whether an operation passes, asked without making it.
ghost use Rattle.std.specs.Prelude.{◌≡◌, ℕ, ◌≤◌, [], None, IfSome};
ghost use Rattle.pf_holder.specs.Facts.{LendsAll, mesh_alone};
ghost use Rattle.pf_holder.specs.Answers.{IsBacked};
ghost use Rattle.pf_attempt.specs.Stages.{IsRefusedAnswer, TellsProbe};

use crate::trying::judged_held;
use pf_core_model::Answer;
use pf_holder::Holder;
use pf_model::Op;

/// Asks whether one operation by a chunk passes, makes nothing, and holds nothing afterwards.
///
/// `None` says that it passes. Another answer comes as `attempt` gives it, and is backed by what the holder came
/// to know in the call. Entries and allowance stay, no memory is taken, and the allowance may be 0.
pub fn probe<H: Holder>(h: &mut H, chunk: u16, op: Op) -> Option<Answer>
    requires nothing { (H.pairs h.old ≡ []) × (H.unborn h.old ≡ None) × (H.owed h.old ≡ []) }
    requires lends { LendsAll (H.lent h.old) (H.pairs h.old) }
    ensures same { H.same h.old h.new }
    ensures nothing { (H.pairs h.new ≡ []) × (H.unborn h.new ≡ None) × (H.owed h.new ≡ []) }
    ensures lends { LendsAll (H.lent h.new) (H.pairs h.new) }
    ensures kept { (H.entries h.new ≡ H.entries h.old) × (H.allowance h.new ≡ H.allowance h.old) × (H.seen_at h.old ≤ H.seen_at h.new) }
    ensures refused { IfSome result IsRefusedAnswer }
    ensures right { IfSome result (λ x. IsBacked (H.opening h.old) chunk op (H.seen_at h.old) (H.gained h.old h.new) x) }
    ensures alone { H.alone h.old → TellsProbe (mesh_alone (H.opening h.old) (H.entries h.old)) chunk op result }
{
    let answer = judged_held(h, chunk, op);
    h.give_back();
    answer
}
