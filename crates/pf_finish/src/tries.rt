//! One operation that answers a line of the rest list.
ghost use Rattle.std.specs.Prelude.{◌≡◌, ◌≢◌, ◌<◌, [], None, IfSome};
ghost use Rattle.pf_model.specs.Ends.{normal_of};
ghost use Rattle.pf_model.specs.Conditions.{first_failing};
ghost use Rattle.pf_holder.specs.Facts.{LendsAll, mesh_alone};
ghost use Rattle.pf_finish.specs.Passing.{IsAnswer};
ghost use Rattle.pf_finish.specs.Done.{IsWorkedOff, answered_of};

use pf_attempt::{attempt, probe};
use pf_core_model::Answer;
use pf_holder::Holder;
use pf_model::Op;
use std::alloc::Global;

/// What became of a line that passes.
#[derive(Clone, Copy, Debug, PartialEq, Eq)]
pub enum Answered {
    /// Its operation was made.
    Done { ticket: u32, op: Op },
    /// There was no allowance for it.
    Spent,
    /// There was no memory for it.
    Memory,
}

// What an answer makes of a wish: `None` where its operation is refused.
fn answered_by(op: Op, answer: Answer) -> Option<Answered>
    ensures { result ≡ answered_of op answer }
{
    match answer {
        Answer::Done { ticket } => Some(Answered::Done { ticket, op }),
        Answer::Memory => Some(Answered::Memory),
        _ => None,
    }
}

/// Makes an operation that answers a line of the rest list if it passes. It is `None` where it doesn't pass, and
/// nothing was done then. Without an allowance it is only asked whether it passes.
pub fn wish_tried<H: Holder>(alloc: Global, h: &mut H, chunk: u16, op: Op) -> Option<Answered>
    requires alone { H.alone h.old }
    requires nothing { (H.pairs h.old ≡ []) × (H.unborn h.old ≡ None) × (H.owed h.old ≡ []) }
    requires lends { LendsAll (H.lent h.old) (H.pairs h.old) }
    requires near { chunk < (H.opening h.old).mesh.chunks }
    requires wish { first_failing (mesh_alone (H.opening h.old) (H.entries h.old)) chunk op ≡ None → IsAnswer (mesh_alone (H.opening h.old) (H.entries h.old)) chunk (normal_of op) }
    ensures same { H.same h.old h.new }
    ensures nothing { (H.pairs h.new ≡ []) × (H.unborn h.new ≡ None) × (H.owed h.new ≡ []) }
    ensures lends { LendsAll (H.lent h.new) (H.pairs h.new) }
    ensures fails { result ≡ None → (H.entries h.new ≡ H.entries h.old) × (H.allowance h.new ≡ H.allowance h.old) × (first_failing (mesh_alone (H.opening h.old) (H.entries h.old)) chunk op ≢ None) }
    ensures answered { IfSome result (λ x. IsWorkedOff (H.opening h.old) (H.allowance h.old) (H.entries h.old) (H.allowance h.new) (H.entries h.new) x) }
{
    if h.allow() == 0 {
        return match probe(h, chunk, op) {
            None => Some(Answered::Spent),
            Some(_) => None,
        };
    }
    let answer = attempt(alloc, h, chunk, op);
    answered_by(op, answer)
}
