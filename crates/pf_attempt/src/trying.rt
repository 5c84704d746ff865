ghost use Rattle.std.specs.Prelude.{◌≡◌, ◌≢◌, ℕ, ◌+◌, ◌<◌, ◌≤◌, [], ◌∷◌, length, Some, None, IfSome, IfOk};
ghost use Rattle.pf_model.specs.declared.Op.{Op};
ghost use Rattle.pf_model.specs.declared.Op.TheVariants.{Flip, Contract};
ghost use Rattle.pf_model.specs.Stars.{Star};
ghost use Rattle.pf_model.specs.Ends.{first_end, second_end};
ghost use Rattle.pf_star_model.specs.Judged.{judged};
ghost use Rattle.pf_core_model.specs.Lists.{In};
ghost use Rattle.pf_core_model.specs.Core.{nodes_in};
ghost use Rattle.pf_core_model.specs.Right.{IsEnd};
ghost use Rattle.pf_holder.specs.Facts.{LendsAll, IsJudged, HoldsCavity, IsNearLent, won_pair, mesh_alone};
ghost use Rattle.pf_holder.specs.Prepared.{IsReady};
ghost use Rattle.pf_holder.specs.Answers.{IsBacked, IsEntered, IsInCavity, HoldsStar, IsFailing, TellsOf, IsDoneAnswer, AreEndsNames, FoundNothing, IsJudgedAnswer};
ghost use Rattle.pf_attempt.specs.Stages.{judged_first, judged_last, HoldsEnds, HoldsPart, CanMake, PassesHeld, IsRefusedAnswer, IsTicketBelow};

use pf_cavity::{Need, need};
use pf_core_model::{Answer, Asked};
use pf_geom::NoMemory;
use pf_ghost::{Ready, prepare_owned};
use pf_holder::{Hold, Holder};
use pf_model::{Cond, Op};
use pf_patch::patch;
use std::alloc::Global;

/// Tries one operation by a chunk, and holds nothing afterwards.
///
/// `Spent` comes exactly where the allowance is 0. Then the ends are held as written, and judged; then the rest
/// of the cavity is held by rising name, and the last condition of a flip judged. `Gone` and `Unborn` name an
/// end that is dead, or that was never live; `Busy` a node of the cavity that another holds. `Refused` has the
/// first condition that fails. Patch and copies are made last, where want of memory gives `Memory`, and the
/// operation is committed in its normal form.
///
/// Each answer is backed by what the holder came to know in the call. The ticket of an operation that was made is one
/// that it had not seen, and is seen afterwards. Where it is alone, an operation that passes, with both ends live, is
/// done unless memory is wanting.
pub fn attempt<H: Holder>(alloc: Global, h: &mut H, chunk: u16, op: Op) -> Answer
    requires nothing { (H.pairs h.old ≡ []) × (H.unborn h.old ≡ None) × (H.owed h.old ≡ []) }
    requires lends { LendsAll (H.lent h.old) (H.pairs h.old) }
    requires near { chunk < (H.opening h.old).mesh.chunks }
    ensures same { H.same h.old h.new }
    ensures nothing { (H.pairs h.new ≡ []) × (H.unborn h.new ≡ None) × (H.owed h.new ≡ []) }
    ensures lends { LendsAll (H.lent h.new) (H.pairs h.new) }
    ensures entered { IsEntered chunk op (H.allowance h.old) (H.entries h.old) (H.allowance h.new) (H.entries h.new) result }
    ensures right { IsBacked (H.opening h.old) chunk op (H.seen_at h.old) (H.gained h.old h.new) result }
    ensures seen { H.seen_at h.old ≤ H.seen_at h.new }
    ensures below { IsTicketBelow (H.seen_at h.new) result }
    ensures alone { H.alone h.old → TellsOf (mesh_alone (H.opening h.old) (H.entries h.old)) chunk op result }
    ensures judged { 0 < H.allowance h.old → AreEndsNames (H.opening h.old) op → FoundNothing (H.gained h.old h.new) → IsJudgedAnswer result }
    ensures done { H.alone h.old → 0 < H.allowance h.old → IsFailing (mesh_alone (H.opening h.old) (H.entries h.old)) chunk op None → IsDoneAnswer result }
{
    if h.allow() == 0 {
        return Answer::Spent;
    }
    let answer = tried(alloc, h, chunk, op);
    h.give_back();
    answer
}

// The operation is made, or it is said why not.
fn tried<H: Holder>(alloc: Global, h: &mut H, chunk: u16, op: Op) -> Answer
    requires rich { 0 < H.allowance h.old }
    requires nothing { H.pairs h.old ≡ [] }
    requires clear { (H.unborn h.old ≡ None) × (H.owed h.old ≡ []) }
    requires lends { LendsAll (H.lent h.old) (H.pairs h.old) }
    requires near { chunk < (H.opening h.old).mesh.chunks }
    ensures same { H.same h.old h.new }
    ensures entered { IsEntered chunk op (H.allowance h.old) (H.entries h.old) (H.allowance h.new) (H.entries h.new) result }
    ensures right { IsBacked (H.opening h.old) chunk op (H.seen_at h.old) (H.gained h.old h.new) result }
    ensures seen { H.seen_at h.old ≤ H.seen_at h.new }
    ensures below { IsTicketBelow (H.seen_at h.new) result }
    ensures alone { H.alone h.old → TellsOf (mesh_alone (H.opening h.old) (H.entries h.old)) chunk op result }
{
    if let Some(answer) = judged_held(h, chunk, op) {
        return answer;
    }
    made(alloc, h, chunk, op)
}

/// Holds what the operation needs, and judges it. It is `None` where it passes: its cavity is held then.
pub fn judged_held<H: Holder>(h: &mut H, chunk: u16, op: Op) -> Option<Answer>
    requires nothing { H.pairs h.old ≡ [] }
    requires lends { LendsAll (H.lent h.old) (H.pairs h.old) }
    ensures same { H.same h.old h.new }
    ensures lends { LendsAll (H.lent h.new) (H.pairs h.new) }
    ensures others { (H.unborn h.new ≡ H.unborn h.old) × (H.owed h.new ≡ H.owed h.old) }
    ensures kept { (H.entries h.new ≡ H.entries h.old) × (H.allowance h.new ≡ H.allowance h.old) × (H.seen_at h.old ≤ H.seen_at h.new) }
    ensures passes { result ≡ None → PassesHeld (H.opening h.new).mesh.bands (H.pairs h.new) chunk op }
    ensures refused { IfSome result IsRefusedAnswer }
    ensures right { IfSome result (λ x. IsBacked (H.opening h.old) chunk op (H.seen_at h.old) (H.gained h.old h.new) x) }
    ensures alone { H.alone h.old → IfSome result (λ x. TellsOf (mesh_alone (H.opening h.old) (H.entries h.old)) chunk op x) }
{
    if let Some(answer) = ends_held(h, chunk, op) {
        return Some(answer);
    }
    if let Some(cond) = first_judged(h, chunk, op) {
        return Some(refused(h, chunk, op, cond));
    }
    if let Some(answer) = cavity_held(h, chunk, op) {
        return Some(answer);
    }
    if let Some(cond) = last_judged(h, chunk, op) {
        return Some(refused(h, chunk, op, cond));
    }
    None
}

// Holds both ends, as written.
fn ends_held<H: Holder>(h: &mut H, chunk: u16, op: Op) -> Option<Answer>
    requires nothing { H.pairs h.old ≡ [] }
    requires lends { LendsAll (H.lent h.old) (H.pairs h.old) }
    ensures same { H.same h.old h.new }
    ensures lends { LendsAll (H.lent h.new) (H.pairs h.new) }
    ensures others { (H.unborn h.new ≡ H.unborn h.old) × (H.owed h.new ≡ H.owed h.old) }
    ensures kept { (H.entries h.new ≡ H.entries h.old) × (H.allowance h.new ≡ H.allowance h.old) × (H.seen_at h.old ≤ H.seen_at h.new) }
    ensures ends { result ≡ None → HoldsEnds op (H.pairs h.new) }
    ensures refused { IfSome result IsRefusedAnswer }
    ensures right { IfSome result (λ x. IsBacked (H.opening h.old) chunk op (H.seen_at h.old) (H.gained h.old h.new) x) }
    ensures alone { H.alone h.old → IfSome result (λ x. TellsOf (mesh_alone (H.opening h.old) (H.entries h.old)) chunk op x) }
{
    let (a, b) = ends_of(op);
    if let Some(answer) = end_held(h, chunk, op, a) {
        return Some(answer);
    }
    if a == b {
        return None;
    }
    end_held(h, chunk, op, b)
}

// The ends, as written.
fn ends_of(op: Op) -> (u32, u32)
    ensures { (result.0 ≡ first_end op) × (result.1 ≡ second_end op) }
{
    match op {
        Op::Flip { a, b } => (a, b),
        Op::Bisect { a, b } => (a, b),
        Op::Contract { u, v } => (u, v),
    }
}

// Holds an end.
fn end_held<H: Holder>(h: &mut H, chunk: u16, op: Op, n: u32) -> Option<Answer>
    requires end { IsEnd n op }
    requires away { In n (nodes_in (H.pairs h.old)) → ⊥ }
    requires room { length (H.pairs h.old) < 65 }
    requires lends { LendsAll (H.lent h.old) (H.pairs h.old) }
    ensures same { H.same h.old h.new }
    ensures lends { LendsAll (H.lent h.new) (H.pairs h.new) }
    ensures others { (H.unborn h.new ≡ H.unborn h.old) × (H.owed h.new ≡ H.owed h.old) }
    ensures kept { (H.entries h.new ≡ H.entries h.old) × (H.allowance h.new ≡ H.allowance h.old) × (H.seen_at h.old ≤ H.seen_at h.new) }
    ensures won { result ≡ None → (s : Star) × (H.pairs h.new ≡ won_pair n s ∷ H.pairs h.old) }
    ensures refused { IfSome result IsRefusedAnswer }
    ensures right { IfSome result (λ x. IsBacked (H.opening h.old) chunk op (H.seen_at h.old) (H.gained h.old h.new) x) }
    ensures alone { H.alone h.old → IfSome result (λ x. TellsOf (mesh_alone (H.opening h.old) (H.entries h.old)) chunk op x) }
{
    match h.hold(n) {
        Hold::Won => None,
        Hold::Lost { holder } => {
            let at = h.note(None);
            Some(Answer::Busy {
                at,
                node: n,
                holder,
            })
        }
        Hold::Dead => {
            let at = h.note(None);
            Some(Answer::Gone { at, node: n })
        }
        Hold::Never => Some(Answer::Unborn { node: n }),
    }
}

// Judges a contraction, whose node that goes is held.
fn contraction_judged<H: Holder>(h: &H, chunk: u16, u: u32, v: u32) -> Option<Cond>
    requires lends { LendsAll (H.lent h.now) (H.pairs h.now) }
    requires held { HoldsStar (H.pairs h.now) u }
    ensures { result ≡ judged (H.lent h.now) (H.opening h.now).mesh.bands chunk (Contract u v) }
{
    pf_contract::judge(h, h.bands(), chunk, u, v)
}

// Judges what can be judged from the ends.
fn first_judged<H: Holder>(h: &H, chunk: u16, op: Op) -> Option<Cond>
    requires lends { LendsAll (H.lent h.now) (H.pairs h.now) }
    requires held { HoldsStar (H.pairs h.now) (first_end op) }
    ensures { result ≡ judged_first (H.lent h.now) (H.opening h.now).mesh.bands chunk op }
{
    match op {
        Op::Flip { a, b } => pf_flip::judge_ends(h, chunk, a, b),
        Op::Bisect { a, b } => pf_bisect::judge(h, h.bands(), chunk, a, b),
        Op::Contract { u, v } => contraction_judged(h, chunk, u, v),
    }
}

// Judges a flip, whose cavity is held.
fn flip_judged<H: Holder>(h: &H, chunk: u16, a: u32, b: u32) -> Option<Cond>
    ensures { result ≡ judged (H.lent h.now) (H.opening h.now).mesh.bands chunk (Flip a b) }
{
    pf_flip::judge(h, chunk, a, b)
}

// Judges what is left, once the cavity is held.
fn last_judged<H: Holder>(h: &H, chunk: u16, op: Op) -> Option<Cond>
    ensures { result ≡ judged_last (H.lent h.now) (H.opening h.now).mesh.bands chunk op }
{
    match op {
        Op::Flip { a, b } => flip_judged(h, chunk, a, b),
        Op::Bisect { a: _, b: _ } => None,
        Op::Contract { u: _, v: _ } => None,
    }
}

// The operation fails.
fn refused<H: Holder>(h: &mut H, chunk: u16, op: Op, cond: Cond) -> Answer
    requires ends { HoldsStar (H.pairs h.old) (first_end op) × HoldsStar (H.pairs h.old) (second_end op) }
    requires fails { IsJudged (H.opening h.old).mesh.bands (H.pairs h.old) chunk op (Some cond) }
    requires lends { LendsAll (H.lent h.old) (H.pairs h.old) }
    ensures same { H.same h.old h.new }
    ensures lends { LendsAll (H.lent h.new) (H.pairs h.new) }
    ensures others { (H.unborn h.new ≡ H.unborn h.old) × (H.owed h.new ≡ H.owed h.old) }
    ensures kept { (H.entries h.new ≡ H.entries h.old) × (H.allowance h.new ≡ H.allowance h.old) × (H.seen_at h.old ≤ H.seen_at h.new) }
    ensures refused { IsRefusedAnswer result }
    ensures right { IsBacked (H.opening h.old) chunk op (H.seen_at h.old) (H.gained h.old h.new) result }
    ensures alone { H.alone h.old → TellsOf (mesh_alone (H.opening h.old) (H.entries h.old)) chunk op result }
{
    let at = h.note(Some(Asked { chunk, op }));
    Answer::Refused { at, cond }
}

// Holds the rest of the cavity, by rising name.
fn cavity_held<H: Holder>(h: &mut H, chunk: u16, op: Op) -> Option<Answer>
    requires part { HoldsPart (H.opening h.old).mesh.bands (H.pairs h.old) chunk op }
    requires lends { LendsAll (H.lent h.old) (H.pairs h.old) }
    ensures same { H.same h.old h.new }
    ensures lends { LendsAll (H.lent h.new) (H.pairs h.new) }
    ensures others { (H.unborn h.new ≡ H.unborn h.old) × (H.owed h.new ≡ H.owed h.old) }
    ensures kept { (H.entries h.new ≡ H.entries h.old) × (H.allowance h.new ≡ H.allowance h.old) × (H.seen_at h.old ≤ H.seen_at h.new) }
    ensures whole { result ≡ None → HoldsPart (H.opening h.new).mesh.bands (H.pairs h.new) chunk op × HoldsCavity (H.opening h.new).mesh.bands (H.pairs h.new) chunk op }
    ensures refused { IfSome result IsRefusedAnswer }
    ensures right { IfSome result (λ x. IsBacked (H.opening h.old) chunk op (H.seen_at h.old) (H.gained h.old h.new) x) }
    ensures alone { H.alone h.old → IfSome result (λ x. TellsOf (mesh_alone (H.opening h.old) (H.entries h.old)) chunk op x) }
{
    'rest: loop {
        match need(h, op) {
            Need::Whole => return None,
            Need::Hold { node } => {
                if let Some(answer) = node_held(h, chunk, op, node) {
                    return Some(answer);
                }
            }
        }
    }
}

// Holds a node of the cavity.
fn node_held<H: Holder>(h: &mut H, chunk: u16, op: Op, n: u32) -> Option<Answer>
    requires cavity { IsInCavity (H.opening h.old).mesh.bands (H.pairs h.old) chunk op n }
    requires near { IsNearLent (H.lent h.old) n }
    requires away { In n (nodes_in (H.pairs h.old)) → ⊥ }
    requires room { length (H.pairs h.old) < 65 }
    requires lends { LendsAll (H.lent h.old) (H.pairs h.old) }
    ensures same { H.same h.old h.new }
    ensures lends { LendsAll (H.lent h.new) (H.pairs h.new) }
    ensures others { (H.unborn h.new ≡ H.unborn h.old) × (H.owed h.new ≡ H.owed h.old) }
    ensures kept { (H.entries h.new ≡ H.entries h.old) × (H.allowance h.new ≡ H.allowance h.old) × (H.seen_at h.old ≤ H.seen_at h.new) }
    ensures won { result ≡ None → (s : Star) × (H.pairs h.new ≡ won_pair n s ∷ H.pairs h.old) }
    ensures refused { IfSome result IsRefusedAnswer }
    ensures right { IfSome result (λ x. IsBacked (H.opening h.old) chunk op (H.seen_at h.old) (H.gained h.old h.new) x) }
    ensures alone { H.alone h.old → IfSome result (λ x. TellsOf (mesh_alone (H.opening h.old) (H.entries h.old)) chunk op x) }
{
    match h.hold(n) {
        Hold::Won => None,
        Hold::Lost { holder } => {
            let at = h.note(None);
            Some(Answer::Busy {
                at,
                node: n,
                holder,
            })
        }
        Hold::Dead => unreachable!(),
        Hold::Never => unreachable!(),
    }
}

// The operation is made, for which all is held.
fn made<H: Holder>(alloc: Global, h: &mut H, chunk: u16, op: Op) -> Answer
    requires rich { 0 < H.allowance h.old }
    requires clear { (H.unborn h.old ≡ None) × (H.owed h.old ≡ []) }
    requires lends { LendsAll (H.lent h.old) (H.pairs h.old) }
    requires ends { HoldsStar (H.pairs h.old) (first_end op) × HoldsStar (H.pairs h.old) (second_end op) }
    requires passes { IsJudged (H.opening h.old).mesh.bands (H.pairs h.old) chunk op None }
    requires cavity { HoldsCavity (H.opening h.old).mesh.bands (H.pairs h.old) chunk op }
    ensures same { H.same h.old h.new }
    ensures entered { IsEntered chunk op (H.allowance h.old) (H.entries h.old) (H.allowance h.new) (H.entries h.new) result }
    ensures right { IsBacked (H.opening h.old) chunk op (H.seen_at h.old) (H.gained h.old h.new) result }
    ensures seen { H.seen_at h.old ≤ H.seen_at h.new }
    ensures below { IsTicketBelow (H.seen_at h.new) result }
    ensures alone { H.alone h.old → TellsOf (mesh_alone (H.opening h.old) (H.entries h.old)) chunk op result }
{
    let normal = op.normal();
    match readied(alloc, h, normal) {
        Ok(ready) => {
            let ticket = h.commit(chunk, normal, ready);
            Answer::Done { ticket }
        }
        Err(NoMemory) => {
            h.note(None);
            Answer::Memory
        }
    }
}

// The copies that an operation owes, for which all is held.
fn readied<H: Holder>(alloc: Global, h: &H, op: Op) -> Result<Ready, NoMemory>
    requires lends { LendsAll (H.lent h.now) (H.pairs h.now) }
    requires can { CanMake (H.opening h.now).mesh.bands (H.pairs h.now) op }
    ensures { IfOk result (λ r. IsReady (H.lent h.now) (H.opening h.now).mesh.chunks op r) }
{
    let fresh = patch(alloc, h, op)?;
    let ready = prepare_owned(alloc, fresh, h, h.chunks())?;
    Ok(ready)
}
