//! One turn of a worker: a look at one node, and at most one try of an operation.
ghost use Rattle.std.specs.Prelude.{◌≡◌, ◌≢◌, ℕ, ◌<◌, ◌≤◌, [], ◌∷◌, All, IfSome, Some, None, Option};
ghost use Rattle.pf_core_model.specs.declared.answer.Answer.{Answer};
ghost use Rattle.pf_holder.specs.Facts.{LendsAll};
ghost use Rattle.pf_driver.specs.Visits.{HasGrown, IsTried};
ghost use Rattle.pf_driver.specs.Plans.{IsPlanBelow};
ghost use Rattle.pf_driver.specs.Turns.{HasAnswered, HasVisitedOne, OnWent, IsSpentAt, IsWentBy, TellsEnd, TellsStop};

use crate::looking::{Look, look_at};
use crate::planning::{Plan, planned, push_answered, rest_planned};
use pf_attempt::{attempt, probe};
use pf_core_model::{Answer, Asked};
use pf_geom::NoMemory;
use pf_holder::{Hold, Holder};
use pf_model::Op;
use pf_order::{Order, Place, Task};
use std::alloc::Global;

/// How a turn ended.
#[derive(Clone, Copy, Debug, PartialEq, Eq)]
pub enum Turn {
    /// It took place to its end.
    Went,
    /// The allowance is spent.
    Spent,
    /// Memory was wanting.
    Memory,
}

// How a turn ends, once the lists have what they are to have.
fn went(pushed: Result<(), NoMemory>) -> Turn
    ensures { IsWentBy result }
{
    match pushed {
        Ok(()) => Turn::Went,
        Err(NoMemory) => Turn::Memory,
    }
}

// How a turn ends with this answer to a wish.
fn wish_answered(answer: Answer, op: Op, first_new: u32, task: Task, order: &mut Order) -> Turn
    ensures { TellsEnd answer result }
{
    match answer {
        Answer::Done { .. } => went(push_answered(answer, op, first_new, task, order)),
        Answer::Refused { at: _, cond: _ } => Turn::Went,
        Answer::Busy {
            at: _,
            node: _,
            holder: _,
        } => went(order.put_off(task)),
        Answer::Gone { at: _, node: _ } => Turn::Went,
        Answer::Unborn { node: _ } => Turn::Went,
        Answer::Spent => Turn::Spent,
        Answer::Memory => Turn::Memory,
    }
}

// Tries the first wish at a node.
fn wish_tried<H: Holder>(alloc: Global, h: &mut H, asked: Asked, n: u32, order: &mut Order) -> Turn
    requires nothing { (H.pairs h.old ≡ []) × (H.unborn h.old ≡ None) × (H.owed h.old ≡ []) }
    requires lends { LendsAll (H.lent h.old) (H.pairs h.old) }
    requires near { asked.chunk < (H.opening h.old).mesh.chunks }
    ensures same { H.same h.old h.new }
    ensures nothing { (H.pairs h.new ≡ []) × (H.unborn h.new ≡ None) × (H.owed h.new ≡ []) }
    ensures lends { LendsAll (H.lent h.new) (H.pairs h.new) }
    ensures seen { H.seen_at h.old ≤ H.seen_at h.new }
    ensures grown { HasGrown (H.seen_at h.old) (H.allowance h.old) (H.entries h.old) (H.seen_at h.new) (H.allowance h.new) (H.entries h.new) }
    ensures spent { IsSpentAt (H.allowance h.new) result }
    ensures answered { OnWent result (HasAnswered (H.opening h.old) asked (H.seen_at h.old) (H.gained h.old h.new) (H.entries h.old) (H.entries h.new)) }
{
    let answer = attempt(alloc, h, asked.chunk, asked.op);
    let task = Task::Node { n };
    wish_answered(answer, asked.op, h.first_new(), task, order)
}

/// A turn at a node of the start list: a look at it, and a try of its first wish.
pub fn start_turn<H: Holder>(
    alloc: Global,
    h: &mut H,
    chunks: &[u16],
    n: u32,
    order: &mut Order,
) -> Turn
    requires nothing { (H.pairs h.old ≡ []) × (H.unborn h.old ≡ None) × (H.owed h.old ≡ []) }
    requires lends { LendsAll (H.lent h.old) (H.pairs h.old) }
    requires chunks { All (λ c. c < (H.opening h.old).mesh.chunks) chunks.now }
    requires named { n < (H.opening h.old).mesh.first_new }
    ensures same { H.same h.old h.new }
    ensures nothing { (H.pairs h.new ≡ []) × (H.unborn h.new ≡ None) × (H.owed h.new ≡ []) }
    ensures lends { LendsAll (H.lent h.new) (H.pairs h.new) }
    ensures seen { H.seen_at h.old ≤ H.seen_at h.new }
    ensures grown { HasGrown (H.seen_at h.old) (H.allowance h.old) (H.entries h.old) (H.seen_at h.new) (H.allowance h.new) (H.entries h.new) }
    ensures spent { IsSpentAt (H.allowance h.new) result }
    ensures visited { OnWent result (HasVisitedOne chunks.now (H.opening h.old) (H.seen_at h.old) (H.gained h.old h.new) (H.entries h.old) (H.entries h.new) n) }
{
    match look_at(h, chunks, n, order) {
        Look::Seen { wish } => match wish {
            Some(asked) => wish_tried(alloc, h, asked, n, order),
            None => Turn::Went,
        },
        Look::Away => went(order.put_off(Task::Node { n })),
        Look::Absent => Turn::Went,
        Look::NoRoom => Turn::Memory,
    }
}

// What a task asks for, by a look at its node `n`, an end of its edge. Nothing is held afterwards. It is `None` where another
// holds the node.
fn edge_planned<H: Holder>(
    h: &mut H,
    chunks: &[u16],
    n: u32,
    task: Task,
    order: &mut Order,
) -> Option<Plan>
    requires nothing { (H.pairs h.old ≡ []) × (H.unborn h.old ≡ None) × (H.owed h.old ≡ []) }
    requires lends { LendsAll (H.lent h.old) (H.pairs h.old) }
    requires chunks { All (λ c. c < (H.opening h.old).mesh.chunks) chunks.now }
    ensures same { H.same h.old h.new }
    ensures nothing { (H.pairs h.new ≡ []) × (H.unborn h.new ≡ None) × (H.owed h.new ≡ []) }
    ensures lends { LendsAll (H.lent h.new) (H.pairs h.new) }
    ensures kept { (H.entries h.new ≡ H.entries h.old) × (H.allowance h.new ≡ H.allowance h.old) × (H.seen_at h.old ≤ H.seen_at h.new) }
    ensures near { IfSome result (IsPlanBelow (H.opening h.new).mesh.chunks) }
{
    match h.hold(n) {
        Hold::Won => {
            let found = planned(h, h.bands(), chunks, n, task, order);
            h.give_back();
            Some(found)
        }
        Hold::Lost { holder: _ } => None,
        Hold::Dead => Some(rest_planned(order.drop_task(task))),
        Hold::Never => Some(rest_planned(order.drop_task(task))),
    }
}

// How a turn at an edge ends with this answer.
fn edge_answered(answer: Answer, pushed: Result<(), NoMemory>) -> Turn
    ensures { TellsStop answer result }
{
    match answer {
        Answer::Spent => Turn::Spent,
        Answer::Memory => Turn::Memory,
        _ => went(pushed),
    }
}

// Tries what a task at an edge asks for.
fn edge_tried<H: Holder>(
    alloc: Global,
    h: &mut H,
    asked: Asked,
    task: Task,
    order: &mut Order,
) -> Turn
    requires nothing { (H.pairs h.old ≡ []) × (H.unborn h.old ≡ None) × (H.owed h.old ≡ []) }
    requires lends { LendsAll (H.lent h.old) (H.pairs h.old) }
    requires near { asked.chunk < (H.opening h.old).mesh.chunks }
    ensures same { H.same h.old h.new }
    ensures nothing { (H.pairs h.new ≡ []) × (H.unborn h.new ≡ None) × (H.owed h.new ≡ []) }
    ensures lends { LendsAll (H.lent h.new) (H.pairs h.new) }
    ensures seen { H.seen_at h.old ≤ H.seen_at h.new }
    ensures grown { HasGrown (H.seen_at h.old) (H.allowance h.old) (H.entries h.old) (H.seen_at h.new) (H.allowance h.new) (H.entries h.new) }
    ensures spent { IsSpentAt (H.allowance h.new) result }
{
    let answer = attempt(alloc, h, asked.chunk, asked.op);
    let pushed = push_answered(answer, asked.op, h.first_new(), task, order);
    edge_answered(answer, pushed)
}

// Puts on the lists what follows from whether a bisection passes that had waited.
fn push_probed(
    answer: Option<Answer>,
    asked: Asked,
    from: u32,
    to: u32,
    place: Place,
    task: Task,
    order: &mut Order,
) -> Result<(), NoMemory> {
    match answer {
        Some(answer) => push_answered(answer, asked.op, 0, task, order),
        None => {
            order.begin_escape(task, from, to, place);
            Ok(())
        }
    }
}

// Asks whether a bisection passes that had waited.
fn edge_probed<H: Holder>(
    h: &mut H,
    asked: Asked,
    from: u32,
    to: u32,
    place: Place,
    task: Task,
    order: &mut Order,
) -> Turn
    requires nothing { (H.pairs h.old ≡ []) × (H.unborn h.old ≡ None) × (H.owed h.old ≡ []) }
    requires lends { LendsAll (H.lent h.old) (H.pairs h.old) }
    ensures same { H.same h.old h.new }
    ensures nothing { (H.pairs h.new ≡ []) × (H.unborn h.new ≡ None) × (H.owed h.new ≡ []) }
    ensures lends { LendsAll (H.lent h.new) (H.pairs h.new) }
    ensures kept { (H.entries h.new ≡ H.entries h.old) × (H.allowance h.new ≡ H.allowance h.old) × (H.seen_at h.old ≤ H.seen_at h.new) }
    ensures went { IsWentBy result }
{
    let answer = probe(h, asked.chunk, asked.op);
    went(push_probed(answer, asked, from, to, place, task, order))
}

// A turn at a node, an end of the task's edge: a look at it, and a try of what the task asks for.
fn edge_turn<H: Holder>(
    alloc: Global,
    h: &mut H,
    chunks: &[u16],
    n: u32,
    task: Task,
    order: &mut Order,
) -> Turn
    requires nothing { (H.pairs h.old ≡ []) × (H.unborn h.old ≡ None) × (H.owed h.old ≡ []) }
    requires lends { LendsAll (H.lent h.old) (H.pairs h.old) }
    requires chunks { All (λ c. c < (H.opening h.old).mesh.chunks) chunks.now }
    ensures same { H.same h.old h.new }
    ensures nothing { (H.pairs h.new ≡ []) × (H.unborn h.new ≡ None) × (H.owed h.new ≡ []) }
    ensures lends { LendsAll (H.lent h.new) (H.pairs h.new) }
    ensures seen { H.seen_at h.old ≤ H.seen_at h.new }
    ensures grown { HasGrown (H.seen_at h.old) (H.allowance h.old) (H.entries h.old) (H.seen_at h.new) (H.allowance h.new) (H.entries h.new) }
    ensures spent { IsSpentAt (H.allowance h.new) result }
{
    match edge_planned(h, chunks, n, task, order) {
        Some(found) => match found {
            Plan::Try { asked } => edge_tried(alloc, h, asked, task, order),
            Plan::Ask {
                asked,
                from,
                to,
                place,
            } => edge_probed(h, asked, from, to, place, task, order),
            Plan::Rest => Turn::Went,
            Plan::NoRoom => Turn::Memory,
        },
        None => went(order.put_off(task)),
    }
}

/// A turn at what the lists have next.
pub fn task_turn<H: Holder>(
    alloc: Global,
    h: &mut H,
    chunks: &[u16],
    task: Task,
    order: &mut Order,
) -> Turn
    requires nothing { (H.pairs h.old ≡ []) × (H.unborn h.old ≡ None) × (H.owed h.old ≡ []) }
    requires lends { LendsAll (H.lent h.old) (H.pairs h.old) }
    requires chunks { All (λ c. c < (H.opening h.old).mesh.chunks) chunks.now }
    ensures same { H.same h.old h.new }
    ensures nothing { (H.pairs h.new ≡ []) × (H.unborn h.new ≡ None) × (H.owed h.new ≡ []) }
    ensures lends { LendsAll (H.lent h.new) (H.pairs h.new) }
    ensures seen { H.seen_at h.old ≤ H.seen_at h.new }
    ensures grown { HasGrown (H.seen_at h.old) (H.allowance h.old) (H.entries h.old) (H.seen_at h.new) (H.allowance h.new) (H.entries h.new) }
    ensures spent { IsSpentAt (H.allowance h.new) result }
{
    match task {
        Task::Node { n } => edge_turn(alloc, h, chunks, n, task, order),
        Task::Edge { edge } => edge_turn(alloc, h, chunks, edge.from, task, order),
        Task::Walk { from, to: _ } => edge_turn(alloc, h, chunks, from, task, order),
        Task::Escape { from, to: _ } => edge_turn(alloc, h, chunks, from, task, order),
    }
}
