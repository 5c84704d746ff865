//! The last pass.
ghost use Rattle.std.specs.Prelude.{◌≡◌, ℕ, ◌<◌, ◌≤◌, [], None, IfSome, Contains};
ghost use Rattle.pf_model.specs.Conforming.{IsLive};
ghost use Rattle.pf_model.specs.Lengths.{edge_of};
ghost use Rattle.pf_holder.specs.Facts.{LendsAll, mesh_alone};
ghost use Rattle.pf_finish.specs.Seen.{IsSettled};
ghost use Rattle.pf_finish.specs.Done.{HasWorkedOff, IsFinished};
ghost use Rattle.pf_finish.specs.Covers.{Covers, IsWorkStep, IsNoted, IsSettledAt};

use crate::edges::edge_answered;
use crate::todo::{Todo, changed_put, nodes_put};
use crate::tries::Answered;
use crate::wishes::wishes_at;
use pf_holder::Holder;
use pf_wishes::{look_is_of_mesh, neighbours_have_edges, no_shorter_no_flip};
use std::alloc::Global;

/// How the last pass ended.
#[derive(Clone, Copy, Debug, PartialEq, Eq)]
pub enum FinishEnd {
    /// No line of the rest list passes.
    Quiet,
    /// A line passes, and nothing is left of the allowance.
    Spent,
    /// There was no memory.
    Memory,
}

// Answers a line of an edge, and keeps the end of the names up to date.
fn edge_noted<H: Holder>(
    alloc: Global,
    h: &mut H,
    a: u32,
    b: u32,
    end: &mut u32,
) -> Option<Answered>
    requires alone { H.alone h.old }
    requires nothing { (H.pairs h.old ≡ []) × (H.unborn h.old ≡ None) × (H.owed h.old ≡ []) }
    requires lends { LendsAll (H.lent h.old) (H.pairs h.old) }
    ensures same { H.same h.old h.new }
    ensures nothing { (H.pairs h.new ≡ []) × (H.unborn h.new ≡ None) × (H.owed h.new ≡ []) }
    ensures lends { LendsAll (H.lent h.new) (H.pairs h.new) }
    ensures step { IsWorkStep (H.opening h.old) (H.allowance h.old) (H.entries h.old) end.old (H.allowance h.new) (H.entries h.new) end.new }
    ensures noted { IfSome result (λ x. IsNoted (mesh_alone (H.opening h.old) (H.entries h.new)) (H.allowance h.old) (H.allowance h.new) x) }
    ensures settled { result ≡ None → H.allowance h.new ≡ H.allowance h.old → IsSettled (mesh_alone (H.opening h.old) (H.entries h.old)) (edge_of a b) }
{
    match edge_answered(alloc, h, a, b) {
        None => None,
        Some(Answered::Done { ticket, op }) => {
            *end = h.first_new() + ticket + 1;
            Some(Answered::Done { ticket, op })
        }
        Some(Answered::Spent) => Some(Answered::Spent),
        Some(Answered::Memory) => Some(Answered::Memory),
    }
}

// Answers the lines of the edges on the list until one was answered, or the list is empty.
fn next_answered<H: Holder>(
    alloc: Global,
    h: &mut H,
    end: &mut u32,
    todo: &mut Todo,
) -> Option<Answered>
    requires alone { H.alone h.old }
    requires nothing { (H.pairs h.old ≡ []) × (H.unborn h.old ≡ None) × (H.owed h.old ≡ []) }
    requires lends { LendsAll (H.lent h.old) (H.pairs h.old) }
    ensures same { H.same h.old h.new }
    ensures nothing { (H.pairs h.new ≡ []) × (H.unborn h.new ≡ None) × (H.owed h.new ≡ []) }
    ensures lends { LendsAll (H.lent h.new) (H.pairs h.new) }
    ensures step { IsWorkStep (H.opening h.old) (H.allowance h.old) (H.entries h.old) end.old (H.allowance h.new) (H.entries h.new) end.new }
    ensures noted { IfSome result (λ x. IsNoted (mesh_alone (H.opening h.old) (H.entries h.new)) (H.allowance h.old) (H.allowance h.new) x) }
{
    'edges: while let Some(e) = todo.take() {
        if let Some(answered) = edge_noted(alloc, h, e.lo, e.hi, end) {
            return Some(answered);
        }
    }
    None
}

// Works on the list until it is empty.
fn worked_off<H: Holder>(
    alloc: Global,
    h: &mut H,
    end: &mut u32,
    todo: &mut Todo,
) -> Option<FinishEnd>
    requires alone { H.alone h.old }
    requires nothing { (H.pairs h.old ≡ []) × (H.unborn h.old ≡ None) × (H.owed h.old ≡ []) }
    requires lends { LendsAll (H.lent h.old) (H.pairs h.old) }
    ensures same { H.same h.old h.new }
    ensures nothing { (H.pairs h.new ≡ []) × (H.unborn h.new ≡ None) × (H.owed h.new ≡ []) }
    ensures lends { LendsAll (H.lent h.new) (H.pairs h.new) }
    ensures step { IsWorkStep (H.opening h.old) (H.allowance h.old) (H.entries h.old) end.old (H.allowance h.new) (H.entries h.new) end.new }
    ensures finished { IfSome result (λ x. IsFinished (mesh_alone (H.opening h.old) (H.entries h.new)) (H.allowance h.new) x) }
{
    'turns: loop {
        match next_answered(alloc, h, end, todo) {
            None => return None,
            Some(Answered::Done { ticket, op }) => {
                if changed_put(alloc, h, ticket, op, todo).is_err() {
                    return Some(FinishEnd::Memory);
                }
            }
            Some(Answered::Spent) => return Some(FinishEnd::Spent),
            Some(Answered::Memory) => return Some(FinishEnd::Memory),
        }
    }
}

// Answers the lines of an edge, and then what comes of it.
fn edge_followed<H: Holder>(
    alloc: Global,
    h: &mut H,
    a: u32,
    b: u32,
    end: &mut u32,
    todo: &mut Todo,
) -> Option<FinishEnd>
    requires alone { H.alone h.old }
    requires nothing { (H.pairs h.old ≡ []) × (H.unborn h.old ≡ None) × (H.owed h.old ≡ []) }
    requires lends { LendsAll (H.lent h.old) (H.pairs h.old) }
    ensures same { H.same h.old h.new }
    ensures nothing { (H.pairs h.new ≡ []) × (H.unborn h.new ≡ None) × (H.owed h.new ≡ []) }
    ensures lends { LendsAll (H.lent h.new) (H.pairs h.new) }
    ensures step { IsWorkStep (H.opening h.old) (H.allowance h.old) (H.entries h.old) end.old (H.allowance h.new) (H.entries h.new) end.new }
    ensures finished { IfSome result (λ x. IsFinished (mesh_alone (H.opening h.old) (H.entries h.new)) (H.allowance h.new) x) }
    ensures settled { result ≡ None → H.allowance h.new ≡ H.allowance h.old → IsSettled (mesh_alone (H.opening h.old) (H.entries h.old)) (edge_of a b) }
{
    match edge_noted(alloc, h, a, b, end) {
        None => None,
        Some(Answered::Done { ticket, op }) => {
            if changed_put(alloc, h, ticket, op, todo).is_err() {
                return Some(FinishEnd::Memory);
            }
            worked_off(alloc, h, end, todo)
        }
        Some(Answered::Spent) => Some(FinishEnd::Spent),
        Some(Answered::Memory) => Some(FinishEnd::Memory),
    }
}

// The same for these edges at a node.
fn edges_followed<H: Holder>(
    alloc: Global,
    h: &mut H,
    n: u32,
    found: &[u32],
    end: &mut u32,
    todo: &mut Todo,
) -> Option<FinishEnd>
    requires alone { H.alone h.old }
    requires nothing { (H.pairs h.old ≡ []) × (H.unborn h.old ≡ None) × (H.owed h.old ≡ []) }
    requires lends { LendsAll (H.lent h.old) (H.pairs h.old) }
    ensures same { H.same h.old h.new }
    ensures nothing { (H.pairs h.new ≡ []) × (H.unborn h.new ≡ None) × (H.owed h.new ≡ []) }
    ensures lends { LendsAll (H.lent h.new) (H.pairs h.new) }
    ensures step { IsWorkStep (H.opening h.old) (H.allowance h.old) (H.entries h.old) end.old (H.allowance h.new) (H.entries h.new) end.new }
    ensures finished { IfSome result (λ x. IsFinished (mesh_alone (H.opening h.old) (H.entries h.new)) (H.allowance h.new) x) }
    ensures settled { result ≡ None → H.allowance h.new ≡ H.allowance h.old → (x : ℕ) → Contains found.now x → IsSettled (mesh_alone (H.opening h.old) (H.entries h.old)) (edge_of n x) }
{
    'found: for x in found {
        if let Some(finished) = edge_followed(alloc, h, n, *x, end, todo) {
            return Some(finished);
        }
    }
    None
}

// The same for all edges at a node.
fn node_followed<H: Holder>(
    alloc: Global,
    h: &mut H,
    n: u32,
    end: &mut u32,
    todo: &mut Todo,
) -> Option<FinishEnd>
    requires alone { H.alone h.old }
    requires nothing { (H.pairs h.old ≡ []) × (H.unborn h.old ≡ None) × (H.owed h.old ≡ []) }
    requires lends { LendsAll (H.lent h.old) (H.pairs h.old) }
    ensures same { H.same h.old h.new }
    ensures nothing { (H.pairs h.new ≡ []) × (H.unborn h.new ≡ None) × (H.owed h.new ≡ []) }
    ensures lends { LendsAll (H.lent h.new) (H.pairs h.new) }
    ensures step { IsWorkStep (H.opening h.old) (H.allowance h.old) (H.entries h.old) end.old (H.allowance h.new) (H.entries h.new) end.new }
    ensures finished { IfSome result (λ x. IsFinished (mesh_alone (H.opening h.old) (H.entries h.new)) (H.allowance h.new) x) }
    ensures settled { result ≡ None → H.allowance h.new ≡ H.allowance h.old → IsSettledAt (mesh_alone (H.opening h.old) (H.entries h.old)) n }
{
    look_is_of_mesh();
    neighbours_have_edges();
    no_shorter_no_flip();
    let mut found = Vec::new(alloc);
    if wishes_at(h, n, &mut found).is_err() {
        return Some(FinishEnd::Memory);
    }
    edges_followed(alloc, h, n, &found, end, todo)
}

// The same for the nodes with these names.
fn named_followed<H: Holder>(
    alloc: Global,
    h: &mut H,
    names: &[u32],
    end: &mut u32,
    todo: &mut Todo,
) -> Option<FinishEnd>
    requires alone { H.alone h.old }
    requires nothing { (H.pairs h.old ≡ []) × (H.unborn h.old ≡ None) × (H.owed h.old ≡ []) }
    requires lends { LendsAll (H.lent h.old) (H.pairs h.old) }
    ensures same { H.same h.old h.new }
    ensures nothing { (H.pairs h.new ≡ []) × (H.unborn h.new ≡ None) × (H.owed h.new ≡ []) }
    ensures lends { LendsAll (H.lent h.new) (H.pairs h.new) }
    ensures step { IsWorkStep (H.opening h.old) (H.allowance h.old) (H.entries h.old) end.old (H.allowance h.new) (H.entries h.new) end.new }
    ensures finished { IfSome result (λ x. IsFinished (mesh_alone (H.opening h.old) (H.entries h.new)) (H.allowance h.new) x) }
    ensures settled { result ≡ None → H.allowance h.new ≡ H.allowance h.old → (n : ℕ) → Contains names.now n → IsSettledAt (mesh_alone (H.opening h.old) (H.entries h.old)) n }
{
    'names: for n in names {
        if let Some(finished) = node_followed(alloc, h, *n, end, todo) {
            return Some(finished);
        }
    }
    None
}

// The same for the nodes with the names from the first new one to before `last`.
fn new_followed<H: Holder>(
    alloc: Global,
    h: &mut H,
    last: u32,
    end: &mut u32,
    todo: &mut Todo,
) -> Option<FinishEnd>
    requires alone { H.alone h.old }
    requires nothing { (H.pairs h.old ≡ []) × (H.unborn h.old ≡ None) × (H.owed h.old ≡ []) }
    requires lends { LendsAll (H.lent h.old) (H.pairs h.old) }
    ensures same { H.same h.old h.new }
    ensures nothing { (H.pairs h.new ≡ []) × (H.unborn h.new ≡ None) × (H.owed h.new ≡ []) }
    ensures lends { LendsAll (H.lent h.new) (H.pairs h.new) }
    ensures step { IsWorkStep (H.opening h.old) (H.allowance h.old) (H.entries h.old) end.old (H.allowance h.new) (H.entries h.new) end.new }
    ensures finished { IfSome result (λ x. IsFinished (mesh_alone (H.opening h.old) (H.entries h.new)) (H.allowance h.new) x) }
    ensures settled { result ≡ None → H.allowance h.new ≡ H.allowance h.old → (n : ℕ) → (H.opening h.old).mesh.first_new ≤ n → n < last → IsSettledAt (mesh_alone (H.opening h.old) (H.entries h.old)) n }
{
    'new: for n in h.first_new()..last {
        if let Some(finished) = node_followed(alloc, h, n, end, todo) {
            return Some(finished);
        }
    }
    None
}

// Looks at each node once. It is `None` where something was done.
fn pass_made<H: Holder>(
    alloc: Global,
    h: &mut H,
    live: &[u32],
    end: &mut u32,
    todo: &mut Todo,
) -> Option<FinishEnd>
    requires covers { Covers (H.opening h.old) live.now (H.entries h.old) end.old }
    requires alone { H.alone h.old }
    requires nothing { (H.pairs h.old ≡ []) × (H.unborn h.old ≡ None) × (H.owed h.old ≡ []) }
    requires lends { LendsAll (H.lent h.old) (H.pairs h.old) }
    ensures same { H.same h.old h.new }
    ensures nothing { (H.pairs h.new ≡ []) × (H.unborn h.new ≡ None) × (H.owed h.new ≡ []) }
    ensures lends { LendsAll (H.lent h.new) (H.pairs h.new) }
    ensures step { IsWorkStep (H.opening h.old) (H.allowance h.old) (H.entries h.old) end.old (H.allowance h.new) (H.entries h.new) end.new }
    ensures finished { IfSome result (λ x. IsFinished (mesh_alone (H.opening h.old) (H.entries h.new)) (H.allowance h.new) x) }
    ensures fewer { result ≡ None → H.allowance h.new < H.allowance h.old }
{
    let before = h.allow();
    if let Some(finished) = named_followed(alloc, h, live, end, todo) {
        return Some(finished);
    }
    let last = *end;
    if let Some(finished) = new_followed(alloc, h, last, end, todo) {
        return Some(finished);
    }
    if h.allow() == before {
        return Some(FinishEnd::Quiet);
    }
    None
}

// Works on the stacks, and then makes passes until one finds nothing to do.
fn passes_made<H: Holder>(alloc: Global, h: &mut H, live: &[u32], todo: &mut Todo) -> FinishEnd
    requires live { (n : ℕ) → IsLive (mesh_alone (H.opening h.old) (H.entries h.old)) n → Contains live.now n }
    requires alone { H.alone h.old }
    requires nothing { (H.pairs h.old ≡ []) × (H.unborn h.old ≡ None) × (H.owed h.old ≡ []) }
    requires lends { LendsAll (H.lent h.old) (H.pairs h.old) }
    ensures same { H.same h.old h.new }
    ensures nothing { (H.pairs h.new ≡ []) × (H.unborn h.new ≡ None) × (H.owed h.new ≡ []) }
    ensures lends { LendsAll (H.lent h.new) (H.pairs h.new) }
    ensures answered { HasWorkedOff (H.opening h.old) (H.allowance h.old) (H.entries h.old) (H.allowance h.new) (H.entries h.new) }
    ensures finished { IsFinished (mesh_alone (H.opening h.old) (H.entries h.new)) (H.allowance h.new) result }
{
    let mut end = h.first_new();
    if nodes_put(h, live, true, todo).is_err() {
        return FinishEnd::Memory;
    }
    if let Some(finished) = worked_off(alloc, h, &mut end, todo) {
        return finished;
    }
    'passes: loop {
        if let Some(finished) = pass_made(alloc, h, live, &mut end, todo) {
            return finished;
        }
    }
}

/// Answers the lines of the rest list that pass until none does, or the allowance is spent, and holds nothing
/// afterwards. Nobody else holds nodes of the mesh.
///
/// Each entry that is added answers a line that passes in the rest list of the mesh before it, by its edge's acting
/// chunk: the bisection of the edge where the walk of a long edge ends, a contraction of a short edge that nothing
/// forbids, or the flip of an edge. `Quiet` says that no line passes. `Spent` comes exactly where a line passes and
/// nothing is left of the allowance, want of memory aside.
pub fn finish<H: Holder>(alloc: Global, h: &mut H, live: &[u32]) -> FinishEnd
    requires live { (n : ℕ) → IsLive (mesh_alone (H.opening h.old) (H.entries h.old)) n → Contains live.now n }
    requires alone { H.alone h.old }
    requires nothing { (H.pairs h.old ≡ []) × (H.unborn h.old ≡ None) × (H.owed h.old ≡ []) }
    requires lends { LendsAll (H.lent h.old) (H.pairs h.old) }
    ensures same { H.same h.old h.new }
    ensures nothing { (H.pairs h.new ≡ []) × (H.unborn h.new ≡ None) × (H.owed h.new ≡ []) }
    ensures lends { LendsAll (H.lent h.new) (H.pairs h.new) }
    ensures answered { HasWorkedOff (H.opening h.old) (H.allowance h.old) (H.entries h.old) (H.allowance h.new) (H.entries h.new) }
    ensures finished { IsFinished (mesh_alone (H.opening h.old) (H.entries h.new)) (H.allowance h.new) result }
{
    let mut todo = Todo::new(alloc);
    passes_made(alloc, h, live, &mut todo)
}
