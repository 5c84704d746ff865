//! The turns of a worker, one after another.
ghost use Rattle.std.specs.Prelude.{◌≡◌, ◌≢◌, ℕ, ◌<◌, ◌≤◌, [], ◌∷◌, All, None, length, min};
ghost use Rattle.pf_holder.specs.Facts.{LendsAll};
ghost use Rattle.pf_driver.specs.Visits.{HasGrown, HasVisited};
ghost use Rattle.pf_driver.specs.Turns.{OnWent, IsSpentAt, OnDone, IsEndAt, IsEndOf};

use crate::gate::Gate;
use crate::turns::{Turn, start_turn, task_turn};
use pf_holder::Holder;
use pf_order::Order;
use std::alloc::Global;

// At how many places bisections are counted, for each node of the start list.
const PLACES: usize = 6;

/// How a drive ended.
#[derive(Clone, Copy, Debug, PartialEq, Eq)]
pub enum DriveEnd {
    /// No turn was left, or nothing that is worth one.
    Done,
    /// The allowance is spent.
    Spent,
    /// Memory was wanting.
    Memory,
}

// The turns at the first nodes of the start list.
fn start_turns<H: Holder, G: Gate>(
    alloc: Global,
    h: &mut H,
    worker: u32,
    chunks: &[u16],
    start: &[u32],
    count: u32,
    gate: &G,
    order: &mut Order,
) -> Turn
    requires nothing { (H.pairs h.old ≡ []) × (H.unborn h.old ≡ None) × (H.owed h.old ≡ []) }
    requires lends { LendsAll (H.lent h.old) (H.pairs h.old) }
    requires chunks { All (λ c. c < (H.opening h.old).mesh.chunks) chunks.now }
    requires start { All (λ n. n < (H.opening h.old).mesh.first_new) start.now }
    requires count { count ≤ length start.now }
    ensures same { H.same h.old h.new }
    ensures nothing { (H.pairs h.new ≡ []) × (H.unborn h.new ≡ None) × (H.owed h.new ≡ []) }
    ensures lends { LendsAll (H.lent h.new) (H.pairs h.new) }
    ensures seen { H.seen_at h.old ≤ H.seen_at h.new }
    ensures grown { HasGrown (H.seen_at h.old) (H.allowance h.old) (H.entries h.old) (H.seen_at h.new) (H.allowance h.new) (H.entries h.new) }
    ensures spent { IsSpentAt (H.allowance h.new) result }
    ensures visited { OnWent result (HasVisited chunks.now (H.opening h.old) (H.seen_at h.old) (H.gained h.old h.new) (H.entries h.old) (H.entries h.new) start.now count) }
{
    'starts: for k in 0..count {
        if h.allow() == 0 {
            return Turn::Spent;
        }
        gate.pass(worker, k);
        match start_turn(alloc, h, chunks, start[k as usize], order) {
            Turn::Went => {}
            Turn::Spent => return Turn::Spent,
            Turn::Memory => return Turn::Memory,
        }
    }
    Turn::Went
}

// The turns after those, by the lists.
fn later_turns<H: Holder, G: Gate>(
    alloc: Global,
    h: &mut H,
    worker: u32,
    chunks: &[u16],
    first: u32,
    turns: u32,
    gate: &G,
    order: &mut Order,
) -> Turn
    requires nothing { (H.pairs h.old ≡ []) × (H.unborn h.old ≡ None) × (H.owed h.old ≡ []) }
    requires lends { LendsAll (H.lent h.old) (H.pairs h.old) }
    requires chunks { All (λ c. c < (H.opening h.old).mesh.chunks) chunks.now }
    ensures same { H.same h.old h.new }
    ensures nothing { (H.pairs h.new ≡ []) × (H.unborn h.new ≡ None) × (H.owed h.new ≡ []) }
    ensures lends { LendsAll (H.lent h.new) (H.pairs h.new) }
    ensures seen { H.seen_at h.old ≤ H.seen_at h.new }
    ensures grown { HasGrown (H.seen_at h.old) (H.allowance h.old) (H.entries h.old) (H.seen_at h.new) (H.allowance h.new) (H.entries h.new) }
    ensures spent { IsSpentAt (H.allowance h.new) result }
{
    'tasks: for turn in first..turns {
        if h.allow() == 0 {
            return Turn::Spent;
        }
        let task = match order.take() {
            Ok(Some(task)) => task,
            Ok(None) => return Turn::Went,
            Err(_) => return Turn::Memory,
        };
        gate.pass(worker, turn);
        match task_turn(alloc, h, chunks, task, order) {
            Turn::Went => {}
            Turn::Spent => return Turn::Spent,
            Turn::Memory => return Turn::Memory,
        }
    }
    Turn::Went
}

// How many names of the start list get a turn.
fn start_count(start: &[u32], turns: u32) -> u32
    ensures { result ≡ min turns (length start.now) }
{
    if start.len() < turns as usize {
        start.len() as u32
    } else {
        turns
    }
}

// All turns.
fn all_turns<H: Holder, G: Gate>(
    alloc: Global,
    h: &mut H,
    worker: u32,
    chunks: &[u16],
    start: &[u32],
    turns: u32,
    gate: &G,
) -> Turn
    requires nothing { (H.pairs h.old ≡ []) × (H.unborn h.old ≡ None) × (H.owed h.old ≡ []) }
    requires lends { LendsAll (H.lent h.old) (H.pairs h.old) }
    requires chunks { All (λ c. c < (H.opening h.old).mesh.chunks) chunks.now }
    requires start { All (λ n. n < (H.opening h.old).mesh.first_new) start.now }
    ensures same { H.same h.old h.new }
    ensures nothing { (H.pairs h.new ≡ []) × (H.unborn h.new ≡ None) × (H.owed h.new ≡ []) }
    ensures lends { LendsAll (H.lent h.new) (H.pairs h.new) }
    ensures seen { H.seen_at h.old ≤ H.seen_at h.new }
    ensures grown { HasGrown (H.seen_at h.old) (H.allowance h.old) (H.entries h.old) (H.seen_at h.new) (H.allowance h.new) (H.entries h.new) }
    ensures spent { IsSpentAt (H.allowance h.new) result }
    ensures visited { OnWent result (HasVisited chunks.now (H.opening h.old) (H.seen_at h.old) (H.gained h.old h.new) (H.entries h.old) (H.entries h.new) start.now (min turns (length start.now))) }
{
    let places = start.len().saturating_mul(PLACES);
    let Ok(mut order) = Order::new(alloc, places) else {
        return Turn::Memory;
    };
    let count = start_count(start, turns);
    match start_turns(alloc, h, worker, chunks, start, count, gate, &mut order) {
        Turn::Went => later_turns(alloc, h, worker, chunks, count, turns, gate, &mut order),
        Turn::Spent => Turn::Spent,
        Turn::Memory => Turn::Memory,
    }
}

// How a drive ends, with so much left of the allowance.
fn ended(left: u32, last: Turn) -> DriveEnd
    ensures spent { IsSpentAt left last → IsEndAt left result }
    ensures done { IsEndOf last result }
{
    if left == 0 {
        return DriveEnd::Spent;
    }
    match last {
        Turn::Went => DriveEnd::Done,
        Turn::Spent => DriveEnd::Spent,
        Turn::Memory => DriveEnd::Memory,
    }
}

/// Takes turns: each passes the gate with nothing held, looks at one node, and tries at most one operation, by one
/// of these chunks. The nodes of `start` get a turn each, in their order; then the work lists say where to look, until
/// nothing is left that is worth a turn. At most `turns` turns are made, numbered from 0.
///
/// `Spent` comes exactly where nothing is left of the allowance. At `Done` each of the first `turns` names of `start`
/// was visited: it was found dead or never live, a try for it was lost, or it was looked at and the first wish of its
/// star tried. The entries grow by those of the tries that were done. Nothing is held afterwards.
pub fn drive<H: Holder, G: Gate>(
    alloc: Global,
    h: &mut H,
    worker: u32,
    chunks: &[u16],
    start: &[u32],
    turns: u32,
    gate: &G,
) -> DriveEnd
    requires nothing { (H.pairs h.old ≡ []) × (H.unborn h.old ≡ None) × (H.owed h.old ≡ []) }
    requires lends { LendsAll (H.lent h.old) (H.pairs h.old) }
    requires chunks { All (λ c. c < (H.opening h.old).mesh.chunks) chunks.now }
    requires start { All (λ n. n < (H.opening h.old).mesh.first_new) start.now }
    ensures same { H.same h.old h.new }
    ensures nothing { (H.pairs h.new ≡ []) × (H.unborn h.new ≡ None) × (H.owed h.new ≡ []) }
    ensures lends { LendsAll (H.lent h.new) (H.pairs h.new) }
    ensures seen { H.seen_at h.old ≤ H.seen_at h.new }
    ensures grown { HasGrown (H.seen_at h.old) (H.allowance h.old) (H.entries h.old) (H.seen_at h.new) (H.allowance h.new) (H.entries h.new) }
    ensures spent { IsEndAt (H.allowance h.new) result }
    ensures visited { OnDone result (HasVisited chunks.now (H.opening h.old) (H.seen_at h.old) (H.gained h.old h.new) (H.entries h.old) (H.entries h.new) start.now (min turns (length start.now))) }
{
    let last = all_turns(alloc, h, worker, chunks, start, turns, gate);
    ended(h.allow(), last)
}
