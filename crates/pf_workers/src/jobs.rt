//! The turns of all workers, in threads.
ghost use Rattle.std.specs.Prelude.{◌≡◌, ℕ, ◌-◌, ◌<◌, length, slice_index_or};
ghost use Rattle.pf_workers.specs.Jobs.{IsIdle, IsPartOf, IsPartFor, HasDriven};

use crate::parts::Part;
use pf_driver::{DriveEnd, Gate, drive};
use pf_holder::Holder;
use std::alloc::Global;
use std::thread::{Threads, for_each_mut};

/// A worker at work: its number, its part of the mesh, the holder by which it works, and how its turns ended.
#[derive(Drop)]
pub struct Job<'a, H> {
    pub worker: u32,
    pub part: &'a Part,
    pub hand: H,
    pub end: DriveEnd,
}

// The turns of one worker.
fn drive_job<'a, H: Holder, G: Gate>(alloc: Global, job: &mut Job<'a, H>, turns: u32, gate: &G)
    requires idle { IsIdle (H.pairs job.old.hand) (H.unborn job.old.hand) (H.owed job.old.hand) (H.lent job.old.hand) }
    requires part { IsPartOf (H.opening job.old.hand).mesh job.old.part.now }
    ensures same { H.same job.old.hand job.new.hand }
    ensures idle { IsIdle (H.pairs job.new.hand) (H.unborn job.new.hand) (H.owed job.new.hand) (H.lent job.new.hand) }
    ensures kept { (job.new.worker ≡ job.old.worker) × (job.new.part ≡ job.old.part) }
    ensures driven { HasDriven job.old.part.now (H.opening job.old.hand) (H.seen_at job.old.hand) (H.seen_at job.new.hand) (H.gained job.old.hand job.new.hand) (H.allowance job.old.hand) (H.entries job.old.hand) (H.allowance job.new.hand) (H.entries job.new.hand) turns job.new.end }
{
    job.end = drive(
        alloc,
        &mut job.hand,
        job.worker,
        &job.part.chunks,
        &job.part.start,
        turns,
        gate,
    );
}

/// Makes the turns of all jobs, each in a thread of its own where one can be made. There is a job for each worker, the
/// one of the greatest number first, and each has its own worker's part of the mesh. It takes no memory but that of the
/// turns. Each end is told by its job; a holder holds nothing before and after.
pub fn drive_all<'a, R: Threads + Sync, H: Holder + Send, G: Gate + Sync>(
    rt: &R,
    alloc: Global,
    jobs: &mut [Job<'a, H>],
    turns: u32,
    gate: &G,
)
    requires idle { (k : ℕ) (d : _) → k < length jobs.old → IsIdle (H.pairs (slice_index_or jobs.old k d).hand) (H.unborn (slice_index_or jobs.old k d).hand) (H.owed (slice_index_or jobs.old k d).hand) (H.lent (slice_index_or jobs.old k d).hand) }
    requires worker { (k : ℕ) (d : _) → k < length jobs.old → (slice_index_or jobs.old k d).worker ≡ length jobs.old - 1 - k }
    requires part { (k : ℕ) (d : _) → k < length jobs.old → IsPartFor (H.opening (slice_index_or jobs.old k d).hand).mesh (length jobs.old) (length jobs.old - 1 - k) (slice_index_or jobs.old k d).part.now }
    ensures len { length jobs.new ≡ length jobs.old }
    ensures same { (k : ℕ) (d : _) → k < length jobs.old → H.same (slice_index_or jobs.old k d).hand (slice_index_or jobs.new k d).hand }
    ensures idle { (k : ℕ) (d : _) → k < length jobs.old → IsIdle (H.pairs (slice_index_or jobs.new k d).hand) (H.unborn (slice_index_or jobs.new k d).hand) (H.owed (slice_index_or jobs.new k d).hand) (H.lent (slice_index_or jobs.new k d).hand) }
    ensures kept { (k : ℕ) (d : _) → k < length jobs.old → ((slice_index_or jobs.new k d).worker ≡ (slice_index_or jobs.old k d).worker) × ((slice_index_or jobs.new k d).part ≡ (slice_index_or jobs.old k d).part) }
    ensures driven { (k : ℕ) (d : _) → k < length jobs.old → HasDriven (slice_index_or jobs.old k d).part.now (H.opening (slice_index_or jobs.old k d).hand) (H.seen_at (slice_index_or jobs.old k d).hand) (H.seen_at (slice_index_or jobs.new k d).hand) (H.gained (slice_index_or jobs.old k d).hand (slice_index_or jobs.new k d).hand) (H.allowance (slice_index_or jobs.old k d).hand) (H.entries (slice_index_or jobs.old k d).hand) (H.allowance (slice_index_or jobs.new k d).hand) (H.entries (slice_index_or jobs.new k d).hand) turns (slice_index_or jobs.new k d).end }
{
    let threads = jobs.len();
    if threads == 0 {
        return;
    }
    let driven = |_: usize, job: &mut Job<'_, H>|
        requires { IsIdle (H.pairs job.old.hand) (H.unborn job.old.hand) (H.owed job.old.hand) (H.lent job.old.hand) × IsPartOf (H.opening job.old.hand).mesh job.old.part.now }
        ensures { H.same job.old.hand job.new.hand × IsIdle (H.pairs job.new.hand) (H.unborn job.new.hand) (H.owed job.new.hand) (H.lent job.new.hand) × (job.new.worker ≡ job.old.worker) × (job.new.part ≡ job.old.part) × HasDriven job.old.part.now (H.opening job.old.hand) (H.seen_at job.old.hand) (H.seen_at job.new.hand) (H.gained job.old.hand job.new.hand) (H.allowance job.old.hand) (H.entries job.old.hand) (H.allowance job.new.hand) (H.entries job.new.hand) turns job.new.end }
    { drive_job(alloc, job, turns, gate) };
    for_each_mut(rt, jobs, threads, &driven);
}
