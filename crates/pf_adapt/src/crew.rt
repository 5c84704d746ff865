//! The crew at work on a board.
ghost use Rattle.std.specs.Prelude.{◌≡◌, ℕ, ◌+◌, ◌-◌, ◌<◌, ◌≤◌, [], ◌∷◌, None, length, slice_index_or, IfOk};
ghost use Rattle.std.specs.List.{list_any};
ghost use Rattle.pf_locks.specs.Seats.{IsSeat};
ghost use Rattle.pf_workers.specs.Crew.{IsFirst};
ghost use Rattle.pf_workers.specs.Jobs.{IsPartFor};
ghost use Rattle.pf_adapt.specs.Crew as spec;
ghost use Rattle.pf_adapt.specs.Crew.{IsNumbered, IsLone};

use pf_driver::{DriveEnd, Gate};
use pf_geom::NoMemory;
use pf_hand::Hand;
use pf_locks::{Board, BoardSeat};
use pf_workers::{Job, Part, drive_all, split_seats};
use std::alloc::Global;
use std::thread::Threads;

// A seat in a hand, with the number and the part of its worker.
fn job_of<'a>(board: &'a Board, seat: BoardSeat, parts: &'a [Part]) -> Job<'a, Hand<'a>>
    requires board { seat.seat.table_id ≡ board.now.table.shared.table_id }
    requires seat { IsSeat board.now.table.shared.key seat }
    requires nothing { seat.seat.me.0.held ≡ [] }
    requires clear { seat.seat.me.0.unborn ≡ None }
    requires number { seat.number < length parts.now }
    requires parts { (w : ℕ) (d : _) → w < length parts.now → IsPartFor board.now.table.shared.key.mesh (length parts.now) w (slice_index_or parts.now w d) }
    ensures board { result.hand.board.now ≡ board.entry.now }
    ensures seat { result.hand.seat ≡ seat }
    ensures worker { result.worker ≡ seat.number }
    ensures part { IsPartFor board.entry.now.table.shared.key.mesh (length parts.entry.now) seat.number result.part.now }
{
    let worker = seat.number;
    Job {
        worker,
        part: &parts[worker as usize],
        hand: Hand::new(board, seat),
        end: DriveEnd::Done,
    }
}

// The jobs of all workers, that of the greatest number first, each with its own worker's part.
fn jobs_of<'a>(
    alloc: Global,
    board: &'a Board,
    first: BoardSeat,
    others: Vec<BoardSeat>,
    parts: &'a [Part],
) -> Result<Vec<Job<'a, Hand<'a>>>, NoMemory>
    requires first { IsNumbered board.now.table.shared.table_id board.now.table.shared.key 0 first }
    requires others { (k : ℕ) (d : _) → k < length others.items → IsNumbered board.now.table.shared.table_id board.now.table.shared.key (k + 1) (slice_index_or others.items k d) }
    requires many { length others.items + 1 ≡ length parts.now }
    requires parts { (w : ℕ) (d : _) → w < length parts.now → IsPartFor board.now.table.shared.key.mesh (length parts.now) w (slice_index_or parts.now w d) }
    ensures len { IfOk result (λ v. length v.items ≡ length parts.entry.now) }
    ensures board { IfOk result (λ v. (k : ℕ) (d : _) → k < length v.items → (slice_index_or v.items k d).hand.board.now ≡ board.entry.now) }
    ensures seat { IfOk result (λ v. (k : ℕ) (d : _) → k < length v.items → IsNumbered board.entry.now.table.shared.table_id board.entry.now.table.shared.key (length v.items - 1 - k) (slice_index_or v.items k d).hand.seat) }
    ensures worker { IfOk result (λ v. (k : ℕ) (d : _) → k < length v.items → (slice_index_or v.items k d).worker ≡ length v.items - 1 - k) }
    ensures part { IfOk result (λ v. (k : ℕ) (d : _) → k < length v.items → IsPartFor board.entry.now.table.shared.key.mesh (length v.items) (length v.items - 1 - k) (slice_index_or v.items k d).part.now) }
{
    let mut left = others;
    let mut jobs = Vec::new(alloc);
    'seats: while let Some(seat) = left.pop() {
        jobs.push(job_of(board, seat, parts)).map_err(|_| NoMemory)?;
    }
    jobs.push(job_of(board, first, parts))
        .map_err(|_| NoMemory)?;
    Ok(jobs)
}

// Whether memory was wanting.
fn is_memory(end: DriveEnd) -> bool
    ensures { result ≡ spec.is_memory end }
{
    match end {
        DriveEnd::Memory => true,
        _ => false,
    }
}

// Whether memory was wanting for the turns of some worker.
fn lacks_memory(jobs: &[Job<'_, Hand<'_>>]) -> bool
    ensures { result ≡ list_any (λ j. spec.is_memory j.end) jobs.now }
{
    'jobs: for job in jobs {
        if is_memory(job.end) {
            return true;
        }
    }
    false
}

// The seat of a worker that has ended.
fn seat_of(job: Job<'_, Hand<'_>>) -> BoardSeat
    requires nothing { job.hand.seat.seat.me.0.held ≡ [] }
    ensures value { result ≡ job.entry.hand.seat }
    ensures board { result.seat.table_id ≡ job.entry.hand.board.now.table.shared.table_id }
    ensures seat { IsSeat job.entry.hand.board.now.table.shared.key result }
    ensures clear { result.seat.me.0.unborn ≡ None }
{
    let Job {
        worker: _,
        part: _,
        hand,
        end: _,
    } = job;
    hand.fold()
}

// Joins the seats, from the last job to the first: by rising numbers.
fn joined(board: &Board, jobs: Vec<Job<'_, Hand<'_>>>) -> BoardSeat
    requires some { 0 < length jobs.items }
    requires all { length jobs.items ≡ board.now.table.shared.key.workers }
    requires board { (k : ℕ) (d : _) → k < length jobs.items → (slice_index_or jobs.items k d).hand.board.now ≡ board.now }
    requires number { (k : ℕ) (d : _) → k < length jobs.items → (slice_index_or jobs.items k d).hand.seat.seat.me.0.numbers ≡ (length jobs.items - 1 - k) ∷ [] }
    requires nothing { (k : ℕ) (d : _) → k < length jobs.items → (slice_index_or jobs.items k d).hand.seat.seat.me.0.held ≡ [] }
    ensures { IsLone board.now.table.shared.table_id board.now.table.shared.key result }
{
    let mut left = jobs;
    let Some(job) = left.pop() else {
        unreachable!()
    };
    let mut seat = seat_of(job);
    'jobs: while let Some(job) = left.pop() {
        board.join_seat(&mut seat, seat_of(job));
    }
    seat
}

// The turns of all workers with these seats, and then one seat again.
fn crew_driven<R: Threads + Sync, G: Gate + Sync>(
    rt: &R,
    alloc: Global,
    board: &Board,
    first: BoardSeat,
    others: Vec<BoardSeat>,
    parts: &[Part],
    turns: u32,
    gate: &G,
) -> Result<BoardSeat, NoMemory>
    requires first { IsNumbered board.now.table.shared.table_id board.now.table.shared.key 0 first }
    requires others { (k : ℕ) (d : _) → k < length others.items → IsNumbered board.now.table.shared.table_id board.now.table.shared.key (k + 1) (slice_index_or others.items k d) }
    requires many { length others.items + 1 ≡ length parts.now }
    requires all { board.now.table.shared.key.workers ≡ length parts.now }
    requires parts { (w : ℕ) (d : _) → w < length parts.now → IsPartFor board.now.table.shared.key.mesh (length parts.now) w (slice_index_or parts.now w d) }
    ensures { IfOk result (λ s. IsLone board.now.table.shared.table_id board.now.table.shared.key s) }
{
    let mut jobs = jobs_of(alloc, board, first, others, parts)?;
    drive_all(rt, alloc, &mut jobs, turns, gate);
    if lacks_memory(&jobs) {
        return Err(NoMemory);
    }
    Ok(joined(board, jobs))
}

/// Lets so many workers make their turns, each by a seat of its own, from its part of the mesh, with its share of the
/// budget. Then their seats are one again, which has all that they committed. It is an error where memory is
/// wanting, also for a turn.
pub(crate) fn turns_made<R: Threads + Sync, G: Gate + Sync>(
    rt: &R,
    alloc: Global,
    board: &Board,
    seat: BoardSeat,
    parts: &[Part],
    budget: u32,
    workers: u32,
    turns: u32,
    gate: &G,
) -> Result<BoardSeat, NoMemory>
    requires workers { (1 ≤ workers) × (workers ≤ 64) }
    requires all { board.now.table.shared.key.workers ≡ workers }
    requires seat { IsFirst board.now.table.shared.table_id board.now.table.shared.key budget workers 1 seat }
    requires many { length parts.now ≡ workers }
    requires parts { (w : ℕ) (d : _) → w < length parts.now → IsPartFor board.now.table.shared.key.mesh (length parts.now) w (slice_index_or parts.now w d) }
    ensures { IfOk result (λ s. IsLone board.now.table.shared.table_id board.now.table.shared.key s) }
{
    let mut first = seat;
    let others = split_seats(alloc, board, &mut first, budget, workers)?;
    let seat = crew_driven(rt, alloc, board, first, others, parts, turns, gate)?;
    Ok(seat)
}
