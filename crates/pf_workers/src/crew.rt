//! The seats of a crew: split off one after another, and joined again.
ghost use Rattle.std.specs.Prelude.{◌≡◌, ℕ, ◌+◌, ◌<◌, ◌≤◌, length, slice_index_or, IfOk, OnOk};
ghost use Rattle.pf_workers.specs.Crew.{IsFirst, IsWorker};

use crate::shares::share_of;
use pf_geom::NoMemory;
use pf_locks::{Board, BoardSeat};
use std::alloc::Global;

// Splits off the seat of the next worker.
fn split_next(
    alloc: Global,
    board: &Board,
    first: &mut BoardSeat,
    budget: u32,
    workers: u32,
    worker: u32,
) -> Result<BoardSeat, NoMemory>
    requires worker { (1 ≤ worker) × (worker < workers) }
    requires first { IsFirst board.now.table.shared.table_id board.now.table.shared.key budget workers worker first.old }
    ensures first { OnOk result (IsFirst board.now.table.shared.table_id board.now.table.shared.key budget workers (worker + 1) first.new) }
    ensures next { IfOk result (λ s. IsWorker board.now.table.shared.table_id board.now.table.shared.key budget workers worker s) }
{
    let share = share_of(budget, workers, worker);
    board.split_seat(alloc, first, share)
}

/// The seats of workers 1 and up, in their order, split off from the seat with all numbers and the whole budget,
/// which is left with number 0. Each gets its share of the budget.
pub fn split_seats(
    alloc: Global,
    board: &Board,
    first: &mut BoardSeat,
    budget: u32,
    workers: u32,
) -> Result<Vec<BoardSeat>, NoMemory>
    requires some_worker { 1 ≤ workers }
    requires few { workers ≤ 64 }
    requires first { IsFirst board.now.table.shared.table_id board.now.table.shared.key budget workers 1 first.old }
    ensures first { OnOk result (IsWorker board.now.table.shared.table_id board.now.table.shared.key budget workers 0 first.new) }
    ensures len { IfOk result (λ v. length v.items + 1 ≡ workers) }
    ensures others { IfOk result (λ v. (k : ℕ) (d : _) → k < length v.items → IsWorker board.now.table.shared.table_id board.now.table.shared.key budget workers (k + 1) (slice_index_or v.items k d)) }
{
    let mut others = Vec::new(alloc);
    'workers: for worker in 1..workers {
        let seat = split_next(alloc, board, first, budget, workers, worker)?;
        others.push(seat).map_err(|_| NoMemory)?;
    }
    Ok(others)
}
