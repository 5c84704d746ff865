//! The whole adaptation.
ghost use Rattle.std.specs.Prelude.{◌≡◌, ◌+◌, ◌<◌, ◌≤◌, ℕ, IfOk};
ghost use Rattle.pf_model.specs.Conforming.{IsLive};
ghost use Rattle.pf_model.specs.Limits.{most_names};
ghost use Rattle.pf_model.specs.Replay.{replayed};
ghost use Rattle.pf_model.specs.Wishes.{rest_of};
ghost use Rattle.pf_adapt.specs.Adapted.{IsAdapted};

use crate::crew::turns_made;
use crate::work::finished;
use pf_assemble::end_board;
use pf_driver::Gate;
use pf_geom::NoMemory;
use pf_locks::Board;
use pf_mesh::{Entry, Mesh, RestLine};
use pf_workers::parts_of;
use std::alloc::Global;
use std::thread::Threads;

/// What an adaptation gives: the mesh, the journal that leads to it, and the rest list of the mesh.
#[derive(Drop)]
pub struct Adapted {
    pub mesh: Mesh,
    pub journal: Vec<Entry>,
    pub rest: Vec<RestLine>,
}

/// Adapts a mesh by so many workers, each in a thread of its own where one can be made: they make operations that
/// the edges of their chunks ask for, in at most `turns` turns each, until none is worth a turn. Then the lines of
/// the rest list that pass are answered, until none does or so many operations are made. `budget` is the greatest
/// number of operations. Each worker passes the gate before each of its turns.
///
/// The mesh is the replay of the journal, which is legal and no longer than the budget. Either no line of the rest
/// list passes, or the journal is as long as the budget. Want of memory is the only failure.
pub fn adapt<R: Threads + Sync, G: Gate + Sync>(
    rt: &R,
    alloc: Global,
    m: Mesh,
    budget: u32,
    workers: u32,
    turns: u32,
    gate: &G,
) -> Result<Adapted, NoMemory>
    requires fresh { (n : ℕ) → IsLive m.mesh n → n < m.mesh.first_new }
    requires named { m.mesh.first_new + budget ≤ most_names }
    requires workers { (1 ≤ workers) × (workers ≤ 64) }
    ensures adapted { IfOk result (λ a. IsAdapted m.mesh budget a.journal.items) }
    ensures mesh { IfOk result (λ a. a.mesh.mesh ≡ replayed m.mesh a.journal.items) }
    ensures rest { IfOk result (λ a. a.rest.items ≡ rest_of a.mesh.mesh) }
{
    let parts = parts_of(alloc, &m, workers)?;
    let (board, seat) = Board::new(alloc, &m, budget, workers)?;
    drop(m);
    let seat = turns_made(
        rt, alloc, &board, seat, &parts, budget, workers, turns, gate,
    )?;
    let seat = finished(alloc, &board, seat)?;
    let (mesh, journal) = end_board(alloc, board, seat)?;
    let rest = mesh.rest(alloc)?;
    Ok(Adapted {
        mesh,
        journal,
        rest,
    })
}
