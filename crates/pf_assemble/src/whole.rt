//! The mesh that is divided among copies.
ghost use Rattle.std.specs.Prelude.{◌≡◌, [], None, IfOk};
ghost use Rattle.pf_model.specs.Mesh.{Undivided};
ghost use Rattle.pf_model.specs.Conforming.{IsConforming};
ghost use Rattle.pf_core_model.specs.Core.{mesh_after};
ghost use Rattle.pf_core_model.specs.Guards.{IsAlone};
ghost use Rattle.pf_core_model.specs.Seats.{own_log};
ghost use Rattle.pf_locks.specs.Closes.{AreCopiesOf};
ghost use Rattle.pf_locks.specs.Seats.{IsSeat};
ghost use Rattle.pf_assemble.specs.Whole.{HasMesh};

use crate::keepers::lists_of;
use pf_geom::NoMemory;
use pf_locks::{Board, BoardSeat, Closed, Ended};
use pf_mesh::Mesh;
use pf_model::Entry;
use pf_star::Copies;
use std::alloc::Global;

/// The mesh of which these are the copies: there is one. Want of memory is the only failure.
///
/// For C copies with S spokes in all it takes time in proportion to S, and to C log C and F log F, expected, where F
/// is the number of triangles.
pub fn undivided(alloc: Global, copies: Copies) -> Result<Mesh, NoMemory>
    requires { HasMesh copies }
    ensures { IfOk result (λ mesh. (m : Undivided) → IsConforming m → AreCopiesOf m copies → mesh.mesh ≡ m) }
{
    let Copies {
        first_new,
        bands,
        chunks,
        list,
    } = copies;
    let (sites, tris) = lists_of(alloc, list)?;
    let mesh = Mesh::of_parts(alloc, first_new, sites, tris, bands, chunks)?;
    Ok(mesh)
}

/// The mesh and the journal of a board at its end: the one conforming mesh of which its copies are, and its history.
/// Want of memory is the only failure.
pub fn assemble(alloc: Global, closed: Closed) -> Result<(Mesh, Vec<Entry>), NoMemory>
    requires { HasMesh closed.copies }
    ensures mesh { IfOk result (λ r. (m : Undivided) → IsConforming m → AreCopiesOf m closed.copies → r.0.mesh ≡ m) }
    ensures journal { IfOk result (λ r. r.1.items ≡ closed.history.items) }
{
    let Closed { history, copies } = closed;
    let mesh = undivided(alloc, copies)?;
    Ok((mesh, history))
}

/// Ends a board by a seat that has all numbers and holds nothing: the mesh after its history, and the history, which
/// is the seat's own. The lists of the mesh are made as the copies are let go, and want no sort. Want of memory is the
/// only failure.
pub fn end_board(alloc: Global, board: Board, s: BoardSeat) -> Result<(Mesh, Vec<Entry>), NoMemory>
    requires board { s.seat.table_id ≡ board.table.shared.table_id }
    requires seat { IsSeat board.table.shared.key s }
    requires alone { IsAlone s.seat.me.0 }
    requires nothing { s.seat.me.0.held ≡ [] }
    requires clear { s.seat.me.0.unborn ≡ None }
    ensures mesh { IfOk result (λ r. r.0.mesh ≡ mesh_after board.table.shared.key (own_log s.seat.me.0)) }
    ensures journal { IfOk result (λ r. r.1.items ≡ own_log s.seat.me.0) }
{
    let ended = board.end(alloc, s)?;
    let Ended {
        history: journal,
        first_new,
        sites,
        tris,
        bands,
        chunks,
    } = ended;
    let mesh = Mesh::of_parts(alloc, first_new, sites, tris, bands, chunks)?;
    Ok((mesh, journal))
}
