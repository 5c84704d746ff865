//! Meshes of a few triangles, and the sums over them before and after operations.
ghost use Rattle.std.specs.Prelude.{◌+◌, ◌≤◌};
ghost use Rattle.pf_model.specs.Applied.{IsFresh};

mod cover;
mod random;
mod sums;

use pf_geom::Point;
use pf_mesh::{ApplyErr, Entry, Mesh, Op, Tri};
use small_meshes::{mesh_at, opened, points_at};
use std::alloc::Global;
use std::test::Fail;

// The operation with this ticket, by chunk 0.
fn apply(mesh: &mut Mesh, ticket: u32, op: Op) -> Result<(), ApplyErr>
    requires fresh { IsFresh mesh.old.mesh ticket }
    requires few { mesh.old.mesh.first_new ≤ 1000 }
    requires early { ticket ≤ 1000 }
    ensures fresh { IsFresh mesh.new.mesh (ticket + 1) }
    ensures few { mesh.new.mesh.first_new ≤ 1000 }
{
    let chunk = 0;
    match mesh.apply(&Entry { ticket, chunk, op }) {
        Ok(()) => Ok(()),
        Err(fault) => Err(fault),
    }
}
