//! Grids as meshes: the nodes, triangles, owners and bands of `pf_gen`, built and with their tables.
#![tactic(auto)]

ghost use Rattle.std.specs.Prelude.{◌≡◌, ◌⊎◌, ◌<◌, ◌≤◌, ◌+◌, ◌*◌, IfOk, Err, IsErrAnd};
ghost use Rattle.pf_model.specs.Applied.{IsFresh};
ghost use Rattle.pf_model.specs.Conforming.{IsConforming};
ghost use Rattle.pf_grid.specs.Mesh.{grid_mesh};

use pf_gen::{bands, chunks, grid_is_built, grid_is_fit, owners, points, triangles};
use pf_geom::NoMemory;
use pf_mesh::{Mesh, build};
use pf_model::built_is_fresh;
use std::alloc::Global;
use thiserror::Error;

/// The most cells a side that a grid is made with.
pub const MOST_SIDE: u32 = 64;

/// Why there is no grid.
#[derive(Clone, Copy, Debug, PartialEq, Eq, Error)]
pub enum GenErr {
    /// The cells a side aren't from 1 to 64.
    #[error("a grid has 1 to 64 cells a side")]
    Size,
    /// Memory ran out.
    #[error("memory ran out")]
    Memory,
}

/// The grid with `n` cells a side: nodes (64 i, 64 j) for i and j from 0 to `n`, each cell cut into two triangles by the
/// diagonal from its lower left corner, in up to four strips of chunks. Its names are those below (n + 1) (n + 1). `Size` comes
/// exactly where `n` isn't from 1 to 64.
pub fn grid(alloc: Global, n: u32) -> Result<Mesh, GenErr>
    ensures mesh { IfOk result (λ m. m.mesh ≡ grid_mesh n) }
    ensures conforming { IfOk result (λ m. IsConforming m.mesh) }
    ensures fresh { IfOk result (λ m. IsFresh m.mesh 0) }
    ensures names { IfOk result (λ m. m.mesh.first_new ≡ (n + 1) * (n + 1)) }
    ensures size { (n < 1) ⊎ (64 < n) → IsErrAnd result (λ e. e ≡ GenErr.Size) }
    ensures only { result ≡ Err GenErr.Size → (n < 1) ⊎ (64 < n) }
{
    if n < 1 || MOST_SIDE < n {
        return Err(GenErr::Size);
    }
    match grid_within(alloc, n) {
        Ok(mesh) => Ok(mesh),
        Err(_) => Err(GenErr::Memory),
    }
}

// The grid, whose lists have no fault, so that it fails for want of memory alone.
fn grid_within(alloc: Global, n: u32) -> Result<Mesh, NoMemory>
    requires some { 1 ≤ n }
    requires few { n ≤ 64 }
    ensures mesh { IfOk result (λ m. m.mesh ≡ grid_mesh n) }
    ensures conforming { IfOk result (λ m. IsConforming m.mesh) }
    ensures fresh { IfOk result (λ m. IsFresh m.mesh 0) }
    ensures names { IfOk result (λ m. m.mesh.first_new ≡ (n + 1) * (n + 1)) }
{
    let points = points(alloc, n)?;
    let triangles = triangles(alloc, n)?;
    let owners = owners(alloc, n)?;
    let Ok(bands) = Vec::from_array(alloc, bands(n)) else {
        return Err(NoMemory);
    };
    grid_is_built();
    grid_is_fit();
    built_is_fresh();
    let Ok(mesh) = build(alloc, &points, &triangles) else {
        return Err(NoMemory);
    };
    mesh.with_tables(&triangles, owners, chunks(n), bands)
}
