//! Sums over lists of triangles: the Euler number, the boundary, and whether a triangle holds a point.
#![tactic(auto)]

ghost use Rattle.std.specs.Prelude.{◌≡◌, ◌+◌, ◌<◌, ◌^◌, ◌+ℤ◌, ◌-ℤ◌, pos, IfOk, map};
ghost use Rattle.pf_model.specs.Mesh.{Undivided};
ghost use Rattle.pf_model.specs.Conforming.{IsConforming};
ghost use Rattle.pf_model.specs.Sums.{boundary_of, euler_of};
ghost use Rattle.pf_sums.specs.Edges.{edge_at};

mod edges;
mod inside;

use edges::{count_edges, directed_edges, open_edges};
pub use inside::is_inside;
use pf_geom::NoMemory;
use pf_model::{Site, Tri};
use std::alloc::Global;

/// The Euler number of the conforming mesh with these nodes and triangles: nodes, less edges, plus
/// triangles. An edge counts once, however many triangles it has. Takes time in proportion to F log F for
/// F triangles, and `NoMemory` says that there was no room for their directed edges.
pub fn euler_by(alloc: Global, sites: &[Site], tris: &[Tri]) -> Result<i64, NoMemory>
    ensures { IfOk result (λ number. (m : Undivided) → IsConforming m → sites.now ≡ m.sites → tris.now ≡ m.tris → number ≡ euler_of m) }
{
    let edges = directed_edges(alloc, tris)?;
    let count = count_edges(&edges);
    Ok(alternating(sites.len(), count, tris.len()))
}

// The nodes, less the edges, plus the triangles.
fn alternating(nodes: usize, edges: usize, triangles: usize) -> i64
    requires few { nodes + triangles < 2 ^ 63 }
    requires few_edges { edges < 2 ^ 63 }
    ensures { result ≡ pos nodes -ℤ pos edges +ℤ pos triangles }
{
    nodes as i64 - edges as i64 + triangles as i64
}

/// The boundary edges of the conforming mesh with these triangles, rising by first name, then second: the
/// directed edges, each with its triangle on the left, whose reverse is in no triangle. Takes time in
/// proportion to F log F for F triangles, and `NoMemory` says that there was no room for their directed
/// edges.
pub fn boundary_by(alloc: Global, tris: &[Tri]) -> Result<Vec<(u32, u32)>, NoMemory>
    ensures { IfOk result (λ edges. (m : Undivided) → IsConforming m → tris.now ≡ m.tris → map edge_at edges.items ≡ boundary_of m) }
{
    let edges = directed_edges(alloc, tris)?;
    open_edges(alloc, &edges)
}
