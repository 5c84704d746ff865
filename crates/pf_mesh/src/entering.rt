//! The edge table of a mesh that is known by its lists.
ghost use Rattle.std.specs.Prelude.{◌≡◌, ◌*◌, ◌≤◌, [], All, IfOk, length};
ghost use Rattle.indexmap.specs.IndexMap.{spare};
ghost use Rattle.pf_model.specs.Exchange.{AreSound};
ghost use Rattle.pf_model.specs.Mesh.{Undivided};
ghost use Rattle.pf_model.specs.Conforming.{IsConforming};
ghost use Rattle.pf_edges.specs.Kept.{IsKept};
ghost use Rattle.pf_edges.specs.Table.{ShowsTriangles, HasSamePlaces, HasNamedCorners};
ghost use Rattle.pf_sweep.specs.Lists.{AreLists};

use pf_edges::table::EdgeTable;
use pf_geom::NoMemory;
use pf_model::{Site, Tri};
use pf_sweep::points_by_name;
use std::alloc::Global;

// Enters the triangles into a table without any, from the last to the first.
fn enter_listed(table: &mut EdgeTable, tris: &[Tri])
    requires empty { ShowsTriangles table.old.sides table.old.nodes.items [] }
    requires sound { AreSound tris.now }
    requires within { All (HasNamedCorners table.old.nodes.items) tris.now }
    requires room { 3 * length tris.now ≤ spare table.old.sides }
    ensures shows { ShowsTriangles table.new.sides table.new.nodes.items tris.now }
    ensures places { HasSamePlaces table.old.nodes.items table.new.nodes.items }
{
    for k in 0..tris.len() {
        table.put(tris[tris.len() - 1 - k]);
    }
}

/// The edge table of the mesh with these lists.
pub fn table_of(alloc: Global, sites: &[Site], tris: &[Tri]) -> Result<EdgeTable, NoMemory>
    requires { AreLists sites.now tris.now }
    ensures { IfOk result (λ t. (m : Undivided) → IsConforming m → m.sites ≡ sites.now → m.tris ≡ tris.now → IsKept t.sides t.nodes.items m) }
{
    if tris.len() > u32::MAX as usize {
        return Err(NoMemory);
    }
    let points = points_by_name(alloc, sites)?;
    let mut table = EdgeTable::of_points(alloc, &points, tris.len())?;
    enter_listed(&mut table, tris);
    Ok(table)
}
