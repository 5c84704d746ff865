//! The lists of nodes and triangles, made anew from the edge table.
ghost use Rattle.std.specs.Prelude.{◌≡◌, ℕ, ◌<◌, ◌≤◌, ◌^◌, [], length, vec_capacity};
ghost use Rattle.pf_model.specs.Mesh.{Undivided};
ghost use Rattle.pf_model.specs.Conforming.{IsLive};
ghost use Rattle.pf_edges.specs.Kept.{IsKept};
ghost use Rattle.pf_apply.specs.BuildSteps.{live_sites};
ghost use Rattle.pf_apply.specs.Relist.{starts_least, least_tris, ShowsAtMost, ShowsNamesBelow};

use crate::building::sort_listed;
use pf_edges::table::{Edge, EdgeTable, Node, SideMap};
use pf_model::{Side, Site, Tri};

// Whether the directed edge starts at the least corner of the triangle on its left.
fn is_least_first(edge: Edge, left: Side) -> bool
    ensures { result ≡ starts_least edge left }
{
    edge.from < edge.to && edge.from < left.apex
}

// Lists the triangles in the order of the table, where there is room for them.
fn gather_tris(sides: &SideMap, tris: &mut Vec<Tri>)
    requires none { tris.old.items ≡ [] }
    requires room { length (least_tris sides.now.entries) ≤ vec_capacity tris.old }
    ensures { tris.new.items ≡ least_tris sides.now.entries }
{
    for (edge, left) in sides.iter() {
        if is_least_first(*edge, *left) {
            let t = Tri {
                a: edge.from,
                b: edge.to,
                c: left.apex,
                owner: left.owner,
            };
            tris.push(t).unwrap();
        }
    }
}

/// Lists the triangles of the mesh that the table shows, by rising corners. It takes no memory, since
/// there is room for them.
pub fn relist_tris(table: &EdgeTable, tris: &mut Vec<Tri>)
    requires { ShowsAtMost table.now.sides table.now.nodes.items (vec_capacity tris.old) }
    ensures { (m : Undivided) → IsKept table.now.sides table.now.nodes.items m → tris.new.items ≡ m.tris }
{
    let _ = table.sides.len();
    tris.clear();
    gather_tris(&table.sides, tris);
    sort_listed(tris);
}

// Lists the nodes with triangles, by rising name, where there is room for them.
fn gather_sites(nodes: &[Node], sites: &mut Vec<Site>)
    requires few { length nodes.now < 2 ^ 32 }
    requires none { sites.old.items ≡ [] }
    requires room { length (live_sites 0 nodes.now) ≤ vec_capacity sites.old }
    ensures { sites.new.items ≡ live_sites 0 nodes.now }
{
    let mut name = 0;
    for node in nodes {
        if node.triangles > 0 {
            sites.push(Site { name, at: node.at }).unwrap();
        }
        name += 1;
    }
}

/// Lists the nodes of the mesh that the table shows, by rising name. All of its names are below `names`.
/// It takes no memory, since there is room for them.
pub fn relist_sites(table: &EdgeTable, names: u32, sites: &mut Vec<Site>)
    requires { ShowsNamesBelow table.now.sides table.now.nodes.items names (vec_capacity sites.old) }
    ensures { (m : Undivided) → IsKept table.now.sides table.now.nodes.items m → ((n : ℕ) → IsLive m n → n < names) → sites.new.items ≡ m.sites }
{
    let end = table.nodes.len().min(names as usize);
    sites.clear();
    gather_sites(&table.nodes[..end], sites);
}
