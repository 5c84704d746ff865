//! The directed edges of triangles in rising order, each as a pair of names, and which of them have a
//! triangle on one side alone.
ghost use Rattle.std.specs.Prelude.{◌≡◌, ◌≤◌, ◌++◌, List, IfOk, OnOk, filter, length, map};
ghost use Rattle.pf_model.specs.declared.Tri.{Tri};
ghost use Rattle.pf_model.specs.Mesh.{directed_edges_in};
ghost use Rattle.pf_model.specs.Sums.{is_counted, is_open};
ghost use Rattle.pf_sums.specs.Edges.{edge_at, AreEdgesOf};

use pf_geom::NoMemory;
use pf_model::Tri;
use std::alloc::Global;

/// The directed edges of the triangles, in rising order.
pub fn directed_edges(alloc: Global, tris: &[Tri]) -> Result<Vec<(u32, u32)>, NoMemory>
    ensures { IfOk result (λ edges. AreEdgesOf tris.now edges.items) }
{
    let mut edges = Vec::new(alloc);
    for t in tris {
        push_edges(&mut edges, *t)?;
    }
    edges.sort_unstable();
    Ok(edges)
}

// Appends the three directed edges of a triangle.
fn push_edges(edges: &mut Vec<(u32, u32)>, t: Tri) -> Result<(), NoMemory>
    ensures { OnOk result (map edge_at edges.new.items ≡ map edge_at edges.old.items ++ directed_edges_in t) }
{
    let three = [(t.a, t.b), (t.b, t.c), (t.c, t.a)];
    match edges.extend_from_slice(&three) {
        Ok(()) => Ok(()),
        Err(_) => Err(NoMemory),
    }
}

// Whether no triangle has the edge the other way.
fn is_open(edges: &[(u32, u32)], from: u32, to: u32) -> bool
    ensures { (ts : List Tri) → AreEdgesOf ts edges.now → result ≡ is_open ts record { from = from; to = to } }
{
    edges.binary_search(&(to, from)).is_err()
}

// Whether the edge is counted in this direction: from the lower name, or where it stands this way alone.
fn is_counted(edges: &[(u32, u32)], from: u32, to: u32) -> bool
    ensures { (ts : List Tri) → AreEdgesOf ts edges.now → result ≡ is_counted ts record { from = from; to = to } }
{
    from < to || is_open(edges, from, to)
}

/// How many edges there are, each counted once.
pub fn count_edges(edges: &[(u32, u32)]) -> usize
    ensures count { (ts : List Tri) → AreEdgesOf ts edges.now → result ≡ length (filter (is_counted ts) (map edge_at edges.now)) }
    ensures few { result ≤ length edges.now }
{
    let mut count = 0;
    for (from, to) in edges {
        if is_counted(edges, *from, *to) {
            count += 1;
        }
    }
    count
}

/// The edges that no triangle has the other way, in rising order.
pub fn open_edges(alloc: Global, edges: &[(u32, u32)]) -> Result<Vec<(u32, u32)>, NoMemory>
    ensures { IfOk result (λ found. (ts : List Tri) → AreEdgesOf ts edges.now → map edge_at found.items ≡ filter (is_open ts) (map edge_at edges.now)) }
{
    let mut open = Vec::new(alloc);
    for edge in edges {
        if is_open(edges, edge.0, edge.1) && open.push(*edge).is_err() {
            return Err(NoMemory);
        }
    }
    Ok(open)
}
