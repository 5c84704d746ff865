//! Sums over the triangles of a mesh: twice its area, its Euler number, its boundary, and how many hold a point.
#![tactic(auto)]

ghost use Rattle.std.specs.Prelude.{◌≡◌, ◌≤◌, ◌+ℤ◌, pos, IfOk, length, map};
ghost use Rattle.pf_geom.specs.Plane.{IsInRange, IsWithin};
ghost use Rattle.pf_model.specs.Mesh.{place_of, turn_at};
ghost use Rattle.pf_model.specs.Sums.{area2_of, boundary_of, cover_of, euler_of};
ghost use Rattle.pf_sums.specs.Edges.{edge_at};
ghost use Rattle.pf_sums.specs.Inside.{is_strictly_inside};

use pf_geom::{NoMemory, Point, orient};
use pf_mesh::{Mesh, Tri};
use pf_sums::{boundary_by, euler_by, is_inside};
use std::alloc::Global;

/// Twice the area of the mesh, in squared coordinate units. It can't overflow, and takes no memory.
pub fn area2(m: &Mesh) -> i128
    ensures { result ≡ area2_of m.now.mesh }
{
    let mut sum = 0;
    for t in m.tris() {
        sum += turn(m, *t);
    }
    sum
}

// Twice the area of a triangle.
fn turn(m: &Mesh, t: Tri) -> i128
    ensures value { result ≡ turn_at m.now.mesh t.a t.b t.c }
    ensures bounded { IsWithin 576460752303423488 result }
{
    orient(place(m, t.a), place(m, t.b), place(m, t.c))
}

// Where a node stands, and the origin where it isn't live.
fn place(m: &Mesh, n: u32) -> Point
    ensures value { result ≡ place_of m.now.mesh n }
    ensures in_range { IsInRange result }
{
    m.site(n).unwrap_or(Point { x: 0, y: 0 })
}

/// How many triangles have the point (x/q, y/q) strictly inside. A point on an edge is in none of the edge's
/// triangles. It is found in whole numbers, after each corner is multiplied by `q`. It can't overflow, takes
/// no memory, and takes time in proportion to the number of triangles.
///
/// `q` is at least 1, and the magnitudes of `x` and `y` are at most 2 to the 61st.
pub fn cover(m: &Mesh, x: i64, y: i64, q: u32) -> u32
    requires divisor { 1 ≤ q }
    requires x_within { IsWithin 2305843009213693952 x }
    requires y_within { IsWithin 2305843009213693952 y }
    requires few { length m.now.mesh.tris ≤ 4294967295 }
    ensures { result ≡ cover_of m.now.mesh record { x = x; y = y } (pos q) }
{
    let mut count = 0;
    for tri in m.tris() {
        if covers(m, *tri, x, y, q) {
            count += 1;
        }
    }
    count
}

// Whether a triangle has the point (x/q, y/q) strictly inside.
fn covers(m: &Mesh, t: Tri, x: i64, y: i64, q: u32) -> bool
    requires x_within { IsWithin 2305843009213693952 x }
    requires y_within { IsWithin 2305843009213693952 y }
    ensures { result ≡ is_strictly_inside (pos q) record { x = x; y = y } (place_of m.now.mesh t.a) (place_of m.now.mesh t.b) (place_of m.now.mesh t.c) }
{
    is_inside(place(m, t.a), place(m, t.b), place(m, t.c), x, y, q)
}

/// The Euler number of the mesh: live nodes, less edges, plus triangles. An edge counts once, however many
/// triangles it has. Takes time in proportion to F log F for F triangles, and `NoMemory` says that there was
/// no room for their directed edges.
pub fn euler(alloc: Global, m: &Mesh) -> Result<i64, NoMemory>
    ensures { IfOk result (λ number. number ≡ euler_of m.now.mesh) }
{
    let number = euler_by(alloc, m.sites(), m.tris())?;
    Ok(number)
}

/// The boundary edges of the mesh, rising by first name, then second: the directed edges, each with its
/// triangle on the left, whose reverse is in no triangle. Takes time in proportion to F log F for F
/// triangles, and `NoMemory` says that there was no room for their directed edges.
pub fn boundary(alloc: Global, m: &Mesh) -> Result<Vec<(u32, u32)>, NoMemory>
    ensures { IfOk result (λ edges. map edge_at edges.items ≡ boundary_of m.now.mesh) }
{
    let edges = boundary_by(alloc, m.tris())?;
    Ok(edges)
}
