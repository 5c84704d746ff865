//! A mesh from a list of points and a list of triangles.
ghost use Rattle.std.specs.Prelude.{◌≡◌, ◌≤◌, ◌<◌, ◌^◌, All, Ok, Err, ◌≢◌, IfOk, length};
ghost use Rattle.pf_geom.specs.Plane.{IsInRange};
ghost use Rattle.pf_model.specs.Build.{built};
ghost use Rattle.pf_model.specs.Conforming.{IsConforming};
ghost use Rattle.pf_model.specs.Tables.{AreListed};
ghost use Rattle.pf_model.specs.declared.BuildErr.{BuildErr};
ghost use Rattle.pf_model.specs.Limits.{most_names, most_triangles};
ghost use Rattle.pf_mesh.specs.Room.{IsRoomFor};

use crate::mesh::Mesh;
use pf_apply::building::{default_bands, enter_triangles, list_sites, sort_listed};
use pf_edges::table::EdgeTable;
use pf_geom::{NoMemory, Point};
use pf_model::{BuildErr, Tri};
use std::alloc::Global;

/// Room for a mesh over some points, with some number of triangles.
#[derive(Drop)]
pub struct Room {
    table: EdgeTable,
    listed: Vec<Tri>,
}

/// Makes room for a mesh over these points, with so many triangles.
pub fn build_room(alloc: Global, points: &[Point], triangles: usize) -> Result<Room, NoMemory>
    requires { triangles < 2 ^ 32 }
    ensures { IfOk result (λ room. IsRoomFor points.now triangles room) }
{
    let Ok(table) = EdgeTable::of_points(alloc, points, triangles) else {
        return Err(NoMemory);
    };
    let Ok(listed) = Vec::with_capacity(alloc, triangles) else {
        return Err(NoMemory);
    };
    Ok(Room { table, listed })
}

/// Does what `build` does, in room that was made for these points and so many triangles. A fault of the
/// triangles is always the answer: `Memory` comes only where they make a mesh, whose nodes can't be listed.
pub fn build_in(
    alloc: Global,
    room: Room,
    points: &[Point],
    tris: &[[u32; 3]],
) -> Result<Mesh, BuildErr>
    requires few_points { length points.now ≤ most_names }
    requires few_tris { length tris.now ≤ most_triangles }
    requires in_range { All IsInRange points.now }
    requires room { IsRoomFor points.now (length tris.now) room }
    ensures ok { IfOk result (λ m. built points.now tris.now ≡ Ok m.mesh) }
    ensures found { (e : BuildErr) → built points.now tris.now ≡ Err e → result ≡ Err e }
    ensures fault { (e : BuildErr) → result ≡ Err e → e ≢ BuildErr.Memory → built points.now tris.now ≡ Err e }
    ensures conforming { IfOk result (λ m. IsConforming m.mesh) }
    // The list has a place for each triangle, as `with_tables` asks.
    ensures listed { IfOk result (λ m. AreListed tris.now m.mesh.tris) }
{
    let Room {
        mut table,
        mut listed,
    } = room;
    match enter_triangles(&mut table, &mut listed, points, tris) {
        Ok(()) => {}
        Err(fault) => return Err(fault),
    }
    sort_listed(&mut listed);
    let Ok(sites) = list_sites(alloc, &table.nodes) else {
        return Err(BuildErr::Memory);
    };
    let Ok(bands) = default_bands(alloc) else {
        return Err(BuildErr::Memory);
    };
    Ok(Mesh::of_kept(points.len() as u32, table, sites, listed, bands, 1))
}

/// Makes a mesh of one chunk, whose table of sizes allows every length, from a list of points and a list
/// of triangles, each with three places of points as its corners.
///
/// Triangles are taken in order, and the first that has a fault is the answer: a corner that is no place
/// (`BadNode`, the first such corner), corners on one line (`Flat`), or, after a clockwise triangle is
/// turned round and the least corner put first, a directed edge that an earlier triangle has
/// (`EdgeTwice`, the first such edge). Points in no triangle are dropped, and their places are never live
/// names. `Memory` says that memory ran out:
/// before the first triangle was looked at, or once all were found right.
pub fn build(alloc: Global, points: &[Point], tris: &[[u32; 3]]) -> Result<Mesh, BuildErr>
    requires few_points { length points.now ≤ most_names }
    requires few_tris { length tris.now ≤ most_triangles }
    requires in_range { All IsInRange points.now }
    ensures ok { IfOk result (λ m. built points.now tris.now ≡ Ok m.mesh) }
    ensures fault { (e : BuildErr) → result ≡ Err e → e ≢ BuildErr.Memory → built points.now tris.now ≡ Err e }
    ensures conforming { IfOk result (λ m. IsConforming m.mesh) }
    // The list has a place for each triangle, as `with_tables` asks.
    ensures listed { IfOk result (λ m. AreListed tris.now m.mesh.tris) }
{
    let Ok(room) = build_room(alloc, points, tris.len()) else {
        return Err(BuildErr::Memory);
    };
    build_in(alloc, room, points, tris)
}
