//! Meshes of a few points with small coordinates, for tests.
#![tactic(auto)]

ghost use Rattle.std.specs.Prelude.{ℕ, ◌<◌, ◌≤◌, All, IfOk, length};
ghost use Rattle.pf_geom.specs.Plane.{IsInRange};
ghost use Rattle.pf_model.specs.Applied.{IsFresh};
ghost use Rattle.pf_model.specs.Conforming.{IsLive};
ghost use Rattle.pf_model.specs.Tables.{AreListed};

use pf_geom::Point;
use pf_mesh::{BuildErr, Mesh, build};
use std::alloc::{AllocError, Global};
use std::test::Fail;

/// The points at these places.
pub fn points_at(alloc: Global, places: &[(i16, i16)]) -> Result<Vec<Point>, AllocError>
    ensures { IfOk result (λ points. All IsInRange points.items) }
{
    let mut points = Vec::new(alloc);
    for (x, y) in places {
        points.push(Point {
            x: i32::from(*x),
            y: i32::from(*y),
        })?;
    }
    Ok(points)
}

/// The mesh of at most a thousand points and triangles, before the first operation.
pub fn opened(alloc: Global, points: &[Point], tris: &[[u32; 3]]) -> Result<Mesh, BuildErr>
    requires few_points { length points.now ≤ 1000 }
    requires few_tris { length tris.now ≤ 1000 }
    requires in_range { All IsInRange points.now }
    ensures listed { IfOk result (λ m. AreListed tris.now m.mesh.tris) }
    ensures fresh { IfOk result (λ m. IsFresh m.mesh 0) }
    ensures named { IfOk result (λ m. (n : ℕ) → IsLive m.mesh n → n < m.mesh.first_new) }
    ensures few { IfOk result (λ m. m.mesh.first_new ≤ 1000) }
{
    let mesh = build(alloc, points, tris)?;
    Ok(mesh)
}

/// The mesh of at most a hundred points and triangles: with more, the test fails.
pub fn mesh_of(alloc: Global, points: &[Point], tris: &[[u32; 3]]) -> Result<Mesh, Fail>
    requires { All IsInRange points.now }
    ensures listed { IfOk result (λ m. AreListed tris.now m.mesh.tris) }
    ensures fresh { IfOk result (λ m. IsFresh m.mesh 0) }
    ensures named { IfOk result (λ m. (n : ℕ) → IsLive m.mesh n → n < m.mesh.first_new) }
    ensures few { IfOk result (λ m. m.mesh.first_new ≤ 1000) }
{
    if points.len() > 100 || tris.len() > 100 {
        return Err("more than a hundred points or triangles".into());
    }
    let mesh = opened(alloc, points, tris)?;
    Ok(mesh)
}

/// The mesh with points at these places.
pub fn mesh_at(alloc: Global, places: &[(i16, i16)], tris: &[[u32; 3]]) -> Result<Mesh, Fail>
    ensures listed { IfOk result (λ m. AreListed tris.now m.mesh.tris) }
    ensures fresh { IfOk result (λ m. IsFresh m.mesh 0) }
    ensures named { IfOk result (λ m. (n : ℕ) → IsLive m.mesh n → n < m.mesh.first_new) }
    ensures few { IfOk result (λ m. m.mesh.first_new ≤ 1000) }
{
    let points = points_at(alloc, places)?;
    let mesh = mesh_of(alloc, &points, tris)?;
    Ok(mesh)
}
