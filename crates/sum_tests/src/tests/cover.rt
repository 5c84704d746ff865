//! How many triangles hold a point, and Euler numbers, before and after operations on worked meshes.
ghost use Rattle.std.specs.Prelude.{◌+◌, ◌≤◌, IfOk};
ghost use Rattle.pf_model.specs.Applied.{IsFresh};

use super::*;
use pf_forms::{cover, euler};
use std::process::Abort;

// How many triangles hold the point (x/q, y/q).
pub(super) fn cover_at<R: Abort + AllocGlobal>(rt: &R, m: &Mesh, x: i32, y: i32, q: u16) -> u32
    requires { 1 ≤ q }
{
    assert!(rt; m.tris().len() < 1_000_000);
    cover(m, i64::from(x), i64::from(y), u32::from(q))
}

// The operation with this ticket passes.
fn pass<R: Abort + AllocGlobal>(rt: &R, mesh: &mut Mesh, ticket: u32, op: Op)
    requires fresh { IsFresh mesh.old.mesh ticket }
    requires few { mesh.old.mesh.first_new ≤ 1000 }
    requires early { ticket ≤ 1000 }
    ensures fresh { IsFresh mesh.new.mesh (ticket + 1) }
    ensures few { mesh.new.mesh.first_new ≤ 1000 }
{
    assert!(rt; apply(mesh, ticket, op).is_ok());
}

// Each of these rows (x, y, q, count) names a point (x/q, y/q) that so many triangles hold.
fn assert_covers<R: Abort + AllocGlobal>(rt: &R, m: &Mesh, rows: &[(i16, i16, u16, u32)]) {
    for (x, y, q, count) in rows {
        assert!(rt; 1 <= *q);
        assert_eq!(rt; cover_at(rt, m, i32::from(*x), i32::from(*y), *q), *count);
    }
}

// The points of these rows are held so often, and the Euler number is 1.
fn assert_sums<R: Abort + AllocGlobal>(
    rt: &R,
    m: &Mesh,
    rows: &[(i16, i16, u16, u32)],
) -> Result<(), Fail> {
    assert_covers(rt, m, rows);
    assert_eq!(rt; euler(rt.alloc(), m)?, 1);
    Ok(())
}

#[test]
fn covers_the_square_once(rt: HostRuntime) -> Result<(), Fail> {
    let mut mesh = mesh_at(
        rt.alloc(),
        &[(0, 0), (4, 0), (4, 4), (0, 4)],
        &[[0, 1, 2], [0, 2, 3]],
    )?;
    // The last two points are on the diagonal and at a corner.
    let rows = [
        (7, 2, 2, 1),
        (-1, 1, 1, 0),
        (3, 1, 1, 1),
        (1, 1, 1, 0),
        (4, 0, 1, 0),
    ];
    assert_sums(&rt, &mesh, &rows)?;
    pass(&rt, &mut mesh, 0, Op::Bisect { a: 0, b: 2 });
    // The last point is on the new edge from 1 to 4.
    assert_sums(&rt, &mesh, &[(7, 2, 2, 1), (-1, 1, 1, 0), (3, 1, 1, 0)])?;
    pass(&rt, &mut mesh, 1, Op::Contract { u: 4, v: 0 });
    assert_sums(&rt, &mesh, &[(7, 2, 2, 1), (3, 1, 1, 1)])
}

#[test]
fn covers_an_overlap_twice(rt: HostRuntime) -> Result<(), Fail> {
    // A kite with a third triangle, which lies over it.
    let mut mesh = mesh_at(
        rt.alloc(),
        &[(0, 0), (8, 0), (4, 2), (4, -2), (12, 0)],
        &[[0, 1, 2], [1, 0, 3], [2, 3, 4]],
    )?;
    assert_covers(&rt, &mesh, &[(25, 3, 4, 2)]);
    pass(&rt, &mut mesh, 0, Op::Bisect { a: 0, b: 1 });
    assert_covers(&rt, &mesh, &[(25, 3, 4, 2)]);
    pass(&rt, &mut mesh, 1, Op::Contract { u: 5, v: 0 });
    // The last two points are of the triangle that lies over the kite alone, and of the kite alone.
    assert_covers(&rt, &mesh, &[(25, 3, 4, 2), (9, 0, 1, 1), (3, 1, 1, 1)]);
    Ok(())
}

#[test]
fn covers_the_kite_once(rt: HostRuntime) -> Result<(), Fail> {
    let mut mesh = mesh_at(
        rt.alloc(),
        &[(0, 0), (8, 0), (4, 2), (4, -2)],
        &[[0, 1, 2], [1, 0, 3]],
    )?;
    assert_sums(&rt, &mesh, &[(3, 0, 1, 0), (7, 1, 2, 1)])?;
    pass(&rt, &mut mesh, 0, Op::Flip { a: 0, b: 1 });
    assert_sums(&rt, &mesh, &[(3, 0, 1, 1), (7, 1, 2, 1), (4, 1, 1, 0)])
}

// The first operation on the mesh with these points and triangles passes and keeps the Euler number 1.
fn assert_kept<R: Abort + AllocGlobal>(
    rt: &R,
    places: &[(i16, i16)],
    tris: &[[u32; 3]],
    op: Op,
) -> Result<(), Fail> {
    let mut mesh = mesh_at(rt.alloc(), places, tris)?;
    assert_sums(rt, &mesh, &[])?;
    pass(rt, &mut mesh, 0, op);
    assert_sums(rt, &mesh, &[])
}

#[test]
fn contractions_keep_the_euler_number(rt: HostRuntime) -> Result<(), Fail> {
    // Two triangles beside one another over a straight boundary edge from 0 to 2, which has 1 on it.
    assert_kept(
        &rt,
        &[(0, 0), (4, 0), (8, 0), (4, 4)],
        &[[0, 1, 3], [1, 2, 3]],
        Op::Contract { u: 1, v: 0 },
    )?;
    // A dart, and a node inside it near the reflex corner.
    assert_kept(
        &rt,
        &[(4, 3), (0, 0), (4, 1), (8, 0), (4, 8)],
        &[[0, 1, 2], [0, 2, 3], [0, 3, 4], [0, 4, 1]],
        Op::Contract { u: 0, v: 2 },
    )
}
