//! Flips of two triangles, and what forbids them.
ghost use Rattle.std.specs.Prelude.{◌≤◌};
ghost use Rattle.pf_model.specs.Applied.{IsFresh};

use super::*;

// The kite after so many tries to flip it, of which the first passed.
fn assert_flipped<R: Abort + AllocGlobal>(rt: &R, mesh: &Mesh, tries: u32) {
    let tris = [tri(0, 3, 2), tri(1, 2, 3)];
    assert_eq!(rt; (tries, mesh.tris()), (tries, tris.as_slice()));
}

#[test]
fn flips_the_kite_and_not_back(rt: HostRuntime) -> Result<(), Fail> {
    let mut mesh = kite(&rt)?;
    assert!(rt; flip(&mut mesh, 0, 1, 0).is_ok());
    assert_flipped(&rt, &mesh, 1);
    let cond = Cond::NotShorter;
    fail_flip(&rt, &mut mesh, 0, 2, 3, ApplyErr::Refused { cond });
    assert_flipped(&rt, &mesh, 2);
    assert_eq!(rt; (mesh.sites().len(), mesh.first_new()), (4, 4));
    Ok(())
}

// The flip of this edge has this fault.
fn fail_flip<R: Abort + AllocGlobal>(
    rt: &R,
    mesh: &mut Mesh,
    chunk: u16,
    a: u32,
    b: u32,
    fault: ApplyErr,
)
    requires fresh { IsFresh mesh.old.mesh 0 }
    requires few { mesh.old.mesh.first_new ≤ 1000 }
    ensures fresh { IsFresh mesh.new.mesh 0 }
    ensures few { mesh.new.mesh.first_new ≤ 1000 }
{
    let found = flip(mesh, chunk, a, b).err();
    assert_eq!(rt; (chunk, a, b, found), (chunk, a, b, Some(fault)));
}

// The kite, after a flip of this edge that failed.
fn assert_kept<R: Abort + AllocGlobal>(rt: &R, mesh: &Mesh, chunk: u16, a: u32, b: u32) {
    let tris = [tri(0, 1, 2), tri(0, 3, 1)];
    assert_eq!(rt; (chunk, a, b, mesh.tris()), (chunk, a, b, tris.as_slice()));
}

// The flip of this edge of the kite has this fault, and changes no triangle.
fn assert_left<R: Abort + AllocGlobal>(
    rt: &R,
    chunk: u16,
    a: u32,
    b: u32,
    fault: ApplyErr,
) -> Result<(), Fail> {
    let mut mesh = kite(rt)?;
    fail_flip(rt, &mut mesh, chunk, a, b, fault);
    assert_kept(rt, &mesh, chunk, a, b);
    Ok(())
}

#[test]
fn leaves_the_kite_as_it_was(rt: HostRuntime) -> Result<(), Fail> {
    for (chunk, a, b, fault) in [
        (1, 5, 4, ApplyErr::Gone { node: 5 }),
        (1, 0, 4, ApplyErr::Gone { node: 4 }),
        (1, 0, 0, ApplyErr::Refused { cond: Cond::NoEdge }),
        (1, 2, 3, ApplyErr::Refused { cond: Cond::NoEdge }),
        (
            1,
            0,
            1,
            ApplyErr::Refused {
                cond: Cond::Foreign,
            },
        ),
        (
            1,
            0,
            2,
            ApplyErr::Refused {
                cond: Cond::Foreign,
            },
        ),
        (
            0,
            2,
            0,
            ApplyErr::Refused {
                cond: Cond::OnBoundary,
            },
        ),
        (
            0,
            0,
            3,
            ApplyErr::Refused {
                cond: Cond::OnBoundary,
            },
        ),
    ] {
        assert_left(&rt, chunk, a, b, fault)?;
    }
    Ok(())
}

// The flip of this edge in the mesh of these is refused by this condition.
fn assert_refused<R: Abort + AllocGlobal>(
    rt: &R,
    places: &[(i16, i16)],
    tris: &[[u32; 3]],
    (a, b): (u32, u32),
    cond: Cond,
) -> Result<(), Fail> {
    let mut mesh = mesh_at(rt.alloc(), places, tris)?;
    fail_flip(rt, &mut mesh, 0, a, b, ApplyErr::Refused { cond });
    Ok(())
}

#[test]
fn refuses_a_flip_by_the_shape(rt: HostRuntime) -> Result<(), Fail> {
    // The new edge would pass through the corner 0.
    let flat = [(0, 0), (8, 0), (0, 2), (0, -2)];
    let tris = [[0, 1, 2], [1, 0, 3]];
    assert_refused(&rt, &flat, &tris, (0, 1), Cond::NotConvex)?;
    // Both diagonals are as long.
    let tris = [[0, 1, 2], [0, 2, 3]];
    assert_refused(&rt, &SQUARE, &tris, (0, 2), Cond::NotShorter)
}

#[test]
fn refuses_an_edge_that_is_there(rt: HostRuntime) -> Result<(), Fail> {
    // The third triangle lies over the kite and has the new edge.
    let places = [(0, 0), (8, 0), (4, 2), (4, -2), (12, 0)];
    let tris = [[0, 1, 2], [1, 0, 3], [2, 3, 4]];
    assert_refused(&rt, &places, &tris, (0, 1), Cond::EdgeThere { c: 2, d: 3 })
}
