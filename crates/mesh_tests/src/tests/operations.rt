//! Bisections and contractions of small meshes.
use super::*;

// Two triangles beside one another over a straight boundary edge from 0 to 2, which has 1 on it.
const TENT: [(i16, i16); 4] = [(0, 0), (4, 0), (8, 0), (4, 4)];

const TENT_TRIS: [[u32; 3]; 2] = [[0, 1, 3], [1, 2, 3]];

fn refused(cond: Cond) -> Option<ApplyErr> {
    Some(ApplyErr::Refused { cond })
}

// The first operation on the mesh of these has this fault, and none where it passes.
fn assert_fault<R: Abort + AllocGlobal>(
    rt: &R,
    places: &[(i16, i16)],
    tris: &[[u32; 3]],
    op: Op,
    fault: Option<ApplyErr>,
) -> Result<(), Fail> {
    let mut mesh = mesh_at(rt.alloc(), places, tris)?;
    try_op(rt, &mut mesh, 0, op, fault);
    Ok(())
}

// The same on the mesh whose edges have these bounds.
fn assert_fault_by<R: Abort + AllocGlobal>(
    rt: &R,
    places: &[(i16, i16)],
    tris: &[[u32; 3]],
    (min2, max2): (i64, i64),
    op: Op,
    fault: Option<ApplyErr>,
) -> Result<(), Fail> {
    let mut mesh = sized(rt, places, tris, min2, max2)?;
    let found = apply(&mut mesh, 0, op).err();
    assert_eq!(rt; (min2, max2, op, found), (min2, max2, op, fault));
    Ok(())
}

// The mesh of these after this first operation, which passes.
fn changed<R: Abort + AllocGlobal>(
    rt: &R,
    places: &[(i16, i16)],
    tris: &[[u32; 3]],
    op: Op,
) -> Result<Mesh, Fail> {
    let mut mesh = mesh_at(rt.alloc(), places, tris)?;
    pass(rt, &mut mesh, 0, op);
    Ok(mesh)
}

// The square in four triangles.
fn assert_halves<R: Abort + AllocGlobal>(rt: &R, mesh: &Mesh) {
    let halves = [tri(0, 1, 4), tri(0, 4, 3), tri(1, 2, 4), tri(2, 3, 4)];
    assert_tris(rt, mesh, &halves);
    assert_eq!(rt; mesh.site(4), Some(Point { x: 2, y: 2 }));
    let sites = [
        site(0, 0, 0),
        site(1, 4, 0),
        site(2, 4, 4),
        site(3, 0, 4),
        site(4, 2, 2),
    ];
    assert_sites(rt, mesh, &sites);
}

// The square in two triangles.
fn assert_whole<R: Abort + AllocGlobal>(rt: &R, mesh: &Mesh) {
    assert_tris(rt, mesh, &[tri(0, 1, 2), tri(0, 2, 3)]);
    let corners = [site(0, 0, 0), site(1, 4, 0), site(2, 4, 4), site(3, 0, 4)];
    assert_sites(rt, mesh, &corners);
    assert_eq!(rt; mesh.site(4), None);
}

#[test]
fn bisects_the_square_and_contracts_it_back(rt: HostRuntime) -> Result<(), Fail> {
    let mut mesh = mesh_at(rt.alloc(), &SQUARE, &[[0, 1, 2], [0, 2, 3]])?;
    pass(&rt, &mut mesh, 0, Op::Bisect { a: 2, b: 0 });
    assert_halves(&rt, &mesh);
    pass(&rt, &mut mesh, 1, Op::Contract { u: 4, v: 0 });
    assert_whole(&rt, &mesh);
    let gone = Some(ApplyErr::Gone { node: 4 });
    try_op(&rt, &mut mesh, 2, Op::Contract { u: 4, v: 0 }, gone);
    Ok(())
}

#[test]
fn bisects_a_boundary_edge(rt: HostRuntime) -> Result<(), Fail> {
    // The point 1 is in no triangle, so its name is never live, and the new one is above it all the same.
    let mesh = changed(&rt, &TENT, &[[0, 2, 3]], Op::Bisect { a: 0, b: 2 })?;
    assert_tris(&rt, &mesh, &[tri(0, 4, 3), tri(2, 3, 4)]);
    let sites = [site(0, 0, 0), site(2, 8, 0), site(3, 4, 4), site(4, 4, 0)];
    assert_sites(&rt, &mesh, &sites);
    Ok(())
}

#[test]
fn refuses_bisections(rt: HostRuntime) -> Result<(), Fail> {
    let odd = [(0, 0), (3, 0), (1, 1)];
    let low = Op::Bisect { a: 0, b: 1 };
    assert_fault(&rt, &odd, &[[0, 1, 2]], low, refused(Cond::OddMidpoint))?;
    let square = [[0, 1, 2], [0, 2, 3]];
    let fault = refused(Cond::NotLongest { a: 0, b: 2 });
    assert_fault(&rt, &SQUARE, &square, low, fault)?;
    // Two edges are as long as each other, and the one with the higher names counts as longer.
    let tie = [(0, 0), (4, 8), (8, 0)];
    let fault = refused(Cond::NotLongest { a: 1, b: 2 });
    assert_fault(&rt, &tie, &[[0, 1, 2]], low, fault)?;
    assert_fault(&rt, &tie, &[[0, 1, 2]], Op::Bisect { a: 1, b: 2 }, None)
}

#[test]
fn contracts_on_the_boundary(rt: HostRuntime) -> Result<(), Fail> {
    let square = [[0, 1, 2], [0, 2, 3]];
    let corner = Op::Contract { u: 1, v: 0 };
    assert_fault(&rt, &SQUARE, &square, corner, refused(Cond::Corner))?;
    let inward = Op::Contract { u: 1, v: 3 };
    let fault = refused(Cond::OffBoundary);
    assert_fault(&rt, &TENT, &TENT_TRIS, inward, fault)?;
    let mesh = changed(&rt, &TENT, &TENT_TRIS, Op::Contract { u: 1, v: 0 })?;
    let sites = [site(0, 0, 0), site(2, 8, 0), site(3, 4, 4)];
    assert_sites(&rt, &mesh, &sites);
    assert_tris(&rt, &mesh, &[tri(0, 2, 3)]);
    Ok(())
}

#[test]
fn contracts_inside(rt: HostRuntime) -> Result<(), Fail> {
    let linked = [(0, 0), (4, 0), (16, 0), (4, 12), (8, 4)];
    let tris = [[0, 1, 3], [1, 2, 4], [1, 4, 3], [2, 3, 4]];
    let fault = refused(Cond::LinkNode { x: 3 });
    assert_fault(&rt, &linked, &tris, Op::Contract { u: 1, v: 2 }, fault)?;
    let mesh = changed(&rt, &linked, &tris, Op::Contract { u: 1, v: 0 })?;
    let tris = [tri(0, 2, 4), tri(0, 4, 3), tri(2, 3, 4)];
    assert_tris(&rt, &mesh, &tris);
    Ok(())
}

#[test]
fn turns_no_triangle_over(rt: HostRuntime) -> Result<(), Fail> {
    let dart = [(4, 3), (0, 0), (4, 1), (8, 0), (4, 8)];
    let tris = [[0, 1, 2], [0, 2, 3], [0, 3, 4], [0, 4, 1]];
    let fault = refused(Cond::Inverts { x: 2, y: 3 });
    assert_fault(&rt, &dart, &tris, Op::Contract { u: 0, v: 1 }, fault)?;
    let mesh = changed(&rt, &dart, &tris, Op::Contract { u: 0, v: 2 })?;
    assert_tris(&rt, &mesh, &[tri(1, 2, 4), tri(2, 3, 4)]);
    Ok(())
}

#[test]
fn refuses_pinched_nodes(rt: HostRuntime) -> Result<(), Fail> {
    let bow = [(0, 0), (4, 0), (4, 4), (-4, 0), (-4, -4)];
    let tris = [[0, 1, 2], [0, 3, 4]];
    let fault = refused(Cond::Pinched);
    assert_fault(&rt, &bow, &tris, Op::Contract { u: 0, v: 1 }, fault)
}

#[test]
fn judges_lengths_by_the_band(rt: HostRuntime) -> Result<(), Fail> {
    let square = [[0, 1, 2], [0, 2, 3]];
    let cut = Op::Bisect { a: 2, b: 0 };
    let fault = refused(Cond::TooShort { a: 0, b: 2 });
    assert_fault_by(&rt, &SQUARE, &square, (9, 1000), cut, fault)?;
    assert_fault_by(&rt, &SQUARE, &square, (8, 1000), cut, None)?;
    let shrink = Op::Contract { u: 1, v: 0 };
    let fault = refused(Cond::TooLong { a: 0, b: 2 });
    assert_fault_by(&rt, &TENT, &TENT_TRIS, (0, 63), shrink, fault)?;
    assert_fault_by(&rt, &TENT, &TENT_TRIS, (0, 64), shrink, None)
}
