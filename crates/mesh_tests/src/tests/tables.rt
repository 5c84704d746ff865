//! Owners and a size table laid over meshes of two triangles.
ghost use Rattle.std.specs.Prelude.{◌≤◌, IfOk};
ghost use Rattle.pf_model.specs.Applied.{IsFresh};
ghost use Rattle.pf_model.specs.Conforming.{HasDefault};

use super::*;

const FINE: Band = Band {
    xlo: 0,
    ylo: 0,
    xhi: 4,
    yhi: 4,
    min2: 4,
    max2: 64,
};

const DEFAULT: Band = Band {
    xlo: -268_435_456,
    ylo: -268_435_456,
    xhi: 268_435_456,
    yhi: 268_435_456,
    min2: 0,
    max2: 100,
};

// A fine band, and the default.
fn two_bands(alloc: Global) -> Result<Vec<Band>, Fail>
    ensures { IfOk result (λ bands. HasDefault bands.items) }
{
    Ok(vec![in alloc; FINE, DEFAULT]?)
}

// The mesh of two triangles with these owners, in two chunks, and with two bands.
fn shared<R: Abort + AllocGlobal>(
    rt: &R,
    places: &[(i16, i16)],
    tris: &[[u32; 3]],
    owners: &[u16],
) -> Result<Mesh, Fail>
    ensures fresh { IfOk result (λ m. IsFresh m.mesh 0) }
    ensures few { IfOk result (λ m. m.mesh.first_new ≤ 1000) }
{
    let bands = two_bands(rt.alloc())?;
    let mesh = laid(rt, places, tris, owners, 2, bands)?;
    Ok(mesh)
}

fn owned(a: u32, b: u32, c: u32, owner: u16) -> Tri {
    Tri { a, b, c, owner }
}

// Two chunks, no new node, and the two bands.
fn assert_tables<R: Abort + AllocGlobal>(rt: &R, mesh: &Mesh) {
    assert_eq!(rt; (mesh.chunks(), mesh.first_new()), (2, 4));
    assert_eq!(rt; mesh.bands(), [FINE, DEFAULT].as_slice());
}

#[test]
fn lays_owners_over_the_kite(rt: HostRuntime) -> Result<(), Fail> {
    // The list's order is not that of the mesh, and its first triangle lies clockwise.
    let mesh = shared(&rt, &KITE, &[[1, 3, 0], [2, 0, 1]], &[1, 0])?;
    let tris = [owned(0, 1, 2, 0), owned(0, 3, 1, 1)];
    assert_tris(&rt, &mesh, &tris);
    let sites = [site(0, 0, 0), site(1, 8, 0), site(2, 4, 2), site(3, 4, -2)];
    assert_sites(&rt, &mesh, &sites);
    assert_tables(&rt, &mesh);
    Ok(())
}

#[test]
fn lays_owners_over_the_square(rt: HostRuntime) -> Result<(), Fail> {
    let mesh = shared(&rt, &SQUARE, &[[3, 0, 2], [2, 1, 0]], &[0, 1])?;
    let tris = [owned(0, 1, 2, 1), owned(0, 2, 3, 0)];
    assert_tris(&rt, &mesh, &tris);
    Ok(())
}

#[test]
fn flips_by_the_owners_that_were_laid(rt: HostRuntime) -> Result<(), Fail> {
    let mut mesh = shared(&rt, &KITE, &[[1, 3, 0], [2, 0, 1]], &[1, 0])?;
    let cond = Cond::Foreign;
    let fault = flip(&mut mesh, 0, 0, 3).err();
    assert_eq!(rt; fault, Some(ApplyErr::Refused { cond }));
    assert!(rt; flip(&mut mesh, 1, 0, 1).is_ok());
    let tris = [owned(0, 3, 2, 0), owned(1, 2, 3, 1)];
    assert_tris(&rt, &mesh, &tris);
    Ok(())
}
