//! A square whose diagonal is too long, and two triangles that want more operations than there may be.
ghost use Rattle.std.specs.Prelude.{◌≡◌, ◌≤◌, ◌∷◌, [], IfOk};
ghost use Rattle.pf_model.specs.Applied.{IsFresh};
ghost use Rattle.pf_model.specs.Conforming.{HasDefault};

use pf_adapt::{Adapted, adapt, is_quiet};
use pf_driver::OpenGate;
use pf_geom::Point;
use pf_mesh::{Band, Entry, Mesh, Op, build};
use std::alloc::Global;
use std::process::Abort;
use std::test::Fail;
use std::thread::Threads;

const SQUARE: [Point; 4] = [
    Point { x: 0, y: 0 },
    Point { x: 4, y: 0 },
    Point { x: 4, y: 4 },
    Point { x: 0, y: 4 },
];

const SQUARE_TRIS: [[u32; 3]; 2] = [[0, 1, 2], [0, 2, 3]];

const KITE: [Point; 4] = [
    Point { x: -32, y: 0 },
    Point { x: 32, y: 0 },
    Point { x: 0, y: 16 },
    Point { x: 0, y: -52 },
];

const KITE_TRIS: [[u32; 3]; 2] = [[0, 1, 2], [0, 3, 1]];

// The default band, with these squared lengths.
fn everywhere(min2: i64, max2: i64) -> Band
    ensures { HasDefault (result ∷ []) }
{
    Band {
        xlo: -268_435_456,
        ylo: -268_435_456,
        xhi: 268_435_456,
        yhi: 268_435_456,
        min2,
        max2,
    }
}

// No edge may be longer than 4.
fn fine_bands(alloc: Global) -> Result<Vec<Band>, Fail>
    ensures { IfOk result (λ v. HasDefault v.items) }
{
    let bands = Vec::from_array(alloc, [everywhere(0, 16)])?;
    Ok(bands)
}

// The square, whose diagonal is too long.
fn square(alloc: Global) -> Result<Mesh, Fail>
    ensures fresh { IfOk result (λ m. IsFresh m.mesh 0) }
    ensures few { IfOk result (λ m. m.mesh.first_new ≤ 1000) }
{
    let mesh = build(alloc, &SQUARE, &SQUARE_TRIS)?;
    let owners = Vec::from_array(alloc, [0, 0])?;
    let bands = fine_bands(alloc)?;
    let mesh = mesh.with_tables(&SQUARE_TRIS, owners, 1, bands)?;
    Ok(mesh)
}

// Edges may be long.
fn coarse_bands(alloc: Global) -> Result<Vec<Band>, Fail>
    ensures { IfOk result (λ v. HasDefault v.items) }
{
    let bands = Vec::from_array(alloc, [everywhere(0, 1000)])?;
    Ok(bands)
}

// The square, whose edges are fine.
fn coarse_square(alloc: Global) -> Result<Mesh, Fail>
    ensures fresh { IfOk result (λ m. IsFresh m.mesh 0) }
    ensures few { IfOk result (λ m. m.mesh.first_new ≤ 1000) }
{
    let mesh = build(alloc, &SQUARE, &SQUARE_TRIS)?;
    let owners = Vec::from_array(alloc, [0, 0])?;
    let bands = coarse_bands(alloc)?;
    let mesh = mesh.with_tables(&SQUARE_TRIS, owners, 1, bands)?;
    Ok(mesh)
}

// The bands of the kite: finer about the origin.
fn kite_bands(alloc: Global) -> Result<Vec<Band>, Fail>
    ensures { IfOk result (λ v. HasDefault v.items) }
{
    let middle = Band {
        xlo: -2,
        ylo: -2,
        xhi: 2,
        yhi: 2,
        min2: 300,
        max2: 4000,
    };
    let bands = Vec::from_array(alloc, [middle, everywhere(300, 8000)])?;
    Ok(bands)
}

// Two triangles at a common edge.
fn kite(alloc: Global) -> Result<Mesh, Fail>
    ensures fresh { IfOk result (λ m. IsFresh m.mesh 0) }
    ensures few { IfOk result (λ m. m.mesh.first_new ≤ 1000) }
{
    let mesh = build(alloc, &KITE, &KITE_TRIS)?;
    let owners = Vec::from_array(alloc, [0, 0])?;
    let bands = kite_bands(alloc)?;
    let mesh = mesh.with_tables(&KITE_TRIS, owners, 1, bands)?;
    Ok(mesh)
}

// Adapts the mesh by so many workers.
fn adapted<R: Threads + Sync>(
    rt: &R,
    alloc: Global,
    mesh: Mesh,
    budget: u32,
    workers: u32,
) -> Result<Adapted, Fail>
    requires fresh { IsFresh mesh.mesh 0 }
    requires few { mesh.mesh.first_new ≤ 1000 }
    requires few_operations { budget ≤ 1000 }
    requires workers { (1 ≤ workers) × (workers ≤ 64) }
{
    let adapted = adapt(rt, alloc, mesh, budget, workers, 1000, &OpenGate)?;
    Ok(adapted)
}

#[test]
fn bisects_the_long_diagonal(rt: HostRuntime) -> Result<(), Fail> {
    let alloc = rt.alloc();
    let mesh = square(alloc)?;
    let a = adapted(&rt, alloc, mesh, 1, 1)?;
    let first = Entry {
        ticket: 0,
        chunk: 0,
        op: Op::Bisect { a: 0, b: 2 },
    };
    assert_eq!(rt; a.journal.as_slice(), [first].as_slice());
    assert!(rt; is_quiet(&a.rest));
    assert_eq!(rt; a.mesh.tris().len(), 4);
    Ok(())
}

#[test]
fn leaves_a_line_without_a_budget(rt: HostRuntime) -> Result<(), Fail> {
    let alloc = rt.alloc();
    let mesh = square(alloc)?;
    let a = adapted(&rt, alloc, mesh, 0, 2)?;
    assert_eq!(rt; a.journal.len(), 0);
    assert!(rt; !is_quiet(&a.rest));
    Ok(())
}

#[test]
fn leaves_what_is_fine(rt: HostRuntime) -> Result<(), Fail> {
    let alloc = rt.alloc();
    let mesh = coarse_square(alloc)?;
    let a = adapted(&rt, alloc, mesh, 1, 3)?;
    assert_eq!(rt; a.journal.len(), 0);
    assert!(rt; is_quiet(&a.rest));
    Ok(())
}

#[test]
fn spends_the_budget(rt: HostRuntime) -> Result<(), Fail> {
    let alloc = rt.alloc();
    let mesh = kite(alloc)?;
    let a = adapted(&rt, alloc, mesh, 4, 2)?;
    assert_eq!(rt; a.journal.len(), 4);
    assert!(rt; !is_quiet(&a.rest));
    Ok(())
}
