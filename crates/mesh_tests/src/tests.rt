//! Meshes of a few triangles, with values and faults that were worked out by hand.
ghost use Rattle.std.specs.Prelude.{◌+◌, ◌<◌, ◌≤◌, All, IfOk, length};
ghost use Rattle.pf_geom.specs.Plane.{IsInRange};
ghost use Rattle.pf_model.specs.Applied.{IsFresh};
ghost use Rattle.pf_model.specs.Conforming.{HasDefault};
ghost use Rattle.pf_model.specs.Tables.{AreListed};

mod building;
mod flips;
mod messages;
mod operations;
mod rest;
mod runs;
mod spare;
mod tables;

use pf_geom::Point;
use pf_mesh::{
    ApplyErr, Band, BuildErr, Cond, Entry, Mesh, Op, RestLine, RunErr, Site, Tri, build,
};
use small_meshes::{mesh_at, opened, points_at};
use std::alloc::{AllocError, Global};
use std::process::Abort;
use std::test::Fail;

// Two triangles on the edge from 0 to 1.
const KITE: [(i16, i16); 4] = [(0, 0), (8, 0), (4, 2), (4, -2)];

const SQUARE: [(i16, i16); 4] = [(0, 0), (4, 0), (4, 4), (0, 4)];

fn tri(a: u32, b: u32, c: u32) -> Tri {
    Tri { a, b, c, owner: 0 }
}

fn site(name: u32, x: i32, y: i32) -> Site {
    Site {
        name,
        at: Point { x, y },
    }
}

fn kite<R: Abort + AllocGlobal>(rt: &R) -> Result<Mesh, Fail>
    ensures fresh { IfOk result (λ m. IsFresh m.mesh 0) }
    ensures few { IfOk result (λ m. m.mesh.first_new ≤ 1000) }
{
    let mesh = mesh_at(rt.alloc(), &KITE, &[[0, 1, 2], [1, 0, 3]])?;
    Ok(mesh)
}

// These owners, which are all below the number of chunks.
fn owners_of<R: Abort + AllocGlobal>(
    rt: &R,
    owners: &[u16],
    chunks: u16,
) -> Result<Vec<u16>, AllocError>
    ensures { IfOk result (λ list. All (λ owner. owner < chunks) list.items) }
{
    let mut list = Vec::new(rt.alloc());
    for owner in owners {
        assert!(rt; *owner < chunks);
        list.push(*owner)?;
    }
    Ok(list)
}

// The mesh with these points and triangles, in so many chunks, with these owners and bands.
fn laid<R: Abort + AllocGlobal>(
    rt: &R,
    places: &[(i16, i16)],
    tris: &[[u32; 3]],
    owners: &[u16],
    chunks: u16,
    bands: Vec<Band>,
) -> Result<Mesh, Fail>
    requires default { HasDefault bands.items }
    ensures fresh { IfOk result (λ m. IsFresh m.mesh 0) }
    ensures few { IfOk result (λ m. m.mesh.first_new ≤ 1000) }
{
    let mesh = mesh_at(rt.alloc(), places, tris)?;
    let owners = owners_of(rt, owners, chunks)?;
    assert!(rt; owners.len() == tris.len());
    let mesh = mesh.with_tables(tris, owners, chunks, bands)?;
    Ok(mesh)
}

// The band of every edge, with these bounds.
fn one_band(alloc: Global, min2: i64, max2: i64) -> Result<Vec<Band>, Fail>
    ensures { IfOk result (λ bands. HasDefault bands.items) }
{
    let band = Band {
        xlo: -268_435_456,
        ylo: -268_435_456,
        xhi: 268_435_456,
        yhi: 268_435_456,
        min2,
        max2,
    };
    Ok(vec![in alloc; band]?)
}

// The mesh with these points and triangles in one chunk, where every edge has these bounds.
fn sized<R: Abort + AllocGlobal>(
    rt: &R,
    places: &[(i16, i16)],
    tris: &[[u32; 3]],
    min2: i64,
    max2: i64,
) -> Result<Mesh, Fail>
    ensures fresh { IfOk result (λ m. IsFresh m.mesh 0) }
    ensures few { IfOk result (λ m. m.mesh.first_new ≤ 1000) }
{
    let owners = vec![in rt.alloc(); 0; tris.len()]?;
    let bands = one_band(rt.alloc(), min2, max2)?;
    let mesh = laid(rt, places, tris, &owners, 1, bands)?;
    Ok(mesh)
}

// A flip as the first operation of a journal. It makes no node, so the next flip can have the same ticket.
fn flip(mesh: &mut Mesh, chunk: u16, a: u32, b: u32) -> Result<(), ApplyErr>
    requires fresh { IsFresh mesh.old.mesh 0 }
    requires few { mesh.old.mesh.first_new ≤ 1000 }
    ensures fresh { IsFresh mesh.new.mesh 0 }
    ensures few { mesh.new.mesh.first_new ≤ 1000 }
{
    match mesh.apply(&Entry {
        ticket: 0,
        chunk,
        op: Op::Flip { a, b },
    }) {
        Ok(()) => Ok(()),
        Err(fault) => Err(fault),
    }
}

// The operation with this ticket, by chunk 0.
fn apply(mesh: &mut Mesh, ticket: u32, op: Op) -> Result<(), ApplyErr>
    requires fresh { IsFresh mesh.old.mesh ticket }
    requires few { mesh.old.mesh.first_new ≤ 1000 }
    requires early { ticket ≤ 1000 }
    ensures fresh { IsFresh mesh.new.mesh (ticket + 1) }
    ensures few { mesh.new.mesh.first_new ≤ 1000 }
{
    let chunk = 0;
    match mesh.apply(&Entry { ticket, chunk, op }) {
        Ok(()) => Ok(()),
        Err(fault) => Err(fault),
    }
}

// The operation with this ticket has this fault, and none where it passes.
fn try_op<R: Abort + AllocGlobal>(
    rt: &R,
    mesh: &mut Mesh,
    ticket: u32,
    op: Op,
    fault: Option<ApplyErr>,
)
    requires fresh { IsFresh mesh.old.mesh ticket }
    requires few { mesh.old.mesh.first_new ≤ 1000 }
    requires early { ticket ≤ 1000 }
    ensures fresh { IsFresh mesh.new.mesh (ticket + 1) }
    ensures few { mesh.new.mesh.first_new ≤ 1000 }
{
    let found = apply(mesh, ticket, op).err();
    assert_eq!(rt; (ticket, op, found), (ticket, op, fault));
}

// The operation with this ticket passes.
fn pass<R: Abort + AllocGlobal>(rt: &R, mesh: &mut Mesh, ticket: u32, op: Op)
    requires fresh { IsFresh mesh.old.mesh ticket }
    requires few { mesh.old.mesh.first_new ≤ 1000 }
    requires early { ticket ≤ 1000 }
    ensures fresh { IsFresh mesh.new.mesh (ticket + 1) }
    ensures few { mesh.new.mesh.first_new ≤ 1000 }
{
    try_op(rt, mesh, ticket, op, None);
}

// The mesh has these triangles.
fn assert_tris<R: Abort + AllocGlobal>(rt: &R, mesh: &Mesh, tris: &[Tri]) {
    assert_eq!(rt; mesh.tris(), tris);
}

// The mesh has these sites.
fn assert_sites<R: Abort + AllocGlobal>(rt: &R, mesh: &Mesh, sites: &[Site]) {
    assert_eq!(rt; mesh.sites(), sites);
}
