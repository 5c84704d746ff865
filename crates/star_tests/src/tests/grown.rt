//! Meshes of few names that are edited.
ghost use Rattle.std.specs.Prelude.{◌≡◌, ◌+◌, ◌<◌, ◌≤◌, ◌∷◌, [], IfOk, length, All};
ghost use Rattle.pf_model.specs.Applied.{IsFresh};
ghost use Rattle.pf_model.specs.Conforming.{HasDefault};
ghost use Rattle.pf_model.specs.Ends.{first_end, second_end};
ghost use Rattle.pf_model.specs.Tables.{AreListed};

use pf_geom::NoMemory;
use pf_mesh::{ApplyErr, Band, Cond, Entry, Mesh, Op};
use small_meshes::mesh_at;
use std::alloc::Global;
use std::marker::Model;
use std::process::Abort;
use std::test::Fail;

// The mesh with points at these places, to be edited.
pub fn grown_at<R: Abort + AllocGlobal>(
    rt: &R,
    places: &[(i16, i16)],
    tris: &[[u32; 3]],
) -> Result<Grown, Fail> {
    let mesh = mesh_at(rt.alloc(), places, tris)?;
    Ok(Grown::of(mesh))
}

// The band of every edge: every length is allowed.
fn everywhere() -> Band
    ensures { HasDefault (result ∷ []) }
{
    Band {
        xlo: -268_435_456,
        ylo: -268_435_456,
        xhi: 268_435_456,
        yhi: 268_435_456,
        min2: 0,
        max2: 1000,
    }
}

// The mesh of two triangles with these owners, in two chunks.
pub fn laid<R: Abort + AllocGlobal>(
    rt: &R,
    places: &[(i16, i16)],
    tris: &[[u32; 3]; 2],
    owners: [u16; 2],
) -> Result<Grown, Fail>
    requires owned { All (λ owner. owner < 2) owners }
{
    let mesh = mesh_at(rt.alloc(), places, tris)?;
    let owners = Vec::from_array(rt.alloc(), owners)?;
    let bands = Vec::from_array(rt.alloc(), [everywhere()])?;
    let mesh = mesh.with_tables(tris, owners, 2, bands)?;
    Ok(Grown::of(mesh))
}

// The operation with this ticket.
fn apply(mesh: &mut Mesh, ticket: u32, chunk: u16, op: Op) -> Result<(), ApplyErr>
    requires fresh { IsFresh mesh.old.mesh ticket }
    requires few { mesh.old.mesh.first_new ≤ 1000 }
    requires early { ticket ≤ 1000 }
    ensures fresh { IsFresh mesh.new.mesh (ticket + 1) }
    ensures few { mesh.new.mesh.first_new ≤ 1000 }
{
    match mesh.apply(&Entry { ticket, chunk, op }) {
        Ok(()) => Ok(()),
        Err(fault) => Err(fault),
    }
}

// The same mesh once more.
fn copied(alloc: Global, mesh: &Mesh) -> Result<Mesh, NoMemory>
    ensures { IfOk result (λ m. m.mesh ≡ mesh.now.mesh) }
{
    let Ok(sites) = Vec::from_slice(alloc, mesh.sites()) else {
        return Err(NoMemory);
    };
    let Ok(tris) = Vec::from_slice(alloc, mesh.tris()) else {
        return Err(NoMemory);
    };
    let Ok(bands) = Vec::from_slice(alloc, mesh.bands()) else {
        return Err(NoMemory);
    };
    let copy = Mesh::of_parts(alloc, mesh.first_new(), sites, tris, bands, mesh.chunks())?;
    Ok(copy)
}

// The two ends of an operation, as written.
fn ends(op: Op) -> (u32, u32)
    ensures first { result.0 ≡ first_end op }
    ensures second { result.1 ≡ second_end op }
{
    match op {
        Op::Flip { a, b } => (a, b),
        Op::Bisect { a, b } => (a, b),
        Op::Contract { u, v } => (u, v),
    }
}

// A mesh, and the ticket of its next operation.
#[derive(Drop)]
pub struct Grown {
    mesh: Mesh,
    ticket: u32,
}

impl Model for Grown {
    ghost use Rattle.std.specs.Prelude.{◌≤◌};
    ghost use Rattle.pf_model.specs.Mesh.{Undivided};
    ghost use Rattle.pf_model.specs.Applied.{IsFresh};

    ghost Value = { Undivided };

    ghost view = { λ g. g.mesh.mesh };

    ghost invariant = { λ g. IsFresh g.mesh.mesh g.ticket × (g.mesh.mesh.first_new ≤ 1000) × (g.ticket ≤ 1000) };
}

impl Grown {
    pub fn of(mesh: Mesh) -> Grown
        requires fresh { IsFresh mesh.mesh 0 }
        requires few { mesh.mesh.first_new ≤ 1000 }
    {
        Grown { mesh, ticket: 0 }
    }

    pub fn mesh(&self) -> &Mesh {
        &self.mesh
    }

    // The name of the next new node.
    pub fn next_name(&self) -> u32 {
        self.mesh.first_new().saturating_add(self.ticket)
    }

    // The first condition that an operation fails whose ends are live.
    pub fn first_fail(&self, chunk: u16, op: Op) -> Option<Cond> {
        let (first, second) = ends(op);
        if self.mesh.site(first).is_none() || self.mesh.site(second).is_none() {
            return Some(Cond::NoEdge);
        }
        self.mesh.first_fail(chunk, op)
    }

    // The next operation, where there is a ticket left.
    pub fn apply(&mut self, chunk: u16, op: Op) -> Result<(), ApplyErr> {
        if self.ticket >= 1000 {
            return Err(ApplyErr::Memory);
        }
        let answer = apply(&mut self.mesh, self.ticket, chunk, op);
        self.ticket += 1;
        answer
    }

    pub fn copied(&self, alloc: Global) -> Result<Grown, NoMemory> {
        let mesh = copied(alloc, &self.mesh)?;
        Ok(Grown {
            mesh,
            ticket: self.ticket,
        })
    }
}
