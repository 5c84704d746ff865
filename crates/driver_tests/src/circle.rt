//! Two triangles whose rest lists go in a circle: the long edge is bisected, the middle contracted onto a corner, and the
//! edge that this makes flipped, which is the first mesh again. No other line ever passes.
ghost use Rattle.std.specs.Prelude.{◌≡◌, ◌<◌, ◌≤◌, ◌∷◌, [], ℕ, IfOk, Contains};
ghost use Rattle.pf_model.specs.Applied.{IsFresh};
ghost use Rattle.pf_model.specs.Conforming.{HasDefault, IsLive};
ghost use Rattle.pf_holder.specs.Facts.{mesh_alone};
ghost use Rattle.pf_plain.specs.Views.{opening_in, entries_in, pairs_in};

use pf_driver::{DriveEnd, OpenGate, drive};
use pf_finish::{FinishEnd, finish};
use pf_geom::Point;
use pf_mesh::{Band, Mesh, build};
use pf_plain::Plain;
use std::alloc::Global;
use std::process::Abort;
use std::test::Fail;

const NODES: [Point; 4] = [
    Point { x: -32, y: 0 },
    Point { x: 32, y: 0 },
    Point { x: 0, y: 16 },
    Point { x: 0, y: -52 },
];

const TRIS: [[u32; 3]; 2] = [[0, 1, 2], [0, 3, 1]];

// Round the middle of the long edge, where it is too long.
fn round_the_middle() -> Band {
    Band {
        xlo: -2,
        ylo: -2,
        xhi: 2,
        yhi: 2,
        min2: 300,
        max2: 4_000,
    }
}

// Everywhere else.
fn elsewhere() -> Band
    ensures { HasDefault (result ∷ []) }
{
    Band {
        xlo: -268_435_456,
        ylo: -268_435_456,
        xhi: 268_435_456,
        yhi: 268_435_456,
        min2: 300,
        max2: 8_000,
    }
}

// The mesh, of one chunk.
fn mesh(alloc: Global) -> Result<Mesh, Fail>
    ensures fresh { IfOk result (λ m. IsFresh m.mesh 0) }
    ensures names { IfOk result (λ m. m.mesh.first_new ≡ 4) }
    ensures chunks { IfOk result (λ m. m.mesh.chunks ≡ 1) }
{
    let mesh = build(alloc, &NODES, &TRIS)?;
    let owners = Vec::from_array(alloc, [0, 0])?;
    let bands = Vec::from_array(alloc, [round_the_middle(), elsewhere()])?;
    let mesh = mesh.with_tables(&TRIS, owners, 1, bands)?;
    Ok(mesh)
}

// The holder over it, which may commit so many operations.
fn held(alloc: Global, budget: u32) -> Result<Plain, Fail>
    requires { budget ≤ 1000 }
    ensures nothing { IfOk result (λ h. pairs_in h ≡ []) }
    ensures names { IfOk result (λ h. (opening_in h).mesh.first_new ≡ 4) }
    ensures chunks { IfOk result (λ h. (opening_in h).mesh.chunks ≡ 1) }
    ensures live { IfOk result (λ h. (n : ℕ) → IsLive (mesh_alone (opening_in h) (entries_in h)) n → n < 4) }
{
    let mesh = mesh(alloc)?;
    let plain = Plain::new(alloc, mesh, budget)?;
    Ok(plain)
}

// Drives the one chunk, from all nodes.
fn driven(alloc: Global, plain: &mut Plain) -> DriveEnd
    requires nothing { pairs_in plain.old ≡ [] }
    requires names { (opening_in plain.old).mesh.first_new ≡ 4 }
    requires chunks { (opening_in plain.old).mesh.chunks ≡ 1 }
{
    drive(alloc, plain, 0, &[0], &[0, 1, 2, 3], 10_000, &OpenGate)
}

// The names below 4.
fn names_below_four() -> [u32; 4]
    ensures { (n : ℕ) → n < 4 → Contains result n }
{
    [0, 1, 2, 3]
}

// The last pass alone.
fn finished(alloc: Global, plain: &mut Plain) -> FinishEnd
    requires nothing { pairs_in plain.old ≡ [] }
    requires live { (n : ℕ) → IsLive (mesh_alone (opening_in plain.old) (entries_in plain.old)) n → n < 4 }
{
    let names = names_below_four();
    finish(alloc, plain, &names)
}

#[test]
fn leaves_the_circle(rt: HostRuntime) -> Result<(), Fail> {
    let alloc = rt.alloc();
    let mut plain = held(alloc, 1000)?;
    assert_eq!(rt; driven(alloc, &mut plain), DriveEnd::Done);
    let (mesh, journal) = plain.end()?;
    assert_eq!(rt; mesh.tris().len(), 5);
    assert_eq!(rt; journal.len(), 11);
    Ok(())
}

#[test]
fn stays_in_the_circle_without_a_drive(rt: HostRuntime) -> Result<(), Fail> {
    let alloc = rt.alloc();
    let mut plain = held(alloc, 100)?;
    assert_eq!(rt; finished(alloc, &mut plain), FinishEnd::Spent);
    Ok(())
}
