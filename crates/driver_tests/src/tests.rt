//! The square of two triangles, whose diagonal alone is too long.
ghost use Rattle.std.specs.Prelude.{◌≡◌, ◌<◌, ◌≤◌, ◌∷◌, [], ℕ, IfOk, length};
ghost use Rattle.pf_model.specs.Applied.{IsFresh};
ghost use Rattle.pf_model.specs.Conforming.{HasDefault};
ghost use Rattle.pf_plain.specs.Views.{opening_in, pairs_in};

use crate::gate::CountingGate;
use pf_driver::{DriveEnd, Gate, OpenGate, drive};
use pf_geom::Point;
use pf_mesh::{Band, Entry, Mesh, Op, build};
use pf_plain::Plain;
use std::alloc::Global;
use std::process::Abort;
use std::test::Fail;

const SQUARE: [Point; 4] = [
    Point { x: 0, y: 0 },
    Point { x: 4, y: 0 },
    Point { x: 4, y: 4 },
    Point { x: 0, y: 4 },
];

const TRIS: [[u32; 3]; 2] = [[0, 1, 2], [0, 2, 3]];

// The band of every edge: the sides are as long as they may be, and the diagonal is longer.
fn everywhere() -> Band
    ensures { HasDefault (result ∷ []) }
{
    Band {
        xlo: -268_435_456,
        ylo: -268_435_456,
        xhi: 268_435_456,
        yhi: 268_435_456,
        min2: 0,
        max2: 16,
    }
}

// The square, of one chunk.
fn square(alloc: Global) -> Result<Mesh, Fail>
    ensures fresh { IfOk result (λ m. IsFresh m.mesh 0) }
    ensures names { IfOk result (λ m. m.mesh.first_new ≡ 4) }
    ensures chunks { IfOk result (λ m. m.mesh.chunks ≡ 1) }
{
    let mesh = build(alloc, &SQUARE, &TRIS)?;
    let owners = Vec::from_array(alloc, [0, 0])?;
    let bands = Vec::from_array(alloc, [everywhere()])?;
    let mesh = mesh.with_tables(&TRIS, owners, 1, bands)?;
    Ok(mesh)
}

// The holder over the square, which may commit so many operations.
fn held(alloc: Global, budget: u32) -> Result<Plain, Fail>
    requires { budget ≤ 1000 }
    ensures nothing { IfOk result (λ h. pairs_in h ≡ []) }
    ensures names { IfOk result (λ h. (opening_in h).mesh.first_new ≡ 4) }
    ensures chunks { IfOk result (λ h. (opening_in h).mesh.chunks ≡ 1) }
{
    let mesh = square(alloc)?;
    let plain = Plain::new(alloc, mesh, budget)?;
    Ok(plain)
}

// Drives the one chunk, from all nodes of the square, by way of a gate.
fn driven_by<G: Gate>(alloc: Global, plain: &mut Plain, turns: u32, gate: &G) -> DriveEnd
    requires nothing { pairs_in plain.old ≡ [] }
    requires names { (opening_in plain.old).mesh.first_new ≡ 4 }
    requires chunks { (opening_in plain.old).mesh.chunks ≡ 1 }
{
    drive(alloc, plain, 0, &[0], &[0, 1, 2, 3], turns, gate)
}

// The same by an open gate.
fn driven(alloc: Global, plain: &mut Plain, turns: u32) -> DriveEnd
    requires nothing { pairs_in plain.old ≡ [] }
    requires names { (opening_in plain.old).mesh.first_new ≡ 4 }
    requires chunks { (opening_in plain.old).mesh.chunks ≡ 1 }
{
    driven_by(alloc, plain, turns, &OpenGate)
}

// The one entry that there may be.
fn bisection() -> Entry {
    Entry {
        ticket: 0,
        chunk: 0,
        op: Op::Bisect { a: 0, b: 2 },
    }
}

#[test]
fn spends_the_one_operation(rt: HostRuntime) -> Result<(), Fail> {
    let alloc = rt.alloc();
    let mut plain = held(alloc, 1)?;
    assert_eq!(rt; driven(alloc, &mut plain, 100), DriveEnd::Spent);
    let (_, journal) = plain.end()?;
    assert_eq!(rt; journal.as_slice(), [bisection()].as_slice());
    Ok(())
}

#[test]
fn is_done_with_an_operation_left(rt: HostRuntime) -> Result<(), Fail> {
    let alloc = rt.alloc();
    let mut plain = held(alloc, 2)?;
    assert_eq!(rt; driven(alloc, &mut plain, 100), DriveEnd::Done);
    let (_, journal) = plain.end()?;
    assert_eq!(rt; journal.as_slice(), [bisection()].as_slice());
    Ok(())
}

#[test]
fn makes_no_turn(rt: HostRuntime) -> Result<(), Fail> {
    let alloc = rt.alloc();
    let mut plain = held(alloc, 2)?;
    assert_eq!(rt; driven(alloc, &mut plain, 0), DriveEnd::Done);
    let (_, journal) = plain.end()?;
    assert_eq!(rt; journal.len(), 0);
    Ok(())
}

#[test]
fn passes_the_gate_once_a_turn(rt: HostRuntime) -> Result<(), Fail> {
    let alloc = rt.alloc();
    let mut plain = held(alloc, 2)?;
    let gate = CountingGate::new();
    assert_eq!(rt; driven_by(alloc, &mut plain, 3, &gate), DriveEnd::Done);
    assert_eq!(rt; gate.turns(), Some(3));
    let mut plain = held(alloc, 2)?;
    let gate = CountingGate::new();
    assert_eq!(rt; driven_by(alloc, &mut plain, 100, &gate), DriveEnd::Done);
    let turns = gate.turns().unwrap_or(0);
    assert_eq!(rt; turns >= 4 && turns <= 100, true);
    Ok(())
}

#[test]
fn stops_at_the_gate_once_all_is_spent(rt: HostRuntime) -> Result<(), Fail> {
    let alloc = rt.alloc();
    let mut plain = held(alloc, 1)?;
    let gate = CountingGate::new();
    assert_eq!(rt; driven_by(alloc, &mut plain, 100, &gate), DriveEnd::Spent);
    assert_eq!(rt; gate.turns(), Some(1));
    let mut plain = held(alloc, 0)?;
    let gate = CountingGate::new();
    assert_eq!(rt; driven_by(alloc, &mut plain, 100, &gate), DriveEnd::Spent);
    assert_eq!(rt; gate.turns(), Some(0));
    Ok(())
}
