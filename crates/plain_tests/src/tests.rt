//! The square of two triangles: an edge is bisected, and others are refused.
ghost use Rattle.std.specs.Prelude.{◌≡◌, ◌<◌, ◌≤◌, ◌∷◌, [], ℕ, IfOk, length};
ghost use Rattle.pf_model.specs.Applied.{IsFresh};
ghost use Rattle.pf_model.specs.Conforming.{HasDefault};
ghost use Rattle.pf_plain.specs.Views.{opening_in, pairs_in};

use pf_attempt::attempt;
use pf_core_model::Answer;
use pf_geom::Point;
use pf_mesh::{Band, Entry, Mesh, Op, build};
use pf_model::Cond;
use pf_plain::Plain;
use std::alloc::Global;
use std::process::Abort;
use std::test::Fail;

const SQUARE: [Point; 4] = [
    Point { x: 0, y: 0 },
    Point { x: 4, y: 0 },
    Point { x: 4, y: 4 },
    Point { x: 0, y: 4 },
];

const TRIS: [[u32; 3]; 2] = [[0, 1, 2], [0, 2, 3]];

// The band of every edge: every length is allowed.
fn everywhere() -> Band
    ensures { HasDefault (result ∷ []) }
{
    Band {
        xlo: -268_435_456,
        ylo: -268_435_456,
        xhi: 268_435_456,
        yhi: 268_435_456,
        min2: 0,
        max2: 1000,
    }
}

// The square, of one chunk.
fn square(alloc: Global) -> Result<Mesh, Fail>
    ensures fresh { IfOk result (λ m. IsFresh m.mesh 0) }
    ensures few { IfOk result (λ m. m.mesh.first_new ≤ 1000) }
    ensures chunks { IfOk result (λ m. m.mesh.chunks ≡ 1) }
{
    let mesh = build(alloc, &SQUARE, &TRIS)?;
    let owners = Vec::from_array(alloc, [0, 0])?;
    let bands = Vec::from_array(alloc, [everywhere()])?;
    let mesh = mesh.with_tables(&TRIS, owners, 1, bands)?;
    Ok(mesh)
}

// The holder over the square, which may commit so many operations.
fn held(alloc: Global, budget: u32) -> Result<Plain, Fail>
    requires { budget ≤ 1000 }
    ensures nothing { IfOk result (λ h. pairs_in h ≡ []) }
    ensures chunks { IfOk result (λ h. (opening_in h).mesh.chunks ≡ 1) }
{
    let mesh = square(alloc)?;
    let plain = Plain::new(alloc, mesh, budget)?;
    Ok(plain)
}

// Tries an operation of the one chunk.
fn tried(alloc: Global, plain: &mut Plain, op: Op) -> Answer
    requires nothing { pairs_in plain.old ≡ [] }
    requires chunks { (opening_in plain.old).mesh.chunks ≡ 1 }
    ensures nothing { pairs_in plain.new ≡ [] }
    ensures chunks { (opening_in plain.new).mesh.chunks ≡ 1 }
{
    attempt(alloc, plain, 0, op)
}

#[test]
fn bisects_and_refuses(rt: HostRuntime) -> Result<(), Fail> {
    let alloc = rt.alloc();
    let mut plain = held(alloc, 4)?;
    assert_eq!(rt;
        tried(alloc, &mut plain, Op::Bisect { a: 2, b: 0 }),
        Answer::Done { ticket: 0 }
    );
    assert_eq!(rt;
        tried(alloc, &mut plain, Op::Flip { a: 0, b: 2 }),
        Answer::Refused {
            at: 1,
            cond: Cond::NoEdge
        }
    );
    assert_eq!(rt;
        tried(alloc, &mut plain, Op::Flip { a: 0, b: 7 }),
        Answer::Unborn { node: 7 }
    );
    let (mesh, journal) = plain.end()?;
    assert_eq!(rt; mesh.tris().len(), 4);
    let first = Entry {
        ticket: 0,
        chunk: 0,
        op: Op::Bisect { a: 0, b: 2 },
    };
    assert_eq!(rt; journal.as_slice(), [first].as_slice());
    Ok(())
}

#[test]
fn spends_nothing(rt: HostRuntime) -> Result<(), Fail> {
    let alloc = rt.alloc();
    let mut plain = held(alloc, 0)?;
    assert_eq!(rt;
        tried(alloc, &mut plain, Op::Bisect { a: 0, b: 2 }),
        Answer::Spent
    );
    Ok(())
}

#[test]
fn finds_the_contracted_gone(rt: HostRuntime) -> Result<(), Fail> {
    let alloc = rt.alloc();
    let mut plain = held(alloc, 4)?;
    assert_eq!(rt;
        tried(alloc, &mut plain, Op::Bisect { a: 0, b: 2 }),
        Answer::Done { ticket: 0 }
    );
    assert_eq!(rt;
        tried(alloc, &mut plain, Op::Contract { u: 4, v: 0 }),
        Answer::Done { ticket: 1 }
    );
    assert_eq!(rt;
        tried(alloc, &mut plain, Op::Flip { a: 0, b: 4 }),
        Answer::Gone { at: 2, node: 4 }
    );
    let (mesh, journal) = plain.end()?;
    assert_eq!(rt; mesh.tris().len(), 2);
    assert_eq!(rt; journal.len(), 2);
    Ok(())
}
