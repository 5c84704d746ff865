//! Operations within room that was made before, beside the same by `apply`.
ghost use Rattle.std.specs.Prelude.{◌≡◌, ◌+◌, ◌≤◌};
ghost use Rattle.pf_model.specs.Applied.{IsFresh};
ghost use Rattle.pf_model.specs.Ends.{first_end, second_end};

use super::*;

// Makes room for three operations.
fn make_room<R: Abort + AllocGlobal>(rt: &R, mesh: &mut Mesh)
    requires fresh { IsFresh mesh.old.mesh 0 }
    requires few { mesh.old.mesh.first_new ≤ 1000 }
    ensures fresh { IsFresh mesh.new.mesh 0 }
    ensures few { mesh.new.mesh.first_new ≤ 1000 }
    ensures room { 3 ≤ mesh.new.spare }
{
    assert!(rt; mesh.reserve(3).is_ok());
}

// The two ends of an operation, as written.
fn ends(op: Op) -> (u32, u32)
    ensures first { result.0 ≡ first_end op }
    ensures second { result.1 ≡ second_end op }
{
    match op {
        Op::Flip { a, b } => (a, b),
        Op::Bisect { a, b } => (a, b),
        Op::Contract { u, v } => (u, v),
    }
}

// Whether the operation of this ticket passes for chunk 0. It is performed then, within the room that there is.
fn apply_spare(mesh: &mut Mesh, ticket: u32, op: Op) -> bool
    requires fresh { IsFresh mesh.old.mesh ticket }
    requires few { mesh.old.mesh.first_new ≤ 1000 }
    requires early { ticket ≤ 2 }
    requires room { 1 ≤ mesh.old.spare }
    ensures fresh { IsFresh mesh.new.mesh (ticket + 1) }
    ensures few { mesh.new.mesh.first_new ≤ 1000 }
    ensures room { mesh.old.spare ≤ mesh.new.spare + 1 }
{
    let (first, second) = ends(op);
    if mesh.site(first).is_none() {
        return false;
    }
    if mesh.site(second).is_none() {
        return false;
    }
    let chunk = 0;
    if mesh.first_fail(chunk, op).is_some() {
        return false;
    }
    mesh.apply_spare(&Entry { ticket, chunk, op });
    true
}

// The operation of this ticket passes on both meshes, within the room of the first, and then they have the same
// lists.
fn pass_alike<R: Abort + AllocGlobal>(
    rt: &R,
    mesh: &mut Mesh,
    other: &mut Mesh,
    ticket: u32,
    op: Op,
)
    requires fresh { IsFresh mesh.old.mesh ticket }
    requires few { mesh.old.mesh.first_new ≤ 1000 }
    requires early { ticket ≤ 2 }
    requires room { 1 ≤ mesh.old.spare }
    requires other_fresh { IsFresh other.old.mesh ticket }
    requires other_few { other.old.mesh.first_new ≤ 1000 }
    ensures fresh { IsFresh mesh.new.mesh (ticket + 1) }
    ensures few { mesh.new.mesh.first_new ≤ 1000 }
    ensures room { mesh.old.spare ≤ mesh.new.spare + 1 }
    ensures other_fresh { IsFresh other.new.mesh (ticket + 1) }
    ensures other_few { other.new.mesh.first_new ≤ 1000 }
{
    let passed = apply_spare(mesh, ticket, op);
    assert_eq!(rt; (ticket, passed), (ticket, true));
    pass(rt, other, ticket, op);
    assert_eq!(rt; (ticket, mesh.tris()), (ticket, other.tris()));
    assert_eq!(rt; (ticket, mesh.sites()), (ticket, other.sites()));
}

#[test]
fn does_within_room_what_apply_does(rt: HostRuntime) -> Result<(), Fail> {
    let mut mesh = kite(&rt)?;
    let mut other = kite(&rt)?;
    make_room(&rt, &mut mesh);
    pass_alike(&rt, &mut mesh, &mut other, 0, Op::Bisect { a: 0, b: 1 });
    pass_alike(&rt, &mut mesh, &mut other, 1, Op::Contract { u: 4, v: 0 });
    assert!(rt; apply_spare(&mut mesh, 2, Op::Flip { a: 1, b: 0 }));
    assert_tris(&rt, &mesh, &[tri(0, 3, 2), tri(1, 2, 3)]);
    assert_eq!(rt; mesh.sites().len(), 4);
    Ok(())
}
