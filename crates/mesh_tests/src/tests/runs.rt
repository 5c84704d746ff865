//! Runs of entries, beside the same entries applied one by one.
ghost use Rattle.std.specs.Prelude.{◌≡◌, ◌+◌, ◌≤◌, length};
ghost use Rattle.pf_model.specs.Applied.{IsFresh};
ghost use Rattle.pf_model.specs.Replay.{HasTickets};

use super::*;

// Applies the entries one after another, up to the first that isn't applied.
fn one_by_one(mesh: &mut Mesh, entries: &[Entry]) -> Result<(), ApplyErr>
    requires fresh { IsFresh mesh.old.mesh 0 }
    requires tickets { HasTickets entries.now }
    requires named { mesh.old.mesh.first_new + length entries.now ≤ 1048576 }
{
    for entry in entries {
        match mesh.apply(entry) {
            Ok(()) => {}
            Err(fault) => return Err(fault),
        }
    }
    Ok(())
}

// Three operations that pass on the kite, and another.
fn and_then(op: Op) -> [Entry; 4]
    ensures { HasTickets result }
{
    [
        entry(0, Op::Bisect { a: 0, b: 1 }),
        entry(1, Op::Contract { u: 4, v: 0 }),
        entry(2, Op::Flip { a: 1, b: 0 }),
        entry(3, op),
    ]
}

fn entry(ticket: u32, op: Op) -> Entry
    ensures { result.ticket ≡ ticket }
{
    Entry {
        ticket,
        chunk: 0,
        op,
    }
}

// The entries run on the one mesh as they are applied one by one to the other.
fn run_both<R: Abort + AllocGlobal>(rt: &R, mesh: &mut Mesh, other: &mut Mesh, op: Op)
    requires fresh { IsFresh mesh.old.mesh 0 }
    requires few { mesh.old.mesh.first_new ≤ 1000 }
    requires other_fresh { IsFresh other.old.mesh 0 }
    requires other_few { other.old.mesh.first_new ≤ 1000 }
{
    let entries = and_then(op);
    let fault = one_by_one(other, &entries).err();
    match mesh.apply_all(&entries) {
        Ok(()) => assert_eq!(rt; (op, fault), (op, None)),
        Err(stop) => assert_eq!(rt; (op, stop.ticket, Some(stop.fault)), (op, 3, fault)),
    }
}

// The two meshes have the same lists after the three operations and this one.
fn assert_alike<R: Abort + AllocGlobal>(rt: &R, mesh: &Mesh, other: &Mesh, op: Op) {
    assert_eq!(rt; (op, mesh.tris()), (op, other.tris()));
    assert_eq!(rt; (op, mesh.sites()), (op, other.sites()));
}

fn assert_run<R: Abort + AllocGlobal>(rt: &R, op: Op) -> Result<(), Fail> {
    let mut mesh = kite(rt)?;
    let mut other = kite(rt)?;
    run_both(rt, &mut mesh, &mut other, op);
    assert_alike(rt, &mesh, &other, op);
    Ok(())
}

#[test]
fn runs_what_is_applied_one_by_one(rt: HostRuntime) -> Result<(), Fail> {
    for op in [
        Op::Bisect { a: 0, b: 2 },
        Op::Bisect { a: 2, b: 3 },
        Op::Contract { u: 3, v: 1 },
        Op::Flip { a: 2, b: 3 },
        Op::Flip { a: 4, b: 0 },
    ] {
        assert_run(&rt, op)?;
    }
    Ok(())
}

// The kite after a flip.
fn assert_turned<R: Abort + AllocGlobal>(rt: &R, mesh: &Mesh) {
    assert_tris(rt, mesh, &[tri(0, 3, 2), tri(1, 2, 3)]);
    let sites = [site(0, 0, 0), site(1, 8, 0), site(2, 4, 2), site(3, 4, -2)];
    assert_sites(rt, mesh, &sites);
}

#[test]
fn stops_a_run_at_a_refusal(rt: HostRuntime) -> Result<(), Fail> {
    let mut mesh = kite(&rt)?;
    let ran = mesh.apply_all(&and_then(Op::Flip { a: 2, b: 3 }));
    let fault = ApplyErr::Refused {
        cond: Cond::NotShorter,
    };
    assert_eq!(rt; ran.err(), Some(RunErr { ticket: 3, fault }));
    assert_turned(&rt, &mesh);
    Ok(())
}

#[test]
fn runs_no_entries(rt: HostRuntime) -> Result<(), Fail> {
    let mut mesh = kite(&rt)?;
    assert!(rt; mesh.apply_all(&[]).is_ok());
    assert_tris(&rt, &mesh, &[tri(0, 1, 2), tri(0, 3, 1)]);
    Ok(())
}
