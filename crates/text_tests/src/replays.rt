//! Replays on a square of two triangles.
ghost use Rattle.std.specs.Prelude.{ℕ, ◌<◌, ◌≤◌, IfOk};
ghost use Rattle.pf_model.specs.Conforming.{IsLive};
ghost use Rattle.pf_model.specs.Replay.{HasTickets};

use pf_journal::{ReplayErr, replay};
use pf_mesh::{Cond, Mesh, Tri};
use pf_model::{Entry, Op};
use small_meshes::mesh_at;
use std::process::Abort;
use std::test::Fail;

// The square, cut from 0 to 2.
fn square<R: Abort + AllocGlobal>(rt: &R) -> Result<Mesh, Fail>
    ensures fresh { IfOk result (λ m. (n : ℕ) → IsLive m.mesh n → n < m.mesh.first_new) }
    ensures few { IfOk result (λ m. m.mesh.first_new ≤ 1000) }
{
    let mesh = mesh_at(
        rt.alloc(),
        &[(0, 0), (4, 0), (4, 4), (0, 4)],
        &[[0, 1, 2], [0, 2, 3]],
    )?;
    Ok(mesh)
}

// A journal of two operations.
fn journal_of(first: Op, second: Op) -> [Entry; 2]
    ensures { HasTickets result }
{
    let (ticket, chunk) = (0, 0);
    [
        Entry {
            ticket,
            chunk,
            op: first,
        },
        Entry {
            ticket: 1,
            chunk,
            op: second,
        },
    ]
}

// Replays two operations.
fn replay_two(mesh: &mut Mesh, first: Op, second: Op) -> Option<ReplayErr>
    requires fresh { (n : ℕ) → IsLive mesh.old.mesh n → n < mesh.old.mesh.first_new }
    requires few { mesh.old.mesh.first_new ≤ 1000 }
{
    replay(mesh, &journal_of(first, second)).err()
}

// So many nodes are live, and the triangles are these.
fn assert_mesh<R: Abort>(rt: &R, mesh: &Mesh, nodes: usize, tris: &[Tri]) {
    assert_eq!(rt; mesh.tris(), tris);
    assert_eq!(rt; mesh.sites().len(), nodes);
}

fn tri(a: u32, b: u32, c: u32) -> Tri {
    Tri { a, b, c, owner: 0 }
}

#[test]
fn a_journal_is_replayed(rt: HostRuntime) -> Result<(), Fail> {
    let mut mesh = square(&rt)?;
    let bisection = Op::Bisect { a: 2, b: 0 };
    let fault = replay_two(&mut mesh, bisection, Op::Contract { u: 4, v: 1 });
    assert_eq!(rt; fault, None);
    assert_mesh(&rt, &mesh, 4, &[tri(0, 1, 3), tri(1, 2, 3)]);
    Ok(())
}

// After a bisection, this operation is refused by this fault, and the mesh is that after the bisection.
fn assert_stop<R: Abort + AllocGlobal>(rt: &R, op: Op, fault: ReplayErr) -> Result<(), Fail> {
    let mut mesh = square(rt)?;
    let found = replay_two(&mut mesh, Op::Bisect { a: 0, b: 2 }, op);
    assert_eq!(rt; found, Some(fault));
    let tris = [tri(0, 1, 4), tri(0, 4, 3), tri(1, 2, 4), tri(2, 3, 4)];
    assert_mesh(rt, &mesh, 5, &tris);
    Ok(())
}

#[test]
fn a_replay_stops_at_the_first_refusal(rt: HostRuntime) -> Result<(), Fail> {
    let (ticket, cond) = (1, Cond::NoEdge);
    assert_stop(&rt, Op::Flip { a: 0, b: 2 }, ReplayErr::At { ticket, cond })?;
    let gone = ReplayErr::Gone { ticket, node: 5 };
    assert_stop(&rt, Op::Flip { a: 0, b: 5 }, gone)
}
