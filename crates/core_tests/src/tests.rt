//! The kite in two chunks: an actor flips its edge, and puts the copies that it owes.
ghost use Rattle.std.specs.Prelude.{◌≡◌, ◌≤◌, ◌∷◌, [], IfOk, OnOk};
ghost use Rattle.pf_model.specs.Applied.{IsFresh};
ghost use Rattle.pf_model.specs.Conforming.{HasDefault};
ghost use Rattle.pf_core.specs.Shown.{IsShownState};

use pf_core::{Event, State, Verdict, Word, step};
use pf_geom::{NoMemory, Point};
use pf_mesh::{Band, Entry, Mesh, Op, Tri, build};
use std::alloc::Global;
use std::process::Abort;
use std::test::Fail;

// Two triangles on the edge from 0 to 1.
const KITE: [Point; 4] = [
    Point { x: 0, y: 0 },
    Point { x: 8, y: 0 },
    Point { x: 4, y: 2 },
    Point { x: 4, y: -2 },
];

const TRIS: [[u32; 3]; 2] = [[0, 1, 2], [1, 0, 3]];

// The band of every edge: every length is allowed.
fn everywhere() -> Band
    ensures { HasDefault (result ∷ []) }
{
    Band {
        xlo: -268_435_456,
        ylo: -268_435_456,
        xhi: 268_435_456,
        yhi: 268_435_456,
        min2: 0,
        max2: 1000,
    }
}

// The kite, whose first triangle is the first chunk's and whose second the second's.
fn kite(alloc: Global) -> Result<Mesh, Fail>
    ensures fresh { IfOk result (λ m. IsFresh m.mesh 0) }
    ensures few { IfOk result (λ m. m.mesh.first_new ≤ 1000) }
{
    let mesh = build(alloc, &KITE, &TRIS)?;
    let owners = Vec::from_array(alloc, [0, 1])?;
    let bands = Vec::from_array(alloc, [everywhere()])?;
    let mesh = mesh.with_tables(&TRIS, owners, 2, bands)?;
    Ok(mesh)
}

// The state of one actor over the kite, before the first event.
fn begun(alloc: Global) -> Result<State, Fail>
    ensures { IfOk result (λ s. IsShownState s) }
{
    let mesh = kite(alloc)?;
    let state = State::new(alloc, &mesh, 1, 1)?;
    Ok(state)
}

// The event takes place.
fn take<R: Abort + AllocGlobal>(rt: &R, state: &mut State, event: Event) -> Result<(), NoMemory>
    requires { IsShownState state.old }
    ensures { OnOk result (IsShownState state.new) }
{
    let verdict = step(rt.alloc(), state, event)?;
    assert!(rt; verdict != Verdict::Ignored, "{event:?}");
    Ok(())
}

// These events take place one after another.
fn take_all<R: Abort + AllocGlobal>(
    rt: &R,
    state: &mut State,
    events: &[Event],
) -> Result<(), NoMemory>
    requires { IsShownState state.old }
    ensures { OnOk result (IsShownState state.new) }
{
    for event in events {
        take(rt, state, *event)?;
    }
    Ok(())
}

// The actor takes every node of the kite, and flips its edge.
fn hold_and_flip<R: Abort + AllocGlobal>(rt: &R, state: &mut State) -> Result<(), NoMemory>
    requires { IsShownState state.old }
    ensures { OnOk result (IsShownState state.new) }
{
    take_all(rt, state, &[0, 1, 2, 3].map(|n| Event::Lock { a: 0, n }))?;
    let (chunk, op) = (0, Op::Flip { a: 0, b: 1 });
    take(rt, state, Event::Commit { a: 0, chunk, op })
}

// The actor puts the copies that it owes, of one node after another.
fn put<R: Abort + AllocGlobal>(rt: &R, state: &mut State) -> Result<(), NoMemory>
    requires { IsShownState state.old }
    ensures { OnOk result (IsShownState state.new) }
{
    for n in 0..4 {
        take_all(
            rt,
            state,
            &[0, 1].map(|chunk| Event::Push { a: 0, chunk, n }),
        )?;
    }
    Ok(())
}

// The actor gives every node back.
fn give_back<R: Abort + AllocGlobal>(rt: &R, state: &mut State) -> Result<(), NoMemory>
    requires { IsShownState state.old }
    ensures { OnOk result (IsShownState state.new) }
{
    take_all(rt, state, &[0, 1, 2, 3].map(|n| Event::Release { a: 0, n }))
}

// The triangles of a chunk's copy of a node: the right, the left and the owner of each.
fn spokes_in(
    alloc: Global,
    state: &State,
    chunk: u16,
    n: u32,
) -> Result<Vec<(u32, u32, u16)>, Fail> {
    let mut found = Vec::new(alloc);
    if let Some(star) = state.copy(chunk, n) {
        for s in star.spokes() {
            found.push((s.right, s.left, s.owner))?;
        }
    }
    Ok(found)
}

// Each of these rows (chunk, node, spokes) names a copy with these triangles.
fn assert_copies<R: Abort + AllocGlobal>(
    rt: &R,
    state: &State,
    rows: &[(u16, u32, &[(u32, u32, u16)])],
) -> Result<(), Fail> {
    for (chunk, n, spokes) in rows {
        let found = spokes_in(rt.alloc(), state, *chunk, *n)?;
        assert_eq!(rt; (*chunk, *n, found.as_slice()), (*chunk, *n, *spokes));
    }
    Ok(())
}

// The triangles with free corners are these.
fn assert_free_part<R: Abort + AllocGlobal>(
    rt: &R,
    state: &State,
    tris: &[Tri],
) -> Result<(), NoMemory>
    requires { IsShownState state.now }
{
    assert_eq!(rt; state.free_part(rt.alloc())?.as_slice(), tris);
    Ok(())
}

// The copies before the flip is put: those of the two triangles on the edge from 0 to 1.
fn assert_old_copies<R: Abort + AllocGlobal>(rt: &R, state: &State) -> Result<(), Fail> {
    assert_copies(rt, state, &[(1, 0, &[(1, 2, 0), (3, 1, 1)])])
}

// The copies after it.
fn assert_new_copies<R: Abort + AllocGlobal>(rt: &R, state: &State) -> Result<(), Fail> {
    assert!(rt; state.copy(1, 0).is_none());
    assert!(rt; state.copy(0, 1).is_none());
    assert_copies(
        rt,
        state,
        &[
            (0, 0, &[(3, 2, 0)]),
            (1, 1, &[(2, 3, 1)]),
            (0, 2, &[(0, 3, 0), (3, 1, 1)]),
            (1, 2, &[(0, 3, 0), (3, 1, 1)]),
        ],
    )
}

#[test]
fn a_chunk_that_ceases_to_share_has_no_copy(rt: HostRuntime) -> Result<(), Fail> {
    let mut state = begun(rt.alloc())?;
    assert_old_copies(&rt, &state)?;
    assert_copies(&rt, &state, &[(1, 2, &[])])?;
    hold_and_flip(&rt, &mut state)?;
    assert_eq!(rt; state.word(0), Word::Held { by: 0 });
    // The old copies stand until the new ones are put.
    assert_old_copies(&rt, &state)?;
    put(&rt, &mut state)?;
    assert_new_copies(&rt, &state)
}

// The flip is the only entry, its nodes are free again, and no fifth node was made.
fn assert_flipped<R: Abort + AllocGlobal>(rt: &R, state: &State) -> Result<(), Fail>
    requires { IsShownState state.now }
{
    assert_eq!(rt; state.word(0), Word::Free);
    assert_eq!(rt; state.word(4), Word::Never);
    assert_eq!(rt; state.tickets(), 1);
    let entry = Entry {
        ticket: 0,
        chunk: 0,
        op: Op::Flip { a: 0, b: 1 },
    };
    assert_eq!(rt; state.history(rt.alloc())?.as_slice(), [entry].as_slice());
    Ok(())
}

fn tri(a: u32, b: u32, c: u32, owner: u16) -> Tri {
    Tri { a, b, c, owner }
}

#[test]
fn what_is_given_back_is_free(rt: HostRuntime) -> Result<(), Fail> {
    let mut state = begun(rt.alloc())?;
    hold_and_flip(&rt, &mut state)?;
    assert_free_part(&rt, &state, &[])?;
    put(&rt, &mut state)?;
    give_back(&rt, &mut state)?;
    assert_free_part(&rt, &state, &[tri(0, 3, 2, 0), tri(1, 2, 3, 1)])?;
    assert_flipped(&rt, &state)
}
