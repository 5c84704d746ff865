//! Many small meshes with moved nodes, holes, several chunks and bands, and every operation at every edge.
ghost use Rattle.std.specs.Prelude.{◌≡◌, ◌∷◌, [], ◌<◌, All, IfOk, length};
ghost use Rattle.pf_model.specs.Conforming.{HasDefault};

use super::dice::Dice;
use super::grown::Grown;
use super::judges::{assert_by_ends, judged};
use super::patches::{all_held, assert_patched, held_of};
use pf_mesh::{Band, Op, Tri};
use pf_star::StarSet;
use small_meshes::mesh_at;
use std::alloc::{AllocError, Global};
use std::process::Abort;
use std::test::Fail;

// The most nodes in a row of a mesh, and the most rows.
const SIDE: u32 = 5;

// How far neighbours are apart, before they are moved.
const STEP: u32 = 32;

// The chunks of a mesh.
const CHUNKS: u16 = 3;

// The meshes of a seed.
const MESHES: u32 = 100;

// The operations that are tried on a mesh before it is looked at.
const TRIES: u32 = 40;

// A mesh, and the stars of all its nodes.
#[derive(Drop)]
struct Held {
    grown: Grown,
    stars: StarSet,
}

// The nodes of a grid, each moved a little, and by an even number.
fn moved_places(alloc: Global, dice: &mut Dice) -> Result<Vec<(i16, i16)>, AllocError> {
    let mut places = Vec::new(alloc);
    for k in 0..SIDE * SIDE {
        let x = STEP * (k % SIDE) + 2 * dice.below(8);
        let y = STEP * (k / SIDE) + 2 * dice.below(8);
        places.push((x as i16, y as i16))?;
    }
    Ok(places)
}

// Adds a triangle, most often.
fn push_most(list: &mut Vec<[u32; 3]>, dice: &mut Dice, tri: [u32; 3]) -> Result<(), AllocError> {
    if dice.below(12) > 0 {
        list.push(tri)?;
    }
    Ok(())
}

// Adds the two triangles of a cell, cut along either diagonal, most often.
fn push_cell(
    list: &mut Vec<[u32; 3]>,
    dice: &mut Dice,
    row: u32,
    column: u32,
) -> Result<(), AllocError>
    requires row { row < 5 }
    requires column { column < 5 }
{
    let low = SIDE * row + column;
    let high = low + SIDE;
    if dice.below(2) == 0 {
        push_most(list, dice, [low, low + 1, high + 1])?;
        push_most(list, dice, [low, high + 1, high])?;
    } else {
        push_most(list, dice, [low, low + 1, high])?;
        push_most(list, dice, [low + 1, high + 1, high])?;
    }
    Ok(())
}

// The triangles of some rows and columns of cells.
fn cut_cells(alloc: Global, dice: &mut Dice) -> Result<Vec<[u32; 3]>, AllocError> {
    let mut list = Vec::new(alloc);
    let rows = dice.below(SIDE - 1) + 1;
    let columns = dice.below(SIDE - 1) + 1;
    for row in 0..rows {
        for column in 0..columns {
            push_cell(&mut list, dice, row, column)?;
        }
    }
    Ok(list)
}

// One of the chunks.
fn chunk_of(dice: &mut Dice) -> u16
    ensures { result < 3 }
{
    match dice.below(3) {
        0 => 0,
        1 => 1,
        _ => 2,
    }
}

// An owner for each of so many triangles.
fn owners_of(alloc: Global, dice: &mut Dice, count: usize) -> Result<Vec<u16>, AllocError>
    ensures len { IfOk result (λ owners. length owners.items ≡ count) }
    ensures owned { IfOk result (λ owners. All (λ owner. owner < 3) owners.items) }
{
    let mut owners = Vec::new(alloc);
    for _ in 0..count {
        owners.push(chunk_of(dice))?;
    }
    Ok(owners)
}

// The band of every edge, with these bounds.
fn everywhere(min2: i64, max2: i64) -> Band
    ensures { HasDefault (result ∷ []) }
{
    Band {
        xlo: -268_435_456,
        ylo: -268_435_456,
        xhi: 268_435_456,
        yhi: 268_435_456,
        min2,
        max2,
    }
}

// The band of a square part, with these bounds.
fn in_part(min2: i64, max2: i64) -> Band {
    Band {
        xlo: 0,
        ylo: 0,
        xhi: 64,
        yhi: 64,
        min2,
        max2,
    }
}

// Bands by which some edges are short and some are long.
fn bands_of(alloc: Global, dice: &mut Dice) -> Result<Vec<Band>, Fail>
    ensures { IfOk result (λ bands. HasDefault bands.items) }
{
    let fine = in_part(
        i64::from(dice.below(300)),
        i64::from(dice.below(3000)) + 300,
    );
    let rest = everywhere(
        i64::from(dice.below(1000)),
        i64::from(dice.below(20000)) + 1000,
    );
    Ok(vec![in alloc; fine, rest]?)
}

// An operation of the given kind on the edge from `a` to `b`.
fn op_at(kind: u32, a: u32, b: u32) -> Op {
    match kind {
        0 => Op::Flip { a, b },
        1 => Op::Bisect { a, b },
        _ => Op::Contract { u: a, v: b },
    }
}

// One of the edges of a triangle.
fn edge_of(t: Tri, k: u32) -> (u32, u32) {
    match k {
        0 => (t.a, t.b),
        1 => (t.b, t.c),
        _ => (t.c, t.a),
    }
}

// One of the triangles, where there are any.
fn some_tri(tris: &[Tri], dice: &mut Dice) -> Option<Tri> {
    let count = tris.len();
    if count == 0 {
        return None;
    }
    tris.get(dice.below(4096) as usize % count).copied()
}

// Tries an operation at some edge.
fn try_some(grown: &mut Grown, dice: &mut Dice) {
    let Some(t) = some_tri(grown.mesh().tris(), dice) else {
        return;
    };
    let (a, b) = edge_of(t, dice.below(3));
    let op = op_at(dice.below(3), a, b);
    let chunk = chunk_of(dice);
    if grown.first_fail(chunk, op).is_none() {
        let _ = grown.apply(chunk, op).is_ok();
    }
}

// A mesh on which some operations were applied.
fn random_mesh<R: Abort + AllocGlobal>(rt: &R, dice: &mut Dice) -> Result<Grown, Fail> {
    let places = moved_places(rt.alloc(), dice)?;
    let tris = cut_cells(rt.alloc(), dice)?;
    let mesh = mesh_at(rt.alloc(), &places, &tris)?;
    let owners = owners_of(rt.alloc(), dice, tris.len())?;
    let bands = bands_of(rt.alloc(), dice)?;
    let mut grown = Grown::of(mesh.with_tables(&tris, owners, CHUNKS, bands)?);
    for _ in 0..TRIES {
        try_some(&mut grown, dice);
    }
    Ok(grown)
}

// An operation by a chunk: whether it passes. It is judged from all stars, and from those of its ends, as the
// mesh judges it. Where it passes, its patch is what the mesh says.
fn check_one<R: Abort + AllocGlobal>(
    rt: &R,
    held: &Held,
    ends: &StarSet,
    chunk: u16,
    op: Op,
) -> Result<u32, Fail> {
    let cond = held.grown.first_fail(chunk, op);
    let bands = held.grown.mesh().bands();
    assert_eq!(rt; judged(&held.stars, bands, chunk, op), cond);
    assert_by_ends(rt, ends, bands, chunk, op, cond)?;
    if cond.is_some() {
        return Ok(0);
    }
    assert_patched(rt, &held.grown, chunk, op)?;
    Ok(1)
}

// Every operation at an edge, each way and by each chunk: how many pass.
fn check_edge<R: Abort + AllocGlobal>(rt: &R, held: &Held, a: u32, b: u32) -> Result<u32, Fail> {
    let ends = held_of(rt.alloc(), held.grown.mesh(), &[a, b])?;
    let mut passed: u32 = 0;
    for chunk in 0..CHUNKS {
        for kind in 0..3 {
            let found = check_one(rt, held, &ends, chunk, op_at(kind, a, b))?;
            passed = passed.saturating_add(found);
        }
    }
    Ok(passed)
}

// Every operation at every edge, from both of its ends: how many pass.
fn check_mesh<R: Abort + AllocGlobal>(rt: &R, held: &Held) -> Result<u32, Fail> {
    let mut passed: u32 = 0;
    for t in held.grown.mesh().tris() {
        for k in 0..3 {
            let (a, b) = edge_of(*t, k);
            passed = passed.saturating_add(check_edge(rt, held, a, b)?);
            passed = passed.saturating_add(check_edge(rt, held, b, a)?);
        }
    }
    Ok(passed)
}

// The meshes of a seed. Many operations pass on them.
fn check_meshes<R: Abort + AllocGlobal>(rt: &R, seed: u32) -> Result<(), Fail> {
    let mut dice = Dice::new(seed);
    let mut passed: u32 = 0;
    for _ in 0..MESHES {
        let grown = random_mesh(rt, &mut dice)?;
        let stars = all_held(rt.alloc(), grown.mesh())?;
        let held = Held { grown, stars };
        passed = passed.saturating_add(check_mesh(rt, &held)?);
    }
    assert!(rt; passed > 1000, "only {passed} pass");
    Ok(())
}

#[test]
fn patches_the_meshes_of_a_seed(rt: HostRuntime) -> Result<(), Fail> {
    check_meshes(&rt, 1)
}

#[test]
fn patches_the_meshes_of_another_seed(rt: HostRuntime) -> Result<(), Fail> {
    check_meshes(&rt, 20_261_201)
}

#[test]
fn patches_the_meshes_of_a_third_seed(rt: HostRuntime) -> Result<(), Fail> {
    check_meshes(&rt, 4_000_000_007)
}
