//! Two hundred random meshes: how many triangles hold a point before and after a random legal journal, counted
//! in two ways. The meshes have holes, pinched nodes and triangles that lie over others.
ghost use Rattle.std.specs.Prelude.{◌+◌, ◌<◌, ◌≤◌, All};
ghost use Rattle.pf_geom.specs.Plane.{IsInRange};
ghost use Rattle.pf_model.specs.Applied.{IsFresh};

use super::cover::cover_at;
use super::*;
use pf_forms::euler;
use std::alloc::AllocError;
use std::process::Abort;

// What the coordinates of the points are divided by: a prime, so that hardly one of them is on an edge.
const DIVISOR: u16 = 9973;

// Numbers that look random, by a linear congruence.
#[derive(Drop)]
struct Dice {
    state: u64,
}

impl Dice {
    // A number below this one.
    fn roll(&mut self, sides: usize) -> usize
        requires { 1 ≤ sides }
        ensures { result < sides }
    {
        self.state = self
            .state
            .wrapping_mul(6_364_136_223_846_793_005)
            .wrapping_add(1_442_695_040_888_963_407);
        (self.state >> 33) as usize % sides
    }
}

// What the trials were made of: flips, bisections and contractions that passed, and points that none, one
// and more triangles hold.
#[derive(Drop)]
struct Tally {
    passed: [u32; 3],
    held: [u32; 3],
}

// The coordinate of a node in this row or column of a grid: 256 apart, moved a little.
fn moved_coordinate(line: u32, dice: &mut Dice) -> i16
    requires { line ≤ 5 }
{
    (256 * line + 16 * dice.roll(5) as u32) as i16
}

// The nodes of a grid, row by row.
fn moved_places(
    alloc: Global,
    columns: u32,
    rows: u32,
    dice: &mut Dice,
) -> Result<Vec<(i16, i16)>, AllocError>
    requires few_columns { columns ≤ 5 }
    requires few_rows { rows ≤ 5 }
{
    let mut places = Vec::new(alloc);
    for row in 0..rows {
        for column in 0..columns {
            places.push((moved_coordinate(column, dice), moved_coordinate(row, dice)))?;
        }
    }
    Ok(places)
}

// Two triangles to a cell of the grid, along either diagonal. One in eight is left out.
fn cut_cells(
    alloc: Global,
    columns: u32,
    rows: u32,
    dice: &mut Dice,
) -> Result<Vec<[u32; 3]>, AllocError> {
    let mut tris = Vec::new(alloc);
    for row in 1..rows {
        for column in 1..columns {
            let c = row.wrapping_mul(columns).wrapping_add(column);
            let d = c.wrapping_sub(1);
            let b = c.wrapping_sub(columns);
            let a = b.wrapping_sub(1);
            let halves = match dice.roll(2) {
                0 => [[a, b, c], [a, c, d]],
                _ => [[a, b, d], [b, c, d]],
            };
            for half in halves {
                if dice.roll(8) != 0 {
                    tris.push(half)?;
                }
            }
        }
    }
    Ok(tris)
}

// Adds a triangle on three of the nodes, which lies over others or beside them, where it fits.
fn add_flap<R: Abort + AllocGlobal>(
    rt: &R,
    points: &[Point],
    tris: &mut Vec<[u32; 3]>,
    dice: &mut Dice,
) -> Result<(), AllocError>
    requires { All IsInRange points.now }
{
    assert!(rt; 1 <= points.len() && points.len() <= 1000);
    let nodes = points.len();
    let flap = [
        dice.roll(nodes) as u32,
        dice.roll(nodes) as u32,
        dice.roll(nodes) as u32,
    ];
    tris.push(flap)?;
    assert!(rt; tris.len() <= 1000);
    if opened(rt.alloc(), points, tris.as_slice()).is_err() {
        tris.pop();
    }
    Ok(())
}

// An operation of one of three kinds at an edge of the mesh.
fn any_operation(mesh: &Mesh, kind: usize, dice: &mut Dice) -> Op {
    let tris = mesh.tris();
    let count = tris.len();
    if count == 0 {
        return Op::Flip { a: 0, b: 0 };
    }
    let t = tris[dice.roll(count)];
    let (a, b) = match dice.roll(6) {
        0 => (t.a, t.b),
        1 => (t.b, t.c),
        2 => (t.c, t.a),
        3 => (t.b, t.a),
        4 => (t.c, t.b),
        _ => (t.a, t.c),
    };
    match kind {
        0 => Op::Flip { a, b },
        1 => Op::Bisect { a, b },
        _ => Op::Contract { u: a, v: b },
    }
}

// Tries the operation with this ticket, by chunk 0. The next ticket is another one where it passes.
fn next_ticket(mesh: &mut Mesh, ticket: u32, op: Op) -> u32
    requires fresh { IsFresh mesh.old.mesh ticket }
    requires few { mesh.old.mesh.first_new ≤ 1000 }
    requires early { ticket ≤ 1000 }
    ensures fresh { IsFresh mesh.new.mesh result }
    ensures few { mesh.new.mesh.first_new ≤ 1000 }
    ensures counted { result ≤ ticket + 1 }
{
    let chunk = 0;
    match mesh.apply(&Entry { ticket, chunk, op }) {
        Ok(()) => ticket + 1,
        Err(_) => ticket,
    }
}

// Counts one more.
fn count_one(counts: &mut [u32], at: usize) {
    if at < counts.len() {
        counts[at] = counts[at].wrapping_add(1);
    }
}

// Applies sixty random operations, those of them that pass.
fn adapt(mesh: &mut Mesh, passed: &mut [u32], dice: &mut Dice)
    requires fresh { IsFresh mesh.old.mesh 0 }
    requires few { mesh.old.mesh.first_new ≤ 1000 }
{
    let mut ticket = 0;
    for turn in 0..60u32 {
        let kind = dice.roll(3);
        let op = any_operation(mesh, kind, dice);
        let next = next_ticket(mesh, ticket, op);
        if next != ticket {
            count_one(passed, kind);
        }
        ticket = next;
    }
}

// A point, multiplied by the divisor.
#[derive(Clone, Copy)]
struct Spot {
    x: i64,
    y: i64,
}

// Where a node stands.
fn spot_of(m: &Mesh, n: u32) -> Spot {
    let at = m.site(n).unwrap_or(Point { x: 0, y: 0 });
    Spot {
        x: i64::from(at.x).wrapping_mul(i64::from(DIVISOR)),
        y: i64::from(at.y).wrapping_mul(i64::from(DIVISOR)),
    }
}

// Whether the number is one of the two or between them.
fn is_between(u: i64, v: i64, z: i64) -> bool {
    (u <= z && z <= v) || (v <= z && z <= u)
}

// The signed crossing of the path with the ray from p to the right, and `None` where p is on the path.
fn crossing(from: Spot, to: Spot, p: Spot) -> Option<i64> {
    let across = to
        .x
        .wrapping_sub(from.x)
        .wrapping_mul(p.y.wrapping_sub(from.y));
    let up = to
        .y
        .wrapping_sub(from.y)
        .wrapping_mul(p.x.wrapping_sub(from.x));
    if across == up && is_between(from.x, to.x, p.x) && is_between(from.y, to.y, p.y) {
        return None;
    }
    if from.y <= p.y && p.y < to.y && up < across {
        return Some(1);
    }
    if to.y <= p.y && p.y < from.y && across < up {
        return Some(-1);
    }
    Some(0)
}

// The crossings of the three edges of a triangle.
fn crossings_at(m: &Mesh, t: Tri, p: Spot) -> Option<i64> {
    let (a, b, c) = (spot_of(m, t.a), spot_of(m, t.b), spot_of(m, t.c));
    let first = crossing(a, b, p)?;
    let second = crossing(b, c, p)?;
    let third = crossing(c, a, p)?;
    Some(first.wrapping_add(second).wrapping_add(third))
}

// The crossings of all edges of all triangles, and `None` where the point is on one of them.
fn crossings(m: &Mesh, p: Spot) -> Option<i64> {
    let mut sum = 0i64;
    for t in m.tris() {
        sum = sum.wrapping_add(crossings_at(m, *t, p)?);
    }
    Some(sum)
}

// Compares the counts at a hundred points, on the meshes before and after a journal.
fn compare<R: Abort + AllocGlobal>(
    rt: &R,
    first: &Mesh,
    last: &Mesh,
    held: &mut [u32],
    dice: &mut Dice,
) {
    for _ in 0..100u32 {
        let x = dice.roll(14_000_000) as i32 - 500_000;
        let y = dice.roll(14_000_000) as i32 - 500_000;
        let p = Spot {
            x: i64::from(x),
            y: i64::from(y),
        };
        let before = cover_at(rt, first, x, y, DIVISOR);
        let after = cover_at(rt, last, x, y, DIVISOR);
        if let (Some(then), Some(now)) = (crossings(first, p), crossings(last, p)) {
            assert_eq!(rt; i64::from(before), then);
            assert_eq!(rt; i64::from(after), now);
            assert_eq!(rt; before, after);
            count_one(held, before.min(2) as usize);
        }
    }
}

// Makes the mesh of this seed, runs a journal on it, and compares.
fn try_seed<R: Abort + AllocGlobal>(rt: &R, seed: u64, tally: &mut Tally) -> Result<(), Fail> {
    let mut dice = Dice { state: seed };
    let columns = 2 + dice.roll(4) as u32;
    let rows = 2 + dice.roll(4) as u32;
    let places = moved_places(rt.alloc(), columns, rows, &mut dice)?;
    let points = points_at(rt.alloc(), &places)?;
    let mut tris = cut_cells(rt.alloc(), columns, rows, &mut dice)?;
    add_flap(rt, &points, &mut tris, &mut dice)?;
    add_flap(rt, &points, &mut tris, &mut dice)?;
    compare_journal(rt, &points, &tris, tally, &mut dice)
}

// Runs a journal on the mesh of these, and compares.
fn compare_journal<R: Abort + AllocGlobal>(
    rt: &R,
    points: &[Point],
    tris: &[[u32; 3]],
    tally: &mut Tally,
    dice: &mut Dice,
) -> Result<(), Fail>
    requires { All IsInRange points.now }
{
    assert!(rt; points.len() <= 1000 && tris.len() <= 1000);
    let first = opened(rt.alloc(), points, tris)?;
    let mut last = opened(rt.alloc(), points, tris)?;
    adapt(&mut last, &mut tally.passed, dice);
    compare(rt, &first, &last, &mut tally.held, dice);
    assert_eq!(rt; euler(rt.alloc(), &first)?, euler(rt.alloc(), &last)?);
    Ok(())
}

#[test]
fn random_journals_keep_covers(rt: HostRuntime) -> Result<(), Fail> {
    let mut tally = Tally {
        passed: [0; 3],
        held: [0; 3],
    };
    for seed in 0..200u64 {
        try_seed(&rt, seed, &mut tally)?;
    }
    for passed in tally.passed {
        assert!(rt; 100 < passed);
    }
    for held in tally.held {
        assert!(rt; 100 < held);
    }
    Ok(())
}
