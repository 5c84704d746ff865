//! Works on a board in threads, with operations at random edges of a grid: `bench/board.sh` takes its time.
//!
//! Its words are the cells in a row, the threads (1, 2 or 4), the tries of each thread, how many operations there may
//! be, and `counts` where their number is to be said too. Once the threads have ended, their seats are joined, the board is
//! closed, and its copies are compared with the stars of the grid after its journal is replayed on it.
#![tactic(auto)]

ghost use Rattle.std.specs.Prelude.{◌≡◌, ◌≢◌, ℕ, ◌+◌, ◌<◌, ◌≤◌, [], All, IfOk, IfSome, true, None, length};
ghost use Rattle.pf_geom.specs.Plane.{IsInRange};
ghost use Rattle.pf_model.specs.Applied.{IsFresh};
ghost use Rattle.pf_model.specs.Limits.{most_names, most_triangles};
ghost use Rattle.pf_model.specs.Replay.{HasTickets};
ghost use Rattle.pf_holder.specs.Facts.{LendsAll};
ghost use Rattle.pf_locks.specs.Seats.{flag_at};
ghost use Rattle.board_speed.specs.Rest.{IsAtRest};

use pf_attempt::attempt;
use pf_core_model::Answer;
use pf_geom::{NoMemory, Point};
use pf_hand::Hand;
use pf_holder::{Hold, Holder};
use pf_locks::{Board, BoardSeat, Closed};
use pf_mesh::{Entry, Mesh, Op, build};
use pf_rings::Star;
use pf_star::ChunkCopy;
use std::alloc::{AllocError, Global};
use std::thread::{Threads, join};
use std::{env, io};

/// The most names, and the most points and triangles, that a mesh may have.
const MOST_NAMES: u32 = 1_048_576;

const MOST_TRIANGLES: usize = 2_097_152;

// A point of the grid, whose rows are shifted.
fn point_of(x: u16, y: u16) -> Point
    ensures { IsInRange result }
{
    Point {
        x: 1024 * i32::from(x) + 320 * i32::from(y),
        y: 1024 * i32::from(y),
    }
}

// The points of a grid of so many cells in a row and in a column, row by row.
fn points_of(alloc: Global, cells: u16) -> Result<Vec<Point>, AllocError>
    ensures { IfOk result (λ points. All IsInRange points.items) }
{
    let mut points = Vec::new(alloc);
    for y in 0..=cells {
        for x in 0..=cells {
            points.push(point_of(x, y))?;
        }
    }
    Ok(points)
}

// The triangles of that grid, two to a cell.
fn tris_of(alloc: Global, cells: u16) -> Result<Vec<[u32; 3]>, AllocError> {
    let mut tris = Vec::new(alloc);
    let row = u32::from(cells) + 1;
    for y in 0..cells {
        for x in 0..cells {
            let a = u32::from(y) * row + u32::from(x);
            let across = a.wrapping_add(row + 1);
            tris.push([a, a.wrapping_add(1), across])?;
            tris.push([a, across, a.wrapping_add(row)])?;
        }
    }
    Ok(tris)
}

// The mesh of these points and triangles.
fn mesh_of(alloc: Global, points: &[Point], tris: &[[u32; 3]]) -> Option<Mesh>
    requires few_points { length points.now ≤ most_names }
    requires few_tris { length tris.now ≤ most_triangles }
    requires in_range { All IsInRange points.now }
    ensures { IfSome result (λ m. IsFresh m.mesh 0) }
{
    match build(alloc, points, tris) {
        Ok(mesh) => Some(mesh),
        Err(_) => None,
    }
}

// The grid as a mesh, where it is in the limits of a mesh.
fn grid_of(alloc: Global, cells: u16) -> Option<Mesh>
    ensures { IfSome result (λ m. IsFresh m.mesh 0) }
{
    let Ok(points) = points_of(alloc, cells) else {
        return None;
    };
    let Ok(tris) = tris_of(alloc, cells) else {
        return None;
    };
    if points.len() > MOST_NAMES as usize || tris.len() > MOST_TRIANGLES {
        return None;
    }
    mesh_of(alloc, &points, &tris)
}

// The next of a row of numbers that look random.
fn next(luck: u64) -> u64 {
    luck.wrapping_mul(6_364_136_223_846_793_005)
        .wrapping_add(1_442_695_040_888_963_407)
}

// A number below this one by the luck, and 0 below 1.
fn drawn(luck: u64, below: u64) -> u64
    ensures { result ≤ below }
{
    if below == 0 {
        return 0;
    }
    (luck >> 33) % below
}

// The other end of an edge at a node that is free: that of a triangle by the luck.
fn end_near<H: Holder>(h: &mut H, n: u32, luck: u64) -> Option<u32>
    requires nothing { (H.pairs h.old ≡ []) × (H.unborn h.old ≡ None) × (H.owed h.old ≡ []) }
    requires lends { LendsAll (H.lent h.old) (H.pairs h.old) }
    ensures same { H.same h.old h.new }
    ensures nothing { (H.pairs h.new ≡ []) × (H.unborn h.new ≡ None) × (H.owed h.new ≡ []) }
    ensures lends { LendsAll (H.lent h.new) (H.pairs h.new) }
{
    let _ = h.hold(n);
    let end = end_at(h, n, luck);
    h.give_back();
    end
}

// The right of a triangle at a node that is lent, by the luck.
fn end_at<H: Holder>(h: &H, n: u32, luck: u64) -> Option<u32> {
    let spokes = h.ring(n)?.star().spokes();
    let k = drawn(luck, spokes.len() as u64) as usize;
    let spoke = spokes.get(k)?;
    Some(spoke.right)
}

// An operation at an edge, by the luck: a flip, a bisection or, from a node that was made, a contraction.
fn op_at(first_new: u32, a: u32, b: u32, luck: u64) -> Op {
    match drawn(luck, 3) {
        0 => Op::Flip { a, b },
        1 => Op::Bisect { a, b },
        _ if a >= first_new => Op::Contract { u: a, v: b },
        _ => Op::Bisect { a, b },
    }
}

// Tries an operation by the chunk 0, where there is one.
fn tried<H: Holder>(alloc: Global, h: &mut H, op: Op)
    requires nothing { (H.pairs h.old ≡ []) × (H.unborn h.old ≡ None) × (H.owed h.old ≡ []) }
    requires lends { LendsAll (H.lent h.old) (H.pairs h.old) }
    ensures same { H.same h.old h.new }
    ensures nothing { (H.pairs h.new ≡ []) × (H.unborn h.new ≡ None) × (H.owed h.new ≡ []) }
    ensures lends { LendsAll (H.lent h.new) (H.pairs h.new) }
{
    if h.chunks() == 0 {
        return;
    }
    attempt(alloc, h, 0, op);
}

// Tries an operation at a random edge.
fn try_once<H: Holder>(alloc: Global, h: &mut H, luck: u64)
    requires nothing { (H.pairs h.old ≡ []) × (H.unborn h.old ≡ None) × (H.owed h.old ≡ []) }
    requires lends { LendsAll (H.lent h.old) (H.pairs h.old) }
    ensures same { H.same h.old h.new }
    ensures nothing { (H.pairs h.new ≡ []) × (H.unborn h.new ≡ None) × (H.owed h.new ≡ []) }
    ensures lends { LendsAll (H.lent h.new) (H.pairs h.new) }
{
    let names = h.first_new().saturating_add(h.seen());
    let a = drawn(luck, names as u64) as u32;
    let luck = next(luck);
    if let Some(b) = end_near(h, a, luck) {
        let op = op_at(h.first_new(), a, b, next(luck));
        tried(alloc, h, op);
    }
}

// Makes so many tries.
fn try_all<H: Holder>(alloc: Global, h: &mut H, seed: u64, tries: u32)
    requires nothing { (H.pairs h.old ≡ []) × (H.unborn h.old ≡ None) × (H.owed h.old ≡ []) }
    requires lends { LendsAll (H.lent h.old) (H.pairs h.old) }
    ensures same { H.same h.old h.new }
    ensures nothing { (H.pairs h.new ≡ []) × (H.unborn h.new ≡ None) × (H.owed h.new ≡ []) }
    ensures lends { LendsAll (H.lent h.new) (H.pairs h.new) }
{
    let mut luck = next(seed);
    'tries: for _ in 0..tries {
        try_once(alloc, h, luck);
        luck = next(next(next(luck)));
    }
}

// Makes so many tries by a seat.
fn work(alloc: Global, board: &Board, s: BoardSeat, tries: u32) -> BoardSeat
    requires rest { IsAtRest board.now s }
    ensures rest { IsAtRest board.now result }
{
    let seed = s.number() as u64;
    let mut hand = Hand::new(board, s);
    try_all(alloc, &mut hand, seed, tries);
    hand.fold()
}

// Two seats at work, each in a thread.
fn work_two<R: Threads + Sync>(
    rt: &R,
    alloc: Global,
    board: &Board,
    a: BoardSeat,
    b: BoardSeat,
    tries: u32,
) -> (BoardSeat, BoardSeat)
    requires first { IsAtRest board.now a }
    requires second { IsAtRest board.now b }
    ensures first { IsAtRest board.now result.0 }
    ensures second { IsAtRest board.now result.1 }
{
    join(
        rt,
        move || -> BoardSeat
            requires { IsAtRest board.now a }
            ensures { IsAtRest board.entry.now result }
        { work(alloc, board, a, tries) },
        move || -> BoardSeat
            requires { IsAtRest board.now b }
            ensures { IsAtRest board.entry.now result }
        { work(alloc, board, b, tries) },
    )
}

// Splits off a seat with this share, where there is a spare number and the share is there.
fn split(alloc: Global, board: &Board, s: &mut BoardSeat, share: u32) -> Option<BoardSeat>
    requires rest { IsAtRest board.now s.old }
    ensures rest { IsAtRest board.now s.new }
    ensures other { IfSome result (λ r. IsAtRest board.now r) }
{
    if share > s.allowance() || !has_spare(&s.numbers, s.number) {
        return None;
    }
    match board.split_seat(alloc, s, share) {
        Ok(other) => Some(other),
        Err(NoMemory) => None,
    }
}

// Whether one of the flags is set but for this one.
fn has_spare(flags: &[bool; 64], own: u32) -> bool
    ensures { result ≡ true → (k : ℕ) × (flag_at flags.now k ≡ true) × (k ≢ own) }
{
    for k in 0..64 {
        if flags[k as usize] && k != own {
            return true;
        }
    }
    false
}

// Joins a seat to another.
fn joined(board: &Board, s: BoardSeat, other: BoardSeat) -> BoardSeat
    requires first { IsAtRest board.now s }
    requires second { IsAtRest board.now other }
    ensures { IsAtRest board.now result }
{
    let mut s = s;
    board.join_seat(&mut s, other);
    s
}

// Two seats of one, at work in two threads and joined again.
fn halves<R: Threads + Sync>(
    rt: &R,
    alloc: Global,
    board: &Board,
    s: BoardSeat,
    tries: u32,
) -> Option<BoardSeat>
    requires { IsAtRest board.now s }
    ensures { IfSome result (λ r. IsAtRest board.now r) }
{
    let mut s = s;
    let share = s.allowance() / 2;
    let other = split(alloc, board, &mut s, share)?;
    let (s, other) = work_two(rt, alloc, board, s, other, tries);
    Some(joined(board, s, other))
}

// Two seats, each cut into two, at work in four threads.
fn quarters<R: Threads + Sync>(
    rt: &R,
    alloc: Global,
    board: &Board,
    s: BoardSeat,
    tries: u32,
) -> Option<BoardSeat>
    requires { IsAtRest board.now s }
    ensures { IfSome result (λ r. IsAtRest board.now r) }
{
    let mut a = s;
    let share = a.allowance() / 4;
    let b = split(alloc, board, &mut a, share)?;
    let c = split(alloc, board, &mut a, share)?;
    let d = split(alloc, board, &mut a, share)?;
    let ((a, b), (c, d)) = work_four(rt, alloc, board, a, b, c, d, tries);
    Some(joined(board, joined(board, a, b), joined(board, c, d)))
}

// Four seats at work, each in a thread.
fn work_four<R: Threads + Sync>(
    rt: &R,
    alloc: Global,
    board: &Board,
    a: BoardSeat,
    b: BoardSeat,
    c: BoardSeat,
    d: BoardSeat,
    tries: u32,
) -> ((BoardSeat, BoardSeat), (BoardSeat, BoardSeat))
    requires first { IsAtRest board.now a × IsAtRest board.now b }
    requires second { IsAtRest board.now c × IsAtRest board.now d }
    ensures first { IsAtRest board.now result.0.0 × IsAtRest board.now result.0.1 }
    ensures second { IsAtRest board.now result.1.0 × IsAtRest board.now result.1.1 }
{
    join(
        rt,
        move || -> (BoardSeat, BoardSeat)
            requires { IsAtRest board.now a × IsAtRest board.now b }
            ensures { IsAtRest board.entry.now result.0 × IsAtRest board.entry.now result.1 }
        { work_two(rt, alloc, board, a, b, tries) },
        move || -> (BoardSeat, BoardSeat)
            requires { IsAtRest board.now c × IsAtRest board.now d }
            ensures { IsAtRest board.entry.now result.0 × IsAtRest board.entry.now result.1 }
        { work_two(rt, alloc, board, c, d, tries) },
    )
}

// All tries of so many threads by one seat.
fn all_work<R: Threads + Sync>(
    rt: &R,
    alloc: Global,
    board: &Board,
    s: BoardSeat,
    threads: u32,
    tries: u32,
) -> Option<BoardSeat>
    requires { IsAtRest board.now s }
    ensures { IfSome result (λ r. IsAtRest board.now r) }
{
    match threads {
        1 => Some(work(alloc, board, s, tries)),
        2 => halves(rt, alloc, board, s, tries),
        4 => quarters(rt, alloc, board, s, tries),
        _ => None,
    }
}

// The board at its end, where the seat has all numbers.
fn closed(alloc: Global, board: Board, s: BoardSeat) -> Option<Closed>
    requires { IsAtRest board s }
{
    if !s.alone() {
        return None;
    }
    match board.close(alloc, s) {
        Ok(closed) => Some(closed),
        Err(_) => None,
    }
}

// A board of the mesh, at which so many threads make so many tries, and what it has at its end.
fn run_board<R: Threads + Sync>(
    rt: &R,
    alloc: Global,
    mesh: &Mesh,
    threads: u32,
    tries: u32,
    budget: u32,
) -> Option<Closed>
    requires { IsFresh mesh.now.mesh 0 }
{
    let last = mesh.first_new().checked_add(budget)?;
    if threads < 1 || threads > 64 || last > MOST_NAMES {
        return None;
    }
    let (board, seat) = opened(alloc, mesh, budget, threads)?;
    let seat = all_work(rt, alloc, &board, seat, threads, tries)?;
    closed(alloc, board, seat)
}

// A board of the mesh, and its seat.
fn opened(alloc: Global, mesh: &Mesh, budget: u32, workers: u32) -> Option<(Board, BoardSeat)>
    requires workers { (1 ≤ workers) × (workers ≤ 64) }
    requires fresh { IsFresh mesh.now.mesh 0 }
    requires small { mesh.now.mesh.first_new + budget ≤ 1048576 }
    ensures { IfSome result (λ r. IsAtRest r.0 r.1) }
{
    match Board::new(alloc, mesh, budget, workers) {
        Ok(made) => Some(made),
        Err(NoMemory) => None,
    }
}

// Whether the tickets count up from 0.
fn has_tickets(entries: &[Entry]) -> bool
    ensures { result ≡ true → HasTickets entries.now }
{
    let mut due: usize = 0;
    for e in entries {
        if e.ticket as usize != due {
            return false;
        }
        due += 1;
    }
    true
}

// Whether the stars are the same.
fn is_same(x: &Star, y: &Star) -> bool {
    x.node() == y.node() && x.at() == y.at() && x.spokes() == y.spokes()
}

// Whether the copies are these stars, at the chunk 0.
fn are_copies(copies: &[ChunkCopy], stars: &[Star]) -> bool {
    if copies.len() != stars.len() {
        return false;
    }
    for k in 0..copies.len() {
        if copies[k].chunk != 0 || !is_same(&copies[k].star, &stars[k]) {
            return false;
        }
    }
    true
}

// Whether the copies are the stars of the mesh after the journal.
fn is_replayed(alloc: Global, mesh: Mesh, closed: &Closed) -> bool
    requires { IsFresh mesh.mesh 0 }
{
    let entries = closed.history.as_slice();
    let last = mesh.first_new() as usize + entries.len();
    if !has_tickets(entries) || last > MOST_NAMES as usize {
        return false;
    }
    let mut mesh = mesh;
    if mesh.apply_all(entries).is_err() {
        return false;
    }
    match mesh.stars(alloc) {
        Ok(stars) => are_copies(&closed.copies.list, &stars),
        Err(NoMemory) => false,
    }
}

// Makes the tries, and says what came of them.
fn run<R: Threads + Sync + Print>(
    rt: &R,
    alloc: Global,
    cells: u16,
    threads: u32,
    tries: u32,
    budget: u32,
    counts: bool,
) -> io::Result<()> {
    let Some(mesh) = grid_of(alloc, cells) else {
        println!(rt; "no mesh")?;
        return Ok(());
    };
    let Some(closed) = run_board(rt, alloc, &mesh, threads, tries, budget) else {
        println!(rt; "no run")?;
        return Ok(());
    };
    if counts {
        let operations = closed.history.len();
        println!(rt; "operations {operations}")?;
    }
    let same = is_replayed(alloc, mesh, &closed);
    println!(rt; "replayed {same}")?;
    Ok(())
}

fn main(rt: HostRuntime) -> io::Result<()> {
    let words = env::args(&rt)?.skip(1).collect::<Vec<String>>(rt.alloc())?;
    if words.len() < 4 {
        println!(rt; "board_speed CELLS THREADS TRIES OPERATIONS [counts]")?;
        return Ok(());
    }
    let cells = words[0].as_str().parse::<u16>().unwrap_or(0);
    let threads = words[1].as_str().parse::<u32>().unwrap_or(0);
    let tries = words[2].as_str().parse::<u32>().unwrap_or(0);
    let budget = words[3].as_str().parse::<u32>().unwrap_or(0);
    let counts = words.len() > 4 && words[4].as_str() == "counts";
    run(&rt, rt.alloc(), cells, threads, tries, budget, counts)
}
