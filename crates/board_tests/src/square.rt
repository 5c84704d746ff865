//! The square of two triangles: what seats make of it by calls of the board, one by one.
ghost use Rattle.std.specs.Prelude.{◌≡◌, ◌≤◌, true, IfOk, IfSome};
ghost use Rattle.pf_model.specs.Applied.{IsFresh};
ghost use Rattle.pf_locks.specs.Seats.{IsSeat};
ghost use Rattle.board_tests.specs.Holding.{IsLending};

use crate::seats::{
    ask, closed, count, give_all, hold, hold_all, join, make_and_give, open, split,
};
use pf_geom::{NoMemory, Point};
use pf_holder::Hold;
use pf_locks::{Board, BoardSeat};
use pf_mesh::{Mesh, build};
use pf_model::{Cond, Entry, Op};
use pf_rings::Star;
use pf_star::ChunkCopy;
use std::alloc::Global;
use std::process::Abort;
use std::test::Fail;

// Two triangles on the edge from 0 to 2.
const CORNERS: [Point; 4] = [
    Point { x: 0, y: 0 },
    Point { x: 4, y: 0 },
    Point { x: 4, y: 4 },
    Point { x: 0, y: 4 },
];

const TRIS: [[u32; 3]; 2] = [[0, 1, 2], [0, 2, 3]];

// The same with that edge bisected.
const MORE: [Point; 5] = [
    Point { x: 0, y: 0 },
    Point { x: 4, y: 0 },
    Point { x: 4, y: 4 },
    Point { x: 0, y: 4 },
    Point { x: 2, y: 2 },
];

const BISECTION: Op = Op::Bisect { a: 0, b: 2 };

const CONTRACTION: Op = Op::Contract { u: 4, v: 0 };

const HALVES: [[u32; 3]; 4] = [[0, 1, 4], [0, 4, 3], [1, 2, 4], [2, 3, 4]];

// The square, in one chunk, where every length is allowed.
fn square(alloc: Global) -> Result<Mesh, Fail>
    ensures fresh { IfOk result (λ m. IsFresh m.mesh 0) }
    ensures few { IfOk result (λ m. m.mesh.first_new ≤ 1000) }
{
    let mesh = build(alloc, &CORNERS, &TRIS)?;
    Ok(mesh)
}

// The square with its diagonal bisected.
fn halved(alloc: Global) -> Result<Mesh, Fail> {
    let mesh = build(alloc, &MORE, &HALVES)?;
    Ok(mesh)
}

// Whether the stars are the same.
fn same_star(x: &Star, y: &Star) -> bool {
    x.node() == y.node() && x.at() == y.at() && x.spokes() == y.spokes()
}

// Whether the copies are the stars, at the chunk 0.
fn are_copies(copies: &[ChunkCopy], stars: &[Star]) -> bool {
    if copies.len() != stars.len() {
        return false;
    }
    for k in 0..copies.len() {
        if copies[k].chunk != 0 || !same_star(&copies[k].star, &stars[k]) {
            return false;
        }
    }
    true
}

// The second seat holds the node 0, and the first can't; nor can it a name that is to come, or one past the names.
fn meet(board: &Board, a: &mut BoardSeat, b: &mut BoardSeat) -> bool
    requires boards { (a.old.seat.table_id ≡ board.now.table.shared.table_id) × (b.old.seat.table_id ≡ board.now.table.shared.table_id) }
    requires seats { IsSeat board.now.table.shared.key a.old × IsSeat board.now.table.shared.key b.old }
    requires lends { IsLending a.old × IsLending b.old }
    ensures boards { (a.new.seat.table_id ≡ board.now.table.shared.table_id) × (b.new.seat.table_id ≡ board.now.table.shared.table_id) }
    ensures seats { IsSeat board.now.table.shared.key a.new × IsSeat board.now.table.shared.key b.new }
    ensures first { IsLending a.new }
    ensures second { result ≡ true → IsLending b.new }
{
    let won = hold(board, b, 0);
    let lost = hold(board, a, 0);
    let coming = hold(board, a, 5);
    let past = hold(board, a, 6);
    let free = give_all(board, b, &[0]);
    won == Some(Hold::Won)
        && lost == Some(Hold::Lost { holder: 1 })
        && coming == Some(Hold::Never)
        && past == Some(Hold::Never)
        && free
}

// Whether the node 0 is lent with its two triangles, and the node 7 isn't.
fn lends_first(s: &BoardSeat) -> bool {
    match s.kept(0) {
        Some(star) => star.node() == 0 && star.spokes().len() == 2 && s.kept(7).is_none(),
        None => false,
    }
}

// The first seat holds all nodes, and bisects the diagonal; one of the other edges it can't.
fn bisect(alloc: Global, board: &Board, s: &mut BoardSeat) -> Result<bool, NoMemory>
    requires board { s.old.seat.table_id ≡ board.now.table.shared.table_id }
    requires seat { IsSeat board.now.table.shared.key s.old }
    requires lends { IsLending s.old }
    ensures board { s.new.seat.table_id ≡ board.now.table.shared.table_id }
    ensures seat { IsSeat board.now.table.shared.key s.new }
    ensures lends { IfOk result (λ r. r ≡ true → IsLending s.new) }
{
    let won = hold_all(board, s, &[0, 1, 2, 3]);
    let lent = lends_first(s);
    let asked = ask(board, s, 0, 0, 1);
    let ticket = make_and_give(alloc, board, s, BISECTION, &[4, 3, 2, 1, 0])?;
    if ticket.is_none() {
        return Ok(false);
    }
    let fair = asked == Some((0, Cond::NotLongest { a: 0, b: 2 }));
    Ok(won && lent && fair && ticket == Some(0))
}

// The second seat holds all nodes, and contracts the new one.
fn contract(alloc: Global, board: &Board, s: &mut BoardSeat) -> Result<bool, NoMemory>
    requires board { s.old.seat.table_id ≡ board.now.table.shared.table_id }
    requires seat { IsSeat board.now.table.shared.key s.old }
    requires lends { IsLending s.old }
    ensures board { s.new.seat.table_id ≡ board.now.table.shared.table_id }
    ensures seat { IsSeat board.now.table.shared.key s.new }
    ensures lends { IfOk result (λ r. r ≡ true → IsLending s.new) }
{
    let won = hold_all(board, s, &[4, 0, 1, 2, 3]);
    let ticket = make_and_give(alloc, board, s, CONTRACTION, &[0, 1, 2, 3, 4])?;
    if ticket.is_none() {
        return Ok(false);
    }
    Ok(won && ticket == Some(1))
}

// The first seat finds the node dead that it made, and a name that is to come, and sees both tickets.
fn look_back(board: &Board, s: &mut BoardSeat) -> bool
    requires board { s.old.seat.table_id ≡ board.now.table.shared.table_id }
    requires seat { IsSeat board.now.table.shared.key s.old }
    requires lends { IsLending s.old }
    ensures board { s.new.seat.table_id ≡ board.now.table.shared.table_id }
    ensures seat { IsSeat board.now.table.shared.key s.new }
    ensures lends { IsLending s.new }
{
    let gone = hold(board, s, 4);
    let coming = hold(board, s, 5);
    let before = s.seen();
    let at = count(board, s);
    gone == Some(Hold::Dead) && coming == Some(Hold::Never) && before == 1 && at == 2
}

// Both seats at work, and joined: the first one, where all went as it should.
fn work(alloc: Global, board: &Board, s: BoardSeat) -> Result<Option<BoardSeat>, NoMemory>
    requires board { s.seat.table_id ≡ board.now.table.shared.table_id }
    requires seat { IsSeat board.now.table.shared.key s }
    requires lends { IsLending s }
    ensures board { IfOk result (λ o. IfSome o (λ r. r.seat.table_id ≡ board.now.table.shared.table_id)) }
    ensures seat { IfOk result (λ o. IfSome o (λ r. IsSeat board.now.table.shared.key r)) }
    ensures lends { IfOk result (λ o. IfSome o IsLending) }
{
    let mut a = s;
    let whole = a.alone() && a.number() == 0 && a.allowance() == 2 && a.seen() == 0;
    let Some(mut b) = split(alloc, board, &mut a, 1)? else {
        return Ok(None);
    };
    let halves = !a.alone() && !b.alone() && a.allowance() == 1 && b.allowance() == 1;
    if !meet(board, &mut a, &mut b) || !bisect(alloc, board, &mut a)? {
        return Ok(None);
    }
    if !contract(alloc, board, &mut b)? || !look_back(board, &mut a) {
        return Ok(None);
    }
    let named = a.number() == 0 && b.number() == 1 && b.seen() == 2 && b.allowance() == 0;
    let joined = join(board, &mut a, b);
    if whole && halves && named && joined {
        return Ok(Some(a));
    }
    Ok(None)
}

#[test]
fn two_seats_bisect_and_contract_back(rt: HostRuntime) -> Result<(), Fail> {
    let alloc = rt.alloc();
    let mesh = square(alloc)?;
    let (board, s) = open(alloc, &mesh, 2, 2)?;
    let Some(s) = work(alloc, &board, s)? else {
        return Err("work".into());
    };
    assert!(rt; s.alone() && s.allowance() == 0 && s.seen() == 2);
    let Some(end) = closed(alloc, board, s) else {
        return Err("closed".into());
    };
    let first = Entry {
        ticket: 0,
        chunk: 0,
        op: BISECTION,
    };
    let second = Entry {
        ticket: 1,
        chunk: 0,
        op: CONTRACTION,
    };
    assert!(rt; end.history.as_slice() == [first, second].as_slice());
    let stars = mesh.stars(alloc)?;
    assert!(rt; stars.len() == 4 && are_copies(&end.copies.list, &stars));
    assert!(rt; end.copies.first_new == 4 && end.copies.chunks == 1);
    Ok(())
}

// A seat bisects the diagonal.
fn bisected(alloc: Global, board: &Board, s: BoardSeat) -> Result<Option<BoardSeat>, NoMemory>
    requires board { s.seat.table_id ≡ board.now.table.shared.table_id }
    requires seat { IsSeat board.now.table.shared.key s }
    requires lends { IsLending s }
    ensures board { IfOk result (λ o. IfSome o (λ r. r.seat.table_id ≡ board.now.table.shared.table_id)) }
    ensures seat { IfOk result (λ o. IfSome o (λ r. IsSeat board.now.table.shared.key r)) }
    ensures lends { IfOk result (λ o. IfSome o IsLending) }
{
    let mut s = s;
    if !bisect(alloc, board, &mut s)? {
        return Ok(None);
    }
    Ok(Some(s))
}

#[test]
fn a_bisection_by_a_seat_closes_as_the_bisected_square(rt: HostRuntime) -> Result<(), Fail> {
    let alloc = rt.alloc();
    let mesh = square(alloc)?;
    let (board, s) = open(alloc, &mesh, 4, 2)?;
    let Some(s) = bisected(alloc, &board, s)? else {
        return Err("bisected".into());
    };
    let Some(end) = closed(alloc, board, s) else {
        return Err("closed".into());
    };
    let first = Entry {
        ticket: 0,
        chunk: 0,
        op: BISECTION,
    };
    assert!(rt; end.history.as_slice() == [first].as_slice());
    let stars = halved(alloc)?.stars(alloc)?;
    assert!(rt; stars.len() == 5 && are_copies(&end.copies.list, &stars));
    Ok(())
}
