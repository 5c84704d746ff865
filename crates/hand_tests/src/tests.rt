//! Hands on the square of two triangles.
ghost use Rattle.std.specs.Prelude.{◌≡◌, ◌≢◌, ℕ, ◌≤◌, [], true, None, IfOk, IfSome};
ghost use Rattle.pf_model.specs.Applied.{IsFresh};
ghost use Rattle.pf_holder.specs.Facts.{LendsAll};
ghost use Rattle.pf_locks.specs.Seats.{flag_at};
ghost use Rattle.hand_tests.specs.Rest.{IsAtRest};

use pf_attempt::attempt;
use pf_core_model::Answer;
use pf_geom::{NoMemory, Point};
use pf_hand::Hand;
use pf_holder::{Hold, Holder};
use pf_locks::{Board, BoardSeat, Closed};
use pf_mesh::{Mesh, build};
use pf_model::{Cond, Entry, Op};
use std::alloc::Global;
use std::process::Abort;
use std::test::Fail;

mod turns;

// Two triangles on the edge from 0 to 2.
const CORNERS: [Point; 4] = [
    Point { x: 0, y: 0 },
    Point { x: 4, y: 0 },
    Point { x: 4, y: 4 },
    Point { x: 0, y: 4 },
];

const TRIS: [[u32; 3]; 2] = [[0, 1, 2], [0, 2, 3]];

const FLIP: Op = Op::Flip { a: 0, b: 2 };

// The square, in one chunk, where every length is allowed.
fn square(alloc: Global) -> Result<Mesh, Fail>
    ensures fresh { IfOk result (λ m. IsFresh m.mesh 0) }
    ensures few { IfOk result (λ m. m.mesh.first_new ≤ 1000) }
{
    let mesh = build(alloc, &CORNERS, &TRIS)?;
    Ok(mesh)
}

// A board of the square with this budget, and its seat.
fn opened(alloc: Global, budget: u32) -> Result<(Board, BoardSeat), Fail>
    requires { budget ≤ 1000 }
    ensures { IfOk result (λ r. IsAtRest r.0 r.1) }
{
    let mesh = square(alloc)?;
    let made = Board::new(alloc, &mesh, budget, 2)?;
    Ok(made)
}

// Whether one of the flags is set but for this one.
fn has_spare(flags: &[bool; 64], own: u32) -> bool
    ensures { result ≡ true → (k : ℕ) × (flag_at flags.now k ≡ true) × (k ≢ own) }
{
    for k in 0..64 {
        if flags[k as usize] && k != own {
            return true;
        }
    }
    false
}

// A seat with this share of the allowance, where there is a spare number and the share is there.
fn split(alloc: Global, board: &Board, s: &mut BoardSeat, share: u32) -> Option<BoardSeat>
    requires rest { IsAtRest board.now s.old }
    ensures rest { IsAtRest board.now s.new }
    ensures other { IfSome result (λ r. IsAtRest board.now r) }
{
    if share > s.allowance() || !has_spare(&s.numbers, s.number) {
        return None;
    }
    match board.split_seat(alloc, s, share) {
        Ok(other) => Some(other),
        Err(NoMemory) => None,
    }
}

// The board at its end, where the two seats have all numbers.
fn closed(alloc: Global, board: Board, a: BoardSeat, b: BoardSeat) -> Option<Closed>
    requires first { IsAtRest board a }
    requires second { IsAtRest board b }
{
    let mut s = a;
    board.join_seat(&mut s, b);
    if !s.alone() {
        return None;
    }
    match board.close(alloc, s) {
        Ok(closed) => Some(closed),
        Err(_) => None,
    }
}

// Tries an operation by the chunk 0, and says where no chunk is.
fn tried<H: Holder>(alloc: Global, h: &mut H, op: Op) -> Option<Answer>
    requires nothing { (H.pairs h.old ≡ []) × (H.unborn h.old ≡ None) × (H.owed h.old ≡ []) }
    requires lends { LendsAll (H.lent h.old) (H.pairs h.old) }
    ensures same { H.same h.old h.new }
    ensures nothing { (H.pairs h.new ≡ []) × (H.unborn h.new ≡ None) × (H.owed h.new ≡ []) }
    ensures lends { LendsAll (H.lent h.new) (H.pairs h.new) }
{
    if h.chunks() == 0 {
        return None;
    }
    Some(attempt(alloc, h, 0, op))
}

// Two tries by a seat in a hand, one after the other.
fn two_tries(
    alloc: Global,
    board: &Board,
    s: BoardSeat,
    first: Op,
    second: Op,
) -> (Option<Answer>, Option<Answer>, BoardSeat)
    requires { IsAtRest board.now s }
    ensures { IsAtRest board.now result.2 }
{
    let mut hand = Hand::new(board, s);
    let one = tried(alloc, &mut hand, first);
    let two = tried(alloc, &mut hand, second);
    (one, two, hand.fold())
}

#[test]
fn what_one_hand_did_is_refused_then(rt: HostRuntime) -> Result<(), Fail> {
    let alloc = rt.alloc();
    let (board, mut a) = opened(alloc, 4)?;
    let Some(b) = split(alloc, &board, &mut a, 2) else {
        return Err("split".into());
    };
    let (one, two, a) = two_tries(alloc, &board, a, Op::Bisect { a: 2, b: 0 }, FLIP);
    assert!(rt; one == Some(Answer::Done { ticket: 0 }));
    assert!(rt;
        two == Some(Answer::Refused {
            at: 1,
            cond: Cond::NoEdge
        })
    );
    let Some(end) = closed(alloc, board, a, b) else {
        return Err("closed".into());
    };
    let entry = Entry {
        ticket: 0,
        chunk: 0,
        op: Op::Bisect { a: 0, b: 2 },
    };
    assert!(rt; end.history.as_slice() == [entry].as_slice());
    Ok(())
}

// While the first hand holds the node 0, the second tries: what the first found, what the second's try answered,
// and how many nodes it held then.
fn met<G: Holder, H: Holder>(alloc: Global, g: &mut G, h: &mut H) -> (Hold, Option<Answer>, usize)
    requires first { (G.pairs g.old ≡ []) × (G.unborn g.old ≡ None) × (G.owed g.old ≡ []) }
    requires first_lends { LendsAll (G.lent g.old) (G.pairs g.old) }
    requires second { (H.pairs h.old ≡ []) × (H.unborn h.old ≡ None) × (H.owed h.old ≡ []) }
    requires second_lends { LendsAll (H.lent h.old) (H.pairs h.old) }
{
    let found = g.hold(0);
    let answer = tried(alloc, h, FLIP);
    let held = h.held();
    g.give_back();
    (found, answer, held)
}

// The same by two seats in hands.
fn meet(alloc: Global, board: &Board, a: BoardSeat, b: BoardSeat) -> (Hold, Option<Answer>, usize)
    requires first { IsAtRest board.now a }
    requires second { IsAtRest board.now b }
{
    let mut first = Hand::new(board, a);
    let mut second = Hand::new(board, b);
    met(alloc, &mut first, &mut second)
}

#[test]
fn a_node_of_another_hand_is_busy(rt: HostRuntime) -> Result<(), Fail> {
    let alloc = rt.alloc();
    let (board, mut a) = opened(alloc, 4)?;
    let Some(b) = split(alloc, &board, &mut a, 2) else {
        return Err("split".into());
    };
    let (found, answer, held) = meet(alloc, &board, a, b);
    assert!(rt; found == Hold::Won && held == 0);
    assert!(rt;
        answer
            == Some(Answer::Busy {
                at: 0,
                node: 0,
                holder: 0
            })
    );
    Ok(())
}

#[test]
fn a_name_to_come_is_unborn(rt: HostRuntime) -> Result<(), Fail> {
    let alloc = rt.alloc();
    let (board, s) = opened(alloc, 4)?;
    let (one, two, s) = two_tries(alloc, &board, s, Op::Flip { a: 0, b: 7 }, FLIP);
    assert!(rt; one == Some(Answer::Unborn { node: 7 }));
    assert!(rt;
        two == Some(Answer::Refused {
            at: 0,
            cond: Cond::NotShorter
        }) && s.allowance() == 4
    );
    Ok(())
}

#[test]
fn without_an_allowance_a_hand_is_spent(rt: HostRuntime) -> Result<(), Fail> {
    let alloc = rt.alloc();
    let (board, s) = opened(alloc, 0)?;
    let (one, two, s) = two_tries(alloc, &board, s, Op::Bisect { a: 0, b: 2 }, FLIP);
    assert!(rt; one == Some(Answer::Spent) && two == Some(Answer::Spent) && s.seen() == 0);
    Ok(())
}
