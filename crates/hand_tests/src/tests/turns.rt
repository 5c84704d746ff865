//! The turns of a worker, in whose way another one holds a node at first.
ghost use Rattle.std.specs.Prelude.{◌≡◌, ◌≤◌, ◌∷◌, [], None, IfOk};
ghost use Rattle.pf_model.specs.Applied.{IsFresh};
ghost use Rattle.pf_model.specs.Conforming.{HasDefault};
ghost use Rattle.pf_holder.specs.Facts.{LendsAll};
ghost use Rattle.hand_tests.specs.Rest.{IsAtRest};

use super::*;
use pf_driver::{DriveEnd, Gate, drive};
use pf_mesh::Band;
use std::cell::RefCell;

// Two squares that share no node, each of two triangles.
const PAIR: [Point; 8] = [
    Point { x: 0, y: 0 },
    Point { x: 4, y: 0 },
    Point { x: 4, y: 4 },
    Point { x: 0, y: 4 },
    Point { x: 8, y: 0 },
    Point { x: 12, y: 0 },
    Point { x: 12, y: 4 },
    Point { x: 8, y: 4 },
];

const PAIR_TRIS: [[u32; 3]; 4] = [[0, 1, 2], [0, 2, 3], [4, 5, 6], [4, 6, 7]];

// The band of every edge: the sides are as long as they may be, and the diagonals are longer.
fn everywhere() -> Band
    ensures { HasDefault (result ∷ []) }
{
    Band {
        xlo: -268_435_456,
        ylo: -268_435_456,
        xhi: 268_435_456,
        yhi: 268_435_456,
        min2: 0,
        max2: 16,
    }
}

// The squares, in one chunk.
fn pair(alloc: Global) -> Result<Mesh, Fail>
    ensures fresh { IfOk result (λ m. IsFresh m.mesh 0) }
    ensures few { IfOk result (λ m. m.mesh.first_new ≤ 1000) }
{
    let mesh = build(alloc, &PAIR, &PAIR_TRIS)?;
    let owners = Vec::from_array(alloc, [0, 0, 0, 0])?;
    let bands = Vec::from_array(alloc, [everywhere()])?;
    let mesh = mesh.with_tables(&PAIR_TRIS, owners, 1, bands)?;
    Ok(mesh)
}

// A board of them, and its seat.
fn pair_opened(alloc: Global) -> Result<(Board, BoardSeat), Fail>
    ensures { IfOk result (λ r. IsAtRest r.0 r.1) }
{
    let mesh = pair(alloc)?;
    let made = Board::new(alloc, &mesh, 4, 2)?;
    Ok(made)
}

// The other worker, which gives back all that it holds before this turn.
#[derive(Drop)]
struct Leaving<'b> {
    other: RefCell<Hand<'b>>,
    turn: u32,
}

impl Gate for Leaving<'_> {
    fn pass(&self, _worker: u32, turn: u32) {
        if turn == self.turn
            && let Ok(mut other) = self.other.try_borrow_mut()
        {
            other.give_back();
        }
    }
}

// The turns from all nodes of the squares, where the holder is of them.
fn driven<H: Holder, G: Gate>(alloc: Global, h: &mut H, gate: &G) -> Option<DriveEnd>
    requires nothing { (H.pairs h.old ≡ []) × (H.unborn h.old ≡ None) × (H.owed h.old ≡ []) }
    requires lends { LendsAll (H.lent h.old) (H.pairs h.old) }
    ensures nothing { (H.pairs h.new ≡ []) × (H.unborn h.new ≡ None) × (H.owed h.new ≡ []) }
    ensures same { H.same h.old h.new }
{
    if h.chunks() != 1 || h.first_new() != 8 {
        return None;
    }
    Some(drive(alloc, h, 1, &[0], &[0, 1, 2, 3, 4, 5, 6, 7], 1000, gate))
}

// Holds the node 0.
fn first_held<H: Holder>(h: &mut H) -> Hold
    requires nothing { H.pairs h.old ≡ [] }
    requires lends { LendsAll (H.lent h.old) (H.pairs h.old) }
{
    h.hold(0)
}

// The first seat holds the node 0 until the other's turn 8: what it found, and how the other's turns ended.
fn turned(
    alloc: Global,
    board: &Board,
    a: BoardSeat,
    b: BoardSeat,
) -> Option<(Hold, DriveEnd, BoardSeat)>
    requires first { IsAtRest board.now a }
    requires second { IsAtRest board.now b }
{
    let mut first = Hand::new(board, a);
    let mut second = Hand::new(board, b);
    let found = first_held(&mut first);
    let gate = Leaving {
        other: RefCell::new(first),
        turn: 8,
    };
    let end = driven(alloc, &mut second, &gate)?;
    Some((found, end, second.fold()))
}

// The bisection of an edge, as an entry.
fn bisection(ticket: u32, a: u32, b: u32) -> Entry {
    Entry {
        ticket,
        chunk: 0,
        op: Op::Bisect { a, b },
    }
}

#[test]
fn a_worker_goes_on_and_comes_back_to_what_it_lost(rt: HostRuntime) -> Result<(), Fail> {
    let alloc = rt.alloc();
    let (board, mut a) = pair_opened(alloc)?;
    let Some(b) = split(alloc, &board, &mut a, 3) else {
        return Err("split".into());
    };
    let Some((found, end, b)) = turned(alloc, &board, a, b) else {
        return Err("turned".into());
    };
    assert!(rt; found == Hold::Won && end == DriveEnd::Done);
    let entries = b.entries.rising(alloc)?;
    assert_eq!(rt;
        entries.as_slice(),
        [bisection(0, 4, 6), bisection(1, 0, 2)].as_slice()
    );
    Ok(())
}
