//! Two seats on the kite: what one holds, the other can't.
ghost use Rattle.std.specs.Prelude.{◌≡◌, ◌≤◌, ◌∷◌, [], None, IfOk};
ghost use Rattle.pf_model.specs.Applied.{IsFresh};
ghost use Rattle.pf_model.specs.Conforming.{HasDefault};
ghost use Rattle.pf_locks.specs.Seats.{IsSeat};
ghost use Rattle.board_tests.specs.Tried.{IsIdle, IsTried};

use pf_geom::Point;
use pf_holder::Hold;
use pf_locks::{Board, BoardSeat};
use pf_mesh::{Band, Mesh, build};
use pf_star::ChunkCopy;
use std::alloc::Global;
use std::process::Abort;
use std::test::Fail;

// Two triangles on the edge from 0 to 1.
const KITE: [Point; 4] = [
    Point { x: 0, y: 0 },
    Point { x: 8, y: 0 },
    Point { x: 4, y: 2 },
    Point { x: 4, y: -2 },
];

const TRIS: [[u32; 3]; 2] = [[0, 1, 2], [1, 0, 3]];

// The band of every edge: every length is allowed.
fn everywhere() -> Band
    ensures { HasDefault (result ∷ []) }
{
    Band {
        xlo: -268_435_456,
        ylo: -268_435_456,
        xhi: 268_435_456,
        yhi: 268_435_456,
        min2: 0,
        max2: 1000,
    }
}

// The kite, whose first triangle is the first chunk's and whose second the second's.
fn kite(alloc: Global) -> Result<Mesh, Fail>
    ensures fresh { IfOk result (λ m. IsFresh m.mesh 0) }
    ensures few { IfOk result (λ m. m.mesh.first_new ≤ 1000) }
{
    let mesh = build(alloc, &KITE, &TRIS)?;
    let owners = Vec::from_array(alloc, [0, 1])?;
    let bands = Vec::from_array(alloc, [everywhere()])?;
    let mesh = mesh.with_tables(&TRIS, owners, 2, bands)?;
    Ok(mesh)
}

// Tries for the node 0.
fn try_first(board: &Board, s: &mut BoardSeat) -> Hold
    requires board { s.old.seat.table_id ≡ board.now.table.shared.table_id }
    requires seat { IsSeat board.now.table.shared.key s.old }
    requires idle { IsIdle s.old.seat.me.0 }
    ensures board { s.new.seat.table_id ≡ s.old.seat.table_id }
    ensures seat { IsSeat board.now.table.shared.key s.new }
    ensures tried { IsTried s.new result }
{
    board.try_lock(s, 0)
}

// Gives the node 0 back, where it was won.
fn give_back(board: &Board, s: &mut BoardSeat, found: Hold)
    requires board { s.old.seat.table_id ≡ board.now.table.shared.table_id }
    requires seat { IsSeat board.now.table.shared.key s.old }
    requires tried { IsTried s.old found }
    ensures board { s.new.seat.table_id ≡ s.old.seat.table_id }
    ensures seat { IsSeat board.now.table.shared.key s.new }
    ensures idle { IsIdle s.new.seat.me.0 }
{
    match found {
        Hold::Won => board.release(s, 0),
        _ => {}
    }
}

// Both try for the node 0, one after the other, and give it back.
fn both_try(board: &Board, a: &mut BoardSeat, b: &mut BoardSeat) -> (Hold, Hold)
    requires boards { (a.old.seat.table_id ≡ board.now.table.shared.table_id) × (b.old.seat.table_id ≡ board.now.table.shared.table_id) }
    requires seats { IsSeat board.now.table.shared.key a.old × IsSeat board.now.table.shared.key b.old }
    requires idle { IsIdle a.old.seat.me.0 × IsIdle b.old.seat.me.0 }
    ensures boards { (a.new.seat.table_id ≡ board.now.table.shared.table_id) × (b.new.seat.table_id ≡ board.now.table.shared.table_id) }
    ensures seats { IsSeat board.now.table.shared.key a.new × IsSeat board.now.table.shared.key b.new }
    ensures idle { IsIdle a.new.seat.me.0 × IsIdle b.new.seat.me.0 }
{
    let first = try_first(board, a);
    let second = try_first(board, b);
    give_back(board, a, first);
    give_back(board, b, second);
    (first, second)
}

#[test]
fn what_one_holds_the_other_loses(rt: HostRuntime) -> Result<(), Fail> {
    let alloc = rt.alloc();
    let mesh = kite(alloc)?;
    let (board, mut a) = Board::new(alloc, &mesh, 2, 2)?;
    assert!(rt; a.alone() && a.number() == 0 && a.allowance() == 2);
    let mut b = board.split_seat(alloc, &mut a, 1)?;
    assert!(rt; !a.alone() && b.number() == 1 && a.allowance() == 1 && b.allowance() == 1);
    let (first, second) = both_try(&board, &mut a, &mut b);
    assert!(rt; first == Hold::Won && second == Hold::Lost { holder: 0 });
    let (first, second) = both_try(&board, &mut b, &mut a);
    assert!(rt; first == Hold::Won && second == Hold::Lost { holder: 1 });
    assert!(rt; board.note(&mut b, None) == 0);
    board.join_seat(&mut a, b);
    assert!(rt; a.alone() && a.allowance() == 2 && a.seen() == 0);
    Ok(())
}

// Whether the copy at this place is that of this node at this chunk.
fn is_copy(list: &[ChunkCopy], place: usize, chunk: u16, node: u32) -> bool {
    match list.get(place) {
        Some(copy) => copy.chunk == chunk && copy.star.node() == node,
        None => false,
    }
}

#[test]
fn a_new_board_closes_with_the_copies_of_its_mesh(rt: HostRuntime) -> Result<(), Fail> {
    let alloc = rt.alloc();
    let mesh = kite(alloc)?;
    let (board, s) = Board::new(alloc, &mesh, 2, 1)?;
    let Ok(closed) = board.close(alloc, s) else {
        assert!(rt; false);
        return Ok(());
    };
    assert!(rt; closed.history.len() == 0);
    let list = closed.copies.list.as_slice();
    assert!(rt; list.len() == 6);
    assert!(rt; is_copy(list, 0, 0, 0) && is_copy(list, 1, 0, 1) && is_copy(list, 2, 0, 2));
    assert!(rt; is_copy(list, 3, 1, 0) && is_copy(list, 4, 1, 1) && is_copy(list, 5, 1, 3));
    assert!(rt; closed.copies.first_new == 4 && closed.copies.chunks == 2);
    Ok(())
}
