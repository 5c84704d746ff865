//! All that is held is given back.
ghost use Rattle.std.specs.Prelude.{◌≡◌, [], None, is_some};
ghost use Rattle.pf_core_model.specs.Lists.{In};
ghost use Rattle.pf_core_model.specs.Sharers.{kept_in};
ghost use Rattle.pf_core_model.specs.Moves.{released};
ghost use Rattle.pf_core_model.specs.Core.{nodes_of};
ghost use Rattle.pf_locks.specs.Lists.{list_in};
ghost use Rattle.pf_locks.specs.Seats.{IsSeat, DropsList};
ghost use Rattle.pf_hand.specs.Hands.{AreDue};
ghost use Rattle.pf_hand.specs.Next.{first_kept};

use crate::next::{Next, next_kept};
use pf_locks::{Board, BoardSeat};

// Gives back a node: frees it where it has a copy, and buries it where it has none.
fn free_one(board: &Board, s: &mut BoardSeat, n: u32, live: bool)
    requires board { s.old.seat.table_id ≡ board.now.table.shared.table_id }
    requires seat { IsSeat board.now.table.shared.key s.old }
    requires clear { s.old.seat.me.0.unborn ≡ None }
    requires due { AreDue s.old.seat.me.0.chunks s.old.seat.me.0.held s.old.kept.items }
    requires held { In n (nodes_of s.old.seat.me.0) }
    requires live { live ≡ is_some (kept_in (list_in s.old.kept.items n)) }
    ensures board { s.new.seat.table_id ≡ s.old.seat.table_id }
    ensures seat { IsSeat board.now.table.shared.key s.new }
    ensures told { s.new.seat.me.0 ≡ released s.old.seat.me.0 n }
    ensures kept { DropsList n s.old s.new }
{
    if live {
        board.release(s, n);
    } else {
        board.bury(s, n);
    }
}

/// Gives back each node that is held.
pub fn free_all(board: &Board, s: &mut BoardSeat)
    requires board { s.old.seat.table_id ≡ board.now.table.shared.table_id }
    requires seat { IsSeat board.now.table.shared.key s.old }
    requires clear { s.old.seat.me.0.unborn ≡ None }
    requires due { AreDue s.old.seat.me.0.chunks s.old.seat.me.0.held s.old.kept.items }
    ensures board { s.new.seat.table_id ≡ s.old.seat.table_id }
    ensures seat { IsSeat board.now.table.shared.key s.new }
    ensures view { s.new.seat.me.0 ≡ record s.old.seat.me.0 { held = [] } }
{
    'frees: while let Some(Next { node, live }) = next_kept(&s.kept) {
        free_one(board, s, node, live);
    }
}
