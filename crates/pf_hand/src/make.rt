//! An operation is committed, and its copies are put.
ghost use Rattle.std.specs.Prelude.{◌≡◌, ◌<◌, true, false};
ghost use Rattle.pf_star_model.specs.Lent.{star_held};
ghost use Rattle.pf_core_model.specs.Cavity.{makes_node};
ghost use Rattle.pf_board_steps.specs.Plays.{CanCommit};
ghost use Rattle.pf_holder.specs.Prepared.{IsReady};
ghost use Rattle.pf_locks.specs.Seats.{TellsCount};
ghost use Rattle.pf_hand.specs.Hands.{IsHand, made_view};

use crate::put::put_lists;
use pf_ghost::{Ready, spread_puts_due};
use pf_locks::{Board, BoardSeat};
use pf_model::Op;

// Whether the operation makes a node.
fn makes_one(op: Op) -> bool
    ensures { result ≡ makes_node op }
{
    match op {
        Op::Bisect { a: _, b: _ } => true,
        _ => false,
    }
}

/// Commits an operation that passes on the held stars, whose cavity is held and whose copies were prepared, puts
/// the copies, and answers the ticket. A new node is held as any other.
pub fn make(board: &Board, s: &mut BoardSeat, chunk: u16, op: Op, ready: Ready) -> u32
    requires board { s.old.seat.table_id ≡ board.now.table.shared.table_id }
    requires hand { IsHand board.now.table.shared.key s.old false }
    requires rich { 0 < s.old.seat.me.0.allowance }
    requires makes { CanCommit s.old.seat.me.0 chunk op }
    requires ready { IsReady (star_held s.old.seat.me.0.held) s.old.seat.me.0.chunks op ready }
    ensures board { s.new.seat.table_id ≡ s.old.seat.table_id }
    ensures hand { IsHand board.now.table.shared.key s.new true }
    ensures count { TellsCount board.now.table.shared.key s.old.seat.me.0 result }
    ensures view { s.new.seat.me.0 ≡ made_view s.old.seat.me.0 chunk op result }
{
    spread_puts_due();
    let ticket = board.commit(s, chunk, op);
    let name = board.first_new + ticket;
    put_lists(board, s, ready, name);
    if makes_one(op) {
        board.birth(s, name);
    }
    ticket
}
