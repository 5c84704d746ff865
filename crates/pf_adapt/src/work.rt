//! The last pass, by the seat that has all numbers.
ghost use Rattle.std.specs.Prelude.{◌≡◌, ℕ, ◌≤◌, [], None, Contains, IfOk, OnOk, length};
ghost use Rattle.pf_model.specs.Conforming.{IsLive};
ghost use Rattle.pf_holder.specs.Facts.{LendsAll, history_in, mesh_alone};
ghost use Rattle.pf_core_model.specs.Core.{mesh_after};
ghost use Rattle.pf_core_model.specs.Seats.{own_log};
ghost use Rattle.pf_adapt.specs.Adapted.{HasEnded};
ghost use Rattle.pf_adapt.specs.Crew.{IsLone};

use crate::lists::names_below;
use pf_finish::{FinishEnd, finish};
use pf_geom::NoMemory;
use pf_hand::{Hand, alone_log_is_own};
use pf_holder::Holder;
use pf_locks::{Board, BoardSeat};
use std::alloc::Global;

// The last pass, from the nodes that may be live.
fn last_pass<H: Holder>(alloc: Global, h: &mut H, live: &[u32]) -> Result<(), NoMemory>
    requires live { (n : ℕ) → IsLive (mesh_alone (H.opening h.old) (H.entries h.old)) n → Contains live.now n }
    requires alone { H.alone h.old }
    requires nothing { (H.pairs h.old ≡ []) × (H.unborn h.old ≡ None) × (H.owed h.old ≡ []) }
    requires lends { LendsAll (H.lent h.old) (H.pairs h.old) }
    ensures same { H.same h.old h.new }
    ensures nothing { (H.pairs h.new ≡ []) × (H.unborn h.new ≡ None) × (H.owed h.new ≡ []) }
    ensures within { OnOk result (length (history_in (H.entries h.new)) ≤ (H.opening h.old).budget) }
    ensures ended { OnOk result (HasEnded (mesh_alone (H.opening h.old) (H.entries h.new)) (H.opening h.old).budget (length (history_in (H.entries h.new)))) }
{
    match finish(alloc, h, live) {
        FinishEnd::Quiet => Ok(()),
        FinishEnd::Spent => Ok(()),
        FinishEnd::Memory => Err(NoMemory),
    }
}

/// Makes the last pass over the nodes of the mesh, by a seat with all numbers.
pub(crate) fn finished(alloc: Global, board: &Board, seat: BoardSeat) -> Result<BoardSeat, NoMemory>
    requires { IsLone board.now.table.shared.table_id board.now.table.shared.key seat }
    ensures lone { IfOk result (λ s. IsLone board.now.table.shared.table_id board.now.table.shared.key s) }
    ensures ended { IfOk result (λ s. HasEnded (mesh_after board.now.table.shared.key (own_log s.seat.me.0)) board.now.table.shared.key.budget (length (own_log s.seat.me.0))) }
{
    alone_log_is_own();
    let names = names_below(alloc, board.first_new + seat.seen)?;
    let mut hand = Hand::new(board, seat);
    last_pass(alloc, &mut hand, &names)?;
    Ok(hand.fold())
}
