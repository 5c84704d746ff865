//! The lists of copies that were prepared are put in the place of those that are kept.
ghost use Rattle.std.specs.Prelude.{◌≡◌, ℕ, cond, ◌==◌, Contains};
ghost use Rattle.pf_core_model.specs.Lists.{In};
ghost use Rattle.pf_core_model.specs.Core.{nodes_of};
ghost use Rattle.pf_ghost.specs.declared.ready.Listed.{Listed};
ghost use Rattle.pf_ghost.specs.Spread.{named_list, named_node, spread_at};
ghost use Rattle.pf_locks.specs.Lists.{list_in};
ghost use Rattle.pf_locks.specs.Seats.{IsSeat};

use pf_ghost::{Listed, Ready};
use pf_locks::{Board, BoardSeat};
use pf_rings::renamed_name;

// Puts one list, with the name in the new node's place. What stood there is let go.
fn put_listed(board: &Board, s: &mut BoardSeat, listed: Listed, name: u32)
    requires board { s.old.seat.table_id ≡ board.now.table.shared.table_id }
    requires seat { IsSeat board.now.table.shared.key s.old }
    requires held { In (named_node name listed) (nodes_of s.old.seat.me.0) }
    ensures board { s.new.seat.table_id ≡ s.old.seat.table_id }
    ensures seat { IsSeat board.now.table.shared.key s.new }
    ensures view { s.new.seat.me.0 ≡ s.old.seat.me.0 }
    ensures lists { (n : ℕ) → list_in s.new.kept.items n ≡ cond (n == named_node name listed) (named_list name listed) (list_in s.old.kept.items n) }
{
    let Listed { node, mut list } = listed;
    list.rename(u32::MAX, name);
    let before = board.swap_sharers(s, renamed_name(u32::MAX, name, node), list);
    drop(before);
}

/// Puts each list that was prepared, with `name` in the new node's place. Each node is held. It only moves lists
/// and takes no memory.
pub fn put_lists(board: &Board, s: &mut BoardSeat, ready: Ready, name: u32)
    requires board { s.old.seat.table_id ≡ board.now.table.shared.table_id }
    requires seat { IsSeat board.now.table.shared.key s.old }
    requires held { (l : Listed) → Contains ready l → In (named_node name l) (nodes_of s.old.seat.me.0) }
    ensures board { s.new.seat.table_id ≡ s.old.seat.table_id }
    ensures seat { IsSeat board.now.table.shared.key s.new }
    ensures view { s.new.seat.me.0 ≡ s.old.seat.me.0 }
    ensures lists { (n : ℕ) → list_in s.new.kept.items n ≡ spread_at name ready (list_in s.old.kept.items) n }
{
    let mut lists = ready.into_lists();
    'puts: while let Some(listed) = lists.pop() {
        put_listed(board, s, listed, name);
    }
}
