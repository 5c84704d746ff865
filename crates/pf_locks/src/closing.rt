//! A board at its end: the one history, and the copies of the mesh after it.
ghost use Rattle.std.specs.Prelude.{◌≡◌, ℕ, ◌+◌, ◌<◌, ◌≤◌, ◌++◌, [], None, false, length, map, vec_len, vec_capacity, slice_index_or, IfOk, IfSome, IfErr};
ghost use Rattle.std.specs.Slots.{IsFull, slots_items, slots_filled, slots_len};
ghost use Rattle.std.specs.List.Sorted.{IsPermutation};
ghost use Rattle.pf_model.specs.declared.Entry.{Entry};
ghost use Rattle.pf_model.specs.Stars.{star_of};
ghost use Rattle.pf_entries.specs.Maps.{map_of};
ghost use Rattle.pf_core_model.specs.Lists.{In};
ghost use Rattle.pf_core_model.specs.Sharers.{sharers_in};
ghost use Rattle.pf_core_model.specs.Core.{mesh_after};
ghost use Rattle.pf_core_model.specs.Guards.{IsAlone};
ghost use Rattle.pf_core_model.specs.Seats.{own_log};
ghost use Rattle.pf_locks.specs.Seats.{IsSeat};
ghost use Rattle.pf_locks.specs.Closes.{shown_copy, copies_back, copies_under, list_at, copies_below, IsButFinds, AreCopiesInOrder, AreCopiesOf};

use crate::board::Board;
use crate::kept::count_of;
use crate::seat::BoardSeat;
use pf_core_model::Sharer;
use pf_geom::NoMemory;
use pf_ghost::Sharers;
use pf_holder::Hold;
use pf_model::Entry;
use pf_star::{ChunkCopy, Copies};
use std::alloc::Global;

/// What a board has at its end: the one history, by rising ticket, and the copies of the mesh after it.
#[derive(Drop)]
pub struct Closed {
    pub history: Vec<Entry>,
    pub copies: Copies,
}

/// A board that could not be closed for want of memory, and its seat.
#[derive(Drop)]
pub struct Open {
    pub board: Board,
    pub seat: BoardSeat,
}

// The entries of a seat that has seen all of their tickets, by rising ticket.
pub fn history_of(s: &BoardSeat, alloc: Global) -> Result<Vec<Entry>, NoMemory>
    requires entries { s.now.entries.entries ≡ map_of s.now.seat.me.0.entries }
    requires seen { (e : Entry) → In e s.now.seat.me.0.entries → e.ticket < s.now.seat.me.0.seen }
    ensures { IfOk result (λ l. l.items ≡ own_log s.now.seat.me.0) }
{
    let list = s.entries.rising(alloc)?;
    Ok(list)
}

// How many copies the node has. It is locked and released again, where it is live.
fn count_at(board: &Board, s: &mut BoardSeat, n: u32) -> usize
    requires board { s.old.seat.table_id ≡ board.now.table.shared.table_id }
    requires seat { IsSeat board.now.table.shared.key s.old }
    requires alone { IsAlone s.old.seat.me.0 }
    requires nothing { s.old.seat.me.0.held ≡ [] }
    requires clear { s.old.seat.me.0.unborn ≡ None }
    ensures board { s.new.seat.table_id ≡ s.old.seat.table_id }
    ensures seat { IsSeat board.now.table.shared.key s.new }
    ensures stays { IsButFinds s.old.seat.me.0 s.new.seat.me.0 }
    ensures count { result ≡ length (sharers_in board.now.table.shared.key.mesh.chunks (star_of (mesh_after board.now.table.shared.key (own_log s.old.seat.me.0)) n)) }
{
    match board.try_lock(s, n) {
        Hold::Won => {
            let many = count_of(&s.kept, n);
            board.release(s, n);
            many
        }
        _ => 0,
    }
}

// How many copies all nodes have, where the number can be counted.
fn count_all(board: &Board, s: &mut BoardSeat) -> Option<usize>
    requires board { s.old.seat.table_id ≡ board.now.table.shared.table_id }
    requires seat { IsSeat board.now.table.shared.key s.old }
    requires alone { IsAlone s.old.seat.me.0 }
    requires nothing { s.old.seat.me.0.held ≡ [] }
    requires clear { s.old.seat.me.0.unborn ≡ None }
    ensures board { s.new.seat.table_id ≡ s.old.seat.table_id }
    ensures seat { IsSeat board.now.table.shared.key s.new }
    ensures stays { IsButFinds s.old.seat.me.0 s.new.seat.me.0 }
    ensures count { IfSome result (λ k. k ≡ length (copies_below (mesh_after board.now.table.shared.key (own_log s.old.seat.me.0)) board.now.names)) }
{
    let mut many: usize = 0;
    for n in 0..board.names {
        let more = count_at(board, s, n as u32);
        many = many.checked_add(more)?;
    }
    Some(many)
}

// Makes room for the copies of all nodes, and gives the history.
fn room_for(
    board: &Board,
    alloc: Global,
    s: &mut BoardSeat,
) -> Result<(Vec<Entry>, Vec<ChunkCopy>), NoMemory>
    requires board { s.old.seat.table_id ≡ board.now.table.shared.table_id }
    requires seat { IsSeat board.now.table.shared.key s.old }
    requires alone { IsAlone s.old.seat.me.0 }
    requires nothing { s.old.seat.me.0.held ≡ [] }
    requires clear { s.old.seat.me.0.unborn ≡ None }
    ensures board { s.new.seat.table_id ≡ s.old.seat.table_id }
    ensures seat { IsSeat board.now.table.shared.key s.new }
    ensures stays { IsButFinds s.old.seat.me.0 s.new.seat.me.0 }
    ensures history { IfOk result (λ r. r.0.items ≡ own_log s.old.seat.me.0) }
    ensures empty { IfOk result (λ r. r.1.items ≡ []) }
    ensures room { IfOk result (λ r. length (copies_below (mesh_after board.now.table.shared.key (own_log s.old.seat.me.0)) board.now.names) ≤ vec_capacity r.1) }
{
    let history = history_of(s, alloc)?;
    let Some(many) = count_all(board, s) else {
        return Err(NoMemory);
    };
    let Ok(list) = Vec::with_capacity(alloc, many) else {
        return Err(NoMemory);
    };
    Ok((history, list))
}

// Moves the copies of a node to the end of a list, in which there is room for them.
fn put_copies(list: &mut Vec<ChunkCopy>, sharers: Sharers)
    requires { vec_len list.old + length sharers ≤ vec_capacity list.old }
    ensures items { map shown_copy list.new.items ≡ map shown_copy list.old.items ++ copies_back sharers }
    ensures room { vec_capacity list.new ≡ vec_capacity list.old }
{
    let mut left = sharers.into_list();
    'copies: while let Some(sharer) = left.pop() {
        let Sharer { chunk, star } = sharer;
        list.push_reserved(ChunkCopy { chunk, star });
    }
}

// Takes the copies of all nodes out of their slots.
fn take_all(
    closed: &mut atomic_table::Closed<Sharers, Global>,
    names: usize,
    list: &mut Vec<ChunkCopy>,
)
    requires full { IsFull closed.old.slots }
    requires many { slots_len closed.old.slots ≡ names }
    requires empty { list.old.items ≡ [] }
    requires room { length (copies_under (list_at (slots_items closed.old.slots)) names) ≤ vec_capacity list.old }
    ensures items { map shown_copy list.new.items ≡ copies_under (list_at (slots_items closed.old.slots)) names }
    ensures free { (k : ℕ) → k < slots_len closed.new.slots → slice_index_or (slots_filled closed.new.slots) k false ≡ false }
{
    for n in 0..names {
        let sharers = closed.take(n);
        put_copies(list, sharers);
    }
}

// Sorts by chunk, and then by node.
fn sort_copies(list: &mut Vec<ChunkCopy>)
    ensures permutation { IsPermutation list.old.items list.new.items }
    ensures order { AreCopiesInOrder list.new.items }
{
    list.sort_unstable_by_key(|c| (c.chunk, c.star.node()));
}

// Takes the board apart. All copies fit the list.
fn copies_at_end(board: Board, s: BoardSeat, list: Vec<ChunkCopy>) -> Copies
    requires board { s.seat.table_id ≡ board.table.shared.table_id }
    requires seat { IsSeat board.table.shared.key s }
    requires alone { IsAlone s.seat.me.0 }
    requires nothing { s.seat.me.0.held ≡ [] }
    requires empty { list.items ≡ [] }
    requires room { length (copies_below (mesh_after board.table.shared.key (own_log s.seat.me.0)) board.names) ≤ vec_capacity list }
    ensures { AreCopiesOf (mesh_after board.table.shared.key (own_log s.seat.me.0)) result }
{
    let Board {
        table,
        names,
        first_new,
        chunks,
        bands,
        alloc: _,
    } = board;
    let BoardSeat {
        seat,
        number: _,
        workers: _,
        numbers: _,
        allowance: _,
        seen: _,
        entries: _,
        kept: _,
    } = s;
    let mut closed = table.close_with(seat);
    let mut list = list;
    take_all(&mut closed, names, &mut list);
    closed.free();
    sort_copies(&mut list);
    Copies {
        first_new,
        bands,
        chunks,
        list,
    }
}

impl Board {
    /// Ends the board: gives the one history, which is the seat's own, and the copies of the mesh after it. The
    /// seat has all numbers and holds nothing. Room is made first: each node is locked, its copies are counted,
    /// and it is released again. Want of memory is the only failure; it hands back the board, and the seat as it
    /// was but for finds.
    pub fn close(self, alloc: Global, s: BoardSeat) -> Result<Closed, Open>
        requires board { s.seat.table_id ≡ self.table.shared.table_id }
        requires seat { IsSeat self.table.shared.key s }
        requires alone { IsAlone s.seat.me.0 }
        requires nothing { s.seat.me.0.held ≡ [] }
        requires clear { s.seat.me.0.unborn ≡ None }
        ensures history { IfOk result (λ c. c.history.items ≡ own_log s.seat.me.0) }
        ensures copies { IfOk result (λ c. AreCopiesOf (mesh_after self.table.shared.key (own_log s.seat.me.0)) c.copies) }
        ensures board { IfErr result (λ e. e.board ≡ self) }
        ensures seat { IfErr result (λ e. (e.seat.seat.table_id ≡ s.seat.table_id) × IsSeat self.table.shared.key e.seat) }
        ensures stays { IfErr result (λ e. IsButFinds s.seat.me.0 e.seat.seat.me.0) }
    {
        let mut seat = s;
        match room_for(&self, alloc, &mut seat) {
            Ok((history, list)) => {
                let copies = copies_at_end(self, seat, list);
                Ok(Closed { history, copies })
            }
            Err(NoMemory) => Err(Open { board: self, seat }),
        }
    }
}
