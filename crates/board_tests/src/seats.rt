//! Nodes held, operations made and nodes given back by calls of the board alone. What a call asks for is looked
//! up in the seat where it can be.
ghost use Rattle.std.specs.Prelude.{◌≡◌, ◌≢◌, ℕ, ◌+◌, ◌≤◌, length, true, is_some, Some, None, IfOk, IfSome};
ghost use Rattle.pf_model.specs.Applied.{IsFresh};
ghost use Rattle.pf_model.specs.declared.Op.TheVariants.{Bisect, Contract};
ghost use Rattle.pf_star_model.specs.Judged.{judged};
ghost use Rattle.pf_core_model.specs.Cavity as cavity;
ghost use Rattle.pf_core_model.specs.Sharers.{sharers_in};
ghost use Rattle.pf_core_model.specs.Guards.{IsViewJudged};
ghost use Rattle.pf_board_steps.specs.Plays.{CanCommit};
ghost use Rattle.pf_holder.specs.Prepared.{IsReady};
ghost use Rattle.pf_ghost.specs.Prepared.{ready_of};
ghost use Rattle.pf_ghost.specs.Spread.{spread_at};
ghost use Rattle.pf_locks.specs.Lists.{list_in, lent_in};
ghost use Rattle.pf_locks.specs.Seats.{IsSeat, flag_at};
ghost use Rattle.board_tests.specs.Holding.{IsPaid, IsLending, is_kept, put_at};

use pf_cavity::{Need, need};
use pf_core_model::Asked;
use pf_geom::NoMemory;
use pf_ghost::{Listed, Sharers, sharers_of, spread_puts_due};
use pf_holder::Hold;
use pf_locks::{Board, BoardSeat, Closed, Kept};
use pf_mesh::Mesh;
use pf_model::{Cond, Op};
use pf_patch::patch;
use pf_rings::{NewStar, Ring, Rings, Star, renamed_name};
use std::alloc::Global;

/// What a seat keeps, lent.
#[derive(Drop)]
pub struct Lens<'s> {
    seat: &'s BoardSeat,
}

impl Rings for Lens<'_> {
    ghost use Rattle.pf_locks.specs.Lists.{lent_in};

    ghost lent = { λ l. lent_in l.seat.now.kept.items };

    fn ring(&self, n: u32) -> Option<Ring<'_>> {
        match self.seat.kept(n) {
            Some(star) => Some(Ring::of(star)),
            None => None,
        }
    }
}

// Whether the star of the node is lent.
fn lends(s: &BoardSeat, n: u32) -> bool
    ensures { result ≡ is_some (lent_in s.now.kept.items n) }
{
    s.kept(n).is_some()
}

// The first condition that a bisection fails.
fn bisection_judged(board: &Board, s: &BoardSeat, chunk: u16, a: u32, b: u32) -> Option<Cond>
    ensures { result ≡ judged (lent_in s.now.kept.items) board.now.table.shared.key.mesh.bands chunk (Bisect a b) }
{
    pf_bisect::judge(&Lens { seat: s }, &board.bands, chunk, a, b)
}

// The first condition that a contraction of a node that is lent fails.
fn contraction_judged(board: &Board, s: &BoardSeat, chunk: u16, u: u32, v: u32) -> Option<Cond>
    requires seat { IsSeat board.now.table.shared.key s.now }
    requires lends { IsLending s.now }
    requires lent { is_some (lent_in s.now.kept.items u) ≡ true }
    ensures { result ≡ judged (lent_in s.now.kept.items) board.now.table.shared.key.mesh.bands chunk (Contract u v) }
{
    pf_contract::judge(&Lens { seat: s }, &board.bands, chunk, u, v)
}

// Whether a bisection or a contraction passes.
fn passes(board: &Board, s: &BoardSeat, chunk: u16, op: Op) -> bool
    requires seat { IsSeat board.now.table.shared.key s.now }
    requires lends { IsLending s.now }
    ensures { result ≡ true → judged (lent_in s.now.kept.items) board.now.table.shared.key.mesh.bands chunk op ≡ None }
{
    match op {
        Op::Flip { a: _, b: _ } => false,
        Op::Bisect { a, b } => bisection_judged(board, s, chunk, a, b).is_none(),
        Op::Contract { u, v } => {
            if lends(s, u) {
                return contraction_judged(board, s, chunk, u, v).is_none();
            }
            false
        }
    }
}

// Whether the operation passes, and its cavity is held.
fn can_make(board: &Board, s: &BoardSeat, chunk: u16, op: Op) -> bool
    requires seat { IsSeat board.now.table.shared.key s.now }
    requires lends { IsLending s.now }
    ensures { result ≡ true → CanCommit s.now.seat.me.0 chunk op }
{
    match need(&Lens { seat: s }, op) {
        Need::Whole => passes(board, s, chunk, op),
        Need::Hold { node: _ } => false,
    }
}

// The copies of a node after an operation, and none of one without a star.
fn copies_for(alloc: Global, star: &Option<Star>, chunks: u16) -> Result<Sharers, NoMemory>
    ensures { IfOk result (λ l. l ≡ sharers_in chunks star.now) }
{
    match star {
        Some(s) => sharers_of(alloc, s, chunks),
        None => Ok(Sharers::none(alloc)),
    }
}

// The lists of these nodes.
fn lists_for(alloc: Global, fresh: &[NewStar], chunks: u16) -> Result<Vec<Listed>, NoMemory>
    ensures { IfOk result (λ v. v.items ≡ ready_of chunks fresh.now) }
{
    let mut lists = Vec::new(alloc);
    for h in fresh {
        let list = copies_for(alloc, &h.star, chunks)?;
        lists
            .push(Listed { node: h.node, list })
            .map_err(|_| NoMemory)?;
    }
    Ok(lists)
}

// The lists of copies that the operation owes.
fn readied(
    alloc: Global,
    board: &Board,
    s: &BoardSeat,
    chunk: u16,
    op: Op,
) -> Result<Vec<Listed>, NoMemory>
    requires seat { IsSeat board.now.table.shared.key s.now }
    requires lends { IsLending s.now }
    requires can { CanCommit s.now.seat.me.0 chunk op }
    ensures { IfOk result (λ v. IsReady (lent_in s.now.kept.items) board.now.table.shared.key.mesh.chunks op v.items) }
{
    let _ = chunk;
    let fresh = patch(alloc, &Lens { seat: s }, op)?;
    let lists = lists_for(alloc, &fresh, board.chunks)?;
    Ok(lists)
}

// Whether the node is kept.
fn keeps(kept: &[Kept], n: u32) -> bool
    ensures { result ≡ is_kept kept.now n }
{
    for k in kept {
        if k.node == n {
            return true;
        }
    }
    false
}

// How many copies are kept of the node.
fn copies_of(kept: &[Kept], n: u32) -> usize
    ensures { result ≡ length (list_in kept.now n) }
{
    for k in kept {
        if k.node == n {
            return k.list.list().len();
        }
    }
    0
}

// Puts one list, where its node is held.
fn put_listed(board: &Board, s: &mut BoardSeat, listed: Listed, name: u32) -> bool
    requires board { s.old.seat.table_id ≡ board.now.table.shared.table_id }
    requires seat { IsSeat board.now.table.shared.key s.old }
    ensures board { s.new.seat.table_id ≡ s.old.seat.table_id }
    ensures seat { IsSeat board.now.table.shared.key s.new }
    ensures view { s.new.seat.me.0 ≡ s.old.seat.me.0 }
    ensures list { result ≡ true → (n : ℕ) → list_in s.new.kept.items n ≡ put_at name listed (list_in s.old.kept.items) n }
{
    let Listed { node, mut list } = listed;
    list.rename(u32::MAX, name);
    let node = renamed_name(u32::MAX, name, node);
    if !keeps(&s.kept, node) {
        return false;
    }
    let _ = board.swap_sharers(s, node, list);
    true
}

// Puts each list, with the name in the new node's place, where each node is held.
fn put_all(board: &Board, s: &mut BoardSeat, ready: Vec<Listed>, name: u32) -> bool
    requires board { s.old.seat.table_id ≡ board.now.table.shared.table_id }
    requires seat { IsSeat board.now.table.shared.key s.old }
    ensures board { s.new.seat.table_id ≡ s.old.seat.table_id }
    ensures seat { IsSeat board.now.table.shared.key s.new }
    ensures view { s.new.seat.me.0 ≡ s.old.seat.me.0 }
    ensures lists { result ≡ true → (n : ℕ) → list_in s.new.kept.items n ≡ spread_at name ready.items (list_in s.old.kept.items) n }
{
    let mut lists = ready;
    'puts: while let Some(listed) = lists.pop() {
        if !put_listed(board, s, listed, name) {
            return false;
        }
    }
    true
}

// Whether the operation makes a node.
fn makes_one(op: Op) -> bool
    ensures { result ≡ cavity.makes_node op }
{
    match op {
        Op::Bisect { a: _, b: _ } => true,
        _ => false,
    }
}

/// Tries for a node, where the seat doesn't hold it and has room.
pub fn hold(board: &Board, s: &mut BoardSeat, n: u32) -> Option<Hold>
    requires board { s.old.seat.table_id ≡ board.now.table.shared.table_id }
    requires seat { IsSeat board.now.table.shared.key s.old }
    requires lends { IsLending s.old }
    ensures board { s.new.seat.table_id ≡ s.old.seat.table_id }
    ensures seat { IsSeat board.now.table.shared.key s.new }
    ensures lends { IsLending s.new }
{
    if s.kept.len() >= 65 || lends(s, n) {
        return None;
    }
    Some(board.try_lock(s, n))
}

/// Tries for each of these nodes, and says whether it won them all.
pub fn hold_all(board: &Board, s: &mut BoardSeat, nodes: &[u32]) -> bool
    requires board { s.old.seat.table_id ≡ board.now.table.shared.table_id }
    requires seat { IsSeat board.now.table.shared.key s.old }
    requires lends { IsLending s.old }
    ensures board { s.new.seat.table_id ≡ s.old.seat.table_id }
    ensures seat { IsSeat board.now.table.shared.key s.new }
    ensures lends { IsLending s.new }
{
    let mut all = true;
    for n in nodes {
        let found = hold(board, s, *n);
        all = all && found == Some(Hold::Won);
    }
    all
}

/// Reads the count of tickets.
pub fn count(board: &Board, s: &mut BoardSeat) -> u32
    requires board { s.old.seat.table_id ≡ board.now.table.shared.table_id }
    requires seat { IsSeat board.now.table.shared.key s.old }
    requires lends { IsLending s.old }
    ensures board { s.new.seat.table_id ≡ s.old.seat.table_id }
    ensures seat { IsSeat board.now.table.shared.key s.new }
    ensures lends { IsLending s.new }
{
    board.note(s, None)
}

// The first condition that a bisection fails, where its ends are held.
fn asked(board: &Board, s: &BoardSeat, chunk: u16, a: u32, b: u32) -> Option<Cond>
    requires seat { IsSeat board.now.table.shared.key s.now }
    requires lends { IsLending s.now }
    ensures { IfSome result (λ cond. IsViewJudged s.now.seat.me.0 chunk (Bisect a b) (Some cond)) }
{
    if !lends(s, a) {
        return None;
    }
    if !lends(s, b) {
        return None;
    }
    bisection_judged(board, s, chunk, a, b)
}

/// Asks of a bisection, whose ends are held. Where it fails, that is noted, with the count of tickets.
pub fn ask(board: &Board, s: &mut BoardSeat, chunk: u16, a: u32, b: u32) -> Option<(u32, Cond)>
    requires board { s.old.seat.table_id ≡ board.now.table.shared.table_id }
    requires seat { IsSeat board.now.table.shared.key s.old }
    requires lends { IsLending s.old }
    ensures board { s.new.seat.table_id ≡ s.old.seat.table_id }
    ensures seat { IsSeat board.now.table.shared.key s.new }
    ensures lends { IsLending s.new }
{
    match asked(board, s, chunk, a, b) {
        Some(cond) => {
            let op = Op::Bisect { a, b };
            let at = board.note(s, Some(Asked { chunk, op }));
            Some((at, cond))
        }
        None => None,
    }
}

/// Makes a bisection or a contraction that passes, and whose cavity is held: draws its ticket, puts the lists of
/// copies that are due, and lets the new node be born. `None` where it doesn't pass, or its cavity isn't held.
pub fn make(
    alloc: Global,
    board: &Board,
    s: &mut BoardSeat,
    chunk: u16,
    op: Op,
) -> Result<Option<u32>, NoMemory>
    requires board { s.old.seat.table_id ≡ board.now.table.shared.table_id }
    requires seat { IsSeat board.now.table.shared.key s.old }
    requires lends { IsLending s.old }
    ensures board { s.new.seat.table_id ≡ s.old.seat.table_id }
    ensures seat { IsSeat board.now.table.shared.key s.new }
    ensures paid { IfOk result (λ r. IfSome r (λ _. IsPaid s.new)) }
{
    if s.allowance() == 0 || s.kept.len() >= 66 || !can_make(board, s, chunk, op) {
        return Ok(None);
    }
    spread_puts_due();
    let ready = readied(alloc, board, s, chunk, op)?;
    let ticket = board.commit(s, chunk, op);
    let name = board.first_new + ticket;
    if !put_all(board, s, ready, name) {
        return Ok(None);
    }
    if makes_one(op) {
        if !keeps(&s.kept, name) {
            return Ok(None);
        }
        board.birth(s, name);
    }
    Ok(Some(ticket))
}

/// Gives back a node, and says whether it was held.
pub fn give(board: &Board, s: &mut BoardSeat, n: u32) -> bool
    requires board { s.old.seat.table_id ≡ board.now.table.shared.table_id }
    requires seat { IsSeat board.now.table.shared.key s.old }
    requires paid { IsPaid s.old }
    ensures board { s.new.seat.table_id ≡ s.old.seat.table_id }
    ensures seat { IsSeat board.now.table.shared.key s.new }
    ensures paid { IsPaid s.new }
{
    if !keeps(&s.kept, n) {
        return false;
    }
    if copies_of(&s.kept, n) == 0 {
        board.bury(s, n);
    } else {
        board.release(s, n);
    }
    true
}

/// Gives back each of these nodes, and says whether the seat then holds nothing.
pub fn give_all(board: &Board, s: &mut BoardSeat, nodes: &[u32]) -> bool
    requires board { s.old.seat.table_id ≡ board.now.table.shared.table_id }
    requires seat { IsSeat board.now.table.shared.key s.old }
    requires paid { IsPaid s.old }
    ensures board { s.new.seat.table_id ≡ s.old.seat.table_id }
    ensures seat { IsSeat board.now.table.shared.key s.new }
    ensures lends { result ≡ true → IsLending s.new }
{
    for n in nodes {
        give(board, s, *n);
    }
    s.kept.len() == 0
}

/// Makes an operation, and gives back each of these nodes, which are all that is held then.
pub fn make_and_give(
    alloc: Global,
    board: &Board,
    s: &mut BoardSeat,
    op: Op,
    nodes: &[u32],
) -> Result<Option<u32>, NoMemory>
    requires board { s.old.seat.table_id ≡ board.now.table.shared.table_id }
    requires seat { IsSeat board.now.table.shared.key s.old }
    requires lends { IsLending s.old }
    ensures board { s.new.seat.table_id ≡ s.old.seat.table_id }
    ensures seat { IsSeat board.now.table.shared.key s.new }
    ensures lends { IfOk result (λ r. IfSome r (λ _. IsLending s.new)) }
{
    let Some(ticket) = make(alloc, board, s, 0, op)? else {
        return Ok(None);
    };
    if !give_all(board, s, nodes) {
        return Ok(None);
    }
    Ok(Some(ticket))
}

/// A board of a mesh, and its first seat.
pub fn open(
    alloc: Global,
    mesh: &Mesh,
    budget: u32,
    workers: u32,
) -> Result<(Board, BoardSeat), NoMemory>
    requires workers { (1 ≤ workers) × (workers ≤ 64) }
    requires fresh { IsFresh mesh.now.mesh 0 }
    requires small { mesh.now.mesh.first_new + budget ≤ 1048576 }
    ensures board { IfOk result (λ r. r.1.seat.table_id ≡ r.0.table.shared.table_id) }
    ensures seat { IfOk result (λ r. IsSeat r.0.table.shared.key r.1) }
    ensures lends { IfOk result (λ r. IsLending r.1) }
{
    let (board, seat) = Board::new(alloc, mesh, budget, workers)?;
    Ok((board, seat))
}

// Whether one of the flags is set but for this one.
fn has_spare(flags: &[bool; 64], own: u32) -> bool
    ensures { result ≡ true → (k : ℕ) × (flag_at flags.now k ≡ true) × (k ≢ own) }
{
    for k in 0..64 {
        if flags[k as usize] && k != own {
            return true;
        }
    }
    false
}

/// A new seat with this share of the allowance, where the seat holds nothing, and has a spare number and the share.
pub fn split(
    alloc: Global,
    board: &Board,
    s: &mut BoardSeat,
    share: u32,
) -> Result<Option<BoardSeat>, NoMemory>
    requires board { s.old.seat.table_id ≡ board.now.table.shared.table_id }
    requires seat { IsSeat board.now.table.shared.key s.old }
    requires lends { IsLending s.old }
    ensures board { s.new.seat.table_id ≡ s.old.seat.table_id }
    ensures other { IfOk result (λ o. IfSome o (λ r. r.seat.table_id ≡ s.old.seat.table_id)) }
    ensures seat { IsSeat board.now.table.shared.key s.new }
    ensures made { IfOk result (λ o. IfSome o (λ r. IsSeat board.now.table.shared.key r × IsLending r)) }
    ensures lends { IsLending s.new }
{
    if s.kept.len() > 0 || share > s.allowance() || !has_spare(&s.numbers, s.number) {
        return Ok(None);
    }
    let other = board.split_seat(alloc, s, share)?;
    Ok(Some(other))
}

/// Joins a seat to another, where both hold nothing, and says whether it did.
pub fn join(board: &Board, s: &mut BoardSeat, other: BoardSeat) -> bool
    requires board { s.old.seat.table_id ≡ board.now.table.shared.table_id }
    requires other { other.seat.table_id ≡ board.now.table.shared.table_id }
    requires seat { IsSeat board.now.table.shared.key s.old }
    requires second { IsSeat board.now.table.shared.key other }
    requires lends { IsLending s.old }
    ensures board { s.new.seat.table_id ≡ s.old.seat.table_id }
    ensures seat { IsSeat board.now.table.shared.key s.new }
    ensures lends { IsLending s.new }
{
    if s.kept.len() > 0 || other.kept.len() > 0 {
        return false;
    }
    board.join_seat(s, other);
    true
}

/// What the board has at its end, where the seat has all numbers and holds nothing.
pub fn closed(alloc: Global, board: Board, s: BoardSeat) -> Option<Closed>
    requires board { s.seat.table_id ≡ board.table.shared.table_id }
    requires seat { IsSeat board.table.shared.key s }
    requires lends { IsLending s }
{
    if s.kept.len() > 0 || !s.alone() {
        return None;
    }
    match board.close(alloc, s) {
        Ok(closed) => Some(closed),
        Err(_) => None,
    }
}
