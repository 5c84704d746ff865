//! A seat of a board in a hand.
ghost use Rattle.std.specs.Prelude.{◌≡◌, ◌≢◌, ℕ, ◌<◌, [], None, true, false};
ghost use Rattle.std.specs.Option.{option_map};
ghost use Rattle.pf_star_model.specs.Lent.{star_held};
ghost use Rattle.pf_locks.specs.Lists.{lent_in};
ghost use Rattle.pf_locks.specs.Seats.{IsSeat};
ghost use Rattle.pf_hand.specs.Hands.{IsHand, lent_pairs};

use crate::free::free_all;
use crate::make::make;
use pf_core_model::Asked;
use pf_ghost::Ready;
use pf_holder::{Hold, Holder};
use pf_locks::{Board, BoardSeat};
use pf_model::{Band, Op};
use pf_rings::{Ring, Rings};

/// A seat of a board, with which nodes are held. It lends the star of each node that it holds, until an operation
/// is committed.
#[derive(Drop)]
pub struct Hand<'b> {
    /// The board.
    pub board: &'b Board,
    /// The seat.
    pub seat: BoardSeat,
    // Whether an operation was committed since it held nothing.
    pub(crate) changed: bool,
    ghost of: { seat.seat.table_id ≡ board.now.table.shared.table_id },
    ghost fits: { ∥ IsHand board.now.table.shared.key seat changed ∥₁ },
}

impl<'b> Hand<'b> {
    ghost use Rattle.std.specs.Prelude.{◌≡◌, [], None};
    ghost use Rattle.pf_star_model.specs.Lent.{star_held};
    ghost use Rattle.pf_holder.specs.Facts.{LendsAll};
    ghost use Rattle.pf_locks.specs.Seats.{IsSeat};
    ghost use Rattle.pf_hand.specs.Hands.{IsHand, lent_pairs};

    // What is known of the seat. A hand has no more than that there is a proof of it, and this opens it.
    fn known(&self)
        ensures { IsHand self.now.board.now.table.shared.key self.now.seat self.now.changed }
    {}

    /// The hand of a seat of this board that holds nothing. It takes no memory.
    pub fn new(board: &'b Board, seat: BoardSeat) -> Hand<'b>
        requires board { seat.seat.table_id ≡ board.now.table.shared.table_id }
        requires seat { IsSeat board.now.table.shared.key seat }
        requires nothing { seat.seat.me.0.held ≡ [] }
        requires clear { seat.seat.me.0.unborn ≡ None }
        ensures board { result.board ≡ board.entry }
        ensures seat { result.seat ≡ seat }
        ensures lends { LendsAll (star_held (lent_pairs result.changed result.seat.seat.me.0.held)) result.seat.seat.me.0.held }
    {
        Hand {
            board,
            seat,
            changed: false,
        }
    }

    /// The seat again, which holds nothing.
    pub fn fold(self) -> BoardSeat
        requires nothing { self.seat.seat.me.0.held ≡ [] }
        ensures value { result ≡ self.entry.seat }
        ensures board { result.seat.table_id ≡ self.entry.board.now.table.shared.table_id }
        ensures seat { IsSeat self.entry.board.now.table.shared.key result }
        ensures clear { result.seat.me.0.unborn ≡ None }
    {
        self.known();
        let Hand {
            board: _,
            seat,
            changed: _,
        } = self;
        seat
    }
}

impl Rings for Hand<'_> {
    ghost use Rattle.pf_star_model.specs.Lent.{star_held};
    ghost use Rattle.pf_hand.specs.Hands.{lent_pairs};

    ghost lent = { λ h. star_held (lent_pairs h.changed h.seat.seat.me.0.held) };

    fn ring(&self, n: u32) -> Option<Ring<'_>> {
        if self.changed {
            return None;
        }
        self.known();
        match self.seat.kept(n) {
            Some(star) => Some(Ring::of(star)),
            None => None,
        }
    }
}

impl Holder for Hand<'_> {
    ghost use Rattle.std.specs.Prelude.{◌≡◌, ℕ, ◌<◌, [], List, refl};
    ghost use Rattle.std.proofs.Common.{◌∙◌, sym, ap};
    ghost use Rattle.pf_core_model.specs.Guards.{IsAlone};
    ghost use Rattle.pf_hand.specs.Later.{IsLater, GainedIn, later_self, later_then, later_stays, later_since, later_alone};
    ghost use Rattle.pf_hand.specs.HandLaws.{agrees_merely, near_merely, knows_merely};

    ghost opening = { λ h. h.board.now.table.shared.key };

    ghost seen_at = { λ h. h.seat.seat.me.0.seen };

    ghost allowance = { λ h. h.seat.seat.me.0.allowance };

    ghost pairs = { λ h. h.seat.seat.me.0.held };

    ghost unborn = { λ h. h.seat.seat.me.0.unborn };

    ghost owed = { λ h. [] };

    ghost entries = { λ h. h.seat.seat.me.0.entries };

    ghost alone = { λ h. IsAlone h.seat.seat.me.0 };

    ghost same = { λ g h. (g.board ≡ h.board) × IsLater g.seat.seat.me.0 h.seat.seat.me.0 };

    ghost gained = { λ g h x. GainedIn g.seat.seat.me.0 h.seat.seat.me.0 x };

    fn held(&self) -> usize {
        self.known();
        self.seat.kept.len()
    }

    fn allow(&self) -> u32 {
        self.known();
        self.seat.allowance
    }

    fn seen(&self) -> u32 {
        self.known();
        self.seat.seen
    }

    fn first_new(&self) -> u32 {
        self.board.first_new
    }

    fn bands(&self) -> &[Band] {
        &self.board.bands
    }

    fn chunks(&self) -> u16 {
        self.board.chunks
    }

    fn hold(&mut self, n: u32) -> Hold {
        self.known();
        self.board.try_lock(&mut self.seat, n)
    }

    fn note(&mut self, asked: Option<Asked>) -> u32 {
        self.known();
        self.board.note(&mut self.seat, asked)
    }

    fn commit(&mut self, chunk: u16, op: Op, ready: Ready) -> u32 {
        self.known();
        let ticket = make(self.board, &mut self.seat, chunk, op, ready);
        self.changed = true;
        ticket
    }

    fn give_back(&mut self) {
        self.known();
        free_all(self.board, &mut self.seat);
        self.changed = false;
    }

    ghost same_self = { λ h. (refl, later_self h.seat.seat.me.0) };

    ghost same_then = { λ a b c s t. (s.0 ∙ t.0, later_then a.seat.seat.me.0 b.seat.seat.me.0 c.seat.seat.me.0 s.1 t.1) };

    ghost same_opening = { λ a b s. sym (ap (λ x. x.now.table.shared.key) s.0) };

    ghost same_alone = { λ a b s h. later_alone a.seat.seat.me.0 b.seat.seat.me.0 s.1 h };

    ghost gained_stays = { λ a b c x g s. later_stays a.seat.seat.me.0 b.seat.seat.me.0 c.seat.seat.me.0 x g s.1 };

    ghost gained_since = { λ a b c x s g. later_since a.seat.seat.me.0 b.seat.seat.me.0 c.seat.seat.me.0 x s.1 g };

    ghost pairs_agree = { λ h. agrees_merely h.board.now.table.shared.key h.seat h.changed h.fits };

    ghost pairs_near = { λ h n i. near_merely h.board.now.table.shared.key h.seat h.changed h.fits n i };

    ghost alone_knows = { λ h a. knows_merely h.board.now.table.shared.key h.seat h.changed h.fits a };
}
