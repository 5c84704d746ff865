//! The board and its steps.
ghost use Rattle.std.specs.Prelude.{◌≡◌, ◌≢◌, ℕ, ◌+◌, ◌<◌, ◌≤◌, ◌^◌, [], ◌∷◌, length, true, Some, None, IfOk, OnErr, vec_capacity};
ghost use Rattle.std.specs.FinMap as map;
ghost use mathlib.Core.Option.{none};
ghost use Rattle.atomic_table.specs.Table.{rest, step};
ghost use Rattle.pf_model.specs.Stars.{Star};
ghost use Rattle.pf_core_model.specs.Lists.{In};
ghost use Rattle.pf_core_model.specs.Cavity.{makes_node};
ghost use Rattle.pf_core_model.specs.Sharers.{sharers_in};
ghost use Rattle.pf_core_model.specs.Moves.{left_of, right_of, both_of, born, released, spares_in};
ghost use Rattle.pf_core_model.specs.Core.{names_of, held_by, number_of, nodes_of};
ghost use Rattle.pf_core_model.specs.Guards.{IsAlone, IsViewJudged};
ghost use Rattle.pf_board_steps.specs.Plays.{Tries, Frees, Births, Notes, CanCommit, IsHeldNeighbour};
ghost use Rattle.pf_locks.specs.Told.{Looks, FailsNoted, DrawsFor};
ghost use Rattle.pf_locks.specs.Turned.{rotated};
ghost use Rattle.pf_locks.specs.Lists.{names_in, list_in, lent_in, slots_of};
ghost use Rattle.pf_locks.specs.Seats.{IsSeat, KeepsLists, PutsList, DropsList, TellsTry, TellsAlone, IsAskable, TellsNote, TellsCount, TellsCommit, NotesCount, HoldsLive, IsTaken, IsSameBeside, IsLeastSpare, TellsSplit};

use crate::kept::{Kept, index_of, put_list, take_list};
use crate::rule::{About, Born, Both, Commit, Free, Look, Note, Part, Refuse, Sound, Start, Try};
use crate::seat::{BoardSeat, least_spare, only, put_flag, set_too};
use atomic_table::{Seat, Table};
use pf_core_model::{Asked, View};
use pf_entries::Entries;
use pf_geom::NoMemory;
use pf_ghost::Sharers;
use pf_holder::Hold;
use pf_model::{Band, Entry, Op};
use std::alloc::Global;
use std::marker::Brand;

/// The locks of the nodes, the count of tickets, and the copies.
#[derive(Drop)]
pub struct Board {
    /// The words, and the slots of the copies.
    pub table: Table<Sharers, View, Start, Sound, Global>,
    /// How many names there are.
    pub names: usize,
    /// The first name that is given to a new node.
    pub first_new: u32,
    /// The number of chunks.
    pub chunks: u16,
    /// The rows of the size table, with the default last.
    pub bands: Vec<Band>,
    /// Where empty lists come from. They take no memory.
    pub alloc: Global,
    ghost names_are: { names ≡ names_of table.shared.key },
    ghost words_are: { table.shared.table_id.words ≡ names + 1 },
    ghost slots_are: { table.shared.table_id.slots ≡ names },
    ghost first_is: { first_new ≡ table.shared.key.mesh.first_new },
    ghost chunks_are: { chunks ≡ table.shared.key.mesh.chunks },
    ghost bands_are: { bands.items ≡ table.shared.key.mesh.bands },
}

// The slots in hand, turned so many times.
pub fn turn_slots(seat: &mut Seat<Sharers, View>, k: usize)
    ensures { (seat.new.table_id ≡ seat.old.table_id) × (seat.new.id ≡ seat.old.id) × (seat.new.me ≡ (seat.old.me.0, rotated k seat.old.me.1)) }
{
    for _ in 0..k {
        seat.turn();
    }
}

// Whether the operation makes a node.
fn makes_one(op: Op) -> bool
    ensures { result ≡ makes_node op }
{
    match op {
        Op::Bisect { a: _, b: _ } => true,
        _ => false,
    }
}

impl Board {
    // Exchanges the list in the slot that was taken last. Nothing else reads or writes a slot.
    fn exchange(&self, seat: &mut Seat<Sharers, View>, n: usize, list: Sharers) -> Sharers
        requires board { seat.old.table_id ≡ self.now.table.shared.table_id }
        requires front { (old : _) × (seat.old.me.1 ≡ (n, old) ∷ rest seat.old.me.1) }
        ensures board { seat.new.table_id ≡ seat.old.table_id }
        ensures old { seat.old.me.1 ≡ (n, result) ∷ rest seat.old.me.1 }
        ensures new { seat.new.me ≡ (seat.old.me.0, (n, list) ∷ rest seat.old.me.1) }
    {
        self.table.shared.exchange(seat, n, list)
    }

    // One try for a word that is free.
    fn try_word<J: About>(&self, seat: &mut Seat<Sharers, View>, number: u32, n: usize) -> u64
        requires opening { J.opening ≡ self.now.table.shared.key }
        requires board { seat.old.table_id ≡ self.now.table.shared.table_id }
        requires near { n < self.now.names }
        requires number { number ≡ number_of seat.old.me.0 }
        requires acts { seat.old.me.0.numbers ≢ [] }
        requires clear { seat.old.me.0.unborn ≡ None }
        requires away { In n (nodes_of seat.old.me.0) → ⊥ }
        ensures board { seat.new.table_id ≡ seat.old.table_id }
        ensures told { Tries self.now.table.shared.key (step self.now.table.shared.table_id.slots n 0 (held_by number) none) seat.old.me result seat.new.me }
    {
        self.table
            .shared
            .compare_exchange::<Try<J>>(seat, n, 0, number as u64 + 3)
    }

    // The count of tickets, and a mark.
    fn load_note<J: About>(&self, seat: &mut Seat<Sharers, View>) -> u64
        requires opening { J.opening ≡ self.now.table.shared.key }
        requires board { seat.old.table_id ≡ self.now.table.shared.table_id }
        requires acts { seat.old.me.0.numbers ≢ [] }
        ensures board { seat.new.table_id ≡ seat.old.table_id }
        ensures told { Notes self.now.table.shared.key (step self.now.table.shared.table_id.slots self.now.names 0 0 none) seat.old.me result seat.new.me }
    {
        self.table.shared.load::<Note<J>>(seat, self.names)
    }

    // The count of tickets, a mark, and the refusal of an operation, which fails.
    fn load_refusal<J: About>(&self, seat: &mut Seat<Sharers, View>, q: Asked) -> u64
        requires opening { J.opening ≡ self.now.table.shared.key }
        requires asked { (J.entry.chunk ≡ q.chunk) × (J.entry.op ≡ q.op) }
        requires board { seat.old.table_id ≡ self.now.table.shared.table_id }
        requires acts { seat.old.me.0.numbers ≢ [] }
        requires fails { IsAskable seat.old.me.0 (Some q) }
        ensures board { seat.new.table_id ≡ seat.old.table_id }
        ensures told { FailsNoted self.now.table.shared.key (record { ticket = 0; chunk = q.chunk; op = q.op }) (step self.now.table.shared.table_id.slots self.now.names 0 0 none) seat.old.me result seat.new.me }
    {
        let _ = q;
        self.table.shared.load::<Refuse<J>>(seat, self.names)
    }

    // The count of tickets, a mark, and the refusal of what is asked.
    fn count(&self, seat: &mut Seat<Sharers, View>, asked: Option<Asked>) -> u64
        requires board { seat.old.table_id ≡ self.now.table.shared.table_id }
        requires acts { seat.old.me.0.numbers ≢ [] }
        requires fails { IsAskable seat.old.me.0 asked }
        ensures board { seat.new.table_id ≡ seat.old.table_id }
        ensures told { NotesCount self.now.table.shared.key seat.old.me result seat.new.me asked }
    {
        match asked {
            None => self.load_note::<Brand>(seat),
            Some(q) => self.load_refusal::<Brand>(seat, q),
        }
    }

    // The count of tickets, while the view stays.
    fn look<J: About>(&self, seat: &mut Seat<Sharers, View>)
        requires opening { J.opening ≡ self.now.table.shared.key }
        requires board { seat.old.table_id ≡ self.now.table.shared.table_id }
        requires acts { seat.old.me.0.numbers ≢ [] }
        ensures board { seat.new.table_id ≡ seat.old.table_id }
        ensures told { (found : ℕ) × Looks self.now.table.shared.key (step self.now.table.shared.table_id.slots self.now.names 0 0 none) seat.old.me found seat.new.me }
    {
        self.table.shared.load::<Look<J>>(seat, self.names);
    }

    // Draws a ticket for an operation.
    fn draw<J: About>(&self, seat: &mut Seat<Sharers, View>, chunk: u16, op: Op) -> u64
        requires opening { J.opening ≡ self.now.table.shared.key }
        requires asked { J.entry ≡ record { ticket = 0; chunk = chunk; op = op } }
        requires board { seat.old.table_id ≡ self.now.table.shared.table_id }
        requires acts { seat.old.me.0.numbers ≢ [] }
        requires clear { seat.old.me.0.unborn ≡ None }
        requires rich { 0 < seat.old.me.0.allowance }
        requires makes { CanCommit seat.old.me.0 chunk op }
        ensures board { seat.new.table_id ≡ seat.old.table_id }
        ensures told { DrawsFor self.now.table.shared.key (record { ticket = 0; chunk = chunk; op = op }) (step self.now.table.shared.table_id.slots self.now.names 1 0 none) seat.old.me result seat.new.me }
    {
        let _ = (chunk, op);
        self.table
            .shared
            .fetch_add::<Commit<J>>(seat, self.names, 1)
    }

    // Writes the number into the word of the unborn node.
    fn bear<J: About>(&self, seat: &mut Seat<Sharers, View>, number: u32, n: usize)
        requires opening { J.opening ≡ self.now.table.shared.key }
        requires board { seat.old.table_id ≡ self.now.table.shared.table_id }
        requires near { n < self.now.names }
        requires number { number ≡ number_of seat.old.me.0 }
        requires unborn { seat.old.me.0.unborn ≡ Some n }
        ensures board { seat.new.table_id ≡ seat.old.table_id }
        ensures told { Births self.now.table.shared.key (step self.now.table.shared.table_id.slots n (held_by number) 0 none) seat.old.me (held_by number) seat.new.me }
    {
        self.table
            .shared
            .store::<Born<J>>(seat, n, number as u64 + 3)
    }

    // Frees the word of a live node, whose slot was taken last.
    fn free_word<J: About>(&self, seat: &mut Seat<Sharers, View>, n: usize)
        requires opening { J.opening ≡ self.now.table.shared.key }
        requires board { seat.old.table_id ≡ self.now.table.shared.table_id }
        requires near { n < self.now.names }
        requires acts { seat.old.me.0.numbers ≢ [] }
        requires clear { seat.old.me.0.unborn ≡ None }
        requires whole { (star : Star) × In (record { node = n; star = Some star }) seat.old.me.0.held × (seat.old.me.1 ≡ (n, sharers_in seat.old.me.0.chunks (Some star)) ∷ rest seat.old.me.1) }
        ensures board { seat.new.table_id ≡ seat.old.table_id }
        ensures told { Frees self.now.table.shared.key (step self.now.table.shared.table_id.slots n 0 0 none) seat.old.me 0 seat.new.me }
    {
        self.table.shared.store::<Free<J>>(seat, n, 0)
    }

    // Writes into the word of a node that isn't live that it is dead. Its slot was taken last.
    fn bury_word<J: About>(&self, seat: &mut Seat<Sharers, View>, n: usize)
        requires opening { J.opening ≡ self.now.table.shared.key }
        requires board { seat.old.table_id ≡ self.now.table.shared.table_id }
        requires near { n < self.now.names }
        requires clear { seat.old.me.0.unborn ≡ None }
        requires whole { In (record { node = n; star = None }) seat.old.me.0.held × (seat.old.me.1 ≡ (n, []) ∷ rest seat.old.me.1) }
        ensures board { seat.new.table_id ≡ seat.old.table_id }
        ensures told { Frees self.now.table.shared.key (step self.now.table.shared.table_id.slots n 1 0 none) seat.old.me 1 seat.new.me }
    {
        self.table.shared.store::<Free<J>>(seat, n, 1)
    }

    // Cuts a seat in two.
    fn part<J: About>(
        &self,
        seat: &mut Seat<Sharers, View>,
        number: u32,
        share: u32,
    ) -> Seat<Sharers, View>
        requires asked { (J.number ≡ number) × (J.share ≡ share) }
        requires board { seat.old.table_id ≡ self.now.table.shared.table_id }
        requires spare { In number (spares_in seat.old.me.0.numbers) }
        requires nothing { seat.old.me.0.held ≡ [] }
        requires rich { share ≤ seat.old.me.0.allowance }
        ensures board { (seat.new.table_id ≡ seat.old.table_id) × (result.table_id ≡ seat.old.table_id) }
        ensures told { (seat.new.me ≡ (left_of number share seat.old.me.0, seat.old.me.1)) × (result.me ≡ (right_of number share seat.old.me.0, [])) }
    {
        let _ = (number, share);
        self.table.shared.split_seat::<Part<J>>(seat)
    }

    // Joins a seat to another.
    fn unite(&self, seat: &mut Seat<Sharers, View>, other: Seat<Sharers, View>)
        requires board { (seat.old.table_id ≡ self.now.table.shared.table_id) × (other.table_id ≡ self.now.table.shared.table_id) }
        requires acts { seat.old.me.0.numbers ≢ [] }
        requires nothing { (other.me.0.held ≡ []) × (other.me.1 ≡ []) }
        ensures board { seat.new.table_id ≡ seat.old.table_id }
        ensures told { seat.new.me ≡ (both_of seat.old.me.0 other.me.0, seat.old.me.1) }
    {
        self.table.shared.join_seat::<Both>(seat, other)
    }

    /// Tries once for a node that the seat doesn't hold, while it holds fewer than 65 and none unborn. What is
    /// won is kept, and its star lent. `Never` comes too for a name that is none of the board's.
    pub fn try_lock(&self, s: &mut BoardSeat, n: u32) -> Hold
        requires board { s.old.seat.table_id ≡ self.now.table.shared.table_id }
        requires seat { IsSeat self.now.table.shared.key s.old }
        requires clear { s.old.seat.me.0.unborn ≡ None }
        requires away { In n (nodes_of s.old.seat.me.0) → ⊥ }
        requires few { length s.old.seat.me.0.held < 65 }
        ensures board { s.new.seat.table_id ≡ s.old.seat.table_id }
        ensures seat { IsSeat self.now.table.shared.key s.new }
        ensures told { TellsTry self.now.table.shared.key n s.old s.new result }
        ensures alone { IsAlone s.old.seat.me.0 → TellsAlone self.now.table.shared.key n s.old.seat.me.0 result }
    {
        let at = n as usize;
        if at >= self.names {
            return Hold::Never;
        }
        let found = self.try_word::<Brand>(&mut s.seat, s.number, at);
        if found == 0 {
            let list = self.exchange(&mut s.seat, at, Sharers::none(self.alloc));
            s.seat.turn();
            s.kept.push_reserved(Kept {
                node: n,
                list,
                lent: true,
            });
            Hold::Won
        } else if found == 1 {
            Hold::Dead
        } else if found == 2 {
            Hold::Never
        } else {
            Hold::Lost {
                holder: (found - 3) as u32,
            }
        }
    }

    /// The number of tickets that are drawn, which is seen then; a mark is made of what is held. What is asked
    /// fails, as what is held tells, and is refused at that number.
    pub fn note(&self, s: &mut BoardSeat, asked: Option<Asked>) -> u32
        requires board { s.old.seat.table_id ≡ self.now.table.shared.table_id }
        requires seat { IsSeat self.now.table.shared.key s.old }
        requires fails { IsAskable s.old.seat.me.0 asked }
        ensures board { s.new.seat.table_id ≡ s.old.seat.table_id }
        ensures seat { IsSeat self.now.table.shared.key s.new }
        ensures count { TellsCount self.now.table.shared.key s.old.seat.me.0 result }
        ensures told { TellsNote result s.old.seat.me.0 s.new.seat.me.0 asked }
        ensures kept { KeepsLists s.old s.new }
    {
        let count = self.count(&mut s.seat, asked) as u32;
        s.seen = count;
        count
    }

    /// Makes an operation that passes on the held stars, and whose cavity is held, and answers its ticket. No
    /// absent node is held, and fewer than 66 nodes where it makes one, which is held unborn with an empty list.
    pub fn commit(&self, s: &mut BoardSeat, chunk: u16, op: Op) -> u32
        requires board { s.old.seat.table_id ≡ self.now.table.shared.table_id }
        requires seat { IsSeat self.now.table.shared.key s.old }
        requires clear { s.old.seat.me.0.unborn ≡ None }
        requires live { HoldsLive s.old.seat.me.0 }
        requires rich { 0 < s.old.seat.me.0.allowance }
        requires makes { CanCommit s.old.seat.me.0 chunk op }
        requires few { makes_node op ≡ true → length s.old.seat.me.0.held < 66 }
        ensures board { s.new.seat.table_id ≡ s.old.seat.table_id }
        ensures seat { IsSeat self.now.table.shared.key s.new }
        ensures count { TellsCount self.now.table.shared.key s.old.seat.me.0 result }
        ensures told { TellsCommit self.now.table.shared.key result chunk op s.old s.new }
    {
        let ticket = self.draw::<Brand>(&mut s.seat, chunk, op) as u32;
        s.entries.add(Entry { ticket, chunk, op });
        s.allowance -= 1;
        s.seen = ticket + 1;
        if makes_one(op) {
            s.seat.turn();
            s.kept.push_reserved(Kept {
                node: self.first_new + ticket,
                list: Sharers::none(self.alloc),
                lent: false,
            });
        }
        ticket
    }

    /// The unborn node is held as any other.
    pub fn birth(&self, s: &mut BoardSeat, n: u32)
        requires board { s.old.seat.table_id ≡ self.now.table.shared.table_id }
        requires seat { IsSeat self.now.table.shared.key s.old }
        requires unborn { s.old.seat.me.0.unborn ≡ Some n }
        requires held { In n (nodes_of s.old.seat.me.0) }
        ensures board { s.new.seat.table_id ≡ s.old.seat.table_id }
        ensures seat { IsSeat self.now.table.shared.key s.new }
        ensures told { s.new.seat.me.0 ≡ born s.old.seat.me.0 }
        ensures kept { KeepsLists s.old s.new }
    {
        self.bear::<Brand>(&mut s.seat, s.number, n as usize);
    }

    /// Puts this list in the place of the copies of a node that the seat holds, and hands back what stood there.
    /// The seat then lends no star of the node.
    pub fn swap_sharers(&self, s: &mut BoardSeat, n: u32, list: Sharers) -> Sharers
        requires board { s.old.seat.table_id ≡ self.now.table.shared.table_id }
        requires seat { IsSeat self.now.table.shared.key s.old }
        requires held { In n (nodes_of s.old.seat.me.0) }
        ensures board { s.new.seat.table_id ≡ s.old.seat.table_id }
        ensures seat { IsSeat self.now.table.shared.key s.new }
        ensures result { result ≡ list_in s.old.kept.items n }
        ensures view { s.new.seat.me.0 ≡ s.old.seat.me.0 }
        ensures lists { PutsList n list None s.old s.new }
    {
        put_list(&mut s.kept, n, list)
    }

    // Puts the kept list of the node into its slot, which is brought to the front, and gives how many turns are
    // left to bring back the order of the slots.
    fn put_back(&self, s: &mut BoardSeat, n: u32) -> usize
        requires board { s.old.seat.table_id ≡ self.now.table.shared.table_id }
        requires slots { s.old.seat.me.1 ≡ slots_of s.old.kept.items }
        requires held { In n (names_in s.old.kept.items) }
        ensures board { s.new.seat.table_id ≡ s.old.seat.table_id }
        ensures view { s.new.seat.me.0 ≡ s.old.seat.me.0 }
        ensures front { s.new.seat.me.1 ≡ (n, list_in s.old.kept.items n) ∷ rest s.new.seat.me.1 }
        ensures left { rotated result (rest s.new.seat.me.1) ≡ slots_of s.new.kept.items }
        ensures kept { IsTaken n s.old s.new }
        ensures same { IsSameBeside s.old s.new }
    {
        let at = index_of(&s.kept, n);
        let list = take_list(&mut s.kept, at);
        turn_slots(&mut s.seat, at);
        self.exchange(&mut s.seat, n as usize, list);
        s.kept.len() - at
    }

    /// Frees a live node whose copies are all due.
    pub fn release(&self, s: &mut BoardSeat, n: u32)
        requires board { s.old.seat.table_id ≡ self.now.table.shared.table_id }
        requires seat { IsSeat self.now.table.shared.key s.old }
        requires clear { s.old.seat.me.0.unborn ≡ None }
        requires paid { (star : Star) × In (record { node = n; star = Some star }) s.old.seat.me.0.held × (list_in s.old.kept.items n ≡ sharers_in s.old.seat.me.0.chunks (Some star)) }
        ensures board { s.new.seat.table_id ≡ s.old.seat.table_id }
        ensures seat { IsSeat self.now.table.shared.key s.new }
        ensures told { s.new.seat.me.0 ≡ released s.old.seat.me.0 n }
        ensures kept { DropsList n s.old s.new }
    {
        let left = self.put_back(s, n);
        self.free_word::<Brand>(&mut s.seat, n as usize);
        turn_slots(&mut s.seat, left);
    }

    /// Gives up a node that is no longer live, and has no copy left.
    pub fn bury(&self, s: &mut BoardSeat, n: u32)
        requires board { s.old.seat.table_id ≡ self.now.table.shared.table_id }
        requires seat { IsSeat self.now.table.shared.key s.old }
        requires clear { s.old.seat.me.0.unborn ≡ None }
        requires paid { In (record { node = n; star = None }) s.old.seat.me.0.held × (list_in s.old.kept.items n ≡ []) }
        ensures board { s.new.seat.table_id ≡ s.old.seat.table_id }
        ensures seat { IsSeat self.now.table.shared.key s.new }
        ensures told { s.new.seat.me.0 ≡ released s.old.seat.me.0 n }
        ensures kept { DropsList n s.old s.new }
    {
        let left = self.put_back(s, n);
        self.bury_word::<Brand>(&mut s.seat, n as usize);
        turn_slots(&mut s.seat, left);
    }

    /// A new seat, with the least spare number and a share of the allowance, and with room for so many entries.
    /// The seat holds nothing. `NoMemory` leaves all as it was.
    pub fn split_seat(
        &self,
        alloc: Global,
        s: &mut BoardSeat,
        share: u32,
    ) -> Result<BoardSeat, NoMemory>
        requires board { s.old.seat.table_id ≡ self.now.table.shared.table_id }
        requires seat { IsSeat self.now.table.shared.key s.old }
        requires nothing { s.old.seat.me.0.held ≡ [] }
        requires spare { (k : ℕ) × In k (spares_in s.old.seat.me.0.numbers) }
        requires rich { share ≤ s.old.seat.me.0.allowance }
        ensures board { s.new.seat.table_id ≡ s.old.seat.table_id }
        ensures other { IfOk result (λ r. r.seat.table_id ≡ s.old.seat.table_id) }
        ensures seat { IsSeat self.now.table.shared.key s.new }
        ensures made { IfOk result (λ r. IsSeat self.now.table.shared.key r × TellsSplit share s.old s.new r) }
        ensures same { OnErr result (s.new ≡ s.old) }
    {
        let entries = Entries::new(alloc, share)?;
        let Ok(kept) = Vec::with_capacity(alloc, 66) else {
            return Err(NoMemory);
        };
        Ok(self.part_seat(s, share, entries, kept))
    }

    // Cuts a seat in two, with room for the entries and the lists of the new one.
    fn part_seat(
        &self,
        s: &mut BoardSeat,
        share: u32,
        entries: Entries,
        kept: Vec<Kept>,
    ) -> BoardSeat
        requires board { s.old.seat.table_id ≡ self.now.table.shared.table_id }
        requires seat { IsSeat self.now.table.shared.key s.old }
        requires nothing { s.old.seat.me.0.held ≡ [] }
        requires spare { (k : ℕ) × In k (spares_in s.old.seat.me.0.numbers) }
        requires rich { share ≤ s.old.seat.me.0.allowance }
        requires entries { (entries.entries ≡ map.empty) × (share ≤ entries.spare) }
        requires kept { (kept.items ≡ []) × (66 ≤ vec_capacity kept) }
        ensures board { (s.new.seat.table_id ≡ s.old.seat.table_id) × (result.seat.table_id ≡ s.old.seat.table_id) }
        ensures left { IsSeat self.now.table.shared.key s.new }
        ensures right { IsSeat self.now.table.shared.key result }
        ensures told { TellsSplit share s.old s.new result }
    {
        let number = least_spare(&s.numbers, s.number);
        let seat = self.part::<Brand>(&mut s.seat, number, share);
        put_flag(&mut s.numbers, number as usize, false);
        s.allowance -= share;
        BoardSeat {
            seat,
            number,
            workers: s.workers,
            numbers: only(number),
            allowance: share,
            seen: s.seen,
            entries,
            kept,
        }
    }

    /// Takes in all that another seat has and knows. Both hold nothing.
    pub fn join_seat(&self, s: &mut BoardSeat, other: BoardSeat)
        requires board { s.old.seat.table_id ≡ self.now.table.shared.table_id }
        requires other { other.seat.table_id ≡ self.now.table.shared.table_id }
        requires seat { IsSeat self.now.table.shared.key s.old }
        requires second { IsSeat self.now.table.shared.key other }
        requires nothing { (s.old.seat.me.0.held ≡ []) × (other.seat.me.0.held ≡ []) }
        ensures board { s.new.seat.table_id ≡ s.old.seat.table_id }
        ensures seat { IsSeat self.now.table.shared.key s.new }
        ensures told { s.new.seat.me.0 ≡ both_of s.old.seat.me.0 other.seat.me.0 }
    {
        let BoardSeat {
            seat,
            number: _,
            workers: _,
            numbers,
            allowance,
            seen,
            entries,
            kept: _,
        } = other;
        self.unite(&mut s.seat, seat);
        self.look::<Brand>(&mut s.seat);
        s.entries.join(entries);
        set_too(&mut s.numbers, &numbers);
        s.allowance += allowance;
        if s.seen < seen {
            s.seen = seen;
        }
    }
}
