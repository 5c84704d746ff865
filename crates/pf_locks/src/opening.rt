//! A board at its start.
ghost use Rattle.std.specs.Prelude.{◌≡◌, ℕ, ◌<◌, ◌≤◌, ◌+◌, ◌++◌, ◌∷◌, [], Contains, IfOk, OnOk, map, set, vec_len};
ghost use Rattle.pf_model.specs.Applied.{IsFresh};
ghost use Rattle.pf_model.specs.Stars as model;
ghost use Rattle.pf_model.specs.Stars.{star_of};
ghost use Rattle.pf_core_model.specs.Lists.{counting};
ghost use Rattle.pf_core_model.specs.Sharers.{sharers_in};
ghost use Rattle.pf_core_model.specs.State.{first_view};
ghost use Rattle.pf_locks.specs.Closes.{list_at};
ghost use Rattle.pf_locks.specs.First.{start_word, placed_lists, opening_of};
ghost use Rattle.pf_locks.specs.Seats.{IsSeat};

use crate::board::Board;
use crate::rule::{Sound, Start};
use crate::seat::{BoardSeat, below};
use atomic_table::{Refused, Seat, Table};
use pf_core_model::View;
use pf_entries::Entries;
use pf_geom::NoMemory;
use pf_ghost::{Sharers, sharers_of_owned};
use pf_mesh::Mesh;
use pf_model::Band;
use pf_rings::Star;
use std::alloc::Global;

// The word of a name: 0 where it is live, 1 where it was read and isn't, and 2 for a name that is to come.
fn word_for(m: &Mesh, n: u32) -> u64
    ensures { result ≡ start_word m.now.mesh n }
{
    if n < m.first_new() {
        match m.site(n) {
            Some(_) => 0,
            None => 1,
        }
    } else {
        2
    }
}

// The words of the names, and the count of tickets.
fn words_for(alloc: Global, m: &Mesh, names: u32) -> Result<Vec<u64>, NoMemory>
    ensures { IfOk result (λ v. v.items ≡ map (start_word m.now.mesh) (counting 0 names) ++ 0 ∷ []) }
{
    let mut list = Vec::with_capacity(alloc, names as usize + 1).map_err(|_| NoMemory)?;
    for n in 0..names {
        let word = word_for(m, n);
        list.push(word).map_err(|_| NoMemory)?;
    }
    list.push(0).map_err(|_| NoMemory)?;
    Ok(list)
}

// So many lists without copies.
fn empty_lists(alloc: Global, names: u32) -> Result<Vec<Sharers>, NoMemory>
    ensures len { IfOk result (λ v. vec_len v ≡ names) }
    ensures empty { IfOk result (λ v. (n : ℕ) → list_at v.items n ≡ []) }
{
    let mut lists = Vec::with_capacity(alloc, names as usize).map_err(|_| NoMemory)?;
    for n in 0..names {
        lists.push(Sharers::none(alloc)).map_err(|_| NoMemory)?;
    }
    Ok(lists)
}

// Puts a list at its name.
fn place_list(lists: &mut Vec<Sharers>, n: u32, list: Sharers)
    requires { n < vec_len lists.old }
    ensures put { lists.new.items ≡ set lists.old.items n list }
    ensures len { vec_len lists.new ≡ vec_len lists.old }
{
    lists[n as usize] = list;
}

// Puts the copies of each star at the name of its node. The stars are moved there.
fn place_copies(
    alloc: Global,
    lists: &mut Vec<Sharers>,
    stars: Vec<Star>,
    chunks: u16,
) -> Result<(), NoMemory>
    requires { (s : model.Star) → Contains stars.items s → s.node < vec_len lists.old }
    ensures placed { OnOk result ((n : ℕ) → list_at lists.new.items n ≡ placed_lists chunks stars.items (list_at lists.old.items) n) }
    ensures len { OnOk result (vec_len lists.new ≡ vec_len lists.old) }
{
    let mut left = stars;
    'stars: while let Some(star) = left.pop() {
        let n = star.node();
        let list = sharers_of_owned(alloc, star, chunks)?;
        place_list(lists, n, list);
    }
    Ok(())
}

// The copies of the names, which are the stars of a sweep.
fn lists_for(alloc: Global, m: &Mesh, names: u32) -> Result<Vec<Sharers>, NoMemory>
    requires fresh { IsFresh m.now.mesh 0 }
    requires many { m.now.mesh.first_new ≤ names }
    ensures len { IfOk result (λ v. vec_len v ≡ names) }
    ensures copies { IfOk result (λ v. (n : ℕ) → list_at v.items n ≡ sharers_in m.now.mesh.chunks (star_of m.now.mesh n)) }
{
    let stars = m.stars(alloc)?;
    let mut lists = empty_lists(alloc, names)?;
    place_copies(alloc, &mut lists, stars, m.chunks())?;
    Ok(lists)
}

// The bands once more.
fn bands_of(alloc: Global, bands: &[Band]) -> Result<Vec<Band>, NoMemory>
    ensures { IfOk result (λ v. v.items ≡ bands.now) }
{
    Vec::from_slice(alloc, bands).map_err(|_| NoMemory)
}

// The table of a board, and the seat of its first number.
fn table_for(
    alloc: Global,
    m: &Mesh,
    budget: u32,
    workers: u32,
) -> Result<
    (
        Table<Sharers, View, Start, Sound, Global>,
        Seat<Sharers, View>,
    ),
    NoMemory,
>
    requires some_worker { 1 ≤ workers }
    requires fresh { IsFresh m.now.mesh 0 }
    requires small { m.now.mesh.first_new + budget ≤ 1048576 }
    ensures key { IfOk result (λ r. r.0.shared.key ≡ opening_of m.now.mesh budget workers) }
    ensures counts { IfOk result (λ r. (r.0.shared.table_id.words ≡ m.now.mesh.first_new + budget + 1) × (r.0.shared.table_id.slots ≡ m.now.mesh.first_new + budget)) }
    ensures seat { IfOk result (λ r. (r.1.table_id ≡ r.0.shared.table_id) × (r.1.me ≡ (first_view (opening_of m.now.mesh budget workers), []))) }
{
    let first = m.first_new();
    let lists = lists_for(alloc, m, first + budget)?;
    let words = words_for(alloc, m, first + budget)?;
    match Table::new(
        alloc,
        words.as_slice(),
        lists,
        &Start::of(m, budget, workers),
    ) {
        Ok(made) => Ok(made),
        Err(Refused { slots: _ }) => Err(NoMemory),
    }
}

impl Board {
    /// A board of the mesh, and its first seat: number 0, with the spare numbers below `workers` and the whole
    /// budget. No live name is the first new one or above it. Want of memory is the only failure.
    pub fn new(
        alloc: Global,
        m: &Mesh,
        budget: u32,
        workers: u32,
    ) -> Result<(Board, BoardSeat), NoMemory>
        requires some_worker { 1 ≤ workers }
        requires few_workers { workers ≤ 64 }
        requires fresh { IsFresh m.now.mesh 0 }
        requires small { m.now.mesh.first_new + budget ≤ 1048576 }
        ensures key { IfOk result (λ r. r.0.table.shared.key ≡ opening_of m.now.mesh budget workers) }
        ensures board { IfOk result (λ r. r.1.seat.table_id ≡ r.0.table.shared.table_id) }
        ensures view { IfOk result (λ r. r.1.seat.me.0 ≡ first_view (opening_of m.now.mesh budget workers)) }
        ensures seat { IfOk result (λ r. IsSeat (opening_of m.now.mesh budget workers) r.1) }
    {
        let first_new = m.first_new();
        let chunks = m.chunks();
        let bands = bands_of(alloc, m.bands())?;
        let entries = Entries::new(alloc, budget)?;
        let Ok(kept) = Vec::with_capacity(alloc, 66) else {
            return Err(NoMemory);
        };
        let (table, seat) = table_for(alloc, m, budget, workers)?;
        let board = Board {
            table,
            names: (first_new + budget) as usize,
            first_new,
            chunks,
            bands,
            alloc,
        };
        let seat = BoardSeat {
            seat,
            number: 0,
            workers,
            numbers: below(workers),
            allowance: budget,
            seen: 0,
            entries,
            kept,
        };
        Ok((board, seat))
    }
}
