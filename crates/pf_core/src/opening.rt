//! The state at the start.
ghost use Rattle.std.specs.Prelude.{◌≡◌, ℕ, ◌<◌, ◌≤◌, ◌+◌, IfOk, map};
ghost use Rattle.pf_model.specs.Applied.{IsFresh};
ghost use Rattle.pf_model.specs.Stars.{star_of};
ghost use Rattle.pf_star_model.specs.Lent.{star_held};
ghost use Rattle.pf_core_model.specs.Lists.{counting};
ghost use Rattle.pf_core_model.specs.State.{opening_state};
ghost use Rattle.pf_core.specs.First.{first_word, first_node, start_seat};

use crate::state::State;
use crate::tables::{Node, Seat};
use crate::word::Word;
use pf_dues::Debts;
use pf_geom::NoMemory;
use pf_ghost::{Sharers, sharers_of};
use pf_mesh::Mesh;
use pf_model::{Band, Site};
use pf_rings::Rings;
use pf_star::StarSet;
use std::alloc::Global;

// The names of the nodes.
fn names_of(alloc: Global, sites: &[Site]) -> Result<Vec<u32>, NoMemory>
    ensures { IfOk result (λ v. v.items ≡ map (λ s. s.name) sites.now) }
{
    let mut list = Vec::new(alloc);
    for s in sites {
        list.push(s.name).map_err(|_| NoMemory)?;
    }
    Ok(list)
}

// The word of a name at the start.
fn word_for(first_new: u32, live: bool, n: u32) -> Word
    ensures { result ≡ first_word first_new live n }
{
    if n < first_new {
        if live { Word::Free } else { Word::Dead }
    } else {
        Word::Never
    }
}

// What is kept of a name at the start.
fn node_for(
    alloc: Global,
    set: &StarSet,
    first_new: u32,
    chunks: u16,
    n: u32,
) -> Result<Node, NoMemory>
    ensures { IfOk result (λ x. x ≡ first_node (star_held set.now) first_new chunks n) }
{
    match set.ring(n) {
        Some(ring) => {
            let list = sharers_of(alloc, ring.star(), chunks)?;
            Ok(Node {
                word: word_for(first_new, true, n),
                list,
                star: None,
            })
        }
        None => Ok(Node {
            word: word_for(first_new, false, n),
            list: Sharers::none(alloc),
            star: None,
        }),
    }
}

// What is kept of the names.
fn nodes_for(
    alloc: Global,
    set: &StarSet,
    first_new: u32,
    chunks: u16,
    names: u32,
) -> Result<Vec<Node>, NoMemory>
    ensures { IfOk result (λ v. v.items ≡ map (first_node (star_held set.now) first_new chunks) (counting 0 names)) }
{
    let mut list = Vec::new(alloc);
    for n in 0..names {
        let node = node_for(alloc, set, first_new, chunks, n)?;
        list.push(node).map_err(|_| NoMemory)?;
    }
    Ok(list)
}

// What is kept of a number at the start.
fn seat_for(alloc: Global, budget: u32, k: u32) -> Seat
    ensures { result ≡ start_seat budget k }
{
    Seat {
        lead: 0,
        allowance: if k == 0 { budget } else { 0 },
        held: 0,
        absent: None,
        unborn: None,
        owed: Debts::none(alloc),
    }
}

// What is kept of the numbers.
fn seats_for(alloc: Global, budget: u32, workers: u32) -> Result<Vec<Seat>, NoMemory>
    ensures { IfOk result (λ v. v.items ≡ map (start_seat budget) (counting 0 workers)) }
{
    let mut list = Vec::new(alloc);
    for k in 0..workers {
        list.push(seat_for(alloc, budget, k)).map_err(|_| NoMemory)?;
    }
    Ok(list)
}

// The bands once more.
fn bands_of(alloc: Global, bands: &[Band]) -> Result<Vec<Band>, NoMemory>
    ensures { IfOk result (λ v. v.items ≡ bands.now) }
{
    let mut list = Vec::new(alloc);
    list.extend_from_slice(bands).map_err(|_| NoMemory)?;
    Ok(list)
}

// The stars of all nodes.
fn stars_of(alloc: Global, m: &Mesh) -> Result<StarSet, NoMemory>
    ensures { IfOk result (λ s. (n : ℕ) → star_held s n ≡ star_of m.now.mesh n) }
{
    let names = names_of(alloc, m.sites())?;
    let set = StarSet::of(alloc, m.sites(), m.tris(), &names)?;
    Ok(set)
}

impl State {
    ghost use Rattle.pf_core.specs.Shown.{ShowsState, opening_of};

    /// The state at the start: the actor 0, with the spare numbers below `workers` and the whole budget. No live
    /// name is the first new one or above it. Want of memory is the only failure.
    pub fn new(alloc: Global, m: &Mesh, budget: u32, workers: u32) -> Result<State, NoMemory>
        requires some_worker { 1 ≤ workers }
        requires few_workers { workers ≤ 64 }
        requires fresh { IsFresh m.now.mesh 0 }
        requires small { m.now.mesh.first_new + budget ≤ 1048576 }
        ensures { IfOk result (λ s. ShowsState (opening_of m.now.mesh budget workers) (opening_state (opening_of m.now.mesh budget workers)) s) }
    {
        let first = m.first_new();
        let many = m.chunks();
        let set = stars_of(alloc, m)?;
        let nodes = nodes_for(alloc, &set, first, many, first + budget)?;
        let seats = seats_for(alloc, budget, workers)?;
        let bands = bands_of(alloc, m.bands())?;
        let log = Vec::new(alloc);
        Ok(State {
            first_new: first,
            chunks: many,
            bands,
            nodes,
            seats,
            log,
        })
    }
}
