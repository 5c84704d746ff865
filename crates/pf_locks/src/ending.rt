//! A board at its end: the one history, and the nodes and triangles of the mesh after it.
ghost use Rattle.std.specs.Prelude.{◌≡◌, ℕ, ◌<◌, ◌++◌, ◌∷◌, [], false, true, slice_index_or, IfOk, OnOk};
ghost use Rattle.std.specs.Option.{option_map};
ghost use Rattle.std.specs.Slots.{IsFull, slots_items, slots_filled, slots_len};
ghost use Rattle.pf_core_model.specs.Sharers.{kept_in};
ghost use Rattle.pf_core_model.specs.Core.{mesh_after};
ghost use Rattle.pf_core_model.specs.Guards.{IsAlone};
ghost use Rattle.pf_core_model.specs.Seats.{own_log};
ghost use Rattle.pf_locks.specs.Seats.{IsSeat};
ghost use Rattle.pf_locks.specs.Ends.{is_least, site_of, tris_from, sites_at, tris_at, under, kept_at, mesh_in};

use crate::board::Board;
use crate::closing::history_of;
use crate::seat::BoardSeat;
use pf_core_model::Sharer;
use pf_geom::NoMemory;
use pf_ghost::Sharers;
use pf_model::{Band, Entry, Site, Spoke, Tri};
use pf_rings::Star;
use std::alloc::Global;

/// What a board comes to: the one history, by rising ticket, and the parts of the mesh after it: its nodes by rising
/// name, and its triangles by rising corners.
#[derive(Drop)]
pub struct Ended {
    pub history: Vec<Entry>,
    pub first_new: u32,
    pub sites: Vec<Site>,
    pub tris: Vec<Tri>,
    pub bands: Vec<Band>,
    pub chunks: u16,
}

// Whether the node of a spoke is the least corner of its triangle.
fn is_least(node: u32, s: Spoke) -> bool
    ensures { result ≡ is_least node s }
{
    node < s.right && node < s.left
}

// Puts the triangles of these spokes of which their node is the least corner.
fn put_tris(tris: &mut Vec<Tri>, node: u32, spokes: &[Spoke]) -> Result<(), NoMemory>
    ensures { OnOk result (tris.new.items ≡ tris.old.items ++ tris_from node spokes.now) }
{
    for s in spokes {
        if is_least(node, *s) {
            tris.push(Tri {
                a: node,
                b: s.right,
                c: s.left,
                owner: s.owner,
            })
            .map_err(|_| NoMemory)?;
        }
    }
    Ok(())
}

// Puts the node of a star.
fn put_site(sites: &mut Vec<Site>, star: &Star) -> Result<(), NoMemory>
    ensures { OnOk result (sites.new.items ≡ sites.old.items ++ site_of star.now ∷ []) }
{
    sites
        .push(Site {
            name: star.node(),
            at: star.at(),
        })
        .map_err(|_| NoMemory)?;
    Ok(())
}

/// Puts the node of a star, and the triangles of which it is the least corner. Want of memory is the only failure.
pub fn put_star(sites: &mut Vec<Site>, tris: &mut Vec<Tri>, star: &Star) -> Result<(), NoMemory>
    ensures sites { OnOk result (sites.new.items ≡ sites.old.items ++ site_of star.now ∷ []) }
    ensures tris { OnOk result (tris.new.items ≡ tris.old.items ++ tris_from star.now.node star.now.spokes) }
{
    put_site(sites, star)?;
    put_tris(tris, star.node(), star.spokes())?;
    Ok(())
}

// The star of the first of these copies.
fn first_star(copies: &[Sharer]) -> Option<&Star>
    ensures { option_map (λ r. r.now) result ≡ kept_in copies.now }
{
    for copy in copies {
        return Some(&copy.star);
    }
    None
}

// Puts what the first of these copies gives, where there is one.
fn put_first(sites: &mut Vec<Site>, tris: &mut Vec<Tri>, copies: &[Sharer]) -> Result<(), NoMemory>
    ensures sites { OnOk result (sites.new.items ≡ sites.old.items ++ sites_at (kept_in copies.now)) }
    ensures tris { OnOk result (tris.new.items ≡ tris.old.items ++ tris_at (kept_in copies.now)) }
{
    match first_star(copies) {
        Some(star) => put_star(sites, tris, star),
        None => Ok(()),
    }
}

// Puts what a node with these copies gives, which are let go, where memory has sufficed so far. Says whether it still
// does.
fn put_node(sites: &mut Vec<Site>, tris: &mut Vec<Tri>, sharers: Sharers, enough: bool) -> bool
    ensures enough { result ≡ true → enough ≡ true }
    ensures sites { result ≡ true → sites.new.items ≡ sites.old.items ++ sites_at (kept_in sharers) }
    ensures tris { result ≡ true → tris.new.items ≡ tris.old.items ++ tris_at (kept_in sharers) }
{
    enough && put_first(sites, tris, sharers.list()).is_ok()
}

// Takes the copies of all nodes out of their slots, and puts what they give. Says whether memory sufficed.
fn take_nodes(
    closed: &mut atomic_table::Closed<Sharers, Global>,
    names: usize,
    sites: &mut Vec<Site>,
    tris: &mut Vec<Tri>,
) -> bool
    requires full { IsFull closed.old.slots }
    requires many { slots_len closed.old.slots ≡ names }
    requires sites { sites.old.items ≡ [] }
    requires tris { tris.old.items ≡ [] }
    ensures sites { result ≡ true → sites.new.items ≡ under (λ k. sites_at (kept_at (slots_items closed.old.slots) k)) names }
    ensures tris { result ≡ true → tris.new.items ≡ under (λ k. tris_at (kept_at (slots_items closed.old.slots) k)) names }
    ensures free { (k : ℕ) → k < slots_len closed.new.slots → slice_index_or (slots_filled closed.new.slots) k false ≡ false }
{
    let mut enough = true;
    for n in 0..names {
        let sharers = closed.take(n);
        enough = put_node(sites, tris, sharers, enough);
    }
    enough
}

// Takes the board apart.
fn parts_at_end(
    alloc: Global,
    board: Board,
    s: BoardSeat,
    history: Vec<Entry>,
) -> Result<Ended, NoMemory>
    requires board { s.seat.table_id ≡ board.table.shared.table_id }
    requires seat { IsSeat board.table.shared.key s }
    requires alone { IsAlone s.seat.me.0 }
    requires nothing { s.seat.me.0.held ≡ [] }
    ensures history { IfOk result (λ e. e.history ≡ history) }
    ensures mesh { IfOk result (λ e. mesh_in e ≡ mesh_after board.table.shared.key (own_log s.seat.me.0)) }
{
    let Board {
        table,
        names,
        first_new,
        chunks,
        bands,
        alloc: _,
    } = board;
    let BoardSeat {
        seat,
        number: _,
        workers: _,
        numbers: _,
        allowance: _,
        seen: _,
        entries: _,
        kept: _,
    } = s;
    let mut closed = table.close_with(seat);
    let mut sites = Vec::new(alloc);
    let mut tris = Vec::new(alloc);
    let enough = take_nodes(&mut closed, names, &mut sites, &mut tris);
    closed.free();
    if !enough {
        return Err(NoMemory);
    }
    Ok(Ended {
        history,
        first_new,
        sites,
        tris,
        bands,
        chunks,
    })
}

impl Board {
    /// Ends the board: gives the one history, which is the seat's own, and the parts of the mesh after it. The seat has
    /// all numbers and holds nothing. Each node is taken from its keeper's copy, and each triangle from that of its least
    /// corner. Want of memory is the only failure, and the board is lost by it; `close` keeps it.
    pub fn end(self, alloc: Global, s: BoardSeat) -> Result<Ended, NoMemory>
        requires board { s.seat.table_id ≡ self.table.shared.table_id }
        requires seat { IsSeat self.table.shared.key s }
        requires alone { IsAlone s.seat.me.0 }
        requires nothing { s.seat.me.0.held ≡ [] }
        ensures history { IfOk result (λ e. e.history.items ≡ own_log s.seat.me.0) }
        ensures mesh { IfOk result (λ e. mesh_in e ≡ mesh_after self.table.shared.key (own_log s.seat.me.0)) }
    {
        let history = history_of(&s, alloc)?;
        parts_at_end(alloc, self, s, history)
    }
}
