//! What the contractions of each edge onto its ends fail, noted by the edges' places.
ghost use Rattle.std.specs.Prelude.{◌≡◌, List, Some, OnOk, IfSome, slice_get};
ghost use Rattle.pf_model.specs.declared.Op.{Op};
ghost use Rattle.pf_model.specs.Mesh.{Undivided};
ghost use Rattle.pf_model.specs.Lengths.{Edge};
ghost use Rattle.pf_edge_list.specs.declared.edges.Sided.{Sided};
ghost use Rattle.pf_edge_list.specs.Edges.{sided_edge};
ghost use Rattle.pf_rest.specs.Rest.{told_of, AreTold, AreNotes};

use crate::around::{Chains, chains_of};
use crate::close::strictest;
use pf_edge_list::edges::Edges;
use pf_geom::NoMemory;
use pf_model::{Band, Cond};
use std::alloc::Global;

/// The first condition that a contraction fails, or that it fails none.
#[derive(Clone, Copy, Debug, PartialEq, Eq)]
pub struct Told {
    pub cond: Option<Cond>,
}

/// For the edge at each place, what its contraction onto the higher end and onto the lower one fails, where
/// that was worked out; and what it is worked out with: where the edges that end at each node stand, and a
/// squared length that no band forbids.
#[derive(Drop)]
pub struct Notes {
    pub chains: Chains,
    pub limit: i64,
    pub onto_hi: Vec<Option<Told>>,
    pub onto_lo: Vec<Option<Told>>,
}

// Makes room for what is told of so many edges, where there is none yet.
fn make_room(told: &mut Vec<Option<Told>>, edges: usize) -> Result<(), NoMemory>
    ensures { OnOk result ((m : Undivided) (edges : List Sided) (op : Edge → Op) → AreTold m edges op told.old.items → AreTold m edges op told.new.items) }
{
    if !told.is_empty() {
        return Ok(());
    }
    match told.resize(edges, None) {
        Ok(()) => Ok(()),
        Err(_) => Err(NoMemory),
    }
}

/// What is noted at a place.
pub fn noted(told: &[Option<Told>], place: usize) -> Option<Told>
    ensures { IfSome result (λ t. (m : Undivided) (edges : List Sided) (op : Edge → Op) (e : Sided) → AreTold m edges op told.now → slice_get edges place ≡ Some e
        → t.cond ≡ told_of m op (sided_edge e)) }
{
    if place < told.len() {
        told[place]
    } else {
        None
    }
}

/// Notes at a place what a contraction fails.
pub fn note(told: &mut Vec<Option<Told>>, place: usize, cond: Option<Cond>)
    ensures { (m : Undivided) (edges : List Sided) (op : Edge → Op) (e : Sided) → AreTold m edges op told.old.items → slice_get edges place ≡ Some e
        → cond ≡ told_of m op (sided_edge e) → AreTold m edges op told.new.items }
{
    if place >= told.len() {
        return;
    }
    told[place] = Some(Told { cond });
}

impl Notes {
    /// No notes.
    pub fn new(alloc: Global, bands: &[Band]) -> Notes
        ensures { (m : Undivided) (edges : List Sided) → m.bands ≡ bands.now → AreNotes m edges result }
    {
        Notes {
            chains: Chains::new(alloc),
            limit: strictest(bands),
            onto_hi: Vec::new(alloc),
            onto_lo: Vec::new(alloc),
        }
    }

    /// Makes room for what is noted of these edges, where there is none yet.
    pub fn reserve(&mut self, alloc: Global, edges: &Edges, names: usize) -> Result<(), NoMemory>
        ensures { OnOk result ((m : Undivided) (edges : List Sided) → AreNotes m edges self.old → AreNotes m edges self.new) }
    {
        if !self.onto_hi.is_empty() {
            return Ok(());
        }
        self.chains = chains_of(alloc, &edges.list, names)?;
        make_room(&mut self.onto_hi, edges.list.len())?;
        make_room(&mut self.onto_lo, edges.list.len())?;
        Ok(())
    }
}
