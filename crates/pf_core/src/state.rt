//! The state, and what is read of it.
ghost use Rattle.std.specs.Prelude.{◌≡◌, ℕ, ◌∷◌, [], IfOk, Option};
ghost use Rattle.std.specs.Option.{option_map};
ghost use Rattle.pf_core_model.specs.Core.{Opening};
ghost use Rattle.pf_core_model.specs.State.{CoreState, tickets_in, word_of, copy_at, log_of, free_part_of, counts_of as counted_of};

use crate::counts::Counts;
use crate::part::{counts_of, part_of};
use crate::reading::{copy_in, word_at};
use crate::tables::{Node, Seat};
use crate::word::Word;
use pf_geom::NoMemory;
use pf_model::{Band, Entry, Tri};
use pf_rings::Star;
use std::alloc::Global;

/// The pure core: words, copies and actors over one mesh.
#[derive(Debug, Drop)]
pub struct State {
    pub(crate) first_new: u32,
    pub(crate) chunks: u16,
    pub(crate) bands: Vec<Band>,
    // By name.
    pub(crate) nodes: Vec<Node>,
    // By number.
    pub(crate) seats: Vec<Seat>,
    // By ticket.
    pub(crate) log: Vec<Entry>,
}

impl State {
    ghost use Rattle.pf_core.specs.Part.{counts_in};
    ghost use Rattle.pf_core.specs.Tables.{word_code};
    ghost use Rattle.pf_core.specs.Shown.{ShowsState, IsShownState};

    /// How many tickets were drawn.
    pub fn tickets(&self) -> u32
        requires { IsShownState self.now }
        ensures { (o : Opening) (c : CoreState) → ShowsState o c self.now → result ≡ tickets_in o c }
    {
        self.log.len() as u32
    }

    /// What the word of a name says: `Never` for a name outside.
    pub fn word(&self, n: u32) -> Word
        ensures { (o : Opening) (c : CoreState) → ShowsState o c self.now → word_code result ≡ word_of o c n }
    {
        word_at(&self.nodes, n)
    }

    /// A chunk's copy of a node.
    pub fn copy(&self, chunk: u16, n: u32) -> Option<&Star>
        ensures { (o : Opening) (c : CoreState) → ShowsState o c self.now → option_map (λ r. r.now) result ≡ copy_at c.lists chunk n }
    {
        copy_in(&self.nodes, chunk, n)
    }

    /// The triangles all of whose corners are free, by rising corners, from the copies of the keepers. Want of
    /// memory is the only failure.
    pub fn free_part(&self, alloc: Global) -> Result<Vec<Tri>, NoMemory>
        requires { IsShownState self.now }
        ensures { IfOk result (λ v. (o : Opening) (c : CoreState) → ShowsState o c self.now → v.items ≡ free_part_of o c) }
    {
        let list = part_of(alloc, &self.nodes)?;
        Ok(list)
    }

    /// How many names are free, held, dead, and never live or unborn.
    pub fn counts(&self) -> Counts
        requires { IsShownState self.now }
        ensures { (o : Opening) (c : CoreState) → ShowsState o c self.now → counts_in result ≡ counted_of o c }
    {
        counts_of(&self.nodes)
    }

    /// The entries by ticket. Want of memory is the only failure.
    pub fn history(&self, alloc: Global) -> Result<Vec<Entry>, NoMemory>
        ensures { IfOk result (λ v. (o : Opening) (c : CoreState) → ShowsState o c self.now → v.items ≡ log_of o c) }
    {
        let mut list = Vec::new(alloc);
        list.extend_from_slice(&self.log).map_err(|_| NoMemory)?;
        Ok(list)
    }
}
