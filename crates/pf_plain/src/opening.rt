//! The holder at the start and at the end.
ghost use Rattle.std.specs.Prelude.{◌≡◌, ℕ, ◌+◌, ◌<◌, ◌≤◌, [], vec_len, vec_capacity, IfOk};
ghost use Rattle.pf_model.specs.Conforming.{IsConforming, IsLive};
ghost use Rattle.pf_model.specs.Applied.{IsFresh};
ghost use Rattle.pf_model.specs.Replay.{IsLegal};
ghost use Rattle.pf_model.specs.Limits.{most_names};
ghost use Rattle.pf_holder.specs.Facts.{history_in, mesh_alone};
ghost use Rattle.pf_plain.specs.Plains.{AreStars, opening_of};
ghost use Rattle.pf_plain.specs.Views.{opening_in, entries_in, pairs_in};

use crate::plain::Plain;
use crate::stars::{no_stars, place_stars};
use arrayvec::ArrayVec;
use pf_geom::NoMemory;
use pf_mesh::Mesh;
use pf_model::Entry;
use pf_rings::Star;
use std::alloc::Global;

impl Plain {
    // The holder at the start, with these stars and room for this journal.
    fn begun(mesh: Mesh, budget: u32, stars: Vec<Option<Star>>, journal: Vec<Entry>) -> Plain
        requires conforming { IsConforming mesh.mesh }
        requires fresh { IsFresh mesh.mesh 0 }
        requires stars { AreStars stars.items mesh.mesh }
        requires long { vec_len stars ≡ mesh.mesh.first_new + budget }
        requires small { mesh.mesh.first_new + budget ≤ most_names }
        requires empty { journal.items ≡ [] }
        requires room { budget ≤ vec_capacity journal }
        ensures opening { opening_in result ≡ opening_of mesh.mesh budget }
        ensures entries { entries_in result ≡ [] }
        ensures nothing { pairs_in result ≡ [] }
        ensures allowance { result.allowance ≡ budget }
    {
        Plain {
            mesh,
            budget,
            stars,
            journal,
            nodes: ArrayVec::new(),
            allowance: budget,
        }
    }

    /// The holder over this mesh, which may commit so many operations. It takes all the memory that its calls
    /// want up to the end. No live name is the first new one or above it, and the names up to the last that may
    /// be given are within the limit. Want of memory is the only failure.
    pub fn new(alloc: Global, m: Mesh, budget: u32) -> Result<Plain, NoMemory>
        requires live { (n : ℕ) → IsLive m.mesh n → n < m.mesh.first_new }
        requires small { m.mesh.first_new + budget ≤ most_names }
        ensures opening { IfOk result (λ h. opening_in h ≡ opening_of m.mesh budget) }
        ensures entries { IfOk result (λ h. entries_in h ≡ []) }
        ensures nothing { IfOk result (λ h. pairs_in h ≡ []) }
        ensures allowance { IfOk result (λ h. h.allowance ≡ budget) }
    {
        let names = m.first_new() + budget;
        let mut stars = no_stars(alloc, names)?;
        let list = m.stars(alloc)?;
        place_stars(&mut stars, list);
        let journal = Vec::with_capacity(alloc, budget as usize).map_err(|_| NoMemory)?;
        Ok(Plain::begun(m, budget, stars, journal))
    }

    /// The mesh after all that was committed, with its lists in order, and the journal. The journal is replayed on
    /// the mesh that was opened, and want of memory for that is the only failure.
    pub fn end(self) -> Result<(Mesh, Vec<Entry>), NoMemory>
        ensures mesh { IfOk result (λ r. r.0.mesh ≡ mesh_alone (opening_in self) (entries_in self)) }
        ensures journal { IfOk result (λ r. r.1.items ≡ history_in (entries_in self)) }
        ensures legal { IfOk result (λ r. IsLegal self.mesh.mesh r.1.items) }
        ensures conforming { IfOk result (λ r. IsConforming r.0.mesh) }
    {
        let Plain {
            mut mesh,
            stars,
            journal,
            ..
        } = self;
        drop(stars);
        match mesh.apply_all(&journal) {
            Ok(()) => Ok((mesh, journal)),
            Err(_) => Err(NoMemory),
        }
    }
}
