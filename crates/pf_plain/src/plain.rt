//! What the holder keeps.
ghost use Rattle.std.specs.Prelude.{◌≡◌, ◌+◌, ◌≤◌, length, vec_len, vec_capacity};
ghost use Rattle.pf_core_model.specs.Core.{mesh_after};
ghost use Rattle.pf_plain.specs.Plains.{AreStars, IsPlain, opening_of};

use arrayvec::ArrayVec;
use pf_mesh::Mesh;
use pf_model::Entry;
use pf_rings::Star;

/// The holder over one undivided mesh, which nobody else changes. It is always alone.
///
/// It keeps the star of each live node. The mesh stays as it was opened until the end, when the journal is
/// replayed on it: so each call costs what the stars of its nodes have, whatever the mesh has.
#[derive(Drop)]
pub struct Plain {
    // The mesh as it was opened.
    pub(crate) mesh: Mesh,
    // How many operations there may be.
    pub(crate) budget: u32,
    // The star of each name that there may be, where it is live now.
    pub(crate) stars: Vec<Option<Star>>,
    // What was committed.
    pub(crate) journal: Vec<Entry>,
    // The nodes that are held, the latest first.
    pub(crate) nodes: ArrayVec<u32, 66>,
    // How many operations it may still commit.
    pub(crate) allowance: u32,
    ghost plain: { ∥ IsPlain (opening_of mesh.mesh budget) journal.items nodes.items allowance ∥₁ },
    ghost stars_are: { ∥ AreStars stars.items (mesh_after (opening_of mesh.mesh budget) journal.items) ∥₁ },
    ghost long: { vec_len stars ≡ mesh.mesh.first_new + budget },
    ghost room: { budget ≤ vec_capacity journal },
    ghost count: { allowance + length journal.items ≡ budget },
    ghost small: { mesh.mesh.first_new + budget ≤ 1048576 },
}
