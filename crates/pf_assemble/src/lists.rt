//! The rows of a mesh: what each chunk owns and shares, and the chunks of each node.
ghost use Rattle.std.specs.Prelude.{◌≡◌, ℕ, ◌||◌, Bool, IfOk, OnOk, length};
ghost use Rattle.pf_model.specs.Stars.{is_sharer};
ghost use Rattle.pf_assemble.specs.Placed.{is_sharer_at, AreRowsOf};
ghost use Rattle.pf_assemble.specs.Rows.{AreMarked, AreTaken};

use crate::ghosts::{ghost_rows, owned_rows};
use crate::rows::{mark, rows_of, transposed};
use pf_geom::NoMemory;
use pf_model::{Spoke, Tri};
use pf_rings::Star;
use std::alloc::Global;

/// Places in the list of stars and in that of triangles: for each chunk those of its triangles, nodes and ghosts. For
/// each star the chunks that share it.
#[derive(Drop)]
pub(crate) struct Lists {
    pub(crate) owned: Vec<Vec<usize>>,
    pub(crate) nodes: Vec<Vec<usize>>,
    pub(crate) owners: Vec<Vec<usize>>,
    pub(crate) ghosts: Vec<Vec<usize>>,
}

// Marks the owners of these spokes with a place.
fn mark_owners(rows: &mut Vec<Vec<usize>>, spokes: &[Spoke], place: usize) -> Result<(), NoMemory>
    ensures len { length rows.new.items ≡ length rows.old.items }
    ensures marked { OnOk result ((p : ℕ → ℕ → Bool) (q : ℕ → Bool) → AreMarked rows.old.items p place q → AreMarked rows.new.items p place (λ w. is_sharer w spokes.now || q w)) }
{
    'spokes: for s in spokes {
        mark(rows, s.owner as usize, place)?;
    }
    Ok(())
}

/// The places of the nodes that each of so many chunks shares.
pub(crate) fn node_rows(
    alloc: Global,
    stars: &[Star],
    chunks: u16,
) -> Result<Vec<Vec<usize>>, NoMemory>
    ensures len { IfOk result (λ v. length v.items ≡ chunks) }
    ensures rows { IfOk result (λ v. AreTaken v.items (is_sharer_at stars.now) (length stars.now)) }
{
    let mut rows = rows_of(alloc, chunks as usize)?;
    'stars: for place in 0..stars.len() {
        mark_owners(&mut rows, stars[place].spokes(), place)?;
    }
    Ok(rows)
}

/// The rows of stars and triangles.
pub(crate) fn lists_of(
    alloc: Global,
    stars: &[Star],
    tris: &[Tri],
    chunks: u16,
) -> Result<Lists, NoMemory>
    ensures { IfOk result (λ l. AreRowsOf stars.now tris.now chunks l.owned.items l.nodes.items l.owners.items l.ghosts.items) }
{
    let owned = owned_rows(alloc, tris, chunks)?;
    let nodes = node_rows(alloc, stars, chunks)?;
    let owners = transposed(alloc, &nodes, stars.len())?;
    let ghosts = ghost_rows(alloc, tris, &owned)?;
    Ok(Lists {
        owned,
        nodes,
        owners,
        ghosts,
    })
}
