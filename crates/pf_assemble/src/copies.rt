//! The copies that the chunks of a mesh have.
ghost use Rattle.std.specs.Prelude.{◌≡◌, [], ◌∷◌, ◌++◌, IfOk, OnOk, map, flat_map, length};
ghost use Rattle.std.specs.List.{range_with_len};
ghost use Rattle.pf_locks.specs.Closes.{AreCopiesOf, shown_copy};
ghost use Rattle.pf_assemble.specs.Divided.{copies_in};
ghost use Rattle.pf_assemble.specs.Placed.{copy_at, is_sharer_at};
ghost use Rattle.pf_assemble.specs.Rows.{AreBelow, AreTaken};

use crate::lists::node_rows;
use pf_geom::NoMemory;
use pf_mesh::Mesh;
use pf_model::Band;
use pf_rings::Star;
use pf_star::{ChunkCopy, Copies};
use std::alloc::Global;

/// Divides a mesh: each chunk gets the star of each node at which it owns a triangle. The copies rise by chunk and node.
/// Want of memory is the only failure.
pub fn divide(alloc: Global, m: &Mesh) -> Result<Copies, NoMemory>
    ensures { IfOk result (λ copies. AreCopiesOf m.now.mesh copies) }
{
    let stars = m.stars(alloc)?;
    let list = copies_for(alloc, &stars, m.chunks())?;
    let bands = bands_of(alloc, m.bands())?;
    Ok(Copies {
        first_new: m.first_new(),
        bands,
        chunks: m.chunks(),
        list,
    })
}

// The bands once more.
fn bands_of(alloc: Global, bands: &[Band]) -> Result<Vec<Band>, NoMemory>
    ensures { IfOk result (λ v. v.items ≡ bands.now) }
{
    Vec::from_slice(alloc, bands).map_err(|_| NoMemory)
}

// The copies of these stars that the chunks have.
fn copies_for(alloc: Global, stars: &[Star], chunks: u16) -> Result<Vec<ChunkCopy>, NoMemory>
    ensures { IfOk result (λ v. map shown_copy v.items ≡ flat_map (λ c. copies_in c stars.now) (range_with_len 0 chunks)) }
{
    let nodes = node_rows(alloc, stars, chunks)?;
    let list = copies_by(alloc, stars, &nodes, chunks)?;
    Ok(list)
}

// How many numbers the rows have.
fn count_of(rows: &[Vec<usize>]) -> usize {
    let mut count = 0usize;
    for row in rows {
        count = count.saturating_add(row.len());
    }
    count
}

// The copies that the chunks have, by the places of their nodes.
fn copies_by(
    alloc: Global,
    stars: &[Star],
    nodes: &[Vec<usize>],
    chunks: u16,
) -> Result<Vec<ChunkCopy>, NoMemory>
    requires len { length nodes.now ≡ chunks }
    requires nodes { AreTaken nodes.now (is_sharer_at stars.now) (length stars.now) }
    ensures { IfOk result (λ v. map shown_copy v.items ≡ flat_map (λ c. copies_in c stars.now) (range_with_len 0 chunks)) }
{
    let mut list = Vec::with_capacity(alloc, count_of(nodes)).map_err(|_| NoMemory)?;
    'chunks: for chunk in 0..chunks {
        put_copies(alloc, &mut list, stars, &nodes[chunk as usize], chunk)?;
    }
    Ok(list)
}

// Puts a chunk's copies of the stars at these places.
fn put_copies(
    alloc: Global,
    list: &mut Vec<ChunkCopy>,
    stars: &[Star],
    places: &[usize],
    chunk: u16,
) -> Result<(), NoMemory>
    requires { AreBelow (length stars.now) places.now }
    ensures { OnOk result (map shown_copy list.new.items ≡ map shown_copy list.old.items ++ map (copy_at chunk stars.now) places.now) }
{
    'places: for place in places {
        put_copy(alloc, list, &stars[*place], chunk)?;
    }
    Ok(())
}

// Puts a chunk's copy of a star.
fn put_copy(
    alloc: Global,
    list: &mut Vec<ChunkCopy>,
    star: &Star,
    chunk: u16,
) -> Result<(), NoMemory>
    ensures { OnOk result (map shown_copy list.new.items ≡ map shown_copy list.old.items ++ record { chunk = chunk; star = star.now } ∷ []) }
{
    let star = star.copied(alloc)?;
    list.push(ChunkCopy { chunk, star }).map_err(|_| NoMemory)?;
    Ok(())
}
