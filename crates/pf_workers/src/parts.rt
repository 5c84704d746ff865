//! Which part of a mesh a worker begins with.
ghost use Rattle.std.specs.Prelude.{◌≡◌, ◌≤◌, ℕ, ◌<◌, ◌%◌, ◌==◌, ◌++◌, ◌∷◌, [], cond, filter, length, slice_index_or, IfOk, OnOk};
ghost use Rattle.std.specs.List.{range_with_len};
ghost use Rattle.pf_workers.specs.Parts.{chunks_for, starts_for, is_kept_by};
ghost use Rattle.pf_workers.specs.Keepers.{kept_at};

use crate::keepers::keepers_of;
use pf_geom::NoMemory;
use pf_mesh::Mesh;
use std::alloc::Global;

/// A worker's part of a mesh: the chunks by which it makes operations, and the nodes at which it starts.
#[derive(Drop)]
pub struct Part {
    pub chunks: Vec<u16>,
    pub start: Vec<u32>,
}

// The chunks of a worker, rising.
fn chunks_of(alloc: Global, workers: u32, worker: u32, chunks: u16) -> Result<Vec<u16>, NoMemory>
    requires { 0 < workers }
    ensures { IfOk result (λ v. v.items ≡ chunks_for workers worker chunks) }
{
    let mut list = Vec::new(alloc);
    'chunks: for chunk in 0..chunks {
        if chunk as u32 % workers == worker {
            list.push(chunk).map_err(|_| NoMemory)?;
        }
    }
    Ok(list)
}

// The parts of all workers, with nothing yet to start at.
fn chunk_parts(alloc: Global, workers: u32, chunks: u16) -> Result<Vec<Part>, NoMemory>
    requires { 0 < workers }
    ensures len { IfOk result (λ v. length v.items ≡ workers) }
    ensures each { IfOk result (λ v. (w : ℕ) (d : _) → w < workers → ((slice_index_or v.items w d).chunks.items ≡ chunks_for workers w chunks) × ((slice_index_or v.items w d).start.items ≡ [])) }
{
    let mut parts = Vec::new(alloc);
    'workers: for worker in 0..workers {
        let chunks = chunks_of(alloc, workers, worker, chunks)?;
        let start = Vec::new(alloc);
        parts.push(Part { chunks, start }).map_err(|_| NoMemory)?;
    }
    Ok(parts)
}

// Puts a node at the end of the start list of a part.
fn put_start(parts: &mut [Part], worker: usize, n: u32) -> Result<(), NoMemory>
    requires { worker < length parts.old }
    ensures len { length parts.new ≡ length parts.old }
    ensures chunks { (w : ℕ) (d : _) → w < length parts.old → (slice_index_or parts.new w d).chunks.items ≡ (slice_index_or parts.old w d).chunks.items }
    ensures start { OnOk result ((w : ℕ) (d : _) → w < length parts.old → (slice_index_or parts.new w d).start.items ≡ cond (worker == w) ((slice_index_or parts.old w d).start.items ++ n ∷ []) (slice_index_or parts.old w d).start.items) }
{
    parts[worker].start.push(n).map_err(|_| NoMemory)
}

// Puts each name onto the start list of the worker that has the chunk of its keeper.
fn put_starts(parts: &mut [Part], keepers: &[Option<u16>]) -> Result<(), NoMemory>
    requires some_worker { 0 < length parts.old }
    requires few { length keepers.now ≤ 1048576 }
    requires empty { (w : ℕ) (d : _) → w < length parts.old → (slice_index_or parts.old w d).start.items ≡ [] }
    ensures len { length parts.new ≡ length parts.old }
    ensures chunks { (w : ℕ) (d : _) → w < length parts.old → (slice_index_or parts.new w d).chunks.items ≡ (slice_index_or parts.old w d).chunks.items }
    ensures start { OnOk result ((w : ℕ) (d : _) → w < length parts.old → (slice_index_or parts.new w d).start.items ≡ filter (λ n. is_kept_by (length parts.old) w (kept_at keepers.now n)) (range_with_len 0 (length keepers.now))) }
{
    let workers = parts.len();
    'names: for n in 0..keepers.len() {
        if let Some(keeper) = keepers[n] {
            put_start(parts, keeper as usize % workers, n as u32)?;
        }
    }
    Ok(())
}

/// The parts of so many workers, by their numbers: worker w has the chunks whose numbers leave w when divided by the
/// number of workers, and starts at the nodes whose keeper is such a chunk, by rising name. All lists are made in
/// one pass over the triangles and one over the names.
pub fn parts_of(alloc: Global, m: &Mesh, workers: u32) -> Result<Vec<Part>, NoMemory>
    requires workers { 0 < workers }
    requires small { m.now.mesh.first_new ≤ 1048576 }
    ensures len { IfOk result (λ v. length v.items ≡ workers) }
    ensures chunks { IfOk result (λ v. (w : ℕ) (d : _) → w < workers → (slice_index_or v.items w d).chunks.items ≡ chunks_for workers w m.now.mesh.chunks) }
    ensures start { IfOk result (λ v. (w : ℕ) (d : _) → w < workers → (slice_index_or v.items w d).start.items ≡ starts_for m.now.mesh workers w) }
{
    let keepers = keepers_of(alloc, m.tris(), m.first_new())?;
    let mut parts = chunk_parts(alloc, workers, m.chunks())?;
    put_starts(&mut parts, &keepers)?;
    Ok(parts)
}
