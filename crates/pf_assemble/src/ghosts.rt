//! The triangles that each chunk owns, and those that it has as ghosts.
ghost use Rattle.std.specs.Prelude.{◌≡◌, ℕ, ◌<◌, ◌==◌, ◌||◌, ◌&&◌, not, Bool, IfOk, OnOk, length};
ghost use Rattle.std.specs.List.{list_any};
ghost use Rattle.pf_model.specs.Mesh.{has_corner};
ghost use Rattle.pf_assemble.specs.ChunkList.{owns_at};
ghost use Rattle.pf_assemble.specs.Names.{past, past_corners};
ghost use Rattle.pf_assemble.specs.Placed.{tri_at, is_owned_at, is_ghost_at, AreCornersBelow};
ghost use Rattle.pf_assemble.specs.Rows.{AreMarked, AreTaken, AreBelow};

use crate::rows::{mark, mark_others, row_of, rows_of};
use pf_geom::NoMemory;
use pf_model::Tri;
use std::alloc::Global;

/// The places of the triangles that each of so many chunks owns.
pub(crate) fn owned_rows(
    alloc: Global,
    tris: &[Tri],
    chunks: u16,
) -> Result<Vec<Vec<usize>>, NoMemory>
    ensures len { IfOk result (λ v. length v.items ≡ chunks) }
    ensures rows { IfOk result (λ v. AreTaken v.items (is_owned_at tris.now) (length tris.now)) }
{
    let mut rows = rows_of(alloc, chunks as usize)?;
    'tris: for i in 0..tris.len() {
        mark(&mut rows, tris[i].owner as usize, i)?;
    }
    Ok(rows)
}

// The number, or the least above the name where that is more.
fn past(most: usize, n: u32) -> usize
    ensures { result ≡ past most n }
{
    let n = n as usize;
    if n < most { most } else { n + 1 }
}

// The least number above all corners.
fn past_corners(tris: &[Tri]) -> usize
    ensures { result ≡ past_corners 0 tris.now }
{
    let mut most = 0usize;
    'tris: for t in tris {
        most = past(past(past(most, t.a), t.b), t.c);
    }
    most
}

// Marks the corners of a triangle with the chunk.
fn mark_corners(rows: &mut Vec<Vec<usize>>, t: Tri, chunk: usize) -> Result<(), NoMemory>
    ensures len { length rows.new.items ≡ length rows.old.items }
    ensures marked { OnOk result ((p : ℕ → ℕ → Bool) (q : ℕ → Bool) → AreMarked rows.old.items p chunk q → AreMarked rows.new.items p chunk (λ w. has_corner w t || q w)) }
{
    mark(rows, t.c as usize, chunk)?;
    mark(rows, t.b as usize, chunk)?;
    mark(rows, t.a as usize, chunk)?;
    Ok(())
}

// Marks the corners of the triangles at these places with the chunk.
fn mark_listed(
    rows: &mut Vec<Vec<usize>>,
    tris: &[Tri],
    list: &[usize],
    chunk: usize,
) -> Result<(), NoMemory>
    requires { AreBelow (length tris.now) list.now }
    ensures len { length rows.new.items ≡ length rows.old.items }
    ensures marked { OnOk result ((p : ℕ → ℕ → Bool) (q : ℕ → Bool) → AreMarked rows.old.items p chunk q → AreMarked rows.new.items p chunk (λ w. list_any (λ i. has_corner w (tri_at tris.now i)) list.now || q w)) }
{
    'list: for i in list {
        mark_corners(rows, tris[*i], chunk)?;
    }
    Ok(())
}

// The chunks that own a triangle at each of so many names, rising.
fn sharer_rows(
    alloc: Global,
    tris: &[Tri],
    owned: &[Vec<usize>],
    names: usize,
) -> Result<Vec<Vec<usize>>, NoMemory>
    requires { AreTaken owned.now (is_owned_at tris.now) (length tris.now) }
    ensures len { IfOk result (λ v. length v.items ≡ names) }
    ensures rows { IfOk result (λ v. AreTaken v.items (λ n c. owns_at c n tris.now) (length owned.now)) }
{
    let mut rows = rows_of(alloc, names)?;
    'chunks: for chunk in 0..owned.len() {
        mark_listed(&mut rows, tris, &owned[chunk], chunk)?;
    }
    Ok(rows)
}

// Marks the chunks with the triangle at the place, those that share one of its corners and don't own it.
fn mark_near(
    rows: &mut Vec<Vec<usize>>,
    sharers: &[Vec<usize>],
    t: Tri,
    place: usize,
) -> Result<(), NoMemory>
    requires a { t.a < length sharers.now }
    requires b { t.b < length sharers.now }
    requires c { t.c < length sharers.now }
    ensures len { length rows.new.items ≡ length rows.old.items }
    ensures marked { OnOk result ((s p : ℕ → ℕ → Bool) (q : ℕ → Bool) → AreTaken sharers.now s (length rows.old.items) → AreMarked rows.old.items p place q → AreMarked rows.new.items p place (λ w. (not (t.owner == w) && (s t.a w || (s t.b w || s t.c w))) || q w)) }
{
    let own = t.owner as usize;
    mark_others(rows, row_of(sharers, t.c as usize), own, place)?;
    mark_others(rows, row_of(sharers, t.b as usize), own, place)?;
    mark_others(rows, row_of(sharers, t.a as usize), own, place)?;
    Ok(())
}

// The places of the ghost triangles of each of so many chunks, by the chunks that share each name.
fn near_rows(
    alloc: Global,
    tris: &[Tri],
    sharers: &[Vec<usize>],
    chunks: usize,
) -> Result<Vec<Vec<usize>>, NoMemory>
    requires corners { AreCornersBelow (length sharers.now) tris.now }
    requires sharers { AreTaken sharers.now (λ n c. owns_at c n tris.now) chunks }
    ensures len { IfOk result (λ v. length v.items ≡ chunks) }
    ensures rows { IfOk result (λ v. AreTaken v.items (is_ghost_at tris.now) (length tris.now)) }
{
    let mut rows = rows_of(alloc, chunks)?;
    'tris: for i in 0..tris.len() {
        mark_near(&mut rows, sharers, tris[i], i)?;
    }
    Ok(rows)
}

/// The places of the ghost triangles of each chunk, by those of the triangles that it owns.
pub(crate) fn ghost_rows(
    alloc: Global,
    tris: &[Tri],
    owned: &[Vec<usize>],
) -> Result<Vec<Vec<usize>>, NoMemory>
    requires { AreTaken owned.now (is_owned_at tris.now) (length tris.now) }
    ensures len { IfOk result (λ v. length v.items ≡ length owned.now) }
    ensures rows { IfOk result (λ v. AreTaken v.items (is_ghost_at tris.now) (length tris.now)) }
{
    let sharers = sharer_rows(alloc, tris, owned, past_corners(tris))?;
    let rows = near_rows(alloc, tris, &sharers, owned.len())?;
    Ok(rows)
}
