//! The spokes of a node after some triangles gave way to others.
ghost use Rattle.std.specs.Prelude.{◌≡◌, ◌≤◌, [], All, IfOk, OnOk, insert, length, filter, not, filter_map};
ghost use Rattle.pf_model.specs.Rising.{insert_by, insert_all_by};
ghost use Rattle.pf_model.specs.Stars.{spoke_lt};
ghost use Rattle.pf_patch.specs.Tris.{HasCorners, spoke_in, gone_from, spokes_with};

use crate::tris::{Gone, NewTri, has_name, spoke_at};
use pf_geom::NoMemory;
use pf_model::Spoke;
use std::alloc::Global;

// Where the spoke belongs among these, by right.
fn place_of_spoke(spokes: &[Spoke], spoke: Spoke) -> usize
    ensures within { result ≤ length spokes.now }
    ensures place { insert spokes.now result spoke ≡ insert_by spoke_lt spoke spokes.now }
{
    for (i, s) in spokes.iter().enumerate() {
        if spoke.right < s.right {
            return i;
        }
    }
    spokes.len()
}

// Puts a spoke among these, by right.
fn put_spoke(spokes: &mut Vec<Spoke>, spoke: Spoke) -> Result<(), NoMemory>
    ensures { OnOk result (spokes.new.items ≡ insert_by spoke_lt spoke spokes.old.items) }
{
    let at = place_of_spoke(spokes, spoke);
    spokes.insert(at, spoke).map_err(|_| NoMemory)?;
    Ok(())
}

// Room for the spokes of `n` after: for those that come, and for those before but one, since a node whose star
// changes loses a triangle.
fn room_after(n: u32, spokes: &[Spoke], added: &[NewTri]) -> usize {
    let mut room = spokes.len().saturating_sub(1);
    for t in added {
        if has_name(t, n) {
            room = room.saturating_add(1);
        }
    }
    room
}

// Adds the spokes of `n` that stay to an empty list.
fn keep(list: &mut Vec<Spoke>, gone: Gone, n: u32, spokes: &[Spoke]) -> Result<(), NoMemory>
    requires { list.old.items ≡ [] }
    ensures { OnOk result (list.new.items ≡ filter (λ s. not (gone_from gone n s)) spokes.now) }
{
    for s in spokes {
        if !gone.has(n, s) {
            list.push(*s).map_err(|_| NoMemory)?;
        }
    }
    Ok(())
}

// Puts the spoke of `n` in each of these triangles among the spokes, from the last triangle to the first.
fn put_all(spokes: &mut Vec<Spoke>, n: u32, added: &[NewTri]) -> Result<(), NoMemory>
    requires { All HasCorners added.now }
    ensures { OnOk result (spokes.new.items ≡ insert_all_by spoke_lt (filter_map (spoke_in n) added.now) spokes.old.items) }
{
    for k in 0..added.len() {
        let t = added[added.len() - 1 - k];
        if let Some(spoke) = spoke_at(t, n) {
            put_spoke(spokes, spoke)?;
        }
    }
    Ok(())
}

/// The spokes of `n` after some of its triangles gave way to these, in a list with room for at most one more.
pub fn spokes_after(
    alloc: Global,
    gone: Gone,
    n: u32,
    spokes: &[Spoke],
    added: &[NewTri],
) -> Result<Vec<Spoke>, NoMemory>
    requires { All HasCorners added.now }
    ensures { IfOk result (λ v. v.items ≡ spokes_with gone added.now n spokes.now) }
{
    let room = room_after(n, spokes, added);
    let mut list = Vec::with_capacity(alloc, room).map_err(|_| NoMemory)?;
    keep(&mut list, gone, n, spokes)?;
    put_all(&mut list, n, added)?;
    Ok(list)
}
