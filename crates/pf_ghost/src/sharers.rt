//! The list of a node's copies.
ghost use Rattle.std.specs.Prelude.{◌≡◌, ◌==◌, ◌||◌, ℕ, ◌<◌, ◌≤◌, ◌++◌, ◌∷◌, [], List, IfOk, IfSome, OnOk, Option, Some, None, length, map};
ghost use Rattle.std.specs.List.{All};
ghost use Rattle.pf_model.specs.Stars.{is_neighbour};
ghost use Rattle.pf_star_model.specs.Patched.{renamed_star};
ghost use Rattle.pf_core_model.specs.declared.sharer.Sharer.{Sharer};
ghost use Rattle.pf_core_model.specs.Sharers.{sharers_in, IsSharerList};
ghost use Rattle.pf_ghost.specs.Renamed.{renamed_sharer};
ghost use Rattle.pf_ghost.specs.Copies.{copy_for};

use crate::owners::{owner_from, sole_owner};
use pf_core_model::Sharer;
use pf_geom::NoMemory;
use pf_rings::{Star, is_near};
use std::alloc::Global;
use std::marker::Model;

/// The copies of a node, one for each chunk that shares it, by rising chunk. Contracts see the list.
#[derive(Debug, Drop)]
pub struct Sharers {
    list: Vec<Sharer>,
}

impl Model for Sharers {
    ghost use Rattle.std.specs.Prelude.{List};
    ghost use Rattle.pf_core_model.specs.declared.sharer.Sharer.{Sharer};
    ghost use Rattle.pf_core_model.specs.Sharers.{IsSharerList};

    ghost Value = { List Sharer };

    ghost view = { λ s. s.list.items };

    ghost invariant = { λ s. IsSharerList 65536 s.list.items };
}

impl Sharers {
    /// No copies. It takes no memory.
    pub fn none(alloc: Global) -> Sharers
        ensures { result ≡ [] }
    {
        Sharers {
            list: Vec::new(alloc),
        }
    }

    /// The list of these copies, which rise by chunk.
    pub fn of(list: Vec<Sharer>) -> Sharers
        requires { IsSharerList 65536 list.items }
        ensures { result ≡ list.items }
    {
        Sharers { list }
    }

    /// The copies, by rising chunk.
    pub fn list(&self) -> &[Sharer]
        ensures value { result.now ≡ self.now }
        ensures rise { IsSharerList 65536 self.now }
    {
        &self.list
    }

    /// The copies themselves.
    pub fn into_list(self) -> Vec<Sharer>
        ensures value { result.items ≡ self }
        ensures rise { IsSharerList 65536 self }
    {
        let Sharers { list } = self;
        list
    }

    /// Puts the new name in the place of the old one, in each copy.
    pub fn rename(&mut self, old: u32, name: u32)
        ensures { self.new ≡ map (renamed_sharer old name) self.old }
    {
        rename_all(&mut self.list, old, name);
    }
}

// Whether the star or one of its spokes has this name.
fn has_name(star: &Star, n: u32) -> bool
    ensures { result ≡ (star.now.node == n || is_neighbour n star.now.spokes) }
{
    star.node() == n || is_near(star.spokes(), n)
}

// Puts the new name in the place of the old one. A star without the old name is left as it is: of most operations
// that is each of them.
fn rename_star(star: &mut Star, old: u32, name: u32)
    ensures { star.new ≡ renamed_star old name star.old }
{
    if has_name(star, old) {
        star.rename(old, name);
    }
}

// Puts the new name in the place of the old one, in each of these copies.
fn rename_all(list: &mut Vec<Sharer>, old: u32, name: u32)
    ensures { list.new.items ≡ map (renamed_sharer old name) list.old.items }
{
    for k in 0..list.len() {
        rename_star(&mut list[k].star, old, name);
    }
}

// Adds a copy for this chunk, where there is one, to the list, and leaves room for one more.
fn put_copy(
    list: &mut Vec<Sharer>,
    alloc: Global,
    star: &Star,
    chunk: Option<u16>,
) -> Result<(), NoMemory>
    ensures { OnOk result (list.new.items ≡ list.old.items ++ copy_for chunk star.now) }
{
    let Some(chunk) = chunk else {
        return Ok(());
    };
    list.reserve_exact(2).map_err(|_| NoMemory)?;
    let copy = star.copied(alloc)?;
    list.push(Sharer { chunk, star: copy })
        .map_err(|_| NoMemory)?;
    Ok(())
}

// Adds a copy for each chunk but the last to an empty list, and gives the last, where there is one.
fn put_copies(
    list: &mut Vec<Sharer>,
    alloc: Global,
    star: &Star,
    chunks: u16,
) -> Result<Option<u16>, NoMemory>
    requires { list.old.items ≡ [] }
    ensures { IfOk result (λ last. list.new.items ++ copy_for last star.now ≡ sharers_in chunks (Some star.now)) }
{
    let mut last = None;
    let mut first = 0;
    'owners: while first < chunks {
        let Some(chunk) = owner_from(star.spokes(), first) else {
            return Ok(last);
        };
        if chunk >= chunks {
            return Ok(last);
        }
        put_copy(list, alloc, star, last)?;
        last = Some(chunk);
        first = chunk + 1;
    }
    Ok(last)
}

// The chunk that owns all of the star's triangles, where there is one of these chunks.
fn sole_chunk(star: &Star, chunks: u16) -> Option<u16>
    ensures { IfSome result (λ k. (k < chunks) × (0 < length star.now.spokes) × All (λ s. s.owner ≡ k) star.now.spokes) }
{
    match sole_owner(star.spokes()) {
        Some(chunk) if chunk < chunks => Some(chunk),
        _ => None,
    }
}

// The same as `put_copies`. Where one chunk owns all triangles, their owners are looked at once.
fn put_others(
    list: &mut Vec<Sharer>,
    alloc: Global,
    star: &Star,
    chunks: u16,
) -> Result<Option<u16>, NoMemory>
    requires { list.old.items ≡ [] }
    ensures { IfOk result (λ last. list.new.items ++ copy_for last star.now ≡ sharers_in chunks (Some star.now)) }
{
    if let Some(chunk) = sole_chunk(star, chunks) {
        return Ok(Some(chunk));
    }
    put_copies(list, alloc, star, chunks)
}

// The copies as a plain list, with the star itself for the last chunk.
fn copies_with(alloc: Global, star: Star, chunks: u16) -> Result<Vec<Sharer>, NoMemory>
    ensures { IfOk result (λ v. v.items ≡ sharers_in chunks (Some star)) }
{
    let mut list = Vec::new(alloc);
    let Some(chunk) = put_others(&mut list, alloc, &star, chunks)? else {
        return Ok(list);
    };
    list.reserve_exact(1).map_err(|_| NoMemory)?;
    list.push(Sharer { chunk, star }).map_err(|_| NoMemory)?;
    Ok(list)
}

/// The copies of a node with this star, which is one of them: one for each chunk below `chunks` that owns one
/// of its triangles. Where one chunk owns them all, the star is moved, and nothing is copied. Want of memory is
/// the only failure.
pub fn sharers_of_owned(alloc: Global, star: Star, chunks: u16) -> Result<Sharers, NoMemory>
    ensures { IfOk result (λ l. l ≡ sharers_in chunks (Some star)) }
{
    let list = copies_with(alloc, star, chunks)?;
    Ok(Sharers { list })
}

/// The copies of a node with this star: the star once more for each chunk below `chunks` that owns one of
/// its triangles. Want of memory is the only failure.
pub fn sharers_of(alloc: Global, star: &Star, chunks: u16) -> Result<Sharers, NoMemory>
    ensures { IfOk result (λ l. l ≡ sharers_in chunks (Some star.now)) }
{
    let copy = star.copied(alloc)?;
    sharers_of_owned(alloc, copy, chunks)
}
