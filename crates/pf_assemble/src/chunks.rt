//! The chunk list of a mesh.
ghost use Rattle.std.specs.Prelude.{◌≡◌, ◌<◌, ◌++◌, [], ◌∷◌, cond, IfOk, OnOk, filter, flat_map, length};
ghost use Rattle.std.specs.List.{range_with_len};
ghost use Rattle.pf_model.specs.Texts.{line_text};
ghost use Rattle.pf_assemble.specs.ChunkList.{chunk_list_of};
ghost use Rattle.pf_assemble.specs.Listed.{part_text};
ghost use Rattle.pf_assemble.specs.Placed.{star_at, has_other, sharing_line, ghost_line, placed_text, AreRowsOf};
ghost use Rattle.pf_assemble.specs.Rows.{AreBelow};
ghost use Rattle.pf_assemble.specs.Spaced.{counts_words};

use crate::lines::{Counts, put_chunk_line, put_ghost_line, put_shared_line};
use crate::lists::{Lists, lists_of};
use crate::rows::row_of;
use pf_geom::NoMemory;
use pf_mesh::Mesh;
use pf_model::Tri;
use pf_rings::Star;
use std::alloc::{AllocError, Global};

/// The chunk list of a mesh: for each chunk how many triangles it owns, how many nodes it shares in, how many of these
/// others share too, and how many ghost triangles it has; then a line for each of those nodes, and one for each ghost
/// triangle. Want of memory is the only failure.
pub fn chunk_lines(alloc: Global, m: &Mesh) -> Result<Vec<u8>, NoMemory>
    ensures { IfOk result (λ text. text.items ≡ chunk_list_of m.now.mesh) }
{
    let stars = m.stars(alloc)?;
    let text = list_of(alloc, &stars, m.tris(), m.chunks())?;
    Ok(text)
}

// The chunk list by stars and triangles.
fn list_of(alloc: Global, stars: &[Star], tris: &[Tri], chunks: u16) -> Result<Vec<u8>, NoMemory>
    ensures { IfOk result (λ text. text.items ≡ flat_map (part_text stars.now tris.now chunks) (range_with_len 0 chunks)) }
{
    let lists = lists_of(alloc, stars, tris, chunks)?;
    let text = text_of(alloc, stars, tris, &lists, chunks)?;
    Ok(text)
}

// The chunk list by stars, triangles and the places that each chunk has.
fn text_of(
    alloc: Global,
    stars: &[Star],
    tris: &[Tri],
    lists: &Lists,
    chunks: u16,
) -> Result<Vec<u8>, NoMemory>
    requires { AreRowsOf stars.now tris.now chunks lists.now.owned.items lists.now.nodes.items lists.now.owners.items lists.now.ghosts.items }
    ensures { IfOk result (λ text. text.items ≡ flat_map (part_text stars.now tris.now chunks) (range_with_len 0 chunks)) }
{
    let mut text = Vec::new(alloc);
    'chunks: for chunk in 0..chunks {
        put_listed(alloc, &mut text, stars, tris, lists, chunk, chunks)?;
    }
    Ok(text)
}

// Puts the lines of a chunk, by all lists.
fn put_listed(
    alloc: Global,
    text: &mut Vec<u8>,
    stars: &[Star],
    tris: &[Tri],
    lists: &Lists,
    chunk: u16,
    chunks: u16,
) -> Result<(), NoMemory>
    requires lists { AreRowsOf stars.now tris.now chunks lists.now.owned.items lists.now.nodes.items lists.now.owners.items lists.now.ghosts.items }
    requires within { chunk < chunks }
    ensures { OnOk result (text.new.items ≡ text.old.items ++ part_text stars.now tris.now chunks chunk) }
{
    let chunk = chunk as usize;
    let owned = lists.owned[chunk].len();
    let nodes = row_of(&lists.nodes, chunk);
    let ghosts = row_of(&lists.ghosts, chunk);
    put_part(
        alloc,
        text,
        stars,
        tris,
        &lists.owners,
        chunk,
        owned,
        nodes,
        ghosts,
    )?;
    Ok(())
}

// Puts the lines of a chunk that owns so many triangles, by the places of its nodes and of its ghosts.
fn put_part(
    alloc: Global,
    text: &mut Vec<u8>,
    stars: &[Star],
    tris: &[Tri],
    owners: &[Vec<usize>],
    chunk: usize,
    owned: usize,
    nodes: &[usize],
    ghosts: &[usize],
) -> Result<(), NoMemory>
    requires owners { length owners.now ≡ length stars.now }
    requires nodes { AreBelow (length stars.now) nodes.now }
    requires ghosts { AreBelow (length tris.now) ghosts.now }
    ensures { OnOk result (text.new.items ≡ text.old.items ++ placed_text stars.now tris.now owners.now chunk owned nodes.now ghosts.now) }
{
    let shared = shared_places(alloc, stars, nodes, chunk)?;
    let counts = Counts {
        triangles: owned,
        nodes: nodes.len(),
        shared: shared.len(),
        ghosts: ghosts.len(),
    };
    match put_lines(text, stars, tris, owners, chunk, counts, &shared, ghosts) {
        Ok(()) => Ok(()),
        Err(_) => Err(NoMemory),
    }
}

// The places among these of nodes that others share too.
fn shared_places(
    alloc: Global,
    stars: &[Star],
    nodes: &[usize],
    chunk: usize,
) -> Result<Vec<usize>, NoMemory>
    requires { AreBelow (length stars.now) nodes.now }
    ensures { IfOk result (λ v. v.items ≡ filter (λ p. has_other chunk (star_at stars.now p)) nodes.now) }
{
    let mut list = Vec::new(alloc);
    'nodes: for place in nodes {
        put_place(&mut list, &stars[*place], *place, chunk)?;
    }
    Ok(list)
}

// Puts the place of a star that another chunk shares too.
fn put_place(list: &mut Vec<usize>, star: &Star, place: usize, chunk: usize) -> Result<(), NoMemory>
    ensures { OnOk result (list.new.items ≡ list.old.items ++ cond (has_other chunk star.now) (place ∷ []) []) }
{
    if has_other(star, chunk) {
        list.push(place).map_err(|_| NoMemory)?;
    }
    Ok(())
}

// Whether another chunk shares the star.
fn has_other(star: &Star, chunk: usize) -> bool
    ensures { result ≡ has_other chunk star.now }
{
    star.spokes().iter().any(|s| s.owner as usize != chunk)
}

// Puts the line of a chunk, those of nodes that others share too, and those of ghost triangles.
fn put_lines(
    text: &mut Vec<u8>,
    stars: &[Star],
    tris: &[Tri],
    owners: &[Vec<usize>],
    chunk: usize,
    counts: Counts,
    shared: &[usize],
    ghosts: &[usize],
) -> Result<(), AllocError>
    requires owners { length owners.now ≡ length stars.now }
    requires shared { AreBelow (length stars.now) shared.now }
    requires ghosts { AreBelow (length tris.now) ghosts.now }
    ensures { OnOk result (text.new.items ≡ text.old.items ++ line_text (counts_words chunk counts)
        ++ flat_map (sharing_line stars.now owners.now chunk) shared.now
        ++ flat_map (ghost_line tris.now) ghosts.now) }
{
    put_chunk_line(text, chunk, counts)?;
    put_shared_lines(text, stars, owners, shared, chunk)?;
    put_ghost_lines(text, tris, ghosts)?;
    Ok(())
}

// Puts the lines of the nodes at these places.
fn put_shared_lines(
    text: &mut Vec<u8>,
    stars: &[Star],
    owners: &[Vec<usize>],
    places: &[usize],
    chunk: usize,
) -> Result<(), AllocError>
    requires owners { length owners.now ≡ length stars.now }
    requires places { AreBelow (length stars.now) places.now }
    ensures { OnOk result (text.new.items ≡ text.old.items ++ flat_map (sharing_line stars.now owners.now chunk) places.now) }
{
    'places: for place in places {
        put_shared_line(text, &stars[*place], row_of(owners, *place), chunk)?;
    }
    Ok(())
}

// Puts the lines of the triangles at these places.
fn put_ghost_lines(text: &mut Vec<u8>, tris: &[Tri], places: &[usize]) -> Result<(), AllocError>
    requires { AreBelow (length tris.now) places.now }
    ensures { OnOk result (text.new.items ≡ text.old.items ++ flat_map (ghost_line tris.now) places.now) }
{
    'places: for place in places {
        put_ghost_line(text, tris[*place])?;
    }
    Ok(())
}
