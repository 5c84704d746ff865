//! The lines of a chunk list.
ghost use Rattle.std.specs.Prelude.{◌≡◌, ◌++◌, OnOk, flat_map, unwrap_or};
ghost use Rattle.pf_model.specs.Stars.{keeper_in};
ghost use Rattle.pf_model.specs.Texts.{line_text};
ghost use Rattle.pf_assemble.specs.ChunkList.{ghost_words};
ghost use Rattle.pf_assemble.specs.Placed.{sharing_words};
ghost use Rattle.pf_assemble.specs.Spaced.{spaced_other, counts_words};

use pf_model::{Spoke, Tri};
use pf_rings::{Star, least_owner};
use row_text::{push_number, push_word};
use std::alloc::AllocError;

/// How many triangles, nodes, nodes that others share too, and ghost triangles a chunk has.
#[derive(Clone, Copy)]
pub(crate) struct Counts {
    pub(crate) triangles: usize,
    pub(crate) nodes: usize,
    pub(crate) shared: usize,
    pub(crate) ghosts: usize,
}

/// Puts the line of a chunk.
pub(crate) fn put_chunk_line(
    text: &mut Vec<u8>,
    chunk: usize,
    counts: Counts,
) -> Result<(), AllocError>
    ensures { OnOk result (text.new.items ≡ text.old.items ++ line_text (counts_words chunk counts)) }
{
    push_word(text, b"chunk", b' ')?;
    push_number(text, chunk, b' ')?;
    push_word(text, b"triangles", b' ')?;
    push_number(text, counts.triangles, b' ')?;
    push_word(text, b"nodes", b' ')?;
    push_number(text, counts.nodes, b' ')?;
    push_word(text, b"shared", b' ')?;
    push_number(text, counts.shared, b' ')?;
    push_word(text, b"ghosts", b' ')?;
    push_number(text, counts.ghosts, b'\n')?;
    Ok(())
}

/// Puts the line of a node that a chunk shares with others, by all of its chunks.
pub(crate) fn put_shared_line(
    text: &mut Vec<u8>,
    star: &Star,
    owners: &[usize],
    chunk: usize,
) -> Result<(), AllocError>
    ensures { OnOk result (text.new.items ≡ text.old.items ++ line_text (sharing_words owners.now chunk star.now)) }
{
    push_word(text, b"shared", b' ')?;
    push_number(text, star.node(), b' ')?;
    push_word(text, b"with", b' ')?;
    put_others(text, owners, chunk)?;
    push_word(text, b"keeper", b' ')?;
    push_number(text, keeper_of(star.spokes()), b'\n')?;
    Ok(())
}

// The keeper of a node with these spokes, and 0 where there is none.
fn keeper_of(spokes: &[Spoke]) -> u16
    ensures { result ≡ unwrap_or (keeper_in spokes.now) 0 }
{
    match least_owner(spokes) {
        Some(chunk) => chunk,
        None => 0,
    }
}

// Puts the chunks but this one, each with a space behind it.
fn put_others(text: &mut Vec<u8>, owners: &[usize], chunk: usize) -> Result<(), AllocError>
    ensures { OnOk result (text.new.items ≡ text.old.items ++ flat_map (spaced_other chunk) owners.now) }
{
    for other in owners {
        put_other(text, *other, chunk)?;
    }
    Ok(())
}

// Puts a chunk, where it isn't this one.
fn put_other(text: &mut Vec<u8>, other: usize, chunk: usize) -> Result<(), AllocError>
    ensures { OnOk result (text.new.items ≡ text.old.items ++ spaced_other chunk other) }
{
    if other != chunk {
        push_number(text, other, b' ')?;
    }
    Ok(())
}

/// Puts the line of a ghost triangle.
pub(crate) fn put_ghost_line(text: &mut Vec<u8>, t: Tri) -> Result<(), AllocError>
    ensures { OnOk result (text.new.items ≡ text.old.items ++ line_text (ghost_words t)) }
{
    push_word(text, b"ghost", b' ')?;
    push_number(text, t.a, b' ')?;
    push_number(text, t.b, b' ')?;
    push_number(text, t.c, b' ')?;
    push_word(text, b"of", b' ')?;
    push_number(text, t.owner, b'\n')?;
    Ok(())
}
