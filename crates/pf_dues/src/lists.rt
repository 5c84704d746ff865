//! Copies that are put into the list of a node.
ghost use Rattle.std.specs.Prelude.{◌≡◌, IfOk, OnOk, OnErr, Some, None};
ghost use Rattle.pf_star_model.specs.Copies.{due_copy};
ghost use Rattle.pf_core_model.specs.Sharers.{put_copy};
ghost use Rattle.pf_dues.specs.Lists.{index_of, has_copy};

use pf_core_model::Sharer;
use pf_geom::NoMemory;
use pf_ghost::Sharers;
use pf_rings::{Star, has_owner};
use std::alloc::Global;
use std::mem;

/// The copy that is due to a chunk by this star.
pub fn due_of(alloc: Global, star: &Option<Star>, chunk: u16) -> Result<Option<Star>, NoMemory>
    ensures { IfOk result (λ x. x ≡ due_copy chunk star.now) }
{
    let Some(star) = star else {
        return Ok(None);
    };
    if has_owner(star.spokes(), chunk) {
        Ok(Some(star.copied(alloc)?))
    } else {
        Ok(None)
    }
}

// How many copies come before that of the chunk.
fn place(list: &[Sharer], chunk: u16) -> usize
    ensures { result ≡ index_of chunk list.now }
{
    for (i, s) in list.iter().enumerate() {
        if s.chunk >= chunk {
            return i;
        }
    }
    list.len()
}

// Whether the chunk has a copy.
fn is_there(list: &[Sharer], chunk: u16) -> bool
    ensures { result ≡ has_copy chunk list.now }
{
    for s in list {
        if s.chunk >= chunk {
            return s.chunk == chunk;
        }
    }
    false
}

// Puts a copy for the chunk.
fn put_star(list: &mut Vec<Sharer>, chunk: u16, star: Star) -> Result<(), NoMemory>
    ensures put { OnOk result (list.new.items ≡ put_copy chunk (Some star) list.old.items) }
    ensures same { OnErr result (list.new.items ≡ list.old.items) }
{
    let at = place(list, chunk);
    if is_there(list, chunk) {
        list[at] = Sharer { chunk, star };
        return Ok(());
    }
    list.insert(at, Sharer { chunk, star })
        .map_err(|_| NoMemory)?;
    Ok(())
}

// Takes away the chunk's copy.
fn take_star(list: &mut Vec<Sharer>, chunk: u16)
    ensures { list.new.items ≡ put_copy chunk None list.old.items }
{
    let at = place(list, chunk);
    if is_there(list, chunk) {
        let _ = list.remove(at);
    }
}

// Puts this copy, or none, for the chunk.
fn put(list: &mut Vec<Sharer>, chunk: u16, copy: Option<Star>) -> Result<(), NoMemory>
    ensures put { OnOk result (list.new.items ≡ put_copy chunk copy list.old.items) }
    ensures same { OnErr result (list.new.items ≡ list.old.items) }
{
    match copy {
        Some(star) => put_star(list, chunk, star),
        None => {
            take_star(list, chunk);
            Ok(())
        }
    }
}

/// Puts a copy, or none, for the chunk into the list of a node's copies. Where memory ran out, the list is as
/// before.
pub fn put_listed(
    alloc: Global,
    sharers: &mut Sharers,
    chunk: u16,
    copy: Option<Star>,
) -> Result<(), NoMemory>
    ensures put { OnOk result (sharers.new ≡ put_copy chunk copy sharers.old) }
    ensures same { OnErr result (sharers.new ≡ sharers.old) }
{
    let mut list = mem::replace(sharers, Sharers::none(alloc)).into_list();
    let result = put(&mut list, chunk, copy);
    *sharers = Sharers::of(list);
    result
}
