//! The nodes and the triangles of a mesh, from the copies of their keepers.
ghost use Rattle.std.specs.Prelude.{◌≡◌, ◌++◌, IfOk, OnOk, flat_map};
ghost use Rattle.pf_model.specs.Mesh.{tri_lt};
ghost use Rattle.pf_model.specs.Rising.{IsRising, sorted_by};
ghost use Rattle.pf_star_model.specs.Assembled.{is_kept, site_lt};
ghost use Rattle.pf_locks.specs.Closes.{shown_copy};
ghost use Rattle.pf_assemble.specs.Whole.{kept_sites, kept_tris};

use pf_geom::NoMemory;
use pf_locks::put_star;
use pf_model::{Site, Tri};
use pf_rings::least_owner;
use pf_star::ChunkCopy;
use std::alloc::Global;

// Whether the copy is that of its node's keeper.
fn is_kept(copy: &ChunkCopy) -> bool
    ensures { result ≡ is_kept (shown_copy copy.now) }
{
    match least_owner(copy.star.spokes()) {
        Some(keeper) => keeper == copy.chunk,
        None => false,
    }
}

// Puts what a copy gives of the mesh, where its chunk is the keeper of its node.
fn put_kept(sites: &mut Vec<Site>, tris: &mut Vec<Tri>, copy: &ChunkCopy) -> Result<(), NoMemory>
    ensures sites { OnOk result (sites.new.items ≡ sites.old.items ++ kept_sites copy.now) }
    ensures tris { OnOk result (tris.new.items ≡ tris.old.items ++ kept_tris copy.now) }
{
    if is_kept(copy) {
        put_star(sites, tris, &copy.star)?;
    }
    Ok(())
}

// What the copies of keepers give, in the order of the list.
fn kept_of(alloc: Global, list: &[ChunkCopy]) -> Result<(Vec<Site>, Vec<Tri>), NoMemory>
    ensures sites { IfOk result (λ r. r.0.items ≡ flat_map kept_sites list.now) }
    ensures tris { IfOk result (λ r. r.1.items ≡ flat_map kept_tris list.now) }
{
    let mut sites = Vec::new(alloc);
    let mut tris = Vec::new(alloc);
    for copy in list {
        put_kept(&mut sites, &mut tris, copy)?;
    }
    Ok((sites, tris))
}

// Sorts by name. Runs that are sorted are kept and merged.
fn sort_sites(sites: &mut Vec<Site>) -> Result<(), NoMemory>
    ensures { OnOk result (IsRising site_lt (sorted_by site_lt sites.old.items) → sites.new.items ≡ sorted_by site_lt sites.old.items) }
{
    if sites.sort_by_key(|s| s.name).is_err() {
        return Err(NoMemory);
    }
    Ok(())
}

// Sorts by corners. Runs that are sorted are kept and merged.
fn sort_tris(tris: &mut Vec<Tri>) -> Result<(), NoMemory>
    ensures { OnOk result (IsRising tri_lt (sorted_by tri_lt tris.old.items) → tris.new.items ≡ sorted_by tri_lt tris.old.items) }
{
    if tris.sort_by_key(|t| (t.a, t.b, t.c)).is_err() {
        return Err(NoMemory);
    }
    Ok(())
}

/// The nodes by rising name, and the triangles by rising corners: each node from the copy of its keeper, and each
/// triangle from that of its least corner. The copies are let go.
pub(crate) fn lists_of(
    alloc: Global,
    list: Vec<ChunkCopy>,
) -> Result<(Vec<Site>, Vec<Tri>), NoMemory>
    ensures sites { IfOk result (λ r. IsRising site_lt (sorted_by site_lt (flat_map kept_sites list.items)) → r.0.items ≡ sorted_by site_lt (flat_map kept_sites list.items)) }
    ensures tris { IfOk result (λ r. IsRising tri_lt (sorted_by tri_lt (flat_map kept_tris list.items)) → r.1.items ≡ sorted_by tri_lt (flat_map kept_tris list.items)) }
{
    let (mut sites, mut tris) = kept_of(alloc, &list)?;
    sort_sites(&mut sites)?;
    sort_tris(&mut tris)?;
    Ok((sites, tris))
}
