//! The keeper of each node: the least owner of a triangle at it.
ghost use Rattle.std.specs.Prelude.{◌≡◌, ℕ, ◌<◌, length, IfOk, None};
ghost use Rattle.pf_rings.specs.Least.{keeper_with};
ghost use Rattle.pf_workers.specs.Keepers.{kept_at, noted, seen, gathered};

use pf_geom::NoMemory;
use pf_model::Tri;
use std::alloc::Global;

// The lesser of two owners, where there is a second.
fn lesser_owner(owner: u16, least: Option<u16>) -> Option<u16>
    ensures { result ≡ keeper_with owner least }
{
    match least {
        Some(k) => { if owner < k { Some(owner) } else { Some(k) } }
        None => Some(owner),
    }
}

// Notes that a triangle at the node has this owner.
fn note_owner(keepers: &mut [Option<u16>], n: u32, owner: u16)
    ensures len { length keepers.new ≡ length keepers.old }
    ensures noted { (k : ℕ) → k < length keepers.old → kept_at keepers.new k ≡ noted n owner k (kept_at keepers.old k) }
{
    let at = n as usize;
    if at < keepers.len() {
        keepers[at] = lesser_owner(owner, keepers[at]);
    }
}

// Notes the owner of a triangle at its corners.
fn note_tri(keepers: &mut [Option<u16>], tri: Tri)
    ensures len { length keepers.new ≡ length keepers.old }
    ensures seen { (k : ℕ) → k < length keepers.old → kept_at keepers.new k ≡ seen tri k (kept_at keepers.old k) }
{
    note_owner(keepers, tri.a, tri.owner);
    note_owner(keepers, tri.b, tri.owner);
    note_owner(keepers, tri.c, tri.owner);
}

/// The keeper of each name below this one, by name: the least owner of a triangle that has it as a corner, where
/// there is one. It takes time in proportion to the triangles and names.
pub fn keepers_of(alloc: Global, tris: &[Tri], names: u32) -> Result<Vec<Option<u16>>, NoMemory>
    ensures len { IfOk result (λ v. length v.items ≡ names) }
    ensures kept { IfOk result (λ v. (n : ℕ) → n < names → kept_at v.items n ≡ gathered n None tris.now) }
{
    let Ok(mut keepers) = vec![in alloc; None; names as usize] else {
        return Err(NoMemory);
    };
    'tris: for tri in tris {
        note_tri(&mut keepers, *tri);
    }
    Ok(keepers)
}
