//! Patches beside meshes.
use super::grown::Grown;
use super::judges::patched;
use pf_cavity::{Need, need};
use pf_geom::NoMemory;
use pf_mesh::{Mesh, Op};
use pf_rings::{NewStar, Rings, Star, renamed_name};
use pf_star::StarSet;
use std::alloc::Global;
use std::process::Abort;
use std::test::Fail;

// The most nodes that a cavity has.
const MOST_NODES: u32 = 62;

pub fn is_same(s: &Star, t: &Star) -> bool {
    s.node() == t.node() && s.at() == t.at() && s.spokes() == t.spokes()
}

// The star of each live node.
pub fn all_held(alloc: Global, mesh: &Mesh) -> Result<StarSet, NoMemory> {
    let mut set = StarSet::new(alloc);
    for star in mesh.stars(alloc)? {
        let node = star.node();
        let star = Some(star);
        set.put(NewStar { node, star })?;
    }
    Ok(set)
}

// These nodes of the mesh, with their stars.
pub fn held_of(alloc: Global, mesh: &Mesh, nodes: &[u32]) -> Result<StarSet, NoMemory> {
    let set = StarSet::of(alloc, mesh.sites(), mesh.tris(), nodes)?;
    Ok(set)
}

// Holds one node more.
fn hold_one<R: Abort + AllocGlobal>(
    rt: &R,
    mesh: &Mesh,
    set: &mut StarSet,
    node: u32,
) -> Result<(), Fail> {
    let star = mesh.star(rt.alloc(), node)?;
    assert!(rt; star.is_some());
    set.put(NewStar { node, star })?;
    Ok(())
}

// The cavity of an operation, held node by node as `need` says.
fn cavity_held<R: Abort + AllocGlobal>(rt: &R, mesh: &Mesh, op: Op) -> Result<StarSet, Fail> {
    let mut set = StarSet::new(rt.alloc());
    for _ in 0..MOST_NODES {
        match need(&set, op) {
            Need::Hold { node } => hold_one(rt, mesh, &mut set, node)?,
            Need::Whole => return Ok(set),
        }
    }
    assert_eq!(rt; need(&set, op), Need::Whole);
    Ok(set)
}

// A pair of a patch, once the new node has its name.
pub fn named(pair: NewStar, name: u32) -> NewStar {
    let NewStar { node, mut star } = pair;
    if let Some(star) = &mut star {
        star.rename(u32::MAX, name);
    }
    NewStar {
        node: renamed_name(u32::MAX, name, node),
        star,
    }
}

// The set has the mesh's star of each live node, and no other star.
fn assert_held<R: Abort + AllocGlobal>(rt: &R, set: &StarSet, mesh: &Mesh) -> Result<(), Fail> {
    let stars = mesh.stars(rt.alloc())?;
    for star in &stars {
        let same = match set.ring(star.node()) {
            Some(ring) => is_same(ring.star(), star),
            None => false,
        };
        assert!(rt; same);
    }
    let held = set.pairs().iter().filter(|p| p.star().is_some()).count();
    assert_eq!(rt; held, stars.len());
    Ok(())
}

// What the patch of an operation that passes, made of its cavity alone, makes of the stars of all nodes is what
// the mesh has after the operation.
pub fn assert_patched<R: Abort + AllocGlobal>(
    rt: &R,
    grown: &Grown,
    chunk: u16,
    op: Op,
) -> Result<(), Fail> {
    let cavity = cavity_held(rt, grown.mesh(), op)?;
    let pairs = patched(rt.alloc(), &cavity, op)?;
    let mut set = all_held(rt.alloc(), grown.mesh())?;
    for pair in pairs {
        set.put(named(pair, grown.next_name()))?;
    }
    let mut after = grown.copied(rt.alloc())?;
    assert!(rt; after.apply(chunk, op).is_ok());
    assert_held(rt, &set, after.mesh())
}
