//! A set of stars that are held, and lent.
ghost use Rattle.std.specs.Prelude.{◌≡◌, ℕ, ◌==◌, ◌≤◌, [], true, false, Contains, IfOk, OnErr, OnOk, insert, map, vec_len};
ghost use Rattle.std.specs.List.{list_any};
ghost use Rattle.std.specs.Option.{option_map};
ghost use Rattle.pf_model.specs.Stars.{star_of};
ghost use Rattle.pf_star_model.specs.Lent.{AgreesOn, Held, is_held, star_held};
ghost use Rattle.pf_rings.specs.Lending.{star_in};
ghost use Rattle.pf_sweep.specs.Lists.{AreLists, mesh_by};
ghost use Rattle.pf_star.specs.Sets.{IsIndexOfPair, IsAt, IsNotAt, AreRising, put_held, held_at, pair_of, without_held};

use pf_geom::NoMemory;
use pf_model::{Site, Tri};
use pf_rings::{NewStar, Ring, Rings, Star};
use pf_sweep::stars;
use std::alloc::Global;
use std::marker::Model;

/// Nodes that are held, each once and by rising name, with their stars or as nodes without one. Contracts see
/// the list of the pairs.
#[derive(Debug, Drop)]
pub struct StarSet {
    pairs: Vec<NewStar>,
}

impl Model for StarSet {
    ghost use Rattle.std.specs.Prelude.{◌<◌, List, AllPairs};
    ghost use Rattle.pf_star_model.specs.Lent.{Held};

    ghost Value = { List Held };

    ghost view = { λ s. s.pairs.items };

    ghost invariant = { λ s. AllPairs (λ h k. h.node < k.node) s.pairs.items };
}

// How many of the pairs have a node below this one.
fn place(pairs: &[NewStar], n: u32) -> usize
    requires { AreRising pairs.now }
    ensures { IsIndexOfPair n pairs.now result }
{
    let mut low = 0;
    let mut high = pairs.len();
    'halves: while low < high {
        let middle = low + (high - low) / 2;
        if pairs[middle].node() < n {
            low = middle + 1;
        } else {
            high = middle;
        }
    }
    low
}

// Whether there is a pair at this place, and it is the node's.
fn is_at(pairs: &[NewStar], at: usize, n: u32) -> bool
    ensures there { result ≡ true → IsAt n pairs.now at }
    ensures absent { result ≡ false → IsNotAt n pairs.now at }
{
    at < pairs.len() && pairs[at].node() == n
}

// The ring of the star, where there is one.
fn ring_of(star: &Option<Star>) -> Option<Ring<'_>>
    ensures { option_map star_in result ≡ star.now }
{
    match star {
        Some(star) => Some(Ring::of(star)),
        None => None,
    }
}

// The ring of the node, where it is held with a star.
fn find_ring(pairs: &[NewStar], n: u32) -> Option<Ring<'_>>
    requires { AreRising pairs.now }
    ensures { option_map star_in result ≡ star_held pairs.now n }
{
    let at = place(pairs, n);
    if !is_at(pairs, at, n) {
        return None;
    }
    ring_of(pairs[at].star())
}

// Puts a pair at this place, before those that stand from there on.
fn insert_pair(pairs: &mut Vec<NewStar>, at: usize, pair: NewStar) -> Result<(), NoMemory>
    requires { at ≤ vec_len pairs.old }
    ensures put { OnOk result (pairs.new.items ≡ insert pairs.old.items at pair) }
    ensures same { OnErr result (pairs.new.items ≡ pairs.old.items) }
{
    pairs.insert(at, pair).map_err(|_| NoMemory)?;
    Ok(())
}

// Puts a pair among these, in the place of that of its node where there is one.
fn put_pair(pairs: &mut Vec<NewStar>, pair: NewStar) -> Result<(), NoMemory>
    requires { AreRising pairs.old.items }
    ensures put { OnOk result (pairs.new.items ≡ put_held pair pairs.old.items) }
    ensures same { OnErr result (pairs.new.items ≡ pairs.old.items) }
    ensures rises { AreRising pairs.new.items }
{
    let n = pair.node();
    let at = place(pairs, n);
    if is_at(pairs, at, n) {
        pairs[at] = pair;
        return Ok(());
    }
    insert_pair(pairs, at, pair)?;
    Ok(())
}

// Takes the pair of the node out of these, where there is one.
fn take_pair(pairs: &mut Vec<NewStar>, n: u32) -> Option<NewStar>
    requires { AreRising pairs.old.items }
    ensures taken { result ≡ held_at n pairs.old.items }
    ensures others { pairs.new.items ≡ without_held n pairs.old.items }
    ensures rises { AreRising pairs.new.items }
{
    let at = place(pairs, n);
    if !is_at(pairs, at, n) {
        return None;
    }
    Some(pairs.remove(at))
}

// Each of the stars, as the pair of its node.
fn pairs_of(alloc: Global, stars: Vec<Star>) -> Result<Vec<NewStar>, NoMemory>
    ensures { IfOk result (λ v. v.items ≡ map pair_of stars.items) }
{
    let mut pairs = Vec::with_capacity(alloc, stars.len()).map_err(|_| NoMemory)?;
    for star in stars {
        let node = star.node();
        let star = Some(star);
        pairs.push(NewStar { node, star }).map_err(|_| NoMemory)?;
    }
    Ok(pairs)
}

// The star once more, where there is one.
fn copied(alloc: Global, ring: Option<Ring<'_>>) -> Result<Option<Star>, NoMemory>
    ensures { IfOk result (λ o. o ≡ option_map star_in ring.entry) }
{
    match ring {
        Some(ring) => Ok(Some(ring.star().copied(alloc)?)),
        None => Ok(None),
    }
}

// The pairs of all live nodes of a mesh with these lists.
fn all_pairs(alloc: Global, sites: &[Site], tris: &[Tri]) -> Result<Vec<NewStar>, NoMemory>
    requires { AreLists sites.now tris.now }
    ensures rises { IfOk result (λ v. AreRising v.items) }
    ensures stars { IfOk result (λ v. (n : ℕ) → star_held v.items n ≡ star_of (mesh_by sites.now tris.now) n) }
{
    let stars = stars(alloc, sites, tris)?;
    let pairs = pairs_of(alloc, stars)?;
    Ok(pairs)
}

// Each node with what is held of it among all.
fn chosen(alloc: Global, all: &[NewStar], nodes: &[u32]) -> Result<Vec<NewStar>, NoMemory>
    requires { AreRising all.now }
    ensures rises { IfOk result (λ v. AreRising v.items) }
    ensures stars { IfOk result (λ v. (h : Held) → Contains v.items h → h.star ≡ star_held all.now h.node) }
    ensures nodes { IfOk result (λ v. (n : ℕ) → is_held v.items n ≡ list_any (λ k. k == n) nodes.now) }
{
    let mut pairs = Vec::new(alloc);
    for n in nodes {
        let star = copied(alloc, find_ring(all, *n))?;
        put_pair(&mut pairs, NewStar { node: *n, star })?;
    }
    Ok(pairs)
}

impl StarSet {
    /// These nodes of a mesh with these lists: each with its star there, or as one without where it isn't live.
    /// All stars are made once, and those of the nodes are copied. `NoMemory` says that memory ran out.
    pub fn of(
        alloc: Global,
        sites: &[Site],
        tris: &[Tri],
        nodes: &[u32],
    ) -> Result<StarSet, NoMemory>
        requires { AreLists sites.now tris.now }
        ensures agrees { IfOk result (λ s. AgreesOn s (mesh_by sites.now tris.now)) }
        ensures held { IfOk result (λ s. (n : ℕ) → is_held s n ≡ list_any (λ k. k == n) nodes.now) }
    {
        let all = all_pairs(alloc, sites, tris)?;
        let pairs = chosen(alloc, &all, nodes)?;
        Ok(StarSet { pairs })
    }

    /// A set without nodes, which takes its memory from this allocator.
    pub fn new(alloc: Global) -> StarSet
        ensures { result ≡ [] }
    {
        StarSet {
            pairs: Vec::new(alloc),
        }
    }

    /// The pairs, by rising node.
    pub fn pairs(&self) -> &[NewStar]
        ensures value { result.now ≡ self.now }
        ensures rises { AreRising result.now }
    {
        &self.pairs
    }

    /// Puts a node with its star, or as one without, in the place of what is held of the node. Where memory ran
    /// out, the set is as before.
    pub fn put(&mut self, pair: NewStar) -> Result<(), NoMemory>
        ensures put { OnOk result (self.new ≡ put_held pair self.old) }
        ensures same { OnErr result (self.new ≡ self.old) }
    {
        put_pair(&mut self.pairs, pair)
    }

    /// Takes out what is held of a node, where it is held.
    pub fn take(&mut self, n: u32) -> Option<NewStar>
        ensures taken { result ≡ held_at n self.old }
        ensures others { self.new ≡ without_held n self.old }
    {
        take_pair(&mut self.pairs, n)
    }
}

impl Rings for StarSet {
    ghost use Rattle.pf_star_model.specs.Lent.{star_held};

    ghost lent = { star_held };

    fn ring(&self, n: u32) -> Option<Ring<'_>> {
        find_ring(&self.pairs, n)
    }
}
