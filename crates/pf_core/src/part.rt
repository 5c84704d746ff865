//! The triangles all of whose corners are free, and counts of words.
ghost use Rattle.std.specs.Prelude.{◌≡◌, ◌≤◌, ◌++◌, ◌==◌, nat_lt, IfOk, OnOk, length};
ghost use Rattle.pf_star_model.specs.Lent.{spokes_in};
ghost use Rattle.pf_core_model.specs.Sharers.{kept_in};
ghost use Rattle.pf_core.specs.Tables.{node_at};
ghost use Rattle.pf_core.specs.Part.{is_free_spoke, tris_at, tris_from, part_from, count_codes};

use crate::counts::Counts;
use crate::reading::is_free;
use crate::tables::Node;
use crate::word::Word;
use pf_core_model::Sharer;
use pf_geom::NoMemory;
use pf_model::{Spoke, Tri};
use std::alloc::Global;

// Whether both corners of a spoke are above its node, and free.
fn is_free_tri(nodes: &[Node], n: u32, s: Spoke) -> bool
    ensures { result ≡ is_free_spoke nodes.now n s }
{
    (n < s.right && n < s.left) && (is_free(nodes, s.right) && is_free(nodes, s.left))
}

// The free triangles of these spokes.
fn push_tris(list: &mut Vec<Tri>, nodes: &[Node], n: u32, spokes: &[Spoke]) -> Result<(), NoMemory>
    ensures { OnOk result (list.new.items ≡ list.old.items ++ tris_at nodes.now n spokes.now) }
{
    for s in spokes {
        if is_free_tri(nodes, n, *s) {
            list.push(Tri {
                a: n,
                b: s.right,
                c: s.left,
                owner: s.owner,
            })
            .map_err(|_| NoMemory)?;
        }
    }
    Ok(())
}

// The spokes of the first of these copies.
fn first_spokes(list: &[Sharer]) -> &[Spoke]
    ensures { result.now ≡ spokes_in (kept_in list.now) }
{
    match list.first() {
        Some(s) => s.star.spokes(),
        None => &[],
    }
}

// The free triangles that begin at a node.
fn push_node(list: &mut Vec<Tri>, nodes: &[Node], n: u32) -> Result<(), NoMemory>
    ensures { OnOk result (list.new.items ≡ list.old.items ++ tris_from nodes.now n) }
{
    if !is_free(nodes, n) {
        return Ok(());
    }
    match nodes.get(n as usize) {
        Some(node) => push_tris(list, nodes, n, first_spokes(node.list.list())),
        None => Ok(()),
    }
}

/// The triangles all of whose corners are free.
pub fn part_of(alloc: Global, nodes: &[Node]) -> Result<Vec<Tri>, NoMemory>
    requires { length nodes.now ≤ 1048576 }
    ensures { IfOk result (λ v. v.items ≡ part_from nodes.now 0 (length nodes.now)) }
{
    let mut list = Vec::new(alloc);
    let names = nodes.len() as u32;
    for n in 0..names {
        push_node(&mut list, nodes, n)?;
    }
    Ok(list)
}

/// How many names have which word.
pub fn counts_of(nodes: &[Node]) -> Counts
    requires { length nodes.now ≤ 1048576 }
    ensures free { result.free ≡ count_codes (λ w. w == 0) nodes.now }
    ensures held { result.held ≡ count_codes (λ w. nat_lt 2 w) nodes.now }
    ensures dead { result.dead ≡ count_codes (λ w. w == 1) nodes.now }
    ensures never { result.never ≡ count_codes (λ w. w == 2) nodes.now }
{
    let mut free = 0;
    let mut held = 0;
    let mut dead = 0;
    let mut never = 0;
    for node in nodes {
        match node.word {
            Word::Free => free += 1,
            Word::Held { .. } => held += 1,
            Word::Dead => dead += 1,
            Word::Never => never += 1,
        }
    }
    Counts {
        free,
        held,
        dead,
        never,
    }
}
