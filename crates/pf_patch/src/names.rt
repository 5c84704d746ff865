//! The nodes whose stars an operation changes.
ghost use Rattle.std.specs.Prelude.{◌≡◌, ◌≤◌, [], ◌∷◌, ◌++◌, IfOk, IfSome, OnOk, Option, None, insert, length, map};
ghost use Rattle.std.specs.Option.{option_map};
ghost use Rattle.pf_model.specs.declared.Op.TheVariants.{Flip, Contract};
ghost use Rattle.pf_model.specs.Rows.{neighbours};
ghost use Rattle.pf_star_model.specs.Cavity.{apexes, cavity_seen};
ghost use Rattle.pf_star_model.specs.Patched as model;
ghost use Rattle.pf_star_model.specs.Patched.{changed_by, made_by};
ghost use Rattle.pf_rings.specs.Points.{left_side, right_side};
ghost use Rattle.pf_patch.specs.Plans.{edge_by, left_on, put_names, right_on};

use crate::edge::{Edge, degree};
use pf_geom::NoMemory;
use pf_model::{Op, Spoke};
use pf_rings::Rings;
use std::alloc::Global;

// Where a name belongs among these, which rise, and `None` where it is one of them.
fn place_of_name(names: &[u32], n: u32) -> Option<usize>
    ensures there { result ≡ None → model.put_name n names.now ≡ names.now }
    ensures place { IfSome result (λ i. (i ≤ length names.now) × (insert names.now i n ≡ model.put_name n names.now)) }
{
    for (i, k) in names.iter().enumerate() {
        if n == *k {
            return None;
        }
        if n < *k {
            return Some(i);
        }
    }
    Some(names.len())
}

// Puts a name among these, which rise, where it isn't one of them.
fn put_name(names: &mut Vec<u32>, n: u32) -> Result<(), NoMemory>
    ensures { OnOk result (names.new.items ≡ model.put_name n names.old.items) }
{
    if let Some(at) = place_of_name(names, n) {
        names.insert(at, n).map_err(|_| NoMemory)?;
    }
    Ok(())
}

// Puts the apex of the triangle on the left among these.
fn put_left(names: &mut Vec<u32>, spoke: Option<Spoke>) -> Result<(), NoMemory>
    ensures { OnOk result (names.new.items ≡ put_names (apexes (option_map left_side spoke)) names.old.items) }
{
    if let Some(s) = spoke {
        put_name(names, s.left)?;
    }
    Ok(())
}

// Puts the apex of the triangle on the right among these.
fn put_right(names: &mut Vec<u32>, spoke: Option<Spoke>) -> Result<(), NoMemory>
    ensures { OnOk result (names.new.items ≡ put_names (apexes (option_map right_side spoke)) names.old.items) }
{
    if let Some(s) = spoke {
        put_name(names, s.right)?;
    }
    Ok(())
}

// Puts the rights of these spokes among the names.
fn put_rights(names: &mut Vec<u32>, spokes: &[Spoke]) -> Result<(), NoMemory>
    ensures { OnOk result (names.new.items ≡ put_names (map (λ s. s.right) spokes.now) names.old.items) }
{
    for k in 0..spokes.len() {
        put_name(names, spokes[spokes.len() - 1 - k].right)?;
    }
    Ok(())
}

// Puts the lefts of these spokes among the names.
fn put_lefts(names: &mut Vec<u32>, spokes: &[Spoke]) -> Result<(), NoMemory>
    ensures { OnOk result (names.new.items ≡ put_names (map (λ s. s.left) spokes.now) names.old.items) }
{
    for k in 0..spokes.len() {
        put_name(names, spokes[spokes.len() - 1 - k].left)?;
    }
    Ok(())
}

// Puts both ends among the names.
fn put_ends(names: &mut Vec<u32>, a: u32, b: u32) -> Result<(), NoMemory>
    ensures { OnOk result (names.new.items ≡ put_names (a ∷ b ∷ []) names.old.items) }
{
    put_name(names, b)?;
    put_name(names, a)?;
    Ok(())
}

// Puts the apexes of the triangles at an edge among the names.
fn put_apexes(names: &mut Vec<u32>, edge: &Option<Edge>) -> Result<(), NoMemory>
    ensures { OnOk result (names.new.items ≡ put_names (apexes (left_on edge.now) ++ apexes (right_on edge.now)) names.old.items) }
{
    if let Some(e) = edge {
        put_right(names, e.right)?;
        put_left(names, e.left)?;
    }
    Ok(())
}

// The ends and the apexes of an edge.
fn edge_names(names: &mut Vec<u32>, edge: &Option<Edge>, a: u32, b: u32) -> Result<(), NoMemory>
    ensures { OnOk result (names.new.items ≡ put_names (a ∷ b ∷ apexes (left_on edge.now) ++ apexes (right_on edge.now)) names.old.items) }
{
    put_apexes(names, edge)?;
    put_ends(names, a, b)?;
    Ok(())
}

// Puts the neighbours of the node of these spokes among the names.
fn put_neighbours(names: &mut Vec<u32>, spokes: &[Spoke]) -> Result<(), NoMemory>
    ensures { OnOk result (names.new.items ≡ put_names (neighbours spokes.now) names.old.items) }
{
    put_lefts(names, spokes)?;
    put_rights(names, spokes)?;
    Ok(())
}

// The ends of a contraction and the neighbours of the node that goes.
fn fan_names<R: Rings>(r: &R, u: u32, v: u32, names: &mut Vec<u32>) -> Result<(), NoMemory>
    ensures { OnOk result (names.new.items ≡ put_names (cavity_seen (R.lent r.now) (Contract u v)) names.old.items) }
{
    if let Some(ring) = r.ring(u) {
        put_neighbours(names, ring.spokes())?;
    }
    put_ends(names, u, v)?;
    Ok(())
}

// The nodes of the operation's cavity.
fn cavity_names<R: Rings>(
    r: &R,
    op: Op,
    edge: &Option<Edge>,
    names: &mut Vec<u32>,
) -> Result<(), NoMemory>
    requires { edge.now ≡ edge_by (R.lent r.now) op }
    ensures { OnOk result (names.new.items ≡ put_names (cavity_seen (R.lent r.now) op) names.old.items) }
{
    match op {
        Op::Flip { a, b } => edge_names(names, edge, a, b),
        Op::Bisect { a, b } => edge_names(names, edge, a, b),
        Op::Contract { u, v } => fan_names(r, u, v, names),
    }
}

// The node that the operation makes, where it makes one.
fn made_names(op: Op, names: &mut Vec<u32>) -> Result<(), NoMemory>
    ensures { OnOk result (names.new.items ≡ put_names (made_by 4294967295 op) names.old.items) }
{
    match op {
        Op::Bisect { a: _, b: _ } => put_name(names, u32::MAX),
        Op::Flip { a: _, b: _ } => Ok(()),
        Op::Contract { u: _, v: _ } => Ok(()),
    }
}

// How many nodes an operation may change: its ends, their apexes and the node that it makes, or the node that
// goes and its neighbours.
fn room_for<R: Rings>(r: &R, op: Op) -> usize {
    match op {
        Op::Flip { a: _, b: _ } => 4,
        Op::Bisect { a: _, b: _ } => 5,
        Op::Contract { u, v: _ } => degree(r, u).saturating_add(2),
    }
}

/// The nodes whose stars the operation changes, each once, by rising name: those of its cavity, and the new
/// node.
pub fn changed<R: Rings>(
    alloc: Global,
    r: &R,
    op: Op,
    edge: &Option<Edge>,
) -> Result<Vec<u32>, NoMemory>
    requires { edge.now ≡ edge_by (R.lent r.now) op }
    ensures { IfOk result (λ v. v.items ≡ changed_by (R.lent r.now) 4294967295 op) }
{
    let mut names = Vec::with_capacity(alloc, room_for(r, op)).map_err(|_| NoMemory)?;
    made_names(op, &mut names)?;
    cavity_names(r, op, edge, &mut names)?;
    Ok(names)
}
