//! Triangles as their corners have them.
ghost use Rattle.std.specs.Prelude.{◌≡◌, ◌∷◌, [], ◌++◌, ◌≤◌, All, IfOk, OnOk, take, drop, length};
ghost use Rattle.std.specs.List.Sorted.{IsPermutation};
ghost use Rattle.pf_geom.specs.Plane.{IsInRange};
ghost use Rattle.pf_spokes.specs.Spokes.{HasSpots};
ghost use Rattle.pf_sweep.specs.Sweep as spec;
ghost use Rattle.pf_sweep.specs.Sweep.{AreInOrder, front_at, rest_from, spoke_by, turns_of};

use crate::points::spot;
use pf_geom::{NoMemory, Point};
use pf_model::{Spoke, Tri};
use std::alloc::Global;

/// A triangle as its corner `node` has it: its further corners, counterclockwise from there, and its owner.
#[derive(Clone, Copy, Debug, PartialEq, Eq)]
pub struct Corner {
    pub node: u32,
    pub right: u32,
    pub left: u32,
    pub owner: u16,
}

// Adds a corner to the list.
fn push(list: &mut Vec<Corner>, corner: Corner) -> Result<(), NoMemory>
    ensures { OnOk result (list.new.items ≡ list.old.items ++ corner ∷ []) }
{
    list.push(corner).map_err(|_| NoMemory)?;
    Ok(())
}

// The triangle as the first of these corners has it.
fn turn(node: u32, right: u32, left: u32, owner: u16) -> Corner
    ensures { result ≡ record { node = node; right = right; left = left; owner = owner } }
{
    Corner {
        node,
        right,
        left,
        owner,
    }
}

// Adds the triangle as each of its corners has it.
fn push_turns(list: &mut Vec<Corner>, t: Tri) -> Result<(), NoMemory>
    ensures { OnOk result (list.new.items ≡ list.old.items ++ turns_of t) }
{
    push(list, turn(t.a, t.b, t.c, t.owner))?;
    push(list, turn(t.b, t.c, t.a, t.owner))?;
    push(list, turn(t.c, t.a, t.b, t.owner))?;
    Ok(())
}

/// The triangles as their corners have them, triangle by triangle.
pub fn corners_of(alloc: Global, tris: &[Tri]) -> Result<Vec<Corner>, NoMemory>
    ensures { IfOk result (λ v. v.items ≡ spec.corners_of tris.now) }
{
    let room = tris.len().saturating_mul(3);
    let mut list = Vec::with_capacity(alloc, room).map_err(|_| NoMemory)?;
    for t in tris {
        push_turns(&mut list, *t)?;
    }
    Ok(list)
}

/// Sorts by node, and then by right.
pub fn sort_corners(corners: &mut Vec<Corner>)
    ensures permutation { IsPermutation corners.old.items corners.new.items }
    ensures order { AreInOrder corners.new.items }
{
    corners.sort_unstable_by_key(|c| (c.node, c.right));
}

/// The triangle as its corner `n` has it.
pub fn corner_at(t: Tri, n: u32) -> Option<Corner>
    ensures { result ≡ spec.corner_at n t }
{
    if t.a == n {
        return Some(turn(t.a, t.b, t.c, t.owner));
    }
    if t.b == n {
        return Some(turn(t.b, t.c, t.a, t.owner));
    }
    if t.c == n {
        return Some(turn(t.c, t.a, t.b, t.owner));
    }
    None
}

/// The spoke of the corner's node, with its points.
pub fn spoke(points: &[Point], c: Corner) -> Spoke
    ensures value { result ≡ spoke_by points.now c }
    ensures in_range { All IsInRange points.now → HasSpots result }
{
    Spoke {
        right: c.right,
        right_at: spot(points, c.right),
        left: c.left,
        left_at: spot(points, c.left),
        owner: c.owner,
    }
}

/// How many at the front have the node `n`.
pub fn front(corners: &[Corner], n: u32) -> usize
    ensures within { result ≤ length corners.now }
    ensures front { take result corners.now ≡ front_at n corners.now }
    ensures rest { drop result corners.now ≡ rest_from n corners.now }
{
    for (i, c) in corners.iter().enumerate() {
        if c.node != n {
            return i;
        }
    }
    corners.len()
}
