//! The new stars of a patch, each made once.
ghost use Rattle.std.specs.Prelude.{◌≡◌, ℕ, ◌+◌, ◌≤◌, [], All, IfOk, IfSome, Option, Some, None, map};
ghost use Rattle.pf_model.specs.Mesh.{Undivided};
ghost use Rattle.pf_model.specs.declared.Entry.{Entry};
ghost use Rattle.pf_star_model.specs.Patched.{patch_of, renamed_pair};
ghost use Rattle.pf_star_model.specs.Laws.{CanApply, AreEndsShown};
ghost use Rattle.pf_patch.specs.Tris.{HasCorners, HasSpot, spokes_with, star_with};
ghost use Rattle.pf_patch.specs.Plans.{is_dead, born_at, planned, planned_pair};

use crate::edge::edge_of;
use crate::names::changed;
use crate::plan::{Plan, plan_of};
use crate::put::spokes_after;
use crate::tris::Corner;
use pf_geom::NoMemory;
use pf_model::Op;
use pf_rings::{NewStar, Rings, Star};
use std::alloc::Global;

impl Plan {
    // Whether the node goes.
    fn is_dead(&self, n: u32) -> bool
        ensures { result ≡ is_dead n self.now.dead }
    {
        match self.dead {
            Some(k) => n == k,
            None => false,
        }
    }

    // The node that comes, where it is this one.
    fn born_at(&self, n: u32) -> Option<Corner>
        requires { IfSome self.now.born HasSpot }
        ensures value { result ≡ born_at n self.now.born }
        ensures in_range { IfSome result HasSpot }
    {
        match self.born {
            Some(c) if n == c.name => Some(c),
            _ => None,
        }
    }
}

// The star of a node that comes.
fn made(alloc: Global, plan: &Plan, c: Corner) -> Result<Star, NoMemory>
    requires corners { All HasCorners plan.now.added.items }
    requires spot { HasSpot c }
    ensures { IfOk result (λ s. s ≡ record { node = c.name; at = c.at; spokes = spokes_with plan.now.gone plan.now.added.items c.name [] }) }
{
    let spokes = spokes_after(alloc, plan.gone, c.name, &[], &plan.added)?;
    Ok(Star::of_parts(c.name, c.at, spokes))
}

// The star after of a node that stays.
fn kept(alloc: Global, plan: &Plan, star: &Star) -> Result<Star, NoMemory>
    requires { All HasCorners plan.now.added.items }
    ensures { IfOk result (λ s. s ≡ star_with plan.now.gone plan.now.added.items star.now) }
{
    let spokes = spokes_after(alloc, plan.gone, star.node(), star.spokes(), &plan.added)?;
    Ok(Star::of_parts(star.node(), star.at(), spokes))
}

// The star of the node after, where it has one.
fn star_after<R: Rings>(alloc: Global, r: &R, plan: &Plan, n: u32) -> Result<Option<Star>, NoMemory>
    requires corners { All HasCorners plan.now.added.items }
    requires spot { IfSome plan.now.born HasSpot }
    ensures { IfOk result (λ o. o ≡ planned (R.lent r.now) plan.now.gone plan.now.added.items plan.now.dead plan.now.born n) }
{
    if plan.is_dead(n) {
        return Ok(None);
    }
    if let Some(c) = plan.born_at(n) {
        return Ok(Some(made(alloc, plan, c)?));
    }
    match r.ring(n) {
        Some(ring) => Ok(Some(kept(alloc, plan, ring.star())?)),
        None => Ok(None),
    }
}

// The pairs of these nodes after.
fn pairs_after<R: Rings>(
    alloc: Global,
    r: &R,
    plan: &Plan,
    names: &[u32],
) -> Result<Vec<NewStar>, NoMemory>
    requires corners { All HasCorners plan.now.added.items }
    requires spot { IfSome plan.now.born HasSpot }
    ensures { IfOk result (λ v. v.items ≡ map (planned_pair (R.lent r.now) plan.now.gone plan.now.added.items plan.now.dead plan.now.born) names.now) }
{
    let mut list = Vec::with_capacity(alloc, names.len()).map_err(|_| NoMemory)?;
    for n in names {
        let star = star_after(alloc, r, plan, *n)?;
        list.push(NewStar { node: *n, star }).map_err(|_| NoMemory)?;
    }
    Ok(list)
}

/// What the operation makes of the stars of its cavity, and the star of the node that a bisection makes, by
/// rising name, from the held stars alone: each star, or that the node has none. The operation passes, and its
/// cavity is held. The new node is named 4,294,967,295, above each name of a held star, until it gets its name:
/// so a patch can be made before it is known which name that is, and the spokes keep their places then.
pub fn patch<R: Rings>(alloc: Global, r: &R, op: Op) -> Result<Vec<NewStar>, NoMemory>
    ensures { IfOk result (λ v. (m : Undivided) (chunk ticket : ℕ) → CanApply m record { ticket = ticket; chunk = chunk; op = op } → AreEndsShown (R.lent r.now) m op
        → m.first_new + ticket ≤ 4294967295 → v.items ≡ patch_of (R.lent r.now) 4294967295 op) }
{
    let edge = edge_of(r, op);
    let plan = plan_of(alloc, r, op, &edge)?;
    let names = changed(alloc, r, op, &edge)?;
    let pairs = pairs_after(alloc, r, &plan, &names)?;
    Ok(pairs)
}
