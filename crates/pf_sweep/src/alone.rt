//! The star of one node.
ghost use Rattle.std.specs.Prelude.{◌≡◌, All, IfOk, IfSome, filter_map, map};
ghost use Rattle.std.specs.List.Sorted.{IsPermutation};
ghost use Rattle.pf_geom.specs.Plane.{IsInRange};
ghost use Rattle.pf_model.specs.Mesh.{point_of};
ghost use Rattle.pf_model.specs.Stars.{star_of};
ghost use Rattle.pf_spokes.specs.Spokes.{HasSpots};
ghost use Rattle.pf_sweep.specs.Lists.{AreLists, mesh_by};
ghost use Rattle.pf_sweep.specs.Sweep as spec;
ghost use Rattle.pf_sweep.specs.Sweep.{AreByRight, spoke_by};

use crate::corners::{corner_at, spoke};
use crate::points::points_by_name;
use pf_geom::{NoMemory, Point};
use pf_model::{Site, Spoke, Tri};
use pf_rings::Star;
use std::alloc::Global;

// Where the name stands, if it is live.
fn point(sites: &[Site], n: u32) -> Option<Point>
    ensures value { result ≡ point_of sites.now n }
    ensures in_range { All (λ s. IsInRange s.at) sites.now → IfSome result IsInRange }
{
    for site in sites {
        if site.name == n {
            return Some(site.at);
        }
    }
    None
}

// The spokes of `n`, in the triangles' order.
fn spokes_at(alloc: Global, points: &[Point], tris: &[Tri], n: u32) -> Result<Vec<Spoke>, NoMemory>
    ensures { IfOk result (λ v. v.items ≡ map (spoke_by points.now) (filter_map (spec.corner_at n) tris.now)) }
{
    let mut list = Vec::new(alloc);
    for t in tris {
        if let Some(c) = corner_at(*t, n) {
            list.push(spoke(points, c)).map_err(|_| NoMemory)?;
        }
    }
    Ok(list)
}

// Sorts by right.
fn sort_spokes(spokes: &mut Vec<Spoke>)
    ensures permutation { IsPermutation spokes.old.items spokes.new.items }
    ensures order { AreByRight spokes.new.items }
    ensures in_range { All HasSpots spokes.old.items → All HasSpots spokes.new.items }
{
    spokes.sort_unstable_by_key(|s| s.right);
}

/// The star of the node `n` in a mesh with these lists: `None` exactly where the name isn't live. It may look at
/// every triangle. `NoMemory` says that memory ran out.
pub fn star_at(
    alloc: Global,
    sites: &[Site],
    tris: &[Tri],
    n: u32,
) -> Result<Option<Star>, NoMemory>
    requires { AreLists sites.now tris.now }
    ensures { IfOk result (λ o. o ≡ star_of (mesh_by sites.now tris.now) n) }
{
    let Some(at) = point(sites, n) else {
        return Ok(None);
    };
    let points = points_by_name(alloc, sites)?;
    let mut spokes = spokes_at(alloc, &points, tris, n)?;
    sort_spokes(&mut spokes);
    Ok(Some(Star::of_parts(n, at, spokes)))
}
