//! The stars of all nodes.
ghost use Rattle.std.specs.Prelude.{◌≡◌, All, IfOk, Some, map};
ghost use Rattle.pf_geom.specs.Plane.{IsInRange};
ghost use Rattle.pf_model.specs.Stars.{star_of};
ghost use Rattle.pf_sweep.specs.Lists.{AreLists, mesh_by};
ghost use Rattle.pf_sweep.specs.Sweep.{grouped, spoke_by, star_by};

use crate::corners::{Corner, corners_of, front, sort_corners, spoke};
use crate::points::points_by_name;
use pf_geom::{NoMemory, Point};
use pf_model::{Site, Spoke, Tri};
use pf_rings::Star;
use std::alloc::Global;

// The spokes of these, in a list with room for exactly as many.
fn spokes_of(alloc: Global, points: &[Point], corners: &[Corner]) -> Result<Vec<Spoke>, NoMemory>
    ensures { IfOk result (λ v. v.items ≡ map (spoke_by points.now) corners.now) }
{
    let mut list = Vec::with_capacity(alloc, corners.len()).map_err(|_| NoMemory)?;
    for c in corners {
        list.push(spoke(points, *c)).map_err(|_| NoMemory)?;
    }
    Ok(list)
}

// The star of a site, whose triangles these are.
fn star_of_site(
    alloc: Global,
    points: &[Point],
    site: Site,
    corners: &[Corner],
) -> Result<Star, NoMemory>
    requires points { All IsInRange points.now }
    requires site { IsInRange site.at }
    ensures { IfOk result (λ s. s ≡ star_by points.now site corners.now) }
{
    let spokes = spokes_of(alloc, points, corners)?;
    Ok(Star::of_parts(site.name, site.at, spokes))
}

// The stars of the sites: each takes those that come next at its node.
fn group(
    alloc: Global,
    points: &[Point],
    sites: &[Site],
    corners: &[Corner],
) -> Result<Vec<Star>, NoMemory>
    requires points { All IsInRange points.now }
    requires sites { All (λ s. IsInRange s.at) sites.now }
    ensures { IfOk result (λ v. v.items ≡ grouped points.now sites.now corners.now) }
{
    let mut stars = Vec::with_capacity(alloc, sites.len()).map_err(|_| NoMemory)?;
    let mut left = corners;
    for site in sites {
        let (own, others) = left.split_at(front(left, site.name));
        let star = star_of_site(alloc, points, *site, own)?;
        stars.push(star).map_err(|_| NoMemory)?;
        left = others;
    }
    Ok(stars)
}

/// The stars of all live nodes of a mesh with these lists, by rising name. `NoMemory` says that memory ran out.
///
/// For F triangles it takes time in proportion to F log F, and to the greatest name.
pub fn stars(alloc: Global, sites: &[Site], tris: &[Tri]) -> Result<Vec<Star>, NoMemory>
    requires { AreLists sites.now tris.now }
    ensures { IfOk result (λ v. map (λ s. Some s) v.items ≡ map (λ s. star_of (mesh_by sites.now tris.now) s.name) sites.now) }
{
    let points = points_by_name(alloc, sites)?;
    let mut corners = corners_of(alloc, tris)?;
    sort_corners(&mut corners);
    let stars = group(alloc, &points, sites, &corners)?;
    Ok(stars)
}
