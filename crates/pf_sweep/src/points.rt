//! Points by the names of their nodes.
ghost use Rattle.std.specs.Prelude.{◌≡◌, ℕ, ◌<◌, All, IfOk, length, vec_len};
ghost use Rattle.pf_geom.specs.Plane.{IsInRange};
ghost use Rattle.pf_model.specs.Build.{point_at};
ghost use Rattle.pf_sweep.specs.Points.{ArePoints, origin};

use pf_geom::{NoMemory, Point};
use pf_model::Site;
use std::alloc::Global;

const ORIGIN: Point = Point { x: 0, y: 0 };

// One more than the greatest name, and 0 where there is none.
fn names_of(sites: &[Site]) -> usize
    ensures { All (λ s. s.name < result) sites.now }
{
    let mut names: usize = 0;
    for site in sites {
        names = names.max(site.name as usize + 1);
    }
    names
}

// So many points at the origin.
fn blank_points(alloc: Global, count: usize) -> Result<Vec<Point>, NoMemory>
    ensures len { IfOk result (λ v. vec_len v ≡ count) }
    ensures blank { IfOk result (λ v. (n : ℕ) → point_at v.items n ≡ origin) }
    ensures in_range { IfOk result (λ v. All IsInRange v.items) }
{
    let points = vec![in alloc; ORIGIN; count].map_err(|_| NoMemory)?;
    Ok(points)
}

// Puts the point of each site at the place of its name.
fn put_points(points: &mut Vec<Point>, sites: &[Site])
    requires named { All (λ s. s.name < vec_len points.old) sites.now }
    requires blank { (n : ℕ) → point_at points.old.items n ≡ origin }
    requires points { All IsInRange points.old.items }
    requires sites { All (λ s. IsInRange s.at) sites.now }
    ensures points { ArePoints points.new.items sites.now }
    ensures len { vec_len points.new ≡ vec_len points.old }
    ensures in_range { All IsInRange points.new.items }
{
    for k in 0..sites.len() {
        let site = sites[sites.len() - 1 - k];
        points[site.name as usize] = site.at;
    }
}

/// Where each name stands, up to the greatest: the origin stands for those that aren't live. It takes as much
/// memory as the greatest name says.
pub fn points_by_name(alloc: Global, sites: &[Site]) -> Result<Vec<Point>, NoMemory>
    requires { All (λ s. IsInRange s.at) sites.now }
    ensures named { IfOk result (λ v. All (λ s. s.name < length v.items) sites.now) }
    ensures points { IfOk result (λ v. ArePoints v.items sites.now) }
    ensures in_range { IfOk result (λ v. All IsInRange v.items) }
{
    let mut points = blank_points(alloc, names_of(sites))?;
    put_points(&mut points, sites);
    Ok(points)
}

// The point at the place of a name, and the origin past the last one.
pub fn spot(points: &[Point], n: u32) -> Point
    ensures value { result ≡ point_at points.now n }
    ensures in_range { All IsInRange points.now → IsInRange result }
{
    if (n as usize) < points.len() {
        points[n as usize]
    } else {
        ORIGIN
    }
}
