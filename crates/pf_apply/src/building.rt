//! The table and the lists of a mesh, from a list of points and a list of triangles.
ghost use Rattle.std.specs.Prelude.{◌≡◌, ◌*◌, ◌<◌, ◌≤◌, List, [], ◌∷◌, None, Some, All, MatchResult, OnOk, IfOk, IfErr, ◌^◌, length, vec_capacity};
ghost use Rattle.indexmap.specs.IndexMap.{spare};
ghost use Rattle.pf_geom.specs.Plane.{IsInRange};
ghost use Rattle.pf_model.specs.declared.Tri.{Tri};
ghost use Rattle.pf_model.specs.Clauses.{first_of};
ghost use Rattle.pf_model.specs.Mesh.{tri_lt};
ghost use Rattle.pf_model.specs.Rising.{sorted_by};
ghost use Rattle.pf_model.specs.Exchange.{AreSound};
ghost use Rattle.pf_model.specs.Build.{turned_left, build_clauses, first_fault, default_band};
ghost use Rattle.pf_model.specs.Limits.{most_triangles};
ghost use Rattle.pf_apply.specs.BuildSteps.{twice_of, earlier_from, live_sites, AreEntered, AreAccepted};
ghost use Rattle.pf_edges.specs.Table.{IsEmptyTable, ShowsTriangles, HasSamePlaces};

use pf_edges::table::{EdgeTable, Node};
use pf_geom::{NoMemory, Point, Turn, turn_of};
use pf_model::{Band, BuildErr, Site, Tri};
use pf_rules::change::least_first;
use std::alloc::Global;

// The first directed edge of the triangle that is in the table already.
fn edge_twice(table: &EdgeTable, t: Tri) -> Option<BuildErr>
    ensures { (earlier : List Tri) → ShowsTriangles table.now.sides table.now.nodes.items earlier → result ≡ twice_of earlier t }
{
    if table.side(t.a, t.b).is_some() {
        return Some(BuildErr::EdgeTwice { a: t.a, b: t.b });
    }
    if table.side(t.b, t.c).is_some() {
        return Some(BuildErr::EdgeTwice { a: t.b, b: t.c });
    }
    if table.side(t.c, t.a).is_some() {
        return Some(BuildErr::EdgeTwice { a: t.c, b: t.a });
    }
    None
}

// The triangle with these corners, counterclockwise, or its first fault.
fn checked(
    table: &EdgeTable,
    points: &[Point],
    tri: u32,
    a: u32,
    b: u32,
    c: u32,
) -> Result<Tri, BuildErr>
    requires { All IsInRange points.now }
    ensures { (earlier : List Tri) → ShowsTriangles table.now.sides table.now.nodes.items earlier
        → MatchResult result
        (λ t. (first_of (build_clauses points.now earlier tri (a ∷ b ∷ c ∷ [])) ≡ None) × (t ≡ turned_left points.now (a ∷ b ∷ c ∷ [])))
        (λ e. first_of (build_clauses points.now earlier tri (a ∷ b ∷ c ∷ [])) ≡ Some e) }
{
    if a as usize >= points.len() {
        return Err(BuildErr::BadNode { tri, node: a });
    }
    if b as usize >= points.len() {
        return Err(BuildErr::BadNode { tri, node: b });
    }
    if c as usize >= points.len() {
        return Err(BuildErr::BadNode { tri, node: c });
    }
    let t = match turn_of(points[a as usize], points[b as usize], points[c as usize]) {
        Turn::Left => least_first(a, b, c, 0),
        Turn::Flat => return Err(BuildErr::Flat { tri }),
        Turn::Right => least_first(a, c, b, 0),
    };
    match edge_twice(table, t) {
        Some(fault) => Err(fault),
        None => Ok(t),
    }
}

// The same for a triangle of the list.
fn checked_corners(
    table: &EdgeTable,
    points: &[Point],
    tri: u32,
    corners: &[u32; 3],
) -> Result<Tri, BuildErr>
    requires { All IsInRange points.now }
    ensures clauses { (earlier : List Tri) → ShowsTriangles table.now.sides table.now.nodes.items earlier
        → MatchResult result
        (λ t. (first_of (build_clauses points.now earlier tri corners.now) ≡ None) × (t ≡ turned_left points.now corners.now))
        (λ e. first_of (build_clauses points.now earlier tri corners.now) ≡ Some e) }
    ensures three { length corners.now ≡ 3 }
{
    checked(table, points, tri, corners[0], corners[1], corners[2])
}

/// Enters each triangle, or finds the first fault.
pub fn enter_triangles(
    table: &mut EdgeTable,
    listed: &mut Vec<Tri>,
    points: &[Point],
    tris: &[[u32; 3]],
) -> Result<(), BuildErr>
    requires in_range { All IsInRange points.now }
    requires empty { IsEmptyTable table.old.sides table.old.nodes.items points.now }
    requires few { length tris.now ≤ most_triangles }
    requires room { 3 * length tris.now ≤ spare table.old.sides }
    requires none { listed.old.items ≡ [] }
    requires capacity { length tris.now ≤ vec_capacity listed.old }
    ensures ok { OnOk result (first_fault points.now [] 0 tris.now ≡ None) }
    ensures entered { OnOk result (AreEntered table.new.sides table.new.nodes.items points.now listed.new.items tris.now) }
    ensures part { OnOk result (AreAccepted points.now (earlier_from points.now [] tris.now)) }
    ensures places { HasSamePlaces table.old.nodes.items table.new.nodes.items }
    ensures err { IfErr result (λ e. first_fault points.now [] 0 tris.now ≡ Some e) }
{
    let mut tri = 0;
    for corners in tris {
        let t = match checked_corners(table, points, tri, corners) {
            Ok(t) => t,
            Err(fault) => return Err(fault),
        };
        table.put(t);
        listed.push(t).unwrap();
        tri += 1;
    }
    Ok(())
}

/// Puts the triangles in rising order.
pub fn sort_listed(listed: &mut Vec<Tri>)
    requires { AreSound listed.old.items }
    ensures { listed.new.items ≡ sorted_by tri_lt listed.old.items }
{
    listed.sort_unstable_by_key(|t| (t.a, t.b, t.c));
}

/// The nodes with triangles, by rising name.
pub fn list_sites(alloc: Global, nodes: &[Node]) -> Result<Vec<Site>, NoMemory>
    requires { length nodes.now < 2 ^ 32 }
    ensures { IfOk result (λ sites. sites.items ≡ live_sites 0 nodes.now) }
{
    let mut sites = Vec::new(alloc);
    let mut name = 0;
    for node in nodes {
        if node.triangles > 0 && sites.push(Site { name, at: node.at }).is_err() {
            return Err(NoMemory);
        }
        name += 1;
    }
    Ok(sites)
}

// The greatest magnitude of a coordinate.
const FARTHEST: i32 = 268_435_456;

// A squared length above that of every edge within these coordinates.
const LONGEST: i64 = 1_152_921_504_606_846_976;

/// The table of sizes where none is given: every length is allowed.
pub fn default_bands(alloc: Global) -> Result<Vec<Band>, NoMemory>
    ensures { IfOk result (λ bands. bands.items ≡ default_band ∷ []) }
{
    let mut bands = Vec::new(alloc);
    let band = Band {
        xlo: -FARTHEST,
        ylo: -FARTHEST,
        xhi: FARTHEST,
        yhi: FARTHEST,
        min2: 0,
        max2: LONGEST,
    };
    if bands.push(band).is_err() {
        return Err(NoMemory);
    }
    Ok(bands)
}
