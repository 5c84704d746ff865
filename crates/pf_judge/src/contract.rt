//! A contraction that is judged and planned by the edge table.
ghost use Rattle.std.specs.Prelude.{◌≡◌, ℕ, false, ◌≤◌, ◌&&◌, not, pos, length, All, List, None, true, is_some, unwrap_or};
ghost use Rattle.std.specs.Ordering.{int_eq};
ghost use Rattle.pf_model.specs.Clauses.{first_of};
ghost use Rattle.pf_model.specs.declared.Op.TheVariants.{Contract};
ghost use Rattle.pf_model.specs.Mesh.{Undivided, turn_at};
ghost use Rattle.pf_model.specs.Conforming.{IsConforming};
ghost use Rattle.pf_model.specs.Stars.{spokes_of, is_neighbour};
ghost use Rattle.pf_model.specs.Rows.{least_that, inverted, is_too_long};
ghost use Rattle.pf_model.specs.Conditions.{first_failing};
ghost use Rattle.pf_edges.specs.Table.{ArePlacesInRange, Shows};
ghost use Rattle.pf_rules.specs.EdgeSides.{AreEdgeSides};
ghost use Rattle.pf_edges.specs.Kept.{IsKept};
ghost use Rattle.pf_rules.specs.Change.{IsChange};
ghost use Rattle.pf_spokes.specs.Spokes.{HasSpots};
ghost use Rattle.pf_model.specs.declared.Spoke.{Spoke};
ghost use Rattle.pf_model.specs.Limits.{most_spokes};
ghost use Rattle.pf_rules.specs.Contract.{AreAround, AreClose, IsShape, is_link_at, star_clauses};

use crate::edge_sides::edge_sides;
use crate::lengths::is_long;
use crate::star::find_fan;
use pf_edges::table::EdgeTable;
use pf_model::{Band, Cond, Spoke};
use pf_rules::conditions::edge_condition;
use pf_rules::contract::{
    StarShape, is_an_apex, is_flat, names_around, triangles_moved, triangles_of,
};
use pf_rules::edge_sides::EdgeSides;
use pf_rules::lengths::Placed;
use pf_rules::refusals::{contract_refusal, far_refusal};
use pf_rules::scratch::{Names, Scratch, StarLists};
use pf_spokes::{first_right, last_left, lesser_of};

/// A node with more triangles isn't contracted.
const MOST_SPOKES: u64 = pf_model::MOST_SPOKES as u64;

// Whether the star's path, with these ends, bends at the node.
fn is_bent(table: &EdgeTable, u: u32, first: Option<u32>, last: u32) -> bool
    requires { ArePlacesInRange table.now.nodes.items }
    ensures { (m : Undivided) → Shows table.now.sides table.now.nodes.items m
        → result ≡ (is_some first && not (int_eq (turn_at m (unwrap_or first 0) u last) (pos 0))) }
{
    match first {
        Some(first) => !is_flat(table.point(first), table.point(u), table.point(last)),
        None => false,
    }
}

// Whether the node is a neighbour of `v`, by the table.
fn is_beside(table: &EdgeTable, x: u32, v: u32) -> bool
    ensures { (m : Undivided) → IsConforming m → Shows table.now.sides table.now.nodes.items m → result ≡ is_neighbour x (spokes_of m v) }
{
    x != v && table.is_edge(x, v)
}

// Whether the node is a neighbour of `v`, and no apex of the edge to `v`, which takes no look-up.
fn is_link(table: &EdgeTable, v: u32, x: u32, edge_sides: EdgeSides) -> bool
    ensures { (m : Undivided) (u : ℕ) → IsConforming m → Shows table.now.sides table.now.nodes.items m → AreEdgeSides m.tris u v edge_sides
        → result ≡ is_link_at m u v (spokes_of m v) x }
{
    !is_an_apex(edge_sides, x) && is_beside(table, x, v)
}

// The least of these names that is a neighbour of `v`, and no apex of the edge to `v`.
fn least_link(table: &EdgeTable, v: u32, edge_sides: EdgeSides, names: &[u32]) -> Option<u32>
    ensures { (m : Undivided) (u : ℕ) → IsConforming m → Shows table.now.sides table.now.nodes.items m → AreEdgeSides m.tris u v edge_sides
        → result ≡ least_that (is_link_at m u v (spokes_of m v)) names.now }
{
    let mut least = None;
    for x in names {
        if is_link(table, v, *x, edge_sides) {
            least = lesser_of(least, *x);
        }
    }
    least
}

// Whether the edge from `v` to the node would be new, and is too long, where no neighbour of `v` but the
// apices of the edge to `v` is one of the node that goes.
fn is_new_long(table: &EdgeTable, bands: &[Band], v: u32, x: u32, edge_sides: EdgeSides) -> bool
    requires { ArePlacesInRange table.now.nodes.items }
    ensures { (m : Undivided) (u : ℕ) → IsConforming m → Shows table.now.sides table.now.nodes.items m → m.bands ≡ bands.now → AreEdgeSides m.tris u v edge_sides
        → is_link_at m u v (spokes_of m v) x ≡ false → result ≡ is_too_long m v (spokes_of m v) x }
{
    if x == v {
        return false;
    }
    if is_an_apex(edge_sides, x) {
        return false;
    }
    is_long(table, bands, v, x)
}

// The least of these names to which a new edge from `v` would be too long, where none of them is a
// neighbour of `v` but the apices of the edge to `v`.
fn least_long(
    table: &EdgeTable,
    bands: &[Band],
    v: u32,
    edge_sides: EdgeSides,
    names: &[u32],
) -> Option<u32>
    requires { ArePlacesInRange table.now.nodes.items }
    ensures { (m : Undivided) (u : ℕ) → IsConforming m → Shows table.now.sides table.now.nodes.items m → m.bands ≡ bands.now → AreEdgeSides m.tris u v edge_sides
        → least_that (is_link_at m u v (spokes_of m v)) names.now ≡ None → result ≡ least_that (is_too_long m v (spokes_of m v)) names.now }
{
    let mut least = None;
    for x in names {
        if is_new_long(table, bands, v, *x, edge_sides) {
            least = lesser_of(least, *x);
        }
    }
    least
}

/// What the star of `u` says by itself, and that its nodes are close where that is told.
pub fn shape(table: &EdgeTable, u: u32, star: &[Spoke], close: bool) -> StarShape
    requires { ArePlacesInRange table.now.nodes.items }
    ensures shape { (m : Undivided) → Shows table.now.sides table.now.nodes.items m → (close ≡ true → AreClose m star.now) → IsShape m u star.now result }
    ensures close { result.close ≡ close }
{
    let first = first_right(star);
    let last = last_left(star).unwrap_or(0);
    let bent = is_bent(table, u, first, last);
    StarShape {
        first,
        last,
        bent,
        close,
    }
}

// The least of these neighbours of the node that goes to which a new edge from `v` would be too long, where
// none of them is a neighbour of `v` but the apices of the edge to `v`.
fn least_far(
    table: &EdgeTable,
    bands: &[Band],
    v: u32,
    edge_sides: EdgeSides,
    shape: StarShape,
    names: &[u32],
) -> Option<u32>
    requires { ArePlacesInRange table.now.nodes.items }
    ensures { (m : Undivided) (u : ℕ) (us : List Spoke) → IsConforming m → Shows table.now.sides table.now.nodes.items m → m.bands ≡ bands.now → AreEdgeSides m.tris u v edge_sides
        → IsShape m u us shape → (shape.close ≡ true → is_neighbour v us ≡ true) → AreAround us names.now
        → least_that (is_link_at m u v (spokes_of m v)) names.now ≡ None → result ≡ least_that (is_too_long m v (spokes_of m v)) names.now }
{
    if shape.close {
        return None;
    }
    least_long(table, bands, v, edge_sides, names)
}

/// The conditions on the star of the node that goes, once what it says by itself is at hand, and the least of
/// its neighbours that is a neighbour of `v` and no apex of the edge to `v`.
pub fn shape_condition(
    table: &EdgeTable,
    bands: &[Band],
    v: u32,
    edge_sides: EdgeSides,
    shape: StarShape,
    link: Option<u32>,
    star: &[Spoke],
    names: &[u32],
) -> Option<Cond>
    requires in_range { ArePlacesInRange table.now.nodes.items }
    requires spots { All HasSpots star.now }
    ensures { (m : Undivided) (u : ℕ) → IsConforming m → Shows table.now.sides table.now.nodes.items m → m.bands ≡ bands.now → AreEdgeSides m.tris u v edge_sides
        → star.now ≡ spokes_of m u → IsShape m u star.now shape → (shape.close ≡ true → is_neighbour v star.now ≡ true) → AreAround star.now names.now
        → link ≡ least_that (is_link_at m u v (spokes_of m v)) names.now → result ≡ first_of (star_clauses m u v star.now (spokes_of m v)) }
{
    let at = Placed {
        name: v,
        at: table.point(v),
    };
    match contract_refusal(at, shape, link, star) {
        Some(cond) => Some(cond),
        None => far_refusal(v, least_far(table, bands, v, edge_sides, shape, names)),
    }
}

// The conditions on the star of the node that goes.
fn star_condition(
    table: &EdgeTable,
    bands: &[Band],
    u: u32,
    v: u32,
    edge_sides: EdgeSides,
    star: &[Spoke],
    names: &mut Names,
) -> Option<Cond>
    requires in_range { ArePlacesInRange table.now.nodes.items }
    requires few { length star.now ≤ most_spokes }
    requires spots { All HasSpots star.now }
    ensures { (m : Undivided) → IsConforming m → Shows table.now.sides table.now.nodes.items m → m.bands ≡ bands.now → AreEdgeSides m.tris u v edge_sides
        → star.now ≡ spokes_of m u → result ≡ first_of (star_clauses m u v star.now (spokes_of m v)) }
{
    names_around(star, names);
    let shape = shape(table, u, star, false);
    let link = least_link(table, v, edge_sides, names.as_slice());
    shape_condition(
        table,
        bands,
        v,
        edge_sides,
        shape,
        link,
        star,
        names.as_slice(),
    )
}

/// The first condition that the contraction of `u` onto `v` fails, or `None` where it passes. Then the
/// lists have the star of `u`. What they held doesn't matter.
pub fn contract_star(
    table: &EdgeTable,
    bands: &[Band],
    chunk: u16,
    u: u32,
    v: u32,
    lists: &mut StarLists,
) -> Option<Cond>
    requires { ArePlacesInRange table.now.nodes.items }
    ensures cond { (m : Undivided) → IsConforming m → Shows table.now.sides table.now.nodes.items m → m.bands ≡ bands.now
        → result ≡ first_failing m chunk (Contract u v) }
    ensures star { (m : Undivided) → IsConforming m → Shows table.now.sides table.now.nodes.items m → result ≡ None
        → lists.new.star.items ≡ spokes_of m u }
{
    let edge_sides = edge_sides(table, u, v);
    if let Some(cond) = edge_condition(chunk, u, v, edge_sides) {
        return Some(cond);
    }
    if table.triangles(u) > MOST_SPOKES {
        return Some(Cond::TooWide);
    }
    if !find_fan(table, u, v, edge_sides, &mut lists.star) {
        return Some(Cond::Pinched);
    }
    star_condition(
        table,
        bands,
        u,
        v,
        edge_sides,
        &lists.star,
        &mut lists.names,
    )
}

/// The first condition that the contraction of `u` onto `v` fails, or `None` where it passes. Takes no
/// memory.
pub fn contract_condition(
    table: &EdgeTable,
    bands: &[Band],
    chunk: u16,
    u: u32,
    v: u32,
) -> Option<Cond>
    requires { ArePlacesInRange table.now.nodes.items }
    ensures { (m : Undivided) → IsConforming m → Shows table.now.sides table.now.nodes.items m → m.bands ≡ bands.now → result ≡ first_failing m chunk (Contract u v) }
{
    let mut lists = StarLists::new();
    contract_star(table, bands, chunk, u, v, &mut lists)
}

/// The first condition that the contraction of `u` onto `v` fails, or `None` where it passes. Then the
/// change is what it makes of the triangles. What the lists held doesn't matter.
pub fn contract_plan(
    table: &EdgeTable,
    bands: &[Band],
    chunk: u16,
    u: u32,
    v: u32,
    scratch: &mut Scratch,
) -> Option<Cond>
    requires { ArePlacesInRange table.now.nodes.items }
    ensures cond { (m : Undivided) → IsKept table.now.sides table.now.nodes.items m → m.bands ≡ bands.now → result ≡ first_failing m chunk (Contract u v) }
    ensures change { (m : Undivided) (n : ℕ) → IsKept table.now.sides table.now.nodes.items m → result ≡ None
        → IsChange m n (Contract u v) scratch.new.change.removed.items scratch.new.change.new.items }
{
    if let Some(cond) = contract_star(table, bands, chunk, u, v, &mut scratch.lists) {
        return Some(cond);
    }
    triangles_of(u, &scratch.lists.star, &mut scratch.change.removed);
    triangles_moved(v, &scratch.lists.star, &mut scratch.change.new);
    None
}
