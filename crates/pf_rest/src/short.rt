//! The lines of the short edges. The star of a node is found once for all contractions of the node.
ghost use Rattle.std.specs.Prelude.{◌≡◌, ◌<◌, ◌++◌, ◌∷◌, [], All, OnOk, Some, false, true, length, int_lt, slice_get};
ghost use Rattle.pf_geom.specs.Plane.{IsInRange, len2_of};
ghost use Rattle.pf_model.specs.declared.Op.TheVariants.{Contract};
ghost use Rattle.pf_model.specs.Mesh.{Undivided};
ghost use Rattle.pf_model.specs.Conforming.{IsConforming};
ghost use Rattle.pf_model.specs.Conditions.{first_failing};
ghost use Rattle.pf_model.specs.Lengths.{edge_of};
ghost use Rattle.pf_model.specs.Wishes.{acting_chunk, is_short, short_lines};
ghost use Rattle.pf_rules.specs.Contract.{AreAround, IsShape, IsStar};
ghost use Rattle.pf_rest.specs.Crossed.{IsUncrossed};
ghost use Rattle.pf_edge_list.specs.declared.edges.Sided.{Sided};
ghost use Rattle.pf_edge_list.specs.Edges.{sided_edge, AreEdges, IsSided, IsListed};
ghost use Rattle.pf_rest.specs.Rest.{told_of, onto_hi, onto_lo, AreNotes};
ghost use Rattle.pf_rules.specs.Lengths.{span_value};
ghost use Rattle.pf_spokes.specs.Spokes.{HasSpots};
ghost use Rattle.pf_edges.specs.Table.{ArePlacesInRange, Shows, Sides, side_at};

use crate::around::{Around, gather_star};
use crate::close::are_close;
use crate::crossed::{crossing_link, is_crossed};
use crate::lines::{acting_chunk, push_line};
use crate::told::{Notes, note, noted};
use pf_edge_list::edges::{Edges, Sided};
use pf_edges::table::EdgeTable;
use pf_geom::{NoMemory, Point, len2};
use pf_judge::contract::{contract_star, shape, shape_condition};
use pf_judge::lengths::least_length;
use pf_model::{Band, Cond, RestLine};
use pf_rules::conditions::edge_condition;
use pf_rules::contract::{StarShape, names_around};
use pf_rules::edge_sides::EdgeSides;
use pf_rules::lengths::Span;
use pf_rules::scratch::StarLists;
use std::alloc::Global;

// Whether the squared distance of two points is below the least squared length.
fn is_below(a: Point, b: Point, least: i64) -> bool
    requires a { IsInRange a }
    requires b { IsInRange b }
    ensures { result ≡ int_lt (len2_of a b) least }
{
    len2(a, b) < least
}

// The triangles on both sides of the edge in the direction from `u` to `v`, which are its ends.
fn edge_sides_from(e: Sided, u: u32, v: u32) -> EdgeSides
    ensures left { (table : Sides) → IsSided table e → sided_edge e ≡ edge_of u v → result.left ≡ side_at table u v }
    ensures right { (table : Sides) → IsSided table e → sided_edge e ≡ edge_of u v → result.right ≡ side_at table v u }
{
    if u <= v {
        return e.edge_sides;
    }
    EdgeSides {
        left: e.edge_sides.right,
        right: e.edge_sides.left,
    }
}

// The line of a short edge whose contractions fail these conditions.
fn short_line(e: Span, onto_b: Option<Cond>, onto_a: Option<Cond>) -> RestLine
    ensures { (m : Undivided) → is_short m e.lo e.hi ≡ true → onto_b ≡ told_of m onto_hi (span_value e) → onto_a ≡ told_of m onto_lo (span_value e)
        → result ∷ [] ≡ short_lines m (span_value e) }
{
    RestLine::Short {
        a: e.lo,
        b: e.hi,
        onto_b,
        onto_a,
    }
}

// Whether an edge is shorter than its band allows.
fn is_short(table: &EdgeTable, bands: &[Band], e: Span) -> bool
    requires { ArePlacesInRange table.now.nodes.items }
    ensures { (m : Undivided) → Shows table.now.sides table.now.nodes.items m → m.bands ≡ bands.now → result ≡ is_short m e.lo e.hi }
{
    let least = least_length(table, bands, e.lo, e.hi);
    is_below(table.point(e.lo), table.point(e.hi), least)
}

// The first condition that the contraction of `u` onto `v` fails, which are the ends of the edge. The
// lists have the star of `u`, the shape is what it says by itself, and where it isn't crossed, none of its nodes is
// a link node.
fn onto_condition(
    table: &EdgeTable,
    bands: &[Band],
    edges: &Edges,
    e: Sided,
    u: u32,
    v: u32,
    shape: StarShape,
    crossed: bool,
    lists: &StarLists,
) -> Option<Cond>
    requires in_range { ArePlacesInRange table.now.nodes.items }
    requires sided { IsSided table.now.sides e }
    requires spots { All HasSpots lists.now.star.items }
    ensures { (m : Undivided) → IsConforming m → Shows table.now.sides table.now.nodes.items m → m.bands ≡ bands.now → sided_edge e ≡ edge_of u v
        → AreEdges m edges.now → IsStar m u lists.now.star.items → IsShape m u lists.now.star.items shape → AreAround lists.now.star.items lists.now.names.items
        → (crossed ≡ false → IsUncrossed m u lists.now.star.items)
        → result ≡ first_failing m (acting_chunk m (sided_edge e)) (Contract u v) }
{
    let edge_sides = edge_sides_from(e, u, v);
    if let Some(cond) = edge_condition(acting_chunk(table, e), u, v, edge_sides) {
        return Some(cond);
    }
    let names = lists.names.as_slice();
    let link = crossing_link(edges, crossed, v, edge_sides, names);
    shape_condition(table, bands, v, edge_sides, shape, link, &lists.star, names)
}

// Notes what the contraction of `u` onto the other end of the edge at a place fails, where `u` is an end of
// it. The lists have the star of `u`, the shape is what it says by itself, and where it isn't crossed, none of
// its nodes is a link node.
fn note_onto(
    table: &EdgeTable,
    bands: &[Band],
    edges: &Edges,
    notes: &mut Notes,
    u: u32,
    place: usize,
    shape: StarShape,
    crossed: bool,
    lists: &StarLists,
)
    requires in_range { ArePlacesInRange table.now.nodes.items }
    requires listed { All (IsListed table.now.sides) edges.now.list.items }
    requires spots { All HasSpots lists.now.star.items }
    ensures { (m : Undivided) → IsConforming m → Shows table.now.sides table.now.nodes.items m → m.bands ≡ bands.now
        → AreEdges m edges.now → IsStar m u lists.now.star.items → IsShape m u lists.now.star.items shape → AreAround lists.now.star.items lists.now.names.items
        → (crossed ≡ false → IsUncrossed m u lists.now.star.items)
        → AreNotes m edges.now.list.items notes.old → AreNotes m edges.now.list.items notes.new }
{
    if place >= edges.list.len() {
        return;
    }
    let e = edges.list[place];
    if e.span.lo == u {
        let cond = onto_condition(table, bands, edges, e, u, e.span.hi, shape, crossed, lists);
        note(&mut notes.onto_hi, place, cond);
    } else if e.span.hi == u {
        let cond = onto_condition(table, bands, edges, e, u, e.span.lo, shape, crossed, lists);
        note(&mut notes.onto_lo, place, cond);
    }
}

// Notes what the contractions of `u` onto the other ends of the edges at these places fail. The lists have
// the star of `u`.
fn note_each(
    table: &EdgeTable,
    bands: &[Band],
    edges: &Edges,
    notes: &mut Notes,
    u: u32,
    places: &[usize],
    lists: &StarLists,
)
    requires in_range { ArePlacesInRange table.now.nodes.items }
    requires listed { All (IsListed table.now.sides) edges.now.list.items }
    requires spots { All HasSpots lists.now.star.items }
    ensures { (m : Undivided) → IsConforming m → Shows table.now.sides table.now.nodes.items m → m.bands ≡ bands.now
        → AreEdges m edges.now → IsStar m u lists.now.star.items → AreAround lists.now.star.items lists.now.names.items
        → AreNotes m edges.now.list.items notes.old → AreNotes m edges.now.list.items notes.new }
{
    let close = are_close(table, u, lists.names.as_slice(), notes.limit);
    let shape = shape(table, u, &lists.star, close);
    let crossed = is_crossed(edges, &lists.star, lists.names.as_slice());
    for place in places {
        note_onto(table, bands, edges, notes, u, *place, shape, crossed, lists);
    }
}

// Notes what the contractions of `u` onto its neighbours fail, where its triangles are few and one cycle
// or one path.
fn note_all(
    table: &EdgeTable,
    bands: &[Band],
    edges: &Edges,
    notes: &mut Notes,
    u: u32,
    around: &mut Around,
)
    requires in_range { ArePlacesInRange table.now.nodes.items }
    requires listed { All (IsListed table.now.sides) edges.now.list.items }
    ensures { (m : Undivided) → IsConforming m → Shows table.now.sides table.now.nodes.items m → m.bands ≡ bands.now → AreEdges m edges.now
        → AreNotes m edges.now.list.items notes.old → AreNotes m edges.now.list.items notes.new }
{
    let Around { lists, arms } = around;
    if !gather_star(table, edges, &notes.chains, u, &mut lists.star, arms) {
        return;
    }
    names_around(&lists.star, &mut lists.names);
    note_each(table, bands, edges, notes, u, arms.as_slice(), lists);
}

// What the contraction of the edge at a place onto its higher end fails.
fn onto_hi(
    table: &EdgeTable,
    bands: &[Band],
    edges: &Edges,
    notes: &mut Notes,
    around: &mut Around,
    place: usize,
) -> Option<Cond>
    requires in_range { ArePlacesInRange table.now.nodes.items }
    requires listed { All (IsListed table.now.sides) edges.now.list.items }
    requires place { place < length edges.now.list.items }
    ensures cond { (m : Undivided) (e : Sided) → IsConforming m → Shows table.now.sides table.now.nodes.items m → m.bands ≡ bands.now → AreEdges m edges.now
        → AreNotes m edges.now.list.items notes.old → slice_get edges.now.list.items place ≡ Some e → result ≡ told_of m onto_hi (sided_edge e) }
    ensures notes { (m : Undivided) → IsConforming m → Shows table.now.sides table.now.nodes.items m → m.bands ≡ bands.now → AreEdges m edges.now
        → AreNotes m edges.now.list.items notes.old → AreNotes m edges.now.list.items notes.new }
{
    if let Some(told) = noted(&notes.onto_hi, place) {
        return told.cond;
    }
    let e = edges.list[place];
    let (lo, hi) = (e.span.lo, e.span.hi);
    note_all(table, bands, edges, notes, lo, around);
    if let Some(told) = noted(&notes.onto_hi, place) {
        return told.cond;
    }
    contract_star(
        table,
        bands,
        acting_chunk(table, e),
        lo,
        hi,
        &mut around.lists,
    )
}

// What the contraction of the edge at a place onto its lower end fails.
fn onto_lo(
    table: &EdgeTable,
    bands: &[Band],
    edges: &Edges,
    notes: &mut Notes,
    around: &mut Around,
    place: usize,
) -> Option<Cond>
    requires in_range { ArePlacesInRange table.now.nodes.items }
    requires listed { All (IsListed table.now.sides) edges.now.list.items }
    requires place { place < length edges.now.list.items }
    ensures cond { (m : Undivided) (e : Sided) → IsConforming m → Shows table.now.sides table.now.nodes.items m → m.bands ≡ bands.now → AreEdges m edges.now
        → AreNotes m edges.now.list.items notes.old → slice_get edges.now.list.items place ≡ Some e → result ≡ told_of m onto_lo (sided_edge e) }
    ensures notes { (m : Undivided) → IsConforming m → Shows table.now.sides table.now.nodes.items m → m.bands ≡ bands.now → AreEdges m edges.now
        → AreNotes m edges.now.list.items notes.old → AreNotes m edges.now.list.items notes.new }
{
    if let Some(told) = noted(&notes.onto_lo, place) {
        return told.cond;
    }
    let e = edges.list[place];
    let (lo, hi) = (e.span.lo, e.span.hi);
    note_all(table, bands, edges, notes, hi, around);
    if let Some(told) = noted(&notes.onto_lo, place) {
        return told.cond;
    }
    contract_star(
        table,
        bands,
        acting_chunk(table, e),
        hi,
        lo,
        &mut around.lists,
    )
}

/// Appends the line of the edge at a place, where it is short.
pub fn push_short_at(
    table: &EdgeTable,
    alloc: Global,
    lines: &mut Vec<RestLine>,
    bands: &[Band],
    edges: &Edges,
    notes: &mut Notes,
    around: &mut Around,
    place: usize,
) -> Result<(), NoMemory>
    requires in_range { ArePlacesInRange table.now.nodes.items }
    requires listed { All (IsListed table.now.sides) edges.now.list.items }
    requires place { place < length edges.now.list.items }
    ensures line { OnOk result ((m : Undivided) (e : Sided) → IsConforming m → Shows table.now.sides table.now.nodes.items m → m.bands ≡ bands.now → AreEdges m edges.now
        → AreNotes m edges.now.list.items notes.old → slice_get edges.now.list.items place ≡ Some e
        → lines.new.items ≡ lines.old.items ++ short_lines m (sided_edge e)) }
    ensures notes { OnOk result ((m : Undivided) → IsConforming m → Shows table.now.sides table.now.nodes.items m → m.bands ≡ bands.now → AreEdges m edges.now
        → AreNotes m edges.now.list.items notes.old → AreNotes m edges.now.list.items notes.new) }
{
    let e = edges.list[place].span;
    if !is_short(table, bands, e) {
        return Ok(());
    }
    notes.reserve(alloc, edges, table.nodes.len())?;
    let onto_b = onto_hi(table, bands, edges, notes, around, place);
    let onto_a = onto_lo(table, bands, edges, notes, around, place);
    push_line(lines, Some(short_line(e, onto_b, onto_a)))?;
    Ok(())
}
