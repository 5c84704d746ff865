//! The rest list: which edges are still too long or too short, what forbids their change, and which flips would pass.
ghost use Rattle.std.specs.Prelude.{◌≡◌, ◌<◌, ◌++◌, ◌∷◌, [], All, OnOk, IfOk, Some, true, flat_map, is_none, length, map, slice_get};
ghost use Rattle.pf_model.specs.Mesh.{Undivided};
ghost use Rattle.pf_model.specs.declared.Op.TheVariants.{Flip};
ghost use Rattle.pf_model.specs.Conforming.{IsConforming};
ghost use Rattle.pf_model.specs.Conditions.{first_failing};
ghost use Rattle.pf_model.specs.Lengths.{is_long};
ghost use Rattle.pf_model.specs.Wishes.{acting_chunk, long_lines, short_lines, flip_lines, rest_of, terminal_of};
ghost use Rattle.pf_rules.specs.Lengths.{span_value};
ghost use Rattle.pf_edge_list.specs.declared.edges.Sided.{Sided};
ghost use Rattle.pf_rest.specs.Rest.{AreAtEnds, IsEnd, listed};
ghost use Rattle.pf_edge_list.specs.Edges.{AreEdges, AreSided, IsListed, IsSided, sided_edge};
ghost use Rattle.pf_edges.specs.Table.{ArePlacesInRange, Shows};

use crate::around::Around;
use crate::known::{End, follow};
use crate::short::push_short_at;
use crate::told::Notes;
use pf_edge_list::edges::{Edges, Sided, list_edges, with_room};
use pf_edges::table::EdgeTable;
use pf_geom::NoMemory;
use pf_judge::conditions::flip_alone;
use pf_judge::lengths::is_long;
use pf_model::{Band, RestLine, Tri};
use pf_rules::lengths::Span;
use std::alloc::Global;

/// Appends a line.
pub fn push_line(lines: &mut Vec<RestLine>, line: Option<RestLine>) -> Result<(), NoMemory>
    ensures { OnOk result (lines.new.items ≡ lines.old.items ++ listed line) }
{
    if let Some(line) = line {
        if lines.push(line).is_err() {
            return Err(NoMemory);
        }
    }
    Ok(())
}

// The line of a long edge whose walk ends there.
fn long_line(e: Span, end: End) -> RestLine
    ensures { (m : Undivided) → is_long m e.lo e.hi ≡ true → IsEnd m (terminal_of m (span_value e)) end → result ∷ [] ≡ long_lines m (span_value e) }
{
    RestLine::Long {
        a: e.lo,
        b: e.hi,
        c: end.edge.lo,
        d: end.edge.hi,
        cond: end.cond,
    }
}

/// The owner of the triangle on the left of the edge, from its lower name, or of the other one where there
/// is none on the left.
pub fn acting_chunk(table: &EdgeTable, e: Sided) -> u16
    ensures { (m : Undivided) → Shows table.now.sides table.now.nodes.items m → IsSided table.now.sides e → result ≡ acting_chunk m (sided_edge e) }
{
    match e.edge_sides.left {
        Some(left) => left.owner,
        None => match e.edge_sides.right {
            Some(right) => right.owner,
            None => 0,
        },
    }
}

// Whether an edge's flip passes. Its acting chunk owns a triangle at it, so the conditions of a flip alone
// decide.
fn can_flip(table: &EdgeTable, e: Sided) -> bool
    requires { ArePlacesInRange table.now.nodes.items }
    ensures { (m : Undivided) → IsConforming m → Shows table.now.sides table.now.nodes.items m → IsListed table.now.sides e
        → result ≡ is_none (first_failing m (acting_chunk m (sided_edge e)) (Flip e.span.lo e.span.hi)) }
{
    flip_alone(table, e.span.lo, e.span.hi, e.edge_sides).is_none()
}

// The line of an edge whose flip passes.
fn flip_line(table: &EdgeTable, e: Sided) -> Option<RestLine>
    requires { ArePlacesInRange table.now.nodes.items }
    ensures { (m : Undivided) → IsConforming m → Shows table.now.sides table.now.nodes.items m → IsListed table.now.sides e
        → listed result ≡ flip_lines m (sided_edge e) }
{
    if !can_flip(table, e) {
        return None;
    }
    Some(RestLine::Flip {
        a: e.span.lo,
        b: e.span.hi,
    })
}

// Appends the line of the edge at a place, where it is long.
fn push_long_at(
    table: &EdgeTable,
    lines: &mut Vec<RestLine>,
    bands: &[Band],
    edges: &Edges,
    ends: &mut Vec<Option<End>>,
    way: &mut Vec<usize>,
    place: usize,
) -> Result<(), NoMemory>
    requires in_range { ArePlacesInRange table.now.nodes.items }
    requires listed { All (IsListed table.now.sides) edges.now.list.items }
    requires place { place < length edges.now.list.items }
    ensures line { OnOk result ((m : Undivided) (e : Sided) → IsConforming m → Shows table.now.sides table.now.nodes.items m → m.bands ≡ bands.now
        → AreAtEnds m edges.now.list.items ends.old.items → slice_get edges.now.list.items place ≡ Some e
        → lines.new.items ≡ lines.old.items ++ long_lines m (sided_edge e)) }
    ensures noted { OnOk result ((m : Undivided) → IsConforming m → Shows table.now.sides table.now.nodes.items m → m.bands ≡ bands.now
        → AreAtEnds m edges.now.list.items ends.old.items → AreAtEnds m edges.now.list.items ends.new.items) }
{
    let e = edges.list[place].span;
    if !is_long(table, bands, e.lo, e.hi) {
        return Ok(());
    }
    let end = follow(table, bands, edges, ends, way, place)?;
    push_line(lines, Some(long_line(e, end)))?;
    Ok(())
}

// Appends the lines of the long edges.
fn push_long(
    table: &EdgeTable,
    alloc: Global,
    lines: &mut Vec<RestLine>,
    bands: &[Band],
    edges: &Edges,
) -> Result<(), NoMemory>
    requires in_range { ArePlacesInRange table.now.nodes.items }
    requires listed { All (IsListed table.now.sides) edges.now.list.items }
    ensures { OnOk result ((m : Undivided) → IsConforming m → Shows table.now.sides table.now.nodes.items m → m.bands ≡ bands.now
        → lines.new.items ≡ lines.old.items ++ flat_map (long_lines m) (map sided_edge edges.now.list.items)) }
{
    let mut ends = Vec::new(alloc);
    let mut way = Vec::new(alloc);
    for place in 0..edges.list.len() {
        push_long_at(table, lines, bands, edges, &mut ends, &mut way, place)?;
    }
    Ok(())
}

// Appends the lines of the short edges.
fn push_short(
    table: &EdgeTable,
    alloc: Global,
    lines: &mut Vec<RestLine>,
    bands: &[Band],
    edges: &Edges,
) -> Result<(), NoMemory>
    requires in_range { ArePlacesInRange table.now.nodes.items }
    requires listed { All (IsListed table.now.sides) edges.now.list.items }
    ensures { OnOk result ((m : Undivided) → IsConforming m → Shows table.now.sides table.now.nodes.items m → m.bands ≡ bands.now → AreEdges m edges.now
        → lines.new.items ≡ lines.old.items ++ flat_map (short_lines m) (map sided_edge edges.now.list.items)) }
{
    let mut notes = Notes::new(alloc, bands);
    let mut around = Around::new();
    for place in 0..edges.list.len() {
        push_short_at(
            table,
            alloc,
            lines,
            bands,
            edges,
            &mut notes,
            &mut around,
            place,
        )?;
    }
    Ok(())
}

// Appends the lines of the edges whose flip passes.
fn push_flips(table: &EdgeTable, lines: &mut Vec<RestLine>, edges: &[Sided]) -> Result<(), NoMemory>
    requires in_range { ArePlacesInRange table.now.nodes.items }
    requires listed { All (IsListed table.now.sides) edges.now }
    ensures { OnOk result ((m : Undivided) → IsConforming m → Shows table.now.sides table.now.nodes.items m
        → lines.new.items ≡ lines.old.items ++ flat_map (flip_lines m) (map sided_edge edges.now)) }
{
    for e in edges {
        push_line(lines, flip_line(table, *e))?;
    }
    Ok(())
}

/// The rest list of the mesh with these triangles and bands.
pub fn rest(
    table: &EdgeTable,
    alloc: Global,
    tris: &[Tri],
    bands: &[Band],
) -> Result<Vec<RestLine>, NoMemory>
    requires in_range { ArePlacesInRange table.now.nodes.items }
    requires sided { AreSided table.now.sides tris.now }
    ensures { IfOk result (λ lines. (m : Undivided) → IsConforming m → Shows table.now.sides table.now.nodes.items m
        → m.tris ≡ tris.now → m.bands ≡ bands.now → lines.items ≡ rest_of m) }
{
    let edges = list_edges(table, alloc, tris)?;
    let mut lines = with_room(alloc, edges.list.len())?;
    push_long(table, alloc, &mut lines, bands, &edges)?;
    push_short(table, alloc, &mut lines, bands, &edges)?;
    push_flips(table, &mut lines, &edges.list)?;
    Ok(lines)
}
