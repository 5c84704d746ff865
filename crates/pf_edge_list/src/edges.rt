//! The edges of the triangles, each once, by rising names, with the triangles on both sides.
ghost use Rattle.std.specs.Prelude.{◌≡◌, ◌≤◌, ◌++◌, ◌∷◌, [], List, Some, All, OnOk, IfOk, IfSome, None, is_some, length, map};
ghost use Rattle.std.specs.List.Sorted.{IsPermutation};
ghost use Rattle.pf_model.specs.declared.Tri.{Tri};
ghost use Rattle.pf_model.specs.Lengths.{Edge, edge_of};
ghost use Rattle.pf_model.specs.Mesh.{Undivided, directed_edges_of, is_edge, side_of};
ghost use Rattle.pf_model.specs.Rising.{AreDifferent, sorted_by};
ghost use Rattle.pf_model.specs.Conforming.{IsConforming};
ghost use Rattle.pf_model.specs.Sums.{is_counted, edge_lt, edges_of};
ghost use Rattle.pf_edge_list.specs.declared.edges.Corner.{Corner};
ghost use Rattle.pf_edge_list.specs.declared.edges.Corner.TheVariants.{First, Second, Third};
ghost use Rattle.pf_rules.specs.EdgeSides.{AreFoundSides};
ghost use Rattle.pf_rules.specs.Lengths.{span_value};
ghost use Rattle.pf_edge_list.specs.Edges.{sided_edge, AreEdges, AreRising, AreSided, AreStarts, HasStarts, IsAbsent, IsBelow, IsListed, IsOnEdges, IsOnlyIn, IsSided, IsLocated, IsStart, IsUpFrom, StandsAt, counted_from, counted_in, edge_from, part_of};
ghost use Rattle.pf_edges.specs.Table.{Shows, Sides, side_at};

use pf_edges::table::EdgeTable;
use pf_geom::NoMemory;
use pf_model::{Side, Tri};
use pf_rules::edge_sides::EdgeSides;
use pf_rules::lengths::{Span, span_of};
use std::alloc::Global;

/// An edge, with the triangles on its two sides: left of the direction from the lower name to the higher
/// one, and right of it.
#[derive(Clone, Copy, Debug, PartialEq, Eq)]
pub struct Sided {
    pub span: Span,
    pub edge_sides: EdgeSides,
}

/// A corner of a triangle, by its place in it.
#[derive(Clone, Copy, Debug, PartialEq, Eq)]
pub enum Corner {
    First,
    Second,
    Third,
}

/// An edge, and its place in a list of edges, where it was found there.
#[derive(Clone, Copy, Debug, PartialEq, Eq)]
pub struct Located {
    pub edge: Sided,
    pub place: Option<usize>,
}

/// How far from its place in the list a triangle's neighbours are looked for before the table is asked.
const NEAR: usize = 4;

/// A block of edges that is no longer is read place by place.
const SHORT_BLOCK: usize = 8;

/// Edges by rising names, and for each name the place of the first edge whose lower name isn't less.
#[derive(Drop)]
pub struct Edges {
    pub list: Vec<Sided>,
    pub starts: Vec<usize>,
}

/// Edges by the corner of the triangle that they come from.
#[derive(Drop)]
pub struct ByCorner {
    pub first: Vec<Sided>,
    pub second: Vec<Sided>,
    pub third: Vec<Sided>,
}

// The parts one after another.
fn joined(parts: ByCorner) -> Result<Vec<Sided>, NoMemory>
    ensures { IfOk result (λ edges. edges.items ≡ part_of First parts ++ (part_of Second parts ++ part_of Third parts)) }
{
    let ByCorner {
        first: mut edges,
        mut second,
        mut third,
    } = parts;
    if edges.append(&mut second).is_err() {
        return Err(NoMemory);
    }
    if edges.append(&mut third).is_err() {
        return Err(NoMemory);
    }
    Ok(edges)
}

// Sorts edges by names. Runs that are sorted are kept and merged.
fn sort_edges(edges: &mut Vec<Sided>) -> Result<(), NoMemory>
    ensures sorted { OnOk result ((es : List Edge) → AreDifferent es → IsPermutation es (map sided_edge edges.old.items)
        → map sided_edge edges.new.items ≡ sorted_by edge_lt es) }
    ensures listed { (table : Sides) → All (IsListed table) edges.old.items → All (IsListed table) edges.new.items }
{
    if edges.sort_by_key(|e| (e.span.lo, e.span.hi)).is_err() {
        return Err(NoMemory);
    }
    Ok(())
}

// The first place from this one on where the lower name isn't less.
fn start_from(edges: &[Sided], from: usize, name: usize) -> usize
    ensures { AreRising edges.now → IsBelow edges.now name from → IsStart edges.now name result }
{
    let mut place = from;
    'pass: while place < edges.len() {
        if edges[place].span.lo as usize >= name {
            return place;
        }
        place += 1;
    }
    place
}

// For each of so many names, the place of the first edge whose lower name isn't less.
fn starts_of(alloc: Global, edges: &[Sided], names: usize) -> Result<Vec<usize>, NoMemory>
    ensures { IfOk result (λ starts. AreRising edges.now → AreStarts edges.now starts.items) }
{
    let mut starts = with_room(alloc, names)?;
    let mut place = 0;
    for name in 0..names {
        place = start_from(edges, place, name);
        if starts.push(place).is_err() {
            return Err(NoMemory);
        }
    }
    Ok(starts)
}

// Whether the edge stands before the other one.
fn is_before(at: Span, e: Span) -> bool
    ensures { result ≡ edge_lt (span_value at) (span_value e) }
{
    at.lo < e.lo || (at.lo == e.lo && at.hi < e.hi)
}

// The place of an edge in a block of the list, place by place.
fn scan(edges: &[Sided], from: usize, to: usize, e: Span) -> Option<usize>
    requires { to ≤ length edges.now }
    ensures found { IfSome result (StandsAt edges.now (span_value e)) }
    ensures missing { IsOnlyIn edges.now (span_value e) from to → result ≡ None → IsAbsent edges.now (span_value e) }
{
    for place in from..to {
        let at = edges[place].span;
        if at.hi == e.hi && at.lo == e.lo {
            return Some(place);
        }
    }
    None
}

// The place of an edge between two places of the list. A long block is halved until it is short.
fn search(edges: &[Sided], from: usize, to: usize, e: Span) -> Option<usize>
    ensures found { IfSome result (StandsAt edges.now (span_value e)) }
    ensures missing { AreRising edges.now → IsOnlyIn edges.now (span_value e) from to → result ≡ None → IsAbsent edges.now (span_value e) }
{
    let (mut first, mut end) = (from, to.min(edges.len()));
    'halve: while first < end && end - first > SHORT_BLOCK {
        let middle = first + (end - first) / 2;
        if is_before(edges[middle].span, e) {
            first = middle + 1;
        } else {
            end = middle + 1;
        }
    }
    scan(edges, first, end, e)
}

// The triangle, where it has the directed edge from `p` to `q`.
fn side_in(t: Tri, p: u32, q: u32) -> Option<Side>
    ensures { IfSome result (λ left. (table : Sides) → IsOnEdges table t → side_at table p q ≡ Some (left)) }
{
    let Tri { a, b, c, owner } = t;
    if a == p && b == q {
        return Some(Side { apex: c, owner });
    }
    if b == p && c == q {
        return Some(Side { apex: a, owner });
    }
    if c == p && a == q {
        return Some(Side { apex: b, owner });
    }
    None
}

// The first triangle between two places that has the directed edge from `p` to `q`.
fn side_among(tris: &[Tri], from: usize, to: usize, p: u32, q: u32) -> Option<Side>
    ensures { IfSome result (λ left. (table : Sides) → AreSided table tris.now → side_at table p q ≡ Some (left)) }
{
    for at in from..to.min(tris.len()) {
        if let Some(left) = side_in(tris[at], p, q) {
            return Some(left);
        }
    }
    None
}

// Whether an edge is counted in this direction: from the lower name, or where nothing stands on its right.
fn is_counted(p: u32, q: u32, right: Option<Side>) -> bool
    ensures { (ts : List Tri) → right ≡ side_of ts q p → result ≡ is_counted ts record { from = p; to = q } }
{
    p < q || right.is_none()
}

// The edge between two names, with what stands on both sides of the way from the first to the second.
fn sided_by(p: u32, q: u32, edge_sides: EdgeSides) -> Sided
    ensures edge { sided_edge result ≡ edge_of p q }
    ensures listed { (table : Sides) → AreFoundSides (side_at table) p q edge_sides → IsListed table result }
{
    Sided {
        span: span_of(p, q),
        edge_sides: edge_sides.rising(p, q),
    }
}

impl Edges {
    /// A place from which on all edges stand whose lower name isn't less.
    pub fn start(&self, name: usize) -> usize
        ensures { HasStarts self.now → IsBelow self.now.list.items name result }
    {
        if name < self.starts.len() {
            self.starts[name]
        } else {
            0
        }
    }

    /// A place before which all edges stand whose lower name is less.
    pub fn end(&self, name: usize) -> usize
        ensures { HasStarts self.now → IsUpFrom self.now.list.items name result }
    {
        if name < self.starts.len() {
            self.starts[name]
        } else {
            self.list.len()
        }
    }

    /// The place of an edge in the list.
    pub fn find(&self, e: Span) -> Option<usize>
        ensures found { IfSome result (StandsAt self.now.list.items (span_value e)) }
        ensures edge { (m : Undivided) → IsConforming m → AreEdges m self.now → e.lo ≤ e.hi → is_some result ≡ is_edge m.tris e.lo e.hi }
    {
        let lo = e.lo as usize;
        search(&self.list, self.start(lo), self.end(lo + 1), e)
    }
}

// The edge with the triangles on its two sides.
fn looked_up(table: &EdgeTable, e: Span) -> Sided
    ensures edge { result.span ≡ e }
    ensures sides { IsSided table.now.sides result }
{
    Sided {
        span: e,
        edge_sides: EdgeSides {
            left: table.side(e.lo, e.hi),
            right: table.side(e.hi, e.lo),
        },
    }
}

/// The edge as it is listed, and by the table where it isn't.
pub fn locate(table: &EdgeTable, edges: &Edges, e: Span) -> Located
    requires { All (IsListed table.now.sides) edges.now.list.items }
    ensures { IsLocated table.now.sides edges.now.list.items (span_value e) result }
{
    match edges.find(e) {
        Some(place) => Located {
            edge: edges.list[place],
            place: Some(place),
        },
        None => Located {
            edge: looked_up(table, e),
            place: None,
        },
    }
}

// The triangle on the left of the directed edge from `p` to `q`: one of those that are listed next to a
// place, which takes no look-up, or else as the table has it.
fn side_near(table: &EdgeTable, tris: &[Tri], at: usize, p: u32, q: u32) -> Option<Side>
    requires { AreSided table.now.sides tris.now }
    ensures { result ≡ side_at table.now.sides p q }
{
    match side_among(tris, at.saturating_sub(NEAR), at.saturating_add(NEAR), p, q) {
        Some(left) => Some(left),
        None => table.side(p, q),
    }
}

// Appends the edge that this triangle stands left of, where it is counted in this direction. The triangle
// stands at a place of the list.
fn push_counted(
    table: &EdgeTable,
    edges: &mut Vec<Sided>,
    tris: &[Tri],
    at: usize,
    p: u32,
    q: u32,
    this: Side,
) -> Result<(), NoMemory>
    requires sided { AreSided table.now.sides tris.now }
    requires left { side_at table.now.sides p q ≡ Some (this) }
    ensures counted { OnOk result ((m : Undivided) → Shows table.now.sides table.now.nodes.items m
        → map sided_edge edges.new.items ≡ map sided_edge edges.old.items ++ counted_in m.tris (record { from = p; to = q } ∷ [])) }
    ensures listed { All (IsListed table.now.sides) edges.old.items → All (IsListed table.now.sides) edges.new.items }
{
    let edge_sides = EdgeSides {
        left: Some(this),
        right: side_near(table, tris, at, q, p),
    };
    if is_counted(p, q, edge_sides.right) && edges.push(sided_by(p, q, edge_sides)).is_err() {
        return Err(NoMemory);
    }
    Ok(())
}

// Appends the edge from a corner of a triangle, where it is counted in this direction.
fn push_from(
    table: &EdgeTable,
    edges: &mut Vec<Sided>,
    tris: &[Tri],
    at: usize,
    t: Tri,
    corner: Corner,
) -> Result<(), NoMemory>
    requires sided { AreSided table.now.sides tris.now }
    requires this { IsOnEdges table.now.sides t }
    ensures counted { OnOk result ((m : Undivided) → Shows table.now.sides table.now.nodes.items m
        → map sided_edge edges.new.items ≡ map sided_edge edges.old.items ++ counted_in m.tris (edge_from corner t ∷ [])) }
    ensures listed { All (IsListed table.now.sides) edges.old.items → All (IsListed table.now.sides) edges.new.items }
{
    let (p, q, apex) = match corner {
        Corner::First => (t.a, t.b, t.c),
        Corner::Second => (t.b, t.c, t.a),
        Corner::Third => (t.c, t.a, t.b),
    };
    push_counted(
        table,
        edges,
        tris,
        at,
        p,
        q,
        Side {
            apex,
            owner: t.owner,
        },
    )?;
    Ok(())
}

// Appends the counted edges of a triangle, each to the part of its corner.
fn push_corners(
    table: &EdgeTable,
    parts: &mut ByCorner,
    tris: &[Tri],
    at: usize,
    t: Tri,
) -> Result<(), NoMemory>
    requires sided { AreSided table.now.sides tris.now }
    requires this { IsOnEdges table.now.sides t }
    ensures counted { OnOk result ((m : Undivided) → Shows table.now.sides table.now.nodes.items m → (corner : Corner)
        → map sided_edge (part_of corner parts.new) ≡ map sided_edge (part_of corner parts.old) ++ counted_in m.tris (edge_from corner t ∷ [])) }
    ensures listed { OnOk result ((corner : Corner) → All (IsListed table.now.sides) (part_of corner parts.old) → All (IsListed table.now.sides) (part_of corner parts.new)) }
{
    push_from(table, &mut parts.first, tris, at, t, Corner::First)?;
    push_from(table, &mut parts.second, tris, at, t, Corner::Second)?;
    push_from(table, &mut parts.third, tris, at, t, Corner::Third)?;
    Ok(())
}

// The counted edges of the triangles, by the corners that they come from. As the triangles rise by corners,
// the first part is sorted, and the others are nearly so where names run through the mesh.
fn parts_met(table: &EdgeTable, alloc: Global, tris: &[Tri]) -> Result<ByCorner, NoMemory>
    requires { AreSided table.now.sides tris.now }
    ensures counted { IfOk result (λ parts. (m : Undivided) → Shows table.now.sides table.now.nodes.items m → (corner : Corner)
        → map sided_edge (part_of corner parts) ≡ counted_from m.tris corner tris.now) }
    ensures listed { IfOk result (λ parts. (corner : Corner) → All (IsListed table.now.sides) (part_of corner parts)) }
{
    let few = tris.len() / 8;
    let half = tris.len() / 2;
    let mut parts = ByCorner {
        first: with_room(alloc, tris.len().saturating_add(half).saturating_add(few))?,
        second: with_room(alloc, half.saturating_add(few))?,
        third: Vec::new(alloc),
    };
    for (at, t) in tris.iter().enumerate() {
        push_corners(table, &mut parts, tris, at, *t)?;
    }
    Ok(parts)
}

// The edges of the triangles, each once: those from first corners, then from second and from third ones.
fn edges_met(table: &EdgeTable, alloc: Global, tris: &[Tri]) -> Result<Vec<Sided>, NoMemory>
    requires { AreSided table.now.sides tris.now }
    ensures counted { IfOk result (λ edges. (m : Undivided) → Shows table.now.sides table.now.nodes.items m → m.tris ≡ tris.now
        → IsPermutation (counted_in m.tris (directed_edges_of m.tris)) (map sided_edge edges.items)) }
    ensures listed { IfOk result (λ edges. All (IsListed table.now.sides) edges.items) }
{
    let parts = parts_met(table, alloc, tris)?;
    let edges = joined(parts)?;
    Ok(edges)
}

/// The edges of the triangles, each once, by rising names.
pub fn list_edges(table: &EdgeTable, alloc: Global, tris: &[Tri]) -> Result<Edges, NoMemory>
    requires { AreSided table.now.sides tris.now }
    ensures all { IfOk result (λ edges. (m : Undivided) → IsConforming m → Shows table.now.sides table.now.nodes.items m → m.tris ≡ tris.now
        → map sided_edge edges.list.items ≡ edges_of m) }
    ensures listed { IfOk result (λ edges. All (IsListed table.now.sides) edges.list.items) }
    ensures are { IfOk result (λ edges. (m : Undivided) → IsConforming m → Shows table.now.sides table.now.nodes.items m → m.tris ≡ tris.now
        → AreEdges m edges) }
{
    let mut list = edges_met(table, alloc, tris)?;
    sort_edges(&mut list)?;
    let starts = starts_of(alloc, &list, table.nodes.len())?;
    Ok(Edges { list, starts })
}

/// An empty list with room for so many elements. Its memory is taken as it is filled.
pub fn with_room<T>(alloc: Global, elements: usize) -> Result<Vec<T>, NoMemory>
    ensures { IfOk result (λ list. list.items ≡ []) }
{
    match Vec::with_capacity(alloc, elements) {
        Ok(list) => Ok(list),
        Err(_) => Err(NoMemory),
    }
}
