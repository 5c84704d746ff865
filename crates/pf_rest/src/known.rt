//! Where walks to longer edges end, noted for each edge on their way, so that walks share their tails.
ghost use Rattle.std.specs.Prelude.{◌≡◌, ◌<◌, ◌∷◌, [], List, All, Some, OnOk, IfOk, IfSome, length, slice_get};
ghost use Rattle.pf_model.specs.Mesh.{Undivided};
ghost use Rattle.pf_model.specs.Conforming.{IsConforming};
ghost use Rattle.pf_model.specs.Lengths.{Edge};
ghost use Rattle.pf_model.specs.Wishes.{terminal_of};
ghost use Rattle.pf_edge_list.specs.declared.edges.Sided.{Sided};
ghost use Rattle.pf_edge_list.specs.Edges.{sided_edge, IsSided, IsListed, IsLocated};
ghost use Rattle.pf_rest.specs.Rest.{AreAtEnds, IsEnd, IsFinite, LeadTo};
ghost use Rattle.pf_edges.specs.Table.{ArePlacesInRange, Shows, Sides};

use crate::lines::acting_chunk;
use crate::walks::next_longer;
use pf_edge_list::edges::{Edges, Located, Sided, locate};
use pf_edges::table::EdgeTable;
use pf_geom::NoMemory;
use pf_judge::bisect::bisect_condition;
use pf_model::{Band, Cond};
use pf_rules::lengths::Span;

/// Where a walk ends, and the first condition that the bisection of this edge fails.
#[derive(Clone, Copy, Debug, PartialEq, Eq)]
pub struct End {
    pub edge: Span,
    pub cond: Option<Cond>,
}

// Makes room for the ends of the walks from so many edges, where there is none yet.
fn make_room(ends: &mut Vec<Option<End>>, edges: usize) -> Result<(), NoMemory>
    ensures { OnOk result ((m : Undivided) (edges : List Sided) → AreAtEnds m edges ends.old.items → AreAtEnds m edges ends.new.items) }
{
    if !ends.is_empty() {
        return Ok(());
    }
    match ends.resize(edges, None) {
        Ok(()) => Ok(()),
        Err(_) => Err(NoMemory),
    }
}

// Where the walk from an edge ends, if that is noted.
fn known_end(ends: &[Option<End>], at: Located) -> Option<End>
    ensures { IfSome result (λ end. (m : Undivided) (table : Sides) (edges : List Sided) (e : Edge) → IsLocated table edges e at → AreAtEnds m edges ends.now
        → IsEnd m (terminal_of m e) end) }
{
    let Some(place) = at.place else {
        return None;
    };
    if place < ends.len() {
        ends[place]
    } else {
        None
    }
}

// Notes where the walk from the edge at a place ends.
fn note_end(ends: &mut Vec<Option<End>>, place: usize, end: End)
    ensures { (m : Undivided) (edges : List Sided) (t : Edge) → AreAtEnds m edges ends.old.items → LeadTo m edges (place ∷ []) t → IsEnd m t end
        → AreAtEnds m edges ends.new.items }
{
    if place >= ends.len() {
        return;
    }
    ends[place] = Some(end);
}

// Notes where the walks from the edges at these places end.
fn note_way(ends: &mut Vec<Option<End>>, way: &[usize], end: End)
    ensures { (m : Undivided) (edges : List Sided) (t : Edge) → AreAtEnds m edges ends.old.items → LeadTo m edges way.now t → IsEnd m t end
        → AreAtEnds m edges ends.new.items }
{
    for place in way {
        note_end(ends, *place, end);
    }
}

// Appends the place of an edge, where it has one.
fn push_place(way: &mut Vec<usize>, at: Located) -> Result<(), NoMemory>
    ensures { OnOk result ((m : Undivided) (table : Sides) (edges : List Sided) (e t : Edge) → IsLocated table edges e at → terminal_of m e ≡ t
        → LeadTo m edges way.old.items t → LeadTo m edges way.new.items t) }
{
    if let Some(place) = at.place {
        if way.push(place).is_err() {
            return Err(NoMemory);
        }
    }
    Ok(())
}

// The end of a walk at this edge.
fn end_at(table: &EdgeTable, bands: &[Band], e: Sided) -> End
    requires { ArePlacesInRange table.now.nodes.items }
    ensures { (m : Undivided) → IsConforming m → Shows table.now.sides table.now.nodes.items m → m.bands ≡ bands.now → IsSided table.now.sides e
        → IsEnd m (sided_edge e) result }
{
    let (lo, hi) = (e.span.lo, e.span.hi);
    let chunk = acting_chunk(table, e);
    End {
        edge: e.span,
        cond: bisect_condition(table, bands, chunk, lo, hi, e.edge_sides),
    }
}

// Where the walk from an edge ends, and the places on its way. It goes no further than to an edge whose
// end is noted.
fn end_from(
    table: &EdgeTable,
    bands: &[Band],
    edges: &Edges,
    ends: &[Option<End>],
    way: &mut Vec<usize>,
    e: Located,
) -> Result<End, NoMemory>
    requires in_range { ArePlacesInRange table.now.nodes.items }
    requires listed { All (IsListed table.now.sides) edges.now.list.items }
    requires located { IsLocated table.now.sides edges.now.list.items (sided_edge e.edge) e }
    requires empty { way.old.items ≡ [] }
    ensures end { IfOk result (λ end. (m : Undivided) → IsConforming m → Shows table.now.sides table.now.nodes.items m → m.bands ≡ bands.now
        → AreAtEnds m edges.now.list.items ends.now → IsFinite m (sided_edge e.edge) → IsEnd m (terminal_of m (sided_edge e.edge)) end) }
    ensures way { OnOk result ((m : Undivided) → Shows table.now.sides table.now.nodes.items m → AreAtEnds m edges.now.list.items ends.now
        → IsFinite m (sided_edge e.edge) → LeadTo m edges.now.list.items way.new.items (terminal_of m (sided_edge e.edge))) }
{
    let mut at = e;
    let mut most = table.sides.len();
    'walk: while most > 0 {
        if let Some(end) = known_end(ends, at) {
            return Ok(end);
        }
        push_place(way, at)?;
        let Some(next) = next_longer(table, at.edge) else {
            return Ok(end_at(table, bands, at.edge));
        };
        at = locate(table, edges, next);
        most -= 1;
    }
    Ok(end_at(table, bands, at.edge))
}

/// Where the walk from the edge at a place ends, which is noted then for all edges on its way. So each edge is walked
/// on from at most once, however many walks come through it.
pub fn follow(
    table: &EdgeTable,
    bands: &[Band],
    edges: &Edges,
    ends: &mut Vec<Option<End>>,
    way: &mut Vec<usize>,
    place: usize,
) -> Result<End, NoMemory>
    requires in_range { ArePlacesInRange table.now.nodes.items }
    requires listed { All (IsListed table.now.sides) edges.now.list.items }
    requires place { place < length edges.now.list.items }
    ensures end { IfOk result (λ end. (m : Undivided) (e : Sided) → IsConforming m → Shows table.now.sides table.now.nodes.items m → m.bands ≡ bands.now
        → AreAtEnds m edges.now.list.items ends.old.items → slice_get edges.now.list.items place ≡ Some e → IsEnd m (terminal_of m (sided_edge e)) end) }
    ensures noted { OnOk result ((m : Undivided) → IsConforming m → Shows table.now.sides table.now.nodes.items m → m.bands ≡ bands.now
        → AreAtEnds m edges.now.list.items ends.old.items → AreAtEnds m edges.now.list.items ends.new.items) }
{
    make_room(ends, edges.list.len())?;
    way.clear();
    let e = Located {
        edge: edges.list[place],
        place: Some(place),
    };
    let end = end_from(table, bands, edges, ends, way, e)?;
    note_way(ends, way, end);
    Ok(end)
}
