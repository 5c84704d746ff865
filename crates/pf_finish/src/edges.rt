//! One edge: what is seen of it, and its lines answered.
ghost use Rattle.std.specs.Prelude.{◌≡◌, ◌≤◌, [], Some, None, IfSome, is_none, not};
ghost use Rattle.pf_model.specs.Lengths.{edge_of};
ghost use Rattle.pf_model.specs.Mesh.{Undivided};
ghost use Rattle.pf_model.specs.Conforming.{IsConforming};
ghost use Rattle.pf_model.specs.Stars as stars;
ghost use Rattle.pf_model.specs.Stars.{star_of, is_neighbour};
ghost use Rattle.pf_model.specs.Wishes.{acting_chunk, terminal_of};
ghost use Rattle.pf_rules.specs.Lengths.{span_value};
ghost use Rattle.pf_holder.specs.Facts.{LendsAll, mesh_alone};
ghost use Rattle.pf_finish.specs.Seen.{IsSeenIn, LooksAt, IsLongSettled, IsShortSettled, IsFlipSettled, IsSettled};
ghost use Rattle.pf_finish.specs.Done.{IsWorkedOff};

use crate::tries::{Answered, wish_tried};
use pf_holder::{Hold, Holder};
use pf_model::{Band, Op};
use pf_rings::Star;
use pf_rules::lengths::{Span, span_of};
use pf_wishes::{longer_at, look, look_is_of_mesh, neighbours_have_edges, no_shorter_no_flip};
use std::alloc::Global;

/// What is seen of an edge, with where the walk to the longest edge goes on.
#[derive(Clone, Copy, Debug, PartialEq, Eq)]
pub struct EdgeSeen {
    /// The acting chunk.
    pub chunk: u16,
    /// The edge is longer than its band allows.
    pub long: bool,
    /// It is shorter than its band allows.
    pub short: bool,
    /// There are two triangles at it, and the other diagonal is strictly shorter.
    pub shorter_flip: bool,
    /// Where the walk goes on.
    pub longer: Option<Span>,
}

// What a star shows of the edge to `b`: `None` exactly where that is no neighbour.
fn star_shown(bands: &[Band], star: &Star, b: u32) -> Option<EdgeSeen>
    ensures none { is_none result ≡ not (is_neighbour b star.now.spokes) }
    ensures fields { IfSome result (IsSeenIn bands.now star.now b) }
{
    let Some(seen) = look(bands, star, b) else {
        return None;
    };
    Some(EdgeSeen {
        chunk: seen.chunk,
        long: seen.long,
        short: seen.short,
        shorter_flip: seen.shorter_flip,
        longer: longer_at(star, b),
    })
}

// What the star of `a` shows of the edge to `b`, where it is lent.
fn star_looked<H: Holder>(h: &H, a: u32, b: u32) -> Option<EdgeSeen>
    ensures { (m : Undivided) (s : stars.Star) → IsConforming m → m.bands ≡ (H.opening h.now).mesh.bands → star_of m a ≡ Some s → H.lent h.now a ≡ Some s → LooksAt m (edge_of a b) result }
{
    look_is_of_mesh();
    neighbours_have_edges();
    no_shorter_no_flip();
    match h.ring(a) {
        Some(ring) => star_shown(h.bands(), ring.star(), b),
        None => None,
    }
}

// What is seen of the edge from `a` to `b`: `None` exactly where there is none. The node is held then, where it is live.
fn held_seen<H: Holder>(h: &mut H, a: u32, b: u32) -> Option<EdgeSeen>
    requires alone { H.alone h.old }
    requires nothing { H.pairs h.old ≡ [] }
    requires lends { LendsAll (H.lent h.old) (H.pairs h.old) }
    ensures same { H.same h.old h.new }
    ensures kept { (H.entries h.new ≡ H.entries h.old) × (H.allowance h.new ≡ H.allowance h.old) }
    ensures seen { LooksAt (mesh_alone (H.opening h.old) (H.entries h.old)) (edge_of a b) result }
{
    match h.hold(a) {
        Hold::Won => star_looked(h, a, b),
        Hold::Lost { holder: _ } => None,
        Hold::Dead => None,
        Hold::Never => None,
    }
}

/// What is seen of the edge from `a` to `b`: `None` exactly where there is none.
pub fn edge_seen<H: Holder>(h: &mut H, a: u32, b: u32) -> Option<EdgeSeen>
    requires alone { H.alone h.old }
    requires nothing { (H.pairs h.old ≡ []) × (H.unborn h.old ≡ None) × (H.owed h.old ≡ []) }
    requires lends { LendsAll (H.lent h.old) (H.pairs h.old) }
    ensures same { H.same h.old h.new }
    ensures nothing { (H.pairs h.new ≡ []) × (H.unborn h.new ≡ None) × (H.owed h.new ≡ []) }
    ensures lends { LendsAll (H.lent h.new) (H.pairs h.new) }
    ensures kept { (H.entries h.new ≡ H.entries h.old) × (H.allowance h.new ≡ H.allowance h.old) }
    ensures seen { LooksAt (mesh_alone (H.opening h.old) (H.entries h.old)) (edge_of a b) result }
{
    let seen = held_seen(h, a, b);
    h.give_back();
    seen
}

// Where the walk from an edge to longer edges ends, and the chunk that acts there.
fn walk_end<H: Holder>(h: &mut H, e: Span, seen: EdgeSeen) -> (Span, u16)
    requires alone { H.alone h.old }
    requires nothing { (H.pairs h.old ≡ []) × (H.unborn h.old ≡ None) × (H.owed h.old ≡ []) }
    requires lends { LendsAll (H.lent h.old) (H.pairs h.old) }
    requires sorted { e.lo ≤ e.hi }
    requires seen { LooksAt (mesh_alone (H.opening h.old) (H.entries h.old)) (span_value e) (Some seen) }
    ensures same { H.same h.old h.new }
    ensures nothing { (H.pairs h.new ≡ []) × (H.unborn h.new ≡ None) × (H.owed h.new ≡ []) }
    ensures lends { LendsAll (H.lent h.new) (H.pairs h.new) }
    ensures kept { (H.entries h.new ≡ H.entries h.old) × (H.allowance h.new ≡ H.allowance h.old) }
    ensures sorted { result.0.lo ≤ result.0.hi }
    ensures end { span_value result.0 ≡ terminal_of (mesh_alone (H.opening h.old) (H.entries h.old)) (span_value e) }
    ensures chunk { result.1 ≡ acting_chunk (mesh_alone (H.opening h.old) (H.entries h.old)) (span_value result.0) }
{
    let mut at = e;
    let mut look = seen;
    'walk: loop {
        let Some(next) = look.longer else {
            return (at, look.chunk);
        };
        match edge_seen(h, next.lo, next.hi) {
            Some(found) => {
                at = next;
                look = found;
            }
            None => unreachable!(),
        }
    }
}

// Bisects the edge where the walk of a long edge ends.
fn long_answered<H: Holder>(alloc: Global, h: &mut H, e: Span, seen: EdgeSeen) -> Option<Answered>
    requires alone { H.alone h.old }
    requires nothing { (H.pairs h.old ≡ []) × (H.unborn h.old ≡ None) × (H.owed h.old ≡ []) }
    requires lends { LendsAll (H.lent h.old) (H.pairs h.old) }
    requires sorted { e.lo ≤ e.hi }
    requires seen { LooksAt (mesh_alone (H.opening h.old) (H.entries h.old)) (span_value e) (Some seen) }
    ensures same { H.same h.old h.new }
    ensures nothing { (H.pairs h.new ≡ []) × (H.unborn h.new ≡ None) × (H.owed h.new ≡ []) }
    ensures lends { LendsAll (H.lent h.new) (H.pairs h.new) }
    ensures settled { result ≡ None → (H.entries h.new ≡ H.entries h.old) × (H.allowance h.new ≡ H.allowance h.old) × IsLongSettled (mesh_alone (H.opening h.old) (H.entries h.old)) (span_value e) }
    ensures answered { IfSome result (λ x. IsWorkedOff (H.opening h.old) (H.allowance h.old) (H.entries h.old) (H.allowance h.new) (H.entries h.new) x) }
{
    if !seen.long {
        return None;
    }
    let (end, chunk) = walk_end(h, e, seen);
    wish_tried(
        alloc,
        h,
        chunk,
        Op::Bisect {
            a: end.lo,
            b: end.hi,
        },
    )
}

// Contracts a short edge, onto its higher end, and else onto its lower end.
fn short_answered<H: Holder>(alloc: Global, h: &mut H, e: Span, seen: EdgeSeen) -> Option<Answered>
    requires alone { H.alone h.old }
    requires nothing { (H.pairs h.old ≡ []) × (H.unborn h.old ≡ None) × (H.owed h.old ≡ []) }
    requires lends { LendsAll (H.lent h.old) (H.pairs h.old) }
    requires sorted { e.lo ≤ e.hi }
    requires seen { LooksAt (mesh_alone (H.opening h.old) (H.entries h.old)) (span_value e) (Some seen) }
    ensures same { H.same h.old h.new }
    ensures nothing { (H.pairs h.new ≡ []) × (H.unborn h.new ≡ None) × (H.owed h.new ≡ []) }
    ensures lends { LendsAll (H.lent h.new) (H.pairs h.new) }
    ensures settled { result ≡ None → (H.entries h.new ≡ H.entries h.old) × (H.allowance h.new ≡ H.allowance h.old) × IsShortSettled (mesh_alone (H.opening h.old) (H.entries h.old)) (span_value e) }
    ensures answered { IfSome result (λ x. IsWorkedOff (H.opening h.old) (H.allowance h.old) (H.entries h.old) (H.allowance h.new) (H.entries h.new) x) }
{
    if !seen.short {
        return None;
    }
    if let Some(answered) = wish_tried(alloc, h, seen.chunk, Op::Contract { u: e.lo, v: e.hi }) {
        return Some(answered);
    }
    wish_tried(alloc, h, seen.chunk, Op::Contract { u: e.hi, v: e.lo })
}

// Flips an edge whose other diagonal is shorter.
fn flip_answered<H: Holder>(alloc: Global, h: &mut H, e: Span, seen: EdgeSeen) -> Option<Answered>
    requires alone { H.alone h.old }
    requires nothing { (H.pairs h.old ≡ []) × (H.unborn h.old ≡ None) × (H.owed h.old ≡ []) }
    requires lends { LendsAll (H.lent h.old) (H.pairs h.old) }
    requires sorted { e.lo ≤ e.hi }
    requires seen { LooksAt (mesh_alone (H.opening h.old) (H.entries h.old)) (span_value e) (Some seen) }
    ensures same { H.same h.old h.new }
    ensures nothing { (H.pairs h.new ≡ []) × (H.unborn h.new ≡ None) × (H.owed h.new ≡ []) }
    ensures lends { LendsAll (H.lent h.new) (H.pairs h.new) }
    ensures settled { result ≡ None → (H.entries h.new ≡ H.entries h.old) × (H.allowance h.new ≡ H.allowance h.old) × IsFlipSettled (mesh_alone (H.opening h.old) (H.entries h.old)) (span_value e) }
    ensures answered { IfSome result (λ x. IsWorkedOff (H.opening h.old) (H.allowance h.old) (H.entries h.old) (H.allowance h.new) (H.entries h.new) x) }
{
    if !seen.shorter_flip {
        return None;
    }
    wish_tried(alloc, h, seen.chunk, Op::Flip { a: e.lo, b: e.hi })
}

/// Answers a line of the edge from `a` to `b` that passes. It is `None` where no line of it passes, or there is no
/// such edge; nothing was done then.
pub fn edge_answered<H: Holder>(alloc: Global, h: &mut H, a: u32, b: u32) -> Option<Answered>
    requires alone { H.alone h.old }
    requires nothing { (H.pairs h.old ≡ []) × (H.unborn h.old ≡ None) × (H.owed h.old ≡ []) }
    requires lends { LendsAll (H.lent h.old) (H.pairs h.old) }
    ensures same { H.same h.old h.new }
    ensures nothing { (H.pairs h.new ≡ []) × (H.unborn h.new ≡ None) × (H.owed h.new ≡ []) }
    ensures lends { LendsAll (H.lent h.new) (H.pairs h.new) }
    ensures settled { result ≡ None → (H.entries h.new ≡ H.entries h.old) × (H.allowance h.new ≡ H.allowance h.old) × IsSettled (mesh_alone (H.opening h.old) (H.entries h.old)) (edge_of a b) }
    ensures answered { IfSome result (λ x. IsWorkedOff (H.opening h.old) (H.allowance h.old) (H.entries h.old) (H.allowance h.new) (H.entries h.new) x) }
{
    let Some(seen) = edge_seen(h, a, b) else {
        return None;
    };
    let e = span_of(a, b);
    if let Some(answered) = long_answered(alloc, h, e, seen) {
        return Some(answered);
    }
    if let Some(answered) = short_answered(alloc, h, e, seen) {
        return Some(answered);
    }
    flip_answered(alloc, h, e, seen)
}
