//! The band of an edge, and the order of edges by length.
ghost use Rattle.std.specs.Prelude.{◌≡◌, ◌≤◌, ℕ, pos, ◌+ℤ◌, ◌*ℤ◌, ◌&&◌, ◌||◌, ◌==◌, nat_lt, int_lt, int_le, find};
ghost use Rattle.std.specs.Ordering.{int_eq};
ghost use Rattle.pf_geom.specs.Plane.{IsInRange, len2_of};
ghost use Rattle.pf_model.specs.Mesh.{Undivided, place_of};
ghost use Rattle.pf_model.specs.Lengths.{is_long, edge_of, holds_middle, min2_of, is_longer, longer_of, longest_of};
ghost use Rattle.pf_rules.specs.Lengths.{IsMeasured, IsPlaced, span_value};

use pf_geom::{Point, len2};
use pf_model::Band;

/// An edge, the lower name first.
#[derive(Clone, Copy, Debug, PartialEq, Eq)]
pub struct Span {
    pub lo: u32,
    pub hi: u32,
}

/// A node by its name, and where it stands.
#[derive(Clone, Copy, Debug, PartialEq, Eq)]
pub struct Placed {
    pub name: u32,
    pub at: Point,
}

// An edge with its squared length.
#[derive(Clone, Copy, Debug, PartialEq, Eq)]
struct Measured {
    edge: Span,
    len2: i64,
}

/// The edge between two names.
pub fn span_of(a: u32, b: u32) -> Span
    ensures value { span_value result ≡ edge_of a b }
    ensures sorted { result.lo ≤ result.hi }
{
    if a <= b {
        Span { lo: a, hi: b }
    } else {
        Span { lo: b, hi: a }
    }
}

// Whether the middle of the two points is not left of the band.
fn is_past_left(row: &Band, a: Point, b: Point) -> bool
    ensures { result ≡ int_le (pos 2 *ℤ row.now.xlo) (a.x +ℤ b.x) }
{
    2 * i64::from(row.xlo) <= i64::from(a.x) + i64::from(b.x)
}

// Whether it is not right of it.
fn is_before_right(row: &Band, a: Point, b: Point) -> bool
    ensures { result ≡ int_le (a.x +ℤ b.x) (pos 2 *ℤ row.now.xhi) }
{
    i64::from(a.x) + i64::from(b.x) <= 2 * i64::from(row.xhi)
}

// Whether it is not below it.
fn is_past_bottom(row: &Band, a: Point, b: Point) -> bool
    ensures { result ≡ int_le (pos 2 *ℤ row.now.ylo) (a.y +ℤ b.y) }
{
    2 * i64::from(row.ylo) <= i64::from(a.y) + i64::from(b.y)
}

// Whether it is not above it.
fn is_before_top(row: &Band, a: Point, b: Point) -> bool
    ensures { result ≡ int_le (a.y +ℤ b.y) (pos 2 *ℤ row.now.yhi) }
{
    i64::from(a.y) + i64::from(b.y) <= 2 * i64::from(row.yhi)
}

// Whether the band holds the middle of the two points.
fn is_middle_in(row: &Band, a: Point, b: Point) -> bool
    ensures { result ≡ holds_middle a b row.now }
{
    is_past_left(row, a, b)
        && is_before_right(row, a, b)
        && is_past_bottom(row, a, b)
        && is_before_top(row, a, b)
}

// Whether two points are further apart than the band allows.
fn is_above(row: Band, a: Point, b: Point) -> bool
    requires a { IsInRange a }
    requires b { IsInRange b }
    ensures { result ≡ int_lt row.max2 (len2_of a b) }
{
    row.max2 < len2(a, b)
}

// Whether the first edge stands before the second, by names.
fn is_named_before(e: Span, f: Span) -> bool
    ensures { result ≡ (nat_lt e.lo f.lo || (e.lo == f.lo && nat_lt e.hi f.hi)) }
{
    e.lo < f.lo || (e.lo == f.lo && e.hi < f.hi)
}

/// The squared length that an edge between two points is to have at least, and 0 where no band holds its
/// middle.
pub fn least_between(bands: &[Band], at_a: Point, at_b: Point) -> i64
    ensures { (m : Undivided) (a b : ℕ) → m.bands ≡ bands.now → at_a ≡ place_of m a → at_b ≡ place_of m b → result ≡ min2_of m a b }
{
    match band_at(bands, at_a, at_b) {
        Some(row) => row.min2,
        None => 0,
    }
}

/// Whether the edge between two points is longer than its band allows.
pub fn is_long_between(bands: &[Band], at_a: Point, at_b: Point) -> bool
    requires a { IsInRange at_a }
    requires b { IsInRange at_b }
    ensures { (m : Undivided) (a b : ℕ) → m.bands ≡ bands.now → at_a ≡ place_of m a → at_b ≡ place_of m b → result ≡ is_long m a b }
{
    match band_at(bands, at_a, at_b) {
        Some(row) => is_above(row, at_a, at_b),
        None => false,
    }
}

// The edge between two nodes.
fn measure(a: Placed, b: Placed) -> Measured
    requires a { IsInRange a.at }
    requires b { IsInRange b.at }
    ensures edge { span_value result.edge ≡ edge_of a.name b.name }
    ensures len2 { (m : Undivided) → IsPlaced m a → IsPlaced m b → IsMeasured m result }
{
    Measured {
        edge: span_of(a.name, b.name),
        len2: len2(a.at, b.at),
    }
}

// Whether two edges have the same length.
fn is_as_long(e: Measured, f: Measured) -> bool
    ensures { result ≡ int_eq e.len2 f.len2 }
{
    e.len2 == f.len2
}

// Whether the second edge is longer: by length, then lower name, then higher name.
fn is_second_longer(e: Measured, f: Measured) -> bool
    ensures { (m : Undivided) → IsMeasured m e → IsMeasured m f → result ≡ is_longer m (span_value e.edge) (span_value f.edge) }
{
    e.len2 < f.len2 || (is_as_long(e, f) && is_named_before(e.edge, f.edge))
}

// The longer of two edges.
fn longer(e: Measured, f: Measured) -> Measured
    ensures len2 { (m : Undivided) → IsMeasured m e → IsMeasured m f → IsMeasured m result }
    ensures edge { (m : Undivided) → IsMeasured m e → IsMeasured m f → span_value result.edge ≡ longer_of m (span_value e.edge) (span_value f.edge) }
{
    if is_second_longer(e, f) { f } else { e }
}

/// The first band that holds the middle of the two points.
pub fn band_at(bands: &[Band], a: Point, b: Point) -> Option<Band>
    ensures { result ≡ find (holds_middle a b) bands.now }
{
    for row in bands {
        if is_middle_in(row, a, b) {
            return Some(*row);
        }
    }
    None
}

/// The longest edge of the triangle `p`, `q`, `z`.
pub fn longest_between(p: Placed, q: Placed, z: Placed) -> Span
    requires p { IsInRange p.at }
    requires q { IsInRange q.at }
    requires z { IsInRange z.at }
    ensures { (m : Undivided) → IsPlaced m p → IsPlaced m q → IsPlaced m z → span_value result ≡ longest_of m p.name q.name z.name }
{
    longer(longer(measure(p, q), measure(q, z)), measure(z, p)).edge
}
