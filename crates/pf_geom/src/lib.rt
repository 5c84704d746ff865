//! Points of the plane with whole-number coordinates, and exact geometry over them.
//!
//! Coordinates have no unit of their own. Lengths are squared, in squared coordinate units, and areas
//! are doubled, so that every value is a whole number and none is rounded.
#![tactic(auto)]

ghost use Rattle.std.specs.Prelude.{◌≡◌, pos, ◌+ℤ◌, ◌-ℤ◌, ◌*ℤ◌, ◌≤ℤ◌, ◌<ℤ◌, ◌↔◌, Some, None, IfSome, int_div, int_rem, if◌then◌else◌};
ghost use Rattle.std.specs.Ordering.{int_eq};
ghost use Rattle.pf_geom.specs.Plane.{IsInRange, IsWithin, most_coordinate, orient_of, len2_of, middle_of};
ghost use Rattle.pf_geom.specs.Laws.{FlipCutsAgree};

/// A point of the plane. Every call of this crate asks that both coordinates have a magnitude of at
/// most 268,435,456 (2 to the 28th).
#[derive(Clone, Copy, Debug, PartialEq, Eq, Default)]
pub struct Point {
    pub x: i32,
    pub y: i32,
}

/// The greatest magnitude of a coordinate.
pub const MOST_COORDINATE: i32 = 268_435_456;

/// A fact, and no work: the limit of the code is that of the definitions.
pub fn limit_is_defined()
    ensures { MOST_COORDINATE ≡ pos most_coordinate }
{}

/// Which way a path of three points turns.
#[derive(Clone, Copy, Debug, PartialEq, Eq)]
pub enum Turn {
    /// Counterclockwise.
    Left,
    /// The three points lie on one line.
    Flat,
    /// Clockwise.
    Right,
}

/// Memory ran out. Nothing else makes a call answer it.
#[derive(Clone, Copy, Debug, PartialEq, Eq)]
pub struct NoMemory;

/// Twice the signed area of the triangle `a`, `b`, `c`: positive exactly where the three points turn
/// counterclockwise, zero where they lie on one line. In squared coordinate units.
pub fn orient(a: Point, b: Point, c: Point) -> i128
    requires a_in_range { IsInRange a }
    requires b_in_range { IsInRange b }
    requires c_in_range { IsInRange c }
    ensures formula { result ≡ orient_of a b c }
    ensures cyclic { result ≡ orient_of b c a }

    // Twice the area of the mirrored triangle has the other sign.
    ensures swapped { result +ℤ orient_of b a c ≡ pos 0 }
    ensures bounded { IsWithin 576460752303423488 result }
{
    let plus = product(difference(b.x, a.x), difference(c.y, a.y));
    let minus = product(difference(b.y, a.y), difference(c.x, a.x));
    i128::from(plus - minus)
}

/// The sign of `orient(a, b, c)`.
pub fn turn_of(a: Point, b: Point, c: Point) -> Turn
    requires a_in_range { IsInRange a }
    requires b_in_range { IsInRange b }
    requires c_in_range { IsInRange c }
    ensures left { (result ≡ Turn.Left) ↔ (pos 0 <ℤ orient_of a b c) }
    ensures flat { (result ≡ Turn.Flat) ↔ (orient_of a b c ≡ pos 0) }
    ensures right { (result ≡ Turn.Right) ↔ (orient_of a b c <ℤ pos 0) }
{
    let doubled = orient(a, b, c);
    if doubled > 0 {
        Turn::Left
    } else if doubled == 0 {
        Turn::Flat
    } else {
        Turn::Right
    }
}

/// The squared distance from `a` to `b`, in squared coordinate units.
pub fn len2(a: Point, b: Point) -> i64
    requires a_in_range { IsInRange a }
    requires b_in_range { IsInRange b }
    ensures formula { result ≡ len2_of a b }
    ensures symmetric { result ≡ len2_of b a }
    ensures not_negative { pos 0 ≤ℤ result }
    ensures bounded { IsWithin 576460752303423488 result }
{
    let across = difference(b.x, a.x);
    let up = difference(b.y, a.y);
    product(across, across) + product(up, up)
}

/// The point half way between `a` and `b`, or None where it isn't on whole coordinates: where the sum
/// of the two x coordinates is odd, or that of the two y coordinates.
pub fn middle(a: Point, b: Point) -> Option<Point>
    requires a_in_range { IsInRange a }
    requires b_in_range { IsInRange b }
    ensures value { result ≡ middle_of a b }
    ensures in_range { IfSome result IsInRange }
{
    let x = half(a.x, b.x)?;
    let y = half(a.y, b.y)?;
    Some(Point { x, y })
}

// Half the sum of two coordinates, or None where the sum is odd.
fn half(p: i32, q: i32) -> Option<i32>
    requires p_within { IsWithin most_coordinate p }
    requires q_within { IsWithin most_coordinate q }
    ensures value { let sum = p +ℤ q in result ≡ (if int_eq (int_rem sum (pos 2)) (pos 0) then Some (int_div sum (pos 2)) else None) }
    ensures within { IfSome result (IsWithin most_coordinate) }
{
    let sum = p + q;
    if sum % 2 == 0 { Some(sum / 2) } else { None }
}

// The difference of two coordinates.
fn difference(p: i32, q: i32) -> i64
    requires p_within { IsWithin most_coordinate p }
    requires q_within { IsWithin most_coordinate q }
    ensures value { result ≡ p -ℤ q }
    ensures within { IsWithin 536870912 result }
{
    i64::from(p) - i64::from(q)
}

// The product of two such differences.
fn product(x: i64, y: i64) -> i64
    requires x_within { IsWithin 536870912 x }
    requires y_within { IsWithin 536870912 y }
    ensures value { result ≡ x *ℤ y }
    ensures within { IsWithin 288230376151711744 result }
{
    x * y
}

/// A law, and no work: cut a quadrilateral with the corners p, d, q, c by the diagonal from p to q or
/// by that from c to d, and the two triangles have the same doubled area together.
pub fn flip_cuts_agree()
    ensures { FlipCutsAgree }
{}
