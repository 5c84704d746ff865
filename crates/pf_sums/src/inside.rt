//! Whether a point with fractions for coordinates is strictly inside a triangle.
ghost use Rattle.std.specs.Prelude.{◌≡◌, pos, ◌-ℤ◌, ◌*ℤ◌, int_lt};
ghost use Rattle.pf_geom.specs.Plane.{IsInRange, IsWithin};
ghost use Rattle.pf_sums.specs.Inside.{is_strictly_inside, is_strictly_left};

use pf_geom::Point;

/// Whether the point (x/q, y/q) is strictly inside the triangle `a`, `b`, `c`, whose corners turn
/// counterclockwise. It is found in whole numbers, after each corner is multiplied by `q`. It can't
/// overflow, and takes no memory.
pub fn is_inside(a: Point, b: Point, c: Point, x: i64, y: i64, q: u32) -> bool
    requires a_in_range { IsInRange a }
    requires b_in_range { IsInRange b }
    requires c_in_range { IsInRange c }
    requires x_within { IsWithin 2305843009213693952 x }
    requires y_within { IsWithin 2305843009213693952 y }
    ensures { result ≡ is_strictly_inside (pos q) record { x = x; y = y } a b c }
{
    is_left(a, b, x, y, q) && (is_left(b, c, x, y, q) && is_left(c, a, x, y, q))
}

// Whether the point (x/q, y/q) is strictly left of the path from `a` to `b`.
fn is_left(a: Point, b: Point, x: i64, y: i64, q: u32) -> bool
    requires a_in_range { IsInRange a }
    requires b_in_range { IsInRange b }
    requires x_within { IsWithin 2305843009213693952 x }
    requires y_within { IsWithin 2305843009213693952 y }
    ensures { result ≡ is_strictly_left (pos q) record { x = x; y = y } a b }
{
    let ax = times(q, a.x);
    let ay = times(q, a.y);
    let bx = times(q, b.x);
    let by = times(q, b.y);
    is_more(
        difference(bx, ax),
        difference(y, ay),
        difference(by, ay),
        difference(x, ax),
    )
}

// The coordinate, multiplied.
fn times(q: u32, c: i32) -> i64
    requires c_within { IsWithin 268435456 c }
    ensures value { result ≡ pos q *ℤ c }
    ensures within { IsWithin 1152921504606846976 result }
{
    i64::from(q) * i64::from(c)
}

// The difference of two coordinates that were multiplied.
fn difference(p: i64, q: i64) -> i64
    requires p_within { IsWithin 2305843009213693952 p }
    requires q_within { IsWithin 1152921504606846976 q }
    ensures value { result ≡ p -ℤ q }
    ensures within { IsWithin 3458764513820540928 result }
{
    p - q
}

// Whether the product of the first two is more than that of the others.
fn is_more(x: i64, y: i64, z: i64, w: i64) -> bool
    requires x_within { IsWithin 3458764513820540928 x }
    requires y_within { IsWithin 3458764513820540928 y }
    requires z_within { IsWithin 3458764513820540928 z }
    requires w_within { IsWithin 3458764513820540928 w }
    ensures { result ≡ int_lt (pos 0) (x *ℤ y -ℤ z *ℤ w) }
{
    wide(z, w) < wide(x, y)
}

// The product, whole.
fn wide(x: i64, y: i64) -> i128
    requires x_within { IsWithin 3458764513820540928 x }
    requires y_within { IsWithin 3458764513820540928 y }
    ensures { result ≡ x *ℤ y }
{
    i128::from(x) * i128::from(y)
}
