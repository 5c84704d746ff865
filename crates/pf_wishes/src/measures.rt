//! The length of an edge beside what its band allows.
ghost use Rattle.std.specs.Prelude.{◌≡◌, ◌*ℤ◌, pos, int_lt, false, Some, None};
ghost use Rattle.pf_geom.specs.Plane.{IsInRange};
ghost use Rattle.pf_wishes.specs.Looks.{is_above, is_far_above, is_below};

use pf_model::Band;

/// Whether an edge of this squared length is longer than its band allows.
pub fn is_over(row: Option<Band>, len2: i64) -> bool
    ensures { result ≡ is_above row len2 }
{
    match row {
        Some(band) => band.max2 < len2,
        None => false,
    }
}

// Whether twice the first number is below the second.
fn is_twice_below(max2: i64, len2: i64) -> bool
    ensures { result ≡ int_lt (pos 2 *ℤ max2) len2 }
{
    2 * i128::from(max2) < i128::from(len2)
}

/// Whether its squared length is more than twice what its band allows.
pub fn is_far_over(row: Option<Band>, len2: i64) -> bool
    ensures { result ≡ is_far_above row len2 }
{
    match row {
        Some(band) => is_twice_below(band.max2, len2),
        None => false,
    }
}

/// Whether an edge of this squared length is shorter than its band allows. Without a band it is to have the length 0.
pub fn is_under(row: Option<Band>, len2: i64) -> bool
    ensures { result ≡ is_below row len2 }
{
    match row {
        Some(band) => len2 < band.min2,
        None => len2 < 0,
    }
}
