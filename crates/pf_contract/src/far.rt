//! New edges that would be longer than their bands allow.
ghost use Rattle.std.specs.Prelude.{◌≡◌, ◌∷◌, [], All, filter, fold, map};
ghost use Rattle.pf_geom.specs.Plane.{IsInRange};
ghost use Rattle.pf_model.specs.Mesh.{Undivided};
ghost use Rattle.pf_model.specs.Rows as rows;
ghost use Rattle.pf_model.specs.Rows.{least_that, lesser, neighbours};
ghost use Rattle.pf_spokes.specs.Spokes.{HasSpots};
ghost use Rattle.pf_rules.specs.Lengths.{IsPlaced};
ghost use Rattle.pf_rules.specs.Star.{IsSpokePlaced};

use pf_model::{Band, Spoke};
use pf_rings::is_near;
use pf_rules::lengths::{Placed, is_long_between};
use pf_spokes::lesser_of;

// Whether the edge from `v`, with these spokes `around`, to `x` would be new, and is too long.
fn is_far(bands: &[Band], v: Placed, around: &[Spoke], x: Placed) -> bool
    requires v { IsInRange v.at }
    requires x { IsInRange x.at }
    ensures { (m : Undivided) → m.bands ≡ bands.now → IsPlaced m v → IsPlaced m x → result ≡ rows.is_too_long m v.name around.now x.name }
{
    if x.name == v.name {
        return false;
    }
    if is_near(around, x.name) {
        return false;
    }
    is_long_between(bands, v.at, x.at)
}

// The least far node so far, with one node more.
fn lesser_far(
    bands: &[Band],
    v: Placed,
    around: &[Spoke],
    least: Option<u32>,
    x: Placed,
) -> Option<u32>
    requires v { IsInRange v.at }
    requires x { IsInRange x.at }
    ensures { (m : Undivided) → m.bands ≡ bands.now → IsPlaced m v → IsPlaced m x
        → result ≡ fold lesser least (filter (rows.is_too_long m v.name around.now) (x.name ∷ [])) }
{
    if is_far(bands, v, around, x) {
        lesser_of(least, x.name)
    } else {
        least
    }
}

// The right of the spoke, and where it stands.
fn right_of(s: &Spoke) -> Placed
    ensures name { result.name ≡ s.now.right }
    ensures at { result.at ≡ s.now.right_at }
{
    Placed {
        name: s.right,
        at: s.right_at,
    }
}

// The left of the spoke, and where it stands.
fn left_of(s: &Spoke) -> Placed
    ensures name { result.name ≡ s.now.left }
    ensures at { result.at ≡ s.now.left_at }
{
    Placed {
        name: s.left,
        at: s.left_at,
    }
}

// The least of the rights of the spokes that is far.
fn least_right(bands: &[Band], v: Placed, around: &[Spoke], spokes: &[Spoke]) -> Option<u32>
    requires v { IsInRange v.at }
    requires spots { All HasSpots spokes.now }
    ensures { (m : Undivided) → m.bands ≡ bands.now → IsPlaced m v → All (IsSpokePlaced m) spokes.now
        → result ≡ least_that (rows.is_too_long m v.name around.now) (map (λ s. s.right) spokes.now) }
{
    let mut least = None;
    for s in spokes {
        least = lesser_far(bands, v, around, least, right_of(s));
    }
    least
}

// The least so far, with the lefts of the spokes.
fn least_left(
    bands: &[Band],
    v: Placed,
    around: &[Spoke],
    least: Option<u32>,
    spokes: &[Spoke],
) -> Option<u32>
    requires v { IsInRange v.at }
    requires spots { All HasSpots spokes.now }
    ensures { (m : Undivided) → m.bands ≡ bands.now → IsPlaced m v → All (IsSpokePlaced m) spokes.now
        → result ≡ fold lesser least (filter (rows.is_too_long m v.name around.now) (map (λ s. s.left) spokes.now)) }
{
    let mut found = least;
    for s in spokes {
        found = lesser_far(bands, v, around, found, left_of(s));
    }
    found
}

/// The least neighbour of the node with the spokes to which a new edge from `v`, with those `around`, would be too
/// long.
pub fn least_far(bands: &[Band], v: Placed, around: &[Spoke], spokes: &[Spoke]) -> Option<u32>
    requires v { IsInRange v.at }
    requires spots { All HasSpots spokes.now }
    ensures { (m : Undivided) → m.bands ≡ bands.now → IsPlaced m v → All (IsSpokePlaced m) spokes.now
        → result ≡ least_that (rows.is_too_long m v.name around.now) (neighbours spokes.now) }
{
    let least = least_right(bands, v, around, spokes);
    least_left(bands, v, around, least, spokes)
}
