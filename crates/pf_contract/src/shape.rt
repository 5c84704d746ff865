//! What a star says by itself of a contraction of its node.
ghost use Rattle.std.specs.Prelude.{◌≡◌, ◌&&◌, List, Some, is_some, not, pos, unwrap_or};
ghost use Rattle.std.specs.Ordering.{int_eq};
ghost use Rattle.pf_model.specs.declared.Band.{Band};
ghost use Rattle.pf_model.specs.Mesh.{turn_at};
ghost use Rattle.pf_star_model.specs.Lent.{sight_of};
ghost use Rattle.pf_rules.specs.Contract.{IsShape};

use pf_rings::Star;
use pf_rules::contract::{StarShape, is_flat};
use pf_sight::place_in;
use pf_spokes::{first_right, last_left};

// Whether the star's path, with these ends, bends at `u`.
fn is_bent(star: &Star, u: u32, first: Option<u32>, last: u32) -> bool
    ensures { (bands : List Band) → result ≡ (is_some first && not (int_eq (turn_at (sight_of bands (Some star.now)) (unwrap_or first 0) u last) (pos 0))) }
{
    match first {
        Some(first) => !is_flat(
            place_in(star, first),
            place_in(star, u),
            place_in(star, last),
        ),
        None => false,
    }
}

/// What the star of `u` says by itself.
pub fn shape_of(star: &Star, u: u32) -> StarShape
    ensures { (bands : List Band) → IsShape (sight_of bands (Some star.now)) u star.now.spokes result }
{
    let first = first_right(star.spokes());
    let last = last_left(star.spokes()).unwrap_or(0);
    let bent = is_bent(star, u, first, last);
    StarShape {
        first,
        last,
        bent,
        close: false,
    }
}
