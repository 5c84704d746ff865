//! Where the walk to the longest edge goes on.
ghost use Rattle.std.specs.Prelude.{◌≡◌, [], Some, min, max};
ghost use Rattle.std.specs.Option.{option_map};
ghost use Rattle.pf_geom.specs.Plane.{IsInRange};
ghost use Rattle.pf_model.specs.Mesh.{Undivided, place_of};
ghost use Rattle.pf_model.specs.Rows.{apex_or};
ghost use Rattle.pf_model.specs.Wishes.{longer_on, either_of};
ghost use Rattle.pf_star_model.specs.Lent.{sight_of};
ghost use Rattle.pf_rules.specs.Lengths.{IsPlaced, span_value};
ghost use Rattle.pf_wishes.specs.Looks.{left_shown, right_shown, longer_shown};

use pf_geom::Point;
use pf_model::Side;
use pf_rings::Star;
use pf_rules::edge_sides::EdgeSides;
use pf_rules::lengths::{Placed, Span, longest_between};
use pf_sight::{apex_place, placed, sides_at};

// The triangles at the edge to `x`, as seen from its lower to its higher end.
fn rising_sides(star: &Star, x: u32) -> EdgeSides
    ensures left { result.left ≡ left_shown star.now x }
    ensures right { result.right ≡ right_shown star.now x }
{
    let sides = sides_at(star, x);
    if star.node() < x {
        return sides;
    }
    EdgeSides {
        left: sides.right,
        right: sides.left,
    }
}

// The lower end of the edge to `x`.
fn lower_end(star: &Star, x: u32) -> Placed
    ensures name { result.name ≡ min star.now.node x }
    ensures in_range { IsInRange result.at }
    ensures at { result.at ≡ place_of (sight_of [] (Some star.now)) (min star.now.node x) }
{
    placed(star, star.node().min(x))
}

// The higher end of the edge to `x`.
fn higher_end(star: &Star, x: u32) -> Placed
    ensures name { result.name ≡ max star.now.node x }
    ensures in_range { IsInRange result.at }
    ensures at { result.at ≡ place_of (sight_of [] (Some star.now)) (max star.now.node x) }
{
    placed(star, star.node().max(x))
}

// The longest edge of the triangle on a side of the edge, where it is another one.
fn longer_beside(lo: Placed, hi: Placed, side: Option<Side>, at: Point) -> Option<Span>
    requires lo { IsInRange lo.at }
    requires hi { IsInRange hi.at }
    requires at { IsInRange at }
    ensures { (m : Undivided) → IsPlaced m lo → IsPlaced m hi → at ≡ place_of m (apex_or side) → option_map span_value result ≡ longer_on m (record { lo = lo.name; hi = hi.name }) side }
{
    let Some(side) = side else {
        return None;
    };
    let longest = longest_between(
        lo,
        hi,
        Placed {
            name: side.apex,
            at,
        },
    );
    if longest.lo == lo.name && longest.hi == hi.name {
        return None;
    }
    Some(longest)
}

// The first that there is.
fn first_of_two(a: Option<Span>, b: Option<Span>) -> Option<Span>
    ensures { option_map span_value result ≡ either_of (option_map span_value a) (option_map span_value b) }
{
    match a {
        Some(e) => Some(e),
        None => b,
    }
}

// Where the walk goes on from the edge to `x`, between these sides.
fn longer_between(star: &Star, x: u32, sides: EdgeSides) -> Option<Span>
    requires left { sides.left ≡ left_shown star.now x }
    requires right { sides.right ≡ right_shown star.now x }
    ensures { option_map span_value result ≡ longer_shown star.now x }
{
    let (lo, hi) = (lower_end(star, x), higher_end(star, x));
    first_of_two(
        longer_beside(lo, hi, sides.left, apex_place(star, sides.left)),
        longer_beside(lo, hi, sides.right, apex_place(star, sides.right)),
    )
}

/// Where the walk to the longest edge goes on from the edge to `x`: to the longest edge of the first triangle that has
/// a longer one, the left one looked at first as seen from the lower to the higher name.
pub fn longer_at(star: &Star, x: u32) -> Option<Span>
    ensures { option_map span_value result ≡ longer_shown star.now x }
{
    longer_between(star, x, rising_sides(star, x))
}
