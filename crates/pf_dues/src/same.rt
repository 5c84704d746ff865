//! Whether two stars are the same.
ghost use Rattle.std.specs.Prelude.{◌≡◌, Some};
ghost use Rattle.pf_core_model.specs.Same.{same_point, same_spoke, same_spokes, same_star};

use pf_geom::Point;
use pf_model::Spoke;
use pf_rings::Star;

// Whether two spokes are the same.
fn is_same_spoke(s: Spoke, t: Spoke) -> bool
    ensures { result ≡ same_spoke s t }
{
    s.right == t.right
        && (s.left == t.left
            && (s.owner == t.owner
                && (is_same_point(s.right_at, t.right_at) && is_same_point(s.left_at, t.left_at))))
}

// Whether two points are the same.
fn is_same_point(p: Point, q: Point) -> bool
    ensures { result ≡ same_point p q }
{
    p.x == q.x && p.y == q.y
}

// Whether these are the same spokes.
fn are_same(a: &[Spoke], b: &[Spoke]) -> bool
    ensures { result ≡ same_spokes a.now b.now }
{
    if a.len() != b.len() {
        return false;
    }
    for k in 0..a.len() {
        if !is_same_spoke(a[k], b[k]) {
            return false;
        }
    }
    true
}

/// Whether two stars are the same.
pub fn is_same_star(s: &Star, t: &Star) -> bool
    ensures { result ≡ same_star (Some s.now) (Some t.now) }
{
    s.node() == t.node() && (is_same_point(s.at(), t.at()) && are_same(s.spokes(), t.spokes()))
}
