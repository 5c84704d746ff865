//! What a contraction asks of the star of the node that goes, and what it makes of its triangles.
ghost use Rattle.std.specs.Prelude.{◌≡◌, ℕ, Bool, ◌≤◌, ◌||◌, ◌&&◌, not, pos, length, All, List};
ghost use Rattle.std.specs.Ordering.{int_eq};
ghost use Rattle.pf_geom.specs.Plane.{IsInRange, orient_of};
ghost use Rattle.pf_model.specs.Mesh.{Undivided, place_of, side_of};
ghost use Rattle.pf_model.specs.Rows.{is_apex, is_positive, neighbours, lesser, least_that, inverted, is_off_boundary};
ghost use Rattle.pf_rules.specs.EdgeSides.{AreEdgeSides};
ghost use Rattle.pf_rules.specs.Star.{IsSpokePlaced};
ghost use Rattle.pf_spokes.specs.Spokes.{HasSpots};
ghost use Rattle.pf_model.specs.declared.Spoke.{Spoke};
ghost use Rattle.pf_model.specs.declared.Tri.{Tri};
ghost use Rattle.pf_model.specs.Limits.{most_spokes};
ghost use Rattle.pf_rules.specs.Contract.{IsShape, star_tris, moved_tris, is_without};

use crate::change::{Tris, least_first};
use crate::conditions::is_counterclockwise;
use crate::edge_sides::EdgeSides;
use crate::scratch::Names;
use pf_geom::{Point, orient};
use pf_model::{Cond, Side, Spoke};
use pf_spokes::is_right;

// Whether the spoke is without this node.
fn is_spoke_without(spoke: &Spoke, v: u32) -> bool
    ensures { result ≡ is_without v spoke.now }
{
    !(spoke.right == v || spoke.left == v)
}

// Whether the node is the apex of the side.
fn is_apex_of(side: Option<Side>, x: u32) -> bool
    ensures { result ≡ is_apex x (side) }
{
    match side {
        Some(left) => left.apex == x,
        None => false,
    }
}

/// Whether the node is an apex of the edge with these edge_sides.
pub fn is_an_apex(edge_sides: EdgeSides, x: u32) -> bool
    ensures { (ts : List Tri) (u v : ℕ) → AreEdgeSides ts u v edge_sides → result ≡ (is_apex x (side_of ts u v) || is_apex x (side_of ts v u)) }
{
    is_apex_of(edge_sides.left, x) || is_apex_of(edge_sides.right, x)
}

/// Whether the three points lie on one line.
pub fn is_flat(a: Point, b: Point, c: Point) -> bool
    requires a { IsInRange a }
    requires b { IsInRange b }
    requires c { IsInRange c }
    ensures { result ≡ int_eq (orient_of a b c) (pos 0) }
{
    orient(a, b, c) == 0
}

/// What a star says by itself of a contraction of its node: where its path begins and ends, whether it bends at
/// the node, and whether its nodes are known to be so close that no edge between two of them is too long. A star
/// that is a cycle has no path.
#[derive(Clone, Copy, Debug, PartialEq, Eq)]
pub struct StarShape {
    pub first: Option<u32>,
    pub last: u32,
    pub bent: bool,
    pub close: bool,
}

impl StarShape {
    /// Whether the star is a path of which the node is no end.
    pub fn is_off(self, v: u32) -> bool
        ensures { (m : Undivided) (u : ℕ) (us : List Spoke) → IsShape m u us self → result ≡ is_off_boundary v us }
    {
        match self.first {
            Some(first) => !(first == v || self.last == v),
            None => false,
        }
    }
}

// Whether the triangle of a spoke would turn over with `v`, which stands there, in the node's place.
fn is_inverted(v: u32, at: Point, s: &Spoke) -> bool
    requires point { IsInRange at }
    requires spots { HasSpots s.now }
    ensures { result ≡ (is_without v s.now && not (is_positive (orient_of at s.now.right_at s.now.left_at))) }
{
    is_spoke_without(s, v) && !is_counterclockwise(at, s.right_at, s.left_at)
}

/// The first triangle of the star that would turn over with `v`, which stands there.
pub fn first_inverted(v: u32, at: Point, star: &[Spoke]) -> Option<Cond>
    requires point { IsInRange at }
    requires spots { All HasSpots star.now }
    ensures { (m : Undivided) → at ≡ place_of m v → All (IsSpokePlaced m) star.now → result ≡ inverted m v star.now }
{
    for s in star {
        if is_inverted(v, at, s) {
            return Some(Cond::Inverts {
                x: s.right,
                y: s.left,
            });
        }
    }
    None
}

/// The neighbours of the star's node, each once, in place of what the list held.
pub fn names_around(star: &[Spoke], names: &mut Names)
    requires { length star.now ≤ most_spokes }
    ensures { (p : ℕ → Bool) → least_that p names.new.items ≡ least_that p (neighbours star.now) }
{
    names.clear();
    for s in star {
        names.push(s.right);
    }
    for s in star {
        if !is_right(star, s.left) {
            names.push(s.left);
        }
    }
}

/// The triangles of the star of `u`, in place of what the list held.
pub fn triangles_of(u: u32, star: &[Spoke], tris: &mut Tris)
    requires { length star.now ≤ most_spokes }
    ensures { tris.new.items ≡ star_tris u star.now }
{
    tris.clear();
    for s in star {
        tris.push(least_first(u, s.right, s.left, s.owner));
    }
}

/// Those of the star without `v`, with `v` in the node's place, in place of what the list held.
pub fn triangles_moved(v: u32, star: &[Spoke], tris: &mut Tris)
    requires { length star.now ≤ most_spokes }
    ensures { tris.new.items ≡ moved_tris v star.now }
{
    tris.clear();
    for s in star {
        if is_spoke_without(s, v) {
            tris.push(least_first(v, s.right, s.left, s.owner));
        }
    }
}
