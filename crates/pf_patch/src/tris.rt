//! Triangles with their points, as spokes of their corners.
ghost use Rattle.std.specs.Prelude.{◌≡◌, ◌==◌, ◌||◌, ◌&&◌, IfSome};
ghost use Rattle.pf_spokes.specs.Spokes.{HasSpots};
ghost use Rattle.pf_patch.specs.Tris as spec;
ghost use Rattle.pf_patch.specs.Tris.{HasCorners, spoke_in, gone_from};

use pf_geom::Point;
use pf_model::Spoke;

/// A corner of a triangle, and where it stands.
#[derive(Clone, Copy, Debug, PartialEq, Eq)]
pub struct Corner {
    pub name: u32,
    pub at: Point,
}

/// A triangle that is put in, counterclockwise from any of its corners.
#[derive(Clone, Copy, Debug, PartialEq, Eq)]
pub struct NewTri {
    pub p: Corner,
    pub q: Corner,
    pub z: Corner,
    pub owner: u16,
}

/// Which triangles are taken out.
#[derive(Clone, Copy, Debug, PartialEq, Eq)]
pub enum Gone {
    /// Those that have the edge between these nodes.
    AtEdge { p: u32, q: u32 },
    /// Those that have this node.
    AtNode { u: u32 },
}

// The spoke between two corners.
fn between(right: Corner, left: Corner, owner: u16) -> Spoke
    ensures { result ≡ spec.between right left owner }
{
    Spoke {
        right: right.name,
        right_at: right.at,
        left: left.name,
        left_at: left.at,
        owner,
    }
}

/// The triangle as a spoke of its corner `n`.
pub fn spoke_at(t: NewTri, n: u32) -> Option<Spoke>
    requires { HasCorners t }
    ensures value { result ≡ spoke_in n t }
    ensures in_range { IfSome result HasSpots }
{
    if t.p.name == n {
        return Some(between(t.q, t.z, t.owner));
    }
    if t.q.name == n {
        return Some(between(t.z, t.p, t.owner));
    }
    if t.z.name == n {
        return Some(between(t.p, t.q, t.owner));
    }
    None
}

/// Whether the triangle has this corner.
pub fn has_name(t: &NewTri, n: u32) -> bool {
    t.p.name == n || t.q.name == n || t.z.name == n
}

// Whether two names stand beside each other among three, in their turn.
fn is_edge_of(p: u32, q: u32, a: u32, b: u32, c: u32) -> bool
    ensures { result ≡ ((a == p && b == q) || ((b == p && c == q) || (c == p && a == q))) }
{
    (a == p && b == q) || (b == p && c == q) || (c == p && a == q)
}

// Whether the spoke of `n` has the edge between `p` and `q`.
fn is_at_edge(p: u32, q: u32, n: u32, s: &Spoke) -> bool
    ensures { result ≡ spec.is_spoke_at p q n s.now }
{
    is_edge_of(p, q, n, s.right, s.left) || is_edge_of(q, p, n, s.right, s.left)
}

// Whether the spoke of `n` has the node `u`.
fn is_at_node(u: u32, n: u32, s: &Spoke) -> bool
    ensures { result ≡ spec.is_spoke_with u n s.now }
{
    n == u || s.right == u || s.left == u
}

impl Gone {
    /// Whether the triangle of a spoke of `n` is taken out.
    pub fn has(self, n: u32, s: &Spoke) -> bool
        ensures { result ≡ gone_from self n s.now }
    {
        match self {
            Gone::AtEdge { p, q } => is_at_edge(p, q, n, s),
            Gone::AtNode { u } => is_at_node(u, n, s),
        }
    }
}
