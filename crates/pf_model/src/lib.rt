//! The undivided mesh: what its parts are, and what the operations on it mean.
//!
//! The definitions stand in `specs/`, and `docs/definitions.md` gives each in words. They are data and
//! formulas alone. The functions here do no work: each carries, as its contract, a law of the
//! definitions that the crates above rest on.
#![tactic(auto)]

ghost use Rattle.std.specs.Prelude.{◌≡◌};
ghost use Rattle.pf_model.specs.Limits.{most_names, most_spokes, most_triangles};
ghost use Rattle.pf_model.specs.Ends.{normal_of};

mod laws;

pub use laws::{
    area_is_boundary_sum, built_is_conforming, built_is_fresh, contraction_meets_link_condition,
    edge_sum_is_boundary_sum, journal_keeps_area, journal_keeps_conforming, legal_is_unrefused,
    names_stay_fresh, one_fan_is_cycle_or_path, operation_keeps_area, operation_keeps_conforming,
    prefix_is_legal, walk_ends_at_terminal_edge,
};
use pf_geom::Point;
use thiserror::Error;

/// The most names that nodes may have: those that were read, and one for each operation.
pub const MOST_NAMES: u32 = 1_048_576;

/// The most triangles that may be read.
pub const MOST_TRIANGLES: u32 = 2_097_152;

/// The most triangles at a node that is contracted.
pub const MOST_SPOKES: u32 = 60;

/// A fact, and no work: the limits of the code are those of the definitions.
pub fn limits_are_defined()
    ensures names { MOST_NAMES ≡ most_names }
    ensures triangles { MOST_TRIANGLES ≡ most_triangles }
    ensures spokes { MOST_SPOKES ≡ most_spokes }
{}

/// A live node and where it stands.
#[derive(Clone, Copy, Debug, PartialEq, Eq)]
pub struct Site {
    pub name: u32,
    pub at: Point,
}

/// A triangle, counterclockwise, with the least name first, and the chunk that owns it.
#[derive(Clone, Copy, Debug, PartialEq, Eq, Default)]
pub struct Tri {
    pub a: u32,
    pub b: u32,
    pub c: u32,
    pub owner: u16,
}

/// What stands left of a directed edge: the third corner of the triangle there, and the chunk that owns
/// the triangle.
#[derive(Clone, Copy, Debug, PartialEq, Eq)]
pub struct Side {
    pub apex: u32,
    pub owner: u16,
}

/// A row of the size table: a rectangle, and the least and the greatest squared length that an edge
/// with its middle there is to have, in squared coordinate units.
#[derive(Clone, Copy, Debug, PartialEq, Eq)]
pub struct Band {
    pub xlo: i32,
    pub ylo: i32,
    pub xhi: i32,
    pub yhi: i32,
    pub min2: i64,
    pub max2: i64,
}

/// One triangle at a node: its two other corners, counterclockwise from the node, and its owner.
#[derive(Clone, Copy, Debug, PartialEq, Eq, Default)]
pub struct Spoke {
    pub right: u32,
    pub right_at: Point,
    pub left: u32,
    pub left_at: Point,
    pub owner: u16,
}

/// An operation on a mesh.
#[derive(Clone, Copy, Debug, PartialEq, Eq)]
pub enum Op {
    /// The edge between `a` and `b` gives way to the edge between the two corners opposite to it.
    Flip { a: u32, b: u32 },
    /// The edge between `a` and `b` is cut in two at its middle, and each triangle at it too.
    Bisect { a: u32, b: u32 },
    /// The edge between `u` and `v` shrinks to `v`: the node `u` goes, and its triangles that lack `v`
    /// take `v` in its place.
    Contract { u: u32, v: u32 },
}

impl Op {
    /// The normal form: the lower name of a flip or a bisection stands first.
    pub fn normal(self) -> Op
        ensures { result ≡ normal_of self }
    {
        match self {
            Op::Flip { a, b } => Op::Flip {
                a: a.min(b),
                b: a.max(b),
            },
            Op::Bisect { a, b } => Op::Bisect {
                a: a.min(b),
                b: a.max(b),
            },
            Op::Contract { u, v } => Op::Contract { u, v },
        }
    }
}

/// An operation that was performed: by which chunk, and as the how-manieth of its journal, counted
/// from 0.
#[derive(Clone, Copy, Debug, PartialEq, Eq)]
pub struct Entry {
    pub ticket: u32,
    pub chunk: u16,
    pub op: Op,
}

/// Why an operation is refused.
#[derive(Clone, Copy, Debug, PartialEq, Eq)]
pub enum Cond {
    /// The two names are equal, or no triangle has both.
    NoEdge,
    /// The chunk owns no triangle at the edge.
    Foreign,
    /// The edge has one triangle.
    OnBoundary,
    /// One of the two new triangles would not turn left.
    NotConvex,
    /// The new edge would not be shorter than the old one.
    NotShorter,
    /// The new edge, from the left apex `c` to the right apex `d`, is in the mesh already.
    EdgeThere { c: u32, d: u32 },
    /// The squared length of the edge from `a` to `b` is below four times the least of its band.
    TooShort { a: u32, b: u32 },
    /// A triangle at the edge has a longer one: the longest, from `a` to `b`, of the left triangle if it
    /// is that, else of the right one.
    NotLongest { a: u32, b: u32 },
    /// The middle of the edge isn't whole.
    OddMidpoint,
    /// The node that would go has more than 60 triangles.
    TooWide,
    /// The triangles of the node that would go are neither one cycle nor one path.
    Pinched,
    /// The node that would go is on the boundary, which turns there.
    Corner,
    /// The node that would go is on the boundary, and the edge isn't.
    OffBoundary,
    /// The least common neighbour of both ends that is no apex of the edge.
    LinkNode { x: u32 },
    /// The first triangle, by the order of the star, that would not turn left with its new corner: its
    /// right corner, then its left one.
    Inverts { x: u32, y: u32 },
    /// The first new edge, by the name of its other end, that would be longer than its band allows: its
    /// ends, the lower name first.
    TooLong { a: u32, b: u32 },
}

/// Why an entry of a journal isn't applied to a mesh.
#[derive(Clone, Copy, Debug, PartialEq, Eq)]
pub enum Refusal {
    /// The first end, as written, that isn't live.
    Gone { node: u32 },
    /// Both ends are live: the first condition that the operation fails.
    Failing { cond: Cond },
}

/// The first entry of a journal that isn't applied to the replay of those before it: its ticket, and why.
#[derive(Clone, Copy, Debug, PartialEq, Eq)]
pub struct FirstRefusal {
    pub ticket: u32,
    pub why: Refusal,
}

/// A line of the rest list: what is left to do, with the condition that forbids it, or `None` where the
/// operation passes.
#[derive(Clone, Copy, Debug, PartialEq, Eq)]
pub enum RestLine {
    /// The edge from `a` to `b` is longer than its band allows. `c` to `d` is the edge where the walk to
    /// longer edges ends (Rivara), and `cond` says of its bisection.
    Long {
        a: u32,
        b: u32,
        c: u32,
        d: u32,
        cond: Option<Cond>,
    },
    /// The edge from `a` to `b` is shorter than its band allows: of the contraction of `a` onto `b`, and
    /// of `b` onto `a`.
    Short {
        a: u32,
        b: u32,
        onto_b: Option<Cond>,
        onto_a: Option<Cond>,
    },
    /// The flip of the edge from `a` to `b` passes.
    Flip {
        a: u32,
        b: u32,
    },
}

/// Why a list of points and a list of triangles make no mesh.
#[derive(Clone, Copy, Debug, PartialEq, Eq, Error)]
pub enum BuildErr {
    #[error("triangle {tri}: node {node} isn't in the list of points")]
    BadNode { tri: u32, node: u32 },
    #[error("triangle {tri}: its corners lie on one line")]
    Flat { tri: u32 },
    #[error("the edge from {a} to {b} stands in two triangles")]
    EdgeTwice { a: u32, b: u32 },
    #[error("memory ran out")]
    Memory,
}
