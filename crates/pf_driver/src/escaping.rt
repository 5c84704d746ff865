//! The search for an operation near an edge: random steps from edge to edge, within the star that is held as far as it
//! goes, and then by the star of another end.
ghost use Rattle.std.specs.Prelude.{◌≡◌, ℕ, ◌<◌, All, true, IfSome};
ghost use Rattle.pf_geom.specs.Plane.{IsInRange};
ghost use Rattle.pf_spokes.specs.Spokes.{HasSpots};
ghost use Rattle.pf_driver.specs.Plans.{IsPlanBelow};

use crate::planning::{Plan, is_mine, place_at, rest_planned, try_planned};
use pf_geom::len2;
use pf_model::{Band, Op, Spoke};
use pf_order::{Aim, Order, Task};
use pf_rings::{Star, spoke_from, spoke_to};
use pf_wishes::look;

// An edge of a triangle at the star's node.
#[derive(Clone, Copy, Debug, PartialEq, Eq)]
enum Edge {
    // From the node to the right corner.
    Right,
    // From the right corner to the left one.
    Across,
    // From the left corner to the node.
    Left,
}

// Where a walk is: at an edge of a triangle at the star's node.
#[derive(Clone, Copy, Debug, PartialEq, Eq)]
struct Spot {
    tri: Spoke,
    edge: Edge,
}

// The next edge of the triangle, counterclockwise.
fn next_edge(edge: Edge) -> Edge {
    match edge {
        Edge::Right => Edge::Across,
        Edge::Across => Edge::Left,
        Edge::Left => Edge::Right,
    }
}

// The edge before.
fn last_edge(edge: Edge) -> Edge {
    match edge {
        Edge::Right => Edge::Left,
        Edge::Across => Edge::Right,
        Edge::Left => Edge::Across,
    }
}

// The same edge in the triangle on its other side, where there is one at the node.
fn across(star: &Star, spot: Spot) -> Spot
    requires { HasSpots spot.tri }
    ensures { HasSpots result.tri }
{
    match spot.edge {
        Edge::Right => match spoke_from(star.spokes(), spot.tri.right) {
            Some(tri) => Spot {
                tri,
                edge: Edge::Left,
            },
            None => spot,
        },
        Edge::Left => match spoke_to(star.spokes(), spot.tri.left) {
            Some(tri) => Spot {
                tri,
                edge: Edge::Right,
            },
            None => spot,
        },
        Edge::Across => spot,
    }
}

// A step to another edge of the triangle, by a coin seen from its other side.
fn stepped(star: &Star, spot: Spot, order: &mut Order) -> Spot
    requires { HasSpots spot.tri }
    ensures { HasSpots result.tri }
{
    let edge = if order.coin() {
        next_edge(spot.edge)
    } else {
        last_edge(spot.edge)
    };
    let moved = Spot {
        tri: spot.tri,
        edge,
    };
    if edge != Edge::Across && order.coin() {
        return across(star, moved);
    }
    moved
}

// Where the walk begins in a star: at the edge to `x`.
fn spot_at(star: &Star, x: u32) -> Option<Spot>
    ensures { IfSome result (λ s. HasSpots s.tri) }
{
    if let Some(tri) = spoke_to(star.spokes(), x) {
        return Some(Spot {
            tri,
            edge: Edge::Right,
        });
    }
    match spoke_from(star.spokes(), x) {
        Some(tri) => Some(Spot {
            tri,
            edge: Edge::Left,
        }),
        None => None,
    }
}

// The longest edge of the triangle of a spot.
fn longest(star: &Star, tri: Spoke) -> Edge
    requires { HasSpots tri }
{
    let right = len2(star.at(), tri.right_at);
    let across = len2(tri.right_at, tri.left_at);
    let left = len2(tri.left_at, star.at());
    if across >= right && across >= left {
        Edge::Across
    } else if right >= left {
        Edge::Right
    } else {
        Edge::Left
    }
}

// The ends of an edge of the triangle, the one first from whose star the try goes on.
fn ends_of(star: &Star, tri: Spoke, edge: Edge) -> (u32, u32) {
    match edge {
        Edge::Right => (star.node(), tri.right),
        Edge::Across => (tri.left, tri.right),
        Edge::Left => (tri.left, star.node()),
    }
}

// Lets the try go on at an edge of the triangle, for a contraction from either end.
fn go_on(star: &Star, tri: Spoke, edge: Edge, aim: Aim, order: &mut Order) -> Plan
    ensures { (n : ℕ) → IsPlanBelow n result }
{
    let (from, to) = ends_of(star, tri, edge);
    if aim == Aim::Contract && order.coin() {
        order.escape_on(to, from, aim);
    } else {
        order.escape_on(from, to, aim);
    }
    Plan::Rest
}

// Goes so many steps, or until another star is wanted. What is then to be tried is tried at a later turn.
fn walk_planned(star: &Star, begin: Spot, steps: u32, order: &mut Order) -> Plan
    requires { HasSpots begin.tri }
    ensures { (n : ℕ) → IsPlanBelow n result }
{
    let mut spot = begin;
    'steps: for k in 0..steps {
        spot = stepped(star, spot, order);
        if spot.edge == Edge::Across && order.coin() {
            let steps = steps - k - 1;
            return go_on(star, spot.tri, spot.edge, Aim::Walk { steps }, order);
        }
    }
    match order.next_aim() {
        Aim::Longest => {
            let edge = longest(star, spot.tri);
            go_on(star, spot.tri, edge, Aim::Bisect, order)
        }
        _ => go_on(star, spot.tri, spot.edge, Aim::Contract, order),
    }
}

// Gives the try up.
fn missed(star: &Star, x: u32, order: &mut Order) -> Plan
    ensures { (n : ℕ) → IsPlanBelow n result }
{
    rest_planned(order.drop_task(Task::Escape {
        from: star.node(),
        to: x,
    }))
}

// The operation that the try is to make on the edge to `x`.
fn tried_planned(
    bands: &[Band],
    chunks: &[u16],
    star: &Star,
    x: u32,
    aim: Aim,
    order: &mut Order,
) -> Plan
    ensures { (n : ℕ) → All (λ c. c < n) chunks.now → IsPlanBelow n result }
{
    let Some(seen) = look(bands, star, x) else {
        return missed(star, x, order);
    };
    if !is_mine(chunks, seen.chunk) {
        return missed(star, x, order);
    }
    let (u, v) = (star.node(), x);
    if aim == Aim::Contract {
        return try_planned(seen.chunk, Op::Contract { u, v }, star, x, order);
    }
    if order.is_worn(place_at(star, x)) {
        return missed(star, x, order);
    }
    try_planned(seen.chunk, Op::Bisect { a: u, b: v }, star, x, order)
}

/// What the search for an escape comes to at the edge to `x`.
pub fn escape_planned(
    bands: &[Band],
    chunks: &[u16],
    star: &Star,
    x: u32,
    order: &mut Order,
) -> Plan
    ensures { (n : ℕ) → All (λ c. c < n) chunks.now → IsPlanBelow n result }
{
    let Some(spot) = spot_at(star, x) else {
        return missed(star, x, order);
    };
    match order.aim() {
        Aim::Walk { steps } => walk_planned(star, spot, steps, order),
        Aim::Longest => walk_planned(star, spot, 0, order),
        Aim::Contract => tried_planned(bands, chunks, star, x, Aim::Contract, order),
        Aim::Bisect => tried_planned(bands, chunks, star, x, Aim::Bisect, order),
    }
}
