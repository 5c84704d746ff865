//! The stars that an actor holds, lent.
ghost use Rattle.std.specs.Prelude.{◌≡◌};
ghost use Rattle.std.specs.Option.{option_map};
ghost use Rattle.pf_rings.specs.Lending.{star_in};
ghost use Rattle.pf_core.specs.Tables.{star_seen};

use crate::reading::is_held;
use crate::tables::{Node, Seat};
use pf_rings::{Ring, Rings, Star};

/// The stars that an actor holds.
#[derive(Clone, Copy)]
pub struct Lent<'a> {
    pub nodes: &'a [Node],
    pub seats: &'a [Seat],
    pub actor: u32,
}

// The star, lent, where there is one.
fn ring_of(star: &Option<Star>) -> Option<Ring<'_>>
    ensures { option_map star_in result ≡ star.now }
{
    match star {
        Some(star) => Some(Ring::of(star)),
        None => None,
    }
}

// The star that an actor holds of a node, lent.
fn ring_at<'a>(nodes: &'a [Node], seats: &[Seat], a: u32, n: u32) -> Option<Ring<'a>>
    ensures { option_map star_in result ≡ star_seen nodes.now seats.now a n }
{
    if !is_held(nodes, seats, a, n) {
        return None;
    }
    match nodes.get(n as usize) {
        Some(node) => ring_of(&node.star),
        None => None,
    }
}

impl Rings for Lent<'_> {
    ghost use Rattle.pf_core.specs.Tables.{star_seen};

    ghost lent = { λ r. star_seen r.nodes.now r.seats.now r.actor };

    fn ring(&self, n: u32) -> Option<Ring<'_>> {
        ring_at(self.nodes, self.seats, self.actor, n)
    }
}
