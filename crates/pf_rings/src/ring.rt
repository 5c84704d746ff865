//! Rings, which lend stars without copying them.
ghost use Rattle.std.specs.Prelude.{◌≡◌, ℕ, ◌<◌, All, IfSome, Option, Some, None, length};
ghost use Rattle.pf_geom.specs.Plane.{IsInRange};
ghost use Rattle.pf_model.specs.Mesh.{Undivided};
ghost use Rattle.pf_model.specs.Conforming.{IsConforming};
ghost use Rattle.pf_model.specs.Stars.{star_of, is_on_boundary, is_one_fan, is_neighbour, is_sharer, keeper_in, left_after};
ghost use Rattle.pf_star_model.specs.Rings.{right_before, next_neighbour};
ghost use Rattle.pf_spokes.specs.Spokes.{HasSpots};
ghost use Rattle.pf_rings.specs.Lending.{star_in};

use crate::fan::is_fan;
use crate::spokes::{has_owner, is_near, least_after, least_owner, spoke_from, spoke_to};
use crate::star::Star;
use pf_geom::Point;
use pf_model::Spoke;
use pf_spokes::first_right;

/// A star that is lent. It can't outlive what lends it, and is copied freely.
#[derive(Clone, Copy)]
pub struct Ring<'a> {
    star: &'a Star,
}

impl<'a> Ring<'a> {
    /// The star, lent.
    pub fn of(star: &'a Star) -> Ring<'a>
        ensures { star_in result ≡ star.now }
    {
        Ring { star }
    }

    /// The star.
    pub fn star(&self) -> &'a Star
        ensures { result.now ≡ star_in self.now }
    {
        self.star
    }

    /// Where the node stands.
    pub fn at(&self) -> Point
        ensures value { result ≡ (star_in self.now).at }
        ensures in_range { IsInRange result }
    {
        self.star.at()
    }

    /// The node's triangles, by rising right.
    pub fn spokes(&self) -> &[Spoke]
        ensures value { result.now ≡ (star_in self.now).spokes }
        ensures in_range { All HasSpots result.now }
    {
        self.star.spokes()
    }

    /// Whether the node is on the boundary: a boundary edge begins at it.
    pub fn is_boundary(&self) -> bool
        ensures { result ≡ is_on_boundary (star_in self.now).spokes }
    {
        first_right(self.star.spokes()).is_some()
    }

    /// Whether the node's triangles are one cycle or one path, where the star is one of a conforming mesh.
    pub fn one_fan(&self) -> bool
        ensures { (m : Undivided) (n : ℕ) → IsConforming m → star_of m n ≡ Some (star_in self.now) → result ≡ is_one_fan (star_in self.now).spokes }
    {
        is_fan(self.star.spokes())
    }

    /// The left of the spoke whose right is `n`: the apex of the triangle left of the edge to `n`.
    pub fn apex_left(&self, n: u32) -> Option<u32>
        ensures { result ≡ left_after (star_in self.now).spokes n }
    {
        match spoke_to(self.star.spokes(), n) {
            Some(spoke) => Some(spoke.left),
            None => None,
        }
    }

    /// The right of the spoke whose left is `n`: the apex of the triangle right of the edge to `n`.
    pub fn apex_right(&self, n: u32) -> Option<u32>
        ensures { result ≡ right_before (star_in self.now).spokes n }
    {
        match spoke_from(self.star.spokes(), n) {
            Some(spoke) => Some(spoke.right),
            None => None,
        }
    }

    /// Whether `n` is the right or the left of a spoke.
    pub fn is_neighbour(&self, n: u32) -> bool
        ensures { result ≡ is_neighbour n (star_in self.now).spokes }
    {
        is_near(self.star.spokes(), n)
    }

    /// The least neighbour above `after`, and the least of all where `after` is `None`.
    pub fn next_neighbour(&self, after: Option<u32>) -> Option<u32>
        ensures { result ≡ next_neighbour (star_in self.now).spokes after }
    {
        least_after(self.star.spokes(), after)
    }

    /// Whether the chunk owns a spoke.
    pub fn is_sharer(&self, chunk: u16) -> bool
        ensures { result ≡ is_sharer chunk (star_in self.now).spokes }
    {
        has_owner(self.star.spokes(), chunk)
    }

    /// The least owner of a spoke. There is a spoke.
    pub fn keeper(&self) -> u16
        requires { 0 < length (star_in self.now).spokes }
        ensures { Some result ≡ keeper_in (star_in self.now).spokes }
    {
        least_owner(self.star.spokes()).unwrap_or(0)
    }
}

/// What lends the stars that it holds.
pub trait Rings {
    ghost use Rattle.std.specs.Prelude.{◌≡◌, ℕ, Option};
    ghost use Rattle.std.specs.Option.{option_map};
    ghost use Rattle.pf_model.specs.Stars as model;
    ghost use Rattle.pf_rings.specs.Lending.{star_in};

    // What is lent of each node: its star, and `None` where it isn't held, or held as a node without one.
    ghost lent: { Self → ℕ → Option model.Star };

    /// The star of a node, lent: `None` exactly where it isn't held as a star.
    fn ring(&self, n: u32) -> Option<Ring<'_>>
        ensures { option_map star_in result ≡ lent self.now n };
}
