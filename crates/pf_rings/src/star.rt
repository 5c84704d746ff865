//! Stars, and nodes with what they become.
ghost use Rattle.std.specs.Prelude.{◌≡◌, All, IfOk, Option, Some};
ghost use Rattle.pf_geom.specs.Plane.{IsInRange};
ghost use Rattle.pf_star_model.specs.Patched.{renamed_star};
ghost use Rattle.pf_spokes.specs.Spokes.{HasSpots};

use crate::rename::{rename_spokes, renamed_name};
use pf_geom::{NoMemory, Point};
use pf_model::Spoke;
use std::alloc::Global;
use std::marker::Model;

/// A node and its triangles, as spokes by rising right. Contracts see the record of the node, its point and the
/// list of its spokes, so that two equal stars are equal to them, whatever their room.
#[derive(Debug, Drop)]
pub struct Star {
    node: u32,
    at: Point,
    spokes: Vec<Spoke>,
}

impl Model for Star {
    ghost use Rattle.std.specs.Prelude.{All};
    ghost use Rattle.pf_geom.specs.Plane.{IsInRange};
    ghost use Rattle.pf_model.specs.Stars as model;
    ghost use Rattle.pf_spokes.specs.Spokes.{HasSpots};

    ghost Value = { model.Star };

    ghost view = { λ s. record { node = s.node; at = s.at; spokes = s.spokes.items } };

    ghost invariant = { λ s. IsInRange s.at × All HasSpots s.spokes.items };
}

impl Star {
    /// The star with these parts.
    pub fn of_parts(node: u32, at: Point, spokes: Vec<Spoke>) -> Star
        requires at { IsInRange at }
        requires spokes { All HasSpots spokes.items }
        ensures { result ≡ record { node = node; at = at; spokes = spokes.items } }
    {
        Star { node, at, spokes }
    }

    /// The node.
    pub fn node(&self) -> u32
        ensures { result ≡ self.now.node }
    {
        self.node
    }

    /// Where the node stands.
    pub fn at(&self) -> Point
        ensures value { result ≡ self.now.at }
        ensures in_range { IsInRange result }
    {
        self.at
    }

    /// The node's triangles, by rising right.
    pub fn spokes(&self) -> &[Spoke]
        ensures value { result.now ≡ self.now.spokes }
        ensures in_range { All HasSpots result.now }
    {
        &self.spokes
    }

    /// Puts the new name in the place of the old one, in the node and in its spokes, which keep their places.
    pub fn rename(&mut self, old: u32, name: u32)
        ensures { self.new ≡ renamed_star old name self.old }
    {
        self.node = renamed_name(old, name, self.node);
        rename_spokes(&mut self.spokes, old, name);
    }

    /// The same star once more. Want of memory is its only failure.
    pub fn copied(&self, alloc: Global) -> Result<Star, NoMemory>
        ensures { IfOk result (λ s. s ≡ self.now) }
    {
        let mut spokes = Vec::new(alloc);
        spokes
            .extend_from_slice(&self.spokes)
            .map_err(|_| NoMemory)?;
        Ok(Star {
            node: self.node,
            at: self.at,
            spokes,
        })
    }
}

/// A node, and its star or that it has none.
#[derive(Debug, Drop)]
pub struct NewStar {
    pub node: u32,
    pub star: Option<Star>,
}

impl Model for NewStar {
    ghost use Rattle.pf_star_model.specs.Lent as model;

    ghost Value = { model.Held };

    ghost view = { λ s. record { node = s.node; star = s.star } };
}

impl NewStar {
    /// The node.
    pub fn node(&self) -> u32
        ensures { result ≡ self.now.node }
    {
        self.node
    }

    /// Its star, where it has one.
    pub fn star(&self) -> &Option<Star>
        ensures { result.now ≡ self.now.star }
    {
        &self.star
    }
}
