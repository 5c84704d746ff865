//! What a star shows of an edge.
ghost use Rattle.std.specs.Prelude.{◌≡◌, IfSome, is_none, not};
ghost use Rattle.pf_model.specs.Stars.{is_neighbour};
ghost use Rattle.pf_rings.specs.Points.{first_from, first_to};
ghost use Rattle.pf_spokes.specs.Spokes.{HasSpots};
ghost use Rattle.pf_wishes.specs.Looks.{IsLook, band_shown, length_shown};

use crate::beside::{Beside, acting_of, is_across_below, is_edge, place_of, spokes_at};
use crate::measures::{is_far_over, is_over, is_under};
use pf_geom::len2;
use pf_model::Band;
use pf_rings::Star;
use pf_rules::lengths::band_at;

/// What the star of an end shows of an edge.
#[derive(Clone, Copy, Debug, PartialEq, Eq)]
pub struct EdgeLook {
    /// The acting chunk: the owner of the triangle left of the direction from the lower to the higher name, or of
    /// the other one where there is none on the left.
    pub chunk: u16,
    /// The edge is longer than its band allows.
    pub long: bool,
    /// Its squared length is more than twice what its band allows.
    pub far: bool,
    /// The edge is shorter than its band allows.
    pub short: bool,
    /// There are two triangles at it, and the other diagonal is strictly shorter.
    pub shorter_flip: bool,
}

/// An edge's squared length, and the band that holds its middle.
#[derive(Clone, Copy, Debug, PartialEq, Eq)]
pub struct Measure {
    pub row: Option<Band>,
    pub len2: i64,
}

/// The measure of the edge to `x`, between these spokes.
pub fn measure_at(bands: &[Band], star: &Star, x: u32, beside: Beside) -> Measure
    requires to { beside.to ≡ first_to x star.now.spokes }
    requires from { beside.from ≡ first_from x star.now.spokes }
    requires to_in_range { IfSome beside.to HasSpots }
    requires from_in_range { IfSome beside.from HasSpots }
    ensures row { result.row ≡ band_shown bands.now star.now x }
    ensures len2 { result.len2 ≡ length_shown star.now x }
{
    let at = place_of(beside);
    Measure {
        row: band_at(bands, star.at(), at),
        len2: len2(star.at(), at),
    }
}

/// What the star shows of the edge from its node to `x`: `None` exactly where `x` is no neighbour.
pub fn look(bands: &[Band], star: &Star, x: u32) -> Option<EdgeLook>
    ensures none { is_none result ≡ not (is_neighbour x star.now.spokes) }
    ensures fields { IfSome result (IsLook bands.now star.now x) }
{
    let spokes = spokes_at(star, x);
    if !is_edge(spokes) {
        return None;
    }
    let Measure { row, len2 } = measure_at(bands, star, x, spokes);
    Some(EdgeLook {
        chunk: acting_of(star, x, spokes),
        long: is_over(row, len2),
        far: is_far_over(row, len2),
        short: is_under(row, len2),
        shorter_flip: is_across_below(spokes, len2),
    })
}
