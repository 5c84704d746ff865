//! The first wish at a node.
ghost use Rattle.std.specs.Prelude.{◌≡◌, ◌==◌, ◌&&◌, ◌||◌, ◌∷◌, [], IfSome, cond, filter, fold, map, min, max, not, Option, Some, None};
ghost use Rattle.std.specs.List.{list_any};
ghost use Rattle.pf_model.specs.Rows.{lesser, least_that, neighbours};
ghost use Rattle.pf_spokes.specs.Spokes.{has_right};
ghost use Rattle.pf_rings.specs.Points.{first_from, first_to};
ghost use Rattle.pf_spokes.specs.Spokes.{HasSpots};
ghost use Rattle.pf_wishes.specs.Looks.{acting_shown, is_long_shown, is_short_shown};
ghost use Rattle.pf_wishes.specs.First.{is_wish, wish_at, first_wish_of};

use crate::beside::{Beside, acting_of, spokes_at};
use crate::edge_sights::{Measure, measure_at};
use crate::measures::{is_over, is_under};
use pf_core_model::Asked;
use pf_model::{Band, Op, Spoke};
use pf_rings::Star;

// Whether the chunk is one of these.
fn is_among(chunks: &[u16], chunk: u16) -> bool
    ensures { result ≡ list_any (λ c. c == chunk) chunks.now }
{
    chunks.iter().any(|c| *c == chunk)
}

// Whether the edge to `x`, between these spokes, is long or short.
fn is_amiss(bands: &[Band], star: &Star, x: u32, beside: Beside) -> bool
    requires to { beside.to ≡ first_to x star.now.spokes }
    requires from { beside.from ≡ first_from x star.now.spokes }
    requires to_in_range { IfSome beside.to HasSpots }
    requires from_in_range { IfSome beside.from HasSpots }
    ensures { result ≡ (is_long_shown bands.now star.now x || is_short_shown bands.now star.now x) }
{
    let Measure { row, len2 } = measure_at(bands, star, x, beside);
    is_over(row, len2) || is_under(row, len2)
}

// Whether the edge to `x` is long or short, and one of the chunks acts on it.
#[tactic(auto, unfolding(crate::specs::First::is_wish))]
fn is_wished(bands: &[Band], chunks: &[u16], star: &Star, x: u32) -> bool
    ensures { result ≡ is_wish bands.now chunks.now star.now x }
{
    let spokes = spokes_at(star, x);
    is_among(chunks, acting_of(star, x, spokes)) && is_amiss(bands, star, x, spokes)
}

// The least so far, and this neighbour where its edge is wished for.
fn lesser_wished(
    bands: &[Band],
    chunks: &[u16],
    star: &Star,
    least: Option<u32>,
    x: u32,
) -> Option<u32>
    ensures { result ≡ fold lesser least (filter (is_wish bands.now chunks.now star.now) (x ∷ [])) }
{
    match least {
        Some(k) if k <= x => Some(k),
        _ => {
            if is_wished(bands, chunks, star, x) {
                Some(x)
            } else {
                least
            }
        }
    }
}

// The least right of these spokes whose edge is wished for.
fn least_right(bands: &[Band], chunks: &[u16], star: &Star, spokes: &[Spoke]) -> Option<u32>
    ensures { result ≡ least_that (is_wish bands.now chunks.now star.now) (map (λ s. s.right) spokes.now) }
{
    let mut least = None;
    for s in spokes {
        least = lesser_wished(bands, chunks, star, least, s.right);
    }
    least
}

// Whether a spoke of the star has this right.
fn is_right(star: &Star, n: u32) -> bool
    ensures { result ≡ has_right n star.now.spokes }
{
    star.spokes().iter().any(|s| s.right == n)
}

// The least so far, and the left of this spoke where its edge is wished for. A left that is a right too is left out.
fn lesser_left(
    bands: &[Band],
    chunks: &[u16],
    star: &Star,
    least: Option<u32>,
    s: Spoke,
) -> Option<u32>
    ensures { result ≡ fold lesser least (filter (is_wish bands.now chunks.now star.now) (map (λ s. s.left) (filter (λ s. not (has_right s.left star.now.spokes)) (s ∷ [])))) }
{
    if is_right(star, s.left) {
        least
    } else {
        lesser_wished(bands, chunks, star, least, s.left)
    }
}

// The least so far, with the lefts of these spokes more that are no rights in the star.
fn least_left(
    bands: &[Band],
    chunks: &[u16],
    star: &Star,
    spokes: &[Spoke],
    least: Option<u32>,
) -> Option<u32>
    ensures { result ≡ fold lesser least (filter (is_wish bands.now chunks.now star.now) (map (λ s. s.left) (filter (λ s. not (has_right s.left star.now.spokes)) spokes.now))) }
{
    let mut found = least;
    for s in spokes {
        found = lesser_left(bands, chunks, star, found, *s);
    }
    found
}

// The least neighbour whose edge is wished for: the rights were asked before the lefts.
fn least_wished(bands: &[Band], chunks: &[u16], star: &Star) -> Option<u32>
    ensures { result ≡ least_that (is_wish bands.now chunks.now star.now) (neighbours star.now.spokes) }
{
    let least = least_right(bands, chunks, star, star.spokes());
    least_left(bands, chunks, star, star.spokes(), least)
}

// The wish at the edge to `x`.
fn wish_to(bands: &[Band], star: &Star, x: u32) -> Asked
    ensures { result ≡ wish_at bands.now star.now x }
{
    let n = star.node();
    let spokes = spokes_at(star, x);
    let chunk = acting_of(star, x, spokes);
    let Measure { row, len2 } = measure_at(bands, star, x, spokes);
    if is_over(row, len2) {
        Asked {
            chunk,
            op: Op::Bisect {
                a: n.min(x),
                b: n.max(x),
            },
        }
    } else {
        Asked {
            chunk,
            op: Op::Contract { u: n, v: x },
        }
    }
}

/// The first wish in a star: at its least neighbour whose edge is long or short, with an acting chunk in `chunks`.
/// It is the bisection of that edge where it is long, else the contraction of the star's node onto the neighbour,
/// by the acting chunk.
pub fn first_wish(bands: &[Band], chunks: &[u16], star: &Star) -> Option<Asked>
    ensures { result ≡ first_wish_of bands.now chunks.now star.now }
{
    match least_wished(bands, chunks, star) {
        Some(x) => Some(wish_to(bands, star, x)),
        None => None,
    }
}
