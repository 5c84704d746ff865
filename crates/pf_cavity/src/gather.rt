//! The least of the names of a cavity that isn't lent.
ghost use Rattle.std.specs.Prelude.{◌≡◌, ◌∷◌, [], not, filter, fold, map, is_some};
ghost use Rattle.std.specs.Option.{option_map};
ghost use Rattle.pf_model.specs.declared.Op.TheVariants.{Flip, Contract};
ghost use Rattle.pf_model.specs.Conditions.{lesser, least_that};
ghost use Rattle.pf_star_model.specs.Cavity.{apexes, needed};
ghost use Rattle.pf_rings.specs.Points.{left_side, right_side};

use pf_model::{Op, Spoke};
use pf_rings::{Rings, spoke_from, spoke_to};
use pf_spokes::lesser_of;

// The least name so far that isn't lent, with one name more.
fn missing<R: Rings>(r: &R, least: Option<u32>, n: u32) -> Option<u32>
    ensures { result ≡ fold lesser least (filter (λ k. not (is_some (R.lent r.now k))) (n ∷ [])) }
{
    match r.ring(n) {
        Some(_) => least,
        None => lesser_of(least, n),
    }
}

// With the rights of these spokes more.
fn missing_rights<R: Rings>(r: &R, least: Option<u32>, spokes: &[Spoke]) -> Option<u32>
    ensures { result ≡ fold lesser least (filter (λ k. not (is_some (R.lent r.now k))) (map (λ s. s.right) spokes.now)) }
{
    let mut found = least;
    for s in spokes {
        found = missing(r, found, s.right);
    }
    found
}

// With the lefts of these spokes more.
fn missing_lefts<R: Rings>(r: &R, least: Option<u32>, spokes: &[Spoke]) -> Option<u32>
    ensures { result ≡ fold lesser least (filter (λ k. not (is_some (R.lent r.now k))) (map (λ s. s.left) spokes.now)) }
{
    let mut found = least;
    for s in spokes {
        found = missing(r, found, s.left);
    }
    found
}

// With the apex of the triangle on the left more, where there is one.
fn missing_left<R: Rings>(r: &R, least: Option<u32>, spoke: Option<Spoke>) -> Option<u32>
    ensures { result ≡ fold lesser least (filter (λ k. not (is_some (R.lent r.now k))) (apexes (option_map left_side spoke))) }
{
    match spoke {
        Some(s) => missing(r, least, s.left),
        None => least,
    }
}

// With the apex of the triangle on the right more, where there is one.
fn missing_right<R: Rings>(r: &R, least: Option<u32>, spoke: Option<Spoke>) -> Option<u32>
    ensures { result ≡ fold lesser least (filter (λ k. not (is_some (R.lent r.now k))) (apexes (option_map right_side spoke))) }
{
    match spoke {
        Some(s) => missing(r, least, s.right),
        None => least,
    }
}

// The least of these two names that isn't lent.
fn missing_ends<R: Rings>(r: &R, a: u32, b: u32) -> Option<u32>
    ensures { result ≡ least_that (λ k. not (is_some (R.lent r.now k))) (a ∷ b ∷ []) }
{
    missing(r, missing(r, None, a), b)
}

// The least node at the edge that isn't lent: of its ends and of the apices of the triangles there.
fn edge_need<R: Rings>(r: &R, a: u32, b: u32) -> Option<u32>
    ensures { result ≡ needed (R.lent r.now) (Flip a b) }
{
    let hi = a.max(b);
    let ends = missing_ends(r, a, b);
    match r.ring(a.min(b)) {
        Some(ring) => {
            let spokes = ring.spokes();
            let left = missing_left(r, ends, spoke_to(spokes, hi));
            missing_right(r, left, spoke_from(spokes, hi))
        }
        None => ends,
    }
}

// The least node that isn't lent of the cavity of a contraction: of its ends and of the neighbours of `u`.
fn fan_need<R: Rings>(r: &R, u: u32, v: u32) -> Option<u32>
    ensures { result ≡ needed (R.lent r.now) (Contract u v) }
{
    let ends = missing_ends(r, u, v);
    match r.ring(u) {
        Some(ring) => {
            let spokes = ring.spokes();
            missing_lefts(r, missing_rights(r, ends, spokes), spokes)
        }
        None => ends,
    }
}

/// The least node of the operation's cavity that isn't lent.
pub fn least_need<R: Rings>(r: &R, op: Op) -> Option<u32>
    ensures { result ≡ needed (R.lent r.now) op }
{
    match op {
        Op::Flip { a, b } => edge_need(r, a, b),
        Op::Bisect { a, b } => edge_need(r, a, b),
        Op::Contract { u, v } => fan_need(r, u, v),
    }
}
