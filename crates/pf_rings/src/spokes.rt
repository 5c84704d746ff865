//! What is looked for among the spokes of a star, whether or not it is one of a conforming mesh.
ghost use Rattle.std.specs.Prelude.{◌≡◌, ◌∷◌, [], All, IfSome, Contains, Option, filter, fold, map};
ghost use Rattle.std.specs.Option.{option_map};
ghost use Rattle.pf_model.specs.Stars.{is_neighbour, is_sharer, keeper_in, left_after};
ghost use Rattle.pf_model.specs.Conditions.{lesser, least_that};
ghost use Rattle.pf_star_model.specs.Lent.{side_to, side_from};
ghost use Rattle.pf_star_model.specs.Rings.{right_before, next_neighbour};
ghost use Rattle.pf_rings.specs.Points.{first_from, first_to, left_side, right_side};
ghost use Rattle.pf_spokes.specs.Spokes.{HasSpots};
ghost use Rattle.pf_rings.specs.Least.{past, keeper_with};

use pf_model::Spoke;
use pf_spokes::lesser_of;

/// The triangle left of the edge from the spokes' node to `n`: the first spoke with this right.
pub fn spoke_to(spokes: &[Spoke], n: u32) -> Option<Spoke>
    ensures first { result ≡ first_to n spokes.now }
    ensures side { option_map left_side result ≡ side_to n spokes.now }
    ensures left { option_map (λ s. s.left) result ≡ left_after spokes.now n }
    ensures found { IfSome result (λ s. Contains spokes.now s × (s.right ≡ n)) }
    ensures in_range { All HasSpots spokes.now → IfSome result HasSpots }
{
    for s in spokes {
        if s.right == n {
            return Some(*s);
        }
    }
    None
}

/// The triangle left of the edge from `n` to the spokes' node: the first spoke with this left.
pub fn spoke_from(spokes: &[Spoke], n: u32) -> Option<Spoke>
    ensures first { result ≡ first_from n spokes.now }
    ensures side { option_map right_side result ≡ side_from n spokes.now }
    ensures right { option_map (λ s. s.right) result ≡ right_before spokes.now n }
    ensures found { IfSome result (λ s. Contains spokes.now s × (s.left ≡ n)) }
    ensures in_range { All HasSpots spokes.now → IfSome result HasSpots }
{
    for s in spokes {
        if s.left == n {
            return Some(*s);
        }
    }
    None
}

/// Whether a name is the right or the left of a spoke.
pub fn is_near(spokes: &[Spoke], n: u32) -> bool
    ensures { result ≡ is_neighbour n spokes.now }
{
    spokes.iter().any(|s| s.right == n || s.left == n)
}

/// Whether the chunk owns a spoke.
pub fn has_owner(spokes: &[Spoke], chunk: u16) -> bool
    ensures { result ≡ is_sharer chunk spokes.now }
{
    spokes.iter().any(|s| s.owner == chunk)
}

// Whether a name comes after this one, where there is one.
fn is_past(after: Option<u32>, n: u32) -> bool
    ensures { result ≡ past after n }
{
    match after {
        Some(k) => k < n,
        None => true,
    }
}

// The lesser name, where this one comes after.
fn lesser_past(after: Option<u32>, least: Option<u32>, n: u32) -> Option<u32>
    ensures { result ≡ fold lesser least (filter (past after) (n ∷ [])) }
{
    if is_past(after, n) {
        lesser_of(least, n)
    } else {
        least
    }
}

// The least so far, with the rights of these spokes more.
fn least_right(spokes: &[Spoke], after: Option<u32>) -> Option<u32>
    ensures { result ≡ least_that (past after) (map (λ s. s.right) spokes.now) }
{
    let mut least = None;
    for s in spokes {
        least = lesser_past(after, least, s.right);
    }
    least
}

// The least so far, with the lefts of these spokes more.
fn least_left(spokes: &[Spoke], after: Option<u32>, least: Option<u32>) -> Option<u32>
    ensures { result ≡ fold lesser least (filter (past after) (map (λ s. s.left) spokes.now)) }
{
    let mut found = least;
    for s in spokes {
        found = lesser_past(after, found, s.left);
    }
    found
}

/// The least neighbour above `after`, and the least of all where `after` is `None`.
pub fn least_after(spokes: &[Spoke], after: Option<u32>) -> Option<u32>
    ensures { result ≡ next_neighbour spokes.now after }
{
    let least = least_right(spokes, after);
    least_left(spokes, after, least)
}

// The lesser of two owners, where there is a second.
fn lesser_owner(owner: u16, least: Option<u16>) -> Option<u16>
    ensures { result ≡ keeper_with owner least }
{
    match least {
        Some(k) => { if owner < k { Some(owner) } else { Some(k) } }
        None => Some(owner),
    }
}

/// The least owner of a spoke, where there is a spoke.
pub fn least_owner(spokes: &[Spoke]) -> Option<u16>
    ensures { result ≡ keeper_in spokes.now }
{
    let mut least = None;
    for k in 0..spokes.len() {
        least = lesser_owner(spokes[spokes.len() - 1 - k].owner, least);
    }
    least
}
