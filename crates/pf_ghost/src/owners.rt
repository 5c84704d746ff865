//! The owners of a star's triangles, one after another.
ghost use Rattle.std.specs.Prelude.{◌≡◌, ◌<◌, ℕ, ◌∷◌, [], All, IfSome, length, not, nat_lt, filter, fold, map, Option};
ghost use Rattle.pf_model.specs.Conditions.{lesser, least_that};

use pf_model::Spoke;

// The lesser of two owners, where there is a first.
fn lesser_owner(least: Option<u16>, n: u16) -> Option<u16>
    ensures { result ≡ lesser least n }
{
    match least {
        Some(k) => Some(k.min(n)),
        None => Some(n),
    }
}

// The least owner so far from `first` on, with one owner more.
fn lesser_from(first: u16, least: Option<u16>, n: u16) -> Option<u16>
    ensures { result ≡ fold lesser least (filter (λ k. not (nat_lt k first)) (n ∷ [])) }
{
    if n < first {
        least
    } else {
        lesser_owner(least, n)
    }
}

/// The least owner of a spoke from `first` on.
pub fn owner_from(spokes: &[Spoke], first: u16) -> Option<u16>
    ensures { result ≡ least_that (λ k. not (nat_lt k first)) (map (λ s. s.owner) spokes.now) }
{
    let mut least = None;
    for s in spokes {
        least = lesser_from(first, least, s.owner);
    }
    least
}

/// The owner of all the spokes, where these have one.
pub fn sole_owner(spokes: &[Spoke]) -> Option<u16>
    ensures { IfSome result (λ k. (0 < length spokes.now) × All (λ s. s.owner ≡ k) spokes.now) }
{
    if spokes.len() == 0 {
        return None;
    }
    let owner = spokes[0].owner;
    for s in spokes {
        if s.owner != owner {
            return None;
        }
    }
    Some(owner)
}
