//! What is asked of the spokes of a node wherever they are kept: by the table of the undivided mesh as by held
//! stars.
#![tactic(auto)]

ghost use Rattle.std.specs.Prelude.{◌≡◌, ◌==◌, Option};
ghost use Rattle.std.specs.List.{list_any};
ghost use Rattle.pf_model.specs.Stars.{path_start, path_end};
ghost use Rattle.pf_model.specs.Conditions.{lesser};
ghost use Rattle.pf_spokes.specs.Spokes.{has_right};

use pf_model::Spoke;

/// Whether a spoke has this right.
pub fn is_right(spokes: &[Spoke], n: u32) -> bool
    ensures { result ≡ has_right n spokes.now }
{
    spokes.iter().any(|s| s.right == n)
}

/// Whether a spoke has this left.
pub fn is_left(spokes: &[Spoke], n: u32) -> bool
    ensures { result ≡ list_any (λ s. s.left == n) spokes.now }
{
    spokes.iter().any(|s| s.left == n)
}

/// Where a path of these triangles begins: the right of the first spoke whose right is no left.
pub fn first_right(spokes: &[Spoke]) -> Option<u32>
    ensures { result ≡ path_start spokes.now spokes.now }
{
    for s in spokes {
        if !is_left(spokes, s.right) {
            return Some(s.right);
        }
    }
    None
}

/// Where a path of these triangles ends: the left of the first spoke whose left is no right.
pub fn last_left(spokes: &[Spoke]) -> Option<u32>
    ensures { result ≡ path_end spokes.now spokes.now }
{
    for s in spokes {
        if !is_right(spokes, s.left) {
            return Some(s.left);
        }
    }
    None
}

/// The lesser of two names, where there is a first.
pub fn lesser_of(least: Option<u32>, n: u32) -> Option<u32>
    ensures { result ≡ lesser least n }
{
    match least {
        Some(k) => Some(k.min(n)),
        None => Some(n),
    }
}
