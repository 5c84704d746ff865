//! The stars of all nodes, by name.
ghost use Rattle.std.specs.Prelude.{◌≡◌, ℕ, ◌<◌, ◌≤◌, Contains, IfOk, None, Some, Option, is_some, set, length, vec_len, vec_capacity, OnOk};
ghost use Rattle.std.specs.Option.{option_map};
ghost use Rattle.pf_model.specs.Stars as model;
ghost use Rattle.pf_core_model.specs.Sharers.{kept_in};
ghost use Rattle.pf_ghost.specs.declared.ready.Listed.{Listed};
ghost use Rattle.pf_ghost.specs.Spread.{named_node, named_list};
ghost use Rattle.pf_plain.specs.Stars.{star_by, placed, spread_by};

use pf_geom::NoMemory;
use pf_ghost::{Listed, Ready, Sharer, Sharers};
use pf_rings::{Star, renamed_name};
use std::alloc::Global;

/// The star of a node, where the name is one of these and is live.
pub fn star_at(stars: &[Option<Star>], n: u32) -> Option<&Star>
    ensures { option_map (λ r. r.now) result ≡ star_by stars.now n }
{
    match stars.get(n as usize) {
        Some(Some(star)) => Some(star),
        _ => None,
    }
}

/// Whether there is a star of the node.
pub fn has_star(stars: &[Option<Star>], n: u32) -> bool
    ensures { result ≡ is_some (star_by stars.now n) }
{
    star_at(stars, n).is_some()
}

/// So many names, none of which is live.
pub fn no_stars(alloc: Global, names: u32) -> Result<Vec<Option<Star>>, NoMemory>
    ensures none { IfOk result (λ v. (n : ℕ) → star_by v.items n ≡ None) }
    ensures len { IfOk result (λ v. vec_len v ≡ names) }
{
    let mut stars = Vec::with_capacity(alloc, names as usize).map_err(|_| NoMemory)?;
    for n in 0..names {
        stars.push(None).map_err(|_| NoMemory)?;
    }
    Ok(stars)
}

// Puts a star, or none, at its name.
fn put_star(stars: &mut Vec<Option<Star>>, n: u32, star: Option<Star>)
    requires { n < vec_len stars.old }
    ensures put { stars.new.items ≡ set stars.old.items n star }
    ensures len { vec_len stars.new ≡ vec_len stars.old }
{
    stars[n as usize] = star;
}

/// Puts each star at the name of its node.
pub fn place_stars(stars: &mut Vec<Option<Star>>, list: Vec<Star>)
    requires { (s : model.Star) → Contains list.items s → s.node < vec_len stars.old }
    ensures placed { (n : ℕ) → star_by stars.new.items n ≡ placed list.items (star_by stars.old.items) n }
    ensures len { vec_len stars.new ≡ vec_len stars.old }
{
    let mut left = list;
    'places: while let Some(star) = left.pop() {
        put_star(stars, star.node(), Some(star));
    }
}

// The first of the copies, which is the keeper's.
fn kept_star(list: Sharers) -> Option<Star>
    ensures { result ≡ kept_in list }
{
    let mut copies = list.into_list();
    if copies.is_empty() {
        return None;
    }
    let Sharer { chunk: _, star } = copies.swap_remove(0);
    Some(star)
}

// Puts the keeper's copy of one node, with the name in the new node's place.
fn put_listed(stars: &mut Vec<Option<Star>>, listed: Listed, name: u32)
    requires { named_node name listed < vec_len stars.old }
    ensures put { stars.new.items ≡ set stars.old.items (named_node name listed) (kept_in (named_list name listed)) }
    ensures len { vec_len stars.new ≡ vec_len stars.old }
{
    let Listed { node, mut list } = listed;
    list.rename(u32::MAX, name);
    put_star(stars, renamed_name(u32::MAX, name, node), kept_star(list));
}

/// Puts the keeper's copy of each node that was prepared, with `name` in the new node's place, and none for a
/// node that dies. It only moves values and takes no memory.
pub fn spread(stars: &mut Vec<Option<Star>>, ready: Ready, name: u32)
    requires { (l : Listed) → Contains ready l → named_node name l < vec_len stars.old }
    ensures put { (n : ℕ) → star_by stars.new.items n ≡ spread_by name ready (star_by stars.old.items) n }
    ensures len { vec_len stars.new ≡ vec_len stars.old }
{
    let mut lists = ready.into_lists();
    'puts: while let Some(listed) = lists.pop() {
        put_listed(stars, listed, name);
    }
}
