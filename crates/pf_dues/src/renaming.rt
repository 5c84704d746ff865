//! New stars, once the new node has a name.
ghost use Rattle.std.specs.Prelude.{◌≡◌, IfOk, map};
ghost use Rattle.std.specs.Option.{option_map};
ghost use Rattle.pf_star_model.specs.Patched.{renamed_pair, renamed_star};
ghost use Rattle.pf_ghost.specs.Spread.{later_name};

use pf_geom::NoMemory;
use pf_rings::{NewStar, Star, renamed_name};
use std::alloc::Global;

// Puts the name in the new node's place.
fn rename_star(star: Option<Star>, name: u32) -> Option<Star>
    ensures { result ≡ option_map (renamed_star later_name name) star }
{
    match star {
        Some(mut s) => {
            s.rename(u32::MAX, name);
            Some(s)
        }
        None => None,
    }
}

// The same in a pair.
fn rename_pair(pair: NewStar, name: u32) -> NewStar
    ensures { result ≡ renamed_pair later_name name pair }
{
    let NewStar { node, star } = pair;
    NewStar {
        node: renamed_name(u32::MAX, name, node),
        star: rename_star(star, name),
    }
}

/// These pairs with the name in the new node's place. Want of memory is the only failure.
pub fn rename_all(alloc: Global, pairs: Vec<NewStar>, name: u32) -> Result<Vec<NewStar>, NoMemory>
    ensures { IfOk result (λ v. v.items ≡ map (renamed_pair later_name name) pairs.items) }
{
    let mut list = Vec::new(alloc);
    for pair in pairs {
        list.push(rename_pair(pair, name)).map_err(|_| NoMemory)?;
    }
    Ok(list)
}
