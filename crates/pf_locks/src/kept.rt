//! What a seat keeps of the nodes that it holds.
ghost use Rattle.std.specs.Prelude.{◌≡◌, ℕ, ◌<◌, length, false, remove, slice_set, vec_len, vec_capacity};
ghost use Rattle.std.specs.Option.{option_map};
ghost use Rattle.pf_core_model.specs.Lists.{In};
ghost use Rattle.pf_locks.specs.Lists.{names_in, list_in, lent_in, lent_of, first_place};

use pf_ghost::Sharers;
use pf_rings::Star;
use std::mem;

/// A node that a seat holds, the list of its copies, and whether that list was taken out of its slot to be
/// lent, and no other was put since.
#[derive(Drop)]
pub struct Kept {
    pub node: u32,
    pub list: Sharers,
    pub lent: bool,
}

// The place of the first of these that is the node's.
pub fn index_of(kept: &[Kept], n: u32) -> usize
    ensures { result ≡ first_place kept.now n }
{
    let mut at: usize = 0;
    for k in kept {
        if k.node == n {
            return at;
        }
        at += 1;
    }
    at
}

// The star of the first copy, where the list is lent.
fn lent_star(kept: &Kept) -> Option<&Star>
    ensures { option_map (λ r. r.now) result ≡ lent_of kept.now }
{
    if !kept.lent {
        return None;
    }
    for s in kept.list.list() {
        return Some(&s.star);
    }
    None
}

// The star that is lent of the node.
pub fn star_among(kept: &[Kept], n: u32) -> Option<&Star>
    ensures { option_map (λ r. r.now) result ≡ lent_in kept.now n }
{
    for k in kept {
        if k.node == n {
            return lent_star(k);
        }
    }
    None
}

// How many copies are kept of the node.
pub fn count_of(kept: &[Kept], n: u32) -> usize
    ensures { result ≡ length (list_in kept.now n) }
{
    for k in kept {
        if k.node == n {
            return k.list.list().len();
        }
    }
    0
}

// Puts this list in the place of the one that is kept of the node, and gives that one.
pub fn put_list(kept: &mut Vec<Kept>, n: u32, list: Sharers) -> Sharers
    requires { In n (names_in kept.old.items) }
    ensures result { result ≡ list_in kept.old.items n }
    ensures items { kept.new.items ≡ slice_set kept.old.items (first_place kept.old.items n) (record { node = n; list = list; lent = false }) }
    ensures room { vec_capacity kept.new ≡ vec_capacity kept.old }
{
    let at = index_of(kept, n);
    let before = mem::replace(
        &mut kept[at],
        Kept {
            node: n,
            list,
            lent: false,
        },
    );
    let Kept {
        node: _,
        list,
        lent: _,
    } = before;
    list
}

// Takes the list that is kept of the node, which stands at this place.
pub fn take_list(kept: &mut Vec<Kept>, at: usize) -> Sharers
    requires { at < vec_len kept.old }
    ensures list { (n : ℕ) → at ≡ first_place kept.old.items n → In n (names_in kept.old.items) → result ≡ list_in kept.old.items n }
    ensures others { kept.new.items ≡ remove kept.old.items at }
    ensures room { vec_capacity kept.new ≡ vec_capacity kept.old }
{
    let Kept {
        node: _,
        list,
        lent: _,
    } = kept.remove(at);
    list
}
