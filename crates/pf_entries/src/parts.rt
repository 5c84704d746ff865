//! Lists of entries, chained one after the other.
ghost use Rattle.std.specs.Prelude.{◌≡◌, ◌+◌, ◌<◌, ◌++◌, ◌∷◌, OnOk, MatchOption};
ghost use Rattle.std.specs.List.Sorted.{IsPermutation};
ghost use Rattle.pf_entries.specs.Inside.{entries_in, room_in, HasRoom};

use pf_geom::NoMemory;
use pf_model::Entry;
use std::mem;

/// Parts, each with its entries in the room that was made for it.
pub enum Chain {
    End,
    Part(Vec<Entry>, Box<Chain>),
}

impl Drop for Chain {
    fn drop(mut self) {
        loop {
            match self {
                Chain::End => return,
                Chain::Part(_, rest) => self = Box::into_inner(rest),
            }
        }
    }
}

impl Chain {
    // The first part's entries, and the box with the parts after it.
    fn parted(self) -> Option<(Vec<Entry>, Box<Chain>)>
        ensures { MatchOption result (self ≡ Chain.End) (λ p. self ≡ Chain.Part p.0 p.1) }
    {
        match self {
            Chain::End => None,
            Chain::Part(items, rest) => Some((items, rest)),
        }
    }
}

/// Adds an entry to the first part in which there is room. A part that is full then goes to those
/// that are.
pub fn add_to(ready: &mut Chain, full: &mut Chain, e: Entry)
    requires room { 0 < room_in ready.old }
    requires roomy { HasRoom ready.old }
    ensures entries { IsPermutation (e ∷ entries_in ready.old ++ entries_in full.old) (entries_in ready.new ++ entries_in full.new) }
    ensures spare { room_in ready.new + 1 ≡ room_in ready.old }
    ensures stays { HasRoom ready.new }
{
    let Some((mut items, mut rest)) = mem::replace(ready, Chain::End).parted() else {
        unreachable!()
    };
    items.push_reserved(e);
    if items.len() < items.capacity() {
        *ready = Chain::Part(items, rest);
    } else {
        *ready = mem::replace(&mut *rest, mem::replace(full, Chain::End));
        *full = Chain::Part(items, rest);
    }
}

/// Moves the parts of a chain to another one, before those that it has.
pub fn move_all(from: Chain, to: &mut Chain)
    ensures entries { IsPermutation (entries_in from ++ entries_in to.old) (entries_in to.new) }
    ensures room { room_in to.new ≡ room_in from + room_in to.old }
    ensures roomy { HasRoom from → HasRoom to.old → HasRoom to.new }
{
    let mut left = from;
    while let Some((items, mut rest)) = left.parted() {
        left = mem::replace(&mut *rest, mem::replace(to, Chain::End));
        *to = Chain::Part(items, rest);
    }
}

/// Copies the entries of a chain, part by part, to the end of a list.
pub fn copy_all(chain: &Chain, list: &mut Vec<Entry>) -> Result<(), NoMemory>
    ensures { OnOk result (list.new.items ≡ list.old.items ++ entries_in chain.now) }
{
    let mut left = chain;
    while let Chain::Part(items, rest) = left {
        if list.extend_from_slice(items.as_slice()).is_err() {
            return Err(NoMemory);
        }
        left = rest;
    }
    Ok(())
}
