//! Copies that are made before an operation is committed.
ghost use Rattle.std.specs.Prelude.{◌≡◌, ℕ, List, IfOk, Option, map};
ghost use Rattle.pf_star_model.specs.Lent.{Held};
ghost use Rattle.pf_core_model.specs.Sharers.{sharers_in};
ghost use Rattle.pf_ghost.specs.Prepared.{AreNodesApart, AreOwnersBelow, listed_of, ready_of};

use crate::sharers::{Sharers, sharers_of, sharers_of_owned};
use pf_geom::NoMemory;
use pf_rings::{NewStar, Rings, Star};
use std::alloc::Global;
use std::marker::Model;

/// A node, and the list of its copies.
#[derive(Debug, Drop)]
pub struct Listed {
    pub node: u32,
    pub list: Sharers,
}

/// The lists of copies that an operation owes, one for each node that it changes.
#[derive(Debug, Drop)]
pub struct Ready {
    lists: Vec<Listed>,
}

impl Model for Ready {
    ghost use Rattle.std.specs.Prelude.{List};
    ghost use Rattle.pf_ghost.specs.declared.ready.Listed.{Listed};

    ghost Value = { List Listed };

    ghost view = { λ r. r.lists.items };
}

impl Ready {
    // The lists themselves.
    pub fn into_lists(self) -> Vec<Listed>
        ensures { result.items ≡ self }
    {
        let Ready { lists } = self;
        lists
    }
}

// The copies of a node with this star, and none of one without a star.
fn list_of(alloc: Global, star: &Option<Star>, chunks: u16) -> Result<Sharers, NoMemory>
    ensures { IfOk result (λ l. l ≡ sharers_in chunks star.now) }
{
    match star {
        Some(s) => sharers_of(alloc, s, chunks),
        None => Ok(Sharers::none(alloc)),
    }
}

// The same, with the star itself among them.
fn list_with(alloc: Global, star: Option<Star>, chunks: u16) -> Result<Sharers, NoMemory>
    ensures { IfOk result (λ l. l ≡ sharers_in chunks star) }
{
    match star {
        Some(s) => sharers_of_owned(alloc, s, chunks),
        None => Ok(Sharers::none(alloc)),
    }
}

// The node with its list.
fn listed_with(alloc: Global, h: NewStar, chunks: u16) -> Result<Listed, NoMemory>
    ensures { IfOk result (λ l. l ≡ listed_of chunks h) }
{
    let NewStar { node, star } = h;
    let list = list_with(alloc, star, chunks)?;
    Ok(Listed { node, list })
}

/// Makes for each changed node the whole list of its new star, once for each chunk that shares it, and the
/// empty list for a node that dies.
///
/// The nodes of `fresh` differ, and each owner in their stars, new and old, is below `chunks`. Want of
/// memory is the only failure.
pub fn prepare<R: Rings>(
    alloc: Global,
    fresh: &[NewStar],
    old: &R,
    chunks: u16,
) -> Result<Ready, NoMemory>
    requires apart { AreNodesApart fresh.now }
    requires owners { AreOwnersBelow (R.lent old.now) chunks fresh.now }
    ensures { IfOk result (λ r. r ≡ ready_of chunks fresh.now) }
{
    let _ = old;
    let mut lists = Vec::new(alloc);
    for h in fresh {
        let list = list_of(alloc, &h.star, chunks)?;
        lists
            .push(Listed { node: h.node, list })
            .map_err(|_| NoMemory)?;
    }
    Ok(Ready { lists })
}

/// The same, with each new star itself in its node's list: a star that one chunk shares isn't copied.
pub fn prepare_owned<R: Rings>(
    alloc: Global,
    fresh: Vec<NewStar>,
    old: &R,
    chunks: u16,
) -> Result<Ready, NoMemory>
    requires apart { AreNodesApart fresh.items }
    requires owners { AreOwnersBelow (R.lent old.now) chunks fresh.items }
    ensures { IfOk result (λ r. r ≡ ready_of chunks fresh.items) }
{
    let _ = old;
    let mut lists = Vec::with_capacity(alloc, fresh.len()).map_err(|_| NoMemory)?;
    for h in fresh {
        let listed = listed_with(alloc, h, chunks)?;
        lists.push(listed).map_err(|_| NoMemory)?;
    }
    Ok(Ready { lists })
}
