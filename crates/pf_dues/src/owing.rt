//! What is owed of nodes whose stars changed.
ghost use Rattle.std.specs.Prelude.{◌≡◌, ◌++◌, IfOk, OnOk};
ghost use Rattle.pf_star_model.specs.Lent.{spokes_in};
ghost use Rattle.pf_core_model.specs.Same.{same_star};
ghost use Rattle.pf_dues.specs.Owed.{owed_by, owed_for, owed_all};

use crate::same::is_same_star;
use pf_core_model::Owed;
use pf_geom::NoMemory;
use pf_model::Spoke;
use pf_rings::{NewStar, Rings, Star};
use std::alloc::Global;

// A copy is owed for each owner of these spokes of a node.
fn owe_spokes(list: &mut Vec<Owed>, node: u32, spokes: &[Spoke]) -> Result<(), NoMemory>
    ensures { OnOk result (list.new.items ≡ list.old.items ++ owed_by node spokes.now) }
{
    for s in spokes {
        list.push(Owed {
            chunk: s.owner,
            node,
        })
        .map_err(|_| NoMemory)?;
    }
    Ok(())
}

// The same of a star, where there is one.
fn owe_star(list: &mut Vec<Owed>, node: u32, star: &Option<Star>) -> Result<(), NoMemory>
    ensures { OnOk result (list.new.items ≡ list.old.items ++ owed_by node (spokes_in star.now)) }
{
    match star {
        Some(s) => owe_spokes(list, node, s.spokes()),
        None => Ok(()),
    }
}

// The same of the star that is lent of the node.
fn owe_lent<R: Rings>(list: &mut Vec<Owed>, r: &R, node: u32) -> Result<(), NoMemory>
    ensures { OnOk result (list.new.items ≡ list.old.items ++ owed_by node (spokes_in (R.lent r.now node))) }
{
    match r.ring(node) {
        Some(ring) => owe_spokes(list, node, ring.spokes()),
        None => Ok(()),
    }
}

// Whether the star of a pair is that which is lent of its node.
fn is_unchanged<R: Rings>(r: &R, pair: &NewStar) -> bool
    ensures { result ≡ same_star (R.lent r.now pair.now.node) pair.now.star }
{
    match r.ring(pair.node()) {
        Some(ring) => match pair.star() {
            Some(star) => is_same_star(ring.star(), star),
            None => false,
        },
        None => pair.star().is_none(),
    }
}

// What is owed of a node that changed.
fn owe_pair<R: Rings>(list: &mut Vec<Owed>, r: &R, pair: &NewStar) -> Result<(), NoMemory>
    ensures { OnOk result (list.new.items ≡ list.old.items ++ (owed_by pair.now.node (spokes_in (R.lent r.now pair.now.node)) ++ owed_by pair.now.node (spokes_in pair.now.star))) }
{
    owe_lent(list, r, pair.node())?;
    owe_star(list, pair.node(), pair.star())?;
    Ok(())
}

// What is owed of a node, where its star changed.
fn owe<R: Rings>(list: &mut Vec<Owed>, r: &R, pair: &NewStar) -> Result<(), NoMemory>
    ensures { OnOk result (list.new.items ≡ list.old.items ++ owed_for (R.lent r.now) pair.now) }
{
    if is_unchanged(r, pair) {
        return Ok(());
    }
    owe_pair(list, r, pair)
}

/// What is owed of these nodes: of each whose star is another than the one that is lent, a copy for each owner of
/// its old and its new spokes. A copy may stand in the list more than once. Want of memory is the only failure.
pub fn owed_after<R: Rings>(alloc: Global, r: &R, fresh: &[NewStar]) -> Result<Vec<Owed>, NoMemory>
    ensures { IfOk result (λ v. v.items ≡ owed_all (R.lent r.now) fresh.now) }
{
    let mut list = Vec::new(alloc);
    for pair in fresh {
        owe(&mut list, r, pair)?;
    }
    Ok(list)
}
