//! A run of entries on the edge table alone. The lists of the mesh are made anew after it.
ghost use Rattle.std.specs.Prelude.{◌≡◌, ◌+◌, ◌<◌, ◌≤◌, List, [], take, length, vec_capacity, None, OnOk, IfErr};
ghost use Rattle.pf_model.specs.declared.Tri.{Tri};
ghost use Rattle.pf_model.specs.Mesh.{Undivided};
ghost use Rattle.pf_model.specs.Applied.{applied};
ghost use Rattle.pf_model.specs.Replay.{HasTickets, first_refusal, refusal_of, replayed};
ghost use Rattle.pf_model.specs.Limits.{most_names, most_spokes};
ghost use Rattle.pf_edges.specs.Table.{ArePlacesInRange, ShowsTriangles};
ghost use Rattle.pf_edges.specs.Kept.{IsKept};
ghost use Rattle.pf_rules.specs.Change.{IsChange};
ghost use Rattle.pf_apply.specs.Run.{IsSaid, IsStopped, IsReached, HasReached, error_of};

use crate::perform::perform;
use pf_edges::table::EdgeTable;
use pf_geom::NoMemory;
use pf_judge::operations::{gone_node, plan};
use pf_model::{Band, Cond, Entry, Refusal, Site, Tri};
use pf_rules::scratch::Scratch;
use thiserror::Error;

// The most triangles that an operation puts in.
const MOST_SPOKES: usize = pf_model::MOST_SPOKES as usize;

/// Where a run of entries stops, and why the entry with this ticket isn't applied.
#[derive(Clone, Copy, Debug, PartialEq, Eq, Error)]
#[error("the entry with the ticket {ticket} isn't applied")]
pub struct RunErr {
    pub ticket: u32,
    pub fault: ApplyErr,
}

/// A refusal, as an error.
pub fn error_of(why: Refusal) -> ApplyErr
    ensures { result ≡ error_of why }
{
    match why {
        Refusal::Gone { node } => ApplyErr::Gone { node },
        Refusal::Failing { cond } => ApplyErr::Refused { cond },
    }
}

impl From<Refusal> for ApplyErr {
    ghost use Rattle.pf_apply.specs.Run.{error_of};

    ghost from_gives = { λ why err. err ≡ error_of why };

    fn from(why: Refusal) -> Self {
        error_of(why)
    }
}

// Why an entry is refused, or `None` where it passes. Then the change is what it makes of the triangles,
// where a bisection's new node is named `n`.
fn entry_refusal(
    table: &EdgeTable,
    bands: &[Band],
    n: u32,
    entry: &Entry,
    scratch: &mut Scratch,
) -> Option<Refusal>
    requires { ArePlacesInRange table.now.nodes.items }
    ensures refusal { (m : Undivided) → IsKept table.now.sides table.now.nodes.items m → m.bands ≡ bands.now → result ≡ refusal_of m entry.now }
    ensures change { (m : Undivided) → IsKept table.now.sides table.now.nodes.items m → result ≡ None
        → IsChange m n entry.now.op scratch.new.change.removed.items scratch.new.change.new.items }
{
    if let Some(node) = gone_node(table, entry.op) {
        return Some(Refusal::Gone { node });
    }
    match plan(table, bands, entry.chunk, n, entry.op, scratch) {
        Some(cond) => Some(Refusal::Failing { cond }),
        None => None,
    }
}

// Makes room in the empty lists for nodes with names up to `last`, and for the triangles after one
// operation more.
fn make_room(
    table: &EdgeTable,
    last: u32,
    sites: &mut Vec<Site>,
    tris: &mut Vec<Tri>,
) -> Result<(), NoMemory>
    requires no_sites { sites.old.items ≡ [] }
    requires no_tris { tris.old.items ≡ [] }
    ensures no_sites { sites.new.items ≡ [] }
    ensures no_tris { tris.new.items ≡ [] }
    ensures sites_stay { vec_capacity sites.old ≤ vec_capacity sites.new }
    ensures tris_stay { vec_capacity tris.old ≤ vec_capacity tris.new }
    ensures sites_fit { OnOk result (last + 1 ≤ vec_capacity sites.new) }
    ensures tris_fit { OnOk result ((ts : List Tri) → ShowsTriangles table.now.sides table.now.nodes.items ts → length ts + most_spokes ≤ vec_capacity tris.new) }
{
    if sites.reserve(last as usize + 1).is_err() {
        return Err(NoMemory);
    }
    if tris.reserve(table.sides.len() / 3 + MOST_SPOKES).is_err() {
        return Err(NoMemory);
    }
    Ok(())
}

// Performs an entry that passes, once there is room to list the mesh after it. After an error the table
// shows the mesh that it showed before.
fn step(
    table: &mut EdgeTable,
    sites: &mut Vec<Site>,
    tris: &mut Vec<Tri>,
    bands: &[Band],
    first_new: u32,
    entry: &Entry,
    scratch: &mut Scratch,
) -> Result<(), ApplyErr>
    requires reached { HasReached table.old.sides table.old.nodes.items bands.now first_new entry.now.ticket (vec_capacity sites.old) (vec_capacity tris.old) }
    requires named { first_new + entry.now.ticket < most_names }
    requires no_sites { sites.old.items ≡ [] }
    requires no_tris { tris.old.items ≡ [] }
    ensures no_sites { sites.new.items ≡ [] }
    ensures no_tris { tris.new.items ≡ [] }
    ensures applied { OnOk result ((m : Undivided)
        → IsReached table.old.sides table.old.nodes.items bands.now first_new entry.now.ticket (vec_capacity sites.old) (vec_capacity tris.old) m
        → (refusal_of m entry.now ≡ None)
        × IsReached table.new.sides table.new.nodes.items bands.now first_new (entry.now.ticket + 1) (vec_capacity sites.new) (vec_capacity tris.new) (applied m entry.now)) }
    ensures stopped { IfErr result (λ fault. (m : Undivided)
        → IsReached table.old.sides table.old.nodes.items bands.now first_new entry.now.ticket (vec_capacity sites.old) (vec_capacity tris.old) m
        → IsSaid m entry.now fault
        × IsReached table.new.sides table.new.nodes.items bands.now first_new entry.now.ticket (vec_capacity sites.new) (vec_capacity tris.new) m) }
{
    let name = first_new + entry.ticket;
    if let Some(why) = entry_refusal(table, bands, name, entry, scratch) {
        return Err(error_of(why));
    }
    match make_room(table, name, sites, tris) {
        Ok(()) => {}
        Err(NoMemory) => return Err(ApplyErr::Memory),
    }
    match perform(table, name, entry.op, &scratch.change) {
        Ok(()) => Ok(()),
        Err(NoMemory) => Err(ApplyErr::Memory),
    }
}

/// Performs the entries on the table one after another, up to the first that isn't applied. The lists
/// are empty, and get room for what the table shows at the end.
pub fn run_entries(
    table: &mut EdgeTable,
    sites: &mut Vec<Site>,
    tris: &mut Vec<Tri>,
    bands: &[Band],
    first_new: u32,
    entries: &[Entry],
) -> Result<(), RunErr>
    requires reached { HasReached table.old.sides table.old.nodes.items bands.now first_new 0 (vec_capacity sites.old) (vec_capacity tris.old) }
    requires tickets { HasTickets entries.now }
    requires named { first_new + length entries.now ≤ most_names }
    requires no_sites { sites.old.items ≡ [] }
    requires no_tris { tris.old.items ≡ [] }
    ensures applied { OnOk result ((m : Undivided)
        → IsReached table.old.sides table.old.nodes.items bands.now first_new 0 (vec_capacity sites.old) (vec_capacity tris.old) m
        → (first_refusal m entries.now ≡ None)
        × IsReached table.new.sides table.new.nodes.items bands.now first_new (length entries.now) (vec_capacity sites.new) (vec_capacity tris.new) (replayed m entries.now)) }
    ensures stopped { IfErr result (λ stop. (m : Undivided)
        → IsReached table.old.sides table.old.nodes.items bands.now first_new 0 (vec_capacity sites.old) (vec_capacity tris.old) m
        → IsStopped m entries.now stop.ticket stop.fault
        × IsReached table.new.sides table.new.nodes.items bands.now first_new stop.ticket (vec_capacity sites.new) (vec_capacity tris.new) (replayed m (take stop.ticket entries.now))) }
{
    let mut scratch = Scratch::new();
    for entry in entries {
        match step(table, sites, tris, bands, first_new, entry, &mut scratch) {
            Ok(()) => {}
            Err(fault) => {
                return Err(RunErr {
                    ticket: entry.ticket,
                    fault,
                });
            }
        }
    }
    Ok(())
}

/// Why an entry isn't applied.
#[derive(Clone, Copy, Debug, PartialEq, Eq, Error)]
pub enum ApplyErr {
    #[error("the operation fails a condition")]
    Refused { cond: Cond },
    #[error("node {node} isn't live")]
    Gone { node: u32 },
    #[error("memory ran out")]
    Memory,
}
