//! The parts of a mesh together: room for operations, and an operation within that room.
ghost use Rattle.std.specs.Prelude.{◌≡◌, ◌+◌, ◌*◌, ◌^◌, ◌<◌, ◌≤◌, length, vec_len, vec_capacity, OnOk};
ghost use Rattle.indexmap.specs.IndexMap.{spare, IsUnchanged};
ghost use Rattle.pf_model.specs.Mesh.{Undivided};
ghost use Rattle.pf_model.specs.Applied.{op_applied};
ghost use Rattle.pf_rules.specs.Change.{PassesWithName, IsChange};
ghost use Rattle.pf_apply.specs.Operations.{AreParts, CanPerform};

use crate::listing::exchange_listed;
use crate::perform::perform_on_table;
use crate::sites::change_sites;
use pf_edges::table::EdgeTable;
use pf_geom::NoMemory;
use pf_model::{Op, Site, Tri};
use pf_rules::change::Change;

/// Makes room for so many names, and for so many triangles and nodes more.
pub fn reserve(
    table: &mut EdgeTable,
    sites: &mut Vec<Site>,
    tris: &mut Vec<Tri>,
    names: usize,
    triangles: usize,
    nodes: usize,
) -> Result<(), NoMemory>
    requires { triangles < 2 ^ 40 }
    ensures sides { IsUnchanged table.old.sides table.new.sides }
    ensures nodes { table.new.nodes.items ≡ table.old.nodes.items }
    ensures sites { sites.new.items ≡ sites.old.items }
    ensures tris { tris.new.items ≡ tris.old.items }
    ensures names_fit { OnOk result (names ≤ vec_capacity table.new.nodes) }
    ensures sides_fit { OnOk result (3 * triangles ≤ spare table.new.sides) }
    ensures sites_fit { OnOk result (vec_len sites.new + nodes ≤ vec_capacity sites.new) }
    ensures tris_fit { OnOk result (vec_len tris.new + triangles ≤ vec_capacity tris.new) }
{
    if sites.reserve(nodes).is_err() {
        return Err(NoMemory);
    }
    if tris.reserve(triangles).is_err() {
        return Err(NoMemory);
    }
    table.reserve(names, triangles)
}

/// Performs an operation that passes, by what it makes of the triangles, where there is room for it. A
/// bisection's new node is named `n`.
pub fn perform_within(
    table: &mut EdgeTable,
    sites: &mut Vec<Site>,
    tris: &mut Vec<Tri>,
    n: u32,
    op: Op,
    change: &Change,
)
    requires can { CanPerform table.old.sides table.old.nodes.items sites.old.items tris.old.items n op change.now.removed.items change.now.new.items }
    requires names { n < vec_capacity table.old.nodes }
    requires sides { 3 * length change.now.new.items ≤ spare table.old.sides }
    requires sites { vec_len sites.old < vec_capacity sites.old }
    requires tris { vec_len tris.old + length change.now.new.items ≤ vec_capacity tris.old }
    ensures applied { (m : Undivided) → AreParts table.old.sides table.old.nodes.items sites.old.items tris.old.items m → (can : PassesWithName m n op)
        → IsChange m n op change.now.removed.items change.now.new.items
        → AreParts table.new.sides table.new.nodes.items sites.new.items tris.new.items (op_applied m can.ticket op) }
    ensures names { vec_capacity table.old.nodes ≤ vec_capacity table.new.nodes }
    ensures sides { spare table.old.sides ≤ spare table.new.sides + 3 * length change.now.new.items }
    ensures sites { vec_capacity sites.old + vec_len sites.new ≤ vec_capacity sites.new + vec_len sites.old + 1 }
    ensures tris { vec_capacity tris.old + vec_len tris.new ≤ vec_capacity tris.new + vec_len tris.old + length change.now.new.items }
{
    perform_on_table(table, n, op, change);
    exchange_listed(tris, &change.removed, &change.new);
    change_sites(sites, n, table.point(n), op);
}
