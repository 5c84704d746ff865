//! An operation that passes, performed on the edge table.
ghost use Rattle.std.specs.Prelude.{◌≡◌, ◌+◌, ◌*◌, ◌<◌, ◌≤◌, length, vec_capacity, OnOk, OnErr};
ghost use Rattle.indexmap.specs.IndexMap.{spare};
ghost use Rattle.pf_model.specs.Mesh.{Undivided};
ghost use Rattle.pf_model.specs.Applied.{op_applied};
ghost use Rattle.pf_model.specs.Limits.{most_spokes};
ghost use Rattle.pf_edges.specs.Table.{ArePlacesInRange};
ghost use Rattle.pf_edges.specs.Kept.{IsKept};
ghost use Rattle.pf_rules.specs.Change.{PassesWithName, IsChange};
ghost use Rattle.pf_apply.specs.Operations.{ShowsApplicable, HasPlaces};

use pf_edges::table::EdgeTable;
use pf_geom::NoMemory;
use pf_judge::bisect::middle_between;
use pf_judge::operations::ends;
use pf_model::Op;
use pf_rules::change::Change;

// Enters where a bisection's new node stands, whose name there is room for. Other operations make none.
fn make_node(table: &mut EdgeTable, n: u32, op: Op)
    requires in_range { ArePlacesInRange table.old.nodes.items }
    requires room { n < vec_capacity table.old.nodes }
    ensures sides { table.new.sides ≡ table.old.sides }
    ensures keeps { (m : Undivided) → IsKept table.old.sides table.old.nodes.items m → PassesWithName m n op → IsKept table.new.sides table.new.nodes.items m }
    ensures places { (m : Undivided) → IsKept table.old.sides table.old.nodes.items m → (can : PassesWithName m n op)
        → HasPlaces table.new.nodes.items (op_applied m can.ticket op) }
    ensures room { vec_capacity table.old.nodes ≤ vec_capacity table.new.nodes }
{
    let (a, b) = match op {
        Op::Flip { a: _, b: _ } => return,
        Op::Bisect { a, b } => (a, b),
        Op::Contract { u: _, v: _ } => return,
    };
    let Some(at) = middle_between(table, a.min(b), a.max(b)) else {
        return;
    };
    table.stand_at(n, at);
}

/// Performs an operation that passes, by what it makes of the triangles. A bisection's new node is named
/// `n`. After an error the table shows the mesh that it showed before.
pub fn perform(table: &mut EdgeTable, n: u32, op: Op, change: &Change) -> Result<(), NoMemory>
    requires { ShowsApplicable table.old.sides table.old.nodes.items n op change.now.removed.items change.now.new.items }
    ensures applied { OnOk result ((m : Undivided) → IsKept table.old.sides table.old.nodes.items m → (can : PassesWithName m n op)
        → IsChange m n op change.now.removed.items change.now.new.items → IsKept table.new.sides table.new.nodes.items (op_applied m can.ticket op)) }
    ensures few { OnOk result (length change.now.new.items ≤ most_spokes) }
    ensures err { OnErr result ((m : Undivided) → IsKept table.old.sides table.old.nodes.items m → PassesWithName m n op
        → IsKept table.new.sides table.new.nodes.items m) }
{
    table.reserve(n as usize + 1, change.new.len())?;
    perform_on_table(table, n, op, change);
    Ok(())
}

/// Does so where there is room for it.
pub fn perform_on_table(table: &mut EdgeTable, n: u32, op: Op, change: &Change)
    requires can { ShowsApplicable table.old.sides table.old.nodes.items n op change.now.removed.items change.now.new.items }
    requires names { n < vec_capacity table.old.nodes }
    requires sides { 3 * length change.now.new.items ≤ spare table.old.sides }
    ensures applied { (m : Undivided) → IsKept table.old.sides table.old.nodes.items m → (can : PassesWithName m n op)
        → IsChange m n op change.now.removed.items change.now.new.items → IsKept table.new.sides table.new.nodes.items (op_applied m can.ticket op) }
    ensures names { vec_capacity table.old.nodes ≤ vec_capacity table.new.nodes }
    ensures sides { spare table.old.sides ≤ spare table.new.sides + 3 * length change.now.new.items }
{
    make_node(table, n, op);
    let (u, v) = ends(op);
    let _ = change.removed.len();
    let _ = change.new.len();
    table.exchange(u, v, &change.removed, &change.new);
}
