//! Every operation on the edge table: the first condition that it fails, and its plan.
ghost use Rattle.std.specs.Prelude.{◌≡◌, None};
ghost use Rattle.pf_model.specs.Mesh.{Undivided};
ghost use Rattle.pf_model.specs.Conforming.{IsConforming};
ghost use Rattle.pf_model.specs.Conditions.{first_failing};
ghost use Rattle.pf_edges.specs.Table.{ArePlacesInRange, Shows};
ghost use Rattle.pf_edges.specs.Kept.{IsKept};
ghost use Rattle.pf_rules.specs.Change.{IsChange};
ghost use Rattle.pf_model.specs.Ends.{gone_end, first_end, second_end};

use crate::bisect::{bisect_condition, bisect_plan};
use crate::conditions::flip_condition;
use crate::contract::{contract_condition, contract_plan};
use crate::edge_sides::edge_sides;
use crate::flip::flip_plan;
use pf_edges::table::EdgeTable;
use pf_model::{Band, Cond, Op};
use pf_rules::scratch::Scratch;

/// The first condition that an operation fails.
pub fn condition(table: &EdgeTable, bands: &[Band], chunk: u16, op: Op) -> Option<Cond>
    requires { ArePlacesInRange table.now.nodes.items }
    ensures { (m : Undivided) → IsConforming m → Shows table.now.sides table.now.nodes.items m → m.bands ≡ bands.now → result ≡ first_failing m chunk op }
{
    match op {
        Op::Flip { a, b } => flip_condition(table, chunk, a, b, edge_sides(table, a, b)),
        Op::Bisect { a, b } => {
            bisect_condition(table, bands, chunk, a, b, edge_sides(table, a, b))
        }
        Op::Contract { u, v } => contract_condition(table, bands, chunk, u, v),
    }
}

/// The first condition that an operation fails, or `None` where it passes. Then the change is what it
/// makes of the triangles, where a bisection's new node is named `n`. What the lists held doesn't matter.
/// Takes no memory.
pub fn plan(
    table: &EdgeTable,
    bands: &[Band],
    chunk: u16,
    n: u32,
    op: Op,
    scratch: &mut Scratch,
) -> Option<Cond>
    requires { ArePlacesInRange table.now.nodes.items }
    ensures cond { (m : Undivided) → IsKept table.now.sides table.now.nodes.items m → m.bands ≡ bands.now → result ≡ first_failing m chunk op }
    ensures change { (m : Undivided) → IsKept table.now.sides table.now.nodes.items m → result ≡ None
        → IsChange m n op scratch.new.change.removed.items scratch.new.change.new.items }
{
    let change = &mut scratch.change;
    match op {
        Op::Flip { a, b } => { flip_plan(table, chunk, a, b, &mut change.removed, &mut change.new) }
        Op::Bisect { a, b } => {
            bisect_plan(
                table,
                bands,
                chunk,
                n,
                a,
                b,
                &mut change.removed,
                &mut change.new,
            )
        }
        Op::Contract { u, v } => contract_plan(table, bands, chunk, u, v, scratch),
    }
}

/// The first end of an operation that isn't live.
pub fn gone_node(table: &EdgeTable, op: Op) -> Option<u32>
    ensures { (m : Undivided) → Shows table.now.sides table.now.nodes.items m → result ≡ gone_end m op }
{
    let (first, second) = ends(op);
    if table.site(first).is_none() {
        return Some(first);
    }
    if table.site(second).is_none() {
        return Some(second);
    }
    None
}

/// The two ends of an operation, as written.
pub fn ends(op: Op) -> (u32, u32)
    ensures first { result.0 ≡ first_end op }
    ensures second { result.1 ≡ second_end op }
{
    match op {
        Op::Flip { a, b } => (a, b),
        Op::Bisect { a, b } => (a, b),
        Op::Contract { u, v } => (u, v),
    }
}
