// The adaptation of a grid.
ghost use Rattle.std.specs.Prelude.{◌≡◌, ◌≤◌, [], ◌∷◌, ◌++◌, IfOk, IfErr, OnOk, codes, decimal};
ghost use Rattle.std.specs.Fmt.{signed_decimal};
ghost use Rattle.pf_say.specs.Stop.{memory_stop};
ghost use Rattle.pf_model.specs.Sums.{area2_of, euler_of};
ghost use Rattle.pf_model.specs.Texts.{line_text};
ghost use Rattle.pf_grid.specs.Mesh.{grid_mesh};
ghost use Rattle.pf_cmd.specs.Commands.{demo_report};

use crate::check::put_euler;
use pf_adapt::adapt;
use pf_cover_model::journal_keeps_euler;
use pf_driver::Gate;
use pf_forms::area2;
use pf_geom::NoMemory;
use pf_grid::grid;
use pf_mesh::Mesh;
use pf_model::journal_keeps_area;
use pf_say::{Stop, put_line};
use std::alloc::{AllocError, Global};
use std::thread::Threads;

/// How many workers adapt a grid.
const WORKERS: u32 = 4;

/// How many turns each of them takes at most.
const TURNS: u32 = 1_000_000;

/// The report of a grid with so many cells a side, once it is adapted.
pub(crate) fn demo_text<R: Threads + Sync, G: Gate + Sync>(
    rt: &R,
    alloc: Global,
    cells: u32,
    gate: &G,
) -> Result<Vec<u8>, Stop>
    requires low { 1 ≤ cells }
    requires high { cells ≤ 64 }
    ensures memory { IfErr result (λ stop. stop ≡ memory_stop) }
    ensures text { IfOk result (λ text. text.items ≡ demo_report cells) }
{
    let mesh = adapted_grid(rt, alloc, cells, gate)?;
    let mut text = Vec::new(alloc);
    put_line(&mut text, b"grid ", cells)?;
    put_area(&mut text, &mesh)?;
    put_euler(alloc, &mut text, &mesh)?;
    Ok(text)
}

// The grid, adapted: it has the area and the Euler number that it had before.
fn adapted_grid<R: Threads + Sync, G: Gate + Sync>(
    rt: &R,
    alloc: Global,
    cells: u32,
    gate: &G,
) -> Result<Mesh, NoMemory>
    requires low { 1 ≤ cells }
    requires high { cells ≤ 64 }
    ensures area { IfOk result (λ m. area2_of m.mesh ≡ area2_of (grid_mesh cells)) }
    ensures euler { IfOk result (λ m. euler_of m.mesh ≡ euler_of (grid_mesh cells)) }
{
    let Ok(mesh) = grid(alloc, cells) else {
        return Err(NoMemory);
    };
    let budget = 2 * cells * cells + 100;
    let adapted = adapt(rt, alloc, mesh, budget, WORKERS, TURNS, gate)?;
    journal_keeps_area();
    journal_keeps_euler();
    Ok(adapted.mesh)
}

// Puts twice the area.
fn put_area(text: &mut Vec<u8>, mesh: &Mesh) -> Result<(), AllocError>
    ensures { OnOk result (text.new.items ≡ text.old.items ++ line_text (codes "area2" ∷ signed_decimal (area2_of mesh.now.mesh) ∷ [])) }
{
    put_line(text, b"area2 ", area2(mesh))
}
