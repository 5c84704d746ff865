// A command from its first read to its last write.
ghost use Rattle.std.specs.Prelude.{◌≡◌, ◌≢◌, ◌≤◌, List, ℕ, IfOk, IfErr};
ghost use Rattle.pf_shelf.specs.Files.{held};
ghost use Rattle.pf_say.specs.Place.{name_of};
ghost use Rattle.pf_say.specs.Shown.{stems_of};
ghost use Rattle.pf_cmd.specs.Commands.{IsScaled, IsTaskBounded, IsUnnamed};
ghost use Rattle.pf_cmd.specs.Ends.{Finishes, Stops};
ghost use Rattle.pf_cmd.specs.Shown.{shown};

use crate::adapt::{Work, adapt_output, refine};
use crate::check::check_text;
use crate::chunks::chunks_answer;
use crate::demo::demo_text;
use crate::input::{Partitioned, read_partitioned};
use crate::output::write_files;
use crate::replay::{replay, replay_output};
use crate::trace::trace_answer;
use crate::words::{Command, Task};
use pf_driver::Gate;
use pf_say::{Place, Stems, Stop, Trouble};
use pf_shelf::Shelf;
use pf_tables::Parts;
use std::alloc::Global;
use std::thread::Threads;

/// Performs a command, and gives what is to be said.
pub(crate) fn perform<R: Threads + Sync, S: Shelf, G: Gate + Sync>(
    rt: &R,
    alloc: Global,
    shelf: &mut S,
    command: Command<'_>,
    gate: &G,
) -> Result<Vec<u8>, Stop>
    requires scaled { IsScaled (shown command) }
    requires bounded { IsTaskBounded command.task }
    ensures done { IfOk result (λ report.
        Finishes (shown command.entry) (S.seen shelf.old) (S.seen shelf.new) report.items) }
    ensures stops { IfErr result (Stops (shown command.entry) (S.seen shelf.old) (S.seen shelf.new)) }

    // Whatever it answers.
    ensures others { (name : List ℕ) → IsUnnamed (shown command.entry) name →
        held (S.seen shelf.new).told name ≡ held (S.seen shelf.old).told name }
{
    match command.task {
        Task::Adapt {
            workers,
            ops,
            turns,
        } => {
            let work = Work {
                workers,
                ops,
                turns,
            };
            perform_adapt(rt, alloc, shelf, command.stems, command.scale, work, gate)
        }
        Task::Replay => perform_replay(alloc, shelf, command.stems, command.scale),
        Task::Check => perform_check(alloc, shelf, command.stems, command.scale),
        Task::Chunks => perform_chunks(alloc, shelf, command.stems, command.scale),
        Task::Trace => perform_trace(alloc, shelf, command.stems, command.scale),
        Task::Demo { cells } => perform_demo(
            rt,
            alloc,
            shelf,
            command.stems,
            command.scale,
            cells,
            gate,
        ),
    }
}

fn perform_adapt<R: Threads + Sync, S: Shelf, G: Gate + Sync>(
    rt: &R,
    alloc: Global,
    shelf: &mut S,
    stems: Stems<'_>,
    scale: u32,
    work: Work,
    gate: &G,
) -> Result<Vec<u8>, Stop>
    requires scale_low { 1 ≤ scale }
    requires scale_high { scale ≤ 1048576 }
    requires some_worker { 1 ≤ work.workers }
    requires few_workers { work.workers ≤ 64 }
    ensures done { IfOk result (λ report. Finishes record { task = Task.Adapt work.workers work.ops work.turns; stems = stems_of stems.entry; scale = scale }
        (S.seen shelf.old) (S.seen shelf.new) report.items) }
    ensures stops { IfErr result (Stops record { task = Task.Adapt work.workers work.ops work.turns; stems = stems_of stems.entry; scale = scale }
        (S.seen shelf.old) (S.seen shelf.new)) }
    ensures others { (name : List ℕ) → IsUnnamed record { task = Task.Adapt work.workers work.ops work.turns; stems = stems_of stems.entry; scale = scale } name →
        held (S.seen shelf.new).told name ≡ held (S.seen shelf.old).told name }
{
    let after = refine(rt, alloc, shelf, stems, scale, work, gate)?;
    let output = adapt_output(alloc, stems, &after)?;
    match write_files(shelf, &output.files) {
        Ok(()) => Ok(output.report),
        Err(place) => Err(Stop::Device {
            trouble: Trouble::Unwritten { place },
        }),
    }
}

fn perform_replay<S: Shelf>(
    alloc: Global,
    shelf: &mut S,
    stems: Stems<'_>,
    scale: u32,
) -> Result<Vec<u8>, Stop>
    requires scale_low { 1 ≤ scale }
    requires scale_high { scale ≤ 1048576 }
    ensures done { IfOk result (λ report. Finishes record { task = Task.Replay; stems = stems_of stems.entry; scale = scale }
        (S.seen shelf.old) (S.seen shelf.new) report.items) }
    ensures stops { IfErr result (Stops record { task = Task.Replay; stems = stems_of stems.entry; scale = scale }
        (S.seen shelf.old) (S.seen shelf.new)) }
    ensures others { (name : List ℕ) → IsUnnamed record { task = Task.Replay; stems = stems_of stems.entry; scale = scale } name →
        held (S.seen shelf.new).told name ≡ held (S.seen shelf.old).told name }
{
    let after = replay(alloc, shelf, stems, scale)?;
    let output = replay_output(alloc, stems, &after)?;
    match write_files(shelf, &output.files) {
        Ok(()) => Ok(output.report),
        Err(place) => Err(Stop::Device {
            trouble: Trouble::Unwritten { place },
        }),
    }
}

fn perform_check<S: Shelf>(
    alloc: Global,
    shelf: &mut S,
    stems: Stems<'_>,
    scale: u32,
) -> Result<Vec<u8>, Stop>
    requires scale_low { 1 ≤ scale }
    requires scale_high { scale ≤ 1048576 }
    ensures done { IfOk result (λ report. Finishes record { task = Task.Check; stems = stems_of stems.entry; scale = scale }
        (S.seen shelf.old) (S.seen shelf.new) report.items) }
    ensures stops { IfErr result (Stops record { task = Task.Check; stems = stems_of stems.entry; scale = scale }
        (S.seen shelf.old) (S.seen shelf.new)) }
    ensures others { (name : List ℕ) → held (S.seen shelf.new).told name ≡ held (S.seen shelf.old).told name }
{
    let Partitioned { listed, parts } = read_partitioned(alloc, shelf, stems, scale)?;
    let Parts { chunks, .. } = parts;
    let report = check_text(alloc, &listed.mesh, chunks)?;
    Ok(report)
}

fn perform_chunks<S: Shelf>(
    alloc: Global,
    shelf: &mut S,
    stems: Stems<'_>,
    scale: u32,
) -> Result<Vec<u8>, Stop>
    requires scale_low { 1 ≤ scale }
    requires scale_high { scale ≤ 1048576 }
    ensures done { IfOk result (λ report. Finishes record { task = Task.Chunks; stems = stems_of stems.entry; scale = scale }
        (S.seen shelf.old) (S.seen shelf.new) report.items) }
    ensures stops { IfErr result (Stops record { task = Task.Chunks; stems = stems_of stems.entry; scale = scale }
        (S.seen shelf.old) (S.seen shelf.new)) }
    ensures others { (name : List ℕ) → held (S.seen shelf.new).told name ≡ held (S.seen shelf.old).told name }
{
    let report = chunks_answer(alloc, shelf, stems, scale)?;
    Ok(report)
}

fn perform_trace<S: Shelf>(
    alloc: Global,
    shelf: &mut S,
    stems: Stems<'_>,
    scale: u32,
) -> Result<Vec<u8>, Stop>
    requires scale_low { 1 ≤ scale }
    requires scale_high { scale ≤ 1048576 }
    ensures done { IfOk result (λ report. Finishes record { task = Task.Trace; stems = stems_of stems.entry; scale = scale }
        (S.seen shelf.old) (S.seen shelf.new) report.items) }
    ensures stops { IfErr result (Stops record { task = Task.Trace; stems = stems_of stems.entry; scale = scale }
        (S.seen shelf.old) (S.seen shelf.new)) }
    ensures others { (name : List ℕ) → held (S.seen shelf.new).told name ≡ held (S.seen shelf.old).told name }
{
    let report = trace_answer(alloc, shelf, stems, scale)?;
    Ok(report)
}

fn perform_demo<R: Threads + Sync, S: Shelf, G: Gate + Sync>(
    rt: &R,
    alloc: Global,
    shelf: &mut S,
    stems: Stems<'_>,
    scale: u32,
    cells: u32,
    gate: &G,
) -> Result<Vec<u8>, Stop>
    requires some_cells { 1 ≤ cells }
    requires few_cells { cells ≤ 64 }
    ensures done { IfOk result (λ report. Finishes record { task = Task.Demo cells; stems = stems_of stems.entry; scale = scale }
        (S.seen shelf.old) (S.seen shelf.new) report.items) }
    ensures stops { IfErr result (Stops record { task = Task.Demo cells; stems = stems_of stems.entry; scale = scale }
        (S.seen shelf.old) (S.seen shelf.new)) }
    ensures others { (name : List ℕ) → held (S.seen shelf.new).told name ≡ held (S.seen shelf.old).told name }
{
    let report = demo_text(rt, alloc, cells, gate)?;
    Ok(report)
}
