// The adaptation of a mesh.
ghost use Rattle.std.specs.Prelude.{◌≡◌, ◌≤◌, [], ◌∷◌, ◌++◌, IfOk, IfErr, OnOk, decimal, codes, length, if◌then◌else◌};
ghost use Rattle.pf_shelf.specs.Files.{Tells};
ghost use Rattle.pf_model.specs.Replay.{HasTickets};
ghost use Rattle.pf_model.specs.Texts.{line_text};
ghost use Rattle.pf_model.specs.Wishes.{rest_of};
ghost use Rattle.pf_adapt.specs.Adapted.{is_quiet};
ghost use Rattle.pf_say.specs.Shown.{stems_of};
ghost use Rattle.pf_say.specs.Stop.{memory_stop};
ghost use Rattle.pf_cmd.specs.Causes.{IsOnlyRead, IsQuiet, Explains};
ghost use Rattle.pf_cmd.specs.Input.{files_in};
ghost use Rattle.pf_cmd.specs.Commands.{budgeted_in, adapt_texts, adapt_report};
ghost use Rattle.pf_cmd.specs.Output.{given_of};
ghost use Rattle.pf_cmd.specs.Shown.{IsRefined};

use crate::input::{Budgeted, read_budgeted};
use crate::output::{Output, out_file, put_mesh};
use pf_adapt::{Adapted, adapt, is_quiet};
use pf_driver::Gate;
use pf_journal::journal_text;
use pf_mesh::RestLine;
use pf_say::{Place, Stems, Stop, put_line, rest_text};
use pf_shelf::Shelf;
use pf_tables::part_text;
use std::alloc::{AllocError, Global};
use std::thread::Threads;
use tri_files::{ele_text, node_text};

/// A mesh that was adapted, and the number of the first node in its files.
#[derive(Drop)]
pub(crate) struct Refined {
    base: u32,
    adapted: Adapted,
}

/// How a mesh is adapted: by so many workers, each taking at most so many turns, and by at most so many operations, where
/// that many are said.
#[derive(Clone, Copy, Debug)]
pub(crate) struct Work {
    pub(crate) workers: u32,
    pub(crate) ops: Option<u32>,
    pub(crate) turns: u32,
}

/// The mesh of the files, adapted.
pub(crate) fn refine<R: Threads + Sync, S: Shelf, G: Gate + Sync>(
    rt: &R,
    alloc: Global,
    shelf: &mut S,
    stems: Stems<'_>,
    scale: u32,
    work: Work,
    gate: &G,
) -> Result<Refined, Stop>
    requires scale_low { 1 ≤ scale }
    requires scale_high { scale ≤ 1048576 }
    requires some_worker { 1 ≤ work.workers }
    requires few_workers { work.workers ≤ 64 }
    ensures refined { Tells (S.seen shelf.old).told →
        IfOk result (IsRefined work.ops scale (files_in (S.seen shelf.old) (stems_of stems.entry))) }
    ensures base { IfOk result (λ after. after.base ≤ 1) }
    ensures rest { IfOk result (λ after. after.adapted.rest.items ≡ rest_of after.adapted.mesh.mesh) }
    ensures tickets { IfOk result (λ after. HasTickets after.adapted.journal.items) }
    ensures stop { IfErr result (Explains
        (Place.Node ∷ Place.Ele ∷ Place.Part ∷ Place.Size ∷ []) (S.seen shelf.old) (S.seen shelf.new)
        (stems_of stems.entry) (budgeted_in work.ops scale)) }
    ensures quiet { IfOk result (λ _. IsQuiet (S.seen shelf.old) (S.seen shelf.new)) }
    ensures only_read { IsOnlyRead (S.seen shelf.old) (S.seen shelf.new) }
{
    let Budgeted { base, mesh, budget } = read_budgeted(alloc, shelf, stems, scale, work.ops)?;
    let adapted = adapt(rt, alloc, mesh, budget, work.workers, work.turns, gate)?;
    Ok(Refined { base, adapted })
}

/// The texts of an adaptation.
pub(crate) fn adapt_output(alloc: Global, stems: Stems<'_>, after: &Refined) -> Result<Output, Stop>
    requires base { after.now.base ≤ 1 }
    requires tickets { HasTickets after.now.adapted.journal.items }
    requires rest { after.now.adapted.rest.items ≡ rest_of after.now.adapted.mesh.mesh }
    ensures memory { IfErr result (λ stop. stop ≡ memory_stop) }
    ensures output { IfOk result (λ output. given_of output
        ≡ adapt_texts (stems_of stems.entry) after.now.base after.now.adapted.mesh.mesh after.now.adapted.journal.items) }
{
    let node_text = node_text(alloc, &after.adapted.mesh, after.base)?;
    let ele_text = ele_text(alloc, &after.adapted.mesh, after.base)?;
    let part_text = part_text(alloc, &after.adapted.mesh)?;
    let journal_text = journal_text(alloc, &after.adapted.journal)?;
    let rest_text = rest_text(alloc, &after.adapted.rest)?;
    let report = report_text(alloc, &after.adapted)?;
    let mut files = Vec::new(alloc);
    files.push(out_file(alloc, stems, Place::OutNode, node_text)?)?;
    files.push(out_file(alloc, stems, Place::OutEle, ele_text)?)?;
    files.push(out_file(alloc, stems, Place::OutPart, part_text)?)?;
    files.push(out_file(alloc, stems, Place::OutJournal, journal_text)?)?;
    files.push(out_file(alloc, stems, Place::OutRest, rest_text)?)?;
    Ok(Output { files, report })
}

// The report: how many operations, nodes and triangles there are, twice the area, and what is left to be done.
fn report_text(alloc: Global, after: &Adapted) -> Result<Vec<u8>, AllocError>
    requires { after.now.rest.items ≡ rest_of after.now.mesh.mesh }
    ensures { IfOk result (λ text. text.items ≡ adapt_report (length after.now.journal.items) after.now.mesh.mesh) }
{
    let mut text = Vec::new(alloc);
    put_line(&mut text, b"operations ", after.journal.len())?;
    put_mesh(&mut text, &after.mesh)?;
    put_rest(&mut text, &after.rest)?;
    Ok(text)
}

// Puts how many lines a rest list has, and whether one of them passes.
fn put_rest(text: &mut Vec<u8>, lines: &[RestLine]) -> Result<(), AllocError>
    ensures { OnOk result (text.new.items ≡ text.old.items ++ line_text (codes "rest" ∷ decimal (length lines.now) ∷ [])
        ++ line_text ((if is_quiet lines.now then codes "quiet" else codes "spent") ∷ [])) }
{
    put_line(text, b"rest ", lines.len())?;
    if is_quiet(lines) {
        text.extend_from_slice(b"quiet\n")?;
    } else {
        text.extend_from_slice(b"spent\n")?;
    }
    Ok(())
}
