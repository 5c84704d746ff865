// The replay of a journal on a mesh.
ghost use Rattle.std.specs.Prelude.{◌≡◌, ◌≢◌, ℕ, ◌+◌, ◌<◌, ◌≤◌, [], ◌∷◌, length, IfOk, IfErr, OnOk};
ghost use Rattle.pf_shelf.specs.Files.{Tells};
ghost use Rattle.pf_model.specs.Conforming.{IsLive};
ghost use Rattle.pf_model.specs.Replay.{HasTickets, replayed, first_refusal, IsLegal};
ghost use Rattle.pf_model.specs.Texts.{replay_report};
ghost use Rattle.pf_say.specs.Shown.{stems_of};
ghost use Rattle.pf_say.specs.Stop.{memory_stop};
ghost use Rattle.pf_cmd.specs.Causes.{IsOnlyRead, IsQuiet, IsInner, Explains};
ghost use Rattle.pf_cmd.specs.Input.{files_in};
ghost use Rattle.pf_cmd.specs.Commands.{journalled_in, replay_texts, IsRefused};
ghost use Rattle.pf_cmd.specs.Output.{given_of};
ghost use Rattle.pf_cmd.specs.Shown.{IsReplayed};

use crate::input::{Numbered, read_entries, read_numbered};
use crate::output::{Output, out_file, put_mesh};
use pf_journal::ReplayErr;
use pf_mesh::{Entry, Mesh};
use pf_model::Refusal;
use pf_say::{Place, Stems, Stop, Trouble, put_line};
use pf_shelf::Shelf;
use pf_tables::part_text;
use std::alloc::{AllocError, Global};
use tri_files::{ele_text, node_text};

/// A mesh after a journal of so many entries, and the number of the first node in its files.
#[derive(Drop)]
pub(crate) struct Replayed {
    base: u32,
    mesh: Mesh,
    operations: u32,
}

/// The mesh of the files after the journal.
pub(crate) fn replay<S: Shelf>(
    alloc: Global,
    shelf: &mut S,
    stems: Stems<'_>,
    scale: u32,
) -> Result<Replayed, Stop>
    requires scale_low { 1 ≤ scale }
    requires scale_high { scale ≤ 1048576 }
    ensures replayed { Tells (S.seen shelf.old).told →
        IfOk result (IsReplayed scale (files_in (S.seen shelf.old) (stems_of stems.entry))) }
    ensures base { IfOk result (λ after. after.base ≤ 1) }
    ensures stop { IfErr result (Explains
        (Place.Node ∷ Place.Ele ∷ Place.Part ∷ Place.Size ∷ Place.Journal ∷ []) (S.seen shelf.old) (S.seen shelf.new)
        (stems_of stems.entry) (journalled_in scale)) }
    ensures quiet { IfOk result (λ _. IsQuiet (S.seen shelf.old) (S.seen shelf.new)) }
    ensures only_read { IsOnlyRead (S.seen shelf.old) (S.seen shelf.new) }
{
    let Numbered { base, mut mesh } = read_numbered(alloc, shelf, stems, scale)?;
    let entries = read_entries(alloc, shelf, stems, mesh.first_new())?;
    apply_all(&mut mesh, &entries)?;
    let operations = entries.len() as u32;
    Ok(Replayed {
        base,
        mesh,
        operations,
    })
}

/// The texts of a replay.
pub(crate) fn replay_output(
    alloc: Global,
    stems: Stems<'_>,
    after: &Replayed,
) -> Result<Output, Stop>
    requires { after.now.base ≤ 1 }
    ensures memory { IfErr result (λ stop. stop ≡ memory_stop) }
    ensures output { IfOk result (λ output. given_of output
        ≡ replay_texts (stems_of stems.entry) after.now.base after.now.mesh.mesh after.now.operations) }
{
    let node_text = node_text(alloc, &after.mesh, after.base)?;
    let ele_text = ele_text(alloc, &after.mesh, after.base)?;
    let part_text = part_text(alloc, &after.mesh)?;
    let report = report_text(alloc, after)?;
    let mut files = Vec::new(alloc);
    files.push(out_file(alloc, stems, Place::OutNode, node_text)?)?;
    files.push(out_file(alloc, stems, Place::OutEle, ele_text)?)?;
    files.push(out_file(alloc, stems, Place::OutPart, part_text)?)?;
    Ok(Output { files, report })
}

/// Applies the entries one after another, up to the first that is refused.
pub(crate) fn apply_all(mesh: &mut Mesh, entries: &[Entry]) -> Result<(), Stop>
    requires fresh { (n : ℕ) → IsLive mesh.old.mesh n → n < mesh.old.mesh.first_new }
    requires tickets { HasTickets entries.now }
    requires limit { mesh.old.mesh.first_new + length entries.now ≤ 1048576 }
    ensures all { OnOk result (mesh.new.mesh ≡ replayed mesh.old.mesh entries.now) }
    ensures legal { OnOk result (IsLegal mesh.old.mesh entries.now) }
    ensures stop { IfErr result (λ stop. stop ≢ memory_stop → IsRefused (first_refusal mesh.old.mesh entries.now) stop) }
    ensures inner { IfErr result IsInner }
{
    match pf_journal::replay(mesh, entries) {
        Ok(()) => Ok(()),
        Err(ReplayErr::At { ticket, cond }) => Err(Stop::Operation {
            ticket,
            why: Refusal::Failing { cond },
        }),
        Err(ReplayErr::Gone { ticket, node }) => Err(Stop::Operation {
            ticket,
            why: Refusal::Gone { node },
        }),
        Err(ReplayErr::Memory) => Err(Stop::Device {
            trouble: Trouble::Memory,
        }),
    }
}

// The report: how many operations, nodes and triangles there are, and twice the area.
fn report_text(alloc: Global, after: &Replayed) -> Result<Vec<u8>, AllocError>
    ensures { IfOk result (λ text. text.items ≡ replay_report after.now.operations after.now.mesh.mesh) }
{
    let mut text = Vec::new(alloc);
    put_line(&mut text, b"operations ", after.operations)?;
    put_mesh(&mut text, &after.mesh)?;
    Ok(text)
}
