// What a command writes and says, made ready before the first write.
ghost use Rattle.std.specs.Prelude.{◌≡◌, List, ◌++◌, ℕ, IfOk, IfErr, OnOk, OnErr, map};
ghost use Rattle.pf_model.specs.Texts.{lines_text, mesh_lines};
ghost use Rattle.pf_shelf.specs.Count.{Rose};
ghost use Rattle.pf_shelf.specs.Files.{Tells, held};
ghost use Rattle.pf_say.specs.Shown.{stems_of};
ghost use Rattle.pf_cmd.specs.Output.{named_text, written_to, written, IsNoneOf};
ghost use Rattle.pf_cmd.specs.CutOff.{IsCutAt};
ghost use Rattle.pf_cmd.specs.Causes.{IsQuiet};

use pf_forms::area2;
use pf_mesh::Mesh;
use pf_say::{Place, Stems, put_line};
use pf_shelf::{Shelf, WriteErr, write_all};
use std::alloc::{AllocError, Global};

/// A file that is to be written.
#[derive(Drop)]
pub(crate) struct OutFile {
    pub(crate) place: Place,
    pub(crate) name: String,
    pub(crate) text: Vec<u8>,
}

/// A text for the file of a place.
pub(crate) fn out_file(
    alloc: Global,
    stems: Stems<'_>,
    place: Place,
    text: Vec<u8>,
) -> Result<OutFile, AllocError>
    ensures { IfOk result (λ file. named_text file ≡ written_to (stems_of stems.entry) place text.items) }
{
    let name = stems.name(alloc, place)?;
    Ok(OutFile { place, name, text })
}

/// Puts what every report says of a mesh: how many nodes and triangles there are, and twice the area.
pub(crate) fn put_mesh(text: &mut Vec<u8>, mesh: &Mesh) -> Result<(), AllocError>
    ensures { OnOk result (text.new.items ≡ text.old.items ++ lines_text (mesh_lines mesh.now.mesh)) }
{
    put_line(text, b"nodes ", mesh.sites().len())?;
    put_line(text, b"triangles ", mesh.tris().len())?;
    put_line(text, b"area2 ", area2(mesh))?;
    Ok(())
}

/// The files that are to be written, in order, and what is to be said then.
#[derive(Drop)]
pub(crate) struct Output {
    pub(crate) files: Vec<OutFile>,
    pub(crate) report: Vec<u8>,
}

/// Writes the files, one after another. The error names the file that wasn't written.
pub(crate) fn write_files<S: Shelf>(shelf: &mut S, files: &[OutFile]) -> Result<(), Place>
    ensures written { Tells (S.seen shelf.old).told → OnOk result ((name : List ℕ) →
        held (S.seen shelf.new).told name ≡ written (map named_text files.now) (held (S.seen shelf.old).told) name) }
    ensures cut { Tells (S.seen shelf.old).told → IfErr result
        (IsCutAt (map named_text files.now) (held (S.seen shelf.old).told) (held (S.seen shelf.new).told)) }
    ensures fault { OnErr result (Rose (S.seen shelf.old).write_faults (S.seen shelf.new).write_faults) }
    ensures no_fault { OnOk result ((S.seen shelf.new).write_faults ≡ (S.seen shelf.old).write_faults) }

    // Whatever it answers.
    ensures others { (name : List ℕ) → IsNoneOf (map named_text files.now) name →
        held (S.seen shelf.new).told name ≡ held (S.seen shelf.old).told name }
    ensures quiet { IsQuiet (S.seen shelf.old) (S.seen shelf.new) }
{
    for file in files {
        match write_all(shelf, &file.name, &file.text) {
            Ok(()) => {}
            Err(WriteErr::Fault) => return Err(file.place),
        }
    }
    Ok(())
}
