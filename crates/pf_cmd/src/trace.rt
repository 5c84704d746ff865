// A trace that is run on a mesh.
ghost use Rattle.std.specs.Prelude.{◌≤◌, [], ◌∷◌, IfOk, IfErr};
ghost use Rattle.pf_shelf.specs.Files.{Tells};
ghost use Rattle.pf_say.specs.Shown.{stems_of};
ghost use Rattle.pf_cmd.specs.Causes.{IsOnlyRead, IsQuiet, Explains};
ghost use Rattle.pf_cmd.specs.Input.{files_in};
ghost use Rattle.pf_cmd.specs.Commands.{traced_in};
ghost use Rattle.pf_cmd.specs.Shown.{IsTraced};

use crate::fault::trace_stop;
use crate::input::{Numbered, read_bytes, read_numbered};
use pf_say::{Place, Stems, Stop};
use pf_shelf::Shelf;
use pf_trace::run_trace;
use std::alloc::Global;

/// The text that the trace of the files is answered by, over their mesh.
pub(crate) fn trace_answer<S: Shelf>(
    alloc: Global,
    shelf: &mut S,
    stems: Stems<'_>,
    scale: u32,
) -> Result<Vec<u8>, Stop>
    requires scale_low { 1 ≤ scale }
    requires scale_high { scale ≤ 1048576 }
    ensures traced { Tells (S.seen shelf.old).told → IfOk result (λ text.
        IsTraced scale (files_in (S.seen shelf.old) (stems_of stems.entry)) text.items) }
    ensures stop { IfErr result (Explains
        (Place.Node ∷ Place.Ele ∷ Place.Part ∷ Place.Size ∷ Place.Trace ∷ []) (S.seen shelf.old) (S.seen shelf.new)
        (stems_of stems.entry) (traced_in scale)) }
    ensures quiet { IfOk result (λ _. IsQuiet (S.seen shelf.old) (S.seen shelf.new)) }
    ensures only_read { IsOnlyRead (S.seen shelf.old) (S.seen shelf.new) }
{
    let Numbered { mesh, .. } = read_numbered(alloc, shelf, stems, scale)?;
    let bytes = read_bytes(alloc, shelf, stems, Place::Trace)?;
    match run_trace(alloc, &mesh, &bytes) {
        Ok(text) => Ok(text),
        Err(fault) => Err(trace_stop(fault)),
    }
}
