// The list of what the chunks of a mesh share.
ghost use Rattle.std.specs.Prelude.{◌≡◌, ◌≤◌, [], ◌∷◌, Ok, IfOk, IfErr};
ghost use Rattle.pf_model.specs.Mesh.{Undivided};
ghost use Rattle.pf_shelf.specs.Files.{Tells};
ghost use Rattle.pf_say.specs.Shown.{stems_of};
ghost use Rattle.pf_assemble.specs.ChunkList.{chunk_list_of};
ghost use Rattle.pf_cmd.specs.Causes.{IsOnlyRead, IsQuiet, Explains};
ghost use Rattle.pf_cmd.specs.Input.{files_in};
ghost use Rattle.pf_cmd.specs.Commands.{divided_in};

use crate::input::read_divided;
use pf_assemble::chunk_lines;
use pf_say::{Place, Stems, Stop};
use pf_shelf::Shelf;
use std::alloc::Global;

/// The chunk list of the mesh of the files.
pub(crate) fn chunks_answer<S: Shelf>(
    alloc: Global,
    shelf: &mut S,
    stems: Stems<'_>,
    scale: u32,
) -> Result<Vec<u8>, Stop>
    requires scale_low { 1 ≤ scale }
    requires scale_high { scale ≤ 1048576 }
    ensures listed { Tells (S.seen shelf.old).told → IfOk result (λ text. (m : Undivided)
        × (divided_in scale (files_in (S.seen shelf.old) (stems_of stems.entry)) ≡ Ok m) × (text.items ≡ chunk_list_of m)) }
    ensures stop { IfErr result (Explains
        (Place.Node ∷ Place.Ele ∷ Place.Part ∷ []) (S.seen shelf.old) (S.seen shelf.new)
        (stems_of stems.entry) (divided_in scale)) }
    ensures quiet { IfOk result (λ _. IsQuiet (S.seen shelf.old) (S.seen shelf.new)) }
    ensures only_read { IsOnlyRead (S.seen shelf.old) (S.seen shelf.new) }
{
    let mesh = read_divided(alloc, shelf, stems, scale)?;
    let text = chunk_lines(alloc, &mesh)?;
    Ok(text)
}
