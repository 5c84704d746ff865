// The check of a mesh.
ghost use Rattle.std.specs.Prelude.{◌≡◌, [], ◌∷◌, ◌++◌, IfOk, IfErr, OnOk, codes, decimal, length};
ghost use Rattle.std.specs.Fmt.{signed_decimal};
ghost use Rattle.pf_say.specs.Stop.{memory_stop};
ghost use Rattle.pf_model.specs.Sums.{euler_of, boundary_of};
ghost use Rattle.pf_model.specs.Texts.{line_text, check_report};

use crate::output::put_mesh;
use pf_forms::{boundary, euler};
use pf_mesh::Mesh;
use pf_say::{Stop, put_line};
use std::alloc::{AllocError, Global};

/// The report of a check: what the mesh has, and how many chunks.
pub(crate) fn check_text(alloc: Global, mesh: &Mesh, chunks: u16) -> Result<Vec<u8>, Stop>
    ensures memory { IfErr result (λ stop. stop ≡ memory_stop) }
    ensures text { IfOk result (λ text. text.items ≡ check_report chunks mesh.now.mesh) }
{
    let mut text = Vec::new(alloc);
    put_mesh(&mut text, mesh)?;
    put_euler(alloc, &mut text, mesh)?;
    put_boundary(alloc, &mut text, mesh)?;
    put_chunks(&mut text, chunks)?;
    Ok(text)
}

/// Puts the Euler number.
pub(crate) fn put_euler(alloc: Global, text: &mut Vec<u8>, mesh: &Mesh) -> Result<(), Stop>
    ensures memory { IfErr result (λ stop. stop ≡ memory_stop) }
    ensures text { OnOk result (text.new.items ≡ text.old.items ++ line_text (codes "euler" ∷ signed_decimal (euler_of mesh.now.mesh) ∷ [])) }
{
    let number = euler(alloc, mesh)?;
    put_line(text, b"euler ", number)?;
    Ok(())
}

// Puts how many boundary edges there are.
fn put_boundary(alloc: Global, text: &mut Vec<u8>, mesh: &Mesh) -> Result<(), Stop>
    ensures memory { IfErr result (λ stop. stop ≡ memory_stop) }
    ensures text { OnOk result (text.new.items ≡ text.old.items ++ line_text (codes "boundary" ∷ decimal (length (boundary_of mesh.now.mesh)) ∷ [])) }
{
    let edges = boundary(alloc, mesh)?;
    put_line(text, b"boundary ", edges.len())?;
    Ok(())
}

// Puts how many chunks there are.
fn put_chunks(text: &mut Vec<u8>, chunks: u16) -> Result<(), AllocError>
    ensures { OnOk result (text.new.items ≡ text.old.items ++ line_text (codes "chunks" ∷ decimal chunks ∷ [])) }
{
    put_line(text, b"chunks ", chunks)
}
