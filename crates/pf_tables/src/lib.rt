//! The tables beside a mesh: the partition, which names the chunk that owns each triangle, and the
//! size table, which bounds the squared lengths of edges. They are read as [`table_text`] does it, and
//! the partition is written of a mesh.
//!
//! `docs/formats.md` has both formats.
#![tactic(auto)]

ghost use Rattle.std.specs.Prelude.{◌≡◌, IfOk};
ghost use Rattle.table_text.specs.Part.{part_text_of};

use pf_geom::NoMemory;
use pf_mesh::Mesh;
use std::alloc::Global;
use table_text::owners_text;
pub use table_text::{Parts, TableErr, part_reads_again, read_part, read_size};

/// Writes the owner of each triangle of a mesh on a line of its own, in the order of the mesh's
/// triangles.
pub fn part_text(alloc: Global, m: &Mesh) -> Result<Vec<u8>, NoMemory>
    ensures { IfOk result (λ text. text.items ≡ part_text_of m.now.mesh.tris) }
{
    owners_text(alloc, m.tris()).map_err(|_| NoMemory)
}
