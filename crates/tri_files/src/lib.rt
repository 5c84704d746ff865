//! The `.node` and `.ele` files of Shewchuk's Triangle: read, as [`tri_text`] does it, and written of a
//! mesh.
//!
//! Only whole coordinates are read, and only plane triangles of three corners. Attributes and boundary
//! markers are passed over, and not written.
#![tactic(auto)]

ghost use Rattle.std.specs.Prelude.{◌≡◌, IfOk};
ghost use Rattle.pf_model.specs.Texts.{mesh_node_text, mesh_ele_text};

use pf_geom::NoMemory;
use pf_mesh::Mesh;
use std::alloc::Global;
use tri_text::{sites_text, tris_text};
pub use tri_text::{
    Nodes, TriErr, read_ele, read_node, written_nodes_are_read_again,
    written_triangles_are_read_again,
};

/// The text of the `.node` file: a line per live node by rising name, numbered from `base`.
pub fn node_text(alloc: Global, m: &Mesh, base: u32) -> Result<Vec<u8>, NoMemory>
    ensures { IfOk result (λ text. text.items ≡ mesh_node_text base m.now.mesh) }
{
    sites_text(alloc, m.sites(), base).map_err(|_| NoMemory)
}

/// The text of the `.ele` file: a line per triangle, least corner first, counterclockwise, rising by
/// corners, numbered from `base`, with the numbers of the corners in the `.node` file of that base.
pub fn ele_text(alloc: Global, m: &Mesh, base: u32) -> Result<Vec<u8>, NoMemory>
    ensures { IfOk result (λ text. text.items ≡ mesh_ele_text base m.now.mesh) }
{
    tris_text(alloc, m.sites(), m.tris(), base).map_err(|_| NoMemory)
}
