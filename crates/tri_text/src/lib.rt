//! The `.node` and `.ele` files of Shewchuk's Triangle, read, and written of nodes and triangles.
//!
//! Only whole coordinates are read, and only plane triangles of three corners. Attributes and boundary
//! markers are passed over, and not written.
#![tactic(auto)]

mod ele;
mod fault;
mod laws;
mod node;
mod text;
mod words;

pub use ele::read_ele;
pub use fault::TriErr;
pub use laws::{written_nodes_are_read_again, written_triangles_are_read_again};
pub use node::{Nodes, read_node};
pub use text::{sites_text, tris_text};
