//! Sets of stars that are held, and the copies of a mesh.
#![tactic(auto)]

mod copies;
mod set;

pub use copies::{ChunkCopy, Copies};
pub use set::StarSet;
