//! What a star alone shows of the edges at its node: whether they are too long or too short, which chunk acts on
//! them, and the first wish at the node. Nothing here takes memory.
#![tactic(auto)]

mod beside;
mod edge_sights;
mod laws;
mod measures;
mod walks;
mod wishes;

pub use edge_sights::{EdgeLook, look};
pub use laws::{
    first_wish_is_by_chunk, look_is_of_mesh, neighbours_have_edges, no_shorter_no_flip,
};
pub use walks::longer_at;
pub use wishes::first_wish;
