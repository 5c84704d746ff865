//! A mesh divided among its chunks and put together again: the copies of stars that each chunk has, the list of what
//! they share, and the mesh that the copies of a board at its end give.
#![tactic(auto)]

mod chunks;
mod copies;
mod ghosts;
mod keepers;
mod lines;
mod lists;
mod rows;
mod whole;

pub use chunks::chunk_lines;
pub use copies::divide;
pub use whole::{assemble, end_board, undivided};
