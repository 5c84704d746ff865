//! The tables beside a mesh: the partition, which names the chunk that owns each triangle, and the
//! size table, which bounds the squared lengths of edges.
//!
//! `docs/formats.md` has both formats. A reader answers the value that a text writes, or the first
//! fault of the text: lines are tested from the top, the words of a line from the left.
#![tactic(auto)]

mod fault;
mod laws;
mod part;
mod size;

pub use fault::TableErr;
pub use laws::part_reads_again;
pub use part::{Parts, owners_text, read_part};
pub use size::read_size;
