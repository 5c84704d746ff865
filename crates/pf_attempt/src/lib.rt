//! One try of one operation, over anything that holds nodes of a mesh; and whether it would pass.
#![tactic(auto)]

mod asking;
mod trying;

pub use asking::probe;
pub use trying::attempt;
