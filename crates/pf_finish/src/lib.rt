//! The last pass over a mesh, by one who is alone: it answers the lines of the rest list that pass until none does.
#![tactic(auto)]

mod edges;
mod pass;
mod todo;
mod tries;
mod wishes;

pub use pass::{FinishEnd, finish};
