//! What an operation that passes makes of the stars in its cavity, from the held stars alone.
#![tactic(auto)]

mod build;
mod edge;
mod names;
mod plan;
mod put;
mod tris;

pub use build::patch;
