//! The holder over one undivided mesh, which nobody else changes: it keeps the star of each live node, and lends
//! the stars of the nodes that it holds.
#![tactic(auto)]

mod holding;
mod opening;
mod plain;
mod stars;

pub use plain::Plain;
