//! The edges of a mesh as a list by rising names.
#![tactic(auto)]

pub mod edges;
pub mod links;
