//! The edge table: the triangle left of each directed edge, and the nodes by their names.
#![tactic(auto)]

pub mod hasher;
pub mod nodes;
pub mod table;
