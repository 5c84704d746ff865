//! The conditions and the change of each operation, as functions of values.
#![tactic(auto)]

pub mod bisect;
pub mod change;
pub mod conditions;
pub mod contract;
pub mod edge_sides;
pub mod flip;
pub mod lengths;
pub mod refusals;
pub mod scratch;
pub mod star;
