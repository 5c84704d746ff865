//! Operations judged and planned by the edge table.
#![tactic(auto)]

pub mod bisect;
pub mod conditions;
pub mod contract;
pub mod edge_sides;
pub mod flip;
pub mod lengths;
pub mod operations;
pub mod star;
