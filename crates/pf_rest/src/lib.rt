//! The rest list: which edges are still too long or too short, what forbids their change, and which flips would pass.
#![tactic(auto)]

pub mod around;
pub mod close;
pub mod crossed;
pub mod known;
pub mod lines;
pub mod short;
pub mod told;
pub mod walks;
