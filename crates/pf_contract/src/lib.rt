//! Contractions, judged and made from held stars alone.
#![tactic(auto)]

mod far;
mod judging;
mod links;
mod making;
mod shape;

pub use judging::judge;
pub use making::patch;
