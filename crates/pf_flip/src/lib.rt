//! Flips, judged and made from held stars alone.
#![tactic(auto)]

mod judging;
mod making;

pub use judging::{judge, judge_ends};
pub use making::patch;
