//! Bisections, judged and made from held stars alone.
#![tactic(auto)]

mod judging;
mod making;

pub use judging::judge;
pub use making::patch;
