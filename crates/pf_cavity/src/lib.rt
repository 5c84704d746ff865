//! The next node of a cavity to hold, from the stars that are held.
#![tactic(auto)]

mod answer;
mod gather;
mod next;

pub use answer::Need;
pub use next::need;
