//! The adaptation of a mesh: operations are made until none that is wished for passes, or the budget is spent.
#![tactic(auto)]

mod adapting;
mod crew;
mod lists;
mod quiet;
mod work;

pub use adapting::{Adapted, adapt};
pub use quiet::is_quiet;
