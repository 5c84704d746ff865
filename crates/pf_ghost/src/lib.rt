//! The copies of the nodes that an operation changes: made before it is committed, and spread after it.
//!
//! Each node has one list of copies, one for each chunk that shares it, by rising chunk. `prepare` takes all
//! the memory that is wanted; `spread` only moves the lists.
#![tactic(auto)]

mod laws;
mod owners;
mod ready;
mod sharers;
mod slots;

pub use laws::spread_puts_due;
pub use pf_core_model::Sharer;
pub use ready::{Listed, Ready, prepare, prepare_owned};
pub use sharers::{Sharers, sharers_of, sharers_of_owned};
pub use slots::{Slots, spread};
