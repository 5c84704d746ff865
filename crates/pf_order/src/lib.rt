//! The work lists of a worker: which node or edge it looks at next.
//!
//! Nodes whose star changed come first. Then the newest entry of the first list that isn't empty: edges that are far
//! too long, edges whose flip is shorter, long edges, short edges. Each entry stands at most once in its list. An edge
//! that was bisected too often at one place waits until all lists are empty; an operation near it is tried then that
//! nothing asks for, so that work doesn't go in circles, and where none passes it is bisected and the next operations
//! are taken in random order. What was refused waits until something was done. What another worker stood in the way of is tried
//! again later, a few times also after nothing was done.
//!
//! The lists say only where to look: no clause speaks of them, and their order is shown by tests.
#![tactic(auto)]

mod counts;
mod escapes;
mod lists;
mod order;
mod random;

pub use counts::Place;
pub use escapes::Aim;
pub use lists::EdgeStack;
pub use order::{EdgeTask, Kind, Order, Task};
