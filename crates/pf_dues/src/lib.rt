//! What is owed of a node that changed, and copies that are put into its list.
#![tactic(auto)]

mod debts;
mod lists;
mod owing;
mod renaming;
mod same;

pub use debts::Debts;
pub use lists::{due_of, put_listed};
pub use owing::owed_after;
pub use renaming::rename_all;
pub use same::is_same_star;
