//! What makes a crew of workers on a board: the parts of the mesh that they begin with, their shares of the budget
//! and their seats, and the turns of all of them in threads.
#![tactic(auto)]

mod crew;
mod jobs;
mod keepers;
mod parts;
mod shares;

pub use crew::split_seats;
pub use jobs::{Job, drive_all};
pub use parts::{Part, parts_of};
pub use shares::share_of;
