//! The board: the locks of the nodes, the count of tickets and the copies, in memory that many threads share.
//!
//! A [`Board`] has a word for each name, which says whether its node is free, dead, never live or held, and by
//! whom; one word more for the count of tickets; and for each name one slot with the list of its copies. A
//! thread steps with a [`BoardSeat`] of its own. Each step changes one word, and is one event of the core: no
//! call waits, and none but `new` and `split_seat` takes memory.
//!
//! A seat takes the list of a node that it locks out of its slot at once, keeps it, and lends the first star in
//! it. What it keeps counts as standing in the slot, and goes back before the node is freed or buried.
#![tactic(auto)]

mod board;
mod closing;
mod ending;
mod kept;
mod opening;
mod rule;
mod seat;

pub use board::Board;
pub use closing::{Closed, Open};
pub use ending::{Ended, put_star};
pub use kept::Kept;
pub use rule::Start;
pub use seat::BoardSeat;
