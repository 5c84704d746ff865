//! The holder over a board: a seat of a board that many workers share, held by one of them.
//!
//! A `Hand` tries for nodes at the board, lends the stars of what it holds, and commits operations. Once an
//! operation is committed it puts all copies at once, so it owes nothing between two calls.
#![tactic(auto)]

mod free;
mod hand;
mod laws;
mod make;
mod next;
mod put;

pub use hand::Hand;
pub use laws::{alone_log_is_own, hand_is_right};
