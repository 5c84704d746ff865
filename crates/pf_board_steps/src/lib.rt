//! The steps of a board, on which many seats step at once, over one table of words and slots: each step on a
//! word is an event of the core, whatever the other seats do.
//!
//! The definitions stand in `specs/`: what each step tells its seat, and the laws. The functions here do no
//! work: each carries, as its contract, a law that the board rests on.
#![tactic(auto)]

mod laws;

pub use laws::{
    birth_is_step, board_closes, board_opens, burial_is_step, commit_is_step, join_is_step,
    made_is_patch, note_is_step, refusal_is_step, release_is_step, seen_is_judged, split_is_step,
    try_is_step,
};
