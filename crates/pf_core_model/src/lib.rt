//! The core of many actors on one mesh: what each of them knows, when that is sound, and what each event
//! makes of it.
//!
//! The definitions stand in `specs/`. The functions here do no work: each carries, as its contract, a law
//! of the definitions that the crates above rest on.
#![tactic(auto)]

mod answer;
mod event;
mod laws;
mod sharer;
mod view;

pub use answer::Answer;
pub use event::{Asked, Event, Owed, Verdict};
pub use laws::{
    alone_holds_live, alone_knows_all, alone_shows_copies, answers_are_right, birth_keeps_sound,
    bury_keeps_sound, closes_with_copies, commit_keeps_sound, due_list_is_sharers,
    events_show_one_mesh, facts_last, find_keeps_sound, first_knows, free_part_is_of_mesh,
    gains_are_true, gone_stays_gone, held_pairs_agree, history_is_of_views, holder_is_number,
    join_keeps_sound, join_knows, judged_keeps_sound, keeps_outside, later_was_never,
    live_is_below, lock_keeps_sound, lost_keeps_sound, made_keeps_sound, marks_agree,
    neighbour_is_near, never_keeps_sound, note_keeps_sound, opens_sound, opens_with_homes,
    others_hold, owed_is_lacking, paid_is_shared, refusal_keeps_sound, release_keeps_sound,
    seat_knows, sharers_are_due, sharers_are_listed, sound_shows_one_mesh, split_keeps_sound,
    split_knows, step_grows_history, step_keeps_sound, ticket_is_new, truth_is_right,
};
pub use sharer::Sharer;
pub use view::{Lost, Mark, Refusal, View};
