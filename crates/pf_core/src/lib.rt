//! The pure core: one mesh, many actors, and one event after another.
//!
//! A [`State`] has for each name its word, the list of its copies and the star that its holder has of it; for
//! each number what its actor has; and the entries by ticket. [`step`] takes one event: it changes what the
//! event says, or nothing where the event's guard fails.
#![tactic(auto)]

mod back;
mod commit;
mod counts;
mod events;
mod judging;
mod lent;
mod lock;
mod note;
mod numbers;
mod opening;
mod part;
mod push;
mod reading;
mod state;
mod tables;
mod word;

pub use counts::Counts;
pub use events::step;
pub use pf_core_model::{Asked, Event, Verdict};
pub use state::State;
pub use word::Word;
