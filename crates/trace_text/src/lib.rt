//! The text of a trace: what workers do, event by event, read; and the text of what became of it, written.
//!
//! `docs/formats.md` has the formats. The reader answers the events that a text says, or the first line that
//! is in no form.
#![tactic(auto)]

mod event;
mod fault;
mod part;
mod read;
mod write;

pub use fault::TraceErr;
pub use read::{Trace, read_trace};
pub use write::{Closing, push_closing, push_verdict};
