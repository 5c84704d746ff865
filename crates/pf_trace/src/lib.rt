//! Traces, run: what workers do is written event by event, and answered by what becomes of each.
//!
//! The text of a trace and that of its answer are those of `trace_text`; here the events take place, one after
//! another, on the state that the workers share.
#![tactic(auto)]

mod answer;
mod closing;
mod events;

pub use answer::run_trace;
pub use trace_text::TraceErr;
