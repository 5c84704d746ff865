//! The journal of a mesh's operations: its text, as [`journal_text`] reads and writes it, and its replay.
//!
//! `docs/formats.md` has the format.
#![tactic(auto)]

mod run;

pub use journal_text::{JourErr, journal_reads_again, journal_text, read_journal};
pub use run::{ReplayErr, replay};
