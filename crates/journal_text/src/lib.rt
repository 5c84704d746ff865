//! The text of a journal of operations, read and written.
//!
//! `docs/formats.md` has the format. The reader answers the entries that a text says, or the text's
//! first fault: lines are tested from the top, the words of a line from the left.
#![tactic(auto)]

mod fault;
mod laws;
mod read;
mod step;
mod write;

pub use fault::JourErr;
pub use laws::journal_reads_again;
pub use read::read_journal;
pub use write::journal_text;
