//! Rows of words, of which every file of this project is made: their lines and words taken one after
//! another, each fault with its place, and rows written.
//!
//! A reader says in its fault type, by [`RowFault`], how it calls the faults that any file may have. It
//! takes the lines that have a word from the top and the words of a line from the left, and tests each
//! word whole before it takes the next one. What was read is kept by [`keep`], so that want of memory
//! hides no fault further down.
#![tactic(auto)]

mod fault;
mod read;
mod write;

pub use fault::RowFault;
pub use read::{end_line, end_text, is_word, keep, natural_up_to, needed_row, refused};
pub use write::{push_end, push_number, push_word};
