//! Words, lines and numbers of text files.
//!
//! A line ends at a newline byte or at the end of the text, and a text that ends in a newline has no
//! further line. A `#` begins a comment that lasts to the end of its line. Words are the longest runs
//! of bytes other than space, tab, carriage return and newline, outside comments.
//!
//! [`Lines`] goes over the lines that have a word, [`Words`] over the words of one of them, and
//! [`natural`] and [`whole`] read a word as a number. Nothing is copied: each [`Token`] borrows its
//! bytes from the text. No call takes memory.
#![tactic(auto)]

mod number;
mod scan;
mod text;

pub use number::{NumFault, natural, whole};
pub use text::{Lines, Token, Words};
