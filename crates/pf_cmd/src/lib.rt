//! The commands of the program, over any shelf of files and any sink.
//!
//! One call, [`run`], does all that the program does. What a command works on is a function of the files as they are when it
//! begins, or their first refusal; what it gives of that stands in `specs/Commands.antt`. Texts are made ready before the
//! first write.
#![tactic(auto)]

mod adapt;
mod check;
mod chunks;
mod demo;
mod fault;
mod input;
mod output;
mod perform;
mod program;
mod replay;
mod say;
mod trace;
mod words;

pub use program::run;
