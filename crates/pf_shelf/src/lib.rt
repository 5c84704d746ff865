//! The world outside: named files to read and write, and a stream to print to.
//!
//! [`Shelf`] and [`Sink`] say what every such device promises. [`MemShelf`] and [`MemSink`] stand in memory, tell
//! what they hold and fail where they are told to. [`FileShelf`] and [`StdSink`] are the real ones: no clause says
//! which bytes reach a disk, so they tell nothing, and are trusted. [`read_all`], [`write_all`] and [`say_all`] move
//! whole files and texts over any of them.
#![tactic(auto)]

mod all;
mod count;
mod mem_sink;
mod memory;
mod places;
mod real;
mod shelf;

pub use all::{ReadErr, WriteErr, read_all, say_all, write_all};
pub use mem_sink::MemSink;
pub use memory::{Call, Kind, MemShelf, NoRoom};
pub use real::{FileShelf, StdSink};
pub use shelf::{Shelf, ShelfFault, Sink, SinkFault};
