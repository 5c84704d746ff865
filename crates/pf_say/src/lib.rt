//! What a run says: the names of its files, why it stops, and the texts of faults, conditions and rest lists.
//!
//! A reason to stop, [`Stop`], is one of four kinds: a fault of a file that is read, a limit, an operation that is
//! refused, or what happened to a device. Each kind has its lines here, and each wording stands once.
#![tactic(auto)]

mod condition;
mod fault;
mod line;
mod place;
mod rest;
mod stop;

pub use fault::{Fault, LineFault};
pub use line::put_line;
pub use place::{Place, Stems, ending};
pub use rest::rest_text;
pub use stop::{Stop, Trouble};
