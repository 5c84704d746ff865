//! A worker's turns: it looks at nodes, and tries the operations that their edges ask for.
#![tactic(auto)]

mod driving;
mod escaping;
mod gate;
mod looking;
mod planning;
mod turns;

pub use driving::{DriveEnd, drive};
pub use gate::{Gate, OpenGate};
