//! Where a worker passes before each of its turns.

/// A worker passes it once before each turn, with nothing held. It has no meaning: a test may count or hold up
/// turns by it.
pub trait Gate {
    /// The worker is about to begin this turn; turns are counted from 0.
    fn pass(&self, worker: u32, turn: u32);
}

/// A gate that does nothing.
#[derive(Clone, Copy, Debug, PartialEq, Eq)]
pub struct OpenGate;

impl Gate for OpenGate {
    fn pass(&self, worker: u32, turn: u32) {
        let _ = (worker, turn);
    }
}
