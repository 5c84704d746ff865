//! A gate that counts the turns.
use pf_driver::Gate;
use std::cell::Cell;

/// How many turns passed, and whether each had the next number and was the first worker's.
#[derive(Drop)]
pub struct CountingGate {
    turns: Cell<u32>,
    in_order: Cell<bool>,
}

impl CountingGate {
    /// No turn passed.
    pub fn new() -> CountingGate {
        CountingGate {
            turns: Cell::new(0),
            in_order: Cell::new(true),
        }
    }

    /// How many turns passed, where each had the next number.
    pub fn turns(&self) -> Option<u32> {
        if self.in_order.get() {
            Some(self.turns.get())
        } else {
            None
        }
    }
}

impl Gate for CountingGate {
    fn pass(&self, worker: u32, turn: u32) {
        let next = self.turns.get();
        if turn != next || worker != 0 {
            self.in_order.set(false);
        }
        self.turns.set(next.saturating_add(1));
    }
}
