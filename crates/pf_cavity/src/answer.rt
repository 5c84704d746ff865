//! What `need` answers.

/// What is to be held next.
#[derive(Clone, Copy, Debug, PartialEq, Eq)]
pub enum Need {
    /// This node of the cavity isn't held.
    Hold { node: u32 },
    /// Each node of the cavity is held.
    Whole,
}
