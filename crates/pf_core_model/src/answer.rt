use pf_model::Cond;

/// What an attempt of one operation answers.
#[derive(Clone, Copy, Debug, PartialEq, Eq)]
pub enum Answer {
    /// The operation was made.
    Done { ticket: u32 },
    /// It failed by this condition at a ticket count.
    Refused { at: u32, cond: Cond },
    /// A node of its cavity was held by another actor.
    Busy { at: u32, node: u32, holder: u32 },
    /// An end was dead.
    Gone { at: u32, node: u32 },
    /// An end was never live.
    Unborn { node: u32 },
    /// No allowance is left.
    Spent,
    /// There was no memory.
    Memory,
}
