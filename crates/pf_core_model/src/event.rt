use pf_model::Op;

/// An operation by a chunk, of which it is asked whether it passes.
#[derive(Clone, Copy, Debug, PartialEq, Eq)]
pub struct Asked {
    pub chunk: u16,
    pub op: Op,
}

/// A chunk's copy of a node that its holder has still to put.
#[derive(Clone, Copy, Debug, PartialEq, Eq)]
pub struct Owed {
    pub chunk: u16,
    pub node: u32,
}

/// One act of the actor `a`.
#[derive(Clone, Copy, Debug, PartialEq, Eq)]
pub enum Event {
    /// The spare number `b` becomes an actor of its own, with a share of the allowance.
    Split { a: u32, b: u32, share: u32 },
    /// A try for the node `n`, which is free.
    Lock { a: u32, n: u32 },
    /// A try for the node `n`, which another actor holds.
    Lost { a: u32, n: u32 },
    /// A look at the ticket count, maybe with an operation that is judged to fail.
    Note { a: u32, asked: Option<Asked> },
    /// The operation is made.
    Commit { a: u32, chunk: u16, op: Op },
    /// A copy that is owed is put.
    Push { a: u32, chunk: u16, n: u32 },
    /// The new node of a bisection is held as any other.
    Birth { a: u32, n: u32 },
    /// A live node is put back.
    Release { a: u32, n: u32 },
    /// A node that isn't live is put back.
    Bury { a: u32, n: u32 },
    /// What the actor `b` has goes to `a`.
    Join { a: u32, b: u32 },
}

/// What became of an event.
#[derive(Clone, Copy, Debug, PartialEq, Eq)]
pub enum Verdict {
    /// It took place, and gave a number or none.
    Taken { value: Option<u32> },
    /// Its guard failed, and nothing changed.
    Ignored,
}
