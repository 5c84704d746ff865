use pf_model::{Band, Cond, Entry, Op};
use pf_rings::NewStar;
use std::collections::LinkedList;

/// An operation that failed: at which ticket count, for which chunk, and by which condition.
#[derive(Clone, Copy, Debug, PartialEq, Eq)]
pub struct Refusal {
    pub at: u32,
    pub chunk: u16,
    pub op: Op,
    pub cond: Cond,
}

/// A try that found the node held by this actor.
#[derive(Clone, Copy, Debug, PartialEq, Eq)]
pub struct Lost {
    pub node: u32,
    pub holder: u32,
}

/// What was known at a moment of the history: the pairs that were held, and the names that were found
/// dead before.
#[derive(Debug, Drop)]
pub struct Mark {
    pub at: u32,
    pub pairs: LinkedList<NewStar>,
    pub gone: LinkedList<u32>,
}

/// What an actor knows. The first number is its own, and those behind it are spare. A view without a
/// number is that of an actor that was joined to another.
#[derive(Debug, Drop)]
pub struct View {
    pub workers: u32,
    pub first_new: u32,
    pub chunks: u16,
    pub bands: LinkedList<Band>,
    pub numbers: LinkedList<u32>,
    pub allowance: u32,
    pub seen: u32,
    pub held: LinkedList<NewStar>,
    pub unborn: Option<u32>,
    pub entries: LinkedList<Entry>,
    pub refusals: LinkedList<Refusal>,
    pub lost: LinkedList<Lost>,
    pub dead: LinkedList<u32>,
    pub never: LinkedList<u32>,
    pub marks: LinkedList<Mark>,
}
