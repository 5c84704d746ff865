//! What is kept of each name and of each number.

use crate::word::Word;
use pf_dues::Debts;
use pf_ghost::Sharers;
use pf_rings::Star;

/// What is kept of a name.
#[derive(Debug, Drop)]
pub struct Node {
    pub word: Word,
    // The copies.
    pub list: Sharers,
    // What its holder has of it, where it is held.
    pub star: Option<Star>,
}

/// What is kept of a number.
#[derive(Debug, Drop)]
pub struct Seat {
    // The actor that has this number: the number itself where it is an actor's own.
    pub lead: u32,
    // How many operations it may still make.
    pub allowance: u32,
    // How many nodes it holds, and which of them has no star.
    pub held: u32,
    pub absent: Option<u32>,
    // The new node that it holds, until the node's copies are put.
    pub unborn: Option<u32>,
    // The copies that it owes.
    pub owed: Debts,
}
