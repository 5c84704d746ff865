//! Tests of the board over its public calls: two seats on one board, whose answers were worked out by hand.
#![tactic(auto)]

#[cfg(test)]
mod seats;
#[cfg(test)]
mod square;
#[cfg(test)]
mod tests;
