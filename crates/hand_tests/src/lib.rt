//! Tests of tries by hands on one board: what each answers was worked out by hand.
#![tactic(auto)]

#[cfg(test)]
mod tests;
