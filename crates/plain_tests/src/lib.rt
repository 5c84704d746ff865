//! Tests of tries over one undivided mesh, whose answers were worked out by hand.
#![tactic(auto)]

#[cfg(test)]
mod tests;
