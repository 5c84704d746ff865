//! Tests of the core over its public calls: events whose copies, words and entries were worked out by hand.
#![tactic(auto)]

#[cfg(test)]
mod tests;
