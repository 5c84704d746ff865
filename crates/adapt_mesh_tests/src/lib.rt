//! Tests of the adaptation of small meshes, whose answers were worked out by hand.
#![tactic(auto)]

#[cfg(test)]
mod tests;
