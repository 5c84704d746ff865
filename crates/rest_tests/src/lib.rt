//! Tests of rest lists, on stars that are read from a list of edges.
#![tactic(auto)]

#[cfg(test)]
mod tests;
