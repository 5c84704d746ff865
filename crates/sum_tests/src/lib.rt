//! Tests of sums over a mesh: areas, Euler numbers, boundaries and covers, before and after operations.
#![tactic(auto)]

#[cfg(test)]
mod tests;
