//! Tests of the words of command lines: the happy path of each command, and what stands where.
#![tactic(auto)]

#[cfg(test)]
mod tests;
