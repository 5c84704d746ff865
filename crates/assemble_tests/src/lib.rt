//! Tests of a mesh that is divided, and put together again from its copies.
#![tactic(auto)]

#[cfg(test)]
mod tests;
