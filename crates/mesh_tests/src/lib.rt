//! Tests of the mesh over its public calls: what no clause of theirs says.
#![tactic(auto)]

#[cfg(test)]
mod tests;
