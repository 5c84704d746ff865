//! Tests of shelves and sinks: what no clause of pf_shelf says.
#![tactic(auto)]

#[cfg(test)]
mod tests;
