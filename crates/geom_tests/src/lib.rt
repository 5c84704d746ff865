//! Tests of pf_geom over its public calls, with values from outside.
#![tactic(auto)]

#[cfg(test)]
mod tests;
