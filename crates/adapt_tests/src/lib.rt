//! Tests of whole adaptations over files in memory: what no clause of pf_cmd says.
#![tactic(auto)]

#[cfg(test)]
mod tests;
