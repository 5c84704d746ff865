//! Tests of the crates that read, run and answer traces, with values that were worked out by hand from
//! docs/formats.md.
#![tactic(auto)]

#[cfg(test)]
mod texts;
