//! Tests of the crates that read and write texts, with values and faults that were worked out by hand
//! from docs/formats.md or come from Shewchuk's Triangle.
#![tactic(auto)]

#[cfg(test)]
mod journals;
#[cfg(test)]
mod numbers;
#[cfg(test)]
mod replays;
#[cfg(test)]
mod tables;
#[cfg(test)]
mod triangles;
