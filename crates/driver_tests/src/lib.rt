//! Tests of a worker's turns over one undivided mesh, whose journals were worked out by hand.
#![tactic(auto)]

#[cfg(test)]
mod circle;
#[cfg(test)]
mod gate;
#[cfg(test)]
mod tests;
