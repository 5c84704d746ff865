//! What is made of a few held stars, beside the mesh after the operation.
mod dice;
mod grown;
mod judges;
mod patches;
mod random;
mod rings;
mod rows;
