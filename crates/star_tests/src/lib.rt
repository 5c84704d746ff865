//! Tests of stars, patches and cavities beside whole meshes, over their public calls.
#![tactic(auto)]

#[cfg(test)]
mod tests;
