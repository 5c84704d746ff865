//! How many names have which word.

/// How many names have which word.
#[derive(Clone, Copy, Debug, PartialEq, Eq)]
pub struct Counts {
    pub free: u32,
    pub held: u32,
    pub dead: u32,
    /// Never live, or unborn.
    pub never: u32,
}
