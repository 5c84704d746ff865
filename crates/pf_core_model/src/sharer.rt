use pf_rings::Star;

/// A chunk's copy of a node.
#[derive(Debug, Drop)]
pub struct Sharer {
    pub chunk: u16,
    pub star: Star,
}
