//! The copies of a mesh: each chunk has the stars of the nodes that it shares.
use pf_model::Band;
use pf_rings::Star;

/// A star that a chunk has.
#[derive(Debug, Drop)]
pub struct ChunkCopy {
    pub chunk: u16,
    pub star: Star,
}

/// A divided mesh: the number from which new names count up, the bands with the default last, the number of
/// chunks, and the copies by rising chunk and node.
#[derive(Debug, Drop)]
pub struct Copies {
    pub first_new: u32,
    pub bands: Vec<Band>,
    pub chunks: u16,
    pub list: Vec<ChunkCopy>,
}
