//! Lists that an operation is judged and performed by.
use crate::change::Change;
use crate::star::Spokes;
use arrayvec::ArrayVec;

/// Names of neighbours: the rights and lefts of a star.
pub type Names = ArrayVec<u32, 120>;

/// Lists that the contraction of a node is judged by.
#[derive(Drop)]
pub struct StarLists {
    /// The star of the node.
    pub star: Spokes,
    /// The neighbours of the node.
    pub names: Names,
}

impl StarLists {
    /// Empty lists.
    pub fn new() -> StarLists {
        StarLists {
            star: Spokes::new(),
            names: Names::new(),
        }
    }
}

/// Lists that an operation is judged and performed by. They take some kilobytes and no memory, and a run
/// makes them once.
#[derive(Drop)]
pub struct Scratch {
    pub lists: StarLists,
    pub change: Change,
}

impl Scratch {
    /// Empty lists.
    pub fn new() -> Scratch {
        Scratch {
            lists: StarLists::new(),
            change: Change::new(),
        }
    }
}
