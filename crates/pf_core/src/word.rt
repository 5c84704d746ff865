//! What is said of a name.

/// What a name's word says.
#[derive(Clone, Copy, Debug, PartialEq, Eq)]
pub enum Word {
    /// The node is live, and nobody holds it.
    Free,
    /// No node had the name yet, or it is that of a new node whose copies still have to be put.
    Never,
    /// The node isn't live any more.
    Dead,
    /// The actor of this number holds the node.
    Held { by: u32 },
}
