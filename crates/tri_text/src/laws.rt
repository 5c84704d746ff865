//! Laws about the grammars and the texts.
ghost use Rattle.tri_text.specs.Laws.{WrittenNodesAreReadAgain, WrittenTrianglesAreReadAgain};

/// A law, and no work: the `.node` file of a mesh is read again, by base and points.
pub fn written_nodes_are_read_again()
    ensures { WrittenNodesAreReadAgain }
{}

/// A law, and no work: the `.ele` file of a mesh is read again, by the places of the corners.
pub fn written_triangles_are_read_again()
    ensures { WrittenTrianglesAreReadAgain }
{}
