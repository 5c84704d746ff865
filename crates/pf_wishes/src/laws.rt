//! Laws of the definitions, each as the contract of a function that does no work.
ghost use Rattle.pf_wishes.specs.Laws.{FirstWishIsByChunk, LookIsOfMesh, NeighboursHaveEdges, NoShorterNoFlip};

/// A law, and no work: on each conforming mesh that has the star and the bands, what the star shows of an edge is
/// its acting chunk, whether it is long and whether it is short, and where the walk goes on.
pub fn look_is_of_mesh()
    ensures { LookIsOfMesh }
{}

/// A law, and no work: the neighbours in a star of a conforming mesh are the nodes to which there is an edge.
pub fn neighbours_have_edges()
    ensures { NeighboursHaveEdges }
{}

/// A law, and no work: where the star of an end doesn't show a shorter diagonal, the flip of the edge doesn't pass.
pub fn no_shorter_no_flip()
    ensures { NoShorterNoFlip }
{}

/// A law, and no work: where each of the chunks is below a number, the chunk of a first wish is.
pub fn first_wish_is_by_chunk()
    ensures { FirstWishIsByChunk }
{}
