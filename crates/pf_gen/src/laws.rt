//! Laws of the definitions, each as the contract of a function that does no work.

ghost use Rattle.pf_gen.specs.Laws.{GridIsBuilt, GridIsFit};

/// A law, and no work: the lists of a grid have no fault, so that a mesh is built of them.
pub fn grid_is_built()
    ensures { GridIsBuilt }
{}

/// A law, and no work: the lists of a grid are as long as its cells say, its points are in range, each
/// owner is one of its chunks, and its last band holds every point.
pub fn grid_is_fit()
    ensures { GridIsFit }
{}
