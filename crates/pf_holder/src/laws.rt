//! Laws of the definitions, each as the contract of a function that does no work.
ghost use Rattle.pf_holder.specs.Laws.{BackedIsRight};

/// A law, and no work: an answer that is backed by what the caller's view came to know is right of the one history.
pub fn backed_is_right()
    ensures { BackedIsRight }
{}
