//! Laws of the definitions, each as the contract of a function that does no work.
ghost use Rattle.pf_hand.specs.Laws.{AloneLogIsOwn, HandIsRight};

/// A law, and no work: an answer that is backed by what a seat's view came to know is right of the one history.
pub fn hand_is_right()
    ensures { HandIsRight }
{}

/// A law, and no work: the history of a seat that is alone is that of its entries by ticket.
pub fn alone_log_is_own()
    ensures { AloneLogIsOwn }
{}
