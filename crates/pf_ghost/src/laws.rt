//! Laws of the definitions, each as the contract of a function that does no work.
ghost use Rattle.pf_ghost.specs.Spread.{SpreadPutsDue};

/// A law, and no work: what was prepared and is spread gives each changed node the due copy at each chunk
/// that shares it, none at a chunk that ceases to share it, and touches no other node.
pub fn spread_puts_due()
    ensures { SpreadPutsDue }
{}
