//! Which node is given back next.
ghost use Rattle.std.specs.Prelude.{◌≡◌, is_some};
ghost use Rattle.pf_core_model.specs.Sharers.{kept_in};
ghost use Rattle.pf_hand.specs.Next.{first_kept};

use pf_ghost::Sharers;
use pf_locks::Kept;

/// A node that is kept, and whether it has a copy.
#[derive(Clone, Copy)]
pub struct Next {
    pub node: u32,
    pub live: bool,
}

// Whether there is a copy.
fn has_copy(list: &Sharers) -> bool
    ensures { result ≡ is_some (kept_in list.now) }
{
    for _ in list.list() {
        return true;
    }
    false
}

/// The first node that is kept.
pub fn next_kept(kept: &[Kept]) -> Option<Next>
    ensures { result ≡ first_kept kept.now }
{
    for k in kept {
        return Some(Next {
            node: k.node,
            live: has_copy(&k.list),
        });
    }
    None
}
