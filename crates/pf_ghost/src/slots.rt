//! Where copies stand, and how lists of them are spread.
ghost use Rattle.std.specs.Prelude.{◌≡◌, ℕ, List, cond, ◌==◌, Contains};
ghost use Rattle.pf_core_model.specs.declared.sharer.Sharer.{Sharer};
ghost use Rattle.pf_ghost.specs.declared.ready.Listed.{Listed};
ghost use Rattle.pf_ghost.specs.Spread.{named_list, named_node, spread_at};

use crate::ready::{Listed, Ready};
use crate::sharers::Sharers;
use pf_rings::renamed_name;

/// Where the copies of nodes stand, one list for each node.
pub trait Slots {
    ghost use Rattle.std.specs.Prelude.{◌≡◌, ℕ, List, cond, ◌==◌};
    ghost use Rattle.pf_core_model.specs.declared.sharer.Sharer.{Sharer};

    // The copies of each node.
    ghost copies: { Self → ℕ → List Sharer };
    // The node's copies may be put.
    ghost accepts: { Self → ℕ → Type 0 };
    // Nothing but copies changed.
    ghost same: { Self → Self → Type 0 };

    /// Puts the list in the place of the node's copies.
    fn put(&mut self, node: u32, list: Sharers)
        requires accepted { accepts self.old node }
        ensures copies { (n : ℕ) → copies self.new n ≡ cond (n == node) list (copies self.old n) }
        ensures accepts { (n : ℕ) → accepts self.old n → accepts self.new n }
        ensures same { same self.old self.new };

    ghost same_self: { (s : Self) → same s s };

    ghost same_then: { (a b c : Self) → same a b → same b c → same a c };
}

// Puts one list, with the name in the new node's place.
fn put_listed<T: Slots>(listed: Listed, name: u32, to: &mut T)
    requires accepted { T.accepts to.old (named_node name listed) }
    ensures copies { (n : ℕ) → T.copies to.new n ≡ cond (n == named_node name listed) (named_list name listed) (T.copies to.old n) }
    ensures accepts { (n : ℕ) → T.accepts to.old n → T.accepts to.new n }
    ensures same { T.same to.old to.new }
{
    let Listed { node, mut list } = listed;
    list.rename(u32::MAX, name);
    to.put(renamed_name(u32::MAX, name, node), list);
}

/// Puts each list that was prepared, with `name` in the new node's place. It only moves values and takes no
/// memory. Each place so named is accepted.
pub fn spread<T: Slots>(ready: Ready, name: u32, to: &mut T)
    requires accepted { (l : Listed) → Contains ready l → T.accepts to.old (named_node name l) }
    ensures copies { (n : ℕ) → T.copies to.new n ≡ spread_at name ready (T.copies to.old) n }
    ensures accepts { (n : ℕ) → T.accepts to.old n → T.accepts to.new n }
    ensures same { T.same to.old to.new }
{
    let mut lists = ready.into_lists();
    'puts: while let Some(listed) = lists.pop() {
        put_listed(listed, name, to);
    }
}
