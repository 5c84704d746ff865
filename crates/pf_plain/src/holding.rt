//! Nodes that are held, and what is committed on them.
ghost use Rattle.std.specs.Prelude.{◌≡◌, ◌<◌, ◌≤◌, [], ◌∷◌, ◌++◌, vec_len, vec_capacity, nat_lt, ◌||◌, is_some};
ghost use Rattle.pf_model.specs.Stars.{star_of};
ghost use Rattle.pf_core_model.specs.Cavity as spec;
ghost use Rattle.pf_core_model.specs.Cavity.{is_made};
ghost use Rattle.pf_core_model.specs.Core.{mesh_after};
ghost use Rattle.pf_plain.specs.Plains as shown;
ghost use Rattle.pf_plain.specs.Plains.{has_node, opening_of};

use crate::plain::Plain;
use crate::stars::{has_star, spread, star_at};
use pf_core_model::Asked;
use pf_ghost::{Ready, spread_puts_due};
use pf_holder::{Hold, Holder};
use pf_model::{Band, Entry, Op};
use pf_rings::{Ring, Rings};

// The operation makes a node.
fn makes_node(op: Op) -> bool
    ensures { result ≡ spec.makes_node op }
{
    matches!(op, Op::Bisect { .. })
}

// The entry at this place makes a node.
fn makes_at(journal: &[Entry], k: usize) -> bool
    ensures { result ≡ shown.makes_at journal.now k }
{
    match journal.get(k) {
        Some(entry) => makes_node(entry.op),
        None => false,
    }
}

// The node is among these.
fn is_held(nodes: &[u32], n: u32) -> bool
    ensures { result ≡ has_node nodes.now n }
{
    for k in nodes {
        if *k == n {
            return true;
        }
    }
    false
}

// Adds an entry, for which there is room.
fn push_entry(journal: &mut Vec<Entry>, entry: Entry)
    requires { vec_len journal.old < vec_capacity journal.old }
    ensures pushed { journal.new.items ≡ journal.old.items ++ entry ∷ [] }
    ensures capacity { vec_capacity journal.old ≤ vec_capacity journal.new }
{
    journal.push(entry).unwrap();
}

impl Plain {
    // Whether the node is live.
    fn is_live(&self, n: u32) -> bool
        ensures { result ≡ is_some (star_of (mesh_after (opening_of self.now.mesh.mesh self.now.budget) self.now.journal.items) n) }
    {
        has_star(&self.stars, n)
    }

    // Whether the name was read, or made by an entry.
    fn is_known(&self, n: u32) -> bool
        ensures { result ≡ (nat_lt n self.now.mesh.mesh.first_new || is_made self.now.mesh.mesh.first_new self.now.journal.items n) }
    {
        let first_new = self.mesh.first_new();
        n < first_new || makes_at(&self.journal, (n - first_new) as usize)
    }
}

impl Rings for Plain {
    ghost use Rattle.pf_star_model.specs.Lent.{star_held};
    ghost use Rattle.pf_core_model.specs.Core.{mesh_after};
    ghost use Rattle.pf_plain.specs.Plains.{opening_of, pairs_at};

    ghost lent = { λ h. star_held (pairs_at (mesh_after (opening_of h.mesh.mesh h.budget) h.journal.items) h.nodes.items) };

    fn ring(&self, n: u32) -> Option<Ring<'_>> {
        if is_held(self.nodes.as_slice(), n) {
            match star_at(&self.stars, n) {
                Some(star) => Some(Ring::of(star)),
                None => None,
            }
        } else {
            None
        }
    }
}

impl Holder for Plain {
    ghost use Rattle.std.specs.Prelude.{◌≡◌, ℕ, ◌<◌, [], List, length, reverse, None};
    ghost use Rattle.pf_core_model.specs.Core.{mesh_after};
    ghost use Rattle.pf_plain.specs.Plains.{opening_of, pairs_at, Follows, IsTrue};
    ghost use Rattle.pf_plain.specs.PlainLaws.{follows_self, follows_then, stays, gained_before, agrees_merely, near_merely, knows_merely};

    ghost opening = { λ h. opening_of h.mesh.mesh h.budget };

    ghost seen_at = { λ h. length h.journal.items };

    ghost allowance = { λ h. h.allowance };

    ghost pairs = { λ h. pairs_at (mesh_after (opening_of h.mesh.mesh h.budget) h.journal.items) h.nodes.items };

    ghost unborn = { λ h. None };

    ghost owed = { λ h. [] };

    ghost entries = { λ h. reverse h.journal.items };

    ghost alone = { λ h. Unit {0} };

    ghost same = { λ g h. Follows (opening_of g.mesh.mesh g.budget) (opening_of h.mesh.mesh h.budget) g.journal.items h.journal.items };

    ghost gained = { λ g h x. IsTrue (opening_of h.mesh.mesh h.budget) g.journal.items h.journal.items x };

    fn held(&self) -> usize {
        self.nodes.len()
    }

    fn allow(&self) -> u32 {
        self.allowance
    }

    fn seen(&self) -> u32 {
        self.budget - self.allowance
    }

    fn first_new(&self) -> u32 {
        self.mesh.first_new()
    }

    fn bands(&self) -> &[Band] {
        self.mesh.bands()
    }

    fn chunks(&self) -> u16 {
        self.mesh.chunks()
    }

    fn hold(&mut self, n: u32) -> Hold {
        if self.is_live(n) {
            self.nodes.insert(0, n);
            Hold::Won
        } else if self.is_known(n) {
            Hold::Dead
        } else {
            Hold::Never
        }
    }

    fn note(&mut self, asked: Option<Asked>) -> u32 {
        let _ = asked;
        self.seen()
    }

    fn commit(&mut self, chunk: u16, op: Op, ready: Ready) -> u32 {
        spread_puts_due();
        let ticket = self.seen();
        let name = self.mesh.first_new() + ticket;
        spread(&mut self.stars, ready, name);
        push_entry(&mut self.journal, Entry { ticket, chunk, op });
        self.allowance -= 1;
        ticket
    }

    fn give_back(&mut self) {
        self.nodes.clear();
    }

    ghost same_self = { λ h. follows_self (opening_of h.mesh.mesh h.budget) h.journal.items };

    ghost same_then = { λ a b c s t. follows_then (opening_of a.mesh.mesh a.budget) (opening_of b.mesh.mesh b.budget) (opening_of c.mesh.mesh c.budget) a.journal.items b.journal.items c.journal.items s t };

    ghost same_opening = { λ a b s. s.0 };

    ghost same_alone = { λ a b s h. tt };

    ghost gained_stays = { λ a b c x g s. stays (opening_of b.mesh.mesh b.budget) (opening_of c.mesh.mesh c.budget) a.journal.items b.journal.items c.journal.items c.nodes.items c.allowance x c.plain g s };

    ghost gained_since = { λ a b c x s g. gained_before (opening_of a.mesh.mesh a.budget) (opening_of b.mesh.mesh b.budget) (opening_of c.mesh.mesh c.budget) a.journal.items b.journal.items c.journal.items x s g };

    ghost pairs_agree = { λ h. agrees_merely (opening_of h.mesh.mesh h.budget) h.journal.items h.nodes.items h.allowance h.plain };

    ghost pairs_near = { λ h n i. near_merely (opening_of h.mesh.mesh h.budget) h.journal.items h.nodes.items h.allowance h.plain n i };

    ghost alone_knows = { λ h a. knows_merely (opening_of h.mesh.mesh h.budget) h.journal.items h.nodes.items h.allowance h.plain };
}
