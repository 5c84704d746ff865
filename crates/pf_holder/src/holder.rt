ghost use Rattle.std.specs.Prelude.{◌≡◌, ◌≢◌, ℕ, ◌+◌, ◌<◌, ◌≤◌, [], ◌∷◌, List, length, Option, None};
ghost use Rattle.pf_model.specs.declared.Entry.{Entry};
ghost use Rattle.pf_model.specs.Mesh.{Undivided};
ghost use Rattle.pf_model.specs.Stars.{Star, star_of};
ghost use Rattle.pf_star_model.specs.Lent.{Held};
ghost use Rattle.pf_core_model.specs.declared.event.Owed.{Owed};
ghost use Rattle.pf_core_model.specs.Lists.{In};
ghost use Rattle.pf_core_model.specs.Core.{Opening, names_of, nodes_in};
ghost use Rattle.pf_core_model.specs.Right.{Gain, dead};
ghost use Rattle.pf_holder.specs.Facts.{LendsAll, AreSeen, IsJudged, HoldsCavity, TellsHold, IsNearLent, IsFoundLive, TellsAlone, IsMarked, IsAskable, TellsAsked, mesh_alone, KnowsAll};
ghost use Rattle.pf_holder.specs.Prepared.{IsReady};

use pf_core_model::Asked;
use pf_ghost::Ready;
use pf_model::{Band, Op};
use pf_rings::Rings;

/// What a try for a node found.
#[derive(Clone, Copy, Debug, PartialEq, Eq)]
pub enum Hold {
    /// It was free, and is held now.
    Won,
    /// Another held it.
    Lost { holder: u32 },
    /// It is no longer live.
    Dead,
    /// It was never live, or is none of the names.
    Never,
}

/// Holds nodes of one mesh, lends their stars, and commits operations on them. None of its calls takes memory.
///
/// Contracts see the opening mesh and the budget, what it holds, committed and may still commit, and what it
/// came to know between two of its values: refusals, lost tries, names found dead or never live, and marks of
/// what was held at a moment.
pub trait Holder: Rings {
    ghost use Rattle.std.specs.Prelude.{◌≡◌, ◌≢◌, ℕ, ◌+◌, ◌<◌, ◌≤◌, [], ◌∷◌, List, length, Option, None};
    ghost use Rattle.pf_model.specs.declared.Entry.{Entry};
    ghost use Rattle.pf_model.specs.Mesh.{Undivided};
    ghost use Rattle.pf_model.specs.Stars.{Star, star_of};
    ghost use Rattle.pf_star_model.specs.Lent.{Held};
    ghost use Rattle.pf_core_model.specs.declared.event.Owed.{Owed};
    ghost use Rattle.pf_core_model.specs.Lists.{In};
    ghost use Rattle.pf_core_model.specs.Core.{Opening, names_of, nodes_in};
    ghost use Rattle.pf_core_model.specs.Right.{Gain, dead};
    ghost use Rattle.pf_holder.specs.Facts.{LendsAll, AreSeen, IsJudged, HoldsCavity, TellsHold, IsNearLent, IsFoundLive, TellsAlone, IsMarked, IsAskable, TellsAsked, mesh_alone, KnowsAll};
    ghost use Rattle.pf_holder.specs.Prepared.{IsReady};

    // The opening mesh, and how many operations there may be.
    ghost opening: { Self → Opening };
    // How many tickets it has seen.
    ghost seen_at: { Self → ℕ };
    // How many operations it may still commit.
    ghost allowance: { Self → ℕ };
    // What it holds, the latest first.
    ghost pairs: { Self → List Held };
    // The node that it holds unborn.
    ghost unborn: { Self → Option ℕ };
    // The copies that are behind their nodes.
    ghost owed: { Self → List Owed };
    // What it committed, the latest first.
    ghost entries: { Self → List Entry };
    // No other actor exists.
    ghost alone: { Self → Type 0 };
    // It is the same holder.
    ghost same: { Self → Self → Type 0 };
    // Between the two values this came to be known.
    ghost gained: { Self → Self → Gain → Type 0 };

    /// How many nodes are held.
    fn held(&self) -> usize
        ensures { result ≡ length (pairs self.now) };

    /// How many operations it may still commit.
    fn allow(&self) -> u32
        ensures { result ≡ allowance self.now };

    /// How many tickets it has seen.
    fn seen(&self) -> u32
        ensures { result ≡ seen_at self.now };

    /// The first name that was given to a new node.
    fn first_new(&self) -> u32
        ensures { result ≡ (opening self.now).mesh.first_new };

    /// The rows of the size table, with the default last.
    fn bands(&self) -> &[Band]
        ensures { result.now ≡ (opening self.now).mesh.bands };

    /// The number of chunks.
    fn chunks(&self) -> u16
        ensures { result ≡ (opening self.now).mesh.chunks };

    /// Tries for a node that it doesn't hold, while it holds fewer than 65. A node that is won is lent, beside
    /// those lent before, until the next `commit` or `give_back`. A neighbour in a star that is lent is won, or
    /// held by another.
    fn hold(&mut self, n: u32) -> Hold
        requires away { In n (nodes_in (pairs self.old)) → ⊥ }
        requires room { length (pairs self.old) < 65 }
        requires lends { LendsAll (Self.lent self.old) (pairs self.old) }
        ensures same { same self.old self.new }
        ensures told { TellsHold (names_of (opening self.old)) n (pairs self.old) (pairs self.new) (gained self.old self.new) result }
        ensures lends { LendsAll (Self.lent self.new) (pairs self.new) }
        ensures near { IsNearLent (Self.lent self.old) n → IsFoundLive result }
        ensures kept { (entries self.new ≡ entries self.old) × (allowance self.new ≡ allowance self.old) × (seen_at self.old ≤ seen_at self.new) }
        ensures others { (unborn self.new ≡ unborn self.old) × (owed self.new ≡ owed self.old) }
        ensures alone { alone self.old → TellsAlone (star_of (mesh_alone (opening self.old) (entries self.old)) n) result };

    /// The number of tickets that are drawn, which is seen then. What is held is true of the mesh at that moment,
    /// and so is that what is asked fails there, as it does by what is held.
    fn note(&mut self, asked: Option<Asked>) -> u32
        requires fails { IsAskable (opening self.old).mesh.bands (pairs self.old) asked }
        ensures same { same self.old self.new }
        ensures seen { (seen_at self.old ≤ result) × (seen_at self.new ≡ result) }
        ensures mark { IsMarked result (pairs self.old) (gained self.old self.new) (λ n. (g : Self) × gained g self.old (dead n)) }
        ensures told { TellsAsked result (opening self.old).mesh.bands (pairs self.old) (gained self.old self.new) asked }
        ensures kept { (entries self.new ≡ entries self.old) × (allowance self.new ≡ allowance self.old) }
        ensures others { (pairs self.new ≡ pairs self.old) × (Self.lent self.new ≡ Self.lent self.old) × (unborn self.new ≡ unborn self.old) × (owed self.new ≡ owed self.old) };

    /// Makes an operation that passes, whose cavity is held and whose copies were prepared, and answers its
    /// ticket. It can't be refused.
    fn commit(&mut self, chunk: u16, op: Op, ready: Ready) -> u32
        requires rich { 0 < allowance self.old }
        requires clear { (unborn self.old ≡ None) × (owed self.old ≡ []) }
        requires lends { LendsAll (Self.lent self.old) (pairs self.old) }
        requires passes { IsJudged (opening self.old).mesh.bands (pairs self.old) chunk op None }
        requires cavity { HoldsCavity (opening self.old).mesh.bands (pairs self.old) chunk op }
        requires ready { IsReady (Self.lent self.old) (opening self.old).mesh.chunks op ready }
        ensures same { same self.old self.new }
        ensures seen { (seen_at self.old ≤ result) × (result < seen_at self.new) }
        ensures kept { (entries self.new ≡ record { ticket = result; chunk = chunk; op = op } ∷ entries self.old) × (allowance self.new + 1 ≡ allowance self.old) }
        ensures others { (unborn self.new ≡ None) × (owed self.new ≡ []) };

    /// Gives back each node that it holds.
    fn give_back(&mut self)
        ensures same { same self.old self.new }
        ensures nothing { (pairs self.new ≡ []) × (unborn self.new ≡ None) × (owed self.new ≡ []) }
        ensures lends { LendsAll (Self.lent self.new) (pairs self.new) }
        ensures kept { (entries self.new ≡ entries self.old) × (allowance self.new ≡ allowance self.old) × (seen_at self.old ≤ seen_at self.new) };

    ghost same_self: { (h : Self) → same h h };

    ghost same_then: { (a b c : Self) → same a b → same b c → same a c };

    ghost same_opening: { (a b : Self) → same a b → opening b ≡ opening a };

    ghost same_alone: { (a b : Self) → same a b → alone a → alone b };

    ghost gained_stays: { (a b c : Self) (x : Gain) → gained a b x → same b c → gained a c x };

    ghost gained_since: { (a b c : Self) (x : Gain) → same a b → gained b c x → gained a c x };

    ghost pairs_agree: { (h : Self) → ∥ AreSeen (opening h) (pairs h) ∥₁ };

    ghost pairs_near: { (h : Self) (n : ℕ) → In n (nodes_in (pairs h)) → n < names_of (opening h) };

    ghost alone_knows: { (h : Self) → alone h → ∥ KnowsAll (opening h) (pairs h) (allowance h) (entries h) ∥₁ };
}
