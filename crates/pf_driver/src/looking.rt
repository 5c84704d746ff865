//! A look at one node: it is held, what its star shows is read, and it is given back.
ghost use Rattle.std.specs.Prelude.{◌≡◌, ◌≢◌, ℕ, ◌<◌, ◌≤◌, [], ◌∷◌, Some, None, Option};
ghost use Rattle.pf_model.specs.Stars as model;
ghost use Rattle.pf_holder.specs.Facts.{LendsAll};
ghost use Rattle.pf_wishes.specs.First.{first_wish_of};
ghost use Rattle.pf_driver.specs.Turns.{TellsLook, IsSeenAs};

use crate::planning::{aim_at, push_star};
use pf_core_model::Asked;
use pf_geom::NoMemory;
use pf_holder::{Hold, Holder};
use pf_model::{Band, Op};
use pf_order::Order;
use pf_rings::{Rings, Star};
use pf_wishes::first_wish;

/// What a look at a node found.
#[derive(Clone, Copy, Debug, PartialEq, Eq)]
pub enum Look {
    /// Its star, with this first wish.
    Seen { wish: Option<Asked> },
    /// Another holds it.
    Away,
    /// It isn't live.
    Absent,
    /// Memory is wanting.
    NoRoom,
}

// The first wish in the star that is lent of a node.
fn wish_shown<R: Rings>(r: &R, bands: &[Band], chunks: &[u16], n: u32) -> Option<Asked>
    ensures { (s : model.Star) → R.lent r.now n ≡ Some s → result ≡ first_wish_of bands.now chunks.now s }
{
    match r.ring(n) {
        Some(ring) => first_wish(bands, chunks, ring.star()),
        None => None,
    }
}

// Says which stars the wish of a star changes, where it has one.
fn aim_wish(star: &Star, wish: Option<Asked>, order: &mut Order) -> Result<(), NoMemory> {
    let Some(asked) = wish else {
        return Ok(());
    };
    match asked.op {
        Op::Flip { a, b } => aim_at(asked.op, star, if a == star.node() { b } else { a }, order),
        Op::Bisect { a, b } => aim_at(asked.op, star, if a == star.node() { b } else { a }, order),
        Op::Contract { u: _, v } => aim_at(asked.op, star, v, order),
    }
}

// Puts what the star that is lent of a node asks for on the lists.
fn push_shown<R: Rings>(
    r: &R,
    bands: &[Band],
    chunks: &[u16],
    n: u32,
    wish: Option<Asked>,
    order: &mut Order,
) -> Result<(), NoMemory> {
    let Some(ring) = r.ring(n) else {
        return Ok(());
    };
    push_star(bands, chunks, ring.star(), order)?;
    aim_wish(ring.star(), wish, order)
}

// What was seen, once the lists have it.
fn seen(pushed: Result<(), NoMemory>, wish: Option<Asked>) -> Look
    ensures { IsSeenAs wish result }
{
    match pushed {
        Ok(()) => Look::Seen { wish },
        Err(NoMemory) => Look::NoRoom,
    }
}

/// Looks at a node, and puts on the lists what its star asks for. It holds nothing afterwards.
pub fn look_at<H: Holder>(h: &mut H, chunks: &[u16], n: u32, order: &mut Order) -> Look
    requires nothing { (H.pairs h.old ≡ []) × (H.unborn h.old ≡ None) × (H.owed h.old ≡ []) }
    requires lends { LendsAll (H.lent h.old) (H.pairs h.old) }
    ensures same { H.same h.old h.new }
    ensures nothing { (H.pairs h.new ≡ []) × (H.unborn h.new ≡ None) × (H.owed h.new ≡ []) }
    ensures lends { LendsAll (H.lent h.new) (H.pairs h.new) }
    ensures kept { (H.entries h.new ≡ H.entries h.old) × (H.allowance h.new ≡ H.allowance h.old) × (H.seen_at h.old ≤ H.seen_at h.new) }
    ensures told { TellsLook chunks.now (H.opening h.old) (H.gained h.old h.new) n result }
{
    match h.hold(n) {
        Hold::Won => {
            let wish = wish_shown(h, h.bands(), chunks, n);
            let pushed = push_shown(h, h.bands(), chunks, n, wish, order);
            h.note(None);
            h.give_back();
            seen(pushed, wish)
        }
        Hold::Lost { holder: _ } => Look::Away,
        Hold::Dead => Look::Absent,
        Hold::Never => Look::Absent,
    }
}
