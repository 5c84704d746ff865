//! One event after another.
ghost use Rattle.std.specs.Prelude.{◌≡◌, IfOk, OnErr, true};
ghost use Rattle.pf_core_model.specs.State.{actor_of as actor_in};
ghost use Rattle.pf_core.specs.Tables.{is_lead};
ghost use Rattle.pf_core.specs.Shown.{IsShownState, IsAct, IsStep, Stays};

use crate::back::{bear, bury, release};
use crate::commit::commit;
use crate::lock::{lock, lose};
use crate::note::{look, refuse};
use crate::numbers::{join, split};
use crate::push::push;
use crate::reading::is_actor;
use crate::state::State;
use pf_core_model::{Event, Verdict};
use pf_geom::NoMemory;
use std::alloc::Global;

// Whose event it is.
fn actor_of(e: Event) -> u32
    ensures { result ≡ actor_in e }
{
    match e {
        Event::Split { a, .. } => a,
        Event::Lock { a, .. } => a,
        Event::Lost { a, .. } => a,
        Event::Note { a, .. } => a,
        Event::Commit { a, .. } => a,
        Event::Push { a, .. } => a,
        Event::Birth { a, .. } => a,
        Event::Release { a, .. } => a,
        Event::Bury { a, .. } => a,
        Event::Join { a, .. } => a,
    }
}

// An event of an actor that there is.
fn act(alloc: Global, s: &mut State, e: Event) -> Result<Verdict, NoMemory>
    requires sound { IsShownState s.old }
    requires actor { is_lead s.old.seats.items (actor_in e) ≡ true }
    ensures took { IfOk result (λ v. IsAct e s.old v s.new) }
    ensures same { OnErr result (Stays s.old s.new) }
{
    match e {
        Event::Split { a, b, share } => Ok(split(alloc, s, a, b, share)),
        Event::Lock { a, n } => lock(alloc, s, a, n),
        Event::Lost { a, n } => Ok(lose(s, a, n)),
        Event::Note { a, asked: None } => Ok(look(s, a)),
        Event::Note {
            a,
            asked: Some(asked),
        } => Ok(refuse(s, a, asked)),
        Event::Commit { a, chunk, op } => commit(alloc, s, a, chunk, op),
        Event::Push { a, chunk, n } => push(alloc, s, a, chunk, n),
        Event::Birth { a, n } => Ok(bear(s, a, n)),
        Event::Release { a, n } => Ok(release(s, a, n)),
        Event::Bury { a, n } => Ok(bury(s, a, n)),
        Event::Join { a, b } => Ok(join(s, a, b)),
    }
}

/// Takes one event. It is ignored exactly where its guard fails, and changes nothing then. Want of memory is
/// the only failure, and changes nothing either.
///
/// The value of a verdict is the ticket that a `Commit` drew, the count of tickets that a `Note` saw, the holder
/// that a `Lost` found, and none of any other event. A step takes time by how many triangles the nodes at hand
/// have, however large the state is.
pub fn step(alloc: Global, s: &mut State, e: Event) -> Result<Verdict, NoMemory>
    requires sound { IsShownState s.old }
    ensures took { IfOk result (λ v. IsStep e s.old v s.new) }
    ensures same { OnErr result (Stays s.old s.new) }
{
    if !is_actor(&s.seats, actor_of(e)) {
        return Ok(Verdict::Ignored);
    }
    act(alloc, s, e)
}
