//! The rule of the board, and what each step on a word tells the seat that makes it. Contracts alone read these
//! types.
ghost use Rattle.std.specs.Prelude.{◌≡◌, ℕ, List};
ghost use Rattle.pf_core_model.specs.Moves.{left_of, right_of, both_of, spent_view};
ghost use Rattle.pf_core_model.specs.State.{first_view};
ghost use Rattle.pf_board_steps.specs.Plays.{Holds, Tries, Frees, Births, Notes};
ghost use Rattle.pf_locks.specs.Told.{no_opening, no_entry, Looks, FailsNoted, DrawsFor};

use atomic_table::{Join, Play, Split, TableRule};
use pf_core_model::View;
use pf_ghost::Sharers;
use pf_mesh::Mesh;
use std::marker::{Brand, Model, PhantomData};
use std::snapshot::Snapshot;

/// What a board is made of: the mesh, how many operations there may be, and how many seats. Contracts see an
/// opening.
#[derive(Drop)]
pub struct Start {
    mesh: Snapshot<Mesh>,
    budget: u32,
    workers: u32,
}

impl Model for Start {
    ghost use Rattle.pf_core_model.specs.Core.{Opening};

    ghost Value = { Opening };

    ghost view = { λ s. record { mesh = s.mesh.value.mesh; budget = s.budget; workers = s.workers } };
}

impl Start {
    /// The opening with this mesh.
    pub fn of(m: &Mesh, budget: u32, workers: u32) -> Start
        ensures { (result.mesh ≡ m.now.mesh) × (result.budget ≡ budget) × (result.workers ≡ workers) }
    {
        Start {
            mesh: Snapshot::of(m),
            budget,
            workers,
        }
    }
}

/// Words, copies at home and views are sound.
pub struct Sound;

impl TableRule<Sharers, View, Start> for Sound {
    ghost holds = { Holds };

    ghost first = { first_view };
}

/// What a step is about: the board's opening, the entry of a commit but for its ticket, and the number and the
/// share of a split. Each call picks it.
pub trait About {
    ghost use Rattle.std.specs.Prelude.{ℕ};
    ghost use Rattle.pf_model.specs.declared.Entry.{Entry};
    ghost use Rattle.pf_core_model.specs.Core.{Opening};

    ghost opening: { Opening };

    ghost entry: { Entry };

    ghost number: { ℕ };

    ghost share: { ℕ };
}

impl About for Brand {
    ghost opening = { no_opening };

    ghost entry = { no_entry };

    ghost number = { 0 };

    ghost share = { 0 };
}

/// A try for a node.
pub struct Try<J: About> {
    of: PhantomData<J>,
}

impl<J: About> Play<Sharers, View> for Try<J> {
    ghost then = { Tries J.opening };
}

/// A node is put back.
pub struct Free<J: About> {
    of: PhantomData<J>,
}

impl<J: About> Play<Sharers, View> for Free<J> {
    ghost then = { Frees J.opening };
}

/// An unborn node is held as any other.
pub struct Born<J: About> {
    of: PhantomData<J>,
}

impl<J: About> Play<Sharers, View> for Born<J> {
    ghost then = { Births J.opening };
}

/// The count of tickets is read, and a mark made.
pub struct Note<J: About> {
    of: PhantomData<J>,
}

impl<J: About> Play<Sharers, View> for Note<J> {
    ghost then = { Notes J.opening };
}

/// And an operation is refused, which fails.
pub struct Refuse<J: About> {
    of: PhantomData<J>,
}

impl<J: About> Play<Sharers, View> for Refuse<J> {
    ghost then = { FailsNoted J.opening J.entry };
}

/// The count of tickets is read, and the view stays.
pub struct Look<J: About> {
    of: PhantomData<J>,
}

impl<J: About> Play<Sharers, View> for Look<J> {
    ghost then = { Looks J.opening };
}

/// A ticket is drawn for an operation.
pub struct Commit<J: About> {
    of: PhantomData<J>,
}

impl<J: About> Play<Sharers, View> for Commit<J> {
    ghost then = { DrawsFor J.opening J.entry };
}

/// A spare number and a share of the allowance go to a new seat.
pub struct Part<J: About> {
    of: PhantomData<J>,
}

impl<J: About> Split<View> for Part<J> {
    ghost left = { left_of J.number J.share };

    ghost right = { right_of J.number J.share };
}

/// All that another seat knows goes to a seat.
pub struct Both;

impl Join<View> for Both {
    ghost both = { both_of };

    ghost spent = { spent_view };
}
