//! The way out of a circle: an operation near an edge that was bisected too often, whether it is asked for or not.
use crate::order::EdgeTask;
use crate::random::Random;

// How many operations are tried.
const TRIES: u32 = 24;

// How far a walk goes: up to so many steps, and up to as many more as its place has counts, at most so many.
const STEPS: u32 = 3;

const MORE_STEPS: u32 = 12;

/// What is to be tried where an escape is.
#[derive(Clone, Copy, Debug, PartialEq, Eq)]
pub enum Aim {
    /// So many random steps from edge to edge are left.
    Walk { steps: u32 },
    /// The contraction of its edge, from the end that is looked at onto the other.
    Contract,
    /// The bisection of the longest edge of the triangle there.
    Longest,
    /// The bisection of its edge.
    Bisect,
}

/// A search for an operation near an edge. Each try is some random steps away from it.
#[derive(Clone, Copy, Debug, PartialEq, Eq)]
pub struct Escape {
    // The edge from which each try begins.
    pub from: u32,
    pub to: u32,
    // Where the present try is: at the edge from `at` to `toward`.
    pub at: u32,
    pub toward: u32,
    pub aim: Aim,
    // The number of the present try.
    pub number: u32,
    // How often edges were bisected at the place.
    pub count: u32,
    // Whether the edge is to be bisected where nothing passes.
    pub before: bool,
    // The long edge that comes up again afterwards.
    pub origin: Option<EdgeTask>,
}

// How many steps the next walk has.
fn steps_for(count: u32, random: &mut Random) -> u32 {
    random
        .below(STEPS + count.min(MORE_STEPS))
        .saturating_add(1)
}

impl Escape {
    /// The first try.
    pub fn new(
        from: u32,
        to: u32,
        count: u32,
        before: bool,
        origin: Option<EdgeTask>,
        random: &mut Random,
    ) -> Escape {
        let steps = steps_for(count, random);
        Escape {
            from,
            to,
            at: from,
            toward: to,
            aim: Aim::Walk { steps },
            number: 0,
            count,
            before,
            origin,
        }
    }

    /// The same try, elsewhere.
    pub fn moved(self, at: u32, toward: u32, aim: Aim) -> Escape {
        Escape {
            from: self.from,
            to: self.to,
            at,
            toward,
            aim,
            number: self.number,
            count: self.count,
            before: self.before,
            origin: self.origin,
        }
    }

    /// What the try is once its walk ended: every third is a bisection.
    pub fn next_aim(self) -> Aim {
        if self.number % 3 == 2 {
            Aim::Longest
        } else {
            Aim::Contract
        }
    }

    /// The next try, where one is left.
    pub fn next_try(self, random: &mut Random) -> Option<Escape> {
        if self.number.saturating_add(1) >= TRIES {
            return None;
        }
        let steps = steps_for(self.count, random);
        Some(Escape {
            from: self.from,
            to: self.to,
            at: self.from,
            toward: self.to,
            aim: Aim::Walk { steps },
            number: self.number.saturating_add(1),
            count: self.count,
            before: self.before,
            origin: self.origin,
        })
    }
}
