//! A seat of a board.
ghost use Rattle.std.specs.Prelude.{◌≡◌, ◌≢◌, ℕ, ◌<◌, ◌≤◌, ◌||◌, true, false, nat_lt, replicate, slice_set};
ghost use Rattle.std.specs.Option.{option_map};
ghost use Rattle.pf_locks.specs.Lists.{lent_in};
ghost use Rattle.pf_locks.specs.Seats.{flag_at, IsLeastSpare};

use crate::kept::{Kept, star_among};
use atomic_table::Seat;
use pf_core_model::View;
use pf_entries::Entries;
use pf_ghost::Sharers;
use pf_rings::Star;

/// A worker's part of a board: its view, the slots in its hands with what it keeps of them, its numbers, and its
/// entries. It is of one board.
#[derive(Drop)]
pub struct BoardSeat {
    /// Its view and the slots in its hands, which contracts alone see.
    pub seat: Seat<Sharers, View>,
    /// Its own number.
    pub number: u32,
    /// How many numbers the board has.
    pub workers: u32,
    /// Which numbers it has: its own, and the spare ones.
    pub numbers: [bool; 64],
    /// How many operations it may still commit.
    pub allowance: u32,
    /// How many tickets it has seen.
    pub seen: u32,
    /// What it committed, with room for what it may still commit.
    pub entries: Entries,
    /// The nodes that it holds, with the lists of their copies, in the order of its slots.
    pub kept: Vec<Kept>,
}

// The least number that is set, but for the own one.
pub fn least_spare(numbers: &[bool; 64], own: u32) -> u32
    requires { (k : ℕ) × (flag_at numbers.now k ≡ true) × (k ≢ own) }
    ensures { (result < 64) × IsLeastSpare numbers.now own result }
{
    for k in 0..64 {
        if numbers[k as usize] && k != own {
            return k;
        }
    }
    unreachable!()
}

// Whether one of the two holds.
fn either(a: bool, b: bool) -> bool
    ensures { result ≡ (a || b) }
{
    a || b
}

// Sets this number, or not.
pub fn put_flag(numbers: &mut [bool; 64], k: usize, value: bool)
    requires { k < 64 }
    ensures { numbers.new ≡ slice_set numbers.old k value }
{
    numbers[k] = value;
}

// This number alone.
pub fn only(number: u32) -> [bool; 64]
    requires { number < 64 }
    ensures { result ≡ slice_set (replicate 64 false) number true }
{
    let mut numbers = [false; 64];
    put_flag(&mut numbers, number as usize, true);
    numbers
}

// The numbers below this one.
pub fn below(workers: u32) -> [bool; 64]
    requires { workers ≤ 64 }
    ensures { (k : ℕ) → flag_at result k ≡ nat_lt k workers }
{
    let mut numbers = [false; 64];
    for k in 0..workers {
        put_flag(&mut numbers, k as usize, true);
    }
    numbers
}

// Sets the numbers that are set in the other, too.
pub fn set_too(numbers: &mut [bool; 64], other: &[bool; 64])
    ensures { (k : ℕ) → flag_at numbers.new k ≡ (flag_at numbers.old k || flag_at other.now k) }
{
    for k in 0..64 {
        let value = either(numbers[k], other[k]);
        put_flag(numbers, k, value);
    }
}

impl BoardSeat {
    /// Its own number.
    pub fn number(&self) -> u32
        ensures { result ≡ self.now.number }
    {
        self.number
    }

    /// How many operations it may still commit.
    pub fn allowance(&self) -> u32
        ensures { result ≡ self.now.allowance }
    {
        self.allowance
    }

    /// How many tickets it has seen.
    pub fn seen(&self) -> u32
        ensures { result ≡ self.now.seen }
    {
        self.seen
    }

    /// Whether it has the numbers of all seats.
    pub fn alone(&self) -> bool
        requires { self.now.workers ≤ 64 }
        ensures all { result ≡ true → (k : ℕ) → k < self.now.workers → flag_at self.now.numbers k ≡ true }
        ensures some { result ≡ false → (k : ℕ) × (k < self.now.workers) × (flag_at self.now.numbers k ≡ false) }
    {
        for k in 0..self.workers {
            if !self.numbers[k as usize] {
                return false;
            }
        }
        true
    }

    /// The star of the first copy of the node that the seat keeps, where it keeps one.
    pub fn kept(&self, n: u32) -> Option<&Star>
        ensures { option_map (λ r. r.now) result ≡ lent_in self.now.kept.items n }
    {
        star_among(&self.kept, n)
    }
}
