//! Numbers that become actors, and actors that are joined.
ghost use Rattle.std.specs.Prelude.{◌≡◌, ◌<◌, ◌≤◌, ◌+◌, ◌-◌, ◌^◌, ◌==◌, ◌&&◌, not, nat_lt, length, slice_set, map, true};
ghost use Rattle.pf_core_model.specs.declared.event.Event.{Event};
ghost use Rattle.pf_core.specs.Tables.{seat_at, is_lead, is_clear_seat, with_allowance, first_seat, led_by};
ghost use Rattle.pf_core.specs.Gates.{is_spare, can_split, has_none, can_join};
ghost use Rattle.pf_core.specs.Shown.{IsShownState, IsAct};

use crate::reading::{is_actor, is_clear};
use crate::state::State;
use crate::tables::Seat;
use pf_core_model::Verdict;
use pf_dues::Debts;
use std::alloc::Global;

// Whether `b` is led by `a`.
fn is_led(seats: &[Seat], a: u32, b: u32) -> bool
    ensures { result ≡ (nat_lt b (length seats.now) && ((seat_at seats.now b).lead == a)) }
{
    match seats.get(b as usize) {
        Some(seat) => seat.lead == a,
        None => false,
    }
}

// Whether `b` is a spare number of `a`.
fn is_spare_of(seats: &[Seat], a: u32, b: u32) -> bool
    ensures { result ≡ is_spare seats.now a b }
{
    is_led(seats, a, b) && b != a
}

// Whether the actor is clear, and holds nothing.
fn is_idle(seat: &Seat) -> bool
    ensures { result ≡ (is_clear_seat seat.now && (seat.now.held == 0)) }
{
    is_clear(seat) && seat.held == 0
}

// Whether the actor can give away this number and this share of its allowance.
fn is_splittable(seats: &[Seat], a: u32, b: u32, share: u32) -> bool
    requires { a < length seats.now }
    ensures { result ≡ can_split seats.now a b share }
{
    let seat = &seats[a as usize];
    is_idle(seat) && (is_spare_of(seats, a, b) && share <= seat.allowance)
}

// The actor gives away a share of its allowance.
fn give(seats: &mut Vec<Seat>, a: u32, share: u32)
    requires { a < length seats.old.items }
    ensures { seats.new.items ≡ slice_set seats.old.items a (with_allowance ((seat_at seats.old.items a).allowance - share) (seat_at seats.old.items a)) }
{
    let seat = &mut seats[a as usize];
    seat.allowance = seat.allowance.saturating_sub(share);
}

// The number is that of an actor that begins with this allowance.
fn begin(alloc: Global, seats: &mut Vec<Seat>, b: u32, allowance: u32)
    requires { b < length seats.old.items }
    ensures { seats.new.items ≡ slice_set seats.old.items b (first_seat b allowance) }
{
    seats[b as usize] = Seat {
        lead: b,
        allowance,
        held: 0,
        absent: None,
        unborn: None,
        owed: Debts::none(alloc),
    };
}

/// The spare number `b` of `a` becomes an actor of its own, with a share of the allowance.
pub fn split(alloc: Global, s: &mut State, a: u32, b: u32, share: u32) -> Verdict
    requires { is_lead s.old.seats.items a ≡ true }
    ensures { IsAct (Event.Split a b share) s.old result s.new }
{
    if !is_splittable(&s.seats, a, b, share) {
        return Verdict::Ignored;
    }
    give(&mut s.seats, a, share);
    begin(alloc, &mut s.seats, b, share);
    Verdict::Taken { value: None }
}

// Whether the actor holds and owes nothing.
fn is_bare(seat: &Seat) -> bool
    ensures { result ≡ has_none seat.now }
{
    seat.held == 0 && seat.owed.is_empty()
}

// Whether these are two actors, neither of which holds or owes anything.
fn is_joinable(seats: &[Seat], a: u32, b: u32) -> bool
    requires { a < length seats.now }
    ensures { result ≡ can_join seats.now a b }
{
    is_actor(seats, b) && (a != b && (is_bare(&seats[a as usize]) && is_bare(&seats[b as usize])))
}

// The number is led by `a`, where `b` led it.
fn lead(seat: &mut Seat, a: u32, b: u32)
    ensures { seat.new ≡ led_by b a seat.old }
{
    if seat.lead == b {
        seat.lead = a;
    }
}

// Each number that `b` leads is led by `a`.
fn lead_all(seats: &mut Vec<Seat>, a: u32, b: u32)
    ensures { seats.new.items ≡ map (led_by b a) seats.old.items }
{
    for k in 0..seats.len() {
        lead(&mut seats[k], a, b);
    }
}

// What the actor may still make.
fn allowance_of(seats: &[Seat], a: u32) -> u32
    ensures { result ≡ (seat_at seats.now a).allowance }
{
    match seats.get(a as usize) {
        Some(seat) => seat.allowance,
        None => 0,
    }
}

// The actor has this allowance.
fn set_allowance(seats: &mut Vec<Seat>, a: u32, allowance: u32)
    requires { a < length seats.old.items }
    ensures { seats.new.items ≡ slice_set seats.old.items a (with_allowance allowance (seat_at seats.old.items a)) }
{
    let seat = &mut seats[a as usize];
    seat.allowance = allowance;
}

/// What the actor `b` has goes to `a`, and `b` is a spare number of `a`.
pub fn join(s: &mut State, a: u32, b: u32) -> Verdict
    requires sound { IsShownState s.old }
    requires actor { is_lead s.old.seats.items a ≡ true }
    ensures { IsAct (Event.Join a b) s.old result s.new }
{
    if !is_joinable(&s.seats, a, b) {
        return Verdict::Ignored;
    }
    let own = allowance_of(&s.seats, a);
    let other = allowance_of(&s.seats, b);
    let sum = own + other;
    lead_all(&mut s.seats, a, b);
    set_allowance(&mut s.seats, a, sum);
    Verdict::Taken { value: None }
}
