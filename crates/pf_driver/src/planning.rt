//! Which entries of the work lists a star asks for, and which operation an entry asks for.
ghost use Rattle.std.specs.Prelude.{◌≡◌, ℕ, ◌<◌, All, IfSome, true};
ghost use Rattle.pf_driver.specs.Plans.{IsPlanBy, IsPlanBelow};

use crate::escaping::escape_planned;
use pf_core_model::{Answer, Asked};
use pf_geom::{NoMemory, Point};
use pf_model::{Band, Op};
use pf_order::{EdgeTask, Kind, Order, Place, Task};
use pf_rings::{Rings, Star, spoke_from, spoke_to};
use pf_wishes::{EdgeLook, longer_at, look};

/// What an entry of the work lists asks for.
#[derive(Clone, Copy, Debug, PartialEq, Eq)]
pub enum Plan {
    /// The operation.
    Try {
        asked: Asked,
    },
    /// Whether the bisection passes: an escape is looked for then before it is made.
    Ask {
        asked: Asked,
        from: u32,
        to: u32,
        place: Place,
    },
    /// Nothing at this turn.
    Rest,
    /// Memory is wanting.
    NoRoom,
}

/// Whether the chunk is one of these.
pub fn is_mine(chunks: &[u16], chunk: u16) -> bool
    ensures { (n : ℕ) → All (λ c. c < n) chunks.now → result ≡ true → chunk < n }
{
    for c in chunks {
        if *c == chunk {
            return true;
        }
    }
    false
}

// Puts an edge on the lists that its look asks for.
fn push_seen(seen: EdgeLook, n: u32, x: u32, order: &mut Order) -> Result<(), NoMemory> {
    if seen.far {
        order.push_edge(Kind::Far, n, x)?;
    } else if seen.long {
        order.push_edge(Kind::Long, n, x)?;
    }
    if seen.shorter_flip {
        order.push_edge(Kind::Flip, n, x)?;
    }
    if seen.short {
        order.push_edge(Kind::Short, n, x)?;
    }
    Ok(())
}

// Puts the edge to `x` on the lists, where one of the chunks acts on it.
fn push_to(
    bands: &[Band],
    chunks: &[u16],
    star: &Star,
    x: u32,
    order: &mut Order,
) -> Result<(), NoMemory> {
    match look(bands, star, x) {
        Some(seen) if is_mine(chunks, seen.chunk) => push_seen(seen, star.node(), x, order),
        _ => Ok(()),
    }
}

/// Puts the edges of a star on the lists. Want of memory is its only failure.
pub fn push_star(
    bands: &[Band],
    chunks: &[u16],
    star: &Star,
    order: &mut Order,
) -> Result<(), NoMemory> {
    let spokes = star.spokes();
    for s in spokes {
        push_to(bands, chunks, star, s.right, order)?;
        if spoke_to(spokes, s.left).is_none() {
            push_to(bands, chunks, star, s.left, order)?;
        }
    }
    Ok(())
}

// Where the neighbour stands, and the node itself where there is none of that name.
fn place_of(star: &Star, x: u32) -> Point {
    if let Some(s) = spoke_to(star.spokes(), x) {
        return s.right_at;
    }
    match spoke_from(star.spokes(), x) {
        Some(s) => s.left_at,
        None => star.at(),
    }
}

/// Where the edge to `x` is.
pub fn place_at(star: &Star, x: u32) -> Place {
    Place {
        from: star.at(),
        to: place_of(star, x),
    }
}

// Says that an operation changes the stars of the ends of the edge to `x`, and of the apexes.
fn aim_across(star: &Star, x: u32, order: &mut Order) -> Result<(), NoMemory> {
    order.push_near(star.node())?;
    order.push_near(x)?;
    if let Some(s) = spoke_to(star.spokes(), x) {
        order.push_near(s.left)?;
    }
    if let Some(s) = spoke_from(star.spokes(), x) {
        order.push_near(s.right)?;
    }
    Ok(())
}

// Says that an operation changes the stars of all neighbours.
fn aim_around(star: &Star, order: &mut Order) -> Result<(), NoMemory> {
    let spokes = star.spokes();
    for s in spokes {
        order.push_near(s.right)?;
        if spoke_to(spokes, s.left).is_none() {
            order.push_near(s.left)?;
        }
    }
    Ok(())
}

/// Says which stars an operation on the edge to `x` changes, and where it bisects. A contraction takes the star's node.
/// Want of memory is its only failure.
pub fn aim_at(op: Op, star: &Star, x: u32, order: &mut Order) -> Result<(), NoMemory> {
    order.begin_aim();
    match op {
        Op::Flip { .. } => aim_across(star, x, order),
        Op::Bisect { .. } => {
            order.set_place(place_at(star, x));
            aim_across(star, x, order)
        }
        Op::Contract { .. } => aim_around(star, order),
    }
}

/// The plan to try an operation on the edge to `x`, by this chunk.
pub fn try_planned(chunk: u16, op: Op, star: &Star, x: u32, order: &mut Order) -> Plan
    ensures { IsPlanBy chunk result }
{
    match aim_at(op, star, x, order) {
        Ok(()) => Plan::Try {
            asked: Asked { chunk, op },
        },
        Err(NoMemory) => Plan::NoRoom,
    }
}

/// The plan where the lists have what they are to have.
pub fn rest_planned(pushed: Result<(), NoMemory>) -> Plan
    ensures below { (n : ℕ) → IsPlanBelow n result }
    ensures by { (n : ℕ) → IsPlanBy n result }
{
    match pushed {
        Ok(()) => Plan::Rest,
        Err(NoMemory) => Plan::NoRoom,
    }
}

// What a bisection that had waited asks for, at its place.
fn late_planned(chunk: u16, op: Op, from: u32, to: u32, place: Place) -> Plan
    ensures { IsPlanBy chunk result }
{
    Plan::Ask {
        asked: Asked { chunk, op },
        from,
        to,
        place,
    }
}

// What the bisection of the edge to `x` comes to, which one of the chunks acts on: the walk goes on, or the bisection waits, or it is
// tried.
fn bisection_planned(star: &Star, seen: EdgeLook, x: u32, task: Task, order: &mut Order) -> Plan
    ensures { IsPlanBy seen.chunk result }
{
    if let Some(span) = longer_at(star, x) {
        order.walk_on(task, span.lo, span.hi);
        return Plan::Rest;
    }
    let place = place_at(star, x);
    let op = Op::Bisect {
        a: star.node(),
        b: x,
    };
    if order.is_forced(task) || !order.is_worn(place) {
        return try_planned(seen.chunk, op, star, x, order);
    }
    if order.is_late(task) {
        return late_planned(seen.chunk, op, star.node(), x, place);
    }
    rest_planned(order.postpone(task))
}

// What the edge to `x` asks for, which one of the chunks acts on.
fn edge_planned_by(star: &Star, seen: EdgeLook, edge: EdgeTask, order: &mut Order) -> Plan
    ensures { IsPlanBy seen.chunk result }
{
    let (from, to) = (star.node(), edge.to);
    match edge.kind {
        Kind::Far | Kind::Long | Kind::Late => {
            if seen.long {
                return bisection_planned(star, seen, to, Task::Edge { edge }, order);
            }
        }
        Kind::Forced => return bisection_planned(star, seen, to, Task::Edge { edge }, order),
        Kind::Flip => {
            if seen.shorter_flip {
                return try_planned(seen.chunk, Op::Flip { a: from, b: to }, star, to, order);
            }
        }
        Kind::Short | Kind::Onto => {
            if seen.short {
                return try_planned(seen.chunk, Op::Contract { u: from, v: to }, star, to, order);
            }
        }
    }
    Plan::Rest
}

// What a task at an edge asks for, by what is seen of the edge.
fn planned_by(star: &Star, seen: EdgeLook, task: Task, order: &mut Order) -> Plan
    ensures { IsPlanBy seen.chunk result }
{
    match task {
        Task::Edge { edge } => edge_planned_by(star, seen, edge, order),
        Task::Walk { from: _, to } => bisection_planned(star, seen, to, task, order),
        Task::Node { .. } | Task::Escape { .. } => Plan::Rest,
    }
}

// The other end of a task's edge.
fn other_end(task: Task) -> u32 {
    match task {
        Task::Edge { edge } => edge.to,
        Task::Walk { from: _, to } => to,
        Task::Escape { from: _, to } => to,
        Task::Node { n } => n,
    }
}

// What a task asks for, by the star of an end of its edge.
fn plan_in(bands: &[Band], chunks: &[u16], star: &Star, task: Task, order: &mut Order) -> Plan
    ensures { (n : ℕ) → All (λ c. c < n) chunks.now → IsPlanBelow n result }
{
    if let Task::Node { n: _ } = task {
        return rest_planned(push_star(bands, chunks, star, order));
    }
    if let Task::Escape { from: _, to } = task {
        return escape_planned(bands, chunks, star, to, order);
    }
    let Some(seen) = look(bands, star, other_end(task)) else {
        return rest_planned(order.drop_task(task));
    };
    if !is_mine(chunks, seen.chunk) {
        return rest_planned(order.drop_task(task));
    }
    planned_by(star, seen, task, order)
}

/// What a task asks for, by the star that is lent of its edge's end `n`.
pub fn planned<R: Rings>(
    r: &R,
    bands: &[Band],
    chunks: &[u16],
    n: u32,
    task: Task,
    order: &mut Order,
) -> Plan
    ensures { (n : ℕ) → All (λ c. c < n) chunks.now → IsPlanBelow n result }
{
    match r.ring(n) {
        Some(ring) => plan_in(bands, chunks, ring.star(), task, order),
        None => rest_planned(order.drop_task(task)),
    }
}

// Notes that an operation was made with this ticket.
fn note_made(
    op: Op,
    first_new: u32,
    ticket: u32,
    task: Task,
    order: &mut Order,
) -> Result<(), NoMemory> {
    match op {
        Op::Flip { .. } => order.note_done(task, None),
        Op::Bisect { .. } => order.note_done(task, Some(first_new.saturating_add(ticket))),
        Op::Contract { u, .. } => {
            order.note_gone(u)?;
            order.note_done(task, None)
        }
    }
}

/// Puts on the lists what follows from this answer to the operation of a task. Want of memory is its only failure.
pub fn push_answered(
    answer: Answer,
    op: Op,
    first_new: u32,
    task: Task,
    order: &mut Order,
) -> Result<(), NoMemory> {
    match answer {
        Answer::Done { ticket } => note_made(op, first_new, ticket, task, order),
        Answer::Busy { .. } => order.put_off(task),
        Answer::Refused { .. } => order.note_refused(task),
        Answer::Gone { .. } => order.note_refused(task),
        Answer::Unborn { .. } => order.note_refused(task),
        Answer::Spent => Ok(()),
        Answer::Memory => Ok(()),
    }
}
