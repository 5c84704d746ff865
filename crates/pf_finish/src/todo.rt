//! The edges that are still to be looked at: those that may have a line in the rest list, the most urgent first.
ghost use Rattle.std.specs.Prelude.{◌≡◌, ◌<◌, ◌≤◌, [], None, IfSome, length};
ghost use Rattle.pf_holder.specs.Facts.{LendsAll};
ghost use Rattle.pf_finish.specs.Waiting.{waiting};

use pf_geom::NoMemory;
use pf_holder::{Hold, Holder};
use pf_model::{Band, Op};
use pf_order::EdgeStack;
use pf_rings::{Star, spoke_to};
use pf_rules::lengths::{Span, span_of};
use pf_wishes::{EdgeLook, look};
use std::alloc::Global;

/// Four stacks of edges, by what was seen of an edge when it was put on one. In which order edges are taken is free:
/// each is looked at anew then.
#[derive(Drop)]
pub struct Todo {
    far: EdgeStack,
    flips: EdgeStack,
    long: EdgeStack,
    short: EdgeStack,
}

// Takes the newest edge of a stack.
fn pop(stack: &mut EdgeStack) -> Option<Span>
    ensures fewer { IfSome result (λ _. length stack.new < length stack.old) }
    ensures most { length stack.new ≤ length stack.old }
{
    match stack.pop() {
        Some((lo, hi)) => Some(Span { lo, hi }),
        None => None,
    }
}

impl Todo {
    /// Nothing is to be looked at.
    pub fn new(alloc: Global) -> Todo {
        Todo {
            far: EdgeStack::new(alloc),
            flips: EdgeStack::new(alloc),
            long: EdgeStack::new(alloc),
            short: EdgeStack::new(alloc),
        }
    }

    // Puts an edge of which this was seen on its stack, where it may have a line.
    fn put(&mut self, e: Span, seen: EdgeLook) -> Result<(), NoMemory> {
        if seen.far {
            self.far.push(e.lo, e.hi)
        } else if seen.shorter_flip {
            self.flips.push(e.lo, e.hi)
        } else if seen.long {
            self.long.push(e.lo, e.hi)
        } else if seen.short {
            self.short.push(e.lo, e.hi)
        } else {
            Ok(())
        }
    }

    /// Takes the newest edge: of those that are far too long, else of those whose other diagonal is shorter, else of
    /// the long ones, else of the short ones.
    pub fn take(&mut self) -> Option<Span>
        ensures { IfSome result (λ _. waiting self.new < waiting self.old) }
    {
        if let Some(e) = pop(&mut self.far) {
            return Some(e);
        }
        if let Some(e) = pop(&mut self.flips) {
            return Some(e);
        }
        if let Some(e) = pop(&mut self.long) {
            return Some(e);
        }
        pop(&mut self.short)
    }
}

// Puts the edge from a star's node to `x` on its stack, where it may have a line.
fn edge_put(bands: &[Band], star: &Star, x: u32, todo: &mut Todo) -> Result<(), NoMemory> {
    let Some(seen) = look(bands, star, x) else {
        return Ok(());
    };
    todo.put(span_of(star.node(), x), seen)
}

// The same for each edge of a star, or only for those of which the star's node is the lower end.
fn star_put(
    bands: &[Band],
    star: &Star,
    only_rising: bool,
    todo: &mut Todo,
) -> Result<(), NoMemory> {
    let spokes = star.spokes();
    let least = if only_rising { star.node() } else { 0 };
    for s in spokes {
        if s.right >= least {
            edge_put(bands, star, s.right, todo)?;
        }
        if s.left >= least && spoke_to(spokes, s.left).is_none() {
            edge_put(bands, star, s.left, todo)?;
        }
    }
    Ok(())
}

// The same for the star of a node that is lent.
fn lent_put<H: Holder>(h: &H, n: u32, only_rising: bool, todo: &mut Todo) -> Result<(), NoMemory> {
    match h.ring(n) {
        Some(ring) => star_put(h.bands(), ring.star(), only_rising, todo),
        None => Ok(()),
    }
}

/// Puts the edges at a node that may have a line on their stacks: all of them, or only those of which it is the lower
/// end.
pub fn node_put<H: Holder>(
    h: &mut H,
    n: u32,
    only_rising: bool,
    todo: &mut Todo,
) -> Result<(), NoMemory>
    requires alone { H.alone h.old }
    requires nothing { (H.pairs h.old ≡ []) × (H.unborn h.old ≡ None) × (H.owed h.old ≡ []) }
    requires lends { LendsAll (H.lent h.old) (H.pairs h.old) }
    ensures same { H.same h.old h.new }
    ensures nothing { (H.pairs h.new ≡ []) × (H.unborn h.new ≡ None) × (H.owed h.new ≡ []) }
    ensures lends { LendsAll (H.lent h.new) (H.pairs h.new) }
    ensures kept { (H.entries h.new ≡ H.entries h.old) × (H.allowance h.new ≡ H.allowance h.old) }
{
    let put = match h.hold(n) {
        Hold::Won => lent_put(h, n, only_rising, todo),
        Hold::Lost { holder: _ } => Ok(()),
        Hold::Dead => Ok(()),
        Hold::Never => Ok(()),
    };
    h.give_back();
    put
}

// Appends the neighbours in a star.
fn neighbours_put(star: &Star, near: &mut Vec<u32>) -> Result<(), NoMemory> {
    let spokes = star.spokes();
    for s in spokes {
        near.push(s.right).map_err(|_| NoMemory)?;
        if spoke_to(spokes, s.left).is_none() {
            near.push(s.left).map_err(|_| NoMemory)?;
        }
    }
    Ok(())
}

// Appends the neighbours of a node whose star is lent.
fn lent_neighbours<H: Holder>(h: &H, n: u32, near: &mut Vec<u32>) -> Result<(), NoMemory> {
    match h.ring(n) {
        Some(ring) => neighbours_put(ring.star(), near),
        None => Ok(()),
    }
}

// Appends the neighbours of a node.
fn neighbours_of<H: Holder>(h: &mut H, n: u32, near: &mut Vec<u32>) -> Result<(), NoMemory>
    requires alone { H.alone h.old }
    requires nothing { (H.pairs h.old ≡ []) × (H.unborn h.old ≡ None) × (H.owed h.old ≡ []) }
    requires lends { LendsAll (H.lent h.old) (H.pairs h.old) }
    ensures same { H.same h.old h.new }
    ensures nothing { (H.pairs h.new ≡ []) × (H.unborn h.new ≡ None) × (H.owed h.new ≡ []) }
    ensures lends { LendsAll (H.lent h.new) (H.pairs h.new) }
    ensures kept { (H.entries h.new ≡ H.entries h.old) × (H.allowance h.new ≡ H.allowance h.old) }
{
    let told = match h.hold(n) {
        Hold::Won => lent_neighbours(h, n, near),
        Hold::Lost { holder: _ } => Ok(()),
        Hold::Dead => Ok(()),
        Hold::Never => Ok(()),
    };
    h.give_back();
    told
}

/// Puts the edges at these nodes that may have a line on their stacks: all of them, or only those of which one of them is
/// the lower end.
pub fn nodes_put<H: Holder>(
    h: &mut H,
    names: &[u32],
    only_rising: bool,
    todo: &mut Todo,
) -> Result<(), NoMemory>
    requires alone { H.alone h.old }
    requires nothing { (H.pairs h.old ≡ []) × (H.unborn h.old ≡ None) × (H.owed h.old ≡ []) }
    requires lends { LendsAll (H.lent h.old) (H.pairs h.old) }
    ensures same { H.same h.old h.new }
    ensures nothing { (H.pairs h.new ≡ []) × (H.unborn h.new ≡ None) × (H.owed h.new ≡ []) }
    ensures lends { LendsAll (H.lent h.new) (H.pairs h.new) }
    ensures kept { (H.entries h.new ≡ H.entries h.old) × (H.allowance h.new ≡ H.allowance h.old) }
{
    'names: for n in names {
        node_put(h, *n, only_rising, todo)?;
    }
    Ok(())
}

// The same for the neighbours of a node, which have all edges at the node too.
fn around_put<H: Holder>(alloc: Global, h: &mut H, n: u32, todo: &mut Todo) -> Result<(), NoMemory>
    requires alone { H.alone h.old }
    requires nothing { (H.pairs h.old ≡ []) × (H.unborn h.old ≡ None) × (H.owed h.old ≡ []) }
    requires lends { LendsAll (H.lent h.old) (H.pairs h.old) }
    ensures same { H.same h.old h.new }
    ensures nothing { (H.pairs h.new ≡ []) × (H.unborn h.new ≡ None) × (H.owed h.new ≡ []) }
    ensures lends { LendsAll (H.lent h.new) (H.pairs h.new) }
    ensures kept { (H.entries h.new ≡ H.entries h.old) × (H.allowance h.new ≡ H.allowance h.old) }
{
    let mut near = Vec::new(alloc);
    neighbours_of(h, n, &mut near)?;
    nodes_put(h, &near, false, todo)
}

// Round which nodes an operation changed stars, where a bisection made this node.
fn middles_of(op: Op, made: u32) -> (u32, u32) {
    match op {
        Op::Flip { a, b } => (a, b),
        Op::Bisect { a: _, b: _ } => (made, made),
        Op::Contract { u: _, v } => (v, v),
    }
}

/// The same for the nodes whose stars an operation changed, which was made with this ticket: what stands round the
/// node that a bisection made, round that onto which one was contracted, or at and round the ends of a flip.
pub fn changed_put<H: Holder>(
    alloc: Global,
    h: &mut H,
    ticket: u32,
    op: Op,
    todo: &mut Todo,
) -> Result<(), NoMemory>
    requires alone { H.alone h.old }
    requires nothing { (H.pairs h.old ≡ []) × (H.unborn h.old ≡ None) × (H.owed h.old ≡ []) }
    requires lends { LendsAll (H.lent h.old) (H.pairs h.old) }
    ensures same { H.same h.old h.new }
    ensures nothing { (H.pairs h.new ≡ []) × (H.unborn h.new ≡ None) × (H.owed h.new ≡ []) }
    ensures lends { LendsAll (H.lent h.new) (H.pairs h.new) }
    ensures kept { (H.entries h.new ≡ H.entries h.old) × (H.allowance h.new ≡ H.allowance h.old) }
{
    let made = h.first_new().saturating_add(ticket);
    let (a, b) = middles_of(op, made);
    around_put(alloc, h, a, todo)?;
    if a == b {
        return Ok(());
    }
    node_put(h, b, false, todo)
}
