//! A trace's text, read.
ghost use Rattle.std.specs.Prelude.{◌≡◌, ◌≢◌, ◌≤◌, ◌<◌, ◌∷◌, length, Ok, Err, IfOk, IfErr, IfSome};
ghost use Rattle.pf_lex.specs.Token.{word_of};
ghost use Rattle.row_text.specs.Rows.{Reads};
ghost use Rattle.trace_text.specs.Trace.{head_of, events_on, told_below, trace_of, told, AreWithin};

use crate::event::event;
use crate::fault::TraceErr;
use crate::part::number;
use pf_core_model::Event;
use pf_lex::{Lines, Token, Words};
use row_text::{is_word, keep};
use std::alloc::Global;

/// A trace: how many operations there may be, how many workers, and what they do, event by event.
#[derive(Debug, Drop)]
pub struct Trace {
    pub budget: u32,
    pub workers: u32,
    pub events: Vec<Event>,
}

/// Reads a trace over a mesh with `first_new` names and so many chunks: the line `budget N workers W`, and
/// then one event per line.
///
/// N is at most 1,048,576 - `first_new`, and such that `chunks` times (`first_new` + N) is at most 4,194,304;
/// W is from 1 to 64. A line in no form is the fault, and line 1 of a text without words.
/// `TraceErr::Memory` comes only of a text without a fault.
pub fn read_trace(
    alloc: Global,
    bytes: &[u8],
    first_new: u32,
    chunks: u16,
) -> Result<Trace, TraceErr>
    requires { length bytes.now ≤ 268435456 }
    ensures value { IfOk result (λ t. trace_of first_new chunks bytes.now ≡ Ok (told t)) }
    ensures within { IfOk result (λ t. AreWithin first_new chunks t.budget t.workers) }
    ensures first_fault { IfErr result (λ fault. fault ≢ TraceErr.Memory → trace_of first_new chunks bytes.now ≡ Err fault) }
    ensures refused { IfErr (trace_of first_new chunks bytes.now) (λ fault. result ≡ Err fault) }
{
    let mut lines = Lines::new(bytes);
    let Some(words) = lines.next_line() else {
        return Err(TraceErr::Line { line: 1 });
    };
    let line = words.line();
    let Some(limits) = head(words, first_new, chunks) else {
        return Err(TraceErr::Line { line });
    };
    below(alloc, lines, limits)
}

/// What the first line says.
#[derive(Clone, Copy)]
pub struct Limits {
    pub budget: u32,
    pub workers: u32,
}

// Whether the limits are kept.
fn are_kept(limits: Limits, first_new: u32, chunks: u16) -> bool
    ensures { result ≡ Rattle.trace_text.specs.Trace.are_kept limits first_new chunks }
{
    let names = u64::from(first_new) + u64::from(limits.budget);
    names <= 1_048_576
        && u64::from(chunks) * names <= 4_194_304
        && limits.workers >= 1
        && limits.workers <= 64
}

// The limits of these words, where they are kept.
fn head_words(budget: Token<'_>, workers: Token<'_>, first_new: u32, chunks: u16) -> Option<Limits>
    ensures value { result ≡ Rattle.trace_text.specs.Trace.limits_of first_new chunks (word_of budget.entry) (word_of workers.entry) }
    ensures within { IfSome result (λ l. AreWithin first_new chunks l.budget l.workers) }
{
    let budget = number(u32::MAX, budget)?;
    let workers = number(u32::MAX, workers)?;
    let limits = Limits { budget, workers };
    if are_kept(limits, first_new, chunks) {
        Some(limits)
    } else {
        None
    }
}

// What the first line says.
fn head(mut words: Words<'_>, first_new: u32, chunks: u16) -> Option<Limits>
    ensures value { result ≡ head_of first_new chunks words.entry.words }
    ensures within { IfSome result (λ l. AreWithin first_new chunks l.budget l.workers) }
{
    let (Some(name), Some(budget), Some(other), Some(workers), None) = (
        words.next(),
        words.next(),
        words.next(),
        words.next(),
        words.next(),
    ) else {
        return None;
    };
    if is_word(name, b"budget") && is_word(other, b"workers") {
        head_words(budget, workers, first_new, chunks)
    } else {
        None
    }
}

// The trace of these limits, with the events of the lines below the first.
fn below(alloc: Global, lines: Lines<'_>, limits: Limits) -> Result<Trace, TraceErr>
    ensures reads { Reads TraceErr.Memory told result (told_below limits lines.entry.left) }
    ensures same { IfOk result (λ t. (t.budget ≡ limits.budget) × (t.workers ≡ limits.workers)) }
{
    match events(alloc, lines) {
        Ok(events) => Ok(Trace {
            budget: limits.budget,
            workers: limits.workers,
            events,
        }),
        Err(fault) => Err(fault),
    }
}

// The events of the lines below the first.
#[inline(never)]
fn events(alloc: Global, mut lines: Lines<'_>) -> Result<Vec<Event>, TraceErr>
    ensures { Reads TraceErr.Memory (λ events. events.items) result (events_on lines.entry.left) }
{
    let mut events = Vec::new(alloc);
    let mut fits = true;
    while let Some(words) = lines.next_line() {
        let line = words.line();
        let Some(event) = event(words) else {
            return Err(TraceErr::Line { line });
        };
        fits = keep(&mut events, fits, event);
    }
    if !fits {
        return Err(TraceErr::Memory);
    }
    Ok(events)
}
