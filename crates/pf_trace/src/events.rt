//! The events, one after another.
ghost use Rattle.std.specs.Prelude.{◌≡◌, ◌++◌, OnOk};
ghost use Rattle.pf_model.specs.Texts.{line_text, lines_text};
ghost use Rattle.pf_core_model.specs.Core.{Opening};
ghost use Rattle.pf_core_model.specs.State.{CoreState, state_after, verdicts_of};
ghost use Rattle.pf_core.specs.Shown.{ShowsState, IsShownState};
ghost use Rattle.trace_text.specs.Verdicts.{verdict_words, verdict_lines};

use pf_core::{State, step};
use pf_core_model::{Event, Verdict};
use pf_geom::NoMemory;
use std::alloc::Global;
use trace_text::push_verdict;

/// Lets the events take place one after another, and appends a line for each, with what became of it.
pub fn push_events(
    alloc: Global,
    text: &mut Vec<u8>,
    state: &mut State,
    events: &[Event],
) -> Result<(), NoMemory>
    requires { IsShownState state.old }
    ensures state { (o : Opening) (c : CoreState) → ShowsState o c state.old → OnOk result (ShowsState o (state_after o c events.now) state.new) }
    ensures text { (o : Opening) (c : CoreState) → ShowsState o c state.old →
        OnOk result (text.new.items ≡ text.old.items ++ lines_text (verdict_lines 1 events.now (verdicts_of o c events.now))) }
{
    let mut number: u64 = 0;
    for event in events {
        number += 1;
        let verdict = step(alloc, state, *event)?;
        put_verdict(text, number, *event, verdict)?;
    }
    Ok(())
}

// Appends the line of an event.
fn put_verdict(
    text: &mut Vec<u8>,
    number: u64,
    event: Event,
    verdict: Verdict,
) -> Result<(), NoMemory>
    ensures { OnOk result (text.new.items ≡ text.old.items ++ line_text (verdict_words number event verdict)) }
{
    push_verdict(text, number, event, verdict).map_err(|_| NoMemory)
}
