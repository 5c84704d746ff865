//! A trace, answered.
ghost use Rattle.std.specs.Prelude.{◌≡◌, ◌≢◌, ◌≤◌, ◌<◌, ℕ, length, Ok, Err, IfOk, IfErr};
ghost use Rattle.pf_model.specs.Conforming.{IsLive};
ghost use Rattle.trace_text.specs.Trace.{trace_of, told, AreWithin};
ghost use Rattle.trace_text.specs.Verdicts.{answer_text, HasAnswerText};

use crate::closing::push_end;
use crate::events::push_events;
use pf_core::State;
use pf_geom::NoMemory;
use pf_mesh::Mesh;
use std::alloc::Global;
use trace_text::{Trace, TraceErr, read_trace};

/// Runs a trace over the mesh: its events take place one after another, from the state in which no node is held.
/// The answer is a line for each event, numbered from 1, with what became of it, and then three lines on how things
/// stand at the end.
///
/// Line L is refused where it is the first in no form; 1 also where the text has no words. `TraceErr::Memory` comes
/// only of a text without a fault.
pub fn run_trace(alloc: Global, m: &Mesh, bytes: &[u8]) -> Result<Vec<u8>, TraceErr>
    requires long { length bytes.now ≤ 268435456 }
    requires fresh { (n : ℕ) → IsLive m.now.mesh n → n < m.now.mesh.first_new }
    ensures answer { IfOk result (λ text. HasAnswerText m.now.mesh bytes.now text.items) }
    ensures first_fault { IfErr result (λ fault. fault ≢ TraceErr.Memory →
        trace_of m.now.mesh.first_new m.now.mesh.chunks bytes.now ≡ Err fault) }
    ensures refused { IfErr (trace_of m.now.mesh.first_new m.now.mesh.chunks bytes.now) (λ fault. result ≡ Err fault) }
{
    match read_trace(alloc, bytes, m.first_new(), m.chunks()) {
        Err(fault) => Err(fault),
        Ok(trace) => match answer(alloc, m, &trace) {
            Ok(text) => Ok(text),
            Err(NoMemory) => Err(TraceErr::Memory),
        },
    }
}

// The text that what a trace says is answered by.
fn answer(alloc: Global, m: &Mesh, trace: &Trace) -> Result<Vec<u8>, NoMemory>
    requires fresh { (n : ℕ) → IsLive m.now.mesh n → n < m.now.mesh.first_new }
    requires within { AreWithin m.now.mesh.first_new m.now.mesh.chunks trace.now.budget trace.now.workers }
    ensures { IfOk result (λ text. text.items ≡ answer_text m.now.mesh (told trace.now)) }
{
    let mut state = State::new(alloc, m, trace.budget, trace.workers)?;
    let mut text = Vec::new(alloc);
    push_events(alloc, &mut text, &mut state, &trace.events)?;
    push_end(alloc, &mut text, &state)?;
    Ok(text)
}
