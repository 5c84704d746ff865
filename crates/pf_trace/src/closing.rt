//! How things stand at the end.
ghost use Rattle.std.specs.Prelude.{◌≡◌, ◌++◌, OnOk};
ghost use Rattle.pf_model.specs.Texts.{lines_text};
ghost use Rattle.pf_core_model.specs.Core.{Opening};
ghost use Rattle.pf_core_model.specs.State.{CoreState};
ghost use Rattle.pf_core.specs.Shown.{ShowsState, IsShownState};
ghost use Rattle.trace_text.specs.Verdicts.{closing_of, closing_lines};

use pf_core::State;
use pf_geom::NoMemory;
use std::alloc::Global;
use trace_text::{Closing, push_closing};

/// Appends the lines on how things stand in the state.
pub fn push_end(alloc: Global, text: &mut Vec<u8>, state: &State) -> Result<(), NoMemory>
    requires { IsShownState state.now }
    ensures { (o : Opening) (c : CoreState) → ShowsState o c state.now →
        OnOk result (text.new.items ≡ text.old.items ++ lines_text (closing_lines (closing_of o c))) }
{
    let counts = state.counts();
    let free_part = state.free_part(alloc)?;
    let closing = Closing {
        tickets: state.tickets(),
        free: counts.free,
        held: counts.held,
        dead: counts.dead,
        never: counts.never,
        triangles: free_part.len(),
    };
    put_closing(text, closing)?;
    Ok(())
}

// Appends the closing lines.
fn put_closing(text: &mut Vec<u8>, closing: Closing) -> Result<(), NoMemory>
    ensures { OnOk result (text.new.items ≡ text.old.items ++ lines_text (closing_lines closing)) }
{
    push_closing(text, closing).map_err(|_| NoMemory)
}
