//! Looks at the count of tickets.
ghost use Rattle.std.specs.Prelude.{◌≡◌, Some, None, true};
ghost use Rattle.pf_core_model.specs.declared.event.Event.{Event};
ghost use Rattle.pf_core.specs.Tables.{is_lead};
ghost use Rattle.pf_core.specs.Shown.{IsShownState, IsAct};

use crate::judging::is_refused;
use crate::state::State;
use pf_core_model::{Asked, Verdict};

/// The actor `a` looks at the count of tickets.
pub fn look(s: &State, a: u32) -> Verdict
    requires { IsShownState s.now }
    ensures { IsAct (Event.Note a None) s.now result s.now }
{
    let _ = a;
    Verdict::Taken {
        value: Some(s.log.len() as u32),
    }
}

/// The actor `a` looks at the count of tickets, with an operation that is to fail by what it holds.
pub fn refuse(s: &State, a: u32, asked: Asked) -> Verdict
    requires sound { IsShownState s.now }
    requires actor { is_lead s.now.seats.items a ≡ true }
    ensures { IsAct (Event.Note a (Some asked)) s.now result s.now }
{
    if !is_refused(&s.nodes, &s.seats, &s.bands, a, asked.chunk, asked.op) {
        return Verdict::Ignored;
    }
    Verdict::Taken {
        value: Some(s.log.len() as u32),
    }
}
