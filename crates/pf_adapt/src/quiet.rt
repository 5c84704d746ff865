//! Whether a rest list has a line that passes.
ghost use Rattle.std.specs.Prelude.{◌≡◌};
ghost use Rattle.pf_finish.specs.Passing.{passes};
ghost use Rattle.pf_adapt.specs.Adapted as spec;

use pf_model::RestLine;

// Whether an operation that the line speaks of passes.
fn line_passes(line: RestLine) -> bool
    ensures { result ≡ passes line }
{
    match line {
        RestLine::Long { cond, .. } => cond.is_none(),
        RestLine::Short { onto_b, onto_a, .. } => onto_b.is_none() || onto_a.is_none(),
        RestLine::Flip { .. } => true,
    }
}

/// Whether no line of the rest list passes.
pub fn is_quiet(lines: &[RestLine]) -> bool
    ensures { result ≡ spec.is_quiet lines.now }
{
    for line in lines {
        if line_passes(*line) {
            return false;
        }
    }
    true
}
