//! Whether the triangles at a node are one fan: one cycle or one path.
ghost use Rattle.std.specs.Prelude.{◌≡◌, ℕ, ◌==◌};
ghost use Rattle.pf_model.specs.Mesh.{Undivided};
ghost use Rattle.pf_model.specs.Conforming.{IsConforming};
ghost use Rattle.pf_model.specs.Stars.{spokes_of, is_one_fan, run_start};
ghost use Rattle.pf_rings.specs.Runs.{IsWholeRun};

use crate::spokes::spoke_to;
use pf_model::Spoke;
use pf_spokes::first_right;

// Where a run round the spokes begins: where the path does, else at the first spoke.
fn start_of(spokes: &[Spoke]) -> u32
    ensures { result ≡ run_start spokes.now }
{
    match first_right(spokes) {
        Some(n) => n,
        None if spokes.is_empty() => 0,
        None => spokes[0].right,
    }
}

// How many spokes a run passes from this right on: each goes on to one whose right is its left, up to the
// boundary or round to where the run began.
fn passed_from(spokes: &[Spoke], start: u32) -> usize
    ensures { (m : Undivided) (n : ℕ) → IsConforming m → spokes.now ≡ spokes_of m n → IsWholeRun spokes.now start result }
{
    let mut right = start;
    let mut passed = 0;
    'turns: while passed < spokes.len() {
        let Some(spoke) = spoke_to(spokes, right) else {
            return passed;
        };
        right = spoke.left;
        passed += 1;
        if right == start {
            return passed;
        }
    }
    passed
}

/// Whether the spokes are one cycle or one path, where they are those of a node of a conforming mesh: a run
/// round them passes them all.
pub fn is_fan(spokes: &[Spoke]) -> bool
    ensures { (m : Undivided) (n : ℕ) → IsConforming m → spokes.now ≡ spokes_of m n → result ≡ is_one_fan spokes.now }
{
    passed_from(spokes, start_of(spokes)) == spokes.len()
}
