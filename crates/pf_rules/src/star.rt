//! The star of a node, as a list of spokes by rising right.
ghost use Rattle.std.specs.Prelude.{◌≡◌, ◌+◌, ◌<◌, ◌≤◌, insert, length, All};
ghost use Rattle.arrayvec.specs.ArrayVec.{array_vec_len};
ghost use Rattle.pf_model.specs.Rising.{insert_by};
ghost use Rattle.pf_model.specs.Stars.{spoke_lt};
ghost use Rattle.pf_model.specs.Limits.{most_spokes};
ghost use Rattle.pf_spokes.specs.Spokes.{has_right, HasSpots};

use arrayvec::ArrayVec;
use pf_model::Spoke;

/// Triangles at a node, by rising right. A node with more than 60 isn't contracted.
pub type Spokes = ArrayVec<Spoke, 60>;

// Where the spoke belongs among these, by right.
fn place_of_spoke(spokes: &[Spoke], spoke: Spoke) -> usize
    ensures within { result ≤ length spokes.now }
    ensures place { insert spokes.now result spoke ≡ insert_by spoke_lt spoke spokes.now }
{
    for (i, s) in spokes.iter().enumerate() {
        if spoke.right < s.right {
            return i;
        }
    }
    spokes.len()
}

/// Puts a spoke among these, by right.
pub fn put_spoke(spokes: &mut Spokes, spoke: Spoke)
    requires { array_vec_len spokes.old < most_spokes }
    ensures items { spokes.new.items ≡ insert_by spoke_lt spoke spokes.old.items }
    ensures len { array_vec_len spokes.new ≡ array_vec_len spokes.old + 1 }
    ensures spots { HasSpots spoke → All HasSpots spokes.old.items → All HasSpots spokes.new.items }
{
    let at = place_of_spoke(spokes.as_slice(), spoke);
    spokes.insert(at, spoke);
}
