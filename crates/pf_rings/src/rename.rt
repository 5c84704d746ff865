//! One name in the place of another.
ghost use Rattle.std.specs.Prelude.{◌≡◌, map};
ghost use Rattle.pf_star_model.specs.Patched.{renamed, renamed_spoke};

use pf_model::Spoke;

/// The name, with the new name in the place of the old one.
pub fn renamed_name(old: u32, name: u32, n: u32) -> u32
    ensures { result ≡ renamed old name n }
{
    if n == old { name } else { n }
}

// The spoke, with the new name in the place of the old one.
fn renamed_spoke(old: u32, name: u32, s: Spoke) -> Spoke
    ensures { result ≡ renamed_spoke old name s }
{
    Spoke {
        right: renamed_name(old, name, s.right),
        left: renamed_name(old, name, s.left),
        ..s
    }
}

/// Puts the new name in the place of the old one. The spokes keep their places and points.
pub fn rename_spokes(spokes: &mut [Spoke], old: u32, name: u32)
    ensures { spokes.new ≡ map (renamed_spoke old name) spokes.old }
{
    for k in 0..spokes.len() {
        spokes[k] = renamed_spoke(old, name, spokes[k]);
    }
}
