//! What an operation makes of the triangles: those that give way, and those that come.
ghost use Rattle.std.specs.Prelude.{◌≡◌};
ghost use Rattle.std.specs.Hash as fed;
ghost use Rattle.pf_model.specs.Mesh.{tri_of};

use arrayvec::ArrayVec;
use pf_model::Tri;

/// Triangles at an operation.
pub type Tris = ArrayVec<Tri, 60>;

/// The triangles that give way, and those that they give way to. It takes no memory.
#[derive(Drop)]
pub struct Change {
    pub removed: Tris,
    pub new: Tris,
}

impl Change {
    /// No triangles.
    pub fn new() -> Change {
        Change {
            removed: Tris::new(),
            new: Tris::new(),
        }
    }
}

/// The triangle `p`, `q`, `z`, written least corner first.
pub fn least_first(p: u32, q: u32, z: u32, owner: u16) -> Tri
    ensures { result ≡ tri_of p q z owner }
{
    if p < q && p < z {
        Tri {
            a: p,
            b: q,
            c: z,
            owner,
        }
    } else if q < z && q < p {
        Tri {
            a: q,
            b: z,
            c: p,
            owner,
        }
    } else {
        Tri {
            a: z,
            b: p,
            c: q,
            owner,
        }
    }
}
