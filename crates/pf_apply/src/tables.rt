//! Owners by a list of corners, laid over the edge table and over the list of triangles.
ghost use Rattle.std.specs.Prelude.{◌≡◌, ℕ, ◌&&◌, ◌==◌, map, length};
ghost use Rattle.std.specs.Option.{option_map};
ghost use Rattle.indexmap.specs.IndexMap.{index_map_len};
ghost use Rattle.pf_model.specs.Tables.{stand_round, are_corners};
ghost use Rattle.pf_edges.specs.Table.{side_at};
ghost use Rattle.pf_apply.specs.Tables.{three, owned_if, owned_side, owned_by_table};

use pf_edges::table::{Edge, SideMap};
use pf_model::Tri;

// The side takes an owner, if its third corner is this one.
fn own_side(sides: &mut SideMap, p: u32, q: u32, apex: u32, owner: u16)
    ensures sides { (a b : ℕ) → side_at sides.new a b
        ≡ option_map (λ s. owned_if (p == a && (q == b && apex == s.apex)) owner s) (side_at sides.old a b) }
    ensures len { index_map_len sides.new ≡ index_map_len sides.old }
{
    if let Some(left) = sides.get_mut(&Edge { from: p, to: q }) {
        if left.apex == apex {
            left.owner = owner;
        }
    }
}

// The triangle takes an owner, if it stands in the table this way round.
fn own_round(sides: &mut SideMap, p: u32, q: u32, z: u32, owner: u16)
    ensures sides { (a b : ℕ) → side_at sides.new a b
        ≡ option_map (λ s. owned_if (stand_round a b s.apex (three p q z)) owner s) (side_at sides.old a b) }
    ensures len { index_map_len sides.new ≡ index_map_len sides.old }
{
    own_side(sides, p, q, z, owner);
    own_side(sides, q, z, p, owner);
    own_side(sides, z, p, q, owner);
}

// The triangle with these corners takes an owner.
fn own(sides: &mut SideMap, corners: [u32; 3], owner: u16)
    ensures sides { (a b : ℕ) → side_at sides.new a b
        ≡ option_map (λ s. owned_if (are_corners a b s.apex corners) owner s) (side_at sides.old a b) }
    ensures len { index_map_len sides.new ≡ index_map_len sides.old }
{
    let [p, q, z] = corners;
    own_round(sides, p, q, z, owner);
    own_round(sides, q, p, z, owner);
}

/// The triangles of the table take their owners by the list, from its last place on, so that the first
/// with a triangle's corners counts.
pub fn own_listed(sides: &mut SideMap, listed: &[[u32; 3]], owners: &[u16])
    requires { length owners.now ≡ length listed.now }
    ensures sides { (a b : ℕ) → side_at sides.new a b ≡ option_map (owned_side listed.now owners.now a b) (side_at sides.old a b) }
    ensures len { index_map_len sides.new ≡ index_map_len sides.old }
{
    let mut left = listed.len();
    while left > 0 {
        left -= 1;
        own(sides, listed[left], owners[left]);
    }
}

// The triangle with the owner that the table has.
fn owned(t: Tri, sides: &SideMap) -> Tri
    ensures { result ≡ owned_by_table sides.now t }
{
    match sides.get(&Edge { from: t.a, to: t.b }) {
        Some(left) => Tri {
            owner: left.owner,
            ..t
        },
        None => t,
    }
}

/// The triangles of the list take the owners that the table has.
pub fn own_tris(tris: &mut Vec<Tri>, sides: &SideMap)
    ensures { tris.new.items ≡ map (owned_by_table sides.now) tris.old.items }
{
    for t in tris.iter_mut() {
        *t = owned(*t, sides);
    }
}
