//! The star of a node: its triangles, found by turning round the node from one of its edges.
ghost use Rattle.std.specs.Prelude.{◌≡◌, ℕ, ◌≤◌, length, All, IfSome, true, []};
ghost use Rattle.pf_model.specs.Mesh.{Undivided, is_edge};
ghost use Rattle.pf_model.specs.Conforming.{IsConforming};
ghost use Rattle.pf_model.specs.Stars.{spokes_of};
ghost use Rattle.pf_model.specs.Limits.{most_spokes};
ghost use Rattle.pf_edges.specs.Table.{ArePlacesInRange, Shows, side_at, triangles_at};
ghost use Rattle.pf_rules.specs.EdgeSides.{AreEdgeSides};
ghost use Rattle.pf_rules.specs.Star.{IsSpokeOn, IsSpokeBefore, IsChain, IsChainToLeft, IsWholeTurn, IsFan};
ghost use Rattle.pf_spokes.specs.Spokes.{HasSpots};

use pf_edges::table::EdgeTable;
use pf_model::{Side, Spoke};
use pf_rules::edge_sides::EdgeSides;
use pf_rules::star::{Spokes, put_spoke};

// Where triangles that lie beside each other begin and end: the right of the first, and the left of the last.
#[derive(Clone, Copy, Debug, PartialEq, Eq)]
struct Ends {
    first: u32,
    last: u32,
}

/// The triangle with this right corner that stands at the side, as a spoke of its third corner.
pub fn spoke_with(table: &EdgeTable, right: u32, side: Option<Side>) -> Option<Spoke>
    ensures found { (m : Undivided) (u : ℕ) → IsConforming m → Shows table.now.sides table.now.nodes.items m
        → side ≡ side_at table.now.sides u right → IsSpokeOn (spokes_of m u) right result }
    ensures spots { ArePlacesInRange table.now.nodes.items → IfSome result HasSpots }
{
    match side {
        Some(side) => Some(Spoke {
            right,
            right_at: table.spot(right),
            left: side.apex,
            left_at: table.spot(side.apex),
            owner: side.owner,
        }),
        None => None,
    }
}

// The triangle with this left corner that stands at the side, as a spoke of its third corner.
fn spoke_before(table: &EdgeTable, left: u32, side: Option<Side>) -> Option<Spoke>
    ensures found { (m : Undivided) (u : ℕ) → IsConforming m → Shows table.now.sides table.now.nodes.items m
        → side ≡ side_at table.now.sides left u → IsSpokeBefore (spokes_of m u) left result }
    ensures spots { ArePlacesInRange table.now.nodes.items → IfSome result HasSpots }
{
    match side {
        Some(side) => Some(Spoke {
            right: side.apex,
            right_at: table.spot(side.apex),
            left,
            left_at: table.spot(left),
            owner: side.owner,
        }),
        None => None,
    }
}

// Puts the triangles at `u` that have its edge to `v`, which stand at the edge_sides, into an empty list.
fn put_edge_sides(table: &EdgeTable, v: u32, edge_sides: EdgeSides, found: &mut Spokes) -> Ends
    requires { found.old.items ≡ [] }
    ensures found { (m : Undivided) (u : ℕ) → IsConforming m → Shows table.now.sides table.now.nodes.items m → AreEdgeSides m.tris u v edge_sides
        → is_edge m.tris u v ≡ true → IsChain (spokes_of m u) found.new.items result.first result.last }
    ensures spots { ArePlacesInRange table.now.nodes.items → All HasSpots found.new.items }
{
    let before = spoke_before(table, v, edge_sides.right);
    let Some(on) = spoke_with(table, v, edge_sides.left) else {
        let Some(before) = before else {
            return Ends { first: v, last: v };
        };
        put_spoke(found, before);
        return Ends {
            first: before.right,
            last: v,
        };
    };
    put_spoke(found, on);
    let Some(before) = before else {
        return Ends {
            first: v,
            last: on.left,
        };
    };
    put_spoke(found, before);
    Ends {
        first: before.right,
        last: on.left,
    }
}

// Adds the triangles at `u` that come by turning left from where these end, up to the boundary or round to
// where they begin. Gives where they begin and end then.
fn turn_left(table: &EdgeTable, u: u32, ends: Ends, most: usize, found: &mut Spokes) -> Ends
    requires { most ≤ most_spokes }
    ensures found { (m : Undivided) → IsConforming m → Shows table.now.sides table.now.nodes.items m → length (spokes_of m u) ≡ most
        → IsChain (spokes_of m u) found.old.items ends.first ends.last → IsChainToLeft (spokes_of m u) found.new.items result.first result.last }
    ensures spots { ArePlacesInRange table.now.nodes.items → All HasSpots found.old.items → All HasSpots found.new.items }
{
    let Ends { first, last } = ends;
    let mut right = last;
    'turns: while found.len() < most && right != first {
        let Some(spoke) = spoke_with(table, right, table.side(u, right)) else {
            return Ends { first, last: right };
        };
        put_spoke(found, spoke);
        right = spoke.left;
    }
    Ends { first, last: right }
}

// Adds the triangles at `u` that come by turning right from where these begin, up to the boundary or round
// to where they end.
fn turn_right(table: &EdgeTable, u: u32, ends: Ends, most: usize, found: &mut Spokes)
    requires { most ≤ most_spokes }
    ensures found { (m : Undivided) → IsConforming m → Shows table.now.sides table.now.nodes.items m → length (spokes_of m u) ≡ most
        → IsChainToLeft (spokes_of m u) found.old.items ends.first ends.last → IsWholeTurn (spokes_of m u) found.new.items }
    ensures spots { ArePlacesInRange table.now.nodes.items → All HasSpots found.old.items → All HasSpots found.new.items }
{
    let Ends { first, last } = ends;
    let mut left = first;
    'turns: while found.len() < most && left != last {
        let Some(spoke) = spoke_before(table, left, table.side(left, u)) else {
            return;
        };
        put_spoke(found, spoke);
        left = spoke.right;
    }
}

/// Whether the triangles at `u` are one cycle or one path. Then `star` has them all, found by turning
/// round `u` from its edge to `v`, either way: what is found so lies beside each other, and is all that
/// there is where `u` has no more triangles. The triangles at that edge are at hand. What the list held
/// doesn't matter.
pub fn find_fan(table: &EdgeTable, u: u32, v: u32, edge_sides: EdgeSides, star: &mut Spokes) -> bool
    requires narrow { triangles_at table.now.nodes.items u ≤ most_spokes }
    ensures found { (m : Undivided) → IsConforming m → Shows table.now.sides table.now.nodes.items m → AreEdgeSides m.tris u v edge_sides
        → is_edge m.tris u v ≡ true → IsFan (spokes_of m u) result star.new.items }
    ensures spots { ArePlacesInRange table.now.nodes.items → All HasSpots star.new.items }
{
    let most = table.triangles(u) as usize;
    star.clear();
    let begun = put_edge_sides(table, v, edge_sides, star);
    let ends = turn_left(table, u, begun, most, star);
    turn_right(table, u, ends, most, star);
    star.len() == most
}
