//! Stars of nine points in three rows, worked out by hand. The middle is 4.
ghost use Rattle.std.specs.Prelude.{All, IfOk};
ghost use Rattle.pf_edge_list.specs.Edges.{IsListed};

use pf_edge_list::edges::{Edges, Sided, locate};
use pf_edges::table::{Edge, EdgeTable};
use pf_geom::Point;
use pf_model::{Side, Spoke};
use pf_rest::around::{Arms, chains_of, gather_star};
use pf_rules::lengths::span_of;
use pf_rules::star::Spokes;
use std::alloc::Global;
use std::test::Fail;

// Two triangles to a cell.
const TRIS: [[u32; 3]; 8] = [
    [0, 1, 4],
    [0, 4, 3],
    [1, 2, 5],
    [1, 5, 4],
    [3, 4, 7],
    [3, 7, 6],
    [4, 5, 8],
    [4, 8, 7],
];

// The number of triangles at each point.
const COUNTS: [u64; 9] = [2, 3, 1, 3, 6, 3, 1, 3, 2];

// The ends of the edges, by rising names.
const ENDS: [[u32; 2]; 16] = [
    [0, 1],
    [0, 3],
    [0, 4],
    [1, 2],
    [1, 4],
    [1, 5],
    [2, 5],
    [3, 4],
    [3, 6],
    [3, 7],
    [4, 5],
    [4, 7],
    [4, 8],
    [5, 8],
    [6, 7],
    [7, 8],
];

// Where the edges of each lower name begin.
const STARTS: [usize; 9] = [0, 3, 6, 7, 10, 13, 14, 15, 16];

// Enters a directed edge, where there is room.
fn enter(table: &mut EdgeTable, from: u32, to: u32, apex: u32) {
    let _ = table
        .sides
        .insert(Edge { from, to }, Side { apex, owner: 0 });
}

// The table of the nine points.
fn nine(alloc: Global) -> Result<EdgeTable, Fail> {
    let points = [Point { x: 0, y: 0 }; 9];
    let mut table = EdgeTable::of_points(alloc, &points, 8)?;
    for [a, b, c] in TRIS {
        enter(&mut table, a, b, c);
        enter(&mut table, b, c, a);
        enter(&mut table, c, a, b);
    }
    for (n, triangles) in COUNTS.iter().enumerate() {
        if n < table.nodes.len() {
            table.nodes[n].triangles = *triangles;
        }
    }
    Ok(table)
}

// The edges with these ends, as the table has them.
fn listed_edges(alloc: Global, table: &EdgeTable, ends: &[[u32; 2]]) -> Result<Vec<Sided>, Fail>
    ensures { IfOk result (λ edges. All (IsListed table.now.sides) edges.items) }
{
    let none = Edges {
        list: Vec::new(alloc),
        starts: Vec::new(alloc),
    };
    let mut list = Vec::new(alloc);
    for [a, b] in ends {
        list.push(locate(table, &none, span_of(*a, *b)).edge)?;
    }
    Ok(list)
}

// Whether the spoke at a place has these corners.
fn is_spoke(star: &[Spoke], at: usize, right: u32, left: u32) -> bool {
    at < star.len() && star[at].right == right && star[at].left == left
}

#[test]
fn gathers_stars(rt: HostRuntime) -> Result<(), Fail> {
    let table = nine(rt.alloc())?;
    let edges = Edges {
        list: listed_edges(rt.alloc(), &table, &ENDS)?,
        starts: Vec::from_array(rt.alloc(), STARTS)?,
    };
    let chains = chains_of(rt.alloc(), &edges.list, 9)?;
    let mut star = Spokes::new();
    let mut arms = Arms::new();
    // A cycle.
    assert!(rt; gather_star(&table, &edges, &chains, 4, &mut star, &mut arms));
    assert_eq!(rt; arms.as_slice(), [2, 4, 7, 10, 11, 12].as_slice());
    assert_eq!(rt; star.len(), 6);
    assert!(rt; is_spoke(star.as_slice(), 0, 0, 1));
    assert!(rt; is_spoke(star.as_slice(), 1, 1, 5));
    assert!(rt; is_spoke(star.as_slice(), 2, 3, 0));
    assert!(rt; is_spoke(star.as_slice(), 3, 5, 8));
    assert!(rt; is_spoke(star.as_slice(), 4, 7, 3));
    assert!(rt; is_spoke(star.as_slice(), 5, 8, 7));
    // A path, which begins at 2 and ends at 0.
    assert!(rt; gather_star(&table, &edges, &chains, 1, &mut star, &mut arms));
    assert_eq!(rt; arms.as_slice(), [0, 3, 4, 5].as_slice());
    assert_eq!(rt; star.len(), 3);
    assert!(rt; is_spoke(star.as_slice(), 0, 2, 5));
    assert!(rt; is_spoke(star.as_slice(), 1, 4, 0));
    assert!(rt; is_spoke(star.as_slice(), 2, 5, 4));
    Ok(())
}

#[test]
fn gathers_no_star_without_the_chains(rt: HostRuntime) -> Result<(), Fail> {
    let table = nine(rt.alloc())?;
    let edges = Edges {
        list: listed_edges(rt.alloc(), &table, &ENDS)?,
        starts: Vec::from_array(rt.alloc(), STARTS)?,
    };
    let chains = chains_of(rt.alloc(), &[], 0)?;
    let mut star = Spokes::new();
    let mut arms = Arms::new();
    assert!(rt; !gather_star(&table, &edges, &chains, 4, &mut star, &mut arms));
    assert!(rt; gather_star(&table, &edges, &chains, 0, &mut star, &mut arms));
    Ok(())
}
