//! Areas, Euler numbers and boundaries of worked meshes.
use super::*;
use pf_forms::{area2, boundary, euler};
use std::alloc::AllocError;
use std::process::Abort;

// The mesh with these points and triangles has this doubled area.
fn assert_area2<R: Abort + AllocGlobal>(
    rt: &R,
    places: &[(i16, i16)],
    tris: &[[u32; 3]],
    doubled: i128,
) -> Result<(), Fail> {
    let m = mesh_at(rt.alloc(), places, tris)?;
    assert_eq!(rt; area2(&m), doubled);
    Ok(())
}

// The mesh with these points and triangles has this Euler number and these boundary edges.
fn assert_edges<R: Abort + AllocGlobal>(
    rt: &R,
    places: &[(i16, i16)],
    tris: &[[u32; 3]],
    number: i64,
    edges: &[(u32, u32)],
) -> Result<(), Fail> {
    let m = mesh_at(rt.alloc(), places, tris)?;
    assert_eq!(rt; euler(rt.alloc(), &m)?, number);
    let found = boundary(rt.alloc(), &m)?;
    assert_eq!(rt; found.as_slice(), edges);
    Ok(())
}

#[test]
fn adds_the_areas_of_all_triangles(rt: HostRuntime) -> Result<(), Fail> {
    // A square, cut along a diagonal; a kite; and a fan round an inner node.
    assert_area2(
        &rt,
        &[(0, 0), (4, 0), (4, 4), (0, 4)],
        &[[0, 1, 2], [0, 2, 3]],
        32,
    )?;
    assert_area2(
        &rt,
        &[(0, 0), (8, 0), (4, 2), (4, -2)],
        &[[0, 1, 2], [1, 0, 3]],
        32,
    )?;
    assert_area2(
        &rt,
        &[(4, 3), (0, 0), (4, 1), (8, 0), (4, 8)],
        &[[0, 1, 2], [0, 2, 3], [0, 3, 4], [0, 4, 1]],
        56,
    )?;
    assert_area2(&rt, &[], &[], 0)
}

#[test]
fn counts_edges_and_lists_the_boundary(rt: HostRuntime) -> Result<(), Fail> {
    // A square, cut along a diagonal: 4 nodes, 5 edges, 2 triangles.
    assert_edges(
        &rt,
        &[(0, 0), (4, 0), (4, 4), (0, 4)],
        &[[0, 1, 2], [0, 2, 3]],
        1,
        &[(0, 1), (1, 2), (2, 3), (3, 0)],
    )?;
    // A kite: 4 nodes, 5 edges, 2 triangles.
    assert_edges(
        &rt,
        &[(0, 0), (8, 0), (4, 2), (4, -2)],
        &[[0, 1, 2], [1, 0, 3]],
        1,
        &[(0, 3), (1, 2), (2, 0), (3, 1)],
    )?;
    // Two triangles that share a node alone: 5 nodes, 6 edges.
    assert_edges(
        &rt,
        &[(0, 0), (-2, 1), (-2, -1), (2, -1), (2, 1)],
        &[[0, 1, 2], [0, 3, 4]],
        1,
        &[(0, 1), (0, 3), (1, 2), (2, 0), (3, 4), (4, 0)],
    )?;
    assert_edges(&rt, &[], &[], 0, &[])
}

// The triangles of a grid of three by three squares, whose nodes are named along its rows, but for the two
// of the square whose upper right corner is this.
fn grid_without(alloc: Global, hole: u32) -> Result<Vec<[u32; 3]>, AllocError> {
    let mut tris = Vec::new(alloc);
    for row in 0..3u32 {
        for column in 0..3u32 {
            let below = row * 4 + column;
            let above = below + 4;
            if above + 1 != hole {
                tris.push([below, below + 1, above + 1])?;
                tris.push([below, above + 1, above])?;
            }
        }
    }
    Ok(tris)
}

#[test]
fn a_grid_has_its_border(rt: HostRuntime) -> Result<(), Fail> {
    let mut places = Vec::new(rt.alloc());
    for y in 0..4i16 {
        for x in 0..4i16 {
            places.push((x, y))?;
        }
    }
    // 9 squares: 16 nodes, 33 edges, 18 triangles.
    let border = [
        (0, 1),
        (1, 2),
        (2, 3),
        (3, 7),
        (4, 0),
        (7, 11),
        (8, 4),
        (11, 15),
        (12, 8),
        (13, 12),
        (14, 13),
        (15, 14),
    ];
    let whole = grid_without(rt.alloc(), 0)?;
    assert_edges(&rt, &places, &whole, 1, &border)?;
    // Without the square in the middle: 16 nodes, 32 edges, 16 triangles.
    let inner = [
        (0, 1),
        (1, 2),
        (2, 3),
        (3, 7),
        (4, 0),
        (5, 9),
        (6, 5),
        (7, 11),
        (8, 4),
        (9, 10),
        (10, 6),
        (11, 15),
        (12, 8),
        (13, 12),
        (14, 13),
        (15, 14),
    ];
    let pierced = grid_without(rt.alloc(), 10)?;
    assert_edges(&rt, &places, &pierced, 0, &inner)
}
