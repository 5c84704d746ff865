//! Meshes that were worked out by hand: each new star of a patch is the mesh's after the operation.
use super::grown::{Grown, grown_at, laid};
use super::patches::{held_of, is_same, named};
use pf_geom::Point;
use pf_mesh::{Cond, Mesh, Op};
use pf_patch::patch;
use pf_rings::{NewStar, Star};
use std::alloc::Global;
use std::process::Abort;
use std::test::Fail;

// Whether both are no star, or one and the same.
fn are_same(s: &Option<Star>, t: &Option<Star>) -> bool {
    match (s, t) {
        (Some(s), Some(t)) => is_same(s, t),
        (None, None) => true,
        _ => false,
    }
}

// The mesh has the star of each of these pairs, the new node under this name, and the pairs are of these nodes.
fn assert_stars<R: Abort + AllocGlobal>(
    rt: &R,
    mesh: &Mesh,
    pairs: Vec<NewStar>,
    name: u32,
    nodes: &[u32],
) -> Result<(), Fail> {
    let mut found = Vec::new(rt.alloc());
    for pair in pairs {
        let pair = named(pair, name);
        let star = mesh.star(rt.alloc(), pair.node())?;
        assert!(rt; are_same(pair.star(), &star));
        found.push(pair.node())?;
    }
    assert_eq!(rt; found.as_slice(), nodes);
    Ok(())
}

// Applies the operation. Its patch, from the stars of these nodes, has the star of each of them after it.
fn assert_row<R: Abort + AllocGlobal>(
    rt: &R,
    grown: &mut Grown,
    op: Op,
    nodes: &[u32],
) -> Result<(), Fail> {
    let held = held_of(rt.alloc(), grown.mesh(), nodes)?;
    let pairs = patch(rt.alloc(), &held, op)?;
    let name = grown.next_name();
    assert!(rt; grown.apply(0, op).is_ok());
    assert_eq!(rt; pairs.len(), nodes.len());
    assert_stars(rt, grown.mesh(), pairs, name, nodes)
}

// The triangles of a node: the right, the left and the owner of each.
fn spokes_of(alloc: Global, mesh: &Mesh, n: u32) -> Result<Vec<(u32, u32, u16)>, Fail> {
    let mut found = Vec::new(alloc);
    if let Some(star) = mesh.star(alloc, n)? {
        for s in star.spokes() {
            found.push((s.right, s.left, s.owner))?;
        }
    }
    Ok(found)
}

// Each of these nodes has these triangles.
fn assert_spokes<R: Abort + AllocGlobal>(
    rt: &R,
    mesh: &Mesh,
    rows: &[(u32, &[(u32, u32, u16)])],
) -> Result<(), Fail> {
    for (n, spokes) in rows {
        let found = spokes_of(rt.alloc(), mesh, *n)?;
        assert_eq!(rt; found.as_slice(), *spokes, "{n}");
    }
    Ok(())
}

// The node is in no triangle any more.
fn assert_gone<R: Abort + AllocGlobal>(rt: &R, mesh: &Mesh, n: u32) -> Result<(), Fail> {
    assert!(rt; mesh.star(rt.alloc(), n)?.is_none());
    Ok(())
}

#[test]
fn bisects_the_square_and_contracts_it_back(rt: HostRuntime) -> Result<(), Fail> {
    let corners = [(0, 0), (4, 0), (4, 4), (0, 4)];
    let mut grown = grown_at(&rt, &corners, &[[0, 1, 2], [0, 2, 3]])?;
    assert_row(&rt, &mut grown, Op::Bisect { a: 0, b: 2 }, &[0, 1, 2, 3, 4])?;
    assert_eq!(rt; grown.mesh().site(4), Some(Point { x: 2, y: 2 }));
    assert_spokes(
        &rt,
        grown.mesh(),
        &[
            (4, &[(0, 1, 0), (1, 2, 0), (2, 3, 0), (3, 0, 0)]),
            (1, &[(2, 4, 0), (4, 0, 0)]),
        ],
    )?;
    let back = Op::Contract { u: 4, v: 0 };
    assert_row(&rt, &mut grown, back, &[0, 1, 2, 3, 4])?;
    assert_gone(&rt, grown.mesh(), 4)?;
    assert_spokes(&rt, grown.mesh(), &[(0, &[(1, 2, 0), (2, 3, 0)])])
}

#[test]
fn contracts_towards_the_side(rt: HostRuntime) -> Result<(), Fail> {
    // Four triangles, of which three are round the node 1 and the neighbours 2 and 3 have an edge outside.
    let mut grown = grown_at(
        &rt,
        &[(0, 0), (4, 0), (16, 0), (4, 12), (8, 4)],
        &[[0, 1, 3], [1, 2, 4], [1, 4, 3], [2, 3, 4]],
    )?;
    let cond = grown.first_fail(0, Op::Contract { u: 1, v: 2 });
    assert_eq!(rt; cond, Some(Cond::LinkNode { x: 3 }));
    let aside = Op::Contract { u: 1, v: 0 };
    assert_row(&rt, &mut grown, aside, &[0, 1, 2, 3, 4])?;
    assert_spokes(&rt, grown.mesh(), &[(0, &[(2, 4, 0), (4, 3, 0)])])
}

#[test]
fn flips_between_two_chunks(rt: HostRuntime) -> Result<(), Fail> {
    // Two triangles on the edge from 0 to 1.
    let kite = [(0, 0), (8, 0), (4, 2), (4, -2)];
    let mut grown = laid(&rt, &kite, &[[0, 1, 2], [1, 0, 3]], [0, 1])?;
    assert_spokes(&rt, grown.mesh(), &[(0, &[(1, 2, 0), (3, 1, 1)])])?;
    assert_row(&rt, &mut grown, Op::Flip { a: 0, b: 1 }, &[0, 1, 2, 3])?;
    // The second chunk has no triangle at 0 any more, and the first none at 1.
    assert_spokes(
        &rt,
        grown.mesh(),
        &[
            (2, &[(0, 3, 0), (3, 1, 1)]),
            (0, &[(3, 2, 0)]),
            (1, &[(2, 3, 1)]),
        ],
    )
}

#[test]
fn contracts_into_a_dart(rt: HostRuntime) -> Result<(), Fail> {
    // Four triangles round the node 0, with a corner that points inwards at 2.
    let mut grown = grown_at(
        &rt,
        &[(4, 3), (0, 0), (4, 1), (8, 0), (4, 8)],
        &[[0, 1, 2], [0, 2, 3], [0, 3, 4], [0, 4, 1]],
    )?;
    let cond = grown.first_fail(0, Op::Contract { u: 0, v: 1 });
    assert_eq!(rt; cond, Some(Cond::Inverts { x: 2, y: 3 }));
    let down = Op::Contract { u: 0, v: 2 };
    assert_row(&rt, &mut grown, down, &[0, 1, 2, 3, 4])?;
    assert_gone(&rt, grown.mesh(), 0)?;
    assert_spokes(&rt, grown.mesh(), &[(2, &[(3, 4, 0), (4, 1, 0)])])
}
