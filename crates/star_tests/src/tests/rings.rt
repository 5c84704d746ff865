//! What a ring says of its star, worked out by hand.
use super::grown::laid;
use pf_mesh::Mesh;
use pf_rings::{Ring, Star};
use small_meshes::mesh_at;
use std::alloc::Global;
use std::process::Abort;
use std::test::Fail;

// The star of a live node.
fn star_of(alloc: Global, mesh: &Mesh, n: u32) -> Result<Star, Fail> {
    match mesh.star(alloc, n)? {
        Some(star) => Ok(star),
        None => Err("no star".into()),
    }
}

// The neighbours are these, by rising name, each with the apex left of the edge to it and the one right of it.
fn assert_neighbours<R: Abort>(rt: &R, ring: Ring<'_>, rows: &[(u32, Option<u32>, Option<u32>)]) {
    let mut last = None;
    for (n, left, right) in rows {
        assert_eq!(rt; ring.next_neighbour(last), Some(*n));
        assert_eq!(rt;
            (ring.apex_left(*n), ring.apex_right(*n)),
            (*left, *right),
            "{n}"
        );
        last = Some(*n);
    }
    assert_eq!(rt; ring.next_neighbour(last), None);
}

// The node is on the boundary, and its triangles are one cycle or one path, where that is said.
fn assert_shape<R: Abort>(rt: &R, ring: Ring<'_>, boundary: bool, fan: bool) {
    assert_eq!(rt; (ring.is_boundary(), ring.one_fan()), (boundary, fan));
}

// Of the first two chunks these share the node, and the keeper is this one.
fn assert_chunks<R: Abort>(rt: &R, ring: Ring<'_>, sharers: (bool, bool), keeper: u16) {
    assert_eq!(rt; (ring.is_sharer(0), ring.is_sharer(1)), sharers);
    if ring.spokes().len() > 0 {
        assert_eq!(rt; ring.keeper(), keeper);
    }
}

#[test]
fn rings_of_the_kite(rt: HostRuntime) -> Result<(), Fail> {
    let kite = [(0, 0), (8, 0), (4, 2), (4, -2)];
    let grown = laid(&rt, &kite, &[[0, 1, 2], [1, 0, 3]], [0, 1])?;
    let star = star_of(rt.alloc(), grown.mesh(), 0)?;
    let ring = Ring::of(&star);
    assert_shape(&rt, ring, true, true);
    assert_neighbours(
        &rt,
        ring,
        &[
            (1, Some(2), Some(3)),
            (2, None, Some(1)),
            (3, Some(1), None),
        ],
    );
    assert_chunks(&rt, ring, (true, true), 0);
    let star = star_of(rt.alloc(), grown.mesh(), 3)?;
    let ring = Ring::of(&star);
    assert_neighbours(&rt, ring, &[(0, None, Some(1)), (1, Some(0), None)]);
    assert_chunks(&rt, ring, (false, true), 1);
    Ok(())
}

#[test]
fn rings_of_an_inner_and_of_a_pinched_node(rt: HostRuntime) -> Result<(), Fail> {
    let square = [(0, 0), (8, 0), (8, 8), (0, 8), (4, 4)];
    let mesh = mesh_at(
        rt.alloc(),
        &square,
        &[[0, 1, 4], [1, 2, 4], [2, 3, 4], [3, 0, 4]],
    )?;
    let star = star_of(rt.alloc(), &mesh, 4)?;
    assert_shape(&rt, Ring::of(&star), false, true);
    let bow = [(0, 0), (4, 0), (4, 4), (-4, 0), (-4, -4)];
    let mesh = mesh_at(rt.alloc(), &bow, &[[0, 1, 2], [0, 3, 4]])?;
    let star = star_of(rt.alloc(), &mesh, 0)?;
    assert_shape(&rt, Ring::of(&star), true, false);
    Ok(())
}
