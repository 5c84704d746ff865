//! Meshes as they are built, and the first faults of lists.
ghost use Rattle.std.specs.Prelude.{◌≤◌, All, length};
ghost use Rattle.pf_geom.specs.Plane.{IsInRange};

use super::*;

#[test]
fn builds_the_kite(rt: HostRuntime) -> Result<(), Fail> {
    let mesh = kite(&rt)?;
    let sites = [site(0, 0, 0), site(1, 8, 0), site(2, 4, 2), site(3, 4, -2)];
    assert_sites(&rt, &mesh, &sites);
    assert_tris(&rt, &mesh, &[tri(0, 1, 2), tri(0, 3, 1)]);
    assert_eq!(rt; (mesh.chunks(), mesh.first_new()), (1, 4));
    let band = Band {
        xlo: -268_435_456,
        ylo: -268_435_456,
        xhi: 268_435_456,
        yhi: 268_435_456,
        min2: 0,
        max2: 1_152_921_504_606_846_976,
    };
    assert_eq!(rt; mesh.bands(), [band].as_slice());
    Ok(())
}

// The first point is in no triangle.
fn assert_but_first<R: Abort + AllocGlobal>(rt: &R, mesh: &Mesh) {
    assert_eq!(rt; (mesh.sites().len(), mesh.first_new()), (3, 4));
    assert_eq!(rt; mesh.site(0), None);
    assert_eq!(rt; mesh.site(3), Some(Point { x: 0, y: 4 }));
}

#[test]
fn turns_a_clockwise_triangle_round(rt: HostRuntime) -> Result<(), Fail> {
    let mesh = mesh_at(rt.alloc(), &SQUARE, &[[3, 2, 1]])?;
    assert_tris(&rt, &mesh, &[tri(1, 2, 3)]);
    assert_but_first(&rt, &mesh);
    Ok(())
}

// The list of the kite's first triangle and this one has this fault.
fn assert_fault<R: Abort + AllocGlobal>(
    rt: &R,
    points: &[Point],
    corners: [u32; 3],
    fault: BuildErr,
)
    requires few { length points.now ≤ 1000 }
    requires in_range { All IsInRange points.now }
{
    let mesh = opened(rt.alloc(), points, &[[0, 1, 2], corners]);
    assert_eq!(rt; (corners, mesh.err()), (corners, Some(fault)));
}

#[test]
fn names_the_first_fault_of_a_list(rt: HostRuntime) -> Result<(), Fail> {
    let points = points_at(rt.alloc(), &KITE)?;
    assert!(rt; points.len() == 4);
    for (corners, fault) in [
        ([7, 0, 9], BuildErr::BadNode { tri: 1, node: 7 }),
        ([0, 4, 9], BuildErr::BadNode { tri: 1, node: 4 }),
        ([0, 0, 4], BuildErr::BadNode { tri: 1, node: 4 }),
        ([1, 0, 1], BuildErr::Flat { tri: 1 }),
        ([0, 1, 2], BuildErr::EdgeTwice { a: 0, b: 1 }),
        ([2, 1, 3], BuildErr::EdgeTwice { a: 1, b: 2 }),
        ([0, 3, 2], BuildErr::EdgeTwice { a: 2, b: 0 }),
    ] {
        assert_fault(&rt, &points, corners, fault);
    }
    Ok(())
}
