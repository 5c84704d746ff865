//! A square of four triangles, of three chunks, and the copies that each of them has.
ghost use Rattle.std.specs.Prelude.{◌≡◌, ◌≤◌, ◌∷◌, [], IfOk};
ghost use Rattle.pf_model.specs.Applied.{IsFresh};
ghost use Rattle.pf_model.specs.Conforming.{HasDefault};

use pf_assemble::{assemble, divide, end_board, undivided};
use pf_geom::Point;
use pf_locks::Board;
use pf_mesh::{Band, Mesh, build};
use pf_star::Copies;
use std::alloc::Global;
use std::process::Abort;
use std::test::Fail;

// The corners of a square, and its middle.
const POINTS: [Point; 5] = [
    Point { x: 0, y: 0 },
    Point { x: 8, y: 0 },
    Point { x: 8, y: 8 },
    Point { x: 0, y: 8 },
    Point { x: 4, y: 4 },
];

const TRIS: [[u32; 3]; 4] = [[0, 1, 4], [1, 2, 4], [2, 3, 4], [3, 0, 4]];

// The keepers are the chunk 0 of the nodes 1, 2 and 4, and the chunk 1 of 0 and 3.
const OWNERS: [u16; 4] = [1, 0, 2, 1];

// The copies by chunk and node.
const COPIES: [(u16, u32); 10] = [
    (0, 1),
    (0, 2),
    (0, 4),
    (1, 0),
    (1, 1),
    (1, 3),
    (1, 4),
    (2, 2),
    (2, 3),
    (2, 4),
];

// The triangles by their corners, and the owner of each.
const LISTED: [(u32, u32, u32, u16); 4] = [(0, 1, 4, 1), (0, 4, 3, 1), (1, 2, 4, 0), (2, 3, 4, 2)];

// The band of every edge: every length is allowed.
fn everywhere() -> Band
    ensures { HasDefault (result ∷ []) }
{
    Band {
        xlo: -268_435_456,
        ylo: -268_435_456,
        xhi: 268_435_456,
        yhi: 268_435_456,
        min2: 0,
        max2: 1000,
    }
}

// The square, with its three chunks.
fn square(alloc: Global) -> Result<Mesh, Fail>
    ensures fresh { IfOk result (λ m. IsFresh m.mesh 0) }
    ensures few { IfOk result (λ m. m.mesh.first_new ≤ 1000) }
{
    let mesh = build(alloc, &POINTS, &TRIS)?;
    let owners = Vec::from_array(alloc, OWNERS)?;
    let bands = Vec::from_array(alloc, [everywhere()])?;
    let mesh = mesh.with_tables(&TRIS, owners, 3, bands)?;
    Ok(mesh)
}

// Whether the copies are those of the square.
fn are_copies(copies: &Copies) -> bool {
    let list = copies.list.as_slice();
    list.len() == COPIES.len()
        && list.iter().zip(COPIES.iter()).all(|(copy, named)| copy.chunk == named.0
            && copy.star.node() == named.1)
}

// Whether the mesh is the square.
fn is_square(mesh: &Mesh) -> bool {
    let named = mesh.sites().iter().zip(POINTS.iter()).enumerate().all(|(
        i,
        (site, at),
    )| site.name as usize == i && site.at == *at);
    let listed = mesh
        .tris()
        .iter()
        .zip(LISTED.iter())
        .all(|(t, row)| (t.a, t.b, t.c, t.owner) == *row);
    (named && mesh.sites().len() == POINTS.len())
        && (listed && mesh.tris().len() == LISTED.len())
        && (mesh.first_new() == 5 && mesh.chunks() == 3)
        && mesh.bands() == [everywhere()].as_slice()
}

#[test]
fn a_divided_square_is_put_together(rt: HostRuntime) -> Result<(), Fail> {
    let alloc = rt.alloc();
    let mesh = square(alloc)?;
    assert!(rt; is_square(&mesh));
    let copies = divide(alloc, &mesh)?;
    assert!(rt; are_copies(&copies));
    let again = undivided(alloc, copies)?;
    assert!(rt; is_square(&again));
    Ok(())
}

#[test]
fn a_board_that_ends_gives_its_mesh(rt: HostRuntime) -> Result<(), Fail> {
    let alloc = rt.alloc();
    let mesh = square(alloc)?;
    let (board, s) = Board::new(alloc, &mesh, 2, 1)?;
    let (again, journal) = end_board(alloc, board, s)?;
    assert!(rt; is_square(&again));
    assert!(rt; journal.len() == 0);
    Ok(())
}

#[test]
fn a_closed_board_is_put_together(rt: HostRuntime) -> Result<(), Fail> {
    let alloc = rt.alloc();
    let mesh = square(alloc)?;
    let (board, s) = Board::new(alloc, &mesh, 2, 1)?;
    let Ok(closed) = board.close(alloc, s) else {
        return Err("closed".into());
    };
    let (again, journal) = assemble(alloc, closed)?;
    assert!(rt; is_square(&again));
    assert!(rt; journal.len() == 0);
    Ok(())
}
