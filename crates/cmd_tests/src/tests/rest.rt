//! The texts of rest lists of meshes in files.
ghost use Rattle.std.specs.Prelude.{◌≤◌, length};

use super::*;
use pf_mesh::{Mesh, build};
use pf_say::rest_text;
use pf_tables::{Parts, read_part, read_size};
use tri_files::{read_ele, read_node};

mod meshes;

// A mesh and the text of its rest list.
#[derive(Clone, Copy)]
struct Listed<'a> {
    input: Input<'a>,
    text: &'a [u8],
}

// The names of the files of a mesh.
#[derive(Clone, Copy)]
struct Names {
    node: &'static str,
    ele: &'static str,
    part: &'static str,
    size: &'static str,
}

const READ: Names = Names {
    node: "k.node",
    ele: "k.ele",
    part: "k.part",
    size: "k.size",
};

const WRITTEN: Names = Names {
    node: "o.node",
    ele: "o.ele",
    part: "o.part",
    size: "o.size",
};

// The bytes of a file, which are few, and none where it isn't held.
fn file<'a>(shelf: &'a MemShelf, name: &str) -> &'a [u8]
    ensures { length result.now ≤ 10000 }
{
    match shelf.get(name) {
        Some(file) if file.len() <= 10_000 => file,
        _ => &[],
    }
}

// The mesh of these files.
fn mesh_of(alloc: Global, shelf: &MemShelf, names: Names) -> Result<Mesh, Fail> {
    let Ok(nodes) = read_node(alloc, file(shelf, names.node), 1) else {
        return Err(Fail::new("the nodes are refused"));
    };
    let Ok(triangles) = read_ele(alloc, file(shelf, names.ele), &nodes) else {
        return Err(Fail::new("the triangles are refused"));
    };
    let Ok(mesh) = build(alloc, &nodes.points, &triangles) else {
        return Err(Fail::new("the triangles make no mesh"));
    };
    let Ok(parts) = read_part(alloc, file(shelf, names.part), triangles.len() as u32) else {
        return Err(Fail::new("the partition is refused"));
    };
    let Ok(bands) = read_size(alloc, file(shelf, names.size)) else {
        return Err(Fail::new("the size table is refused"));
    };
    let Parts { owners, chunks } = parts;
    Ok(mesh.with_tables(&triangles, owners, chunks, bands)?)
}

// The text of the rest list of a mesh.
fn rest_of(alloc: Global, mesh: &Mesh) -> Result<Vec<u8>, Fail> {
    let lines = mesh.rest(alloc)?;
    Ok(rest_text(alloc, &lines)?)
}

// The text of the rest list of the mesh of these files.
fn listed_text(alloc: Global, shelf: &MemShelf, names: Names) -> Result<Vec<u8>, Fail> {
    let mesh = mesh_of(alloc, shelf, names)?;
    rest_of(alloc, &mesh)
}

// The mesh of these files has a rest list with this text.
fn assert_lists<R: Abort + AllocGlobal>(
    rt: &R,
    shelf: &MemShelf,
    names: Names,
    text: &[u8],
) -> Result<(), Fail> {
    let listed = listed_text(rt.alloc(), shelf, names)?;
    assert!(rt; listed.as_slice() == text, "{listed:?}");
    Ok(())
}

// The mesh has a rest list with this text.
fn assert_rest<R: Abort + AllocGlobal>(rt: &R, listed: Listed<'_>) -> Result<(), Fail> {
    let shelf = shelf_of(rt.alloc(), listed.input, b"")?;
    assert_lists(rt, &shelf, READ, listed.text)
}

#[test]
fn walks_of_the_square_end_at_its_diagonal(rt: HostRuntime) -> Result<(), Fail> {
    let size = b"default 0 15\n";
    let input = Input { size, ..SQUARE };
    let text = b"parfum rest 1\nlong 0 1 at 0 2 passes\nlong 0 2 at 0 2 passes\n\
        long 0 3 at 0 2 passes\nlong 1 2 at 0 2 passes\nlong 2 3 at 0 2 passes\nend 5\n";
    assert_rest(&rt, Listed { input, text })
}

#[test]
fn a_bisection_leaves_nothing_of_the_square(rt: HostRuntime) -> Result<(), Fail> {
    let size = b"default 0 16\n";
    let input = Input { size, ..SQUARE };
    let journal = b"parfum journal 1\n0 0 bisect 0 2\nend 1\n";
    let mut shelf = shelf_of(rt.alloc(), input, journal)?;
    let long = b"parfum rest 1\nlong 0 2 at 0 2 passes\nend 1\n";
    assert_lists(&rt, &shelf, READ, long)?;
    let said = b"operations 1\nnodes 5\ntriangles 4\narea2 32\n";
    assert_run(&rt, &["replay", "k", "o"], &mut shelf, 0, said)?;
    shelf.put("o.size", size)?;
    assert_lists(&rt, &shelf, WRITTEN, b"parfum rest 1\nend 0\n")
}

#[test]
fn short_edges_and_flips_are_listed(rt: HostRuntime) -> Result<(), Fail> {
    let input = Input {
        size: b"default 17 1000\n",
        ..ROOF
    };
    let text = b"parfum rest 1\nshort 0 1 corner passes\nshort 1 2 passes corner\n\
        short 1 3 off-boundary corner\nend 3\n";
    assert_rest(&rt, Listed { input, text })?;
    let text = b"parfum rest 1\nflip 0 1\nend 1\n";
    assert_rest(&rt, Listed { input: KITE, text })
}

#[test]
fn small_meshes_are_listed_as_an_independent_model_lists_them(rt: HostRuntime) -> Result<(), Fail> {
    assert_rest(&rt, meshes::SEVEN)?;
    assert_rest(&rt, meshes::PIECES)?;
    assert_rest(&rt, meshes::THREE_ENDS)?;
    assert_rest(&rt, meshes::EQUAL_SIDES)
}

#[test]
fn larger_meshes_are_listed_as_an_independent_model_lists_them(
    rt: HostRuntime,
) -> Result<(), Fail> {
    assert_rest(&rt, meshes::FAR_WALKS)?;
    assert_rest(&rt, meshes::STRAIGHT_SIDES)?;
    assert_rest(&rt, meshes::FIVE_BANDS)?;
    assert_rest(&rt, meshes::THREE_CHUNKS)?;
    assert_rest(&rt, meshes::TWENTY_NINE)
}
