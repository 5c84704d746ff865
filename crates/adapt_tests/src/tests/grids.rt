//! Grids, adapted by several workers.

use super::*;
use pf_grid::{GenErr, grid};
use pf_mesh::Mesh;
use pf_tables::part_text;
use std::alloc::AllocError;
use tri_files::{ele_text, node_text};

fn put_node(alloc: Global, shelf: &mut MemShelf, mesh: &Mesh) -> Result<(), Fail> {
    let text = node_text(alloc, mesh, 0)?;
    shelf.put("g.node", &text)?;
    Ok(())
}

fn put_ele(alloc: Global, shelf: &mut MemShelf, mesh: &Mesh) -> Result<(), Fail> {
    let text = ele_text(alloc, mesh, 0)?;
    shelf.put("g.ele", &text)?;
    Ok(())
}

fn put_part(alloc: Global, shelf: &mut MemShelf, mesh: &Mesh) -> Result<(), Fail> {
    let text = part_text(alloc, mesh)?;
    shelf.put("g.part", &text)?;
    Ok(())
}

// Puts the files of a mesh, its size table aside.
fn put_texts(alloc: Global, shelf: &mut MemShelf, mesh: &Mesh) -> Result<(), Fail> {
    put_node(alloc, shelf, mesh)?;
    put_ele(alloc, shelf, mesh)?;
    put_part(alloc, shelf, mesh)
}

// A shelf with the files of a grid of so many cells a side, and room for what an adaptation writes.
fn grid_shelf(alloc: Global, cells: u32, size: &[u8]) -> Result<MemShelf, Fail> {
    let Ok(mesh) = grid(alloc, cells) else {
        return Err(Fail::new("there is no grid"));
    };
    let mut shelf = MemShelf::new(alloc, Vec::new(alloc));
    put_texts(alloc, &mut shelf, &mesh)?;
    shelf.put("g.size", size)?;
    make_room(&mut shelf, 1_000_000)?;
    Ok(shelf)
}

// The file of a name, and none where it isn't held.
fn copy(alloc: Global, shelf: &MemShelf, name: &str) -> Result<Vec<u8>, Fail> {
    match shelf.get(name) {
        Some(file) => Ok(Vec::from_slice(alloc, file)?),
        None => Ok(Vec::new(alloc)),
    }
}

// The text has this among its bytes.
fn says(text: &[u8], line: &[u8]) -> bool {
    for start in 0..text.len() {
        if text[start..].starts_with(line) {
            return true;
        }
    }
    false
}

// The files of a mesh that an adaptation wrote.
#[derive(Drop)]
struct Copies {
    node: Vec<u8>,
    ele: Vec<u8>,
    part: Vec<u8>,
}

fn copy_mesh(alloc: Global, shelf: &MemShelf) -> Result<Copies, Fail> {
    Ok(Copies {
        node: copy(alloc, shelf, "o.node")?,
        ele: copy(alloc, shelf, "o.ele")?,
        part: copy(alloc, shelf, "o.part")?,
    })
}

// A run that is done.
fn assert_done<R: Abort + AllocGlobal + Threads + Sync>(
    rt: &R,
    words: &[&str],
    shelf: &mut MemShelf,
    out: &mut MemSink,
) {
    let status = run(rt, rt.alloc(), words, shelf, out, &OpenGate);
    assert_eq!(rt; status, 0, "{words:?}");
}

// A replay of what an adaptation wrote writes the same files of a mesh, which are long.
fn assert_replays<R: Abort + AllocGlobal + Threads + Sync>(
    rt: &R,
    shelf: &mut MemShelf,
    out: &mut MemSink,
) -> Result<(), Fail> {
    let Copies { node, ele, part } = copy_mesh(rt.alloc(), shelf)?;
    assert!(rt; node.len() > 10_000 && ele.len() > 10_000 && part.len() > 4000);
    assert_done(rt, &["replay", "g", "o"], shelf, out);
    assert_held(rt, shelf, "o.node", &node);
    assert_held(rt, shelf, "o.ele", &ele);
    assert_held(rt, shelf, "o.part", &part);
    Ok(())
}

#[test]
fn a_replay_writes_what_an_adaptation_wrote(rt: HostRuntime) -> Result<(), Fail> {
    let size = b"0 0 512 512 256 2048\ndefault 0 8192\n";
    let mut shelf = grid_shelf(rt.alloc(), 32, size)?;
    let mut out = sink(rt.alloc())?;
    let words = ["adapt", "g", "o", "--workers", "4", "--ops", "2000"];
    assert_done(&rt, &words, &mut shelf, &mut out);
    assert!(&rt; says(out.text(), b"\narea2 8388608\n"));
    assert_replays(&rt, &mut shelf, &mut out)
}

// The partition that gives these triangles the chunks from 0 to 63 in turn.
fn scattered(alloc: Global, triangles: u32) -> Result<Vec<u8>, AllocError> {
    let mut text = Vec::new(alloc);
    for i in 0..triangles {
        let chunk = (i % 64) as u8;
        if chunk >= 10 {
            text.push(b'0' + chunk / 10)?;
        }
        text.push(b'0' + chunk % 10)?;
        text.push(b'\n')?;
    }
    Ok(text)
}

#[test]
fn many_chunks_and_a_large_budget_go_together(rt: HostRuntime) -> Result<(), Fail> {
    let mut shelf = grid_shelf(rt.alloc(), 64, b"default 0 8192\n")?;
    let part = scattered(rt.alloc(), 8192)?;
    shelf.put("g.part", &part)?;
    let words = ["adapt", "g", "o", "--ops", "100000"];
    let said = b"operations 0\nnodes 4225\ntriangles 8192\narea2 33554432\nrest 0\nquiet\n";
    assert_run(&rt, &words, &mut shelf, 0, said)?;
    assert_held(&rt, &shelf, "o.journal", NOTHING_DONE);
    assert_held(&rt, &shelf, "o.part", &part);
    Ok(())
}

#[test]
fn a_grid_is_shown(rt: HostRuntime) -> Result<(), Fail> {
    let mut shelf = MemShelf::new(rt.alloc(), Vec::new(rt.alloc()));
    for (words, said) in [
        (
            ["demo", "4"].as_slice(),
            b"grid 4\narea2 131072\neuler 1\n".as_slice(),
        ),
        (&["demo", "4"], b"grid 4\narea2 131072\neuler 1\n"),
        (&["demo", "--", "01"], b"grid 1\narea2 8192\neuler 1\n"),
        (&["demo", "--", "01"], b"grid 1\narea2 8192\neuler 1\n"),
    ] {
        assert_run(&rt, words, &mut shelf, 0, said)?;
    }
    Ok(())
}

// There is no grid of so many cells a side.
fn has_no_grid(alloc: Global, cells: u32) -> bool {
    matches!(grid(alloc, cells), Err(GenErr::Size))
}

#[test]
fn a_grid_has_a_side_of_at_most_64_cells(rt: HostRuntime) {
    assert!(&rt; has_no_grid(rt.alloc(), 65));
    assert!(&rt; has_no_grid(rt.alloc(), 0));
}
