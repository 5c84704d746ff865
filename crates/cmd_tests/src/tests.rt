//! Whole runs over files in memory.

use itoa::Buffer;
use pf_cmd::run;
use pf_driver::OpenGate;
use pf_shelf::{Call, Kind, MemShelf, MemSink, Shelf};
use std::alloc::{AllocError, Global};
use std::process::Abort;
use std::test::Fail;
use std::thread::Threads;

mod again;
mod limits;
mod memory;
mod rest;
mod rows;
mod traces;

const KITE_NODE: &[u8] = b"4 2 0 0\n0 0 0\n1 8 0\n2 4 2\n3 4 -2\n";

const KITE_ELE: &[u8] = b"2 3 0\n0 0 1 2\n1 1 0 3\n";

const KITE_FLIP: &[u8] = b"parfum journal 1\n0 0 flip 0 1\nend 1\n";

const FLIPPED_ELE: &[u8] = b"2 3 0\n0 0 3 2\n1 1 2 3\n";

const REPORT: &[u8] = b"operations 1\nnodes 4\ntriangles 2\narea2 32\n";

const ONE_CHUNK: &[u8] = b"0\n0\n";

const ALL_LENGTHS: &[u8] = b"default 0 1000\n";

const SQUARE_NODE: &[u8] = b"4 2 0 0\n0 0 0\n1 4 0\n2 4 4\n3 0 4\n";

const SQUARE_ELE: &[u8] = b"2 3 0\n0 0 1 2\n1 0 2 3\n";

// The files of a mesh.
#[derive(Clone, Copy)]
struct Input<'a> {
    node: &'a [u8],
    ele: &'a [u8],
    part: &'a [u8],
    size: &'a [u8],
}

const SQUARE: Input<'static> = Input {
    node: SQUARE_NODE,
    ele: SQUARE_ELE,
    part: ONE_CHUNK,
    size: ALL_LENGTHS,
};

const KITE: Input<'static> = Input {
    node: KITE_NODE,
    ele: KITE_ELE,
    ..SQUARE
};

// The mesh of two triangles on a base line, with a node in the middle of it.
const ROOF: Input<'static> = Input {
    node: b"4 2 0 0\n0 0 0\n1 4 0\n2 8 0\n3 4 4\n",
    ele: b"2 3 0\n0 0 1 3\n1 1 2 3\n",
    ..SQUARE
};

// Puts the files of a mesh.
fn put_mesh(shelf: &mut MemShelf, input: Input<'_>) -> Result<(), Fail> {
    shelf.put("k.node", input.node)?;
    shelf.put("k.ele", input.ele)?;
    shelf.put("k.part", input.part)?;
    shelf.put("k.size", input.size)?;
    Ok(())
}

// The files of a mesh and a journal on a shelf with room for what is written, of which these calls will fail.
fn failing(
    alloc: Global,
    input: Input<'_>,
    journal: &[u8],
    fail: Vec<Call>,
) -> Result<MemShelf, Fail> {
    let mut shelf = MemShelf::new(alloc, fail);
    put_mesh(&mut shelf, input)?;
    shelf.put("o.journal", journal)?;
    make_room(&mut shelf, &["o.node", "o.ele", "o.part"], 1000)?;
    Ok(shelf)
}

// The files of a mesh and a journal on a shelf with room for what is written, of which no call will fail.
fn shelf_of(alloc: Global, input: Input<'_>, journal: &[u8]) -> Result<MemShelf, Fail> {
    failing(alloc, input, journal, Vec::new(alloc))
}

// Room for files of these names, each of so many bytes.
fn make_room(shelf: &mut MemShelf, names: &[&str], bytes: u64) -> Result<(), Fail> {
    for name in names {
        shelf.room(name, bytes)?;
    }
    Ok(())
}

// A sink with room for what is said.
fn sink(alloc: Global) -> Result<MemSink, Fail> {
    let mut out = MemSink::new(alloc, Vec::new(alloc));
    out.room(1000)?;
    Ok(out)
}

fn holds(shelf: &MemShelf, name: &str, bytes: &[u8]) -> bool {
    match shelf.get(name) {
        Some(file) => file == bytes,
        None => false,
    }
}

// The file of this name is held, and has these bytes.
fn assert_held<R: Abort>(rt: &R, shelf: &MemShelf, name: &str, bytes: &[u8]) {
    assert!(rt; holds(shelf, name, bytes), "{name}");
}

// No file of these names is held.
fn assert_absent<R: Abort>(rt: &R, shelf: &MemShelf, names: &[&str]) {
    for name in names {
        assert!(rt; shelf.get(name).is_none(), "{name}");
    }
}

// Runs, and holds the status against this.
fn assert_status<R: Abort + AllocGlobal + Threads + Sync, S: Shelf>(
    rt: &R,
    words: &[&str],
    shelf: &mut S,
    out: &mut MemSink,
    status: u8,
) {
    let ended = run(rt, rt.alloc(), words, shelf, out, &OpenGate);
    assert_eq!(rt; ended, status, "{words:?}");
}

// What these words made the program say is this.
fn assert_said<R: Abort>(rt: &R, words: &[&str], out: &MemSink, said: &[u8]) {
    assert!(rt; out.text() == said, "{words:?}: {said:?}");
}

// Runs, and holds the status and what is said against these.
fn assert_run<R: Abort + AllocGlobal + Threads + Sync>(
    rt: &R,
    words: &[&str],
    shelf: &mut MemShelf,
    status: u8,
    said: &[u8],
) -> Result<(), Fail> {
    let mut out = sink(rt.alloc())?;
    assert_status(rt, words, shelf, &mut out, status);
    assert_said(rt, words, &out, said);
    Ok(())
}

// The words of a run, its status, and what it says.
type Row<'a> = (&'a [&'a str], u8, &'a [u8]);

// Runs over the kite and its flip that write nothing, each with the status and what is said in its row.
fn assert_runs<R: Abort + AllocGlobal + Threads + Sync>(
    rt: &R,
    rows: &[Row<'_>],
) -> Result<(), Fail> {
    let mut shelf = shelf_of(rt.alloc(), KITE, KITE_FLIP)?;
    for (words, status, said) in rows {
        assert_run(rt, words, &mut shelf, *status, said)?;
    }
    assert_absent(rt, &shelf, &["o.node"]);
    Ok(())
}

// Runs over the kite and its flip whose words are in no form, and which write nothing.
fn assert_no_forms<R: Abort + AllocGlobal + Threads + Sync>(
    rt: &R,
    rows: &[&[&str]],
) -> Result<(), Fail> {
    let mut shelf = shelf_of(rt.alloc(), KITE, KITE_FLIP)?;
    for words in rows {
        assert_run(rt, words, &mut shelf, 2, b"parfum: words refused\n")?;
    }
    assert_absent(rt, &shelf, &["o.node"]);
    Ok(())
}

// A run of the kite with this journal is refused, and writes nothing.
fn assert_refused<R: Abort + AllocGlobal + Threads + Sync>(
    rt: &R,
    journal: &[u8],
    status: u8,
    said: &[u8],
) -> Result<(), Fail> {
    let mut shelf = shelf_of(rt.alloc(), KITE, journal)?;
    assert_run(rt, &["replay", "k", "o"], &mut shelf, status, said)?;
    assert_absent(rt, &shelf, &["o.node", "o.ele", "o.part"]);
    assert_held(rt, &shelf, "k.node", KITE_NODE);
    assert_held(rt, &shelf, "k.ele", KITE_ELE);
    assert_held(rt, &shelf, "o.journal", journal);
    Ok(())
}

#[test]
fn the_kite_is_flipped(rt: HostRuntime) -> Result<(), Fail> {
    let mut shelf = shelf_of(rt.alloc(), KITE, KITE_FLIP)?;
    assert_run(&rt, &["replay", "k", "o"], &mut shelf, 0, REPORT)?;
    assert_held(&rt, &shelf, "o.node", KITE_NODE);
    assert_held(&rt, &shelf, "o.ele", FLIPPED_ELE);
    assert_held(&rt, &shelf, "o.part", ONE_CHUNK);
    assert_held(&rt, &shelf, "k.ele", KITE_ELE);
    Ok(())
}

#[test]
fn the_scale_multiplies_coordinates(rt: HostRuntime) -> Result<(), Fail> {
    let mut shelf = shelf_of(rt.alloc(), KITE, KITE_FLIP)?;
    let words = ["replay", "k", "o", "--scale", "10"];
    let said = b"operations 1\nnodes 4\ntriangles 2\narea2 3200\n";
    assert_run(&rt, &words, &mut shelf, 0, said)?;
    let node = b"4 2 0 0\n0 0 0\n1 80 0\n2 40 20\n3 40 -20\n";
    assert_held(&rt, &shelf, "o.node", node);
    Ok(())
}

#[test]
fn words_in_no_form_are_refused(rt: HostRuntime) -> Result<(), Fail> {
    assert_no_forms(
        &rt,
        &[
            &[],
            &["replay", "k"],
            &["replay", "k", "o", "p"],
            &["reply", "k", "o"],
            &["check"],
            &["check", "k", "o"],
            &["replay", "k", "-o"],
            &["replay", "k", "o", "--scale", "0"],
            &["replay", "k", "o", "--scale", "1048577"],
        ],
    )
}

#[test]
fn an_operation_that_fails_is_refused(rt: HostRuntime) -> Result<(), Fail> {
    let twice = b"parfum journal 1\n0 0 flip 0 1\n1 0 flip 0 1\nend 2\n";
    assert_refused(&rt, twice, 6, b"operation 1 refused: no-edge\n")?;
    let gone = b"parfum journal 1\n0 0 flip 0 9\nend 1\n";
    assert_refused(&rt, gone, 6, b"operation 0 refused: gone 9\n")
}

#[test]
fn a_file_that_is_not_in_form_is_refused(rt: HostRuntime) -> Result<(), Fail> {
    let word = b"parfum journal 1\n0 0 flop 0 1\nend 1\n";
    assert_refused(&rt, word, 1, b"o.journal line 2 column 5: word refused\n")
}

#[test]
fn a_file_that_is_missing_is_named(rt: HostRuntime) -> Result<(), Fail> {
    assert_runs(
        &rt,
        &[
            (&["replay", "m", "o"], 7, b"m.node: missing\n"),
            (&["replay", "k", "p"], 7, b"p.journal: missing\n"),
        ],
    )
}

// A run of the kite whose call of this kind and number, counted from 0, fails.
fn assert_fails<R: Abort + AllocGlobal + Threads + Sync>(
    rt: &R,
    words: &[&str],
    call: Call,
    status: u8,
    said: &[u8],
) -> Result<MemShelf, Fail> {
    let fail = vec![in rt.alloc(); call]?;
    let mut shelf = failing(rt.alloc(), KITE, KITE_FLIP, fail)?;
    assert_run(rt, words, &mut shelf, status, said)?;
    Ok(shelf)
}

// A run of the kite whose read of this number, counted from 0, fails.
fn assert_unread<R: Abort + AllocGlobal + Threads + Sync>(
    rt: &R,
    words: &[&str],
    nth: u64,
    said: &[u8],
) -> Result<(), Fail> {
    let kind = Kind::Read;
    let shelf = assert_fails(rt, words, Call { kind, nth }, 3, said)?;
    assert_absent(rt, &shelf, &["o.node"]);
    Ok(())
}

// In each row, the read of this number fails in one run and the next read in another: a file's bytes and its end.
fn assert_reads<R: Abort + AllocGlobal + Threads + Sync>(
    rt: &R,
    words: &[&str],
    rows: &[(u64, &[u8])],
) -> Result<(), Fail> {
    for (nth, said) in rows {
        assert_unread(rt, words, *nth, said)?;
        assert_unread(rt, words, nth.wrapping_add(1), said)?;
    }
    Ok(())
}

#[test]
fn a_read_that_fails_names_its_file(rt: HostRuntime) -> Result<(), Fail> {
    assert_reads(
        &rt,
        &["replay", "k", "o"],
        &[
            (0, b"k.node: read failed\n"),
            (2, b"k.ele: read failed\n"),
            (4, b"k.part: read failed\n"),
            (6, b"k.size: read failed\n"),
            (8, b"o.journal: read failed\n"),
        ],
    )
}

#[test]
fn a_read_that_fails_in_a_check_names_its_file(rt: HostRuntime) -> Result<(), Fail> {
    assert_reads(
        &rt,
        &["check", "k"],
        &[
            (0, b"k.node: read failed\n"),
            (2, b"k.ele: read failed\n"),
            (4, b"k.part: read failed\n"),
        ],
    )
}

// Each call of this kind, which writes, fails in a run of its own.
fn assert_writes_fail<R: Abort + AllocGlobal + Threads + Sync>(
    rt: &R,
    kind: Kind,
) -> Result<(), Fail> {
    for (nth, said) in [
        (0, b"o.node: write failed\n".as_slice()),
        (1, b"o.ele: write failed\n"),
        (2, b"o.part: write failed\n"),
    ] {
        let _ = assert_fails(rt, &["replay", "k", "o"], Call { kind, nth }, 4, said)?;
    }
    Ok(())
}

#[test]
fn a_write_that_fails_names_its_file(rt: HostRuntime) -> Result<(), Fail> {
    assert_writes_fail(&rt, Kind::Create)?;
    assert_writes_fail(&rt, Kind::Append)
}

// A sink with room for what is said, whose first call fails.
fn failing_sink(alloc: Global) -> Result<MemSink, Fail> {
    let mut out = MemSink::new(alloc, vec![in alloc; 0]?);
    out.room(1000)?;
    Ok(out)
}

#[test]
fn a_sink_that_fails_ends_the_run_with_4(rt: HostRuntime) -> Result<(), Fail> {
    let mut shelf = shelf_of(rt.alloc(), KITE, KITE_FLIP)?;
    let mut out = failing_sink(rt.alloc())?;
    assert_status(&rt, &["replay", "k", "o"], &mut shelf, &mut out, 4);
    assert_held(&rt, &shelf, "o.ele", FLIPPED_ELE);
    Ok(())
}

#[test]
fn options_stand_at_most_once_and_have_a_value(rt: HostRuntime) -> Result<(), Fail> {
    assert_no_forms(
        &rt,
        &[
            &["check", "k", "--scale", "2", "--scale", "2"],
            &["check", "k", "--scale"],
            &["check", "k", "--scale=+2"],
            &["check", "k", "--scale", "+2"],
            &["check", "k", "--scales", "2"],
        ],
    )
}

const SCALED_CHECK: &[u8] = b"nodes 4\ntriangles 2\narea2 128\neuler 1\nboundary 4\nchunks 1\n";

#[test]
fn options_stand_anywhere(rt: HostRuntime) -> Result<(), Fail> {
    assert_runs(
        &rt,
        &[
            (&["check", "k", "--scale", "002"], 0, SCALED_CHECK),
            (&["check", "k", "--scale=2"], 0, SCALED_CHECK),
            (&["check", "--scale", "2", "k"], 0, SCALED_CHECK),
            (&["check", "--scale=2", "--", "k"], 0, SCALED_CHECK),
        ],
    )
}

// A slanted grid of SIDE by SIDE cells, each cut by its longer diagonal, and the same grid with all diagonals flipped.
const SIDE: u32 = 12;

// A line of numbers parted by spaces.
fn put_line(text: &mut Vec<u8>, numbers: &[u32]) -> Result<(), AllocError> {
    for (i, number) in numbers.iter().enumerate() {
        if i > 0 {
            text.push(b' ')?;
        }
        let mut buffer = Buffer::new();
        text.extend_from_slice(buffer.format(*number).as_bytes())?;
    }
    text.push(b'\n')?;
    Ok(())
}

// The name of the node at column x and row y.
fn name(x: u32, y: u32) -> u32 {
    y.wrapping_mul(SIDE + 1).wrapping_add(x)
}

fn grid_node(alloc: Global) -> Result<Vec<u8>, AllocError> {
    let mut text = Vec::new(alloc);
    put_line(&mut text, &[(SIDE + 1) * (SIDE + 1), 2, 0, 0])?;
    for y in 0..SIDE + 1 {
        for x in 0..SIDE + 1 {
            let across = x.wrapping_mul(10).wrapping_add(y.wrapping_mul(3));
            put_line(&mut text, &[name(x, y), across, y.wrapping_mul(10)])?;
        }
    }
    Ok(text)
}

fn long_ele(alloc: Global) -> Result<Vec<u8>, AllocError> {
    let mut text = Vec::new(alloc);
    put_line(&mut text, &[2 * SIDE * SIDE, 3, 0])?;
    let mut row = 0_u32;
    for y in 0..SIDE {
        for x in 0..SIDE {
            let (up, right) = (y.wrapping_add(1), x.wrapping_add(1));
            put_line(
                &mut text,
                &[row, name(x, y), name(right, y), name(right, up)],
            )?;
            put_line(
                &mut text,
                &[
                    row.wrapping_add(1),
                    name(x, y),
                    name(right, up),
                    name(x, up),
                ],
            )?;
            row = row.wrapping_add(2);
        }
    }
    Ok(text)
}

// The triangles by their least corner: above it to the right, and above it.
fn short_ele(alloc: Global) -> Result<Vec<u8>, AllocError> {
    let mut text = Vec::new(alloc);
    put_line(&mut text, &[2 * SIDE * SIDE, 3, 0])?;
    let mut row = 0_u32;
    for y in 0..SIDE {
        for x in 0..SIDE + 1 {
            let up = y.wrapping_add(1);
            if x < SIDE {
                put_line(
                    &mut text,
                    &[row, name(x, y), name(x.wrapping_add(1), y), name(x, up)],
                )?;
                row = row.wrapping_add(1);
            }
            if x > 0 {
                put_line(
                    &mut text,
                    &[row, name(x, y), name(x, up), name(x.wrapping_sub(1), up)],
                )?;
                row = row.wrapping_add(1);
            }
        }
    }
    Ok(text)
}

// One chunk for all.
fn grid_part(alloc: Global) -> Result<Vec<u8>, AllocError> {
    let mut text = Vec::new(alloc);
    for _ in 0..2 * SIDE * SIDE {
        text.extend_from_slice(b"0\n")?;
    }
    Ok(text)
}

// All diagonals, row after row from the last column to the first.
fn grid_journal(alloc: Global) -> Result<Vec<u8>, AllocError> {
    let mut text = Vec::new(alloc);
    text.extend_from_slice(b"parfum journal 1\n")?;
    let mut ticket = 0_u32;
    for y in 0..SIDE {
        for back in 0..SIDE {
            let x = (SIDE - 1).wrapping_sub(back);
            let mut buffer = Buffer::new();
            text.extend_from_slice(buffer.format(ticket).as_bytes())?;
            text.extend_from_slice(b" 0 flip ")?;
            put_line(
                &mut text,
                &[name(x, y), name(x.wrapping_add(1), y.wrapping_add(1))],
            )?;
            ticket = ticket.wrapping_add(1);
        }
    }
    text.extend_from_slice(b"end ")?;
    put_line(&mut text, &[SIDE * SIDE])?;
    Ok(text)
}

// The grid and the journal that flips its diagonals, with room for what is written over it.
fn grid_shelf(alloc: Global, nodes: &[u8]) -> Result<MemShelf, Fail> {
    let mut shelf = MemShelf::new(alloc, Vec::new(alloc));
    shelf.put("g.node", nodes)?;
    shelf.put("g.size", ALL_LENGTHS)?;
    put_grid(alloc, &mut shelf)?;
    make_room(&mut shelf, &["g.node", "g.ele", "g.part"], 10_000)?;
    Ok(shelf)
}

// Puts the triangles of the grid, their chunks and the journal.
fn put_grid(alloc: Global, shelf: &mut MemShelf) -> Result<(), Fail> {
    shelf.put("g.ele", &long_ele(alloc)?)?;
    shelf.put("g.part", &grid_part(alloc)?)?;
    shelf.put("g.journal", &grid_journal(alloc)?)?;
    Ok(())
}

#[test]
fn a_grid_of_diagonals_is_flipped(rt: HostRuntime) -> Result<(), Fail> {
    let nodes = grid_node(rt.alloc())?;
    let mut shelf = grid_shelf(rt.alloc(), &nodes)?;
    let said = b"operations 144\nnodes 169\ntriangles 288\narea2 28800\n";
    assert_run(&rt, &["replay", "g", "g"], &mut shelf, 0, said)?;
    assert_held(&rt, &shelf, "g.node", &nodes);
    assert_held(&rt, &shelf, "g.ele", &short_ele(rt.alloc())?);
    Ok(())
}
