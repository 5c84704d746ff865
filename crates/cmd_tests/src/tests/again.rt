//! What is written, read again, on grids that look random.

use super::*;

const EMPTY: &[u8] = b"parfum journal 1\nend 0\n";

// The next number of a sequence that looks random.
fn next(seed: u32) -> u32 {
    seed.wrapping_mul(1_664_525).wrapping_add(1_013_904_223)
}

// A grid whose nodes are moved a little, numbered from the base.
fn moved_node(alloc: Global, base: u32, seed: u32) -> Result<Vec<u8>, AllocError> {
    let mut text = Vec::new(alloc);
    let mut random = seed;
    put_line(&mut text, &[(SIDE + 1) * (SIDE + 1), 2, 0, 0])?;
    for y in 0..SIDE + 1 {
        for x in 0..SIDE + 1 {
            random = next(random);
            let across = x.wrapping_mul(100).wrapping_add(random >> 27);
            random = next(random);
            let up = y.wrapping_mul(100).wrapping_add(random >> 27);
            put_line(&mut text, &[name(x, y).wrapping_add(base), across, up])?;
        }
    }
    Ok(text)
}

// Its triangles, some of them clockwise.
fn moved_ele(alloc: Global, base: u32, seed: u32) -> Result<Vec<u8>, AllocError> {
    let mut text = Vec::new(alloc);
    let mut random = seed;
    let mut row = base;
    put_line(&mut text, &[2 * SIDE * SIDE, 3, 0])?;
    for y in 0..SIDE {
        for x in 0..SIDE {
            let (up, right) = (y.wrapping_add(1), x.wrapping_add(1));
            let (a, b) = (
                name(x, y).wrapping_add(base),
                name(right, y).wrapping_add(base),
            );
            let (c, d) = (
                name(right, up).wrapping_add(base),
                name(x, up).wrapping_add(base),
            );
            random = next(random);
            if random >> 31 == 0 {
                put_line(&mut text, &[row, b, c, a])?;
                put_line(&mut text, &[row.wrapping_add(1), a, c, d])?;
            } else {
                put_line(&mut text, &[row, d, b, a])?;
                put_line(&mut text, &[row.wrapping_add(1), c, b, d])?;
            }
            row = row.wrapping_add(2);
        }
    }
    Ok(text)
}

// Any chunks.
fn any_part(alloc: Global, seed: u32) -> Result<Vec<u8>, AllocError> {
    let mut text = Vec::new(alloc);
    let mut random = seed;
    for _ in 0..2 * SIDE * SIDE {
        random = next(random);
        put_line(&mut text, &[random >> 26])?;
    }
    Ok(text)
}

// Puts the files of a moved grid, its size table aside.
fn put_moved(alloc: Global, shelf: &mut MemShelf, base: u32, seed: u32) -> Result<(), Fail> {
    shelf.put("g.node", &moved_node(alloc, base, seed)?)?;
    shelf.put("g.ele", &moved_ele(alloc, base, seed)?)?;
    shelf.put("g.part", &any_part(alloc, seed)?)?;
    Ok(())
}

// A shelf with size tables and empty journals for a replay of what stands there and one of what that writes.
fn empty_journals(alloc: Global) -> Result<MemShelf, Fail> {
    let mut shelf = MemShelf::new(alloc, Vec::new(alloc));
    for (name, text) in [
        ("g.size", ALL_LENGTHS),
        ("o.size", ALL_LENGTHS),
        ("o.journal", EMPTY),
        ("p.journal", EMPTY),
    ] {
        shelf.put(name, text)?;
    }
    make_room(&mut shelf, &["o.node", "o.ele", "o.part"], 20_000)?;
    make_room(&mut shelf, &["p.node", "p.ele", "p.part"], 20_000)?;
    Ok(shelf)
}

// The first file is held and has more than so many bytes, and the second is the same.
fn assert_same<R: Abort>(rt: &R, shelf: &MemShelf, first: &str, second: &str, bytes: usize) {
    let file = shelf.get(first).unwrap_or(&[]);
    assert!(rt; file.len() > bytes, "{first}");
    assert_held(rt, shelf, second, file);
}

// A replay of an empty journal writes a mesh, and a replay on what it wrote writes the same.
fn assert_again<R: Abort + AllocGlobal + Threads + Sync>(
    rt: &R,
    base: u32,
    seed: u32,
) -> Result<(), Fail> {
    let mut shelf = empty_journals(rt.alloc())?;
    put_moved(rt.alloc(), &mut shelf, base, seed)?;
    let mut out = sink(rt.alloc())?;
    assert_status(rt, &["replay", "g", "o"], &mut shelf, &mut out, 0);
    assert_status(rt, &["replay", "o", "p"], &mut shelf, &mut out, 0);
    assert_same(rt, &shelf, "o.node", "p.node", 1000);
    assert_same(rt, &shelf, "o.ele", "p.ele", 1000);
    assert_same(rt, &shelf, "o.part", "p.part", 500);
    Ok(())
}

#[test]
fn what_is_written_is_read_again(rt: HostRuntime) -> Result<(), Fail> {
    for seed in 0..20 {
        assert_again(&rt, seed % 2, next(seed))?;
    }
    Ok(())
}
