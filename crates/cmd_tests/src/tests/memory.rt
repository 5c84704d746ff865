//! Runs for which no memory is left.

use super::*;

// How many blocks are taken at most; how many bytes the largest have, and in how many sizes, each half the one before.
const MOST_BLOCKS: usize = 200_000;

const LARGEST: usize = 1 << 38;

const SIZES: u32 = 21;

// The length of a file whose bytes are in no block that is left.
const LONG: usize = 1 << 21;

// Takes blocks of this size until one is refused.
fn take_blocks(alloc: Global, taken: &mut Vec<Vec<u8>>, size: usize) -> Result<(), AllocError> {
    for _ in 0..MOST_BLOCKS {
        let Ok(block) = Vec::with_capacity(alloc, size) else {
            return Ok(());
        };
        taken.push(block)?;
    }
    Ok(())
}

// Takes all memory that the process may have but for small blocks, and touches none of it.
fn take_all(alloc: Global) -> Result<Vec<Vec<u8>>, AllocError> {
    let mut taken = Vec::with_capacity(alloc, MOST_BLOCKS)?;
    for halvings in 0..SIZES {
        take_blocks(alloc, &mut taken, LARGEST >> halvings)?;
    }
    Ok(taken)
}

// A run ends with 5 where no memory is left.
fn assert_starved<R: Abort + AllocGlobal + Threads + Sync>(
    rt: &R,
    words: &[&str],
    shelf: &mut MemShelf,
) -> Result<(), Fail> {
    let mut out = sink(rt.alloc())?;
    let taken = take_all(rt.alloc())?;
    let status = run(rt, rt.alloc(), words, shelf, &mut out, &OpenGate);
    drop(taken);
    assert_eq!(rt; status, 5);
    let said: &[u8] = b"parfum: out of memory\n";
    assert!(rt; out.text() == said);
    Ok(())
}

// This text, made long by empty lines.
fn long_file(alloc: Global, text: &[u8]) -> Result<Vec<u8>, AllocError> {
    let mut long = Vec::from_slice(alloc, text)?;
    long.resize(LONG, b'\n')?;
    Ok(long)
}

// The kite and its flip, with these bytes as the file of this name.
fn kite_with(alloc: Global, name: &str, file: &[u8]) -> Result<MemShelf, Fail> {
    let mut shelf = shelf_of(alloc, KITE, KITE_FLIP)?;
    shelf.put(name, file)?;
    Ok(shelf)
}

// A run of the kite with this file made long by empty lines ends with 5 where no memory is left, and else is done.
fn assert_needs_memory<R: Abort + AllocGlobal + Threads + Sync>(
    rt: &R,
    name: &str,
    text: &[u8],
) -> Result<(), Fail> {
    let long = long_file(rt.alloc(), text)?;
    let mut shelf = kite_with(rt.alloc(), name, &long)?;
    assert_starved(rt, &["replay", "k", "o"], &mut shelf)?;
    assert_absent(rt, &shelf, &["o.node", "o.ele"]);
    assert_held(rt, &shelf, name, &long);
    assert_run(rt, &["replay", "k", "o"], &mut shelf, 0, REPORT)
}

#[test]
fn a_run_without_memory_says_so(rt: HostRuntime) -> Result<(), Fail> {
    assert_needs_memory(&rt, "k.node", KITE_NODE)?;
    assert_needs_memory(&rt, "k.ele", KITE_ELE)?;
    assert_needs_memory(&rt, "o.journal", KITE_FLIP)
}
