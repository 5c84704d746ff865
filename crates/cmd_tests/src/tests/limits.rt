//! Inputs past a limit.
ghost use Rattle.std.specs.Prelude.{None};

use super::*;
use pf_shelf::ShelfFault;

// How many names a mesh may have, those of its vertices and one for each operation.
const MOST_NAMES: u32 = 1_048_576;

// How many bytes a file may have.
const LONGEST: u64 = 268_435_456;

// So many vertices in one place.
fn heap_node(alloc: Global, vertices: u32) -> Result<Vec<u8>, AllocError> {
    let mut text = Vec::new(alloc);
    put_line(&mut text, &[vertices, 2, 0, 0])?;
    for k in 0..vertices {
        put_line(&mut text, &[k, 0, 0])?;
    }
    Ok(text)
}

// A replay of this journal on a mesh of as many vertices as there may be names ends with this status and says this.
fn assert_heap<R: Abort + AllocGlobal + Threads + Sync>(
    rt: &R,
    journal: &[u8],
    status: u8,
    said: &[u8],
) -> Result<(), Fail> {
    let node = heap_node(rt.alloc(), MOST_NAMES)?;
    let heap = Input {
        node: &node,
        ele: b"0 3 0\n",
        part: b"",
        size: ALL_LENGTHS,
    };
    let mut shelf = shelf_of(rt.alloc(), heap, journal)?;
    assert_run(rt, &["replay", "k", "o"], &mut shelf, status, said)
}

#[test]
fn nodes_and_operations_past_the_limit_are_refused(rt: HostRuntime) -> Result<(), Fail> {
    let said = b"limit: nodes plus operations 1048577 above 1048576\n";
    assert_heap(&rt, KITE_FLIP, 1, said)
}

#[test]
fn nodes_up_to_the_limit_are_taken(rt: HostRuntime) -> Result<(), Fail> {
    let said = b"operations 0\nnodes 0\ntriangles 0\narea2 0\n";
    assert_heap(&rt, b"parfum journal 1\nend 0\n", 0, said)
}

// Each file has so many line ends, for which no memory is taken.
#[derive(Drop)]
struct Ends {
    len: u64,
    taken: u64,
    failed: u64,
}

impl Shelf for Ends {
    ghost seen = { λ shelf. record { told = None; read_faults = 0; write_faults = shelf.failed; misses = 0; taken = shelf.taken } };

    fn read_at(&mut self, _name: &str, at: u64, buf: &mut [u8]) -> Result<usize, ShelfFault> {
        let left = self.len.saturating_sub(at);
        let n = left.min(buf.len() as u64);
        buf[..n as usize].fill(b'\n');
        self.taken = self.taken.saturating_add(n);
        Ok(n as usize)
    }

    fn create(&mut self, _name: &str) -> Result<(), ShelfFault> {
        self.failed = self.failed.saturating_add(1);
        Err(ShelfFault::Failed)
    }

    fn append(&mut self, _name: &str, _bytes: &[u8]) -> Result<usize, ShelfFault> {
        self.failed = self.failed.saturating_add(1);
        Err(ShelfFault::Failed)
    }
}

// A check of files of so many line ends is refused and says this.
fn assert_length<R: Abort + AllocGlobal + Threads + Sync>(
    rt: &R,
    len: u64,
    said: &[u8],
) -> Result<(), Fail> {
    let mut shelf = Ends {
        len,
        taken: 0,
        failed: 0,
    };
    let mut out = sink(rt.alloc())?;
    assert_status(rt, &["check", "k"], &mut shelf, &mut out, 1);
    assert_said(rt, &["check", "k"], &out, said);
    Ok(())
}

#[test]
fn a_file_that_is_longer_than_allowed_is_named(rt: HostRuntime) -> Result<(), Fail> {
    assert_length(&rt, LONGEST, b"k.node line 268435457: too few words\n")?;
    assert_length(&rt, LONGEST + 1, b"k.node: longer than 268435456 bytes\n")
}
